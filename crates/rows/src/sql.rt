//! The statements of the table: each call runs one, and says that `sqlite` ran it.
ghost use Rattle.std.specs.Prelude.{◌∷◌, [], IfOk, IfErr};
ghost use Rattle.sqlite.specs.Held.{state};
ghost use Rattle.sqlite.specs.State.{HasCleanDisk, Executes, FailsToQuery, QueriesRow, Shown};
ghost use Rattle.sqlite.specs.declared.types.Value.TheVariants.{Text};
ghost use Rattle.rows.specs.Entries.{put_text, remove_text, get_text, has_text, each_text, len_text};
ghost use Rattle.rows.specs.Entries.{begin_text, commit_text, rollback_text};

use sqlite::{Alter, Connection, Error, Row, params};

/// Runs the statement that puts a body under a key.
pub fn execute_put<S: Alter>(
    conn: &mut Connection<S>,
    key: &str,
    body: &str,
) -> Result<usize, Error>
    ensures runs { HasCleanDisk (state S.Store conn.new) → Executes put_text (Text key.now ∷ Text body.now ∷ [])
        (state S.Store conn.old) (state S.Store conn.new) result }
    ensures clean { HasCleanDisk (state S.Store conn.new) → HasCleanDisk (state S.Store conn.old) }
{
    conn.execute(
        "INSERT INTO entry (key, body) VALUES (?1, ?2) ON CONFLICT(key) DO UPDATE SET body = excluded.body",
        params![key, body],
    )
}

/// Runs the statement that removes the row of a key.
pub fn execute_remove<S: Alter>(conn: &mut Connection<S>, key: &str) -> Result<usize, Error>
    ensures runs { HasCleanDisk (state S.Store conn.new) → Executes remove_text (Text key.now ∷ [])
        (state S.Store conn.old) (state S.Store conn.new) result }
    ensures clean { HasCleanDisk (state S.Store conn.new) → HasCleanDisk (state S.Store conn.old) }
{
    conn.execute("DELETE FROM entry WHERE key = ?1", params![key])
}

/// Runs the query for the body of a key.
pub fn query_body<S: Alter>(conn: &mut Connection<S>, key: &str) -> Result<Row, Error>
    ensures row { HasCleanDisk (state S.Store conn.new) → QueriesRow get_text (Text key.now ∷ [])
        (state S.Store conn.old) (state S.Store conn.new) result }
    ensures clean { HasCleanDisk (state S.Store conn.new) → HasCleanDisk (state S.Store conn.old) }
{
    conn.query_row("SELECT body FROM entry WHERE key = ?1", params![key])
}

/// Runs the query for a key.
pub fn query_key<S: Alter>(conn: &mut Connection<S>, key: &str) -> Result<Row, Error>
    ensures row { HasCleanDisk (state S.Store conn.new) → QueriesRow has_text (Text key.now ∷ [])
        (state S.Store conn.old) (state S.Store conn.new) result }
    ensures clean { HasCleanDisk (state S.Store conn.new) → HasCleanDisk (state S.Store conn.old) }
{
    conn.query_row("SELECT key FROM entry WHERE key = ?1", params![key])
}

/// Runs the query for all rows.
pub fn query_each<S: Alter>(conn: &mut Connection<S>) -> Result<Vec<Row>, Error>
    ensures rows { HasCleanDisk (state S.Store conn.new)
        → IfOk result (λ rows. Shown each_text [] (state S.Store conn.old) (state S.Store conn.new) rows.items) }
    ensures failed { HasCleanDisk (state S.Store conn.new)
        → IfErr result (FailsToQuery each_text [] (state S.Store conn.old) (state S.Store conn.new)) }
    ensures clean { HasCleanDisk (state S.Store conn.new) → HasCleanDisk (state S.Store conn.old) }
{
    conn.query_all("SELECT key, body FROM entry ORDER BY key", &[])
}

/// Runs the query for the number of rows.
pub fn query_len<S: Alter>(conn: &mut Connection<S>) -> Result<Row, Error>
    ensures row { HasCleanDisk (state S.Store conn.new) → QueriesRow len_text []
        (state S.Store conn.old) (state S.Store conn.new) result }
    ensures clean { HasCleanDisk (state S.Store conn.new) → HasCleanDisk (state S.Store conn.old) }
{
    conn.query_row("SELECT count(*) FROM entry", &[])
}

/// Runs the statement that begins a transaction.
pub fn execute_begin<S: Alter>(conn: &mut Connection<S>) -> Result<usize, Error>
    ensures runs { HasCleanDisk (state S.Store conn.new) → Executes begin_text []
        (state S.Store conn.old) (state S.Store conn.new) result }
    ensures clean { HasCleanDisk (state S.Store conn.new) → HasCleanDisk (state S.Store conn.old) }
{
    conn.execute("BEGIN", &[])
}

/// Runs the statement that commits a transaction.
pub fn execute_commit<S: Alter>(conn: &mut Connection<S>) -> Result<usize, Error>
    ensures runs { HasCleanDisk (state S.Store conn.new) → Executes commit_text []
        (state S.Store conn.old) (state S.Store conn.new) result }
    ensures clean { HasCleanDisk (state S.Store conn.new) → HasCleanDisk (state S.Store conn.old) }
{
    conn.execute("COMMIT", &[])
}

/// Runs the statement that rolls a transaction back.
pub fn execute_rollback<S: Alter>(conn: &mut Connection<S>) -> Result<usize, Error>
    ensures runs { HasCleanDisk (state S.Store conn.new) → Executes rollback_text []
        (state S.Store conn.old) (state S.Store conn.new) result }
    ensures clean { HasCleanDisk (state S.Store conn.new) → HasCleanDisk (state S.Store conn.old) }
{
    conn.execute("ROLLBACK", &[])
}
