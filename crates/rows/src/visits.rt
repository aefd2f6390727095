//! The rows one at a time: a visitor takes each, and no list of all rows is made.
//! If no fault of the disk is known after a call (`HasCleanDisk`), none was known before it (`clean`).
ghost use Rattle.std.specs.Prelude.{◌≡◌, ℕ, Bool, List, Result, IfOk, OnOk, OnErr, IsTrue};
ghost use Rattle.sqlite.specs.Held.{state};
ghost use Rattle.sqlite.specs.State.{HasCleanDisk, IsUnchanged};
ghost use Rattle.sqlite.specs.Given.{Advances};
ghost use Rattle.rows.specs.declared.error.Error.{Error};
ghost use Rattle.rows.specs.Entries.{entry_schema, IsStore, IsServing, Keeps, Aborts};
ghost use Rattle.rows.specs.Visits.{Visited, ShowsTexts};

use crate::error::Error;
use sqlite::{Alter, Connection, ErrorCode, Rows};

/// A visitor of rows.
pub trait Visit {
    /// What a visit does: the visitor before it, the key, the body, what it returns, and the visitor after it.
    ghost takes: { Self → List ℕ → List ℕ → Result Bool Error → Self → Type 0 };

    /// Takes the key and the body of a row, and returns whether to go on.
    fn visit(&mut self, key: &str, body: &str) -> Result<bool, Error>
        ensures { takes self.old key.now body.now result self.new };
}

/// Reads the next row, or `None` after the last. Returns the error of the database if it fails.
pub(crate) fn next_texts<S: Alter>(
    rows: &mut Rows<'_, S>,
) -> Result<Option<(String, String)>, sqlite::Error>
    ensures same_reference { rows.new.conn.ghost_name ≡ rows.old.conn.ghost_name }

    // The query gives one row more, which has these texts, or it has given all.
    ensures shows { HasCleanDisk (state S.Store rows.new.conn.now) → IfOk result (λ next. (row : _)
        × Advances S.Store rows.old.conn.now rows.new.conn.now row × ShowsTexts row next) }

    // If it succeeds, the database is as it was.
    ensures same { HasCleanDisk (state S.Store rows.new.conn.now)
        → OnOk result (IsUnchanged (state S.Store rows.old.conn.now) (state S.Store rows.new.conn.now)) }

    // If it fails, the connection is as it was, or its transaction is rolled back, or it is shut.
    ensures aborts { HasCleanDisk (state S.Store rows.new.conn.now)
        → OnErr result (Aborts (state S.Store rows.old.conn.now) (state S.Store rows.new.conn.now)) }
    ensures clean { HasCleanDisk (state S.Store rows.new.conn.now) → HasCleanDisk (state S.Store rows.old.conn.now) }
{
    rows.advance()?;
    match rows.get() {
        Some(row) => {
            let key: String = row.get(0)?;
            let body: String = row.get(1)?;
            Ok(Some((key, body)))
        }
        None => Ok(None),
    }
}

/// Visits the rows in the byte order of the keys, until the visitor stops or fails. Returns whether it went on at each.
/// Returns the error of the visitor, or a `Database` if the database fails.
pub fn visit_rows<S: Alter, V: Visit>(
    conn: &mut Connection<S>,
    visitor: &mut V,
) -> Result<bool, Error>
    // The visitor took the first rows of the store, none left out and none twice, and all of them if the call returns true.
    ensures visited { HasCleanDisk (state S.Store conn.new) → IsStore (state S.Store conn.old).now
        → Visited V.takes (state S.Store conn.old).now visitor.old visitor.new result }

    // If it succeeds, the database is as it was.
    ensures same { HasCleanDisk (state S.Store conn.new) → (state S.Store conn.old).now.schema ≡ entry_schema
        → OnOk result (IsUnchanged (state S.Store conn.old) (state S.Store conn.new)) }

    // If the table is there and it fails, the connection is as it was, or its transaction is rolled back, or it is shut.
    ensures aborts { HasCleanDisk (state S.Store conn.new) → (state S.Store conn.old).now.schema ≡ entry_schema
        → OnErr result (Aborts (state S.Store conn.old) (state S.Store conn.new)) }

    // A connection that serves a store goes on, and one that was shut runs no query.
    ensures serving { HasCleanDisk (state S.Store conn.new) → IsServing (state S.Store conn.old)
        → IsServing (state S.Store conn.new) }
    ensures live { HasCleanDisk (state S.Store conn.new) → IsServing (state S.Store conn.old)
        → OnOk result (IsTrue (state S.Store conn.old).is_open) }

    // Outside of a transaction the rows are as they were, whatever it returns, unless the connection is shut.
    ensures kept { HasCleanDisk (state S.Store conn.new) → IsServing (state S.Store conn.old)
        → Keeps (state S.Store conn.old) (state S.Store conn.new) }
    ensures clean { HasCleanDisk (state S.Store conn.new) → HasCleanDisk (state S.Store conn.old) }
{
    // For the clause `live` alone: the database of an open connection is well formed.
    let _schema = conn.schema();
    let mut rows = conn.query("SELECT key, body FROM entry ORDER BY key", &[])?;
    'rows: for _ in 0..u64::MAX {
        let Some((key, body)) = next_texts(&mut rows)? else {
            return Ok(true);
        };
        if !visitor.visit(key.as_str(), body.as_str())? {
            return Ok(false);
        }
    }
    // A table that can be stored has fewer rows.
    Err(Error::Database(sqlite::Error::SqliteFailure(ErrorCode::TooBig)))
}
