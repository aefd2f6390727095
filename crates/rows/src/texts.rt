//! The table of the rows: a body, which is a text, under each key, which is a text too.
//! If no fault of the disk is known after a call (`HasCleanDisk`), none was known before it (`clean`).
ghost use Rattle.std.specs.Prelude.{◌≡◌, ◌⊎◌, ◌↔◌, ◌∷◌, [], ℕ, List, map, false, Ok, Err, None, IsTrue, string_bytes};
ghost use Rattle.std.specs.Prelude.{IfOk, IfErr, IfSome, OnOk, OnErr};
ghost use Rattle.sqlite.specs.Held.{state};
ghost use Rattle.sqlite.specs.State.{HasCleanDisk, IsUnchanged, FailsToQuery};
ghost use Rattle.sqlite.specs.declared.error.Error.TheVariants.{QueryReturnedNoRows, SqliteFailure};
ghost use Rattle.sqlite.specs.declared.error.ErrorCode.TheVariants.{Closed};
ghost use Rattle.sqlite.specs.declared.types.Value.TheVariants.{Text};
ghost use Rattle.rows.specs.Entries.{get_text, entry_schema, no_schema, texts_of};
ghost use Rattle.rows.specs.Entries.{IsStore, IsMap, IsPut, IsRemoved, Holds, HasKey, AreEntries, IsCommitted, IsUndone};
ghost use Rattle.rows.specs.Entries.{row_count, IsServing, IsBegun, IsBack, StaysInside, Keeps, Aborts};

use crate::schemas::is_entry_schema;
use crate::sql::{
    execute_begin, execute_commit, execute_put, execute_remove, execute_rollback, query_body,
    query_each, query_key, query_len,
};
use sqlite::{Alter, Connection, Error};
use std::alloc::Global;

/// Returns whether the database has no table, index or view, as one that an open has just made.
pub fn is_empty<S: Alter>(conn: &Connection<S>) -> bool
    ensures { IsTrue result ↔ ((state S.Store conn.now).now.schema ≡ no_schema) }
{
    let schema = conn.schema();
    if !schema.tables.is_empty() {
        return false;
    }
    if !schema.indexes.is_empty() {
        return false;
    }
    schema.views.is_empty()
}

/// Returns whether the database has the table that `create` makes, and no other table, index or view.
pub fn is_store<S: Alter>(conn: &Connection<S>) -> bool
    // A table with another column, collation or rule is not that table.
    ensures exact { IsTrue result ↔ ((state S.Store conn.now).now.schema ≡ entry_schema) }

    // The rows of an open store are a map from keys to bodies.
    ensures map { IsTrue (state S.Store conn.now).is_open → IsStore (state S.Store conn.now).now
        → IsMap (state S.Store conn.now).now }
{
    is_entry_schema(conn.schema())
}

/// Makes the table if the database has none.
pub fn create<S: Alter>(conn: &mut Connection<S>) -> Result<usize, Error>
    // A database of no tables is then a store with no row.
    ensures fresh { HasCleanDisk (state S.Store conn.new) → (state S.Store conn.old).now.schema ≡ no_schema
        → OnOk result (IsStore (state S.Store conn.new).now
        × ((k b : List ℕ) → Holds (state S.Store conn.new).now k b → ⊥)) }

    // Outside of a transaction that is committed.
    ensures committed { HasCleanDisk (state S.Store conn.new) → (state S.Store conn.old).now.schema ≡ no_schema
        → (state S.Store conn.old).in_transaction ≡ false → OnOk result (IsCommitted (state S.Store conn.new)) }

    // A database that has the table stays as it is.
    ensures again { HasCleanDisk (state S.Store conn.new) → (state S.Store conn.old).now.schema ≡ entry_schema
        → OnOk result (IsUnchanged (state S.Store conn.old) (state S.Store conn.new)) }

    // If it fails, the connection is as it was, or its transaction is rolled back, or it is shut.
    ensures aborts { HasCleanDisk (state S.Store conn.new)
        → OnErr result (Aborts (state S.Store conn.old) (state S.Store conn.new)) }
    ensures clean { HasCleanDisk (state S.Store conn.new) → HasCleanDisk (state S.Store conn.old) }
{
    conn.execute(
        "CREATE TABLE IF NOT EXISTS entry (key TEXT PRIMARY KEY NOT NULL, body TEXT NOT NULL) STRICT",
        &[],
    )
}

/// Puts a body under a key. It replaces the body of the same key. Returns the error of the database if it fails.
pub fn put<S: Alter>(conn: &mut Connection<S>, key: &str, body: &str) -> Result<usize, Error>
    // The key has this body and no other. Other keys keep their bodies.
    ensures put { HasCleanDisk (state S.Store conn.new) → IsStore (state S.Store conn.old).now
        → OnOk result (IsPut (state S.Store conn.old).now (state S.Store conn.new).now key.now body.now) }

    // Outside of a transaction that is committed.
    ensures committed { HasCleanDisk (state S.Store conn.new) → IsStore (state S.Store conn.old).now
        → (state S.Store conn.old).in_transaction ≡ false → OnOk result (IsCommitted (state S.Store conn.new)) }

    // If it fails outside of a transaction, the rows are as they were, unless the connection is shut.
    ensures undone { HasCleanDisk (state S.Store conn.new) → IsCommitted (state S.Store conn.old)
        → OnErr result (IsUndone (state S.Store conn.old) (state S.Store conn.new)) }

    // Inside of a transaction nothing is committed, and the transaction goes on.
    ensures inside { HasCleanDisk (state S.Store conn.new) → (state S.Store conn.old).now.schema ≡ entry_schema
        → IsTrue (state S.Store conn.old).in_transaction
        → OnOk result (StaysInside (state S.Store conn.old) (state S.Store conn.new)) }

    // If it fails, the connection is as it was, or its transaction is rolled back, or it is shut.
    ensures aborts { HasCleanDisk (state S.Store conn.new)
        → OnErr result (Aborts (state S.Store conn.old) (state S.Store conn.new)) }

    // A connection that serves a store goes on. If it succeeds, the connection was open and is.
    ensures serving { HasCleanDisk (state S.Store conn.new) → IsServing (state S.Store conn.old)
        → IsServing (state S.Store conn.new) }
    ensures live { HasCleanDisk (state S.Store conn.new) → IsServing (state S.Store conn.old)
        → OnOk result (IsTrue (state S.Store conn.old).is_open × IsTrue (state S.Store conn.new).is_open) }

    // If it fails outside of a transaction, the rows are as they were, unless the connection is shut.
    ensures kept { HasCleanDisk (state S.Store conn.new) → IsServing (state S.Store conn.old)
        → OnErr result (Keeps (state S.Store conn.old) (state S.Store conn.new)) }
    ensures clean { HasCleanDisk (state S.Store conn.new) → HasCleanDisk (state S.Store conn.old) }
{
    execute_put(conn, key, body)
}

/// Removes the row of a key, and returns whether there was one. Returns the error of the database if it fails.
pub fn remove<S: Alter>(conn: &mut Connection<S>, key: &str) -> Result<bool, Error>
    // It returns true exactly if a row had the key.
    ensures found { HasCleanDisk (state S.Store conn.new) → IsStore (state S.Store conn.old).now
        → IfOk result (λ found. IsTrue found ↔ HasKey (state S.Store conn.old).now key.now) }

    // No row has the key. Other keys keep their bodies.
    ensures removed { HasCleanDisk (state S.Store conn.new) → IsStore (state S.Store conn.old).now
        → OnOk result (IsRemoved (state S.Store conn.old).now (state S.Store conn.new).now key.now) }

    // Outside of a transaction that is committed.
    ensures committed { HasCleanDisk (state S.Store conn.new) → IsStore (state S.Store conn.old).now
        → (state S.Store conn.old).in_transaction ≡ false → OnOk result (IsCommitted (state S.Store conn.new)) }

    // If it fails outside of a transaction, the rows are as they were, unless the connection is shut.
    ensures undone { HasCleanDisk (state S.Store conn.new) → IsCommitted (state S.Store conn.old)
        → OnErr result (IsUndone (state S.Store conn.old) (state S.Store conn.new)) }

    // Inside of a transaction nothing is committed, and the transaction goes on.
    ensures inside { HasCleanDisk (state S.Store conn.new) → (state S.Store conn.old).now.schema ≡ entry_schema
        → IsTrue (state S.Store conn.old).in_transaction
        → OnOk result (StaysInside (state S.Store conn.old) (state S.Store conn.new)) }

    // If it fails, the connection is as it was, or its transaction is rolled back, or it is shut.
    ensures aborts { HasCleanDisk (state S.Store conn.new)
        → OnErr result (Aborts (state S.Store conn.old) (state S.Store conn.new)) }

    // A connection that serves a store goes on. If it succeeds, the connection was open and is.
    ensures serving { HasCleanDisk (state S.Store conn.new) → IsServing (state S.Store conn.old)
        → IsServing (state S.Store conn.new) }
    ensures live { HasCleanDisk (state S.Store conn.new) → IsServing (state S.Store conn.old)
        → OnOk result (IsTrue (state S.Store conn.old).is_open × IsTrue (state S.Store conn.new).is_open) }

    // If it fails outside of a transaction, the rows are as they were, unless the connection is shut.
    ensures kept { HasCleanDisk (state S.Store conn.new) → IsServing (state S.Store conn.old)
        → OnErr result (Keeps (state S.Store conn.old) (state S.Store conn.new)) }
    ensures clean { HasCleanDisk (state S.Store conn.new) → HasCleanDisk (state S.Store conn.old) }
{
    let count = execute_remove(conn, key)?;
    Ok(count > 0)
}

/// Returns whether the connection is inside of a transaction.
pub fn is_in_transaction<S: Alter>(conn: &Connection<S>) -> bool
    ensures value { result ≡ (state S.Store conn.now).in_transaction }

    // An open connection outside of one sees its last commit.
    ensures settled { result ≡ false → IsTrue (state S.Store conn.now).is_open
        → (state S.Store conn.now).committed ≡ (state S.Store conn.now).now }
{
    !conn.is_autocommit()
}

/// Begins a transaction, so that several puts are one commit. Returns the error of the database if it fails, as it does
/// inside of a transaction.
pub fn begin<S: Alter>(conn: &mut Connection<S>) -> Result<usize, Error>
    // The connection was outside of a transaction, and sees the same rows inside of one.
    ensures begun { HasCleanDisk (state S.Store conn.new) → (state S.Store conn.old).now.schema ≡ entry_schema
        → OnOk result (IsBegun (state S.Store conn.old) (state S.Store conn.new)) }

    // A connection that was shut begins none.
    ensures live { HasCleanDisk (state S.Store conn.new) → (state S.Store conn.old).in_transaction ≡ false
        → OnOk result (IsTrue (state S.Store conn.old).is_open) }

    // If it fails, the connection is as it was, or its transaction is rolled back, or it is shut.
    ensures aborts { HasCleanDisk (state S.Store conn.new)
        → OnErr result (Aborts (state S.Store conn.old) (state S.Store conn.new)) }
    ensures clean { HasCleanDisk (state S.Store conn.new) → HasCleanDisk (state S.Store conn.old) }
{
    execute_begin(conn)
}

/// Commits a transaction. Returns the error of the database if it fails, as it does outside of a transaction.
pub fn commit<S: Alter>(conn: &mut Connection<S>) -> Result<usize, Error>
    // The connection was inside of a transaction and is open, and what it saw is its last commit.
    ensures committed { HasCleanDisk (state S.Store conn.new) → (state S.Store conn.old).now.schema ≡ entry_schema
        → OnOk result (IsTrue (state S.Store conn.old).in_transaction × IsCommitted (state S.Store conn.new)
        × ((state S.Store conn.new).now ≡ (state S.Store conn.old).now) × IsTrue (state S.Store conn.new).is_open) }

    // If it fails, the connection is as it was, or its transaction is rolled back, or it is shut.
    ensures aborts { HasCleanDisk (state S.Store conn.new)
        → OnErr result (Aborts (state S.Store conn.old) (state S.Store conn.new)) }
    ensures clean { HasCleanDisk (state S.Store conn.new) → HasCleanDisk (state S.Store conn.old) }
{
    execute_commit(conn)
}

/// Rolls a transaction back. Returns the error of the database if it fails, as it does outside of a transaction.
pub fn rollback<S: Alter>(conn: &mut Connection<S>) -> Result<usize, Error>
    // The connection was inside of a transaction, and sees its last commit outside of one.
    ensures back { HasCleanDisk (state S.Store conn.new) → (state S.Store conn.old).now.schema ≡ entry_schema
        → OnOk result (IsTrue (state S.Store conn.old).in_transaction
        × IsBack (state S.Store conn.old) (state S.Store conn.new)) }

    // If its last commit is a store, it serves it.
    ensures serving { HasCleanDisk (state S.Store conn.new) → (state S.Store conn.old).now.schema ≡ entry_schema
        → IsStore (state S.Store conn.old).committed → OnOk result (IsServing (state S.Store conn.new)) }

    // If it fails, the connection is as it was, or its transaction is rolled back, or it is shut.
    ensures aborts { HasCleanDisk (state S.Store conn.new)
        → OnErr result (Aborts (state S.Store conn.old) (state S.Store conn.new)) }
    ensures clean { HasCleanDisk (state S.Store conn.new) → HasCleanDisk (state S.Store conn.old) }
{
    execute_rollback(conn)
}

/// Returns the body of a key, or `None` if no row has the key. Returns the error of the database if it fails, or if the
/// body is no text.
pub fn get<S: Alter>(conn: &mut Connection<S>, key: &str) -> Result<Option<String>, Error>
    // A row of the table has the key and this body.
    ensures some { HasCleanDisk (state S.Store conn.new) → (state S.Store conn.old).now.schema ≡ entry_schema
        → IfOk result (λ answer. IfSome answer (λ body. Holds (state S.Store conn.old).now key.now (string_bytes body))) }
    ensures none { HasCleanDisk (state S.Store conn.new) → (state S.Store conn.old).now.schema ≡ entry_schema
        → result ≡ Ok None → HasKey (state S.Store conn.old).now key.now → ⊥ }

    // If it succeeds, the database is as it was.
    ensures same { HasCleanDisk (state S.Store conn.new) → (state S.Store conn.old).now.schema ≡ entry_schema
        → OnOk result (IsUnchanged (state S.Store conn.old) (state S.Store conn.new)) }

    // If it fails, a row has the key, or the database fails to query.
    ensures cause { HasCleanDisk (state S.Store conn.new) → (state S.Store conn.old).now.schema ≡ entry_schema
        → IfErr result (λ error. HasKey (state S.Store conn.old).now key.now
        ⊎ FailsToQuery get_text (Text key.now ∷ []) (state S.Store conn.old) (state S.Store conn.new) error) }
    ensures missing { result ≡ Err QueryReturnedNoRows → ⊥ }

    // If the table is there and it fails, the connection is as it was, or its transaction is rolled back, or it is shut.
    ensures aborts { HasCleanDisk (state S.Store conn.new) → (state S.Store conn.old).now.schema ≡ entry_schema
        → OnErr result (Aborts (state S.Store conn.old) (state S.Store conn.new)) }

    // A connection that serves a store goes on, and one that was shut runs no query.
    ensures serving { HasCleanDisk (state S.Store conn.new) → IsServing (state S.Store conn.old)
        → IsServing (state S.Store conn.new) }
    ensures live { HasCleanDisk (state S.Store conn.new) → IsServing (state S.Store conn.old)
        → OnOk result (IsTrue (state S.Store conn.old).is_open) }

    // Outside of a transaction the rows are as they were, whatever it returns, unless the connection is shut.
    ensures kept { HasCleanDisk (state S.Store conn.new) → IsServing (state S.Store conn.old)
        → Keeps (state S.Store conn.old) (state S.Store conn.new) }
    ensures clean { HasCleanDisk (state S.Store conn.new) → HasCleanDisk (state S.Store conn.old) }
{
    match query_body(conn, key) {
        Ok(row) => Ok(Some(row.get(0)?)),
        Err(Error::QueryReturnedNoRows) => Ok(None),
        Err(error) => Err(error),
    }
}

/// Returns whether a row has the key, and reads no body. Returns the error of the database if it fails.
pub fn has<S: Alter>(conn: &mut Connection<S>, key: &str) -> Result<bool, Error>
    // It returns true exactly if a row has the key.
    ensures found { HasCleanDisk (state S.Store conn.new) → (state S.Store conn.old).now.schema ≡ entry_schema
        → IfOk result (λ found. IsTrue found ↔ HasKey (state S.Store conn.old).now key.now) }
    ensures missing { result ≡ Err QueryReturnedNoRows → ⊥ }

    // If it succeeds, the database is as it was.
    ensures same { HasCleanDisk (state S.Store conn.new) → (state S.Store conn.old).now.schema ≡ entry_schema
        → OnOk result (IsUnchanged (state S.Store conn.old) (state S.Store conn.new)) }

    // The database says that it is shut only if it is.
    ensures shut { HasCleanDisk (state S.Store conn.new) → (state S.Store conn.old).now.schema ≡ entry_schema
        → result ≡ Err (SqliteFailure Closed) → (state S.Store conn.old).is_open ≡ false }

    // If it fails, the connection is as it was, or its transaction is rolled back, or it is shut.
    ensures aborts { HasCleanDisk (state S.Store conn.new)
        → OnErr result (Aborts (state S.Store conn.old) (state S.Store conn.new)) }

    // A connection that serves a store goes on, and one that was shut runs no query.
    ensures serving { HasCleanDisk (state S.Store conn.new) → IsServing (state S.Store conn.old)
        → IsServing (state S.Store conn.new) }
    ensures live { HasCleanDisk (state S.Store conn.new) → IsServing (state S.Store conn.old)
        → OnOk result (IsTrue (state S.Store conn.old).is_open) }

    // Outside of a transaction the rows are as they were, whatever it returns, unless the connection is shut.
    ensures kept { HasCleanDisk (state S.Store conn.new) → IsServing (state S.Store conn.old)
        → Keeps (state S.Store conn.old) (state S.Store conn.new) }
    ensures clean { HasCleanDisk (state S.Store conn.new) → HasCleanDisk (state S.Store conn.old) }
{
    match query_key(conn, key) {
        Ok(row) => {
            drop(row);
            Ok(true)
        }
        Err(Error::QueryReturnedNoRows) => Ok(false),
        Err(error) => Err(error),
    }
}

/// Returns all keys with their bodies, in the byte order of the keys. Fails if the database or an allocation fails.
pub fn all<S: Alter>(
    alloc: Global,
    conn: &mut Connection<S>,
) -> Result<Vec<(String, String)>, Error>
    // They are the rows of the table, none left out and none twice.
    ensures rows { HasCleanDisk (state S.Store conn.new) → (state S.Store conn.old).now.schema ≡ entry_schema
        → IfOk result (λ listed. AreEntries (state S.Store conn.old).now (map texts_of listed.items)) }

    // If it succeeds, the database is as it was.
    ensures same { HasCleanDisk (state S.Store conn.new) → (state S.Store conn.old).now.schema ≡ entry_schema
        → OnOk result (IsUnchanged (state S.Store conn.old) (state S.Store conn.new)) }

    // If the table is there and it fails, the connection is as it was, or its transaction is rolled back, or it is shut.
    ensures aborts { HasCleanDisk (state S.Store conn.new) → (state S.Store conn.old).now.schema ≡ entry_schema
        → OnErr result (Aborts (state S.Store conn.old) (state S.Store conn.new)) }

    // A connection that serves a store goes on, and one that was shut runs no query.
    ensures serving { HasCleanDisk (state S.Store conn.new) → IsServing (state S.Store conn.old)
        → IsServing (state S.Store conn.new) }
    ensures live { HasCleanDisk (state S.Store conn.new) → IsServing (state S.Store conn.old)
        → OnOk result (IsTrue (state S.Store conn.old).is_open) }

    // Outside of a transaction the rows are as they were, whatever it returns, unless the connection is shut.
    ensures kept { HasCleanDisk (state S.Store conn.new) → IsServing (state S.Store conn.old)
        → Keeps (state S.Store conn.old) (state S.Store conn.new) }
    ensures clean { HasCleanDisk (state S.Store conn.new) → HasCleanDisk (state S.Store conn.old) }
{
    let rows = query_each(conn)?;
    let mut listed = Vec::new(alloc);
    for row in rows.iter() {
        let key: String = row.get(0)?;
        let body: String = row.get(1)?;
        listed.push((key, body))?;
    }
    Ok(listed)
}

/// Returns the number of rows. Returns the error of the database if it fails.
pub fn len<S: Alter>(conn: &mut Connection<S>) -> Result<u64, Error>
    ensures count { HasCleanDisk (state S.Store conn.new) → (state S.Store conn.old).now.schema ≡ entry_schema
        → IfOk result (λ count. count ≡ row_count (state S.Store conn.old).now) }

    // If it succeeds, the database is as it was.
    ensures same { HasCleanDisk (state S.Store conn.new) → (state S.Store conn.old).now.schema ≡ entry_schema
        → OnOk result (IsUnchanged (state S.Store conn.old) (state S.Store conn.new)) }

    // If the table is there and it fails, the connection is as it was, or its transaction is rolled back, or it is shut.
    ensures aborts { HasCleanDisk (state S.Store conn.new) → (state S.Store conn.old).now.schema ≡ entry_schema
        → OnErr result (Aborts (state S.Store conn.old) (state S.Store conn.new)) }

    // A connection that serves a store goes on, and one that was shut runs no query.
    ensures serving { HasCleanDisk (state S.Store conn.new) → IsServing (state S.Store conn.old)
        → IsServing (state S.Store conn.new) }
    ensures live { HasCleanDisk (state S.Store conn.new) → IsServing (state S.Store conn.old)
        → OnOk result (IsTrue (state S.Store conn.old).is_open) }

    // Outside of a transaction the rows are as they were, whatever it returns, unless the connection is shut.
    ensures kept { HasCleanDisk (state S.Store conn.new) → IsServing (state S.Store conn.old)
        → Keeps (state S.Store conn.old) (state S.Store conn.new) }
    ensures clean { HasCleanDisk (state S.Store conn.new) → HasCleanDisk (state S.Store conn.old) }
{
    let row = query_len(conn)?;
    let count: u64 = row.get(0)?;
    Ok(count)
}
