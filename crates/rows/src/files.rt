//! Rows in a file: what an open finds, and what is found again after a close.
ghost use Rattle.std.specs.Prelude.{◌≡◌, false, codes, IfOk, IfErr, IfSome, Ok, Err, None, IsTrue};
ghost use Rattle.sqlite.specs.WalFiles.{image_at};
ghost use Rattle.sqlite.specs.Effect.{Database, IsDatabase};
ghost use Rattle.sqlite.specs.State.{HasCleanDisk};
ghost use Rattle.sqlite.specs.Opening.{is_open_error};
ghost use Rattle.sqlite.specs.declared.error.Error.TheVariants.{SqliteFailure};
ghost use Rattle.sqlite.specs.declared.error.ErrorCode.TheVariants.{CannotOpen};
ghost use Rattle.sqlite_store.specs.FileStore.{view};
ghost use Rattle.sqlite.specs.Files.{file_state, HoldsDatabase, IsOpened, IsBlankAs};
ghost use Rattle.rows.specs.Entries.{entry_schema, IsStore, IsPut, IsCommitted, IsServing};
ghost use Rattle.rows.specs.Values.{canonical_text};

use crate::error::Error;
use crate::values::{get, put};
use miniserde::{Lossless, Serialize, Stable};
use sqlite::{Connection, FileFrom, FileStore, Options, Start};
use sqlite_disk::Disk;
use std::alloc::Global;

/// Opens the database of a file, or makes one if there is none.
pub fn open<S: Start>(
    rt: &HostRuntime,
    path: &str,
    start: S,
) -> Result<Connection<FileStore<FileFrom<S>>>, sqlite::Error>
    // If the files held a database, the connection has its tables and its rows.
    ensures found { IfOk result (λ conn. HasCleanDisk (file_state conn) → (db : Database) → IsDatabase db
        → ∥ HoldsDatabase (image_at S.Start) db.trees ∥₁ → (file_state conn).now ≡ db) }
    ensures opened { IfOk result (λ conn. HasCleanDisk (file_state conn) → IsOpened conn) }

    // If it has the table and nothing else, as `is_store` tells, it serves a store.
    ensures serving { IfOk result (λ conn. HasCleanDisk (file_state conn)
        → (file_state conn).now.schema ≡ entry_schema → IsServing (file_state conn)) }

    // A new file has no checksums of its pages, as SQLite makes it.
    ensures plain { IfOk result (λ conn. HasCleanDisk (file_state conn) → IsBlankAs false (image_at S.Start)
        → (view conn.store).has_sums ≡ false) }

    // The path of a database in memory names no file, and an error is one of those of an open.
    ensures memory { path.now ≡ codes ":memory:" → result ≡ Err (SqliteFailure CannotOpen) }
    ensures named { IfErr result (λ error. IsTrue (is_open_error error)) }
{
    match Connection::open_from(rt, path, false, start) {
        Ok(conn) => Ok(conn),
        Err((error, _)) => Err(error),
    }
}

/// Closes a database, and opens its files again.
pub fn reopen<D: Disk + Drop>(
    alloc: Global,
    conn: Connection<FileStore<D>>,
    options: Options,
) -> Result<Connection<FileStore<D>>, sqlite::Error>
    // It has the tables and the rows of the last commit.
    ensures found { IfOk result (λ again. HasCleanDisk (file_state again)
        → (file_state again).now ≡ (file_state conn).committed) }
    ensures opened { IfOk result (λ again. HasCleanDisk (file_state again) → IsOpened again) }
    ensures serving { IfOk result (λ again. HasCleanDisk (file_state again)
        → (file_state again).now.schema ≡ entry_schema → IsServing (file_state again)) }
    ensures clean { IfOk result (λ again. HasCleanDisk (file_state again) → HasCleanDisk (file_state conn)) }
{
    // For the clause `live` alone: the database of an open connection is well formed.
    let _schema = conn.schema();
    let files = match conn.close_files() {
        Ok(files) => files,
        Err((error, store)) => {
            drop(store.close());
            return Err(error);
        }
    };
    match Connection::open_files(alloc, files, options) {
        Ok(again) => Ok(again),
        Err((error, _)) => Err(error),
    }
}

/// Puts a value under a key, closes the database, opens its files again, and reads the value back.
pub fn put_and_reopen<D: Disk + Drop, K: Serialize, V: Stable + Lossless>(
    alloc: Global,
    mut conn: Connection<FileStore<D>>,
    options: Options,
    key: &K,
    value: &V,
) -> Result<(Connection<FileStore<D>>, Option<V>), Error>
    // Outside of a transaction the database is the one from before with this row put, as `put` says it.
    ensures put { IfOk result (λ r. HasCleanDisk (file_state r.0) → IsStore (file_state conn).now
        → (file_state conn).in_transaction ≡ false → IsPut (file_state conn).now (file_state r.0).now
        (canonical_text (K.tree key.now)) (canonical_text (V.tree value.now))) }

    ensures committed { IfOk result (λ r. HasCleanDisk (file_state r.0) → IsStore (file_state conn).now
        → (file_state conn).in_transaction ≡ false → IsCommitted (file_state r.0)) }

    // The answer is a value with the content of the one that was put.
    ensures same { IfOk result (λ r. HasCleanDisk (file_state r.0) → IsStore (file_state conn).now
        → (file_state conn).in_transaction ≡ false
        → IfSome r.1 (λ read. V.means.content read ≡ V.means.content value.now)) }
    ensures some { IfOk result (λ r. HasCleanDisk (file_state r.0) → IsStore (file_state conn).now
        → (file_state conn).in_transaction ≡ false → r.1 ≡ None → ⊥) }
{
    value.ranged();
    put(alloc, &mut conn, key, value)?;
    let mut conn = reopen(alloc, conn, options)?;
    let found = get(alloc, &mut conn, key)?;
    Ok((conn, found))
}
