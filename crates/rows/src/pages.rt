//! The first rows from a key on: a page, bounded in entries and in bytes. On a connection with a limit on steps
//! (`set_step_limit`) no more rows are read than the page has. On any other the database reads up to 512 rows ahead.
//! If no fault of the disk is known after a call (`HasCleanDisk`), none was known before it (`clean`).
ghost use Rattle.std.specs.Prelude.{◌≡◌, map, IfOk, OnOk, OnErr, IsTrue};
ghost use Rattle.sqlite.specs.Held.{state};
ghost use Rattle.sqlite.specs.State.{HasCleanDisk, IsUnchanged};
ghost use Rattle.rows.specs.Entries.{entry_schema, texts_of, IsStore, IsPage, IsServing, Keeps, Aborts};

use crate::visits::next_texts;
use sqlite::{Alter, Connection, Error, params};
use std::alloc::Global;

/// Returns the keys from `from` on with their bodies, in the byte order of the keys: at most `limit` of them, up to the one
/// that brings the page to `max_bytes` bytes of keys and bodies. Returns the error of the database or of an allocation that
/// fails.
pub fn page_from<S: Alter>(
    alloc: Global,
    conn: &mut Connection<S>,
    from: &str,
    limit: u32,
    max_bytes: usize,
) -> Result<Vec<(String, String)>, Error>
    // They are rows of the store, none twice. A row from the key on is missing only behind a page that is full.
    ensures page { HasCleanDisk (state S.Store conn.new) → IsStore (state S.Store conn.old).now
        → IfOk result (λ page. IsPage (state S.Store conn.old).now from.now limit max_bytes (map texts_of page.items)) }

    // If it succeeds, the database is as it was.
    ensures same { HasCleanDisk (state S.Store conn.new) → (state S.Store conn.old).now.schema ≡ entry_schema
        → OnOk result (IsUnchanged (state S.Store conn.old) (state S.Store conn.new)) }

    // If the table is there and it fails, the connection is as it was, or its transaction is rolled back, or it is shut.
    ensures aborts { HasCleanDisk (state S.Store conn.new) → (state S.Store conn.old).now.schema ≡ entry_schema
        → OnErr result (Aborts (state S.Store conn.old) (state S.Store conn.new)) }

    // A connection that served a store still does. A connection that was shut runs no query.
    ensures serving { HasCleanDisk (state S.Store conn.new) → IsServing (state S.Store conn.old)
        → IsServing (state S.Store conn.new) }
    ensures live { HasCleanDisk (state S.Store conn.new) → IsServing (state S.Store conn.old)
        → OnOk result (IsTrue (state S.Store conn.old).is_open) }

    // Outside of a transaction the rows are as they were, whatever it returns, unless the connection is shut.
    ensures kept { HasCleanDisk (state S.Store conn.new) → IsServing (state S.Store conn.old)
        → Keeps (state S.Store conn.old) (state S.Store conn.new) }
    ensures clean { HasCleanDisk (state S.Store conn.new) → HasCleanDisk (state S.Store conn.old) }
{
    // Only for the clause `live`: the database of an open connection is well formed.
    let _schema = conn.schema();
    let mut rows = conn.query(
        "SELECT key, body FROM entry WHERE key >= ?1 ORDER BY key LIMIT ?2",
        params![from, limit],
    )?;
    let mut page = Vec::new(alloc);
    let mut room = max_bytes;
    for i in 0..limit {
        let Some((key, body)) = next_texts(&mut rows)? else {
            return Ok(page);
        };
        room = room.saturating_sub(key.len()).saturating_sub(body.len());
        page.push((key, body))?;
        if room == 0 {
            return Ok(page);
        }
    }
    Ok(page)
}
