//! The table of a store.
ghost use Rattle.std.specs.Prelude.{◌≡◌, false, OnOk, IsTrue};
ghost use Rattle.sqlite.specs.Held.{state};
ghost use Rattle.sqlite.specs.State.{HasCleanDisk};
ghost use Rattle.rows.specs.Entries.{no_schema};
ghost use Rattle.store.specs.Maps.{Map, empty, ServesMap};

use rows::texts;
use sqlite::{Alter, Connection, Error};

/// Makes the table of a store if the database has none.
pub fn prepare<S: Alter>(conn: &mut Connection<S>) -> Result<(), Error>
    // A database of no tables is then a store with no entry.
    ensures fresh { HasCleanDisk (state S.Store conn.new) → (state S.Store conn.old).now.schema ≡ no_schema
        → (state S.Store conn.old).in_transaction ≡ false → OnOk result (ServesMap (state S.Store conn.new) empty) }

    // A store keeps its entries.
    ensures again { HasCleanDisk (state S.Store conn.new) → IsTrue (state S.Store conn.old).is_open → (m : Map)
        → ServesMap (state S.Store conn.old) m → OnOk result (ServesMap (state S.Store conn.new) m) }
{
    texts::create(conn)?;
    Ok(())
}
