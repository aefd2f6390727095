//! A visitor with a clause: it counts rows, and the count is proved to be their number.
ghost use Rattle.std.specs.Prelude.{◌≡◌, length, IfOk};
ghost use Rattle.sqlite.specs.Held.{state};
ghost use Rattle.sqlite.specs.State.{HasCleanDisk};
ghost use Rattle.rows.specs.Entries.{IsStore};

use rows::error::Error;
use rows::visits::{Visit, visit_rows};
use sqlite::{Alter, Connection, ErrorCode};

/// The number of the rows so far.
#[derive(Drop)]
pub struct Count {
    rows: u64,
}

impl Visit for Count {
    ghost use Rattle.std.specs.Prelude.{◌+◌, OnOk};

    ghost takes = { λ old _ _ result new. OnOk result (new.rows ≡ old.rows + 1) };

    fn visit(&mut self, _key: &str, _body: &str) -> Result<bool, Error> {
        match self.rows.checked_add(1) {
            Some(rows) => {
                self.rows = rows;
                Ok(true)
            }
            None => Err(Error::Database(sqlite::Error::SqliteFailure(ErrorCode::TooBig))),
        }
    }
}

/// Returns the number of rows. Returns an error if the database fails.
pub fn count_rows<S: Alter>(conn: &mut Connection<S>) -> Result<u64, Error>
    ensures { HasCleanDisk (state S.Store conn.new) → IsStore (state S.Store conn.old).now
        → IfOk result (λ count. count ≡ length ((state S.Store conn.old).now.trees 0)) }
{
    let mut count = Count { rows: 0 };
    if visit_rows(conn, &mut count)? {
        Ok(count.rows)
    } else {
        Err(Error::Database(sqlite::Error::QueryReturnedNoRows))
    }
}
