//! A visitor that counts rows and keeps their texts, over a store in memory.
ghost use Rattle.std.specs.Prelude.{⊤};

use crate::counted::count_rows;
use rows::error::Error;
use rows::texts;
use rows::visits::{Visit, visit_rows};
use sqlite::{Alter, Connection, ErrorCode};
use std::alloc::Global;
use std::test::Fail;

// The texts of the rows that were taken, how many they are, how many are wanted, and a key that is refused.
#[derive(Drop)]
struct Taker {
    texts: String,
    count: u64,
    wanted: u64,
    refused: &'static str,
}

impl Visit for Taker {
    ghost takes = { λ _ _ _ _ _. ⊤ };

    fn visit(&mut self, key: &str, body: &str) -> Result<bool, Error> {
        if key == self.refused {
            return Err(Error::Database(sqlite::Error::InvalidQuery));
        }
        for text in [key, "=", body, ";"] {
            if self.texts.push_str(text).is_err() {
                return Err(Error::Database(sqlite::Error::InvalidQuery));
            }
        }
        self.count = self.count.saturating_add(1);
        Ok(self.count < self.wanted)
    }
}

fn wanting(alloc: Global, wanted: u64, refused: &'static str) -> Taker {
    Taker {
        texts: String::new(alloc),
        count: 0,
        wanted,
        refused,
    }
}

// Returns whether a visit that wants so many rows returns this, and takes these texts.
fn takes<S: Alter>(
    alloc: Global,
    conn: &mut Connection<S>,
    wanted: u64,
    went_on: bool,
    texts: &str,
) -> Result<bool, Error> {
    let mut taker = wanting(alloc, wanted, "-");
    let all = visit_rows(conn, &mut taker)?;
    Ok((all == went_on) & (taker.texts.as_str() == texts))
}

// Puts a row under each number below this one.
fn put_many<S: Alter>(alloc: Global, conn: &mut Connection<S>, count: u64) -> Result<(), Fail> {
    for number in 0..count {
        let key = format!(in alloc; "{number:03}")?;
        texts::put(conn, key.as_str(), "body")?;
    }
    Ok(())
}

// How many rows a visitor wants, whether the visit goes to the end, and what the visitor has taken.
const VISITS: &[(u64, bool, &str)] = &[
    (9, true, "=0;nails=1;rope=2;ropes=3;"),
    (5, true, "=0;nails=1;rope=2;ropes=3;"),
    (4, false, "=0;nails=1;rope=2;ropes=3;"),
    (2, false, "=0;nails=1;"),
];

// Returns whether rows are visited in the order of their keys.
fn are_in_order<S: Alter>(alloc: Global, conn: &mut Connection<S>) -> Result<bool, Error> {
    texts::create(conn)?;
    let mut right = takes(alloc, conn, 9, true, "")?;
    for (key, body) in [("rope", "2"), ("", "0"), ("nails", "1"), ("ropes", "3")] {
        texts::put(conn, key, body)?;
    }
    for (wanted, went_on, texts) in VISITS {
        right = right & takes(alloc, conn, *wanted, *went_on, texts)?;
    }
    Ok(right)
}

// Returns whether a visit ends with the error of the visitor, and the store can be used after it.
fn ends_at_an_error<S: Alter>(alloc: Global, conn: &mut Connection<S>) -> Result<bool, Error> {
    let mut refuses = wanting(alloc, 9, "rope");
    let refused = visit_rows(conn, &mut refuses);
    let is_its_own = matches!(refused, Err(Error::Database(sqlite::Error::InvalidQuery)));
    texts::put(conn, "rope", "4")?;
    let counted = (texts::len(conn)? == 4) & (count_rows(conn)? == 4);
    Ok(is_its_own & counted & (refuses.texts.as_str() == "=0;nails=1;"))
}

// Returns whether a visit reads no more rows than it is asked for. A query that makes all rows before the first would take more steps.
fn are_read_one_by_one<S: Alter>(alloc: Global, conn: &mut Connection<S>) -> Result<bool, Error> {
    let mut all = wanting(alloc, 1000, "-");
    let went_on = visit_rows(conn, &mut all)?;
    conn.set_step_limit(Some(20));
    let mut three = wanting(alloc, 3, "-");
    let stopped = !visit_rows(conn, &mut three)?;
    let mut most = wanting(alloc, 1000, "-");
    let ended = visit_rows(conn, &mut most);
    let is_interrupted = matches!(
        ended,
        Err(Error::Database(sqlite::Error::SqliteFailure(ErrorCode::OperationInterrupted)))
    );
    let texts = three.texts.as_str() == "000=body;001=body;002=body;";
    Ok(
        went_on
            & (all.count == 300)
            & stopped
            & texts
            & is_interrupted
            & (3 < most.count)
            & (most.count < 20),
    )
}

#[test]
fn rows_are_visited_in_order(rt: HostRuntime) -> Result<(), Fail> {
    let alloc = rt.alloc();
    let mut conn = Connection::open_in_memory(alloc)?;
    let ordered = are_in_order(alloc, &mut conn);
    let ended = ends_at_an_error(alloc, &mut conn);
    assert!(rt; matches!(ordered, Ok(true)) & matches!(ended, Ok(true)));
    Ok(())
}

#[test]
fn rows_are_read_as_they_are_visited(rt: HostRuntime) -> Result<(), Fail> {
    let alloc = rt.alloc();
    let mut conn = Connection::open_in_memory(alloc)?;
    texts::create(&mut conn)?;
    put_many(alloc, &mut conn, 300)?;
    let read = are_read_one_by_one(alloc, &mut conn);
    assert!(rt; matches!(read, Ok(true)));
    Ok(())
}
