//! The store and its rows beyond the sizes of the other tests: nothing is refused for its size before the bounds that the
//! pages tell.

use crate::counted::count_rows;
use crate::served::{fits, hosts, sent, store_of};
use rows::error::Error;
use rows::texts;
use sqlite::{Alter, Connection, ErrorCode, params};
use std::test::Fail;
use store::service::StoreService;

// Puts entries under the keys `k100`, `k101` and so on.
fn put_entries<S: Alter>(
    conn: &mut Connection<S>,
    rt: &HostRuntime,
    count: u32,
) -> Result<(), Fail> {
    for number in 0..count {
        let key = format!(in rt.alloc(); "k{}", number.saturating_add(100))?;
        texts::put(conn, key.as_str(), "\"nails\"")?;
    }
    Ok(())
}

// Returns whether a list has 101 entries.
fn lists_more_than_a_hundred<S: Alter + Drop>(
    rt: &HostRuntime,
    conn: Connection<S>,
) -> Result<bool, Fail> {
    let mut conn = store_of(rt, conn)?.into_connection();
    put_entries(&mut conn, rt, 101)?;
    let mut service: StoreService<S, String> = StoreService::new(rt.alloc(), conn, hosts(rt)?);
    let all = sent(
        rt,
        &mut service,
        "GET /entries?limit=101",
        "Accept: */*",
        "",
    )?;
    let first = sent(rt, &mut service, "GET /entries", "Accept: */*", "")?;
    Ok(
        fits(all.as_str(), "200 ", "\"k200\":\"nails\"}")
            & fits(first.as_str(), "200 ", "\"k199\":\"nails\"}"),
    )
}

// Returns a text of this many letters.
fn letters(rt: &HostRuntime, count: usize) -> Result<String, Fail> {
    let mut text = String::new(rt.alloc());
    for _ in 0..count {
        text.push_str("x")?;
    }
    Ok(text)
}

// Returns a JSON string of this many letters.
fn long_text(rt: &HostRuntime, count: usize) -> Result<String, Fail> {
    let letters = letters(rt, count)?;
    let mut text = String::new(rt.alloc());
    text.push_str("\"")?;
    text.push_str(letters.as_str())?;
    text.push_str("\"")?;
    Ok(text)
}

// Returns whether a text of 100 kB, a key of 300 bytes and a query of 300 are served.
fn serves_long_ones<S: Alter + Drop>(rt: &HostRuntime, conn: Connection<S>) -> Result<bool, Fail> {
    let mut service = store_of(rt, conn)?;
    let text = long_text(rt, 100_000)?;
    let key = letters(rt, 300)?;
    let line = format!(in rt.alloc(); "PUT /entries/{key}")?;
    let put = sent(
        rt,
        &mut service,
        line.as_str(),
        "Accept: */*",
        text.as_str(),
    )?;
    let line = format!(in rt.alloc(); "GET /entries/{key}")?;
    let read = sent(rt, &mut service, line.as_str(), "Accept: */*", "")?;
    let line = format!(in rt.alloc(); "GET /entries?from={key}")?;
    let list = sent(rt, &mut service, line.as_str(), "Accept: */*", "")?;
    Ok(
        fits(put.as_str(), "201 ", "")
            & fits(read.as_str(), "200 ", text.as_str())
            & fits(list.as_str(), "200 ", "x\"}"),
    )
}

// Returns whether a page ends with the entry that brings it to 64 KiB, and the next one begins there.
fn ends_a_page<S: Alter + Drop>(rt: &HostRuntime, conn: Connection<S>) -> Result<bool, Fail> {
    let mut conn = store_of(rt, conn)?.into_connection();
    let text = long_text(rt, 40_000)?;
    for key in ["a", "b", "c"] {
        texts::put(&mut conn, key, text.as_str())?;
    }
    let mut service: StoreService<S, String> = StoreService::new(rt.alloc(), conn, hosts(rt)?);
    let first = sent(rt, &mut service, "GET /entries", "Accept: */*", "")?;
    let next = sent(rt, &mut service, "GET /entries?from=c", "Accept: */*", "")?;
    let has_c = first.as_str().contains("\"c\":");
    Ok(first.as_str().contains("\"b\":") & !has_c & next.as_str().contains("{\"c\":"))
}

#[test]
fn large_requests_are_served(rt: HostRuntime) -> Result<(), Fail> {
    let alloc = rt.alloc();
    assert!(rt; lists_more_than_a_hundred(&rt, Connection::open_in_memory(alloc)?)?);
    assert!(rt; serves_long_ones(&rt, Connection::open_in_memory(alloc)?)?);
    assert!(rt; ends_a_page(&rt, Connection::open_in_memory(alloc)?)?);
    Ok(())
}

// Makes 16,384 rows of one, by doubling them for each letter.
fn make_many<S: Alter>(conn: &mut Connection<S>) -> Result<(), sqlite::Error> {
    texts::create(conn)?;
    texts::put(conn, "k", "1")?;
    for letter in [
        "a", "b", "c", "d", "e", "f", "g", "h", "i", "j", "l", "m", "n", "o",
    ] {
        conn.execute(
            "INSERT INTO entry SELECT key || ?1, body FROM entry",
            params![letter],
        )?;
    }
    Ok(())
}

#[test]
fn large_stores_are_visited(rt: HostRuntime) -> Result<(), Fail> {
    let mut conn = Connection::open_in_memory(rt.alloc())?;
    make_many(&mut conn)?;
    assert!(rt; matches!(count_rows(&mut conn), Ok(16_384)));
    Ok(())
}

#[test]
fn an_error_of_the_database_says_what_it_is(rt: HostRuntime) -> Result<(), Fail> {
    let alloc = rt.alloc();
    let error = sqlite::Error::SqliteFailure(ErrorCode::CannotOpen);
    let text = Error::Database(error).to_string(alloc)?;
    assert_eq!(rt; text.as_str(), error.to_string(alloc)?.as_str());
    assert_eq!(rt; Error::Memory.to_string(alloc)?.as_str(), "out of memory");
    let memory = Error::Database(sqlite::Error::SqliteFailure(ErrorCode::OutOfMemory));
    assert!(rt; memory.is_memory() & Error::Memory.is_memory());
    assert!(rt; !Error::Database(error).is_memory() & !Error::Invalid.is_memory());
    Ok(())
}
