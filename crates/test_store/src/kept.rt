//! Numbers under texts, in files in memory that are opened again.

use rows::error::Error;
use rows::pages::page_from;
use rows::{files, texts, values};
use sqlite::{Alter, Connection, FileStore, Files, Options};
use sqlite_disk::{Disk, Memory};
use std::alloc::Global;
use std::test::Fail;

// Returns a database over files in memory that has no table.
fn opened(alloc: Global) -> Result<Connection<FileStore<Memory>>, Fail> {
    let files = Files {
        log: Memory::new(alloc),
        db: Memory::new(alloc),
    };
    match Connection::open_files(alloc, files, Options::new(1)) {
        Ok(conn) => Ok(conn),
        Err((error, _)) => Err(Fail::from(error)),
    }
}

// Makes the table, and returns whether it was not there before.
fn create<S: Alter>(conn: &mut Connection<S>) -> Result<bool, Error> {
    let before = texts::is_empty(conn) & !texts::is_store(conn);
    texts::create(conn)?;
    let after = texts::is_store(conn) & !texts::is_empty(conn);
    Ok(before & after)
}

// Returns whether a key has this number, or none.
fn is<S: Alter>(
    alloc: Global,
    conn: &mut Connection<S>,
    key: &String,
    wanted: Option<u64>,
) -> Result<bool, Error> {
    let found: Option<u64> = values::get(alloc, conn, key)?;
    let has = values::has(alloc, conn, key)?;
    Ok((found == wanted) & (has == wanted.is_some()))
}

// Returns whether a key is given a number, and then has it.
fn put<S: Alter>(
    alloc: Global,
    conn: &mut Connection<S>,
    key: &String,
    number: u64,
) -> Result<bool, Error> {
    values::put(alloc, conn, key, &0u64)?;
    let read = values::put_and_get(alloc, conn, key, &number)?;
    Ok(read == Some(number))
}

// Returns whether the row of a text is removed, and was there.
fn removes<S: Alter>(conn: &mut Connection<S>, key: &str) -> Result<bool, Error> {
    let there = texts::has(conn, key)?;
    let removed = texts::remove(conn, key)?;
    let again = texts::remove(conn, key)?;
    Ok(there & removed & !again)
}

// Returns whether there are as many rows, in `len` and in both calls that give all.
fn count<S: Alter>(alloc: Global, conn: &mut Connection<S>, wanted: usize) -> Result<bool, Error> {
    let rows = texts::all(alloc, conn)?.len();
    let numbers: Vec<(String, u64)> = values::all(alloc, conn)?;
    let len = texts::len(conn)?;
    Ok((rows == wanted) & (numbers.len() == wanted) & (len == u64::try_from(wanted).unwrap_or(0)))
}

// Returns whether the first keys from a key on are these, one after another.
fn page<S: Alter>(
    alloc: Global,
    conn: &mut Connection<S>,
    from: &str,
    limit: u32,
    max_bytes: usize,
    wanted: &str,
) -> Result<bool, Error> {
    let page = page_from(alloc, conn, from, limit, max_bytes)?;
    let mut keys = String::new(alloc);
    for row in page.iter() {
        keys.push_str(row.0.as_str())?;
    }
    Ok(keys.as_str() == wanted)
}

// Returns whether a put and a removal are undone.
fn rolls_back<S: Alter>(
    alloc: Global,
    conn: &mut Connection<S>,
    key: &String,
    other: &String,
) -> Result<bool, Error> {
    texts::begin(conn)?;
    let inside = texts::is_in_transaction(conn) & texts::begin(conn).is_err();
    values::put(alloc, conn, key, &9u64)?;
    let removed = values::remove(alloc, conn, other)?;
    texts::rollback(conn)?;
    let outside = !texts::is_in_transaction(conn) & texts::rollback(conn).is_err();
    Ok(inside & removed & outside)
}

// Puts two rows in one commit, and returns whether there is no second one.
fn commits<S: Alter>(
    alloc: Global,
    conn: &mut Connection<S>,
    key: &String,
    other: &String,
) -> Result<bool, Error> {
    texts::begin(conn)?;
    values::put(alloc, conn, key, &1u64)?;
    values::put(alloc, conn, other, &2u64)?;
    texts::commit(conn)?;
    Ok(texts::commit(conn).is_err())
}

// Returns whether a body that means no number is invalid.
fn refuses<S: Alter>(alloc: Global, conn: &mut Connection<S>, key: &String) -> Result<bool, Error> {
    texts::put(conn, "\"nails\"", "[]")?;
    let body = texts::get(conn, "\"nails\"")?;
    let found: Result<Option<u64>, Error> = values::get(alloc, conn, key);
    let invalid = matches!(found, Err(Error::Invalid));
    Ok(invalid & (body.as_deref() == Some("[]")) & (values::value_of::<u64>(alloc, "7")? == 7))
}

// Pages of these two rows, whose keys and bodies have 8 and 16 bytes: from a key on, up to a number of rows and of bytes.
const PAGES: &[(&str, u32, usize, &str)] = &[
    ("", 9, 1000, "\"nails\"\"rope \\\"thin\\\"\""),
    ("\"nails\"", 1, 1000, "\"nails\""),
    ("\"nails\"!", 9, 1000, "\"rope \\\"thin\\\"\""),
    ("", 0, 1000, ""),
    ("a", 9, 1000, ""),
    ("", 9, 0, "\"nails\""),
    ("", 9, 8, "\"nails\""),
    ("", 9, 9, "\"nails\"\"rope \\\"thin\\\"\""),
];

// Returns whether rows are put, found, listed and removed.
fn are_kept<S: Alter>(
    alloc: Global,
    conn: &mut Connection<S>,
    nails: &String,
    rope: &String,
) -> Result<bool, Error> {
    let made = create(conn)? & is(alloc, conn, nails, None)?;
    let committed = commits(alloc, conn, nails, rope)? & rolls_back(alloc, conn, nails, rope)?;
    let mut right = made & committed & is(alloc, conn, nails, Some(1))? & count(alloc, conn, 2)?;
    for (from, limit, max_bytes, wanted) in PAGES {
        right = right & page(alloc, conn, from, *limit, *max_bytes, wanted)?;
    }
    let changed = put(alloc, conn, nails, 7)? & removes(conn, "\"rope \\\"thin\\\"\"")?;
    Ok(right & changed & count(alloc, conn, 1)?)
}

// Returns whether rows are found when their files are opened again.
fn are_found_again<D: Disk + Drop>(
    alloc: Global,
    conn: Connection<FileStore<D>>,
    nails: &String,
    rope: &String,
) -> Result<bool, Fail> {
    let (conn, read) = files::put_and_reopen(alloc, conn, Options::new(2), rope, &8u64)?;
    let mut conn = files::reopen(alloc, conn, Options::new(3))?;
    let found = texts::is_store(&conn) & is(alloc, &mut conn, nails, Some(7))?;
    Ok(found & (read == Some(8)) & refuses(alloc, &mut conn, nails)?)
}

#[test]
fn rows_are_kept(rt: HostRuntime) -> Result<(), Fail> {
    let alloc = rt.alloc();
    let nails = String::from_str(alloc, "nails")?;
    let rope = String::from_str(alloc, "rope \"thin\"")?;
    let mut conn = opened(alloc)?;
    let kept = are_kept(alloc, &mut conn, &nails, &rope);
    assert!(rt; matches!(kept, Ok(true)));
    assert!(rt; are_found_again(alloc, conn, &nails, &rope)?);
    Ok(())
}
