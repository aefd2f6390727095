//! Puts rows into a store and reads them again, for `bench/rows`.
//!
//! `rows_driver JOB COUNT [FILE]`: the key of a row is its number, from 0 on, and its body the number and a text. Without
//! FILE the store is in memory. The line that it writes is the number of rows that were found. The jobs:
//! - `put` puts COUNT rows in one transaction, and `commits` each in its own; they find as many rows as `len` counts.
//! - `get` gets COUNT rows by their keys, and `all` reads all rows.
#![tactic(auto)]

use rows::error::Error;
use rows::{files, texts, values};
use sqlite::{Alter, Connection, Unknown};
use std::alloc::Global;
use std::process::ExitCode;
use std::{env, io};

/// The text of each body.
const NOTE: &str = "a note of forty characters, as one keeps";

/// A body as it is read.
type Body = (u64, String);

/// Puts rows, each in a transaction of its own unless one is open.
fn put_rows<S: Alter>(alloc: Global, conn: &mut Connection<S>, count: u64) -> Result<(), Error> {
    for n in 0..count {
        values::put(alloc, conn, &n, &(n, NOTE))?;
    }
    Ok(())
}

/// Gets rows by their keys, and returns whether each was found.
fn are_found<S: Alter>(alloc: Global, conn: &mut Connection<S>, count: u64) -> Result<bool, Error> {
    for n in 0..count {
        let body: Option<Body> = values::get(alloc, conn, &n)?;
        if body.is_none() {
            return Ok(false);
        }
    }
    Ok(true)
}

/// Reads all rows, and returns how many there are.
fn read_rows<S: Alter>(alloc: Global, conn: &mut Connection<S>) -> Result<u64, Error> {
    let rows: Vec<(u64, Body)> = values::all(alloc, conn)?;
    Ok(rows.len() as u64)
}

/// Runs a job, and returns how many rows it found; 0 if there is no such job.
fn run<S: Alter>(
    alloc: Global,
    conn: &mut Connection<S>,
    job: &str,
    count: u64,
) -> Result<u64, Error> {
    texts::create(conn)?;
    match job {
        "put" => {
            texts::begin(conn)?;
            put_rows(alloc, conn, count)?;
            texts::commit(conn)?;
            Ok(texts::len(conn)?)
        }
        "commits" => {
            put_rows(alloc, conn, count)?;
            Ok(texts::len(conn)?)
        }
        "get" => Ok(if are_found(alloc, conn, count)? {
            count
        } else {
            0
        }),
        "all" => read_rows(alloc, conn),
        _ => Ok(0),
    }
}

/// Runs the job of the command line. Returns how many rows it found, or `None` if it failed.
fn found(rt: &HostRuntime) -> io::Result<Option<u64>> {
    let mut words = env::args(rt)?.skip(1);
    let (Some(job), Some(count), path) = (words.next(), words.next(), words.next()) else {
        return Ok(None);
    };
    let Ok(count) = count.parse::<u64>() else {
        return Ok(None);
    };
    let alloc = rt.alloc();
    match path {
        Some(path) => {
            let Ok(mut conn) = files::open(rt, path.as_str(), Unknown) else {
                return Ok(None);
            };
            Ok(run(alloc, &mut conn, job.as_str(), count).ok())
        }
        None => {
            let Ok(mut conn) = Connection::open_in_memory(alloc) else {
                return Ok(None);
            };
            Ok(run(alloc, &mut conn, job.as_str(), count).ok())
        }
    }
}

fn main(rt: HostRuntime) -> ExitCode {
    match found(&rt) {
        Ok(Some(n)) => match println!(&rt; "{n}") {
            Ok(()) => ExitCode::SUCCESS,
            Err(_) => ExitCode::from(4),
        },
        _ => ExitCode::from(1),
    }
}
