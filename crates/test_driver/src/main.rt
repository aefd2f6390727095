//! Runs one job of the library on a text of standard input, for scripts that make the texts and judge the answers:
//! `tools/seeded_texts`, `tools/oom/run` and `bench/run`.
//!
//! The first argument names the job (`jobs.rt`), the second the mode:
//! - `read` reads the text as the job's type and drops the value; `both` writes the text that the job makes, `canonical`
//!   in place of a value's text its canonical text.
//! - `answer` writes the line `begins`, runs the job, and writes a line with its outcome.
//! - `drop` writes the line `begins`, reads a document, writes `built`, drops the document, and writes `dropped`.
//! - `sequence` runs the job on each text of a sequence, and writes a line with the outcome of each. A byte 1E separates
//!   the texts, as in RFC 7464.
#![tactic(auto)]

mod calls;
mod entities;
mod jobs;
mod outcome;
mod pages;
mod places;
mod posts;
mod services;
mod users;

use jobs::{Depth, run};
use miniserde::Error;
use miniserde::json::{Value, from_str};
use outcome::Outcome;
use std::alloc::Global;
use std::io::{BufRead, BufReader, Read, Write};
use std::process::ExitCode;
use std::{env, io, str};

/// The byte between two texts of a sequence.
const SEPARATOR: u8 = 0x1e;

/// Why a run ended early, by its exit status.
#[derive(Clone, Copy)]
enum Fault {
    /// The text is not UTF-8, or the job failed in mode `read` or `both`.
    Text,
    /// The arguments name no job or no mode.
    Arguments,
    /// Standard input could not be read, or its text does not fit in memory.
    Input,
    /// Standard output could not be written.
    Output,
}

impl Fault {
    fn status(self) -> u8 {
        match self {
            Fault::Text => 1,
            Fault::Arguments => 2,
            Fault::Input => 3,
            Fault::Output => 4,
        }
    }
}

/// Returns the words after the program's name.
fn words(rt: &(impl std::rt::Env + AllocGlobal)) -> io::Result<Vec<String>> {
    let mut words = Vec::new(rt.alloc());
    for word in env::args(rt)?.skip(1) {
        words.push(word)?;
    }
    Ok(words)
}

/// Appends a chunk in pieces, since callgrind counts a long copy as an instruction a byte.
fn append(bytes: &mut Vec<u8>, chunk: &[u8]) -> Result<(), Fault> {
    for piece in chunk.chunks(1024) {
        bytes.extend_from_slice(piece).map_err(|_| Fault::Input)?;
    }
    Ok(())
}

/// Reads all that the reader has left.
fn read_all<R: Read>(alloc: Global, r: &mut R) -> Result<Vec<u8>, Fault> {
    let mut bytes = Vec::new(alloc);
    let mut chunk = [0u8; 65536];
    for _ in 0..u64::MAX {
        let Ok(n) = r.read(&mut chunk) else {
            return Err(Fault::Input);
        };
        if n == 0 {
            return Ok(bytes);
        }
        append(&mut bytes, &chunk[..n])?;
    }
    Err(Fault::Input)
}

fn put<W: Write>(w: &mut W, text: &str) -> Result<(), Fault> {
    w.write_all(text.as_bytes()).map_err(|_| Fault::Output)
}

/// Runs a job, and writes the text that it made, unless the depth is `Read`.
fn measure<W: Write>(
    alloc: Global,
    job: &str,
    depth: Depth,
    text: &str,
    w: &mut W,
) -> Result<(), Fault> {
    let Some(outcome) = run(alloc, job, depth, text) else {
        return Err(Fault::Arguments);
    };
    if outcome.result.is_err() {
        return Err(Fault::Text);
    }
    put(w, outcome.text.as_str())
}

/// Runs a job, and writes its outcome as a line: the result's word, and the text that the job left.
fn answer<W: Write>(alloc: Global, job: &str, text: &str, w: &mut W) -> Result<(), Fault> {
    let Some(outcome) = run(alloc, job, Depth::Both, text) else {
        return Err(Fault::Arguments);
    };
    put(w, outcome.word())?;
    put(w, " ")?;
    put(w, outcome.text.as_str())?;
    put(w, "\n")
}

/// Reads a document, and drops it between two lines.
fn drop_between<W: Write>(alloc: Global, text: &str, w: &mut W) -> Result<(), Fault> {
    put(w, "begins\n")?;
    match from_str::<Value>(alloc, text) {
        Ok(value) => {
            put(w, "built\n")?;
            drop(value);
            put(w, "dropped\n")
        }
        Err(Error::Memory) => put(w, "memory \n"),
        Err(Error::Invalid) => put(w, "invalid \n"),
    }
}

/// Runs a job on each text of a sequence.
fn answer_each<R: Read + Drop, W: Write>(
    alloc: Global,
    job: &str,
    r: R,
    w: &mut W,
) -> Result<(), Fault> {
    let Ok(reader) = BufReader::new(alloc, r) else {
        return Err(Fault::Input);
    };
    for part in reader.split(alloc, SEPARATOR) {
        let Ok(part) = part else {
            return Err(Fault::Input);
        };
        let Ok(text) = str::from_utf8(part.as_slice()) else {
            return Err(Fault::Text);
        };
        answer(alloc, job, text, w)?;
    }
    Ok(())
}

/// Runs a job on the whole text of the reader.
fn on_text<R: Read, W: Write>(
    alloc: Global,
    job: &str,
    mode: &str,
    r: &mut R,
    w: &mut W,
) -> Result<(), Fault> {
    let bytes = read_all(alloc, r)?;
    let Ok(text) = str::from_utf8(bytes.as_slice()) else {
        return Err(Fault::Text);
    };
    match mode {
        "read" => measure(alloc, job, Depth::Read, text, w),
        "both" => measure(alloc, job, Depth::Both, text, w),
        "canonical" => measure(alloc, job, Depth::Canonical, text, w),
        "answer" => {
            put(w, "begins\n")?;
            answer(alloc, job, text, w)
        }
        "drop" => drop_between(alloc, text, w),
        _ => Err(Fault::Arguments),
    }
}

fn main(rt: HostRuntime) -> ExitCode {
    let Ok(words) = words(&rt) else {
        return ExitCode::from(3);
    };
    let mut w = rt.stdout();
    let done = match words.as_slice() {
        [job, mode] if mode.as_str() == "sequence" => {
            answer_each(rt.alloc(), job.as_str(), rt.stdin(), &mut w)
        }
        [job, mode] => {
            let mut r = rt.stdin();
            on_text(rt.alloc(), job.as_str(), mode.as_str(), &mut r, &mut w)
        }
        _ => Err(Fault::Arguments),
    };
    match done {
        Ok(()) => ExitCode::SUCCESS,
        Err(fault) => ExitCode::from(fault.status()),
    }
}
