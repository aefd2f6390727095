//! How often the text that is written or decoded grows. One that grew a little at a time would take quadratic time.

use crate::writer::call;
use crate::wrong::{Wrong, expect_ok};
use miniserde_model::error::Result;
use miniserde_ser::ser::Writer;
use miniserde_text::json::lex::Lexer;
use std::alloc::Global;

// The number of pieces that are appended, each of up to six bytes, and the largest number of capacities that the text may
// have meanwhile. A text that doubles has fewer. One that grows by the longest escape has more.
const PIECES: usize = 128;

const MOST: usize = 16;

/// Returns the capacity of a writer's text after one call was made a number of times.
fn written(alloc: Global, word: &str, times: usize) -> Result<usize> {
    let mut w = Writer::new(alloc);
    for _ in 0..times {
        call(&mut w, word)?;
    }
    Ok(w.into_string()?.capacity())
}

/// Returns a JSON string that has one escape a number of times.
fn string_of(alloc: Global, escape: &str, times: usize) -> Result<String> {
    let mut text = String::from_str(alloc, "\"")?;
    for _ in 0..times {
        text.push_str(escape)?;
    }
    text.push('"')?;
    Ok(text)
}

/// Returns the capacity of the scratch text after the lexer took a string that has one escape a number of times.
fn taken(alloc: Global, call: &str, escape: &str, times: usize) -> Result<usize> {
    let text = string_of(alloc, escape, times)?;
    let mut scratch = String::new(alloc);
    let mut lexer = Lexer::new(text.as_str());
    if call == "escaped" {
        lexer.start_escaped(&mut scratch)?;
    } else {
        lexer.start(&mut scratch)?;
    }
    Ok(scratch.capacity())
}

/// Returns the capacity after the call of a lexer or of a writer was made with that number of pieces.
fn capacity(alloc: Global, line: &str, times: usize) -> Result<usize> {
    match line.split_once(' ') {
        Some((call, escape)) => taken(alloc, call, escape, times),
        None => written(alloc, line, times),
    }
}

/// Returns whether the text has more than one capacity while it gets its pieces, and no more than it may have.
fn grows_seldom(alloc: Global, line: &str) -> Result<bool> {
    let (mut capacities, mut last) = (0usize, 0);
    for times in 1..PIECES {
        let now = capacity(alloc, line, times)?;
        if now != last {
            capacities = capacities.saturating_add(1);
            last = now;
        }
    }
    Ok(capacities > 1 && capacities <= MOST)
}

const PIECES_OF_ONE_KIND: &str = "null
u64=7
i64=-7
number=1.5
str=a
seq
element
key=a
escaped \\n
escaped \\u0001
escaped \\u00e9
start \\n
start \\u00e9";

#[test]
fn a_text_grows_seldom(rt: HostRuntime) -> std::result::Result<(), Wrong> {
    for line in PIECES_OF_ONE_KIND.lines() {
        expect_ok(grows_seldom(rt.alloc(), line), line)?;
    }
    Ok(())
}
