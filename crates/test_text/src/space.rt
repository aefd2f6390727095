//! Whitespace between tokens.

use crate::lexer::is_right;
use crate::wrong::{Wrong, expect_ok};
use miniserde_model::error::Result;
use miniserde_text::json::lex::Lexer;
use std::alloc::Global;

/// Returns whether whitespace is taken on both sides of the comma between a string of up to 15 letters and a word.
fn is_taken_in_lists(alloc: Global, space: &str) -> Result<bool> {
    let mut letters = String::new(alloc);
    for _ in 0..16 {
        let text = format!(in alloc; "[\"{letters}\"{space},{space}null]")?;
        let calls = format!(in alloc;
            "seq; first of [: next; borrowed {letters}; next of [: next; null; next of [: close; end: ok"
        )?;
        if !is_right(alloc, text.as_str(), calls.as_str())? {
            return Ok(false);
        }
        letters.push('a')?;
    }
    Ok(true)
}

/// Returns whether runs of 0 to 40 bytes are taken, by `skip` and in lists: of a first byte and another one.
fn are_taken(alloc: Global, first: char, other: char) -> Result<bool> {
    let mut space = String::new(alloc);
    for len in 0..=40 {
        let text = format!(in alloc; "{space}null")?;
        let mut lexer = Lexer::new(text.as_str());
        lexer.skip();
        if lexer.left() != 4 || !is_taken_in_lists(alloc, space.as_str())? {
            return Ok(false);
        }
        space.push(if len == 0 { first } else { other })?;
    }
    Ok(true)
}

#[test]
fn runs_of_whitespace_are_taken_at_each_place(rt: HostRuntime) -> std::result::Result<(), Wrong> {
    for first in [' ', '\t', '\n', '\r'] {
        for other in [' ', '\t', '\n', '\r'] {
            let taken = are_taken(rt.alloc(), first, other);
            expect_ok(taken, "runs of up to 40 bytes")?;
        }
    }
    Ok(())
}

/// Returns whether a byte that is no whitespace stands where the lexer sees it, at each place of a run of 40 bytes.
fn is_seen_at_each_place(alloc: Global, byte: char) -> Result<bool> {
    let mut before = String::new(alloc);
    let mut after = String::from_str(alloc, "                                       ")?;
    for _ in 0..40 {
        let text = format!(in alloc; "[1\n{before}{byte}{after}]")?;
        let calls = "seq; first of [: next; nonnegative 1; next of [: invalid";
        if !is_right(alloc, text.as_str(), calls)? {
            return Ok(false);
        }
        before.push(' ')?;
        after.pop();
    }
    Ok(true)
}

#[test]
fn no_other_byte_is_whitespace(rt: HostRuntime) -> std::result::Result<(), Wrong> {
    for byte in [
        '\0', '\x08', '\x0b', '\x0c', '\x0e', '\x1f', '!', '\u{a0}', '\u{2028}',
    ] {
        let seen = is_seen_at_each_place(rt.alloc(), byte);
        expect_ok(seen, "a byte in a run of 40")?;
    }
    Ok(())
}
