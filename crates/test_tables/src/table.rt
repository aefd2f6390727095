//! Tables of cases at one type.

use crate::wrong::{Wrong, expect};
use miniserde::error::{Error, Result};
use miniserde::json::{from_str, to_string};
use miniserde::{FromJson, Lossless, RoundTrip, Serialize, read_itself, write_and_read};
use std::alloc::Global;

/// Returns whether what came of a text is what its line expects.
pub fn is_right(written: Result<String>, line: &str) -> bool {
    match (line.split_once(" => "), written) {
        (Some((text, "same")), Ok(written)) => written.as_str() == text,
        (Some((_, expected)), Ok(written)) => written.as_str() == expected,
        (None, Err(Error::Invalid)) => true,
        _ => false,
    }
}

/// Returns the JSON text of a line.
pub fn text_of(line: &str) -> &str {
    match line.split_once(" => ") {
        Some((text, _)) => text,
        None => line,
    }
}

/// Returns the text that the value of a text is written as.
fn written<T: FromJson + Serialize>(alloc: Global, text: &str) -> Result<String> {
    let value: T = from_str(alloc, text)?;
    to_string(alloc, &value)
}

/// Fails with the first line of a table that is wrong for a type, if any.
pub fn expect_table<T: FromJson + Serialize>(
    alloc: Global,
    table: &'static str,
) -> std::result::Result<(), Wrong> {
    for line in table.lines() {
        expect(is_right(written::<T>(alloc, text_of(line)), line), line)?;
    }
    Ok(())
}

/// Returns the text that the value of a text is written as, after it was written and read again.
fn written_again<T: RoundTrip>(alloc: Global, text: &str) -> Result<String> {
    let value: T = from_str(alloc, text)?;
    to_string(alloc, &write_and_read(alloc, &value)?)
}

/// Fails with the first line of a table that is wrong for a type whose values are read again, if any.
pub fn expect_round_trip<T: RoundTrip>(
    alloc: Global,
    table: &'static str,
) -> std::result::Result<(), Wrong> {
    for line in table.lines() {
        expect(
            is_right(written_again::<T>(alloc, text_of(line)), line),
            line,
        )?;
    }
    Ok(())
}

/// Returns the text that the value of a text is written as, after it was read again as itself.
fn written_itself<T: Lossless>(alloc: Global, text: &str) -> Result<String> {
    let value: T = from_str(alloc, text)?;
    to_string(alloc, &read_itself(alloc, &value)?)
}

/// Fails with the first line of a table that is wrong for a type whose values are read again as themselves, if any.
pub fn expect_read_itself<T: Lossless>(
    alloc: Global,
    table: &'static str,
) -> std::result::Result<(), Wrong> {
    for line in table.lines() {
        expect(
            is_right(written_itself::<T>(alloc, text_of(line)), line),
            line,
        )?;
    }
    Ok(())
}

/// Fails with the first proper prefix of a text that is not invalid for a type, if any.
pub fn expect_prefixes_invalid<T: FromJson>(
    alloc: Global,
    text: &'static str,
) -> std::result::Result<(), Wrong> {
    for end in 0..text.len() {
        match text.get(..end) {
            Some(prefix) => {
                let value: Result<T> = from_str(alloc, prefix);
                expect(matches!(value, Err(Error::Invalid)), prefix)?;
            }
            None => {}
        }
    }
    Ok(())
}
