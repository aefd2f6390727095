//! Tables of canonical texts at one type.

use crate::table::{is_right, text_of};
use crate::wrong::{Wrong, expect, expect_ok};
use miniserde::error::{Error, Result};
use miniserde::json::{canonical, canonical_of, from_str, read_canonical, to_string};
use miniserde::{FromJson, Serialize, Stable};
use std::alloc::Global;

/// Returns the first part of a line and the rest, parted by ` => `. Of a line with one part, both are the line.
fn parts(line: &str) -> (&str, &str) {
    match line.split_once(" => ") {
        Some(both) => both,
        None => (line, line),
    }
}

/// Returns whether a type has one value for a text and for its canonical text.
fn is_one_value<T: Stable + Serialize>(alloc: Global, line: &str) -> Result<bool> {
    let (text, rest) = parts(line);
    let (expected, written) = parts(rest);
    let (value, made) = read_canonical::<T>(alloc, text)?;
    let other: T = from_str(alloc, expected)?;
    let value = to_string(alloc, &value)?;
    let other = to_string(alloc, &other)?;
    Ok(made.as_str() == expected && value.as_str() == written && other.as_str() == written)
}

/// Fails with the first line of a table for which a type has not one value, if any. A line is a text, its canonical
/// text, and what the value is written as, unless that is the canonical text.
pub fn expect_one_value<T: Stable + Serialize>(
    alloc: Global,
    table: &'static str,
) -> std::result::Result<(), Wrong> {
    for line in table.lines() {
        expect_ok(is_one_value::<T>(alloc, line), line)?;
    }
    Ok(())
}

/// Returns whether a type has other values for a text and for its canonical text.
fn is_two_values<T: FromJson + Serialize>(alloc: Global, line: &str) -> Result<bool> {
    let (text, rest) = parts(line);
    let (expected, rest) = parts(rest);
    let (written, other_written) = parts(rest);
    let made = canonical(alloc, text)?;
    let value: T = from_str(alloc, text)?;
    let other: T = from_str(alloc, expected)?;
    let value = to_string(alloc, &value)?;
    let other = to_string(alloc, &other)?;
    Ok(made.as_str() == expected && value.as_str() == written && other.as_str() == other_written)
}

/// Fails with the first line of a table for which a type has not two values, if any. A line is a text, its canonical
/// text, and what the values of both are written as.
pub fn expect_two_values<T: FromJson + Serialize>(
    alloc: Global,
    table: &'static str,
) -> std::result::Result<(), Wrong> {
    for line in table.lines() {
        expect_ok(is_two_values::<T>(alloc, line), line)?;
    }
    Ok(())
}

/// Returns the canonical text of the value of a text.
fn canonical_of_value<T: FromJson + Serialize>(alloc: Global, text: &str) -> Result<String> {
    let value: T = from_str(alloc, text)?;
    canonical_of(alloc, &value)
}

/// Fails with the first line of a table that has another canonical text of the value, if any.
pub fn expect_canonical_of<T: FromJson + Serialize>(
    alloc: Global,
    table: &'static str,
) -> std::result::Result<(), Wrong> {
    for line in table.lines() {
        expect(
            is_right(canonical_of_value::<T>(alloc, text_of(line)), line),
            line,
        )?;
    }
    Ok(())
}

/// Fails with the first line of a table that `read_canonical` accepts for a type, if any.
pub fn expect_refused<T: Stable>(
    alloc: Global,
    table: &'static str,
) -> std::result::Result<(), Wrong> {
    for line in table.lines() {
        let read: Result<(T, String)> = read_canonical(alloc, line);
        expect(matches!(read, Err(Error::Invalid)), line)?;
    }
    Ok(())
}
