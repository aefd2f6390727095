//! Large texts.

use miniserde::error::Result;
use std::alloc::Global;
use std::fmt::Write;

/// How many items, members or bytes a large text has: more than 65,536.
pub const MANY: u64 = 70_000;

/// An order of numbers: a factor and a start.
pub type Order = (u64, u64);

/// The numbers rise.
pub const RISING: Order = (1, 0);
/// The numbers fall.
pub const FALLING: Order = (MANY - 1, MANY - 1);
/// The numbers rise by three, and begin anew below the others.
pub const MIXED: Order = (3, 7);

/// Returns a text of many parts between its ends, with a comma between two. A part is the first text of `part`, one of
/// the numbers from 100,000 on, in the order, and the second text of `part`. All numbers have six digits.
pub fn numbered(
    alloc: Global,
    ends: (&str, &str),
    part: (&str, &str),
    order: Order,
) -> Result<String> {
    let mut text = String::from_str(alloc, ends.0)?;
    let (before, after) = part;
    for i in 0..MANY {
        let k = i.wrapping_mul(order.0).wrapping_add(order.1) % MANY;
        let number = k.wrapping_add(100_000);
        text.push_str(if i == 0 { "" } else { "," })?;
        write!(text, "{before}{number}{after}")?;
    }
    text.push_str(ends.1)?;
    Ok(text)
}

/// Returns a piece so many times, between a text before and one behind.
pub fn repeated(
    alloc: Global,
    count: u64,
    before: &str,
    piece: &str,
    behind: &str,
) -> Result<String> {
    let mut text = String::from_str(alloc, before)?;
    for _ in 0..count {
        text.push_str(piece)?;
    }
    text.push_str(behind)?;
    Ok(text)
}
