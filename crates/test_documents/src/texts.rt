//! Texts of a given depth.

use miniserde::error::{Error, Result};
use miniserde::json::{Value, from_str, to_string};
use std::alloc::Global;

/// Returns the piece `open` so many times, `close` once less, and then `last`.
pub fn nested(alloc: Global, depth: u32, open: &str, close: &str, last: &str) -> Result<String> {
    let mut text = String::new(alloc);
    for _ in 0..depth {
        text.push_str(open)?;
    }
    for _ in 1..depth {
        text.push_str(close)?;
    }
    text.push_str(last)?;
    Ok(text)
}

/// Returns whether a text is the one that its value is written as.
pub fn is_kept(alloc: Global, text: &str) -> Result<bool> {
    let value: Value = from_str(alloc, text)?;
    Ok(to_string(alloc, &value)?.as_str() == text)
}

/// Returns whether a text is invalid.
pub fn is_invalid(alloc: Global, text: &str) -> bool {
    let value: Result<Value> = from_str(alloc, text);
    matches!(value, Err(Error::Invalid))
}
