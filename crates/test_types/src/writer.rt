//! Large texts by the calls of the writer, and by those that append to a text.

use crate::texts::{MANY, repeated};
use miniserde::de::MapKey;
use miniserde::error::Result;
use miniserde::ser::{Fragment, Writer, escape_str};
use std::alloc::Global;
use test_tables::{Wrong, expect_ok};

/// Writes an object of a long text under a long name, and of nested arrays.
fn written(alloc: Global, long: &str) -> Result<String> {
    let mut w = Writer::new(alloc);
    w.map()?;
    w.key(long)?;
    w.fragment(Fragment::Str(long))?;
    w.key("deep")?;
    for _ in 0..MANY {
        w.seq()?;
        w.element()?;
    }
    w.fragment(Fragment::Null)?;
    for _ in 0..MANY {
        w.seq_finish()?;
    }
    w.map_finish()?;
    w.into_string()
}

/// Returns whether the writer writes the text that its calls say.
fn is_written(alloc: Global) -> Result<bool> {
    let long = repeated(alloc, MANY, "", "\n", "")?;
    let name = repeated(alloc, MANY, "{\"", "\\n", "\":\"")?;
    let text = repeated(alloc, MANY, name.as_str(), "\\n", "\",\"deep\":")?;
    let opened = repeated(alloc, MANY, text.as_str(), "[", "null")?;
    let expected = repeated(alloc, MANY, opened.as_str(), "]", "}")?;
    Ok(written(alloc, long.as_str())?.as_str() == expected.as_str())
}

/// Returns whether a long text is escaped, and appended as a key, behind another text.
fn is_appended(alloc: Global) -> Result<bool> {
    let long = repeated(alloc, MANY, "", "\n", "")?;
    let mut escaped = String::from_str(alloc, "x")?;
    escape_str(long.as_str(), &mut escaped)?;
    let mut key = String::from_str(alloc, "x")?;
    <String as MapKey>::from_key(alloc, long.as_str())?.to_key(&mut key)?;
    let expected = repeated(alloc, MANY, "x\"", "\\n", "\"")?;
    let expected_key = repeated(alloc, MANY, "x", "\n", "")?;
    Ok(escaped.as_str() == expected.as_str() && key.as_str() == expected_key.as_str())
}

#[test]
fn large_texts_are_written_call_by_call(rt: HostRuntime) -> std::result::Result<(), Wrong> {
    expect_ok(is_written(rt.alloc()), "the writer")?;
    expect_ok(is_appended(rt.alloc()), "behind another text")
}
