//! Large canonical texts.

use crate::texts::{FALLING, MANY, MIXED, RISING, numbered, repeated};
use miniserde::error::Result;
use miniserde::json::{canonical, canonical_both, canonical_unique};
use std::alloc::Global;
use test_tables::{Wrong, expect_ok};

/// Returns whether each call that makes canonical texts makes the expected one.
fn is_canonical(alloc: Global, text: &str, expected: &str) -> Result<bool> {
    let (left, right) = canonical_both(alloc, text, expected)?;
    Ok(
        canonical(alloc, text)?.as_str() == expected
            && canonical_unique(alloc, text)?.as_str() == expected
            && left.as_str() == expected
            && right.as_str() == expected,
    )
}

/// Returns whether many items, of which none is canonical, are.
fn are_items(alloc: Global) -> Result<bool> {
    let text = numbered(alloc, ("[ ", " ]"), ("{\"\\u0061\" : ", "}"), MIXED)?;
    let expected = numbered(alloc, ("[", "]"), ("{\"a\":", "}"), MIXED)?;
    is_canonical(alloc, text.as_str(), expected.as_str())
}

/// Returns whether the members of a large object are put in order, from each order.
fn are_members(alloc: Global) -> Result<bool> {
    let part = ("\"", "\":\"a value of some length\"");
    let expected = numbered(alloc, ("{", "}"), part, RISING)?;
    let falling = numbered(alloc, ("{", "}"), part, FALLING)?;
    let mixed = numbered(alloc, ("{", "}"), part, MIXED)?;
    Ok(
        is_canonical(alloc, expected.as_str(), expected.as_str())?
            && is_canonical(alloc, falling.as_str(), expected.as_str())?
            && is_canonical(alloc, mixed.as_str(), expected.as_str())?,
    )
}

/// Returns whether small objects and objects of more than a thousand bytes in a list are put in order.
fn are_objects(alloc: Global) -> Result<bool> {
    let small = numbered(alloc, ("[", "]"), ("{\"b\":", ",\"a\":1}"), MIXED)?;
    let small_expected = numbered(alloc, ("[", "]"), ("{\"a\":1,\"b\":", "}"), MIXED)?;
    let value = repeated(alloc, 2_000, "\"", "v", "\"")?;
    let value = value.as_str();
    let piece = format!(in alloc; "{{\"b\":{value},\"a\":1}},")?;
    let piece_expected = format!(in alloc; "{{\"a\":1,\"b\":{value}}},")?;
    let large = repeated(alloc, 1_000, "[", piece.as_str(), "0]")?;
    let large_expected = repeated(alloc, 1_000, "[", piece_expected.as_str(), "0]")?;
    Ok(
        is_canonical(alloc, small.as_str(), small_expected.as_str())?
            && is_canonical(alloc, large.as_str(), large_expected.as_str())?,
    )
}

/// Returns whether nested objects are put in order, each of which is longer than the one inside.
fn are_nested(alloc: Global) -> Result<bool> {
    let opened = repeated(alloc, MANY, "", "{\"b\":\"some length\",\"a\":", "0")?;
    let text = repeated(alloc, MANY, opened.as_str(), "}", "")?;
    let opened = repeated(alloc, MANY, "", "{\"a\":", "0")?;
    let expected = repeated(alloc, MANY, opened.as_str(), ",\"b\":\"some length\"}", "")?;
    is_canonical(alloc, text.as_str(), expected.as_str())
}

/// Returns whether a long string, name and number are canonical: without an escape, with many, and spelled with more.
fn are_texts(alloc: Global) -> Result<bool> {
    let plain = repeated(alloc, MANY, "{\"", "é", "\":0}")?;
    let escaped = repeated(alloc, MANY, "[\"", "\\u0001", "\"]")?;
    let spelled = repeated(alloc, MANY, "{\"", "\\u00E9", "\":-0}")?;
    let digits = repeated(alloc, MANY, "[-1.", "0", "e5]")?;
    Ok(
        is_canonical(alloc, plain.as_str(), plain.as_str())?
            && is_canonical(alloc, escaped.as_str(), escaped.as_str())?
            && is_canonical(alloc, spelled.as_str(), plain.as_str())?
            && is_canonical(alloc, digits.as_str(), digits.as_str())?,
    )
}

#[test]
fn large_texts_are_canonical(rt: HostRuntime) -> std::result::Result<(), Wrong> {
    let alloc = rt.alloc();
    expect_ok(are_items(alloc), "items")?;
    expect_ok(are_members(alloc), "members")?;
    expect_ok(are_objects(alloc), "objects in a list")?;
    expect_ok(are_nested(alloc), "nested objects")?;
    expect_ok(are_texts(alloc), "texts")
}
