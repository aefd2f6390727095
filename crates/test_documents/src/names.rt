//! Objects of many names.

use miniserde::error::{Error, Result};
use miniserde::json::{Object, Unique, from_str, to_string};
use std::alloc::Global;
use std::fmt::Write;
use test_tables::{Wrong, expect_ok};

/// Returns an object of 100,000 members, in an order that depends on the factor and the start.
fn many_members(alloc: Global, factor: u64, start: u64) -> Result<String> {
    let mut text = String::new(alloc);
    for i in 0..100_000u64 {
        text.push_str(if i == 0 { "{" } else { "," })?;
        let number = i.wrapping_mul(factor).wrapping_add(start) % 100_000;
        write!(text, "\"n{number}\":{number}")?;
    }
    text.push_str("}")?;
    Ok(text)
}

/// Returns the text that the members are written as in this order, if they are as many as were read.
fn written(alloc: Global, factor: u64, start: u64) -> Result<String> {
    let object: Object = from_str(alloc, many_members(alloc, factor, start)?.as_str())?;
    if object.inner().len() != 100_000 {
        return Err(Error::Invalid);
    }
    to_string(alloc, &object)
}

/// Returns whether rising numbers are written in order of their texts.
fn is_in_order(alloc: Global) -> Result<bool> {
    let text = written(alloc, 1, 0)?;
    Ok(
        text.as_str()
            .starts_with("{\"n0\":0,\"n1\":1,\"n10\":10,\"n100\":100,")
            && text
                .as_str()
                .ends_with(",\"n99998\":99998,\"n99999\":99999}"),
    )
}

/// Returns whether the same numbers are written alike in another order.
fn is_written_alike(alloc: Global, factor: u64, start: u64) -> Result<bool> {
    Ok(written(alloc, factor, start)?.as_str() == written(alloc, 1, 0)?.as_str())
}

#[test]
fn many_names_in_each_order(rt: HostRuntime) -> std::result::Result<(), Wrong> {
    expect_ok(is_in_order(rt.alloc()), "rising")?;
    expect_ok(is_written_alike(rt.alloc(), 99_999, 99_999), "falling")?;
    expect_ok(is_written_alike(rt.alloc(), 7919, 0), "mixed")
}

/// Returns whether an object of many names is read as `Unique`, and refused with one of them again.
fn is_repeat_refused(alloc: Global, factor: u64, start: u64) -> Result<bool> {
    let mut text = many_members(alloc, factor, start)?;
    let unique: Unique = from_str(alloc, text.as_str())?;
    if to_string(alloc, &unique)?.len() != text.len() {
        return Ok(false);
    }
    text.pop();
    text.push_str(",\"n5000\":0}")?;
    let repeated: Result<Unique> = from_str(alloc, text.as_str());
    Ok(matches!(repeated, Err(Error::Invalid)))
}

#[test]
fn many_names_of_which_none_repeats(rt: HostRuntime) -> std::result::Result<(), Wrong> {
    expect_ok(is_repeat_refused(rt.alloc(), 1, 0), "rising")?;
    expect_ok(is_repeat_refused(rt.alloc(), 99_999, 99_999), "falling")?;
    expect_ok(is_repeat_refused(rt.alloc(), 7919, 0), "mixed")
}
