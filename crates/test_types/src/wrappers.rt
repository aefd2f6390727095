//! Optional and boxed values, borrowed texts and references.

use crate::checks::is_written;
use miniserde::FromJson;
use miniserde::error::Result;
use miniserde::json::from_str;
use std::alloc::Global;
use std::borrow::CowStr;
use test_tables::{Wrong, expect_ok, expect_read_itself, expect_round_trip, expect_table};

/// Returns whether `null` is read as `None`.
fn null_is_none<T: FromJson>(alloc: Global) -> Result<bool> {
    let value: Option<T> = from_str(alloc, "null")?;
    Ok(value.is_none())
}

#[test]
fn an_optional_or_boxed_value_is_the_value(rt: HostRuntime) -> std::result::Result<(), Wrong> {
    let alloc = rt.alloc();
    // `null` is the outermost `None`.
    expect_ok(null_is_none::<Option<u8>>(alloc), "an optional option")?;
    expect_ok(null_is_none::<()>(alloc), "an optional unit")?;
    expect_ok(null_is_none::<Box<u8>>(alloc), "an optional box")?;
    expect_table::<Option<u8>>(
        alloc,
        "null => same\n255 => same\n256\n\"null\"\n[null]\nnul\n\nnull null",
    )?;
    expect_read_itself::<Vec<Option<u8>>>(
        alloc,
        "[null,3] => same\n[] => same\n[null 3]\n[null,]\nnull",
    )?;
    expect_round_trip::<Option<Option<u8>>>(alloc, "null => same\n255 => same\n256")?;
    expect_round_trip::<Option<Vec<Option<bool>>>>(
        alloc,
        "null => same\n[] => same\n[true,null] => same\n[true,0]",
    )?;
    expect_table::<Box<u8>>(alloc, " 7  => 7\n0 => same\n255 => same\nnull\n[1]\n256")?;
    expect_round_trip::<Box<Option<u8>>>(alloc, "null => same\n1 => same\n256")?;
    expect_read_itself::<Box<Vec<Box<u8>>>>(alloc, "[1,2] => same\n[1,null]")
}

/// Returns whether a text is written as expected by itself, owned and borrowed in each way.
fn is_text_written(alloc: Global, text: &str, expected: &str) -> Result<bool> {
    let owned = String::from_str(alloc, text)?;
    let borrowed_cow: CowStr<'_> = CowStr::Borrowed(text);
    let owned_cow: CowStr<'_> = CowStr::Owned(String::from_str(alloc, text)?);
    Ok(
        is_written(alloc, &owned, expected)?
            && is_written(alloc, &&owned, expected)?
            && is_written(alloc, &text, expected)?
            && is_written(alloc, &&text, expected)?
            && is_written(alloc, &borrowed_cow, expected)?
            && is_written(alloc, &owned_cow, expected)?,
    )
}

#[test]
fn a_text_is_written_alike_by_each_type(rt: HostRuntime) -> std::result::Result<(), Wrong> {
    let alloc = rt.alloc();
    expect_ok(
        is_text_written(alloc, "\u{1}/", "\"\\u0001/\""),
        "an escape",
    )?;
    expect_ok(is_text_written(alloc, "a", "\"a\""), "a letter")?;
    // A reference is written as its value.
    let numbers: &[u64] = &[1, 2];
    expect_ok(is_written(alloc, &numbers, "[1,2]"), "a slice")?;
    let none = is_written(alloc, &Some(None::<u8>), "null");
    expect_ok(none, "an option in an option")
}
