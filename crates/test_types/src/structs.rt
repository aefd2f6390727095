//! Structs beside many members that they have not, and with long ones.

use crate::checks::{is_fed, is_read, is_round_trip};
use crate::texts::{MANY, MIXED, numbered, repeated};
use demo::{Demo, StrictDemo};
use miniserde::error::Result;
use std::alloc::Global;
use test_tables::{Wrong, expect_ok};

const SHORT: &str = r#"{"code":1,"message":"m"}"#;

/// Returns whether a struct is read from a text, by each set of marks.
fn is_struct(alloc: Global, text: &str, expected: &str) -> Result<bool> {
    Ok(
        is_read::<Demo>(alloc, text, expected)?
            && is_read::<StrictDemo>(alloc, text, expected)?
            && is_fed::<Demo>(alloc, text, expected)?,
    )
}

/// Returns whether members of other names are skipped: many of them, a deep one, one with a long text and a long name.
fn are_skipped(alloc: Global) -> Result<bool> {
    let many = numbered(
        alloc,
        ("{\"code\":1,", ",\"message\":\"m\"}"),
        ("\"", "\":{}"),
        MIXED,
    )?;
    let opened = repeated(alloc, MANY, "{\"code\":1,\"z\":", "[", "0")?;
    let deep = repeated(alloc, MANY, opened.as_str(), "]", ",\"message\":\"m\"}")?;
    let name = repeated(alloc, MANY, "{\"code\":1,\"", "\\n", "\":\"")?;
    let long = repeated(alloc, MANY, name.as_str(), "\\n", "\",\"message\":\"m\"}")?;
    Ok(
        is_struct(alloc, many.as_str(), SHORT)?
            && is_struct(alloc, deep.as_str(), SHORT)?
            && is_struct(alloc, long.as_str(), SHORT)?,
    )
}

/// Returns whether a struct with a long text, and a list of many structs, are read and written.
fn are_structs(alloc: Global) -> Result<bool> {
    let long = repeated(alloc, MANY, "{\"code\":1,\"message\":\"", "\\n", "\"}")?;
    let part = ("{\"code\":", ",\"message\":\"m\"}");
    let many = numbered(alloc, ("[", "]"), part, MIXED)?;
    Ok(
        is_struct(alloc, long.as_str(), long.as_str())?
            && is_round_trip::<Demo>(alloc, long.as_str())?
            && is_read::<Vec<Demo>>(alloc, many.as_str(), many.as_str())?
            && is_round_trip::<Vec<StrictDemo>>(alloc, many.as_str())?,
    )
}

#[test]
fn large_structs_are_read(rt: HostRuntime) -> std::result::Result<(), Wrong> {
    expect_ok(are_skipped(rt.alloc()), "other names")?;
    expect_ok(are_structs(rt.alloc()), "long fields")
}
