//! Values of great depth, read, written, copied and let go on a small stack.

use crate::texts::{is_invalid, is_kept, nested};
use miniserde::error::Result;
use miniserde::json::drop::safely;
use miniserde::json::{Array, Object, Value, from_str, to_string};
use std::alloc::Global;
use test_tables::{Wrong, expect_ok};

/// Returns whether the value of so many pieces `open` and as many `close` is written as its text.
fn is_kept_at(alloc: Global, depth: u32, open: &str, close: &str) -> Result<bool> {
    is_kept(alloc, nested(alloc, depth, open, close, close)?.as_str())
}

/// Returns whether a text of that depth with a wrong last end is invalid.
fn is_invalid_at(alloc: Global, depth: u32, open: &str, close: &str, last: &str) -> Result<bool> {
    Ok(is_invalid(alloc, nested(alloc, depth, open, close, last)?.as_str()))
}

#[test]
fn deep_objects_are_written(rt: HostRuntime) -> std::result::Result<(), Wrong> {
    expect_ok(
        is_kept_at(rt.alloc(), 100_000, "{\"x\":[", "]}"),
        "100,000 objects",
    )
}

#[test]
fn depths_around_64_are_alike(rt: HostRuntime) -> std::result::Result<(), Wrong> {
    for depth in [63u32, 64, 65, 127, 128, 129] {
        expect_ok(is_kept_at(rt.alloc(), depth, "[", "]"), "arrays")?;
        expect_ok(
            is_invalid_at(rt.alloc(), depth, "[", "]", "}"),
            "arrays with a wrong end",
        )?;
    }
    for depth in [31u32, 32, 33, 64] {
        expect_ok(is_kept_at(rt.alloc(), depth, "{\"a\":[", "]}"), "objects")?;
        expect_ok(
            is_invalid_at(rt.alloc(), depth, "{\"a\":[", "]}", "]]"),
            "objects with a wrong end",
        )?;
    }
    Ok(())
}

/// Returns `Null` in an array, in an array, and so on.
fn deep_array(alloc: Global, depth: u32) -> Result<Value> {
    let mut value = Value::Null;
    for _ in 0..depth {
        let mut array = Array::new(alloc);
        array.inner_mut().push(value)?;
        value = Value::Array(array);
    }
    Ok(value)
}

/// Returns `Null` under the name `x` in an object, that under the name `x` in an object, and so on.
fn deep_object(alloc: Global, depth: u32) -> Result<Value> {
    let mut value = Value::Null;
    for _ in 0..depth {
        let mut members = Vec::new(alloc);
        members.push((String::from_str(alloc, "x")?, value))?;
        value = Value::Object(Object::from_iter(alloc, members)?);
    }
    Ok(value)
}

/// Returns true once values a million levels deep were let go in each way.
fn are_dropped(alloc: Global) -> Result<bool> {
    drop(deep_array(alloc, 1_000_000)?);
    drop(deep_object(alloc, 1_000_000)?);
    safely(deep_array(alloc, 1_000_000)?);
    safely(deep_object(alloc, 1_000_000)?);
    Ok(true)
}

#[test]
fn deep_values_are_dropped(rt: HostRuntime) -> std::result::Result<(), Wrong> {
    expect_ok(are_dropped(rt.alloc()), "a million levels")
}

/// Returns whether a value a million levels deep and its copy are written as its text.
fn is_copied(alloc: Global) -> Result<bool> {
    let text = nested(alloc, 1_000_000, "[", "]", "]")?;
    let value: Value = from_str(alloc, text.as_str())?;
    let copy = value.try_clone(alloc)?;
    let is_alike = to_string(alloc, &value)?.as_str() == text.as_str()
        && to_string(alloc, &copy)?.as_str() == text.as_str();
    drop(value);
    safely(copy);
    Ok(is_alike)
}

#[test]
fn a_deep_copy(rt: HostRuntime) -> std::result::Result<(), Wrong> {
    expect_ok(is_copied(rt.alloc()), "a million levels")
}

#[test]
fn a_million_open_arrays(rt: HostRuntime) -> std::result::Result<(), Wrong> {
    expect_ok(is_invalid_at(rt.alloc(), 1_000_000, "[", "", ""), "no end")?;
    expect_ok(
        is_invalid_at(rt.alloc(), 1_000_000, "[", "]", "}"),
        "a wrong end",
    )
}

/// Returns whether a value a million levels deep is shown, by the length of what is shown.
fn is_shown(alloc: Global) -> Result<bool> {
    let value: Value = from_str(alloc, nested(alloc, 1_000_000, "[", "]", "]")?.as_str())?;
    let shown = format!(in alloc; "{value:?}")?;
    safely(value);
    Ok(shown.len() == 8_000_000 && shown.as_str().starts_with("Array [Array ["))
}

#[test]
fn a_deep_value_is_shown(rt: HostRuntime) -> std::result::Result<(), Wrong> {
    expect_ok(is_shown(rt.alloc()), "a million levels")
}
