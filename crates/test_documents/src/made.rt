//! Values that `value!` makes.

use miniserde::json::{Array, Number, Object, Value, from_str, to_string};
use miniserde::{Result, value};
use std::alloc::Global;
use test_tables::{Wrong, expect_ok};

/// Returns whether a value is written as expected.
fn is_written(alloc: Global, value: &Value, expected: &str) -> Result<bool> {
    Ok(to_string(alloc, value)?.as_str() == expected)
}

/// Returns whether values without parts are written as expected.
fn are_leaves(alloc: Global) -> Result<bool> {
    Ok(
        is_written(alloc, &value!(in alloc; null)?, "null")?
            && is_written(alloc, &value!(in alloc; true)?, "true")?
            && is_written(alloc, &value!(in alloc; -1)?, "-1")?
            && is_written(alloc, &value!(in alloc; "a\"b")?, r#""a\"b""#)?
            && is_written(alloc, &value!(in alloc; [])?, "[]")?
            && is_written(alloc, &value!(in alloc; {})?, "{}")?,
    )
}

const NESTED: &str = r#"{"a":[1,[null,{"b":{}}],[]],"c":{"d":[false]}}"#;

/// Returns whether arrays and objects nested, with trailing commas, are written as expected.
fn is_nested(alloc: Global) -> Result<bool> {
    let nested = value!(in alloc; {
        "c": {"d": [false,],},
        "a": [1, [null, {"b": {}}], []],
    })?;
    is_written(alloc, &nested, NESTED)
}

const INTEGERS: &str =
    "[255,65535,4294967295,18446744073709551615,1,-128,-32768,-2147483648,-9223372036854775808,-1,0]";

/// Returns whether the least or greatest integers of each type are written as expected.
fn are_integers(alloc: Global) -> Result<bool> {
    let integers = value!(in alloc; [
        u8::MAX, u16::MAX, u32::MAX, u64::MAX, 1usize, i8::MIN, i16::MIN, i32::MIN, i64::MIN, -1isize, 0i64
    ])?;
    is_written(alloc, &integers, INTEGERS)
}

/// Returns whether an integer of a signed type that is not negative is a `U64`, and a negative one an `I64`.
fn is_unsigned(alloc: Global) -> Result<bool> {
    match (value!(in alloc; 7i64)?, value!(in alloc; -7i64)?) {
        (Value::Number(Number::U64(n)), Value::Number(Number::I64(z))) => Ok(n == 7 && z == -7),
        _ => Ok(false),
    }
}

const TEXTS: &str = r#"["a","b","b",null,"c",3,null]"#;

/// Returns whether texts, copied or moved, and optional values are written as expected.
fn are_texts(alloc: Global) -> Result<bool> {
    let owned = String::from_str(alloc, "b")?;
    let text: &str = "a";
    let given: Option<&str> = Some("c");
    let missing: Option<&str> = None;
    let count: Option<u8> = Some(3);
    let no_count: Option<u8> = None;
    let texts = value!(in alloc; [text, &owned, owned, missing, given, count, no_count])?;
    is_written(alloc, &texts, TEXTS)
}

const MOVED: &str = r#"{"array":[1.50],"number":1.50,"object":{"a":1},"value":{"z":[]}}"#;

/// Returns whether documents that are moved in are written as expected.
fn are_moved(alloc: Global) -> Result<bool> {
    let number: Number = from_str(alloc, "1.50")?;
    let array: Array = from_str(alloc, "[1.50]")?;
    let object: Object = from_str(alloc, r#"{"a":1}"#)?;
    let value: Value = from_str(alloc, r#"{"z":[]}"#)?;
    let moved =
        value!(in alloc; {"value": value, "object": object, "number": number, "array": array})?;
    is_written(alloc, &moved, MOVED)
}

const NAMES: &str = r#"{"\"":1,"a":[2],"key":3}"#;

/// Returns whether of equal names the last counts, and names that are expressions or have escapes are written as
/// expected.
fn are_names(alloc: Global) -> Result<bool> {
    let key = String::from_str(alloc, "key")?;
    let named = value!(in alloc; {"a": null, "\"": 1, "a": {"b": 1}, (key.as_str()): 3, "a": [2]})?;
    is_written(alloc, &named, NAMES)
}

#[test]
fn json_with_expressions_makes_its_value(rt: HostRuntime) -> std::result::Result<(), Wrong> {
    let alloc = rt.alloc();
    expect_ok(are_leaves(alloc), "leaves")?;
    expect_ok(is_nested(alloc), "nested")?;
    expect_ok(are_integers(alloc), "integers")?;
    expect_ok(is_unsigned(alloc), "the variant of an integer")?;
    expect_ok(are_texts(alloc), "texts")?;
    expect_ok(are_moved(alloc), "documents")?;
    expect_ok(are_names(alloc), "names")
}
