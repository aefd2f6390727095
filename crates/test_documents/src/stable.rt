//! Documents and their canonical texts.

use miniserde::de::Deserialize;
use miniserde::error::Result;
use miniserde::json::{
    Document, Number, Value, canonical, canonical_of, feed, from_str, to_string,
};
use std::alloc::Global;
use test_tables::{
    Wrong, expect_canonical_of, expect_ok, expect_one_value, expect_read_itself, expect_refused,
};

const DOCUMENTS: &str = r#"{"b":-0,"a":[1.50, -0]} => {"a":[1.50,0],"b":0}
[{"a":1,"a":2}, null] => [{"a":2},null]
 "\u0061\/" => "a/"
-0 => 0"#;

#[test]
fn a_document_is_stable(rt: HostRuntime) -> std::result::Result<(), Wrong> {
    expect_one_value::<Document>(rt.alloc(), DOCUMENTS)?;
    expect_canonical_of::<Document>(rt.alloc(), DOCUMENTS)?;
    expect_read_itself::<Document>(rt.alloc(), DOCUMENTS)
}

#[test]
fn a_document_is_grammatical(rt: HostRuntime) -> std::result::Result<(), Wrong> {
    expect_refused::<Document>(
        rt.alloc(),
        r#"{"a":1,}
[01]
"\ud800""#,
    )
}

/// Returns whether a place collects a document, which is written with its names in order.
fn is_fed(alloc: Global) -> Result<bool> {
    let mut place = <Document as Deserialize>::begin(alloc)?;
    feed(alloc, r#"{"b":-0,"a":[]}"#, &mut place)?;
    let document = <Document as Deserialize>::take(place)?;
    Ok(to_string(alloc, &document)?.as_str() == r#"{"a":[],"b":0}"#)
}

#[test]
fn a_place_collects_a_document(rt: HostRuntime) -> std::result::Result<(), Wrong> {
    expect_ok(is_fed(rt.alloc()), "a document")
}

/// Returns whether `-0` and its canonical text are two numbers.
fn is_two_numbers(alloc: Global) -> Result<bool> {
    let text = canonical(alloc, "-0")?;
    let number: Number = from_str(alloc, "-0")?;
    let other: Number = from_str(alloc, text.as_str())?;
    Ok(text.as_str() == "0" && matches!(number, Number::I64(0)) && matches!(other, Number::U64(0)))
}

/// Returns whether `-0` and its canonical text are two values.
fn is_two_values(alloc: Global) -> Result<bool> {
    let value: Value = from_str(alloc, "-0")?;
    let text = canonical_of(alloc, &value)?;
    let other: Value = from_str(alloc, text.as_str())?;
    let is_signed = matches!(value, Value::Number(Number::I64(0)));
    Ok(text.as_str() == "0" && is_signed && matches!(other, Value::Number(Number::U64(0))))
}

#[test]
fn a_negated_zero_is_two_numbers(rt: HostRuntime) -> std::result::Result<(), Wrong> {
    expect_ok(is_two_numbers(rt.alloc()), "a number")?;
    expect_ok(is_two_values(rt.alloc()), "a value")
}
