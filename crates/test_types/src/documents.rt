//! Large documents.

use crate::checks::{is_fed, is_read, is_stable, is_written};
use crate::texts::{FALLING, MANY, MIXED, RISING, numbered, repeated};
use miniserde::error::Result;
use miniserde::json::number::NumberText;
use miniserde::json::value::canonical_by_value;
use miniserde::json::{Array, Document, Number, Object, Unique, Value, from_str};
use miniserde::value;
use std::alloc::Global;
use test_tables::{Wrong, expect_ok};

/// Returns whether the copy of a document is written as expected.
fn is_copied(alloc: Global, text: &str, expected: &str) -> Result<bool> {
    let value: Value = from_str(alloc, text)?;
    is_written(alloc, &value.try_clone(alloc)?, expected)
}

/// Returns whether a document without duplicate names is read and fed as `Value`, `Unique` and `Document`, is copied as a
/// `Value`, and has the expected canonical text, also by the way over a `Value`.
fn is_document(alloc: Global, text: &str, expected: &str) -> Result<bool> {
    Ok(
        is_copied(alloc, text, expected)?
            && is_read::<Value>(alloc, text, expected)?
            && is_fed::<Value>(alloc, text, expected)?
            && is_fed::<Unique>(alloc, text, expected)?
            && is_read::<Unique>(alloc, text, expected)?
            && is_stable::<Document>(alloc, text, expected)?
            && is_fed::<Document>(alloc, text, expected)?
            && canonical_by_value(alloc, text)?.as_str() == expected,
    )
}

/// Returns whether an array is copied and collected.
fn is_array(alloc: Global, text: &str) -> Result<bool> {
    let array: Array = from_str(alloc, text)?;
    let is_copied = is_written(alloc, &array.try_clone(alloc)?, text)?;
    Ok(is_copied && is_written(alloc, &Array::from_iter(alloc, array)?, text)?)
}

/// Returns whether many items are read as an array, copied and collected.
fn are_items(alloc: Global) -> Result<bool> {
    let text = numbered(alloc, ("[", "]"), ("[\"", "\"]"), MIXED)?;
    Ok(
        is_document(alloc, text.as_str(), text.as_str())?
            && is_read::<Array>(alloc, text.as_str(), text.as_str())?
            && is_fed::<Array>(alloc, text.as_str(), text.as_str())?
            && is_array(alloc, text.as_str())?,
    )
}

/// Returns whether an object is copied and collected.
fn is_object(alloc: Global, text: &str, expected: &str) -> Result<bool> {
    let object: Object = from_str(alloc, text)?;
    let is_copied = is_written(alloc, &object.try_clone(alloc)?, expected)?;
    Ok(is_copied && is_written(alloc, &Object::from_iter(alloc, object)?, expected)?)
}

/// Returns whether many members, in any order, are read as an object, copied and collected.
fn are_members(alloc: Global) -> Result<bool> {
    let text = numbered(alloc, ("{", "}"), ("\"", "\":{}"), FALLING)?;
    let expected = numbered(alloc, ("{", "}"), ("\"", "\":{}"), RISING)?;
    Ok(
        is_document(alloc, text.as_str(), expected.as_str())?
            && is_read::<Object>(alloc, text.as_str(), expected.as_str())?
            && is_fed::<Object>(alloc, text.as_str(), expected.as_str())?
            && is_object(alloc, text.as_str(), expected.as_str())?,
    )
}

/// Returns whether a long string and a long name are a document: without an escape, with many, and spelled with more.
fn are_texts(alloc: Global) -> Result<bool> {
    let plain = repeated(alloc, MANY, "{\"", "é", "\":[]}")?;
    let escaped = repeated(alloc, MANY, "[\"", "\\u0001", "\"]")?;
    let spelled = repeated(alloc, MANY, "{\"", "\\u00E9", "\":[]}")?;
    Ok(
        is_document(alloc, plain.as_str(), plain.as_str())?
            && is_document(alloc, escaped.as_str(), escaped.as_str())?
            && is_document(alloc, spelled.as_str(), plain.as_str())?,
    )
}

/// Returns whether a number text is copied, alone and as a number that was read.
fn is_number(alloc: Global, text: &str) -> Result<bool> {
    let copy = NumberText::new(alloc, text)?.try_clone(alloc)?;
    let is_kept = is_written(alloc, &Number::Text(copy), text)?;
    let read: Number = from_str(alloc, text)?;
    Ok(is_kept && is_written(alloc, &read.try_clone(alloc)?, text)?)
}

/// Returns whether a number of many digits is read, copied and written: as a number text, alone and in a document.
fn are_digits(alloc: Global) -> Result<bool> {
    let text = repeated(alloc, MANY, "-1", "0", "e5")?;
    let listed = repeated(alloc, MANY, "[1.", "5", "]")?;
    Ok(
        is_document(alloc, listed.as_str(), listed.as_str())?
            && is_read::<Number>(alloc, text.as_str(), text.as_str())?
            && is_fed::<Number>(alloc, text.as_str(), text.as_str())?
            && is_number(alloc, text.as_str())?,
    )
}

/// Returns an array to which many items were added one by one.
fn array_of_many(alloc: Global) -> Result<Array> {
    let mut array = Array::new(alloc);
    for i in 0..MANY {
        let number = i.wrapping_add(100_000);
        array.push(value!(in alloc; number)?)?;
    }
    Ok(array)
}

/// Returns an object to which many members were added one by one, of which most replaced another.
fn object_of_many(alloc: Global) -> Result<Object> {
    let mut object = Object::new(alloc);
    for i in 0..MANY {
        let name = format!(in alloc; "{}", i.wrapping_add(100_000))?;
        object.put(alloc, name.as_str(), value!(in alloc; {})?)?;
        object.put(alloc, "100000", value!(in alloc; {})?)?;
    }
    Ok(object)
}

/// Returns whether an array takes many items one by one, and an object many members, of which most replace another.
fn are_added(alloc: Global) -> Result<bool> {
    let items = numbered(alloc, ("[", "]"), ("", ""), RISING)?;
    let members = numbered(alloc, ("{", "}"), ("\"", "\":{}"), RISING)?;
    Ok(
        is_written(alloc, &array_of_many(alloc)?, items.as_str())?
            && is_written(alloc, &object_of_many(alloc)?, members.as_str())?,
    )
}

/// Returns the text of an array of a long text, three times.
fn three_texts(alloc: Global) -> Result<String> {
    let first = repeated(alloc, MANY, "[\"", "é", "\",\"")?;
    let second = repeated(alloc, MANY, first.as_str(), "é", "\",\"")?;
    repeated(alloc, MANY, second.as_str(), "é", "\"]")
}

/// Returns whether `value!` takes a long text as an expression and as a name.
fn is_made(alloc: Global) -> Result<bool> {
    let long = repeated(alloc, MANY, "", "é", "")?;
    let name = repeated(alloc, MANY, "{\"", "é", "\":null}")?;
    let items = three_texts(alloc)?;
    Ok(
        is_written(
            alloc,
            &value!(in alloc; {(long.as_str()): null})?,
            name.as_str(),
        )? && is_written(
            alloc,
            &value!(in alloc; [long.as_str(), &long, long])?,
            items.as_str(),
        )?,
    )
}

#[test]
fn large_documents_are_read(rt: HostRuntime) -> std::result::Result<(), Wrong> {
    let alloc = rt.alloc();
    expect_ok(are_items(alloc), "items")?;
    expect_ok(are_members(alloc), "members")?;
    expect_ok(are_texts(alloc), "strings")?;
    expect_ok(are_digits(alloc), "digits")?;
    expect_ok(are_added(alloc), "items and members that are added")?;
    expect_ok(is_made(alloc), "long texts in `value!`")
}
