//! Documents without duplicate names.

use crate::texts::nested;
use miniserde::de::{Deserialize, Visitor};
use miniserde::error::{Error, Result};
use miniserde::json::{Unique, Value, canonical_unique, from_str, to_string};
use std::alloc::Global;
use test_tables::{Wrong, expect, expect_ok, is_right, text_of};

const UNIQUE: &str = "{\"b\":2,\"a\":[{\"a\":1}]} => {\"a\":[{\"a\":1}],\"b\":2}
{\"a\":[{\"a\":1}],\"b\":2} => same
{\"a\":{\"b\":1},\"b\":{\"a\":1}} => same
[{\"a\":1},{\"a\":1}] => same
{\"a\":-0} => {\"a\":0}
{\"\":{\"\":{}}} => same
{\"a\":0,\"A\":1,\"aa\":2} => {\"A\":1,\"a\":0,\"aa\":2}
{\"A\":1,\"a\":0,\"aa\":2} => same
 [ ]  => []
1.50 => same
{\"a\":1,\"\\u0061\":1}
{\"\\u0061\":1,\"a\":1}
[{\"x\":{\"k\":0,\"l\":1,\"k\":0}}]
{\"\":1,\"\":2}
{\"a\":1,\"b\":2,\"c\":3,\"a\":4}
{\"a\":{\"b\":0},\"c\":[{}],\"a\":{}}
{\"a\":0,\"b\":{\"a\":0,\"a\":0}}
[{\"a\":0},{\"a\":0,\"a\":0}]
{\"\\ud834\\udd1e\":0,\"\u{1d11e}\":0}
{\"a\":1

[1,]";

#[test]
fn a_repeated_name_is_refused(rt: HostRuntime) -> std::result::Result<(), Wrong> {
    for line in UNIQUE.lines() {
        expect(
            is_right(canonical_unique(rt.alloc(), text_of(line)), line),
            line,
        )?;
    }
    Ok(())
}

/// Returns whether the second key of one name is refused by the place itself.
fn is_second_key_refused(alloc: Global) -> Result<bool> {
    let mut place = <Unique as Deserialize>::begin(alloc)?;
    place.map()?;
    place.key("a")?;
    place.null()?;
    Ok(matches!(place.key("a"), Err(Error::Invalid)))
}

#[test]
fn the_repeated_key_itself_is_refused(rt: HostRuntime) -> std::result::Result<(), Wrong> {
    expect_ok(is_second_key_refused(rt.alloc()), "the second key")
}

const KEPT: &str = "{\"a\":2}";

/// Returns whether a value is written alike before it is taken into a `Unique`, in it, and after.
fn is_kept(alloc: Global) -> Result<bool> {
    let value: Value = from_str(alloc, "{\"a\":1,\"a\":2}")?;
    let unique = Unique::new(value);
    let written = to_string(alloc, &unique)?.as_str() == KEPT;
    let lent = to_string(alloc, unique.inner())?.as_str() == KEPT;
    Ok(written && lent && to_string(alloc, &unique.into_value())?.as_str() == KEPT)
}

#[test]
fn a_value_is_taken_in_and_out(rt: HostRuntime) -> std::result::Result<(), Wrong> {
    expect_ok(is_kept(rt.alloc()), "a value")
}

/// Returns whether a deep document is read and written alike.
fn is_deep_document_kept(alloc: Global) -> Result<bool> {
    let text = nested(alloc, 100_000, "{\"a\":[", "]}", "]}")?;
    let unique: Unique = from_str(alloc, text.as_str())?;
    Ok(to_string(alloc, &unique)?.as_str() == text.as_str())
}

#[test]
fn a_deep_document_is_read_and_dropped(rt: HostRuntime) -> std::result::Result<(), Wrong> {
    expect_ok(
        is_deep_document_kept(rt.alloc()),
        "100,000 objects and arrays",
    )
}
