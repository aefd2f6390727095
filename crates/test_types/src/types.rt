//! Large values of std's types.

use crate::checks::{is_fed, is_lossless, is_read, is_round_trip, is_stable, is_taken};
use crate::texts::{FALLING, MANY, MIXED, RISING, numbered, repeated};
use miniserde::error::Result;
use std::alloc::Global;
use std::collections::{BTreeMap, HashMap, VecDeque};
use std::hash::{BuildHasherDefault, DefaultHasher};
use test_tables::{Wrong, expect_ok};

type Hashed<K, V> = HashMap<K, V, BuildHasherDefault<DefaultHasher>>;

/// Returns whether a list of many integers is taken as a list and as a queue, and one of many texts as a list.
fn are_lists(alloc: Global) -> Result<bool> {
    let numbers = numbered(alloc, ("[", "]"), ("", ""), MIXED)?;
    let texts = numbered(alloc, ("[", "]"), ("\"", "\\n\""), MIXED)?;
    Ok(
        is_taken::<Vec<u64>>(alloc, numbers.as_str())?
            && is_fed::<Vec<u64>>(alloc, numbers.as_str(), numbers.as_str())?
            && is_taken::<VecDeque<i32>>(alloc, numbers.as_str())?
            && is_taken::<Vec<String>>(alloc, texts.as_str())?,
    )
}

/// Returns whether an object of many members, in any order, is taken as a map with each kind of keys.
fn are_maps(alloc: Global) -> Result<bool> {
    let members = numbered(alloc, ("{", "}"), ("\"", "\":[]"), RISING)?;
    let turned = numbered(alloc, ("{", "}"), ("\"", "\":[]"), FALLING)?;
    let (members, turned) = (members.as_str(), turned.as_str());
    Ok(
        is_taken::<BTreeMap<String, Vec<u8>>>(alloc, members)?
            && is_lossless::<BTreeMap<u32, Vec<u8>>>(alloc, members)?
            && is_taken::<Hashed<String, Vec<u8>>>(alloc, members)?
            && is_read::<BTreeMap<String, Vec<u8>>>(alloc, turned, members)?
            && is_read::<Hashed<u32, Vec<u8>>>(alloc, turned, members)?
            && is_fed::<BTreeMap<u32, Vec<u8>>>(alloc, turned, members)?
            && is_fed::<Hashed<String, Vec<u8>>>(alloc, turned, members)?
            && is_stable::<Hashed<String, Vec<u8>>>(alloc, turned, members)?,
    )
}

/// Returns whether long strings are taken: without an escape, with many, and spelled with more than they are written
/// with.
fn are_strings(alloc: Global) -> Result<bool> {
    let plain = repeated(alloc, MANY, "\"", "é", "\"")?;
    let escaped = repeated(alloc, MANY, "\"", "\\n", "\"")?;
    let spelled = repeated(alloc, MANY, "\"", "\\u00e9", "\"")?;
    Ok(
        is_taken::<String>(alloc, plain.as_str())?
            && is_taken::<String>(alloc, escaped.as_str())?
            && is_read::<String>(alloc, spelled.as_str(), plain.as_str())?
            && is_fed::<String>(alloc, spelled.as_str(), plain.as_str())?
            && is_stable::<String>(alloc, spelled.as_str(), plain.as_str())?,
    )
}

/// Returns whether a long name is taken, without an escape and with many.
fn are_names(alloc: Global) -> Result<bool> {
    let plain = repeated(alloc, MANY, "{\"", "é", "\":1}")?;
    let escaped = repeated(alloc, MANY, "{\"", "\\\"", "\":1}")?;
    let spelled = repeated(alloc, MANY, "{\"", "\\u00e9", "\":1}")?;
    Ok(
        is_taken::<BTreeMap<String, u8>>(alloc, escaped.as_str())?
            && is_round_trip::<Hashed<String, u8>>(alloc, plain.as_str())?
            && is_read::<Hashed<String, u8>>(alloc, spelled.as_str(), plain.as_str())?
            && is_stable::<BTreeMap<String, u8>>(alloc, spelled.as_str(), plain.as_str())?,
    )
}

/// Returns whether an integer is taken with much whitespace around it.
fn is_among_spaces(alloc: Global) -> Result<bool> {
    let before = repeated(alloc, MANY, "", " ", "7")?;
    let behind = repeated(alloc, MANY, before.as_str(), "\n", "")?;
    Ok(
        is_read::<i64>(alloc, behind.as_str(), "7")?
            && is_stable::<i64>(alloc, behind.as_str(), "7")?,
    )
}

#[test]
fn large_values_are_read_and_written(rt: HostRuntime) -> std::result::Result<(), Wrong> {
    let alloc = rt.alloc();
    expect_ok(are_lists(alloc), "lists")?;
    expect_ok(are_maps(alloc), "maps")?;
    expect_ok(are_strings(alloc), "strings")?;
    expect_ok(are_names(alloc), "names")?;
    expect_ok(is_among_spaces(alloc), "an integer among spaces")
}
