//! The empty value of each type that has one, which a missing field with the mark `default` has.

use miniserde::error::Result;
use miniserde::json::to_string;
use miniserde::record::{Empty, Given};
use miniserde::{FromJson, Serialize};
use std::alloc::Global;
use std::collections::{BTreeMap, HashMap, VecDeque};
use std::hash::{BuildHasherDefault, DefaultHasher};
use test_tables::{Wrong, expect_ok};

type Hashed<K, V> = HashMap<K, V, BuildHasherDefault<DefaultHasher>>;

/// Returns whether the empty value of a type is written as expected.
fn is_empty<T: FromJson + Serialize>(alloc: Global, expected: &str) -> Result<bool>
where
    Empty: Given<T>,
{
    let value = <Empty as Given<T>>::make(alloc)?;
    Ok(to_string(alloc, &value)?.as_str() == expected)
}

#[test]
fn each_type_has_an_empty_value(rt: HostRuntime) -> std::result::Result<(), Wrong> {
    let alloc = rt.alloc();
    expect_ok(is_empty::<u8>(alloc, "0"), "u8")?;
    expect_ok(is_empty::<u16>(alloc, "0"), "u16")?;
    expect_ok(is_empty::<u32>(alloc, "0"), "u32")?;
    expect_ok(is_empty::<u64>(alloc, "0"), "u64")?;
    expect_ok(is_empty::<usize>(alloc, "0"), "usize")?;
    expect_ok(is_empty::<i8>(alloc, "0"), "i8")?;
    expect_ok(is_empty::<i16>(alloc, "0"), "i16")?;
    expect_ok(is_empty::<i32>(alloc, "0"), "i32")?;
    expect_ok(is_empty::<i64>(alloc, "0"), "i64")?;
    expect_ok(is_empty::<isize>(alloc, "0"), "isize")?;
    expect_ok(is_empty::<bool>(alloc, "false"), "bool")?;
    expect_ok(is_empty::<String>(alloc, "\"\""), "String")?;
    expect_ok(is_empty::<Option<u8>>(alloc, "null"), "Option")?;
    expect_ok(is_empty::<Vec<u8>>(alloc, "[]"), "Vec")?;
    expect_ok(is_empty::<VecDeque<u8>>(alloc, "[]"), "VecDeque")?;
    expect_ok(is_empty::<BTreeMap<String, u8>>(alloc, "{}"), "BTreeMap")?;
    expect_ok(is_empty::<Hashed<String, u8>>(alloc, "{}"), "HashMap")
}
