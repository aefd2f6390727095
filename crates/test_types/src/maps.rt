//! Maps, ordered and hashed, with keys of each kind.

use miniserde::json::from_str;
use miniserde::{gets_last_by_hashed_key, gets_last_by_key};
use std::alloc::Global;
use std::collections::{BTreeMap, HashMap};
use std::hash::{BuildHasherDefault, DefaultHasher};
use test_tables::{Wrong, expect_ok, expect_prefixes_invalid, expect_read_itself, expect_table};

pub type Hashed<K, V> = HashMap<K, V, BuildHasherDefault<DefaultHasher>>;

const NUMBERS: &str = r#" {"007":1,"+7":2}  => {"7":2}
{"255":0,"0":255} => {"0":255,"255":0}
{ } => {}
{"-0":1}
{"-1":1}
{"+":1}
{"":1}
{"256":1}
{" 1":1}
{"1 ":1}
{"1.0":1}
{"1e0":1}
{1:1}
{"1":256}
{"1":1,}
{,}
{"1" 1}
{"1":1 "2":1}
{"1":1]
[]
null"#;

#[test]
fn equal_keys_are_one(rt: HostRuntime) -> Result<(), Wrong> {
    let alloc = rt.alloc();
    expect_table::<BTreeMap<u32, u32>>(alloc, r#"{"007":1,"+7":2} => {"7":2}"#)?;
    expect_table::<Hashed<u32, u32>>(alloc, r#"{"007":1,"+7":2} => {"7":2}"#)?;
    expect_table::<BTreeMap<u8, u8>>(alloc, NUMBERS)?;
    expect_table::<Hashed<u8, u8>>(alloc, NUMBERS)?;
    expect_table::<BTreeMap<i8, u8>>(
        alloc,
        "{\"-0\":1} => {\"0\":1}\n{\"-128\":1,\"127\":2} => same\n{\"-129\":1}\n{\"128\":1}",
    )
}

/// Returns whether `get` returns the value of the last member whose name is the key 7.
fn gets_the_last_seven(alloc: Global, text: &str, expected: Option<u8>) -> miniserde::Result<bool> {
    let ordered: BTreeMap<u8, u8> = from_str(alloc, text)?;
    gets_last_by_key(&ordered);
    let hashed: Hashed<u8, u8> = from_str(alloc, text)?;
    gets_last_by_hashed_key(&hashed);
    Ok(ordered.get(&7u8).copied() == expected && hashed.get(&7u8).copied() == expected)
}

#[test]
fn a_key_has_the_value_of_its_last_member(rt: HostRuntime) -> Result<(), Wrong> {
    let alloc = rt.alloc();
    let twice = r#"{"7":1,"8":3,"+7":2}"#;
    expect_ok(gets_the_last_seven(alloc, twice, Some(2)), "twice")?;
    expect_ok(gets_the_last_seven(alloc, r#"{"8":3}"#, None), "none")
}

const REPEATS: &str = r#"{"1":[2],"01":[]} => {"1":[]}
{"1":true,"1":[]}
{"1":[],"1":true}"#;

const UNORDERED: &str = r#"{"100":true,"9":true,"10":false} => {"10":false,"100":true,"9":true}
{"10":false,"9":true} => same
{} => same"#;

#[test]
fn a_hashed_map_is_written_in_order_of_texts(rt: HostRuntime) -> Result<(), Wrong> {
    expect_table::<Hashed<u32, bool>>(rt.alloc(), UNORDERED)?;
    expect_table::<BTreeMap<u32, bool>>(
        rt.alloc(),
        r#"{"100":true,"9":true,"10":false} => {"9":true,"10":false,"100":true}"#,
    )
}

const NAMES: &str = r#"{"b":1, "a\u0062":2, "":3} => {"":3,"ab":2,"b":1}
{"a\u0062":1,"ab":2} => {"ab":2}
{"ab":1,"\u0061\u0062":2} => {"ab":2}
{"é":1,"\u00e9":2} => {"é":2}
{"\ud83d\ude00":1,"😀":2} => {"😀":2}
{"a":1,"A":2} => {"A":2,"a":1}
{"\ud83d":1}
{"a":1,"a":256}
{"a":256,"a":1}"#;

#[test]
fn a_name_is_what_it_decodes_to(rt: HostRuntime) -> Result<(), Wrong> {
    let alloc = rt.alloc();
    expect_table::<BTreeMap<String, u8>>(alloc, NAMES)?;
    expect_table::<Hashed<String, u8>>(alloc, NAMES)?;
    // Names are in order of their bytes.
    expect_table::<Hashed<String, u8>>(
        alloc,
        "{\"\u{10000}\":2,\"\u{ff61}\":1} => {\"\u{ff61}\":1,\"\u{10000}\":2}",
    )?;
    expect_prefixes_invalid::<BTreeMap<String, u8>>(alloc, r#"{"\u00e9":1 , "b" : 20}"#)
}

const LETTERS: &str = r#"{"é":1,"z":2} => {"z":2,"é":1}
{"":1}
{"ab":1}"#;

#[test]
fn a_key_is_of_its_type(rt: HostRuntime) -> Result<(), Wrong> {
    let alloc = rt.alloc();
    expect_table::<BTreeMap<char, u8>>(alloc, LETTERS)?;
    expect_table::<Hashed<char, u8>>(alloc, LETTERS)?;
    expect_table::<BTreeMap<i16, u8>>(
        alloc,
        "{\"-5\":1,\"+3\":2} => {\"-5\":1,\"3\":2}\n{\"+3\":2,\"-5\":1} => {\"-5\":1,\"3\":2}\n{\"-32768\":1,\"32767\":2} => same\n{\"32768\":1}\n{\"-32769\":1}",
    )?;
    expect_table::<BTreeMap<bool, u8>>(
        alloc,
        "{\"true\":1} => same\n{\"false\":2,\"true\":1} => same\n{} => same\n{\"True\":1}",
    )?;
    expect_table::<Hashed<bool, u8>>(alloc, r#"{"true":1,"false":2} => {"false":2,"true":1}"#)
}

#[test]
fn a_map_round_trips_as_itself(rt: HostRuntime) -> Result<(), Wrong> {
    let alloc = rt.alloc();
    expect_table::<BTreeMap<u8, Vec<u8>>>(alloc, REPEATS)?;
    expect_table::<Hashed<u8, Vec<u8>>>(alloc, REPEATS)?;
    expect_table::<BTreeMap<String, Hashed<u8, Option<bool>>>>(
        alloc,
        r#"{"b":{"2":null,"1":true,"10":false},"a":{}} => {"a":{},"b":{"1":true,"10":false,"2":null}}"#,
    )?;
    expect_read_itself::<BTreeMap<i64, Vec<(u8, Option<String>)>>>(
        alloc,
        r#"{"-7":[[1,null],[2,"b"]],"0":[]} => same"#,
    )?;
    expect_read_itself::<Hashed<char, Option<[bool; 2]>>>(
        alloc,
        r#"{"b":null,"a":[true,false]} => {"a":[true,false],"b":null}"#,
    )
}
