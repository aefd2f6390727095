//! Values: read, refused, written, copied, shown and let go.

use miniserde::error::Result;
use miniserde::json::drop::{Looks, counted};
use miniserde::json::{Array, Number, Object, Value, from_str, to_string};
use std::alloc::Global;
use std::collections::BTreeMap;
use std::mem;
use test_tables::{Wrong, expect, expect_ok, expect_prefixes_invalid, expect_round_trip};

const VALUES: &str = r#"null => same
true => same
"a" => same
-1 => same
1e400 => same
[{},[],{"":[null]}] => same
{"a":[1.50,true],"b":"\n"} => same
{"b":2,"a":1,"a":3} => {"a":3,"b":2}
{"b": -0, "a": [1.50, 18446744073709551616, 1e400]} => {"a":[1.50,18446744073709551616,1e400],"b":0}
 [ { } , [ ] ]  => [{},[]]

 
[1,2,]
{"a":1,}
[}
{]
[1}
{"a":1]
01
1.
-
 true && false 
{"a":1
[1
{"a"}
{"a":}
{1:2}
"\ud800"
[1 2]
1 2"#;

#[test]
fn a_value_round_trips(rt: HostRuntime) -> std::result::Result<(), Wrong> {
    expect_round_trip::<Value>(rt.alloc(), VALUES)
}

#[test]
fn a_beginning_is_no_document(rt: HostRuntime) -> std::result::Result<(), Wrong> {
    expect_prefixes_invalid::<Value>(
        rt.alloc(),
        r#"{"b": -0, "a": [1.50, 18446744073709551616, 1e400]}"#,
    )?;
    expect_prefixes_invalid::<Value>(
        rt.alloc(),
        r#"{"b": [-1, 1.50e+3 ,{}], "\ud83d\ude00": [true,null,"\n"]}"#,
    )
}

/// Returns whether the value by default is `null`.
fn is_default_null(alloc: Global) -> Result<bool> {
    Ok(to_string(alloc, &Value::default())?.as_str() == "null")
}

#[test]
fn a_value_is_null_by_default(rt: HostRuntime) -> std::result::Result<(), Wrong> {
    expect_ok(is_default_null(rt.alloc()), "the value by default")
}

#[test]
fn a_document_round_trips_in_a_list_or_map(rt: HostRuntime) -> std::result::Result<(), Wrong> {
    let alloc = rt.alloc();
    expect_round_trip::<Array>(
        alloc,
        "[] => same\n[1,2] => same\n[1,[null]] => same\n{}\nnull\n\"a\"\n1\ntrue",
    )?;
    expect_round_trip::<Object>(
        alloc,
        "{} => same\n{\"B\":null,\"a\":[]} => same\n{\"B\":null,\"a\":null} => same\n[]\n[1]\nnull\n\"a\"\n1\ntrue",
    )?;
    expect_round_trip::<Vec<Value>>(alloc, "[] => same\n[1,{\"a\":[]}] => same\n{}\n[1,]")?;
    expect_round_trip::<BTreeMap<String, (Object, Number)>>(
        alloc,
        "{\"x\":[{\"a\":1},-7]} => same\n{\"x\":[[],-7]}\n{\"x\":[{},true]}",
    )
}

const COPIED: &str = r#"null
true
1e400
"a"
{"a":[1.50,18446744073709551616,1e400],"b":0}"#;

/// Returns whether the copy of a text's value and the value itself are written as the text.
fn is_copied(alloc: Global, text: &str) -> Result<bool> {
    let value: Value = from_str(alloc, text)?;
    let copy = value.try_clone(alloc)?;
    Ok(to_string(alloc, &copy)?.as_str() == text && to_string(alloc, &value)?.as_str() == text)
}

#[test]
fn a_copy_is_written_as_its_value(rt: HostRuntime) -> std::result::Result<(), Wrong> {
    for text in COPIED.lines() {
        expect_ok(is_copied(rt.alloc(), text), text)?;
    }
    Ok(())
}

const EACH_KIND: &str =
    r#"{"Null":null,"Bool":true,"Number":1,"String":"...","Array":[true],"EmptyArray":[],"EmptyObject":{}}"#;

const SHOWN: &str =
    r#"Object {"Array": Array [Bool(true)], "Bool": Bool(true), "EmptyArray": Array [], "EmptyObject": Object {}, "Null": Null, "Number": Number(1), "String": String("...")}"#;

const SHOWN_ON_LINES: &str = r#"Object {
    "Array": Array [
        Bool(true),
    ],
    "Bool": Bool(true),
    "EmptyArray": Array [],
    "EmptyObject": Object {},
    "Null": Null,
    "Number": Number(1),
    "String": String("..."),
}"#;

/// Returns whether a value of each kind is shown as it should be.
fn is_shown(alloc: Global) -> Result<bool> {
    let value: Value = from_str(alloc, EACH_KIND)?;
    Ok(format!(in alloc; "{value:?}")?.as_str() == SHOWN)
}

/// Returns whether a value of each kind is shown on lines as it should be, also in a list of std's.
fn is_shown_on_lines(alloc: Global) -> Result<bool> {
    let value: Value = from_str(alloc, EACH_KIND)?;
    let list: Vec<Value> = from_str(alloc, "[[1],{}]")?;
    Ok(
        format!(in alloc; "{value:#?}")?.as_str() == SHOWN_ON_LINES
            && format!(in alloc; "{list:#?}")?.as_str()
                == "[\n    Array [\n        Number(1),\n    ],\n    Object {},\n]",
    )
}

#[test]
fn a_value_is_shown_by_its_kind(rt: HostRuntime) -> std::result::Result<(), Wrong> {
    expect_ok(is_shown(rt.alloc()), "on one line")?;
    expect_ok(is_shown_on_lines(rt.alloc()), "on lines")
}

/// Returns whether a value is let go with its looks counted.
fn is_dropped(alloc: Global) -> Result<bool> {
    let value: Value = from_str(alloc, r#"[1,{"a":[]},"x"]"#)?;
    let mut looks = Looks::new();
    counted(value, &mut looks);
    Ok(mem::size_of_val(&looks) == 0)
}

#[test]
fn a_value_is_dropped(rt: HostRuntime) -> std::result::Result<(), Wrong> {
    expect_ok(is_dropped(rt.alloc()), "a value")?;
    expect(mem::size_of::<Looks>() == 0, "counts take no bytes")
}
