//! Places of each kind: what they take, what they refuse, and that they keep a refusal.

use crate::events::{expect_events, hand_all};
use demo::{Demo, Nested, StrictDemo, Tag, repeated_name};
use miniserde::de::{Deserialize, Visitor, ignore};
use miniserde::error::{Error, Result};
use miniserde::json::{Array, Number, Object};
use std::alloc::Global;
use std::collections::BTreeMap;
use test_tables::{Wrong, expect, expect_ok};

#[test]
fn a_leaf_takes_one_event(rt: HostRuntime) -> std::result::Result<(), Wrong> {
    let alloc = rt.alloc();
    expect_events::<()>(alloc, "null => null\n\ntrue\nseq finish\nnull null")?;
    expect_events::<bool>(alloc, "true => true\n\nnull\nstring=true")?;
    expect_events::<i8>(
        alloc,
        "negative => -1\nnonnegative=127 => 127\nnonnegative=128\n\nfloat\nnegative negative",
    )?;
    expect_events::<u64>(
        alloc,
        "nonnegative=18446744073709551615 => 18446744073709551615\n\nnegative\nfloat\nelement",
    )?;
    expect_events::<String>(
        alloc,
        "string=a => \"a\"\nstring= => \"\"\n\nnull\nstring=a string=b",
    )?;
    expect_events::<Tag>(
        alloc,
        "string=A => \"A\"\nstring=B\n\nnull\nstring=A string=A",
    )
}

const LISTS: &str = "seq element nonnegative=1 element nonnegative=2 finish => [1,2]
seq finish => []

seq
seq element
seq element nonnegative=1 element nonnegative=2
seq element nonnegative=1 nonnegative=2 finish
seq element true finish
seq nonnegative=1 finish
seq key=a nonnegative=1 finish
element
finish
map finish";

#[test]
fn a_container_ends_with_its_children(rt: HostRuntime) -> std::result::Result<(), Wrong> {
    let alloc = rt.alloc();
    expect_events::<Option<Vec<u8>>>(
        alloc,
        "null => null\nseq finish => []\nseq element nonnegative=1 finish => [1]\n\nseq\nelement\nnull null",
    )?;
    expect_events::<Box<u8>>(
        alloc,
        "nonnegative=1 => 1\n\nnull\nnonnegative=1 nonnegative=1",
    )?;
    expect_events::<Vec<u64>>(alloc, LISTS)?;
    expect_events::<[u8; 0]>(alloc, "seq finish => []\nseq element\nseq\nmap")?;
    expect_events::<(u8, bool)>(
        alloc,
        "seq element nonnegative=1 element true finish => [1,true]\nseq element nonnegative=1 finish\nseq element nonnegative=1 element true element",
    )?;
    expect_events::<BTreeMap<String, u8>>(
        alloc,
        "map key=a nonnegative=1 finish => {\"a\":1}\nmap finish => {}\nmap key=a key=b\nmap nonnegative=1\nmap key=a finish\nseq finish",
    )
}

const DEMOS: &str =
    "map key=code nonnegative=1 key=z map key=q seq finish finish key=message string= finish => {\"code\":1,\"message\":\"\"}
map key=message string=a key=code nonnegative=2 finish => {\"code\":2,\"message\":\"a\"}
map key=code nonnegative=1 key=code nonnegative=2 key=message string= finish => {\"code\":2,\"message\":\"\"}
map key=code nonnegative=1 finish
map key=code true
map key=code finish
map finish
seq
null";

#[test]
fn a_struct_ends_with_all_its_fields(rt: HostRuntime) -> std::result::Result<(), Wrong> {
    let alloc = rt.alloc();
    expect_events::<Demo>(alloc, DEMOS)?;
    expect_events::<Nested>(
        alloc,
        "map finish => {\"y\":null,\"z\":null}\nmap\nmap key=y null",
    )?;
    expect_events::<StrictDemo>(
        alloc,
        "map key=code nonnegative=1 key=message string= finish => {\"code\":1,\"message\":\"\"}\nmap key=code nonnegative=1 key=code",
    )
}

const NUMBERS: &str = "negative => -1
nonnegative=7 => 7
float => 1.5

null
true
string=1
seq
map
element
key=a
finish
nonnegative=1 nonnegative=2
float null";

const ARRAYS: &str = "seq finish => []
seq element nonnegative=1 element seq element null finish element map finish finish => [1,[null],{}]

map
map finish
null
nonnegative=1
string=a
element
finish
seq
seq element
seq nonnegative=1
seq key=a
seq element finish
seq element nonnegative=1
seq finish finish
seq finish seq";

const OBJECTS: &str = "map finish => {}
map key=b nonnegative=1 key=a seq finish finish => {\"a\":[],\"b\":1}
map key=a nonnegative=1 key=a null finish => {\"a\":null}

seq
seq finish
null
true
float
key=a
finish
map
map key=a
map nonnegative=1
map element
map key=a finish
map key=a null
map finish finish
map finish map";

#[test]
fn a_number_an_array_and_an_object_begin_as_such(
    rt: HostRuntime,
) -> std::result::Result<(), Wrong> {
    let alloc = rt.alloc();
    expect_events::<Number>(alloc, NUMBERS)?;
    expect_events::<Array>(alloc, ARRAYS)?;
    expect_events::<Object>(alloc, OBJECTS)
}

/// Returns whether a place that refused `true` behind these events keeps that refusal, also when it is told another.
fn keeps_refusal<T: Deserialize + Drop>(alloc: Global, events: &str) -> Result<bool> {
    let mut place = <T as Deserialize>::begin(alloc)?;
    hand_all(&mut place, events)?;
    Ok(
        matches!(place.boolean(true), Err(Error::Invalid))
            && matches!(place.finish(), Err(Error::Invalid))
            && matches!(place.refuse(Error::Memory), Error::Invalid)
            && matches!(<T as Deserialize>::take(place), Err(Error::Invalid)),
    )
}

/// Returns whether a fresh place keeps the refusal that it is told.
fn keeps_error<T: Deserialize + Drop>(alloc: Global) -> Result<bool> {
    let mut place = <T as Deserialize>::begin(alloc)?;
    Ok(
        matches!(place.refuse(Error::Memory), Error::Memory)
            && matches!(place.nonnegative(1), Err(Error::Memory))
            && matches!(<T as Deserialize>::take(place), Err(Error::Memory)),
    )
}

const EACH_KIND: &str =
    "seq element null element true element string=a element negative element nonnegative=1 element float element map key=k null finish finish";

/// Returns whether the place that takes everything takes a list of a value of each kind, and nothing after it.
fn takes_each_kind() -> Result<bool> {
    let mut place = ignore();
    hand_all(&mut place, EACH_KIND)?;
    Ok(
        matches!(place.refuse(Error::Invalid), Error::Invalid)
            && matches!(place.null(), Err(Error::Invalid)),
    )
}

#[test]
fn a_refusal_is_kept(rt: HostRuntime) -> std::result::Result<(), Wrong> {
    let alloc = rt.alloc();
    expect_ok(keeps_refusal::<Demo>(alloc, "map key=code"), "a struct")?;
    expect_ok(keeps_error::<u64>(alloc), "a number")?;
    expect_ok(takes_each_kind(), "a value of each kind")?;
    // A name that is refused as a duplicate is refused at its key.
    let answer = repeated_name(alloc, 7);
    expect(matches!(answer, Ok(Err(Error::Invalid))), "the second name")?;
    // An option alone has a value by default.
    expect(
        <Option<u8> as Deserialize>::default() == Some(None),
        "an option",
    )?;
    expect(
        <Box<Option<u8>> as Deserialize>::default().is_none(),
        "a boxed option",
    )?;
    expect(<u8 as Deserialize>::default().is_none(), "a number")
}
