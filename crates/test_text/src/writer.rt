//! The calls of the writer.

use crate::wrong::{Wrong, expect, expect_ok};
use miniserde_model::error::{Error, Result};
use miniserde_ser::ser::{Fragment, Serialize, Writer};
use miniserde_text::json::number::NumberText;
use std::alloc::Global;

/// Returns the fragment that a word and an argument name.
fn fragment<'a>(word: &str, argument: &'a str) -> Option<Fragment<'a>> {
    match word {
        "null" => Some(Fragment::Null),
        "true" => Some(Fragment::Bool(true)),
        "false" => Some(Fragment::Bool(false)),
        "str" => Some(Fragment::Str(argument)),
        "u64" => Some(Fragment::U64(argument.parse().ok()?)),
        "i64" => Some(Fragment::I64(argument.parse().ok()?)),
        _ => None,
    }
}

/// Makes the call of a writer that a word names, with the argument that stands behind `=`.
pub fn call(w: &mut Writer, call: &str) -> Result<()> {
    let (word, argument) = call.split_once('=').unwrap_or((call, ""));
    if let Some(fragment) = fragment(word, argument) {
        return w.fragment(fragment);
    }
    match word {
        "number" => {
            let number = NumberText::new(w.alloc(), argument)?;
            w.fragment(Fragment::Text(&number))
        }
        "string" => {
            let own = String::from_str(w.alloc(), argument)?;
            own.begin(w)
        }
        "one" => 1u64.begin(w),
        "seq" => w.seq(),
        "element" => w.element(),
        "seq_finish" => w.seq_finish(),
        "map" => w.map(),
        "map_in_order" => w.map_in_order(),
        "key" => w.key(argument),
        "map_finish" => w.map_finish(),
        "refuse" => Err(w.refuse()),
        _ => Err(Error::Invalid),
    }
}

/// Returns whether calls write as expected.
fn is_written_by(alloc: Global, calls: &str, expected: &str) -> Result<bool> {
    let mut w = Writer::new(alloc);
    for word in calls.split(' ') {
        call(&mut w, word)?;
    }
    Ok(w.into_string()?.as_str() == expected)
}

// An element behind each call shows its flag: no comma stands before a first one.
const STRUCT: &str = r#"map => {
map element => {
map key=code => {"code":
map key=code element => {"code":,
map key=code u64=200 => {"code":200
map key=code u64=200 element => {"code":200,
map key=code u64=200 key=message => {"code":200,"message":
map key=code u64=200 key=message element => {"code":200,"message":,
map key=code u64=200 key=message str=x => {"code":200,"message":"x"
map key=code u64=200 key=message str=x element => {"code":200,"message":"x",
map key=code u64=200 key=message str=x map_finish => {"code":200,"message":"x"}
map key=code u64=200 key=message str=x map_finish element => {"code":200,"message":"x"},"#;

const LISTS: &str = "seq => [
seq element => [
seq element => [
seq element element => [,
seq element seq => [[
seq element seq element => [[
seq element seq seq_finish => [[]
seq element seq seq_finish element => [[],
seq element seq seq_finish element => [[],
seq element seq seq_finish element element => [[],,
seq element seq seq_finish element seq => [[],[
seq element seq seq_finish element seq element => [[],[
seq element seq seq_finish element seq element => [[],[
seq element seq seq_finish element seq element element => [[],[,
seq element seq seq_finish element seq element u64=1 => [[],[1
seq element seq seq_finish element seq element u64=1 element => [[],[1,
seq element seq seq_finish element seq element u64=1 seq_finish => [[],[1]
seq element seq seq_finish element seq element u64=1 seq_finish element => [[],[1],
seq element seq seq_finish element seq element u64=1 seq_finish seq_finish => [[],[1]]
seq element seq seq_finish element seq element u64=1 seq_finish seq_finish element => [[],[1]],";

const FRAGMENTS: &str = "null => null
true => true
false => false
str=a\"b => \"a\\\"b\"
str= => \"\"
u64=0 => 0
u64=18446744073709551615 => 18446744073709551615
i64=0 => 0
i64=-1 => -1
i64=-9223372036854775808 => -9223372036854775808
i64=9223372036854775807 => 9223372036854775807
number=1.50 => 1.50
number=18446744073709551616 => 18446744073709551616
number=-9223372036854775809 => -9223372036854775809";

const COMMAS: &str =
    r#"map key=code u64=200 key=message str=x map_finish => {"code":200,"message":"x"}
seq element null element seq seq_finish element string=a seq_finish => [null,[],"a"]
map map_finish => {}
seq element map key=" null map_finish element one seq_finish => [{"\"":null},1]"#;

#[test]
fn each_call_appends_its_text(rt: HostRuntime) -> std::result::Result<(), Wrong> {
    for table in [STRUCT, LISTS, FRAGMENTS, COMMAS] {
        for line in table.lines() {
            let (calls, expected) = line.split_once(" => ").unwrap_or((line, ""));
            expect_ok(is_written_by(rt.alloc(), calls, expected), line)?;
        }
    }
    Ok(())
}

/// Returns whether a writer that watches counts what the calls write as canonical, as expected.
fn is_counted(alloc: Global, calls: &str, expected: bool) -> Result<bool> {
    let mut w = Writer::watching(alloc);
    for word in calls.split(' ') {
        call(&mut w, word)?;
    }
    Ok(w.is_normal() == expected)
}

const CANONICAL: &str = "null
seq element one element string=a seq_finish
map_in_order key=a one map_finish
map_in_order";

const NOT_KNOWN: &str = "map map_finish
map_in_order key=a map key=b null map_finish map_finish
seq map map_finish seq_finish";

#[test]
fn an_object_in_any_order_ends_what_is_known(rt: HostRuntime) -> std::result::Result<(), Wrong> {
    expect(!Writer::new(rt.alloc()).is_normal(), "new")?;
    for (table, expected) in [(CANONICAL, true), (NOT_KNOWN, false)] {
        for line in table.lines() {
            expect_ok(is_counted(rt.alloc(), line, expected), line)?;
        }
    }
    Ok(())
}

const REFUSED: &str = "refuse
null
str=a
seq
element
seq_finish
one
refuse
map
map_in_order
key=a
map_finish";

#[test]
fn a_refused_writer_fails_each_later_call(rt: HostRuntime) -> std::result::Result<(), Wrong> {
    let mut w = Writer::new(rt.alloc());
    expect(w.seq().is_ok(), "seq")?;
    for line in REFUSED.lines() {
        expect(matches!(call(&mut w, line), Err(Error::Memory)), line)?;
    }
    expect(matches!(w.into_string(), Err(Error::Memory)), "into_string")
}
