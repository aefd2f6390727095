//! Types, variants, fields and parameters that have names which derived code and Rust's prelude have too.

use crate::prelude::{Box, Ok, Option, Some};
use crate::taken::{Error, Event, EventFields, Record, Result, Slot, Source, Step, Value, Writer};
use std::collections::BTreeMap;
use test_tables::{Wrong, expect_read_itself, expect_round_trip};

const RECORDS: &str =
    r#"{"parts":1,"alloc":"List","token":{"source":2,"w":"a"},"take_four":true,"value":4,"names":5} => same
{"take_four":false,"token":{"w":"","source":2},"alloc":"step","parts":1} => {"parts":1,"alloc":"step","token":{"source":2,"w":""},"take_four":false,"names":3}
{"parts":1,"alloc":"Step","token":{"source":2,"w":"a"},"take_four":true}
{"parts":1,"alloc":"Record","token":{"source":2},"take_four":true}
{}"#;

const STEPS: &str = r#"{"List":[1,2]} => same
{"line":[1,2]} => same
{"Parts":{"w":1,"write_fields":true}} => same
{"Parts":{"write_fields":false,"w":1}} => {"Parts":{"w":1,"write_fields":false}}
"first_case" => same
{"x":{"source":1,"w":"b"}} => same
"List"
"line"
{"first_case":null}
{"Line":[1,2]}
{"line":[1]}
{"x":{}}"#;

const RESULTS: &str = r#"{"items":["List"],"error":"step"} => same
{"items":[]} => {"items":[],"error":null}
{"items":["list"]}
{"items":[1]}"#;

const SOURCES: &str = r#"{"value":{"of":1},"event":"a"} => same
{"event":"a","value":{"of":0}} => {"value":{"of":0},"event":"a"}
{"value":1,"event":"a"}
{"value":{"of":1}}"#;

const MAPS: &str = r#"{"1":{"kind":"data","open":2},"7":{"kind":"refl"}} => same
{"1":{"open":2,"kind":"data"},"2":{"kind":"data"}}
{"a":{"kind":"refl"}}
{"256":{"kind":"refl"}}"#;

#[test]
fn names_of_derived_code(rt: HostRuntime) -> std::result::Result<(), Wrong> {
    expect_read_itself::<Record>(rt.alloc(), RECORDS)?;
    expect_read_itself::<Step>(rt.alloc(), STEPS)?;
    expect_read_itself::<Result<Error>>(rt.alloc(), RESULTS)?;
    expect_round_trip::<Source<EventFields, String>>(rt.alloc(), SOURCES)?;
    expect_round_trip::<BTreeMap<Writer<Slot>, Value>>(rt.alloc(), MAPS)
}

const OPTIONS: &str = r#"{"some":"a","count":4} => same
{"some":"a"} => {"some":"a","count":3}
{"count":4}"#;

const OKS: &str = r#""None" => same
{"Some":1} => same
{"Err":{"x":-1,"y":1}} => same
null
"Ok"
{"None":null}
{"Err":{"x":1}}"#;

const BOXES: &str = r#"{"1":{"width":1,"height":2}} => same
{"1":{"height":2,"width":1}} => {"1":{"width":1,"height":2}}
{"1":{"width":1}}"#;

#[test]
fn names_of_the_prelude(rt: HostRuntime) -> std::result::Result<(), Wrong> {
    expect_read_itself::<Option>(rt.alloc(), OPTIONS)?;
    expect_read_itself::<Ok>(rt.alloc(), OKS)?;
    expect_round_trip::<BTreeMap<Some, Box>>(rt.alloc(), BOXES)
}
