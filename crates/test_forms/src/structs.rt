//! Structs in lists and maps: read, written alike, and refused with one wrong leaf at the innermost place.

use crate::generic::{Both, Reply};
use demo::{Example, StrictDemo};
use std::collections::BTreeMap;
use test_tables::{Wrong, expect_read_itself, expect_round_trip};

type Listener = Both<String, u16>;

const LISTENERS: &str = r#"[] => same
[{"data":null,"error":null,"moreOf":[{"one":{"one":"a","two":80},"two":{"one":"","two":0}}],"byName":{},"of":1}] => same
[{"moreOf":[{"one":{"one":"a","two":80},"two":{"one":1,"two":0}}]}]
[{"moreOf":[{"one":{"one":"a","two":65536},"two":{"one":"","two":0}}]}]
[{"moreOf":[{"one":{"one":"a"},"two":{"one":"","two":0}}]}]"#;

const BOXED: &str = r#"[] => same
[{"data":{"one":"b","two":1},"error":{"one":"e","two":2},"moreOf":[],"byName":{"x":[{"one":"","two":0},5]},"of":1}] => same
[{"error":{"one":"e","two":true},"moreOf":[]}]
[{"byName":{}}]"#;

const EXAMPLES: &str = r#"[] => same
[{"x":"X","t1":"A","t2":"renamedB","t3":["enum"],"struct":{"y":["Y"],"z":null}},{"x":"X","t1":"A","t2":"renamedB","t3":["enum"],"struct":{"y":["Y"],"z":null}}] => same
[{"x":"X","t1":"A","t2":"B","t3":["enum"],"struct":{}}]"#;

const NAMED: &str = r#"{} => same
{"a":{"x":"X","t1":"A","t2":"renamedB","t3":["enum"],"struct":{"y":["Y"],"z":null}}} => same
{"a":{"x":"X","t1":"A","t2":"B","t3":["enum"],"struct":{}}}"#;

#[test]
fn lists_and_maps_of_structs_have_their_leaves(rt: HostRuntime) -> Result<(), Wrong> {
    expect_read_itself::<Vec<Reply<Listener, Listener>>>(rt.alloc(), LISTENERS)?;
    expect_read_itself::<Vec<Reply<Listener, Listener>>>(rt.alloc(), BOXED)?;
    expect_round_trip::<Vec<Example>>(rt.alloc(), EXAMPLES)?;
    expect_round_trip::<BTreeMap<String, Example>>(rt.alloc(), NAMED)
}

const REPEATS: &str = r#"{"code":1,"message":"a"} => same
{"z":1,"z":{"q":0,"q":0},"code":1,"message":""} => {"code":1,"message":""}
{"message":"","z":{"code":1,"code":1},"code":2} => {"code":2,"message":""}
{"code":1,"c\u006fde":1,"message":""}
{"code":1,"message":"","message":""}
{"code":1,"z":1}"#;

#[test]
fn a_strict_struct_takes_each_of_its_names_once(rt: HostRuntime) -> Result<(), Wrong> {
    expect_round_trip::<StrictDemo>(rt.alloc(), REPEATS)
}
