//! Internally tagged enums: closed and generic structs beside a tag, and tagged enums in tagged enums.

use crate::changes::Change;
use crate::commands::Command;
use crate::edits::Edit;
use test_tables::{Wrong, expect_one_value, expect_prefixes_invalid, expect_read_itself};

const EDITS: &str = r#"{"type":"reset"} => same
{"type":"reset","name":"a"} => {"type":"reset"}
{"type":"set_name","one":"a","two":1} => same
{"one":"a","type":"set_name"} => {"type":"set_name","one":"a","two":null}
{"type":"set_name","one":"a","type":"set_name"} => {"type":"set_name","one":"a","two":null}
{"type":"both_of","one":1,"two":"a"} => same
{"two":"a","one":1,"type":"both_of"} => {"type":"both_of","one":1,"two":"a"}
{"type":"é"} => same
{"type":"\u00e9","x":1} => {"type":"é"}

{"type":"set_name"}
{"type":"set_name","one":"a","one":"a"}
{"type":"set_name","one":"a","x":1}
{"type":"set_name","one":"a","Type":"set_name"}
{"type":"SetName","one":"a"}
{"type":"setName","one":"a"}
{"type":"both_of","one":1}
{"type":"both_of","one":1,"two":"a","x":0}
{"type":"both_of","one":1,"one":1,"two":"a"}
{"type":"Clear"}
{"type":"Accent"}
{"type":"e"}"#;

// An edit in a change has a tag of the same name.
const DEEP: &str =
    r#"{"type":"Deep","one":{"type":"both_of","one":1,"two":"b"},"two":[{"type":"reset"}]} => same
{"two":[{"one":1,"two":"","type":"both_of"}],"type":"Deep","one":{"type":"reset","two":[]}} => {"type":"Deep","one":{"type":"reset"},"two":[{"type":"both_of","one":1,"two":""}]}

{"type":"Deep","one":{},"two":[]}
{"type":"Deep","one":"reset","two":[]}
{"type":"Deep","one":{"type":"Deep"},"two":[]}
{"type":"Deep","one":{"type":"both_of","one":1},"two":[]}
{"type":"Deep","one":{"type":"reset"},"two":[{}]}
{"type":"Deep","one":{"type":"reset"}}"#;

#[test]
fn a_tag_stands_among_the_members_of_a_struct(rt: HostRuntime) -> Result<(), Wrong> {
    let alloc = rt.alloc();
    expect_read_itself::<Edit>(alloc, EDITS)?;
    expect_read_itself::<Change>(alloc, DEEP)?;
    expect_prefixes_invalid::<Edit>(alloc, r#"{"one":"a","type":"set_name"}"#)?;
    expect_prefixes_invalid::<Change>(
        alloc,
        r#"{"one":{"one":1,"two":"a","type":"both_of"},"two":[],"type":"Deep"}"#,
    )
}

const CANONICAL: &str =
    r#"{"type":"set_name","one":"\u0061","two":null} => {"one":"a","two":null,"type":"set_name"} => {"type":"set_name","one":"a","two":null}
{"two":"a","type":"both_of","one":1} => {"one":1,"two":"a","type":"both_of"} => {"type":"both_of","one":1,"two":"a"}"#;

const OMITTED: &str = r#"{"Move":{"y":-1,"x":2}} => {"Move":{"x":2,"y":-1}}
{"Move":{"y":null,"x":2}} => {"Move":{"x":2,"y":null}} => {"Move":{"x":2}}"#;

#[test]
fn an_edit_and_a_command_are_stable(rt: HostRuntime) -> Result<(), Wrong> {
    expect_one_value::<Edit>(rt.alloc(), CANONICAL)?;
    expect_one_value::<Command>(rt.alloc(), OMITTED)
}
