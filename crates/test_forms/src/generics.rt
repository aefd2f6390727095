//! Structs with parameters, at several types, queues among them, and names in camelCase.

use crate::generic::{Both, Reply};
use std::collections::VecDeque;
use test_tables::{Wrong, expect_one_value, expect_read_itself};

const PAIRS: &str = r#"{"one":1,"two":"a"} => same
{"two":null,"one":1} => {"one":1,"two":null}
{"one":255} => {"one":255,"two":null}
{"two":7,"one":1}
{"one":1,"two":"a","two":null} => {"one":1,"two":null}
{"one":1,"two":7,"two":"a"}
{"one":1,"one":1,"two":"a"}
{"\u006fne":1,"one":1,"two":"a"}
{"one":1,"two":"a","three":0}
{"one":256,"two":"a"}
{"one":null,"two":"a"}
{"two":"a"}
[1,"a"]"#;

const SWAPPED: &str = r#"{"one":"a","two":1} => same
{"two":1} => {"one":null,"two":1}
{"one":1,"two":"a"}
{"one":"a"}
{}"#;

const QUEUES: &str = r#"{"one":[3,1,2],"two":[[1,9],[0,8]]} => same
{"one":[]} => {"one":[],"two":null}
{"two":[[1,9]],"one":[1],"two":[]} => {"one":[1],"two":[]}
{}
{"one":null}
{"one":1}
{"one":["1"]}
{"one":[256]}
{"one":{"0":1}}
{"one":[1],"two":[2,]}
{"one":[],"two":[1,9]}
{"one":[],"two":[[1,9,2]]}
{"one":[],"one":[]}"#;

const NAMES: &str = r#"{"one":["b","a"],"two":null} => same
{"two":[[1,"c"]],"one":[]} => {"one":[],"two":[[1,"c"]]}
{"one":[1]}
{"one":[],"two":[[1,2]]}"#;

const REPLIES: &str =
    r#"{"data":7,"error":"e","moreOf":[{"one":1,"two":"b"}],"byName":{"a":[2,3]},"of":4} => same
{"moreOf":[]} => {"data":null,"error":null,"moreOf":[],"byName":{},"of":1}
{"byName":{"b":[1,2],"a":[0,255],"b":[18446744073709551615,0]},"moreOf":[],"pages":9} => {"data":null,"error":null,"moreOf":[],"byName":{"a":[0,255],"b":[18446744073709551615,0]},"of":1}
{"moreOf":[{"one":1,"two":"b"}],"z":[[]],"moreOf":[]} => {"data":null,"error":null,"moreOf":[],"byName":{},"of":1}
{"data":7,"error":"e"}
{"moreOf":[],"data":"7"}
{"moreOf":[],"error":7}
{"moreOf":[],"of":null}
{"moreOf":[],"of":65536}
{"moreOf":[],"byName":null}
{"moreOf":[],"byName":{"a":[1,256]}}
{"moreOf":[],"byName":{"a":["1",1]}}
{"moreOf":[{"one":"1","two":"b"}]}
{"moreOf":[{"one":1,"two":2}]}
{"moreOf":[{"one":1,"two":"b","three":0}]}
{"moreOf":[{"one":1,"one":1,"two":"b"}]}"#;

// A field has its name in camelCase alone, and one with a name of its own has that alone.
const STYLED: &str = r#"{"data":7,"error":null,"moreOf":[],"byName":{"a":[2,3]},"of":4} => same
{"of":3,"byName":{},"moreOf":[]} => {"data":null,"error":null,"moreOf":[],"byName":{},"of":3}
{"more\u004ff":[]} => {"data":null,"error":null,"moreOf":[],"byName":{},"of":1}
{"moreOf":[],"more_of":7,"pageCount":"x","by_name":"u"} => {"data":null,"error":null,"moreOf":[],"byName":{},"of":1}
{"moreOf":[],"pageCount":9} => {"data":null,"error":null,"moreOf":[],"byName":{},"of":1}
{"moreOf":[],"page_count":9} => {"data":null,"error":null,"moreOf":[],"byName":{},"of":1}
{"more_of":[],"of":1}
{"MoreOf":[],"of":1}
{"moreof":[],"of":1}
{"more-of":[],"of":1}
{"moreOf":"1","of":1}
{"moreOf":[],"of":1,"byName":7}
{"moreOf":[],"of":1,"byName":{},"byName":7}
{}"#;

const OTHERS: &str =
    r#"{"data":"7","error":7,"moreOf":[{"one":"1","two":2}]} => {"data":"7","error":7,"moreOf":[{"one":"1","two":2}],"byName":{},"of":1}
{"data":7,"moreOf":[]}
{"error":"7","moreOf":[]}
{"moreOf":[{"one":1,"two":"b"}]}"#;

#[test]
fn each_parameter_stands_for_its_type(rt: HostRuntime) -> Result<(), Wrong> {
    let alloc = rt.alloc();
    expect_read_itself::<Both<u8, Option<String>>>(alloc, PAIRS)?;
    expect_read_itself::<Both<Option<String>, u8>>(alloc, SWAPPED)?;
    expect_read_itself::<Both<VecDeque<u8>, Option<VecDeque<(u8, u8)>>>>(alloc, QUEUES)?;
    expect_read_itself::<Both<VecDeque<String>, Option<VecDeque<(u8, String)>>>>(alloc, NAMES)?;
    expect_read_itself::<Reply<u64, String>>(alloc, REPLIES)?;
    expect_read_itself::<Reply<u64, String>>(alloc, STYLED)?;
    expect_read_itself::<Reply<String, u8>>(alloc, OTHERS)
}

const CANONICAL_REPLIES: &str =
    r#"{"of":4,"moreOf":[{"two":"\u0062","one":1}],"data":7,"byName":{}} => {"byName":{},"data":7,"moreOf":[{"one":1,"two":"b"}],"of":4} => {"data":7,"error":null,"moreOf":[{"one":1,"two":"b"}],"byName":{},"of":4}
{"note":"n","moreOf":[]} => {"moreOf":[],"note":"n"} => {"data":null,"error":null,"moreOf":[],"byName":{},"of":1,"note":"n"}
{"note":null,"moreOf":[]} => {"moreOf":[],"note":null} => {"data":null,"error":null,"moreOf":[],"byName":{},"of":1}"#;

const CANONICAL_QUEUES: &str = r#"{"two":["\u0061"],"one":[-0, 1]} => {"one":[0,1],"two":["a"]}
{"one":[-0]} => {"one":[0]} => {"one":[0],"two":null}"#;

#[test]
fn a_text_and_its_canonical_text_have_one_value(rt: HostRuntime) -> Result<(), Wrong> {
    expect_one_value::<Reply<u64, String>>(rt.alloc(), CANONICAL_REPLIES)?;
    expect_one_value::<Both<VecDeque<i8>, Option<VecDeque<String>>>>(rt.alloc(), CANONICAL_QUEUES)
}
