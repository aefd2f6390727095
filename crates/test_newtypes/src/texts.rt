//! Texts of newtypes: what comes of each, and which are invalid. What stands behind `=>`, and that a text is invalid, is
//! what serde_json gives for the same types with `transparent`, or `try_from` and `into`.

use crate::accounts::{Account, Slug, Tagged, UserId};
use crate::ends::Ends;
use crate::forms::{Celsius, Flag, Initial, Maybe, Name, Offset};
use crate::percents::Percent;
use crate::spans::Span;
use miniserde::json::Document;
use std::collections::BTreeMap;
use test_tables::{Wrong, expect_read_itself, expect_round_trip, expect_table};

const USER_IDS: &str = r#"0 => same
 18446744073709551615  => 18446744073709551615
18446744073709551616
-1
1.0
1e0
"1"
null
[1]
{"0":1}
-0
01"#;

const PERCENTS: &str = r#"0 => same
100 => same
 99  => 99
101
255
256
-1
1.5
"1"
null
[1]"#;

const TEMPERATURES: &str = r#"-273 => same
-274
0 => same
32767 => same
32768
-32769
null"#;

const SLUGS: &str = r#""a" => same
"a-b-9" => same
"\u0061" => "a"
""
"A"
"a b"
"a\n"
"é"
7
null
["a"]"#;

const LISTS: &str = r#"[] => same
[1, 100] => [1,100]
[1,101]
1
null
[[1]]"#;

const MAYBES: &str = r#"null => same
7 => same
256
"7"
[]"#;

const SHARES: &str = r#"{} => same
{"7":60,"10":40} => same
{"10":40,"7":60} => {"7":60,"10":40}
{"7":60,"7":61} => {"7":61}
{"-1":1}
{"a":1}
{"1":101}
{"18446744073709551616":1}
[]"#;

const BY_SLUG: &str = r#"{"b":1,"a":2} => {"a":2,"b":1}
{"A":1}
{"":1}
{"\u0061":1} => {"a":1}
{"a":1,"a":2} => {"a":2}
{"a":101}"#;

const TAGGED: &str = r#"{"10":100,"9":0} => {"9":0,"10":100}
{"x":1}
{"1":256}"#;

const ACCOUNTS: &str = r#"{"owner":7,"slug":"a-b","shares":{"7":60,"10":40}} => same
{"shares":{},"slug":"x","owner":0} => {"owner":0,"slug":"x","shares":{}}
{"owner":7,"slug":"A","fee":null,"shares":{}}
{"owner":7,"slug":"a","fee":101,"shares":{}}
{"slug":"a","shares":{}}
{"slug":"a","fee":null,"shares":{}}
{"owner":null,"slug":"a","shares":{}}
{"owner":7,"slug":"a","shares":{}} => same
{"owner":7,"slug":"a","fee":null,"shares":{}} => {"owner":7,"slug":"a","shares":{}}
{"owner":7,"slug":"a","fee":7,"shares":{}} => same
{"fee":100,"slug":"a","shares":{},"owner":7} => {"owner":7,"slug":"a","fee":100,"shares":{}}
{"owner":7,"slug":"a","fee":101,"fee":7,"shares":{}}
{"owner":7,"slug":"","shares":{}}
{"owner":18446744073709551615,"slug":"9","shares":{}} => same
{"owner":0,"slug":"a-","shares":{"0":0}} => same
{"owner":-1,"slug":"a","shares":{}}
{"owner":7,"slug":"A","shares":{}}
{"owner":"7","slug":"a","shares":{}}
"owner""#;

const MAYBE_ENDS: &str = r#"{"from":1} => {"from":1,"to":null}
{"from":1,"to":null} => same
{"from":1,"to":2} => same"#;

const SPANS: &str = r#"{"from":1,"to":2} => same
{"to":2,"from":2} => {"from":2,"to":2}
{"from":7,"to":7} => same
{"from":2,"to":1}
{"from":4294967295,"to":4294967294}
{"from":1}
{"from":null,"to":1}
{"from":0,"to":4294967295} => same
{"from":0,"to":4294967296}
null"#;

const NAMES: &str = r#"{"b":1,"a":2,"":3} => {"":3,"a":2,"b":1}
{"\u0061":1} => {"a":1}"#;

// serde_json 1.0.87 has no keys of `bool`; later versions read these.
const FLAGS: &str = r#"{"true":1,"false":2} => {"false":2,"true":1}
{"true":1,"true":2} => {"true":2}
{"":1}
{"1":1}
{"True":1}"#;

const INITIALS: &str = r#"{"b":1,"a":2} => {"a":2,"b":1}
{"\u00e9":1} => {"é":1}
{"":1}
{"ab":1}"#;

// As a `Document` is read and written.
const RAW: &str = r#"{"b":-0,"a":[1.50, -0]} => {"a":[1.50,0],"b":0}
null => same
{"a":1.5.0}
[1,]"#;

const NUMBERS: &str = r#"{"from":0,"to":1} => same
{"from":255,"to":0} => same
{"from":-1,"to":0}
{"from":"7","to":0}
{"from":null,"to":0}
{"to":2}
{}"#;

const PERCENT_ENDS: &str = r#"{"from":0,"to":0} => same
{"from":100,"to":0} => same
{"from":101,"to":0}
{"from":256,"to":0}
{"from":-1,"to":0}
{"from":"44","to":0}"#;

const BY_PERCENT: &str = r#"{"43":1,"8":2} => {"8":2,"43":1}
{"+043":1} => {"43":1}
{"8":1,"08":2} => {"8":2}
{"101":1}
{"256":1}
{"-1":1}
{"":1}"#;

const OFFSETS: &str = r#"{"from":-2147483648,"to":0} => same
{"from":2147483647,"to":0} => same
{"from":-2147483649,"to":0}
{"from":2147483648,"to":0}"#;

const BY_OFFSET: &str = r#"{"-5":1,"+3":2,"-0":3} => {"-5":1,"0":3,"3":2}
{"2147483648":1}
{"a":1}"#;

const NAME_ENDS: &str = r#"{"from":"","to":"b"} => same
{"from":"\u0041 b","to":""} => {"from":"A b","to":""}
{"from":7,"to":""}"#;

const SLUG_ENDS: &str = r#"{"from":"a-9","to":"b"} => same
{"from":"","to":"b"}
{"from":"A","to":"b"}
{"from":7,"to":"b"}"#;

const FLAG_ENDS: &str = r#"{"from":true,"to":false} => same
{"from":false,"to":true} => same
{"from":"true","to":true}
{"from":1,"to":true}"#;

#[test]
fn texts_of_newtypes(rt: HostRuntime) -> Result<(), Wrong> {
    let alloc = rt.alloc();
    expect_read_itself::<UserId>(alloc, USER_IDS)?;
    expect_read_itself::<Percent>(alloc, PERCENTS)?;
    expect_read_itself::<Tagged<Percent>>(alloc, PERCENTS)?;
    expect_round_trip::<Celsius>(alloc, TEMPERATURES)?;
    expect_read_itself::<Slug>(alloc, SLUGS)?;
    expect_read_itself::<Tagged<Vec<Percent>>>(alloc, LISTS)?;
    expect_read_itself::<Maybe>(alloc, MAYBES)?;
    expect_read_itself::<Tagged<Document>>(alloc, RAW)?;
    // serde_json takes `-0` for a float, which is no integer there.
    expect_table::<Celsius>(alloc, "-0 => 0")
}

#[test]
fn newtypes_as_keys(rt: HostRuntime) -> Result<(), Wrong> {
    let alloc = rt.alloc();
    expect_read_itself::<BTreeMap<UserId, Percent>>(alloc, SHARES)?;
    expect_read_itself::<BTreeMap<Slug, Percent>>(alloc, BY_SLUG)?;
    expect_read_itself::<BTreeMap<Slug, Option<Percent>>>(alloc, r#"{"a":null,"b":7} => same"#)?;
    expect_read_itself::<BTreeMap<Tagged<UserId>, Tagged<Percent>>>(alloc, TAGGED)?;
    expect_read_itself::<BTreeMap<Percent, u8>>(alloc, BY_PERCENT)?;
    expect_read_itself::<BTreeMap<Offset, u8>>(alloc, BY_OFFSET)?;
    expect_read_itself::<BTreeMap<Name, u8>>(alloc, NAMES)?;
    expect_read_itself::<BTreeMap<Flag, u8>>(alloc, FLAGS)?;
    expect_read_itself::<BTreeMap<Initial, u8>>(alloc, INITIALS)
}

// Each kind of newtype as a field.
#[test]
fn newtypes_in_structs(rt: HostRuntime) -> Result<(), Wrong> {
    let alloc = rt.alloc();
    expect_read_itself::<Account>(alloc, ACCOUNTS)?;
    expect_round_trip::<Span>(alloc, SPANS)?;
    expect_read_itself::<Ends<UserId>>(alloc, NUMBERS)?;
    expect_read_itself::<Ends<Tagged<u16>>>(alloc, NUMBERS)?;
    expect_round_trip::<Ends<Offset>>(alloc, OFFSETS)?;
    expect_read_itself::<Ends<Percent>>(alloc, PERCENT_ENDS)?;
    expect_read_itself::<Ends<Slug>>(alloc, SLUG_ENDS)?;
    expect_round_trip::<Ends<Name>>(alloc, NAME_ENDS)?;
    expect_round_trip::<Ends<Flag>>(alloc, FLAG_ENDS)?;
    expect_read_itself::<Ends<Maybe>>(alloc, MAYBE_ENDS)
}
