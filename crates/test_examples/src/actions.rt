//! Actions, an internally tagged enum.

use examples::action::Action;
use examples::actions::{is_ping, said};
use miniserde::error::{Error, Result};
use std::alloc::Global;
use test_tables::{
    Wrong, expect, expect_one_value, expect_prefixes_invalid, expect_read_itself, expect_refused,
    is_right, text_of,
};

const ACTIONS: &str = r#"{"kind":"Ping"} => same
 { "kind" : "Ping" }  => {"kind":"Ping"}
{"\u006bind":"P\u0069ng"} => {"kind":"Ping"}
{"kind":"Ping","x":[{"kind":7}],"text":null} => {"kind":"Ping"}
{"x":[{"kind":7}],"text":null,"kind":"Ping"} => {"kind":"Ping"}
{"kind":"Say","text":"a","to":"b"} => same
{"kind":"Say","text":"Ping"} => {"kind":"Say","text":"Ping","to":null}
{"text":"a","kind":"Say","to":null} => {"kind":"Say","text":"a","to":null}
{"to":"b","text":"\u00e9","kind":"Say"} => {"kind":"Say","text":"é","to":"b"}
{"text":"a","kind":"Say","x":1,"text":"b"} => {"kind":"Say","text":"b","to":null}
{"kind":"move","x":-9223372036854775808,"y":9223372036854775807} => same
{"y":2,"x":1,"kind":"move"} => {"kind":"move","x":1,"y":2}
{"y":2,"kind":"m\u006fve","x":1} => {"kind":"move","x":1,"y":2}
{"kind":"Ping","kind":"move","x":1,"y":2} => {"kind":"move","x":1,"y":2}
{"kind":"move","x":1,"y":2,"k\u0069nd":"Ping"} => {"kind":"Ping"}
{"kind":"Nope","x":"a","kind":"Ping"} => {"kind":"Ping"}

{}
{"kind":null}
{"kind":7}
{"kind":["Ping"]}
{"kind":{"Ping":null}}
{"kind":7,"kind":"Ping"}
{"kind":"Ping","kind":7}
{"kind":"Ping","kind":"Nope"}
{"kind":"Nope"}
{"kind":""}
{"kind":"Pin"}
{"kind":"Pings"}
{"kind":"ping"}
{"kind":"Move","x":1,"y":2}
{"Kind":"Ping"}
{"kin":"Ping"}
{"text":"a"}
{"x":1,"y":2}
{"kind":"Say"}
{"kind":"Say","text":7}
{"kind":"Say","text":null}
{"kind":"Say","text":"a","text":7}
{"kind":"Say","text":"a","to":7}
{"kind":"Say","x":1,"y":2}
{"kind":"move"}
{"kind":"move","x":1}
{"kind":"move","text":"a"}
{"kind":"move","x":1,"y":"2"}
{"kind":"move","x":1,"y":9223372036854775808}
"Ping"
"Say"
null
7
[]
["Ping"]
[{"kind":"Ping"}]
{"Ping":null}
{"Say":{"text":"a"}}
{"kind":"Ping",}
{"kind":"Ping"]
{"kind":"Ping"}}
{"kind":"Ping","x"}
{"kind":"Ping","x":}
{"kind":"Ping","x":01}
{"kind":"Ping" "x":1}
{"kind":"Ping","x":[1}"#;

const CANONICAL: &str = r#"{"y":2,"x":1,"kind":"move"} => {"kind":"move","x":1,"y":2}
{"kind":"Nope","kind":"Ping"} => {"kind":"Ping"}
{"kind":"Ping","b":-0,"a":"\u0061"} => {"a":"a","b":0,"kind":"Ping"} => {"kind":"Ping"}
{"text":"a","to":null,"kind":"Say"} => {"kind":"Say","text":"a","to":null}"#;

const NOT_ACTIONS: &str = r#"{"kind":"Nope"}
{"kind":"move","x":1}
{}"#;

#[test]
fn an_action_is_an_object_whose_kind_says_which(rt: HostRuntime) -> std::result::Result<(), Wrong> {
    let alloc = rt.alloc();
    expect_read_itself::<Action>(alloc, ACTIONS)?;
    expect_prefixes_invalid::<Action>(alloc, r#"{"kind":"Ping"}"#)?;
    expect_prefixes_invalid::<Action>(alloc, r#"{"text":"a","kind":"Say"}"#)?;
    expect_prefixes_invalid::<Action>(alloc, r#"{"kind":"move","x":1,"y":2}"#)?;
    expect_one_value::<Action>(alloc, CANONICAL)?;
    expect_refused::<Action>(alloc, NOT_ACTIONS)
}

const SAID: &str = r#"{"text":"a","kind":"Say"} => a
{"kind":"Ping"} => nothing
{"kind":"move","x":1,"y":2,"text":"a"} => nothing
{"kind":"Say"}
{"kind":1}"#;

/// Returns what is said in an action, or `nothing`.
fn heard(alloc: Global, text: &str) -> Result<String> {
    match said(alloc, text)? {
        Some(said) => Ok(said),
        None => Ok(String::from_str(alloc, "nothing")?),
    }
}

#[test]
fn what_is_said_is_the_text_and_a_ping_says_nothing(
    rt: HostRuntime,
) -> std::result::Result<(), Wrong> {
    let alloc = rt.alloc();
    for line in SAID.lines() {
        expect(is_right(heard(alloc, text_of(line)), line), line)?;
    }
    expect(
        matches!(is_ping(alloc, r#"{"x":1,"kind":"Ping"}"#), Ok(true)),
        "a ping",
    )?;
    expect(
        matches!(is_ping(alloc, r#"{"kind":"Say","text":"Ping"}"#), Ok(false)),
        "a text",
    )?;
    expect(
        matches!(is_ping(alloc, r#""Ping""#), Err(Error::Invalid)),
        "no action",
    )
}
