//! Commands, whose variants may have data.

use examples::command::Command;
use examples::commands::is_ping;
use examples::reply::Reply;
use miniserde::error::Error;
use test_tables::{
    Wrong, expect, expect_one_value, expect_prefixes_invalid, expect_read_itself, expect_refused,
};

const COMMANDS: &str = r#""Ping" => same
"\u0050ing" => "Ping"
 "Pin\u0067"  => "Ping"
{"Text":"a\/b"} => {"Text":"a/b"}
{"\u0054ext":""} => {"Text":""}
 { "Te\u0078t" : "\u00e9" }  => {"Text":"é"}
{"Text":"Ping"} => same
{"Move":{"y":2,"x":1}} => {"Move":{"x":1,"y":2}}
{"Move":{"x":-9223372036854775808,"y":9223372036854775807}} => same
{"M\u006fve":{"z":[{}],"\u0078":1,"y":2,"x":3}} => {"Move":{"x":3,"y":2}}

{}
{ }
{"Ping":null}
{"Ping":{}}
{"Ping":"Ping"}
{"Text":"a","Text":"b"}
{"Text":"a","\u0054ext":"a"}
{"Text":"a","z":1}
{"z":1,"Text":"a"}
{"Text":"a","Ping":null}
"Text"
"Move"
"Nope"
"ping"
"Pin"
"Pings"
""
{"Nope":1}
{"":"a"}
{"text":"a"}
{"Tex":"a"}
{"Texts":"a"}
null
[]
["Ping"]
["Text","a"]
true
1
{"Text":null}
{"Text":1}
{"Text":["a"]}
{"Text":{"Text":"a"}}
{"Move":"Move"}
{"Move":{}}
{"Move":{"x":1}}
{"Move":{"y":1}}
{"Move":[1,2]}
{"Move":{"x":1,"y":9223372036854775808}}
{"Move":{"x":1.0,"y":2}}
{"Move":{"x":1,"y":2},"x":1}
{"x":1,"y":2}
{"Text":"a",}
{"Text":"a"]
{"Text":"a"}}
{"Text"}
{"Text":}
"Ping" "Ping"
Ping"#;

const CANONICAL: &str = r#""\u0050ing" => "Ping"
 { "\u0054ext" : "a\/b" }  => {"Text":"a/b"}
{"Move":{"y":2,"x":1}} => {"Move":{"x":1,"y":2}}
{"Move":{"y":2,"z":[ ],"x":1,"y":3}} => {"Move":{"x":1,"y":3,"z":[]}} => {"Move":{"x":1,"y":3}}"#;

// The canonical text of the first two has one member, and is a command.
const NOT_CANONICAL: &str = r#"{"Text":"a","Text":"b"}
{"Text":"a","\u0054ext":"a"}
{"Ping":null}"#;

#[test]
fn a_command_is_a_name_or_an_object_of_one_member(rt: HostRuntime) -> Result<(), Wrong> {
    let alloc = rt.alloc();
    expect_read_itself::<Command>(alloc, COMMANDS)?;
    expect_prefixes_invalid::<Command>(alloc, r#""Ping""#)?;
    expect_prefixes_invalid::<Command>(alloc, r#"{"Text":"a"}"#)?;
    expect_prefixes_invalid::<Command>(alloc, r#"{"Move":{"x":1,"y":2}}"#)?;
    expect_one_value::<Command>(alloc, CANONICAL)?;
    expect_refused::<Command>(alloc, NOT_CANONICAL)?;
    expect(matches!(is_ping(alloc, r#""Ping""#), Ok(true)), "a ping")?;
    expect(
        matches!(is_ping(alloc, r#"{"Text":"Ping"}"#), Ok(false)),
        "a text",
    )?;
    expect(
        matches!(is_ping(alloc, r#"{"Ping":null}"#), Err(Error::Invalid)),
        "no command",
    )
}

const REPLIES: &str = r#""gone" => same
{"Done":7} => same
{"Done":null}
{"Between":[1,2]} => same
{"Between":[1]}
{"Between":[1,2,3]}
{"Between":{"0":1,"1":2}}
{"Failed":{"why":"a","code":404}} => {"Failed":{"code":404,"why":"a"}}
{"Failed":{}} => {"Failed":{"code":500,"why":null}}
{"Failed":{"why":null,"why":"a"}} => {"Failed":{"code":500,"why":"a"}}
{"Failed":{"code":1,"code":1}}
{"Failed":{"code":null}}
{"Failed":[]}
"Failed"
{"gone":null}
"Gone""#;

const NESTED: &str = r#"{"Done":"Ping"} => same
{"Done":{"Text":"a"}} => same
{"Between":["Ping",{"Move":{"x":1,"y":2}}]} => same
{"Done":{"Done":"Ping"}}
{"Text":"a"}"#;

#[test]
fn a_reply_has_what_it_is_asked_for(rt: HostRuntime) -> Result<(), Wrong> {
    let alloc = rt.alloc();
    expect_read_itself::<Reply<u64>>(alloc, REPLIES)?;
    expect_read_itself::<Reply<Command>>(alloc, NESTED)?;
    expect_one_value::<Reply<Command>>(alloc, r#"{"Done":"Ping"}"#)
}
