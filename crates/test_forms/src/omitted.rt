//! Fields that are not written if they are `None`.

use crate::commands::Command;
use crate::notes::Note;
use crate::pages::{Entry, Page};
use test_tables::{Wrong, expect_prefixes_invalid, expect_read_itself, expect_round_trip};

const NOTES: &str =
    r#"{"text":"t","name":"n","*":5,"points":[1,2],"a":true,"b":false,"c":true,"d":false,"host":{"name":"a","port":1,"command":"Ping"}} => same
{"name":"n","a":true,"b":false,"c":true,"d":false} => same
{"d":false,"c":true,"b":false,"a":true,"name":"n"} => {"name":"n","a":true,"b":false,"c":true,"d":false}
{"text":"","name":"n","a":true,"b":false,"c":true,"d":false} => same
{"name":"n","*":0,"a":true,"b":false,"c":true,"d":false} => same
{"name":"n","points":[0,0],"a":true,"b":false,"c":true,"d":false} => same
{"name":"n","points":[],"a":true,"b":false,"c":true,"d":false} => same
{"name":"n","points":[null,1],"a":true,"b":false,"c":true,"d":false} => same
{"name":"n","a":true,"b":false,"c":true,"d":false,"host":{"name":"","port":0,"command":{"Text":""}}} => same
{"text":null,"name":"n","*":null,"points":null,"a":true,"b":false,"c":true,"d":false,"host":null} => {"name":"n","a":true,"b":false,"c":true,"d":false}
{"text":"t","text":null,"name":"n","a":true,"b":false,"c":true,"d":false} => {"name":"n","a":true,"b":false,"c":true,"d":false}
{"text":null,"text":"t","name":"n","a":true,"b":false,"c":true,"d":false} => {"text":"t","name":"n","a":true,"b":false,"c":true,"d":false}

{"text":"t","a":true,"b":false,"c":true,"d":false}
{"text":1,"name":"n","a":true,"b":false,"c":true,"d":false}
{"text":1,"text":"t","name":"n","a":true,"b":false,"c":true,"d":false}
{"name":"n","*":5,"*":5,"a":true,"b":false,"c":true,"d":false}
{"name":"n","*":null,"*":5,"a":true,"b":false,"c":true,"d":false}
{"name":"n","*":256,"a":true,"b":false,"c":true,"d":false}
{"name":"n","points":[256],"a":true,"b":false,"c":true,"d":false}
{"name":"n","a":true,"b":false,"c":true,"d":false,"host":{}}
{"name":"n","a":true,"b":false,"c":true}"#;

const MOVES: &str = r#"{"Move":{}} => same
{"Move":{"x":1}} => same
{"Move":{"y":1}} => same
{"Move":{"x":0,"y":0}} => same
{"Move":{"y":0,"x":0}} => {"Move":{"x":0,"y":0}}
{"Move":{"x":null,"y":null}} => {"Move":{}}
{"Move":{"y":null,"x":3}} => {"Move":{"x":3}}

{"Move":{"y":"1"}}
{"Move":[]}
{"Move":null}"#;

// What is left out need not be lossless.
const ORDERS: &str =
    r#"{"name":"n","a":true,"b":false,"c":true,"d":false,"order":{"total":1.50,"places":3,"type":"a","extra":{}},"number":-0.0} => same
{"name":"n","a":true,"b":false,"c":true,"d":false,"number":1e2} => same
{"name":"n","a":true,"b":false,"c":true,"d":false,"order":{"total":0,"extra":null}} => {"name":"n","a":true,"b":false,"c":true,"d":false,"order":{"total":0,"places":2,"type":"sale","extra":null}}
{"name":"n","a":true,"b":false,"c":true,"d":false,"order":{"total":1,"places":2,"type":"a","discount":[1,2],"extra":null}} => same
{"name":"n","a":true,"b":false,"c":true,"d":false,"order":null,"number":null} => {"name":"n","a":true,"b":false,"c":true,"d":false}
{"name":"n","a":true,"b":false,"c":true,"d":false,"order":{"total":1,"discount":[1],"extra":null}}
{"name":"n","a":true,"b":false,"c":true,"d":false,"order":{"places":3,"extra":null}}
{"name":"n","a":true,"b":false,"c":true,"d":false,"number":"1"}"#;

#[test]
fn a_field_that_is_none_is_left_out(rt: HostRuntime) -> Result<(), Wrong> {
    expect_round_trip::<Note>(rt.alloc(), NOTES)?;
    expect_round_trip::<Note>(rt.alloc(), ORDERS)?;
    expect_read_itself::<Command>(rt.alloc(), MOVES)?;
    expect_prefixes_invalid::<Command>(rt.alloc(), r#"{"Move":{"x":1,"y":2}}"#)
}

const OF: &str = r#"{"items":[],"of":"Ping"} => same
{"items":["Ping"]} => same
{"of":null,"items":[]} => {"items":[]}
{"items":[],"of":{"Text":"b"}} => same
{"of":"Pong","items":[]}
{"of":"Ping"}"#;

const ENTRIES: &str = r#""signed-out" => same
{"log-entry":{"log_level":1,"of":2,"page_of":{"items":[],"of":3}}} => same
{"log-entry":{"page_of":{"items":[]}}} => same
{"log-entry":{"of":2,"page_of":{"of":null,"items":[]},"log_level":null}} => {"log-entry":{"of":2,"page_of":{"items":[]}}}
{"log-entry":{"log_level":1}}
{"log-entry":{}}
{"log-entry":{"page_of":{"items":[]},"log_level":256}}
{"log-entry":{"page_of":{"items":[]}},"signed-out":null}
"log-entry""#;

#[test]
fn a_parameter_is_left_out(rt: HostRuntime) -> Result<(), Wrong> {
    expect_read_itself::<Page<Command>>(rt.alloc(), OF)?;
    expect_round_trip::<Entry<u8>>(rt.alloc(), ENTRIES)
}
