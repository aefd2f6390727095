//! Texts of types of each form that `./derive` takes, one in another.

use crate::changes::Change;
use crate::commands::Command;
use crate::notes::Order;
use crate::pages::{Entry, Page};
use miniserde::json::Number;
use std::collections::BTreeMap;
use test_tables::{Wrong, expect_read_itself, expect_round_trip};

// An enum in a struct in an enum.
const HOSTS: &str = r#""up" => same
{"one-host":{"name":"a","port":1,"command":"Ping"}} => same
{"one-host":{"name":"a","port":1,"command":{"Move":{"x":-1,"y":1}}}} => same
{"one-host":{"command":{"Text":"b"},"name":"a"}} => {"one-host":{"name":"a","port":80,"command":{"Text":"b"}}}
{"one-host":{"command":{"Move":{"more":{},"y":1,"x":2}},"host":"a"}} => {"one-host":{"name":"a","port":80,"command":{"Move":{"x":2,"y":1}}}}
{"hosts":[]} => same
{"hosts":[{"name":"a","port":1,"command":"Ping"},{"name":"","port":2,"command":{"Move":{"y":0,"x":9}}}]} => {"hosts":[{"name":"a","port":1,"command":"Ping"},{"name":"","port":2,"command":{"Move":{"x":9,"y":0}}}]}
{"three":[255,65535,4294967295]} => same

"one-host"
{"up":null}
{"one-host":{"name":"a","command":"ping"}}
{"one-host":{"name":"a","command":{"Move":{"x":"1"}}}}
{"one-host":{"name":"a","note":"n"}}
{"hosts":[{"name":"a","command":"Ping"},{"command":"Ping"}]}
{"three":[1,2]}
{"three":[1,2,3,4]}
{"three":[256,2,3]}
{"one-host":{"name":"a"},"three":[1,2,3]}
{}"#;

const PAGES: &str = r#"{"items":[]} => same
{"items":["Ping",{"Text":"a"}],"next":"b"} => same
{"next":null,"items":["Ping"]} => {"items":["Ping"]}
{"next":"b","next":null,"items":[]} => {"items":[]}
{"next":null,"next":"b","items":[]} => {"items":[],"next":"b"}

{"next":"b"}
{"items":["Pong"]}
{"items":[],"next":1}
{"items":[],"next":1,"next":"b"}"#;

const CHANGES: &str = r#"{"type":"Clear"} => same
{"type":"Add","name":"a","port":1,"command":"Ping"} => same
{"name":"a","type":"Add","command":{"Text":"b"}} => {"type":"Add","name":"a","port":80,"command":{"Text":"b"}}
{"name":"a","command":"Ping","type":"Add"} => {"type":"Add","name":"a","port":80,"command":"Ping"}
{"type":"Mark","at":[1,2,3],"note":"n"} => same
{"type":"Mark","at":[1,2,3]} => same
{"note":null,"at":[1,2,3],"type":"Mark"} => {"type":"Mark","at":[1,2,3]}
{"type":"Clear","at":[1,2,3],"type":"Mark"} => {"type":"Mark","at":[1,2,3]}

{"name":"a","command":"Ping"}
{"type":"Add","type":"Clear","type":"add","name":"a","command":"Ping"}
{"type":"Mark","at":[1,2]}
{"type":"Mark","at":[1,2,3],"note":0}
{"type":1,"type":"Clear"}
{"type":"Add"}
"Clear"
{}"#;

#[test]
fn a_tag_stands_first_last_and_twice(rt: HostRuntime) -> Result<(), Wrong> {
    expect_read_itself::<Change>(rt.alloc(), CHANGES)
}

const SIXTEEN: &str = r#""down" => same
"delete" => same
"d\u006fwn" => "down"
{"letter":97} => same
{"digit":255} => same
{"new-url":""} => same
{"chord":[1,2]} => same
{"click":[-1,1]} => same
{"wheel":-128} => same
{"other":18446744073709551615} => same

"letter"
"Up"
{"down":1}
{"digit":256}
{"click":[1]}
{"wheel":128}
{"other":-1}
{"others":1}"#;

// The variants have their names in kebab-case, and the fields of one their own.
const STYLED: &str = r#""signed-out" => same
{"new-url":"u"} => same
{"log-entry":{"of":"Ping","page_of":{"items":[]}}} => same
{"seen-at":[1,"a",true]} => same
{"seen-at" : [ 18446744073709551615 , "\u0061" , null ]} => {"seen-at":[18446744073709551615,"a",null]}
{"seen-at":[1,"a"]}
{"seen-at":[1,"a",true,0]}
{"seen-at":["a",1,true]}
{"seen-at":[]}
{"seen-at":1}
{"seen-at":{"0":1,"1":"a","2":true}}
{"log-entry":{"page_of":{"items":[]},"of":"Ping","page-of":1}} => {"log-entry":{"of":"Ping","page_of":{"items":[]}}}
"SignedOut"
"signed_out"
{"NewUrl":"u"}
{"newUrl":"u"}
{"new_url":"u"}
{"LogEntry":{"page_of":{"items":[]}}}
{"log-entry":{"page-of":{"items":[]}}}
{"log-entry":{"pageOf":{"items":[]}}}
{"log-entry":{"page_of":{"items":[]},"of":"ping"}}"#;

#[test]
fn each_of_sixteen_variants(rt: HostRuntime) -> Result<(), Wrong> {
    expect_round_trip::<Entry<u8>>(rt.alloc(), HOSTS)?;
    expect_round_trip::<Entry<u8>>(rt.alloc(), SIXTEEN)?;
    expect_round_trip::<Entry<Command>>(rt.alloc(), STYLED)
}

// What a shop keeps: orders, a number, what it sold by country, and rates.
type Ledger = (
    Vec<Order>,
    u64,
    BTreeMap<String, Vec<u64>>,
    BTreeMap<String, Number>,
);

const LEDGERS: &str = r#"[[],0,{},{}] => same
[[{"extra":[],"places":0,"type":"a","total":1}],7,{"CH":[1]},{"EUR":1.50}] => [[{"total":1,"places":0,"type":"a","extra":[]}],7,{"CH":[1]},{"EUR":1.50}]
[[],0,{},{"EUR":"1"}]
[[{}],0,{},{}]
[[],{},{}]"#;

#[test]
fn a_page_of_commands_and_a_ledger_of_orders(rt: HostRuntime) -> Result<(), Wrong> {
    expect_read_itself::<Page<Command>>(rt.alloc(), PAGES)?;
    expect_round_trip::<Ledger>(rt.alloc(), LEDGERS)
}
