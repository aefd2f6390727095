//! Texts of each type, and what their values are written as.

use crate::answers::Answer;
use crate::calls::at_port;
use crate::kinds::{Counts, Setting, Work};
use crate::lists::OneOrMany;
use crate::notes::Note;
use crate::peers::Peer;
use crate::places::Row;
use crate::reports::{Asked, Health, Report};
use crate::settings::Settings;
use miniserde::Result;
use miniserde::json::{Document, Value, from_str, to_string};
use std::alloc::Global;
use test_tables::{
    Wrong, expect, expect_ok, expect_one_value, expect_read_itself, expect_table, is_right, text_of,
};

#[test]
fn one_or_many(rt: HostRuntime) -> std::result::Result<(), Wrong> {
    expect_read_itself::<OneOrMany>(
        rt.alloc(),
        r#""a" => same
 "a\n"  => "a\n"
[] => same
 [ "a", "b\\" ]  => ["a","b\\"]
[1]
null
true
1
{}
["a"
"a" "b""#,
    )
}

#[test]
fn answers(rt: HostRuntime) -> std::result::Result<(), Wrong> {
    expect_read_itself::<Answer>(
        rt.alloc(),
        r#""a" => same
null => same
{"retries":3,"other":[null]} => {"retries":3,"name":null}
{"name":"\u0061", "retries":3} => {"retries":3,"name":"a"}
{}
{"retries":256}
[]
true
-1
1.5
nul
"a"#,
    )
}

#[test]
fn rows(rt: HostRuntime) -> std::result::Result<(), Wrong> {
    expect_read_itself::<Row>(
        rt.alloc(),
        r#"{"places":[]} => {"places":[],"tags":null}
{"tags":["a"], "places":[ 80, "x", {"name":"n","port":1}, [2, true] ]} => {"places":[80,"x",{"port":1,"name":"n"},[2,true]],"tags":["a"]}
{"places":[65536]}
{"places":[-0]}
{"places":[null]}
{"places":[{"port":1}]}
{"places":[[1]]}
{"places":[],"tags":{}}"#,
    )
}

#[test]
fn each_kind(rt: HostRuntime) -> std::result::Result<(), Wrong> {
    expect_table::<Work>(
        rt.alloc(),
        r#""Stop" => same
{"Go":3} => same
["High",true,7,{"kind":"Added","id":1},{"kind":"Cleared"},null] => same
null => same
8 => same
"High"
true
["Stop"]"#,
    )?;
    expect_table::<Setting>(rt.alloc(), "\"Low\" => same\n65535 => same\n65536\n[]\n{}")?;
    expect_read_itself::<Counts>(
        rt.alloc(),
        r#"1 => same
null => same
"1" => same
[null,2] => same
["1"]
256
{}"#,
    )
}

#[test]
fn notes(rt: HostRuntime) -> std::result::Result<(), Wrong> {
    expect_read_itself::<Note>(
        rt.alloc(),
        r#"{"kind":"Text","data":"a"} => same
{ "data" : "a", "kind" : "Text" } => {"kind":"Text","data":"a"}
{"data":[1,2],"other":{},"kind":"Bytes"} => {"kind":"Bytes","data":[1,2]}
{"kind":"Ping"} => same
{"kind":"Ping","data":null} => {"kind":"Ping"}
{"kind":"Text"}
{"kind":"Text","data":1}
{"kind":"Text","data":1,"data":"a"}
{"kind":"Bytes","data":"a"}
{"data":"a"}"#,
    )
}

// Each line is a text, its canonical text, and what the value of both is written as.
#[test]
fn canonical_texts(rt: HostRuntime) -> std::result::Result<(), Wrong> {
    let alloc = rt.alloc();
    expect_one_value::<OneOrMany>(alloc, " [ \"\\u0061\" ] => [\"a\"]\n\"\\/\" => \"/\"")?;
    expect_one_value::<Note>(
        alloc,
        r#"{"kind":"Text","data":"\u0061"} => {"data":"a","kind":"Text"} => {"kind":"Text","data":"a"}"#,
    )?;
    expect_one_value::<Settings>(
        alloc,
        r#"{"port":7,"name":"x","z":-0,"a":1} => {"a":1,"name":"x","port":7,"z":0} => {"port":7,"name":"x","a":1,"z":0}"#,
    )
}

#[test]
fn other_members_are_read_itself(rt: HostRuntime) -> std::result::Result<(), Wrong> {
    expect_read_itself::<Settings>(
        rt.alloc(),
        r#"{"port":7,"name":"x"} => same
{"z":1,"name":"x","a":[],"port":7} => {"port":7,"name":"x","a":[],"z":1}
{"name":"x","z":1}"#,
    )
}

#[test]
fn an_alias_sets_the_field(rt: HostRuntime) -> std::result::Result<(), Wrong> {
    expect_read_itself::<Peer>(
        rt.alloc(),
        r#"{"name":"a","port":1} => same
{"host":"a","z":1,"p":2} => {"name":"a","port":2,"z":1}
{"z":1,"hostname":"a","y":null,"name":"b","host":"c"} => {"name":"c","port":80,"y":null,"z":1}
{"h\u006fst":"a","hosts":"b","Host":"c","labels":{}} => {"name":"a","port":80,"Host":"c","hosts":"b","labels":{}}
{"p":1,"p":2,"name":"a"} => {"name":"a","port":2}
{"host":1,"name":"a"}
{"name":"a","p":"1"}
{"p":1,"z":2}"#,
    )
}

#[test]
fn other_members_stand_beside_a_tag(rt: HostRuntime) -> std::result::Result<(), Wrong> {
    let alloc = rt.alloc();
    expect_read_itself::<Report>(
        alloc,
        r#"{"kind":"Up","load":1,"z":null} => same
{"z":[1],"load":1,"a":{},"kind":"Up"} => {"kind":"Up","load":1,"a":{},"z":[1]}
{"kind":"Moved","name":"n","x":1} => same
{"host":"n","x":1,"kind":"Moved"} => {"kind":"Moved","name":"n","x":1}
{"kind":"Down","x":1} => {"kind":"Down"}
{"kind":"Slow","path":"p","z":{}} => same
{"z":{},"url":"p","kind":"Slow"} => {"kind":"Slow","path":"p","z":{}}
{"kind":"Slow","z":{}}
{"kind":"Up","z":1}
{"kind":"Moved","name":"n","x":"1"}
{"load":1,"z":1}"#,
    )?;
    expect_read_itself::<Asked>(
        alloc,
        r#"{"Page":{"path":"p","z":"y"}} => same
{"Page":{"z":"y","a":"b","path":"p"}} => {"Page":{"path":"p","a":"b","z":"y"}}
"Nothing" => same
{"Page":{"path":"p","z":1}}
{"Page":{"z":"y"}}"#,
    )?;
    // Alone, a struct leaves out the tag too.
    expect_read_itself::<Health>(
        alloc,
        "{\"kind\":\"Up\",\"load\":1,\"z\":2} => {\"load\":1,\"z\":2}",
    )
}

// Each line is a text of settings, and its text at port 1.
const AT_PORT_1: &str = r#"{"port":7,"name":"x"} => {"port":1,"name":"x"}
{"z":-0,"name":"x","a":{"b":[1.50],"a":null},"port":7,"z":[],"note":"n"} => {"port":1,"name":"x","note":"n","a":{"a":null,"b":[1.50]},"z":[]}
{"na\u006de":"y","\u0061":1,"port":0} => {"port":1,"name":"y","a":1}
{"port":7,"name":"x","name":"y","names":0,"":1} => {"port":1,"name":"y","":1,"names":0}
{"port":7,"port":8,"name":"x"}
{"name":"x","z":1}
{"port":7,"name":"x","z":tru}
[]"#;

#[test]
fn other_members_are_kept(rt: HostRuntime) -> std::result::Result<(), Wrong> {
    for line in AT_PORT_1.lines() {
        expect(is_right(at_port(rt.alloc(), text_of(line), 1), line), line)?;
    }
    Ok(())
}

// Returns whether settings whose rest was given names of fields are written without these entries.
fn is_written_once(alloc: Global) -> Result<bool> {
    let mut settings: Settings = from_str(alloc, "{\"port\":7,\"name\":\"x\",\"z\":1}")?;
    let port = String::from_str(alloc, "port")?;
    settings.rest.insert(port, Document { value: Value::Null })?;
    let note = String::from_str(alloc, "note")?;
    settings.rest.insert(note, Document { value: Value::Null })?;
    let written = to_string(alloc, &settings)?;
    Ok(written.as_str() == "{\"port\":7,\"name\":\"x\",\"z\":1}")
}

#[test]
fn a_member_of_a_fields_name_is_not_written(rt: HostRuntime) -> std::result::Result<(), Wrong> {
    expect_ok(is_written_once(rt.alloc()), "a member of a field's name")
}

// Returns whether a peer whose labels were given aliases and names of fields is written without these entries.
fn has_no_alias(alloc: Global) -> Result<bool> {
    let mut peer: Peer = from_str(alloc, "{\"host\":\"a\",\"z\":1}")?;
    for name in ["host", "hostname", "name", "p", "port"] {
        let name = String::from_str(alloc, name)?;
        peer.labels.insert(name, Document { value: Value::Null })?;
    }
    let written = to_string(alloc, &peer)?;
    Ok(written.as_str() == "{\"name\":\"a\",\"port\":80,\"z\":1}")
}

#[test]
fn a_member_named_by_an_alias_is_not_written(rt: HostRuntime) -> std::result::Result<(), Wrong> {
    expect_ok(has_no_alias(rt.alloc()), "a member of an alias's name")
}

// Returns whether a report whose data was given a member of the tag's name is written without it.
fn has_one_tag(alloc: Global) -> Result<bool> {
    let mut health: Health = from_str(alloc, "{\"load\":1,\"z\":2}")?;
    let tag = String::from_str(alloc, "kind")?;
    health.more.insert(tag, Document { value: Value::Null })?;
    let written = to_string(alloc, &Report::Up(health))?;
    Ok(written.as_str() == "{\"kind\":\"Up\",\"load\":1,\"z\":2}")
}

#[test]
fn a_member_named_as_the_tag_is_not_written(rt: HostRuntime) -> std::result::Result<(), Wrong> {
    expect_ok(has_one_tag(rt.alloc()), "a member of the tag's name")
}
