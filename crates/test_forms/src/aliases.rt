//! Fields that are read by other names too.

use crate::changes::Change;
use crate::hosts::Host;
use test_tables::{Wrong, expect_prefixes_invalid, expect_read_itself};

const HOSTS: &str = r#"{"name":"a","port":1} => same
{"host":"a","port":1} => {"name":"a","port":1}
{"hostname":"a"} => {"name":"a","port":80}
{"h\u006fst":"a","p":2,"remark":"r"} => {"name":"a","port":2,"of":"r"}
{"name":"a","host":"b"} => {"name":"b","port":80}
{"hostname":"c","host":"b","name":"a"} => {"name":"a","port":80}
{"of":"n","name":"a","remark":null} => {"name":"a","port":80}

{"host":1,"name":"a"}
{"name":"a","hostname":null}
{"name":"a","port":1,"p":1}
{"name":"a","p":1,"port":2}
{"name":"a","p":"1"}
{"Host":"a"}
{"hosts":"a"}
{"port":1}"#;

const RENAMED: &str = r#"{"name":"a","port":1,"of":"n"} => same
{"host":"a","remark":"n"} => {"name":"a","port":80,"of":"n"}
{"remark":"n","of":"m","name":"b"} => {"name":"b","port":80,"of":"m"}

{"remark":"n"}
{"name":"a","note":"n"}
{"name":"a","hostnames":1}
{"name":"a","three":1}
{"name":"a","port":1,"three":null}
{}"#;

const CHANGES: &str = r#"{"type":"Add","name":"a","port":1} => same
{"host":"a","type":"Add","p":1} => {"type":"Add","name":"a","port":1}
{"old":[1,2,3],"new":"b","type":"Mark"} => {"type":"Mark","at":[1,2,3],"note":"b"}
{"type":"Mark","old":[1,2,3],"note":"b","at":[4,5,6],"new":"d"} => {"type":"Mark","at":[4,5,6],"note":"d"}

{"type":"Mark","new":"a"}
{"type":"Mark","new":"a","host":"b"}
{"type":"Add","old":"a"}
{"old":[1,2,3],"new":"b"}"#;

#[test]
fn an_alias_counts_as_the_name(rt: HostRuntime) -> Result<(), Wrong> {
    let alloc = rt.alloc();
    expect_read_itself::<Host>(alloc, HOSTS)?;
    expect_read_itself::<Host>(alloc, RENAMED)?;
    expect_read_itself::<Change>(alloc, CHANGES)?;
    expect_prefixes_invalid::<Host>(alloc, r#"{"p":1,"hostname":"a"}"#)
}
