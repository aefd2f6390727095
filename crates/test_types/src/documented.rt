//! The types of the crate `demo`.

use demo::{Demo, Example, Nested, Tag};
use miniserde::error::Result;
use miniserde::json::from_str;
use std::alloc::Global;
use test_tables::{Wrong, expect_ok, expect_prefixes_invalid, expect_round_trip, expect_table};

const DEMO: &str =
    r#" {"code": 200, "message": "reminiscent of Serde"}  => {"code":200,"message":"reminiscent of Serde"}
{"message":"a\/","c\u006fde":1} => {"code":1,"message":"a/"}
{"code":1,"message":"a","message":"b"} => {"code":1,"message":"b"}
{"code":1,"code":2,"message":""} => {"code":2,"message":""}
{"code":1,"code":"x","message":""}
{"code":"x","code":1,"message":""}
{"code":1}
{"message":""}
{"code":4294967296,"message":""}
{"code":null,"message":""}
{"code":1,"message":"",}
{"Code":1,"message":""}
{}
[1,""]
[]
{"code": 1, "message": "", "z": [{"q":[3]}]} => {"code":1,"message":""}
{"code": 1, "message": "", "z": [3}}
{"code": 1, "message": "", "z": 01}
{"code": 1, "message": "", "z"}"#;

const DEMOS: &str =
    r#"[{"message":"","code":1}, {"code":3,"message":"b"}] => [{"code":1,"message":""},{"code":3,"message":"b"}]"#;

#[test]
fn a_demo_has_both_its_fields(rt: HostRuntime) -> std::result::Result<(), Wrong> {
    expect_table::<Demo>(rt.alloc(), DEMO)?;
    expect_table::<Vec<Demo>>(rt.alloc(), DEMOS)?;
    expect_prefixes_invalid::<Demo>(
        rt.alloc(),
        r#"{"code":1,"z":[{"a":1}],"message":"\ud83d\ude00"}"#,
    )
}

const TAGS: &str = r#""A" => same
"renamedB" => same
"enum" => same
"\u0041" => "A"
"B"
"Enum"
"A "
1
null
["A"]"#;

const EXAMPLE: &str =
    r#" {"x": "X", "t1": "A", "t2": "renamedB", "t3": ["enum"], "struct": {"y": ["Y", "Y"]}}  => {"x":"X","t1":"A","t2":"renamedB","t3":["enum"],"struct":{"y":["Y","Y"],"z":null}}
{"x":"X","t1":"A","t2":"renamedB","t3":["enum"],"struct":{"y":["Y"]}} => {"x":"X","t1":"A","t2":"renamedB","t3":["enum"],"struct":{"y":["Y"],"z":null}}
{"x":"X","t1":"A","t2":"B","t3":["enum"],"struct":{}}
{"x":"X","t1":"A","t2":"renamedB","t3":["enum","enum"],"struct":{}}"#;

/// Returns whether a struct is read past an unknown member so many lists deep.
fn is_deep_member_skipped(alloc: Global, depth: u32) -> Result<bool> {
    let mut text = String::from_str(alloc, "{\"code\":1,\"z\":")?;
    for _ in 0..depth {
        text.push('[')?;
    }
    for _ in 0..depth {
        text.push(']')?;
    }
    text.push_str(",\"message\":\"\"}")?;
    let demo: Demo = from_str(alloc, text.as_str())?;
    Ok(demo.code == 1 && demo.message.is_empty())
}

#[test]
fn a_struct_of_structs_and_an_unknown_member_are_read(
    rt: HostRuntime,
) -> std::result::Result<(), Wrong> {
    let alloc = rt.alloc();
    expect_table::<Tag>(alloc, TAGS)?;
    expect_table::<Nested>(alloc, r#"{} => {"y":null,"z":null}"#)?;
    expect_round_trip::<Example>(alloc, EXAMPLE)?;
    expect_ok(is_deep_member_skipped(alloc, 200_000), "200,000 deep")
}
