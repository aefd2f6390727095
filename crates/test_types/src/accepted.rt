//! Which texts have a tree: the engine with the place that takes everything.

use miniserde::de::ignore;
use miniserde::error::{Error, Result};
use miniserde::json::feed;
use std::alloc::Global;
use test_tables::{Wrong, expect, expect_ok};

/// Returns what the place that takes everything answers to a text.
fn ignored(alloc: Global, text: &str) -> Result<()> {
    feed(alloc, text, &mut ignore())
}

const WITH_A_TREE: &str = r#"{"a":[1,{"b":[ ]}],"a":1e400}
 [ ] 
{ }
null
-0
1.50
-1E+2
"\ud83d\ude00"
 {"code": 200, "message": "reminiscent of Serde"} "#;

#[test]
fn a_text_with_a_tree_is_accepted(rt: HostRuntime) -> std::result::Result<(), Wrong> {
    for text in WITH_A_TREE.lines() {
        expect(ignored(rt.alloc(), text).is_ok(), text)?;
    }
    Ok(())
}

const WITH_NONE: &str = r#"{"a":[1}]
{"a" 1}
{"a":1,}
{1:2}
{,}
[]]
 true && false 
[}

 
[1,2,]
01
1.
-
+1
.5
1e
"\ud800"
{"a":1 "b":2}
["a" 1]"#;

#[test]
fn a_text_with_none_is_invalid(rt: HostRuntime) -> std::result::Result<(), Wrong> {
    for text in WITH_NONE.lines() {
        expect(
            matches!(ignored(rt.alloc(), text), Err(Error::Invalid)),
            text,
        )?;
    }
    expect(
        matches!(ignored(rt.alloc(), "\x0c1"), Err(Error::Invalid)),
        "a form feed",
    )
}

/// Returns whether a million open lists are refused, and taken with their ends.
fn is_closed_alone(alloc: Global) -> Result<bool> {
    let mut text = String::new(alloc);
    for _ in 0..1_000_000u32 {
        text.push('[')?;
    }
    let open = ignored(alloc, text.as_str());
    for _ in 0..1_000_000u32 {
        text.push(']')?;
    }
    Ok(matches!(open, Err(Error::Invalid)) && ignored(alloc, text.as_str()).is_ok())
}

#[test]
fn a_million_open_lists(rt: HostRuntime) -> std::result::Result<(), Wrong> {
    expect_ok(is_closed_alone(rt.alloc()), "a million open lists")
}
