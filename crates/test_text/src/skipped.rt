//! Values that are skipped must be grammatical.

use crate::wrong::{Wrong, expect, expect_ok};
use miniserde_model::error::{Error, Result};
use miniserde_read::{Ignored, Source, check_json, from_str, skip_due};
use miniserde_text::json::lex::Event;
use std::alloc::Global;

/// Returns whether the whole text is skipped, and the text alone by `skip_due`, with `2` behind it.
fn is_skipped(alloc: Global, text: &str) -> Result<bool> {
    let mut joined = String::from_str(alloc, text)?;
    joined.push_str(" 2")?;
    let mut source = Source::new(alloc, joined.as_str());
    skip_due(&mut source)?;
    let behind = source.token()?;
    let _skipped: Ignored = from_str(alloc, text)?;
    check_json(alloc, text)?;
    Ok(matches!(behind, Event::Nonnegative(2)))
}

const VALUES: &str = r#"null
true
-0
1e400
"\ud83d\ude00"
[]
{}
[[],{"a":[1,{}]},"]"]
 { "a" : 1 , "a" : [ ] } "#;

#[test]
fn any_value_is_skipped(rt: HostRuntime) -> std::result::Result<(), Wrong> {
    for text in VALUES.lines() {
        expect_ok(is_skipped(rt.alloc(), text), text)?;
    }
    Ok(())
}

const INVALID: &str = r#"
[1,]
[1 2]
{"a"}
{"a":}
{"a":1,}
[}
{]
[[]
01
"\ud83d"
null null
{1:2}"#;

#[test]
fn what_is_no_value_is_invalid(rt: HostRuntime) -> std::result::Result<(), Wrong> {
    for text in INVALID.lines() {
        let skipped: Result<Ignored> = from_str(rt.alloc(), text);
        expect(matches!(skipped, Err(Error::Invalid)), text)?;
        let checked = check_json(rt.alloc(), text);
        expect(matches!(checked, Err(Error::Invalid)), text)?;
    }
    Ok(())
}
