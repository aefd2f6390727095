//! Canonical texts.

use crate::texts::nested;
use miniserde::error::{Error, Result};
use miniserde::json::value::canonical_by_value;
use miniserde::json::{canonical, canonical_both};
use std::alloc::Global;
use test_tables::{Wrong, expect, expect_ok, is_right, text_of};

/// Returns whether a text has the canonical text of its line, which is no longer, its own canonical text, and what the
/// text is written as when it is read as a `Value`.
fn is_canonical(alloc: Global, line: &str) -> Result<bool> {
    let text = text_of(line);
    let answer = canonical(alloc, text)?;
    let again = canonical(alloc, answer.as_str())?;
    let by_value = canonical_by_value(alloc, text)?;
    Ok(
        answer.len() <= text.len()
            && again.as_str() == answer.as_str()
            && by_value.as_str() == answer.as_str()
            && is_right(Ok(answer), line),
    )
}

fn expect_canonical(alloc: Global, table: &'static str) -> std::result::Result<(), Wrong> {
    for line in table.lines() {
        expect_ok(is_canonical(alloc, line), line)?;
    }
    Ok(())
}

const DOCUMENTS: &str = r#"{"a":1,"b":-0} => {"a":1,"b":0}
 {"b":0,"a":2,"a":1} => {"a":1,"b":0}
{ "é" : "\u00e9\/" } => {"é":"é/"}
{"a":[[],[]],"a":-0} => {"a":0}
[{"b":{"d":1,"c":2},"a":[ ]}] => [{"a":[],"b":{"c":2,"d":1}}]
[1e2] => same
[100] => same
[1.0] => same
[1.00] => same
[-0.0] => same"#;

#[test]
fn order_repeats_and_space_count_for_nothing(rt: HostRuntime) -> std::result::Result<(), Wrong> {
    expect_canonical(rt.alloc(), DOCUMENTS)?;
    expect_ok(
        is_canonical(rt.alloc(), "\t[\r\n]   => []"),
        "each whitespace",
    )
}

/// Returns whether a text and its canonical text have these lengths in bytes.
fn has_lengths(alloc: Global, text: &str, lengths: (usize, usize)) -> Result<bool> {
    Ok((text.len(), canonical(alloc, text)?.len()) == lengths)
}

#[test]
fn a_canonical_text_is_the_shortest(rt: HostRuntime) -> std::result::Result<(), Wrong> {
    let alloc = rt.alloc();
    expect_ok(
        has_lengths(alloc, r#"{ "é" : "\u00e9\/" }"#, (21, 12)),
        "an escape and spaces",
    )?;
    expect_ok(
        has_lengths(alloc, r#""\u001F""#, (8, 8)),
        "a control character",
    )?;
    expect_ok(
        has_lengths(alloc, r#""\uD834\uDD1E""#, (14, 6)),
        "a pair of surrogates",
    )?;
    expect_ok(
        has_lengths(alloc, r#"{"a":[[],[]],"a":-0}"#, (20, 7)),
        "a repeat",
    )
}

const ESCAPES: &str = r#""\"" => same
"\u0022" => "\""
"\\" => same
"\u005c" => "\\"
"\u005C" => "\\"
"/" => same
"\/" => "/"
"\u002f" => "/"
"\u002F" => "/"
"\b" => same
"\u0008" => "\b"
"\t" => same
"\u0009" => "\t"
"\n" => same
"\u000a" => "\n"
"\u000A" => "\n"
"\f" => same
"\u000c" => "\f"
"\u000C" => "\f"
"\r" => same
"\u000d" => "\r"
"\u000D" => "\r""#;

#[test]
fn a_character_with_an_escape_of_its_own(rt: HostRuntime) -> std::result::Result<(), Wrong> {
    expect_canonical(rt.alloc(), ESCAPES)
}

const CHARACTERS: &str = "\"\\u0000\" => same
\"\\u000b\" => same
\"\\u000B\" => \"\\u000b\"
\"\\u001f\" => same
\"\\u001F\" => \"\\u001f\"
\" \" => same
\"\\u0020\" => \" \"
\"a\" => same
\"\\u0061\" => \"a\"
\"\u{7f}\" => same
\"\\u007f\" => \"\u{7f}\"
\"\u{80}\" => same
\"\\u0080\" => \"\u{80}\"
\"\u{7ff}\" => same
\"\\u07fF\" => \"\u{7ff}\"
\"\u{800}\" => same
\"\\u0800\" => \"\u{800}\"
\"\u{ffff}\" => same
\"\\uFfFf\" => \"\u{ffff}\"
\"\u{10000}\" => same
\"\\ud800\\udc00\" => \"\u{10000}\"
\"\u{1d11e}\" => same
\"\\uD834\\uDD1E\" => \"\u{1d11e}\"
\"\u{10ffff}\" => same
\"\\udbff\\uDFFF\" => \"\u{10ffff}\"";

#[test]
fn a_character_of_each_length(rt: HostRuntime) -> std::result::Result<(), Wrong> {
    expect_canonical(rt.alloc(), CHARACTERS)
}

/// Returns whether two texts have these canonical texts.
fn are_canonical(alloc: Global, texts: (&str, &str), expected: (&str, &str)) -> Result<bool> {
    let (left, right) = canonical_both(alloc, texts.0, texts.1)?;
    Ok((left.as_str(), right.as_str()) == expected)
}

/// Returns whether two texts are invalid together.
fn are_invalid(alloc: Global, left: &str, right: &str) -> bool {
    matches!(canonical_both(alloc, left, right), Err(Error::Invalid))
}

#[test]
fn two_texts_are_told_apart(rt: HostRuntime) -> std::result::Result<(), Wrong> {
    let alloc = rt.alloc();
    let (alike, canonical) = (r#"{"a":1,"b":-0}"#, r#"{"a":1,"b":0}"#);
    let texts = (alike, r#" {"b":0,"a":2,"a":1}"#);
    expect_ok(are_canonical(alloc, texts, (canonical, canonical)), "alike")?;
    expect_ok(
        are_canonical(alloc, ("[1e2]", "[100]"), ("[1e2]", "[100]")),
        "two numbers",
    )?;
    expect(are_invalid(alloc, "1", "[1"), "the second is invalid")?;
    expect(are_invalid(alloc, "[1", "1"), "the first is invalid")
}

const INVALID: &str = r#"
[1
{"a":1,}
"\ud800"
01
1 2"#;

#[test]
fn an_invalid_text_has_no_canonical_text(rt: HostRuntime) -> std::result::Result<(), Wrong> {
    for text in INVALID.lines() {
        expect(
            matches!(canonical(rt.alloc(), text), Err(Error::Invalid)),
            text,
        )?;
    }
    Ok(())
}

/// Returns whether a deep text that is canonical stays as it is.
fn is_deep_text_kept(alloc: Global) -> Result<bool> {
    let text = nested(alloc, 100_000, "{\"x\":[", "]}", "]}")?;
    Ok(canonical(alloc, text.as_str())?.as_str() == text.as_str())
}

#[test]
fn a_deep_text_is_canonical(rt: HostRuntime) -> std::result::Result<(), Wrong> {
    expect_ok(is_deep_text_kept(rt.alloc()), "100,000 objects and arrays")
}
