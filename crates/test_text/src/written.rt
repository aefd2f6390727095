//! What strings, integers and words are written as.

use crate::wrong::{Wrong, expect, expect_ok};
use miniserde_keys::MapKey;
use miniserde_model::error::Result;
use miniserde_ser::ser::{Serialize, Writer, escape_str, to_string_and_normal};
use std::alloc::Global;
use std::str::FromStr;

/// Returns whether a value, whose tree is in normal form, is written as expected.
fn is_written<T: Serialize>(alloc: Global, value: &T, expected: &str) -> Result<bool> {
    let mut w = Writer::new(alloc);
    value.begin(&mut w)?;
    let (text, is_normal) = to_string_and_normal(alloc, value)?;
    Ok(is_normal && text.as_str() == expected && w.into_string()?.as_str() == expected)
}

/// Fails with the first line of a table that is no value of a type, or that is not written as it stands there, if any.
fn expect_alike<T: Serialize + FromStr + Drop>(
    alloc: Global,
    table: &'static str,
) -> std::result::Result<(), Wrong>
where
    T::Err: Drop,
{
    for line in table.lines() {
        let is_right = match line.parse::<T>() {
            Ok(value) => matches!(is_written(alloc, &value, line), Ok(true)),
            Err(_) => false,
        };
        expect(is_right, line)?;
    }
    Ok(())
}

#[test]
fn an_integer_is_written_as_its_digits(rt: HostRuntime) -> std::result::Result<(), Wrong> {
    let alloc = rt.alloc();
    expect_alike::<u8>(alloc, "0\n255\n9\n10\n99\n100")?;
    expect_alike::<u16>(alloc, "0\n65535")?;
    expect_alike::<u32>(alloc, "0\n4294967295")?;
    expect_alike::<u64>(alloc, "0\n18446744073709551615")?;
    expect_alike::<usize>(alloc, "0\n18446744073709551615")?;
    expect_alike::<i8>(alloc, "-128\n127\n-1\n0")?;
    expect_alike::<i16>(alloc, "-32768\n32767\n-1\n0")?;
    expect_alike::<i32>(alloc, "-2147483648\n2147483647\n-1\n0")?;
    expect_alike::<i64>(alloc, "-9223372036854775808\n9223372036854775807\n-1\n0")?;
    expect_alike::<isize>(alloc, "-9223372036854775808\n9223372036854775807\n-1\n0")?;
    expect_alike::<bool>(alloc, "true\nfalse")?;
    expect_ok(is_written(alloc, &(), "null"), "unit")
}

/// Returns whether a text is escaped as expected: behind other text, as a `&str` and as a `String`.
fn is_escaped(alloc: Global, text: &str, expected: &str) -> Result<bool> {
    let mut out = String::from_str(alloc, "x")?;
    escape_str(text, &mut out)?;
    let is_appended = matches!(out.as_str().strip_prefix("x"), Some(text) if text == expected);
    let own = String::from_str(alloc, text)?;
    Ok(is_appended && is_written(alloc, &text, expected)? && is_written(alloc, &own, expected)?)
}

/// A line is a text, ` => `, and what it is written as.
const ESCAPES: &str = " => \"\"\n\
    \u{1}/ => \"\\u0001/\"\n\
    \u{8} => \"\\b\"\n\
    \u{b}\u{1f}\u{0} => \"\\u000b\\u001f\\u0000\"\n\
    \u{7f}\u{e9}\u{20ac}\u{1f600} => \"\u{7f}\u{e9}\u{20ac}\u{1f600}\"\n\
    \u{e9}\\\u{1f600} => \"\u{e9}\\\\\u{1f600}\"\n\
    \" => \"\\\"\"\n\
    \\ => \"\\\\\"\n\
    \t => \"\\t\"\n\
    \u{c} => \"\\f\"\n\
    \r => \"\\r\"\n\
    \u{0} => \"\\u0000\"\n\
    \u{1} => \"\\u0001\"\n\
    \u{2} => \"\\u0002\"\n\
    \u{3} => \"\\u0003\"\n\
    \u{4} => \"\\u0004\"\n\
    \u{5} => \"\\u0005\"\n\
    \u{6} => \"\\u0006\"\n\
    \u{7} => \"\\u0007\"\n\
    \u{b} => \"\\u000b\"\n\
    \u{e} => \"\\u000e\"\n\
    \u{f} => \"\\u000f\"\n\
    \u{10} => \"\\u0010\"\n\
    \u{11} => \"\\u0011\"\n\
    \u{12} => \"\\u0012\"\n\
    \u{13} => \"\\u0013\"\n\
    \u{14} => \"\\u0014\"\n\
    \u{15} => \"\\u0015\"\n\
    \u{16} => \"\\u0016\"\n\
    \u{17} => \"\\u0017\"\n\
    \u{18} => \"\\u0018\"\n\
    \u{19} => \"\\u0019\"\n\
    \u{1a} => \"\\u001a\"\n\
    \u{1b} => \"\\u001b\"\n\
    \u{1c} => \"\\u001c\"\n\
    \u{1d} => \"\\u001d\"\n\
    \u{1e} => \"\\u001e\"\n\
    \u{1f} => \"\\u001f\"\n\
    \x20 => \" \"\n\
    / => \"/\"\n\
    \u{80}\u{7ff}\u{800}\u{ffff}\u{10000}\u{10ffff} => \"\u{80}\u{7ff}\u{800}\u{ffff}\u{10000}\u{10ffff}\"";

/// Texts of 31, 32, 33 and 64 letters, and with a quote in front of, behind and between them.
const LONG: &str = "abcdefghijklmnopqrstuvwxyzabcde => \"abcdefghijklmnopqrstuvwxyzabcde\"\n\
    abcdefghijklmnopqrstuvwxyzabcdef => \"abcdefghijklmnopqrstuvwxyzabcdef\"\n\
    abcdefghijklmnopqrstuvwxyzabcdefg => \"abcdefghijklmnopqrstuvwxyzabcdefg\"\n\
    abcdefghijklmnopqrstuvwxyzabcdefghijklmnopqrstuvwxyzabcdefghijkl => \"abcdefghijklmnopqrstuvwxyzabcdefghijklmnopqrstuvwxyzabcdefghijkl\"\n\
    \"abcdefghijklmnopqrstuvwxyzabcde => \"\\\"abcdefghijklmnopqrstuvwxyzabcde\"\n\
    \"abcdefghijklmnopqrstuvwxyzabcdef => \"\\\"abcdefghijklmnopqrstuvwxyzabcdef\"\n\
    \"abcdefghijklmnopqrstuvwxyzabcdefg => \"\\\"abcdefghijklmnopqrstuvwxyzabcdefg\"\n\
    \"abcdefghijklmnopqrstuvwxyzabcdefghijklmnopqrstuvwxyzabcdefghijkl => \"\\\"abcdefghijklmnopqrstuvwxyzabcdefghijklmnopqrstuvwxyzabcdefghijkl\"\n\
    abcdefghijklmnopqrstuvwxyzabcde\" => \"abcdefghijklmnopqrstuvwxyzabcde\\\"\"\n\
    abcdefghijklmnopqrstuvwxyzabcdef\" => \"abcdefghijklmnopqrstuvwxyzabcdef\\\"\"\n\
    abcdefghijklmnopqrstuvwxyzabcdefg\" => \"abcdefghijklmnopqrstuvwxyzabcdefg\\\"\"\n\
    abcdefghijklmnopqrstuvwxyzabcdefghijklmnopqrstuvwxyzabcdefghijkl\" => \"abcdefghijklmnopqrstuvwxyzabcdefghijklmnopqrstuvwxyzabcdefghijkl\\\"\"\n\
    abcdefghijklmno\"pqrstuvwxyzabcde => \"abcdefghijklmno\\\"pqrstuvwxyzabcde\"\n\
    abcdefghijklmnop\"qrstuvwxyzabcdef => \"abcdefghijklmnop\\\"qrstuvwxyzabcdef\"\n\
    abcdefghijklmnop\"qrstuvwxyzabcdefg => \"abcdefghijklmnop\\\"qrstuvwxyzabcdefg\"\n\
    abcdefghijklmnopqrstuvwxyzabcdef\"ghijklmnopqrstuvwxyzabcdefghijkl => \"abcdefghijklmnopqrstuvwxyzabcdef\\\"ghijklmnopqrstuvwxyzabcdefghijkl\"";

#[test]
fn quotes_backslashes_and_control_characters_are_escaped(
    rt: HostRuntime,
) -> std::result::Result<(), Wrong> {
    let alloc = rt.alloc();
    for line in ESCAPES.lines().chain(LONG.lines()) {
        let (text, expected) = line.split_once(" => ").unwrap_or((line, ""));
        expect_ok(is_escaped(alloc, text, expected), line)?;
    }
    expect_ok(
        is_escaped(
            alloc,
            "\u{8}\u{9}\u{a}\u{c}\u{d}\"\\",
            "\"\\b\\t\\n\\f\\r\\\"\\\\\"",
        ),
        "each short escape",
    )?;
    expect_ok(is_escaped(alloc, "ab\ncd\n", "\"ab\\ncd\\n\""), "two lines")?;
    expect_ok(
        is_escaped(
            alloc,
            "\u{0}\u{1}\u{7}\u{8}\u{9}\u{a}\u{b}\u{c}\u{d}\u{e}\u{1f}",
            "\"\\u0000\\u0001\\u0007\\b\\t\\n\\u000b\\f\\r\\u000e\\u001f\"",
        ),
        "control characters in a row",
    )
}

/// Returns whether one key is known to precede another, and the other not to precede it.
fn is_before(alloc: Global, name: &str, later: &str) -> Result<bool> {
    let (name, later) = (
        String::from_str(alloc, name)?,
        String::from_str(alloc, later)?,
    );
    Ok(name.precedes(&later) && !later.precedes(&name) && !name.precedes(&name))
}

#[test]
fn names_precede_in_byte_order(rt: HostRuntime) -> std::result::Result<(), Wrong> {
    for (name, later) in [("", "a"), ("a", "ab"), ("B", "a"), ("z", "é")] {
        expect_ok(is_before(rt.alloc(), name, later), name)?;
    }
    // Of integers nothing is known: 10 comes before 9 as a name.
    expect(!9u8.precedes(&10) && !10u8.precedes(&9), "9")
}
