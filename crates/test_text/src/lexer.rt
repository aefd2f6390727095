//! The lexer.

use crate::wrong::{Wrong, expect_ok};
use miniserde_model::error::{Error, Result};
use miniserde_text::json::lex::{After, Event, Kind, Lexer, Text};
use std::alloc::Global;

/// Returns the word for an error. No test expects that an allocation fails.
fn error(error: Error) -> &'static str {
    match error {
        Error::Invalid => "invalid",
        Error::Memory => "memory",
    }
}

/// Returns the word for the front of a value, or for its error.
fn front(event: Result<Event<'_>>) -> &'static str {
    match event {
        Ok(Event::Null) => "null",
        Ok(Event::Bool(true)) => "true",
        Ok(Event::Bool(false)) => "false",
        Ok(Event::Negative(_)) => "negative",
        Ok(Event::Nonnegative(_)) => "nonnegative",
        Ok(Event::Number(_)) => "number",
        Ok(Event::Str(Text::Input(_))) => "borrowed",
        Ok(Event::Str(Text::Scratch)) => "decoded",
        Ok(Event::SeqStart) => "seq",
        Ok(Event::MapStart) => "map",
        Err(refusal) => error(refusal),
    }
}

/// Returns whether a front is a word and has a content: a number or a text, or nothing.
fn is_front(event: Result<Event<'_>>, scratch: &str, word: &str, content: &str) -> bool {
    let has_content = match event {
        Ok(Event::Negative(n)) => content.parse::<i64>().ok() == Some(n),
        Ok(Event::Nonnegative(n)) => content.parse::<u64>().ok() == Some(n),
        Ok(Event::Number(text)) => text == content,
        Ok(Event::Str(Text::Input(text))) => text == content,
        Ok(Event::Str(Text::Scratch)) => scratch == content,
        _ => content == "",
    };
    has_content & (front(event) == word)
}

/// Makes the call of the lexer that a word names: `start`, `escaped`, `name`, `end`, or `after`, as `first of [` and
/// `next of {`. Returns whether it answers as expected, and whether `start_checked` and `name_checked` take as much as
/// `start` and `name` do, from the same place.
fn is_answer(lexer: &mut Lexer<'_>, scratch: &mut String, call: &str, expected: &str) -> bool {
    let (word, content) = expected.split_once(' ').unwrap_or((expected, ""));
    let mut other = lexer.fork();
    match call {
        "start" => {
            let is_taken = front(other.start_checked(scratch)) == word;
            let event = lexer.start(scratch);
            is_taken
                & is_front(event, scratch.as_str(), word, content)
                & (lexer.left() == other.left())
        }
        "escaped" => {
            let event = lexer.start_escaped(scratch);
            is_front(event, scratch.as_str(), word, content)
        }
        "name" => {
            let is_taken = front(other.name_checked(scratch).map(Event::Str)) == word;
            let name = lexer.name(scratch).map(Event::Str);
            is_taken
                & is_front(name, scratch.as_str(), word, content)
                & (lexer.left() == other.left())
        }
        "end" => match lexer.end() {
            Ok(()) => word == "ok",
            Err(refusal) => word == error(refusal),
        },
        _ => {
            let kind = if call.ends_with('[') {
                Kind::Seq
            } else {
                Kind::Map
            };
            match lexer.after(kind, call.starts_with("first")) {
                Ok(After::Next) => word == "next",
                Ok(After::Close) => word == "close",
                Err(refusal) => word == error(refusal),
            }
        }
    }
}

/// Returns whether the calls on the lexer of a text answer as expected, and leave the scratch text unless a string is
/// decoded or refused. A word with no call is what `start` answers.
pub fn is_right(alloc: Global, text: &str, calls: &str) -> Result<bool> {
    let mut scratch = String::from_str(alloc, "unchanged")?;
    let mut lexer = Lexer::new(text);
    for item in calls.split("; ") {
        let (call, expected) = item.split_once(": ").unwrap_or(("start", item));
        if !is_answer(&mut lexer, &mut scratch, call, expected) {
            return Ok(false);
        }
    }
    let may_change = calls.contains("decoded") | calls.contains("invalid");
    Ok(may_change | (scratch.as_str() == "unchanged"))
}

/// Fails with the first wrong line of a table, if any: a text, ` => ` and its front, or calls on its lexer with their
/// answers, or a text alone that is invalid at its front.
fn expect_answers(alloc: Global, table: &'static str) -> std::result::Result<(), Wrong> {
    for line in table.lines() {
        let (text, calls) = line.split_once(" => ").unwrap_or((line, "invalid"));
        expect_ok(is_right(alloc, text, calls), line)?;
    }
    Ok(())
}

const NUMBERS: &str = "-9223372036854775808 => negative -9223372036854775808\n\
    -9223372036854775809 => number -9223372036854775809\n\
    -0 => negative 0\n\
    -17 => negative -17\n\
    0 => nonnegative 0\n\
    9999999999999999999 => nonnegative 9999999999999999999\n\
    10000000000000000000 => nonnegative 10000000000000000000\n\
    18446744073709551615 => nonnegative 18446744073709551615\n\
    18446744073709551616 => number 18446744073709551616\n\
    99999999999999999999 => number 99999999999999999999\n\
    1.50  => number 1.50\n\
    1.50] => number 1.50\n\
    1e400 => number 1e400\n\
    1E2 => number 1E2\n\
    -2E-3, => number -2E-3\n\
    -0.0 => number -0.0\n\
    -0e0 => number -0e0\n\
    0e+00 => number 0e+00\n\
    -1 => negative -1\n\
    9223372036854775807 => nonnegative 9223372036854775807\n\
    9223372036854775808 => nonnegative 9223372036854775808\n\
    01\n1.\n1e\n1-\n-\n+1\n.5\n-01\n00\n1.e5\n1e+\n1E-\n--1\n-a\nNaN\nInfinity";

const WORDS: &str = " null => null\n\
    true => true\n\
    false => false\n\
    \tnull => null\n\
    \rnull => null\n\
    [ => seq\n\
    { => map\n\
    nul\n\
    \n \n\
    ]\n\
    }\n\
    ,\n\
    :\n\
    Null\n\
    tru\n\
    fals\n\
    \u{b}null\n\
    \u{c}null\n\
    \u{a0}null\n\
    \u{feff}null";

#[test]
fn a_number_is_an_integer_in_range_or_a_text_or_invalid(
    rt: HostRuntime,
) -> std::result::Result<(), Wrong> {
    let alloc = rt.alloc();
    expect_answers(alloc, NUMBERS)?;
    expect_answers(alloc, WORDS)?;
    expect_ok(
        is_right(alloc, "\t\n\r false", "false"),
        "a line feed before a word",
    )
}

const BORROWED: &str = "\"ab\" => borrowed ab\n\
    \"a\u{7f}\" => borrowed a\u{7f}\n\
    \"\" => borrowed \n\
    \" \" => borrowed  \n\
    \"/\" => borrowed /\n\
    \"\u{80}\u{7ff}\u{800}\u{ffff}\u{10000}\u{10ffff}\" => borrowed \u{80}\u{7ff}\u{800}\u{ffff}\u{10000}\u{10ffff}";

#[test]
fn a_string_with_no_escape_is_borrowed(rt: HostRuntime) -> std::result::Result<(), Wrong> {
    expect_answers(rt.alloc(), BORROWED)
}

const ESCAPES: &str = "\"a\\u0062\" => decoded ab\n\
    \"\\ud83d\\ude00\" => decoded \u{1f600}\n\
    \"\\uDBFF\\uDFFF\" => decoded \u{10ffff}\n\
    \"\\ud800\\udc00\" => decoded \u{10000}\n\
    \"\\ud800\\udfff\" => decoded \u{103ff}\n\
    \"\\udbff\\udc00\" => decoded \u{10fc00}\n\
    \"\\ud7ff\" => decoded \u{d7ff}\n\
    \"\\ue000\" => decoded \u{e000}\n\
    \"\\u0000\" => decoded \0\n\
    \"\\u007f\\u0080\" => decoded \u{7f}\u{80}\n\
    \"\\u07ff\\u0800\" => decoded \u{7ff}\u{800}\n\
    \"\\uFFFF\" => decoded \u{ffff}\n\
    \"\\\"\" => decoded \"\n\
    \"\\\\\" => decoded \\\n\
    \"\\/\" => decoded /\n\
    \"\\b\" => decoded \x08\n\
    \"\\f\" => decoded \x0c\n\
    \"\\t\" => decoded \t\n\
    \"\\r.\" => decoded \r.";

/// What stands in the scratch text by the escape rule.
const ESCAPED: &str = "\"ab\" => escaped: borrowed ab\n\
    17 => escaped: nonnegative 17\n\
    \"a\\u0062\" => escaped: decoded ab\n\
    \"ab\\ncd\" => escaped: decoded ab\\ncd\n\
    \"\\ud83d\\ude00\" => escaped: decoded \u{1f600}\n\
    \"\\u0000\\u001F\" => escaped: decoded \\u0000\\u001f\n\
    \"\\\"\\\\\\/\" => escaped: decoded \\\"\\\\/\n\
    \"\\u0022\\u005c\\u002f\" => escaped: decoded \\\"\\\\/\n\
    \"\\b\\f\\n\\r\\t\" => escaped: decoded \\b\\f\\n\\r\\t\n\
    \"\\u0008\\u000c\\u000a\\u000d\\u0009\" => escaped: decoded \\b\\f\\n\\r\\t\n\
    \"\\u007f\\u0080\\u00e9\" => escaped: decoded \u{7f}\u{80}\u{e9}\n\
    \"\\ud800\" => escaped: invalid\n\
    \"\\n => escaped: invalid";

const SURROGATES: &str = "\"\\ud800\"\n\
    \"\\ud800x\"\n\
    \"\\ude00\\ud83d\"\n\
    \"\\udbff\"\n\
    \"\\udc00\"\n\
    \"\\udfff\"\n\
    \"\\ud800\\n\"\n\
    \"\\ud800\\ud800\"\n\
    \"\\ud800\\ue000\"\n\
    \"\\ud800\\udbff\"\n\
    \"\\ud800\\u\"\n\
    \"\\ud800\\";

// Behind an escape the last two lines never close. Memory is there.
const BROKEN: &str = "\"a\n\
    \"\n\
    \"\\\n\
    \"\\\"\n\
    \"\\x\"\n\
    \"\\u12\"\n\
    \"\\u\"\n\
    \"\\u123g\"\n\
    \"\\U0041\"\n\
    \"\\N\"\n\
    \"\\ \"\n\
    \"\0\"\n\
    \"\t\"\n\
    \"\r\"\n\
    \"a\u{1f}\"\n\
    'a'\n\
    \"\\n\n\
    \"\\n\u{1f}";

#[test]
fn each_escape_is_decoded_or_invalid(rt: HostRuntime) -> std::result::Result<(), Wrong> {
    let alloc = rt.alloc();
    for table in [ESCAPES, ESCAPED, SURROGATES, BROKEN] {
        expect_answers(alloc, table)?;
    }
    let text = "\"\u{e9}\\u00E9\\b\\f\\n\\r\\t\\/\\\\\\\"\"";
    let decoded = "decoded \u{e9}\u{e9}\x08\x0c\n\r\t/\\\"";
    expect_ok(is_right(alloc, text, decoded), "each escape")?;
    expect_ok(
        is_right(alloc, "\"a\nb\"", "invalid"),
        "a line feed in a string",
    )
}

const CALLS: &str =
    "[1 , true] => start: seq; first of [: next; start: nonnegative 1; next of [: next; start: true; \
    next of [: close; end: ok\n\
    { } => start: map; first of {: close; end: ok\n\
    { \"k\" : null, \"\\u0061\" :0} => start: map; first of {: next; name: borrowed k; start: null; \
    next of {: next; name: decoded a; start: nonnegative 0; next of {: close\n\
    \"ab\"  => start: borrowed ab; end: ok\n\
    [ ] => start: seq; first of [: close; end: ok\n\
    [[]] => start: seq; first of [: next; start: seq; first of [: close; next of [: close; end: ok";

// In the line with `\\n` a decoded name has no colon behind it. Memory is there.
const BROKEN_CALLS: &str =
    "[} => start: seq; first of [: invalid; first of {: invalid; start: invalid; name: invalid; end: invalid\n\
    \x201 => end: invalid; start: invalid\n\
    {] => start: map; first of {: invalid; next of {: invalid; end: invalid\n\
    [1,] => start: seq; first of [: next; start: nonnegative 1; next of [: next; start: invalid\n\
    \"a\" 1 => name: invalid\n\
    {\"\\n\" 1} => start: map; first of {: next; name: invalid\n\
    {1:2} => start: map; first of {: next; name: invalid\n\
    [1 2] => start: seq; first of [: next; start: nonnegative 1; next of [: invalid\n\
    1 2 => start: nonnegative 1; end: invalid";

#[test]
fn calls_follow_the_grammar_of_containers(rt: HostRuntime) -> std::result::Result<(), Wrong> {
    expect_answers(rt.alloc(), CALLS)?;
    expect_answers(rt.alloc(), BROKEN_CALLS)
}
