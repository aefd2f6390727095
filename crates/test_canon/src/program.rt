//! The program over memory: what it writes, its status and its line.

use crate::wrong::{Wrong, expect_ok};
use miniserde_model::error::Result;
use miniserde_program::canon::{Counted, program};
use std::alloc::Global;

/// What the program answers: its status and its line, and what it writes.
type Answer<'a> = (u8, &'a str, &'a [u8]);

const REFUSED: Answer<'static> = (1, "canon: invalid text", b"");

const USAGE: Answer<'static> = (2, "usage: canon [--unique]", b"");

/// Returns whether the program answers so to its arguments and its input, which it reads unless its status is 2.
fn is_answered(alloc: Global, said: &[&str], input: &[u8], expected: Answer<'_>) -> Result<bool> {
    let mut words = Vec::new(alloc);
    for word in said {
        words.push(String::from_str(alloc, word)?)?;
    }
    let mut r = Counted::new(input);
    let mut w = Counted::new(Vec::new(alloc));
    let (status, line) = program(alloc, words.as_slice(), &mut r, &mut w);
    let written: Vec<u8> = w.into_inner();
    let is_unread = r.into_inner() == input;
    Ok((status, line, written.as_slice()) == expected && (status != 2 || is_unread))
}

/// Fails with the first line of a table to which the program does not answer as it says, if any. A line is a text,
/// ` => ` and its canonical text, or `same`, or a text that is refused.
fn expect_program(
    alloc: Global,
    said: &[&str],
    table: &'static str,
) -> std::result::Result<(), Wrong> {
    for line in table.lines() {
        let (text, expected) = match line.split_once(" => ") {
            Some((text, "same")) => (text, (0, "", text.as_bytes())),
            Some((text, output)) => (text, (0, "", output.as_bytes())),
            None => (line, REFUSED),
        };
        expect_ok(is_answered(alloc, said, text.as_bytes(), expected), line)?;
    }
    Ok(())
}

const DOCUMENTS: &str = r#"[1, 2 ,18446744073709551615] => [1,2,18446744073709551615]
 [ ]  => []
{"\u0061":1,"a":2}  => {"a":2}
[-0] => [0]
[-1] => same
[18446744073709551616] => same
[1.5] => same
[[1]] => same
7 => same
{} => same
{"b" : null,"a" : [true]} => {"a":[true],"b":null}
"é\u00e9" => "éé"
[1,2,]
[01]
[1 2]
[1]]
[}

[,1]
[1"#;

#[test]
fn a_document_is_written_canonically(rt: HostRuntime) -> std::result::Result<(), Wrong> {
    let alloc = rt.alloc();
    expect_program(alloc, &[], DOCUMENTS)?;
    expect_ok(
        is_answered(alloc, &[], b"\t[0\r\n]\n", (0, "", b"[0]")),
        "each whitespace",
    )?;
    for bytes in [b"[\x0c1]".as_slice(), b"\xff", b"\"\xc3\""] {
        let refused = is_answered(alloc, &[], bytes, REFUSED);
        expect_ok(refused, "a form feed, or no UTF-8")?;
    }
    Ok(())
}

const UNIQUE: &str = r#"{"a":-0} => {"a":0}
[{"a":1}, {"a":1}] => [{"a":1},{"a":1}]
{"b":2,"a":1,"a":3}
[{"a":0,"\u0061":0}]
[1"#;

#[test]
fn a_repeated_name_is_refused_where_asked(rt: HostRuntime) -> std::result::Result<(), Wrong> {
    expect_program(rt.alloc(), &["--unique"], UNIQUE)
}

#[test]
fn other_words_are_refused_before_anything_is_read(
    rt: HostRuntime,
) -> std::result::Result<(), Wrong> {
    for said in [
        ["x"].as_slice(),
        &["--unique", "x"],
        &["--unique", "--unique"],
        &["--uniqu"],
        &[""],
    ] {
        let refused = is_answered(rt.alloc(), said, b"[1]", USAGE);
        expect_ok(refused, "other words")?;
    }
    Ok(())
}

/// Returns whether a document of more than a million bytes is written canonically.
fn is_large_document_written(alloc: Global) -> Result<bool> {
    let mut input = String::from_str(alloc, "[0")?;
    let mut output = String::from_str(alloc, "[0")?;
    for _ in 0..300_000u32 {
        input.push_str(", -0")?;
        output.push_str(",0")?;
    }
    input.push_str("]")?;
    output.push_str("]")?;
    let expected = (0, "", output.as_bytes());
    Ok(input.len() > 1_000_000 && is_answered(alloc, &[], input.as_bytes(), expected)?)
}

#[test]
fn a_document_of_a_million_bytes(rt: HostRuntime) -> std::result::Result<(), Wrong> {
    expect_ok(is_large_document_written(rt.alloc()), "a large document")
}
