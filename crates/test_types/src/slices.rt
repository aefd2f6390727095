//! Bytes: one value spans all of them, and they are UTF-8.

use miniserde::error::Result;
use miniserde::json::{Value, from_slice, to_string};
use miniserde::{FromJson, Serialize};
use std::alloc::Global;
use test_tables::{Wrong, expect, is_right};

/// Returns the text that the value of the bytes is written as.
fn written<T: FromJson + Serialize>(alloc: Global, bytes: &[u8]) -> Result<String> {
    let value: T = from_slice(alloc, bytes)?;
    to_string(alloc, &value)
}

/// Bytes, and what they are parsed to: the text after ` => `, or `Invalid` if there is none.
type Case = (&'static [u8], &'static str);

const DOCUMENTS: &[Case] = &[
    (b"[1, 2]", "[1, 2] => [1,2]"),
    (b" null\r\n", "spaced => null"),
    (b"[1] 2", "two values"),
    (b"[1]\x00", "a NUL behind the value"),
    (b"1\x002\x00", "UTF-16"),
    (b" ", "a space alone"),
    (b"", "an empty slice"),
    (b"\"\xc3\xa9\"", "\"é\" => same"),
    (b"\"\\u00e9\"", "escaped => \"é\""),
    (b"\"\xe2\x82\xac\"", "\"€\" => same"),
    (b"\"\xf0\x9f\x98\x80\"", "\"😀\" => same"),
    (b"{\"\xc3\xa9\": [true]}", "a key => {\"é\":[true]}"),
    (b"\"\xff\"", "0xff in a string"),
    (b"\"\x80\"", "a continuation byte alone"),
    (b"\"\xed\xa0\x80\"", "a surrogate half"),
    (
        b"\"\xed\xa0\xbd\xed\xb8\x80\"",
        "a surrogate pair, each half encoded",
    ),
    (b"\"\xc0\xaf\"", "an overlong slash"),
    (b"\"\xf4\x90\x80\x80\"", "a code point too high"),
    (b"\"\xe2\x82\"", "a sequence that the quote ends"),
    (b"\"\xe2\x82", "a sequence that the slice ends"),
    (b"{\"\xe9\":1}", "Latin-1 in a key"),
    (b"[1]\xff", "0xff behind the value"),
    (b"\xff[1]", "0xff before the value"),
    (b"\xef\xbb\xbf[1]", "a byte order mark"),
];

const STRINGS: &[Case] = &[
    (b"\"\xc3\xa9\"", "\"é\" => same"),
    (b"\"\xff\"", "0xff in a text"),
];

const LISTS: &[Case] = &[
    (b"[1, 2]", "bytes => [1,2]"),
    (b"[1, 256]", "a number out of range"),
];

/// Fails with the first case that is wrong for a type, if any.
fn expect_slices<T: FromJson + Serialize>(
    alloc: Global,
    cases: &'static [Case],
) -> std::result::Result<(), Wrong> {
    for (bytes, case) in cases {
        expect(is_right(written::<T>(alloc, bytes), case), case)?;
    }
    Ok(())
}

#[test]
fn one_value_in_utf8_spans_all_the_bytes(rt: HostRuntime) -> std::result::Result<(), Wrong> {
    expect_slices::<Value>(rt.alloc(), DOCUMENTS)?;
    expect_slices::<String>(rt.alloc(), STRINGS)?;
    expect_slices::<Vec<u8>>(rt.alloc(), LISTS)
}
