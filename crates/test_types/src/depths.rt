//! What depth asks for. With the second request for memory refused, as by `rt try --test --fail-alloc 2`, the first of
//! these tests passes too, and with the third refused both do.

use miniserde::de::ignore;
use miniserde::json::feed;
use std::alloc::Global;
use std::str;
use test_tables::{Wrong, expect};

/// Returns whether a text of as many `[` as `]` is taken. It is written over the bytes, of which all are `[`.
fn takes_brackets(alloc: Global, bytes: &mut [u8]) -> bool {
    for i in bytes.len() / 2..bytes.len() {
        bytes[i] = b']';
    }
    match str::from_utf8(bytes) {
        Ok(text) => feed(alloc, text, &mut ignore()).is_ok(),
        Err(_) => false,
    }
}

#[test]
fn lists_64_deep_take_one_request(rt: HostRuntime) -> Result<(), Wrong> {
    let mut bytes = [b'['; 128];
    expect(takes_brackets(rt.alloc(), &mut bytes), "lists 64 deep")
}

#[test]
fn lists_128_deep_take_two_requests_at_most(rt: HostRuntime) -> Result<(), Wrong> {
    let mut bytes = [b'['; 256];
    expect(takes_brackets(rt.alloc(), &mut bytes), "lists 128 deep")
}
