//! Skips whitespace, for the lexer.
ghost use Rattle.std.specs.Prelude.{◌≡◌, ◌+◌, ◌≤◌, drop, length, map, slice_index};
ghost use Rattle.std.specs.List.{position_or_len};
ghost use Rattle.std.specs.Simd.Lanes.{mask_l};
ghost use Rattle.miniserde_model.specs.Bytes.{is_space};
ghost use Rattle.miniserde_text.specs.private.Reading.{after_run, is_not_space};

use super::bytes::{byte_at, is_space};
use std::simd::prelude::*;

// Returns a mask whose bit i is set if byte i of the 16 is no whitespace.
#[inline(always)]
fn others_of_sixteen(v: u8x16) -> u64
    ensures { result ≡ mask_l (map is_not_space v) }
{
    let no_spaces = v.simd_ne(u8x16::splat(b' '));
    let no_tabs = v.simd_ne(u8x16::splat(b'\t'));
    let no_line_feeds = v.simd_ne(u8x16::splat(b'\n'));
    let no_returns = v.simd_ne(u8x16::splat(b'\r'));
    (no_spaces & no_tabs & no_line_feeds & no_returns).to_bitmask()
}

// Returns the index of the first byte at or after `from` that is no whitespace, or the length. Searches byte by byte.
fn search_bytes(bytes: &[u8], from: usize) -> usize
    requires { from ≤ length bytes.now }
    ensures { result ≡ from + position_or_len is_not_space (drop from bytes.now) }
{
    let mut i = from;
    'rest: while i < bytes.len() && is_space(bytes[i]) {
        i += 1;
    }
    i
}

// Returns the index of the first byte at or after `from` that is no whitespace, or the length. Searches 16 bytes at a
// time.
#[inline(always)]
fn search(bytes: &[u8], from: usize) -> usize
    requires { from ≤ length bytes.now }
    ensures { result ≡ from + position_or_len is_not_space (drop from bytes.now) }
{
    let mut i = from;
    'lanes: while bytes.len() - i >= 16 {
        let found = others_of_sixteen(u8x16::from_slice(&bytes[i..]));
        if found != 0 {
            return i + found.trailing_zeros() as usize;
        }
        i += 16;
    }
    search_bytes(bytes, i)
}

// Skips whitespace as `after_space` does, 16 bytes at a time. Kept out of line, so that its callers stay small, and
// cold, so that they save registers for this call alone.
#[cold]
#[inline(never)]
fn after_spaces(bytes: &[u8], at: usize) -> (usize, u8)
    requires { at ≤ length bytes.now }
    ensures value { drop result.0 bytes.now ≡ after_run is_space (drop at bytes.now) }
    ensures within { result.0 ≤ length bytes.now }
    ensures byte { result.1 ≡ slice_index (drop result.0 bytes.now) 0 }
{
    let end = search(bytes, at);
    (end, byte_at(bytes, end))
}

/// Skips whitespace from `at` on. Returns the index of the next byte that is no whitespace, and that byte; at the end
/// of the text, returns the length and 0.
#[inline(always)]
pub(super) fn after_space(bytes: &[u8], at: usize) -> (usize, u8)
    requires { at ≤ length bytes.now }
    ensures value { drop result.0 bytes.now ≡ after_run is_space (drop at bytes.now) }
    ensures within { result.0 ≤ length bytes.now }
    ensures byte { result.1 ≡ slice_index (drop result.0 bytes.now) 0 }
{
    // No byte above the space is whitespace. Most calls end at the first byte, or at the second after one space.
    if at < bytes.len() {
        let byte = bytes[at];
        if byte > b' ' {
            return (at, byte);
        }
        if byte == b' ' && at + 1 < bytes.len() {
            let next = bytes[at + 1];
            if next > b' ' {
                return (at + 1, next);
            }
        }
    }
    after_spaces(bytes, at)
}
