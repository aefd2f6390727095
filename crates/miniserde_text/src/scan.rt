//! The search for the first byte that must be escaped in a string, up to 32 bytes at a time.
ghost use Rattle.std.specs.Prelude.{◌≡◌, ◌+◌, ◌≤◌, length, drop, map};
ghost use Rattle.std.specs.List.{position_or_len};
ghost use Rattle.std.specs.Simd.Lanes.{mask_l};
ghost use Rattle.miniserde_model.specs.Bytes.{is_special};

use std::simd::prelude::*;

// 1 for each byte that must be escaped in a string, and 0 for every other byte.
static SPECIAL: [u8; 256] = [
    1, 1, 1, 1, 1, 1, 1, 1, 1, 1, 1, 1, 1, 1, 1, 1, 1, 1, 1, 1, 1, 1, 1, 1, 1, 1, 1, 1, 1, 1, 1, 1,
    0, 0, 1, 0, 0, 0, 0, 0, 0, 0, 0, 0, 0, 0, 0, 0, 0, 0, 0, 0, 0, 0, 0, 0, 0, 0, 0, 0, 0, 0, 0, 0,
    0, 0, 0, 0, 0, 0, 0, 0, 0, 0, 0, 0, 0, 0, 0, 0, 0, 0, 0, 0, 0, 0, 0, 0, 0, 0, 0, 0, 1, 0, 0, 0,
    0, 0, 0, 0, 0, 0, 0, 0, 0, 0, 0, 0, 0, 0, 0, 0, 0, 0, 0, 0, 0, 0, 0, 0, 0, 0, 0, 0, 0, 0, 0, 0,
    0, 0, 0, 0, 0, 0, 0, 0, 0, 0, 0, 0, 0, 0, 0, 0, 0, 0, 0, 0, 0, 0, 0, 0, 0, 0, 0, 0, 0, 0, 0, 0,
    0, 0, 0, 0, 0, 0, 0, 0, 0, 0, 0, 0, 0, 0, 0, 0, 0, 0, 0, 0, 0, 0, 0, 0, 0, 0, 0, 0, 0, 0, 0, 0,
    0, 0, 0, 0, 0, 0, 0, 0, 0, 0, 0, 0, 0, 0, 0, 0, 0, 0, 0, 0, 0, 0, 0, 0, 0, 0, 0, 0, 0, 0, 0, 0,
    0, 0, 0, 0, 0, 0, 0, 0, 0, 0, 0, 0, 0, 0, 0, 0, 0, 0, 0, 0, 0, 0, 0, 0, 0, 0, 0, 0, 0, 0, 0, 0,
];

// Returns whether a byte must be escaped in a string: a byte below 0x20, a quote or a backslash.
#[inline(always)]
pub(crate) fn is_special(c: u8) -> bool
    ensures { result ≡ is_special c }
{
    SPECIAL[c as usize] == 1
}

// Returns a mask whose bit i is set if byte i of the 32 must be escaped in a string.
#[inline(always)]
fn specials_of_thirty_two(v: u8x32) -> u64
    ensures { result ≡ mask_l (map is_special v) }
{
    let controls = v.simd_lt(u8x32::splat(0x20));
    let quotes = v.simd_eq(u8x32::splat(b'"'));
    let backslashes = v.simd_eq(u8x32::splat(b'\\'));
    (controls | quotes | backslashes).to_bitmask()
}

// Returns a mask whose bit i is set if byte i of the 16 must be escaped in a string.
#[inline(always)]
pub(crate) fn specials_of_sixteen(v: u8x16) -> u64
    ensures { result ≡ mask_l (map is_special v) }
{
    let controls = v.simd_lt(u8x16::splat(0x20));
    let quotes = v.simd_eq(u8x16::splat(b'"'));
    let backslashes = v.simd_eq(u8x16::splat(b'\\'));
    (controls | quotes | backslashes).to_bitmask()
}

// Returns a mask whose bit i is set if byte i of the 8 must be escaped in a string.
#[inline(always)]
pub(crate) fn specials_of_eight(v: u8x8) -> u64
    ensures { result ≡ mask_l (map is_special v) }
{
    let controls = v.simd_lt(u8x8::splat(0x20));
    let quotes = v.simd_eq(u8x8::splat(b'"'));
    let backslashes = v.simd_eq(u8x8::splat(b'\\'));
    (controls | quotes | backslashes).to_bitmask()
}

// Returns the index of the first byte at or after `from` that must be escaped, or the length. Searches byte by byte.
fn search_bytes(bytes: &[u8], from: usize) -> usize
    requires { from ≤ length bytes.now }
    ensures { result ≡ from + position_or_len is_special (drop from bytes.now) }
{
    let mut i = from;
    'rest: while i < bytes.len() && !is_special(bytes[i]) {
        i += 1;
    }
    i
}

// Returns the index of the first byte at or after `from` that must be escaped, or the length. Searches 8 bytes at a
// time.
fn search_eights(bytes: &[u8], from: usize) -> usize
    requires { from ≤ length bytes.now }
    ensures { result ≡ from + position_or_len is_special (drop from bytes.now) }
{
    let mut i = from;
    'lanes: while bytes.len() - i >= 8 {
        let found = specials_of_eight(u8x8::from_slice(&bytes[i..]));
        if found != 0 {
            return i + found.trailing_zeros() as usize;
        }
        i += 8;
    }
    search_bytes(bytes, i)
}

// Returns the index of the first byte at or after `from` that must be escaped, or the length, by `search_eights`.
// Kept out of line, so that its callers stay small.
#[inline(never)]
fn search_few(bytes: &[u8], from: usize) -> usize
    requires { from ≤ length bytes.now }
    ensures { result ≡ from + position_or_len is_special (drop from bytes.now) }
{
    search_eights(bytes, from)
}

// Returns the index of the first byte at or after `from` that must be escaped, or the length. Searches 32 bytes at a
// time. Kept out of line, as `search_few` is.
#[inline(never)]
fn search(bytes: &[u8], from: usize) -> usize
    requires { from ≤ length bytes.now }
    ensures { result ≡ from + position_or_len is_special (drop from bytes.now) }
{
    let mut i = from;
    'lanes: while bytes.len() - i >= 32 {
        let found = specials_of_thirty_two(u8x32::from_slice(&bytes[i..]));
        if found != 0 {
            return i + found.trailing_zeros() as usize;
        }
        i += 32;
    }
    search_eights(bytes, i)
}

/// Returns the index of the first byte at or after `from` that must be escaped in a string, or the length. It tests
/// 16 bytes at once, for callers whose next byte seldom needs an escape.
#[inline(always)]
pub(crate) fn special_in_lanes(bytes: &[u8], from: usize) -> usize
    requires { from ≤ length bytes.now }
    ensures { result ≡ from + position_or_len is_special (drop from bytes.now) }
{
    if bytes.len() - from < 16 {
        return search_few(bytes, from);
    }
    let found = specials_of_sixteen(u8x16::from_slice(&bytes[from..]));
    if found != 0 {
        return from + found.trailing_zeros() as usize;
    }
    search(bytes, from + 16)
}

/// Returns the index of the first byte at or after `from` that must be escaped in a string, or the length. It tests
/// the first byte by itself, and then 16 bytes at once, if so many are left.
#[inline(always)]
pub fn special(bytes: &[u8], from: usize) -> usize
    requires { from ≤ length bytes.now }
    ensures { result ≡ from + position_or_len is_special (drop from bytes.now) }
{
    // After an escape the next byte often begins another escape.
    if from < bytes.len() && is_special(bytes[from]) {
        return from;
    }
    special_in_lanes(bytes, from)
}
