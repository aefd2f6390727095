//! The test whether a short text needs no escape. From 4 bytes on it takes two vectors of 4, 8 or 16 bytes each,
//! which may overlap.
ghost use Rattle.std.specs.Prelude.{◌≡◌, ℕ, ◌+◌, ◌<◌, ◌≤◌, length, map, slice_index, true, false};
ghost use Rattle.std.specs.Simd.Lanes.{mask_l};
ghost use Rattle.miniserde_model.specs.Bytes.{is_special};
ghost use Rattle.miniserde_text.specs.private.Escape.{IsPlainRun};

use crate::scan::{is_special, specials_of_eight, specials_of_sixteen};
use std::simd::prelude::*;

// Returns a mask whose bit i is set if byte i of the four must be escaped in a string.
#[inline(always)]
fn specials_of_four(v: u8x4) -> u64
    ensures { result ≡ mask_l (map is_special v) }
{
    let controls = v.simd_lt(u8x4::splat(0x20));
    let quotes = v.simd_eq(u8x4::splat(b'"'));
    let backslashes = v.simd_eq(u8x4::splat(b'\\'));
    (controls | quotes | backslashes).to_bitmask()
}

// Returns true only if none of the 16 bytes from `at` on needs an escape in a string.
#[inline(always)]
fn sixteen_are_plain(bytes: &[u8], at: usize) -> bool
    requires { at + 16 ≤ length bytes.now }
    ensures { result ≡ true → IsPlainRun bytes.now at (at + 16) }
{
    let found = specials_of_sixteen(u8x16::from_slice(&bytes[at..]));
    found == 0
}

// Returns true only if none of the 8 bytes from `at` on needs an escape in a string.
#[inline(always)]
fn eight_are_plain(bytes: &[u8], at: usize) -> bool
    requires { at + 8 ≤ length bytes.now }
    ensures { result ≡ true → IsPlainRun bytes.now at (at + 8) }
{
    let found = specials_of_eight(u8x8::from_slice(&bytes[at..]));
    found == 0
}

// Returns true only if none of the 4 bytes from `at` on needs an escape in a string.
#[inline(always)]
fn four_are_plain(bytes: &[u8], at: usize) -> bool
    requires { at + 4 ≤ length bytes.now }
    ensures { result ≡ true → IsPlainRun bytes.now at (at + 4) }
{
    let found = specials_of_four(u8x4::from_slice(&bytes[at..]));
    found == 0
}

// Returns true only if none of the bytes, at most three, needs an escape in a string.
#[inline(always)]
fn few_are_plain(bytes: &[u8]) -> bool
    requires { length bytes.now ≤ 3 }
    ensures { result ≡ true → (k : ℕ) → k < length bytes.now → is_special (slice_index bytes.now k) ≡ false }
{
    let n = bytes.len();
    // The first byte, the one in the middle and the last are all that there are.
    n == 0 || !is_special(bytes[0]) && !is_special(bytes[n / 2]) && !is_special(bytes[n - 1])
}

/// Returns true only if the text has fewer than 32 bytes and none of them needs an escape in a string.
#[inline(always)]
pub(crate) fn is_short_and_plain(bytes: &[u8]) -> bool
    ensures short { result ≡ true → length bytes.now < 32 }
    ensures plain { result ≡ true → (k : ℕ) → k < length bytes.now → is_special (slice_index bytes.now k) ≡ false }
{
    let n = bytes.len();
    // `&` tests both vectors without a branch between them.
    if n < 4 {
        few_are_plain(bytes)
    } else if n < 8 {
        four_are_plain(bytes, 0) & four_are_plain(bytes, n - 4)
    } else if n < 16 {
        eight_are_plain(bytes, 0) & eight_are_plain(bytes, n - 8)
    } else {
        n < 32 && (sixteen_are_plain(bytes, 0) & sixteen_are_plain(bytes, n - 16))
    }
}
