//! Decodes the escapes of strings (RFC 8259, section 7).
ghost use Rattle.std.specs.Prelude.{◌≡◌, ◌++◌, ◌<◌, ◌≤◌, ℕ, true, drop, length, IfSome, IfOk, Some, None, Err};
ghost use Rattle.std.specs.Char.{encode_utf8};
ghost use Rattle.std.specs.String.{string_bytes};
ghost use Rattle.miniserde_text.specs.private.Reading.{with_suffix, code_unit_at, is_high, is_low};
ghost use Rattle.miniserde_text.specs.private.Reading.{begins_unicode_escape, pair_of, low_at, unicode_at, short_at};
ghost use Rattle.miniserde_text.specs.private.Reading.{escape_at, FollowsAscii};

use super::bytes::{byte_after, byte_at, index_after};
use super::spelling::Spelling;
use super::tables;
use miniserde_model::error::{Error, Result};

// Takes four hexadecimal digits from `at` on. Returns their value and the index after them, or
// `None` if they are not there.
fn take_code_unit(bytes: &[u8], at: usize) -> Option<(u32, usize)>
    requires { at ≤ length bytes.now }
    ensures value { with_suffix bytes.now result ≡ code_unit_at (drop at bytes.now) }
    ensures small { IfSome result (λ x. x.0 < 65536) }
    ensures follows { IfSome result (λ x. FollowsAscii bytes.now x.1) }
{
    if bytes.len() - at < 4 {
        return None;
    }
    let a = tables::hex(byte_after(bytes, at, 0));
    let b = tables::hex(byte_after(bytes, at, 1));
    let c = tables::hex(byte_after(bytes, at, 2));
    let d = tables::hex(byte_after(bytes, at, 3));
    let code = a * 4096 + b * 256 + c * 16 + d;
    // A byte that is no digit makes the sum larger than any code unit.
    if code < 65536 {
        Some((code, index_after(bytes, at, 4)))
    } else {
        None
    }
}

// Returns whether a code unit is a high surrogate, 0xD800 to 0xDBFF.
fn is_high(u: u32) -> bool
    ensures { result ≡ is_high u }
{
    0xd800 <= u && u < 0xdc00
}

// Returns whether a code unit is a low surrogate, 0xDC00 to 0xDFFF.
fn is_low(u: u32) -> bool
    ensures { result ≡ is_low u }
{
    0xdc00 <= u && u < 0xe000
}

// Returns whether the two bytes at `at` are `\u`.
fn begins_unicode_escape(bytes: &[u8], at: usize) -> bool
    requires { at ≤ length bytes.now }
    ensures { result ≡ begins_unicode_escape (drop at bytes.now) }
{
    byte_after(bytes, at, 0) == b'\\' && byte_after(bytes, at, 1) == b'u'
}

// Returns the character of a surrogate pair.
fn pair(high: u32, low: u32) -> char
    requires high { is_high high ≡ true }
    requires low { is_low low ≡ true }
    ensures { result ≡ pair_of high low }
{
    char::from_u32(0x10000 + (high - 0xd800) * 1024 + (low - 0xdc00)).unwrap()
}

// Takes the escape of a low surrogate, which comes after that of the high surrogate `high`. Returns
// the character of the pair and the index after the escape, or `None` if no such escape is at `at`.
fn low(high: u32, bytes: &[u8], at: usize) -> Option<(char, usize)>
    requires high { is_high high ≡ true }
    requires within { at ≤ length bytes.now }
    ensures value { with_suffix bytes.now result ≡ low_at high (drop at bytes.now) }
    ensures follows { IfSome result (λ x. FollowsAscii bytes.now x.1) }
{
    if !begins_unicode_escape(bytes, at) {
        return None;
    }
    let (low, end) = take_code_unit(bytes, index_after(bytes, at, 2))?;
    if !is_low(low) {
        return None;
    }
    Some((pair(high, low), end))
}

// Takes the four digits of a `\u` escape, and after a high surrogate a second escape. Returns the
// character and the index after it, or `None` if digits are wrong or a surrogate has no partner.
#[inline(always)]
#[tactic(auto, unfolding(crate::specs::private::Reading::unicode_at))]
fn unicode(bytes: &[u8], at: usize) -> Option<(char, usize)>
    requires { at ≤ length bytes.now }
    ensures value { with_suffix bytes.now result ≡ unicode_at (drop at bytes.now) }
    ensures follows { IfSome result (λ x. FollowsAscii bytes.now x.1) }
{
    let (code, end) = take_code_unit(bytes, at)?;
    if let Some(c) = char::from_u32(code) {
        return Some((c, end));
    }
    if is_high(code) {
        low(code, bytes, end)
    } else {
        None
    }
}

// Returns the character of a short escape by its letter, or `None` if the letter has none.
fn short(letter: u8) -> Option<char>
    ensures value { result ≡ short_at letter }
    ensures ascii { IfSome result (λ c. (0 < letter) × (letter < 128)) }
{
    let c = tables::short(letter);
    // No entry is 128 or more, but the compiler learns by the second test that the character is one byte.
    if 0 < c && c < 128 {
        Some(c as char)
    } else {
        None
    }
}

/// Takes an escape whose backslash is the byte before `at`, appends what the scratch text gets for its character, and
/// returns the index after it. Returns `Invalid` if the escape is wrong or a surrogate has no partner, and `Memory` if
/// the scratch text cannot grow.
#[inline(always)]
#[tactic(auto, unfolding(crate::specs::private::Reading::escape_at))]
pub(super) fn push_escape<S: Spelling>(text: &str, at: usize, scratch: &mut String) -> Result<usize>
    ensures ok { IfOk result (λ r. (c : ℕ) × (escape_at (drop at text.now) ≡ Some (c, drop r text.now))
        × (string_bytes scratch.new ≡ string_bytes scratch.old ++ S.spelled (encode_utf8 c))) }
    ensures follows { IfOk result (λ r. FollowsAscii text.now r) }
    ensures invalid { result ≡ Err Error.Invalid → escape_at (drop at text.now) ≡ None }
    ensures infallible { S.infallible ≡ true → result ≡ Err Error.Memory → ⊥ }
{
    let bytes = text.as_bytes();
    let letter = byte_at(bytes, at);
    if letter == b'u' {
        let Some((c, end)) = unicode(bytes, index_after(bytes, at, 1)) else {
            return Err(Error::Invalid);
        };
        S::push(scratch, c)?;
        return Ok(end);
    }
    let Some(c) = short(letter) else {
        return Err(Error::Invalid);
    };
    S::push(scratch, c)?;
    Ok(index_after(bytes, at, 1))
}
