//! Takes numbers from a text, and returns the token of each.
//! An `Event` is a token that begins a value, a `Step` an event of a value.
ghost use Rattle.std.specs.Prelude.{◌≡◌, ◌<◌, ◌≤◌, ◌^◌, [], None, Some, List, ℕ, length, take, drop};
ghost use Rattle.std.specs.Prelude.{option_map, nat_lt, slice_index, if◌then◌else◌, IfSome, IfNone};
ghost use Rattle.std.specs.List.{AllByRecursion, prefix_len};
ghost use Rattle.std.specs.Str.Parse.{digits_value};
ghost use Rattle.miniserde_model.specs.Number.{IsDigit};
ghost use Rattle.miniserde_model.specs.Step.{float};
ghost use Rattle.miniserde_text.specs.Lexer.{event_of_token};
ghost use Rattle.miniserde_text.specs.private.Reading.{after_run, is_digit, after_digits, after_int};
ghost use Rattle.miniserde_text.specs.private.Reading.{after_fraction, after_sign, after_exponent, after_minus};
ghost use Rattle.miniserde_text.specs.private.Reading.{after_tail, event_of_parts, number_at, suffix_at, FollowsAscii};

use super::Event;
use super::bytes::{
    byte_at, index_after, is_digit, is_exponent_letter, is_sign, part, text_between,
};
use super::tables::is_number_byte;

// Returns the index after the digits at `at`, of which there may be none.
fn after_run_of_digits(bytes: &[u8], at: usize) -> usize
    requires { FollowsAscii bytes.now at }
    ensures value { drop result bytes.now ≡ after_run is_digit (drop at bytes.now) }
    ensures follows { FollowsAscii bytes.now result }
{
    let mut i = at;
    while i < bytes.len() && is_digit(bytes[i]) {
        i += 1;
    }
    i
}

// Returns the index after the digits at `at`, or `None` if there is no digit.
fn after_digits(bytes: &[u8], at: usize) -> Option<usize>
    ensures value { suffix_at bytes.now result ≡ after_digits (drop at bytes.now) }
    ensures follows { IfSome result (λ r. FollowsAscii bytes.now r) }
{
    if is_digit(byte_at(bytes, at)) {
        Some(after_run_of_digits(bytes, index_after(bytes, at, 1)))
    } else {
        None
    }
}

// Returns the index after a minus, or `at` if there is none. `first` is the byte at `at`.
fn after_minus(bytes: &[u8], at: usize, first: u8) -> usize
    requires within { at ≤ length bytes.now }
    requires first { first ≡ slice_index (drop at bytes.now) 0 }
    ensures value { drop result bytes.now ≡ after_minus (drop at bytes.now) }
    ensures within { result ≤ length bytes.now }
{
    if first == b'-' {
        index_after(bytes, at, 1)
    } else {
        at
    }
}

// Returns the index after the integer part of a number: a single `0`, or digits of which the first
// is not `0`. Returns `None` if no digit is at `at`.
fn after_int(bytes: &[u8], at: usize) -> Option<usize>
    ensures value { suffix_at bytes.now result ≡ after_int (drop at bytes.now) }
    ensures follows { IfSome result (λ r. FollowsAscii bytes.now r) }
{
    if byte_at(bytes, at) == b'0' {
        Some(index_after(bytes, at, 1))
    } else {
        after_digits(bytes, at)
    }
}

// Returns the index after a fraction, or `at` if there is none. Returns `None` if no digit follows the point.
fn after_fraction(bytes: &[u8], at: usize) -> Option<usize>
    requires { FollowsAscii bytes.now at }
    ensures value { suffix_at bytes.now result ≡ after_fraction (drop at bytes.now) }
    ensures follows { IfSome result (λ r. FollowsAscii bytes.now r) }
{
    if byte_at(bytes, at) == b'.' {
        after_digits(bytes, index_after(bytes, at, 1))
    } else {
        Some(at)
    }
}

// Returns the index after a sign, or `at` if there is none.
fn after_sign(bytes: &[u8], at: usize) -> usize
    ensures { drop result bytes.now ≡ after_sign (drop at bytes.now) }
{
    if is_sign(byte_at(bytes, at)) {
        index_after(bytes, at, 1)
    } else {
        at
    }
}

// Returns the index after an exponent, or `at` if there is none. Returns `None` if the exponent has no digit.
fn after_exponent(bytes: &[u8], at: usize) -> Option<usize>
    requires { FollowsAscii bytes.now at }
    ensures value { suffix_at bytes.now result ≡ after_exponent (drop at bytes.now) }
    ensures follows { IfSome result (λ r. FollowsAscii bytes.now r) }
{
    if is_exponent_letter(byte_at(bytes, at)) {
        after_digits(bytes, after_sign(bytes, index_after(bytes, at, 1)))
    } else {
        Some(at)
    }
}

// Returns the index after a fraction and an exponent, each of which is optional. Returns `None` if one is there
// without a digit.
fn after_tail(bytes: &[u8], at: usize) -> Option<usize>
    requires { FollowsAscii bytes.now at }
    ensures value { suffix_at bytes.now result ≡ after_tail (drop at bytes.now) }
    ensures follows { IfSome result (λ r. FollowsAscii bytes.now r) }
{
    after_exponent(bytes, after_fraction(bytes, at)?)
}

// Returns the value of at most 19 digits. It is below 10^19, so the arithmetic cannot overflow.
fn short_integer(digits: &[u8]) -> u64
    requires digits { AllByRecursion IsDigit digits.now }
    requires few { length digits.now < 20 }
    ensures { result ≡ digits_value 10 digits.now }
{
    let mut value = 0u64;
    for byte in digits {
        value = value * 10 + u64::from(*byte - b'0');
    }
    value
}

// Returns the value of the digits, or `None` if it does not fit in 64 bits.
fn integer(digits: &[u8]) -> Option<u64>
    requires { AllByRecursion IsDigit digits.now }
    ensures { result ≡ (if nat_lt (digits_value 10 digits.now) (2 ^ 64)
        then Some (digits_value 10 digits.now) else None) }
{
    if digits.len() < 20 {
        return Some(short_integer(digits));
    }
    let mut value = 0u64;
    for byte in digits {
        value = value.checked_mul(10)?.checked_add(u64::from(*byte - b'0'))?;
    }
    Some(value)
}

// Returns the token of `n`, or of `-n` if `minus` is set. Returns `None` if that is below -2^63.
fn integer_event<'a>(minus: bool, n: u64) -> Option<Event<'a>>
    ensures some { IfSome result (λ event. (text int : List ℕ) → digits_value 10 int ≡ n
        → event_of_parts text minus int [] ≡ event_of_token event []) }
    ensures none { IfNone result ((text int : List ℕ) → digits_value 10 int ≡ n
        → event_of_parts text minus int [] ≡ float text) }
{
    if !minus {
        Some(Event::Nonnegative(n))
    } else if n <= 1 << 63 {
        // By way of `i128`, since `i64` has no 2^63 to negate.
        Some(Event::Negative((-(n as i128)) as i64))
    } else {
        None
    }
}

// Returns the token of the number `text`, which has a minus if `minus` is set, then the digits `int`, then the
// fraction and exponent `tail`.
fn event<'a>(text: &'a str, minus: bool, int: &[u8], tail: &[u8]) -> Event<'a>
    requires { AllByRecursion IsDigit int.now }
    ensures { event_of_token result [] ≡ event_of_parts text.now minus int.now tail.now }
{
    if tail.is_empty() {
        if let Some(n) = integer(int) {
            if let Some(event) = integer_event(minus, n) {
                return event;
            }
        }
    }
    Event::Number(text)
}

// Returns the number of leading digits, and their value if they are at most 19. The value of more digits is wrong if
// it overflows 64 bits.
#[inline(always)]
fn leading_digits(bytes: &[u8]) -> (usize, u64)
    ensures count { result.0 ≡ prefix_len is_digit bytes.now }
    ensures value { result.0 ≤ 19 → result.1 ≡ digits_value 10 (take result.0 bytes.now) }
{
    let mut value = 0u64;
    let mut i = 0;
    while i < bytes.len() && is_digit(bytes[i]) {
        value = value
            .wrapping_mul(10)
            .wrapping_add(u64::from(bytes[i] - b'0'));
        i += 1;
    }
    (i, value)
}

// Takes an integer of at most 19 digits in one pass. Returns its token and the index after it. Returns `None` if no such
// integer is there, or if it is below -2^63; a number of another form may still be there. `first` is the byte at `at`.
// `leading_digits` gets a slice that begins with the digits, so that its loop keeps one counter and not two.
#[inline(always)]
fn short_number<'a>(bytes: &[u8], at: usize, first: u8) -> Option<(Event<'a>, usize)>
    requires within { at ≤ length bytes.now }
    requires first { first ≡ slice_index (drop at bytes.now) 0 }
    ensures value { IfSome result (λ x.
        number_at (drop at bytes.now) ≡ Some (event_of_token x.0 [], drop x.1 bytes.now)) }
    ensures within { IfSome result (λ x. x.1 ≤ length bytes.now) }
{
    let start = after_minus(bytes, at, first);
    let digits = &bytes[start..];
    let (count, value) = leading_digits(digits);
    if count == 0 || count > 19 || is_number_byte(byte_at(digits, count)) {
        return None;
    }
    if count > 1 && byte_at(digits, 0) == b'0' {
        return None;
    }
    let event = integer_event(first == b'-', value)?;
    Some((event, start + count))
}

/// Takes a number of any form. Returns its token and the index after it. Returns `None` if there is no number, or if
/// a byte that a number text may contain follows it. Kept out of line, since it is seldom called.
#[inline(never)]
#[tactic(auto, unfolding(crate::specs::private::Reading::number_at))]
pub(crate) fn take_any_number<'a>(text: &'a str, at: usize) -> Option<(Event<'a>, usize)>
    requires { at ≤ length text.now }
    ensures value { option_map (λ x. (event_of_token x.0 [], drop x.1 text.now)) result
        ≡ number_at (drop at text.now) }
    ensures within { IfSome result (λ x. x.1 ≤ length text.now) }
{
    let bytes = text.as_bytes();
    let first = byte_at(bytes, at);
    let digits = after_minus(bytes, at, first);
    let tail = after_int(bytes, digits)?;
    let end = after_tail(bytes, tail)?;
    if is_number_byte(byte_at(bytes, end)) {
        return None;
    }
    let event = event(
        text_between(text, at, end),
        first == b'-',
        part(bytes, digits, tail),
        part(bytes, tail, end),
    );
    Some((event, end))
}

// Takes a number of any form by `take_any_number`. It takes the result apart and makes it again, so that the compiler
// keeps the result of `short_number` in registers.
#[inline(always)]
fn take_long_number<'a>(text: &'a str, at: usize) -> Option<(Event<'a>, usize)>
    requires { at ≤ length text.now }
    ensures value { option_map (λ x. (event_of_token x.0 [], drop x.1 text.now)) result
        ≡ number_at (drop at text.now) }
    ensures within { IfSome result (λ x. x.1 ≤ length text.now) }
{
    match take_any_number(text, at) {
        Some((event, end)) => Some((event, end)),
        None => None,
    }
}

/// Takes a number. Returns its token and the index after it. Returns `None` if there is no number, or if a byte that
/// a number text may contain follows it. `first` is the byte at `at`.
#[inline(always)]
pub(super) fn take_number<'a>(text: &'a str, at: usize, first: u8) -> Option<(Event<'a>, usize)>
    requires within { at ≤ length text.now }
    requires first { first ≡ slice_index (drop at text.now) 0 }
    ensures value { option_map (λ x. (event_of_token x.0 [], drop x.1 text.now)) result
        ≡ number_at (drop at text.now) }
    ensures within { IfSome result (λ x. x.1 ≤ length text.now) }
{
    match short_number(text.as_bytes(), at, first) {
        Some(taken) => Some(taken),
        None => take_long_number(text, at),
    }
}
