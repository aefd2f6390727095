//! Writes texts as JSON strings by the escape rule: each byte below 0x20, quote and backslash is escaped in its
//! shortest form, and every other byte stands for itself. A plain byte is one that is not escaped.
ghost use Rattle.std.specs.Prelude.{◌≡◌, ◌≢◌, ◌+◌, ◌/◌, ◌%◌, ◌^◌, ◌<◌, ◌≤◌, [], ◌∷◌, ◌++◌, length, true};
ghost use Rattle.std.specs.Prelude.{codes, if◌then◌else◌, ◌-◌, take, drop, slice_index, OnOk, OnErr, IfSome, IfNone, IsErrOf, string_bytes, string_len};
ghost use Rattle.std.specs.Prelude.{string_capacity};
ghost use Rattle.std.specs.Char.{digit_char, encode_utf8};
ghost use Rattle.std.specs.Str.{IsAscii, IsCharBoundary};
ghost use Rattle.miniserde_model.specs.Bytes as bytes;
ghost use Rattle.miniserde_model.specs.Compact.{string_text};
ghost use Rattle.miniserde_model.specs.declared.error.Error.TheVariants.{Memory};
ghost use Rattle.miniserde_text.specs.Texts.{Extends, MakesRoom};
ghost use Rattle.miniserde_text.specs.private.Escape.{escape, escapes, IsPlainRun};

mod plain;

use self::plain::is_short_and_plain;
use crate::scan::{is_special, special};
use miniserde_model::error::Result;
use std::alloc::AllocError;
use std::{result, str};

// Returns the index of the first byte at or after `from` that must be escaped, or the length of the text if there is
// none.
fn run_end(text: &[u8], from: usize) -> usize
    requires { from ≤ length text.now }
    ensures low { from ≤ result }
    ensures high { result ≤ length text.now }
    ensures plain { IsPlainRun text.now from result }
    ensures found { result < length text.now → bytes.is_special (slice_index text.now result) ≡ true }
{
    special(text, from)
}

// Returns the letter of a byte's short escape, such as `n` for a newline, or 0 if the byte has none.
#[tactic(auto, unfolding(crate::specs::private::Escape::escape))]
fn letter_of(b: u8) -> u8
    ensures short { result ≢ 0 → escape b ≡ 92 ∷ result ∷ [] }
    ensures control { result ≡ 0 → b < 32
        → escape b ≡ 92 ∷ 117 ∷ 48 ∷ 48 ∷ digit_char (b / 16) ∷ digit_char (b % 16) ∷ [] }
    ensures plain { result ≡ 0 → 32 ≤ b → escape b ≡ b ∷ [] }
    ensures special { result ≡ 0 → bytes.is_special b ≡ true → b < 32 }
    ensures ascii { result < 128 }
{
    match b {
        8 => b'b',
        9 => b't',
        10 => b'n',
        12 => b'f',
        13 => b'r',
        34 => b'"',
        92 => b'\\',
        _ => 0,
    }
}

// Returns how many bytes the escape rule writes for a byte: 1, 2 or 6.
fn byte_len(b: u8) -> usize
    ensures len { result ≡ length (escape b) }
    ensures low { 1 ≤ result }
{
    if letter_of(b) != 0 {
        2
    } else if b < 32 {
        6
    } else {
        1
    }
}

// Returns how many bytes the escape rule writes for a text, without the quotes, or `None` if the number overflows
// `usize`.
fn escaped_len(value: &str) -> Option<usize>
    ensures some { IfSome result (λ n. n ≡ length (escapes value.now)) }
    ensures none { IfNone result (2 ^ 64 ≤ length (escapes value.now)) }
{
    let text = value.as_bytes();
    let mut total = text.len();
    let mut at = run_end(text, 0);
    while at < text.len() {
        total = total.checked_add(byte_len(text[at]) - 1)?;
        at = run_end(text, at + 1);
    }
    Some(total)
}

// Returns the hexadecimal digit of a number below 16, in lower case.
fn hex_digit(n: u8) -> u8
    requires { n < 16 }
    ensures value { result ≡ digit_char n }
    ensures ascii { result < 128 }
{
    if n < 10 { b'0' + n } else { b'a' + (n - 10) }
}

// Appends ASCII bytes in one piece. `out` has room for them.
#[inline(always)]
fn put_ascii(bytes: &[u8], out: &mut String)
    requires ascii { IsAscii bytes.now }
    requires room { string_len out.old + length bytes.now ≤ string_capacity out.old }
    ensures bytes { string_bytes out.new ≡ string_bytes out.old ++ bytes.now }
    ensures len { string_len out.new ≡ string_len out.old + length bytes.now }
    ensures capacity { string_capacity out.old ≤ string_capacity out.new }
{
    out.push_str(unsafe { str::from_utf8_unchecked(bytes) })
        .unwrap();
}

// Appends the escape of a byte that must be escaped. `out` has room for it.
#[inline(always)]
fn put_escape(b: u8, out: &mut String)
    requires special { bytes.is_special b ≡ true }
    requires room { string_len out.old + length (escape b) ≤ string_capacity out.old }
    ensures bytes { string_bytes out.new ≡ string_bytes out.old ++ escape b }
    ensures len { string_len out.new ≡ string_len out.old + length (escape b) }
    ensures capacity { string_capacity out.old ≤ string_capacity out.new }
{
    let letter = letter_of(b);
    if letter != 0 {
        put_ascii(&[b'\\', letter], out);
    } else {
        put_ascii(
            &[
                b'\\',
                b'u',
                b'0',
                b'0',
                hex_digit(b / 16),
                hex_digit(b % 16),
            ],
            out,
        );
    }
}

/// Appends a character by the escape rule. Fails if `out` cannot grow.
#[inline(always)]
pub(crate) fn push_escaped(c: char, out: &mut String) -> result::Result<(), AllocError>
    ensures { OnOk result (string_bytes out.new ≡ string_bytes out.old ++ escapes (encode_utf8 c)) }
{
    let code = c as u32;
    if code >= 128 {
        out.push(c)?;
        return Ok(());
    }
    let b = code as u8;
    if !is_special(b) {
        out.push(c)?;
        return Ok(());
    }
    // No escape is longer than six bytes.
    out.reserve(6)?;
    put_escape(b, out);
    Ok(())
}

// Appends the bytes of `value` from `start` to `end`, of which there may be none. `out` has room for them.
#[inline(always)]
fn put_run(value: &str, start: usize, end: usize, out: &mut String)
    requires start { IsCharBoundary value.now start }
    requires end { IsCharBoundary value.now end }
    requires order { start ≤ end }
    requires room { string_len out.old + (end - start) ≤ string_capacity out.old }
    ensures bytes { string_bytes out.new ≡ string_bytes out.old ++ take (end - start) (drop start value.now) }
    ensures len { string_len out.new ≡ string_len out.old + (end - start) }
    ensures capacity { string_capacity out.old ≤ string_capacity out.new }
{
    if start < end {
        out.push_str(&value[start..end]).unwrap();
    }
}

// Appends a text by the escape rule, without quotes. Each run of plain bytes is copied in one piece. `out` has room
// for the escaped text.
fn put_escapes(value: &str, out: &mut String)
    requires { string_len out.old + length (escapes value.now) ≤ string_capacity out.old }
    ensures bytes { string_bytes out.new ≡ string_bytes out.old ++ escapes value.now }
    ensures len { string_len out.new ≡ string_len out.old + length (escapes value.now) }
    ensures capacity { string_capacity out.old ≤ string_capacity out.new }
{
    let text = value.as_bytes();
    let mut start = 0;
    while start < text.len() {
        let at = run_end(text, start);
        put_run(value, start, at, out);
        if at < text.len() {
            put_escape(text[at], out);
            start = at + 1;
        } else {
            start = at;
        }
    }
}

// Appends a text by the escape rule, without quotes. `out` has room for the escaped text. It is inlined, so that the
// compiler removes the tests of bytes for a short text that is known at compile time.
#[inline(always)]
fn put_text(value: &str, out: &mut String)
    requires { string_len out.old + length (escapes value.now) ≤ string_capacity out.old }
    ensures bytes { string_bytes out.new ≡ string_bytes out.old ++ escapes value.now }
    ensures len { string_len out.new ≡ string_len out.old + length (escapes value.now) }
    ensures capacity { string_capacity out.old ≤ string_capacity out.new }
{
    if is_short_and_plain(value.as_bytes()) {
        out.push_str(value).unwrap();
    } else {
        put_escapes(value, out);
    }
}

// Returns true only if `out` has room for the text and `extra` more bytes, even if each byte of the text is
// escaped as six.
#[inline(always)]
fn has_ample_room(value: &str, extra: usize, out: &String) -> bool
    ensures { result ≡ true
        → string_len out.now + length (escapes value.now) + extra ≤ string_capacity out.now }
{
    let free = out.capacity() - out.len();
    extra <= free && value.len() <= (free - extra) / 6
}

// Counts the bytes of the escaped text, and reserves room for them and `extra` more bytes. Fails if that allocation
// fails.
fn grow(value: &str, extra: usize, out: &mut String) -> result::Result<(), AllocError>
    ensures { MakesRoom out.old (length (escapes value.now) + extra) result out.new }
{
    let Some(len) = escaped_len(value) else {
        // No memory holds so long a text.
        return Err(AllocError);
    };
    out.reserve(len.saturating_add(extra))
}

// Reserves room for the escaped text and `extra` more bytes, and fails if that allocation fails. The bytes of the
// escaped text are counted only if `has_ample_room` returns `false`.
#[inline(always)]
fn make_room(value: &str, extra: usize, out: &mut String) -> result::Result<(), AllocError>
    ensures { MakesRoom out.old (length (escapes value.now) + extra) result out.new }
{
    if has_ample_room(value, extra, out) {
        Ok(())
    } else {
        grow(value, extra, out)
    }
}

// Appends a comma, unless `first` says that the member is the first of its object, and the quote before the member's
// name. `out` has room for both.
#[inline(always)]
fn put_name_start(first: bool, out: &mut String)
    requires { string_len out.old + 2 ≤ string_capacity out.old }
    ensures bytes { string_bytes out.new ≡ string_bytes out.old ++ ((if first then [] else codes ",") ++ codes "\"") }
    ensures len { string_len out.new ≡ string_len out.old + (if first then 1 else 2) }
    ensures capacity { string_capacity out.old ≤ string_capacity out.new }
{
    if first {
        out.push_str("\"").unwrap();
    } else {
        out.push_str(",\"").unwrap();
    }
}

// Returns how many bytes the punctuation of a member takes: two quotes, a colon, and a comma, unless `first` says that
// the member is the first of its object.
#[inline(always)]
fn punctuation_len(first: bool) -> usize
    ensures { result ≡ (if first then 3 else 4) }
{
    if first { 3 } else { 4 }
}

/// Appends what stands before a member's value: a comma, unless `first` says that the member is the first of its
/// object, the member's name as a string, and a colon. If `out` cannot grow, returns `Memory` and leaves `out`
/// unchanged.
#[doc(hidden)]
#[inline(always)]
pub fn put_name(first: bool, name: &str, out: &mut String) -> Result<()>
    ensures appends { Extends out.old
        ((if first then [] else codes ",") ++ string_text name.now ++ codes ":") result out.new }
    ensures memory { OnErr result (IsErrOf result Memory) }
{
    make_room(name, punctuation_len(first), out)?;
    put_name_start(first, out);
    put_text(name, out);
    out.push_str("\":").unwrap();
    Ok(())
}

// Appends a text of fewer than 32 bytes, none of which needs an escape, as a JSON string. If `out` cannot grow, fails
// and leaves `out` unchanged.
#[inline(always)]
fn put_plain(value: &str, out: &mut String) -> result::Result<(), AllocError>
    requires plain { escapes value.now ≡ value.now }
    requires short { length value.now < 32 }
    ensures { Extends out.old (string_text value.now) result out.new }
{
    out.reserve(value.len() + 2)?;
    out.push_str("\"").unwrap();
    out.push_str(value).unwrap();
    out.push_str("\"").unwrap();
    Ok(())
}

// Appends any text as a JSON string. If `out` cannot grow, fails and leaves `out` unchanged.
fn put_other(value: &str, out: &mut String) -> result::Result<(), AllocError>
    ensures { Extends out.old (string_text value.now) result out.new }
{
    make_room(value, 2, out)?;
    out.push_str("\"").unwrap();
    put_escapes(value, out);
    out.push_str("\"").unwrap();
    Ok(())
}

/// Appends a text as a JSON string: between quotes, by the escape rule. If `out` cannot grow, returns `Memory` and
/// leaves `out` unchanged.
pub fn escape_str(value: &str, out: &mut String) -> Result<()>
    ensures appends { Extends out.old (string_text value.now) result out.new }
    ensures memory { OnErr result (IsErrOf result Memory) }
{
    if is_short_and_plain(value.as_bytes()) {
        put_plain(value, out)?;
    } else {
        put_other(value, out)?;
    }
    Ok(())
}
