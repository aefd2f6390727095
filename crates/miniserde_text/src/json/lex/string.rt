//! Takes strings from a text. For those that have a backslash the scratch text gets what `Spelling` says.
ghost use Rattle.std.specs.Prelude.{◌≡◌, ◌++◌, ◌∷◌, ◌≤◌, drop, length, ℕ, List, Err, false, true, IfOk, OnErr};
ghost use Rattle.std.specs.Prelude.{slice_index};
ghost use Rattle.std.specs.Str.{encode_utf8_all, IsCharBoundary};
ghost use Rattle.std.specs.String.{string_bytes};
ghost use Rattle.miniserde_text.specs.Lexer.{text_of, LeavesScratch, SpelledText};
ghost use Rattle.miniserde_text.specs.private.Reading.{after_run, before, is_unescaped, FollowsAscii};
ghost use Rattle.miniserde_text.specs.private.LexerParts.{SpellsUpToQuote, Adds, TakesText, ReachesBackslash};

use super::Text;
use super::bytes::{byte_at, index_after, text_between};
use super::escape::push_escape;
use super::spelling::Spelling;
use crate::scan::{special, special_in_lanes};
use miniserde_model::error::{Error, Result};
use std::alloc::AllocError;
use std::result;

// Returns the index of the first byte at or after `at` that is a quote, a backslash or below 0x20, or the length of
// the text. It tests 16 bytes at once, since most strings begin with a run of other bytes.
#[inline(always)]
fn after_unescaped_in_lanes(text: &str, at: usize) -> usize
    requires { at ≤ length text.now }
    ensures value { drop result text.now ≡ after_run is_unescaped (drop at text.now) }
    ensures order { at ≤ result }
    ensures boundary { IsCharBoundary text.now result }
{
    special_in_lanes(text.as_bytes(), at)
}

// Returns the index of the first byte at or after `at` that is a quote, a backslash or below 0x20,
// or the length of the text. It tests the first byte before any others, since a string often ends
// behind an escape.
#[inline(always)]
fn after_unescaped(text: &str, at: usize) -> usize
    requires { at ≤ length text.now }
    ensures value { drop result text.now ≡ after_run is_unescaped (drop at text.now) }
    ensures order { at ≤ result }
    ensures boundary { IsCharBoundary text.now result }
{
    special(text.as_bytes(), at)
}

// Takes the run of unescaped bytes at `at`, which may be empty, appends what the scratch text gets for it, and returns
// the index after it. Fails if the scratch text cannot grow.
#[inline(always)]
fn take_run<S: Spelling>(
    text: &str,
    at: usize,
    scratch: &mut String,
) -> result::Result<usize, AllocError>
    requires { FollowsAscii text.now at }
    ensures ok { IfOk result (λ r.
        Adds S.spelled (string_bytes scratch.old) (string_bytes scratch.new) (drop at text.now) (drop r text.now)) }
    ensures stops { IfOk result (λ r. is_unescaped (slice_index (drop r text.now) 0) ≡ false) }
    ensures shorter { IfOk result (λ r. length (drop r text.now) ≤ length (drop at text.now)) }
    ensures infallible { S.infallible ≡ true → OnErr result ⊥ }
{
    let next = after_unescaped(text, at);
    S::push_run(scratch, text_between(text, at, next))?;
    Ok(next)
}

// Takes the rest of a string, and appends what the scratch text gets for it. The byte before `at` is a backslash.
// Returns the index after the closing quote, or `Memory` if the scratch text cannot grow. Returns `Invalid` if an
// escape is wrong, or if a byte below 0x20 or the end of the text comes before the closing quote.
fn take_escaped<S: Spelling>(text: &str, at: usize, scratch: &mut String) -> Result<usize>
    ensures ok { IfOk result (λ r. (cs : List ℕ) × SpellsUpToQuote cs (92 ∷ drop at text.now) (drop r text.now)
        × (string_bytes scratch.new ≡ string_bytes scratch.old ++ S.spelled (encode_utf8_all cs))) }
    ensures within { IfOk result (λ r. r ≤ length text.now) }
    ensures invalid { result ≡ Err Error.Invalid
        → (cs r : List ℕ) → SpellsUpToQuote cs (92 ∷ drop at text.now) r → ⊥ }
    ensures infallible { S.infallible ≡ true → result ≡ Err Error.Memory → ⊥ }
{
    let bytes = text.as_bytes();
    let mut next = at;
    'escapes: loop {
        let rest = push_escape::<S>(text, next, scratch)?;
        // Another escape often follows at once.
        if byte_at(bytes, rest) == b'\\' {
            next = index_after(bytes, rest, 1);
            continue;
        }
        let tail = take_run::<S>(text, rest, scratch)?;
        match byte_at(bytes, tail) {
            b'\\' => next = index_after(bytes, tail, 1),
            b'"' => return Ok(index_after(bytes, tail, 1)),
            _ => return Err(Error::Invalid),
        }
    }
}

// Makes of the scratch text what it gets for a string, and returns the index after the string's closing quote. `at` is
// the index after its opening quote, and `tail` that of its first backslash. Returns `Memory` if the scratch text cannot
// grow. Returns `Invalid` if an escape is wrong, or if a byte below 0x20 or the end of the text comes before the closing
// quote. Kept out of line, since few strings have a backslash.
#[inline(never)]
fn decode<S: Spelling>(text: &str, at: usize, tail: usize, scratch: &mut String) -> Result<usize>
    requires follows { FollowsAscii text.now at }
    requires order { at ≤ tail }
    requires run { drop tail text.now ≡ after_run is_unescaped (drop at text.now) }
    requires boundary { IsCharBoundary text.now tail }
    requires backslash { slice_index (drop tail text.now) 0 ≡ 92 }
    ensures ok { IfOk result (λ r. (cs : List ℕ) × SpellsUpToQuote cs (drop tail text.now) (drop r text.now)
        × (string_bytes scratch.new ≡ S.spelled (before (drop at text.now) (drop tail text.now) ++ encode_utf8_all cs))) }
    ensures within { IfOk result (λ r. r ≤ length text.now) }
    ensures invalid { result ≡ Err Error.Invalid → (cs r : List ℕ) → SpellsUpToQuote cs (drop tail text.now) r → ⊥ }
    ensures infallible { S.infallible ≡ true → result ≡ Err Error.Memory → ⊥ }
{
    scratch.clear();
    S::push_run(scratch, text_between(text, at, tail))?;
    take_escaped::<S>(text, index_after(text.as_bytes(), tail, 1), scratch)
}

// Takes a string by `decode`, with the same arguments and result. It takes the result apart and makes it again, so
// that the compiler keeps the result for a string without a backslash in registers.
#[inline(always)]
fn take_decoded<S: Spelling>(
    text: &str,
    at: usize,
    tail: usize,
    scratch: &mut String,
) -> Result<usize>
    requires follows { FollowsAscii text.now at }
    requires order { at ≤ tail }
    requires run { drop tail text.now ≡ after_run is_unescaped (drop at text.now) }
    requires boundary { IsCharBoundary text.now tail }
    requires backslash { slice_index (drop tail text.now) 0 ≡ 92 }
    ensures ok { IfOk result (λ r. (cs : List ℕ) × SpellsUpToQuote cs (drop tail text.now) (drop r text.now)
        × (string_bytes scratch.new ≡ S.spelled (before (drop at text.now) (drop tail text.now) ++ encode_utf8_all cs))) }
    ensures within { IfOk result (λ r. r ≤ length text.now) }
    ensures invalid { result ≡ Err Error.Invalid → (cs r : List ℕ) → SpellsUpToQuote cs (drop tail text.now) r → ⊥ }
    ensures infallible { S.infallible ≡ true → result ≡ Err Error.Memory → ⊥ }
{
    match decode::<S>(text, at, tail, scratch) {
        Ok(end) => Ok(end),
        Err(e) => Err(e),
    }
}

/// Takes a string whose opening quote is the byte before `at`. Returns its text and the index after its closing
/// quote. Returns `Invalid` if there is no such string, and `Memory` if the scratch text cannot grow. The scratch text
/// changes only if the string has a backslash.
#[inline(always)]
pub(super) fn take_string<'a, S: Spelling>(
    text: &'a str,
    at: usize,
    scratch: &mut String,
) -> Result<(Text<'a>, usize)>
    requires { FollowsAscii text.now at }
    ensures ok { IfOk result (λ x. (cs : List ℕ) × SpellsUpToQuote cs (drop at text.now) (drop x.1 text.now)
        × (text_of x.0 (encode_utf8_all cs) ≡ encode_utf8_all cs)
        × SpelledText S.spelled x.0 (string_bytes scratch.new) (encode_utf8_all cs)) }
    ensures text { IfOk result (λ x. TakesText x.0 (drop at text.now) (drop x.1 text.now)) }
    ensures within { IfOk result (λ x. x.1 ≤ length text.now) }
    ensures unchanged { IfOk result (λ x. LeavesScratch x.0 scratch.old scratch.new) }
    ensures memory { result ≡ Err Error.Memory → ReachesBackslash (drop at text.now) }
    ensures infallible { S.infallible ≡ true → result ≡ Err Error.Memory → ⊥ }
    ensures invalid { result ≡ Err Error.Invalid → (cs r : List ℕ) → SpellsUpToQuote cs (drop at text.now) r → ⊥ }
{
    let tail = after_unescaped_in_lanes(text, at);
    let bytes = text.as_bytes();
    match byte_at(bytes, tail) {
        b'"' => Ok((
            Text::Input(text_between(text, at, tail)),
            index_after(bytes, tail, 1),
        )),
        b'\\' => {
            let end = take_decoded::<S>(text, at, tail, scratch)?;
            Ok((Text::Scratch, end))
        }
        _ => Err(Error::Invalid),
    }
}
