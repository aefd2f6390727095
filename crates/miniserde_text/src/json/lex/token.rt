//! Takes the first token of a value, or the name of a member.
//! An `Event` is a token that begins a value, a `Step` an event of a value.
ghost use Rattle.std.specs.Prelude.{◌≡◌, ◌-◌, ◌<◌, ◌≤◌, [], drop, length, ℕ, List, true, Err, IfOk, IfSome};
ghost use Rattle.std.specs.Prelude.{option_map, slice_index};
ghost use Rattle.std.specs.String.{string_bytes};
ghost use Rattle.miniserde_model.specs.Step as step;
ghost use Rattle.miniserde_text.specs.Lexer.{event_of_token, text_of, LeavesScratch, TokenLeavesScratch};
ghost use Rattle.miniserde_text.specs.Lexer.{SpelledText, SpelledToken};
ghost use Rattle.miniserde_text.specs.private.Reading.{word_at, token_by};
ghost use Rattle.miniserde_text.specs.private.LexerParts.{TakesToken, TakesName, TokenTakesText, NameTakesText};
ghost use Rattle.miniserde_text.specs.private.LexerParts.{ReachesBackslash};

use super::bytes::index_after;
use super::number::take_number;
use super::space::after_space;
use super::spelling::Spelling;
use super::string::take_string;
use super::{Event, Text};
use miniserde_model::error::{Error, Result};

// Returns the index after `word`, whose last byte is ASCII and not 0, or `None` if the text does not have the word at
// `at`. The caller makes the token, so that the compiler keeps the token of a number, which it returns too, in
// registers.
#[tactic(auto, unfolding(crate::specs::private::Reading::word_at))]
fn after_word(bytes: &[u8], at: usize, word: &[u8]) -> Option<usize>
    requires within { at ≤ length bytes.now }
    requires some { 0 < length word.now }
    requires there { 0 < slice_index word.now (length word.now - 1) }
    requires ascii { slice_index word.now (length word.now - 1) < 128 }
    ensures value { (e : step.Step) → option_map (λ end. (e, drop end bytes.now)) result
        ≡ word_at word.now e (drop at bytes.now) }
    ensures within { IfSome result (λ end. end ≤ length bytes.now) }
{
    if bytes[at..].starts_with(word) {
        Some(index_after(bytes, at, word.len()))
    } else {
        None
    }
}

// Takes the first token of a value that is no string. Returns the token and the index after it, or `None` if there is
// none. `first` is the byte at `at`.
#[inline(always)]
#[tactic(auto, unfolding(crate::specs::private::Reading::token_by))]
fn take_plain<'a>(text: &'a str, at: usize, first: u8) -> Option<(Event<'a>, usize)>
    requires within { at ≤ length text.now }
    requires first { first ≡ slice_index (drop at text.now) 0 }
    ensures value { option_map (λ x. (event_of_token x.0 [], drop x.1 text.now)) result
        ≡ token_by first (drop at text.now) }
    ensures within { IfSome result (λ x. x.1 ≤ length text.now) }
{
    let bytes = text.as_bytes();
    match first {
        b'n' => Some((Event::Null, after_word(bytes, at, b"null")?)),
        b't' => Some((Event::Bool(true), after_word(bytes, at, b"true")?)),
        b'f' => Some((Event::Bool(false), after_word(bytes, at, b"false")?)),
        b'[' => Some((Event::SeqStart, index_after(bytes, at, 1))),
        b'{' => Some((Event::MapStart, index_after(bytes, at, 1))),
        _ => take_number(text, at, first),
    }
}

/// Takes the first token of a value. Returns the token and the index after it, `Invalid` if there is none, or `Memory`
/// if the scratch text cannot grow. `first` is the byte at `at`.
#[inline(always)]
pub(super) fn take_token<'a, S: Spelling>(
    text: &'a str,
    at: usize,
    first: u8,
    scratch: &mut String,
) -> Result<(Event<'a>, usize)>
    requires within { at ≤ length text.now }
    requires first { first ≡ slice_index (drop at text.now) 0 }
    ensures ok { IfOk result (λ x. (s : List ℕ)
        × TakesToken (drop at text.now) (event_of_token x.0 s) (drop x.1 text.now)
        × SpelledToken S.spelled x.0 (string_bytes scratch.new) s) }
    ensures text { IfOk result (λ x. TokenTakesText x.0 (drop at text.now) (drop x.1 text.now)) }
    ensures within { IfOk result (λ x. x.1 ≤ length text.now) }
    ensures unchanged { IfOk result (λ x. TokenLeavesScratch x.0 scratch.old scratch.new) }
    ensures memory { result ≡ Err Error.Memory
        → (slice_index (drop at text.now) 0 ≡ 34) × ReachesBackslash (drop 1 (drop at text.now)) }
    ensures infallible { S.infallible ≡ true → result ≡ Err Error.Memory → ⊥ }
    ensures invalid { result ≡ Err Error.Invalid
        → (e : step.Step) (r : List ℕ) → TakesToken (drop at text.now) e r → ⊥ }
{
    if first == b'"' {
        let (text, end) = take_string::<S>(text, index_after(text.as_bytes(), at, 1), scratch)?;
        return Ok((Event::Str(text), end));
    }
    match take_plain(text, at, first) {
        Some(taken) => Ok(taken),
        None => Err(Error::Invalid),
    }
}

/// Takes a string, whitespace and a colon. Returns the string's text and the index after the colon, `Invalid` if they
/// are not there, or `Memory` if the scratch text cannot grow. `first` is the byte at `at`.
pub(super) fn take_name<'a, S: Spelling>(
    text: &'a str,
    at: usize,
    first: u8,
    scratch: &mut String,
) -> Result<(Text<'a>, usize)>
    requires { first ≡ slice_index (drop at text.now) 0 }
    ensures ok { IfOk result (λ x. (n : List ℕ) × TakesName (drop at text.now) (text_of x.0 n) (drop x.1 text.now)
        × SpelledText S.spelled x.0 (string_bytes scratch.new) n) }
    ensures text { IfOk result (λ x. NameTakesText x.0 (drop at text.now) (drop x.1 text.now)) }
    ensures within { IfOk result (λ x. x.1 ≤ length text.now) }
    ensures unchanged { IfOk result (λ x. LeavesScratch x.0 scratch.old scratch.new) }
    ensures memory { result ≡ Err Error.Memory
        → (slice_index (drop at text.now) 0 ≡ 34) × ReachesBackslash (drop 1 (drop at text.now)) }
    ensures infallible { S.infallible ≡ true → result ≡ Err Error.Memory → ⊥ }
    ensures invalid { result ≡ Err Error.Invalid
        → (n r : List ℕ) → TakesName (drop at text.now) n r → ⊥ }
{
    if first != b'"' {
        return Err(Error::Invalid);
    }
    let bytes = text.as_bytes();
    let (name, end) = take_string::<S>(text, index_after(bytes, at, 1), scratch)?;
    let (colon, byte) = after_space(bytes, end);
    if byte != b':' {
        return Err(Error::Invalid);
    }
    Ok((name, index_after(bytes, colon, 1)))
}
