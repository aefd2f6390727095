//! The lexer: each call takes one token of a JSON text, or the punctuation between two, and so moves past it. The
//! grammar is that of RFC 8259.
//!
//! `start` takes the first token of a value, `after` the punctuation after a child of a container or after its
//! opening bracket, `name` a member's name with its colon. `end` checks that the text ends.
//! An `Event` is a token that begins a value, a `Step` an event of a value.
ghost use Rattle.std.specs.Prelude.{◌≡◌, ◌≤◌, length, List, ℕ, Bool, true, None, Some, Err, IfOk, IfErr, IfSome};
ghost use Rattle.std.specs.String.{string_bytes};
ghost use Rattle.miniserde_model.specs.Whitespace.{IsWhitespace};
ghost use Rattle.miniserde_model.specs.Step as punctuation;
ghost use Rattle.miniserde_model.specs.Lexing.{Starts, Names, Follows};
ghost use Rattle.miniserde_text.specs.Lexer.{event_of_token, text_of, is_close, TokenBorrowedIfPlain, NameBorrowedIfPlain, Blank};
ghost use Rattle.miniserde_text.specs.Lexer.{KeepsFirstError, LeavesScratch, TokenLeavesScratch, BeginsEscaped, SpelledText, SpelledToken};
ghost use Rattle.miniserde_text.specs.private.Escape.{escapes};
ghost use Rattle.miniserde_model.specs.declared.error.Error.{Error};

mod bytes;
mod escape;
pub(super) mod number;
mod punctuation;
mod space;
mod spelling;
mod string;
mod tables;
mod token;

use self::punctuation::take_punctuation;
use self::space::after_space;
use self::spelling::{Checked, Decoded, Escaped, Spelling};
use self::token::{take_name, take_token};
use miniserde_model::error::{Error, Result};
pub use miniserde_model::kind::Kind;
use std::marker::Model;

/// The text of a string: borrowed from the input, or decoded into the scratch text.
#[derive(Clone, Copy, Debug, Drop)]
pub enum Text<'a> {
    /// The bytes between the quotes, if there is no backslash among them.
    Input(&'a str),
    /// The decoded text, which is all of the scratch text.
    Scratch,
}

/// The first token of a value.
#[derive(Clone, Copy, Debug, Drop)]
pub enum Event<'a> {
    Null,
    Bool(bool),
    /// An integer that is written with `-`, from -2^63 to 0.
    Negative(i64),
    /// An integer that is written without `-`, below 2^64.
    Nonnegative(u64),
    /// A number with a fraction or an exponent, or beyond 64 bits, as its text.
    Number(&'a str),
    Str(Text<'a>),
    /// `[`
    SeqStart,
    /// `{`
    MapStart,
}

/// What a container has next.
#[derive(Clone, Copy, Debug, Drop)]
pub enum After {
    /// Its closing bracket, which is taken.
    Close,
    /// An element or a member must follow. The comma before it, if it needs one, is taken.
    Next,
}

/// A JSON text that is being read. The lexer keeps its first error, and every later call that can fail returns it. A
/// contract sees the rest of the text and that error.
///
/// To read `[1 , true]`, call `start`, `after(Seq, true)`, `start`, `after(Seq, false)`, `start`, `after(Seq, false)`
/// and `end`. They return `SeqStart`, `Next`, `Nonnegative(1)`, `Next`, `Bool(true)`, `Close` and `Ok`.
///
/// To read `{"a":null}`, call `start`, `after(Map, true)`, `name`, `start`, `after(Map, false)` and `end`. They
/// return `MapStart`, `Next`, `a`, `Null`, `Close` and `Ok`.
///
/// For `{ }`, `start`, `after(Map, true)` and `end` return `MapStart`, `Close` and `Ok`. For `[}`, `start` returns
/// `SeqStart`, and `after(Seq, true)` and every later call that can fail return `Invalid`. For `[1,]`, `start` returns
/// `Invalid` after the comma was taken.
#[derive(Drop)]
pub struct Lexer<'a> {
    // The whole text.
    text: &'a str,
    // The index of the first byte that is left. After an error nothing is left, so each call fails by itself.
    at: usize,
    // The first error.
    refused: Option<Error>,
    ghost within: { at ≤ length text.now },
}

impl<'a> Model for Lexer<'a> {
    ghost use Rattle.std.specs.Prelude.{◌≡◌, [], drop, IfSome};
    ghost use Rattle.miniserde_text.specs.Lexer.{LexerView};

    ghost Value = { LexerView };

    ghost view = { λ l. record { rest = drop l.at l.text.now; refused = l.refused } };

    ghost invariant = { λ l. IfSome l.refused (λ _. drop l.at l.text.now ≡ []) };
}

impl<'a> Lexer<'a> {
    /// Returns a lexer of a whole text.
    pub fn new(j: &'a str) -> Lexer<'a>
        ensures { result ≡ record { rest = j.now; refused = None } }
    {
        Lexer {
            text: j,
            at: 0,
            refused: None,
        }
    }

    /// Returns a second lexer with the same rest of the text and the same first error.
    pub fn fork(&self) -> Lexer<'a>
        ensures { result ≡ self.now }
    {
        Lexer {
            text: self.text,
            at: self.at,
            refused: self.refused,
        }
    }

    /// Takes the whitespace that is next, if there is any.
    #[inline(always)]
    pub fn skip(&mut self)
        ensures space { Blank self.old.rest self.new.rest }
        ensures sticky { self.new.refused ≡ self.old.refused }
    {
        let bytes = self.text.as_bytes();
        // A byte above the space is no whitespace, so most calls end here.
        if self.at < bytes.len() && bytes[self.at] > b' ' {
            return;
        }
        let (at, _) = after_space(bytes, self.at);
        self.at = at;
    }

    /// Returns how many bytes are left.
    #[inline(always)]
    pub fn left(&self) -> usize
        ensures { result ≡ length self.now.rest }
    {
        self.text.len() - self.at
    }

    /// Takes whitespace and the first token of a value: a word, a number, a string, `[` or `{`. A string with a
    /// backslash is decoded into `scratch`. Returns `Memory` if decoding fails to allocate, and otherwise `Invalid` if
    /// no token is next. After an error `scratch` may contain anything.
    #[inline(always)]
    pub fn start(&mut self, scratch: &mut String) -> Result<Event<'a>>
        ensures ok { IfOk result (λ event. Starts self.old.rest (event_of_token event (string_bytes scratch.new)) self.new.rest) }
        ensures text { IfOk result (λ event. TokenBorrowedIfPlain event self.old.rest self.new.rest) }
        ensures scratch { IfOk result (λ event. TokenLeavesScratch event scratch.old scratch.new) }
        ensures invalid { result ≡ Err Error.Invalid → self.old.refused ≡ None
            → (e : punctuation.Step) (r : List ℕ) → Starts self.old.rest e r → ⊥ }
        ensures memory { result ≡ Err Error.Memory → self.old.refused ≡ None → BeginsEscaped self.old.rest }
        ensures first_error { KeepsFirstError self.old.refused result self.new.refused }
        ensures unchanged { IfSome self.old.refused (λ _. self.new ≡ self.old) }
    {
        self.take_start::<Decoded>(scratch)
    }

    /// Does what `start` does, but `scratch` has the decoded text by the escape rule, as it is written between quotes.
    #[doc(hidden)]
    #[inline(always)]
    pub fn start_escaped(&mut self, scratch: &mut String) -> Result<Event<'a>>
        ensures ok { IfOk result (λ event. (s : List ℕ) × Starts self.old.rest (event_of_token event s) self.new.rest
            × SpelledToken escapes event (string_bytes scratch.new) s) }
        ensures text { IfOk result (λ event. TokenBorrowedIfPlain event self.old.rest self.new.rest) }
        ensures invalid { result ≡ Err Error.Invalid → self.old.refused ≡ None
            → (e : punctuation.Step) (r : List ℕ) → Starts self.old.rest e r → ⊥ }
        ensures first_error { KeepsFirstError self.old.refused result self.new.refused }
        ensures unchanged { IfSome self.old.refused (λ _. self.new ≡ self.old) }
    {
        self.take_start::<Escaped>(scratch)
    }

    /// Does what `start` does, but checks a string without decoding it, so it never returns `Memory`. What is in
    /// `scratch` has no meaning then.
    #[inline(always)]
    pub fn start_checked(&mut self, scratch: &mut String) -> Result<Event<'a>>
        ensures ok { IfOk result (λ event. (s : List ℕ) × Starts self.old.rest (event_of_token event s) self.new.rest) }
        ensures invalid { result ≡ Err Error.Invalid → self.old.refused ≡ None
            → (e : punctuation.Step) (r : List ℕ) → Starts self.old.rest e r → ⊥ }
        ensures only { IfErr result (λ e. self.old.refused ≡ None → e ≡ Error.Invalid) }
        ensures first_error { KeepsFirstError self.old.refused result self.new.refused }
        ensures unchanged { IfSome self.old.refused (λ _. self.new ≡ self.old) }
    {
        self.take_start::<Checked>(scratch)
    }

    // Takes whitespace and the first token of a value. For a string with a backslash the scratch text gets what `S` says.
    #[inline(always)]
    fn take_start<S: Spelling>(&mut self, scratch: &mut String) -> Result<Event<'a>>
        ensures ok { IfOk result (λ event. (s : List ℕ) × Starts self.old.rest (event_of_token event s) self.new.rest
            × SpelledToken S.spelled event (string_bytes scratch.new) s) }
        ensures text { IfOk result (λ event. TokenBorrowedIfPlain event self.old.rest self.new.rest) }
        ensures scratch { IfOk result (λ event. TokenLeavesScratch event scratch.old scratch.new) }
        ensures invalid { result ≡ Err Error.Invalid → self.old.refused ≡ None
            → (e : punctuation.Step) (r : List ℕ) → Starts self.old.rest e r → ⊥ }
        ensures memory { result ≡ Err Error.Memory → self.old.refused ≡ None → BeginsEscaped self.old.rest }
        ensures infallible { S.infallible ≡ true → result ≡ Err Error.Memory → self.old.refused ≡ None → ⊥ }
        ensures first_error { KeepsFirstError self.old.refused result self.new.refused }
        ensures unchanged { IfSome self.old.refused (λ _. self.new ≡ self.old) }
    {
        let (at, first) = after_space(self.text.as_bytes(), self.at);
        match take_token::<S>(self.text, at, first, scratch) {
            Ok((event, end)) => {
                self.at = end;
                Ok(event)
            }
            Err(e) => Err(self.refuse(e)),
        }
    }

    /// Takes whitespace and the name of a member: a string, whitespace and `:`. A name with a backslash is decoded
    /// into `scratch`. Returns `Memory` if decoding fails to allocate, and otherwise `Invalid` if no name is next.
    /// After an error `scratch` may contain anything.
    #[inline(always)]
    pub fn name(&mut self, scratch: &mut String) -> Result<Text<'a>>
        ensures ok { IfOk result (λ t. Names self.old.rest (text_of t (string_bytes scratch.new)) self.new.rest) }
        ensures text { IfOk result (λ t. NameBorrowedIfPlain t self.old.rest self.new.rest) }
        ensures scratch { IfOk result (λ t. LeavesScratch t scratch.old scratch.new) }
        ensures invalid { result ≡ Err Error.Invalid → self.old.refused ≡ None
            → (n r : List ℕ) → Names self.old.rest n r → ⊥ }
        ensures memory { result ≡ Err Error.Memory → self.old.refused ≡ None → BeginsEscaped self.old.rest }
        ensures first_error { KeepsFirstError self.old.refused result self.new.refused }
        ensures unchanged { IfSome self.old.refused (λ _. self.new ≡ self.old) }
    {
        self.take_name::<Decoded>(scratch)
    }

    /// Does what `name` does, but checks the name without decoding it, so it never returns `Memory`. What is in
    /// `scratch` has no meaning then.
    #[inline(always)]
    pub fn name_checked(&mut self, scratch: &mut String) -> Result<Text<'a>>
        ensures ok { IfOk result (λ t. (n : List ℕ) × Names self.old.rest n self.new.rest) }
        ensures invalid { result ≡ Err Error.Invalid → self.old.refused ≡ None
            → (n r : List ℕ) → Names self.old.rest n r → ⊥ }
        ensures only { IfErr result (λ e. self.old.refused ≡ None → e ≡ Error.Invalid) }
        ensures first_error { KeepsFirstError self.old.refused result self.new.refused }
        ensures unchanged { IfSome self.old.refused (λ _. self.new ≡ self.old) }
    {
        self.take_name::<Checked>(scratch)
    }

    // Takes whitespace and the name of a member. For a name with a backslash the scratch text gets what `S` says.
    #[inline(always)]
    fn take_name<S: Spelling>(&mut self, scratch: &mut String) -> Result<Text<'a>>
        ensures ok { IfOk result (λ t. (n : List ℕ) × Names self.old.rest (text_of t n) self.new.rest
            × SpelledText S.spelled t (string_bytes scratch.new) n) }
        ensures text { IfOk result (λ t. NameBorrowedIfPlain t self.old.rest self.new.rest) }
        ensures scratch { IfOk result (λ t. LeavesScratch t scratch.old scratch.new) }
        ensures invalid { result ≡ Err Error.Invalid → self.old.refused ≡ None
            → (n r : List ℕ) → Names self.old.rest n r → ⊥ }
        ensures memory { result ≡ Err Error.Memory → self.old.refused ≡ None → BeginsEscaped self.old.rest }
        ensures infallible { S.infallible ≡ true → result ≡ Err Error.Memory → self.old.refused ≡ None → ⊥ }
        ensures first_error { KeepsFirstError self.old.refused result self.new.refused }
        ensures unchanged { IfSome self.old.refused (λ _. self.new ≡ self.old) }
    {
        let (at, first) = after_space(self.text.as_bytes(), self.at);
        match take_name::<S>(self.text, at, first, scratch) {
            Ok((text, end)) => {
                self.at = end;
                Ok(text)
            }
            Err(e) => Err(self.refuse(e)),
        }
    }

    /// Takes whitespace, and the closing bracket of a container of the kind or the comma before its
    /// next child. Returns `Close` or `Next`, or `Invalid` if neither is there. `first` says that the
    /// opening bracket was just taken. Then no comma is due: the call returns `Next` if the next byte
    /// is no closing bracket, and does not take that byte.
    #[inline(always)]
    pub fn after(&mut self, kind: Kind, first: bool) -> Result<After>
        ensures ok { IfOk result (λ a. Follows kind first (is_close a) self.old.rest self.new.rest) }
        ensures invalid { result ≡ Err Error.Invalid → self.old.refused ≡ None
            → (a : Bool) (r : List ℕ) → Follows kind first a self.old.rest r → ⊥ }
        ensures only { IfErr result (λ e. self.old.refused ≡ None → e ≡ Error.Invalid) }
        ensures first_error { KeepsFirstError self.old.refused result self.new.refused }
        ensures unchanged { IfSome self.old.refused (λ _. self.new ≡ self.old) }
    {
        let bytes = self.text.as_bytes();
        let (at, byte) = after_space(bytes, self.at);
        match take_punctuation(kind, first, bytes, at, byte) {
            Some((answer, end)) => {
                self.at = end;
                Ok(answer)
            }
            None => Err(self.refuse(Error::Invalid)),
        }
    }

    /// Returns `Invalid` if more than whitespace is left. If it returns `Ok`, it takes nothing.
    pub fn end(&mut self) -> Result<()>
        ensures ok { IfOk result (λ _. (self.new ≡ self.old) × IsWhitespace self.old.rest) }
        ensures invalid { result ≡ Err Error.Invalid → self.old.refused ≡ None → IsWhitespace self.old.rest → ⊥ }
        ensures only { IfErr result (λ e. self.old.refused ≡ None → e ≡ Error.Invalid) }
        ensures first_error { KeepsFirstError self.old.refused result self.new.refused }
        ensures unchanged { IfSome self.old.refused (λ _. self.new ≡ self.old) }
    {
        if let Some(e) = self.refused {
            return Err(e);
        }
        let bytes = self.text.as_bytes();
        let (at, _) = after_space(bytes, self.at);
        if at == bytes.len() {
            return Ok(());
        }
        Err(self.refuse(Error::Invalid))
    }

    // Returns the first error of the lexer. If there is none yet, keeps `e` as the first and leaves nothing of the text.
    // Kept out of line, since it is seldom called.
    #[cold]
    #[inline(never)]
    fn refuse(&mut self, e: Error) -> Error
        ensures kept { self.new.refused ≡ Some result }
        ensures first { self.old.refused ≡ None → result ≡ e }
        ensures sticky { IfSome self.old.refused (λ first. (result ≡ first) × (self.new ≡ self.old)) }
    {
        if let Some(first) = self.refused {
            return first;
        }
        self.refused = Some(e);
        self.at = self.text.len();
        e
    }
}
