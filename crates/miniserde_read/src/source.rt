//! The source: the rest of a text, from which a type reads itself.
//! An `Event` is a token that begins a value, a `Step` an event of a value.
ghost use Rattle.std.specs.Prelude.{◌≡◌, Bool, List, ℕ, None, Ok, Err, IfOk, IfErr};
ghost use Rattle.std.specs.Cow.{cow_str_bytes};
ghost use Rattle.std.specs.String.{string_bytes};
ghost use Rattle.miniserde_model.specs.Tree.{Members};
ghost use Rattle.miniserde_model.specs.Step as step;
ghost use Rattle.miniserde_model.specs.Lexing.{Starts, Names, Follows};
ghost use Rattle.miniserde_model.specs.Whitespace.{IsWhitespace};
ghost use Rattle.miniserde_text.specs.Lexer.{event_of_token, text_of, is_close, BeginsEscaped, KeepsFirstError};
ghost use Rattle.miniserde_model.specs.declared.error.Error.{Error};
ghost use Rattle.miniserde_read.specs.Events.{event_of};
ghost use Rattle.miniserde_read.specs.Lacking.{EscapedMember};
ghost use Rattle.miniserde_read.specs.Rest.{MembersAt};
ghost use Rattle.miniserde_read.specs.Source.{NameFollows, left_scratch};

use crate::step::Step;
use miniserde_model::error::{Error, Result};
use miniserde_text::json::lex::{After, Event, Kind, Lexer, Text};
use std::alloc::Global;
use std::borrow::CowStr;
use std::marker::Model;
use std::mem;

/// The rest of a JSON text, with a scratch text for decoded strings. The source keeps its first error, and every
/// later call that can fail returns it.
#[derive(Drop)]
pub struct Source<'a> {
    lexer: Lexer<'a>,
    // The decoded text of the last name or string that has a backslash, until it is moved out.
    scratch: String,
    alloc: Global,
}

impl<'a> Model for Source<'a> {
    ghost use Rattle.std.specs.String.{string_bytes};
    ghost use Rattle.miniserde_read.specs.Source.{SourceView};

    ghost Value = { SourceView };

    ghost view = { λ s. record { rest = s.lexer.rest; refused = s.lexer.refused; scratch = string_bytes s.scratch } };
}

impl<'a> Source<'a> {
    /// Returns a source of a whole text. Allocates nothing.
    pub fn new(alloc: Global, text: &'a str) -> Source<'a>
        ensures rest { result.rest ≡ text.now }
        ensures going { result.refused ≡ None }
    {
        Source {
            lexer: Lexer::new(text),
            scratch: String::new(alloc),
            alloc,
        }
    }

    /// Returns a second source with the same rest of the text and the same first error. Its scratch text is its own.
    /// Allocates nothing.
    pub fn fork(&self) -> Source<'a>
        ensures rest { result.rest ≡ self.now.rest }
        ensures refused { result.refused ≡ self.now.refused }
    {
        Source {
            lexer: self.lexer.fork(),
            scratch: String::new(self.alloc),
            alloc: self.alloc,
        }
    }

    /// Returns the allocator for the values that are read.
    #[inline(always)]
    pub fn alloc(&self) -> Global {
        self.alloc
    }

    /// Takes whitespace and the first token of a value. Returns `Invalid` if no token is next, and `Memory` if
    /// decoding a string fails to allocate.
    #[inline(always)]
    pub fn token(&mut self) -> Result<Event<'a>>
        ensures ok { IfOk result (λ e. Starts self.old.rest (event_of_token e self.new.scratch) self.new.rest) }
        ensures invalid { result ≡ Err Error.Invalid → self.old.refused ≡ None
            → (e : step.Step) (r : List ℕ) → Starts self.old.rest e r → ⊥ }
        ensures memory { result ≡ Err Error.Memory → self.old.refused ≡ None → BeginsEscaped self.old.rest }
        ensures first_error { KeepsFirstError self.old.refused result self.new.refused }
    {
        self.lexer.start(&mut self.scratch)
    }

    /// Does what `token` does, but checks a string without decoding it, so it never returns `Memory`.
    #[inline(always)]
    pub(crate) fn token_checked(&mut self) -> Result<Event<'a>>
        ensures ok { IfOk result (λ e. (s : List ℕ) × Starts self.old.rest (event_of_token e s) self.new.rest) }
        ensures invalid { result ≡ Err Error.Invalid → self.old.refused ≡ None
            → (e : step.Step) (r : List ℕ) → Starts self.old.rest e r → ⊥ }
        ensures only { IfErr result (λ e. self.old.refused ≡ None → e ≡ Error.Invalid) }
        ensures first_error { KeepsFirstError self.old.refused result self.new.refused }
    {
        self.lexer.start_checked(&mut self.scratch)
    }

    /// Takes the closing bracket of an object and returns `None`, or takes the comma before a member, its name and
    /// its colon, and returns the name. `first` says that the opening bracket was just taken, so that no comma is
    /// due. Returns `Invalid` if neither is next, and `Memory` if decoding the name fails to allocate.
    #[inline(always)]
    pub fn member(&mut self, first: bool) -> Result<Option<Text<'a>>>
        ensures ok { IfOk result (λ o. NameFollows o self.new.scratch first self.old.rest self.new.rest) }
        ensures invalid { result ≡ Err Error.Invalid → self.old.refused ≡ None
            → (ms : Members) (r : List ℕ) → MembersAt ms first self.old.rest r → ⊥ }
        ensures memory { result ≡ Err Error.Memory → self.old.refused ≡ None → EscapedMember first self.old.rest }
        ensures first_error { KeepsFirstError self.old.refused result self.new.refused }
    {
        match self.lexer.after(Kind::Map, first)? {
            After::Close => Ok(None),
            After::Next => Ok(Some(self.lexer.name(&mut self.scratch)?)),
        }
    }

    /// Takes the closing bracket of a container of the kind, or the comma before its next child.
    /// Returns which of the two is next, or `Invalid` if neither is. `first` says that the opening
    /// bracket was just taken, so that no comma is due.
    #[inline(always)]
    pub fn after(&mut self, kind: Kind, first: bool) -> Result<After>
        ensures ok { IfOk result (λ a. Follows kind first (is_close a) self.old.rest self.new.rest) }
        ensures scratch { self.new.scratch ≡ self.old.scratch }
        ensures invalid { result ≡ Err Error.Invalid → self.old.refused ≡ None
            → (a : Bool) (r : List ℕ) → Follows kind first a self.old.rest r → ⊥ }
        ensures only { IfErr result (λ e. self.old.refused ≡ None → e ≡ Error.Invalid) }
        ensures first_error { KeepsFirstError self.old.refused result self.new.refused }
    {
        self.lexer.after(kind, first)
    }

    /// Takes a member's name and its colon, and returns the name. Returns `Invalid` if they are not next, and
    /// `Memory` if decoding the name fails to allocate.
    #[inline(always)]
    pub fn name(&mut self) -> Result<Text<'a>>
        ensures ok { IfOk result (λ t. Names self.old.rest (text_of t self.new.scratch) self.new.rest) }
        ensures invalid { result ≡ Err Error.Invalid → self.old.refused ≡ None
            → (n r : List ℕ) → Names self.old.rest n r → ⊥ }
        ensures memory { result ≡ Err Error.Memory → self.old.refused ≡ None → BeginsEscaped self.old.rest }
        ensures first_error { KeepsFirstError self.old.refused result self.new.refused }
    {
        self.lexer.name(&mut self.scratch)
    }

    /// Does what `name` does, but checks the name without decoding it, so it never returns `Memory`.
    #[inline(always)]
    pub(crate) fn name_checked(&mut self) -> Result<Text<'a>>
        ensures ok { IfOk result (λ _. (n : List ℕ) × Names self.old.rest n self.new.rest) }
        ensures invalid { result ≡ Err Error.Invalid → self.old.refused ≡ None
            → (n r : List ℕ) → Names self.old.rest n r → ⊥ }
        ensures only { IfErr result (λ e. self.old.refused ≡ None → e ≡ Error.Invalid) }
        ensures first_error { KeepsFirstError self.old.refused result self.new.refused }
    {
        self.lexer.name_checked(&mut self.scratch)
    }

    /// Returns `Invalid` if more than whitespace is left.
    pub fn end(&mut self) -> Result<()>
        ensures ok { IfOk result (λ _. IsWhitespace self.old.rest) }
        ensures scratch { self.new.scratch ≡ self.old.scratch }
        ensures invalid { result ≡ Err Error.Invalid → self.old.refused ≡ None → IsWhitespace self.old.rest → ⊥ }
        ensures only { IfErr result (λ e. self.old.refused ≡ None → e ≡ Error.Invalid) }
        ensures first_error { KeepsFirstError self.old.refused result self.new.refused }
    {
        self.lexer.end()
    }

    /// Returns the text of a name or a string. It must be the one that was taken last, since a later one may replace
    /// the scratch text.
    #[inline(always)]
    pub fn text<'b>(&'b self, text: Text<'b>) -> &'b str
        ensures { result.now ≡ text_of text.entry self.now.scratch }
    {
        match text {
            Text::Input(s) => s,
            Text::Scratch => &self.scratch,
        }
    }

    /// Returns the text of a name or a string, which borrows nothing of the source. Moves a decoded text out of the
    /// scratch text, which is empty afterwards; for a borrowed text the scratch text stays. It must be the text that was
    /// taken last, since a later name or string may replace the scratch text.
    #[inline(always)]
    pub fn take_text(&mut self, text: Text<'a>) -> CowStr<'a>
        ensures text { cow_str_bytes result ≡ text_of text.entry self.old.scratch }
        ensures rest { self.new.rest ≡ self.old.rest }
        ensures refused { self.new.refused ≡ self.old.refused }
        ensures scratch { self.new.scratch ≡ left_scratch text.entry self.old.scratch }
    {
        match text {
            Text::Input(text) => CowStr::Borrowed(text),
            Text::Scratch => CowStr::Owned(mem::replace(
                &mut self.scratch,
                String::new(self.alloc),
            )),
        }
    }

    /// Returns the event of `token`, which must be the one that was taken last.
    #[inline(always)]
    pub fn step<'b>(&'b self, token: Event<'b>) -> Step<'b>
        ensures { event_of result ≡ event_of_token token.entry self.now.scratch }
    {
        match token {
            Event::Null => Step::Null,
            Event::Bool(b) => Step::Bool(b),
            Event::Negative(n) => Step::Negative(n),
            Event::Nonnegative(n) => Step::Nonnegative(n),
            Event::Number(x) => Step::Float(x),
            Event::Str(t) => Step::Str(self.text(t)),
            Event::SeqStart => Step::Seq,
            Event::MapStart => Step::Map,
        }
    }
}
