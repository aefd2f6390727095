//! The trait `Checked` of newtypes with a check, how one is read, and how a value is read that is written as a string.
//! An `Event` is a token that begins a value, a `Step` an event of a value.
ghost use Rattle.std.specs.Prelude.{◌≡◌, ◌↔◌, Bool, true, Some, None, Ok, Err, IfOk, IfErr, IfSome, IsSome};
ghost use Rattle.miniserde_text.specs.Lexer.{event_of_token};
ghost use Rattle.miniserde_model.specs.declared.error.Error.{Error};
ghost use Rattle.miniserde_read.specs.Meaning.{Meaning};
ghost use Rattle.miniserde_read.specs.Calls.{Reads};
ghost use Rattle.miniserde_read.specs.Events.{event_of, EventInRange, IsStringEvent, on_leaf};
ghost use Rattle.miniserde_read.specs.Newtypes.{checked_meaning, parsed_of, SameMeaning};

use crate::from_json::FromJson;
use crate::source::Source;
use crate::step::Step;
use miniserde_keys::TextValue;
use miniserde_model::error::{Error, Result};
use miniserde_text::json::lex::Event;
use std::alloc::Global;

/// A newtype with a check: `new` makes one of each value of another type that the check accepts, and of no other. Which
/// values the check accepts is said of their contents.
pub trait Checked: Sized + Drop {
    /// The type of the value inside.
    type Inner: FromJson;

    // The value inside.
    ghost inner: { Self → Self.Inner };

    // The meaning of the inner type.
    ghost means: { Meaning Self.Inner };

    // Whether the check accepts a value of the content.
    ghost accepts: { means.Content → Bool };

    /// Returns the newtype of a value, or `None` if the check does not accept it.
    fn new(value: Self::Inner) -> Option<Self>
        ensures some { IfSome result (λ v. inner v ≡ value) }
        ensures accepted { IsSome result ↔ (accepts (means.content value) ≡ true) };

    /// Returns the value inside, which the check accepts.
    fn get(&self) -> &Self::Inner
        ensures inner { result.now ≡ inner self.now }
        ensures accepted { accepts (means.content (inner self.now)) ≡ true };

    // `means` is the meaning by which the inner type is read.
    ghost same: { SameMeaning Self.Inner.means means };
}

/// Reads a newtype with a check, and takes no more of the source. `token` is its first token, and was taken last.
/// Returns `Invalid` if no prefix of the text, from that token on, means a value of the inner type that the check
/// accepts, and `Memory` if an allocation fails.
pub fn read_checked<'a, N: Checked>(token: Event<'a>, source: &mut Source<'a>) -> Result<N>
    requires going { source.old.refused ≡ None }
    requires event { EventInRange (event_of_token token source.old.scratch) }
    ensures reads { Reads (checked_meaning N.means N.accepts N.inner).from_tree
        (checked_meaning N.means N.accepts N.inner).content
        (event_of_token token.entry source.old.scratch) source.old result source.new }
    ensures memory { result ≡ Err Error.Memory
        → N.Inner.lacking (event_of_token token.entry source.old.scratch) source.old source.new }
    ensures infallible { N.Inner.read_infallible ≡ true → IfErr result (λ e. e ≡ Error.Invalid) }
{
    match N::new(<N::Inner as FromJson>::read(token, source)?) {
        Some(value) => Ok(value),
        None => Err(Error::Invalid),
    }
}

/// Returns the value that the event's string is parsed as. Returns `Invalid` if the event is no string, or if its
/// string is parsed as no value, and `Memory` if the event is a string and an allocation fails.
pub fn text_value_from_step<T: TextValue>(alloc: Global, event: Step<'_>) -> Result<T>
    ensures ok { IfOk result (λ v. on_leaf (parsed_of T.parsed) (event_of event.entry) ≡ Some (T.content v)) }
    ensures invalid { result ≡ Err Error.Invalid → on_leaf (parsed_of T.parsed) (event_of event.entry) ≡ None }
    ensures infallible { T.parse_infallible ≡ true → IfErr result (λ e. e ≡ Error.Invalid) }
    ensures memory { result ≡ Err Error.Memory → IsStringEvent (event_of event.entry) }
{
    match event {
        Step::Str(text) => T::parse(alloc, text),
        _ => Err(Error::Invalid),
    }
}
