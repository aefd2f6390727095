//! The trait of types whose values are single tokens.
//! An `Event` is a token that begins a value, a `Step` an event of a value.
ghost use Rattle.std.specs.Prelude.{◌≡◌, Bool, true, false, None, Some, Err, IfOk, IfErr, ⊤};
ghost use Rattle.miniserde_model.specs.Step as step;
ghost use Rattle.miniserde_text.specs.Lexer.{event_of_token};
ghost use Rattle.miniserde_model.specs.declared.error.Error.{Error};
ghost use Rattle.miniserde_read.specs.Meaning.{Meaning};
ghost use Rattle.miniserde_read.specs.Rest.{GivesAt, GivesNoneAt};
ghost use Rattle.miniserde_read.specs.Events.{event_of, EventInRange, on_leaf, OnlyLeaves};

mod integers;
mod words;

use crate::source::Source;
use crate::step::Step;
use miniserde_model::error::{Error, Result};
use miniserde_text::json::lex::Event;
use std::alloc::Global;

/// A type whose values are `null`, booleans, numbers or strings: one token each.
pub trait Leaf: Drop {
    // Which trees mean which values.
    ghost means: { Meaning Self };

    // No list and no object means a value.
    ghost only_leaves: { OnlyLeaves means.from_tree };

    // If true, `from_step` never returns `Memory`.
    ghost read_infallible: { Bool } = { false };

    // What holds of the event if `from_step` returns `Memory`. By default it says nothing.
    ghost lacking: { step.Step → Type 0 } = { λ _. ⊤ };

    /// Returns the value that the event means, or `Invalid` if it means none of this type. Returns `Memory` if an
    /// allocation fails.
    fn from_step(alloc: Global, event: Step<'_>) -> Result<Self>
        requires { EventInRange (event_of event) }
        ensures ok { IfOk result (λ v. on_leaf means.from_tree (event_of event.entry) ≡ Some (means.content v)) }
        ensures invalid { result ≡ Err Error.Invalid → on_leaf means.from_tree (event_of event.entry) ≡ None }
        ensures infallible { read_infallible ≡ true → IfErr result (λ e. e ≡ Error.Invalid) }
        ensures memory { result ≡ Err Error.Memory → lacking (event_of event.entry) };
}

/// Returns the value that the token means, or `Invalid` if it means none of this type, or `Memory` if an allocation
/// fails. `token` must be the one that was taken last: a text that was decoded is read from the source's scratch text.
/// Takes nothing from the source.
#[inline(always)]
pub fn read_leaf<'a, T: Leaf>(token: Event<'a>, source: &mut Source<'a>) -> Result<T>
    requires { EventInRange (event_of_token token source.old.scratch) }
    ensures unchanged { source.new ≡ source.old }
    ensures ok { IfOk result (λ v. GivesAt T.means.from_tree (event_of_token token.entry source.old.scratch)
        source.old.rest source.old.rest (T.means.content v)) }
    ensures invalid { result ≡ Err Error.Invalid
        → GivesNoneAt T.means.from_tree (event_of_token token.entry source.old.scratch) source.old.rest }
    ensures infallible { T.read_infallible ≡ true → IfErr result (λ e. e ≡ Error.Invalid) }
    ensures memory { result ≡ Err Error.Memory → T.lacking (event_of_token token.entry source.old.scratch) }
{
    T::from_step(source.alloc(), source.step(token))
}
