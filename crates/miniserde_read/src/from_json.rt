//! The trait `FromJson` of types that read themselves from a JSON text. Its modules have the implementations for
//! std's types.
//! An `Event` is a token that begins a value, a `Step` an event of a value.
ghost use Rattle.std.specs.Prelude.{◌≡◌, Bool, true, false, Option, None, Err, IfOk, IfErr, ⊤};
ghost use Rattle.miniserde_model.specs.Step as step;
ghost use Rattle.miniserde_text.specs.Lexer.{event_of_token};
ghost use Rattle.miniserde_model.specs.declared.error.Error.{Error};
ghost use Rattle.miniserde_read.specs.Meaning.{Meaning};
ghost use Rattle.miniserde_read.specs.Rest.{GivesAt, GivesNoneAt};
ghost use Rattle.miniserde_read.specs.Source.{SourceView};
ghost use Rattle.miniserde_read.specs.Events.{EventInRange};

mod arrays;
mod boxes;
mod leaves;
mod maps;
mod options;
mod pairs;
mod sequences;
mod tuples;

use crate::source::Source;
pub use leaves::StdLeaf;
pub use maps::Table;
use miniserde_model::error::{Error, Result};
use miniserde_text::json::lex::Event;

/// A type that reads itself from a JSON text (RFC 8259).
pub trait FromJson: Sized + Drop {
    // Which trees mean which values.
    ghost means: { Meaning Self };

    // The value of a missing field of this type, or `None` if an object without that field's member
    // is an error.
    ghost absent: { Option Self } = { None };

    // If true, `read` never returns `Memory`.
    ghost read_infallible: { Bool } = { false };

    // What holds if `read` returns `Memory`: a statement of the token's event and of the source before and after the
    // call. By default it says nothing.
    ghost lacking: { step.Step → SourceView → SourceView → Type 0 } = { λ _ _ _. ⊤ };

    /// Returns the value of a missing field of this type, or `None` if an object without that field's member is an
    /// error.
    fn missing() -> Option<Self>
        ensures { result ≡ absent };

    /// Reads one value, whose first token is `token`, and takes no more of the source. `token` is the one that was
    /// taken last (the clause `event` asks only that its number is in range), and the source has no error. Returns
    /// `Invalid` if no value that begins with this token, and goes on as the source does, means a value of the type.
    /// Returns `Memory` if an allocation fails.
    fn read<'a>(token: Event<'a>, source: &mut Source<'a>) -> Result<Self>
        requires going { source.old.refused ≡ None }
        requires event { EventInRange (event_of_token token source.old.scratch) }
        ensures going { IfOk result (λ _. source.new.refused ≡ None) }
        ensures ok { IfOk result (λ v. GivesAt means.from_tree (event_of_token token.entry source.old.scratch)
            source.old.rest source.new.rest (means.content v)) }
        ensures invalid { result ≡ Err Error.Invalid
            → GivesNoneAt means.from_tree (event_of_token token.entry source.old.scratch) source.old.rest }
        ensures infallible { read_infallible ≡ true → IfErr result (λ e. e ≡ Error.Invalid) }
        ensures memory { result ≡ Err Error.Memory
            → lacking (event_of_token token.entry source.old.scratch) source.old source.new };
}
