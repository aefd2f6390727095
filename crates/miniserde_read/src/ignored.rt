//! The type of values that are read and not kept.
ghost use Rattle.std.specs.Prelude.{◌≡◌, ◌<◌, List, ℕ, None, Some, Ok, Err, IfOk, length};
ghost use Rattle.miniserde_model.specs.Tree.{Tree};
ghost use Rattle.miniserde_model.specs.private.Reading.{due};
ghost use Rattle.miniserde_text.specs.Lexer.{event_of_token};
ghost use Rattle.miniserde_model.specs.declared.error.Error.{Error};
ghost use Rattle.miniserde_read.specs.Meanings.{ignored_meaning};
ghost use Rattle.miniserde_read.specs.Rest.{ValueAt};
ghost use Rattle.miniserde_read.specs.Due.{ReadsDue, RejectsDue};
ghost use Rattle.miniserde_text.specs.private.Moments.{first_or_after};
ghost use Rattle.miniserde_text.specs.private.EventRuns.{text_at, Reaches, NeverRuns};
ghost use Rattle.miniserde_text.specs.private.Stack.{innermost};

use crate::from_json::FromJson;
use crate::source::Source;
use miniserde_model::error::{Error, Result};
use miniserde_text::json::lex::{After, Event, Kind};
use miniserde_text::stack::Stack;

/// Any JSON value, of which nothing is kept. Reading it does not recurse. It allocates 32 bytes for up to 256 levels of
/// depth, at most two bits a level beyond that (three while they grow), and room for the decoded text if the value is
/// itself a string with a backslash.
#[derive(Drop)]
pub struct Ignored {}

impl FromJson for Ignored {
    ghost means = { ignored_meaning };

    fn missing() -> Option<Ignored> {
        None
    }

    fn read<'a>(token: Event<'a>, source: &mut Source<'a>) -> Result<Ignored> {
        skip(token, source)?;
        Ok(Ignored {})
    }
}

/// Skips the value that is due, with its first token. Allocates 32 bytes for up to 256 levels of depth, at most two
/// bits a level beyond that (three while they grow), and nothing for strings. Returns `Invalid` if the text has no
/// prefix that is a value, and `Memory` if an allocation fails.
pub fn skip_due<'a>(source: &mut Source<'a>) -> Result<()>
    requires { source.old.refused ≡ None }
    ensures going { IfOk result (λ _. source.new.refused ≡ None) }
    ensures ok { IfOk result (λ _. ReadsDue {S = Unit {0}} (λ _. Some tt) source.old.rest source.new.rest tt) }
    ensures invalid { result ≡ Err Error.Invalid → RejectsDue {S = Unit {0}} (λ _. Some tt) source.old.rest }
{
    let token = source.token_checked()?;
    skip(token, source)
}

// Skips the rest of a value, whose first token is `token`. Returns `Invalid` if the text, from that token on, has no
// prefix that is a value, and `Memory` if an allocation fails. The clauses hold for any text x of a string.
fn skip<'a>(token: Event<'a>, source: &mut Source<'a>) -> Result<()>
    requires going { source.old.refused ≡ None }
    ensures going { IfOk result (λ _. source.new.refused ≡ None) }
    ensures ok { IfOk result (λ _. (x : List ℕ)
        → (t : Tree) × ValueAt t (event_of_token token.entry x) source.old.rest source.new.rest) }
    ensures invalid { result ≡ Err Error.Invalid → (x : List ℕ) (t : Tree) (r : List ℕ)
        → ValueAt t (event_of_token token.entry x) source.old.rest r → ⊥ }
{
    let mut stack = Stack::new(source.alloc());
    let mut first = stack.enter(token)?;
    while let Some(kind) = stack.top() {
        first = take_child_or_end(source, &mut stack, kind, first)?;
    }
    Ok(())
}

// Takes the closing bracket of the innermost container, whose kind is `kind`, or everything up to
// the first token of its next child, with that token. Pops the kind of a container that is closed,
// and pushes that of one that is opened. `first` says that the opening bracket was just taken.
// Returns whether a container was opened, `Invalid` if neither is next, or `Memory` if an
// allocation fails.
fn take_child_or_end<'a>(
    source: &mut Source<'a>,
    stack: &mut Stack,
    kind: Kind,
    first: bool,
) -> Result<bool>
    requires inside { innermost stack.old ≡ Some kind }
    requires going { source.old.refused ≡ None }
    ensures going { IfOk result (λ _. source.new.refused ≡ None) }
    ensures less { IfOk result (λ _. length source.new.rest < length source.old.rest) }
    ensures reaches { IfOk result (λ opened.
        Reaches (text_at (first_or_after first) stack.old source.old.rest)
        (text_at (first_or_after opened) stack.new source.new.rest)) }
    ensures invalid { result ≡ Err Error.Invalid → NeverRuns (text_at (first_or_after first) stack.old source.old.rest) }
{
    match source.after(kind, first)? {
        After::Close => {
            stack.pop();
            Ok(false)
        }
        After::Next => match kind {
            Kind::Seq => begin(source, stack),
            Kind::Map => {
                source.name_checked()?;
                begin(source, stack)
            }
        },
    }
}

// Takes the first token of a value, and pushes the kind of the container that the token opens, if
// any. Returns whether there is one, `Invalid` if no token is next, or `Memory` if an allocation
// fails.
#[inline(always)]
fn begin<'a>(source: &mut Source<'a>, stack: &mut Stack) -> Result<bool>
    requires { source.old.refused ≡ None }
    ensures going { IfOk result (λ _. source.new.refused ≡ None) }
    ensures less { IfOk result (λ _. length source.new.rest < length source.old.rest) }
    ensures reaches { IfOk result (λ opened.
        Reaches (text_at due stack.old source.old.rest) (text_at (first_or_after opened) stack.new source.new.rest)) }
    ensures invalid { result ≡ Err Error.Invalid → NeverRuns (text_at due stack.old source.old.rest) }
{
    let token = source.token_checked()?;
    stack.enter(token)
}
