//! The engine: it reads a value from a source by its place, without recursion.
//! An `Event` is a token that begins a value, a `Step` an event of a value.
ghost use Rattle.std.specs.Prelude.{◌≡◌, ◌<◌, ◌≤◌, ◌⊎◌, false, Some, None, Ok, Err, List, ℕ, length, IfOk, IfErr, is_some};
ghost use Rattle.miniserde_model.specs.Tree.{Tree};
ghost use Rattle.miniserde_model.specs.Step.{events};
ghost use Rattle.miniserde_model.specs.Position.{start};
ghost use Rattle.miniserde_text.specs.Lexer.{event_of_token};
ghost use Rattle.miniserde_model.specs.declared.error.Error.{Error};
ghost use Rattle.miniserde_read.specs.Rest.{ValueAt, GivesAt, GivesNoneAt};
ghost use Rattle.miniserde_read.specs.Events.{EventInRange};
ghost use Rattle.miniserde_text.specs.private.Moments.{opened_kind};
ghost use Rattle.miniserde_text.specs.private.Stack.{innermost, with_opened};
ghost use Rattle.miniserde_place.specs.Place.{AdvancesBy, BeginsTree, Advances, Rejects};
ghost use Rattle.miniserde_place.specs.private.EngineRuns.{Moved, RejectsRuns, state_before, after_move};

use crate::de::{Step, Visitor};
use miniserde_model::error::{Error, Result};
use miniserde_read::{Source, Stack};
use miniserde_text::json::lex::{After, Event, Kind};

/// Reads one value, whose first token is `token`, by a fresh place of its own, and takes no more of the source. `token`
/// must be the one that was taken last. Returns `Invalid` if the text, from that token on, has no prefix that means a
/// value of the place, and `Memory` if an allocation fails.
pub fn read_by_place<'a, V: Visitor>(token: Event<'a>, source: &mut Source<'a>) -> Result<V::Out>
    requires going { source.old.refused ≡ None }
    requires event { EventInRange (event_of_token token source.old.scratch) }
    ensures going { IfOk result (λ _. source.new.refused ≡ None) }
    ensures ok { IfOk result (λ v. GivesAt V.meaning.from_tree (event_of_token token.entry source.old.scratch)
        source.old.rest source.new.rest (V.meaning.content v)) }
    ensures invalid { result ≡ Err Error.Invalid
        → GivesNoneAt V.meaning.from_tree (event_of_token token.entry source.old.scratch) source.old.rest }
{
    let mut place = V::begin(source.alloc())?;
    feed_from(token, source, &mut place)?;
    place.take()
}

/// Hands a fresh place the events of one value, whose first token is `token`. Returns the first error of the source
/// or of the place, or `Memory` if the engine's stack of kinds cannot grow. After an error, either the place keeps it,
/// or the place has no error and has taken a prefix of the events of some tree.
pub fn feed_from<'a, V: Visitor>(
    token: Event<'a>,
    source: &mut Source<'a>,
    place: &mut V,
) -> Result<()>
    requires going { source.old.refused ≡ None }
    requires event { EventInRange (event_of_token token source.old.scratch) }
    requires unrefused { (V.meaning.view place.old).refused ≡ None }
    requires fresh { (V.meaning.view place.old).at ≡ start }
    ensures going { IfOk result (λ _. source.new.refused ≡ None) }
    ensures unrefused { IfOk result (λ _. (V.meaning.view place.new).refused ≡ None) }
    ensures ok { IfOk result (λ _. (t : Tree)
        × ValueAt t (event_of_token token.entry source.old.scratch) source.old.rest source.new.rest
        × AdvancesBy (V.meaning.view place.old) (events t) (V.meaning.view place.new)) }
    ensures invalid { result ≡ Err Error.Invalid → (t : Tree) (r : List ℕ)
        → ValueAt t (event_of_token token.entry source.old.scratch) source.old.rest r
        → (V.meaning.view place.old).outcome (events t) ≡ None }
    ensures sticky { IfErr result (λ e. ((V.meaning.view place.new).refused ≡ Some e)
        ⊎ (((V.meaning.view place.new).refused ≡ None)
        × BeginsTree (V.meaning.view place.old) (V.meaning.view place.new))) }
{
    let mut stack = Stack::new(source.alloc());
    let mut first = enter(token, source, &mut stack, place)?;
    while let Some(kind) = stack.top() {
        if take_child_or_end(source, &mut stack, place, kind, first)? {
            let token = source.token()?;
            first = enter(token, source, &mut stack, place)?;
        } else {
            first = false;
        }
    }
    Ok(())
}

/// Pushes the kind of the container that a token opens, if any, on the stack, and hands the token's
/// event to the place. Returns whether the token opens a container, the error of the place, or
/// `Memory` if the stack cannot grow.
#[inline(always)]
fn enter<'a, V: Visitor>(
    token: Event<'a>,
    source: &Source<'a>,
    stack: &mut Stack,
    place: &mut V,
) -> Result<bool>
    requires event { EventInRange (event_of_token token source.now.scratch) }
    requires unrefused { (V.meaning.view place.old).refused ≡ None }
    ensures opens { IfOk result (λ b. b ≡ is_some (opened_kind (event_of_token token.entry source.now.scratch))) }
    ensures stack { IfOk result (λ _. stack.new ≡ with_opened (opened_kind (event_of_token token.entry source.now.scratch)) stack.old) }
    ensures advances { IfOk result (λ _.
        Advances (V.meaning.view place.old) (event_of_token token.entry source.now.scratch) (V.meaning.view place.new)) }
    ensures unrefused { IfOk result (λ _. (V.meaning.view place.new).refused ≡ None) }
    ensures rejects { result ≡ Err Error.Invalid
        → Rejects (V.meaning.view place.old) (event_of_token token.entry source.now.scratch) }
    ensures sticky { IfErr result (λ e. ((V.meaning.view place.new).refused ≡ Some e) ⊎ (place.new ≡ place.old)) }
{
    let opened = stack.enter(token)?;
    place.step(source.step(token))?;
    Ok(opened)
}

/// Takes the closing bracket of the innermost open container, which is of the kind `kind`, and pops
/// that kind; or takes the comma and the name before its next child. Hands the place the event of
/// that: `finish`, `element` or `key`. Returns whether a child's value is due, or the error of the
/// source or the place. `first` says that the container's opening bracket was just taken.
fn take_child_or_end<'a, V: Visitor>(
    source: &mut Source<'a>,
    stack: &mut Stack,
    place: &mut V,
    kind: Kind,
    first: bool,
) -> Result<bool>
    requires inside { innermost stack.old ≡ Some kind }
    requires going { source.old.refused ≡ None }
    requires unrefused { (V.meaning.view place.old).refused ≡ None }
    ensures going { IfOk result (λ _. source.new.refused ≡ None) }
    ensures unrefused { IfOk result (λ _. (V.meaning.view place.new).refused ≡ None) }
    ensures less { IfOk result (λ is_due. (length source.new.rest ≤ length source.old.rest)
        × (is_due ≡ false → length source.new.rest < length source.old.rest)) }
    ensures moved { IfOk result (λ is_due.
        Moved (state_before first stack.old source.old.rest (V.meaning.view place.old))
        (after_move is_due stack.new source.new.rest (V.meaning.view place.new))) }
    ensures invalid { result ≡ Err Error.Invalid →
        RejectsRuns (state_before first stack.old source.old.rest (V.meaning.view place.old)) }
    ensures sticky { IfErr result (λ e. ((V.meaning.view place.new).refused ≡ Some e) ⊎ (place.new ≡ place.old)) }
{
    match source.after(kind, first)? {
        After::Close => {
            stack.pop();
            place.step(Step::Finish)?;
            Ok(false)
        }
        After::Next => {
            match kind {
                Kind::Seq => place.step(Step::Element)?,
                Kind::Map => {
                    let name = source.name()?;
                    place.step(Step::Key(source.text(name)))?;
                }
            }
            Ok(true)
        }
    }
}
