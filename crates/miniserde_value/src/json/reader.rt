//! The loop that reads a document of any depth, without recursion.
ghost use Rattle.std.specs.Prelude.{◌≡◌, ◌<◌, ◌≤◌, ◌&&◌, true, false, Bool, List, ℕ, None, Some, Err, IfOk, OnOk, length};
ghost use Rattle.std.specs.Prelude.{option_map, string_bytes};
ghost use Rattle.miniserde_model.specs.Lexing.{Follows};
ghost use Rattle.miniserde_model.specs.declared.error.Error.{Error};
ghost use Rattle.miniserde_text.specs.Lexer.{event_of_token};
ghost use Rattle.miniserde_read.specs.Calls.{Reads};
ghost use Rattle.miniserde_read.specs.Events.{EventInRange};
ghost use Rattle.miniserde_value.specs.Builders.{hole_in};
ghost use Rattle.miniserde_value.specs.Hole.{has_member};
ghost use Rattle.miniserde_value.specs.Containers.{innermost_kind, kind_around, pending, with_next_name};
ghost use Rattle.miniserde_value.specs.Retained.{retained_if};
ghost use Rattle.miniserde_value.specs.Values.{content_of};
ghost use Rattle.miniserde_value.specs.private.Builds.{Builds, NeverGives, closed_unless, state_before, state_due};

use super::builder::Builder;
use super::value::Value;
use miniserde_model::error::{Error, Result};
use miniserde_read::Source;
use miniserde_text::json::lex::{After, Event, Kind};
use std::alloc::Global;

/// Reads one value, whose first token is `token`, and takes no more of the source. Returns `Memory` if an allocation
/// fails. Otherwise returns `Invalid` if the text, from that token on, has no prefix that is a value, or if `once` is
/// `true` and an object in the value has a duplicate name.
pub(crate) fn read_value<'a>(token: Event<'a>, source: &mut Source<'a>, once: bool) -> Result<Value>
    requires going { source.old.refused ≡ None }
    requires event { EventInRange (event_of_token token source.old.scratch) }
    ensures { Reads (retained_if once) content_of (event_of_token token.entry source.old.scratch) source.old result source.new }
{
    let mut builder = Builder::new(source.alloc());
    let mut first = builder.begin(source.step(token))?;
    while let Some(kind) = builder.innermost() {
        first = take_children(source, &mut builder, kind, first, once)?;
    }
    match builder.into_value() {
        Some(value) => Ok(value),
        None => unreachable!(),
    }
}

/// Takes the children of the innermost open container, which is of the kind `kind`, up to and with its closing bracket
/// or the opening bracket of a container in it. Hands the builder what it takes. Returns whether a container was opened,
/// or the error of the source or the builder, or `Invalid` if `once` is `true` and a member's name is a duplicate.
/// `first` says that the container's opening bracket was just taken.
#[inline(always)]
fn take_children<'a>(
    source: &mut Source<'a>,
    builder: &mut Builder,
    kind: Kind,
    first: bool,
    once: bool,
) -> Result<bool>
    requires inside { innermost_kind (hole_in builder.old) ≡ Some kind }
    requires unnamed { pending (hole_in builder.old) ≡ None }
    requires going { source.old.refused ≡ None }
    ensures going { IfOk result (λ _. source.new.refused ≡ None) }
    ensures unnamed { IfOk result (λ _. pending (hole_in builder.new) ≡ None) }
    ensures less { IfOk result (λ _. length source.new.rest < length source.old.rest) }
    ensures builds { IfOk result (λ opened. Builds once (state_before first (hole_in builder.old) source.old.rest)
        (state_before opened (hole_in builder.new) source.new.rest)) }
    ensures invalid { result ≡ Err Error.Invalid
        → NeverGives once (state_before first (hole_in builder.old) source.old.rest) }
{
    // One loop for each kind, so that no child asks again in which container it is.
    let opened = match kind {
        Kind::Seq => take_leaves(source, builder, Kind::Seq, first, once)?,
        Kind::Map => take_leaves(source, builder, Kind::Map, first, once)?,
    };
    if !opened {
        builder.close()?;
    }
    Ok(opened)
}

/// Takes the children of the innermost open container as `take_children` does, but does not hand the closing bracket to
/// the builder.
#[inline(always)]
fn take_leaves<'a>(
    source: &mut Source<'a>,
    builder: &mut Builder,
    kind: Kind,
    first: bool,
    once: bool,
) -> Result<bool>
    requires inside { innermost_kind (hole_in builder.old) ≡ Some kind }
    requires unnamed { pending (hole_in builder.old) ≡ None }
    requires going { source.old.refused ≡ None }
    ensures going { IfOk result (λ _. source.new.refused ≡ None) }
    ensures unnamed { IfOk result (λ _. pending (hole_in builder.new) ≡ None) }
    ensures less { IfOk result (λ _. length source.new.rest < length source.old.rest) }
    ensures builds { IfOk result (λ opened. Builds once (state_before first (hole_in builder.old) source.old.rest)
        (state_before opened (closed_unless opened (hole_in builder.new)) source.new.rest)) }
    ensures invalid { result ≡ Err Error.Invalid
        → NeverGives once (state_before first (hole_in builder.old) source.old.rest) }
{
    let mut first = first;
    while let After::Next = source.after(kind, first)? {
        let name = take_name(source, builder, kind, once)?;
        let token = source.token()?;
        if builder.begin_child(name, source.step(token))? {
            return Ok(true);
        }
        first = false;
    }
    Ok(false)
}

/// Takes the name of the next child of the innermost open container, which is of the kind `kind`, and returns a copy;
/// returns `None` if it is an array. Returns the error of the source, `Invalid` if `once` is `true` and the object has
/// a member of the name, and `Memory` if an allocation fails.
#[inline(always)]
fn take_name<'a>(
    source: &mut Source<'a>,
    builder: &Builder,
    kind: Kind,
    once: bool,
) -> Result<Option<String>>
    requires { source.old.refused ≡ None }
    ensures going { IfOk result (λ _. source.new.refused ≡ None) }
    ensures shorter { IfOk result (λ _. length source.new.rest ≤ length source.old.rest) }
    ensures kind { IfOk result (λ name. kind_around (option_map string_bytes name) ≡ kind) }
    ensures builds { (first : Bool) (s : List ℕ) → innermost_kind (hole_in builder.now) ≡ Some kind
        → Follows kind first false s source.old.rest
        → IfOk result (λ name. Builds once (state_before first (hole_in builder.now) s)
        (state_due (with_next_name (option_map string_bytes name) (hole_in builder.now)) source.new.rest)) }
    ensures invalid { (first : Bool) (s : List ℕ) → innermost_kind (hole_in builder.now) ≡ Some kind
        → Follows kind first false s source.old.rest
        → result ≡ Err Error.Invalid → NeverGives once (state_before first (hole_in builder.now) s) }
{
    if let Kind::Seq = kind {
        return Ok(None);
    }
    let name = source.name()?;
    let copy = new_name(source.alloc(), builder, source.text(name), once)?;
    Ok(Some(copy))
}

/// Returns a copy of the name of a member. Returns `Invalid` if `once` is `true` and the innermost open object has a
/// member of that name already, and `Memory` if an allocation fails.
#[inline(always)]
fn new_name(alloc: Global, builder: &Builder, name: &str, once: bool) -> Result<String>
    ensures ok { IfOk result (λ copy. string_bytes copy ≡ name.now) }
    ensures new { OnOk result ((once && has_member name.now (hole_in builder.now)) ≡ false) }
    ensures invalid { result ≡ Err Error.Invalid → (once && has_member name.now (hole_in builder.now)) ≡ true }
    ensures refuses { (once && has_member name.now (hole_in builder.now)) ≡ true → result ≡ Err Error.Invalid }
{
    if once {
        if builder.has_name(name) {
            return Err(Error::Invalid);
        }
    }
    Ok(String::from_str(alloc, name)?)
}
