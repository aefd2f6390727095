//! Reads structs from a text, member by member.
//! An `Event` is a token that begins a value, a `Step` an event of a value.
ghost use Rattle.std.specs.Prelude.{◌≡◌, ◌&&◌, Bool, true, false, None, Some, Ok, Err, IfOk, IfErr, map, Option, bytes_eq};
ghost use Rattle.miniserde_text.specs.Lexer.{event_of_token};
ghost use Rattle.miniserde_model.specs.Step as step;
ghost use Rattle.miniserde_model.specs.declared.error.Error.{Error};
ghost use Rattle.miniserde_read.specs.Calls.{Reads};
ghost use Rattle.miniserde_read.specs.Events.{EventInRange};
ghost use Rattle.miniserde_record.specs.FieldsMeaning.{FieldsMeaning, no_fields, field_and, struct_meaning};
ghost use Rattle.miniserde_read.specs.Due.{ReadsDue, RejectsDue};

use super::marks::{Mark, Once, Plain};
use super::structs::{Parts, Record};
use miniserde_model::error::{Error, Result};
use miniserde_read::{FromJson, Source, read_due, skip_due};
use miniserde_text::json::lex::{After, Event, Kind};
use std::alloc::Global;
use std::marker::PhantomData;

/// Whether the readers of fields are compiled in line or out of line.
pub trait Layout {
    /// Whether they are compiled out of line.
    const OUT_OF_LINE: bool;
}

// The layout of a struct of up to three fields.
struct InLine {}

impl Layout for InLine {
    const OUT_OF_LINE: bool = false;
}

/// The layout of a longer struct: the compiler packs the comparisons of names in one function if the readers of the
/// fields are none of its code.
pub(super) struct OutOfLine {}

impl Layout for OutOfLine {
    const OUT_OF_LINE: bool = true;
}

/// A chain of a struct's fields, with the values that were read so far.
pub trait Slots: Drop {
    /// The fields' values, in their order.
    type Values;

    // Which members mean which values of the fields.
    ghost meaning: { FieldsMeaning Self.Values };

    // The contents of the values that were read so far.
    ghost state: { Self → meaning.State };

    // If true, `end` never returns `Memory`.
    ghost end_infallible: { Bool } = { false };

    /// Returns the fields without values.
    fn new() -> Self
        ensures { state result ≡ meaning.empty };

    /// Reads a member's value, after the member's name and colon, into the field that has the name
    /// `name`; it replaces the value that the field has so far. Skips the value if no field has the
    /// name. `names` lists the names of these fields in their order; a field beyond the last name
    /// has none. Returns `Invalid` if no prefix of the text means a value of the field, or is a
    /// value to skip, and `Memory` if an allocation fails. Returns `Invalid` before it reads
    /// anything if the field is marked `once` and has a value, or if no field has the name and the
    /// struct is marked `closed`.
    fn read_member<'a, L: Layout>(
        &mut self,
        names: &[&str],
        name: &str,
        source: &mut Source<'a>,
    ) -> Result<()>
        requires { source.old.refused ≡ None }
        ensures going { IfOk result (λ _. source.new.refused ≡ None) }
        ensures ok { IfOk result (λ _.
            ReadsDue (meaning.next_state (map (λ n. n.now) names.now) (state self.old) name.now)
            source.old.rest source.new.rest (state self.new)) }
        ensures invalid { result ≡ Err Error.Invalid
            → RejectsDue (meaning.next_state (map (λ n. n.now) names.now) (state self.old) name.now) source.old.rest }
        ensures refuses { meaning.refuses (map (λ n. n.now) names.now) (state self.old) name.now ≡ true
            → (result ≡ Err Error.Invalid) × (source.new ≡ source.old) };

    /// Returns the values of the fields. A missing field has the value that its mark or else its type gives. Returns
    /// `Invalid` if a missing field has no value, and `Memory` if an allocation fails.
    fn end(self, alloc: Global) -> Result<Self::Values>
        ensures ok { IfOk result (λ v. meaning.end (state self) ≡ Some (meaning.content v)) }
        ensures invalid { result ≡ Err Error.Invalid → meaning.end (state self) ≡ None }
        ensures infallible { end_infallible ≡ true → IfErr result (λ e. e ≡ Error.Invalid) };
}

/// The end of a chain of fields. Members whose name no field has are skipped.
#[derive(Drop)]
pub struct NoSlot {}

impl Slots for NoSlot {
    type Values = ();

    ghost meaning = { no_fields };

    ghost state = { λ _. tt };

    ghost end_infallible = { true };

    fn new() -> NoSlot {
        NoSlot {}
    }

    fn read_member<'a, L: Layout>(
        &mut self,
        _names: &[&str],
        _name: &str,
        source: &mut Source<'a>,
    ) -> Result<()> {
        skip_due(source)
    }

    fn end(self, _alloc: Global) -> Result<()> {
        Ok(())
    }
}

// Returns whether a member's name is that of a field. It compares the lengths first, in line: most names differ in
// them.
#[inline(always)]
fn is_name(name: &str, field: &str) -> bool
    ensures { result ≡ bytes_eq name.now field.now }
{
    if name.len() != field.len() {
        return false;
    }
    name == field
}

// Reads the value that is due into a field, out of line.
#[inline(never)]
fn read_into<'a, T: FromJson>(value: &mut Option<T>, source: &mut Source<'a>) -> Result<()>
    requires { source.old.refused ≡ None }
    ensures going { IfOk result (λ _. source.new.refused ≡ None) }
    ensures ok { IfOk result (λ _. (v : T) × (value.new ≡ Some v)
        × ReadsDue T.means.from_tree source.old.rest source.new.rest (T.means.content v)) }
    ensures invalid { result ≡ Err Error.Invalid → RejectsDue T.means.from_tree source.old.rest }
{
    *value = Some(read_due(source)?);
    Ok(())
}

/// A field of the type `T` with the mark `M`, and the fields `R` after it.
#[derive(Drop)]
pub struct MarkedSlot<T, M, R> {
    value: Option<T>,
    mark: PhantomData<M>,
    rest: R,
}

/// A field without a mark, and the fields after it.
pub type Slot<T, R> = MarkedSlot<T, Plain, R>;

/// A field for which a duplicate of its name is an error, and the fields after it.
pub type OnceSlot<T, R> = MarkedSlot<T, Once<Plain>, R>;

impl<T: FromJson, M: Mark<T>, R: Slots> Slots for MarkedSlot<T, M, R> {
    ghost use Rattle.std.specs.Prelude.{option_map};

    type Values = Parts<T, R::Values>;

    ghost meaning = { field_and M.once M.given T.means T.absent R.meaning };

    ghost state = { λ f. (option_map T.means.content f.value, R.state f.rest) };

    ghost end_infallible = { M.missing_infallible && R.end_infallible };

    fn new() -> MarkedSlot<T, M, R> {
        MarkedSlot {
            value: None,
            mark: PhantomData,
            rest: R::new(),
        }
    }

    #[inline(always)]
    fn read_member<'a, L: Layout>(
        &mut self,
        names: &[&str],
        name: &str,
        source: &mut Source<'a>,
    ) -> Result<()> {
        let (is_mine, later) = match names {
            [first, later @ ..] => (is_name(name, first), later),
            [] => (false, names),
        };
        if !is_mine {
            return self.rest.read_member::<L>(later, name, source);
        }
        if M::is_once() && self.value.is_some() {
            return Err(Error::Invalid);
        }
        if L::OUT_OF_LINE {
            return read_into(&mut self.value, source);
        }
        self.value = Some(read_due(source)?);
        Ok(())
    }

    fn end(self, alloc: Global) -> Result<Parts<T, R::Values>> {
        let MarkedSlot {
            value,
            mark: _,
            rest,
        } = self;
        let value = match value {
            Some(value) => value,
            None => M::missing(alloc)?.ok_or(Error::Invalid)?,
        };
        Ok(Parts(value, rest.end(alloc)?))
    }
}

/// Reads a struct by the chain `F` of its fields, and takes no more of the source; `token` is the
/// struct's first token. Returns `Invalid` if the text, from that token on, has no prefix that
/// means such a struct, and `Memory` if an allocation fails. Returns `Invalid`
/// if the token opens no object.
pub fn read_record<'a, S: Record, F: Slots<Values = S::Values>>(
    token: Event<'a>,
    source: &mut Source<'a>,
) -> Result<S>
    requires going { source.old.refused ≡ None }
    requires event { EventInRange (event_of_token token source.old.scratch) }
    ensures reads { Reads (struct_meaning F.meaning S.names S.values).from_tree
        (struct_meaning F.meaning S.names S.values).content
        (event_of_token token.entry source.old.scratch) source.old result source.new }
    ensures memory { result ≡ Err Error.Memory → event_of_token token.entry source.old.scratch ≡ step.map }
{
    let Event::MapStart = token else {
        return Err(Error::Invalid);
    };
    let mut fields = F::new();
    let mut next = source.after(Kind::Map, true)?;
    while let After::Next = next {
        let name = source.name()?;
        // Reading the value may replace the scratch text.
        let name = source.take_text(name);
        fields.read_member::<InLine>(S::names(), name.as_str(), source)?;
        next = source.after(Kind::Map, false)?;
    }
    Ok(S::build(fields.end(source.alloc())?))
}
