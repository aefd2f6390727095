//! Unit enums: each value is read from its name and written as its name, a string.
//! An `Event` is a token that begins a value, a `Step` an event of a value.
ghost use Rattle.std.specs.Prelude.{◌≡◌, true, Option, None, Some, Ok, Err, List, IfOk, IfErr, refl};
ghost use Rattle.miniserde_text.specs.Lexer.{event_of_token};
ghost use Rattle.miniserde_model.specs.declared.error.Error.{Error};
ghost use Rattle.miniserde_read.specs.Meaning.{Meaning};
ghost use Rattle.miniserde_read.specs.Rest.{GivesAt, GivesNoneAt};
ghost use Rattle.miniserde_read.specs.Events.{EventInRange};
ghost use Rattle.miniserde_read.specs.types.Objects.{Name};
ghost use Rattle.miniserde_record.specs.Names.{find_variant, variant_of};
ghost use Rattle.miniserde_record.specs.Variants.{variant_meaning};

use miniserde_model::error::{Error, Result};
use miniserde_read::{Leaf, Source, Step, read_leaf};
use miniserde_text::json::lex::Event;
use std::alloc::Global;

/// A unit enum: no variant has data.
pub trait UnitEnum: Copy {
    // All values of the enum, in their order.
    ghost all: { List Self };

    // The name of a value.
    ghost name_of: { Self → Name };

    // Each value is the first in `all` that has its name. So all values are listed, and no two have the same name.
    ghost found: { (v : Self) → find_variant name_of all (name_of v) ≡ Some v };

    /// Returns all values of the enum, in their order.
    fn values() -> &'static [Self]
        ensures { result.now ≡ all };

    /// Returns the name of a value.
    fn name(&self) -> &'static str
        ensures { result.now ≡ name_of self.now };
}

/// A unit enum with its meaning: a string means the value of that name. Every unit enum implements this trait.
pub trait Variants: UnitEnum {
    // Which trees mean which values.
    ghost meaning: { Meaning Self };
}

impl<T: UnitEnum> Variants for T {
    ghost meaning = { variant_meaning T.name_of T.all T.found (λ v. v) };
}

// Returns the first value of a unit enum that has the name, or `None` if none has it.
fn find<T: UnitEnum + 'static>(name: &str) -> Option<T>
    ensures { result ≡ find_variant T.name_of T.all name.now }
{
    find_among(T::values(), name)
}

// Returns the first of the values that has the name, or `None` if none has it.
fn find_among<T: UnitEnum>(values: &[T], name: &str) -> Option<T>
    ensures { result ≡ find_variant T.name_of values.now name.now }
{
    for value in values {
        if value.name() == name {
            return Some(*value);
        }
    }
    None
}

/// A wrapper around a value of a unit enum, which is a `Leaf`: it is read from one token.
#[derive(Clone, Copy, Drop)]
pub struct Variant<T> {
    pub value: T,
}

impl<T: UnitEnum + 'static> Leaf for Variant<T> {
    ghost means = { variant_meaning T.name_of T.all T.found (λ v. v.value) };

    ghost only_leaves = { (λ ts. refl, λ ms. refl) };

    ghost read_infallible = { true };

    fn from_step(_alloc: Global, event: Step<'_>) -> Result<Variant<T>> {
        match event {
            Step::Str(name) => match find(name) {
                Some(value) => Ok(Variant { value }),
                None => Err(Error::Invalid),
            },
            _ => Err(Error::Invalid),
        }
    }
}

/// Returns the value of a unit enum whose name is the string `token`, which must be the token that
/// was taken last. Returns `Invalid` if no value has that name, or if the token is no string. Takes
/// nothing from the source.
#[inline(always)]
pub fn read_variant<'a, T: UnitEnum + 'static>(
    token: Event<'a>,
    source: &mut Source<'a>,
) -> Result<T>
    requires { EventInRange (event_of_token token source.old.scratch) }
    ensures unchanged { source.new ≡ source.old }
    ensures ok { IfOk result (λ v. GivesAt (variant_of T.name_of T.all)
        (event_of_token token.entry source.old.scratch) source.old.rest source.old.rest v) }
    ensures invalid { result ≡ Err Error.Invalid → GivesNoneAt (variant_of T.name_of T.all)
        (event_of_token token.entry source.old.scratch) source.old.rest }
    ensures infallible { IfErr result (λ e. e ≡ Error.Invalid) }
{
    match read_leaf::<Variant<T>>(token, source) {
        Ok(variant) => Ok(variant.value),
        Err(error) => Err(error),
    }
}
