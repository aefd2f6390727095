//! Reads `Number`, `Value`, `Array`, `Object` and `Unique` from a text, at any depth and without recursion. `Ranged`
//! asks nothing of them: `valid` holds of each of their values.
//! An `Event` is a token that begins a value, a `Step` an event of a value.
ghost use Rattle.std.specs.Prelude.{⊤};

use super::array::Array;
use super::number::Number;
use super::object::Object;
use super::reader::read_value;
use super::unique::Unique;
use super::value::Value;
use miniserde_keys::Ranged;
use miniserde_model::error::{Error, Result};
use miniserde_read::{FromJson, Leaf, Source, Step, read_leaf};
use miniserde_text::json::lex::Event;
use miniserde_text::json::number::NumberText;
use std::alloc::Global;

impl Leaf for Number {
    ghost use Rattle.std.specs.Prelude.{refl};
    ghost use Rattle.miniserde_value.specs.Meanings.{number_meaning};

    ghost means = { number_meaning };

    ghost only_leaves = { (λ ts. refl, λ ms. refl) };

    fn from_step(alloc: Global, event: Step<'_>) -> Result<Number> {
        match event {
            Step::Negative(n) => Ok(Number::I64(n)),
            Step::Nonnegative(n) => Ok(Number::U64(n)),
            // A number that is no integer of 64 bits, as its text; `NumberText` takes it without a look, since an event
            // has such a text.
            Step::Float(t) => Ok(Number::Text(NumberText::new_unchecked(alloc, t)?)),
            _ => Err(Error::Invalid),
        }
    }
}

impl FromJson for Number {
    ghost use Rattle.miniserde_value.specs.Meanings.{number_meaning};

    ghost means = { number_meaning };

    fn missing() -> Option<Number> {
        None
    }

    #[inline(always)]
    fn read<'a>(token: Event<'a>, source: &mut Source<'a>) -> Result<Number> {
        read_leaf(token, source)
    }
}

impl FromJson for Value {
    ghost use Rattle.miniserde_value.specs.Meanings.{value_meaning};

    ghost means = { value_meaning };

    fn missing() -> Option<Value> {
        None
    }

    fn read<'a>(token: Event<'a>, source: &mut Source<'a>) -> Result<Value> {
        read_value(token, source, false)
    }
}

impl FromJson for Array {
    ghost use Rattle.miniserde_value.specs.Meanings.{json_array_meaning};

    ghost means = { json_array_meaning };

    fn missing() -> Option<Array> {
        None
    }

    fn read<'a>(token: Event<'a>, source: &mut Source<'a>) -> Result<Array> {
        match token {
            Event::SeqStart => match read_value(token, source, false)?.into_array() {
                Some(array) => Ok(array),
                None => unreachable!(),
            },
            _ => Err(Error::Invalid),
        }
    }
}

impl FromJson for Object {
    ghost use Rattle.miniserde_value.specs.Meanings.{json_object_meaning};

    ghost means = { json_object_meaning };

    fn missing() -> Option<Object> {
        None
    }

    fn read<'a>(token: Event<'a>, source: &mut Source<'a>) -> Result<Object> {
        match token {
            Event::MapStart => match read_value(token, source, false)?.into_object() {
                Some(object) => Ok(object),
                None => unreachable!(),
            },
            _ => Err(Error::Invalid),
        }
    }
}

impl FromJson for Unique {
    ghost use Rattle.miniserde_value.specs.Meanings.{unique_meaning};

    ghost means = { unique_meaning };

    fn missing() -> Option<Unique> {
        None
    }

    fn read<'a>(token: Event<'a>, source: &mut Source<'a>) -> Result<Unique> {
        Ok(Unique::new(read_value(token, source, true)?))
    }
}

impl Ranged for Number {
    ghost valid = { λ _. ⊤ };

    fn ranged(&self) {}
}

impl Ranged for Value {
    ghost valid = { λ _. ⊤ };

    fn ranged(&self) {}
}

impl Ranged for Array {
    ghost valid = { λ _. ⊤ };

    fn ranged(&self) {}
}

impl Ranged for Object {
    ghost valid = { λ _. ⊤ };

    fn ranged(&self) {}
}

impl Ranged for Unique {
    ghost valid = { λ _. ⊤ };

    fn ranged(&self) {}
}
