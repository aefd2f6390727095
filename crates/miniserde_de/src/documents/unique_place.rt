//! The place of `Unique`, a document without duplicate names.
ghost use Rattle.std.specs.Prelude.{true};

use super::value_place::ValuePlace;
use crate::de::{Deserialize, Step, Visitor};
use miniserde_model::error::{Error, Result};
use miniserde_value::json::unique::Unique;
use std::alloc::Global;

/// The place of a `Unique`. The event of a duplicate name fails with `Invalid`, or with the error
/// that the place keeps already.
#[derive(Drop)]
pub struct UniquePlace {
    place: ValuePlace,
}

impl Visitor for UniquePlace {
    type Out = Unique;

    ghost use Rattle.miniserde_de.specs.Places.{unique_place_meaning, UniqueTakes};

    ghost meaning = { unique_place_meaning };

    ghost begin_infallible = { true };

    ghost take_infallible = { true };

    // An event that is accepted does to the hole what it does in the place of a `Value`. A
    // duplicate name, and an event that does not fit the hole, is `Invalid`, unless the place keeps an
    // error already, and no other first error is `Invalid`.
    ghost further = { UniqueTakes };

    fn begin(alloc: Global) -> Result<UniquePlace> {
        Ok(UniquePlace {
            place: ValuePlace::new(alloc),
        })
    }

    fn step(&mut self, event: Step<'_>) -> Result<()> {
        if self.place.repeats(&event) {
            return Err(self.place.refuse(Error::Invalid));
        }
        self.place.step(event)
    }

    fn refuse(&mut self, error: Error) -> Error {
        self.place.refuse(error)
    }

    fn is_complete(&self) -> bool {
        self.place.is_complete()
    }

    fn take(self) -> Result<Unique> {
        Ok(Unique::new(self.place.take()?))
    }
}

impl Deserialize for Unique {
    type Place = UniquePlace;

    fn tied() {}
}
