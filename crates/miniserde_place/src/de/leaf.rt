//! The one place that serves all types whose values are single tokens.
ghost use Rattle.std.specs.Prelude.{◌≡◌, Bool, true, Option, Some, Err, List};
ghost use Rattle.miniserde_place.specs.Place.{place_meaning};
ghost use Rattle.miniserde_place.specs.Leaf.{from_one_event, leaf_view};
ghost use Rattle.miniserde_place.specs.laws.Leaf.{one-event};
ghost use Rattle.miniserde_model.specs.declared.error.Error.{Error};

use super::{Step, Visitor};
use miniserde_model::error::{Error, Result};
pub use miniserde_read::{Leaf, read_leaf};
use std::alloc::Global;

/// The place of `()`.
pub type UnitPlace = LeafPlace<()>;

/// The place of a `bool`.
pub type BoolPlace = LeafPlace<bool>;

/// The place of an integer.
pub type IntegerPlace<T> = LeafPlace<T>;

/// The place of a `String`.
pub type StringPlace = LeafPlace<String>;

/// The place of a type whose values are single tokens.
#[derive(Drop)]
pub struct LeafPlace<T> {
    alloc: Global,
    // The value, after its event came.
    value: Option<T>,
    // The first error.
    refused: Option<Error>,
}

impl<T: Leaf> Visitor for LeafPlace<T> {
    type Out = T;

    ghost use Rattle.miniserde_place.specs.LeafPlace.{value_of, refusal_of};

    ghost meaning = { place_meaning T.means (from_one_event T.means.from_tree) (one-event T.means.from_tree T.only_leaves)
        (λ p. leaf_view T.means.content T.means.from_tree (value_of p) (refusal_of p)) };

    ghost begin_infallible = { true };

    ghost take_infallible = { true };

    // If reading an event, or this one, never fails to allocate, `step` returns `Memory` only if the place keeps that
    // error already.
    ghost further = { λ old e answer new. (T.lacking e → T.read_infallible ≡ true)
        → answer ≡ Err Error.Memory → refusal_of old ≡ Some Error.Memory };

    fn begin(alloc: Global) -> Result<LeafPlace<T>> {
        Ok(LeafPlace {
            alloc,
            value: None,
            refused: None,
        })
    }

    fn step(&mut self, event: Step<'_>) -> Result<()> {
        if let Some(error) = self.refused {
            return Err(error);
        }
        if self.value.is_some() {
            return Err(self.refuse(Error::Invalid));
        }
        match T::from_step(self.alloc, event) {
            Ok(value) => {
                self.value = Some(value);
                Ok(())
            }
            Err(error) => Err(self.refuse(error)),
        }
    }

    fn refuse(&mut self, error: Error) -> Error {
        match self.refused {
            Some(first) => first,
            None => {
                self.refused = Some(error);
                error
            }
        }
    }

    fn is_complete(&self) -> bool {
        self.value.is_some()
    }

    fn take(self) -> Result<T> {
        match self.refused {
            Some(error) => Err(error),
            None => self.value.ok_or(Error::Invalid),
        }
    }
}
