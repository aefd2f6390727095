//! The place of `Number`.
ghost use Rattle.std.specs.Prelude.{◌≡◌, true, is_some};
ghost use Rattle.miniserde_read.specs.Events.{event_of, on_leaf};
ghost use Rattle.miniserde_value.specs.Numbers.{if_number};

use crate::de::{Deserialize, Step, Visitor};
use miniserde_model::error::{Error, Result};
use miniserde_place::de::leaf::LeafPlace;
use miniserde_value::json::number::Number;
use std::alloc::Global;

/// The place of a `Number`: the place of a leaf. It is a struct of its own, since the toolchain
/// refuses `LeafPlace<Number>` as the place of `Number`.
#[derive(Drop)]
pub struct NumberPlace {
    place: LeafPlace<Number>,
}

// Returns whether the event is a number.
fn is_number(event: &Step<'_>) -> bool
    ensures { result ≡ is_some (on_leaf if_number (event_of event.now)) }
{
    matches!(
        event,
        Step::Negative(_) | Step::Nonnegative(_) | Step::Float(_)
    )
}

impl Visitor for NumberPlace {
    type Out = Number;

    ghost use Rattle.miniserde_de.specs.Places.{number_place_meaning, NumberTakes};

    ghost meaning = { number_place_meaning };

    ghost begin_infallible = { true };

    ghost take_infallible = { true };

    // An event that is no number, and any event behind the number, is `Invalid`, unless the place keeps an error
    // already.
    ghost further = { λ old e answer new. NumberTakes old e answer };

    fn begin(alloc: Global) -> Result<NumberPlace> {
        Ok(NumberPlace {
            place: <LeafPlace<Number> as Visitor>::begin(alloc)?,
        })
    }

    fn step(&mut self, event: Step<'_>) -> Result<()> {
        // `further` of the place inside does not say of these that they are `Invalid`.
        if self.place.is_complete() || !is_number(&event) {
            return Err(self.place.refuse(Error::Invalid));
        }
        self.place.step(event)
    }

    fn refuse(&mut self, error: Error) -> Error {
        self.place.refuse(error)
    }

    fn is_complete(&self) -> bool {
        self.place.is_complete()
    }

    fn take(self) -> Result<Number> {
        self.place.take()
    }
}

impl Deserialize for Number {
    type Place = NumberPlace;

    fn tied() {}
}
