//! The place of `Box`.
ghost use Rattle.std.specs.Prelude.{◌≡◌, Option, None};
ghost use Rattle.miniserde_places.specs.PlaceMeanings.{box_place_meaning};

use miniserde_model::error::{Error, Result};
use miniserde_place::de::{Step, Visitor};
use std::alloc::Global;

/// The place of a `Box`: the place of the value inside. `take` boxes the value, and returns
/// `Memory` if that fails to allocate.
#[derive(Drop)]
pub struct BoxPlace<P> {
    alloc: Global,
    place: P,
}

impl<P: Visitor> Visitor for BoxPlace<P>
where
    P::Out: Drop,
{
    type Out = Box<P::Out>;

    ghost meaning = { box_place_meaning (λ p. p.place) (λ b. b.value) P.meaning };

    ghost begin_infallible = { P.begin_infallible };

    // An event does what it does in the place of the value inside.
    ghost further = { λ old e answer new. P.further old.place e answer new.place };

    fn begin(alloc: Global) -> Result<BoxPlace<P>> {
        Ok(BoxPlace {
            alloc,
            place: P::begin(alloc)?,
        })
    }

    fn step(&mut self, event: Step<'_>) -> Result<()> {
        self.place.step(event)
    }

    fn refuse(&mut self, error: Error) -> Error {
        self.place.refuse(error)
    }

    fn is_complete(&self) -> bool {
        self.place.is_complete()
    }

    fn take(self) -> Result<Box<P::Out>> {
        let BoxPlace { alloc, place } = self;
        Ok(Box::new(alloc, place.take()?)?)
    }
}
