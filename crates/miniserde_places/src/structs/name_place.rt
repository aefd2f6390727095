//! The place of a unit enum, which takes the name of a variant.
ghost use Rattle.std.specs.Prelude.{◌≡◌, true, Some, Err, refl};
ghost use Rattle.miniserde_model.specs.declared.error.Error.{Error};
ghost use Rattle.miniserde_place.specs.Place.{place_meaning};
ghost use Rattle.miniserde_place.specs.Leaf.{from_one_event};
ghost use Rattle.miniserde_place.specs.laws.Leaf.{one-event};
ghost use Rattle.miniserde_record.specs.Names.{variant_of};
ghost use Rattle.miniserde_record.specs.Variants.{variant_meaning};

use miniserde_model::error::{Error, Result};
use miniserde_place::de::leaf::LeafPlace;
use miniserde_place::de::{Step, Visitor};
use miniserde_record::record::{UnitEnum, Variant};
use std::alloc::Global;

/// The place of a unit enum, whose variant is read by its name.
#[derive(Drop)]
pub struct NamePlace<T> {
    place: LeafPlace<Variant<T>>,
}

impl<T: UnitEnum + 'static> Visitor for NamePlace<T> {
    type Out = T;

    ghost meaning = { place_meaning (variant_meaning T.name_of T.all T.found (λ v. v)) (from_one_event (variant_of T.name_of T.all))
        (one-event (variant_of T.name_of T.all) (λ ts. refl, λ ms. refl))
        (λ p. ⟦<LeafPlace<Variant<T>> as Visitor>⟧.meaning.view p.place) };

    ghost begin_infallible = { true };

    ghost take_infallible = { true };

    // `step` returns `Memory` only if the place keeps that error already.
    ghost further = { λ old e answer new. answer ≡ Err Error.Memory
        → (⟦<LeafPlace<Variant<T>> as Visitor>⟧.meaning.view old.place).refused ≡ Some Error.Memory };

    fn begin(alloc: Global) -> Result<NamePlace<T>> {
        Ok(NamePlace {
            place: <LeafPlace<Variant<T>> as Visitor>::begin(alloc)?,
        })
    }

    fn step(&mut self, event: Step<'_>) -> Result<()> {
        self.place.step(event)
    }

    fn refuse(&mut self, error: Error) -> Error {
        self.place.refuse(error)
    }

    fn is_complete(&self) -> bool {
        self.place.is_complete()
    }

    fn take(self) -> Result<T> {
        Ok(self.place.take()?.value)
    }
}
