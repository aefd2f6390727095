//! The place of `Option`.
ghost use Rattle.std.specs.Prelude.{◌≡◌, true, Option, Some, None};

use miniserde_model::error::{Error, Result};
use miniserde_place::de::{Step, Visitor};
use std::alloc::Global;

// The state of the place of an `Option`: what came to it so far.
#[derive(Drop)]
enum OptionState<P> {
    // No event came yet.
    Fresh(Global),
    // The event `null` came.
    Null,
    // Another event came first. It and all later ones go to the place of the value, which keeps its own first error.
    Inner(P),
    // The first error, which came while there was no place of the value.
    Refused(Error),
}

/// The place of an `Option`. If its first event is not `null`, it begins the place of the value, which takes this event
/// and all later ones. After `null` its value is `None`.
#[derive(Drop)]
pub struct OptionPlace<P> {
    state: OptionState<P>,
}

impl<P: Visitor> Visitor for OptionPlace<P> {
    ghost use Rattle.miniserde_places.specs.PlaceMeanings.{option_place_meaning, OptionTakes};

    type Out = Option<P::Out>;

    ghost meaning = { option_place_meaning P.meaning };

    ghost begin_infallible = { true };

    ghost take_infallible = { P.take_infallible };

    // In the place of the value inside, an event does what it does there. Behind `null`, it is `Invalid`.
    ghost further = { λ old e answer new. OptionTakes P.further old.state e answer new.state };

    fn begin(alloc: Global) -> Result<OptionPlace<P>> {
        Ok(OptionPlace {
            state: OptionState::Fresh(alloc),
        })
    }

    fn step(&mut self, event: Step<'_>) -> Result<()> {
        match &mut self.state {
            OptionState::Inner(place) => place.step(event),
            OptionState::Refused(error) => Err(*error),
            OptionState::Null => {
                self.state = OptionState::Refused(Error::Invalid);
                Err(Error::Invalid)
            }
            OptionState::Fresh(alloc) => match event {
                Step::Null => {
                    self.state = OptionState::Null;
                    Ok(())
                }
                event => match P::begin(*alloc) {
                    Ok(mut place) => {
                        let answer = place.step(event);
                        self.state = OptionState::Inner(place);
                        answer
                    }
                    Err(error) => {
                        self.state = OptionState::Refused(error);
                        Err(error)
                    }
                },
            },
        }
    }

    fn refuse(&mut self, error: Error) -> Error {
        match &mut self.state {
            OptionState::Refused(first) => *first,
            OptionState::Inner(place) => place.refuse(error),
            _ => {
                self.state = OptionState::Refused(error);
                error
            }
        }
    }

    fn is_complete(&self) -> bool {
        match &self.state {
            OptionState::Null => true,
            OptionState::Inner(place) => place.is_complete(),
            _ => false,
        }
    }

    fn take(self) -> Result<Option<P::Out>> {
        let OptionPlace { state } = self;
        match state {
            OptionState::Null => Ok(None),
            OptionState::Inner(place) => Ok(Some(place.take()?)),
            OptionState::Fresh(_) => Err(Error::Invalid),
            OptionState::Refused(error) => Err(error),
        }
    }
}
