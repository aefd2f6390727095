//! A place that takes one value of any shape and collects nothing.
ghost use Rattle.std.specs.Prelude.{◌≡◌, true, Some, None, refl};
ghost use Rattle.miniserde_model.specs.Position.{start};
ghost use Rattle.miniserde_read.specs.Meanings.{ignored_meaning};
ghost use Rattle.miniserde_place.specs.Place.{place_meaning};

pub(crate) mod fresh;

use crate::de::{Step, Visitor};
use miniserde_model::error::{Error, Result};
use std::alloc::Global;

/// A place that takes one value of any shape and collects nothing.
#[derive(Drop)]
pub struct Ignore {
    // How many containers are open.
    depth: u64,
    // Whether a value is due.
    due: bool,
    // The first error.
    refused: Option<Error>,
}

impl Ignore {
    ghost use Rattle.miniserde_place.specs.Ignore.{position_of, refusal_of};

    // Returns a fresh place. Allocates nothing.
    pub(crate) fn new() -> Ignore
        ensures at { position_of result ≡ start }
        ensures refused { refusal_of result ≡ None }
    {
        Ignore {
            depth: 0,
            due: true,
            refused: None,
        }
    }
}

impl Visitor for Ignore {
    ghost use Rattle.miniserde_place.specs.Ignore.{position_of, refusal_of, IgnoreTakes};

    type Out = ();

    ghost meaning = { place_meaning ignored_meaning (λ _. Some tt) (λ _. refl)
        (λ p. record { at = position_of p; outcome = λ _. Some tt; refused = refusal_of p }) };

    ghost begin_infallible = { true };

    ghost take_infallible = { true };

    ghost further = { IgnoreTakes };

    fn begin(_alloc: Global) -> Result<Ignore> {
        Ok(Ignore::new())
    }

    /// Takes any event. A `finish` without an open container leaves the number of open containers at 0. Returns the
    /// error that the place keeps, if there is one, and `Memory` if 2^64 containers would be open.
    fn step(&mut self, event: Step<'_>) -> Result<()> {
        if let Some(error) = self.refused {
            return Err(error);
        }
        match event {
            Step::Seq | Step::Map => {
                let Some(depth) = self.depth.checked_add(1) else {
                    return Err(self.refuse(Error::Memory));
                };
                self.depth = depth;
                self.due = false;
            }
            Step::Finish => {
                self.depth = self.depth.saturating_sub(1);
                self.due = false;
            }
            Step::Element | Step::Key(_) => self.due = true,
            _ => self.due = false,
        }
        Ok(())
    }

    fn refuse(&mut self, error: Error) -> Error {
        let first = self.refused.unwrap_or(error);
        self.refused = Some(first);
        first
    }

    fn is_complete(&self) -> bool {
        self.depth == 0 && !self.due
    }

    fn take(self) -> Result<()> {
        match self.refused {
            Some(error) => Err(error),
            None => {
                if self.is_complete() {
                    Ok(())
                } else {
                    Err(Error::Invalid)
                }
            }
        }
    }
}
