//! The place of `Vec`.
ghost use Rattle.std.specs.Prelude.{◌≡◌, length, Option, None};
ghost use Rattle.miniserde_places.specs.PlaceMeanings.{list_collector};

use miniserde_model::error::{Error, Result};
use miniserde_place::de::container::{Collect, hand_on};
use miniserde_place::de::{Step, Visitor};
use std::alloc::Global;

/// The collector of a list: its items so far, and the place of the current item. If there is no
/// current item, `collector_meaning` shows the view `no_child`, whose first error is `Invalid`.
/// Then `step` and `join` return `Invalid`.
#[derive(Drop)]
pub struct ListOf<P, T> {
    items: Vec<T>,
    child: Option<P>,
}

impl<P, T> ListOf<P, T> {
    /// Returns the number of items so far.
    pub(crate) fn len(&self) -> usize
        ensures { result ≡ length self.now.items.items }
    {
        self.items.len()
    }
}

impl<P: Visitor> Collect for ListOf<P, P::Out>
where
    P::Out: Drop,
{
    type Out = Vec<P::Out>;

    ghost collector_meaning = { list_collector P.meaning (λ c. c.items.items) (λ c. c.child) (λ v. v.items) };

    fn new(alloc: Global) -> ListOf<P, P::Out> {
        ListOf {
            items: Vec::new(alloc),
            child: None,
        }
    }

    fn opens(event: &Step<'_>) -> bool {
        matches!(event, Step::Seq)
    }

    #[inline(always)]
    fn begin_child(&mut self, alloc: Global, event: Step<'_>) -> Result<()> {
        match event {
            Step::Element => {
                self.child = Some(P::begin(alloc)?);
                Ok(())
            }
            _ => Err(Error::Invalid),
        }
    }

    fn step(&mut self, event: Step<'_>) -> Result<bool> {
        match &mut self.child {
            Some(place) => hand_on(place, event),
            None => Err(Error::Invalid),
        }
    }

    #[inline(always)]
    fn join(&mut self) -> Result<()> {
        match self.child.take() {
            Some(place) => {
                self.items.push(place.take()?)?;
                Ok(())
            }
            None => Err(Error::Invalid),
        }
    }

    fn can_end(&self) -> bool {
        true
    }

    fn end(self) -> Option<Vec<P::Out>> {
        Some(self.items)
    }
}
