//! The place of arrays of a fixed length.
ghost use Rattle.std.specs.Prelude.{Option, None};
ghost use Rattle.miniserde_places.specs.PlaceMeanings.{array_collector};

use super::sequences::ListOf;
use miniserde_model::error::{Error, Result};
use miniserde_place::de::container::Collect;
use miniserde_place::de::{Step, Visitor};
use std::alloc::Global;

/// The collector of an array: a list of at most `N` items so far. The start of an item after the
/// `N`-th fails with `Invalid`. If there is no current item, `step` and `join` return `Invalid`, as
/// those of `ListOf` do.
#[derive(Drop)]
pub struct ArrayOf<P, T, const N: usize> {
    list: ListOf<P, T>,
}

impl<P: Visitor, const N: usize> Collect for ArrayOf<P, P::Out, N>
where
    P::Out: Drop,
{
    type Out = [P::Out; N];

    ghost collector_meaning = { array_collector N P.meaning (λ c. c.list.items.items) (λ c. c.list.child) (λ v. v) };

    fn new(alloc: Global) -> ArrayOf<P, P::Out, N> {
        ArrayOf {
            list: <ListOf<P, P::Out> as Collect>::new(alloc),
        }
    }

    fn opens(event: &Step<'_>) -> bool {
        matches!(event, Step::Seq)
    }

    fn begin_child(&mut self, alloc: Global, event: Step<'_>) -> Result<()> {
        if self.list.len() < N {
            self.list.begin_child(alloc, event)
        } else {
            Err(Error::Invalid)
        }
    }

    fn step(&mut self, event: Step<'_>) -> Result<bool> {
        self.list.step(event)
    }

    fn join(&mut self) -> Result<()> {
        self.list.join()
    }

    fn can_end(&self) -> bool {
        self.list.len() == N
    }

    fn end(self) -> Option<[P::Out; N]> {
        <[P::Out; N]>::try_from(self.list.end()?).ok()
    }
}
