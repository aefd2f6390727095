//! The place of pairs. The parts of a pair are its first and its second value.
ghost use Rattle.std.specs.Prelude.{Option, None, ◌&&◌};
ghost use Rattle.miniserde_places.specs.PlaceMeanings.{pair_collector};

use miniserde_model::error::{Error, Result};
use miniserde_place::de::container::{Collect, hand_on};
use miniserde_place::de::{Step, Visitor};
use std::alloc::Global;
use std::mem;

/// The place of the current part of a pair, if there is one.
#[derive(Drop)]
enum Part<P, Q> {
    Neither,
    First(P),
    Second(Q),
}

/// The collector of a pair: its parts so far, and the place of the current part. If there is no current part, a
/// contract sees a place whose first error is `Invalid`, so `step` and `join` return `Invalid`.
#[derive(Drop)]
pub struct PairOf<P, A, Q, B> {
    first: Option<A>,
    second: Option<B>,
    child: Part<P, Q>,
}

impl<P: Visitor, Q: Visitor> Collect for PairOf<P, P::Out, Q, Q::Out>
where
    P::Out: Drop,
    Q::Out: Drop,
{
    type Out = (P::Out, Q::Out);

    ghost collector_meaning = { pair_collector P.meaning Q.meaning
        (record { first = λ c. c.first; second = λ c. c.second; child = λ c. c.child }) (λ v. v.0) (λ v. v.1) };

    // `join` takes a part out of its place and allocates nothing besides, so it fails to allocate
    // only if `take` of that place does.
    ghost join_infallible = { P.take_infallible && Q.take_infallible };

    fn new(_alloc: Global) -> PairOf<P, P::Out, Q, Q::Out> {
        PairOf {
            first: None,
            second: None,
            child: Part::Neither,
        }
    }

    fn opens(event: &Step<'_>) -> bool {
        matches!(event, Step::Seq)
    }

    #[inline(always)]
    fn begin_child(&mut self, alloc: Global, event: Step<'_>) -> Result<()> {
        match event {
            Step::Element => {
                if self.first.is_none() {
                    self.child = Part::First(P::begin(alloc)?);
                    Ok(())
                } else if self.second.is_none() {
                    self.child = Part::Second(Q::begin(alloc)?);
                    Ok(())
                } else {
                    Err(Error::Invalid)
                }
            }
            _ => Err(Error::Invalid),
        }
    }

    fn step(&mut self, event: Step<'_>) -> Result<bool> {
        match &mut self.child {
            Part::First(place) => hand_on(place, event),
            Part::Second(place) => hand_on(place, event),
            Part::Neither => Err(Error::Invalid),
        }
    }

    #[inline(always)]
    fn join(&mut self) -> Result<()> {
        match mem::replace(&mut self.child, Part::Neither) {
            Part::First(place) => {
                self.first = Some(place.take()?);
                Ok(())
            }
            Part::Second(place) => {
                self.second = Some(place.take()?);
                Ok(())
            }
            Part::Neither => Err(Error::Invalid),
        }
    }

    fn can_end(&self) -> bool {
        self.first.is_some() && self.second.is_some()
    }

    fn end(self) -> Option<(P::Out, Q::Out)> {
        match (self.first, self.second) {
            (Some(first), Some(second)) => Some((first, second)),
            _ => None,
        }
    }
}
