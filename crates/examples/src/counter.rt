//! A place by hand: it counts the elements of a list, and keeps none.
ghost use Rattle.std.specs.Prelude.{◌≡◌, ℕ, Some, IfOk};
ghost use Rattle.miniserde.specs.Tree.{Tree};
ghost use Rattle.miniserde.specs.Value.{IsJson};
ghost use Rattle.examples.specs.Elements.{counted, elements_of};
ghost use Rattle.examples.specs.laws.Elements.{events_count};

use miniserde::de::{Step, Visitor};
use miniserde::json::feed;
use miniserde::laws::events_give;
use miniserde::{Error, Result};
use std::alloc::Global;

/// A place for a list of anything. It counts the elements, and keeps none of them.
#[derive(Drop)]
pub struct Counter {
    begun: bool,
    depth: u64,
    due: bool,
    count: u64,
    refused: Option<Error>,
}

impl Visitor for Counter {
    ghost use Rattle.examples.specs.Counter.{counter_view};

    type Out = u64;

    ghost meaning = { record {
      Content = ℕ;
      content = λ n. n;
      from_events = counted;
      from_tree = elements_of;
      events_agree = events_count;
      reads = λ t n. elements_of t ≡ Some n;
      reads_agrees = λ t n. (λ e. e, λ e. e);
      view = counter_view;
    } };

    fn begin(_alloc: Global) -> Result<Counter> {
        Ok(Counter {
            begun: false,
            depth: 0,
            due: true,
            count: 0,
            refused: None,
        })
    }

    fn step(&mut self, event: Step<'_>) -> Result<()> {
        if let Some(error) = self.refused {
            return Err(error);
        }
        if !self.begun {
            if !matches!(event, Step::Seq) {
                return Err(self.refuse(Error::Invalid));
            }
            self.begun = true;
            self.depth = 1;
            self.due = false;
            self.count = 0;
            return Ok(());
        }
        match event {
            Step::Seq | Step::Map => match self.depth.checked_add(1) {
                Some(depth) => self.depth = depth,
                None => return Err(self.refuse(Error::Memory)),
            },
            Step::Element if self.depth == 1 => match self.count.checked_add(1) {
                Some(count) => self.count = count,
                None => return Err(self.refuse(Error::Memory)),
            },
            Step::Finish => self.depth = self.depth.saturating_sub(1),
            _ => {}
        }
        self.due = matches!(event, Step::Element | Step::Key(_));
        Ok(())
    }

    fn refuse(&mut self, error: Error) -> Error {
        let first = self.refused.unwrap_or(error);
        self.refused = Some(first);
        first
    }

    fn is_complete(&self) -> bool {
        self.begun && self.depth == 0 && !self.due
    }

    fn take(self) -> Result<u64> {
        if let Some(error) = self.refused {
            return Err(error);
        }
        if !self.is_complete() {
            return Err(Error::Invalid);
        }
        Ok(self.count)
    }
}

/// How many elements the list has that a text spells. Returns `Invalid` only if the text spells no list.
pub fn elements(alloc: Global, text: &str) -> Result<u64>
    ensures ok { IfOk result (λ n. (t : Tree) × IsJson text.now t × (elements_of t ≡ Some n)) }
    ensures invalid { result ≡ Err Error.Invalid → (t : Tree) → IsJson text.now t → elements_of t ≡ None }
{
    // Does nothing: it tells the proof what the events of a tree give in the place.
    events_give::<Counter>();
    let mut place = <Counter as Visitor>::begin(alloc)?;
    feed(alloc, text, &mut place)?;
    place.take()
}
