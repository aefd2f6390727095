//! A type of a crate above: a struct of two fields that is written as a list of two, with its own place and its round
//! trip.
ghost use Rattle.std.specs.Prelude.{◌≡◌, ◌<◌, ◌^◌, List, Option, None, Some, Ok, Err, IfOk, ℕ};
ghost use Rattle.std.specs.String.{string_bytes};
ghost use Rattle.miniserde.specs.Meanings.{pair_meaning};
ghost use Rattle.miniserde.specs.PlaceMeanings.{box_place_meaning};
ghost use Rattle.miniserde.specs.Tree.{list, tree, no_trees, nonneg, str};

use miniserde::de::{Deserialize, FromJson, PairPlace, Ranged, Source, Step, Visitor};
use miniserde::json::lex::Event;
use miniserde::ser::{Serialize, Writer};
use miniserde::{Error, Result, RoundTrip};
use std::alloc::Global;

/// A number and a text.
#[derive(Drop)]
pub struct Entry {
    pub code: u32,
    pub message: String,
}

/// Its place: that of a pair.
#[derive(Drop)]
pub struct EntryPlace {
    pair: PairPlace<u32, String>,
}

impl Visitor for EntryPlace {
    type Out = Entry;

    ghost meaning = { box_place_meaning (λ p. p.pair) (λ v. (v.code, v.message))
        ⟦<PairPlace<u32, String> as Visitor>⟧.meaning };

    fn begin(alloc: Global) -> Result<EntryPlace> {
        Ok(EntryPlace {
            pair: <(u32, String) as Deserialize>::begin(alloc)?,
        })
    }

    fn step(&mut self, event: Step<'_>) -> Result<()> {
        self.pair.step(event)
    }

    fn refuse(&mut self, error: Error) -> Error {
        self.pair.refuse(error)
    }

    fn is_complete(&self) -> bool {
        self.pair.is_complete()
    }

    fn take(self) -> Result<Entry> {
        let EntryPlace { pair } = self;
        let (code, message) = pair.take()?;
        Ok(Entry { code, message })
    }
}

impl FromJson for Entry {
    ghost means = { pair_meaning ⟦<u32 as FromJson>⟧.means ⟦<String as FromJson>⟧.means (λ v. v.code) (λ v. v.message) };

    fn missing() -> Option<Entry> {
        None
    }

    fn read<'a>(token: Event<'a>, source: &mut Source<'a>) -> Result<Entry> {
        let (code, message) = <(u32, String) as FromJson>::read(token, source)?;
        Ok(Entry { code, message })
    }
}

impl Deserialize for Entry {
    type Place = EntryPlace;

    fn tied() {}
}

impl Serialize for Entry {
    ghost tree = { λ v. list (tree (nonneg v.code) (tree (str (string_bytes v.message)) no_trees)) };

    fn begin(&self, w: &mut Writer) -> Result<()> {
        w.seq()?;
        w.element()?;
        self.code.begin(w)?;
        w.element()?;
        self.message.begin(w)?;
        w.seq_finish()
    }
}

impl Ranged for Entry {
    ghost valid = { λ v. v.code < 2 ^ 32 };

    fn ranged(&self) {
        self.code.ranged();
    }
}

impl RoundTrip for Entry {
    fn round_trips() {
        <(u32, String) as RoundTrip>::round_trips()
    }
}

#[cfg(test)]
mod tests {
    use super::Entry;
    use crate::spans::Span;
    use test_tables::{Wrong, expect_round_trip};

    #[test]
    fn an_entry_round_trips(rt: HostRuntime) -> Result<(), Wrong> {
        expect_round_trip::<Entry>(
            rt.alloc(),
            " [ 7, \"a\\/\" ]  => [7,\"a/\"]\n[4294967295,\"\"] => same\n[7]\n[\"a\",7]\n[4294967296,\"\"]\n{}",
        )
    }

    #[test]
    fn a_span_round_trips(rt: HostRuntime) -> Result<(), Wrong> {
        expect_round_trip::<Span>(
            rt.alloc(),
            " [ 3, 7 ]  => [3,7]\n[7,18446744073709551615] => same\n[7]\n[3,-1]\n[3,7,8]\n{}",
        )
    }
}
