//! A type of another crate that is no string: std's `Range` of two integers, in a struct of ours, is written as a list of
//! the two.
ghost use Rattle.std.specs.Prelude.{◌<◌, ◌^◌};
ghost use Rattle.miniserde.specs.Meanings.{pair_meaning};
ghost use Rattle.miniserde.specs.Tree.{list, tree, no_trees, nonneg};

use miniserde::de::{FromJson, Ranged, Source};
use miniserde::json::lex::Event;
use miniserde::ser::{Serialize, Writer};
use miniserde::{Result, RoundTrip};
use std::ops::Range;

/// From where to where, as `[3,7]`.
#[derive(Drop)]
pub struct Span(pub Range<u64>);

impl FromJson for Span {
    // Which trees mean a span: those of a pair.
    ghost means = { pair_meaning ⟦<u64 as FromJson>⟧.means ⟦<u64 as FromJson>⟧.means (λ v. v.0.start) (λ v. v.0.end) };

    fn missing() -> Option<Span> {
        None
    }

    fn read<'a>(token: Event<'a>, source: &mut Source<'a>) -> Result<Span> {
        let (start, end) = <(u64, u64) as FromJson>::read(token, source)?;
        Ok(Span(start..end))
    }
}

impl Serialize for Span {
    // The tree that is written for a span.
    ghost tree = { λ v. list (tree (nonneg v.0.start) (tree (nonneg v.0.end) no_trees)) };

    fn begin(&self, w: &mut Writer) -> Result<()> {
        w.seq()?;
        w.element()?;
        self.0.start.begin(w)?;
        w.element()?;
        self.0.end.begin(w)?;
        w.seq_finish()
    }
}

impl Ranged for Span {
    // Which spans are valid: a `u64` in a clause is a natural number.
    ghost valid = { λ v. (v.0.start < 2 ^ 64) × (v.0.end < 2 ^ 64) };

    fn ranged(&self) {
        self.0.start.ranged();
        self.0.end.ranged();
    }
}

impl RoundTrip for Span {
    fn round_trips() {
        <(u64, u64) as RoundTrip>::round_trips()
    }
}
