//! The types of `releases.rs`, with the impls that `./derive` writes.
ghost use Rattle.miniserde.specs.Events.{IsStringEvent};
ghost use Rattle.miniserde.specs.Newtypes.{text_value_meaning};
ghost use Rattle.miniserde.specs.Tree.{str};
ghost use Rattle.std.specs.Prelude.{◌≡◌, Some, refl};

use crate::versions::ReadVersion;
use miniserde::derived::{
    Event, FromJson, Global, Leaf, Ranged, Result, RoundTrip, Serialize, Source, Step, TextValue,
    Writer, read_leaf, text_value_from_step, text_value_round_trips, write_text_value,
};

/// The version of a release, with the text that it was read from.
#[derive(Drop)]
pub struct Release(pub ReadVersion);

impl Leaf for Release {
    ghost means = { text_value_meaning ⟦<Release as TextValue>⟧.parsed ⟦<Release as TextValue>⟧.content };

    ghost only_leaves = { (λ ts. refl, λ ms. refl) };

    ghost read_infallible = { ⟦<Release as TextValue>⟧.parse_infallible };

    ghost lacking = { IsStringEvent };

    fn from_step(alloc: Global, event: Step<'_>) -> Result<Release> {
        text_value_from_step(alloc, event)
    }
}

impl FromJson for Release {
    ghost means = { ⟦<Release as Leaf>⟧.means };

    ghost read_infallible = { ⟦<Release as TextValue>⟧.parse_infallible };

    ghost lacking = { λ event _ _. IsStringEvent event };

    fn missing() -> Option<Release> {
        None
    }

    fn read<'a>(token: Event<'a>, source: &mut Source<'a>) -> Result<Release> {
        read_leaf(token, source)
    }
}

impl Serialize for Release {
    ghost tree = { λ v. str (⟦<Release as TextValue>⟧.text (⟦<Release as TextValue>⟧.content v)) };

    fn begin(&self, w: &mut Writer) -> Result<()> {
        write_text_value(self, w)
    }
}

impl Ranged for Release {
    ghost valid = { λ v. ⟦<Release as TextValue>⟧.parsed (⟦<Release as TextValue>⟧.text (⟦<Release as TextValue>⟧.content v)) ≡ Some (⟦<Release as TextValue>⟧.content v) };

    fn ranged(&self) {
        self.is_read_back()
    }
}

impl RoundTrip for Release {
    fn round_trips() {
        text_value_round_trips::<Release>()
    }
}
