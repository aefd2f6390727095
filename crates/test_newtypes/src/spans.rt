//! The types of `spans.rs`, with the impls that `./derive` writes.
ghost use Rattle.miniserde.specs.Newtypes.{checked_meaning, same_meaning};
ghost use Rattle.std.specs.Prelude.{◌≡◌, true, refl};
ghost use Rattle.test_newtypes.specs.Orders.{is_ordered};

use crate::ends::Ends;
use crate::orders::is_ordered;
use miniserde::derived::{
    Checked, Event, FromJson, Ranged, Result, RoundTrip, Serialize, Source, Writer,
    checked_round_trips, read_checked,
};

/// A span, which ends no earlier than it begins.
#[derive(Drop)]
pub struct Span {
    value: Ends<u32>,
    pub ghost checked: { is_ordered (⟦<Ends<u32> as FromJson>⟧.means.content value) ≡ true },
}

impl Checked for Span {
    type Inner = Ends<u32>;

    ghost inner = { λ v. v.value };

    ghost means = { ⟦<Ends<u32> as FromJson>⟧.means };

    ghost accepts = { is_ordered };

    ghost same = { same_meaning ⟦<Ends<u32> as FromJson>⟧.means };

    fn new(value: Ends<u32>) -> Option<Span> {
        if is_ordered(&value) {
            Some(Span { value })
        } else {
            None
        }
    }

    fn get(&self) -> &Ends<u32> {
        &self.value
    }
}

impl FromJson for Span {
    ghost means = { checked_meaning ⟦<Ends<u32> as FromJson>⟧.means is_ordered (λ v. v.value) };

    ghost read_infallible = { ⟦<Ends<u32> as FromJson>⟧.read_infallible };

    ghost lacking = { ⟦<Ends<u32> as FromJson>⟧.lacking };

    fn missing() -> Option<Span> {
        None
    }

    fn read<'a>(token: Event<'a>, source: &mut Source<'a>) -> Result<Span> {
        read_checked(token, source)
    }
}

impl Serialize for Span {
    ghost tree = { λ v. ⟦<Ends<u32> as Serialize>⟧.tree v.value };

    fn begin(&self, w: &mut Writer) -> Result<()> {
        self.value.begin(w)
    }
}

impl Ranged for Span {
    ghost valid = { λ v. ⟦<Ends<u32> as Ranged>⟧.valid v.value × (is_ordered (⟦<Ends<u32> as FromJson>⟧.means.content v.value) ≡ true) };

    fn ranged(&self) {
        self.value.ranged()
    }
}

impl RoundTrip for Span {
    fn round_trips() {
        checked_round_trips::<Ends<u32>, Span>()
    }
}
