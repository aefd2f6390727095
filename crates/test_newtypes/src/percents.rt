//! The types of `percents.rs`, with the impls that `./derive` writes.
ghost use Rattle.miniserde.specs.Checks.{on_unsigned, on_unsigned_key, checked_key};
ghost use Rattle.miniserde.specs.KeyLaws.{u8_key_laws, checked-back};
ghost use Rattle.miniserde.specs.Newtypes.{checked_meaning, same_meaning};
ghost use Rattle.miniserde.specs.Place.{wrapper_meaning};
ghost use Rattle.std.specs.Prelude.{◌≡◌, true, refl};
ghost use Rattle.test_newtypes.specs.Checks.{at_most_100};

use crate::checks::at_most_100;
use miniserde::derived::{
    Checked, CheckedLeaf, Deserialize, Error, Event, FromJson, Global, InjectiveKey, Leaf,
    LeafPlace, Lossless, MapKey, NeverNull, Ranged, Result, RoundTrip, Serialize, Source, Stable,
    Step, Visitor, Writer, checked_from_step, checked_lossless, checked_round_trips,
    checked_stable, read_checked,
};

/// A part of a hundred.
#[derive(Debug, Clone, Copy, PartialEq, Eq, PartialOrd, Ord, Drop)]
pub struct Percent {
    value: u8,
    pub ghost checked: { at_most_100 value ≡ true },
}

impl Checked for Percent {
    type Inner = u8;

    ghost inner = { λ v. v.value };

    ghost means = { ⟦<u8 as FromJson>⟧.means };

    ghost accepts = { on_unsigned at_most_100 };

    ghost same = { same_meaning ⟦<u8 as FromJson>⟧.means };

    fn new(value: u8) -> Option<Percent> {
        if at_most_100(value) {
            Some(Percent { value })
        } else {
            None
        }
    }

    fn get(&self) -> &u8 {
        &self.value
    }
}

impl FromJson for Percent {
    ghost means = { checked_meaning ⟦<u8 as FromJson>⟧.means (on_unsigned at_most_100) (λ
        v. v.value) };

    ghost read_infallible = { ⟦<u8 as FromJson>⟧.read_infallible };

    ghost lacking = { ⟦<u8 as FromJson>⟧.lacking };

    fn missing() -> Option<Percent> {
        None
    }

    fn read<'a>(token: Event<'a>, source: &mut Source<'a>) -> Result<Percent> {
        read_checked(token, source)
    }
}

impl Serialize for Percent {
    ghost tree = { λ v. ⟦<u8 as Serialize>⟧.tree v.value };

    fn begin(&self, w: &mut Writer) -> Result<()> {
        self.value.begin(w)
    }
}

impl Ranged for Percent {
    ghost valid = { λ v. ⟦<u8 as Ranged>⟧.valid v.value × (at_most_100 v.value ≡ true) };

    fn ranged(&self) {
        self.value.ranged()
    }
}

impl RoundTrip for Percent {
    fn round_trips() {
        checked_round_trips::<u8, Percent>()
    }
}

impl Lossless for Percent {
    fn lossless() {
        checked_lossless::<u8, Percent>()
    }
}

impl NeverNull for Percent {
    fn never_null() {
        <u8 as NeverNull>::never_null()
    }
}

impl Stable for Percent {
    fn stable() {
        checked_stable::<u8, Percent>()
    }
}

impl MapKey for Percent {
    ghost content = { λ v. ⟦<u8 as MapKey>⟧.content v.value };

    ghost read = { checked_key (on_unsigned_key at_most_100) ⟦<u8 as MapKey>⟧.read };

    ghost text = { λ v. ⟦<u8 as MapKey>⟧.text v.value };

    ghost from_key_infallible = { ⟦<u8 as MapKey>⟧.from_key_infallible };

    ghost alike = { λ a b. u8_key_laws.alike a.value b.value };

    ghost back = { λ v r. (v, r, (checked-back (on_unsigned_key at_most_100) _ _ (u8_key_laws.back v.value r.0) r.1), refl) };

    ghost one_text = { λ a b. u8_key_laws.one_text a.value b.value };

    fn from_key(alloc: Global, k: &str) -> Result<Percent> {
        match Percent::new(<u8 as MapKey>::from_key(alloc, k)?) {
            Some(key) => Ok(key),
            None => Err(Error::Invalid),
        }
    }

    fn to_key(&self, out: &mut String) -> Result<()> {
        self.value.to_key(out)
    }
}

impl InjectiveKey for Percent {
    ghost injective = { λ a b e. e };
}

impl Leaf for Percent {
    ghost means = { checked_meaning ⟦<u8 as FromJson>⟧.means (on_unsigned at_most_100) (λ
        v. v.value) };

    ghost only_leaves = { (λ ts. refl, λ ms. refl) };

    ghost read_infallible = { ⟦<u8 as Leaf>⟧.read_infallible };

    ghost lacking = { ⟦<u8 as Leaf>⟧.lacking };

    fn from_step(alloc: Global, event: Step<'_>) -> Result<Percent> {
        checked_from_step(alloc, event)
    }
}

impl CheckedLeaf for Percent {
    ghost same_leaf = { same_meaning ⟦<u8 as Leaf>⟧.means };
}

/// The place of a `Percent`.
#[derive(Drop)]
pub struct PercentPlace {
    place: LeafPlace<Percent>,
}

impl Visitor for PercentPlace {
    type Out = Percent;

    ghost meaning = { wrapper_meaning (λ p. p.place) ⟦<LeafPlace<Percent> as Visitor>⟧.meaning };

    fn begin(alloc: Global) -> Result<PercentPlace> {
        Ok(PercentPlace {
            place: <LeafPlace<Percent> as Visitor>::begin(alloc)?,
        })
    }

    fn step(&mut self, event: Step<'_>) -> Result<()> {
        self.place.step(event)
    }

    fn refuse(&mut self, error: Error) -> Error {
        self.place.refuse(error)
    }

    fn is_complete(&self) -> bool {
        self.place.is_complete()
    }

    fn take(self) -> Result<Percent> {
        let PercentPlace { place } = self;
        place.take()
    }
}

impl Deserialize for Percent {
    type Place = PercentPlace;

    fn tied() {}
}
