//! The types of `parcel.rs`, with the impls that `./derive` writes.
ghost use Rattle.miniserde_core.specs.FieldsMeaning.{struct_meaning};
ghost use Rattle.miniserde_core.specs.Structs.{names_of, record_tree};
ghost use Rattle.miniserde_core.specs.Tree.{str};
ghost use Rattle.std.specs.Prelude.{true, List, codes, [], ◌∷◌, ⊤, refl};

use crate::task::Task;
use miniserde_core::derived::{
    Closed, Empty, Event, FourLent, FourParts, Fragment, FromJson, Given, Global, MarkedFour,
    MarkedSlot, OmitSlot, Omitted, Once, Parts, Plain, Ranged, Record, Result, Serialize, Slot,
    Slots, Source, UnitEnum, Variants, WithDefault, Writer, WrittenFields, read_record,
    read_variant, take_four, write_members,
};
use miniserde_core::json::Document;
use miniserde_laws::{
    Lossless, NeverNull, RoundTrip, record_lossless, record_round_trips, variant_lossless,
    variant_round_trips,
};
use miniserde_stored::{Stable, record_stable, variant_stable};

/// Where a parcel is.
#[derive(Clone, Copy, PartialEq, Eq, Debug, Drop)]
pub enum State {
    Packed,
    Sent,
}

impl UnitEnum for State {
    ghost use Rattle.test_core.specs.declared.parcel.State.TheVariants.{Packed, Sent};

    ghost all = { Packed ∷ Sent ∷ [] };

    ghost name_of = { elim [ Packed ↦ codes "packed" | Sent ↦ codes "sent" ] };

    ghost found = { elim [ Packed ↦ refl | Sent ↦ refl ] };

    fn values() -> &'static [State] {
        &[State::Packed, State::Sent]
    }

    fn name(&self) -> &'static str {
        match self {
            State::Packed => "packed",
            State::Sent => "sent",
        }
    }
}

impl FromJson for State {
    ghost means = { ⟦<State as Variants>⟧.meaning };

    ghost read_infallible = { true };

    fn missing() -> Option<State> {
        None
    }

    fn read<'a>(token: Event<'a>, source: &mut Source<'a>) -> Result<State> {
        read_variant(token, source)
    }
}

impl Serialize for State {
    ghost tree = { λ v. str (⟦<State as UnitEnum>⟧.name_of v) };

    fn begin(&self, w: &mut Writer) -> Result<()> {
        w.fragment(Fragment::Str(self.name()))
    }
}

impl Ranged for State {
    ghost valid = { λ _. ⊤ };

    fn ranged(&self) {}
}

impl RoundTrip for State {
    fn round_trips() {
        variant_round_trips::<State>()
    }
}

impl Lossless for State {
    fn lossless() {
        variant_lossless::<State>()
    }
}

impl NeverNull for State {
    fn never_null() {}
}

impl Stable for State {
    fn stable() {
        variant_stable::<State>()
    }
}

/// A parcel, with what its sender wrote on it.
#[derive(Drop)]
pub struct Parcel {
    pub id: u64,
    pub state: State,
    pub before: State,
    pub weights: Vec<u32>,
    pub tasks: Vec<Task>,
    pub note: Option<String>,
    pub extra: Document,
}

/// The value of a missing `before`.
#[derive(Drop)]
pub struct ParcelBeforeDefault {}

impl Given<State> for ParcelBeforeDefault {
    ghost given = { str (codes "packed") };

    fn make(_alloc: Global) -> Result<State> {
        Ok(State::Packed)
    }
}

// Its fields, and their names.
type ParcelFields = MarkedFour<
    u64,
    Once<Plain>,
    State,
    Plain,
    State,
    WithDefault<ParcelBeforeDefault>,
    Vec<u32>,
    WithDefault<Empty>,
    MarkedSlot<Vec<Task>, WithDefault<Empty>, OmitSlot<String, Plain, Slot<Document, Closed>>>,
>;

const PARCEL_NAMES: &[&str] = &["id", "state", "before", "weights", "tasks", "note", "extra"];

impl Record for Parcel {
    ghost use Rattle.test_core.specs.declared.parcel.TheConstants.{PARCEL_NAMES};

    type Values = <ParcelFields as Slots>::Values;

    ghost names = { names_of PARCEL_NAMES };

    ghost values = { λ v. (
      v.id,
      (
        v.state,
        (
          v.before,
          (
            v.weights,
            (
              v.tasks,
              (
                v.note,
                (
                  v.extra,
                  tt,
                ),
              ),
            ),
          ),
        ),
      ),
    ) };

    ghost made = { λ x. record {
      id = x.0;
      state = x.1.0;
      before = x.1.1.0;
      weights = x.1.1.1.0;
      tasks = x.1.1.1.1.0;
      note = x.1.1.1.1.1.0;
      extra = x.1.1.1.1.1.1.0;
    } };

    ghost bijective = { (λ v. refl, λ x. refl) };

    ghost distinct_names = { refl };

    fn names() -> &'static [&'static str] {
        PARCEL_NAMES
    }

    fn build(parts: Self::Values) -> Parcel {
        let FourParts(id, state, before, weights, parts) = take_four(parts);
        let Parts(tasks, Parts(note, Parts(extra, ()))) = parts;
        Parcel {
            id,
            state,
            before,
            weights,
            tasks,
            note,
            extra,
        }
    }
}

impl FromJson for Parcel {
    ghost means = { struct_meaning ⟦<ParcelFields as Slots>⟧.meaning ⟦<Parcel as Record>⟧.names
        ⟦<Parcel as Record>⟧.values };

    fn missing() -> Option<Parcel> {
        None
    }

    fn read<'a>(token: Event<'a>, source: &mut Source<'a>) -> Result<Parcel> {
        read_record::<Parcel, ParcelFields>(token, source)
    }
}

impl Serialize for Parcel {
    ghost tree = { record_tree ⟦<Parcel as Record>⟧.names ⟦<ParcelFields as WrittenFields>⟧.trees
        ⟦<Parcel as Record>⟧.values };

    fn begin(&self, w: &mut Writer) -> Result<()> {
        write_members(
            w,
            PARCEL_NAMES,
            &FourLent(
                &self.id,
                &self.state,
                &self.before,
                &self.weights,
                Parts(
                    &self.tasks,
                    Parts(Omitted(&self.note), Parts(&self.extra, ())),
                ),
            ),
        )
    }
}

impl Ranged for Parcel {
    ghost valid = { λ v. ⟦<ParcelFields as WrittenFields>⟧.valid (⟦<Parcel as Record>⟧.values v) };

    fn ranged(&self) {
        self.id.ranged();
        self.state.ranged();
        self.before.ranged();
        self.weights.ranged();
        self.tasks.ranged();
        self.note.ranged();
        self.extra.ranged();
    }
}

impl RoundTrip for Parcel {
    fn round_trips() {
        record_round_trips::<Parcel, ParcelFields>()
    }
}

impl Lossless for Parcel {
    fn lossless() {
        record_lossless::<Parcel, ParcelFields>()
    }
}

impl NeverNull for Parcel {
    fn never_null() {}
}

impl Stable for Parcel {
    fn stable() {
        record_stable::<Parcel, ParcelFields>()
    }
}
