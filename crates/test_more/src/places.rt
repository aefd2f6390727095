//! The types of `places.rs`, with the impls that `./derive` writes.
ghost use Rattle.miniserde.specs.Cases.{each_case, first_case, later_case, any_of_never};
ghost use Rattle.miniserde.specs.FieldsMeaning.{struct_meaning};
ghost use Rattle.miniserde.specs.Meanings.{box_meaning};
ghost use Rattle.miniserde.specs.Structs.{names_of, record_tree};
ghost use Rattle.miniserde_more.specs.Untagged.{untagged_tree};
ghost use Rattle.miniserde_more.specs.UntaggedMeaning.{untagged_meaning};
ghost use Rattle.miniserde_more.specs.laws.Kinds.{by_tree};
ghost use Rattle.std.specs.Prelude.{refl};

use crate::lists::OneOrMany;
use miniserde::derived::{
    DataCase, Event, FromJson, Lossless, NeverNull, NoCase, NoSlot, OneOf, Parts, Ranged, Record,
    Result, RoundTrip, Serialize, Slot, Slots, Source, Stable, Transparent, Writer, WrittenFields,
    read_record, record_lossless, record_round_trips, record_stable, transparent_round_trips,
    write_members, write_members_in_order,
};
use miniserde_more::untagged::{
    HasKinds, NumberKind, ObjectKind, UntaggedCases, UntaggedEnum, WrittenUntagged, read_untagged,
    untagged_lossless, untagged_never_null, untagged_round_trips, untagged_stable,
};

/// A port.
#[derive(Drop)]
pub struct Port(u16);

impl Transparent for Port {
    type Inner = u16;

    ghost inner = { λ v. v.0 };

    ghost wrapped = { λ x. record { 0 = x } };

    ghost unwraps = { λ x. refl };
}

impl FromJson for Port {
    ghost means = { box_meaning ⟦<u16 as FromJson>⟧.means (λ v. v.0) };

    ghost read_infallible = { ⟦<u16 as FromJson>⟧.read_infallible };

    ghost lacking = { ⟦<u16 as FromJson>⟧.lacking };

    fn missing() -> Option<Port> {
        None
    }

    fn read<'a>(token: Event<'a>, source: &mut Source<'a>) -> Result<Port> {
        Ok(Port(<u16 as FromJson>::read(token, source)?))
    }
}

impl Serialize for Port {
    ghost tree = { λ v. ⟦<u16 as Serialize>⟧.tree v.0 };

    fn begin(&self, w: &mut Writer) -> Result<()> {
        self.0.begin(w)
    }
}

impl Ranged for Port {
    ghost valid = { λ v. ⟦<u16 as Ranged>⟧.valid v.0 };

    fn ranged(&self) {
        self.0.ranged()
    }
}

impl RoundTrip for Port {
    fn round_trips() {
        transparent_round_trips::<u16, Port>()
    }
}

impl Lossless for Port {
    fn lossless() {
        <u16 as Lossless>::lossless()
    }
}

impl NeverNull for Port {
    fn never_null() {
        <u16 as NeverNull>::never_null()
    }
}

impl Stable for Port {
    fn stable() {
        <u16 as Stable>::stable()
    }
}

impl HasKinds for Port {
    type Kinds = NumberKind;

    ghost only = { by_tree _ _ refl (λ _. refl) (λ _. tt) (λ _. tt) (λ _. tt) (λ _. refl) (λ _. refl) (λ _. refl) };
}

/// The fields of `Place::Both`.
#[derive(Drop)]
pub struct PlaceBoth {
    pub port: Port,
    pub name: String,
}

// Its fields, and their names.
type PlaceBothFields = Slot<Port, Slot<String, NoSlot>>;

const PLACE_BOTH_NAMES: &[&str] = &["port", "name"];

impl Record for PlaceBoth {
    ghost use Rattle.test_more.specs.declared.places.TheConstants.{PLACE_BOTH_NAMES};

    type Values = <PlaceBothFields as Slots>::Values;

    ghost names = { names_of PLACE_BOTH_NAMES };

    ghost values = { λ v. (v.port, (v.name, tt)) };

    ghost made = { λ x. record { port = x.0; name = x.1.0 } };

    ghost bijective = { (λ v. refl, λ x. refl) };

    ghost distinct_names = { refl };

    fn names() -> &'static [&'static str] {
        PLACE_BOTH_NAMES
    }

    fn build(parts: Self::Values) -> PlaceBoth {
        let Parts(port, Parts(name, ())) = parts;
        PlaceBoth { port, name }
    }
}

impl FromJson for PlaceBoth {
    ghost means = { struct_meaning ⟦<PlaceBothFields as Slots>⟧.meaning ⟦<PlaceBoth as Record>⟧.names ⟦<PlaceBoth as Record>⟧.values };

    fn missing() -> Option<PlaceBoth> {
        None
    }

    fn read<'a>(token: Event<'a>, source: &mut Source<'a>) -> Result<PlaceBoth> {
        read_record::<PlaceBoth, PlaceBothFields>(token, source)
    }
}

impl Serialize for PlaceBoth {
    ghost tree = { record_tree ⟦<PlaceBoth as Record>⟧.names ⟦<PlaceBothFields as WrittenFields>⟧.trees ⟦<PlaceBoth as Record>⟧.values };

    fn begin(&self, w: &mut Writer) -> Result<()> {
        write_members(
            w,
            PLACE_BOTH_NAMES,
            &Parts(&self.port, Parts(&self.name, ())),
        )
    }
}

impl Ranged for PlaceBoth {
    ghost valid = { λ v. ⟦<PlaceBothFields as WrittenFields>⟧.valid (⟦<PlaceBoth as Record>⟧.values
        v) };

    fn ranged(&self) {
        self.port.ranged();
        self.name.ranged();
    }
}

impl RoundTrip for PlaceBoth {
    fn round_trips() {
        record_round_trips::<PlaceBoth, PlaceBothFields>()
    }
}

impl Lossless for PlaceBoth {
    fn lossless() {
        record_lossless::<PlaceBoth, PlaceBothFields>()
    }
}

impl NeverNull for PlaceBoth {
    fn never_null() {}
}

impl Stable for PlaceBoth {
    fn stable() {
        record_stable::<PlaceBoth, PlaceBothFields>()
    }
}

impl HasKinds for PlaceBoth {
    type Kinds = ObjectKind;

    ghost only = { by_tree _ _ refl (λ _. refl) (λ _. refl) (λ _. refl) (λ _. refl) (λ _. refl) (λ _. refl) (λ _. tt) };
}

/// Where a thing is: a port, its name, or both.
#[derive(Drop)]
pub enum Place {
    /// As `8080`.
    Number(Port),
    Named(String),
    Both { port: Port, name: String },
    Pair(u16, bool),
}

// Its variants.
type PlaceCases = DataCase<
    Port,
    DataCase<String, DataCase<PlaceBoth, DataCase<(u16, bool), NoCase>>>,
>;

impl UntaggedEnum for Place {
    ghost use Rattle.test_more.specs.declared.places.Place.TheVariants.{Number, Named, Both, Pair};

    type Values = <PlaceCases as UntaggedCases>::Values;

    ghost values = { elim [
      | Number x0 ↦ first_case x0
      | Named x0 ↦ later_case (first_case x0)
      | Both
          x0 x1 ↦ later_case (later_case (first_case (record { port = x0; name = x1 })))
      | Pair x0 x1
          ↦ later_case (later_case (later_case (first_case (x0, x1))))
    ] };

    ghost made = { each_case _ (λ x. Number x) (each_case _ (λ x. Named x) (each_case _ (λ x. Both
        x.port x.name) (each_case _ (λ x. Pair x.0 x.1) (any_of_never _)))) };

    ghost bijective = { (
      elim [
        | Number x0 ↦ refl
        | Named x0 ↦ refl
        | Both x0 x1 ↦ refl
        | Pair x0 x1
            ↦ refl
      ],
      each_case _ (λ x. refl) (each_case _ (λ x. refl) (each_case _ (λ x. refl)
          (each_case _ (λ x. refl) (any_of_never _)))),
    ) };

    fn build(value: Self::Values) -> Place {
        match value {
            OneOf::First(a) => Place::Number(a),
            OneOf::Later(value) => match value {
                OneOf::First(a) => Place::Named(a),
                OneOf::Later(value) => match value {
                    OneOf::First(PlaceBoth { port, name }) => Place::Both { port, name },
                    OneOf::Later(value) => match value {
                        OneOf::First((a, b)) => Place::Pair(a, b),
                        OneOf::Later(value) => match value {},
                    },
                },
            },
        }
    }
}

impl FromJson for Place {
    ghost means = { untagged_meaning ⟦<PlaceCases as UntaggedCases>⟧.meaning ⟦<Place as UntaggedEnum>⟧.values };

    fn missing() -> Option<Place> {
        None
    }

    fn read<'a>(token: Event<'a>, source: &mut Source<'a>) -> Result<Place> {
        read_untagged::<Place, PlaceCases>(token, source)
    }
}

impl Serialize for Place {
    ghost tree = { untagged_tree ⟦<PlaceCases as WrittenUntagged>⟧.tree ⟦<Place as UntaggedEnum>⟧.values };

    fn begin(&self, w: &mut Writer) -> Result<()> {
        match self {
            Place::Number(a) => a.begin(w),
            Place::Named(a) => a.begin(w),
            Place::Both { port, name } => {
                write_members(w, PLACE_BOTH_NAMES, &Parts(port, Parts(name, ())))
            },
            Place::Pair(a, b) => (a, b).begin(w),
        }
    }
}

impl Ranged for Place {
    ghost valid = { λ v. ⟦<PlaceCases as WrittenUntagged>⟧.valid (⟦<Place as UntaggedEnum>⟧.values
        v) };

    fn ranged(&self) {
        match self {
            Place::Number(a) => a.ranged(),
            Place::Named(a) => a.ranged(),
            Place::Both { port, name } => {
                port.ranged();
                name.ranged();
            },
            Place::Pair(a, b) => {
                a.ranged();
                b.ranged();
            },
        }
    }
}

impl RoundTrip for Place {
    fn round_trips() {
        untagged_round_trips::<Place, PlaceCases>()
    }
}

impl Lossless for Place {
    fn lossless() {
        untagged_lossless::<Place, PlaceCases>()
    }
}

impl NeverNull for Place {
    fn never_null() {
        untagged_never_null::<Place, PlaceCases>()
    }
}

impl Stable for Place {
    fn stable() {
        untagged_stable::<Place, PlaceCases>()
    }
}

/// A row of things, and what is said of them.
#[derive(Drop)]
pub struct Row {
    pub places: Vec<Place>,
    pub tags: Option<OneOrMany>,
}

// Its fields, and their names.
type RowFields = Slot<Vec<Place>, Slot<Option<OneOrMany>, NoSlot>>;

const ROW_NAMES: &[&str] = &["places", "tags"];

impl Record for Row {
    ghost use Rattle.test_more.specs.declared.places.TheConstants.{ROW_NAMES};

    type Values = <RowFields as Slots>::Values;

    ghost names = { names_of ROW_NAMES };

    ghost values = { λ v. (v.places, (v.tags, tt)) };

    ghost made = { λ x. record { places = x.0; tags = x.1.0 } };

    ghost bijective = { (λ v. refl, λ x. refl) };

    ghost distinct_names = { refl };

    fn names() -> &'static [&'static str] {
        ROW_NAMES
    }

    fn build(parts: Self::Values) -> Row {
        let Parts(places, Parts(tags, ())) = parts;
        Row { places, tags }
    }
}

impl FromJson for Row {
    ghost means = { struct_meaning ⟦<RowFields as Slots>⟧.meaning ⟦<Row as Record>⟧.names ⟦<Row as Record>⟧.values };

    fn missing() -> Option<Row> {
        None
    }

    fn read<'a>(token: Event<'a>, source: &mut Source<'a>) -> Result<Row> {
        read_record::<Row, RowFields>(token, source)
    }
}

impl Serialize for Row {
    ghost tree = { record_tree ⟦<Row as Record>⟧.names ⟦<RowFields as WrittenFields>⟧.trees ⟦<Row as Record>⟧.values };

    fn begin(&self, w: &mut Writer) -> Result<()> {
        write_members_in_order(w, ROW_NAMES, &Parts(&self.places, Parts(&self.tags, ())))
    }
}

impl Ranged for Row {
    ghost valid = { λ v. ⟦<RowFields as WrittenFields>⟧.valid (⟦<Row as Record>⟧.values v) };

    fn ranged(&self) {
        self.places.ranged();
        self.tags.ranged();
    }
}

impl RoundTrip for Row {
    fn round_trips() {
        record_round_trips::<Row, RowFields>()
    }
}

impl Lossless for Row {
    fn lossless() {
        record_lossless::<Row, RowFields>()
    }
}

impl NeverNull for Row {
    fn never_null() {}
}

impl Stable for Row {
    fn stable() {
        record_stable::<Row, RowFields>()
    }
}
