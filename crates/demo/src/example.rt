//! Nested structs with optional, boxed and renamed fields: what `./derive` writes of `example.rs`.
ghost use Rattle.miniserde.specs.FieldsMeaning.{struct_meaning};
ghost use Rattle.miniserde.specs.Place.{wrapper_meaning};
ghost use Rattle.miniserde.specs.Structs.{names_of, record_tree};
ghost use Rattle.std.specs.Prelude.{refl};

use crate::tag::Tag;
use miniserde::derived::{
    Deserialize, Error, Event, Field, FourLent, FourParts, FourSlot, FromJson, Global, NoField,
    NoSlot, Parts, PlacedRecord, Ranged, Record, RecordPlace, Result, RoundTrip, Serialize, Slot,
    Slots, Source, Stable, Step, Visitor, Writer, WrittenFields, read_record, record_round_trips,
    record_stable, take_four, write_members, write_members_in_order,
};

/// A struct of two optional fields.
#[derive(Drop)]
pub struct Nested {
    pub y: Option<Vec<String>>,
    pub z: Option<String>,
}

// Its fields, and their names.
type NestedFields = Slot<Option<Vec<String>>, Slot<Option<String>, NoSlot>>;

const NESTED_NAMES: &[&str] = &["y", "z"];

impl Record for Nested {
    ghost use Rattle.demo.specs.declared.example.TheConstants.{NESTED_NAMES};

    type Values = <NestedFields as Slots>::Values;

    ghost names = { names_of NESTED_NAMES };

    ghost values = { λ v. (v.y, (v.z, tt)) };

    ghost made = { λ x. record { y = x.0; z = x.1.0 } };

    ghost bijective = { (λ v. refl, λ x. refl) };

    ghost distinct_names = { refl };

    fn names() -> &'static [&'static str] {
        NESTED_NAMES
    }

    fn build(parts: Self::Values) -> Nested {
        let Parts(y, Parts(z, ())) = parts;
        Nested { y, z }
    }
}

impl FromJson for Nested {
    ghost means = { struct_meaning ⟦<NestedFields as Slots>⟧.meaning ⟦<Nested as Record>⟧.names
        ⟦<Nested as Record>⟧.values };

    fn missing() -> Option<Nested> {
        None
    }

    fn read<'a>(token: Event<'a>, source: &mut Source<'a>) -> Result<Nested> {
        read_record::<Nested, NestedFields>(token, source)
    }
}

impl Serialize for Nested {
    ghost tree = { record_tree ⟦<Nested as Record>⟧.names ⟦<NestedFields as WrittenFields>⟧.trees
        ⟦<Nested as Record>⟧.values };

    fn begin(&self, w: &mut Writer) -> Result<()> {
        write_members_in_order(w, NESTED_NAMES, &Parts(&self.y, Parts(&self.z, ())))
    }
}

impl Ranged for Nested {
    ghost valid = { λ v. ⟦<NestedFields as WrittenFields>⟧.valid (⟦<Nested as Record>⟧.values v) };

    fn ranged(&self) {
        self.y.ranged();
        self.z.ranged();
    }
}

impl RoundTrip for Nested {
    fn round_trips() {
        record_round_trips::<Nested, NestedFields>()
    }
}

impl Stable for Nested {
    fn stable() {
        record_stable::<Nested, NestedFields>()
    }
}

/// The place of a `Nested`.
#[derive(Drop)]
pub struct NestedPlace {
    place: RecordPlace<Nested>,
}

impl PlacedRecord for Nested {
    type Fields = Field<Option<Vec<String>>, Field<Option<String>, NoField>>;
}

impl Visitor for NestedPlace {
    type Out = Nested;

    ghost meaning = { wrapper_meaning (λ p. p.place) ⟦<RecordPlace<Nested> as Visitor>⟧.meaning };

    fn begin(alloc: Global) -> Result<NestedPlace> {
        Ok(NestedPlace {
            place: <RecordPlace<Nested> as Visitor>::begin(alloc)?,
        })
    }

    fn step(&mut self, event: Step<'_>) -> Result<()> {
        self.place.step(event)
    }

    fn refuse(&mut self, error: Error) -> Error {
        self.place.refuse(error)
    }

    fn is_complete(&self) -> bool {
        self.place.is_complete()
    }

    fn take(self) -> Result<Nested> {
        let NestedPlace { place } = self;
        place.take()
    }
}

impl Deserialize for Nested {
    type Place = NestedPlace;

    fn tied() {}
}

/// A struct of five fields, one of which is written under another name.
#[derive(Drop)]
pub struct Example {
    pub x: String,
    pub t1: Tag,
    pub t2: Box<Tag>,
    pub t3: [Tag; 1],
    pub nested: Box<Nested>,
}

// Its fields, and their names.
type ExampleFields = FourSlot<String, Tag, Box<Tag>, [Tag; 1], Slot<Box<Nested>, NoSlot>>;

const EXAMPLE_NAMES: &[&str] = &["x", "t1", "t2", "t3", "struct"];

impl Record for Example {
    ghost use Rattle.demo.specs.declared.example.TheConstants.{EXAMPLE_NAMES};

    type Values = <ExampleFields as Slots>::Values;

    ghost names = { names_of EXAMPLE_NAMES };

    ghost values = { λ v. (v.x, (v.t1, (v.t2, (v.t3, (v.nested, tt))))) };

    ghost made = { λ x. record {
      x = x.0;
      t1 = x.1.0;
      t2 = x.1.1.0;
      t3 = x.1.1.1.0;
      nested = x.1.1.1.1.0;
    } };

    ghost bijective = { (λ v. refl, λ x. refl) };

    ghost distinct_names = { refl };

    fn names() -> &'static [&'static str] {
        EXAMPLE_NAMES
    }

    fn build(parts: Self::Values) -> Example {
        let FourParts(x, t1, t2, t3, parts) = take_four(parts);
        let Parts(nested, ()) = parts;
        Example {
            x,
            t1,
            t2,
            t3,
            nested,
        }
    }
}

impl FromJson for Example {
    ghost means = { struct_meaning ⟦<ExampleFields as Slots>⟧.meaning ⟦<Example as Record>⟧.names
        ⟦<Example as Record>⟧.values };

    fn missing() -> Option<Example> {
        None
    }

    fn read<'a>(token: Event<'a>, source: &mut Source<'a>) -> Result<Example> {
        read_record::<Example, ExampleFields>(token, source)
    }
}

impl Serialize for Example {
    ghost tree = { record_tree ⟦<Example as Record>⟧.names ⟦<ExampleFields as WrittenFields>⟧.trees
        ⟦<Example as Record>⟧.values };

    fn begin(&self, w: &mut Writer) -> Result<()> {
        write_members(
            w,
            EXAMPLE_NAMES,
            &FourLent(
                &self.x,
                &self.t1,
                &self.t2,
                &self.t3,
                Parts(&self.nested, ()),
            ),
        )
    }
}

impl Ranged for Example {
    ghost valid = { λ v. ⟦<ExampleFields as WrittenFields>⟧.valid (⟦<Example as Record>⟧.values v) };

    fn ranged(&self) {
        self.x.ranged();
        self.t1.ranged();
        self.t2.ranged();
        self.t3.ranged();
        self.nested.ranged();
    }
}

impl RoundTrip for Example {
    fn round_trips() {
        record_round_trips::<Example, ExampleFields>()
    }
}

impl Stable for Example {
    fn stable() {
        record_stable::<Example, ExampleFields>()
    }
}
