//! Structs with integer and string fields: what `./derive` writes of `structs.rs`.
ghost use Rattle.miniserde.specs.FieldsMeaning.{struct_meaning};
ghost use Rattle.miniserde.specs.Place.{wrapper_meaning};
ghost use Rattle.miniserde.specs.Structs.{names_of, record_tree};
ghost use Rattle.std.specs.Prelude.{refl};

use miniserde::derived::{
    Deserialize, Error, Event, Field, FromJson, Global, NoField, NoSlot, Parts, PlacedRecord,
    Ranged, Record, RecordPlace, Result, RoundTrip, Serialize, Slot, Slots, Source, Stable, Step,
    Visitor, Writer, WrittenFields, read_record, record_round_trips, record_stable,
    write_members_in_order,
};

/// A struct of two fields.
#[derive(Drop)]
pub struct Demo {
    pub code: u32,
    pub message: String,
}

// Its fields, and their names.
type DemoFields = Slot<u32, Slot<String, NoSlot>>;

const DEMO_NAMES: &[&str] = &["code", "message"];

impl Record for Demo {
    ghost use Rattle.demo.specs.declared.structs.TheConstants.{DEMO_NAMES};

    type Values = <DemoFields as Slots>::Values;

    ghost names = { names_of DEMO_NAMES };

    ghost values = { λ v. (v.code, (v.message, tt)) };

    ghost made = { λ x. record { code = x.0; message = x.1.0 } };

    ghost bijective = { (λ v. refl, λ x. refl) };

    ghost distinct_names = { refl };

    fn names() -> &'static [&'static str] {
        DEMO_NAMES
    }

    fn build(parts: Self::Values) -> Demo {
        let Parts(code, Parts(message, ())) = parts;
        Demo { code, message }
    }
}

impl FromJson for Demo {
    ghost means = { struct_meaning ⟦<DemoFields as Slots>⟧.meaning ⟦<Demo as Record>⟧.names ⟦<Demo as Record>⟧.values };

    fn missing() -> Option<Demo> {
        None
    }

    fn read<'a>(token: Event<'a>, source: &mut Source<'a>) -> Result<Demo> {
        read_record::<Demo, DemoFields>(token, source)
    }
}

impl Serialize for Demo {
    ghost tree = { record_tree ⟦<Demo as Record>⟧.names ⟦<DemoFields as WrittenFields>⟧.trees ⟦<Demo as Record>⟧.values };

    fn begin(&self, w: &mut Writer) -> Result<()> {
        write_members_in_order(w, DEMO_NAMES, &Parts(&self.code, Parts(&self.message, ())))
    }
}

impl Ranged for Demo {
    ghost valid = { λ v. ⟦<DemoFields as WrittenFields>⟧.valid (⟦<Demo as Record>⟧.values v) };

    fn ranged(&self) {
        self.code.ranged();
        self.message.ranged();
    }
}

impl RoundTrip for Demo {
    fn round_trips() {
        record_round_trips::<Demo, DemoFields>()
    }
}

impl Stable for Demo {
    fn stable() {
        record_stable::<Demo, DemoFields>()
    }
}

/// The place of a `Demo`.
#[derive(Drop)]
pub struct DemoPlace {
    place: RecordPlace<Demo>,
}

impl PlacedRecord for Demo {
    type Fields = Field<u32, Field<String, NoField>>;
}

impl Visitor for DemoPlace {
    type Out = Demo;

    ghost meaning = { wrapper_meaning (λ p. p.place) ⟦<RecordPlace<Demo> as Visitor>⟧.meaning };

    fn begin(alloc: Global) -> Result<DemoPlace> {
        Ok(DemoPlace {
            place: <RecordPlace<Demo> as Visitor>::begin(alloc)?,
        })
    }

    fn step(&mut self, event: Step<'_>) -> Result<()> {
        self.place.step(event)
    }

    fn refuse(&mut self, error: Error) -> Error {
        self.place.refuse(error)
    }

    fn is_complete(&self) -> bool {
        self.place.is_complete()
    }

    fn take(self) -> Result<Demo> {
        let DemoPlace { place } = self;
        place.take()
    }
}

impl Deserialize for Demo {
    type Place = DemoPlace;

    fn tied() {}
}
