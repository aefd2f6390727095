//! A struct that refuses a repeat of its own names: what `./derive` writes of `strict.rs`.
ghost use Rattle.miniserde.specs.FieldsMeaning.{struct_meaning};
ghost use Rattle.miniserde.specs.Place.{wrapper_meaning};
ghost use Rattle.miniserde.specs.Structs.{names_of, record_tree};
ghost use Rattle.std.specs.Prelude.{refl};

use miniserde::derived::{
    Deserialize, Error, Event, FromJson, Global, NoField, NoSlot, OnceField, OnceSlot, Parts,
    PlacedRecord, Ranged, Record, RecordPlace, Result, RoundTrip, Serialize, Slots, Source, Stable,
    Step, Visitor, Writer, WrittenFields, read_record, record_round_trips, record_stable,
    write_members_in_order,
};

/// As `Demo`, whose `message` is the field `text`, and invalid if `code` or `message` is duplicated among its members. Other names may be.
#[derive(Drop)]
pub struct StrictDemo {
    pub code: u32,
    pub text: String,
}

// Its fields, and their names.
type StrictDemoFields = OnceSlot<u32, OnceSlot<String, NoSlot>>;

const STRICT_DEMO_NAMES: &[&str] = &["code", "message"];

impl Record for StrictDemo {
    ghost use Rattle.demo.specs.declared.strict.TheConstants.{STRICT_DEMO_NAMES};

    type Values = <StrictDemoFields as Slots>::Values;

    ghost names = { names_of STRICT_DEMO_NAMES };

    ghost values = { λ v. (v.code, (v.text, tt)) };

    ghost made = { λ x. record { code = x.0; text = x.1.0 } };

    ghost bijective = { (λ v. refl, λ x. refl) };

    ghost distinct_names = { refl };

    fn names() -> &'static [&'static str] {
        STRICT_DEMO_NAMES
    }

    fn build(parts: Self::Values) -> StrictDemo {
        let Parts(code, Parts(text, ())) = parts;
        StrictDemo { code, text }
    }
}

impl FromJson for StrictDemo {
    ghost means = { struct_meaning ⟦<StrictDemoFields as Slots>⟧.meaning ⟦<StrictDemo as Record>⟧.names ⟦<StrictDemo as Record>⟧.values };

    fn missing() -> Option<StrictDemo> {
        None
    }

    fn read<'a>(token: Event<'a>, source: &mut Source<'a>) -> Result<StrictDemo> {
        read_record::<StrictDemo, StrictDemoFields>(token, source)
    }
}

impl Serialize for StrictDemo {
    ghost tree = { record_tree ⟦<StrictDemo as Record>⟧.names ⟦<StrictDemoFields as WrittenFields>⟧.trees ⟦<StrictDemo as Record>⟧.values };

    fn begin(&self, w: &mut Writer) -> Result<()> {
        write_members_in_order(
            w,
            STRICT_DEMO_NAMES,
            &Parts(&self.code, Parts(&self.text, ())),
        )
    }
}

impl Ranged for StrictDemo {
    ghost valid = { λ v. ⟦<StrictDemoFields as WrittenFields>⟧.valid (⟦<StrictDemo as Record>⟧.values v) };

    fn ranged(&self) {
        self.code.ranged();
        self.text.ranged();
    }
}

impl RoundTrip for StrictDemo {
    fn round_trips() {
        record_round_trips::<StrictDemo, StrictDemoFields>()
    }
}

impl Stable for StrictDemo {
    fn stable() {
        record_stable::<StrictDemo, StrictDemoFields>()
    }
}

/// The place of a `StrictDemo`.
#[derive(Drop)]
pub struct StrictDemoPlace {
    place: RecordPlace<StrictDemo>,
}

impl PlacedRecord for StrictDemo {
    type Fields = OnceField<u32, OnceField<String, NoField>>;
}

impl Visitor for StrictDemoPlace {
    type Out = StrictDemo;

    ghost meaning = { wrapper_meaning (λ p. p.place) ⟦<RecordPlace<StrictDemo> as Visitor>⟧.meaning };

    // The name of a field that has a value is refused as a key.
    ghost further = { λ old e answer new.
        ⟦<RecordPlace<StrictDemo> as Visitor>⟧.further old.place e answer new.place };

    fn begin(alloc: Global) -> Result<StrictDemoPlace> {
        Ok(StrictDemoPlace {
            place: <RecordPlace<StrictDemo> as Visitor>::begin(alloc)?,
        })
    }

    fn step(&mut self, event: Step<'_>) -> Result<()> {
        self.place.step(event)
    }

    fn refuse(&mut self, error: Error) -> Error {
        self.place.refuse(error)
    }

    fn is_complete(&self) -> bool {
        self.place.is_complete()
    }

    fn take(self) -> Result<StrictDemo> {
        let StrictDemoPlace { place } = self;
        place.take()
    }
}

impl Deserialize for StrictDemo {
    type Place = StrictDemoPlace;

    fn tied() {}
}
