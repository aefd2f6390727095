//! The types of `ends.rs`, with the impls that `./derive` writes.
ghost use Rattle.miniserde.specs.FieldsMeaning.{struct_meaning};
ghost use Rattle.miniserde.specs.Structs.{names_of, record_tree};
ghost use Rattle.std.specs.Prelude.{refl};

use miniserde::derived::{
    Event, FromJson, Lossless, NeverNull, NoSlot, Parts, Ranged, Record, Result, RoundTrip,
    Serialize, Slot, Slots, Source, Writer, WrittenFields, read_record, record_lossless,
    record_round_trips, write_members_in_order,
};

/// Both ends of a span.
#[derive(Drop)]
pub struct Ends<T> {
    pub from: T,
    pub to: T,
}

// Its fields, and their names.
type EndsFields<T> = Slot<T, Slot<T, NoSlot>>;

const ENDS_NAMES: &[&str] = &["from", "to"];

impl<T: FromJson> Record for Ends<T> {
    ghost use Rattle.test_newtypes.specs.declared.ends.TheConstants.{ENDS_NAMES};

    type Values = <EndsFields<T> as Slots>::Values;

    ghost names = { names_of ENDS_NAMES };

    ghost values = { λ v. (v.from, (v.to, tt)) };

    ghost made = { λ x. record { from = x.0; to = x.1.0 } };

    ghost bijective = { (λ v. refl, λ x. refl) };

    ghost distinct_names = { refl };

    fn names() -> &'static [&'static str] {
        ENDS_NAMES
    }

    fn build(parts: Self::Values) -> Ends<T> {
        let Parts(from, Parts(to, ())) = parts;
        Ends { from, to }
    }
}

impl<T: FromJson> FromJson for Ends<T> {
    ghost means = { struct_meaning ⟦<EndsFields<T> as Slots>⟧.meaning ⟦<Ends<T> as Record>⟧.names
        ⟦<Ends<T> as Record>⟧.values };

    fn missing() -> Option<Ends<T>> {
        None
    }

    fn read<'a>(token: Event<'a>, source: &mut Source<'a>) -> Result<Ends<T>> {
        read_record::<Ends<T>, EndsFields<T>>(token, source)
    }
}

impl<T: FromJson + Ranged + Serialize> Serialize for Ends<T> {
    ghost tree = { record_tree ⟦<Ends<T> as Record>⟧.names ⟦<EndsFields<T> as WrittenFields>⟧.trees
        ⟦<Ends<T> as Record>⟧.values };

    fn begin(&self, w: &mut Writer) -> Result<()> {
        write_members_in_order(w, ENDS_NAMES, &Parts(&self.from, Parts(&self.to, ())))
    }
}

impl<T: FromJson + Ranged + Serialize> Ranged for Ends<T> {
    ghost valid = { λ v. ⟦<EndsFields<T> as WrittenFields>⟧.valid (⟦<Ends<T> as Record>⟧.values v) };

    fn ranged(&self) {
        self.from.ranged();
        self.to.ranged();
    }
}

impl<T: RoundTrip> RoundTrip for Ends<T> {
    fn round_trips() {
        record_round_trips::<Ends<T>, EndsFields<T>>()
    }
}

impl<T: Lossless> Lossless for Ends<T> {
    fn lossless() {
        record_lossless::<Ends<T>, EndsFields<T>>()
    }
}

impl<T: RoundTrip> NeverNull for Ends<T> {
    fn never_null() {}
}
