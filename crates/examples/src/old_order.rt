//! The types of `old_order.rs`, with the impls that `./derive` writes.
ghost use Rattle.miniserde.specs.FieldsMeaning.{struct_meaning};
ghost use Rattle.miniserde.specs.Structs.{names_of, record_tree};
ghost use Rattle.std.specs.Prelude.{refl};

use miniserde::derived::{
    Event, FromJson, NoSlot, Parts, Ranged, Record, Result, RoundTrip, Serialize, Slot, Slots,
    Source, Writer, WrittenFields, read_record, record_round_trips, write_members,
};

/// An order, as version 1 stores it.
#[derive(Drop)]
pub struct OldOrder {
    pub id: u64,
    pub count: u32,
    pub paid: bool,
}

// Its fields, and their names.
type OldOrderFields = Slot<u64, Slot<u32, Slot<bool, NoSlot>>>;

const OLD_ORDER_NAMES: &[&str] = &["id", "count", "paid"];

impl Record for OldOrder {
    ghost use Rattle.examples.specs.declared.old_order.TheConstants.{OLD_ORDER_NAMES};

    type Values = <OldOrderFields as Slots>::Values;

    ghost names = { names_of OLD_ORDER_NAMES };

    ghost values = { λ v. (v.id, (v.count, (v.paid, tt))) };

    ghost made = { λ x. record { id = x.0; count = x.1.0; paid = x.1.1.0 } };

    ghost bijective = { (λ v. refl, λ x. refl) };

    ghost distinct_names = { refl };

    fn names() -> &'static [&'static str] {
        OLD_ORDER_NAMES
    }

    fn build(parts: Self::Values) -> OldOrder {
        let Parts(id, Parts(count, Parts(paid, ()))) = parts;
        OldOrder { id, count, paid }
    }
}

impl FromJson for OldOrder {
    ghost means = { struct_meaning ⟦<OldOrderFields as Slots>⟧.meaning ⟦<OldOrder as Record>⟧.names
        ⟦<OldOrder as Record>⟧.values };

    fn missing() -> Option<OldOrder> {
        None
    }

    fn read<'a>(token: Event<'a>, source: &mut Source<'a>) -> Result<OldOrder> {
        read_record::<OldOrder, OldOrderFields>(token, source)
    }
}

impl Serialize for OldOrder {
    ghost tree = { record_tree ⟦<OldOrder as Record>⟧.names ⟦<OldOrderFields as WrittenFields>⟧.trees ⟦<OldOrder as Record>⟧.values };

    fn begin(&self, w: &mut Writer) -> Result<()> {
        write_members(
            w,
            OLD_ORDER_NAMES,
            &Parts(&self.id, Parts(&self.count, Parts(&self.paid, ()))),
        )
    }
}

impl Ranged for OldOrder {
    ghost valid = { λ v. ⟦<OldOrderFields as WrittenFields>⟧.valid (⟦<OldOrder as Record>⟧.values v) };

    fn ranged(&self) {
        self.id.ranged();
        self.count.ranged();
        self.paid.ranged();
    }
}

impl RoundTrip for OldOrder {
    fn round_trips() {
        record_round_trips::<OldOrder, OldOrderFields>()
    }
}
