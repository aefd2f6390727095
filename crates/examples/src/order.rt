//! The types of `order.rs`, with the impls that `./derive` writes.
ghost use Rattle.miniserde.specs.FieldsMeaning.{struct_meaning};
ghost use Rattle.miniserde.specs.Structs.{names_of, record_tree};
ghost use Rattle.std.specs.Prelude.{refl};

use miniserde::derived::{
    Event, FourLent, FourParts, FourSlot, FromJson, Lossless, NeverNull, NoSlot, Ranged, Record,
    Result, RoundTrip, Serialize, Slots, Source, Writer, WrittenFields, read_record,
    record_lossless, record_round_trips, take_four, write_members,
};

/// An order of a shop.
#[derive(Drop)]
pub struct Order {
    pub id: u64,
    pub quantity: u32,
    pub paid: bool,
    pub note: Option<String>,
}

// Its fields, and their names.
type OrderFields = FourSlot<u64, u32, bool, Option<String>, NoSlot>;

const ORDER_NAMES: &[&str] = &["id", "quantity", "paid", "note"];

impl Record for Order {
    ghost use Rattle.examples.specs.declared.order.TheConstants.{ORDER_NAMES};

    type Values = <OrderFields as Slots>::Values;

    ghost names = { names_of ORDER_NAMES };

    ghost values = { λ v. (v.id, (v.quantity, (v.paid, (v.note, tt)))) };

    ghost made = { λ x. record { id = x.0; quantity = x.1.0; paid = x.1.1.0; note = x.1.1.1.0 } };

    ghost bijective = { (λ v. refl, λ x. refl) };

    ghost distinct_names = { refl };

    fn names() -> &'static [&'static str] {
        ORDER_NAMES
    }

    fn build(parts: Self::Values) -> Order {
        let FourParts(id, quantity, paid, note, ()) = take_four(parts);
        Order {
            id,
            quantity,
            paid,
            note,
        }
    }
}

impl FromJson for Order {
    ghost means = { struct_meaning ⟦<OrderFields as Slots>⟧.meaning ⟦<Order as Record>⟧.names
        ⟦<Order as Record>⟧.values };

    fn missing() -> Option<Order> {
        None
    }

    fn read<'a>(token: Event<'a>, source: &mut Source<'a>) -> Result<Order> {
        read_record::<Order, OrderFields>(token, source)
    }
}

impl Serialize for Order {
    ghost tree = { record_tree ⟦<Order as Record>⟧.names ⟦<OrderFields as WrittenFields>⟧.trees
        ⟦<Order as Record>⟧.values };

    fn begin(&self, w: &mut Writer) -> Result<()> {
        write_members(
            w,
            ORDER_NAMES,
            &FourLent(&self.id, &self.quantity, &self.paid, &self.note, ()),
        )
    }
}

impl Ranged for Order {
    ghost valid = { λ v. ⟦<OrderFields as WrittenFields>⟧.valid (⟦<Order as Record>⟧.values v) };

    fn ranged(&self) {
        self.id.ranged();
        self.quantity.ranged();
        self.paid.ranged();
        self.note.ranged();
    }
}

impl RoundTrip for Order {
    fn round_trips() {
        record_round_trips::<Order, OrderFields>()
    }
}

impl Lossless for Order {
    fn lossless() {
        record_lossless::<Order, OrderFields>()
    }
}

impl NeverNull for Order {
    fn never_null() {}
}
