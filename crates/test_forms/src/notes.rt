//! The types of `notes.rs`, with the impls that `./derive` writes.
ghost use Rattle.miniserde.specs.FieldsMeaning.{struct_meaning};
ghost use Rattle.miniserde.specs.Structs.{names_of, record_tree};
ghost use Rattle.miniserde.specs.Tree.{nonneg, str};
ghost use Rattle.std.specs.Prelude.{refl};

use crate::hosts::Host;
use miniserde::derived::{
    Closed, Event, FourLent, FourParts, FourSlot, FromJson, Given, Global, MarkedSlot, NeverNull,
    NoSlot, OmitSlot, Omitted, Once, OnceSlot, Parts, Plain, Ranged, Record, Result, RoundTrip,
    Serialize, Slot, Slots, Source, WithDefault, Writer, WrittenFields, read_record,
    record_round_trips, take_four, write_members,
};
use miniserde::json::{Number, Value};

/// An order, with an amount as its text.
#[derive(Drop)]
pub struct Order {
    pub total: Number,
    pub places: u8,
    pub kind: String,
    pub discount: Option<(u8, u64)>,
    pub extra: Value,
}

/// The value of a missing `places`.
#[derive(Drop)]
pub struct OrderPlacesDefault {}

impl Given<u8> for OrderPlacesDefault {
    ghost given = { nonneg 2 };

    fn make(_alloc: Global) -> Result<u8> {
        Ok(2)
    }
}

const ORDER_KIND_DEFAULT: &str = "sale";

/// The value of a missing `kind`.
#[derive(Drop)]
pub struct OrderKindDefault {}

impl Given<String> for OrderKindDefault {
    ghost use Rattle.test_forms.specs.declared.notes.TheConstants.{ORDER_KIND_DEFAULT};

    ghost given = { str ORDER_KIND_DEFAULT.now };

    fn make(alloc: Global) -> Result<String> {
        Ok(String::from_str(alloc, ORDER_KIND_DEFAULT)?)
    }
}

// Its fields, and their names.
type OrderFields = OnceSlot<
    Number,
    MarkedSlot<
        u8,
        WithDefault<OrderPlacesDefault>,
        MarkedSlot<
            String,
            WithDefault<OrderKindDefault>,
            OmitSlot<(u8, u64), Plain, Slot<Value, Closed>>,
        >,
    >,
>;

const ORDER_NAMES: &[&str] = &["total", "places", "type", "discount", "extra"];

impl Record for Order {
    ghost use Rattle.test_forms.specs.declared.notes.TheConstants.{ORDER_NAMES};

    type Values = <OrderFields as Slots>::Values;

    ghost names = { names_of ORDER_NAMES };

    ghost values = { λ v. (v.total, (v.places, (v.kind, (v.discount, (v.extra, tt))))) };

    ghost made = { λ x. record {
      total = x.0;
      places = x.1.0;
      kind = x.1.1.0;
      discount = x.1.1.1.0;
      extra = x.1.1.1.1.0;
    } };

    ghost bijective = { (λ v. refl, λ x. refl) };

    ghost distinct_names = { refl };

    fn names() -> &'static [&'static str] {
        ORDER_NAMES
    }

    fn build(parts: Self::Values) -> Order {
        let FourParts(total, places, kind, discount, parts) = take_four(parts);
        let Parts(extra, ()) = parts;
        Order {
            total,
            places,
            kind,
            discount,
            extra,
        }
    }
}

impl FromJson for Order {
    ghost means = { struct_meaning ⟦<OrderFields as Slots>⟧.meaning ⟦<Order as Record>⟧.names
        ⟦<Order as Record>⟧.values };

    fn missing() -> Option<Order> {
        None
    }

    fn read<'a>(token: Event<'a>, source: &mut Source<'a>) -> Result<Order> {
        read_record::<Order, OrderFields>(token, source)
    }
}

impl Serialize for Order {
    ghost tree = { record_tree ⟦<Order as Record>⟧.names ⟦<OrderFields as WrittenFields>⟧.trees
        ⟦<Order as Record>⟧.values };

    fn begin(&self, w: &mut Writer) -> Result<()> {
        write_members(
            w,
            ORDER_NAMES,
            &Parts(
                &self.total,
                Parts(
                    &self.places,
                    Parts(
                        &self.kind,
                        Parts(Omitted(&self.discount), Parts(&self.extra, ())),
                    ),
                ),
            ),
        )
    }
}

impl Ranged for Order {
    ghost valid = { λ v. ⟦<OrderFields as WrittenFields>⟧.valid (⟦<Order as Record>⟧.values v) };

    fn ranged(&self) {
        self.total.ranged();
        self.places.ranged();
        self.kind.ranged();
        self.discount.ranged();
        self.extra.ranged();
    }
}

impl RoundTrip for Order {
    fn round_trips() {
        record_round_trips::<Order, OrderFields>()
    }
}

impl NeverNull for Order {
    fn never_null() {}
}

/// A note, of which the name and four more are always written. Two values of an order or a number may be written alike.
#[derive(Drop)]
pub struct Note {
    pub text: Option<String>,
    pub name: String,
    pub stars: Option<u8>,
    pub points: Option<Vec<Option<u8>>>,
    pub a: bool,
    pub b: bool,
    pub c: bool,
    pub d: bool,
    pub host: Option<Box<Host>>,
    pub order: Option<Order>,
    pub number: Option<Number>,
}

// Its fields, and their names.
type NoteFields = OmitSlot<
    String,
    Plain,
    Slot<
        String,
        OmitSlot<
            u8,
            Once<Plain>,
            OmitSlot<
                Vec<Option<u8>>,
                Plain,
                FourSlot<
                    bool,
                    bool,
                    bool,
                    bool,
                    OmitSlot<
                        Box<Host>,
                        Plain,
                        OmitSlot<Order, Plain, OmitSlot<Number, Plain, NoSlot>>,
                    >,
                >,
            >,
        >,
    >,
>;

const NOTE_NAMES: &[&str] = &[
    "text", "name", "*", "points", "a", "b", "c", "d", "host", "order", "number",
];

impl Record for Note {
    ghost use Rattle.test_forms.specs.declared.notes.TheConstants.{NOTE_NAMES};

    type Values = <NoteFields as Slots>::Values;

    ghost names = { names_of NOTE_NAMES };

    ghost values = { λ v. (
      v.text,
      (
        v.name,
        (
          v.stars,
          (
            v.points,
            (
              v.a,
              (
                v.b,
                (
                  v.c,
                  (
                    v.d,
                    (
                      v.host,
                      (v.order, (v.number, tt)),
                    ),
                  ),
                ),
              ),
            ),
          ),
        ),
      ),
    ) };

    ghost made = { λ x. record {
      text = x.0;
      name = x.1.0;
      stars = x.1.1.0;
      points = x.1.1.1.0;
      a = x.1.1.1.1.0;
      b = x.1.1.1.1.1.0;
      c = x.1.1.1.1.1.1.0;
      d = x.1.1.1.1.1.1.1.0;
      host = x.1.1.1.1.1.1.1.1.0;
      order = x.1.1.1.1.1.1.1.1.1.0;
      number = x.1.1.1.1.1.1.1.1.1.1.0;
    } };

    ghost bijective = { (λ v. refl, λ x. refl) };

    ghost distinct_names = { refl };

    fn names() -> &'static [&'static str] {
        NOTE_NAMES
    }

    fn build(parts: Self::Values) -> Note {
        let FourParts(text, name, stars, points, parts) = take_four(parts);
        let FourParts(a, b, c, d, parts) = take_four(parts);
        let Parts(host, Parts(order, Parts(number, ()))) = parts;
        Note {
            text,
            name,
            stars,
            points,
            a,
            b,
            c,
            d,
            host,
            order,
            number,
        }
    }
}

impl FromJson for Note {
    ghost means = { struct_meaning ⟦<NoteFields as Slots>⟧.meaning ⟦<Note as Record>⟧.names ⟦<Note as Record>⟧.values };

    fn missing() -> Option<Note> {
        None
    }

    fn read<'a>(token: Event<'a>, source: &mut Source<'a>) -> Result<Note> {
        read_record::<Note, NoteFields>(token, source)
    }
}

impl Serialize for Note {
    ghost tree = { record_tree ⟦<Note as Record>⟧.names ⟦<NoteFields as WrittenFields>⟧.trees ⟦<Note as Record>⟧.values };

    fn begin(&self, w: &mut Writer) -> Result<()> {
        write_members(
            w,
            NOTE_NAMES,
            &Parts(
                Omitted(&self.text),
                Parts(
                    &self.name,
                    Parts(
                        Omitted(&self.stars),
                        Parts(
                            Omitted(&self.points),
                            FourLent(
                                &self.a,
                                &self.b,
                                &self.c,
                                &self.d,
                                Parts(
                                    Omitted(&self.host),
                                    Parts(Omitted(&self.order), Parts(Omitted(&self.number), ())),
                                ),
                            ),
                        ),
                    ),
                ),
            ),
        )
    }
}

impl Ranged for Note {
    ghost valid = { λ v. ⟦<NoteFields as WrittenFields>⟧.valid (⟦<Note as Record>⟧.values v) };

    fn ranged(&self) {
        self.text.ranged();
        self.name.ranged();
        self.stars.ranged();
        self.points.ranged();
        self.a.ranged();
        self.b.ranged();
        self.c.ranged();
        self.d.ranged();
        self.host.ranged();
        self.order.ranged();
        self.number.ranged();
    }
}

impl RoundTrip for Note {
    fn round_trips() {
        record_round_trips::<Note, NoteFields>()
    }
}
