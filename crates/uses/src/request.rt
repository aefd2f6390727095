//! The types of `request.rs`, with the impls that `./derive` writes.
ghost use Rattle.miniserde.specs.FieldsMeaning.{struct_meaning};
ghost use Rattle.miniserde.specs.Structs.{names_of, record_tree};
ghost use Rattle.std.specs.Prelude.{refl};

use miniserde::derived::{
    Event, FourLent, FourParts, FourSlot, FromJson, NoSlot, Ranged, Record, Result, RoundTrip,
    Serialize, Slots, Source, Writer, WrittenFields, read_record, record_round_trips, take_four,
    write_members,
};
use miniserde::json::Value;
use std::collections::BTreeMap;

/// What a client asks for: how many of each kind of goods. Its member `besides` may be any JSON; members of other names are skipped.
#[derive(Drop)]
pub struct Request {
    pub client: String,
    pub note: Option<String>,
    pub items: BTreeMap<String, u32>,
    pub besides: Value,
}

// Its fields, and their names.
type RequestFields = FourSlot<String, Option<String>, BTreeMap<String, u32>, Value, NoSlot>;

const REQUEST_NAMES: &[&str] = &["client", "note", "items", "besides"];

impl Record for Request {
    ghost use Rattle.uses.specs.declared.request.TheConstants.{REQUEST_NAMES};

    type Values = <RequestFields as Slots>::Values;

    ghost names = { names_of REQUEST_NAMES };

    ghost values = { λ v. (v.client, (v.note, (v.items, (v.besides, tt)))) };

    ghost made = { λ x. record {
      client = x.0;
      note = x.1.0;
      items = x.1.1.0;
      besides = x.1.1.1.0;
    } };

    ghost bijective = { (λ v. refl, λ x. refl) };

    ghost distinct_names = { refl };

    fn names() -> &'static [&'static str] {
        REQUEST_NAMES
    }

    fn build(parts: Self::Values) -> Request {
        let FourParts(client, note, items, besides, ()) = take_four(parts);
        Request {
            client,
            note,
            items,
            besides,
        }
    }
}

impl FromJson for Request {
    ghost means = { struct_meaning ⟦<RequestFields as Slots>⟧.meaning ⟦<Request as Record>⟧.names
        ⟦<Request as Record>⟧.values };

    fn missing() -> Option<Request> {
        None
    }

    fn read<'a>(token: Event<'a>, source: &mut Source<'a>) -> Result<Request> {
        read_record::<Request, RequestFields>(token, source)
    }
}

impl Serialize for Request {
    ghost tree = { record_tree ⟦<Request as Record>⟧.names ⟦<RequestFields as WrittenFields>⟧.trees
        ⟦<Request as Record>⟧.values };

    fn begin(&self, w: &mut Writer) -> Result<()> {
        write_members(
            w,
            REQUEST_NAMES,
            &FourLent(&self.client, &self.note, &self.items, &self.besides, ()),
        )
    }
}

impl Ranged for Request {
    ghost valid = { λ v. ⟦<RequestFields as WrittenFields>⟧.valid (⟦<Request as Record>⟧.values v) };

    fn ranged(&self) {
        self.client.ranged();
        self.note.ranged();
        self.items.ranged();
        self.besides.ranged();
    }
}

impl RoundTrip for Request {
    fn round_trips() {
        record_round_trips::<Request, RequestFields>()
    }
}
