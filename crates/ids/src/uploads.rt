//! The types of `uploads.rs`, with the impls that `./derive` writes.
ghost use Rattle.miniserde.specs.Events.{IsStringEvent};
ghost use Rattle.miniserde.specs.FieldsMeaning.{struct_meaning};
ghost use Rattle.miniserde.specs.Newtypes.{text_value_meaning};
ghost use Rattle.miniserde.specs.Structs.{names_of, record_tree};
ghost use Rattle.miniserde.specs.Tree.{str};
ghost use Rattle.std.specs.Prelude.{◌≡◌, Some, refl};

use jiff::civil::Date;
use miniserde::derived::{
    Event, FromJson, Global, Leaf, Lossless, NeverNull, NoSlot, Parts, Ranged, Record, Result,
    RoundTrip, Serialize, Slot, Slots, Source, Stable, Step, TextValue, Writer, WrittenFields,
    read_leaf, read_record, record_lossless, record_round_trips, record_stable,
    text_value_from_step, text_value_round_trips, write_members_in_order, write_text_value,
};

/// A day of the calendar, written as `2026-11-30` (RFC 3339, section 5.6, `full-date`).
#[derive(Drop)]
pub struct Day(pub Date);

impl Leaf for Day {
    ghost means = { text_value_meaning ⟦<Day as TextValue>⟧.parsed ⟦<Day as TextValue>⟧.content };

    ghost only_leaves = { (λ ts. refl, λ ms. refl) };

    ghost read_infallible = { ⟦<Day as TextValue>⟧.parse_infallible };

    ghost lacking = { IsStringEvent };

    fn from_step(alloc: Global, event: Step<'_>) -> Result<Day> {
        text_value_from_step(alloc, event)
    }
}

impl FromJson for Day {
    ghost means = { ⟦<Day as Leaf>⟧.means };

    ghost read_infallible = { ⟦<Day as TextValue>⟧.parse_infallible };

    ghost lacking = { λ event _ _. IsStringEvent event };

    fn missing() -> Option<Day> {
        None
    }

    fn read<'a>(token: Event<'a>, source: &mut Source<'a>) -> Result<Day> {
        read_leaf(token, source)
    }
}

impl Serialize for Day {
    ghost tree = { λ v. str (⟦<Day as TextValue>⟧.text (⟦<Day as TextValue>⟧.content v)) };

    fn begin(&self, w: &mut Writer) -> Result<()> {
        write_text_value(self, w)
    }
}

impl Ranged for Day {
    ghost valid = { λ v. ⟦<Day as TextValue>⟧.parsed (⟦<Day as TextValue>⟧.text (⟦<Day as TextValue>⟧.content v)) ≡ Some (⟦<Day as TextValue>⟧.content v) };

    fn ranged(&self) {
        self.is_read_back()
    }
}

impl RoundTrip for Day {
    fn round_trips() {
        text_value_round_trips::<Day>()
    }
}

impl Lossless for Day {
    fn lossless() {}
}

impl NeverNull for Day {
    fn never_null() {}
}

impl Stable for Day {
    fn stable() {}
}

/// Bytes, written as base64 (RFC 4648, section 4).
#[derive(Drop)]
pub struct Blob(pub Vec<u8>);

impl Leaf for Blob {
    ghost means = { text_value_meaning ⟦<Blob as TextValue>⟧.parsed ⟦<Blob as TextValue>⟧.content };

    ghost only_leaves = { (λ ts. refl, λ ms. refl) };

    ghost read_infallible = { ⟦<Blob as TextValue>⟧.parse_infallible };

    ghost lacking = { IsStringEvent };

    fn from_step(alloc: Global, event: Step<'_>) -> Result<Blob> {
        text_value_from_step(alloc, event)
    }
}

impl FromJson for Blob {
    ghost means = { ⟦<Blob as Leaf>⟧.means };

    ghost read_infallible = { ⟦<Blob as TextValue>⟧.parse_infallible };

    ghost lacking = { λ event _ _. IsStringEvent event };

    fn missing() -> Option<Blob> {
        None
    }

    fn read<'a>(token: Event<'a>, source: &mut Source<'a>) -> Result<Blob> {
        read_leaf(token, source)
    }
}

impl Serialize for Blob {
    ghost tree = { λ v. str (⟦<Blob as TextValue>⟧.text (⟦<Blob as TextValue>⟧.content v)) };

    fn begin(&self, w: &mut Writer) -> Result<()> {
        write_text_value(self, w)
    }
}

impl Ranged for Blob {
    ghost valid = { λ v. ⟦<Blob as TextValue>⟧.parsed (⟦<Blob as TextValue>⟧.text (⟦<Blob as TextValue>⟧.content v)) ≡ Some (⟦<Blob as TextValue>⟧.content v) };

    fn ranged(&self) {
        self.is_read_back()
    }
}

impl RoundTrip for Blob {
    fn round_trips() {
        text_value_round_trips::<Blob>()
    }
}

impl Lossless for Blob {
    fn lossless() {}
}

impl NeverNull for Blob {
    fn never_null() {}
}

impl Stable for Blob {
    fn stable() {}
}

/// Bytes, and the day on which they came.
#[derive(Drop)]
pub struct Upload {
    pub content: Blob,
    pub day: Day,
}

// Its fields, and their names.
type UploadFields = Slot<Blob, Slot<Day, NoSlot>>;

const UPLOAD_NAMES: &[&str] = &["content", "day"];

impl Record for Upload {
    ghost use Rattle.ids.specs.declared.uploads.TheConstants.{UPLOAD_NAMES};

    type Values = <UploadFields as Slots>::Values;

    ghost names = { names_of UPLOAD_NAMES };

    ghost values = { λ v. (v.content, (v.day, tt)) };

    ghost made = { λ x. record { content = x.0; day = x.1.0 } };

    ghost bijective = { (λ v. refl, λ x. refl) };

    ghost distinct_names = { refl };

    fn names() -> &'static [&'static str] {
        UPLOAD_NAMES
    }

    fn build(parts: Self::Values) -> Upload {
        let Parts(content, Parts(day, ())) = parts;
        Upload { content, day }
    }
}

impl FromJson for Upload {
    ghost means = { struct_meaning ⟦<UploadFields as Slots>⟧.meaning ⟦<Upload as Record>⟧.names
        ⟦<Upload as Record>⟧.values };

    fn missing() -> Option<Upload> {
        None
    }

    fn read<'a>(token: Event<'a>, source: &mut Source<'a>) -> Result<Upload> {
        read_record::<Upload, UploadFields>(token, source)
    }
}

impl Serialize for Upload {
    ghost tree = { record_tree ⟦<Upload as Record>⟧.names ⟦<UploadFields as WrittenFields>⟧.trees
        ⟦<Upload as Record>⟧.values };

    fn begin(&self, w: &mut Writer) -> Result<()> {
        write_members_in_order(w, UPLOAD_NAMES, &Parts(&self.content, Parts(&self.day, ())))
    }
}

impl Ranged for Upload {
    ghost valid = { λ v. ⟦<UploadFields as WrittenFields>⟧.valid (⟦<Upload as Record>⟧.values v) };

    fn ranged(&self) {
        self.content.ranged();
        self.day.ranged();
    }
}

impl RoundTrip for Upload {
    fn round_trips() {
        record_round_trips::<Upload, UploadFields>()
    }
}

impl Lossless for Upload {
    fn lossless() {
        record_lossless::<Upload, UploadFields>()
    }
}

impl NeverNull for Upload {
    fn never_null() {}
}

impl Stable for Upload {
    fn stable() {
        record_stable::<Upload, UploadFields>()
    }
}
