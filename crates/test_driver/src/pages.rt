//! The types of `pages.rs`, with the impls that `./derive` writes.
ghost use Rattle.miniserde.specs.FieldsMeaning.{struct_meaning};
ghost use Rattle.miniserde.specs.Structs.{names_of, record_tree};
ghost use Rattle.std.specs.Prelude.{refl};

use miniserde::derived::{
    Event, FourLent, FourParts, FourSlot, FromJson, NoSlot, Parts, Ranged, Record, Result,
    RoundTrip, Serialize, Slot, Slots, Source, Writer, WrittenFields, read_record,
    record_round_trips, take_four, write_members, write_members_in_order,
};

/// Where something stands.
#[derive(Drop)]
pub struct Position {
    pub x: i64,
    pub y: Option<i64>,
}

// Its fields, and their names.
type PositionFields = Slot<i64, Slot<Option<i64>, NoSlot>>;

const POSITION_NAMES: &[&str] = &["x", "y"];

impl Record for Position {
    ghost use Rattle.test_driver.specs.declared.pages.TheConstants.{POSITION_NAMES};

    type Values = <PositionFields as Slots>::Values;

    ghost names = { names_of POSITION_NAMES };

    ghost values = { λ v. (v.x, (v.y, tt)) };

    ghost made = { λ x. record { x = x.0; y = x.1.0 } };

    ghost bijective = { (λ v. refl, λ x. refl) };

    ghost distinct_names = { refl };

    fn names() -> &'static [&'static str] {
        POSITION_NAMES
    }

    fn build(parts: Self::Values) -> Position {
        let Parts(x, Parts(y, ())) = parts;
        Position { x, y }
    }
}

impl FromJson for Position {
    ghost means = { struct_meaning ⟦<PositionFields as Slots>⟧.meaning ⟦<Position as Record>⟧.names
        ⟦<Position as Record>⟧.values };

    fn missing() -> Option<Position> {
        None
    }

    fn read<'a>(token: Event<'a>, source: &mut Source<'a>) -> Result<Position> {
        read_record::<Position, PositionFields>(token, source)
    }
}

impl Serialize for Position {
    ghost tree = { record_tree ⟦<Position as Record>⟧.names ⟦<PositionFields as WrittenFields>⟧.trees ⟦<Position as Record>⟧.values };

    fn begin(&self, w: &mut Writer) -> Result<()> {
        write_members_in_order(w, POSITION_NAMES, &Parts(&self.x, Parts(&self.y, ())))
    }
}

impl Ranged for Position {
    ghost valid = { λ v. ⟦<PositionFields as WrittenFields>⟧.valid (⟦<Position as Record>⟧.values v) };

    fn ranged(&self) {
        self.x.ranged();
        self.y.ranged();
    }
}

impl RoundTrip for Position {
    fn round_trips() {
        record_round_trips::<Position, PositionFields>()
    }
}

/// One of the records of a page.
#[derive(Drop)]
pub struct Entry {
    pub id: u64,
    pub name: String,
    pub tags: Vec<String>,
    pub ok: bool,
    pub at: Position,
}

// Its fields, and their names.
type EntryFields = FourSlot<u64, String, Vec<String>, bool, Slot<Position, NoSlot>>;

const ENTRY_NAMES: &[&str] = &["id", "name", "tags", "ok", "at"];

impl Record for Entry {
    ghost use Rattle.test_driver.specs.declared.pages.TheConstants.{ENTRY_NAMES};

    type Values = <EntryFields as Slots>::Values;

    ghost names = { names_of ENTRY_NAMES };

    ghost values = { λ v. (v.id, (v.name, (v.tags, (v.ok, (v.at, tt))))) };

    ghost made = { λ x. record {
      id = x.0;
      name = x.1.0;
      tags = x.1.1.0;
      ok = x.1.1.1.0;
      at = x.1.1.1.1.0;
    } };

    ghost bijective = { (λ v. refl, λ x. refl) };

    ghost distinct_names = { refl };

    fn names() -> &'static [&'static str] {
        ENTRY_NAMES
    }

    fn build(parts: Self::Values) -> Entry {
        let FourParts(id, name, tags, ok, parts) = take_four(parts);
        let Parts(at, ()) = parts;
        Entry {
            id,
            name,
            tags,
            ok,
            at,
        }
    }
}

impl FromJson for Entry {
    ghost means = { struct_meaning ⟦<EntryFields as Slots>⟧.meaning ⟦<Entry as Record>⟧.names
        ⟦<Entry as Record>⟧.values };

    fn missing() -> Option<Entry> {
        None
    }

    fn read<'a>(token: Event<'a>, source: &mut Source<'a>) -> Result<Entry> {
        read_record::<Entry, EntryFields>(token, source)
    }
}

impl Serialize for Entry {
    ghost tree = { record_tree ⟦<Entry as Record>⟧.names ⟦<EntryFields as WrittenFields>⟧.trees
        ⟦<Entry as Record>⟧.values };

    fn begin(&self, w: &mut Writer) -> Result<()> {
        write_members(
            w,
            ENTRY_NAMES,
            &FourLent(
                &self.id,
                &self.name,
                &self.tags,
                &self.ok,
                Parts(&self.at, ()),
            ),
        )
    }
}

impl Ranged for Entry {
    ghost valid = { λ v. ⟦<EntryFields as WrittenFields>⟧.valid (⟦<Entry as Record>⟧.values v) };

    fn ranged(&self) {
        self.id.ranged();
        self.name.ranged();
        self.tags.ranged();
        self.ok.ranged();
        self.at.ranged();
    }
}

impl RoundTrip for Entry {
    fn round_trips() {
        record_round_trips::<Entry, EntryFields>()
    }
}

/// A page of records.
#[derive(Drop)]
pub struct Page {
    pub total: u64,
    pub next: Option<String>,
    pub records: Vec<Entry>,
}

// Its fields, and their names.
type PageFields = Slot<u64, Slot<Option<String>, Slot<Vec<Entry>, NoSlot>>>;

const PAGE_NAMES: &[&str] = &["total", "next", "records"];

impl Record for Page {
    ghost use Rattle.test_driver.specs.declared.pages.TheConstants.{PAGE_NAMES};

    type Values = <PageFields as Slots>::Values;

    ghost names = { names_of PAGE_NAMES };

    ghost values = { λ v. (v.total, (v.next, (v.records, tt))) };

    ghost made = { λ x. record { total = x.0; next = x.1.0; records = x.1.1.0 } };

    ghost bijective = { (λ v. refl, λ x. refl) };

    ghost distinct_names = { refl };

    fn names() -> &'static [&'static str] {
        PAGE_NAMES
    }

    fn build(parts: Self::Values) -> Page {
        let Parts(total, Parts(next, Parts(records, ()))) = parts;
        Page {
            total,
            next,
            records,
        }
    }
}

impl FromJson for Page {
    ghost means = { struct_meaning ⟦<PageFields as Slots>⟧.meaning ⟦<Page as Record>⟧.names ⟦<Page as Record>⟧.values };

    fn missing() -> Option<Page> {
        None
    }

    fn read<'a>(token: Event<'a>, source: &mut Source<'a>) -> Result<Page> {
        read_record::<Page, PageFields>(token, source)
    }
}

impl Serialize for Page {
    ghost tree = { record_tree ⟦<Page as Record>⟧.names ⟦<PageFields as WrittenFields>⟧.trees ⟦<Page as Record>⟧.values };

    fn begin(&self, w: &mut Writer) -> Result<()> {
        write_members(
            w,
            PAGE_NAMES,
            &Parts(&self.total, Parts(&self.next, Parts(&self.records, ()))),
        )
    }
}

impl Ranged for Page {
    ghost valid = { λ v. ⟦<PageFields as WrittenFields>⟧.valid (⟦<Page as Record>⟧.values v) };

    fn ranged(&self) {
        self.total.ranged();
        self.next.ranged();
        self.records.ranged();
    }
}

impl RoundTrip for Page {
    fn round_trips() {
        record_round_trips::<Page, PageFields>()
    }
}
