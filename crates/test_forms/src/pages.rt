//! The types of `pages.rs`, with the impls that `./derive` writes.
ghost use Rattle.miniserde.specs.Cases.{each_case, enum_tree, first_case, later_case, any_of_never};
ghost use Rattle.miniserde.specs.CasesMeaning.{enum_meaning};
ghost use Rattle.miniserde.specs.FieldsMeaning.{struct_meaning};
ghost use Rattle.miniserde.specs.Structs.{names_of, record_tree};
ghost use Rattle.std.specs.Prelude.{refl};

use crate::hosts::Host;
use miniserde::derived::{
    Cases, DataCase, DataEnum, Event, Fragment, FromJson, Lossless, NeverNull, NoCase, NoSlot,
    OmitSlot, Omitted, OneOf, Parts, Plain, Ranged, Record, Result, RoundTrip, Serialize, Slot,
    Slots, Source, UnitCase, Writer, WrittenCases, WrittenFields, enum_round_trips, read_enum,
    read_record, record_lossless, record_round_trips, write_data, write_fields,
    write_members_in_order,
};

/// A page of a list.
#[derive(Drop)]
pub struct Page<T> {
    pub items: Vec<T>,
    pub next: Option<String>,
    pub of: Option<T>,
}

// Its fields, and their names.
type PageFields<T> = Slot<Vec<T>, OmitSlot<String, Plain, OmitSlot<T, Plain, NoSlot>>>;

const PAGE_NAMES: &[&str] = &["items", "next", "of"];

impl<T: FromJson> Record for Page<T> {
    ghost use Rattle.test_forms.specs.declared.pages.TheConstants.{PAGE_NAMES};

    type Values = <PageFields<T> as Slots>::Values;

    ghost names = { names_of PAGE_NAMES };

    ghost values = { λ v. (v.items, (v.next, (v.of, tt))) };

    ghost made = { λ x. record { items = x.0; next = x.1.0; of = x.1.1.0 } };

    ghost bijective = { (λ v. refl, λ x. refl) };

    ghost distinct_names = { refl };

    fn names() -> &'static [&'static str] {
        PAGE_NAMES
    }

    fn build(parts: Self::Values) -> Page<T> {
        let Parts(items, Parts(next, Parts(of, ()))) = parts;
        Page { items, next, of }
    }
}

impl<T: FromJson> FromJson for Page<T> {
    ghost means = { struct_meaning ⟦<PageFields<T> as Slots>⟧.meaning ⟦<Page<T> as Record>⟧.names
        ⟦<Page<T> as Record>⟧.values };

    fn missing() -> Option<Page<T>> {
        None
    }

    fn read<'a>(token: Event<'a>, source: &mut Source<'a>) -> Result<Page<T>> {
        read_record::<Page<T>, PageFields<T>>(token, source)
    }
}

impl<T: FromJson + Ranged + Serialize> Serialize for Page<T> {
    ghost tree = { record_tree ⟦<Page<T> as Record>⟧.names ⟦<PageFields<T> as WrittenFields>⟧.trees
        ⟦<Page<T> as Record>⟧.values };

    fn begin(&self, w: &mut Writer) -> Result<()> {
        write_members_in_order(
            w,
            PAGE_NAMES,
            &Parts(
                &self.items,
                Parts(Omitted(&self.next), Parts(Omitted(&self.of), ())),
            ),
        )
    }
}

impl<T: FromJson + Ranged + Serialize> Ranged for Page<T> {
    ghost valid = { λ v. ⟦<PageFields<T> as WrittenFields>⟧.valid (⟦<Page<T> as Record>⟧.values v) };

    fn ranged(&self) {
        self.items.ranged();
        self.next.ranged();
        self.of.ranged();
    }
}

impl<T: RoundTrip + NeverNull> RoundTrip for Page<T> {
    fn round_trips() {
        record_round_trips::<Page<T>, PageFields<T>>()
    }
}

impl<T: Lossless + NeverNull> Lossless for Page<T> {
    fn lossless() {
        record_lossless::<Page<T>, PageFields<T>>()
    }
}

impl<T: RoundTrip + NeverNull> NeverNull for Page<T> {
    fn never_null() {}
}

/// The fields of `Entry::LogEntry`.
#[derive(Drop)]
pub struct EntryLogEntry<T> {
    pub log_level: Option<u8>,
    pub of: Option<T>,
    pub page_of: Page<T>,
}

// Its fields, and their names.
type EntryLogEntryFields<T> = OmitSlot<u8, Plain, OmitSlot<T, Plain, Slot<Page<T>, NoSlot>>>;

const ENTRY_LOG_ENTRY_NAMES: &[&str] = &["log_level", "of", "page_of"];

impl<T: FromJson> Record for EntryLogEntry<T> {
    ghost use Rattle.test_forms.specs.declared.pages.TheConstants.{ENTRY_LOG_ENTRY_NAMES};

    type Values = <EntryLogEntryFields<T> as Slots>::Values;

    ghost names = { names_of ENTRY_LOG_ENTRY_NAMES };

    ghost values = { λ v. (v.log_level, (v.of, (v.page_of, tt))) };

    ghost made = { λ x. record { log_level = x.0; of = x.1.0; page_of = x.1.1.0 } };

    ghost bijective = { (λ v. refl, λ x. refl) };

    ghost distinct_names = { refl };

    fn names() -> &'static [&'static str] {
        ENTRY_LOG_ENTRY_NAMES
    }

    fn build(parts: Self::Values) -> EntryLogEntry<T> {
        let Parts(log_level, Parts(of, Parts(page_of, ()))) = parts;
        EntryLogEntry {
            log_level,
            of,
            page_of,
        }
    }
}

impl<T: FromJson> FromJson for EntryLogEntry<T> {
    ghost means = { struct_meaning ⟦<EntryLogEntryFields<T> as Slots>⟧.meaning ⟦<EntryLogEntry<T> as Record>⟧.names ⟦<EntryLogEntry<T> as Record>⟧.values };

    fn missing() -> Option<EntryLogEntry<T>> {
        None
    }

    fn read<'a>(token: Event<'a>, source: &mut Source<'a>) -> Result<EntryLogEntry<T>> {
        read_record::<EntryLogEntry<T>, EntryLogEntryFields<T>>(token, source)
    }
}

impl<T: FromJson + Ranged + Serialize> Serialize for EntryLogEntry<T> {
    ghost tree = { record_tree ⟦<EntryLogEntry<T> as Record>⟧.names ⟦<EntryLogEntryFields<T> as WrittenFields>⟧.trees ⟦<EntryLogEntry<T> as Record>⟧.values };

    fn begin(&self, w: &mut Writer) -> Result<()> {
        write_members_in_order(
            w,
            ENTRY_LOG_ENTRY_NAMES,
            &Parts(
                Omitted(&self.log_level),
                Parts(Omitted(&self.of), Parts(&self.page_of, ())),
            ),
        )
    }
}

impl<T: FromJson + Ranged + Serialize> Ranged for EntryLogEntry<T> {
    ghost valid = { λ v. ⟦<EntryLogEntryFields<T> as WrittenFields>⟧.valid (⟦<EntryLogEntry<T> as Record>⟧.values v) };

    fn ranged(&self) {
        self.log_level.ranged();
        self.of.ranged();
        self.page_of.ranged();
    }
}

impl<T: RoundTrip + NeverNull> RoundTrip for EntryLogEntry<T> {
    fn round_trips() {
        record_round_trips::<EntryLogEntry<T>, EntryLogEntryFields<T>>()
    }
}

/// An enum of sixteen, one with omitted fields, whose names are not in the style of the variants.
#[derive(Drop)]
pub enum Entry<T> {
    SignedOut,
    NewUrl(String),
    SeenAt(u64, String, Option<bool>),
    OneHost(Host),
    Hosts(Vec<Host>),
    Three(u8, u16, u32),
    LogEntry {
        log_level: Option<u8>,
        of: Option<T>,
        page_of: Page<T>,
    },
    Up,
    Down,
    Delete,
    Letter(u32),
    Digit(u8),
    Chord(Vec<u32>),
    Click(i32, i32),
    Wheel(i8),
    Other(u64),
}

// Its variants, and their names.
type EntryCases<T> = UnitCase<
    DataCase<
        String,
        DataCase<
            (u64, String, Option<bool>),
            DataCase<
                Host,
                DataCase<
                    Vec<Host>,
                    DataCase<
                        (u8, u16, u32),
                        DataCase<
                            EntryLogEntry<T>,
                            UnitCase<
                                UnitCase<
                                    UnitCase<
                                        DataCase<
                                            u32,
                                            DataCase<
                                                u8,
                                                DataCase<
                                                    Vec<u32>,
                                                    DataCase<
                                                        (i32, i32),
                                                        DataCase<i8, DataCase<u64, NoCase>>,
                                                    >,
                                                >,
                                            >,
                                        >,
                                    >,
                                >,
                            >,
                        >,
                    >,
                >,
            >,
        >,
    >,
>;

const ENTRY_NAMES: &[&str] = &[
    "signed-out",
    "new-url",
    "seen-at",
    "one-host",
    "hosts",
    "three",
    "log-entry",
    "up",
    "down",
    "delete",
    "letter",
    "digit",
    "chord",
    "click",
    "wheel",
    "other",
];

impl<T: FromJson> DataEnum for Entry<T> {
    ghost use Rattle.test_forms.specs.declared.pages.TheConstants.{ENTRY_NAMES};
    ghost use Rattle.test_forms.specs.declared.pages.Entry.TheVariants.{SignedOut, NewUrl, SeenAt, OneHost, Hosts, Three, LogEntry, Up, Down, Delete, Letter, Digit, Chord, Click, Wheel, Other};

    type Values = <EntryCases<T> as Cases>::Values;

    ghost names = { names_of ENTRY_NAMES };

    ghost values = { elim [
      | SignedOut ↦ first_case tt
      | NewUrl x0 ↦ later_case (first_case x0)
      | SeenAt x0 x1 x2 ↦ later_case (later_case (first_case (x0, x1, x2)))
      | OneHost x0 ↦
          later_case (later_case (later_case (first_case x0)))
      | Hosts x0 ↦ later_case (later_case
          (later_case (later_case (first_case x0))))
      | Three x0 x1 x2 ↦ later_case (later_case
          (later_case (later_case (later_case (first_case (x0, x1, x2))))))
      | LogEntry x0 x1 x2 ↦
          later_case (later_case (later_case (later_case (later_case (later_case (first_case (record {
            log_level = x0;
            of = x1;
            page_of = x2;
          })))))))
      | Up ↦ later_case (later_case (later_case
          (later_case (later_case (later_case (later_case (first_case tt)))))))
      | Down ↦ later_case
          (later_case (later_case (later_case (later_case (later_case (later_case (later_case
          (first_case tt))))))))
      | Delete ↦ later_case (later_case (later_case (later_case (later_case
          (later_case (later_case (later_case (later_case (first_case tt)))))))))
      | Letter x0 ↦
          later_case (later_case (later_case (later_case (later_case (later_case (later_case
          (later_case (later_case (later_case (first_case x0))))))))))
      | Digit x0 ↦ later_case
          (later_case (later_case (later_case (later_case (later_case (later_case (later_case
          (later_case (later_case (later_case (first_case x0)))))))))))
      | Chord x0 ↦ later_case
          (later_case (later_case (later_case (later_case (later_case (later_case (later_case
          (later_case (later_case (later_case (later_case (first_case x0))))))))))))
      | Click x0 x1 ↦
          later_case (later_case (later_case (later_case (later_case (later_case (later_case
          (later_case (later_case (later_case (later_case (later_case (later_case (first_case (
            x0,
            x1,
          ))))))))))))))
      | Wheel x0 ↦ later_case (later_case (later_case (later_case (later_case
          (later_case (later_case (later_case (later_case (later_case (later_case (later_case
          (later_case (later_case (first_case x0))))))))))))))
      | Other x0 ↦ later_case (later_case
          (later_case (later_case (later_case (later_case (later_case (later_case (later_case
          (later_case (later_case (later_case (later_case (later_case (later_case (first_case
          x0)))))))))))))))
    ] };

    ghost made = { each_case _ (λ x. SignedOut) (each_case _ (λ x. NewUrl x) (each_case _ (λ x.
        SeenAt x.0 x.1 x.2) (each_case _ (λ x. OneHost x) (each_case _ (λ x. Hosts x) (each_case _
        (λ x. Three x.0 x.1 x.2) (each_case _ (λ x. LogEntry x.log_level x.of x.page_of) (each_case
        _ (λ x. Up) (each_case _ (λ x. Down) (each_case _ (λ x. Delete) (each_case _ (λ x. Letter x)
        (each_case _ (λ x. Digit x) (each_case _ (λ x. Chord x) (each_case _ (λ x. Click x.0 x.1)
        (each_case _ (λ x. Wheel x) (each_case _ (λ x. Other x) (any_of_never _)))))))))))))))) };

    ghost bijective = { (
      elim [
        | SignedOut ↦ refl
        | NewUrl x0 ↦ refl
        | SeenAt x0 x1 x2 ↦ refl
        | OneHost x0 ↦ refl
        | Hosts x0 ↦ refl
        | Three x0 x1 x2 ↦ refl
        | LogEntry x0 x1 x2 ↦ refl
        | Up
            ↦ refl
        | Down ↦ refl
        | Delete ↦ refl
        | Letter x0 ↦ refl
        | Digit x0 ↦ refl
        | Chord x0 ↦ refl
        | Click x0 x1 ↦ refl
        | Wheel x0 ↦ refl
        | Other x0 ↦ refl
      ],
      each_case _ (λ x. refl)
          (each_case _ (λ x. refl) (each_case _ (λ x. refl) (each_case _ (λ x. refl) (each_case _ (λ
          x. refl) (each_case _ (λ x. refl) (each_case _ (λ x. refl) (each_case _ (λ x. refl)
          (each_case _ (λ x. refl) (each_case _ (λ x. refl) (each_case _ (λ x. refl) (each_case _ (λ
          x. refl) (each_case _ (λ x. refl) (each_case _ (λ x. refl) (each_case _ (λ x. refl)
          (each_case _ (λ x. refl) (any_of_never _)))))))))))))))),
    ) };

    ghost distinct_names = { refl };

    fn names() -> &'static [&'static str] {
        ENTRY_NAMES
    }

    fn build(value: Self::Values) -> Entry<T> {
        match value {
            OneOf::First(()) => Entry::SignedOut,
            OneOf::Later(value) => match value {
                OneOf::First(a) => Entry::NewUrl(a),
                OneOf::Later(value) => match value {
                    OneOf::First((a, b, c)) => Entry::SeenAt(a, b, c),
                    OneOf::Later(value) => match value {
                        OneOf::First(a) => Entry::OneHost(a),
                        OneOf::Later(value) => match value {
                            OneOf::First(a) => Entry::Hosts(a),
                            OneOf::Later(value) => match value {
                                OneOf::First((a, b, c)) => Entry::Three(a, b, c),
                                OneOf::Later(value) => match value {
                                    OneOf::First(
                                        EntryLogEntry {
                                            log_level,
                                            of,
                                            page_of,
                                        },
                                    ) => Entry::LogEntry {
                                        log_level,
                                        of,
                                        page_of,
                                    },
                                    OneOf::Later(value) => match value {
                                        OneOf::First(()) => Entry::Up,
                                        OneOf::Later(value) => match value {
                                            OneOf::First(()) => Entry::Down,
                                            OneOf::Later(value) => match value {
                                                OneOf::First(()) => Entry::Delete,
                                                OneOf::Later(value) => match value {
                                                    OneOf::First(a) => Entry::Letter(a),
                                                    OneOf::Later(value) => match value {
                                                        OneOf::First(a) => Entry::Digit(a),
                                                        OneOf::Later(value) => match value {
                                                            OneOf::First(a) => Entry::Chord(a),
                                                            OneOf::Later(value) => match value {
                                                                OneOf::First((a, b)) =>
                                                                    Entry::Click(a, b),
                                                                OneOf::Later(value) => match value {
                                                                    OneOf::First(a) => Entry::Wheel(
                                                                        a,
                                                                    ),
                                                                    OneOf::Later(value) =>
                                                                        match value {
                                                                            OneOf::First(a) =>
                                                                                Entry::Other(a),
                                                                            OneOf::Later(value) =>
                                                                                match value {},
                                                                        },
                                                                },
                                                            },
                                                        },
                                                    },
                                                },
                                            },
                                        },
                                    },
                                },
                            },
                        },
                    },
                },
            },
        }
    }
}

impl<T: FromJson> FromJson for Entry<T> {
    ghost means = { enum_meaning ⟦<EntryCases<T> as Cases>⟧.meaning ⟦<Entry<T> as DataEnum>⟧.names
        refl ⟦<Entry<T> as DataEnum>⟧.values };

    fn missing() -> Option<Entry<T>> {
        None
    }

    fn read<'a>(token: Event<'a>, source: &mut Source<'a>) -> Result<Entry<T>> {
        read_enum::<Entry<T>, EntryCases<T>>(token, source)
    }
}

impl<T: FromJson + Ranged + Serialize> Serialize for Entry<T> {
    ghost tree = { enum_tree ⟦<Entry<T> as DataEnum>⟧.names ⟦<EntryCases<T> as WrittenCases>⟧.tree
        ⟦<Entry<T> as DataEnum>⟧.values };

    fn begin(&self, w: &mut Writer) -> Result<()> {
        match self {
            Entry::SignedOut => w.fragment(Fragment::Str("signed-out")),
            Entry::NewUrl(a) => write_data(w, "new-url", a),
            Entry::SeenAt(a, b, c) => write_data(w, "seen-at", &(a, b, c)),
            Entry::OneHost(a) => write_data(w, "one-host", a),
            Entry::Hosts(a) => write_data(w, "hosts", a),
            Entry::Three(a, b, c) => write_data(w, "three", &(a, b, c)),
            Entry::LogEntry {
                log_level,
                of,
                page_of,
            } => {
                write_fields(
                    w,
                    "log-entry",
                    ENTRY_LOG_ENTRY_NAMES,
                    &Parts(Omitted(log_level), Parts(Omitted(of), Parts(page_of, ()))),
                )
            },
            Entry::Up => w.fragment(Fragment::Str("up")),
            Entry::Down => w.fragment(Fragment::Str("down")),
            Entry::Delete => w.fragment(Fragment::Str("delete")),
            Entry::Letter(a) => write_data(w, "letter", a),
            Entry::Digit(a) => write_data(w, "digit", a),
            Entry::Chord(a) => write_data(w, "chord", a),
            Entry::Click(a, b) => write_data(w, "click", &(a, b)),
            Entry::Wheel(a) => write_data(w, "wheel", a),
            Entry::Other(a) => write_data(w, "other", a),
        }
    }
}

impl<T: FromJson + Ranged + Serialize> Ranged for Entry<T> {
    ghost valid = { λ v. ⟦<EntryCases<T> as WrittenCases>⟧.valid (⟦<Entry<T> as DataEnum>⟧.values v) };

    fn ranged(&self) {
        match self {
            Entry::SignedOut => {}
            Entry::NewUrl(a) => a.ranged(),
            Entry::SeenAt(a, b, c) => {
                a.ranged();
                b.ranged();
                c.ranged();
            },
            Entry::OneHost(a) => a.ranged(),
            Entry::Hosts(a) => a.ranged(),
            Entry::Three(a, b, c) => {
                a.ranged();
                b.ranged();
                c.ranged();
            },
            Entry::LogEntry {
                log_level,
                of,
                page_of,
            } => {
                log_level.ranged();
                of.ranged();
                page_of.ranged();
            },
            Entry::Up => {}
            Entry::Down => {}
            Entry::Delete => {}
            Entry::Letter(a) => a.ranged(),
            Entry::Digit(a) => a.ranged(),
            Entry::Chord(a) => a.ranged(),
            Entry::Click(a, b) => {
                a.ranged();
                b.ranged();
            },
            Entry::Wheel(a) => a.ranged(),
            Entry::Other(a) => a.ranged(),
        }
    }
}

impl<T: RoundTrip + NeverNull> RoundTrip for Entry<T> {
    fn round_trips() {
        enum_round_trips::<Entry<T>, EntryCases<T>>()
    }
}
