//! The types of `settings.rs`, with the impls that `./derive` writes.
ghost use Rattle.miniserde.specs.FieldsMeaning.{struct_meaning};
ghost use Rattle.miniserde.specs.Structs.{names_of};
ghost use Rattle.miniserde_more.specs.Rest.{rest_tree};
ghost use Rattle.std.specs.Prelude.{[], string_bytes, refl};

use miniserde::derived::{
    Event, FromJson, Lossless, NeverNull, NoSlot, OmitSlot, Omitted, OnceSlot, Parts, Plain,
    Ranged, Record, Result, RoundTrip, Serialize, Slot, Slots, Source, Stable, Writer,
    WrittenFields, read_record,
};
use miniserde::json::Document;
use miniserde_more::rest::{
    NoNames, OpenFields, WithRest, rest_lossless, rest_round_trips, rest_stable,
    write_members_and_rest,
};
use std::collections::BTreeMap;

/// Settings of a server.
#[derive(Drop)]
pub struct Settings {
    pub port: u16,
    pub name: String,
    pub rest: BTreeMap<String, Document>,
    pub note: Option<String>,
}

// Its fields without the rest, and their names.
pub type SettingsFields = OnceSlot<u16, Slot<String, OmitSlot<String, Plain, NoSlot>>>;

const SETTINGS_NAMES: &[&str] = &["port", "name", "note"];

impl Record for Settings {
    ghost use Rattle.test_more.specs.declared.settings.TheConstants.{SETTINGS_NAMES};

    type Values = Parts<BTreeMap<String, Document>, <SettingsFields as Slots>::Values>;

    ghost names = { names_of SETTINGS_NAMES };

    ghost values = { λ v. (v.rest, (v.port, (v.name, (v.note, tt)))) };

    ghost made = { λ x. record { port = x.1.0; name = x.1.1.0; note = x.1.1.1.0; rest = x.0 } };

    ghost bijective = { (λ v. refl, λ x. refl) };

    ghost distinct_names = { refl };

    fn names() -> &'static [&'static str] {
        SETTINGS_NAMES
    }

    fn build(parts: Self::Values) -> Settings {
        let Parts(rest, parts) = parts;
        let Parts(port, Parts(name, Parts(note, ()))) = parts;
        Settings {
            port,
            name,
            rest,
            note,
        }
    }
}

impl FromJson for Settings {
    ghost means = { struct_meaning ⟦<WithRest<Settings, SettingsFields, Document> as Slots>⟧.meaning
        ⟦<Settings as Record>⟧.names ⟦<Settings as Record>⟧.values };

    fn missing() -> Option<Settings> {
        None
    }

    fn read<'a>(token: Event<'a>, source: &mut Source<'a>) -> Result<Settings> {
        read_record::<Settings, WithRest<Settings, SettingsFields, Document>>(token, source)
    }
}

impl Serialize for Settings {
    ghost tree = { rest_tree string_bytes ⟦<Settings as Record>⟧.names [] ⟦<Document as Serialize>⟧.tree (λ m. m.entries) ⟦<SettingsFields as WrittenFields>⟧.trees ⟦<Settings as Record>⟧.values };

    fn begin(&self, w: &mut Writer) -> Result<()> {
        write_members_and_rest::<NoNames, _, _>(
            w,
            SETTINGS_NAMES,
            &Parts(
                &self.port,
                Parts(&self.name, Parts(Omitted(&self.note), ())),
            ),
            &self.rest,
        )
    }
}

impl Ranged for Settings {
    ghost valid = { λ v. ⟦<BTreeMap<String, Document> as Ranged>⟧.valid (⟦<Settings as Record>⟧.values v).0 × ⟦<SettingsFields as WrittenFields>⟧.valid (⟦<Settings as Record>⟧.values v).1 };

    fn ranged(&self) {
        self.port.ranged();
        self.name.ranged();
        self.rest.ranged();
        self.note.ranged();
    }
}

impl RoundTrip for Settings {
    fn round_trips() {
        <SettingsFields as OpenFields>::open();
        rest_round_trips::<Settings, SettingsFields, Document, NoNames>()
    }
}

impl Lossless for Settings {
    fn lossless() {
        rest_lossless::<Settings, SettingsFields, Document, NoNames>()
    }
}

impl NeverNull for Settings {
    fn never_null() {}
}

impl Stable for Settings {
    fn stable() {
        rest_stable::<Settings, SettingsFields, Document, NoNames>()
    }
}
