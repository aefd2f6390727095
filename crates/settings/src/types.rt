//! The types of `types.rs`, with the impls that `./derive` writes.
ghost use Rattle.miniserde.specs.FieldsMeaning.{struct_meaning};
ghost use Rattle.miniserde.specs.Place.{wrapper_meaning};
ghost use Rattle.miniserde.specs.Structs.{names_of, record_tree};
ghost use Rattle.std.specs.Prelude.{refl};

use crate::parts::{Host, Tls};
use miniserde::derived::{
    Deserialize, Error, Event, Field, Four, FourLent, FourParts, FourSlot, FromJson, Global,
    Lossless, NeverNull, NoField, NoSlot, Parts, PlacedRecord, Plain, Ranged, Record, RecordPlace,
    Result, RoundTrip, Serialize, Slot, Slots, Source, Stable, Step, Visitor, Writer,
    WrittenFields, read_record, record_lossless, record_round_trips, record_stable, take_four,
    write_members,
};
use refused::{
    FieldByField, FieldPath, NamesOf, NoProbe, Probe, ProbeIntoOption, Probes, Way, fields_give,
};
use std::collections::BTreeMap;

/// Settings of a server.
#[derive(Drop)]
pub struct Settings {
    pub name: String,
    pub port: u16,
    pub tls: Option<Tls>,
    pub hosts: Vec<Host>,
    pub limits: BTreeMap<String, u64>,
}

// Its fields, and their names.
type SettingsFields = FourSlot<
    String,
    u16,
    Option<Tls>,
    Vec<Host>,
    Slot<BTreeMap<String, u64>, NoSlot>,
>;

const SETTINGS_NAMES: &[&str] = &["name", "port", "tls", "hosts", "limits"];

impl Record for Settings {
    ghost use Rattle.settings.specs.declared.types.TheConstants.{SETTINGS_NAMES};

    type Values = <SettingsFields as Slots>::Values;

    ghost names = { names_of SETTINGS_NAMES };

    ghost values = { λ v. (v.name, (v.port, (v.tls, (v.hosts, (v.limits, tt))))) };

    ghost made = { λ x. record {
      name = x.0;
      port = x.1.0;
      tls = x.1.1.0;
      hosts = x.1.1.1.0;
      limits = x.1.1.1.1.0;
    } };

    ghost bijective = { (λ v. refl, λ x. refl) };

    ghost distinct_names = { refl };

    fn names() -> &'static [&'static str] {
        SETTINGS_NAMES
    }

    fn build(parts: Self::Values) -> Settings {
        let FourParts(name, port, tls, hosts, parts) = take_four(parts);
        let Parts(limits, ()) = parts;
        Settings {
            name,
            port,
            tls,
            hosts,
            limits,
        }
    }
}

impl FromJson for Settings {
    ghost means = { struct_meaning ⟦<SettingsFields as Slots>⟧.meaning ⟦<Settings as Record>⟧.names
        ⟦<Settings as Record>⟧.values };

    fn missing() -> Option<Settings> {
        None
    }

    fn read<'a>(token: Event<'a>, source: &mut Source<'a>) -> Result<Settings> {
        read_record::<Settings, SettingsFields>(token, source)
    }
}

impl Serialize for Settings {
    ghost tree = { record_tree ⟦<Settings as Record>⟧.names ⟦<SettingsFields as WrittenFields>⟧.trees ⟦<Settings as Record>⟧.values };

    fn begin(&self, w: &mut Writer) -> Result<()> {
        write_members(
            w,
            SETTINGS_NAMES,
            &FourLent(
                &self.name,
                &self.port,
                &self.tls,
                &self.hosts,
                Parts(&self.limits, ()),
            ),
        )
    }
}

impl Ranged for Settings {
    ghost valid = { λ v. ⟦<SettingsFields as WrittenFields>⟧.valid (⟦<Settings as Record>⟧.values v) };

    fn ranged(&self) {
        self.name.ranged();
        self.port.ranged();
        self.tls.ranged();
        self.hosts.ranged();
        self.limits.ranged();
    }
}

impl RoundTrip for Settings {
    fn round_trips() {
        record_round_trips::<Settings, SettingsFields>()
    }
}

impl Lossless for Settings {
    fn lossless() {
        record_lossless::<Settings, SettingsFields>()
    }
}

impl NeverNull for Settings {
    fn never_null() {}
}

impl Stable for Settings {
    fn stable() {
        record_stable::<Settings, SettingsFields>()
    }
}

// Its fields, one by one.
type SettingsProbes = Probe<
    String,
    Plain,
    Probe<
        u16,
        Plain,
        ProbeIntoOption<
            Tls,
            Plain,
            Probe<Vec<Host>, Plain, Probe<BTreeMap<String, u64>, Plain, NoProbe>>,
        >,
    >,
>;

impl FieldByField for Settings {
    ghost wrong = { λ gives here. ⟦<SettingsProbes as Probes>⟧.wrong gives here ⟦<Settings as Record>⟧.names };

    ghost right = { λ gives. ⟦<SettingsProbes as Probes>⟧.right gives ⟦<Settings as Record>⟧.names };

    fn probe<W: Way>(alloc: Global, text: &str) -> Result<Option<FieldPath>> {
        <SettingsProbes as Probes>::probe::<W, NamesOf<Settings>>(alloc, text)
    }

    fn by_fields<W: Way>() {
        fields_give::<Settings, SettingsProbes, W>()
    }
}

/// The place of a `Settings`.
#[derive(Drop)]
pub struct SettingsPlace {
    place: RecordPlace<Settings>,
}

impl PlacedRecord for Settings {
    type Fields = Four<String, u16, Option<Tls>, Vec<Host>, Field<BTreeMap<String, u64>, NoField>>;
}

impl Visitor for SettingsPlace {
    type Out = Settings;

    ghost meaning = { wrapper_meaning (λ p. p.place) ⟦<RecordPlace<Settings> as Visitor>⟧.meaning };

    fn begin(alloc: Global) -> Result<SettingsPlace> {
        Ok(SettingsPlace {
            place: <RecordPlace<Settings> as Visitor>::begin(alloc)?,
        })
    }

    fn step(&mut self, event: Step<'_>) -> Result<()> {
        self.place.step(event)
    }

    fn refuse(&mut self, error: Error) -> Error {
        self.place.refuse(error)
    }

    fn is_complete(&self) -> bool {
        self.place.is_complete()
    }

    fn take(self) -> Result<Settings> {
        let SettingsPlace { place } = self;
        place.take()
    }
}

impl Deserialize for Settings {
    type Place = SettingsPlace;

    fn tied() {}
}
