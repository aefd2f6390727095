//! The parts of settings: what `./derive` writes of `parts.rs`.
ghost use Rattle.miniserde.specs.FieldsMeaning.{struct_meaning};
ghost use Rattle.miniserde.specs.Place.{wrapper_meaning};
ghost use Rattle.miniserde.specs.Structs.{names_of, record_tree};
ghost use Rattle.std.specs.Prelude.{refl};

use miniserde::derived::{
    Deserialize, Error, Event, Field, FromJson, Global, Lossless, NeverNull, NoField, NoSlot,
    Parts, PlacedRecord, Plain, Ranged, Record, RecordPlace, Result, RoundTrip, Serialize, Slot,
    Slots, Source, Stable, Step, Visitor, Writer, WrittenFields, read_record, record_lossless,
    record_round_trips, record_stable, write_members_in_order,
};
use refused::{FieldByField, FieldPath, NamesOf, NoProbe, Probe, Probes, Way, fields_give};

/// A host, and how much of the work it gets.
#[derive(Drop)]
pub struct Host {
    pub host: String,
    pub weight: u8,
}

// Its fields, and their names.
type HostFields = Slot<String, Slot<u8, NoSlot>>;

const HOST_NAMES: &[&str] = &["host", "weight"];

impl Record for Host {
    ghost use Rattle.settings.specs.declared.parts.TheConstants.{HOST_NAMES};

    type Values = <HostFields as Slots>::Values;

    ghost names = { names_of HOST_NAMES };

    ghost values = { λ v. (v.host, (v.weight, tt)) };

    ghost made = { λ x. record { host = x.0; weight = x.1.0 } };

    ghost bijective = { (λ v. refl, λ x. refl) };

    ghost distinct_names = { refl };

    fn names() -> &'static [&'static str] {
        HOST_NAMES
    }

    fn build(parts: Self::Values) -> Host {
        let Parts(host, Parts(weight, ())) = parts;
        Host { host, weight }
    }
}

impl FromJson for Host {
    ghost means = { struct_meaning ⟦<HostFields as Slots>⟧.meaning ⟦<Host as Record>⟧.names ⟦<Host as Record>⟧.values };

    fn missing() -> Option<Host> {
        None
    }

    fn read<'a>(token: Event<'a>, source: &mut Source<'a>) -> Result<Host> {
        read_record::<Host, HostFields>(token, source)
    }
}

impl Serialize for Host {
    ghost tree = { record_tree ⟦<Host as Record>⟧.names ⟦<HostFields as WrittenFields>⟧.trees ⟦<Host as Record>⟧.values };

    fn begin(&self, w: &mut Writer) -> Result<()> {
        write_members_in_order(w, HOST_NAMES, &Parts(&self.host, Parts(&self.weight, ())))
    }
}

impl Ranged for Host {
    ghost valid = { λ v. ⟦<HostFields as WrittenFields>⟧.valid (⟦<Host as Record>⟧.values v) };

    fn ranged(&self) {
        self.host.ranged();
        self.weight.ranged();
    }
}

impl RoundTrip for Host {
    fn round_trips() {
        record_round_trips::<Host, HostFields>()
    }
}

impl Lossless for Host {
    fn lossless() {
        record_lossless::<Host, HostFields>()
    }
}

impl NeverNull for Host {
    fn never_null() {}
}

impl Stable for Host {
    fn stable() {
        record_stable::<Host, HostFields>()
    }
}

/// The place of a `Host`.
#[derive(Drop)]
pub struct HostPlace {
    place: RecordPlace<Host>,
}

impl PlacedRecord for Host {
    type Fields = Field<String, Field<u8, NoField>>;
}

impl Visitor for HostPlace {
    type Out = Host;

    ghost meaning = { wrapper_meaning (λ p. p.place) ⟦<RecordPlace<Host> as Visitor>⟧.meaning };

    fn begin(alloc: Global) -> Result<HostPlace> {
        Ok(HostPlace {
            place: <RecordPlace<Host> as Visitor>::begin(alloc)?,
        })
    }

    fn step(&mut self, event: Step<'_>) -> Result<()> {
        self.place.step(event)
    }

    fn refuse(&mut self, error: Error) -> Error {
        self.place.refuse(error)
    }

    fn is_complete(&self) -> bool {
        self.place.is_complete()
    }

    fn take(self) -> Result<Host> {
        let HostPlace { place } = self;
        place.take()
    }
}

impl Deserialize for Host {
    type Place = HostPlace;

    fn tied() {}
}

/// How a connection is secured.
#[derive(Drop)]
pub struct Tls {
    pub cert: String,
    pub verify: bool,
}

// Its fields, and their names.
type TlsFields = Slot<String, Slot<bool, NoSlot>>;

const TLS_NAMES: &[&str] = &["cert", "verify"];

impl Record for Tls {
    ghost use Rattle.settings.specs.declared.parts.TheConstants.{TLS_NAMES};

    type Values = <TlsFields as Slots>::Values;

    ghost names = { names_of TLS_NAMES };

    ghost values = { λ v. (v.cert, (v.verify, tt)) };

    ghost made = { λ x. record { cert = x.0; verify = x.1.0 } };

    ghost bijective = { (λ v. refl, λ x. refl) };

    ghost distinct_names = { refl };

    fn names() -> &'static [&'static str] {
        TLS_NAMES
    }

    fn build(parts: Self::Values) -> Tls {
        let Parts(cert, Parts(verify, ())) = parts;
        Tls { cert, verify }
    }
}

impl FromJson for Tls {
    ghost means = { struct_meaning ⟦<TlsFields as Slots>⟧.meaning ⟦<Tls as Record>⟧.names ⟦<Tls as Record>⟧.values };

    fn missing() -> Option<Tls> {
        None
    }

    fn read<'a>(token: Event<'a>, source: &mut Source<'a>) -> Result<Tls> {
        read_record::<Tls, TlsFields>(token, source)
    }
}

impl Serialize for Tls {
    ghost tree = { record_tree ⟦<Tls as Record>⟧.names ⟦<TlsFields as WrittenFields>⟧.trees ⟦<Tls as Record>⟧.values };

    fn begin(&self, w: &mut Writer) -> Result<()> {
        write_members_in_order(w, TLS_NAMES, &Parts(&self.cert, Parts(&self.verify, ())))
    }
}

impl Ranged for Tls {
    ghost valid = { λ v. ⟦<TlsFields as WrittenFields>⟧.valid (⟦<Tls as Record>⟧.values v) };

    fn ranged(&self) {
        self.cert.ranged();
        self.verify.ranged();
    }
}

impl RoundTrip for Tls {
    fn round_trips() {
        record_round_trips::<Tls, TlsFields>()
    }
}

impl Lossless for Tls {
    fn lossless() {
        record_lossless::<Tls, TlsFields>()
    }
}

impl NeverNull for Tls {
    fn never_null() {}
}

impl Stable for Tls {
    fn stable() {
        record_stable::<Tls, TlsFields>()
    }
}

// Its fields, one by one.
type TlsProbes = Probe<String, Plain, Probe<bool, Plain, NoProbe>>;

impl FieldByField for Tls {
    ghost wrong = { λ gives here. ⟦<TlsProbes as Probes>⟧.wrong gives here ⟦<Tls as Record>⟧.names };

    ghost right = { λ gives. ⟦<TlsProbes as Probes>⟧.right gives ⟦<Tls as Record>⟧.names };

    fn probe<W: Way>(alloc: Global, text: &str) -> Result<Option<FieldPath>> {
        <TlsProbes as Probes>::probe::<W, NamesOf<Tls>>(alloc, text)
    }

    fn by_fields<W: Way>() {
        fields_give::<Tls, TlsProbes, W>()
    }
}

/// The place of a `Tls`.
#[derive(Drop)]
pub struct TlsPlace {
    place: RecordPlace<Tls>,
}

impl PlacedRecord for Tls {
    type Fields = Field<String, Field<bool, NoField>>;
}

impl Visitor for TlsPlace {
    type Out = Tls;

    ghost meaning = { wrapper_meaning (λ p. p.place) ⟦<RecordPlace<Tls> as Visitor>⟧.meaning };

    fn begin(alloc: Global) -> Result<TlsPlace> {
        Ok(TlsPlace {
            place: <RecordPlace<Tls> as Visitor>::begin(alloc)?,
        })
    }

    fn step(&mut self, event: Step<'_>) -> Result<()> {
        self.place.step(event)
    }

    fn refuse(&mut self, error: Error) -> Error {
        self.place.refuse(error)
    }

    fn is_complete(&self) -> bool {
        self.place.is_complete()
    }

    fn take(self) -> Result<Tls> {
        let TlsPlace { place } = self;
        place.take()
    }
}

impl Deserialize for Tls {
    type Place = TlsPlace;

    fn tied() {}
}
