//! The types of `service.rs`, with the impls that `./derive` writes.
ghost use Rattle.miniserde.specs.FieldsMeaning.{struct_meaning};
ghost use Rattle.miniserde.specs.Structs.{names_of, record_tree};
ghost use Rattle.miniserde.specs.Tree.{nonneg, truth, str};
ghost use Rattle.std.specs.Prelude.{true, refl};

use miniserde::derived::{
    Closed, Empty, Event, FourLent, FourParts, FromJson, Given, Global, Lossless, MarkedFour,
    MarkedSlot, NeverNull, Once, Parts, Plain, Ranged, Record, Result, RoundTrip, Serialize, Slot,
    Slots, Source, Stable, WithDefault, Writer, WrittenFields, read_record, record_lossless,
    record_round_trips, record_stable, take_four, write_members,
};

/// A service of a network. An unknown name is invalid.
#[derive(Drop)]
pub struct Service {
    pub id: u64,
    pub host: String,
    pub port: u16,
    pub secure: bool,
    pub tags: Vec<String>,
    pub note: Option<String>,
}

const SERVICE_HOST_DEFAULT: &str = "localhost";

/// The value of a missing `host`.
#[derive(Drop)]
pub struct ServiceHostDefault {}

impl Given<String> for ServiceHostDefault {
    ghost use Rattle.examples.specs.declared.service.TheConstants.{SERVICE_HOST_DEFAULT};

    ghost given = { str SERVICE_HOST_DEFAULT.now };

    fn make(alloc: Global) -> Result<String> {
        Ok(String::from_str(alloc, SERVICE_HOST_DEFAULT)?)
    }
}

/// The value of a missing `port`.
#[derive(Drop)]
pub struct ServicePortDefault {}

impl Given<u16> for ServicePortDefault {
    ghost given = { nonneg 8080 };

    fn make(_alloc: Global) -> Result<u16> {
        Ok(8080)
    }
}

/// The value of a missing `secure`.
#[derive(Drop)]
pub struct ServiceSecureDefault {}

impl Given<bool> for ServiceSecureDefault {
    ghost given = { truth true };

    fn make(_alloc: Global) -> Result<bool> {
        Ok(true)
    }
}

// Its fields, and their names.
type ServiceFields = MarkedFour<
    u64,
    Once<Plain>,
    String,
    WithDefault<ServiceHostDefault>,
    u16,
    Once<WithDefault<ServicePortDefault>>,
    bool,
    WithDefault<ServiceSecureDefault>,
    MarkedSlot<Vec<String>, WithDefault<Empty>, Slot<Option<String>, Closed>>,
>;

const SERVICE_NAMES: &[&str] = &["id", "host", "port", "secure", "tags", "note"];

impl Record for Service {
    ghost use Rattle.examples.specs.declared.service.TheConstants.{SERVICE_NAMES};

    type Values = <ServiceFields as Slots>::Values;

    ghost names = { names_of SERVICE_NAMES };

    ghost values = { λ v. (v.id, (v.host, (v.port, (v.secure, (v.tags, (v.note, tt)))))) };

    ghost made = { λ x. record {
      id = x.0;
      host = x.1.0;
      port = x.1.1.0;
      secure = x.1.1.1.0;
      tags = x.1.1.1.1.0;
      note = x.1.1.1.1.1.0;
    } };

    ghost bijective = { (λ v. refl, λ x. refl) };

    ghost distinct_names = { refl };

    fn names() -> &'static [&'static str] {
        SERVICE_NAMES
    }

    fn build(parts: Self::Values) -> Service {
        let FourParts(id, host, port, secure, parts) = take_four(parts);
        let Parts(tags, Parts(note, ())) = parts;
        Service {
            id,
            host,
            port,
            secure,
            tags,
            note,
        }
    }
}

impl FromJson for Service {
    ghost means = { struct_meaning ⟦<ServiceFields as Slots>⟧.meaning ⟦<Service as Record>⟧.names
        ⟦<Service as Record>⟧.values };

    fn missing() -> Option<Service> {
        None
    }

    fn read<'a>(token: Event<'a>, source: &mut Source<'a>) -> Result<Service> {
        read_record::<Service, ServiceFields>(token, source)
    }
}

impl Serialize for Service {
    ghost tree = { record_tree ⟦<Service as Record>⟧.names ⟦<ServiceFields as WrittenFields>⟧.trees
        ⟦<Service as Record>⟧.values };

    fn begin(&self, w: &mut Writer) -> Result<()> {
        write_members(
            w,
            SERVICE_NAMES,
            &FourLent(
                &self.id,
                &self.host,
                &self.port,
                &self.secure,
                Parts(&self.tags, Parts(&self.note, ())),
            ),
        )
    }
}

impl Ranged for Service {
    ghost valid = { λ v. ⟦<ServiceFields as WrittenFields>⟧.valid (⟦<Service as Record>⟧.values v) };

    fn ranged(&self) {
        self.id.ranged();
        self.host.ranged();
        self.port.ranged();
        self.secure.ranged();
        self.tags.ranged();
        self.note.ranged();
    }
}

impl RoundTrip for Service {
    fn round_trips() {
        record_round_trips::<Service, ServiceFields>()
    }
}

impl Lossless for Service {
    fn lossless() {
        record_lossless::<Service, ServiceFields>()
    }
}

impl NeverNull for Service {
    fn never_null() {}
}

impl Stable for Service {
    fn stable() {
        record_stable::<Service, ServiceFields>()
    }
}
