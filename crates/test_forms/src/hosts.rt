//! The types of `hosts.rs`, with the impls that `./derive` writes.
ghost use Rattle.miniserde.specs.Aliases.{aliases_of};
ghost use Rattle.miniserde.specs.FieldsMeaning.{struct_meaning};
ghost use Rattle.miniserde.specs.Structs.{names_of, record_tree};
ghost use Rattle.miniserde.specs.Tree.{nonneg};
ghost use Rattle.std.specs.Prelude.{refl};

use crate::commands::Command;
use miniserde::derived::{
    Aliased, BesideTag, Closed, Event, FourParts, FromJson, Given, Global, HasAliases, HasTag,
    Inside, Lossless, MarkedSlot, Members, NeverNull, OmitSlot, Omitted, Once, Parts, Plain,
    Ranged, Record, Result, RoundTrip, Serialize, Slot, Slots, Source, WithDefault, Writer,
    WrittenFields, aliased_round_trips, fields_named, read_record, record_lossless, take_four,
    write_members,
};

/// A host and nothing else, which earlier versions named otherwise.
#[derive(Drop)]
pub struct Host {
    pub name: String,
    pub port: u16,
    pub note: Option<String>,
    pub command: Option<Command>,
}

/// The value of a missing `port`.
#[derive(Drop)]
pub struct HostPortDefault {}

impl Given<u16> for HostPortDefault {
    ghost given = { nonneg 80 };

    fn make(_alloc: Global) -> Result<u16> {
        Ok(80)
    }
}

// Its fields, and their names.
type HostFields = Slot<
    String,
    MarkedSlot<
        u16,
        Once<WithDefault<HostPortDefault>>,
        OmitSlot<String, Plain, OmitSlot<Command, Plain, Closed>>,
    >,
>;

const HOST_NAMES: &[&str] = &["name", "port", "of", "command"];

impl Record for Host {
    ghost use Rattle.test_forms.specs.declared.hosts.TheConstants.{HOST_NAMES};

    type Values = <HostFields as Slots>::Values;

    ghost names = { names_of HOST_NAMES };

    ghost values = { λ v. (v.name, (v.port, (v.note, (v.command, tt)))) };

    ghost made = { λ x. record { name = x.0; port = x.1.0; note = x.1.1.0; command = x.1.1.1.0 } };

    ghost bijective = { (λ v. refl, λ x. refl) };

    ghost distinct_names = { refl };

    fn names() -> &'static [&'static str] {
        HOST_NAMES
    }

    fn build(parts: Self::Values) -> Host {
        let FourParts(name, port, note, command, ()) = take_four(parts);
        Host {
            name,
            port,
            note,
            command,
        }
    }
}

const HOST_ALIASES: &[(&str, &str)] = &[
    ("host", "name"),
    ("hostname", "name"),
    ("p", "port"),
    ("remark", "of"),
];

impl HasAliases for Host {
    ghost use Rattle.test_forms.specs.declared.hosts.TheConstants.{HOST_ALIASES};

    ghost aliases = { aliases_of HOST_ALIASES };

    ghost apart = { refl };

    fn aliases() -> &'static [(&'static str, &'static str)] {
        HOST_ALIASES
    }
}

impl FromJson for Host {
    ghost means = { struct_meaning ⟦<Aliased<Host, HostFields> as Slots>⟧.meaning ⟦<Host as Record>⟧.names ⟦<Host as Record>⟧.values };

    fn missing() -> Option<Host> {
        None
    }

    fn read<'a>(token: Event<'a>, source: &mut Source<'a>) -> Result<Host> {
        read_record::<Host, Aliased<Host, HostFields>>(token, source)
    }
}

impl Serialize for Host {
    ghost tree = { record_tree ⟦<Host as Record>⟧.names ⟦<HostFields as WrittenFields>⟧.trees ⟦<Host as Record>⟧.values };

    fn begin(&self, w: &mut Writer) -> Result<()> {
        write_members(
            w,
            HOST_NAMES,
            &Parts(
                &self.name,
                Parts(
                    &self.port,
                    Parts(Omitted(&self.note), Parts(Omitted(&self.command), ())),
                ),
            ),
        )
    }
}

impl Ranged for Host {
    ghost valid = { λ v. ⟦<HostFields as WrittenFields>⟧.valid (⟦<Host as Record>⟧.values v) };

    fn ranged(&self) {
        self.name.ranged();
        self.port.ranged();
        self.note.ranged();
        self.command.ranged();
    }
}

impl RoundTrip for Host {
    fn round_trips() {
        aliased_round_trips::<Host, HostFields>()
    }
}

impl Lossless for Host {
    fn lossless() {
        record_lossless::<Host, HostFields>()
    }
}

impl NeverNull for Host {
    fn never_null() {}
}

impl Inside for Host {
    ghost fields = { ⟦<Host as Record>⟧.names };

    fn read_inside<'a, E: HasTag>(token: Event<'a>, source: &mut Source<'a>) -> Result<Host> {
        read_record::<Host, BesideTag<E, Aliased<Host, HostFields>>>(token, source)
    }

    fn write_inside(&self, w: &mut Writer) -> Result<()> {
        Members::write(
            &Parts(
                &self.name,
                Parts(
                    &self.port,
                    Parts(Omitted(&self.note), Parts(Omitted(&self.command), ())),
                ),
            ),
            w,
            HOST_NAMES,
        )
    }

    fn is_object() {
        fields_named()
    }
}
