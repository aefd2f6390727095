//! The types of `peers.rs`, with the impls that `./derive` writes.
ghost use Rattle.miniserde.specs.Aliases.{aliases_of};
ghost use Rattle.miniserde.specs.FieldsMeaning.{struct_meaning};
ghost use Rattle.miniserde.specs.Structs.{names_of};
ghost use Rattle.miniserde.specs.Tree.{nonneg};
ghost use Rattle.miniserde_more.specs.Rest.{alias_names, rest_tree};
ghost use Rattle.std.specs.Prelude.{string_bytes, refl};

use miniserde::derived::{
    Aliased, Event, FromJson, Given, Global, HasAliases, Lossless, MarkedSlot, NeverNull, NoSlot,
    Parts, Ranged, Record, Result, RoundTrip, Serialize, Slot, Slots, Source, WithDefault, Writer,
    WrittenFields, read_record,
};
use miniserde::json::Document;
use miniserde_more::rest::{
    AliasesOf, NoNames, OpenFields, WithRest, aliased_rest_round_trips, rest_lossless,
    write_members_and_rest,
};
use std::collections::BTreeMap;

/// Another server, with whatever else its text says.
#[derive(Drop)]
pub struct Peer {
    pub name: String,
    pub port: u16,
    pub labels: BTreeMap<String, Document>,
}

/// The value of a missing `port`.
#[derive(Drop)]
pub struct PeerPortDefault {}

impl Given<u16> for PeerPortDefault {
    ghost given = { nonneg 80 };

    fn make(_alloc: Global) -> Result<u16> {
        Ok(80)
    }
}

// Its fields without the rest, and their names.
pub type PeerFields = Slot<String, MarkedSlot<u16, WithDefault<PeerPortDefault>, NoSlot>>;

const PEER_NAMES: &[&str] = &["name", "port"];

impl Record for Peer {
    ghost use Rattle.test_more.specs.declared.peers.TheConstants.{PEER_NAMES};

    type Values = Parts<BTreeMap<String, Document>, <PeerFields as Slots>::Values>;

    ghost names = { names_of PEER_NAMES };

    ghost values = { λ v. (v.labels, (v.name, (v.port, tt))) };

    ghost made = { λ x. record { name = x.1.0; port = x.1.1.0; labels = x.0 } };

    ghost bijective = { (λ v. refl, λ x. refl) };

    ghost distinct_names = { refl };

    fn names() -> &'static [&'static str] {
        PEER_NAMES
    }

    fn build(parts: Self::Values) -> Peer {
        let Parts(labels, parts) = parts;
        let Parts(name, Parts(port, ())) = parts;
        Peer { name, port, labels }
    }
}

const PEER_ALIASES: &[(&str, &str)] = &[("host", "name"), ("hostname", "name"), ("p", "port")];

impl HasAliases for Peer {
    ghost use Rattle.test_more.specs.declared.peers.TheConstants.{PEER_ALIASES};

    ghost aliases = { aliases_of PEER_ALIASES };

    ghost apart = { refl };

    fn aliases() -> &'static [(&'static str, &'static str)] {
        PEER_ALIASES
    }
}

impl FromJson for Peer {
    ghost means = { struct_meaning ⟦<Aliased<Peer, WithRest<Peer, PeerFields, Document, AliasesOf<Peer>>> as Slots>⟧.meaning ⟦<Peer as Record>⟧.names ⟦<Peer as Record>⟧.values };

    fn missing() -> Option<Peer> {
        None
    }

    fn read<'a>(token: Event<'a>, source: &mut Source<'a>) -> Result<Peer> {
        read_record::<Peer, Aliased<Peer, WithRest<Peer, PeerFields, Document, AliasesOf<Peer>>>>(
            token, source,
        )
    }
}

impl Serialize for Peer {
    ghost tree = { rest_tree string_bytes ⟦<Peer as Record>⟧.names (alias_names ⟦<Peer as HasAliases>⟧.aliases) ⟦<Document as Serialize>⟧.tree (λ m. m.entries) ⟦<PeerFields as WrittenFields>⟧.trees ⟦<Peer as Record>⟧.values };

    fn begin(&self, w: &mut Writer) -> Result<()> {
        write_members_and_rest::<AliasesOf<Peer>, _, _>(
            w,
            PEER_NAMES,
            &Parts(&self.name, Parts(&self.port, ())),
            &self.labels,
        )
    }
}

impl Ranged for Peer {
    ghost valid = { λ v. ⟦<BTreeMap<String, Document> as Ranged>⟧.valid (⟦<Peer as Record>⟧.values
        v).0 × ⟦<PeerFields as WrittenFields>⟧.valid (⟦<Peer as Record>⟧.values v).1 };

    fn ranged(&self) {
        self.name.ranged();
        self.port.ranged();
        self.labels.ranged();
    }
}

impl RoundTrip for Peer {
    fn round_trips() {
        <PeerFields as OpenFields>::open();
        aliased_rest_round_trips::<Peer, PeerFields, Document, NoNames>()
    }
}

impl Lossless for Peer {
    fn lossless() {
        rest_lossless::<Peer, PeerFields, Document, AliasesOf<Peer>>()
    }
}

impl NeverNull for Peer {
    fn never_null() {}
}
