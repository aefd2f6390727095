//! Thirty fields of many types, with marks: what `./derive` writes of `server.rs`.
ghost use Rattle.miniserde.specs.FieldsMeaning.{struct_meaning};
ghost use Rattle.miniserde.specs.Structs.{names_of, record_tree};
ghost use Rattle.miniserde.specs.Tree.{nonneg};
ghost use Rattle.std.specs.Prelude.{refl};

use crate::generic::Both;
use miniserde::derived::{
    Closed, Empty, Event, FourLent, FourParts, FourSlot, FromJson, Given, Global, Lossless,
    MarkedFour, NeverNull, Once, Parts, Plain, Ranged, Record, Result, RoundTrip, Serialize, Slot,
    Slots, Source, Stable, WithDefault, Writer, WrittenFields, read_record, record_lossless,
    record_round_trips, record_stable, take_four, write_members,
};
use std::collections::{BTreeMap, VecDeque};

/// Thirty settings of a server. An unknown name is invalid.
#[derive(Drop)]
pub struct Server {
    pub name: String,
    pub id: u64,
    pub region: String,
    pub zone: Option<String>,
    pub version: u32,
    pub active: bool,
    pub owner: Option<u64>,
    pub aliases: Vec<String>,
    pub weights: Vec<u64>,
    pub listener: Both<String, u16>,
    pub more_listeners: Vec<Both<String, u16>>,
    pub backup: Option<Both<String, u16>>,
    pub by_zone: BTreeMap<String, Both<String, u16>>,
    pub limits: BTreeMap<String, u64>,
    pub labels: BTreeMap<String, Vec<String>>,
    pub memory: u64,
    pub processors: u8,
    pub nice: i8,
    pub offset: i64,
    pub window: (u32, u32),
    pub cache: u64,
    pub log: Option<String>,
    pub verbose: bool,
    pub retries: u16,
    pub timeout: u32,
    pub proxy: Option<String>,
    pub secret: String,
    pub tags: VecDeque<String>,
    pub flags: BTreeMap<String, bool>,
    pub note: Option<String>,
}

/// The value of a missing `retries`.
#[derive(Drop)]
pub struct ServerRetriesDefault {}

impl Given<u16> for ServerRetriesDefault {
    ghost given = { nonneg 3 };

    fn make(_alloc: Global) -> Result<u16> {
        Ok(3)
    }
}

// Its fields, and their names.
type ServerFields = MarkedFour<
    String,
    Plain,
    u64,
    Plain,
    String,
    Plain,
    Option<String>,
    WithDefault<Empty>,
    FourSlot<
        u32,
        bool,
        Option<u64>,
        Vec<String>,
        FourSlot<
            Vec<u64>,
            Both<String, u16>,
            Vec<Both<String, u16>>,
            Option<Both<String, u16>>,
            FourSlot<
                BTreeMap<String, Both<String, u16>>,
                BTreeMap<String, u64>,
                BTreeMap<String, Vec<String>>,
                u64,
                FourSlot<
                    u8,
                    i8,
                    i64,
                    (u32, u32),
                    MarkedFour<
                        u64,
                        Once<Plain>,
                        Option<String>,
                        Plain,
                        bool,
                        Plain,
                        u16,
                        WithDefault<ServerRetriesDefault>,
                        MarkedFour<
                            u32,
                            Plain,
                            Option<String>,
                            Plain,
                            String,
                            Plain,
                            VecDeque<String>,
                            WithDefault<Empty>,
                            Slot<BTreeMap<String, bool>, Slot<Option<String>, Closed>>,
                        >,
                    >,
                >,
            >,
        >,
    >,
>;

const SERVER_NAMES: &[&str] = &[
    "name",
    "id",
    "region",
    "zone",
    "version",
    "active",
    "owner",
    "aliases",
    "weights",
    "listener",
    "more_listeners",
    "backup",
    "by_zone",
    "limits",
    "labels",
    "memory",
    "processors",
    "nice",
    "offset",
    "window",
    "cache",
    "log",
    "verbose",
    "retries",
    "timeout",
    "proxy",
    "secret",
    "tags",
    "flags",
    "note",
];

impl Record for Server {
    ghost use Rattle.test_forms.specs.declared.server.TheConstants.{SERVER_NAMES};

    type Values = <ServerFields as Slots>::Values;

    ghost names = { names_of SERVER_NAMES };

    ghost values = { λ v. (v.name, (v.id, (v.region, (v.zone, (v.version, (v.active, (v.owner, (v.aliases, (v.weights, (v.listener, (v.more_listeners, (v.backup, (v.by_zone, (v.limits, (v.labels, (v.memory, (v.processors, (v.nice, (v.offset, (v.window, (v.cache, (v.log, (v.verbose, (v.retries, (v.timeout, (v.proxy, (v.secret, (v.tags, (v.flags, (v.note, tt)))))))))))))))))))))))))))))) };

    ghost made = { λ x. record {
      name = x.0;
      id = x.1.0;
      region = x.1.1.0;
      zone = x.1.1.1.0;
      version = x.1.1.1.1.0;
      active = x.1.1.1.1.1.0;
      owner = x.1.1.1.1.1.1.0;
      aliases = x.1.1.1.1.1.1.1.0;
      weights = x.1.1.1.1.1.1.1.1.0;
      listener = x.1.1.1.1.1.1.1.1.1.0;
      more_listeners = x.1.1.1.1.1.1.1.1.1.1.0;
      backup = x.1.1.1.1.1.1.1.1.1.1.1.0;
      by_zone = x.1.1.1.1.1.1.1.1.1.1.1.1.0;
      limits = x.1.1.1.1.1.1.1.1.1.1.1.1.1.0;
      labels = x.1.1.1.1.1.1.1.1.1.1.1.1.1.1.0;
      memory = x.1.1.1.1.1.1.1.1.1.1.1.1.1.1.1.0;
      processors = x.1.1.1.1.1.1.1.1.1.1.1.1.1.1.1.1.0;
      nice = x.1.1.1.1.1.1.1.1.1.1.1.1.1.1.1.1.1.0;
      offset = x.1.1.1.1.1.1.1.1.1.1.1.1.1.1.1.1.1.1.0;
      window = x.1.1.1.1.1.1.1.1.1.1.1.1.1.1.1.1.1.1.1.0;
      cache = x.1.1.1.1.1.1.1.1.1.1.1.1.1.1.1.1.1.1.1.1.0;
      log = x.1.1.1.1.1.1.1.1.1.1.1.1.1.1.1.1.1.1.1.1.1.0;
      verbose = x.1.1.1.1.1.1.1.1.1.1.1.1.1.1.1.1.1.1.1.1.1.1.0;
      retries = x.1.1.1.1.1.1.1.1.1.1.1.1.1.1.1.1.1.1.1.1.1.1.1.0;
      timeout = x.1.1.1.1.1.1.1.1.1.1.1.1.1.1.1.1.1.1.1.1.1.1.1.1.0;
      proxy = x.1.1.1.1.1.1.1.1.1.1.1.1.1.1.1.1.1.1.1.1.1.1.1.1.1.0;
      secret = x.1.1.1.1.1.1.1.1.1.1.1.1.1.1.1.1.1.1.1.1.1.1.1.1.1.1.0;
      tags = x.1.1.1.1.1.1.1.1.1.1.1.1.1.1.1.1.1.1.1.1.1.1.1.1.1.1.1.0;
      flags = x.1.1.1.1.1.1.1.1.1.1.1.1.1.1.1.1.1.1.1.1.1.1.1.1.1.1.1.1.0;
      note = x.1.1.1.1.1.1.1.1.1.1.1.1.1.1.1.1.1.1.1.1.1.1.1.1.1.1.1.1.1.0;
    } };

    ghost bijective = { (λ v. refl, λ x. refl) };

    ghost distinct_names = { refl };

    fn names() -> &'static [&'static str] {
        SERVER_NAMES
    }

    fn build(parts: Self::Values) -> Server {
        let FourParts(name, id, region, zone, parts) = take_four(parts);
        let FourParts(version, active, owner, aliases, parts) = take_four(parts);
        let FourParts(weights, listener, more_listeners, backup, parts) = take_four(parts);
        let FourParts(by_zone, limits, labels, memory, parts) = take_four(parts);
        let FourParts(processors, nice, offset, window, parts) = take_four(parts);
        let FourParts(cache, log, verbose, retries, parts) = take_four(parts);
        let FourParts(timeout, proxy, secret, tags, parts) = take_four(parts);
        let Parts(flags, Parts(note, ())) = parts;
        Server {
            name,
            id,
            region,
            zone,
            version,
            active,
            owner,
            aliases,
            weights,
            listener,
            more_listeners,
            backup,
            by_zone,
            limits,
            labels,
            memory,
            processors,
            nice,
            offset,
            window,
            cache,
            log,
            verbose,
            retries,
            timeout,
            proxy,
            secret,
            tags,
            flags,
            note,
        }
    }
}

impl FromJson for Server {
    ghost means = { struct_meaning ⟦<ServerFields as Slots>⟧.meaning ⟦<Server as Record>⟧.names
        ⟦<Server as Record>⟧.values };

    fn missing() -> Option<Server> {
        None
    }

    fn read<'a>(token: Event<'a>, source: &mut Source<'a>) -> Result<Server> {
        read_record::<Server, ServerFields>(token, source)
    }
}

impl Serialize for Server {
    ghost tree = { record_tree ⟦<Server as Record>⟧.names ⟦<ServerFields as WrittenFields>⟧.trees
        ⟦<Server as Record>⟧.values };

    fn begin(&self, w: &mut Writer) -> Result<()> {
        write_members(
            w,
            SERVER_NAMES,
            &FourLent(
                &self.name,
                &self.id,
                &self.region,
                &self.zone,
                FourLent(
                    &self.version,
                    &self.active,
                    &self.owner,
                    &self.aliases,
                    FourLent(
                        &self.weights,
                        &self.listener,
                        &self.more_listeners,
                        &self.backup,
                        FourLent(
                            &self.by_zone,
                            &self.limits,
                            &self.labels,
                            &self.memory,
                            FourLent(
                                &self.processors,
                                &self.nice,
                                &self.offset,
                                &self.window,
                                FourLent(
                                    &self.cache,
                                    &self.log,
                                    &self.verbose,
                                    &self.retries,
                                    FourLent(
                                        &self.timeout,
                                        &self.proxy,
                                        &self.secret,
                                        &self.tags,
                                        Parts(&self.flags, Parts(&self.note, ())),
                                    ),
                                ),
                            ),
                        ),
                    ),
                ),
            ),
        )
    }
}

impl Ranged for Server {
    ghost valid = { λ v. ⟦<ServerFields as WrittenFields>⟧.valid (⟦<Server as Record>⟧.values v) };

    fn ranged(&self) {
        self.name.ranged();
        self.id.ranged();
        self.region.ranged();
        self.zone.ranged();
        self.version.ranged();
        self.active.ranged();
        self.owner.ranged();
        self.aliases.ranged();
        self.weights.ranged();
        self.listener.ranged();
        self.more_listeners.ranged();
        self.backup.ranged();
        self.by_zone.ranged();
        self.limits.ranged();
        self.labels.ranged();
        self.memory.ranged();
        self.processors.ranged();
        self.nice.ranged();
        self.offset.ranged();
        self.window.ranged();
        self.cache.ranged();
        self.log.ranged();
        self.verbose.ranged();
        self.retries.ranged();
        self.timeout.ranged();
        self.proxy.ranged();
        self.secret.ranged();
        self.tags.ranged();
        self.flags.ranged();
        self.note.ranged();
    }
}

impl RoundTrip for Server {
    fn round_trips() {
        record_round_trips::<Server, ServerFields>()
    }
}

impl Lossless for Server {
    fn lossless() {
        record_lossless::<Server, ServerFields>()
    }
}

impl NeverNull for Server {
    fn never_null() {}
}

impl Stable for Server {
    fn stable() {
        record_stable::<Server, ServerFields>()
    }
}
