//! The types of `services.rs`, with the impls that `./derive` writes.
ghost use Rattle.miniserde.specs.FieldsMeaning.{struct_meaning};
ghost use Rattle.miniserde.specs.Structs.{names_of, record_tree};
ghost use Rattle.miniserde.specs.Tree.{str};
ghost use Rattle.std.specs.Prelude.{true, List, codes, [], ◌∷◌, ⊤, refl};

use miniserde::derived::{
    Error, Event, FourLent, FourParts, FourSlot, Fragment, FromJson, NoSlot, Parts, Ranged, Record,
    Result, RoundTrip, Serialize, Slot, Slots, Source, UnitEnum, Variants, Writer, WrittenFields,
    read_record, read_variant, record_round_trips, take_four, variant_round_trips, write_members,
};
use std::collections::BTreeMap;

/// How much is written to the log.
#[derive(Clone, Copy, PartialEq, Eq, Debug, Drop)]
pub enum Level {
    Error,
    Warn,
    Info,
    Debug,
}

impl UnitEnum for Level {
    ghost use Rattle.test_driver.specs.declared.services.Level.TheVariants.{Error, Warn, Info, Debug};

    ghost all = { Error ∷ Warn ∷ Info ∷ Debug ∷ [] };

    ghost name_of = { elim [
      | Error ↦ codes "Error"
      | Warn ↦ codes "Warn"
      | Info ↦ codes "Info"
      | Debug ↦ codes "Debug"
    ] };

    ghost found = { elim [ Error ↦ refl | Warn ↦ refl | Info ↦ refl | Debug ↦ refl ] };

    fn values() -> &'static [Level] {
        &[Level::Error, Level::Warn, Level::Info, Level::Debug]
    }

    fn name(&self) -> &'static str {
        match self {
            Level::Error => "Error",
            Level::Warn => "Warn",
            Level::Info => "Info",
            Level::Debug => "Debug",
        }
    }
}

impl FromJson for Level {
    ghost means = { ⟦<Level as Variants>⟧.meaning };

    ghost read_infallible = { true };

    fn missing() -> Option<Level> {
        None
    }

    fn read<'a>(token: Event<'a>, source: &mut Source<'a>) -> Result<Level> {
        read_variant(token, source)
    }
}

impl Serialize for Level {
    ghost tree = { λ v. str (⟦<Level as UnitEnum>⟧.name_of v) };

    fn begin(&self, w: &mut Writer) -> Result<()> {
        w.fragment(Fragment::Str(self.name()))
    }
}

impl Ranged for Level {
    ghost valid = { λ _. ⊤ };

    fn ranged(&self) {}
}

impl RoundTrip for Level {
    fn round_trips() {
        variant_round_trips::<Level>()
    }
}

/// Settings of thirty fields.
#[derive(Drop)]
pub struct Service {
    pub name: String,
    pub host: String,
    pub port: u16,
    pub admin_port: Option<u16>,
    pub workers: u8,
    pub queue: u32,
    pub timeout_ms: u64,
    pub idle_timeout_ms: Option<u64>,
    pub max_body: u64,
    pub max_header: u32,
    pub keep_alive: bool,
    pub tls: bool,
    pub cert: Option<String>,
    pub key: Option<String>,
    pub level: Level,
    pub log_file: Option<String>,
    pub origins: Vec<String>,
    pub methods: Vec<String>,
    pub headers: BTreeMap<String, String>,
    pub routes: BTreeMap<String, Vec<String>>,
    pub per_second: u32,
    pub burst: u32,
    pub block_seconds: Option<u64>,
    pub retry: Vec<u16>,
    pub backoff: (u32, u32),
    pub offset: i32,
    pub region: String,
    pub tags: Option<Vec<String>>,
    pub quota: BTreeMap<u64, i64>,
    pub share: u8,
}

// Its fields, and their names.
type ServiceFields = FourSlot<
    String,
    String,
    u16,
    Option<u16>,
    FourSlot<
        u8,
        u32,
        u64,
        Option<u64>,
        FourSlot<
            u64,
            u32,
            bool,
            bool,
            FourSlot<
                Option<String>,
                Option<String>,
                Level,
                Option<String>,
                FourSlot<
                    Vec<String>,
                    Vec<String>,
                    BTreeMap<String, String>,
                    BTreeMap<String, Vec<String>>,
                    FourSlot<
                        u32,
                        u32,
                        Option<u64>,
                        Vec<u16>,
                        FourSlot<
                            (u32, u32),
                            i32,
                            String,
                            Option<Vec<String>>,
                            Slot<BTreeMap<u64, i64>, Slot<u8, NoSlot>>,
                        >,
                    >,
                >,
            >,
        >,
    >,
>;

const SERVICE_NAMES: &[&str] = &[
    "name",
    "host",
    "port",
    "admin_port",
    "workers",
    "queue",
    "timeout_ms",
    "idle_timeout_ms",
    "max_body",
    "max_header",
    "keep_alive",
    "tls",
    "cert",
    "key",
    "level",
    "log_file",
    "origins",
    "methods",
    "headers",
    "routes",
    "per_second",
    "burst",
    "block_seconds",
    "retry",
    "backoff",
    "offset",
    "region",
    "tags",
    "quota",
    "share",
];

impl Record for Service {
    ghost use Rattle.test_driver.specs.declared.services.TheConstants.{SERVICE_NAMES};

    type Values = <ServiceFields as Slots>::Values;

    ghost names = { names_of SERVICE_NAMES };

    ghost values = { λ v. (v.name, (v.host, (v.port, (v.admin_port, (v.workers, (v.queue, (v.timeout_ms, (v.idle_timeout_ms, (v.max_body, (v.max_header, (v.keep_alive, (v.tls, (v.cert, (v.key, (v.level, (v.log_file, (v.origins, (v.methods, (v.headers, (v.routes, (v.per_second, (v.burst, (v.block_seconds, (v.retry, (v.backoff, (v.offset, (v.region, (v.tags, (v.quota, (v.share, tt)))))))))))))))))))))))))))))) };

    ghost made = { λ x. record {
      name = x.0;
      host = x.1.0;
      port = x.1.1.0;
      admin_port = x.1.1.1.0;
      workers = x.1.1.1.1.0;
      queue = x.1.1.1.1.1.0;
      timeout_ms = x.1.1.1.1.1.1.0;
      idle_timeout_ms = x.1.1.1.1.1.1.1.0;
      max_body = x.1.1.1.1.1.1.1.1.0;
      max_header = x.1.1.1.1.1.1.1.1.1.0;
      keep_alive = x.1.1.1.1.1.1.1.1.1.1.0;
      tls = x.1.1.1.1.1.1.1.1.1.1.1.0;
      cert = x.1.1.1.1.1.1.1.1.1.1.1.1.0;
      key = x.1.1.1.1.1.1.1.1.1.1.1.1.1.0;
      level = x.1.1.1.1.1.1.1.1.1.1.1.1.1.1.0;
      log_file = x.1.1.1.1.1.1.1.1.1.1.1.1.1.1.1.0;
      origins = x.1.1.1.1.1.1.1.1.1.1.1.1.1.1.1.1.0;
      methods = x.1.1.1.1.1.1.1.1.1.1.1.1.1.1.1.1.1.0;
      headers = x.1.1.1.1.1.1.1.1.1.1.1.1.1.1.1.1.1.1.0;
      routes = x.1.1.1.1.1.1.1.1.1.1.1.1.1.1.1.1.1.1.1.0;
      per_second = x.1.1.1.1.1.1.1.1.1.1.1.1.1.1.1.1.1.1.1.1.0;
      burst = x.1.1.1.1.1.1.1.1.1.1.1.1.1.1.1.1.1.1.1.1.1.0;
      block_seconds = x.1.1.1.1.1.1.1.1.1.1.1.1.1.1.1.1.1.1.1.1.1.1.0;
      retry = x.1.1.1.1.1.1.1.1.1.1.1.1.1.1.1.1.1.1.1.1.1.1.1.0;
      backoff = x.1.1.1.1.1.1.1.1.1.1.1.1.1.1.1.1.1.1.1.1.1.1.1.1.0;
      offset = x.1.1.1.1.1.1.1.1.1.1.1.1.1.1.1.1.1.1.1.1.1.1.1.1.1.0;
      region = x.1.1.1.1.1.1.1.1.1.1.1.1.1.1.1.1.1.1.1.1.1.1.1.1.1.1.0;
      tags = x.1.1.1.1.1.1.1.1.1.1.1.1.1.1.1.1.1.1.1.1.1.1.1.1.1.1.1.0;
      quota = x.1.1.1.1.1.1.1.1.1.1.1.1.1.1.1.1.1.1.1.1.1.1.1.1.1.1.1.1.0;
      share = x.1.1.1.1.1.1.1.1.1.1.1.1.1.1.1.1.1.1.1.1.1.1.1.1.1.1.1.1.1.0;
    } };

    ghost bijective = { (λ v. refl, λ x. refl) };

    ghost distinct_names = { refl };

    fn names() -> &'static [&'static str] {
        SERVICE_NAMES
    }

    fn build(parts: Self::Values) -> Service {
        let FourParts(name, host, port, admin_port, parts) = take_four(parts);
        let FourParts(workers, queue, timeout_ms, idle_timeout_ms, parts) = take_four(parts);
        let FourParts(max_body, max_header, keep_alive, tls, parts) = take_four(parts);
        let FourParts(cert, key, level, log_file, parts) = take_four(parts);
        let FourParts(origins, methods, headers, routes, parts) = take_four(parts);
        let FourParts(per_second, burst, block_seconds, retry, parts) = take_four(parts);
        let FourParts(backoff, offset, region, tags, parts) = take_four(parts);
        let Parts(quota, Parts(share, ())) = parts;
        Service {
            name,
            host,
            port,
            admin_port,
            workers,
            queue,
            timeout_ms,
            idle_timeout_ms,
            max_body,
            max_header,
            keep_alive,
            tls,
            cert,
            key,
            level,
            log_file,
            origins,
            methods,
            headers,
            routes,
            per_second,
            burst,
            block_seconds,
            retry,
            backoff,
            offset,
            region,
            tags,
            quota,
            share,
        }
    }
}

impl FromJson for Service {
    ghost means = { struct_meaning ⟦<ServiceFields as Slots>⟧.meaning ⟦<Service as Record>⟧.names
        ⟦<Service as Record>⟧.values };

    fn missing() -> Option<Service> {
        None
    }

    fn read<'a>(token: Event<'a>, source: &mut Source<'a>) -> Result<Service> {
        read_record::<Service, ServiceFields>(token, source)
    }
}

impl Serialize for Service {
    ghost tree = { record_tree ⟦<Service as Record>⟧.names ⟦<ServiceFields as WrittenFields>⟧.trees
        ⟦<Service as Record>⟧.values };

    fn begin(&self, w: &mut Writer) -> Result<()> {
        write_members(
            w,
            SERVICE_NAMES,
            &FourLent(
                &self.name,
                &self.host,
                &self.port,
                &self.admin_port,
                FourLent(
                    &self.workers,
                    &self.queue,
                    &self.timeout_ms,
                    &self.idle_timeout_ms,
                    FourLent(
                        &self.max_body,
                        &self.max_header,
                        &self.keep_alive,
                        &self.tls,
                        FourLent(
                            &self.cert,
                            &self.key,
                            &self.level,
                            &self.log_file,
                            FourLent(
                                &self.origins,
                                &self.methods,
                                &self.headers,
                                &self.routes,
                                FourLent(
                                    &self.per_second,
                                    &self.burst,
                                    &self.block_seconds,
                                    &self.retry,
                                    FourLent(
                                        &self.backoff,
                                        &self.offset,
                                        &self.region,
                                        &self.tags,
                                        Parts(&self.quota, Parts(&self.share, ())),
                                    ),
                                ),
                            ),
                        ),
                    ),
                ),
            ),
        )
    }
}

impl Ranged for Service {
    ghost valid = { λ v. ⟦<ServiceFields as WrittenFields>⟧.valid (⟦<Service as Record>⟧.values v) };

    fn ranged(&self) {
        self.name.ranged();
        self.host.ranged();
        self.port.ranged();
        self.admin_port.ranged();
        self.workers.ranged();
        self.queue.ranged();
        self.timeout_ms.ranged();
        self.idle_timeout_ms.ranged();
        self.max_body.ranged();
        self.max_header.ranged();
        self.keep_alive.ranged();
        self.tls.ranged();
        self.cert.ranged();
        self.key.ranged();
        self.level.ranged();
        self.log_file.ranged();
        self.origins.ranged();
        self.methods.ranged();
        self.headers.ranged();
        self.routes.ranged();
        self.per_second.ranged();
        self.burst.ranged();
        self.block_seconds.ranged();
        self.retry.ranged();
        self.backoff.ranged();
        self.offset.ranged();
        self.region.ranged();
        self.tags.ranged();
        self.quota.ranged();
        self.share.ranged();
    }
}

impl RoundTrip for Service {
    fn round_trips() {
        record_round_trips::<Service, ServiceFields>()
    }
}
