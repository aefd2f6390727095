//! The types of `servers.rs`, with the impls that `./derive` writes.
ghost use Rattle.miniserde.specs.FieldsMeaning.{struct_meaning};
ghost use Rattle.miniserde.specs.Structs.{names_of, record_tree};
ghost use Rattle.miniserde.specs.Tree.{nonneg};
ghost use Rattle.std.specs.Prelude.{refl};

use miniserde::derived::{
    Event, FourLent, FourParts, FourSlot, FromJson, Given, Global, MarkedSlot, NoSlot, OmitSlot,
    Omitted, Once, OnceSlot, Parts, Plain, Ranged, Record, Result, RoundTrip, Serialize, Slot,
    Slots, Source, WithDefault, Writer, WrittenFields, read_record, record_round_trips, take_four,
    write_members,
};
use refused::{
    FieldByField, FieldPath, NamesOf, NoProbe, Probe, ProbeInto, ProbeIntoOption, Probes, Way,
    fields_give,
};
use settings::parts::Tls;
use settings::types::Settings;

/// How many connections a server takes.
#[derive(Drop)]
pub struct Range {
    pub most: u16,
    pub least: u16,
}

/// The value of a missing `least`.
#[derive(Drop)]
pub struct RangeLeastDefault {}

impl Given<u16> for RangeLeastDefault {
    ghost given = { nonneg 1 };

    fn make(_alloc: Global) -> Result<u16> {
        Ok(1)
    }
}

// Its fields, and their names.
type RangeFields = OnceSlot<u16, MarkedSlot<u16, WithDefault<RangeLeastDefault>, NoSlot>>;

const RANGE_NAMES: &[&str] = &["most", "least"];

impl Record for Range {
    ghost use Rattle.test_examples.specs.declared.servers.TheConstants.{RANGE_NAMES};

    type Values = <RangeFields as Slots>::Values;

    ghost names = { names_of RANGE_NAMES };

    ghost values = { λ v. (v.most, (v.least, tt)) };

    ghost made = { λ x. record { most = x.0; least = x.1.0 } };

    ghost bijective = { (λ v. refl, λ x. refl) };

    ghost distinct_names = { refl };

    fn names() -> &'static [&'static str] {
        RANGE_NAMES
    }

    fn build(parts: Self::Values) -> Range {
        let Parts(most, Parts(least, ())) = parts;
        Range { most, least }
    }
}

impl FromJson for Range {
    ghost means = { struct_meaning ⟦<RangeFields as Slots>⟧.meaning ⟦<Range as Record>⟧.names
        ⟦<Range as Record>⟧.values };

    fn missing() -> Option<Range> {
        None
    }

    fn read<'a>(token: Event<'a>, source: &mut Source<'a>) -> Result<Range> {
        read_record::<Range, RangeFields>(token, source)
    }
}

impl Serialize for Range {
    ghost tree = { record_tree ⟦<Range as Record>⟧.names ⟦<RangeFields as WrittenFields>⟧.trees
        ⟦<Range as Record>⟧.values };

    fn begin(&self, w: &mut Writer) -> Result<()> {
        write_members(w, RANGE_NAMES, &Parts(&self.most, Parts(&self.least, ())))
    }
}

impl Ranged for Range {
    ghost valid = { λ v. ⟦<RangeFields as WrittenFields>⟧.valid (⟦<Range as Record>⟧.values v) };

    fn ranged(&self) {
        self.most.ranged();
        self.least.ranged();
    }
}

impl RoundTrip for Range {
    fn round_trips() {
        record_round_trips::<Range, RangeFields>()
    }
}

// Its fields, one by one.
type RangeProbes = Probe<u16, Once<Plain>, Probe<u16, WithDefault<RangeLeastDefault>, NoProbe>>;

impl FieldByField for Range {
    ghost wrong = { λ gives here. ⟦<RangeProbes as Probes>⟧.wrong gives here ⟦<Range as Record>⟧.names };

    ghost right = { λ gives. ⟦<RangeProbes as Probes>⟧.right gives ⟦<Range as Record>⟧.names };

    fn probe<W: Way>(alloc: Global, text: &str) -> Result<Option<FieldPath>> {
        <RangeProbes as Probes>::probe::<W, NamesOf<Range>>(alloc, text)
    }

    fn by_fields<W: Way>() {
        fields_give::<Range, RangeProbes, W>()
    }
}

/// A server, with a field of a name with a dot, and one of the empty name.
#[derive(Drop)]
pub struct Server {
    pub name: String,
    pub inner: Tls,
    pub outer: Option<Tls>,
    pub range: Range,
    pub hosts: Vec<Range>,
    pub share: Option<u8>,
    pub settings: Option<Settings>,
}

// Its fields, and their names.
type ServerFields = FourSlot<
    String,
    Tls,
    Option<Tls>,
    Range,
    Slot<Vec<Range>, OmitSlot<u8, Plain, Slot<Option<Settings>, NoSlot>>>,
>;

const SERVER_NAMES: &[&str] = &[
    "server.name",
    "inner",
    "outer",
    "range",
    "hosts",
    "",
    "settings",
];

impl Record for Server {
    ghost use Rattle.test_examples.specs.declared.servers.TheConstants.{SERVER_NAMES};

    type Values = <ServerFields as Slots>::Values;

    ghost names = { names_of SERVER_NAMES };

    ghost values = { λ v. (
      v.name,
      (
        v.inner,
        (
          v.outer,
          (
            v.range,
            (
              v.hosts,
              (
                v.share,
                (
                  v.settings,
                  tt,
                ),
              ),
            ),
          ),
        ),
      ),
    ) };

    ghost made = { λ x. record {
      name = x.0;
      inner = x.1.0;
      outer = x.1.1.0;
      range = x.1.1.1.0;
      hosts = x.1.1.1.1.0;
      share = x.1.1.1.1.1.0;
      settings = x.1.1.1.1.1.1.0;
    } };

    ghost bijective = { (λ v. refl, λ x. refl) };

    ghost distinct_names = { refl };

    fn names() -> &'static [&'static str] {
        SERVER_NAMES
    }

    fn build(parts: Self::Values) -> Server {
        let FourParts(name, inner, outer, range, parts) = take_four(parts);
        let Parts(hosts, Parts(share, Parts(settings, ()))) = parts;
        Server {
            name,
            inner,
            outer,
            range,
            hosts,
            share,
            settings,
        }
    }
}

impl FromJson for Server {
    ghost means = { struct_meaning ⟦<ServerFields as Slots>⟧.meaning ⟦<Server as Record>⟧.names
        ⟦<Server as Record>⟧.values };

    fn missing() -> Option<Server> {
        None
    }

    fn read<'a>(token: Event<'a>, source: &mut Source<'a>) -> Result<Server> {
        read_record::<Server, ServerFields>(token, source)
    }
}

impl Serialize for Server {
    ghost tree = { record_tree ⟦<Server as Record>⟧.names ⟦<ServerFields as WrittenFields>⟧.trees
        ⟦<Server as Record>⟧.values };

    fn begin(&self, w: &mut Writer) -> Result<()> {
        write_members(
            w,
            SERVER_NAMES,
            &FourLent(
                &self.name,
                &self.inner,
                &self.outer,
                &self.range,
                Parts(
                    &self.hosts,
                    Parts(Omitted(&self.share), Parts(&self.settings, ())),
                ),
            ),
        )
    }
}

impl Ranged for Server {
    ghost valid = { λ v. ⟦<ServerFields as WrittenFields>⟧.valid (⟦<Server as Record>⟧.values v) };

    fn ranged(&self) {
        self.name.ranged();
        self.inner.ranged();
        self.outer.ranged();
        self.range.ranged();
        self.hosts.ranged();
        self.share.ranged();
        self.settings.ranged();
    }
}

impl RoundTrip for Server {
    fn round_trips() {
        record_round_trips::<Server, ServerFields>()
    }
}

// Its fields, one by one.
type ServerProbes = Probe<
    String,
    Plain,
    ProbeInto<
        Tls,
        Plain,
        ProbeIntoOption<
            Tls,
            Plain,
            ProbeInto<
                Range,
                Plain,
                Probe<
                    Vec<Range>,
                    Plain,
                    Probe<Option<u8>, Plain, ProbeIntoOption<Settings, Plain, NoProbe>>,
                >,
            >,
        >,
    >,
>;

impl FieldByField for Server {
    ghost wrong = { λ gives here. ⟦<ServerProbes as Probes>⟧.wrong gives here ⟦<Server as Record>⟧.names };

    ghost right = { λ gives. ⟦<ServerProbes as Probes>⟧.right gives ⟦<Server as Record>⟧.names };

    fn probe<W: Way>(alloc: Global, text: &str) -> Result<Option<FieldPath>> {
        <ServerProbes as Probes>::probe::<W, NamesOf<Server>>(alloc, text)
    }

    fn by_fields<W: Way>() {
        fields_give::<Server, ServerProbes, W>()
    }
}
