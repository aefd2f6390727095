//! The types of `reports.rs`, with the impls that `./derive` writes.
ghost use Rattle.miniserde.specs.Aliases.{aliases_of};
ghost use Rattle.miniserde.specs.Cases.{each_case, enum_tree, first_case, later_case, any_of_never, tagged_tree};
ghost use Rattle.miniserde.specs.CasesMeaning.{enum_meaning, tagged_meaning};
ghost use Rattle.miniserde.specs.FieldsMeaning.{struct_meaning};
ghost use Rattle.miniserde.specs.Marks.{is_among};
ghost use Rattle.miniserde.specs.Structs.{names_of};
ghost use Rattle.miniserde_more.specs.Rest.{alias_names, rest_tree};
ghost use Rattle.std.specs.Prelude.{codes, [], ◌∷◌, ◌++◌, string_bytes, refl};

use miniserde::derived::{
    Aliased, BesideTag, Cases, DataCase, DataEnum, Event, Fragment, FromJson, HasAliases, HasTag,
    Inside, InsideCases, Lossless, NeverNull, NoCase, NoFields, NoSlot, OneOf, Parts, Ranged,
    Record, Result, RoundTrip, Serialize, Slot, Slots, Source, Stable, UnitCase, Writer,
    WrittenCases, WrittenFields, enum_lossless, enum_round_trips, enum_stable, read_enum,
    read_record, read_tagged, tag_fits, tagged_lossless, tagged_round_trips, write_data,
    write_tagged, write_tagged_fields,
};
use miniserde::json::Document;
use miniserde_more::rest::{
    AliasesOf, NoNames, OpenFields, TagOf, WithRest, aliased_rest_round_trips, rest_lossless,
    rest_named, rest_round_trips, rest_stable, write_inside_and_rest, write_members_and_rest,
};
use std::collections::BTreeMap;

/// What a server reports: the data stands in one object with the tag.
#[derive(Drop)]
pub enum Report {
    Up(Health),
    Moved(Place),
    Slow(Slow),
    Down,
}

// Its variants, and their names.
type ReportCases = DataCase<Health, DataCase<Place, DataCase<Slow, DataCase<NoFields, NoCase>>>>;

const REPORT_NAMES: &[&str] = &["Up", "Moved", "Slow", "Down"];

impl DataEnum for Report {
    ghost use Rattle.test_more.specs.declared.reports.TheConstants.{REPORT_NAMES};
    ghost use Rattle.test_more.specs.declared.reports.Report.TheVariants.{Up, Moved, Slow, Down};

    type Values = <ReportCases as InsideCases>::Values;

    ghost names = { names_of REPORT_NAMES };

    ghost values = { elim [
      | Up x0 ↦ first_case x0
      | Moved x0 ↦ later_case (first_case x0)
      | Slow x0
          ↦ later_case (later_case (first_case x0))
      | Down ↦ later_case (later_case (later_case
          (first_case (record {}))))
    ] };

    ghost made = { each_case _ (λ x. Up x) (each_case _ (λ x. Moved x) (each_case _ (λ x. Slow x)
        (each_case _ (λ x. Down) (any_of_never _)))) };

    ghost bijective = { (
      elim [ Up x0 ↦ refl | Moved x0 ↦ refl | Slow x0 ↦ refl | Down ↦ refl ],
      each_case _ (λ x. refl) (each_case _ (λ x. refl) (each_case _ (λ x. refl) (each_case _ (λ x.
          refl) (any_of_never _)))),
    ) };

    ghost distinct_names = { refl };

    fn names() -> &'static [&'static str] {
        REPORT_NAMES
    }

    fn build(value: Self::Values) -> Report {
        match value {
            OneOf::First(a) => Report::Up(a),
            OneOf::Later(value) => match value {
                OneOf::First(a) => Report::Moved(a),
                OneOf::Later(value) => match value {
                    OneOf::First(a) => Report::Slow(a),
                    OneOf::Later(value) => match value {
                        OneOf::First(NoFields {}) => Report::Down,
                        OneOf::Later(value) => match value {},
                    },
                },
            },
        }
    }
}

const REPORT_TAG: &[&str] = &["kind"];

impl HasTag for Report {
    ghost use Rattle.test_more.specs.declared.reports.TheConstants.{REPORT_TAG};

    ghost tag = { codes "kind" };

    fn tag() -> &'static [&'static str] {
        REPORT_TAG
    }
}

impl FromJson for Report {
    ghost means = { tagged_meaning ⟦<ReportCases as InsideCases>⟧.meaning ⟦<Report as HasTag>⟧.tag
        ⟦<Report as DataEnum>⟧.names refl ⟦<Report as DataEnum>⟧.values };

    fn missing() -> Option<Report> {
        None
    }

    fn read<'a>(token: Event<'a>, source: &mut Source<'a>) -> Result<Report> {
        read_tagged::<Report, ReportCases>(token, source)
    }
}

impl Serialize for Report {
    ghost tree = { tagged_tree ⟦<Report as HasTag>⟧.tag ⟦<Report as DataEnum>⟧.names ⟦<ReportCases as WrittenCases>⟧.tree ⟦<Report as DataEnum>⟧.values };

    fn begin(&self, w: &mut Writer) -> Result<()> {
        match self {
            Report::Up(a) => write_tagged(w, "kind", "Up", a),
            Report::Moved(a) => write_tagged(w, "kind", "Moved", a),
            Report::Slow(a) => write_tagged(w, "kind", "Slow", a),
            Report::Down => { write_tagged_fields(w, "kind", "Down", &[], &()) },
        }
    }
}

impl Ranged for Report {
    ghost valid = { λ v. ⟦<ReportCases as WrittenCases>⟧.valid (⟦<Report as DataEnum>⟧.values v) };

    fn ranged(&self) {
        match self {
            Report::Up(a) => a.ranged(),
            Report::Moved(a) => a.ranged(),
            Report::Slow(a) => a.ranged(),
            Report::Down => {},
        }
    }
}

impl RoundTrip for Report {
    fn round_trips() {
        tag_fits::<Report, ReportCases>();
        tagged_round_trips::<Report, ReportCases>()
    }
}

impl Lossless for Report {
    fn lossless() {
        tag_fits::<Report, ReportCases>();
        tagged_lossless::<Report, ReportCases>()
    }
}

impl NeverNull for Report {
    fn never_null() {}
}

/// How a server is, with whatever else it says.
#[derive(Drop)]
pub struct Health {
    pub load: u8,
    pub more: BTreeMap<String, Document>,
}

// Its fields without the rest, and their names.
pub type HealthFields = Slot<u8, NoSlot>;

const HEALTH_NAMES: &[&str] = &["load"];

impl Record for Health {
    ghost use Rattle.test_more.specs.declared.reports.TheConstants.{HEALTH_NAMES};

    type Values = Parts<BTreeMap<String, Document>, <HealthFields as Slots>::Values>;

    ghost names = { names_of HEALTH_NAMES };

    ghost values = { λ v. (v.more, (v.load, tt)) };

    ghost made = { λ x. record { load = x.1.0; more = x.0 } };

    ghost bijective = { (λ v. refl, λ x. refl) };

    ghost distinct_names = { refl };

    fn names() -> &'static [&'static str] {
        HEALTH_NAMES
    }

    fn build(parts: Self::Values) -> Health {
        let Parts(more, parts) = parts;
        let Parts(load, ()) = parts;
        Health { load, more }
    }
}

impl FromJson for Health {
    ghost means = { struct_meaning ⟦<WithRest<Health, HealthFields, Document, TagOf<Report>> as Slots>⟧.meaning ⟦<Health as Record>⟧.names ⟦<Health as Record>⟧.values };

    fn missing() -> Option<Health> {
        None
    }

    fn read<'a>(token: Event<'a>, source: &mut Source<'a>) -> Result<Health> {
        read_record::<Health, WithRest<Health, HealthFields, Document, TagOf<Report>>>(
            token, source,
        )
    }
}

impl Serialize for Health {
    ghost tree = { rest_tree string_bytes ⟦<Health as Record>⟧.names (⟦<Report as HasTag>⟧.tag ∷ [])
        ⟦<Document as Serialize>⟧.tree (λ m. m.entries) ⟦<HealthFields as WrittenFields>⟧.trees
        ⟦<Health as Record>⟧.values };

    fn begin(&self, w: &mut Writer) -> Result<()> {
        write_members_and_rest::<TagOf<Report>, _, _>(
            w,
            HEALTH_NAMES,
            &Parts(&self.load, ()),
            &self.more,
        )
    }
}

impl Ranged for Health {
    ghost valid = { λ v. ⟦<BTreeMap<String, Document> as Ranged>⟧.valid (⟦<Health as Record>⟧.values
        v).0 × ⟦<HealthFields as WrittenFields>⟧.valid (⟦<Health as Record>⟧.values v).1 };

    fn ranged(&self) {
        self.load.ranged();
        self.more.ranged();
    }
}

impl RoundTrip for Health {
    fn round_trips() {
        <HealthFields as OpenFields>::open();
        rest_round_trips::<Health, HealthFields, Document, TagOf<Report>>()
    }
}

impl Lossless for Health {
    fn lossless() {
        rest_lossless::<Health, HealthFields, Document, TagOf<Report>>()
    }
}

impl NeverNull for Health {
    fn never_null() {}
}

impl Stable for Health {
    fn stable() {
        rest_stable::<Health, HealthFields, Document, TagOf<Report>>()
    }
}

impl Inside for Health {
    ghost fields = { ⟦<Health as Record>⟧.names };

    ghost left_out = { is_among (⟦<Report as HasTag>⟧.tag ∷ []) };

    fn read_inside<'a, E: HasTag>(token: Event<'a>, source: &mut Source<'a>) -> Result<Health> {
        read_record::<
            Health,
            BesideTag<E, WithRest<Health, HealthFields, Document, TagOf<Report>>>,
        >(token, source)
    }

    fn write_inside(&self, w: &mut Writer) -> Result<()> {
        write_inside_and_rest::<TagOf<Report>, _, _>(
            w,
            HEALTH_NAMES,
            &Parts(&self.load, ()),
            &self.more,
        )
    }

    fn is_object() {
        rest_named::<Health, HealthFields, Document, TagOf<Report>>()
    }
}

/// Where it is now.
#[derive(Drop)]
pub struct Place {
    pub name: String,
    pub more: BTreeMap<String, u64>,
}

// Its fields without the rest, and their names.
pub type PlaceFields = Slot<String, NoSlot>;

const PLACE_NAMES: &[&str] = &["name"];

impl Record for Place {
    ghost use Rattle.test_more.specs.declared.reports.TheConstants.{PLACE_NAMES};

    type Values = Parts<BTreeMap<String, u64>, <PlaceFields as Slots>::Values>;

    ghost names = { names_of PLACE_NAMES };

    ghost values = { λ v. (v.more, (v.name, tt)) };

    ghost made = { λ x. record { name = x.1.0; more = x.0 } };

    ghost bijective = { (λ v. refl, λ x. refl) };

    ghost distinct_names = { refl };

    fn names() -> &'static [&'static str] {
        PLACE_NAMES
    }

    fn build(parts: Self::Values) -> Place {
        let Parts(more, parts) = parts;
        let Parts(name, ()) = parts;
        Place { name, more }
    }
}

const PLACE_ALIASES: &[(&str, &str)] = &[("host", "name")];

impl HasAliases for Place {
    ghost use Rattle.test_more.specs.declared.reports.TheConstants.{PLACE_ALIASES};

    ghost aliases = { aliases_of PLACE_ALIASES };

    ghost apart = { refl };

    fn aliases() -> &'static [(&'static str, &'static str)] {
        PLACE_ALIASES
    }
}

impl FromJson for Place {
    ghost means = { struct_meaning ⟦<Aliased<Place, WithRest<Place, PlaceFields, u64, AliasesOf<Place, TagOf<Report>>>> as Slots>⟧.meaning ⟦<Place as Record>⟧.names ⟦<Place as Record>⟧.values };

    fn missing() -> Option<Place> {
        None
    }

    fn read<'a>(token: Event<'a>, source: &mut Source<'a>) -> Result<Place> {
        read_record::<
            Place,
            Aliased<Place, WithRest<Place, PlaceFields, u64, AliasesOf<Place, TagOf<Report>>>>,
        >(token, source)
    }
}

impl Serialize for Place {
    ghost tree = { rest_tree string_bytes ⟦<Place as Record>⟧.names (alias_names ⟦<Place as HasAliases>⟧.aliases ++ ⟦<Report as HasTag>⟧.tag ∷ []) ⟦<u64 as Serialize>⟧.tree (λ m.
        m.entries) ⟦<PlaceFields as WrittenFields>⟧.trees ⟦<Place as Record>⟧.values };

    fn begin(&self, w: &mut Writer) -> Result<()> {
        write_members_and_rest::<AliasesOf<Place, TagOf<Report>>, _, _>(
            w,
            PLACE_NAMES,
            &Parts(&self.name, ()),
            &self.more,
        )
    }
}

impl Ranged for Place {
    ghost valid = { λ v. ⟦<BTreeMap<String, u64> as Ranged>⟧.valid (⟦<Place as Record>⟧.values v).0
        × ⟦<PlaceFields as WrittenFields>⟧.valid (⟦<Place as Record>⟧.values v).1 };

    fn ranged(&self) {
        self.name.ranged();
        self.more.ranged();
    }
}

impl RoundTrip for Place {
    fn round_trips() {
        <PlaceFields as OpenFields>::open();
        aliased_rest_round_trips::<Place, PlaceFields, u64, TagOf<Report>>()
    }
}

impl Lossless for Place {
    fn lossless() {
        rest_lossless::<Place, PlaceFields, u64, AliasesOf<Place, TagOf<Report>>>()
    }
}

impl NeverNull for Place {
    fn never_null() {}
}

impl Inside for Place {
    ghost fields = { ⟦<Place as Record>⟧.names };

    ghost left_out = { is_among (alias_names ⟦<Place as HasAliases>⟧.aliases ++ ⟦<Report as HasTag>⟧.tag ∷ []) };

    fn read_inside<'a, E: HasTag>(token: Event<'a>, source: &mut Source<'a>) -> Result<Place> {
        read_record::<
            Place,
            BesideTag<
                E,
                Aliased<Place, WithRest<Place, PlaceFields, u64, AliasesOf<Place, TagOf<Report>>>>,
            >,
        >(token, source)
    }

    fn write_inside(&self, w: &mut Writer) -> Result<()> {
        write_inside_and_rest::<AliasesOf<Place, TagOf<Report>>, _, _>(
            w,
            PLACE_NAMES,
            &Parts(&self.name, ()),
            &self.more,
        )
    }

    fn is_object() {
        rest_named::<Place, PlaceFields, u64, AliasesOf<Place, TagOf<Report>>>()
    }
}

/// What is slow.
#[derive(Drop)]
pub struct Slow {
    pub path: String,
    pub more: BTreeMap<String, Document>,
}

// Its fields without the rest, and their names.
pub type SlowFields = Slot<String, NoSlot>;

const SLOW_NAMES: &[&str] = &["path"];

impl Record for Slow {
    ghost use Rattle.test_more.specs.declared.reports.TheConstants.{SLOW_NAMES};

    type Values = Parts<BTreeMap<String, Document>, <SlowFields as Slots>::Values>;

    ghost names = { names_of SLOW_NAMES };

    ghost values = { λ v. (v.more, (v.path, tt)) };

    ghost made = { λ x. record { path = x.1.0; more = x.0 } };

    ghost bijective = { (λ v. refl, λ x. refl) };

    ghost distinct_names = { refl };

    fn names() -> &'static [&'static str] {
        SLOW_NAMES
    }

    fn build(parts: Self::Values) -> Slow {
        let Parts(more, parts) = parts;
        let Parts(path, ()) = parts;
        Slow { path, more }
    }
}

const SLOW_ALIASES: &[(&str, &str)] = &[("url", "path")];

impl HasAliases for Slow {
    ghost use Rattle.test_more.specs.declared.reports.TheConstants.{SLOW_ALIASES};

    ghost aliases = { aliases_of SLOW_ALIASES };

    ghost apart = { refl };

    fn aliases() -> &'static [(&'static str, &'static str)] {
        SLOW_ALIASES
    }
}

impl FromJson for Slow {
    ghost means = { struct_meaning ⟦<Aliased<Slow, WithRest<Slow, SlowFields, Document, AliasesOf<Slow, TagOf<Report>>>> as Slots>⟧.meaning ⟦<Slow as Record>⟧.names ⟦<Slow as Record>⟧.values };

    fn missing() -> Option<Slow> {
        None
    }

    fn read<'a>(token: Event<'a>, source: &mut Source<'a>) -> Result<Slow> {
        read_record::<
            Slow,
            Aliased<Slow, WithRest<Slow, SlowFields, Document, AliasesOf<Slow, TagOf<Report>>>>,
        >(token, source)
    }
}

impl Serialize for Slow {
    ghost tree = { rest_tree string_bytes ⟦<Slow as Record>⟧.names (alias_names ⟦<Slow as HasAliases>⟧.aliases ++ ⟦<Report as HasTag>⟧.tag ∷ []) ⟦<Document as Serialize>⟧.tree (λ m.
        m.entries) ⟦<SlowFields as WrittenFields>⟧.trees ⟦<Slow as Record>⟧.values };

    fn begin(&self, w: &mut Writer) -> Result<()> {
        write_members_and_rest::<AliasesOf<Slow, TagOf<Report>>, _, _>(
            w,
            SLOW_NAMES,
            &Parts(&self.path, ()),
            &self.more,
        )
    }
}

impl Ranged for Slow {
    ghost valid = { λ v. ⟦<BTreeMap<String, Document> as Ranged>⟧.valid (⟦<Slow as Record>⟧.values
        v).0 × ⟦<SlowFields as WrittenFields>⟧.valid (⟦<Slow as Record>⟧.values v).1 };

    fn ranged(&self) {
        self.path.ranged();
        self.more.ranged();
    }
}

impl RoundTrip for Slow {
    fn round_trips() {
        <SlowFields as OpenFields>::open();
        aliased_rest_round_trips::<Slow, SlowFields, Document, TagOf<Report>>()
    }
}

impl Lossless for Slow {
    fn lossless() {
        rest_lossless::<Slow, SlowFields, Document, AliasesOf<Slow, TagOf<Report>>>()
    }
}

impl NeverNull for Slow {
    fn never_null() {}
}

impl Inside for Slow {
    ghost fields = { ⟦<Slow as Record>⟧.names };

    ghost left_out = { is_among (alias_names ⟦<Slow as HasAliases>⟧.aliases ++ ⟦<Report as HasTag>⟧.tag ∷ []) };

    fn read_inside<'a, E: HasTag>(token: Event<'a>, source: &mut Source<'a>) -> Result<Slow> {
        read_record::<
            Slow,
            BesideTag<
                E,
                Aliased<Slow, WithRest<Slow, SlowFields, Document, AliasesOf<Slow, TagOf<Report>>>>,
            >,
        >(token, source)
    }

    fn write_inside(&self, w: &mut Writer) -> Result<()> {
        write_inside_and_rest::<AliasesOf<Slow, TagOf<Report>>, _, _>(
            w,
            SLOW_NAMES,
            &Parts(&self.path, ()),
            &self.more,
        )
    }

    fn is_object() {
        rest_named::<Slow, SlowFields, Document, AliasesOf<Slow, TagOf<Report>>>()
    }
}

/// A page, and what else is asked of it.
#[derive(Drop)]
pub struct Page {
    pub path: String,
    pub more: BTreeMap<String, String>,
}

// Its fields without the rest, and their names.
pub type PageFields = Slot<String, NoSlot>;

const PAGE_NAMES: &[&str] = &["path"];

impl Record for Page {
    ghost use Rattle.test_more.specs.declared.reports.TheConstants.{PAGE_NAMES};

    type Values = Parts<BTreeMap<String, String>, <PageFields as Slots>::Values>;

    ghost names = { names_of PAGE_NAMES };

    ghost values = { λ v. (v.more, (v.path, tt)) };

    ghost made = { λ x. record { path = x.1.0; more = x.0 } };

    ghost bijective = { (λ v. refl, λ x. refl) };

    ghost distinct_names = { refl };

    fn names() -> &'static [&'static str] {
        PAGE_NAMES
    }

    fn build(parts: Self::Values) -> Page {
        let Parts(more, parts) = parts;
        let Parts(path, ()) = parts;
        Page { path, more }
    }
}

impl FromJson for Page {
    ghost means = { struct_meaning ⟦<WithRest<Page, PageFields, String> as Slots>⟧.meaning ⟦<Page as Record>⟧.names ⟦<Page as Record>⟧.values };

    fn missing() -> Option<Page> {
        None
    }

    fn read<'a>(token: Event<'a>, source: &mut Source<'a>) -> Result<Page> {
        read_record::<Page, WithRest<Page, PageFields, String>>(token, source)
    }
}

impl Serialize for Page {
    ghost tree = { rest_tree string_bytes ⟦<Page as Record>⟧.names [] ⟦<String as Serialize>⟧.tree
        (λ m. m.entries) ⟦<PageFields as WrittenFields>⟧.trees ⟦<Page as Record>⟧.values };

    fn begin(&self, w: &mut Writer) -> Result<()> {
        write_members_and_rest::<NoNames, _, _>(w, PAGE_NAMES, &Parts(&self.path, ()), &self.more)
    }
}

impl Ranged for Page {
    ghost valid = { λ v. ⟦<BTreeMap<String, String> as Ranged>⟧.valid (⟦<Page as Record>⟧.values
        v).0 × ⟦<PageFields as WrittenFields>⟧.valid (⟦<Page as Record>⟧.values v).1 };

    fn ranged(&self) {
        self.path.ranged();
        self.more.ranged();
    }
}

impl RoundTrip for Page {
    fn round_trips() {
        <PageFields as OpenFields>::open();
        rest_round_trips::<Page, PageFields, String, NoNames>()
    }
}

impl Lossless for Page {
    fn lossless() {
        rest_lossless::<Page, PageFields, String, NoNames>()
    }
}

impl NeverNull for Page {
    fn never_null() {}
}

impl Stable for Page {
    fn stable() {
        rest_stable::<Page, PageFields, String, NoNames>()
    }
}

/// What a server was asked, one member by the variant's name.
#[derive(Drop)]
pub enum Asked {
    Page(Page),
    Nothing,
}

// Its variants, and their names.
type AskedCases = DataCase<Page, UnitCase<NoCase>>;

const ASKED_NAMES: &[&str] = &["Page", "Nothing"];

impl DataEnum for Asked {
    ghost use Rattle.test_more.specs.declared.reports.TheConstants.{ASKED_NAMES};
    ghost use Rattle.test_more.specs.declared.reports.Asked.TheVariants.{Page, Nothing};

    type Values = <AskedCases as Cases>::Values;

    ghost names = { names_of ASKED_NAMES };

    ghost values = { elim [ Page x0 ↦ first_case x0 | Nothing ↦ later_case (first_case tt) ] };

    ghost made = { each_case _ (λ x. Page x) (each_case _ (λ x. Nothing) (any_of_never _)) };

    ghost bijective = { (
      elim [ Page x0 ↦ refl | Nothing ↦ refl ],
      each_case _ (λ x. refl)
          (each_case _ (λ x. refl) (any_of_never _)),
    ) };

    ghost distinct_names = { refl };

    fn names() -> &'static [&'static str] {
        ASKED_NAMES
    }

    fn build(value: Self::Values) -> Asked {
        match value {
            OneOf::First(a) => Asked::Page(a),
            OneOf::Later(value) => match value {
                OneOf::First(()) => Asked::Nothing,
                OneOf::Later(value) => match value {},
            },
        }
    }
}

impl FromJson for Asked {
    ghost means = { enum_meaning ⟦<AskedCases as Cases>⟧.meaning ⟦<Asked as DataEnum>⟧.names refl
        ⟦<Asked as DataEnum>⟧.values };

    fn missing() -> Option<Asked> {
        None
    }

    fn read<'a>(token: Event<'a>, source: &mut Source<'a>) -> Result<Asked> {
        read_enum::<Asked, AskedCases>(token, source)
    }
}

impl Serialize for Asked {
    ghost tree = { enum_tree ⟦<Asked as DataEnum>⟧.names ⟦<AskedCases as WrittenCases>⟧.tree ⟦<Asked as DataEnum>⟧.values };

    fn begin(&self, w: &mut Writer) -> Result<()> {
        match self {
            Asked::Page(a) => write_data(w, "Page", a),
            Asked::Nothing => w.fragment(Fragment::Str("Nothing")),
        }
    }
}

impl Ranged for Asked {
    ghost valid = { λ v. ⟦<AskedCases as WrittenCases>⟧.valid (⟦<Asked as DataEnum>⟧.values v) };

    fn ranged(&self) {
        match self {
            Asked::Page(a) => a.ranged(),
            Asked::Nothing => {},
        }
    }
}

impl RoundTrip for Asked {
    fn round_trips() {
        enum_round_trips::<Asked, AskedCases>()
    }
}

impl Lossless for Asked {
    fn lossless() {
        enum_lossless::<Asked, AskedCases>()
    }
}

impl NeverNull for Asked {
    fn never_null() {}
}

impl Stable for Asked {
    fn stable() {
        enum_stable::<Asked, AskedCases>()
    }
}
