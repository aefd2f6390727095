//! The types of `prelude.rs`, with the impls that `./derive` writes.
ghost use Rattle.miniserde.specs.Cases.{each_case, enum_tree, first_case, later_case, any_of_never};
ghost use Rattle.miniserde.specs.CasesMeaning.{enum_meaning};
ghost use Rattle.miniserde.specs.FieldsMeaning.{struct_meaning};
ghost use Rattle.miniserde.specs.KeyLaws.{u8_key_laws};
ghost use Rattle.miniserde.specs.Meanings.{box_meaning};
ghost use Rattle.miniserde.specs.Structs.{names_of, record_tree};
ghost use Rattle.miniserde.specs.Tree.{nonneg};
ghost use Rattle.std.specs.Prelude.{refl};

use miniserde::derived::{
    Cases, DataCase, DataEnum, Event, Fragment, FromJson, Given, Global, InjectiveKey, Lossless,
    MapKey, MarkedSlot, NeverNull, NoCase, NoSlot, OneOf, Parts, Ranged, Record, Result, RoundTrip,
    Serialize, Slot, Slots, Source, Stable, Transparent, UnitCase, WithDefault, Writer,
    WrittenCases, WrittenFields, enum_lossless, enum_round_trips, read_enum, read_record,
    record_lossless, record_round_trips, transparent_round_trips, write_data, write_members,
    write_members_in_order,
};

/// A choice.
#[derive(Drop)]
pub struct Option {
    pub some: String,
    pub count: u8,
}

/// The value of a missing `count`.
#[derive(Drop)]
pub struct OptionCountDefault {}

impl Given<u8> for OptionCountDefault {
    ghost given = { nonneg 3 };

    fn make(_alloc: Global) -> Result<u8> {
        std::result::Result::Ok(3)
    }
}

// Its fields, and their names.
type OptionFields = Slot<String, MarkedSlot<u8, WithDefault<OptionCountDefault>, NoSlot>>;

const OPTION_NAMES: &[&str] = &["some", "count"];

impl Record for Option {
    ghost use Rattle.test_forms.specs.declared.prelude.TheConstants.{OPTION_NAMES};

    type Values = <OptionFields as Slots>::Values;

    ghost names = { names_of OPTION_NAMES };

    ghost values = { λ v. (v.some, (v.count, tt)) };

    ghost made = { λ x. record { some = x.0; count = x.1.0 } };

    ghost bijective = { (λ v. refl, λ x. refl) };

    ghost distinct_names = { refl };

    fn names() -> &'static [&'static str] {
        OPTION_NAMES
    }

    fn build(parts: Self::Values) -> Option {
        let Parts(some, Parts(count, ())) = parts;
        Option { some, count }
    }
}

impl FromJson for Option {
    ghost means = { struct_meaning ⟦<OptionFields as Slots>⟧.meaning ⟦<Option as Record>⟧.names
        ⟦<Option as Record>⟧.values };

    fn missing() -> std::option::Option<Option> {
        None
    }

    fn read<'a>(token: Event<'a>, source: &mut Source<'a>) -> Result<Option> {
        read_record::<Option, OptionFields>(token, source)
    }
}

impl Serialize for Option {
    ghost tree = { record_tree ⟦<Option as Record>⟧.names ⟦<OptionFields as WrittenFields>⟧.trees
        ⟦<Option as Record>⟧.values };

    fn begin(&self, w: &mut Writer) -> Result<()> {
        write_members(w, OPTION_NAMES, &Parts(&self.some, Parts(&self.count, ())))
    }
}

impl Ranged for Option {
    ghost valid = { λ v. ⟦<OptionFields as WrittenFields>⟧.valid (⟦<Option as Record>⟧.values v) };

    fn ranged(&self) {
        self.some.ranged();
        self.count.ranged();
    }
}

impl RoundTrip for Option {
    fn round_trips() {
        record_round_trips::<Option, OptionFields>()
    }
}

impl Lossless for Option {
    fn lossless() {
        record_lossless::<Option, OptionFields>()
    }
}

impl NeverNull for Option {
    fn never_null() {}
}

/// A number.
#[derive(PartialEq, Eq, PartialOrd, Ord, Drop)]
pub struct Some(pub u8);

impl Transparent for Some {
    type Inner = u8;

    ghost inner = { λ v. v.0 };

    ghost wrapped = { λ x. record { 0 = x } };

    ghost unwraps = { λ x. refl };
}

impl FromJson for Some {
    ghost means = { box_meaning ⟦<u8 as FromJson>⟧.means (λ v. v.0) };

    ghost read_infallible = { ⟦<u8 as FromJson>⟧.read_infallible };

    ghost lacking = { ⟦<u8 as FromJson>⟧.lacking };

    fn missing() -> std::option::Option<Some> {
        None
    }

    fn read<'a>(token: Event<'a>, source: &mut Source<'a>) -> Result<Some> {
        std::result::Result::Ok(Some(<u8 as FromJson>::read(token, source)?))
    }
}

impl Serialize for Some {
    ghost tree = { λ v. ⟦<u8 as Serialize>⟧.tree v.0 };

    fn begin(&self, w: &mut Writer) -> Result<()> {
        self.0.begin(w)
    }
}

impl Ranged for Some {
    ghost valid = { λ v. ⟦<u8 as Ranged>⟧.valid v.0 };

    fn ranged(&self) {
        self.0.ranged()
    }
}

impl RoundTrip for Some {
    fn round_trips() {
        transparent_round_trips::<u8, Some>()
    }
}

impl Lossless for Some {
    fn lossless() {
        <u8 as Lossless>::lossless()
    }
}

impl NeverNull for Some {
    fn never_null() {
        <u8 as NeverNull>::never_null()
    }
}

impl Stable for Some {
    fn stable() {
        <u8 as Stable>::stable()
    }
}

impl MapKey for Some {
    ghost content = { λ v. ⟦<u8 as MapKey>⟧.content v.0 };

    ghost read = { ⟦<u8 as MapKey>⟧.read };

    ghost text = { λ v. ⟦<u8 as MapKey>⟧.text v.0 };

    ghost from_key_infallible = { ⟦<u8 as MapKey>⟧.from_key_infallible };

    ghost alike = { λ a b. u8_key_laws.alike a.0 b.0 };

    ghost back = { λ v r. (v, r, (u8_key_laws.back v.0 r), refl) };

    ghost one_text = { λ a b. u8_key_laws.one_text a.0 b.0 };

    fn from_key(alloc: Global, k: &str) -> Result<Some> {
        std::result::Result::Ok(Some(<u8 as MapKey>::from_key(alloc, k)?))
    }

    fn to_key(&self, out: &mut String) -> Result<()> {
        self.0.to_key(out)
    }
}

impl InjectiveKey for Some {
    ghost injective = { λ a b e. e };
}

/// A size.
#[derive(Drop)]
pub struct Box {
    pub width: u8,
    pub height: u8,
}

// Its fields, and their names.
type BoxFields = Slot<u8, Slot<u8, NoSlot>>;

const BOX_NAMES: &[&str] = &["width", "height"];

impl Record for Box {
    ghost use Rattle.test_forms.specs.declared.prelude.TheConstants.{BOX_NAMES};

    type Values = <BoxFields as Slots>::Values;

    ghost names = { names_of BOX_NAMES };

    ghost values = { λ v. (v.width, (v.height, tt)) };

    ghost made = { λ x. record { width = x.0; height = x.1.0 } };

    ghost bijective = { (λ v. refl, λ x. refl) };

    ghost distinct_names = { refl };

    fn names() -> &'static [&'static str] {
        BOX_NAMES
    }

    fn build(parts: Self::Values) -> Box {
        let Parts(width, Parts(height, ())) = parts;
        Box { width, height }
    }
}

impl FromJson for Box {
    ghost means = { struct_meaning ⟦<BoxFields as Slots>⟧.meaning ⟦<Box as Record>⟧.names ⟦<Box as Record>⟧.values };

    fn missing() -> std::option::Option<Box> {
        None
    }

    fn read<'a>(token: Event<'a>, source: &mut Source<'a>) -> Result<Box> {
        read_record::<Box, BoxFields>(token, source)
    }
}

impl Serialize for Box {
    ghost tree = { record_tree ⟦<Box as Record>⟧.names ⟦<BoxFields as WrittenFields>⟧.trees ⟦<Box as Record>⟧.values };

    fn begin(&self, w: &mut Writer) -> Result<()> {
        write_members(w, BOX_NAMES, &Parts(&self.width, Parts(&self.height, ())))
    }
}

impl Ranged for Box {
    ghost valid = { λ v. ⟦<BoxFields as WrittenFields>⟧.valid (⟦<Box as Record>⟧.values v) };

    fn ranged(&self) {
        self.width.ranged();
        self.height.ranged();
    }
}

impl RoundTrip for Box {
    fn round_trips() {
        record_round_trips::<Box, BoxFields>()
    }
}

impl Lossless for Box {
    fn lossless() {
        record_lossless::<Box, BoxFields>()
    }
}

impl NeverNull for Box {
    fn never_null() {}
}

/// What is there.
#[derive(Drop)]
pub enum Ok {
    None,
    Some(Some),
    Err(Vec),
}

// Its variants, and their names.
type OkCases = UnitCase<DataCase<Some, DataCase<Vec, NoCase>>>;

const OK_NAMES: &[&str] = &["None", "Some", "Err"];

impl DataEnum for Ok {
    ghost use Rattle.test_forms.specs.declared.prelude.TheConstants.{OK_NAMES};
    ghost use Rattle.test_forms.specs.declared.prelude.Ok.TheVariants.{None, Some, Err};

    type Values = <OkCases as Cases>::Values;

    ghost names = { names_of OK_NAMES };

    ghost values = { elim [
      | None ↦ first_case tt
      | Some x0 ↦ later_case (first_case x0)
      | Err x0 ↦
          later_case (later_case (first_case x0))
    ] };

    ghost made = { each_case _ (λ x. None) (each_case _ (λ x. Some x) (each_case _ (λ x. Err x)
        (any_of_never _))) };

    ghost bijective = { (
      elim [ None ↦ refl | Some x0 ↦ refl | Err x0 ↦ refl ],
      each_case _ (λ x.
          refl) (each_case _ (λ x. refl) (each_case _ (λ x. refl) (any_of_never _))),
    ) };

    ghost distinct_names = { refl };

    fn names() -> &'static [&'static str] {
        OK_NAMES
    }

    fn build(value: Self::Values) -> Ok {
        match value {
            OneOf::First(()) => Ok::None,
            OneOf::Later(value) => match value {
                OneOf::First(a) => Ok::Some(a),
                OneOf::Later(value) => match value {
                    OneOf::First(a) => Ok::Err(a),
                    OneOf::Later(value) => match value {},
                },
            },
        }
    }
}

impl FromJson for Ok {
    ghost means = { enum_meaning ⟦<OkCases as Cases>⟧.meaning ⟦<Ok as DataEnum>⟧.names refl ⟦<Ok as DataEnum>⟧.values };

    fn missing() -> std::option::Option<Ok> {
        None
    }

    fn read<'a>(token: Event<'a>, source: &mut Source<'a>) -> Result<Ok> {
        read_enum::<Ok, OkCases>(token, source)
    }
}

impl Serialize for Ok {
    ghost tree = { enum_tree ⟦<Ok as DataEnum>⟧.names ⟦<OkCases as WrittenCases>⟧.tree ⟦<Ok as DataEnum>⟧.values };

    fn begin(&self, w: &mut Writer) -> Result<()> {
        match self {
            Ok::None => w.fragment(Fragment::Str("None")),
            Ok::Some(a) => write_data(w, "Some", a),
            Ok::Err(a) => write_data(w, "Err", a),
        }
    }
}

impl Ranged for Ok {
    ghost valid = { λ v. ⟦<OkCases as WrittenCases>⟧.valid (⟦<Ok as DataEnum>⟧.values v) };

    fn ranged(&self) {
        match self {
            Ok::None => {}
            Ok::Some(a) => a.ranged(),
            Ok::Err(a) => a.ranged(),
        }
    }
}

impl RoundTrip for Ok {
    fn round_trips() {
        enum_round_trips::<Ok, OkCases>()
    }
}

impl Lossless for Ok {
    fn lossless() {
        enum_lossless::<Ok, OkCases>()
    }
}

impl NeverNull for Ok {
    fn never_null() {}
}

/// A direction.
#[derive(Drop)]
pub struct Vec {
    pub x: i8,
    pub y: i8,
}

// Its fields, and their names.
type VecFields = Slot<i8, Slot<i8, NoSlot>>;

const VEC_NAMES: &[&str] = &["x", "y"];

impl Record for Vec {
    ghost use Rattle.test_forms.specs.declared.prelude.TheConstants.{VEC_NAMES};

    type Values = <VecFields as Slots>::Values;

    ghost names = { names_of VEC_NAMES };

    ghost values = { λ v. (v.x, (v.y, tt)) };

    ghost made = { λ x. record { x = x.0; y = x.1.0 } };

    ghost bijective = { (λ v. refl, λ x. refl) };

    ghost distinct_names = { refl };

    fn names() -> &'static [&'static str] {
        VEC_NAMES
    }

    fn build(parts: Self::Values) -> Vec {
        let Parts(x, Parts(y, ())) = parts;
        Vec { x, y }
    }
}

impl FromJson for Vec {
    ghost means = { struct_meaning ⟦<VecFields as Slots>⟧.meaning ⟦<Vec as Record>⟧.names ⟦<Vec as Record>⟧.values };

    fn missing() -> std::option::Option<Vec> {
        None
    }

    fn read<'a>(token: Event<'a>, source: &mut Source<'a>) -> Result<Vec> {
        read_record::<Vec, VecFields>(token, source)
    }
}

impl Serialize for Vec {
    ghost tree = { record_tree ⟦<Vec as Record>⟧.names ⟦<VecFields as WrittenFields>⟧.trees ⟦<Vec as Record>⟧.values };

    fn begin(&self, w: &mut Writer) -> Result<()> {
        write_members_in_order(w, VEC_NAMES, &Parts(&self.x, Parts(&self.y, ())))
    }
}

impl Ranged for Vec {
    ghost valid = { λ v. ⟦<VecFields as WrittenFields>⟧.valid (⟦<Vec as Record>⟧.values v) };

    fn ranged(&self) {
        self.x.ranged();
        self.y.ranged();
    }
}

impl RoundTrip for Vec {
    fn round_trips() {
        record_round_trips::<Vec, VecFields>()
    }
}

impl Lossless for Vec {
    fn lossless() {
        record_lossless::<Vec, VecFields>()
    }
}

impl NeverNull for Vec {
    fn never_null() {}
}
