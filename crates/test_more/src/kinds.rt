//! The types of `kinds.rs`, with the impls that `./derive` writes.
ghost use Rattle.miniserde.specs.Cases.{each_case, enum_tree, first_case, later_case, any_of_never, tagged_tree};
ghost use Rattle.miniserde.specs.CasesMeaning.{enum_meaning, tagged_meaning};
ghost use Rattle.miniserde.specs.FieldsMeaning.{struct_meaning};
ghost use Rattle.miniserde.specs.Meanings.{box_meaning};
ghost use Rattle.miniserde.specs.Structs.{names_of, record_tree};
ghost use Rattle.miniserde.specs.Tree.{str};
ghost use Rattle.miniserde_more.specs.Untagged.{untagged_tree};
ghost use Rattle.miniserde_more.specs.UntaggedMeaning.{untagged_meaning};
ghost use Rattle.miniserde_more.specs.laws.Kinds.{by_tree};
ghost use Rattle.std.specs.Prelude.{true, List, codes, [], ◌∷◌, ⊤, option_map, refl};

use miniserde::derived::{
    BesideTag, Cases, DataCase, DataEnum, Event, Fragment, FromJson, HasTag, Inside, InsideCases,
    Lossless, Members, NoCase, NoFields, NoSlot, OneOf, Parts, Ranged, Record, Result, RoundTrip,
    Serialize, Slot, Slots, Source, Stable, Transparent, UnitCase, UnitEnum, Variants, Writer,
    WrittenCases, WrittenFields, enum_round_trips, fields_named, read_enum, read_record,
    read_tagged, read_variant, record_round_trips, tag_fits, tagged_round_trips,
    transparent_round_trips, variant_round_trips, write_data, write_members_in_order,
    write_tagged_fields,
};
use miniserde_more::untagged::{
    BooleanKind, EitherKind, HasKinds, NullKind, NumberKind, ObjectKind, StringKind, UntaggedCases,
    UntaggedEnum, WrittenUntagged, read_untagged, untagged_lossless, untagged_round_trips,
    untagged_stable,
};

/// A level.
#[derive(Clone, Copy, PartialEq, Eq, Debug, Drop)]
pub enum Level {
    Low,
    High,
}

impl UnitEnum for Level {
    ghost use Rattle.test_more.specs.declared.kinds.Level.TheVariants.{Low, High};

    ghost all = { Low ∷ High ∷ [] };

    ghost name_of = { elim [ Low ↦ codes "Low" | High ↦ codes "High" ] };

    ghost found = { elim [ Low ↦ refl | High ↦ refl ] };

    fn values() -> &'static [Level] {
        &[Level::Low, Level::High]
    }

    fn name(&self) -> &'static str {
        match self {
            Level::Low => "Low",
            Level::High => "High",
        }
    }
}

impl FromJson for Level {
    ghost means = { ⟦<Level as Variants>⟧.meaning };

    ghost read_infallible = { true };

    fn missing() -> Option<Level> {
        None
    }

    fn read<'a>(token: Event<'a>, source: &mut Source<'a>) -> Result<Level> {
        read_variant(token, source)
    }
}

impl Serialize for Level {
    ghost tree = { λ v. str (⟦<Level as UnitEnum>⟧.name_of v) };

    fn begin(&self, w: &mut Writer) -> Result<()> {
        w.fragment(Fragment::Str(self.name()))
    }
}

impl Ranged for Level {
    ghost valid = { λ _. ⊤ };

    fn ranged(&self) {}
}

impl RoundTrip for Level {
    fn round_trips() {
        variant_round_trips::<Level>()
    }
}

impl HasKinds for Level {
    type Kinds = StringKind;

    ghost only = { by_tree _ _ refl (λ _. refl) (λ _. refl) (λ _. refl) (λ _. refl) (λ _. tt) (λ _. refl) (λ _. refl) };
}

/// What is done.
#[derive(Drop)]
pub enum Action {
    Stop,
    Go(u8),
}

// Its variants, and their names.
type ActionCases = UnitCase<DataCase<u8, NoCase>>;

const ACTION_NAMES: &[&str] = &["Stop", "Go"];

impl DataEnum for Action {
    ghost use Rattle.test_more.specs.declared.kinds.TheConstants.{ACTION_NAMES};
    ghost use Rattle.test_more.specs.declared.kinds.Action.TheVariants.{Stop, Go};

    type Values = <ActionCases as Cases>::Values;

    ghost names = { names_of ACTION_NAMES };

    ghost values = { elim [ Stop ↦ first_case tt | Go x0 ↦ later_case (first_case x0) ] };

    ghost made = { each_case _ (λ x. Stop) (each_case _ (λ x. Go x) (any_of_never _)) };

    ghost bijective = { (
      elim [ Stop ↦ refl | Go x0 ↦ refl ],
      each_case _ (λ x. refl) (each_case _
          (λ x. refl) (any_of_never _)),
    ) };

    ghost distinct_names = { refl };

    fn names() -> &'static [&'static str] {
        ACTION_NAMES
    }

    fn build(value: Self::Values) -> Action {
        match value {
            OneOf::First(()) => Action::Stop,
            OneOf::Later(value) => match value {
                OneOf::First(a) => Action::Go(a),
                OneOf::Later(value) => match value {},
            },
        }
    }
}

impl FromJson for Action {
    ghost means = { enum_meaning ⟦<ActionCases as Cases>⟧.meaning ⟦<Action as DataEnum>⟧.names refl
        ⟦<Action as DataEnum>⟧.values };

    fn missing() -> Option<Action> {
        None
    }

    fn read<'a>(token: Event<'a>, source: &mut Source<'a>) -> Result<Action> {
        read_enum::<Action, ActionCases>(token, source)
    }
}

impl Serialize for Action {
    ghost tree = { enum_tree ⟦<Action as DataEnum>⟧.names ⟦<ActionCases as WrittenCases>⟧.tree
        ⟦<Action as DataEnum>⟧.values };

    fn begin(&self, w: &mut Writer) -> Result<()> {
        match self {
            Action::Stop => w.fragment(Fragment::Str("Stop")),
            Action::Go(a) => write_data(w, "Go", a),
        }
    }
}

impl Ranged for Action {
    ghost valid = { λ v. ⟦<ActionCases as WrittenCases>⟧.valid (⟦<Action as DataEnum>⟧.values v) };

    fn ranged(&self) {
        match self {
            Action::Stop => {}
            Action::Go(a) => a.ranged(),
        }
    }
}

impl RoundTrip for Action {
    fn round_trips() {
        enum_round_trips::<Action, ActionCases>()
    }
}

impl HasKinds for Action {
    type Kinds = EitherKind<StringKind, ObjectKind>;

    ghost only = { by_tree _ _ refl (λ _. refl) (λ _. refl) (λ _. refl) (λ _. refl) (λ _. tt) (λ _. refl) (λ _. tt) };
}

/// The fields of `Change::Added`.
#[derive(Drop)]
pub struct ChangeAdded {
    pub id: u8,
}

// Its fields, and their names.
type ChangeAddedFields = Slot<u8, NoSlot>;

const CHANGE_ADDED_NAMES: &[&str] = &["id"];

impl Record for ChangeAdded {
    ghost use Rattle.test_more.specs.declared.kinds.TheConstants.{CHANGE_ADDED_NAMES};

    type Values = <ChangeAddedFields as Slots>::Values;

    ghost names = { names_of CHANGE_ADDED_NAMES };

    ghost values = { λ v. (v.id, tt) };

    ghost made = { λ x. record { id = x.0 } };

    ghost bijective = { (λ v. refl, λ x. refl) };

    ghost distinct_names = { refl };

    fn names() -> &'static [&'static str] {
        CHANGE_ADDED_NAMES
    }

    fn build(parts: Self::Values) -> ChangeAdded {
        let Parts(id, ()) = parts;
        ChangeAdded { id }
    }
}

impl FromJson for ChangeAdded {
    ghost means = { struct_meaning ⟦<ChangeAddedFields as Slots>⟧.meaning ⟦<ChangeAdded as Record>⟧.names ⟦<ChangeAdded as Record>⟧.values };

    fn missing() -> Option<ChangeAdded> {
        None
    }

    fn read<'a>(token: Event<'a>, source: &mut Source<'a>) -> Result<ChangeAdded> {
        read_record::<ChangeAdded, ChangeAddedFields>(token, source)
    }
}

impl Serialize for ChangeAdded {
    ghost tree = { record_tree ⟦<ChangeAdded as Record>⟧.names ⟦<ChangeAddedFields as WrittenFields>⟧.trees ⟦<ChangeAdded as Record>⟧.values };

    fn begin(&self, w: &mut Writer) -> Result<()> {
        write_members_in_order(w, CHANGE_ADDED_NAMES, &Parts(&self.id, ()))
    }
}

impl Ranged for ChangeAdded {
    ghost valid = { λ v. ⟦<ChangeAddedFields as WrittenFields>⟧.valid (⟦<ChangeAdded as Record>⟧.values v) };

    fn ranged(&self) {
        self.id.ranged();
    }
}

impl RoundTrip for ChangeAdded {
    fn round_trips() {
        record_round_trips::<ChangeAdded, ChangeAddedFields>()
    }
}

impl Inside for ChangeAdded {
    ghost fields = { ⟦<ChangeAdded as Record>⟧.names };

    fn read_inside<'a, E: HasTag>(
        token: Event<'a>,
        source: &mut Source<'a>,
    ) -> Result<ChangeAdded> {
        read_record::<ChangeAdded, BesideTag<E, ChangeAddedFields>>(token, source)
    }

    fn write_inside(&self, w: &mut Writer) -> Result<()> {
        Members::write(&Parts(&self.id, ()), w, CHANGE_ADDED_NAMES)
    }

    fn is_object() {
        fields_named()
    }
}

/// What has changed.
#[derive(Drop)]
pub enum Change {
    Added { id: u8 },
    Cleared,
}

// Its variants, and their names.
type ChangeCases = DataCase<ChangeAdded, DataCase<NoFields, NoCase>>;

const CHANGE_NAMES: &[&str] = &["Added", "Cleared"];

impl DataEnum for Change {
    ghost use Rattle.test_more.specs.declared.kinds.TheConstants.{CHANGE_NAMES};
    ghost use Rattle.test_more.specs.declared.kinds.Change.TheVariants.{Added, Cleared};

    type Values = <ChangeCases as InsideCases>::Values;

    ghost names = { names_of CHANGE_NAMES };

    ghost values = { elim [
      | Added x0 ↦ first_case (record { id = x0 })
      | Cleared ↦ later_case
          (first_case (record {}))
    ] };

    ghost made = { each_case _ (λ x. Added x.id) (each_case _ (λ x. Cleared) (any_of_never _)) };

    ghost bijective = { (
      elim [ Added x0 ↦ refl | Cleared ↦ refl ],
      each_case _ (λ x. refl)
          (each_case _ (λ x. refl) (any_of_never _)),
    ) };

    ghost distinct_names = { refl };

    fn names() -> &'static [&'static str] {
        CHANGE_NAMES
    }

    fn build(value: Self::Values) -> Change {
        match value {
            OneOf::First(ChangeAdded { id }) => Change::Added { id },
            OneOf::Later(value) => match value {
                OneOf::First(NoFields {}) => Change::Cleared,
                OneOf::Later(value) => match value {},
            },
        }
    }
}

const CHANGE_TAG: &[&str] = &["kind"];

impl HasTag for Change {
    ghost use Rattle.test_more.specs.declared.kinds.TheConstants.{CHANGE_TAG};

    ghost tag = { codes "kind" };

    fn tag() -> &'static [&'static str] {
        CHANGE_TAG
    }
}

impl FromJson for Change {
    ghost means = { tagged_meaning ⟦<ChangeCases as InsideCases>⟧.meaning ⟦<Change as HasTag>⟧.tag
        ⟦<Change as DataEnum>⟧.names refl ⟦<Change as DataEnum>⟧.values };

    fn missing() -> Option<Change> {
        None
    }

    fn read<'a>(token: Event<'a>, source: &mut Source<'a>) -> Result<Change> {
        read_tagged::<Change, ChangeCases>(token, source)
    }
}

impl Serialize for Change {
    ghost tree = { tagged_tree ⟦<Change as HasTag>⟧.tag ⟦<Change as DataEnum>⟧.names ⟦<ChangeCases as WrittenCases>⟧.tree ⟦<Change as DataEnum>⟧.values };

    fn begin(&self, w: &mut Writer) -> Result<()> {
        match self {
            Change::Added { id } => {
                write_tagged_fields(w, "kind", "Added", CHANGE_ADDED_NAMES, &Parts(id, ()))
            },
            Change::Cleared => { write_tagged_fields(w, "kind", "Cleared", &[], &()) },
        }
    }
}

impl Ranged for Change {
    ghost valid = { λ v. ⟦<ChangeCases as WrittenCases>⟧.valid (⟦<Change as DataEnum>⟧.values v) };

    fn ranged(&self) {
        match self {
            Change::Added { id } => {
                id.ranged();
            },
            Change::Cleared => {},
        }
    }
}

impl RoundTrip for Change {
    fn round_trips() {
        tag_fits::<Change, ChangeCases>();
        tagged_round_trips::<Change, ChangeCases>()
    }
}

impl HasKinds for Change {
    type Kinds = ObjectKind;

    ghost only = { by_tree _ _ refl (λ _. refl) (λ _. refl) (λ _. refl) (λ _. refl) (λ _. refl) (λ _. refl) (λ _. tt) };
}

/// A holder of something.
#[derive(Drop)]
pub struct Holder<T> {
    pub inside: T,
}

// Its fields, and their names.
type HolderFields<T> = Slot<T, NoSlot>;

const HOLDER_NAMES: &[&str] = &["inside"];

impl<T: FromJson> Record for Holder<T> {
    ghost use Rattle.test_more.specs.declared.kinds.TheConstants.{HOLDER_NAMES};

    type Values = <HolderFields<T> as Slots>::Values;

    ghost names = { names_of HOLDER_NAMES };

    ghost values = { λ v. (v.inside, tt) };

    ghost made = { λ x. record { inside = x.0 } };

    ghost bijective = { (λ v. refl, λ x. refl) };

    ghost distinct_names = { refl };

    fn names() -> &'static [&'static str] {
        HOLDER_NAMES
    }

    fn build(parts: Self::Values) -> Holder<T> {
        let Parts(inside, ()) = parts;
        Holder { inside }
    }
}

impl<T: FromJson> FromJson for Holder<T> {
    ghost means = { struct_meaning ⟦<HolderFields<T> as Slots>⟧.meaning ⟦<Holder<T> as Record>⟧.names ⟦<Holder<T> as Record>⟧.values };

    fn missing() -> Option<Holder<T>> {
        None
    }

    fn read<'a>(token: Event<'a>, source: &mut Source<'a>) -> Result<Holder<T>> {
        read_record::<Holder<T>, HolderFields<T>>(token, source)
    }
}

impl<T: FromJson + Ranged + Serialize> Serialize for Holder<T> {
    ghost tree = { record_tree ⟦<Holder<T> as Record>⟧.names ⟦<HolderFields<T> as WrittenFields>⟧.trees ⟦<Holder<T> as Record>⟧.values };

    fn begin(&self, w: &mut Writer) -> Result<()> {
        write_members_in_order(w, HOLDER_NAMES, &Parts(&self.inside, ()))
    }
}

impl<T: FromJson + Ranged + Serialize> Ranged for Holder<T> {
    ghost valid = { λ v. ⟦<HolderFields<T> as WrittenFields>⟧.valid (⟦<Holder<T> as Record>⟧.values
        v) };

    fn ranged(&self) {
        self.inside.ranged();
    }
}

impl<T: RoundTrip> RoundTrip for Holder<T> {
    fn round_trips() {
        record_round_trips::<Holder<T>, HolderFields<T>>()
    }
}

impl<T: FromJson> HasKinds for Holder<T> {
    type Kinds = ObjectKind;

    ghost only = { by_tree _ _ refl (λ _. refl) (λ _. refl) (λ _. refl) (λ _. refl) (λ _. refl) (λ _. refl) (λ _. tt) };
}

/// A name for something.
#[derive(Drop)]
pub struct Named<T>(T);

impl<T> Transparent for Named<T> {
    type Inner = T;

    ghost inner = { λ v. v.0 };

    ghost wrapped = { λ x. record { 0 = x } };

    ghost unwraps = { λ x. refl };
}

impl<T: FromJson> FromJson for Named<T> {
    ghost means = { box_meaning T.means (λ v. v.0) };

    ghost absent = { option_map (λ v. record { 0 = v }) T.absent };

    ghost read_infallible = { T.read_infallible };

    ghost lacking = { T.lacking };

    fn missing() -> Option<Named<T>> {
        Some(Named(<T as FromJson>::missing()?))
    }

    fn read<'a>(token: Event<'a>, source: &mut Source<'a>) -> Result<Named<T>> {
        Ok(Named(<T as FromJson>::read(token, source)?))
    }
}

impl<T: Serialize> Serialize for Named<T> {
    ghost tree = { λ v. T.tree v.0 };

    fn begin(&self, w: &mut Writer) -> Result<()> {
        self.0.begin(w)
    }
}

impl<T: Ranged> Ranged for Named<T> {
    ghost valid = { λ v. T.valid v.0 };

    fn ranged(&self) {
        self.0.ranged()
    }
}

impl<T: RoundTrip> RoundTrip for Named<T> {
    fn round_trips() {
        transparent_round_trips::<T, Named<T>>()
    }
}

impl<T: HasKinds> HasKinds for Named<T> {
    type Kinds = T::Kinds;

    ghost only = { T.only };
}

/// A switch.
#[derive(Drop)]
pub struct Switch(bool);

impl Transparent for Switch {
    type Inner = bool;

    ghost inner = { λ v. v.0 };

    ghost wrapped = { λ x. record { 0 = x } };

    ghost unwraps = { λ x. refl };
}

impl FromJson for Switch {
    ghost means = { box_meaning ⟦<bool as FromJson>⟧.means (λ v. v.0) };

    ghost read_infallible = { ⟦<bool as FromJson>⟧.read_infallible };

    ghost lacking = { ⟦<bool as FromJson>⟧.lacking };

    fn missing() -> Option<Switch> {
        None
    }

    fn read<'a>(token: Event<'a>, source: &mut Source<'a>) -> Result<Switch> {
        Ok(Switch(<bool as FromJson>::read(token, source)?))
    }
}

impl Serialize for Switch {
    ghost tree = { λ v. ⟦<bool as Serialize>⟧.tree v.0 };

    fn begin(&self, w: &mut Writer) -> Result<()> {
        self.0.begin(w)
    }
}

impl Ranged for Switch {
    ghost valid = { λ v. ⟦<bool as Ranged>⟧.valid v.0 };

    fn ranged(&self) {
        self.0.ranged()
    }
}

impl RoundTrip for Switch {
    fn round_trips() {
        transparent_round_trips::<bool, Switch>()
    }
}

impl HasKinds for Switch {
    type Kinds = BooleanKind;

    ghost only = { by_tree _ _ refl (λ _. tt) (λ _. refl) (λ _. refl) (λ _. refl) (λ _. refl) (λ _. refl) (λ _. refl) };
}

/// What is set.
#[derive(Drop)]
pub enum Setting {
    Level(Level),
    On(Switch),
    Number(Named<u16>),
    Change(Change),
    Unset,
}

// Its variants.
type SettingCases = DataCase<
    Level,
    DataCase<Switch, DataCase<Named<u16>, DataCase<Change, DataCase<(), NoCase>>>>,
>;

impl UntaggedEnum for Setting {
    ghost use Rattle.test_more.specs.declared.kinds.Setting.TheVariants.{Level, On, Number, Change, Unset};

    type Values = <SettingCases as UntaggedCases>::Values;

    ghost values = { elim [
      | Level x0 ↦ first_case x0
      | On x0 ↦ later_case (first_case x0)
      | Number
          x0 ↦ later_case (later_case (first_case x0))
      | Change x0 ↦ later_case (later_case
          (later_case (first_case x0)))
      | Unset ↦ later_case (later_case (later_case (later_case
          (first_case tt))))
    ] };

    ghost made = { each_case _ (λ x. Level x) (each_case _ (λ x. On x) (each_case _ (λ x. Number x)
        (each_case _ (λ x. Change x) (each_case _ (λ x. Unset) (any_of_never _))))) };

    ghost bijective = { (
      elim [
        | Level x0 ↦ refl
        | On x0 ↦ refl
        | Number x0 ↦ refl
        | Change x0 ↦ refl
        | Unset ↦ refl
      ],
      each_case _ (λ x. refl) (each_case _ (λ x. refl) (each_case _ (λ x. refl)
          (each_case _ (λ x. refl) (each_case _ (λ x. refl) (any_of_never _))))),
    ) };

    fn build(value: Self::Values) -> Setting {
        match value {
            OneOf::First(a) => Setting::Level(a),
            OneOf::Later(value) => match value {
                OneOf::First(a) => Setting::On(a),
                OneOf::Later(value) => match value {
                    OneOf::First(a) => Setting::Number(a),
                    OneOf::Later(value) => match value {
                        OneOf::First(a) => Setting::Change(a),
                        OneOf::Later(value) => match value {
                            OneOf::First(()) => Setting::Unset,
                            OneOf::Later(value) => match value {},
                        },
                    },
                },
            },
        }
    }
}

impl FromJson for Setting {
    ghost means = { untagged_meaning ⟦<SettingCases as UntaggedCases>⟧.meaning ⟦<Setting as UntaggedEnum>⟧.values };

    fn missing() -> Option<Setting> {
        None
    }

    fn read<'a>(token: Event<'a>, source: &mut Source<'a>) -> Result<Setting> {
        read_untagged::<Setting, SettingCases>(token, source)
    }
}

impl Serialize for Setting {
    ghost tree = { untagged_tree ⟦<SettingCases as WrittenUntagged>⟧.tree ⟦<Setting as UntaggedEnum>⟧.values };

    fn begin(&self, w: &mut Writer) -> Result<()> {
        match self {
            Setting::Level(a) => a.begin(w),
            Setting::On(a) => a.begin(w),
            Setting::Number(a) => a.begin(w),
            Setting::Change(a) => a.begin(w),
            Setting::Unset => w.fragment(Fragment::Null),
        }
    }
}

impl Ranged for Setting {
    ghost valid = { λ v. ⟦<SettingCases as WrittenUntagged>⟧.valid (⟦<Setting as UntaggedEnum>⟧.values v) };

    fn ranged(&self) {
        match self {
            Setting::Level(a) => a.ranged(),
            Setting::On(a) => a.ranged(),
            Setting::Number(a) => a.ranged(),
            Setting::Change(a) => a.ranged(),
            Setting::Unset => {},
        }
    }
}

impl RoundTrip for Setting {
    fn round_trips() {
        untagged_round_trips::<Setting, SettingCases>()
    }
}

/// A list of what is set, or what is done.
#[derive(Drop)]
pub enum Work {
    Action(Action),
    Many(Vec<Setting>),
    Nested(Option<Named<u8>>),
}

// Its variants.
type WorkCases = DataCase<Action, DataCase<Vec<Setting>, DataCase<Option<Named<u8>>, NoCase>>>;

impl UntaggedEnum for Work {
    ghost use Rattle.test_more.specs.declared.kinds.Work.TheVariants.{Action, Many, Nested};

    type Values = <WorkCases as UntaggedCases>::Values;

    ghost values = { elim [
      | Action x0 ↦ first_case x0
      | Many x0 ↦ later_case (first_case x0)
      | Nested x0 ↦ later_case (later_case (first_case x0))
    ] };

    ghost made = { each_case _ (λ x. Action x) (each_case _ (λ x. Many x) (each_case _ (λ x. Nested
        x) (any_of_never _))) };

    ghost bijective = { (
      elim [ Action x0 ↦ refl | Many x0 ↦ refl | Nested x0 ↦ refl ],
      each_case _
          (λ x. refl) (each_case _ (λ x. refl) (each_case _ (λ x. refl) (any_of_never _))),
    ) };

    fn build(value: Self::Values) -> Work {
        match value {
            OneOf::First(a) => Work::Action(a),
            OneOf::Later(value) => match value {
                OneOf::First(a) => Work::Many(a),
                OneOf::Later(value) => match value {
                    OneOf::First(a) => Work::Nested(a),
                    OneOf::Later(value) => match value {},
                },
            },
        }
    }
}

impl FromJson for Work {
    ghost means = { untagged_meaning ⟦<WorkCases as UntaggedCases>⟧.meaning ⟦<Work as UntaggedEnum>⟧.values };

    fn missing() -> Option<Work> {
        None
    }

    fn read<'a>(token: Event<'a>, source: &mut Source<'a>) -> Result<Work> {
        read_untagged::<Work, WorkCases>(token, source)
    }
}

impl Serialize for Work {
    ghost tree = { untagged_tree ⟦<WorkCases as WrittenUntagged>⟧.tree ⟦<Work as UntaggedEnum>⟧.values };

    fn begin(&self, w: &mut Writer) -> Result<()> {
        match self {
            Work::Action(a) => a.begin(w),
            Work::Many(a) => a.begin(w),
            Work::Nested(a) => a.begin(w),
        }
    }
}

impl Ranged for Work {
    ghost valid = { λ v. ⟦<WorkCases as WrittenUntagged>⟧.valid (⟦<Work as UntaggedEnum>⟧.values v) };

    fn ranged(&self) {
        match self {
            Work::Action(a) => a.ranged(),
            Work::Many(a) => a.ranged(),
            Work::Nested(a) => a.ranged(),
        }
    }
}

impl RoundTrip for Work {
    fn round_trips() {
        untagged_round_trips::<Work, WorkCases>()
    }
}

/// A number, or none.
#[derive(Drop)]
pub enum Count {
    Of(u8),
    Unset,
}

// Its variants.
type CountCases = DataCase<u8, DataCase<(), NoCase>>;

impl UntaggedEnum for Count {
    ghost use Rattle.test_more.specs.declared.kinds.Count.TheVariants.{Of, Unset};

    type Values = <CountCases as UntaggedCases>::Values;

    ghost values = { elim [ Of x0 ↦ first_case x0 | Unset ↦ later_case (first_case tt) ] };

    ghost made = { each_case _ (λ x. Of x) (each_case _ (λ x. Unset) (any_of_never _)) };

    ghost bijective = { (
      elim [ Of x0 ↦ refl | Unset ↦ refl ],
      each_case _ (λ x. refl) (each_case _
          (λ x. refl) (any_of_never _)),
    ) };

    fn build(value: Self::Values) -> Count {
        match value {
            OneOf::First(a) => Count::Of(a),
            OneOf::Later(value) => match value {
                OneOf::First(()) => Count::Unset,
                OneOf::Later(value) => match value {},
            },
        }
    }
}

impl FromJson for Count {
    ghost means = { untagged_meaning ⟦<CountCases as UntaggedCases>⟧.meaning ⟦<Count as UntaggedEnum>⟧.values };

    fn missing() -> Option<Count> {
        None
    }

    fn read<'a>(token: Event<'a>, source: &mut Source<'a>) -> Result<Count> {
        read_untagged::<Count, CountCases>(token, source)
    }
}

impl Serialize for Count {
    ghost tree = { untagged_tree ⟦<CountCases as WrittenUntagged>⟧.tree ⟦<Count as UntaggedEnum>⟧.values };

    fn begin(&self, w: &mut Writer) -> Result<()> {
        match self {
            Count::Of(a) => a.begin(w),
            Count::Unset => w.fragment(Fragment::Null),
        }
    }
}

impl Ranged for Count {
    ghost valid = { λ v. ⟦<CountCases as WrittenUntagged>⟧.valid (⟦<Count as UntaggedEnum>⟧.values
        v) };

    fn ranged(&self) {
        match self {
            Count::Of(a) => a.ranged(),
            Count::Unset => {},
        }
    }
}

impl RoundTrip for Count {
    fn round_trips() {
        untagged_round_trips::<Count, CountCases>()
    }
}

impl Lossless for Count {
    fn lossless() {
        untagged_lossless::<Count, CountCases>()
    }
}

impl Stable for Count {
    fn stable() {
        untagged_stable::<Count, CountCases>()
    }
}

impl HasKinds for Count {
    type Kinds = EitherKind<NullKind, NumberKind>;

    ghost only = { by_tree _ _ tt (λ _. refl) (λ _. tt) (λ _. tt) (λ _. tt) (λ _. refl) (λ _. refl) (λ _. refl) };
}

/// A count, its text, or a list of counts.
#[derive(Drop)]
pub enum Counts {
    One(Count),
    Text(String),
    All(Vec<Count>),
}

// Its variants.
type CountsCases = DataCase<Count, DataCase<String, DataCase<Vec<Count>, NoCase>>>;

impl UntaggedEnum for Counts {
    ghost use Rattle.test_more.specs.declared.kinds.Counts.TheVariants.{One, Text, All};

    type Values = <CountsCases as UntaggedCases>::Values;

    ghost values = { elim [
      | One x0 ↦ first_case x0
      | Text x0 ↦ later_case (first_case x0)
      | All x0 ↦
          later_case (later_case (first_case x0))
    ] };

    ghost made = { each_case _ (λ x. One x) (each_case _ (λ x. Text x) (each_case _ (λ x. All x)
        (any_of_never _))) };

    ghost bijective = { (
      elim [ One x0 ↦ refl | Text x0 ↦ refl | All x0 ↦ refl ],
      each_case _ (λ x.
          refl) (each_case _ (λ x. refl) (each_case _ (λ x. refl) (any_of_never _))),
    ) };

    fn build(value: Self::Values) -> Counts {
        match value {
            OneOf::First(a) => Counts::One(a),
            OneOf::Later(value) => match value {
                OneOf::First(a) => Counts::Text(a),
                OneOf::Later(value) => match value {
                    OneOf::First(a) => Counts::All(a),
                    OneOf::Later(value) => match value {},
                },
            },
        }
    }
}

impl FromJson for Counts {
    ghost means = { untagged_meaning ⟦<CountsCases as UntaggedCases>⟧.meaning ⟦<Counts as UntaggedEnum>⟧.values };

    fn missing() -> Option<Counts> {
        None
    }

    fn read<'a>(token: Event<'a>, source: &mut Source<'a>) -> Result<Counts> {
        read_untagged::<Counts, CountsCases>(token, source)
    }
}

impl Serialize for Counts {
    ghost tree = { untagged_tree ⟦<CountsCases as WrittenUntagged>⟧.tree ⟦<Counts as UntaggedEnum>⟧.values };

    fn begin(&self, w: &mut Writer) -> Result<()> {
        match self {
            Counts::One(a) => a.begin(w),
            Counts::Text(a) => a.begin(w),
            Counts::All(a) => a.begin(w),
        }
    }
}

impl Ranged for Counts {
    ghost valid = { λ v. ⟦<CountsCases as WrittenUntagged>⟧.valid (⟦<Counts as UntaggedEnum>⟧.values
        v) };

    fn ranged(&self) {
        match self {
            Counts::One(a) => a.ranged(),
            Counts::Text(a) => a.ranged(),
            Counts::All(a) => a.ranged(),
        }
    }
}

impl RoundTrip for Counts {
    fn round_trips() {
        untagged_round_trips::<Counts, CountsCases>()
    }
}

impl Lossless for Counts {
    fn lossless() {
        untagged_lossless::<Counts, CountsCases>()
    }
}

impl Stable for Counts {
    fn stable() {
        untagged_stable::<Counts, CountsCases>()
    }
}
