//! The types of `task.rs`, with the impls that `./derive` writes.
ghost use Rattle.miniserde_core.specs.Cases.{each_case, first_case, later_case, any_of_never, tagged_tree};
ghost use Rattle.miniserde_core.specs.CasesMeaning.{tagged_meaning};
ghost use Rattle.miniserde_core.specs.FieldsMeaning.{struct_meaning};
ghost use Rattle.miniserde_core.specs.Structs.{names_of, record_tree};
ghost use Rattle.std.specs.Prelude.{codes, refl};

use miniserde_core::derived::{
    BesideTag, DataCase, DataEnum, Empty, Event, FromJson, HasTag, Inside, InsideCases, MarkedSlot,
    Members, NoCase, NoFields, NoSlot, OneOf, Parts, Ranged, Record, Result, Serialize, Slot,
    Slots, Source, WithDefault, Writer, WrittenCases, WrittenFields, fields_named, read_record,
    read_tagged, tag_fits, write_members_in_order, write_tagged, write_tagged_fields,
};
use miniserde_laws::{
    Lossless, NeverNull, RoundTrip, record_lossless, record_round_trips, tagged_lossless,
    tagged_round_trips,
};
use miniserde_stored::{Stable, record_stable, tagged_stable};

/// What stands on a parcel.
#[derive(Drop)]
pub struct Label {
    pub text: String,
}

// Its fields, and their names.
type LabelFields = MarkedSlot<String, WithDefault<Empty>, NoSlot>;

const LABEL_NAMES: &[&str] = &["text"];

impl Record for Label {
    ghost use Rattle.test_core.specs.declared.task.TheConstants.{LABEL_NAMES};

    type Values = <LabelFields as Slots>::Values;

    ghost names = { names_of LABEL_NAMES };

    ghost values = { λ v. (v.text, tt) };

    ghost made = { λ x. record { text = x.0 } };

    ghost bijective = { (λ v. refl, λ x. refl) };

    ghost distinct_names = { refl };

    fn names() -> &'static [&'static str] {
        LABEL_NAMES
    }

    fn build(parts: Self::Values) -> Label {
        let Parts(text, ()) = parts;
        Label { text }
    }
}

impl FromJson for Label {
    ghost means = { struct_meaning ⟦<LabelFields as Slots>⟧.meaning ⟦<Label as Record>⟧.names
        ⟦<Label as Record>⟧.values };

    fn missing() -> Option<Label> {
        None
    }

    fn read<'a>(token: Event<'a>, source: &mut Source<'a>) -> Result<Label> {
        read_record::<Label, LabelFields>(token, source)
    }
}

impl Serialize for Label {
    ghost tree = { record_tree ⟦<Label as Record>⟧.names ⟦<LabelFields as WrittenFields>⟧.trees
        ⟦<Label as Record>⟧.values };

    fn begin(&self, w: &mut Writer) -> Result<()> {
        write_members_in_order(w, LABEL_NAMES, &Parts(&self.text, ()))
    }
}

impl Ranged for Label {
    ghost valid = { λ v. ⟦<LabelFields as WrittenFields>⟧.valid (⟦<Label as Record>⟧.values v) };

    fn ranged(&self) {
        self.text.ranged();
    }
}

impl RoundTrip for Label {
    fn round_trips() {
        record_round_trips::<Label, LabelFields>()
    }
}

impl Lossless for Label {
    fn lossless() {
        record_lossless::<Label, LabelFields>()
    }
}

impl NeverNull for Label {
    fn never_null() {}
}

impl Stable for Label {
    fn stable() {
        record_stable::<Label, LabelFields>()
    }
}

impl Inside for Label {
    ghost fields = { ⟦<Label as Record>⟧.names };

    fn read_inside<'a, E: HasTag>(token: Event<'a>, source: &mut Source<'a>) -> Result<Label> {
        read_record::<Label, BesideTag<E, LabelFields>>(token, source)
    }

    fn write_inside(&self, w: &mut Writer) -> Result<()> {
        Members::write(&Parts(&self.text, ()), w, LABEL_NAMES)
    }

    fn is_object() {
        fields_named()
    }
}

/// The fields of `Task::Weighed`.
#[derive(Drop)]
pub struct TaskWeighed {
    pub grams: u32,
}

// Its fields, and their names.
type TaskWeighedFields = Slot<u32, NoSlot>;

const TASK_WEIGHED_NAMES: &[&str] = &["grams"];

impl Record for TaskWeighed {
    ghost use Rattle.test_core.specs.declared.task.TheConstants.{TASK_WEIGHED_NAMES};

    type Values = <TaskWeighedFields as Slots>::Values;

    ghost names = { names_of TASK_WEIGHED_NAMES };

    ghost values = { λ v. (v.grams, tt) };

    ghost made = { λ x. record { grams = x.0 } };

    ghost bijective = { (λ v. refl, λ x. refl) };

    ghost distinct_names = { refl };

    fn names() -> &'static [&'static str] {
        TASK_WEIGHED_NAMES
    }

    fn build(parts: Self::Values) -> TaskWeighed {
        let Parts(grams, ()) = parts;
        TaskWeighed { grams }
    }
}

impl FromJson for TaskWeighed {
    ghost means = { struct_meaning ⟦<TaskWeighedFields as Slots>⟧.meaning ⟦<TaskWeighed as Record>⟧.names ⟦<TaskWeighed as Record>⟧.values };

    fn missing() -> Option<TaskWeighed> {
        None
    }

    fn read<'a>(token: Event<'a>, source: &mut Source<'a>) -> Result<TaskWeighed> {
        read_record::<TaskWeighed, TaskWeighedFields>(token, source)
    }
}

impl Serialize for TaskWeighed {
    ghost tree = { record_tree ⟦<TaskWeighed as Record>⟧.names ⟦<TaskWeighedFields as WrittenFields>⟧.trees ⟦<TaskWeighed as Record>⟧.values };

    fn begin(&self, w: &mut Writer) -> Result<()> {
        write_members_in_order(w, TASK_WEIGHED_NAMES, &Parts(&self.grams, ()))
    }
}

impl Ranged for TaskWeighed {
    ghost valid = { λ v. ⟦<TaskWeighedFields as WrittenFields>⟧.valid (⟦<TaskWeighed as Record>⟧.values v) };

    fn ranged(&self) {
        self.grams.ranged();
    }
}

impl RoundTrip for TaskWeighed {
    fn round_trips() {
        record_round_trips::<TaskWeighed, TaskWeighedFields>()
    }
}

impl Lossless for TaskWeighed {
    fn lossless() {
        record_lossless::<TaskWeighed, TaskWeighedFields>()
    }
}

impl NeverNull for TaskWeighed {
    fn never_null() {}
}

impl Stable for TaskWeighed {
    fn stable() {
        record_stable::<TaskWeighed, TaskWeighedFields>()
    }
}

impl Inside for TaskWeighed {
    ghost fields = { ⟦<TaskWeighed as Record>⟧.names };

    fn read_inside<'a, E: HasTag>(
        token: Event<'a>,
        source: &mut Source<'a>,
    ) -> Result<TaskWeighed> {
        read_record::<TaskWeighed, BesideTag<E, TaskWeighedFields>>(token, source)
    }

    fn write_inside(&self, w: &mut Writer) -> Result<()> {
        Members::write(&Parts(&self.grams, ()), w, TASK_WEIGHED_NAMES)
    }

    fn is_object() {
        fields_named()
    }
}

/// The fields of `Task::Sealed`.
#[derive(Drop)]
pub struct TaskSealed {
    pub twice: bool,
}

// Its fields, and their names.
type TaskSealedFields = Slot<bool, NoSlot>;

const TASK_SEALED_NAMES: &[&str] = &["twice"];

impl Record for TaskSealed {
    ghost use Rattle.test_core.specs.declared.task.TheConstants.{TASK_SEALED_NAMES};

    type Values = <TaskSealedFields as Slots>::Values;

    ghost names = { names_of TASK_SEALED_NAMES };

    ghost values = { λ v. (v.twice, tt) };

    ghost made = { λ x. record { twice = x.0 } };

    ghost bijective = { (λ v. refl, λ x. refl) };

    ghost distinct_names = { refl };

    fn names() -> &'static [&'static str] {
        TASK_SEALED_NAMES
    }

    fn build(parts: Self::Values) -> TaskSealed {
        let Parts(twice, ()) = parts;
        TaskSealed { twice }
    }
}

impl FromJson for TaskSealed {
    ghost means = { struct_meaning ⟦<TaskSealedFields as Slots>⟧.meaning ⟦<TaskSealed as Record>⟧.names ⟦<TaskSealed as Record>⟧.values };

    fn missing() -> Option<TaskSealed> {
        None
    }

    fn read<'a>(token: Event<'a>, source: &mut Source<'a>) -> Result<TaskSealed> {
        read_record::<TaskSealed, TaskSealedFields>(token, source)
    }
}

impl Serialize for TaskSealed {
    ghost tree = { record_tree ⟦<TaskSealed as Record>⟧.names ⟦<TaskSealedFields as WrittenFields>⟧.trees ⟦<TaskSealed as Record>⟧.values };

    fn begin(&self, w: &mut Writer) -> Result<()> {
        write_members_in_order(w, TASK_SEALED_NAMES, &Parts(&self.twice, ()))
    }
}

impl Ranged for TaskSealed {
    ghost valid = { λ v. ⟦<TaskSealedFields as WrittenFields>⟧.valid (⟦<TaskSealed as Record>⟧.values v) };

    fn ranged(&self) {
        self.twice.ranged();
    }
}

impl RoundTrip for TaskSealed {
    fn round_trips() {
        record_round_trips::<TaskSealed, TaskSealedFields>()
    }
}

impl Lossless for TaskSealed {
    fn lossless() {
        record_lossless::<TaskSealed, TaskSealedFields>()
    }
}

impl NeverNull for TaskSealed {
    fn never_null() {}
}

impl Stable for TaskSealed {
    fn stable() {
        record_stable::<TaskSealed, TaskSealedFields>()
    }
}

impl Inside for TaskSealed {
    ghost fields = { ⟦<TaskSealed as Record>⟧.names };

    fn read_inside<'a, E: HasTag>(token: Event<'a>, source: &mut Source<'a>) -> Result<TaskSealed> {
        read_record::<TaskSealed, BesideTag<E, TaskSealedFields>>(token, source)
    }

    fn write_inside(&self, w: &mut Writer) -> Result<()> {
        Members::write(&Parts(&self.twice, ()), w, TASK_SEALED_NAMES)
    }

    fn is_object() {
        fields_named()
    }
}

/// What was done with a parcel.
#[derive(Drop)]
pub enum Task {
    Weighed { grams: u32 },
    Labelled(Label),
    Sealed { twice: bool },
    Done,
}

// Its variants, and their names.
type TaskCases = DataCase<
    TaskWeighed,
    DataCase<Label, DataCase<TaskSealed, DataCase<NoFields, NoCase>>>,
>;

const TASK_NAMES: &[&str] = &["Weighed", "Labelled", "Sealed", "Done"];

impl DataEnum for Task {
    ghost use Rattle.test_core.specs.declared.task.TheConstants.{TASK_NAMES};
    ghost use Rattle.test_core.specs.declared.task.Task.TheVariants.{Weighed, Labelled, Sealed, Done};

    type Values = <TaskCases as InsideCases>::Values;

    ghost names = { names_of TASK_NAMES };

    ghost values = { elim [
      | Weighed x0 ↦ first_case (record { grams = x0 })
      | Labelled x0 ↦
          later_case (first_case x0)
      | Sealed x0 ↦ later_case (later_case (first_case (record {
        twice
            = x0;
      })))
      | Done ↦ later_case (later_case (later_case (first_case (record {}))))
    ] };

    ghost made = { each_case _ (λ x. Weighed x.grams) (each_case _ (λ x. Labelled x) (each_case _ (λ
        x. Sealed x.twice) (each_case _ (λ x. Done) (any_of_never _)))) };

    ghost bijective = { (
      elim [
        | Weighed x0 ↦ refl
        | Labelled x0 ↦ refl
        | Sealed x0 ↦ refl
        | Done ↦
            refl
      ],
      each_case _ (λ x. refl) (each_case _ (λ x. refl) (each_case _ (λ x. refl) (each_case
          _ (λ x. refl) (any_of_never _)))),
    ) };

    ghost distinct_names = { refl };

    fn names() -> &'static [&'static str] {
        TASK_NAMES
    }

    fn build(value: Self::Values) -> Task {
        match value {
            OneOf::First(TaskWeighed { grams }) => Task::Weighed { grams },
            OneOf::Later(value) => match value {
                OneOf::First(a) => Task::Labelled(a),
                OneOf::Later(value) => match value {
                    OneOf::First(TaskSealed { twice }) => Task::Sealed { twice },
                    OneOf::Later(value) => match value {
                        OneOf::First(NoFields {}) => Task::Done,
                        OneOf::Later(value) => match value {},
                    },
                },
            },
        }
    }
}

const TASK_TAG: &[&str] = &["kind"];

impl HasTag for Task {
    ghost use Rattle.test_core.specs.declared.task.TheConstants.{TASK_TAG};

    ghost tag = { codes "kind" };

    fn tag() -> &'static [&'static str] {
        TASK_TAG
    }
}

impl FromJson for Task {
    ghost means = { tagged_meaning ⟦<TaskCases as InsideCases>⟧.meaning ⟦<Task as HasTag>⟧.tag
        ⟦<Task as DataEnum>⟧.names refl ⟦<Task as DataEnum>⟧.values };

    fn missing() -> Option<Task> {
        None
    }

    fn read<'a>(token: Event<'a>, source: &mut Source<'a>) -> Result<Task> {
        read_tagged::<Task, TaskCases>(token, source)
    }
}

impl Serialize for Task {
    ghost tree = { tagged_tree ⟦<Task as HasTag>⟧.tag ⟦<Task as DataEnum>⟧.names ⟦<TaskCases as WrittenCases>⟧.tree ⟦<Task as DataEnum>⟧.values };

    fn begin(&self, w: &mut Writer) -> Result<()> {
        match self {
            Task::Weighed { grams } => {
                write_tagged_fields(w, "kind", "Weighed", TASK_WEIGHED_NAMES, &Parts(grams, ()))
            },
            Task::Labelled(a) => write_tagged(w, "kind", "Labelled", a),
            Task::Sealed { twice } => {
                write_tagged_fields(w, "kind", "Sealed", TASK_SEALED_NAMES, &Parts(twice, ()))
            },
            Task::Done => { write_tagged_fields(w, "kind", "Done", &[], &()) },
        }
    }
}

impl Ranged for Task {
    ghost valid = { λ v. ⟦<TaskCases as WrittenCases>⟧.valid (⟦<Task as DataEnum>⟧.values v) };

    fn ranged(&self) {
        match self {
            Task::Weighed { grams } => {
                grams.ranged();
            },
            Task::Labelled(a) => a.ranged(),
            Task::Sealed { twice } => {
                twice.ranged();
            },
            Task::Done => {},
        }
    }
}

impl RoundTrip for Task {
    fn round_trips() {
        tag_fits::<Task, TaskCases>();
        tagged_round_trips::<Task, TaskCases>()
    }
}

impl Lossless for Task {
    fn lossless() {
        tag_fits::<Task, TaskCases>();
        tagged_lossless::<Task, TaskCases>()
    }
}

impl NeverNull for Task {
    fn never_null() {}
}

impl Stable for Task {
    fn stable() {
        tagged_stable::<Task, TaskCases>()
    }
}
