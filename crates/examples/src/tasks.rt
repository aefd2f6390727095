//! The types of `tasks.rs`, with the impls that `./derive` writes.
ghost use Rattle.miniserde.specs.FieldsMeaning.{struct_meaning};
ghost use Rattle.miniserde.specs.Structs.{names_of, record_tree};
ghost use Rattle.miniserde.specs.Tree.{nonneg, str};
ghost use Rattle.std.specs.Prelude.{true, List, codes, [], ◌∷◌, ⊤, refl};

use miniserde::derived::{
    Event, FourLent, FourParts, FourSlot, Fragment, FromJson, Given, Global, MarkedFour, NoSlot,
    Parts, Plain, Ranged, Record, Result, RoundTrip, Serialize, Slot, Slots, Source, UnitEnum,
    Variants, WithDefault, Writer, WrittenFields, read_record, read_variant, record_round_trips,
    take_four, variant_round_trips, write_members,
};

/// How a task of version 1 stands.
#[derive(Clone, Copy, PartialEq, Eq, Debug, Drop)]
pub enum OldState {
    Open,
    Done,
}

impl UnitEnum for OldState {
    ghost use Rattle.examples.specs.declared.tasks.OldState.TheVariants.{Open, Done};

    ghost all = { Open ∷ Done ∷ [] };

    ghost name_of = { elim [ Open ↦ codes "open" | Done ↦ codes "done" ] };

    ghost found = { elim [ Open ↦ refl | Done ↦ refl ] };

    fn values() -> &'static [OldState] {
        &[OldState::Open, OldState::Done]
    }

    fn name(&self) -> &'static str {
        match self {
            OldState::Open => "open",
            OldState::Done => "done",
        }
    }
}

impl FromJson for OldState {
    ghost means = { ⟦<OldState as Variants>⟧.meaning };

    ghost read_infallible = { true };

    fn missing() -> Option<OldState> {
        None
    }

    fn read<'a>(token: Event<'a>, source: &mut Source<'a>) -> Result<OldState> {
        read_variant(token, source)
    }
}

impl Serialize for OldState {
    ghost tree = { λ v. str (⟦<OldState as UnitEnum>⟧.name_of v) };

    fn begin(&self, w: &mut Writer) -> Result<()> {
        w.fragment(Fragment::Str(self.name()))
    }
}

impl Ranged for OldState {
    ghost valid = { λ _. ⊤ };

    fn ranged(&self) {}
}

impl RoundTrip for OldState {
    fn round_trips() {
        variant_round_trips::<OldState>()
    }
}

/// A task, as version 1 stores it.
#[derive(Drop)]
pub struct OldTask {
    pub id: u64,
    pub title: String,
    pub state: OldState,
    pub colour: u32,
}

// Its fields, and their names.
type OldTaskFields = FourSlot<u64, String, OldState, u32, NoSlot>;

const OLD_TASK_NAMES: &[&str] = &["id", "title", "state", "colour"];

impl Record for OldTask {
    ghost use Rattle.examples.specs.declared.tasks.TheConstants.{OLD_TASK_NAMES};

    type Values = <OldTaskFields as Slots>::Values;

    ghost names = { names_of OLD_TASK_NAMES };

    ghost values = { λ v. (v.id, (v.title, (v.state, (v.colour, tt)))) };

    ghost made = { λ x. record { id = x.0; title = x.1.0; state = x.1.1.0; colour = x.1.1.1.0 } };

    ghost bijective = { (λ v. refl, λ x. refl) };

    ghost distinct_names = { refl };

    fn names() -> &'static [&'static str] {
        OLD_TASK_NAMES
    }

    fn build(parts: Self::Values) -> OldTask {
        let FourParts(id, title, state, colour, ()) = take_four(parts);
        OldTask {
            id,
            title,
            state,
            colour,
        }
    }
}

impl FromJson for OldTask {
    ghost means = { struct_meaning ⟦<OldTaskFields as Slots>⟧.meaning ⟦<OldTask as Record>⟧.names
        ⟦<OldTask as Record>⟧.values };

    fn missing() -> Option<OldTask> {
        None
    }

    fn read<'a>(token: Event<'a>, source: &mut Source<'a>) -> Result<OldTask> {
        read_record::<OldTask, OldTaskFields>(token, source)
    }
}

impl Serialize for OldTask {
    ghost tree = { record_tree ⟦<OldTask as Record>⟧.names ⟦<OldTaskFields as WrittenFields>⟧.trees
        ⟦<OldTask as Record>⟧.values };

    fn begin(&self, w: &mut Writer) -> Result<()> {
        write_members(
            w,
            OLD_TASK_NAMES,
            &FourLent(&self.id, &self.title, &self.state, &self.colour, ()),
        )
    }
}

impl Ranged for OldTask {
    ghost valid = { λ v. ⟦<OldTaskFields as WrittenFields>⟧.valid (⟦<OldTask as Record>⟧.values v) };

    fn ranged(&self) {
        self.id.ranged();
        self.title.ranged();
        self.state.ranged();
        self.colour.ranged();
    }
}

impl RoundTrip for OldTask {
    fn round_trips() {
        record_round_trips::<OldTask, OldTaskFields>()
    }
}

/// How a task stands. `Failed` is new.
#[derive(Clone, Copy, PartialEq, Eq, Debug, Drop)]
pub enum State {
    Open,
    Done,
    Failed,
}

impl UnitEnum for State {
    ghost use Rattle.examples.specs.declared.tasks.State.TheVariants.{Open, Done, Failed};

    ghost all = { Open ∷ Done ∷ Failed ∷ [] };

    ghost name_of = { elim [ Open ↦ codes "open" | Done ↦ codes "done" | Failed ↦ codes "failed" ] };

    ghost found = { elim [ Open ↦ refl | Done ↦ refl | Failed ↦ refl ] };

    fn values() -> &'static [State] {
        &[State::Open, State::Done, State::Failed]
    }

    fn name(&self) -> &'static str {
        match self {
            State::Open => "open",
            State::Done => "done",
            State::Failed => "failed",
        }
    }
}

impl FromJson for State {
    ghost means = { ⟦<State as Variants>⟧.meaning };

    ghost read_infallible = { true };

    fn missing() -> Option<State> {
        None
    }

    fn read<'a>(token: Event<'a>, source: &mut Source<'a>) -> Result<State> {
        read_variant(token, source)
    }
}

impl Serialize for State {
    ghost tree = { λ v. str (⟦<State as UnitEnum>⟧.name_of v) };

    fn begin(&self, w: &mut Writer) -> Result<()> {
        w.fragment(Fragment::Str(self.name()))
    }
}

impl Ranged for State {
    ghost valid = { λ _. ⊤ };

    fn ranged(&self) {}
}

impl RoundTrip for State {
    fn round_trips() {
        variant_round_trips::<State>()
    }
}

/// A task, as version 2 stores it: `retries` and `note` are new, and there is no `colour`.
#[derive(Drop)]
pub struct Task {
    pub id: u64,
    pub name: String,
    pub state: State,
    pub retries: u32,
    pub note: Option<String>,
}

/// The value of a missing `retries`.
#[derive(Drop)]
pub struct TaskRetriesDefault {}

impl Given<u32> for TaskRetriesDefault {
    ghost given = { nonneg 3 };

    fn make(_alloc: Global) -> Result<u32> {
        Ok(3)
    }
}

// Its fields, and their names.
type TaskFields = MarkedFour<
    u64,
    Plain,
    String,
    Plain,
    State,
    Plain,
    u32,
    WithDefault<TaskRetriesDefault>,
    Slot<Option<String>, NoSlot>,
>;

const TASK_NAMES: &[&str] = &["id", "title", "state", "retries", "note"];

impl Record for Task {
    ghost use Rattle.examples.specs.declared.tasks.TheConstants.{TASK_NAMES};

    type Values = <TaskFields as Slots>::Values;

    ghost names = { names_of TASK_NAMES };

    ghost values = { λ v. (v.id, (v.name, (v.state, (v.retries, (v.note, tt))))) };

    ghost made = { λ x. record {
      id = x.0;
      name = x.1.0;
      state = x.1.1.0;
      retries = x.1.1.1.0;
      note = x.1.1.1.1.0;
    } };

    ghost bijective = { (λ v. refl, λ x. refl) };

    ghost distinct_names = { refl };

    fn names() -> &'static [&'static str] {
        TASK_NAMES
    }

    fn build(parts: Self::Values) -> Task {
        let FourParts(id, name, state, retries, parts) = take_four(parts);
        let Parts(note, ()) = parts;
        Task {
            id,
            name,
            state,
            retries,
            note,
        }
    }
}

impl FromJson for Task {
    ghost means = { struct_meaning ⟦<TaskFields as Slots>⟧.meaning ⟦<Task as Record>⟧.names ⟦<Task as Record>⟧.values };

    fn missing() -> Option<Task> {
        None
    }

    fn read<'a>(token: Event<'a>, source: &mut Source<'a>) -> Result<Task> {
        read_record::<Task, TaskFields>(token, source)
    }
}

impl Serialize for Task {
    ghost tree = { record_tree ⟦<Task as Record>⟧.names ⟦<TaskFields as WrittenFields>⟧.trees ⟦<Task as Record>⟧.values };

    fn begin(&self, w: &mut Writer) -> Result<()> {
        write_members(
            w,
            TASK_NAMES,
            &FourLent(
                &self.id,
                &self.name,
                &self.state,
                &self.retries,
                Parts(&self.note, ()),
            ),
        )
    }
}

impl Ranged for Task {
    ghost valid = { λ v. ⟦<TaskFields as WrittenFields>⟧.valid (⟦<Task as Record>⟧.values v) };

    fn ranged(&self) {
        self.id.ranged();
        self.name.ranged();
        self.state.ranged();
        self.retries.ranged();
        self.note.ranged();
    }
}

impl RoundTrip for Task {
    fn round_trips() {
        record_round_trips::<Task, TaskFields>()
    }
}
