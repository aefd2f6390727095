//! The types of `action.rs`, with the impls that `./derive` writes.
ghost use Rattle.miniserde.specs.Cases.{each_case, first_case, later_case, any_of_never, tagged_tree};
ghost use Rattle.miniserde.specs.CasesMeaning.{tagged_meaning};
ghost use Rattle.miniserde.specs.FieldsMeaning.{struct_meaning};
ghost use Rattle.miniserde.specs.Structs.{names_of, record_tree};
ghost use Rattle.std.specs.Prelude.{codes, refl};

use miniserde::derived::{
    BesideTag, DataCase, DataEnum, Event, FromJson, HasTag, Inside, InsideCases, Lossless, Members,
    NeverNull, NoCase, NoFields, NoSlot, OneOf, Parts, Ranged, Record, Result, RoundTrip,
    Serialize, Slot, Slots, Source, Stable, Writer, WrittenCases, WrittenFields, fields_named,
    read_record, read_tagged, record_lossless, record_round_trips, record_stable, tag_fits,
    tagged_lossless, tagged_round_trips, tagged_stable, write_members_in_order, write_tagged,
    write_tagged_fields,
};

/// What is said.
#[derive(Drop)]
pub struct Say {
    pub text: String,
    pub to: Option<String>,
}

// Its fields, and their names.
type SayFields = Slot<String, Slot<Option<String>, NoSlot>>;

const SAY_NAMES: &[&str] = &["text", "to"];

impl Record for Say {
    ghost use Rattle.examples.specs.declared.action.TheConstants.{SAY_NAMES};

    type Values = <SayFields as Slots>::Values;

    ghost names = { names_of SAY_NAMES };

    ghost values = { λ v. (v.text, (v.to, tt)) };

    ghost made = { λ x. record { text = x.0; to = x.1.0 } };

    ghost bijective = { (λ v. refl, λ x. refl) };

    ghost distinct_names = { refl };

    fn names() -> &'static [&'static str] {
        SAY_NAMES
    }

    fn build(parts: Self::Values) -> Say {
        let Parts(text, Parts(to, ())) = parts;
        Say { text, to }
    }
}

impl FromJson for Say {
    ghost means = { struct_meaning ⟦<SayFields as Slots>⟧.meaning ⟦<Say as Record>⟧.names ⟦<Say as Record>⟧.values };

    fn missing() -> Option<Say> {
        None
    }

    fn read<'a>(token: Event<'a>, source: &mut Source<'a>) -> Result<Say> {
        read_record::<Say, SayFields>(token, source)
    }
}

impl Serialize for Say {
    ghost tree = { record_tree ⟦<Say as Record>⟧.names ⟦<SayFields as WrittenFields>⟧.trees ⟦<Say as Record>⟧.values };

    fn begin(&self, w: &mut Writer) -> Result<()> {
        write_members_in_order(w, SAY_NAMES, &Parts(&self.text, Parts(&self.to, ())))
    }
}

impl Ranged for Say {
    ghost valid = { λ v. ⟦<SayFields as WrittenFields>⟧.valid (⟦<Say as Record>⟧.values v) };

    fn ranged(&self) {
        self.text.ranged();
        self.to.ranged();
    }
}

impl RoundTrip for Say {
    fn round_trips() {
        record_round_trips::<Say, SayFields>()
    }
}

impl Lossless for Say {
    fn lossless() {
        record_lossless::<Say, SayFields>()
    }
}

impl NeverNull for Say {
    fn never_null() {}
}

impl Stable for Say {
    fn stable() {
        record_stable::<Say, SayFields>()
    }
}

impl Inside for Say {
    ghost fields = { ⟦<Say as Record>⟧.names };

    fn read_inside<'a, E: HasTag>(token: Event<'a>, source: &mut Source<'a>) -> Result<Say> {
        read_record::<Say, BesideTag<E, SayFields>>(token, source)
    }

    fn write_inside(&self, w: &mut Writer) -> Result<()> {
        Members::write(&Parts(&self.text, Parts(&self.to, ())), w, SAY_NAMES)
    }

    fn is_object() {
        fields_named()
    }
}

/// The fields of `Action::Move`.
#[derive(Drop)]
pub struct ActionMove {
    pub x: i64,
    pub y: i64,
}

// Its fields, and their names.
type ActionMoveFields = Slot<i64, Slot<i64, NoSlot>>;

const ACTION_MOVE_NAMES: &[&str] = &["x", "y"];

impl Record for ActionMove {
    ghost use Rattle.examples.specs.declared.action.TheConstants.{ACTION_MOVE_NAMES};

    type Values = <ActionMoveFields as Slots>::Values;

    ghost names = { names_of ACTION_MOVE_NAMES };

    ghost values = { λ v. (v.x, (v.y, tt)) };

    ghost made = { λ x. record { x = x.0; y = x.1.0 } };

    ghost bijective = { (λ v. refl, λ x. refl) };

    ghost distinct_names = { refl };

    fn names() -> &'static [&'static str] {
        ACTION_MOVE_NAMES
    }

    fn build(parts: Self::Values) -> ActionMove {
        let Parts(x, Parts(y, ())) = parts;
        ActionMove { x, y }
    }
}

impl FromJson for ActionMove {
    ghost means = { struct_meaning ⟦<ActionMoveFields as Slots>⟧.meaning ⟦<ActionMove as Record>⟧.names ⟦<ActionMove as Record>⟧.values };

    fn missing() -> Option<ActionMove> {
        None
    }

    fn read<'a>(token: Event<'a>, source: &mut Source<'a>) -> Result<ActionMove> {
        read_record::<ActionMove, ActionMoveFields>(token, source)
    }
}

impl Serialize for ActionMove {
    ghost tree = { record_tree ⟦<ActionMove as Record>⟧.names ⟦<ActionMoveFields as WrittenFields>⟧.trees ⟦<ActionMove as Record>⟧.values };

    fn begin(&self, w: &mut Writer) -> Result<()> {
        write_members_in_order(w, ACTION_MOVE_NAMES, &Parts(&self.x, Parts(&self.y, ())))
    }
}

impl Ranged for ActionMove {
    ghost valid = { λ v. ⟦<ActionMoveFields as WrittenFields>⟧.valid (⟦<ActionMove as Record>⟧.values v) };

    fn ranged(&self) {
        self.x.ranged();
        self.y.ranged();
    }
}

impl RoundTrip for ActionMove {
    fn round_trips() {
        record_round_trips::<ActionMove, ActionMoveFields>()
    }
}

impl Lossless for ActionMove {
    fn lossless() {
        record_lossless::<ActionMove, ActionMoveFields>()
    }
}

impl NeverNull for ActionMove {
    fn never_null() {}
}

impl Stable for ActionMove {
    fn stable() {
        record_stable::<ActionMove, ActionMoveFields>()
    }
}

impl Inside for ActionMove {
    ghost fields = { ⟦<ActionMove as Record>⟧.names };

    fn read_inside<'a, E: HasTag>(token: Event<'a>, source: &mut Source<'a>) -> Result<ActionMove> {
        read_record::<ActionMove, BesideTag<E, ActionMoveFields>>(token, source)
    }

    fn write_inside(&self, w: &mut Writer) -> Result<()> {
        Members::write(&Parts(&self.x, Parts(&self.y, ())), w, ACTION_MOVE_NAMES)
    }

    fn is_object() {
        fields_named()
    }
}

/// What somebody does: an object whose member `kind` says which.
#[derive(Drop)]
pub enum Action {
    Ping,
    Say(Say),
    Move { x: i64, y: i64 },
}

// Its variants, and their names.
type ActionCases = DataCase<NoFields, DataCase<Say, DataCase<ActionMove, NoCase>>>;

const ACTION_NAMES: &[&str] = &["Ping", "Say", "move"];

impl DataEnum for Action {
    ghost use Rattle.examples.specs.declared.action.TheConstants.{ACTION_NAMES};
    ghost use Rattle.examples.specs.declared.action.Action.TheVariants.{Ping, Say, Move};

    type Values = <ActionCases as InsideCases>::Values;

    ghost names = { names_of ACTION_NAMES };

    ghost values = { elim [
      | Ping ↦ first_case (record {})
      | Say x0 ↦ later_case (first_case x0)
      | Move x0 x1 ↦ later_case (later_case (first_case (record { x = x0; y = x1 })))
    ] };

    ghost made = { each_case _ (λ x. Ping) (each_case _ (λ x. Say x) (each_case _ (λ x. Move x.x
        x.y) (any_of_never _))) };

    ghost bijective = { (
      elim [ Ping ↦ refl | Say x0 ↦ refl | Move x0 x1 ↦ refl ],
      each_case _ (λ x.
          refl) (each_case _ (λ x. refl) (each_case _ (λ x. refl) (any_of_never _))),
    ) };

    ghost distinct_names = { refl };

    fn names() -> &'static [&'static str] {
        ACTION_NAMES
    }

    fn build(value: Self::Values) -> Action {
        match value {
            OneOf::First(NoFields {}) => Action::Ping,
            OneOf::Later(value) => match value {
                OneOf::First(a) => Action::Say(a),
                OneOf::Later(value) => match value {
                    OneOf::First(ActionMove { x, y }) => Action::Move { x, y },
                    OneOf::Later(value) => match value {},
                },
            },
        }
    }
}

const ACTION_TAG: &[&str] = &["kind"];

impl HasTag for Action {
    ghost use Rattle.examples.specs.declared.action.TheConstants.{ACTION_TAG};

    ghost tag = { codes "kind" };

    fn tag() -> &'static [&'static str] {
        ACTION_TAG
    }
}

impl FromJson for Action {
    ghost means = { tagged_meaning ⟦<ActionCases as InsideCases>⟧.meaning ⟦<Action as HasTag>⟧.tag
        ⟦<Action as DataEnum>⟧.names refl ⟦<Action as DataEnum>⟧.values };

    fn missing() -> Option<Action> {
        None
    }

    fn read<'a>(token: Event<'a>, source: &mut Source<'a>) -> Result<Action> {
        read_tagged::<Action, ActionCases>(token, source)
    }
}

impl Serialize for Action {
    ghost tree = { tagged_tree ⟦<Action as HasTag>⟧.tag ⟦<Action as DataEnum>⟧.names ⟦<ActionCases as WrittenCases>⟧.tree ⟦<Action as DataEnum>⟧.values };

    fn begin(&self, w: &mut Writer) -> Result<()> {
        match self {
            Action::Ping => { write_tagged_fields(w, "kind", "Ping", &[], &()) },
            Action::Say(a) => write_tagged(w, "kind", "Say", a),
            Action::Move { x, y } => {
                write_tagged_fields(
                    w,
                    "kind",
                    "move",
                    ACTION_MOVE_NAMES,
                    &Parts(x, Parts(y, ())),
                )
            },
        }
    }
}

impl Ranged for Action {
    ghost valid = { λ v. ⟦<ActionCases as WrittenCases>⟧.valid (⟦<Action as DataEnum>⟧.values v) };

    fn ranged(&self) {
        match self {
            Action::Ping => {}
            Action::Say(a) => a.ranged(),
            Action::Move { x, y } => {
                x.ranged();
                y.ranged();
            },
        }
    }
}

impl RoundTrip for Action {
    fn round_trips() {
        tag_fits::<Action, ActionCases>();
        tagged_round_trips::<Action, ActionCases>()
    }
}

impl Lossless for Action {
    fn lossless() {
        tag_fits::<Action, ActionCases>();
        tagged_lossless::<Action, ActionCases>()
    }
}

impl NeverNull for Action {
    fn never_null() {}
}

impl Stable for Action {
    fn stable() {
        tagged_stable::<Action, ActionCases>()
    }
}
