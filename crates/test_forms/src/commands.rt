//! The types of `commands.rs`, with the impls that `./derive` writes.
ghost use Rattle.miniserde.specs.Cases.{each_case, enum_tree, first_case, later_case, any_of_never};
ghost use Rattle.miniserde.specs.CasesMeaning.{enum_meaning};
ghost use Rattle.miniserde.specs.FieldsMeaning.{struct_meaning};
ghost use Rattle.miniserde.specs.Structs.{names_of, record_tree};
ghost use Rattle.std.specs.Prelude.{refl};

use miniserde::derived::{
    Cases, DataCase, DataEnum, Event, Fragment, FromJson, Lossless, NeverNull, NoCase, NoSlot,
    OmitSlot, Omitted, OneOf, Parts, Plain, Ranged, Record, Result, RoundTrip, Serialize, Slots,
    Source, Stable, UnitCase, Writer, WrittenCases, WrittenFields, enum_lossless, enum_round_trips,
    enum_stable, read_enum, read_record, record_lossless, record_round_trips, record_stable,
    write_data, write_fields, write_members_in_order,
};

/// The fields of `Command::Move`.
#[derive(Drop)]
pub struct CommandMove {
    pub x: Option<i64>,
    pub y: Option<i64>,
}

// Its fields, and their names.
type CommandMoveFields = OmitSlot<i64, Plain, OmitSlot<i64, Plain, NoSlot>>;

const COMMAND_MOVE_NAMES: &[&str] = &["x", "y"];

impl Record for CommandMove {
    ghost use Rattle.test_forms.specs.declared.commands.TheConstants.{COMMAND_MOVE_NAMES};

    type Values = <CommandMoveFields as Slots>::Values;

    ghost names = { names_of COMMAND_MOVE_NAMES };

    ghost values = { λ v. (v.x, (v.y, tt)) };

    ghost made = { λ x. record { x = x.0; y = x.1.0 } };

    ghost bijective = { (λ v. refl, λ x. refl) };

    ghost distinct_names = { refl };

    fn names() -> &'static [&'static str] {
        COMMAND_MOVE_NAMES
    }

    fn build(parts: Self::Values) -> CommandMove {
        let Parts(x, Parts(y, ())) = parts;
        CommandMove { x, y }
    }
}

impl FromJson for CommandMove {
    ghost means = { struct_meaning ⟦<CommandMoveFields as Slots>⟧.meaning ⟦<CommandMove as Record>⟧.names ⟦<CommandMove as Record>⟧.values };

    fn missing() -> Option<CommandMove> {
        None
    }

    fn read<'a>(token: Event<'a>, source: &mut Source<'a>) -> Result<CommandMove> {
        read_record::<CommandMove, CommandMoveFields>(token, source)
    }
}

impl Serialize for CommandMove {
    ghost tree = { record_tree ⟦<CommandMove as Record>⟧.names ⟦<CommandMoveFields as WrittenFields>⟧.trees ⟦<CommandMove as Record>⟧.values };

    fn begin(&self, w: &mut Writer) -> Result<()> {
        write_members_in_order(
            w,
            COMMAND_MOVE_NAMES,
            &Parts(Omitted(&self.x), Parts(Omitted(&self.y), ())),
        )
    }
}

impl Ranged for CommandMove {
    ghost valid = { λ v. ⟦<CommandMoveFields as WrittenFields>⟧.valid (⟦<CommandMove as Record>⟧.values v) };

    fn ranged(&self) {
        self.x.ranged();
        self.y.ranged();
    }
}

impl RoundTrip for CommandMove {
    fn round_trips() {
        record_round_trips::<CommandMove, CommandMoveFields>()
    }
}

impl Lossless for CommandMove {
    fn lossless() {
        record_lossless::<CommandMove, CommandMoveFields>()
    }
}

impl NeverNull for CommandMove {
    fn never_null() {}
}

impl Stable for CommandMove {
    fn stable() {
        record_stable::<CommandMove, CommandMoveFields>()
    }
}

/// What a machine is told. A move may leave out each of its fields.
#[derive(Drop)]
pub enum Command {
    Ping,
    Text(String),
    Move { x: Option<i64>, y: Option<i64> },
}

// Its variants, and their names.
type CommandCases = UnitCase<DataCase<String, DataCase<CommandMove, NoCase>>>;

const COMMAND_NAMES: &[&str] = &["Ping", "Text", "Move"];

impl DataEnum for Command {
    ghost use Rattle.test_forms.specs.declared.commands.TheConstants.{COMMAND_NAMES};
    ghost use Rattle.test_forms.specs.declared.commands.Command.TheVariants.{Ping, Text, Move};

    type Values = <CommandCases as Cases>::Values;

    ghost names = { names_of COMMAND_NAMES };

    ghost values = { elim [
      | Ping ↦ first_case tt
      | Text x0 ↦ later_case (first_case x0)
      | Move x0 x1
          ↦ later_case (later_case (first_case (record { x = x0; y = x1 })))
    ] };

    ghost made = { each_case _ (λ x. Ping) (each_case _ (λ x. Text x) (each_case _ (λ x. Move x.x
        x.y) (any_of_never _))) };

    ghost bijective = { (
      elim [ Ping ↦ refl | Text x0 ↦ refl | Move x0 x1 ↦ refl ],
      each_case _ (λ
          x. refl) (each_case _ (λ x. refl) (each_case _ (λ x. refl) (any_of_never _))),
    ) };

    ghost distinct_names = { refl };

    fn names() -> &'static [&'static str] {
        COMMAND_NAMES
    }

    fn build(value: Self::Values) -> Command {
        match value {
            OneOf::First(()) => Command::Ping,
            OneOf::Later(value) => match value {
                OneOf::First(a) => Command::Text(a),
                OneOf::Later(value) => match value {
                    OneOf::First(CommandMove { x, y }) => Command::Move { x, y },
                    OneOf::Later(value) => match value {},
                },
            },
        }
    }
}

impl FromJson for Command {
    ghost means = { enum_meaning ⟦<CommandCases as Cases>⟧.meaning ⟦<Command as DataEnum>⟧.names
        refl ⟦<Command as DataEnum>⟧.values };

    fn missing() -> Option<Command> {
        None
    }

    fn read<'a>(token: Event<'a>, source: &mut Source<'a>) -> Result<Command> {
        read_enum::<Command, CommandCases>(token, source)
    }
}

impl Serialize for Command {
    ghost tree = { enum_tree ⟦<Command as DataEnum>⟧.names ⟦<CommandCases as WrittenCases>⟧.tree
        ⟦<Command as DataEnum>⟧.values };

    fn begin(&self, w: &mut Writer) -> Result<()> {
        match self {
            Command::Ping => w.fragment(Fragment::Str("Ping")),
            Command::Text(a) => write_data(w, "Text", a),
            Command::Move { x, y } => {
                write_fields(
                    w,
                    "Move",
                    COMMAND_MOVE_NAMES,
                    &Parts(Omitted(x), Parts(Omitted(y), ())),
                )
            },
        }
    }
}

impl Ranged for Command {
    ghost valid = { λ v. ⟦<CommandCases as WrittenCases>⟧.valid (⟦<Command as DataEnum>⟧.values v) };

    fn ranged(&self) {
        match self {
            Command::Ping => {}
            Command::Text(a) => a.ranged(),
            Command::Move { x, y } => {
                x.ranged();
                y.ranged();
            },
        }
    }
}

impl RoundTrip for Command {
    fn round_trips() {
        enum_round_trips::<Command, CommandCases>()
    }
}

impl Lossless for Command {
    fn lossless() {
        enum_lossless::<Command, CommandCases>()
    }
}

impl NeverNull for Command {
    fn never_null() {}
}

impl Stable for Command {
    fn stable() {
        enum_stable::<Command, CommandCases>()
    }
}
