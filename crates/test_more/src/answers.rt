//! The types of `answers.rs`, with the impls that `./derive` writes.
ghost use Rattle.miniserde.specs.Cases.{each_case, first_case, later_case, any_of_never};
ghost use Rattle.miniserde.specs.FieldsMeaning.{struct_meaning};
ghost use Rattle.miniserde.specs.Structs.{names_of, record_tree};
ghost use Rattle.miniserde_more.specs.Untagged.{untagged_tree};
ghost use Rattle.miniserde_more.specs.UntaggedMeaning.{untagged_meaning};
ghost use Rattle.miniserde_more.specs.laws.Kinds.{by_tree};
ghost use Rattle.std.specs.Prelude.{refl};

use miniserde::derived::{
    DataCase, Event, Fragment, FromJson, Lossless, NeverNull, NoCase, NoSlot, OneOf, Parts, Ranged,
    Record, Result, RoundTrip, Serialize, Slot, Slots, Source, Stable, Writer, WrittenFields,
    read_record, record_lossless, record_round_trips, record_stable, write_members,
};
use miniserde_more::untagged::{
    HasKinds, ObjectKind, UntaggedCases, UntaggedEnum, WrittenUntagged, read_untagged,
    untagged_lossless, untagged_round_trips, untagged_stable,
};

/// What a program is told.
#[derive(Drop)]
pub struct Reply {
    pub retries: u8,
    pub name: Option<String>,
}

// Its fields, and their names.
type ReplyFields = Slot<u8, Slot<Option<String>, NoSlot>>;

const REPLY_NAMES: &[&str] = &["retries", "name"];

impl Record for Reply {
    ghost use Rattle.test_more.specs.declared.answers.TheConstants.{REPLY_NAMES};

    type Values = <ReplyFields as Slots>::Values;

    ghost names = { names_of REPLY_NAMES };

    ghost values = { λ v. (v.retries, (v.name, tt)) };

    ghost made = { λ x. record { retries = x.0; name = x.1.0 } };

    ghost bijective = { (λ v. refl, λ x. refl) };

    ghost distinct_names = { refl };

    fn names() -> &'static [&'static str] {
        REPLY_NAMES
    }

    fn build(parts: Self::Values) -> Reply {
        let Parts(retries, Parts(name, ())) = parts;
        Reply { retries, name }
    }
}

impl FromJson for Reply {
    ghost means = { struct_meaning ⟦<ReplyFields as Slots>⟧.meaning ⟦<Reply as Record>⟧.names
        ⟦<Reply as Record>⟧.values };

    fn missing() -> Option<Reply> {
        None
    }

    fn read<'a>(token: Event<'a>, source: &mut Source<'a>) -> Result<Reply> {
        read_record::<Reply, ReplyFields>(token, source)
    }
}

impl Serialize for Reply {
    ghost tree = { record_tree ⟦<Reply as Record>⟧.names ⟦<ReplyFields as WrittenFields>⟧.trees
        ⟦<Reply as Record>⟧.values };

    fn begin(&self, w: &mut Writer) -> Result<()> {
        write_members(w, REPLY_NAMES, &Parts(&self.retries, Parts(&self.name, ())))
    }
}

impl Ranged for Reply {
    ghost valid = { λ v. ⟦<ReplyFields as WrittenFields>⟧.valid (⟦<Reply as Record>⟧.values v) };

    fn ranged(&self) {
        self.retries.ranged();
        self.name.ranged();
    }
}

impl RoundTrip for Reply {
    fn round_trips() {
        record_round_trips::<Reply, ReplyFields>()
    }
}

impl Lossless for Reply {
    fn lossless() {
        record_lossless::<Reply, ReplyFields>()
    }
}

impl NeverNull for Reply {
    fn never_null() {}
}

impl Stable for Reply {
    fn stable() {
        record_stable::<Reply, ReplyFields>()
    }
}

impl HasKinds for Reply {
    type Kinds = ObjectKind;

    ghost only = { by_tree _ _ refl (λ _. refl) (λ _. refl) (λ _. refl) (λ _. refl) (λ _. refl) (λ _. refl) (λ _. tt) };
}

/// What is answered.
#[derive(Drop)]
pub enum Answer {
    Text(String),
    Data(Reply),
    None,
}

// Its variants.
type AnswerCases = DataCase<String, DataCase<Reply, DataCase<(), NoCase>>>;

impl UntaggedEnum for Answer {
    ghost use Rattle.test_more.specs.declared.answers.Answer.TheVariants.{Text, Data, None};

    type Values = <AnswerCases as UntaggedCases>::Values;

    ghost values = { elim [
      | Text x0 ↦ first_case x0
      | Data x0 ↦ later_case (first_case x0)
      | None ↦
          later_case (later_case (first_case tt))
    ] };

    ghost made = { each_case _ (λ x. Text x) (each_case _ (λ x. Data x) (each_case _ (λ x. None)
        (any_of_never _))) };

    ghost bijective = { (
      elim [ Text x0 ↦ refl | Data x0 ↦ refl | None ↦ refl ],
      each_case _ (λ x.
          refl) (each_case _ (λ x. refl) (each_case _ (λ x. refl) (any_of_never _))),
    ) };

    fn build(value: Self::Values) -> Answer {
        match value {
            OneOf::First(a) => Answer::Text(a),
            OneOf::Later(value) => match value {
                OneOf::First(a) => Answer::Data(a),
                OneOf::Later(value) => match value {
                    OneOf::First(()) => Answer::None,
                    OneOf::Later(value) => match value {},
                },
            },
        }
    }
}

impl FromJson for Answer {
    ghost means = { untagged_meaning ⟦<AnswerCases as UntaggedCases>⟧.meaning ⟦<Answer as UntaggedEnum>⟧.values };

    fn missing() -> Option<Answer> {
        None
    }

    fn read<'a>(token: Event<'a>, source: &mut Source<'a>) -> Result<Answer> {
        read_untagged::<Answer, AnswerCases>(token, source)
    }
}

impl Serialize for Answer {
    ghost tree = { untagged_tree ⟦<AnswerCases as WrittenUntagged>⟧.tree ⟦<Answer as UntaggedEnum>⟧.values };

    fn begin(&self, w: &mut Writer) -> Result<()> {
        match self {
            Answer::Text(a) => a.begin(w),
            Answer::Data(a) => a.begin(w),
            Answer::None => w.fragment(Fragment::Null),
        }
    }
}

impl Ranged for Answer {
    ghost valid = { λ v. ⟦<AnswerCases as WrittenUntagged>⟧.valid (⟦<Answer as UntaggedEnum>⟧.values
        v) };

    fn ranged(&self) {
        match self {
            Answer::Text(a) => a.ranged(),
            Answer::Data(a) => a.ranged(),
            Answer::None => {},
        }
    }
}

impl RoundTrip for Answer {
    fn round_trips() {
        untagged_round_trips::<Answer, AnswerCases>()
    }
}

impl Lossless for Answer {
    fn lossless() {
        untagged_lossless::<Answer, AnswerCases>()
    }
}

impl Stable for Answer {
    fn stable() {
        untagged_stable::<Answer, AnswerCases>()
    }
}
