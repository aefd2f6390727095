//! The types of `reply.rs`, with the impls that `./derive` writes.
ghost use Rattle.miniserde.specs.Cases.{each_case, enum_tree, first_case, later_case, any_of_never};
ghost use Rattle.miniserde.specs.CasesMeaning.{enum_meaning};
ghost use Rattle.miniserde.specs.FieldsMeaning.{struct_meaning};
ghost use Rattle.miniserde.specs.Structs.{names_of, record_tree};
ghost use Rattle.miniserde.specs.Tree.{nonneg};
ghost use Rattle.std.specs.Prelude.{refl};

use miniserde::derived::{
    Cases, DataCase, DataEnum, Event, Fragment, FromJson, Given, Global, Lossless, MarkedSlot,
    NeverNull, NoCase, NoSlot, Once, OneOf, Parts, Ranged, Record, Result, RoundTrip, Serialize,
    Slot, Slots, Source, Stable, UnitCase, WithDefault, Writer, WrittenCases, WrittenFields,
    enum_lossless, enum_round_trips, enum_stable, read_enum, read_record, record_lossless,
    record_round_trips, record_stable, write_data, write_fields, write_members_in_order,
};

/// The fields of `Reply::Failed`.
#[derive(Drop)]
pub struct ReplyFailed {
    pub code: u32,
    pub why: Option<String>,
}

/// The value of a missing `code`.
#[derive(Drop)]
pub struct ReplyFailedCodeDefault {}

impl Given<u32> for ReplyFailedCodeDefault {
    ghost given = { nonneg 500 };

    fn make(_alloc: Global) -> Result<u32> {
        Ok(500)
    }
}

// Its fields, and their names.
type ReplyFailedFields = MarkedSlot<
    u32,
    Once<WithDefault<ReplyFailedCodeDefault>>,
    Slot<Option<String>, NoSlot>,
>;

const REPLY_FAILED_NAMES: &[&str] = &["code", "why"];

impl Record for ReplyFailed {
    ghost use Rattle.examples.specs.declared.reply.TheConstants.{REPLY_FAILED_NAMES};

    type Values = <ReplyFailedFields as Slots>::Values;

    ghost names = { names_of REPLY_FAILED_NAMES };

    ghost values = { λ v. (v.code, (v.why, tt)) };

    ghost made = { λ x. record { code = x.0; why = x.1.0 } };

    ghost bijective = { (λ v. refl, λ x. refl) };

    ghost distinct_names = { refl };

    fn names() -> &'static [&'static str] {
        REPLY_FAILED_NAMES
    }

    fn build(parts: Self::Values) -> ReplyFailed {
        let Parts(code, Parts(why, ())) = parts;
        ReplyFailed { code, why }
    }
}

impl FromJson for ReplyFailed {
    ghost means = { struct_meaning ⟦<ReplyFailedFields as Slots>⟧.meaning ⟦<ReplyFailed as Record>⟧.names ⟦<ReplyFailed as Record>⟧.values };

    fn missing() -> Option<ReplyFailed> {
        None
    }

    fn read<'a>(token: Event<'a>, source: &mut Source<'a>) -> Result<ReplyFailed> {
        read_record::<ReplyFailed, ReplyFailedFields>(token, source)
    }
}

impl Serialize for ReplyFailed {
    ghost tree = { record_tree ⟦<ReplyFailed as Record>⟧.names ⟦<ReplyFailedFields as WrittenFields>⟧.trees ⟦<ReplyFailed as Record>⟧.values };

    fn begin(&self, w: &mut Writer) -> Result<()> {
        write_members_in_order(
            w,
            REPLY_FAILED_NAMES,
            &Parts(&self.code, Parts(&self.why, ())),
        )
    }
}

impl Ranged for ReplyFailed {
    ghost valid = { λ v. ⟦<ReplyFailedFields as WrittenFields>⟧.valid (⟦<ReplyFailed as Record>⟧.values v) };

    fn ranged(&self) {
        self.code.ranged();
        self.why.ranged();
    }
}

impl RoundTrip for ReplyFailed {
    fn round_trips() {
        record_round_trips::<ReplyFailed, ReplyFailedFields>()
    }
}

impl Lossless for ReplyFailed {
    fn lossless() {
        record_lossless::<ReplyFailed, ReplyFailedFields>()
    }
}

impl NeverNull for ReplyFailed {
    fn never_null() {}
}

impl Stable for ReplyFailed {
    fn stable() {
        record_stable::<ReplyFailed, ReplyFailedFields>()
    }
}

/// What a server answers.
#[derive(Drop)]
pub enum Reply<T> {
    Done(T),
    /// It lies between two.
    Between(T, T),
    Failed { code: u32, why: Option<String> },
    Gone,
}

// Its variants, and their names.
type ReplyCases<T> = DataCase<T, DataCase<(T, T), DataCase<ReplyFailed, UnitCase<NoCase>>>>;

const REPLY_NAMES: &[&str] = &["Done", "Between", "Failed", "gone"];

impl<T: FromJson> DataEnum for Reply<T> {
    ghost use Rattle.examples.specs.declared.reply.TheConstants.{REPLY_NAMES};
    ghost use Rattle.examples.specs.declared.reply.Reply.TheVariants.{Done, Between, Failed, Gone};

    type Values = <ReplyCases<T> as Cases>::Values;

    ghost names = { names_of REPLY_NAMES };

    ghost values = { elim [
      | Done x0 ↦ first_case x0
      | Between x0 x1 ↦ later_case (first_case (
        x0,
        x1,
      ))
      | Failed x0 x1 ↦ later_case (later_case (first_case (record { code = x0; why = x1 })))
      | Gone ↦ later_case (later_case (later_case (first_case tt)))
    ] };

    ghost made = { each_case _ (λ x. Done x) (each_case _ (λ x. Between x.0 x.1) (each_case _ (λ x.
        Failed x.code x.why) (each_case _ (λ x. Gone) (any_of_never _)))) };

    ghost bijective = { (
      elim [
        | Done x0 ↦ refl
        | Between x0 x1 ↦ refl
        | Failed x0 x1 ↦ refl
        | Gone ↦
            refl
      ],
      each_case _ (λ x. refl) (each_case _ (λ x. refl) (each_case _ (λ x. refl) (each_case
          _ (λ x. refl) (any_of_never _)))),
    ) };

    ghost distinct_names = { refl };

    fn names() -> &'static [&'static str] {
        REPLY_NAMES
    }

    fn build(value: Self::Values) -> Reply<T> {
        match value {
            OneOf::First(a) => Reply::Done(a),
            OneOf::Later(value) => match value {
                OneOf::First((a, b)) => Reply::Between(a, b),
                OneOf::Later(value) => match value {
                    OneOf::First(ReplyFailed { code, why }) => Reply::Failed { code, why },
                    OneOf::Later(value) => match value {
                        OneOf::First(()) => Reply::Gone,
                        OneOf::Later(value) => match value {},
                    },
                },
            },
        }
    }
}

impl<T: FromJson> FromJson for Reply<T> {
    ghost means = { enum_meaning ⟦<ReplyCases<T> as Cases>⟧.meaning ⟦<Reply<T> as DataEnum>⟧.names
        refl ⟦<Reply<T> as DataEnum>⟧.values };

    fn missing() -> Option<Reply<T>> {
        None
    }

    fn read<'a>(token: Event<'a>, source: &mut Source<'a>) -> Result<Reply<T>> {
        read_enum::<Reply<T>, ReplyCases<T>>(token, source)
    }
}

impl<T: FromJson + Ranged + Serialize> Serialize for Reply<T> {
    ghost tree = { enum_tree ⟦<Reply<T> as DataEnum>⟧.names ⟦<ReplyCases<T> as WrittenCases>⟧.tree
        ⟦<Reply<T> as DataEnum>⟧.values };

    fn begin(&self, w: &mut Writer) -> Result<()> {
        match self {
            Reply::Done(a) => write_data(w, "Done", a),
            Reply::Between(a, b) => write_data(w, "Between", &(a, b)),
            Reply::Failed { code, why } => {
                write_fields(
                    w,
                    "Failed",
                    REPLY_FAILED_NAMES,
                    &Parts(code, Parts(why, ())),
                )
            },
            Reply::Gone => w.fragment(Fragment::Str("gone")),
        }
    }
}

impl<T: FromJson + Ranged + Serialize> Ranged for Reply<T> {
    ghost valid = { λ v. ⟦<ReplyCases<T> as WrittenCases>⟧.valid (⟦<Reply<T> as DataEnum>⟧.values v) };

    fn ranged(&self) {
        match self {
            Reply::Done(a) => a.ranged(),
            Reply::Between(a, b) => {
                a.ranged();
                b.ranged();
            },
            Reply::Failed { code, why } => {
                code.ranged();
                why.ranged();
            },
            Reply::Gone => {},
        }
    }
}

impl<T: RoundTrip> RoundTrip for Reply<T> {
    fn round_trips() {
        enum_round_trips::<Reply<T>, ReplyCases<T>>()
    }
}

impl<T: Lossless> Lossless for Reply<T> {
    fn lossless() {
        enum_lossless::<Reply<T>, ReplyCases<T>>()
    }
}

impl<T: RoundTrip> NeverNull for Reply<T> {
    fn never_null() {}
}

impl<T: Stable> Stable for Reply<T> {
    fn stable() {
        enum_stable::<Reply<T>, ReplyCases<T>>()
    }
}
