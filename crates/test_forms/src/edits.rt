//! A change and what it has, internally tagged: what `./derive` writes of `changes.rs`.
ghost use Rattle.miniserde.specs.Cases.{each_case, first_case, later_case, any_of_never, tagged_tree};
ghost use Rattle.miniserde.specs.CasesMeaning.{tagged_meaning};
ghost use Rattle.miniserde.specs.Structs.{names_of};
ghost use Rattle.std.specs.Prelude.{codes, refl};

use crate::generic::Both;
use miniserde::derived::{
    DataCase, DataEnum, Event, FromJson, HasTag, InsideCases, Lossless, NeverNull, NoCase,
    NoFields, OneOf, Ranged, Result, RoundTrip, Serialize, Source, Stable, Writer, WrittenCases,
    read_tagged, tag_fits, tagged_lossless, tagged_round_trips, tagged_stable, write_tagged,
    write_tagged_fields,
};

/// An edit, whose tag has the name of the change's that it may stand in.
#[derive(Drop)]
pub enum Edit {
    Reset,
    SetName(Both<String, Option<u8>>),
    BothOf(Both<u8, String>),
    Accent,
}

// Its variants, and their names.
type EditCases = DataCase<
    NoFields,
    DataCase<Both<String, Option<u8>>, DataCase<Both<u8, String>, DataCase<NoFields, NoCase>>>,
>;

const EDIT_NAMES: &[&str] = &["reset", "set_name", "both_of", "é"];

impl DataEnum for Edit {
    ghost use Rattle.test_forms.specs.declared.edits.TheConstants.{EDIT_NAMES};
    ghost use Rattle.test_forms.specs.declared.edits.Edit.TheVariants.{Reset, SetName, BothOf, Accent};

    type Values = <EditCases as InsideCases>::Values;

    ghost names = { names_of EDIT_NAMES };

    ghost values = { elim [
      | Reset ↦ first_case (record {})
      | SetName x0 ↦ later_case (first_case
          x0)
      | BothOf x0 ↦ later_case (later_case (first_case x0))
      | Accent ↦ later_case (later_case
          (later_case (first_case (record {}))))
    ] };

    ghost made = { each_case _ (λ x. Reset) (each_case _ (λ x. SetName x) (each_case _ (λ x. BothOf
        x) (each_case _ (λ x. Accent) (any_of_never _)))) };

    ghost bijective = { (
      elim [
        | Reset ↦ refl
        | SetName x0 ↦ refl
        | BothOf x0 ↦ refl
        | Accent ↦ refl
      ],
      each_case _ (λ x. refl) (each_case _ (λ x. refl) (each_case _ (λ x. refl) (each_case _ (λ
          x. refl) (any_of_never _)))),
    ) };

    ghost distinct_names = { refl };

    fn names() -> &'static [&'static str] {
        EDIT_NAMES
    }

    fn build(value: Self::Values) -> Edit {
        match value {
            OneOf::First(NoFields {}) => Edit::Reset,
            OneOf::Later(value) => match value {
                OneOf::First(a) => Edit::SetName(a),
                OneOf::Later(value) => match value {
                    OneOf::First(a) => Edit::BothOf(a),
                    OneOf::Later(value) => match value {
                        OneOf::First(NoFields {}) => Edit::Accent,
                        OneOf::Later(value) => match value {},
                    },
                },
            },
        }
    }
}

const EDIT_TAG: &[&str] = &["type"];

impl HasTag for Edit {
    ghost use Rattle.test_forms.specs.declared.edits.TheConstants.{EDIT_TAG};

    ghost tag = { codes "type" };

    fn tag() -> &'static [&'static str] {
        EDIT_TAG
    }
}

impl FromJson for Edit {
    ghost means = { tagged_meaning ⟦<EditCases as InsideCases>⟧.meaning ⟦<Edit as HasTag>⟧.tag
        ⟦<Edit as DataEnum>⟧.names refl ⟦<Edit as DataEnum>⟧.values };

    fn missing() -> Option<Edit> {
        None
    }

    fn read<'a>(token: Event<'a>, source: &mut Source<'a>) -> Result<Edit> {
        read_tagged::<Edit, EditCases>(token, source)
    }
}

impl Serialize for Edit {
    ghost tree = { tagged_tree ⟦<Edit as HasTag>⟧.tag ⟦<Edit as DataEnum>⟧.names ⟦<EditCases as WrittenCases>⟧.tree ⟦<Edit as DataEnum>⟧.values };

    fn begin(&self, w: &mut Writer) -> Result<()> {
        match self {
            Edit::Reset => { write_tagged_fields(w, "type", "reset", &[], &()) },
            Edit::SetName(a) => write_tagged(w, "type", "set_name", a),
            Edit::BothOf(a) => write_tagged(w, "type", "both_of", a),
            Edit::Accent => { write_tagged_fields(w, "type", "é", &[], &()) },
        }
    }
}

impl Ranged for Edit {
    ghost valid = { λ v. ⟦<EditCases as WrittenCases>⟧.valid (⟦<Edit as DataEnum>⟧.values v) };

    fn ranged(&self) {
        match self {
            Edit::Reset => {}
            Edit::SetName(a) => a.ranged(),
            Edit::BothOf(a) => a.ranged(),
            Edit::Accent => {},
        }
    }
}

impl RoundTrip for Edit {
    fn round_trips() {
        tag_fits::<Edit, EditCases>();
        tagged_round_trips::<Edit, EditCases>()
    }
}

impl Lossless for Edit {
    fn lossless() {
        tag_fits::<Edit, EditCases>();
        tagged_lossless::<Edit, EditCases>()
    }
}

impl NeverNull for Edit {
    fn never_null() {}
}

impl Stable for Edit {
    fn stable() {
        tagged_stable::<Edit, EditCases>()
    }
}
