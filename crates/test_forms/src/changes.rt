//! The types of `changes.rs`, with the impls that `./derive` writes.
ghost use Rattle.miniserde.specs.Aliases.{aliases_of};
ghost use Rattle.miniserde.specs.Cases.{each_case, first_case, later_case, any_of_never, tagged_tree};
ghost use Rattle.miniserde.specs.CasesMeaning.{tagged_meaning};
ghost use Rattle.miniserde.specs.FieldsMeaning.{struct_meaning};
ghost use Rattle.miniserde.specs.Structs.{names_of, record_tree};
ghost use Rattle.std.specs.Prelude.{codes, refl};

use crate::edits::Edit;
use crate::generic::Both;
use crate::hosts::Host;
use miniserde::derived::{
    Aliased, BesideTag, DataCase, DataEnum, Event, FromJson, HasAliases, HasTag, Inside,
    InsideCases, Lossless, Members, NeverNull, NoCase, NoFields, NoSlot, OmitSlot, Omitted, OneOf,
    Parts, Plain, Ranged, Record, Result, RoundTrip, Serialize, Slot, Slots, Source, Writer,
    WrittenCases, WrittenFields, aliased_round_trips, fields_named, read_record, read_tagged,
    record_lossless, tag_fits, tagged_lossless, tagged_round_trips, write_members_in_order,
    write_tagged, write_tagged_fields,
};

/// The fields of `Change::Mark`.
#[derive(Drop)]
pub struct ChangeMark {
    pub at: (u8, u8, u8),
    pub note: Option<String>,
}

// Its fields, and their names.
type ChangeMarkFields = Slot<(u8, u8, u8), OmitSlot<String, Plain, NoSlot>>;

const CHANGE_MARK_NAMES: &[&str] = &["at", "note"];

impl Record for ChangeMark {
    ghost use Rattle.test_forms.specs.declared.changes.TheConstants.{CHANGE_MARK_NAMES};

    type Values = <ChangeMarkFields as Slots>::Values;

    ghost names = { names_of CHANGE_MARK_NAMES };

    ghost values = { λ v. (v.at, (v.note, tt)) };

    ghost made = { λ x. record { at = x.0; note = x.1.0 } };

    ghost bijective = { (λ v. refl, λ x. refl) };

    ghost distinct_names = { refl };

    fn names() -> &'static [&'static str] {
        CHANGE_MARK_NAMES
    }

    fn build(parts: Self::Values) -> ChangeMark {
        let Parts(at, Parts(note, ())) = parts;
        ChangeMark { at, note }
    }
}

const CHANGE_MARK_ALIASES: &[(&str, &str)] = &[("old", "at"), ("new", "note")];

impl HasAliases for ChangeMark {
    ghost use Rattle.test_forms.specs.declared.changes.TheConstants.{CHANGE_MARK_ALIASES};

    ghost aliases = { aliases_of CHANGE_MARK_ALIASES };

    ghost apart = { refl };

    fn aliases() -> &'static [(&'static str, &'static str)] {
        CHANGE_MARK_ALIASES
    }
}

impl FromJson for ChangeMark {
    ghost means = { struct_meaning ⟦<Aliased<ChangeMark, ChangeMarkFields> as Slots>⟧.meaning
        ⟦<ChangeMark as Record>⟧.names ⟦<ChangeMark as Record>⟧.values };

    fn missing() -> Option<ChangeMark> {
        None
    }

    fn read<'a>(token: Event<'a>, source: &mut Source<'a>) -> Result<ChangeMark> {
        read_record::<ChangeMark, Aliased<ChangeMark, ChangeMarkFields>>(token, source)
    }
}

impl Serialize for ChangeMark {
    ghost tree = { record_tree ⟦<ChangeMark as Record>⟧.names ⟦<ChangeMarkFields as WrittenFields>⟧.trees ⟦<ChangeMark as Record>⟧.values };

    fn begin(&self, w: &mut Writer) -> Result<()> {
        write_members_in_order(
            w,
            CHANGE_MARK_NAMES,
            &Parts(&self.at, Parts(Omitted(&self.note), ())),
        )
    }
}

impl Ranged for ChangeMark {
    ghost valid = { λ v. ⟦<ChangeMarkFields as WrittenFields>⟧.valid (⟦<ChangeMark as Record>⟧.values v) };

    fn ranged(&self) {
        self.at.ranged();
        self.note.ranged();
    }
}

impl RoundTrip for ChangeMark {
    fn round_trips() {
        aliased_round_trips::<ChangeMark, ChangeMarkFields>()
    }
}

impl Lossless for ChangeMark {
    fn lossless() {
        record_lossless::<ChangeMark, ChangeMarkFields>()
    }
}

impl NeverNull for ChangeMark {
    fn never_null() {}
}

impl Inside for ChangeMark {
    ghost fields = { ⟦<ChangeMark as Record>⟧.names };

    fn read_inside<'a, E: HasTag>(token: Event<'a>, source: &mut Source<'a>) -> Result<ChangeMark> {
        read_record::<ChangeMark, BesideTag<E, Aliased<ChangeMark, ChangeMarkFields>>>(
            token, source,
        )
    }

    fn write_inside(&self, w: &mut Writer) -> Result<()> {
        Members::write(
            &Parts(&self.at, Parts(Omitted(&self.note), ())),
            w,
            CHANGE_MARK_NAMES,
        )
    }

    fn is_object() {
        fields_named()
    }
}

/// A change: the data of its variants stands in one object with the tag.
#[derive(Drop)]
pub enum Change {
    Clear,
    Add(Host),
    Mark {
        at: (u8, u8, u8),
        note: Option<String>,
    },
    Deep(Both<Edit, Vec<Edit>>),
}

// Its variants, and their names.
type ChangeCases = DataCase<
    NoFields,
    DataCase<Host, DataCase<ChangeMark, DataCase<Both<Edit, Vec<Edit>>, NoCase>>>,
>;

const CHANGE_NAMES: &[&str] = &["Clear", "Add", "Mark", "Deep"];

impl DataEnum for Change {
    ghost use Rattle.test_forms.specs.declared.changes.TheConstants.{CHANGE_NAMES};
    ghost use Rattle.test_forms.specs.declared.changes.Change.TheVariants.{Clear, Add, Mark, Deep};

    type Values = <ChangeCases as InsideCases>::Values;

    ghost names = { names_of CHANGE_NAMES };

    ghost values = { elim [
      | Clear ↦ first_case (record {})
      | Add x0 ↦ later_case (first_case x0)
      | Mark x0 x1 ↦ later_case (later_case (first_case (record { at = x0; note = x1 })))
      | Deep x0
          ↦ later_case (later_case (later_case (first_case x0)))
    ] };

    ghost made = { each_case _ (λ x. Clear) (each_case _ (λ x. Add x) (each_case _ (λ x. Mark x.at
        x.note) (each_case _ (λ x. Deep x) (any_of_never _)))) };

    ghost bijective = { (
      elim [ Clear ↦ refl | Add x0 ↦ refl | Mark x0 x1 ↦ refl | Deep x0 ↦ refl ],
      each_case _ (λ x. refl) (each_case _ (λ x. refl) (each_case _ (λ x. refl) (each_case _ (λ x.
          refl) (any_of_never _)))),
    ) };

    ghost distinct_names = { refl };

    fn names() -> &'static [&'static str] {
        CHANGE_NAMES
    }

    fn build(value: Self::Values) -> Change {
        match value {
            OneOf::First(NoFields {}) => Change::Clear,
            OneOf::Later(value) => match value {
                OneOf::First(a) => Change::Add(a),
                OneOf::Later(value) => match value {
                    OneOf::First(ChangeMark { at, note }) => Change::Mark { at, note },
                    OneOf::Later(value) => match value {
                        OneOf::First(a) => Change::Deep(a),
                        OneOf::Later(value) => match value {},
                    },
                },
            },
        }
    }
}

const CHANGE_TAG: &[&str] = &["type"];

impl HasTag for Change {
    ghost use Rattle.test_forms.specs.declared.changes.TheConstants.{CHANGE_TAG};

    ghost tag = { codes "type" };

    fn tag() -> &'static [&'static str] {
        CHANGE_TAG
    }
}

impl FromJson for Change {
    ghost means = { tagged_meaning ⟦<ChangeCases as InsideCases>⟧.meaning ⟦<Change as HasTag>⟧.tag
        ⟦<Change as DataEnum>⟧.names refl ⟦<Change as DataEnum>⟧.values };

    fn missing() -> Option<Change> {
        None
    }

    fn read<'a>(token: Event<'a>, source: &mut Source<'a>) -> Result<Change> {
        read_tagged::<Change, ChangeCases>(token, source)
    }
}

impl Serialize for Change {
    ghost tree = { tagged_tree ⟦<Change as HasTag>⟧.tag ⟦<Change as DataEnum>⟧.names ⟦<ChangeCases as WrittenCases>⟧.tree ⟦<Change as DataEnum>⟧.values };

    fn begin(&self, w: &mut Writer) -> Result<()> {
        match self {
            Change::Clear => { write_tagged_fields(w, "type", "Clear", &[], &()) },
            Change::Add(a) => write_tagged(w, "type", "Add", a),
            Change::Mark { at, note } => {
                write_tagged_fields(
                    w,
                    "type",
                    "Mark",
                    CHANGE_MARK_NAMES,
                    &Parts(at, Parts(Omitted(note), ())),
                )
            },
            Change::Deep(a) => write_tagged(w, "type", "Deep", a),
        }
    }
}

impl Ranged for Change {
    ghost valid = { λ v. ⟦<ChangeCases as WrittenCases>⟧.valid (⟦<Change as DataEnum>⟧.values v) };

    fn ranged(&self) {
        match self {
            Change::Clear => {}
            Change::Add(a) => a.ranged(),
            Change::Mark { at, note } => {
                at.ranged();
                note.ranged();
            },
            Change::Deep(a) => a.ranged(),
        }
    }
}

impl RoundTrip for Change {
    fn round_trips() {
        tag_fits::<Change, ChangeCases>();
        tagged_round_trips::<Change, ChangeCases>()
    }
}

impl Lossless for Change {
    fn lossless() {
        tag_fits::<Change, ChangeCases>();
        tagged_lossless::<Change, ChangeCases>()
    }
}

impl NeverNull for Change {
    fn never_null() {}
}
