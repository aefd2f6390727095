//! The types of `notes.rs`, with the impls that `./derive` writes.
ghost use Rattle.miniserde.specs.Cases.{each_case, first_case, later_case, any_of_never, tagged_tree};
ghost use Rattle.miniserde.specs.CasesMeaning.{tagged_meaning};
ghost use Rattle.miniserde.specs.Structs.{names_of};
ghost use Rattle.std.specs.Prelude.{codes, refl};

use miniserde::derived::{
    DataCase, DataEnum, Event, FromJson, HasTag, InsideCases, Lossless, NeverNull, NoCase,
    NoFields, OneOf, Parts, Ranged, Result, RoundTrip, Serialize, Source, Stable, Writer,
    WrittenCases, read_tagged, tag_fits, tagged_lossless, tagged_round_trips, tagged_stable,
    write_tagged_fields,
};
use miniserde_more::adjacent::{Content, HasContent};

/// A note.
#[derive(Drop)]
pub enum Note {
    Text(String),
    Ping,
    Bytes(Vec<u8>),
}

// Its variants, and their names.
type NoteCases = DataCase<
    Content<Note, String>,
    DataCase<NoFields, DataCase<Content<Note, Vec<u8>>, NoCase>>,
>;

const NOTE_NAMES: &[&str] = &["Text", "Ping", "Bytes"];

impl DataEnum for Note {
    ghost use Rattle.test_more.specs.declared.notes.TheConstants.{NOTE_NAMES};
    ghost use Rattle.test_more.specs.declared.notes.Note.TheVariants.{Text, Ping, Bytes};

    type Values = <NoteCases as InsideCases>::Values;

    ghost names = { names_of NOTE_NAMES };

    ghost values = { elim [
      | Text x0 ↦ first_case (record { value = x0; of = record {} })
      | Ping ↦
          later_case (first_case (record {}))
      | Bytes x0 ↦ later_case (later_case (first_case (record
          { value = x0; of = record {} })))
    ] };

    ghost made = { each_case _ (λ x. Text x.value) (each_case _ (λ x. Ping) (each_case _ (λ x. Bytes
        x.value) (any_of_never _))) };

    ghost bijective = { (
      elim [ Text x0 ↦ refl | Ping ↦ refl | Bytes x0 ↦ refl ],
      each_case _ (λ x.
          refl) (each_case _ (λ x. refl) (each_case _ (λ x. refl) (any_of_never _))),
    ) };

    ghost distinct_names = { refl };

    fn names() -> &'static [&'static str] {
        NOTE_NAMES
    }

    fn build(value: Self::Values) -> Note {
        match value {
            OneOf::First(Content { value: a, of: _ }) => Note::Text(a),
            OneOf::Later(value) => match value {
                OneOf::First(NoFields {}) => Note::Ping,
                OneOf::Later(value) => match value {
                    OneOf::First(Content { value: a, of: _ }) => Note::Bytes(a),
                    OneOf::Later(value) => match value {},
                },
            },
        }
    }
}

const NOTE_TAG: &[&str] = &["kind"];

impl HasTag for Note {
    ghost use Rattle.test_more.specs.declared.notes.TheConstants.{NOTE_TAG};

    ghost tag = { codes "kind" };

    fn tag() -> &'static [&'static str] {
        NOTE_TAG
    }
}

const NOTE_CONTENT: &[&str] = &["data"];

impl HasContent for Note {
    ghost use Rattle.test_more.specs.declared.notes.TheConstants.{NOTE_CONTENT};

    ghost content = { codes "data" };

    fn content() -> &'static [&'static str] {
        NOTE_CONTENT
    }
}

impl FromJson for Note {
    ghost means = { tagged_meaning ⟦<NoteCases as InsideCases>⟧.meaning ⟦<Note as HasTag>⟧.tag
        ⟦<Note as DataEnum>⟧.names refl ⟦<Note as DataEnum>⟧.values };

    fn missing() -> Option<Note> {
        None
    }

    fn read<'a>(token: Event<'a>, source: &mut Source<'a>) -> Result<Note> {
        read_tagged::<Note, NoteCases>(token, source)
    }
}

impl Serialize for Note {
    ghost tree = { tagged_tree ⟦<Note as HasTag>⟧.tag ⟦<Note as DataEnum>⟧.names ⟦<NoteCases as WrittenCases>⟧.tree ⟦<Note as DataEnum>⟧.values };

    fn begin(&self, w: &mut Writer) -> Result<()> {
        match self {
            Note::Text(a) => write_tagged_fields(w, "kind", "Text", NOTE_CONTENT, &Parts(a, ())),
            Note::Ping => { write_tagged_fields(w, "kind", "Ping", &[], &()) },
            Note::Bytes(a) => write_tagged_fields(w, "kind", "Bytes", NOTE_CONTENT, &Parts(a, ())),
        }
    }
}

impl Ranged for Note {
    ghost valid = { λ v. ⟦<NoteCases as WrittenCases>⟧.valid (⟦<Note as DataEnum>⟧.values v) };

    fn ranged(&self) {
        match self {
            Note::Text(a) => a.ranged(),
            Note::Ping => {}
            Note::Bytes(a) => a.ranged(),
        }
    }
}

impl RoundTrip for Note {
    fn round_trips() {
        tag_fits::<Note, NoteCases>();
        tagged_round_trips::<Note, NoteCases>()
    }
}

impl Lossless for Note {
    fn lossless() {
        tag_fits::<Note, NoteCases>();
        tagged_lossless::<Note, NoteCases>()
    }
}

impl NeverNull for Note {
    fn never_null() {}
}

impl Stable for Note {
    fn stable() {
        tagged_stable::<Note, NoteCases>()
    }
}
