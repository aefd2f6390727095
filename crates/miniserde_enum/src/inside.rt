//! Reads and writes data whose members are in one object with the tag.
ghost use Rattle.std.specs.Prelude.{◌≡◌, ◌++◌, ◌&&◌, Bool, true, List, Option, None, OnOk, OnErr, IsErrOf, map, ⊤};
ghost use Rattle.miniserde_text.specs.Lexer.{event_of_token};
ghost use Rattle.miniserde_model.specs.Tree.{Tree, members};
ghost use Rattle.miniserde_model.specs.InRange.{MembersInRange};
ghost use Rattle.miniserde_model.specs.declared.error.Error.TheVariants.{Memory};
ghost use Rattle.miniserde_read.specs.types.Objects.{Name};
ghost use Rattle.miniserde_read.specs.Calls.{Reads};
ghost use Rattle.miniserde_read.specs.Events.{EventInRange};
ghost use Rattle.miniserde_record.specs.Fields.{count_named};
ghost use Rattle.miniserde_record.specs.InOrder.{KeepsTreesNormal};
ghost use Rattle.miniserde_record.specs.Structs.{is_new, with_names, members_text};
ghost use Rattle.miniserde_enum.specs.Internal.{object_members};
ghost use Rattle.miniserde_enum.specs.Inside.{inside_of};
ghost use Rattle.miniserde_enum.specs.Tagging.{Tagging, internal};
ghost use Rattle.miniserde_enum.specs.Cases.{DataFits, with_data};
ghost use Rattle.miniserde_enum.specs.CasesMeaning.{CasesMeaning, no_cases, data_and};

use crate::cases::{DataCase, NoCase};
use crate::one_of::{Never, OneOf};
use crate::tagged::HasTag;
use miniserde_keys::Ranged;
use miniserde_model::error::{Error, Result};
use miniserde_read::{FromJson, Source};
use miniserde_ser::ser::{Serialize, Writer};
use miniserde_text::json::lex::Event;

/// A struct whose members may be in one object with the tag of an enum.
pub trait Inside: Ranged + Serialize + FromJson {
    // The names of the struct's fields.
    ghost fields: { List Name };

    // Whether no member of the name is written beside the fields. It is true of all names if the fields are all that is
    // written.
    ghost left_out: { Name → Bool } = { λ k. true };

    /// Reads one object, whose first token is `token`, and takes no more of the source. Members with the name of the
    /// tag of `E` are skipped. Returns `Invalid` if the text, from `token` on, has no prefix that is an object whose
    /// other members mean a value of the struct, and `Memory` if an allocation fails.
    fn read_inside<'a, E: HasTag>(token: Event<'a>, source: &mut Source<'a>) -> Result<Self>
        requires going { source.old.refused ≡ None }
        requires event { EventInRange (event_of_token token source.old.scratch) }
        ensures { Reads (inside_of E.tag Self.means.from_tree) Self.means.content
            (event_of_token token.entry source.old.scratch) source.old result source.new };

    /// Appends the members of the struct, without brackets. A comma stands before each member that is not the first of
    /// its object. Returns `Memory` if the writer fails.
    fn write_inside(&self, w: &mut Writer) -> Result<()>
        ensures ok { OnOk result (w.new.text
            ≡ w.old.text ++ members_text w.old.first (object_members (Self.tree self.now))) }
        ensures all_in_range { OnOk result (MembersInRange (object_members (Self.tree self.now))) }
        ensures normal { OnOk result (KeepsTreesNormal w.old (object_members (Self.tree self.now)) w.new) }
        ensures unrefused { OnOk result (w.new.refused ≡ w.old.refused) }
        ensures memory { OnErr result (IsErrOf result Memory) }
        ensures err { OnErr result (w.new.refused ≡ true) };

    /// Does nothing. It promises that the tree of each value is an object, and that each of its members has the name
    /// of a field, or one that is not left out.
    fn is_object()
        ensures object { (v : Self) → Self.tree v ≡ members (object_members (Self.tree v)) }
        ensures named { (k : Name) (v : Self) → (left_out k && is_new k fields) ≡ true
            → count_named k (object_members (Self.tree v)) ≡ 0 };
}

/// Does nothing. It promises that each member that is written of a struct has the name of one of its fields.
pub fn fields_named()
    ensures { (k : Name) (names : List Name) (ts : List (Option Tree)) → is_new k names ≡ true
        → count_named k (with_names names ts) ≡ 0 }
{}

/// A chain of variants whose data is in one object with the tag.
pub trait InsideCases {
    /// The value of one of the variants.
    type Values;

    // Which trees mean which values of the variants.
    ghost meaning: { CasesMeaning Self.Values };

    // Which taggings fit: by them, the tree that is written for a variant with valid data gives back
    // the variant's name and the tree of its data.
    ghost fits: { Tagging → Type 0 };

    // Whether no written member of any of the variants has the name.
    ghost apart: { Name → Bool };

    /// Reads one object, whose first token is `token`, as the data of the variant with the name
    /// `name`, and takes no more of the source. `names` has the names of the variants. Members with
    /// the name of the tag of `E` are skipped. Returns `Invalid` if no variant has the name, or if
    /// the text, from `token` on, has no prefix that is an object whose other members mean the
    /// variant's data; `Memory` if an allocation fails.
    fn read_inside<'a, E: HasTag>(
        names: &[&str],
        name: &str,
        token: Event<'a>,
        source: &mut Source<'a>,
    ) -> Result<Self::Values>
        requires going { source.old.refused ≡ None }
        requires event { EventInRange (event_of_token token source.old.scratch) }
        ensures { Reads (inside_of E.tag (with_data (meaning.content_by_name (map (λ n. n.now) names.now) name.now)))
            meaning.content (event_of_token token.entry source.old.scratch) source.old result source.new };

    /// Does nothing. It promises that internal tagging fits if no written member has the name of the tag.
    fn fit()
        ensures { (tag : Name) → apart tag ≡ true → fits (internal tag) };
}

impl InsideCases for NoCase {
    type Values = Never;

    ghost meaning = { no_cases };

    ghost fits = { λ tagging. ⊤ };

    ghost apart = { λ tag. true };

    fn read_inside<'a, E: HasTag>(
        _names: &[&str],
        _name: &str,
        _token: Event<'a>,
        _source: &mut Source<'a>,
    ) -> Result<Never> {
        Err(Error::Invalid)
    }

    fn fit() {}
}

impl<T: Inside, R: InsideCases> InsideCases for DataCase<T, R> {
    type Values = OneOf<T, R::Values>;

    ghost meaning = { data_and T.means R.meaning };

    ghost fits = { λ tagging. DataFits T.valid T.tree tagging × R.fits tagging };

    ghost apart = { λ tag. (T.left_out tag && is_new tag T.fields) && R.apart tag };

    fn read_inside<'a, E: HasTag>(
        names: &[&str],
        name: &str,
        token: Event<'a>,
        source: &mut Source<'a>,
    ) -> Result<OneOf<T, R::Values>> {
        match names.split_first() {
            Some((first, more)) => {
                if name == *first {
                    Ok(OneOf::First(T::read_inside::<E>(token, source)?))
                } else {
                    Ok(OneOf::Later(R::read_inside::<E>(more, name, token, source)?))
                }
            }
            None => Err(Error::Invalid),
        }
    }

    fn fit() {
        T::is_object();
        R::fit();
    }
}
