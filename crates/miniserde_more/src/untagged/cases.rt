//! Reads the variants of an untagged enum by the kind of the value.
ghost use Rattle.std.specs.Prelude.{◌≡◌, ◌&&◌, Bool, true, None};
ghost use Rattle.miniserde_model.specs.Tree.{Tree};
ghost use Rattle.miniserde_text.specs.Lexer.{event_of_token};
ghost use Rattle.miniserde_read.specs.Meaning.{Meaning};
ghost use Rattle.miniserde_read.specs.Calls.{Reads};
ghost use Rattle.miniserde_read.specs.Events.{EventInRange};
ghost use Rattle.miniserde_more.specs.Kinds.{Kinds, OfKinds, no_kinds, either_kinds, apart};
ghost use Rattle.miniserde_more.specs.UntaggedMeaning.{no_untagged, untagged_and};
ghost use Rattle.miniserde_more.specs.laws.Untagged.{of-first, of-none};

use crate::untagged::kinds::{HasKinds, KindSet};
use miniserde_enum::{DataCase, Never, NoCase, OneOf};
use miniserde_model::error::{Error, Result};
use miniserde_read::{FromJson, Source};
use miniserde_text::json::lex::Event;

/// A chain of the variants of an untagged enum, each with the type of its data; that of a variant without data is `()`.
pub trait UntaggedCases {
    /// The value of one of the variants.
    type Values;

    // Which trees mean which values of the variants: of the first variant whose data the tree means.
    ghost meaning: { Meaning Self.Values };

    // The kinds of the variants' trees.
    ghost kinds: { Kinds };

    // Whether no two variants have a kind in common.
    ghost disjoint: { Bool };

    /// Reads one value, whose first token is `token`, and takes no more of the source. The token's kind chooses the
    /// variant. `token` must be the one that was taken last. Returns `Invalid` if the text, from `token` on, has no
    /// prefix that means such a value, and `Memory` if an allocation fails.
    fn read_case<'a>(token: Event<'a>, source: &mut Source<'a>) -> Result<Self::Values>
        requires going { source.old.refused ≡ None }
        requires event { EventInRange (event_of_token token source.old.scratch) }
        requires disjoint { disjoint ≡ true }
        ensures { Reads meaning.from_tree meaning.content
            (event_of_token token.entry source.old.scratch) source.old result source.new };

    // A tree of another kind means no value.
    ghost only: { OfKinds kinds meaning.from_tree };
}

/// Does nothing. It promises, of a variant that has no kind in common with the later ones, that a tree that means a later
/// one by itself means no data of the variant. So a tree means the enum exactly if it means the data of a variant, and
/// the order of the variants does not matter.
pub fn later_alone<T: HasKinds, R: UntaggedCases>()
    requires { apart T.Kinds.kinds R.kinds ≡ true }
    ensures { (t : Tree) (w : R.Values) → R.meaning.reads t w → T.means.from_tree t ≡ None }
{}

impl UntaggedCases for NoCase {
    type Values = Never;

    ghost meaning = { no_untagged };

    ghost kinds = { no_kinds };

    ghost disjoint = { true };

    ghost only = { of-none };

    fn read_case<'a>(_token: Event<'a>, _source: &mut Source<'a>) -> Result<Never> {
        Err(Error::Invalid)
    }
}

impl<T: HasKinds, R: UntaggedCases> UntaggedCases for DataCase<T, R> {
    type Values = OneOf<T, R::Values>;

    ghost meaning = { untagged_and T.means R.meaning };

    ghost kinds = { either_kinds T.Kinds.kinds R.kinds };

    ghost disjoint = { apart T.Kinds.kinds R.kinds && R.disjoint };

    ghost only = { of-first T.Kinds.kinds R.kinds T.means.from_tree R.meaning.from_tree T.only R.only };

    #[inline(always)]
    fn read_case<'a>(token: Event<'a>, source: &mut Source<'a>) -> Result<OneOf<T, R::Values>> {
        if T::Kinds::has(token) {
            Ok(OneOf::First(T::read(token, source)?))
        } else {
            Ok(OneOf::Later(R::read_case(token, source)?))
        }
    }
}
