//! Promises that untagged enums are stable: if a tree means a value, its normal form means a value of the same content.
ghost use Rattle.std.specs.Prelude.{◌≡◌, ◌&&◌, Bool, true};
ghost use Rattle.miniserde_read.specs.Meaning.{Meaning};
ghost use Rattle.miniserde_stored.specs.Stable.{IsStable};
ghost use Rattle.miniserde_more.specs.Kinds.{Kinds, OfKinds, no_kinds, either_kinds, apart};
ghost use Rattle.miniserde_more.specs.UntaggedMeaning.{no_untagged, untagged_and};

use crate::untagged::{HasKinds, UntaggedEnum};
use miniserde_enum::{DataCase, Never, NoCase, OneOf};
use miniserde_stored::Stable;

/// A chain of an untagged enum's variants for which the normal form of a tree means what the tree means, if it means
/// anything.
pub trait StableUntagged {
    /// The value of one of the variants.
    type Values;

    // Which trees mean which values of the variants.
    ghost meaning: { Meaning Self.Values };

    // The kinds of the variants' trees.
    ghost kinds: { Kinds };

    // Whether no two variants have a kind in common.
    ghost disjoint: { Bool };

    /// Does nothing. It promises that a tree of another kind means no value. If no two variants have a kind in common,
    /// it promises that if a tree means a value, its normal form means a value of the same content.
    fn stable()
        ensures only { OfKinds kinds meaning.from_tree }
        ensures stable { disjoint ≡ true → IsStable meaning.from_tree };
}

impl StableUntagged for NoCase {
    type Values = Never;

    ghost meaning = { no_untagged };

    ghost kinds = { no_kinds };

    ghost disjoint = { true };

    fn stable() {}
}

impl<T: Stable + HasKinds, R: StableUntagged> StableUntagged for DataCase<T, R> {
    type Values = OneOf<T, R::Values>;

    ghost meaning = { untagged_and T.means R.meaning };

    ghost kinds = { either_kinds T.Kinds.kinds R.kinds };

    ghost disjoint = { apart T.Kinds.kinds R.kinds && R.disjoint };

    fn stable() {
        T::stable();
        R::stable();
    }
}

/// Does nothing. It promises, of an untagged enum of whose variants no two have a kind in common, that if a tree means a
/// value, its normal form means a value of the same content.
pub fn untagged_stable<E: UntaggedEnum, C: StableUntagged<Values = E::Values>>()
    requires { C.disjoint ≡ true }
    ensures { IsStable C.meaning.from_tree }
{
    C::stable()
}
