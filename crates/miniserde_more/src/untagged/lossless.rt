//! Promises that untagged enums are lossless: valid values with the same tree have the same content.
ghost use Rattle.std.specs.Prelude.{◌≡◌, ◌&&◌, Bool, true, ⊤};
ghost use Rattle.miniserde_model.specs.Tree.{Tree, null};
ghost use Rattle.miniserde_read.specs.Meaning.{Meaning};
ghost use Rattle.miniserde_enum.specs.Cases.{CaseValid};
ghost use Rattle.miniserde_more.specs.Kinds.{Kinds, tree_kind, no_kinds, either_kinds, apart};
ghost use Rattle.miniserde_more.specs.Untagged.{either_tree, untagged_tree};
ghost use Rattle.miniserde_more.specs.UntaggedMeaning.{no_untagged, untagged_and};

use crate::untagged::{HasKinds, UntaggedEnum};
use miniserde_enum::{DataCase, Never, NoCase, OneOf};
use miniserde_laws::Lossless;

/// A chain of an untagged enum's variants whose valid values have the same content if they have the same tree. The
/// trait does not extend `RoundTripUntagged`, since each link of a chain would then hold the other chain too.
pub trait LosslessUntagged {
    /// The value of one of the variants.
    type Values;

    // Which trees mean which values of the variants.
    ghost meaning: { Meaning Self.Values };

    // The kinds of the variants' trees.
    ghost kinds: { Kinds };

    // Whether no two variants have a kind in common.
    ghost disjoint: { Bool };

    // Which values are valid.
    ghost valid: { Self.Values → Type 0 };

    // The tree of a value: that of its data.
    ghost tree: { Self.Values → Tree };

    /// Does nothing. It promises that the tree of a valid value is of one of the kinds. If no two variants have a kind
    /// in common, it promises that valid values with the same tree have the same content.
    fn lossless()
        ensures of_kinds { (v : Self.Values) → valid v → kinds (tree_kind (tree v)) ≡ true }
        ensures same { disjoint ≡ true → (v w : Self.Values) → valid v → valid w → tree v ≡ tree w
            → meaning.content v ≡ meaning.content w };
}

impl LosslessUntagged for NoCase {
    type Values = Never;

    ghost meaning = { no_untagged };

    ghost kinds = { no_kinds };

    ghost disjoint = { true };

    ghost valid = { λ _. ⊤ };

    ghost tree = { λ _. null };

    fn lossless() {}
}

impl<T: Lossless + HasKinds, R: LosslessUntagged> LosslessUntagged for DataCase<T, R> {
    type Values = OneOf<T, R::Values>;

    ghost meaning = { untagged_and T.means R.meaning };

    ghost kinds = { either_kinds T.Kinds.kinds R.kinds };

    ghost disjoint = { apart T.Kinds.kinds R.kinds && R.disjoint };

    ghost valid = { CaseValid T.valid R.valid };

    ghost tree = { either_tree T.tree R.tree };

    fn lossless() {
        T::round_trips();
        T::lossless();
        R::lossless();
    }
}

/// Does nothing. It promises, of an untagged enum of whose variants no two have a kind in common, that valid values
/// with the same tree have the same content.
pub fn untagged_lossless<E: UntaggedEnum, C: LosslessUntagged<Values = E::Values>>()
    requires { C.disjoint ≡ true }
    ensures { (v w : E) → C.valid (E.values v) → C.valid (E.values w)
        → untagged_tree C.tree E.values v ≡ untagged_tree C.tree E.values w
        → C.meaning.content (E.values v) ≡ C.meaning.content (E.values w) }
{
    C::lossless()
}
