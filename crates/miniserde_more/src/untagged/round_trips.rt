//! Promises that valid untagged enums are read back as enums with the same trees.
ghost use Rattle.std.specs.Prelude.{◌≡◌, ◌&&◌, Bool, true, false, ⊤};
ghost use Rattle.miniserde_model.specs.Tree.{Tree, null};
ghost use Rattle.miniserde_read.specs.Meaning.{Meaning};
ghost use Rattle.miniserde_enum.specs.Cases.{CaseValid};
ghost use Rattle.miniserde_laws.specs.RoundTrip.{RoundTrips};
ghost use Rattle.miniserde_more.specs.Kinds.{Kinds, OfKinds, tree_kind, no_kinds, either_kinds, apart};
ghost use Rattle.miniserde_more.specs.Kinds as kind;
ghost use Rattle.miniserde_more.specs.Untagged.{either_tree, untagged_tree};
ghost use Rattle.miniserde_more.specs.UntaggedMeaning.{no_untagged, untagged_and};

use crate::untagged::{HasKinds, UntaggedEnum};
use miniserde_enum::{DataCase, Never, NoCase, OneOf};
use miniserde_laws::RoundTrip;

/// A chain of an untagged enum's variants whose valid values are read back as values with the same trees.
pub trait RoundTripUntagged {
    /// The value of one of the variants.
    type Values;

    // Which trees mean which values of the variants.
    ghost meaning: { Meaning Self.Values };

    // The kinds of the variants' trees.
    ghost kinds: { Kinds };

    // Whether no two variants have a kind in common.
    ghost disjoint: { Bool };

    // Which values are valid.
    ghost valid: { Self.Values → Type 0 };

    // The tree of a value: that of its data.
    ghost tree: { Self.Values → Tree };

    /// Does nothing. It promises that a tree of another kind means no value. If no two variants have a kind in common,
    /// it promises that the tree of a valid value means a valid value, and that each valid value that it means has that
    /// tree.
    fn round_trips()
        ensures only { OfKinds kinds meaning.from_tree }
        ensures round_trips { disjoint ≡ true → (v : Self.Values) → valid v
            → RoundTrips valid tree meaning.reads (tree v) };
}

impl RoundTripUntagged for NoCase {
    type Values = Never;

    ghost meaning = { no_untagged };

    ghost kinds = { no_kinds };

    ghost disjoint = { true };

    ghost valid = { λ _. ⊤ };

    ghost tree = { λ _. null };

    fn round_trips() {}
}

impl<T: RoundTrip + HasKinds, R: RoundTripUntagged> RoundTripUntagged for DataCase<T, R> {
    type Values = OneOf<T, R::Values>;

    ghost meaning = { untagged_and T.means R.meaning };

    ghost kinds = { either_kinds T.Kinds.kinds R.kinds };

    ghost disjoint = { apart T.Kinds.kinds R.kinds && R.disjoint };

    ghost valid = { CaseValid T.valid R.valid };

    ghost tree = { either_tree T.tree R.tree };

    fn round_trips() {
        T::round_trips();
        R::round_trips();
    }
}

/// Does nothing. It promises, of an untagged enum of whose variants no two have a kind in common, that the tree of a
/// valid value means a valid value, and that each valid value that it means has that tree.
pub fn untagged_round_trips<E: UntaggedEnum, C: RoundTripUntagged<Values = E::Values>>()
    requires { C.disjoint ≡ true }
    ensures { (v : E) → C.valid (E.values v)
        → RoundTrips (λ v. C.valid (E.values v)) (untagged_tree C.tree E.values)
        (λ t v. C.meaning.reads t (E.values v)) (untagged_tree C.tree E.values v) }
{
    C::round_trips()
}

/// Does nothing. It promises, of an untagged enum of whose variants no two have a kind in common, and none the kind of
/// `null`, that no valid value is written as `null`.
pub fn untagged_never_null<E: UntaggedEnum, C: RoundTripUntagged<Values = E::Values>>()
    requires disjoint { C.disjoint ≡ true }
    requires no_null { C.kinds kind.null ≡ false }
    ensures { (v : E) → C.valid (E.values v) → untagged_tree C.tree E.values v ≡ null → ⊥ }
{
    C::round_trips()
}
