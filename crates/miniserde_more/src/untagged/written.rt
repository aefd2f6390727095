//! The trait of an untagged enum's variants that are written: which tree a value has, and which values are valid.
ghost use Rattle.std.specs.Prelude.{⊤};
ghost use Rattle.miniserde_model.specs.Tree.{Tree, null};
ghost use Rattle.miniserde_enum.specs.Cases.{CaseValid};
ghost use Rattle.miniserde_more.specs.Untagged.{either_tree};

use miniserde_enum::{DataCase, Never, NoCase, OneOf};
use miniserde_keys::Ranged;
use miniserde_ser::ser::Serialize;

/// A chain of an untagged enum's variants that are written. Contracts alone see its members.
pub trait WrittenUntagged {
    /// The value of one of the variants.
    type Values;

    // Which values are valid.
    ghost valid: { Self.Values → Type 0 };

    // The tree of a value: that of its data.
    ghost tree: { Self.Values → Tree };
}

impl WrittenUntagged for NoCase {
    type Values = Never;

    ghost valid = { λ _. ⊤ };

    ghost tree = { λ _. null };
}

impl<T: Ranged + Serialize, R: WrittenUntagged> WrittenUntagged for DataCase<T, R> {
    type Values = OneOf<T, R::Values>;

    ghost valid = { CaseValid T.valid R.valid };

    ghost tree = { either_tree T.tree R.tree };
}
