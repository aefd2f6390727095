//! The trait of variants that are written: which tree a value has, and which values are valid.
ghost use Rattle.std.specs.Prelude.{List, ⊤};
ghost use Rattle.miniserde_model.specs.Tree.{Tree, null};
ghost use Rattle.miniserde_read.specs.types.Objects.{Name};
ghost use Rattle.miniserde_enum.specs.Tagging.{Tagging};
ghost use Rattle.miniserde_enum.specs.Cases.{CaseValid, case_tree, unit_tree, data_tree};

use crate::cases::{DataCase, NoCase, UnitCase};
use crate::one_of::{Never, OneOf};
use miniserde_keys::Ranged;
use miniserde_ser::ser::Serialize;

/// A chain of an enum's variants that are written. Contracts alone see its members.
pub trait WrittenCases {
    /// The value of one of the variants.
    type Values;

    // Which values are valid.
    ghost valid: { Self.Values → Type 0 };

    // The tree of a value, by the tagging and the names of the variants.
    ghost tree: { Tagging → List Name → Self.Values → Tree };
}

impl WrittenCases for NoCase {
    type Values = Never;

    ghost valid = { λ _. ⊤ };

    ghost tree = { λ tagging names v. null };
}

impl<R: WrittenCases> WrittenCases for UnitCase<R> {
    type Values = OneOf<(), R::Values>;

    ghost valid = { CaseValid (λ u. ⊤) R.valid };

    ghost tree = { λ tagging. case_tree (unit_tree tagging) (R.tree tagging) };
}

impl<T: Ranged + Serialize, R: WrittenCases> WrittenCases for DataCase<T, R> {
    type Values = OneOf<T, R::Values>;

    ghost valid = { CaseValid T.valid R.valid };

    ghost tree = { λ tagging. case_tree (data_tree tagging T.tree) (R.tree tagging) };
}
