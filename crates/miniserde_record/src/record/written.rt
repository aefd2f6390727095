//! The trait of fields that are written: which tree each value has, and which values are valid.
ghost use Rattle.std.specs.Prelude.{List, [], ◌∷◌, Option, Some, ⊤};
ghost use Rattle.miniserde_model.specs.Tree.{Tree};

use super::slots::{MarkedSlot, NoSlot};
use super::structs::Parts;
use miniserde_keys::Ranged;
use miniserde_ser::ser::Serialize;

/// A chain of a struct's fields that are written. Contracts alone see its members.
pub trait WrittenFields {
    /// The fields' values, in their order.
    type Values;

    // Which values are valid.
    ghost valid: { Self.Values → Type 0 };

    // The tree of each value, in their order, or `None` for a value that is not written.
    ghost trees: { Self.Values → List (Option Tree) };
}

impl WrittenFields for NoSlot {
    type Values = ();

    ghost valid = { λ _. ⊤ };

    ghost trees = { λ _. [] };
}

impl<T: Ranged + Serialize, M, R: WrittenFields> WrittenFields for MarkedSlot<T, M, R> {
    type Values = Parts<T, R::Values>;

    ghost valid = { λ v. T.valid v.0 × R.valid v.1 };

    ghost trees = { λ v. Some (T.tree v.0) ∷ R.trees v.1 };
}
