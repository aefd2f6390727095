//! Promises that structs are lossless: valid structs with the same tree have the same content.
ghost use Rattle.std.specs.Prelude.{◌≡◌, List, [], ◌∷◌, length, Option, Some, ⊤};
ghost use Rattle.miniserde_model.specs.Tree.{Tree};
ghost use Rattle.miniserde_record.specs.FieldsMeaning.{FieldsMeaning, no_fields, closed_end, field_and};
ghost use Rattle.miniserde_record.specs.Structs.{record_tree};

use crate::lossless::Lossless;
use miniserde_record::record::{Closed, Mark, MarkedSlot, NoSlot, Parts, Record};

/// A chain of fields whose valid values have the same content if they have the same trees. The
/// trait does not extend `RoundTripFields`, since each link of a chain would then hold the other
/// chain too.
pub trait LosslessFields {
    /// The fields' values, in their order.
    type Values;

    // Which members mean which values of the fields.
    ghost meaning: { FieldsMeaning Self.Values };

    // Which values are valid.
    ghost valid: { Self.Values → Type 0 };

    // The tree of each value, in their order, or `None` for a value that is not written.
    ghost trees: { Self.Values → List (Option Tree) };

    /// Does nothing. It promises that there are as many trees as fields, and that valid values with the same trees
    /// have the same content.
    fn lossless()
        ensures each { (v : Self.Values) → length (trees v) ≡ meaning.count }
        ensures same { (v w : Self.Values) → valid v → valid w → trees v ≡ trees w
            → meaning.content v ≡ meaning.content w };
}

impl LosslessFields for NoSlot {
    type Values = ();

    ghost meaning = { no_fields };

    ghost valid = { λ _. ⊤ };

    ghost trees = { λ _. [] };

    fn lossless() {}
}

impl<T: Lossless, M: Mark<T>, R: LosslessFields> LosslessFields for MarkedSlot<T, M, R> {
    type Values = Parts<T, R::Values>;

    ghost meaning = { field_and M.once M.given T.means T.absent R.meaning };

    ghost valid = { λ v. T.valid v.0 × R.valid v.1 };

    ghost trees = { λ v. Some (T.tree v.0) ∷ R.trees v.1 };

    fn lossless() {
        T::lossless();
        R::lossless();
    }
}

impl LosslessFields for Closed {
    type Values = ();

    ghost meaning = { closed_end };

    ghost valid = { λ _. ⊤ };

    ghost trees = { λ _. [] };

    fn lossless() {}
}

/// Does nothing. It promises that two valid structs with the same tree have the same content.
pub fn record_lossless<S: Record, F: LosslessFields<Values = S::Values>>()
    requires { length S.names ≡ F.meaning.count }
    ensures { (v w : S) → F.valid (S.values v) → F.valid (S.values w)
        → record_tree S.names F.trees S.values v ≡ record_tree S.names F.trees S.values w
        → F.meaning.content (S.values v) ≡ F.meaning.content (S.values w) }
{
    F::lossless()
}
