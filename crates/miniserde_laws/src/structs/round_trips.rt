//! Promises that valid structs are read back as structs with the same trees.
ghost use Rattle.std.specs.Prelude.{◌≡◌, true, List, [], ◌∷◌, length, Option, Some, ⊤};
ghost use Rattle.miniserde_model.specs.Tree.{Tree};
ghost use Rattle.miniserde_read.specs.types.Objects.{Name};
ghost use Rattle.miniserde_laws.specs.RoundTrip.{RoundTrips};
ghost use Rattle.miniserde_record.specs.FieldsMeaning.{FieldsMeaning, no_fields, closed_end, field_and, struct_meaning, with_aliases};
ghost use Rattle.miniserde_record.specs.Structs.{FieldsRoundTrip, are_names, record_tree};

use crate::round_trip::RoundTrip;
use miniserde_record::record::{Closed, HasAliases, Mark, MarkedSlot, NoSlot, Parts, Record};

/// A chain of fields whose valid values are read back as values with the same trees.
pub trait RoundTripFields {
    /// The fields' values, in their order.
    type Values;

    // Which members mean which values of the fields.
    ghost meaning: { FieldsMeaning Self.Values };

    // Which values are valid.
    ghost valid: { Self.Values → Type 0 };

    // The tree of each value, in their order, or `None` for a value that is not written.
    ghost trees: { Self.Values → List (Option Tree) };

    /// Does nothing. It promises that the trees of valid values, as members with the names of the fields, mean valid
    /// values, and that all valid values that they mean have the same trees.
    fn round_trips()
        ensures { (names : List Name) (v : Self.Values) → are_names meaning.count names ≡ true → valid v
            → FieldsRoundTrip valid trees (meaning.reads []) names (trees v) };
}

impl RoundTripFields for NoSlot {
    type Values = ();

    ghost meaning = { no_fields };

    ghost valid = { λ _. ⊤ };

    ghost trees = { λ _. [] };

    fn round_trips() {}
}

impl<T: RoundTrip, M: Mark<T>, R: RoundTripFields> RoundTripFields for MarkedSlot<T, M, R> {
    type Values = Parts<T, R::Values>;

    ghost meaning = { field_and M.once M.given T.means T.absent R.meaning };

    ghost valid = { λ v. T.valid v.0 × R.valid v.1 };

    ghost trees = { λ v. Some (T.tree v.0) ∷ R.trees v.1 };

    fn round_trips() {
        T::round_trips();
        R::round_trips();
    }
}

impl RoundTripFields for Closed {
    type Values = ();

    ghost meaning = { closed_end };

    ghost valid = { λ _. ⊤ };

    ghost trees = { λ _. [] };

    fn round_trips() {}
}

/// Does nothing. It promises that the tree of a valid struct means a valid struct, and that each valid struct that it
/// means has that tree.
pub fn record_round_trips<S: Record, F: RoundTripFields<Values = S::Values>>()
    requires { length S.names ≡ F.meaning.count }
    ensures { (v : S) → F.valid (S.values v)
        → RoundTrips (λ v. F.valid (S.values v)) (record_tree S.names F.trees S.values)
        (struct_meaning F.meaning S.names S.values).reads (record_tree S.names F.trees S.values v) }
{
    F::round_trips()
}

/// Does nothing. It promises that a valid struct with aliases, which is written with the names of its fields, is read
/// back as a value with the same tree.
pub fn aliased_round_trips<S: HasAliases, F: RoundTripFields<Values = S::Values>>()
    requires { length S.names ≡ F.meaning.count }
    ensures { (v : S) → F.valid (S.values v)
        → RoundTrips (λ v. F.valid (S.values v)) (record_tree S.names F.trees S.values)
        (struct_meaning (with_aliases S.aliases F.meaning) S.names S.values).reads (record_tree S.names F.trees S.values v) }
{
    record_round_trips::<S, F>()
}
