//! Promises that valid enums are read back as enums with the same trees.
ghost use Rattle.std.specs.Prelude.{◌≡◌, true, List, length, ⊤};
ghost use Rattle.miniserde_model.specs.Tree.{Tree, null};
ghost use Rattle.miniserde_read.specs.types.Objects.{Name};
ghost use Rattle.miniserde_laws.specs.RoundTrip.{RoundTrips};
ghost use Rattle.miniserde_record.specs.Structs.{are_names};
ghost use Rattle.miniserde_enum.specs.Tagging.{Tagging, external, internal};
ghost use Rattle.miniserde_enum.specs.Cases.{CaseValid, case_tree, unit_tree, data_tree, UnitFits, DataFits, enum_tree, tagged_tree};
ghost use Rattle.miniserde_enum.specs.CasesMeaning.{CasesMeaning, no_cases, unit_and, data_and, enum_reads, tagged_reads};

use crate::round_trip::RoundTrip;
use miniserde_enum::{DataCase, DataEnum, HasTag, Never, NoCase, OneOf, UnitCase};

/// A chain of variants whose valid values are read back as values with the same trees.
pub trait RoundTripCases {
    /// The value of one of the variants.
    type Values;

    // Which trees mean which values of the variants.
    ghost meaning: { CasesMeaning Self.Values };

    // Which values are valid.
    ghost valid: { Self.Values → Type 0 };

    // The tree of a value, by the tagging and the names of the variants.
    ghost tree: { Tagging → List Name → Self.Values → Tree };

    // Which taggings fit: by them, the tree that is written for a variant, with valid data or
    // without, gives back the variant's name, and the tree of its data if it has any.
    ghost fits: { Tagging → Type 0 };

    /// Does nothing. It promises that external tagging fits. For each tagging that fits, it promises that the tree of
    /// a valid value means a valid value, and that each valid value that it means has that tree.
    fn round_trips()
        ensures external { fits external }
        ensures round_trips { (tagging : Tagging) (names : List Name) (v : Self.Values) → fits tagging
            → are_names meaning.count names ≡ true → valid v
            → RoundTrips valid (tree tagging names) (meaning.reads tagging names) (tree tagging names v) };
}

impl RoundTripCases for NoCase {
    type Values = Never;

    ghost meaning = { no_cases };

    ghost valid = { λ _. ⊤ };

    ghost tree = { λ tagging names v. null };

    ghost fits = { λ tagging. ⊤ };

    fn round_trips() {}
}

impl<R: RoundTripCases> RoundTripCases for UnitCase<R> {
    type Values = OneOf<(), R::Values>;

    ghost meaning = { unit_and R.meaning };

    ghost valid = { CaseValid (λ u. ⊤) R.valid };

    ghost tree = { λ tagging. case_tree (unit_tree tagging) (R.tree tagging) };

    ghost fits = { λ tagging. UnitFits tagging × R.fits tagging };

    fn round_trips() {
        R::round_trips()
    }
}

impl<T: RoundTrip, R: RoundTripCases> RoundTripCases for DataCase<T, R> {
    type Values = OneOf<T, R::Values>;

    ghost meaning = { data_and T.means R.meaning };

    ghost valid = { CaseValid T.valid R.valid };

    ghost tree = { λ tagging. case_tree (data_tree tagging T.tree) (R.tree tagging) };

    ghost fits = { λ tagging. DataFits T.valid T.tree tagging × R.fits tagging };

    fn round_trips() {
        T::round_trips();
        R::round_trips();
    }
}

/// Does nothing. It promises, of an externally tagged enum, that the tree of a valid value means a valid value, and
/// that each valid value that it means has that tree.
pub fn enum_round_trips<E: DataEnum, C: RoundTripCases<Values = E::Values>>()
    requires { length E.names ≡ C.meaning.count }
    ensures { (v : E) → C.valid (E.values v)
        → RoundTrips (λ v. C.valid (E.values v)) (enum_tree E.names C.tree E.values)
        (λ t v. enum_reads C.meaning E.names t (E.values v)) (enum_tree E.names C.tree E.values v) }
{
    C::round_trips()
}

/// Does nothing. It promises, of an internally tagged enum whose tagging fits, that the tree of a valid value means a
/// valid value, and that each valid value that it means has that tree.
pub fn tagged_round_trips<E: DataEnum + HasTag, C: RoundTripCases<Values = E::Values>>()
    requires count { length E.names ≡ C.meaning.count }
    requires fits { C.fits (internal E.tag) }
    ensures { (v : E) → C.valid (E.values v)
        → RoundTrips (λ v. C.valid (E.values v)) (tagged_tree E.tag E.names C.tree E.values)
        (λ t v. tagged_reads C.meaning E.tag E.names t (E.values v)) (tagged_tree E.tag E.names C.tree E.values v) }
{
    C::round_trips()
}
