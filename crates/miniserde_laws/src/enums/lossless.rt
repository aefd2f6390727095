//! Promises that enums are lossless: valid values with the same tree have the same content.
ghost use Rattle.std.specs.Prelude.{◌≡◌, true, List, Option, Some, length, ⊤};
ghost use Rattle.miniserde_model.specs.Tree.{Tree, null};
ghost use Rattle.miniserde_read.specs.types.Objects.{Name};
ghost use Rattle.miniserde_record.specs.Structs.{are_names, is_new};
ghost use Rattle.miniserde_enum.specs.Tagging.{Tagging, external, internal, variant_of_tree};
ghost use Rattle.miniserde_enum.specs.Cases.{CaseValid, case_tree, unit_tree, data_tree, UnitFits, DataFits, enum_tree, tagged_tree};
ghost use Rattle.miniserde_enum.specs.CasesMeaning.{CasesMeaning, no_cases, unit_and, data_and};

use crate::lossless::Lossless;
use miniserde_enum::{DataCase, DataEnum, HasTag, Never, NoCase, OneOf, UnitCase};

/// A chain of variants whose valid values have the same content if they have the same tree. The
/// trait does not extend `RoundTripCases`, since each link of a chain would then hold the other
/// chain too.
pub trait LosslessCases {
    /// The value of one of the variants.
    type Values;

    // Which trees mean which values of the variants.
    ghost meaning: { CasesMeaning Self.Values };

    // Which values are valid.
    ghost valid: { Self.Values → Type 0 };

    // The tree of a value, by the tagging and the names of the variants.
    ghost tree: { Tagging → List Name → Self.Values → Tree };

    // Which taggings fit: by them, the tree that is written for a variant, with valid data or
    // without, gives back the variant's name, and the tree of its data if it has any.
    ghost fits: { Tagging → Type 0 };

    /// Does nothing. It promises that external tagging fits. For each tagging that fits, it promises that the tree of
    /// a valid value names no variant but one of these, and that valid values with the same tree have the same content.
    fn lossless()
        ensures external { fits external }
        ensures named { (tagging : Tagging) (names : List Name) (v : Self.Values) (n : Name) (o : Option Tree) → fits tagging
            → are_names meaning.count names ≡ true → valid v → is_new n names ≡ true
            → variant_of_tree tagging (tree tagging names v) ≡ Some (n, o) → ⊥ }
        ensures same { (tagging : Tagging) (names : List Name) (v w : Self.Values) → fits tagging
            → are_names meaning.count names ≡ true → valid v → valid w → tree tagging names v ≡ tree tagging names w
            → meaning.content v ≡ meaning.content w };
}

impl LosslessCases for NoCase {
    type Values = Never;

    ghost meaning = { no_cases };

    ghost valid = { λ _. ⊤ };

    ghost tree = { λ tagging names v. null };

    ghost fits = { λ tagging. ⊤ };

    fn lossless() {}
}

impl<R: LosslessCases> LosslessCases for UnitCase<R> {
    type Values = OneOf<(), R::Values>;

    ghost meaning = { unit_and R.meaning };

    ghost valid = { CaseValid (λ u. ⊤) R.valid };

    ghost tree = { λ tagging. case_tree (unit_tree tagging) (R.tree tagging) };

    ghost fits = { λ tagging. UnitFits tagging × R.fits tagging };

    fn lossless() {
        R::lossless()
    }
}

impl<T: Lossless, R: LosslessCases> LosslessCases for DataCase<T, R> {
    type Values = OneOf<T, R::Values>;

    ghost meaning = { data_and T.means R.meaning };

    ghost valid = { CaseValid T.valid R.valid };

    ghost tree = { λ tagging. case_tree (data_tree tagging T.tree) (R.tree tagging) };

    ghost fits = { λ tagging. DataFits T.valid T.tree tagging × R.fits tagging };

    fn lossless() {
        T::lossless();
        R::lossless();
    }
}

/// Does nothing. It promises that valid values of an externally tagged enum with the same tree have the same content.
pub fn enum_lossless<E: DataEnum, C: LosslessCases<Values = E::Values>>()
    requires { length E.names ≡ C.meaning.count }
    ensures { (v w : E) → C.valid (E.values v) → C.valid (E.values w)
        → enum_tree E.names C.tree E.values v ≡ enum_tree E.names C.tree E.values w
        → C.meaning.content (E.values v) ≡ C.meaning.content (E.values w) }
{
    C::lossless()
}

/// Does nothing. It promises that valid values of an internally tagged enum with the same tree have the same content,
/// if its tagging fits.
pub fn tagged_lossless<E: DataEnum + HasTag, C: LosslessCases<Values = E::Values>>()
    requires count { length E.names ≡ C.meaning.count }
    requires fits { C.fits (internal E.tag) }
    ensures { (v w : E) → C.valid (E.values v) → C.valid (E.values w)
        → tagged_tree E.tag E.names C.tree E.values v ≡ tagged_tree E.tag E.names C.tree E.values w
        → C.meaning.content (E.values v) ≡ C.meaning.content (E.values w) }
{
    C::lossless()
}
