//! Promises that enums are stable: if a tree means a value, its normal form means a value of the
//! same content.
ghost use Rattle.miniserde_stored.specs.Stable.{IsStable};
ghost use Rattle.miniserde_enum.specs.CasesMeaning.{CasesMeaning, no_cases, unit_and, data_and, enum_content, tagged_content};
ghost use Rattle.miniserde_stored.specs.StableCases.{CasesStable};

use crate::stable::Stable;
use miniserde_enum::{DataCase, DataEnum, HasTag, Never, NoCase, NoFields, OneOf, UnitCase};

/// A chain of variants for which the normal form of data means what the data means, if it means anything.
pub trait StableCases {
    /// The value of one of the variants.
    type Values;

    // Which trees mean which values of the variants.
    ghost meaning: { CasesMeaning Self.Values };

    /// Does nothing. It promises that if data means a value of a variant, its normal form means a value of the same
    /// content.
    fn stable()
        ensures { CasesStable meaning.content_by_name };
}

impl StableCases for NoCase {
    type Values = Never;

    ghost meaning = { no_cases };

    fn stable() {}
}

impl<R: StableCases> StableCases for UnitCase<R> {
    type Values = OneOf<(), R::Values>;

    ghost meaning = { unit_and R.meaning };

    fn stable() {
        R::stable()
    }
}

impl<T: Stable, R: StableCases> StableCases for DataCase<T, R> {
    type Values = OneOf<T, R::Values>;

    ghost meaning = { data_and T.means R.meaning };

    fn stable() {
        T::stable();
        R::stable();
    }
}

/// Does nothing. It promises that if a tree means a value of an externally tagged enum, its normal form means a value
/// of the same content.
pub fn enum_stable<E: DataEnum, C: StableCases<Values = E::Values>>()
    ensures { IsStable (enum_content C.meaning E.names) }
{
    C::stable()
}

/// Does nothing. It promises that if a tree means a value of an internally tagged enum, its normal form means a value
/// of the same content.
pub fn tagged_stable<E: DataEnum + HasTag, C: StableCases<Values = E::Values>>()
    ensures { IsStable (tagged_content C.meaning E.tag E.names) }
{
    C::stable()
}

impl Stable for NoFields {
    fn stable() {}
}
