//! Promises that structs and unit enums are stable: if a tree means a value, its normal form means a value of the same
//! content.
ghost use Rattle.miniserde_stored.specs.Stable.{IsStable};
ghost use Rattle.miniserde_record.specs.FieldsMeaning.{FieldsMeaning, no_fields, closed_end, field_and, struct_meaning};
ghost use Rattle.miniserde_record.specs.Names.{variant_of};
ghost use Rattle.miniserde_stored.specs.StableFields.{AreStable};

use crate::stable::Stable;
use miniserde_record::record::{
    Closed, FourSlot, Mark, MarkedFour, MarkedSlot, NoSlot, Omit, OmitSlot, Parts, Record, Repeats,
    Slot, UnitEnum,
};

/// A chain of fields for which the normal form of members means what the members mean, if they mean anything.
pub trait StableFields {
    /// The fields' values, in their order.
    type Values;

    // Which members mean which values of the fields.
    ghost meaning: { FieldsMeaning Self.Values };

    /// Does nothing. It promises that if members mean values of the fields, their normal form means values of the
    /// same content.
    fn stable()
        ensures { AreStable meaning.from_members };
}

impl StableFields for NoSlot {
    type Values = ();

    ghost meaning = { no_fields };

    fn stable() {}
}

impl<T: Stable, M: Mark<T>, R: StableFields> StableFields for MarkedSlot<T, M, R> {
    type Values = Parts<T, R::Values>;

    ghost meaning = { field_and M.once M.given T.means T.absent R.meaning };

    fn stable() {
        T::stable();
        R::stable();
    }
}

impl StableFields for Closed {
    type Values = ();

    ghost meaning = { closed_end };

    fn stable() {}
}

impl<T: Stable, M: Repeats, R: StableFields> StableFields for OmitSlot<T, M, R> {
    type Values = Parts<Option<T>, R::Values>;

    ghost meaning = { ⟦<MarkedSlot<Option<T>, Omit<M>, R> as StableFields>⟧.meaning };

    fn stable() {
        <MarkedSlot<Option<T>, Omit<M>, R> as StableFields>::stable()
    }
}

impl<
    A: Stable,
    M: Mark<A>,
    B: Stable,
    N: Mark<B>,
    C: Stable,
    O: Mark<C>,
    D: Stable,
    P: Mark<D>,
    Z: StableFields,
> StableFields for MarkedFour<A, M, B, N, C, O, D, P, Z> {
    type Values = <MarkedSlot<
        A,
        M,
        MarkedSlot<B, N, MarkedSlot<C, O, MarkedSlot<D, P, Z>>>,
    > as StableFields>::Values;

    ghost meaning = { ⟦<MarkedSlot<A, M, MarkedSlot<B, N, MarkedSlot<C, O, MarkedSlot<D, P, Z>>>> as StableFields>⟧.meaning };

    fn stable() {
        <MarkedSlot<
            A,
            M,
            MarkedSlot<B, N, MarkedSlot<C, O, MarkedSlot<D, P, Z>>>,
        > as StableFields>::stable()
    }
}

impl<A: Stable, B: Stable, C: Stable, D: Stable, Z: StableFields> StableFields
    for FourSlot<A, B, C, D, Z> {
    type Values = <Slot<A, Slot<B, Slot<C, Slot<D, Z>>>> as StableFields>::Values;

    ghost meaning = { ⟦<Slot<A, Slot<B, Slot<C, Slot<D, Z>>>> as StableFields>⟧.meaning };

    fn stable() {
        <Slot<A, Slot<B, Slot<C, Slot<D, Z>>>> as StableFields>::stable()
    }
}

/// Does nothing. It promises that if a tree means a struct, its normal form means a struct of the same content.
pub fn record_stable<S: Record, F: StableFields<Values = S::Values>>()
    ensures { IsStable (struct_meaning F.meaning S.names S.values).from_tree }
{
    F::stable()
}

/// Does nothing. It promises that if a tree means a value of a unit enum, the normal form of the tree means that
/// value.
pub fn variant_stable<T: UnitEnum>()
    ensures { IsStable (variant_of T.name_of T.all) }
{}
