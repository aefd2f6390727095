//! The trait of fields for which members of other names count nothing.
ghost use Rattle.miniserde_more.specs.RestMeaning.{IsOpen};

use miniserde_read::FromJson;
use miniserde_record::record::{
    FourSlot, Mark, MarkedFour, MarkedSlot, NoSlot, OmitSlot, Repeats, Slot, Slots,
};

/// A chain of a struct's fields that skips the members whose names no field has. The chain of a `closed` struct is none.
pub trait OpenFields: Slots {
    /// Does nothing. It promises that a member whose name no field has leaves the fields as they are.
    fn open()
        ensures { IsOpen Self.meaning };
}

impl OpenFields for NoSlot {
    fn open() {}
}

impl<T: FromJson, M: Mark<T>, R: OpenFields> OpenFields for MarkedSlot<T, M, R> {
    fn open() {
        R::open()
    }
}

impl<T: FromJson, M: Repeats, R: OpenFields> OpenFields for OmitSlot<T, M, R> {
    fn open() {
        R::open()
    }
}

impl<
    A: FromJson,
    M: Mark<A>,
    B: FromJson,
    N: Mark<B>,
    C: FromJson,
    O: Mark<C>,
    D: FromJson,
    P: Mark<D>,
    Z: OpenFields,
> OpenFields for MarkedFour<A, M, B, N, C, O, D, P, Z> {
    fn open() {
        <MarkedSlot<
            A,
            M,
            MarkedSlot<B, N, MarkedSlot<C, O, MarkedSlot<D, P, Z>>>,
        > as OpenFields>::open()
    }
}

impl<A: FromJson, B: FromJson, C: FromJson, D: FromJson, Z: OpenFields> OpenFields
    for FourSlot<A, B, C, D, Z> {
    fn open() {
        <Slot<A, Slot<B, Slot<C, Slot<D, Z>>>> as OpenFields>::open()
    }
}
