//! The promises of `RoundTripFields` and `LosslessFields` for fields in blocks of four.

use super::lossless::LosslessFields;
use super::round_trips::RoundTripFields;
use crate::lossless::Lossless;
use crate::round_trip::RoundTrip;
use miniserde_record::record::{FourSlot, Mark, MarkedFour, MarkedSlot, Slot};

impl<
    A: RoundTrip,
    M: Mark<A>,
    B: RoundTrip,
    N: Mark<B>,
    C: RoundTrip,
    O: Mark<C>,
    D: RoundTrip,
    P: Mark<D>,
    Z: RoundTripFields,
> RoundTripFields for MarkedFour<A, M, B, N, C, O, D, P, Z> {
    type Values = <MarkedSlot<
        A,
        M,
        MarkedSlot<B, N, MarkedSlot<C, O, MarkedSlot<D, P, Z>>>,
    > as RoundTripFields>::Values;

    ghost meaning = { ⟦<MarkedSlot<A, M, MarkedSlot<B, N, MarkedSlot<C, O, MarkedSlot<D, P, Z>>>> as RoundTripFields>⟧.meaning };

    ghost valid = { ⟦<MarkedSlot<A, M, MarkedSlot<B, N, MarkedSlot<C, O, MarkedSlot<D, P, Z>>>> as RoundTripFields>⟧.valid };

    ghost trees = { ⟦<MarkedSlot<A, M, MarkedSlot<B, N, MarkedSlot<C, O, MarkedSlot<D, P, Z>>>> as RoundTripFields>⟧.trees };

    fn round_trips() {
        <MarkedSlot<
            A,
            M,
            MarkedSlot<B, N, MarkedSlot<C, O, MarkedSlot<D, P, Z>>>,
        > as RoundTripFields>::round_trips()
    }
}

impl<
    A: Lossless,
    M: Mark<A>,
    B: Lossless,
    N: Mark<B>,
    C: Lossless,
    O: Mark<C>,
    D: Lossless,
    P: Mark<D>,
    Z: LosslessFields,
> LosslessFields for MarkedFour<A, M, B, N, C, O, D, P, Z> {
    type Values = <MarkedSlot<
        A,
        M,
        MarkedSlot<B, N, MarkedSlot<C, O, MarkedSlot<D, P, Z>>>,
    > as LosslessFields>::Values;

    ghost meaning = { ⟦<MarkedSlot<A, M, MarkedSlot<B, N, MarkedSlot<C, O, MarkedSlot<D, P, Z>>>> as LosslessFields>⟧.meaning };

    ghost valid = { ⟦<MarkedSlot<A, M, MarkedSlot<B, N, MarkedSlot<C, O, MarkedSlot<D, P, Z>>>> as LosslessFields>⟧.valid };

    ghost trees = { ⟦<MarkedSlot<A, M, MarkedSlot<B, N, MarkedSlot<C, O, MarkedSlot<D, P, Z>>>> as LosslessFields>⟧.trees };

    fn lossless() {
        <MarkedSlot<
            A,
            M,
            MarkedSlot<B, N, MarkedSlot<C, O, MarkedSlot<D, P, Z>>>,
        > as LosslessFields>::lossless()
    }
}

impl<A: RoundTrip, B: RoundTrip, C: RoundTrip, D: RoundTrip, Z: RoundTripFields> RoundTripFields
    for FourSlot<A, B, C, D, Z> {
    type Values = <Slot<A, Slot<B, Slot<C, Slot<D, Z>>>> as RoundTripFields>::Values;

    ghost meaning = { ⟦<Slot<A, Slot<B, Slot<C, Slot<D, Z>>>> as RoundTripFields>⟧.meaning };

    ghost valid = { ⟦<Slot<A, Slot<B, Slot<C, Slot<D, Z>>>> as RoundTripFields>⟧.valid };

    ghost trees = { ⟦<Slot<A, Slot<B, Slot<C, Slot<D, Z>>>> as RoundTripFields>⟧.trees };

    fn round_trips() {
        <Slot<A, Slot<B, Slot<C, Slot<D, Z>>>> as RoundTripFields>::round_trips()
    }
}

impl<A: Lossless, B: Lossless, C: Lossless, D: Lossless, Z: LosslessFields> LosslessFields
    for FourSlot<A, B, C, D, Z> {
    type Values = <Slot<A, Slot<B, Slot<C, Slot<D, Z>>>> as LosslessFields>::Values;

    ghost meaning = { ⟦<Slot<A, Slot<B, Slot<C, Slot<D, Z>>>> as LosslessFields>⟧.meaning };

    ghost valid = { ⟦<Slot<A, Slot<B, Slot<C, Slot<D, Z>>>> as LosslessFields>⟧.valid };

    ghost trees = { ⟦<Slot<A, Slot<B, Slot<C, Slot<D, Z>>>> as LosslessFields>⟧.trees };

    fn lossless() {
        <Slot<A, Slot<B, Slot<C, Slot<D, Z>>>> as LosslessFields>::lossless()
    }
}
