//! The promises of `RoundTrip`, `Lossless` and `NeverNull` for tuples of three to six items. A
//! tuple is written as a list, so it is never `null`.

use crate::lossless::{Lossless, NeverNull};
use crate::round_trip::RoundTrip;

impl<A: RoundTrip, B: RoundTrip, C: RoundTrip> RoundTrip for (A, B, C) {
    fn round_trips() {
        A::round_trips();
        B::round_trips();
        C::round_trips();
    }
}

impl<A: Lossless, B: Lossless, C: Lossless> Lossless for (A, B, C) {
    fn lossless() {
        A::lossless();
        B::lossless();
        C::lossless();
    }
}

impl<A: RoundTrip, B: RoundTrip, C: RoundTrip> NeverNull for (A, B, C) {
    fn never_null() {}
}

impl<A: RoundTrip, B: RoundTrip, C: RoundTrip, D: RoundTrip> RoundTrip for (A, B, C, D) {
    fn round_trips() {
        A::round_trips();
        B::round_trips();
        C::round_trips();
        D::round_trips();
    }
}

impl<A: Lossless, B: Lossless, C: Lossless, D: Lossless> Lossless for (A, B, C, D) {
    fn lossless() {
        A::lossless();
        B::lossless();
        C::lossless();
        D::lossless();
    }
}

impl<A: RoundTrip, B: RoundTrip, C: RoundTrip, D: RoundTrip> NeverNull for (A, B, C, D) {
    fn never_null() {}
}

impl<A: RoundTrip, B: RoundTrip, C: RoundTrip, D: RoundTrip, E: RoundTrip> RoundTrip
    for (A, B, C, D, E) {
    fn round_trips() {
        A::round_trips();
        B::round_trips();
        C::round_trips();
        D::round_trips();
        E::round_trips();
    }
}

impl<A: Lossless, B: Lossless, C: Lossless, D: Lossless, E: Lossless> Lossless for (A, B, C, D, E) {
    fn lossless() {
        A::lossless();
        B::lossless();
        C::lossless();
        D::lossless();
        E::lossless();
    }
}

impl<A: RoundTrip, B: RoundTrip, C: RoundTrip, D: RoundTrip, E: RoundTrip> NeverNull
    for (A, B, C, D, E) {
    fn never_null() {}
}

impl<A: RoundTrip, B: RoundTrip, C: RoundTrip, D: RoundTrip, E: RoundTrip, F: RoundTrip> RoundTrip
    for (A, B, C, D, E, F) {
    fn round_trips() {
        A::round_trips();
        B::round_trips();
        C::round_trips();
        D::round_trips();
        E::round_trips();
        F::round_trips();
    }
}

impl<A: Lossless, B: Lossless, C: Lossless, D: Lossless, E: Lossless, F: Lossless> Lossless
    for (A, B, C, D, E, F) {
    fn lossless() {
        A::lossless();
        B::lossless();
        C::lossless();
        D::lossless();
        E::lossless();
        F::lossless();
    }
}

impl<A: RoundTrip, B: RoundTrip, C: RoundTrip, D: RoundTrip, E: RoundTrip, F: RoundTrip> NeverNull
    for (A, B, C, D, E, F) {
    fn never_null() {}
}
