//! The promise of `Stable` for tuples of three to six items.

use crate::stable::Stable;

impl<A: Stable, B: Stable, C: Stable> Stable for (A, B, C) {
    fn stable() {
        A::stable();
        B::stable();
        C::stable();
    }
}

impl<A: Stable, B: Stable, C: Stable, D: Stable> Stable for (A, B, C, D) {
    fn stable() {
        A::stable();
        B::stable();
        C::stable();
        D::stable();
    }
}

impl<A: Stable, B: Stable, C: Stable, D: Stable, E: Stable> Stable for (A, B, C, D, E) {
    fn stable() {
        A::stable();
        B::stable();
        C::stable();
        D::stable();
        E::stable();
    }
}

impl<A: Stable, B: Stable, C: Stable, D: Stable, E: Stable, F: Stable> Stable
    for (A, B, C, D, E, F) {
    fn stable() {
        A::stable();
        B::stable();
        C::stable();
        D::stable();
        E::stable();
        F::stable();
    }
}
