//! Implements `Ranged` for tuples of three to six items.

use super::Ranged;

impl<A: Ranged, B: Ranged, C: Ranged> Ranged for (A, B, C) {
    ghost valid = { λ v. A.valid v.0 × B.valid v.1 × C.valid v.2 };

    fn ranged(&self) {
        self.0.ranged();
        self.1.ranged();
        self.2.ranged();
    }
}

impl<A: Ranged, B: Ranged, C: Ranged, D: Ranged> Ranged for (A, B, C, D) {
    ghost valid = { λ v. A.valid v.0 × B.valid v.1 × C.valid v.2 × D.valid v.3 };

    fn ranged(&self) {
        self.0.ranged();
        self.1.ranged();
        self.2.ranged();
        self.3.ranged();
    }
}

impl<A: Ranged, B: Ranged, C: Ranged, D: Ranged, E: Ranged> Ranged for (A, B, C, D, E) {
    ghost valid = { λ v. A.valid v.0 × B.valid v.1 × C.valid v.2 × D.valid v.3 × E.valid v.4 };

    fn ranged(&self) {
        self.0.ranged();
        self.1.ranged();
        self.2.ranged();
        self.3.ranged();
        self.4.ranged();
    }
}

impl<A: Ranged, B: Ranged, C: Ranged, D: Ranged, E: Ranged, F: Ranged> Ranged
    for (A, B, C, D, E, F) {
    ghost valid = { λ v. A.valid v.0 × B.valid v.1 × C.valid v.2 × D.valid v.3 × E.valid v.4 × F.valid v.5 };

    fn ranged(&self) {
        self.0.ranged();
        self.1.ranged();
        self.2.ranged();
        self.3.ranged();
        self.4.ranged();
        self.5.ranged();
    }
}
