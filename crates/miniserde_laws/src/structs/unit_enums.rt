//! Promises that the values of unit enums are read back, and that no two are written alike.
ghost use Rattle.std.specs.Prelude.{◌≡◌, ⊤};
ghost use Rattle.miniserde_model.specs.Tree.{str};
ghost use Rattle.miniserde_laws.specs.RoundTrip.{RoundTrips};

use miniserde_record::record::UnitEnum;

/// Does nothing. It promises that the tree of each value of a unit enum means a value, and that each value that it
/// means has that tree, in the form that `RoundTrip` needs.
pub fn variant_round_trips<T: UnitEnum>()
    ensures { (v : T) → ⊤
        → RoundTrips (λ _. ⊤) (λ v. str (T.name_of v)) (λ t v. t ≡ str (T.name_of v)) (str (T.name_of v)) }
{}

/// Does nothing. It promises that no two values of a unit enum have the same tree, in the form that `Lossless` needs.
pub fn variant_lossless<T: UnitEnum>()
    ensures { (v w : T) → ⊤ → ⊤ → str (T.name_of v) ≡ str (T.name_of w) → v ≡ w }
{}
