//! The trait of keys whose whole content `Eq` compares.
ghost use Rattle.std.specs.Prelude.{◌≡◌};

use super::MapKey;

/// A type of keys whose whole content `Eq` compares.
pub trait InjectiveKey: MapKey {
    // Keys with the same code have the same content.
    ghost injective: { (a b : Self) → Self.code (Self.content a) ≡ Self.code (Self.content b)
        → Self.content a ≡ Self.content b };
}

impl InjectiveKey for String {
    ghost injective = { λ a b e. e };
}

impl InjectiveKey for bool {
    ghost injective = { λ a b e. e };
}

impl InjectiveKey for char {
    ghost injective = { λ a b e. e };
}
