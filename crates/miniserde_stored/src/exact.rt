//! The trait of keys each of which is read from one name alone.
ghost use Rattle.std.specs.Prelude.{◌≡◌, ℕ, List, Some};
ghost use Rattle.miniserde_keys.specs.Keys.{Key};
ghost use Rattle.miniserde_stored.specs.laws.Exact.{text-exact, bool-exact, char-exact};

use miniserde_keys::MapKey;

/// A type of keys, each of which is read from one name alone.
pub trait ExactKey: MapKey {
    // Names that are read as equal keys are equal.
    ghost one_name: { (n m : List ℕ) (c d : Key) → Self.read n ≡ Some c → Self.read m ≡ Some d
        → Self.code c ≡ Self.code d → n ≡ m };
}

impl ExactKey for String {
    ghost one_name = { text-exact };
}

impl ExactKey for bool {
    ghost one_name = { bool-exact };
}

impl ExactKey for char {
    ghost one_name = { char-exact };
}
