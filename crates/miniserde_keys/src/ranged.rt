//! The trait `Ranged`, which says which values of a type are valid. For `char` and the integers,
//! `ranged` reads the value, which tells the proof that it is in the range of its type.
ghost use Rattle.std.specs.Prelude.{◌≡◌, length, ⊤};
ghost use Rattle.std.specs.List.{AllByRecursion};
ghost use Rattle.std.specs.Char.{IsScalar};
ghost use Rattle.std.specs.BTreeMap.{IsOrdered};
ghost use Rattle.std.specs.HashMap.{IsUnique};
ghost use Rattle.miniserde_keys.specs.Ranged.{OptionValid};

mod tuples;

use crate::integers::StdInteger;
use std::collections::{BTreeMap, HashMap, VecDeque};
use std::hash::{BuildHasher, Hash};

/// A type that says which of its values are valid. In a contract a `u8` may be any number, and the keys of a
/// `BTreeMap` may be out of order; a call of `ranged` promises of a value of the program that its integers and
/// characters are in range, that an array has its length, and that the keys of a map are in order or distinct. Each
/// `String` and each document counts as valid.
pub trait Ranged {
    // Which values are valid.
    ghost valid: { Self → Type 0 };

    /// Changes nothing. It promises that the value is valid.
    fn ranged(&self)
        ensures { valid self.now };
}

impl Ranged for () {
    ghost valid = { λ _. ⊤ };

    fn ranged(&self) {}
}

impl Ranged for bool {
    ghost valid = { λ _. ⊤ };

    fn ranged(&self) {}
}

impl Ranged for char {
    ghost valid = { IsScalar };

    fn ranged(&self) {
        let _value = *self;
    }
}

impl Ranged for String {
    ghost valid = { λ _. ⊤ };

    fn ranged(&self) {}
}

impl<T: StdInteger> Ranged for T {
    ghost valid = { T.in_range };

    fn ranged(&self) {
        // For its clause `in_range`.
        let _wide = self.widen();
    }
}

impl<T: Ranged> Ranged for Box<T> {
    ghost valid = { λ b. T.valid b.value };

    fn ranged(&self) {
        T::ranged(self)
    }
}

impl<T: Ranged> Ranged for Option<T> {
    ghost valid = { OptionValid T.valid };

    fn ranged(&self) {
        if let Some(value) = self {
            value.ranged();
        }
    }
}

impl<A: Ranged, B: Ranged> Ranged for (A, B) {
    ghost valid = { λ p. A.valid p.0 × B.valid p.1 };

    fn ranged(&self) {
        self.0.ranged();
        self.1.ranged();
    }
}

// Calls `ranged` for each of the items, and so promises that each is valid.
fn ranged_all<T: Ranged>(items: &[T])
    ensures { AllByRecursion T.valid items.now }
{
    for item in items {
        item.ranged();
    }
}

impl<T: Ranged> Ranged for Vec<T> {
    ghost valid = { λ v. AllByRecursion T.valid v.items };

    fn ranged(&self) {
        ranged_all(self.as_slice())
    }
}

impl<T: Ranged> Ranged for VecDeque<T> {
    ghost valid = { λ q. AllByRecursion T.valid q.items };

    fn ranged(&self) {
        for item in self {
            item.ranged();
        }
    }
}

impl<T: Ranged, const N: usize> Ranged for [T; N] {
    ghost valid = { λ xs. (length xs ≡ N) × AllByRecursion T.valid xs };

    fn ranged(&self) {
        ranged_all(self)
    }
}

impl<K: Ranged + Ord, V: Ranged> Ranged for BTreeMap<K, V> {
    ghost valid = { λ m. IsOrdered K.cmp m × AllByRecursion (λ e. K.valid e.0 × V.valid e.1) m.entries };

    fn ranged(&self) {
        for (key, value) in self {
            key.ranged();
            value.ranged();
        }
    }
}

impl<K: Ranged + Eq + Hash, V: Ranged, H: BuildHasher> Ranged for HashMap<K, V, H> {
    ghost valid = { λ m. IsUnique K.eq m × AllByRecursion (λ e. K.valid e.0 × V.valid e.1) m.entries };

    fn ranged(&self) {
        for (key, value) in self {
            key.ranged();
            value.ranged();
        }
    }
}
