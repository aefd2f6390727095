//! The traits `Lossless` and `NeverNull`: valid values with the same tree have the same content, and no valid value
//! is written as `null`.
ghost use Rattle.std.specs.Prelude.{◌≡◌, IfOk, Err};
ghost use Rattle.miniserde_model.specs.Tree.{null};
ghost use Rattle.miniserde_model.specs.declared.error.Error.{Error};

use crate::round_trip::{RoundTrip, write_and_read};
use miniserde_keys::{InjectiveKey, MapKey};
use miniserde_model::error::Result;
use std::alloc::Global;
use std::collections::{BTreeMap, HashMap, VecDeque};
use std::hash::{BuildHasher, Hash};

/// A type whose valid values have the same content if they have the same tree, so each is read back with its content.
pub trait Lossless: RoundTrip {
    /// Does nothing. It promises that two valid values with the same tree have the same content.
    fn lossless()
        ensures { (v w : Self) → Self.valid v → Self.valid w → Self.tree v ≡ Self.tree w
            → Self.means.content v ≡ Self.means.content w };
}

/// A type of which no valid value is written as `null`, so that no `Some` of such a value has the
/// same text as `None`.
pub trait NeverNull: RoundTrip {
    /// Does nothing. It promises that no valid value is written as `null`.
    fn never_null()
        ensures { (v : Self) → Self.valid v → Self.tree v ≡ null → ⊥ };
}

/// Does nothing. It promises that the tree of a value means that value, and that all values that it means have the
/// same content. So from a text that spells the tree, `from_str` returns a value of that content, unless an
/// allocation fails.
pub fn means_itself<T: Lossless>(value: &T)
    ensures means { T.means.reads (T.tree value.now) value.now }
    ensures only { (v : T) → T.means.reads (T.tree value.now) v
        → T.means.content v ≡ T.means.content value.now }
{
    value.ranged();
    T::round_trips();
    T::lossless();
}

/// Writes a value and reads it back. Returns a value of the same content, or `Memory` if an allocation fails.
pub fn read_itself<T: Lossless>(alloc: Global, value: &T) -> Result<T>
    ensures itself { IfOk result (λ v. T.means.content v ≡ T.means.content value.now) }
    ensures memory { result ≡ Err Error.Invalid → ⊥ }
{
    T::lossless();
    value.ranged();
    write_and_read(alloc, value)
}

impl Lossless for () {
    fn lossless() {}
}

impl<T: Lossless> Lossless for Vec<T> {
    fn lossless() {
        T::lossless()
    }
}

impl<T: Lossless> Lossless for VecDeque<T> {
    fn lossless() {
        T::lossless()
    }
}

impl<T: Lossless, const N: usize> Lossless for [T; N] {
    fn lossless() {
        T::lossless()
    }
}

impl<T: Lossless> Lossless for Box<T> {
    fn lossless() {
        T::lossless()
    }
}

impl<T: Lossless + NeverNull> Lossless for Option<T> {
    fn lossless() {
        T::lossless();
        T::never_null();
    }
}

impl<A: Lossless, B: Lossless> Lossless for (A, B) {
    fn lossless() {
        A::lossless();
        B::lossless();
    }
}

impl<K: MapKey + Ord + InjectiveKey, V: Lossless> Lossless for BTreeMap<K, V> {
    fn lossless() {
        V::lossless()
    }
}

impl<K: MapKey + Hash + InjectiveKey, V: Lossless, H: BuildHasher + Default + Drop> Lossless
    for HashMap<K, V, H> {
    fn lossless() {
        V::lossless()
    }
}

impl<T: RoundTrip> NeverNull for Vec<T> {
    fn never_null() {}
}

impl<T: RoundTrip> NeverNull for VecDeque<T> {
    fn never_null() {}
}

impl<T: RoundTrip, const N: usize> NeverNull for [T; N] {
    fn never_null() {}
}

impl<T: NeverNull> NeverNull for Box<T> {
    fn never_null() {
        T::never_null()
    }
}

impl<A: RoundTrip, B: RoundTrip> NeverNull for (A, B) {
    fn never_null() {}
}

impl<K: MapKey + Ord, V: RoundTrip> NeverNull for BTreeMap<K, V> {
    fn never_null() {}
}

impl<K: MapKey + Hash, V: RoundTrip, H: BuildHasher + Default + Drop> NeverNull
    for HashMap<K, V, H> {
    fn never_null() {}
}
