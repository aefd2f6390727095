//! Which places std's containers, pairs and options have.

use super::super::Deserialize;
use miniserde_keys::MapKey;
use miniserde_place::de::container::ContainerPlace;
use miniserde_places::{ArrayOf, BoxPlace, ListOf, MapOf, OptionPlace, PairOf};
use std::collections::{BTreeMap, HashMap};
use std::hash::{BuildHasher, Hash};

/// The place of an array: a list of exactly `N` items.
pub type ArrayPlace<T, const N: usize> = ContainerPlace<ArrayOf<<T as Deserialize>::Place, T, N>>;

/// The place of a `BTreeMap`.
pub type BTreeMapPlace<K, V> = ContainerPlace<MapOf<BTreeMap<K, V>, K, <V as Deserialize>::Place>>;

/// The place of a `HashMap`.
pub type HashMapPlace<K, V, H> = ContainerPlace<
    MapOf<HashMap<K, V, H>, K, <V as Deserialize>::Place>,
>;

/// The place of a pair: a list of exactly two elements.
pub type PairPlace<A, B> = ContainerPlace<
    PairOf<<A as Deserialize>::Place, A, <B as Deserialize>::Place, B>,
>;

/// The place of a `Vec`.
pub type VecPlace<T> = ContainerPlace<ListOf<<T as Deserialize>::Place, T>>;

impl<T: Deserialize, const N: usize> Deserialize for [T; N] {
    type Place = ArrayPlace<T, N>;

    fn tied() {
        T::tied()
    }
}

impl<T: Deserialize> Deserialize for Box<T> {
    type Place = BoxPlace<T::Place>;

    fn tied() {
        T::tied()
    }
}

impl<K: MapKey + Ord, V: Deserialize> Deserialize for BTreeMap<K, V> {
    type Place = BTreeMapPlace<K, V>;

    fn tied() {
        V::tied()
    }
}

impl<K: MapKey + Hash, V: Deserialize, H: BuildHasher + Default + Drop> Deserialize
    for HashMap<K, V, H> {
    type Place = HashMapPlace<K, V, H>;

    fn tied() {
        V::tied()
    }
}

impl<T: Deserialize> Deserialize for Option<T> {
    type Place = OptionPlace<T::Place>;

    fn tied() {
        T::tied()
    }
}

impl<A: Deserialize, B: Deserialize> Deserialize for (A, B) {
    type Place = PairPlace<A, B>;

    fn tied() {
        A::tied();
        B::tied()
    }
}

impl<T: Deserialize> Deserialize for Vec<T> {
    type Place = VecPlace<T>;

    fn tied() {
        T::tied()
    }
}
