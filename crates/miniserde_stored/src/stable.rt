//! The trait `Stable` of types for which a tree that means a value and its normal form mean the same value.
ghost use Rattle.std.specs.Prelude.{◌≡◌, pos, Some, None};
ghost use Rattle.miniserde_model.specs.Tree.{Tree, neg};
ghost use Rattle.miniserde_model.specs.Normal.{norm};
ghost use Rattle.miniserde_stored.specs.Stable.{IsStable};

use crate::exact::ExactKey;
use miniserde_keys::MapKey;
use miniserde_read::FromJson;
use std::collections::{BTreeMap, HashMap, VecDeque};
use std::hash::{BuildHasher, Hash};

/// A type for which a text that means a value and its canonical text mean the same value.
pub trait Stable: FromJson {
    /// Does nothing. It promises that if a tree means a value, its normal form means a value of the same content.
    fn stable()
        ensures { IsStable Self.means.from_tree };
}

/// Does nothing. It promises that if a tree means a value, its normal form means it too, and that two trees with the
/// same normal form mean no two values with different contents.
pub fn means_in_normal_form<T: Stable>()
    ensures means { (t : Tree) (v : T) → T.means.reads t v → T.means.reads (norm t) v }
    ensures one { (t u : Tree) (v w : T) → norm t ≡ norm u → T.means.reads t v → T.means.reads u w
        → T.means.content v ≡ T.means.content w }
{
    T::stable()
}

/// Does nothing. It promises that the normal form of a tree that means no value may mean one: `-0`
/// means no `u8`, and its normal form means 0. So a program that reads the canonical text in place
/// of the text accepts more.
pub fn normal_form_means_more()
    ensures text { ⟦<u8 as FromJson>⟧.means.from_tree (neg (pos 0)) ≡ None }
    ensures normal { ⟦<u8 as FromJson>⟧.means.from_tree (norm (neg (pos 0))) ≡ Some (pos 0) }
{}

/// Does nothing. It promises that `BTreeMap<u8, u8>` is not stable, as an example of a map with integer keys. The
/// reason: `{"1":1,"01":2}` has 2 at key 1, and its normal form `{"01":2,"1":1}` has 1 there.
pub fn two_names_of_a_key()
    ensures { IsStable ⟦<BTreeMap<u8, u8> as FromJson>⟧.means.from_tree → ⊥ }
{}

impl<T: Stable> Stable for Vec<T> {
    fn stable() {
        T::stable()
    }
}

impl<T: Stable> Stable for VecDeque<T> {
    fn stable() {
        T::stable()
    }
}

impl<T: Stable, const N: usize> Stable for [T; N] {
    fn stable() {
        T::stable()
    }
}

impl<T: Stable> Stable for Box<T> {
    fn stable() {
        T::stable()
    }
}

impl<T: Stable> Stable for Option<T> {
    fn stable() {
        T::stable()
    }
}

impl<A: Stable, B: Stable> Stable for (A, B) {
    fn stable() {
        A::stable();
        B::stable();
    }
}

impl<K: ExactKey + Ord, V: Stable> Stable for BTreeMap<K, V> {
    fn stable() {
        V::stable()
    }
}

impl<K: ExactKey + Hash, V: Stable, H: BuildHasher + Default + Drop> Stable for HashMap<K, V, H> {
    fn stable() {
        V::stable()
    }
}
