//! The kinds of std's types.
ghost use Rattle.std.specs.Prelude.{refl};
ghost use Rattle.miniserde_more.specs.laws.Kinds.{by_tree, of-option};

use crate::untagged::kinds::{
    ArrayKind, BooleanKind, EitherKind, HasKinds, NullKind, NumberKind, ObjectKind, StringKind,
};
use miniserde_keys::MapKey;
use miniserde_read::FromJson;
use std::collections::{BTreeMap, HashMap, VecDeque};
use std::hash::{BuildHasher, Hash};

impl HasKinds for () {
    type Kinds = NullKind;

    ghost only = { by_tree _ _ tt (λ _. refl) (λ _. refl) (λ _. refl) (λ _. refl) (λ _. refl) (λ _. refl) (λ _. refl) };
}

impl HasKinds for bool {
    type Kinds = BooleanKind;

    ghost only = { by_tree _ _ refl (λ _. tt) (λ _. refl) (λ _. refl) (λ _. refl) (λ _. refl) (λ _. refl) (λ _. refl) };
}

impl HasKinds for String {
    type Kinds = StringKind;

    ghost only = { by_tree _ _ refl (λ _. refl) (λ _. refl) (λ _. refl) (λ _. refl) (λ _. tt) (λ _. refl) (λ _. refl) };
}

impl HasKinds for u8 {
    type Kinds = NumberKind;

    ghost only = { by_tree _ _ refl (λ _. refl) (λ _. tt) (λ _. tt) (λ _. tt) (λ _. refl) (λ _. refl) (λ _. refl) };
}

impl HasKinds for u16 {
    type Kinds = NumberKind;

    ghost only = { by_tree _ _ refl (λ _. refl) (λ _. tt) (λ _. tt) (λ _. tt) (λ _. refl) (λ _. refl) (λ _. refl) };
}

impl HasKinds for u32 {
    type Kinds = NumberKind;

    ghost only = { by_tree _ _ refl (λ _. refl) (λ _. tt) (λ _. tt) (λ _. tt) (λ _. refl) (λ _. refl) (λ _. refl) };
}

impl HasKinds for u64 {
    type Kinds = NumberKind;

    ghost only = { by_tree _ _ refl (λ _. refl) (λ _. tt) (λ _. tt) (λ _. tt) (λ _. refl) (λ _. refl) (λ _. refl) };
}

impl HasKinds for usize {
    type Kinds = NumberKind;

    ghost only = { by_tree _ _ refl (λ _. refl) (λ _. tt) (λ _. tt) (λ _. tt) (λ _. refl) (λ _. refl) (λ _. refl) };
}

impl HasKinds for i8 {
    type Kinds = NumberKind;

    ghost only = { by_tree _ _ refl (λ _. refl) (λ _. tt) (λ _. tt) (λ _. tt) (λ _. refl) (λ _. refl) (λ _. refl) };
}

impl HasKinds for i16 {
    type Kinds = NumberKind;

    ghost only = { by_tree _ _ refl (λ _. refl) (λ _. tt) (λ _. tt) (λ _. tt) (λ _. refl) (λ _. refl) (λ _. refl) };
}

impl HasKinds for i32 {
    type Kinds = NumberKind;

    ghost only = { by_tree _ _ refl (λ _. refl) (λ _. tt) (λ _. tt) (λ _. tt) (λ _. refl) (λ _. refl) (λ _. refl) };
}

impl HasKinds for i64 {
    type Kinds = NumberKind;

    ghost only = { by_tree _ _ refl (λ _. refl) (λ _. tt) (λ _. tt) (λ _. tt) (λ _. refl) (λ _. refl) (λ _. refl) };
}

impl HasKinds for isize {
    type Kinds = NumberKind;

    ghost only = { by_tree _ _ refl (λ _. refl) (λ _. tt) (λ _. tt) (λ _. tt) (λ _. refl) (λ _. refl) (λ _. refl) };
}

impl<T: FromJson> HasKinds for Vec<T> {
    type Kinds = ArrayKind;

    ghost only = { by_tree _ _ refl (λ _. refl) (λ _. refl) (λ _. refl) (λ _. refl) (λ _. refl) (λ _. tt) (λ _. refl) };
}

impl<T: FromJson> HasKinds for VecDeque<T> {
    type Kinds = ArrayKind;

    ghost only = { by_tree _ _ refl (λ _. refl) (λ _. refl) (λ _. refl) (λ _. refl) (λ _. refl) (λ _. tt) (λ _. refl) };
}

impl<T: FromJson, const N: usize> HasKinds for [T; N] {
    type Kinds = ArrayKind;

    ghost only = { by_tree _ _ refl (λ _. refl) (λ _. refl) (λ _. refl) (λ _. refl) (λ _. refl) (λ _. tt) (λ _. refl) };
}

impl<A: FromJson, B: FromJson> HasKinds for (A, B) {
    type Kinds = ArrayKind;

    ghost only = { by_tree _ _ refl (λ _. refl) (λ _. refl) (λ _. refl) (λ _. refl) (λ _. refl) (λ _. tt) (λ _. refl) };
}

impl<A: FromJson, B: FromJson, C: FromJson> HasKinds for (A, B, C) {
    type Kinds = ArrayKind;

    ghost only = { by_tree _ _ refl (λ _. refl) (λ _. refl) (λ _. refl) (λ _. refl) (λ _. refl) (λ _. tt) (λ _. refl) };
}

impl<A: FromJson, B: FromJson, C: FromJson, D: FromJson> HasKinds for (A, B, C, D) {
    type Kinds = ArrayKind;

    ghost only = { by_tree _ _ refl (λ _. refl) (λ _. refl) (λ _. refl) (λ _. refl) (λ _. refl) (λ _. tt) (λ _. refl) };
}

impl<A: FromJson, B: FromJson, C: FromJson, D: FromJson, E: FromJson> HasKinds for (A, B, C, D, E) {
    type Kinds = ArrayKind;

    ghost only = { by_tree _ _ refl (λ _. refl) (λ _. refl) (λ _. refl) (λ _. refl) (λ _. refl) (λ _. tt) (λ _. refl) };
}

impl<A: FromJson, B: FromJson, C: FromJson, D: FromJson, E: FromJson, F: FromJson> HasKinds
    for (A, B, C, D, E, F) {
    type Kinds = ArrayKind;

    ghost only = { by_tree _ _ refl (λ _. refl) (λ _. refl) (λ _. refl) (λ _. refl) (λ _. refl) (λ _. tt) (λ _. refl) };
}

impl<K: MapKey + Ord, V: FromJson> HasKinds for BTreeMap<K, V> {
    type Kinds = ObjectKind;

    ghost only = { by_tree _ _ refl (λ _. refl) (λ _. refl) (λ _. refl) (λ _. refl) (λ _. refl) (λ _. refl) (λ _. tt) };
}

impl<K: MapKey + Hash, V: FromJson, H: BuildHasher + Default + Drop> HasKinds for HashMap<K, V, H> {
    type Kinds = ObjectKind;

    ghost only = { by_tree _ _ refl (λ _. refl) (λ _. refl) (λ _. refl) (λ _. refl) (λ _. refl) (λ _. refl) (λ _. tt) };
}

impl<T: HasKinds> HasKinds for Box<T> {
    type Kinds = T::Kinds;

    ghost only = { T.only };
}

impl<T: HasKinds> HasKinds for Option<T> {
    type Kinds = EitherKind<NullKind, T::Kinds>;

    ghost only = { of-option T.Kinds.kinds T.means.from_tree T.only };
}
