//! The promise of `Stable` for std's types that are one token, and for values that are skipped.
ghost use Rattle.miniserde_stored.specs.Stable.{IsStable};
ghost use Rattle.miniserde_stored.specs.laws.Leaves.{stable-unit, stable-boolean, stable-string, stable-unsigned};
ghost use Rattle.miniserde_stored.specs.laws.Leaves.{stable-signed, stable-ignored};

use crate::stable::Stable;
use miniserde_read::{FromJson, Ignored};

/// A type for which a tree that means a value and its normal form mean the same value. The proof is its ghost member,
/// where a `Stable` type has a function.
pub trait StableLeaf: FromJson {
    // If a tree means a value, its normal form means a value of the same content.
    ghost leaf_stable: { IsStable Self.means.from_tree };
}

impl StableLeaf for () {
    ghost leaf_stable = { stable-unit };
}

impl StableLeaf for bool {
    ghost leaf_stable = { stable-boolean };
}

impl StableLeaf for String {
    ghost leaf_stable = { stable-string };
}

impl StableLeaf for u8 {
    ghost leaf_stable = { stable-unsigned 8 };
}

impl StableLeaf for u16 {
    ghost leaf_stable = { stable-unsigned 16 };
}

impl StableLeaf for u32 {
    ghost leaf_stable = { stable-unsigned 32 };
}

impl StableLeaf for u64 {
    ghost leaf_stable = { stable-unsigned 64 };
}

impl StableLeaf for usize {
    ghost leaf_stable = { stable-unsigned 64 };
}

impl StableLeaf for i8 {
    ghost leaf_stable = { stable-signed 8 };
}

impl StableLeaf for i16 {
    ghost leaf_stable = { stable-signed 16 };
}

impl StableLeaf for i32 {
    ghost leaf_stable = { stable-signed 32 };
}

impl StableLeaf for i64 {
    ghost leaf_stable = { stable-signed 64 };
}

impl StableLeaf for isize {
    ghost leaf_stable = { stable-signed 64 };
}

impl StableLeaf for Ignored {
    ghost leaf_stable = { stable-ignored tt };
}

impl<T: StableLeaf> Stable for T {
    fn stable() {}
}
