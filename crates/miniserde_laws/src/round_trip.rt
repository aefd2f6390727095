//! The trait `RoundTrip` of types whose values are read back from their texts as values with the same tree.
ghost use Rattle.std.specs.Prelude.{◌≡◌, IfOk, Ok, Err};
ghost use Rattle.miniserde_model.specs.Tree.{Tree};
ghost use Rattle.miniserde_model.specs.Value.{IsJson};
ghost use Rattle.miniserde_laws.specs.RoundTrip.{RoundTrips};
ghost use Rattle.miniserde_model.specs.declared.error.Error.{Error};

use miniserde_keys::{MapKey, Ranged};
use miniserde_model::error::{Error, Result};
use miniserde_read::{FromJson, from_str};
use miniserde_ser::ser::{Serialize, to_string};
use std::alloc::Global;
use std::collections::{BTreeMap, HashMap, VecDeque};
use std::hash::{BuildHasher, Hash};

/// A type of which each valid value is read back from its text as a value with the same tree.
pub trait RoundTrip: Ranged + Serialize + FromJson {
    /// Does nothing. It promises that the tree of each valid value means some valid value, and that each valid value
    /// that the tree means has this same tree.
    fn round_trips()
        ensures { (v : Self) → Self.valid v
            → RoundTrips Self.valid Self.tree Self.means.reads (Self.tree v) };
}

/// Reads one JSON value that spans the whole text, as `from_str` does (RFC 8259, section 2). If the
/// text spells the tree of a valid value, the returned value has that tree. Returns `Invalid` if
/// the text means no value, and `Memory` if an allocation fails.
pub fn read_back<T: RoundTrip>(alloc: Global, text: &str) -> Result<T>
    // The text spells a tree that means the value, which is valid.
    ensures ok { IfOk result (λ read. (t : Tree) × IsJson text.now t × T.means.reads t read) }
    ensures valid { IfOk result (λ read. T.valid read) }

    // If the text spells the tree of a valid value, the result has that tree.
    ensures same { IfOk result (λ read. (v : T) → T.valid v → IsJson text.now (T.tree v) → T.tree read ≡ T.tree v) }

    // If the result is `Invalid`, the text spells the tree of no valid value.
    ensures stored { result ≡ Err Error.Invalid → (v : T) → T.valid v → IsJson text.now (T.tree v) → ⊥ }

    // If the result is `Invalid`, no tree that the text spells means a value.
    ensures invalid { result ≡ Err Error.Invalid → (t : Tree) → IsJson text.now t
        → (v : T) → T.means.reads t v → ⊥ }
{
    T::round_trips();
    let read: T = from_str(alloc, text)?;
    read.ranged();
    Ok(read)
}

/// Writes a value and reads it back. Returns a value with the same tree, or `Memory` if an allocation fails. If all
/// valid values with that tree have the same content, the result has it too.
pub fn write_and_read<T: RoundTrip>(alloc: Global, value: &T) -> Result<T>
    ensures same { IfOk result (λ v. T.tree v ≡ T.tree value.now) }
    ensures itself { ((v : T) → T.valid v → T.tree v ≡ T.tree value.now
        → T.means.content v ≡ T.means.content value.now)
        → IfOk result (λ v. T.means.content v ≡ T.means.content value.now) }
    ensures memory { result ≡ Err Error.Invalid → ⊥ }
{
    value.ranged();
    let text = to_string(alloc, value)?;
    let read: T = read_back(alloc, text.as_str())?;
    Ok(read)
}

impl RoundTrip for () {
    fn round_trips() {}
}

impl<T: RoundTrip> RoundTrip for Vec<T> {
    fn round_trips() {
        T::round_trips()
    }
}

impl<T: RoundTrip> RoundTrip for VecDeque<T> {
    fn round_trips() {
        T::round_trips()
    }
}

impl<T: RoundTrip, const N: usize> RoundTrip for [T; N] {
    fn round_trips() {
        T::round_trips()
    }
}

impl<T: RoundTrip> RoundTrip for Box<T> {
    fn round_trips() {
        T::round_trips()
    }
}

impl<T: RoundTrip> RoundTrip for Option<T> {
    fn round_trips() {
        T::round_trips()
    }
}

impl<A: RoundTrip, B: RoundTrip> RoundTrip for (A, B) {
    fn round_trips() {
        A::round_trips();
        B::round_trips();
    }
}

impl<K: MapKey + Ord, V: RoundTrip> RoundTrip for BTreeMap<K, V> {
    fn round_trips() {
        V::round_trips()
    }
}

impl<K: MapKey + Hash, V: RoundTrip, H: BuildHasher + Default + Drop> RoundTrip
    for HashMap<K, V, H> {
    fn round_trips() {
        V::round_trips()
    }
}
