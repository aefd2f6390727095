//! Promises about maps that were read: what std's `get` returns.
ghost use Rattle.std.specs.Prelude.{List, ℕ};
ghost use Rattle.std.specs.BTreeMap as ordered;
ghost use Rattle.std.specs.HashMap as hashed;
ghost use Rattle.miniserde_model.specs.Tree.{Tree};
ghost use Rattle.miniserde_read.specs.Lookups.{last_in, last_at, IsValueOf};

use crate::from_json::FromJson;
use miniserde_keys::MapKey;
use std::collections::{BTreeMap, HashMap};
use std::hash::{BuildHasher, Hash};

/// Does nothing. It promises, of a map that was read, that `get` returns for each name the value of the last member
/// of that name, and `None` if no member has it.
pub fn gets_last<T: FromJson>(map: &BTreeMap<String, T>)
    ensures { (t : Tree) → ⟦<BTreeMap<String, T> as FromJson>⟧.means.reads t map.now
        → (name : List ℕ) → IsValueOf T.means.reads (last_in name t) (ordered.get_by_text map.now name) }
{}

/// Does nothing. It promises, of a map that was read, that `get` returns for each key the value of the last member
/// whose name is read as an equal key, and `None` if there is no such member.
pub fn gets_last_by_key<K: MapKey + Ord, T: FromJson>(map: &BTreeMap<K, T>)
    ensures { (t : Tree) → ⟦<BTreeMap<K, T> as FromJson>⟧.means.reads t map.now
        → (k : K) → IsValueOf T.means.reads (last_at K.read K.code (K.code (K.content k)) t) (ordered.get K.cmp map.now k) }
{}

/// Does nothing. It promises, of a `HashMap` that was read, that `get` returns for each key the value of the last
/// member whose name is read as an equal key, and `None` if there is no such member.
pub fn gets_last_by_hashed_key<K: MapKey + Hash, T: FromJson, H: BuildHasher + Default + Drop>(
    map: &HashMap<K, T, H>,
)
    ensures { (t : Tree) → ⟦<HashMap<K, T, H> as FromJson>⟧.means.reads t map.now
        → (k : K) → IsValueOf T.means.reads (last_at K.read K.code (K.code (K.content k)) t) (hashed.get K.eq map.now k) }
{}
