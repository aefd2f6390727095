//! The empty values of types, for fields that are missing.
ghost use Rattle.std.specs.Prelude.{[], false};
ghost use Rattle.miniserde_model.specs.Tree.{null, truth, nonneg, str, list, no_trees, members, no_members};

use super::given::Given;
use miniserde_keys::MapKey;
use miniserde_model::error::Result;
use miniserde_read::FromJson;
use std::alloc::Global;
use std::collections::{BTreeMap, HashMap, VecDeque};
use std::hash::{BuildHasher, Hash};

/// The empty value of a type, for a missing field: `false`, zero, `None`, or an empty text, list or map.
#[derive(Drop)]
pub struct Empty {}

impl Given<bool> for Empty {
    ghost given = { truth false };

    fn make(_alloc: Global) -> Result<bool> {
        Ok(false)
    }
}

impl Given<String> for Empty {
    ghost given = { str [] };

    fn make(alloc: Global) -> Result<String> {
        Ok(String::new(alloc))
    }
}

impl<T: FromJson> Given<Option<T>> for Empty {
    ghost given = { null };

    fn make(_alloc: Global) -> Result<Option<T>> {
        Ok(None)
    }
}

impl<T: FromJson> Given<Vec<T>> for Empty {
    ghost given = { list no_trees };

    fn make(alloc: Global) -> Result<Vec<T>> {
        Ok(Vec::new(alloc))
    }
}

impl<T: FromJson> Given<VecDeque<T>> for Empty {
    ghost given = { list no_trees };

    fn make(alloc: Global) -> Result<VecDeque<T>> {
        Ok(VecDeque::new(alloc))
    }
}

impl<K: MapKey + Ord, V: FromJson> Given<BTreeMap<K, V>> for Empty {
    ghost given = { members no_members };

    fn make(alloc: Global) -> Result<BTreeMap<K, V>> {
        Ok(BTreeMap::new(alloc))
    }
}

impl<K: MapKey + Hash, V: FromJson, H: BuildHasher + Default + Drop> Given<HashMap<K, V, H>>
    for Empty {
    ghost given = { members no_members };

    fn make(alloc: Global) -> Result<HashMap<K, V, H>> {
        Ok(HashMap::with_hasher(alloc, H::default()))
    }
}

impl Given<u8> for Empty {
    ghost given = { nonneg 0 };

    fn make(_alloc: Global) -> Result<u8> {
        Ok(0)
    }
}

impl Given<u16> for Empty {
    ghost given = { nonneg 0 };

    fn make(_alloc: Global) -> Result<u16> {
        Ok(0)
    }
}

impl Given<u32> for Empty {
    ghost given = { nonneg 0 };

    fn make(_alloc: Global) -> Result<u32> {
        Ok(0)
    }
}

impl Given<u64> for Empty {
    ghost given = { nonneg 0 };

    fn make(_alloc: Global) -> Result<u64> {
        Ok(0)
    }
}

impl Given<usize> for Empty {
    ghost given = { nonneg 0 };

    fn make(_alloc: Global) -> Result<usize> {
        Ok(0)
    }
}

impl Given<i8> for Empty {
    ghost given = { nonneg 0 };

    fn make(_alloc: Global) -> Result<i8> {
        Ok(0)
    }
}

impl Given<i16> for Empty {
    ghost given = { nonneg 0 };

    fn make(_alloc: Global) -> Result<i16> {
        Ok(0)
    }
}

impl Given<i32> for Empty {
    ghost given = { nonneg 0 };

    fn make(_alloc: Global) -> Result<i32> {
        Ok(0)
    }
}

impl Given<i64> for Empty {
    ghost given = { nonneg 0 };

    fn make(_alloc: Global) -> Result<i64> {
        Ok(0)
    }
}

impl Given<isize> for Empty {
    ghost given = { nonneg 0 };

    fn make(_alloc: Global) -> Result<isize> {
        Ok(0)
    }
}
