//! Reads `BTreeMap` and `HashMap` from objects.
ghost use Rattle.std.specs.Prelude.{◌≡◌, [], List, None, Some, Ok, IfOk, OnErr, IsErrOf};
ghost use Rattle.miniserde_text.specs.Lexer.{event_of_token};
ghost use Rattle.miniserde_model.specs.declared.error.Error.TheVariants.{Memory};
ghost use Rattle.miniserde_read.specs.Meanings.{map_meaning};
ghost use Rattle.miniserde_read.specs.Calls.{Reads};
ghost use Rattle.miniserde_read.specs.Events.{EventInRange};
ghost use Rattle.miniserde_read.specs.types.Maps.{key_meaning, map_content, with_entry};

use super::FromJson;
use crate::children::read_due;
use crate::source::Source;
use miniserde_keys::MapKey;
use miniserde_model::error::{Error, Result};
use miniserde_text::json::lex::{After, Event, Kind};
use std::alloc::Global;
use std::collections::{BTreeMap, HashMap};
use std::hash::{BuildHasher, Hash};

/// A map to which entries are added one by one.
pub trait Table: Drop {
    /// The type of the keys.
    type Key: MapKey;

    /// The type of the values.
    type Value: Drop;

    // The entries, in the order of iteration.
    ghost entries: { Self → List (Self.Key × Self.Value) };

    /// Returns an empty map. Allocates nothing.
    fn new(alloc: Global) -> Self
        ensures { entries result ≡ [] };

    /// Adds an entry. If an equal key is there, that key stays and its value is replaced. Returns `Memory` if the map
    /// cannot grow.
    fn put(&mut self, key: Self::Key, value: Self::Value) -> Result<()>
        ensures put { IfOk result (λ _.
            map_content Self.Key.code Self.Key.content (λ v. v) (entries self.new) ≡ with_entry Self.Key.code
            (map_content Self.Key.code Self.Key.content (λ v. v) (entries self.old)) (Self.Key.content key) value) }
        ensures memory { OnErr result (IsErrOf result Memory) };
}

impl<K: MapKey + Ord, V: Drop> Table for BTreeMap<K, V> {
    type Key = K;

    type Value = V;

    ghost entries = { λ m. m.entries };

    fn new(alloc: Global) -> BTreeMap<K, V> {
        BTreeMap::new(alloc)
    }

    #[inline(always)]
    fn put(&mut self, key: K, value: V) -> Result<()> {
        self.insert(key, value)?;
        Ok(())
    }
}

impl<K: MapKey + Hash, V: Drop, H: BuildHasher + Default + Drop> Table for HashMap<K, V, H> {
    type Key = K;

    type Value = V;

    ghost entries = { λ m. m.entries };

    // The map's hasher is `H::default()`.
    fn new(alloc: Global) -> HashMap<K, V, H> {
        HashMap::with_hasher(alloc, H::default())
    }

    #[inline(always)]
    fn put(&mut self, key: K, value: V) -> Result<()> {
        HashMap::insert(self, key, value)?;
        Ok(())
    }
}

/// Reads an object as a map, member by member. If keys are equal, the first key stays, with the last value. Returns
/// `Invalid` if the text, from `token` on, has no prefix that means a map of the type, and `Memory` if an allocation
/// fails.
#[inline(always)]
fn read_table<'a, V: FromJson, M: Table<Value = V>>(
    token: Event<'a>,
    source: &mut Source<'a>,
) -> Result<M>
    requires going { source.old.refused ≡ None }
    requires event { EventInRange (event_of_token token source.old.scratch) }
    ensures { Reads (map_meaning (key_meaning M.Key.read M.Key.code M.Key.content) V.means M.entries).from_tree
        (map_meaning (key_meaning M.Key.read M.Key.code M.Key.content) V.means M.entries).content
        (event_of_token token.entry source.old.scratch) source.old result source.new }
{
    let Event::MapStart = token else {
        return Err(Error::Invalid);
    };
    let mut table = M::new(source.alloc());
    let mut next = source.after(Kind::Map, true)?;
    while let After::Next = next {
        let name = source.name()?;
        let key = <M::Key as MapKey>::from_key(source.alloc(), source.text(name))?;
        let value = read_due(source)?;
        table.put(key, value)?;
        next = source.after(Kind::Map, false)?;
    }
    Ok(table)
}

impl<K: MapKey + Ord, V: FromJson> FromJson for BTreeMap<K, V> {
    ghost means = { map_meaning (key_meaning K.read K.code K.content) V.means (λ v. v.entries) };

    fn missing() -> Option<BTreeMap<K, V>> {
        None
    }

    fn read<'a>(token: Event<'a>, source: &mut Source<'a>) -> Result<BTreeMap<K, V>> {
        read_table(token, source)
    }
}

impl<K: MapKey + Hash, V: FromJson, H: BuildHasher + Default + Drop> FromJson for HashMap<K, V, H> {
    ghost means = { map_meaning (key_meaning K.read K.code K.content) V.means (λ v. v.entries) };

    fn missing() -> Option<HashMap<K, V, H>> {
        None
    }

    fn read<'a>(token: Event<'a>, source: &mut Source<'a>) -> Result<HashMap<K, V, H>> {
        read_table(token, source)
    }
}
