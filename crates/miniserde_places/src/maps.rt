//! The places of `BTreeMap` and `HashMap`. If the names of two members are read as equal keys, the
//! map has the first key and the last value.
ghost use Rattle.std.specs.Prelude.{◌≡◌, [], List, Option, None, Ok, IfOk, OnErr, IsErrOf};
ghost use Rattle.miniserde_model.specs.declared.error.Error.TheVariants.{Memory};
ghost use Rattle.miniserde_read.specs.types.Maps.{key_meaning, map_content, with_entry};
ghost use Rattle.miniserde_places.specs.PlaceMeanings.{map_collector};

use miniserde_keys::MapKey;
use miniserde_model::error::{Error, Result};
use miniserde_place::de::container::{Collect, hand_on};
use miniserde_place::de::{Step, Visitor};
use miniserde_read::Table;
use std::alloc::Global;
use std::collections::{BTreeMap, HashMap};
use std::hash::{BuildHasher, Hash};

/// The collector of a map: the entries so far, and the key and the place of the current value, if
/// there is one. If there is no current value, a contract sees a place whose first error is
/// `Invalid`, so `step` and `join` return `Invalid`.
#[derive(Drop)]
pub struct MapOf<M, K, P> {
    table: M,
    child: Option<(K, P)>,
}

impl<P: Visitor, M: Table<Value = P::Out>> Collect for MapOf<M, M::Key, P> {
    type Out = M;

    ghost collector_meaning = { map_collector (key_meaning M.Key.read M.Key.code M.Key.content) P.meaning
        (λ c. M.entries c.table) (λ c. c.child) M.entries };

    fn new(alloc: Global) -> MapOf<M, M::Key, P> {
        MapOf {
            table: M::new(alloc),
            child: None,
        }
    }

    fn opens(event: &Step<'_>) -> bool {
        matches!(event, Step::Map)
    }

    #[inline(always)]
    fn begin_child(&mut self, alloc: Global, event: Step<'_>) -> Result<()> {
        match event {
            Step::Key(name) => {
                let key = <M::Key as MapKey>::from_key(alloc, name)?;
                self.child = Some((key, P::begin(alloc)?));
                Ok(())
            }
            _ => Err(Error::Invalid),
        }
    }

    fn step(&mut self, event: Step<'_>) -> Result<bool> {
        match &mut self.child {
            Some((_, place)) => hand_on(place, event),
            None => Err(Error::Invalid),
        }
    }

    #[inline(always)]
    fn join(&mut self) -> Result<()> {
        match self.child.take() {
            Some((key, place)) => self.table.put(key, place.take()?),
            None => Err(Error::Invalid),
        }
    }

    fn can_end(&self) -> bool {
        true
    }

    fn end(self) -> Option<M> {
        Some(self.table)
    }
}
