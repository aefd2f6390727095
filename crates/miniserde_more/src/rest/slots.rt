//! Reads the members that no field takes into a map.
ghost use Rattle.std.specs.Prelude.{◌≡◌, ◌++◌, List, Ok, IfOk, OnErr, IsErrOf, string_bytes};
ghost use Rattle.miniserde_model.specs.declared.error.Error.TheVariants.{Memory};
ghost use Rattle.miniserde_read.specs.types.Maps.{map_content, with_entry};
ghost use Rattle.miniserde_more.specs.Rest.{rest_content, entries_so_far};
ghost use Rattle.miniserde_more.specs.RestMeaning.{with_rest};

use crate::rest::open::OpenFields;
use crate::rest::taken::{NoNames, TakenNames, is_taken};
use miniserde_keys::MapKey;
use miniserde_model::error::Result;
use miniserde_read::{FromJson, Source, read_due};
use miniserde_record::record::{Layout, Parts, Record, Slots};
use std::alloc::Global;
use std::collections::BTreeMap;
use std::marker::PhantomData;

/// The fields `F` of the struct `S`, and a map of the members whose names are neither those of its fields nor among the
/// further names `A`. Of equal names the last member counts, and each one must mean a `V`.
#[derive(Drop)]
pub struct WithRest<S, F, V, A = NoNames> {
    fields: F,
    // The members so far, if there are any: `new` has no allocator for an empty map.
    rest: Option<BTreeMap<String, V>>,
    of: PhantomData<S>,
    taken: PhantomData<A>,
}

// Adds an entry to a map, or replaces the value of an equal key. Makes the map if there is none. Returns `Memory` if an
// allocation fails.
#[inline(never)]
fn add<K: MapKey + Ord, V: Drop>(
    map: &mut Option<BTreeMap<K, V>>,
    alloc: Global,
    key: K,
    value: V,
) -> Result<()>
    ensures added { IfOk result (λ _.
        map_content K.code K.content (λ v. v) (entries_so_far (λ m. m.entries) map.new)
        ≡ with_entry K.code (map_content K.code K.content (λ v. v) (entries_so_far (λ m. m.entries) map.old))
        (K.content key) value) }
    ensures memory { OnErr result (IsErrOf result Memory) }
{
    match map {
        Some(map) => {
            map.insert(key, value)?;
        }
        None => {
            let mut fresh = BTreeMap::new(alloc);
            fresh.insert(key, value)?;
            *map = Some(fresh);
        }
    }
    Ok(())
}

// Returns the map, or an empty one if there is none. Allocates nothing.
fn or_empty<K: MapKey + Ord, V>(map: Option<BTreeMap<K, V>>, alloc: Global) -> BTreeMap<K, V>
    ensures { result.entries ≡ entries_so_far (λ m. m.entries) map }
{
    match map {
        Some(map) => map,
        None => BTreeMap::new(alloc),
    }
}

impl<S: Record, F: OpenFields, V: FromJson, A: TakenNames> Slots for WithRest<S, F, V, A> {
    type Values = Parts<BTreeMap<String, V>, F::Values>;

    ghost meaning = { with_rest string_bytes S.names A.further V.means (λ m. m.entries) F.meaning };

    ghost state = { λ f. (
      rest_content string_bytes (A.further ++ S.names) V.means.content (entries_so_far (λ m. m.entries) f.rest),
      F.state f.fields,
    ) };

    ghost end_infallible = { F.end_infallible };

    fn new() -> WithRest<S, F, V, A> {
        WithRest {
            fields: F::new(),
            rest: None,
            of: PhantomData,
            taken: PhantomData,
        }
    }

    #[inline(always)]
    fn read_member<'a, L: Layout>(
        &mut self,
        _names: &[&str],
        name: &str,
        source: &mut Source<'a>,
    ) -> Result<()> {
        if is_taken::<A>(S::names(), name) {
            return self.fields.read_member::<L>(S::names(), name, source);
        }
        F::open();
        let value = read_due(source)?;
        let key = String::from_str(source.alloc(), name)?;
        add(&mut self.rest, source.alloc(), key, value)?;
        Ok(())
    }

    fn end(self, alloc: Global) -> Result<Parts<BTreeMap<String, V>, F::Values>> {
        let WithRest {
            fields,
            rest,
            of: _,
            taken: _,
        } = self;
        Ok(Parts(or_empty(rest, alloc), fields.end(alloc)?))
    }
}
