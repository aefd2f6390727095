//! The type `Object`, JSON values by name.
ghost use Rattle.std.specs.Prelude.{◌≡◌, ◌++◌, ◌∷◌, [], List, String, MatchOption, IfOk, OnOk, OnErr, IsErrOf};
ghost use Rattle.std.specs.Prelude.{string_bytes};
ghost use Rattle.std.specs.Iterator.{IsFinite, Drains};
ghost use Rattle.std.specs.declared.alloc.Global.{Global};
ghost use Rattle.miniserde_model.specs.declared.error.Error.TheVariants.{Memory};
ghost use Rattle.miniserde_model.specs.Normal.{put};
ghost use Rattle.std.specs.Borrow.{Lends, sem};
ghost use Rattle.std.specs.BTreeMap.{keys, IsFromIterResult, IsOrdered};
ghost use Rattle.std.specs.BTreeMap.IterMut.{IterMutCanStep, iter_mut_rest};
ghost use Rattle.std.specs.Map.Iter.{GivesInOrder, ShowsInOrder, LendsValuesInOrder, deref_pair};
ghost use Rattle.std.specs.String.{string_cmp};
ghost use Rattle.miniserde_value.specs.declared.json.value.Value.{Value as V};
ghost use Rattle.miniserde_value.specs.Values.{object_entries, object_members, object_values, content_of, with_members};
ghost use Rattle.miniserde_value.specs.Looks.{ReplacesFirst};

use super::drop::safely;
use super::value::Value;
use miniserde_model::error::Result;
use std::alloc::{AllocError, Global};
use std::collections::{BTreeMap, btree_map};
use std::{mem, result};

/// JSON values by name, in byte order of the names. An object is dropped without recursion.
#[cycle(value)]
pub struct Object {
    members: BTreeMap<String, Value>,
}

impl Object {
    ghost use Rattle.miniserde_value.specs.Rows.{btree_map_type};
    ghost use Rattle.miniserde_value.specs.contracts.json.object.Object.{the_row};

    /// Returns an object without members. Allocates nothing.
    pub fn new(alloc: Global) -> Object
        ensures { object_entries result ≡ [] }
    {
        Object {
            members: BTreeMap::new(alloc),
        }
    }

    /// Returns an object of the members of a finite iterator. If a name is a duplicate, the last value stays. Returns
    /// `Memory` if an allocation fails.
    pub fn from_iter<I: IntoIterator<Item = (String, Value)>>(
        alloc: Global,
        iter: I,
    ) -> Result<Object>
        requires { (it : I.IntoIter) → I.into_iter_gives iter it → I.IntoIter.can_next it
            × IsFinite (I.IntoIter.remaining it) }
        ensures items { IfOk result (λ a. (it : I.IntoIter) × (xs : List (String Global × V))
            × I.into_iter_gives iter it × Drains I.IntoIter.next_gives it xs
            × (IsFromIterResult string_cmp xs a.members)) }
        ensures memory { OnErr result (IsErrOf result Memory) }
    {
        Ok(Object::from_inner(BTreeMap::from_iter(alloc, iter)?))
    }

    // Returns the map of members as an object.
    pub(crate) fn from_inner(members: BTreeMap<String, Value>) -> Object
        ensures { result.members ≡ members }
    {
        Object { members }
    }

    /// Returns the map of the members.
    pub fn inner(&self) -> &BTreeMap<String, Value>
        ensures { result.now ≡ self.now.members }
    {
        &self.members
    }

    /// Returns a mutable reference to the map of the members.
    pub fn inner_mut(&mut self) -> &mut BTreeMap<String, Value>
        // When the borrow ends, the object has the members that the reference then has.
        ensures* writes_back { sem 𝓛 (Lends the_row btree_map_type self.entry result with_members) }
        ensures value { result.now ≡ self.old.members }
    {
        &mut self.members
    }

    /// Adds a member, or replaces the value of the same name. If an allocation fails, drops the value, returns `Memory`
    /// and leaves the members unchanged.
    pub fn put(&mut self, alloc: Global, name: &str, value: Value) -> Result<()>
        ensures ok { OnOk result (object_members self.new ≡ put name.now (content_of value) (object_members self.old)) }
        ensures memory { OnErr result (IsErrOf result Memory) }
        ensures err { OnErr result (object_entries self.new ≡ object_entries self.old) }
    {
        let name = String::from_str(alloc, name)?;
        Ok(self.insert(name, value)?)
    }

    // Adds a member, or replaces the value of the same name. If the map cannot grow, drops name and value, fails and
    // leaves the members unchanged. Never inlined, so that the map's own `insert` is compiled into this function alone.
    #[inline(never)]
    pub(crate) fn insert(&mut self, name: String, value: Value) -> result::Result<(), AllocError>
        ensures ok { OnOk result (object_members self.new
            ≡ put (string_bytes name) (content_of value) (object_members self.old)) }
        ensures err { OnErr result (object_entries self.new ≡ object_entries self.old) }
    {
        self.members.insert(name, value)?;
        Ok(())
    }

    // Takes the object apart, and returns the map of its members.
    pub(crate) fn into_inner(self) -> BTreeMap<String, Value>
        ensures { result ≡ self.members }
    {
        let Object { members } = self;
        members
    }

    /// Replaces the value of the first member of an object that is not empty, and returns the old value. The names stay
    /// as they are.
    pub(crate) fn replace_first(&mut self, value: Value) -> Value
        requires { object_values self.old ≡ [] → ⊥ }
        ensures replaced { ReplacesFirst value result (object_values self.old) (object_values self.new) }
        ensures names { keys self.new.members ≡ keys self.old.members }
    {
        match self.members.first_entry() {
            Some(mut entry) => mem::replace(entry.get_mut(), value),
            None => unreachable!(),
        }
    }

    // Removes the last member and returns its value, or returns `None` if there is none.
    pub(crate) fn take_last(&mut self) -> Option<Value>
        ensures { MatchOption result ((object_values self.old ≡ []) × (object_values self.new ≡ []))
            (λ last. object_values self.old ≡ object_values self.new ++ last ∷ []) }
    {
        match self.members.pop_last() {
            Some((_, value)) => Some(value),
            None => None,
        }
    }
}

/// Drops the object and all that it contains, without recursion. Allocates nothing.
impl Drop for Object {
    fn drop(self) {
        safely(Value::Object(self));
    }
}

impl IntoIterator for Object {
    type Item = (String, Value);

    type IntoIter = btree_map::IntoIter<String, Value>;

    // The iterator returns each member once, in byte order of the names.
    ghost into_iter_gives = { λ o r. (r ≡ object_entries o)
        × GivesInOrder (String Global × V) × IsOrdered string_cmp o.members };

    fn into_iter(self) -> btree_map::IntoIter<String, Value> {
        self.into_inner().into_iter()
    }
}

impl<'a> IntoIterator for &'a Object {
    type Item = (&'a String, &'a Value);

    type IntoIter = btree_map::Iter<'a, String, Value>;

    // The iterator returns references to each member once, in byte order of the names.
    ghost into_iter_gives = { λ o r. (r ≡ object_entries o.now)
        × ShowsInOrder (deref_pair {K = String Global} {X = V}) × IsOrdered string_cmp o.now.members };

    fn into_iter(self) -> btree_map::Iter<'a, String, Value> {
        self.inner().iter()
    }
}

impl<'a> IntoIterator for &'a mut Object {
    type Item = (&'a String, &'a mut Value);

    type IntoIter = btree_map::IterMut<'a, String, Value>;

    // The iterator returns a mutable reference to each value once, in byte order of the names.
    ghost into_iter_gives = { λ o r. (iter_mut_rest r ≡ object_entries o.now)
        × IterMutCanStep r × LendsValuesInOrder (iter_mut_rest {K = String Global} {X = V})
        × IsOrdered string_cmp o.now.members };

    fn into_iter(self) -> btree_map::IterMut<'a, String, Value> {
        self.inner_mut().iter_mut()
    }
}
