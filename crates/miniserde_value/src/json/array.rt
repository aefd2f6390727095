//! The type `Array`, a list of JSON values.
ghost use Rattle.std.specs.Prelude.{◌≡◌, ◌++◌, ◌∷◌, [], List, MatchOption, IfOk, OnOk, OnErr, IsErrOf, vec_capacity};
ghost use Rattle.std.specs.Iterator.{IsFinite, Drains};
ghost use Rattle.miniserde_model.specs.declared.error.Error.TheVariants.{Memory};
ghost use Rattle.std.specs.Borrow.{Lends, sem};
ghost use Rattle.std.specs.Global.{Global};
ghost use Rattle.std.specs.Iterator.Runs.{EveryRun, ItemsAre, ItemsMapTo};
ghost use Rattle.std.specs.Slice.Iter.{iter_rest, iter_steps, iter_mut_rest, iter_mut_steps};
ghost use Rattle.std.specs.Vec.Iter.{into_iter_items, into_iter_steps};
ghost use Rattle.miniserde_value.specs.declared.json.value.Value.{Value as V};
ghost use Rattle.miniserde_value.specs.Values.{array_items, with_items};
ghost use Rattle.miniserde_value.specs.Looks.{ReplacesFirst};

use super::drop::safely;
use super::value::Value;
use miniserde_model::error::Result;
use std::alloc::Global;
use std::{mem, slice, vec};

/// A list of JSON values. It is dropped without recursion.
#[cycle(value)]
pub struct Array {
    items: Vec<Value>,
}

impl Array {
    ghost use Rattle.miniserde_value.specs.Rows.{vec_type};
    ghost use Rattle.miniserde_value.specs.contracts.json.array.Array.{the_row};

    /// Returns an array without items. Allocates nothing.
    pub fn new(alloc: Global) -> Array
        ensures items { array_items result ≡ [] }
        ensures capacity { vec_capacity result.items ≡ 0 }
    {
        Array {
            items: Vec::new(alloc),
        }
    }

    /// Returns an array of the items of a finite iterator, in order. Returns `Memory` if an allocation fails.
    pub fn from_iter<I: IntoIterator<Item = Value>>(alloc: Global, iter: I) -> Result<Array>
        requires { (it : I.IntoIter) → I.into_iter_gives iter it → I.IntoIter.can_next it
            × IsFinite (I.IntoIter.remaining it) }
        ensures items { IfOk result (λ a. (it : I.IntoIter) × (xs : List V)
            × I.into_iter_gives iter it × Drains I.IntoIter.next_gives it xs × (array_items a ≡ xs)) }
        ensures memory { OnErr result (IsErrOf result Memory) }
    {
        Ok(Array::from_inner(Vec::from_iter(alloc, iter)?))
    }

    // Returns the items as an array.
    pub(crate) fn from_inner(items: Vec<Value>) -> Array
        ensures { result.items ≡ items }
    {
        Array { items }
    }

    /// Returns the items.
    pub fn inner(&self) -> &Vec<Value>
        ensures { result.now ≡ self.now.items }
    {
        &self.items
    }

    /// Returns a mutable reference to the items.
    pub fn inner_mut(&mut self) -> &mut Vec<Value>
        // When the borrow ends, the array has the items that the reference then has.
        ensures* writes_back { sem 𝓛 (Lends the_row vec_type self.entry result with_items) }
        ensures value { result.now ≡ self.old.items }
    {
        &mut self.items
    }

    /// Appends an item. If the array cannot grow, drops the item, returns `Memory` and leaves the items unchanged.
    pub fn push(&mut self, item: Value) -> Result<()>
        ensures ok { OnOk result (array_items self.new ≡ array_items self.old ++ item ∷ []) }
        ensures memory { OnErr result (IsErrOf result Memory) }
        ensures err { OnErr result (array_items self.new ≡ array_items self.old) }
    {
        Ok(self.items.push(item)?)
    }

    // Takes the array apart, and returns its items.
    pub(crate) fn into_inner(self) -> Vec<Value>
        ensures { result ≡ self.items }
    {
        let Array { items } = self;
        items
    }

    /// Replaces the first item of an array that is not empty, and returns the old one.
    pub(crate) fn replace_first(&mut self, value: Value) -> Value
        requires { array_items self.old ≡ [] → ⊥ }
        ensures { ReplacesFirst value result (array_items self.old) (array_items self.new) }
    {
        mem::replace(&mut self.items[0], value)
    }

    // Removes the last item and returns it, or returns `None` if there is none.
    #[inline(always)]
    pub(crate) fn take_last(&mut self) -> Option<Value>
        ensures { MatchOption result ((array_items self.old ≡ []) × (array_items self.new ≡ []))
            (λ last. array_items self.old ≡ array_items self.new ++ last ∷ []) }
    {
        self.items.pop()
    }
}

/// Drops the array and all that it contains, without recursion. Allocates nothing.
impl Drop for Array {
    fn drop(self) {
        safely(Value::Array(self));
    }
}

impl IntoIterator for Array {
    type Item = Value;

    type IntoIter = vec::IntoIter<Value>;

    // The iterator returns each item once, in order.
    ghost into_iter_gives = { λ a r. (into_iter_items r ≡ array_items a)
        × EveryRun (into_iter_steps {X = V} {Z = Global}) (λ p. ItemsAre p (into_iter_items p.from)) };

    fn into_iter(self) -> vec::IntoIter<Value> {
        self.into_inner().into_iter()
    }
}

impl<'a> IntoIterator for &'a Array {
    type Item = &'a Value;

    type IntoIter = slice::Iter<'a, Value>;

    // The iterator returns a reference to each item once, in order.
    ghost into_iter_gives = { λ a r. (iter_rest r ≡ array_items a.now)
        × EveryRun (iter_steps {A = V}) (λ p. ItemsMapTo p (λ y. y.now) (iter_rest p.from)) };

    fn into_iter(self) -> slice::Iter<'a, Value> {
        self.inner().iter()
    }
}

impl<'a> IntoIterator for &'a mut Array {
    type Item = &'a mut Value;

    type IntoIter = slice::IterMut<'a, Value>;

    // The iterator returns a mutable reference to each item once, in order.
    ghost into_iter_gives = { λ a r. (iter_mut_rest r ≡ array_items a.now)
        × EveryRun (iter_mut_steps {A = V}) (λ p. ItemsMapTo p (λ y. y.now) (iter_mut_rest p.from)) };

    fn into_iter(self) -> slice::IterMut<'a, Value> {
        self.inner_mut().iter_mut()
    }
}
