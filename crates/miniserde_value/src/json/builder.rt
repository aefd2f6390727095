//! The builder of documents. It takes the events of a value, without recursion.
ghost use Rattle.std.specs.Prelude.{◌≡◌, ◌≤◌, [], None, Some, Option, Err, IfOk, OnOk, OnErr, IsErrOf, option_map};
ghost use Rattle.std.specs.Prelude.{drop, take, length, string_bytes, is_some};
ghost use Rattle.miniserde_model.specs.declared.error.Error.{Error};
ghost use Rattle.miniserde_model.specs.Tree.{no_members};
ghost use Rattle.miniserde_model.specs.Normal.{last_of};
ghost use Rattle.miniserde_text.specs.private.Moments.{opened_kind};
ghost use Rattle.miniserde_read.specs.Events.{event_of, EventInRange, leaf_of};
ghost use Rattle.miniserde_value.specs.Hole.{Hole, outside, in_list, in_members, with_tree, with_name, after_close, complete_tree, has_member, after_begin};
ghost use Rattle.miniserde_value.specs.Values.{content_of};
ghost use Rattle.miniserde_value.specs.Containers.{ContainersFit, innermost_kind, made_members, next_name, with_open_object};
ghost use Rattle.miniserde_value.specs.Containers.{kind_around, pending, with_next_name};
ghost use Rattle.miniserde_value.specs.laws.Containers.{containers-fit-once};

use super::array::Array;
use super::number::Number;
use super::object::Object;
use super::value::Value;
use miniserde_model::error::{Error, Result};
use miniserde_read::Step;
use miniserde_text::json::lex::Kind;
use miniserde_text::json::number::NumberText;
use std::alloc::{AllocError, Global};
use std::{mem, result};

/// An open container: an array, with the index of its first item in the builder's values, or an
/// object, whose members stand in the builder's list of open objects.
#[derive(Clone, Copy, Drop)]
pub(crate) enum OpenContainer {
    Array(usize),
    Object,
}

/// An open object: its members so far, and the name of its next value if that name came already.
#[derive(Drop)]
pub(crate) struct OpenObject {
    members: Object,
    name: Option<String>,
}

impl OpenObject {
    /// Returns an open object without members. Allocates nothing.
    pub(crate) fn new(alloc: Global) -> OpenObject
        ensures members { made_members result ≡ no_members }
        ensures name { next_name result ≡ None }
    {
        OpenObject {
            members: Object::new(alloc),
            name: None,
        }
    }

    /// Sets the name of the next value.
    pub(crate) fn name(&mut self, name: String)
        ensures members { made_members self.new ≡ made_members self.old }
        ensures name { next_name self.new ≡ Some (string_bytes name) }
    {
        self.name = Some(name);
    }

    /// Adds a value under the name that was set for it, and replaces an earlier value of that name. If no
    /// name was set, drops the value and returns `Ok`. Fails if the map cannot grow.
    pub(crate) fn put(&mut self, value: Value) -> result::Result<(), AllocError>
        ensures { OnOk result ((h : Hole) → with_open_object self.new h ≡ with_tree (content_of value) (with_open_object self.old h)) }
    {
        match self.name.take() {
            Some(name) => self.members.insert(name, value),
            None => Ok(()),
        }
    }

    /// Returns whether there is a member of the name.
    pub(crate) fn has_name(&self, name: &str) -> bool
        ensures { result ≡ is_some (last_of name.now (made_members self.now)) }
    {
        self.members.inner().contains_key(name)
    }
}

/// A document that is being built. A contract sees it as its hole: the open containers, with what each has so far.
/// After a call that fails, nothing is promised of the hole.
#[derive(Drop)]
pub struct Builder {
    alloc: Global,
    // The finished values outside of all containers and the items of all open arrays, the outermost first.
    values: Vec<Value>,
    // The open objects, the outermost first.
    objects: Vec<OpenObject>,
    // The open containers, the outermost first.
    containers: Vec<OpenContainer>,
    // The three lists fit each other.
    ghost fits: { ContainersFit values.items objects.items containers.items } by { containers-fit-once values.items objects.items containers.items },
}

// Removes the values from index `from` on, and returns them as a list. If `may_move_all` is `true`
// and `from` is 0, it moves the whole list with its capacity, and allocates nothing. Else, if the
// new list cannot be allocated, it fails and leaves `values` unchanged.
#[inline(always)]
fn take_from(
    alloc: Global,
    values: &mut Vec<Value>,
    from: usize,
    may_move_all: bool,
) -> result::Result<Vec<Value>, AllocError>
    requires { from ≤ length values.old.items }
    ensures items { OnOk result (values.new.items ≡ take from values.old.items) }
    ensures tail { IfOk result (λ taken. taken.items ≡ drop from values.old.items) }
    ensures err { OnErr result (values.new ≡ values.old) }
{
    if may_move_all && from == 0 {
        return Ok(mem::replace(values, Vec::new(alloc)));
    }
    Ok(values.split_off(from)?)
}

// Returns the value of a leaf's event, with a copy of its text. Returns `Invalid` for an event of no leaf, and `Memory`
// if an allocation fails.
#[inline(always)]
fn leaf(alloc: Global, event: Step<'_>) -> Result<Value>
    requires { EventInRange (event_of event) }
    ensures ok { IfOk result (λ v. leaf_of (event_of event.entry) ≡ Some (content_of v)) }
    ensures invalid { result ≡ Err Error.Invalid → leaf_of (event_of event.entry) ≡ None }
    ensures refuses { leaf_of (event_of event.entry) ≡ None → result ≡ Err Error.Invalid }
{
    match event {
        Step::Null => Ok(Value::Null),
        Step::Bool(b) => Ok(Value::Bool(b)),
        Step::Str(s) => Ok(Value::String(String::from_str(alloc, s)?)),
        Step::Negative(n) => Ok(Value::Number(Number::I64(n))),
        Step::Nonnegative(n) => Ok(Value::Number(Number::U64(n))),
        Step::Float(t) => Ok(Value::Number(Number::Text(NumberText::new_unchecked(alloc, t)?))),
        Step::Seq | Step::Element | Step::Map | Step::Key(_) | Step::Finish => Err(Error::Invalid),
    }
}

impl Builder {
    ghost use Rattle.miniserde_value.specs.Builders.{hole_in};

    /// Returns a builder to which no event came. Allocates nothing.
    pub fn new(alloc: Global) -> Builder
        ensures { hole_in result ≡ outside [] }
    {
        Builder {
            alloc,
            values: Vec::new(alloc),
            objects: Vec::new(alloc),
            containers: Vec::new(alloc),
        }
    }

    /// Returns the kind of the innermost open container, or `None` if none is open.
    #[inline(always)]
    pub fn innermost(&self) -> Option<Kind>
        ensures { result ≡ innermost_kind (hole_in self.now) }
    {
        match self.containers.last() {
            None => None,
            Some(OpenContainer::Array(_)) => Some(Kind::Seq),
            Some(OpenContainer::Object) => Some(Kind::Map),
        }
    }

    /// Returns whether the innermost open container is an object with a member of the name.
    pub fn has_name(&self, name: &str) -> bool
        ensures { result ≡ has_member name.now (hole_in self.now) }
    {
        if let Some(OpenContainer::Object) = self.containers.last() {
            if let Some(object) = self.objects.last() {
                return object.has_name(name);
            }
        }
        false
    }

    /// Adds a complete value to the innermost open container, or to the finished values if none is open. In an object
    /// without a name for it, the value is dropped, and the call returns `Ok`. Fails if an allocation fails.
    #[inline(always)]
    pub(crate) fn put(&mut self, value: Value) -> result::Result<(), AllocError>
        ensures { OnOk result (hole_in self.new ≡ with_tree (content_of value) (hole_in self.old)) }
    {
        if let Some(OpenContainer::Object) = self.containers.last() {
            return match self.objects.last_mut() {
                Some(object) => object.put(value),
                None => unreachable!(),
            };
        }
        self.values.push(value)?;
        Ok(())
    }

    /// Adds a complete value to the innermost open container, as `put` does: under the name if it is an object, or
    /// without one if it is an array. Fails if an allocation fails.
    #[inline(always)]
    fn put_child(&mut self, name: Option<String>, value: Value) -> result::Result<(), AllocError>
        requires inside { innermost_kind (hole_in self.old) ≡ Some (kind_around (option_map string_bytes name)) }
        requires unnamed { pending (hole_in self.old) ≡ None }
        ensures { OnOk result (hole_in self.new
            ≡ with_tree (content_of value) (with_next_name (option_map string_bytes name) (hole_in self.old))) }
    {
        match name {
            Some(name) => match self.objects.last_mut() {
                Some(object) => object.members.insert(name, value),
                None => unreachable!(),
            },
            None => Ok(self.values.push(value)?),
        }
    }

    /// Sets the name of the next value, if there is one: then the innermost open container is an object.
    #[inline(always)]
    fn set_name(&mut self, name: Option<String>)
        requires { innermost_kind (hole_in self.old) ≡ Some (kind_around (option_map string_bytes name)) }
        ensures { hole_in self.new ≡ with_next_name (option_map string_bytes name) (hole_in self.old) }
    {
        if let Some(name) = name {
            match self.objects.last_mut() {
                Some(object) => object.name(name),
                None => unreachable!(),
            }
        }
    }

    /// Opens an array: inside the innermost open container, or outside of all if none is open.
    /// Fails if an allocation fails.
    #[inline(always)]
    pub(crate) fn open_array(&mut self) -> result::Result<(), AllocError>
        ensures { OnOk result (hole_in self.new ≡ in_list [] (hole_in self.old)) }
    {
        self.containers
            .push(OpenContainer::Array(self.values.len()))?;
        Ok(())
    }

    /// Opens an object: inside the innermost open container, or outside of all if none is open.
    /// Fails if an allocation fails.
    #[inline(always)]
    pub(crate) fn open_object(&mut self) -> result::Result<(), AllocError>
        ensures { OnOk result (hole_in self.new ≡ in_members no_members None (hole_in self.old)) }
    {
        self.objects.push(OpenObject::new(self.alloc))?;
        self.containers.push(OpenContainer::Object)?;
        Ok(())
    }

    /// Takes the first event of a value, which goes to the innermost open container, or to the finished values if none
    /// is open. If the container is an object, call `name` before it: a value without a name is dropped. Returns
    /// whether the event opens a container. Returns `Invalid` for an event that begins no value, and `Memory` if an
    /// allocation fails.
    #[inline(always)]
    pub fn begin(&mut self, event: Step<'_>) -> Result<bool>
        requires { EventInRange (event_of event) }
        ensures opens { IfOk result (λ opens. opens ≡ is_some (opened_kind (event_of event.entry))) }
        ensures ok { OnOk result (after_begin (event_of event.entry) (hole_in self.old) ≡ Some (hole_in self.new)) }
        ensures invalid { result ≡ Err Error.Invalid → after_begin (event_of event.entry) (hole_in self.old) ≡ None }
        ensures refuses { after_begin (event_of event.entry) (hole_in self.old) ≡ None → result ≡ Err Error.Invalid }
    {
        match event {
            Step::Seq => {
                self.open_array()?;
                Ok(true)
            }
            Step::Map => {
                self.open_object()?;
                Ok(true)
            }
            _ => {
                self.put(leaf(self.alloc, event)?)?;
                Ok(false)
            }
        }
    }

    /// Takes the first event of the next child of the innermost open container, as `begin` does: with its name if the
    /// container is an object, or without one if it is an array.
    #[inline(always)]
    pub(crate) fn begin_child(&mut self, name: Option<String>, event: Step<'_>) -> Result<bool>
        requires inside { innermost_kind (hole_in self.old) ≡ Some (kind_around (option_map string_bytes name)) }
        requires unnamed { pending (hole_in self.old) ≡ None }
        requires event { EventInRange (event_of event) }
        ensures opens { IfOk result (λ opens. opens ≡ is_some (opened_kind (event_of event.entry))) }
        ensures ok { OnOk result (after_begin (event_of event.entry)
            (with_next_name (option_map string_bytes name) (hole_in self.old)) ≡ Some (hole_in self.new)) }
        ensures invalid { result ≡ Err Error.Invalid → (h : Hole) → after_begin (event_of event.entry) h ≡ None }
    {
        match event {
            Step::Seq => {
                self.set_name(name);
                self.open_array()?;
                Ok(true)
            }
            Step::Map => {
                self.set_name(name);
                self.open_object()?;
                Ok(true)
            }
            _ => {
                self.put_child(name, leaf(self.alloc, event)?)?;
                Ok(false)
            }
        }
    }

    /// Sets the name of the next value, if the innermost open container is an object; else does nothing. Returns
    /// `Memory` if an allocation fails.
    #[inline(always)]
    pub fn name(&mut self, name: &str) -> Result<()>
        ensures ok { OnOk result (hole_in self.new ≡ with_name name.now (hole_in self.old)) }
        ensures memory { OnErr result (IsErrOf result Error.Memory) }
    {
        if let Some(OpenContainer::Object) = self.containers.last() {
            let name = String::from_str(self.alloc, name)?;
            match self.objects.last_mut() {
                Some(object) => object.name(name),
                None => unreachable!(),
            }
        }
        Ok(())
    }

    /// Closes the innermost open container, if one is open, and adds it to the container around it,
    /// or to the finished values if there is none, as `put` does. Returns `Memory` if an allocation
    /// fails.
    #[inline(always)]
    pub fn close(&mut self) -> Result<()>
        ensures ok { OnOk result (hole_in self.new ≡ after_close (hole_in self.old)) }
        ensures memory { OnErr result (IsErrOf result Error.Memory) }
    {
        match self.containers.pop() {
            None => (),
            Some(OpenContainer::Array(from)) => {
                // After an inner array more values may come, so the list of values keeps its capacity.
                let is_outermost = self.containers.is_empty();
                let items = take_from(self.alloc, &mut self.values, from, is_outermost)?;
                self.put(Value::Array(Array::from_inner(items)))?;
            }
            Some(OpenContainer::Object) => match self.objects.pop() {
                Some(OpenObject { members, name: _ }) => {
                    self.put(Value::Object(members))?;
                }
                None => unreachable!(),
            },
        }
        Ok(())
    }

    /// Returns the one finished value, or `None` if a container is open or there is not exactly one
    /// such value.
    pub fn into_value(self) -> Option<Value>
        ensures { option_map content_of result ≡ complete_tree (hole_in self) }
    {
        let Builder {
            alloc: _,
            mut values,
            objects: _,
            containers,
        } = self;
        if !containers.is_empty() {
            return None;
        }
        if values.len() > 1 {
            return None;
        }
        values.pop()
    }
}
