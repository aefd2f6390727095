//! Copies documents, without recursion.
ghost use Rattle.std.specs.Prelude.{◌≡◌, ◌∷◌, [], IfOk, OnOk, OnErr, IsErrOf};
ghost use Rattle.miniserde_model.specs.declared.error.Error.TheVariants.{Memory};
ghost use Rattle.miniserde_value.specs.Values.{content_of, array_content, object_content};
ghost use Rattle.miniserde_value.specs.Builders.{hole_in};
ghost use Rattle.miniserde_value.specs.Tokens.{hole_after};
ghost use Rattle.miniserde_value.specs.Walks.{token_of, left, NamesToComeRise};

use super::array::Array;
use super::builder::Builder;
use super::number::Number;
use super::object::Object;
use super::value::Value;
use super::walk::{Visit, Walk};
use miniserde_model::error::Result;
use std::alloc::Global;

// Hands one visit of a walk to the builder, with a copy of its number or text. Returns `Memory` if
// an allocation fails.
fn add(alloc: Global, visit: Visit<'_>, builder: &mut Builder) -> Result<()>
    ensures built { OnOk result (hole_in builder.new ≡ hole_after (hole_in builder.old) (token_of visit.entry ∷ [])) }
    ensures memory { OnErr result (IsErrOf result Memory) }
{
    match visit {
        Visit::Null => builder.put(Value::Null)?,
        Visit::Bool(b) => builder.put(Value::Bool(b))?,
        Visit::Number(number) => builder.put(Value::Number(number.try_clone(alloc)?))?,
        Visit::String(text) => builder.put(Value::String(String::from_str(alloc, text)?))?,
        Visit::Array => builder.open_array()?,
        Visit::Object => builder.open_object()?,
        Visit::Element => (),
        Visit::Name(name) => builder.name(name)?,
        Visit::ArrayEnd | Visit::ObjectEnd => builder.close()?,
    }
    Ok(())
}

// Hands all visits that a walk has left to the builder, as `add` does. Promises too that in these visits the names of
// each object strictly rise, as they do in each `Object`. Returns `Memory` if an allocation fails.
fn add_all(alloc: Global, mut walk: Walk<'_>, builder: &mut Builder) -> Result<()>
    ensures built { OnOk result (hole_in builder.new ≡ hole_after (hole_in builder.old) (left walk.entry)) }
    ensures ordered { OnOk result (NamesToComeRise walk.entry) }
    ensures memory { OnErr result (IsErrOf result Memory) }
{
    while let Some(visit) = walk.next()? {
        add(alloc, visit, builder)?;
    }
    Ok(())
}

impl Array {
    /// Returns a copy of the array, or `Memory` if an allocation fails.
    pub fn try_clone(&self, alloc: Global) -> Result<Array>
        ensures ok { IfOk result (λ copy. array_content copy ≡ array_content self.now) }
        ensures memory { OnErr result (IsErrOf result Memory) }
    {
        let mut builder = Builder::new(alloc);
        // The walk begins after the opening bracket.
        builder.open_array()?;
        add_all(alloc, Walk::array(alloc, self)?, &mut builder)?;
        match builder.into_value() {
            Some(value) => match value.into_array() {
                Some(array) => Ok(array),
                None => unreachable!(),
            },
            None => unreachable!(),
        }
    }
}

impl Object {
    /// Returns a copy of the object, or `Memory` if an allocation fails.
    pub fn try_clone(&self, alloc: Global) -> Result<Object>
        ensures ok { IfOk result (λ copy. object_content copy ≡ object_content self.now) }
        ensures memory { OnErr result (IsErrOf result Memory) }
    {
        let mut builder = Builder::new(alloc);
        // The walk begins after the opening bracket.
        builder.open_object()?;
        add_all(alloc, Walk::object(alloc, self)?, &mut builder)?;
        match builder.into_value() {
            Some(value) => match value.into_object() {
                Some(object) => Ok(object),
                None => unreachable!(),
            },
            None => unreachable!(),
        }
    }
}

impl Value {
    /// Returns a copy of the value, or `Memory` if an allocation fails.
    pub fn try_clone(&self, alloc: Global) -> Result<Value>
        ensures ok { IfOk result (λ copy. content_of copy ≡ content_of self.now) }
        ensures memory { OnErr result (IsErrOf result Memory) }
    {
        match self {
            Value::Null => Ok(Value::Null),
            Value::Bool(b) => Ok(Value::Bool(*b)),
            Value::Number(number) => Ok(Value::Number(number.try_clone(alloc)?)),
            Value::String(text) => Ok(Value::String(String::from_str(alloc, text.as_str())?)),
            Value::Array(array) => Ok(Value::Array(array.try_clone(alloc)?)),
            Value::Object(object) => Ok(Value::Object(object.try_clone(alloc)?)),
        }
    }
}
