//! Conversions of Rust's values to `Value`, for the macro `value!`.
#![tactic(auto, using(crate::proofs::ContentTrees::content_of_null, crate::proofs::ContentTrees::content_of_bool, crate::proofs::ContentTrees::content_of_number, crate::proofs::ContentTrees::content_of_string, crate::proofs::ContentTrees::content_of_array, crate::proofs::ContentTrees::content_of_object))]

ghost use Rattle.std.specs.Prelude.{◌≡◌, IfOk, OnErr, IsErrOf, string_bytes};
ghost use Rattle.miniserde_model.specs.Tree.{Tree, null, truth, nonneg, str};
ghost use Rattle.miniserde_model.specs.declared.error.Error.TheVariants.{Memory};
ghost use Rattle.miniserde_keys.specs.Integers.{integer};
ghost use Rattle.miniserde_ser.specs.Trees.{option_tree};
ghost use Rattle.miniserde_value.specs.Numbers.{number_leaf};
ghost use Rattle.miniserde_value.specs.Values.{content_of, array_content, object_content};

use super::array::Array;
use super::number::Number;
use super::object::Object;
use super::value::Value;
use miniserde_keys::{StdInteger, WideInteger};
use miniserde_model::error::Result;
use std::alloc::Global;

/// A type of values that `value!` converts to a `Value`.
pub trait IntoValue {
    // The content, as a tree, of the `Value` that `into_value` returns.
    ghost value_tree: { Self → Tree };

    /// Returns the value as a `Value`. It copies a borrowed text, and moves an owned value. Its only error is
    /// `Memory`.
    fn into_value(self, alloc: Global) -> Result<Value>
        ensures ok { IfOk result (λ v. content_of v ≡ value_tree self) }
        ensures memory { OnErr result (IsErrOf result Memory) };
}

/// Returns `null`. Allocates nothing.
pub fn null_value() -> Value
    ensures { content_of result ≡ null }
{
    Value::Null
}

/// Returns an array as a `Value`. Allocates nothing.
pub fn array_value(array: Array) -> Value
    ensures { content_of result ≡ array_content array }
{
    Value::Array(array)
}

/// Returns an object as a `Value`. Allocates nothing.
pub fn object_value(object: Object) -> Value
    ensures { content_of result ≡ object_content object }
{
    Value::Object(object)
}

// Returns an integer of at least 0 as a `Value`: as a `U64`.
fn unsigned(n: u64) -> Value
    ensures { content_of result ≡ nonneg n }
{
    Value::Number(Number::U64(n))
}

// Returns an integer as a `Value`: as an `I64` if it is negative, and else as a `U64`. So the text that it is written
// as is read as the same `Value`.
fn signed(n: i64) -> Value
    ensures { content_of result ≡ integer n }
{
    if n < 0 {
        Value::Number(Number::I64(n))
    } else {
        Value::Number(Number::U64(n as u64))
    }
}

impl IntoValue for bool {
    ghost value_tree = { truth };

    fn into_value(self, _alloc: Global) -> Result<Value> {
        Ok(Value::Bool(self))
    }
}

/// An integer type of std, which is converted as its number.
pub trait IntegerValue: StdInteger {}

impl<T: IntegerValue> IntoValue for T {
    ghost value_tree = { λ v. integer (T.number v) };

    fn into_value(self, _alloc: Global) -> Result<Value> {
        match self.widen() {
            WideInteger::Unsigned(n) => Ok(unsigned(n)),
            WideInteger::Signed(n) => Ok(signed(n)),
        }
    }
}

impl IntegerValue for u8 {}

impl IntegerValue for u16 {}

impl IntegerValue for u32 {}

impl IntegerValue for u64 {}

impl IntegerValue for usize {}

impl IntegerValue for i8 {}

impl IntegerValue for i16 {}

impl IntegerValue for i32 {}

impl IntegerValue for i64 {}

impl IntegerValue for isize {}

impl IntoValue for &str {
    ghost value_tree = { λ s. str s.now };

    fn into_value(self, alloc: Global) -> Result<Value> {
        Ok(Value::String(String::from_str(alloc, self)?))
    }
}

impl IntoValue for &String {
    ghost value_tree = { λ s. str (string_bytes s.now) };

    fn into_value(self, alloc: Global) -> Result<Value> {
        Ok(Value::String(String::from_str(alloc, self.as_str())?))
    }
}

impl IntoValue for String {
    ghost value_tree = { λ s. str (string_bytes s) };

    fn into_value(self, _alloc: Global) -> Result<Value> {
        Ok(Value::String(self))
    }
}

impl IntoValue for Number {
    ghost value_tree = { number_leaf };

    fn into_value(self, _alloc: Global) -> Result<Value> {
        Ok(Value::Number(self))
    }
}

impl IntoValue for Array {
    ghost value_tree = { array_content };

    fn into_value(self, _alloc: Global) -> Result<Value> {
        Ok(array_value(self))
    }
}

impl IntoValue for Object {
    ghost value_tree = { object_content };

    fn into_value(self, _alloc: Global) -> Result<Value> {
        Ok(object_value(self))
    }
}

impl IntoValue for Value {
    ghost value_tree = { content_of };

    fn into_value(self, _alloc: Global) -> Result<Value> {
        Ok(self)
    }
}

/// Converts `None` to `null`, and `Some` as the value inside.
impl<T: IntoValue> IntoValue for Option<T> {
    ghost value_tree = { option_tree T.value_tree };

    fn into_value(self, alloc: Global) -> Result<Value> {
        match self {
            Some(value) => value.into_value(alloc),
            None => Ok(null_value()),
        }
    }
}
