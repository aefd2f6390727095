//! The type `Value`, which is any JSON value.
ghost use Rattle.std.specs.Prelude.{◌≡◌, true, Err, IfOk, string_bytes};
ghost use Rattle.miniserde_model.specs.Tree.{Tree};
ghost use Rattle.miniserde_model.specs.Compact.{compact};
ghost use Rattle.miniserde_model.specs.Distinct.{names_distinct};
ghost use Rattle.miniserde_model.specs.Normal.{norm};
ghost use Rattle.miniserde_model.specs.Size.{size};
ghost use Rattle.miniserde_model.specs.Value.{IsJson};
ghost use Rattle.miniserde_model.specs.declared.error.Error.{Error};
ghost use Rattle.miniserde_value.specs.declared.json.value.Value.{Value as V};
ghost use Rattle.miniserde_value.specs.Looks.{value_size};
ghost use Rattle.miniserde_value.specs.Values.{ReadsValue, content_of, tree_of};

use super::array::Array;
use super::number::Number;
use super::object::Object;
use miniserde_model::error::Result;
use miniserde_read::from_str;
use miniserde_ser::ser::to_string;
use std::alloc::Global;

/// Any JSON value. It is dropped without recursion, at any depth.
#[cycle(value)]
#[derive(Drop)]
pub enum Value {
    Null,
    Bool(bool),
    Number(Number),
    String(String),
    Array(Array),
    Object(Object),
}

impl Value {
    ghost use Rattle.std.specs.Prelude.{Some, option_map};
    ghost use Rattle.miniserde_value.specs.Values.{content_of, array_content, object_content};
    ghost use Rattle.miniserde_value.specs.OnlyContainers.{only_list, only_members};

    /// Returns the array, or drops the value and returns `None` if it is no array. Allocates nothing.
    pub fn into_array(self) -> Option<Array>
        ensures { option_map array_content result ≡ only_list (Some (content_of self)) }
    {
        match self {
            Value::Array(array) => Some(array),
            _ => None,
        }
    }

    /// Returns the object, or drops the value and returns `None` if it is no object. Allocates nothing.
    pub fn into_object(self) -> Option<Object>
        ensures { option_map object_content result ≡ only_members (Some (content_of self)) }
    {
        match self {
            Value::Object(object) => Some(object),
            _ => None,
        }
    }
}

impl Default for Value {
    ghost use Rattle.miniserde_value.specs.declared.json.value.Value.{Null};

    fn default() -> Value
        ensures { result ≡ Null }
    {
        Value::Null
    }
}

/// Does nothing. It promises that each `Value` that a tree means is written as the normal form of that tree, and
/// contains as many values as that form.
pub fn read_is_normal()
    ensures tree { (t : Tree) (v : V) → ReadsValue t v → tree_of v ≡ norm t }
    ensures size { (t : Tree) (v : V) → ReadsValue t v → value_size v ≡ size (norm t) }
{}

/// Does nothing. It promises that a `Value` in which no object has a duplicate name contains as many values as the tree
/// that it is written as. (The clauses of its iterators say that the names of an `Object` are distinct; no clause says
/// it of all objects in a `Value`.)
pub fn size_is_tree_size()
    ensures { (v : V) → names_distinct (content_of v) ≡ true → size (tree_of v) ≡ value_size v }
{}

/// Reads a JSON text as a `Value` and writes that, which gives the canonical text. Returns `Invalid` if the text is
/// not JSON (RFC 8259), and `Memory` if an allocation fails.
pub fn canonical_by_value(alloc: Global, j: &str) -> Result<String>
    // It is the compact text of the normal form of the text's tree.
    ensures ok { IfOk result (λ c. (t : Tree) × IsJson j.now t × (string_bytes c ≡ compact (norm t))) }
    ensures text { IfOk result (λ c. (t : Tree) → IsJson j.now t → string_bytes c ≡ compact (norm t)) }

    // If the result is `Invalid`, the text has no tree. No text has two trees.
    ensures invalid { result ≡ Err Error.Invalid → (t : Tree) → IsJson j.now t → ⊥ }
    ensures one { (t u : Tree) → IsJson j.now t → IsJson j.now u → t ≡ u }
{
    let document: Value = from_str(alloc, j)?;
    read_is_normal();
    to_string(alloc, &document)
}
