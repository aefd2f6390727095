//! Writes documents, without recursion.
ghost use Rattle.std.specs.Prelude.{◌≡◌, ◌++◌, [], true, false, OnOk, OnErr, IsErrOf};
ghost use Rattle.miniserde_model.specs.InRange.{InRange};
ghost use Rattle.miniserde_model.specs.Normal.{norm};
ghost use Rattle.miniserde_model.specs.declared.error.Error.TheVariants.{Memory};
ghost use Rattle.miniserde_model.specs.Tokens.{tokens};
ghost use Rattle.miniserde_ser.specs.Fragment.{fragment_tree};
ghost use Rattle.miniserde_value.specs.Numbers.{number_leaf};
ghost use Rattle.miniserde_value.specs.Values.{content_of, array_content, object_content};
ghost use Rattle.miniserde_value.specs.Tokens.{IsOrdered};
ghost use Rattle.miniserde_value.specs.Walks.{frames_left, NestedNamesRise};
ghost use Rattle.miniserde_value.specs.Writes.{Writes};

use super::array::Array;
use super::number::Number;
use super::object::Object;
use super::value::Value;
use super::walk::{Frames, Part};
use miniserde_model::error::Result;
use miniserde_ser::ser::{Fragment, Serialize, Writer};

impl Number {
    // Returns the leaf that is written for the number.
    fn fragment(&self) -> Fragment<'_>
        ensures leaf { fragment_tree result ≡ norm (number_leaf self.now) }
        ensures in_range { InRange (norm (number_leaf self.now)) }
    {
        match self {
            Number::U64(n) => Fragment::U64(*n),
            Number::I64(n) => Fragment::I64(*n),
            Number::Text(text) => {
                // The contract of `as_str` tells that this is the text of a number.
                let _text = text.as_str();
                Fragment::Text(text)
            }
        }
    }
}

// Writes the opening bracket of an array, and opens the array in the frames. Returns `Memory` if an allocation fails
// or an earlier call of the writer failed.
#[inline(always)]
fn begin_array<'a>(array: &'a Array, frames: &mut Frames<'a>, w: &mut Writer) -> Result<()>
    ensures ok { OnOk result (Writes w.old (tokens (array_content array.entry.now) (frames_left frames.old))
        w.new (frames_left frames.new)) }
    ensures ordered { OnOk result (NestedNamesRise frames.new
        → IsOrdered (array_content array.entry.now) × NestedNamesRise frames.old) }
    ensures memory { OnErr result (IsErrOf result Memory) }
    ensures err { OnErr result (w.new.refused ≡ true) }
{
    match frames.push_array(array.inner().iter()) {
        Ok(()) => w.seq(),
        Err(_) => Err(w.refuse()),
    }
}

// Writes the opening bracket of an object, and opens the object in the frames. Returns `Memory` if an allocation
// fails or an earlier call of the writer failed.
#[inline(always)]
fn begin_object<'a>(object: &'a Object, frames: &mut Frames<'a>, w: &mut Writer) -> Result<()>
    ensures ok { OnOk result (Writes w.old (tokens (object_content object.entry.now) (frames_left frames.old))
        w.new (frames_left frames.new)) }
    ensures ordered { OnOk result (NestedNamesRise frames.new
        → IsOrdered (object_content object.entry.now) × NestedNamesRise frames.old) }
    ensures memory { OnErr result (IsErrOf result Memory) }
    ensures err { OnErr result (w.new.refused ≡ true) }
{
    match frames.push_object(object.inner().iter()) {
        Ok(()) => w.map_in_order(),
        Err(_) => Err(w.refuse()),
    }
}

// Writes the value if it is a leaf. Of a container writes the opening bracket alone, and opens it in the frames, from
// which `put_all` writes the children. Returns `Memory` if an allocation fails or an earlier call of the writer failed.
#[inline(always)]
fn begin_value<'a>(value: &'a Value, frames: &mut Frames<'a>, w: &mut Writer) -> Result<()>
    ensures ok { OnOk result (Writes w.old (tokens (content_of value.entry.now) (frames_left frames.old))
        w.new (frames_left frames.new)) }
    ensures ordered { OnOk result (NestedNamesRise frames.new
        → IsOrdered (content_of value.entry.now) × NestedNamesRise frames.old) }
    ensures memory { OnErr result (IsErrOf result Memory) }
    ensures err { OnErr result (w.new.refused ≡ true) }
{
    match value {
        Value::Null => w.fragment(Fragment::Null),
        Value::Bool(b) => w.fragment(Fragment::Bool(*b)),
        Value::Number(number) => w.fragment(number.fragment()),
        Value::String(text) => w.fragment(Fragment::Str(text.as_str())),
        Value::Array(array) => begin_array(array, frames, w),
        Value::Object(object) => begin_object(object, frames, w),
    }
}

// Writes the children that are left of the open containers, and the closing brackets. Returns `Memory` if an
// allocation fails.
fn put_all(mut frames: Frames<'_>, w: &mut Writer) -> Result<()>
    requires { w.old.refused ≡ false }
    ensures ok { OnOk result (Writes w.old (frames_left frames.entry) w.new []) }
    ensures ordered { OnOk result (NestedNamesRise frames.entry) }
    ensures memory { OnErr result (IsErrOf result Memory) }
    ensures err { OnErr result (w.new.refused ≡ true) }
{
    while let Some(part) = frames.next() {
        match part {
            Part::Element(item) => {
                w.element()?;
                begin_value(item, &mut frames, w)?;
            }
            Part::ArrayEnd => w.seq_finish()?,
            Part::Member(name, value) => {
                w.key_inline(name)?;
                begin_value(value, &mut frames, w)?;
            }
            Part::ObjectEnd => w.map_finish()?,
        }
    }
    Ok(())
}

impl Serialize for Number {
    ghost tree = { λ n. norm (number_leaf n) };

    fn begin(&self, w: &mut Writer) -> Result<()> {
        w.fragment(self.fragment())
    }
}

impl Serialize for Array {
    ghost tree = { λ a. norm (array_content a) };

    fn begin(&self, w: &mut Writer) -> Result<()> {
        let mut frames = Frames::new(w.alloc());
        begin_array(self, &mut frames, w)?;
        put_all(frames, w)
    }
}

impl Serialize for Object {
    ghost tree = { λ o. norm (object_content o) };

    fn begin(&self, w: &mut Writer) -> Result<()> {
        let mut frames = Frames::new(w.alloc());
        begin_object(self, &mut frames, w)?;
        put_all(frames, w)
    }
}

impl Serialize for Value {
    ghost use Rattle.miniserde_value.specs.Values.{tree_of};

    ghost tree = { tree_of };

    fn begin(&self, w: &mut Writer) -> Result<()> {
        let mut frames = Frames::new(w.alloc());
        begin_value(self, &mut frames, w)?;
        put_all(frames, w)
    }
}
