//! The walk over a borrowed document: it visits all parts in order, without recursion.
ghost use Rattle.std.specs.Prelude.{◌≡◌, ◌∷◌, [], None, IfOk, OnOk, MatchOption};
ghost use Rattle.miniserde_model.specs.Tokens.{tokens};
ghost use Rattle.miniserde_model.specs.Tokens as token;
ghost use Rattle.miniserde_value.specs.Values.{content_of, array_content, object_content};
ghost use Rattle.miniserde_value.specs.Tokens.{IsOrdered};
ghost use Rattle.miniserde_value.specs.Walks.{token_of, left, NamesToComeRise};

mod frames;

pub(crate) use self::frames::{Frames, Part};
use super::array::Array;
use super::number::Number;
use super::object::Object;
use super::value::Value;
use std::alloc::{AllocError, Global};
use std::result;

/// One visit of a walk: a leaf, the start or the end of a container, the start of an element, or a
/// member's name.
#[derive(Clone, Copy, Drop)]
pub(crate) enum Visit<'a> {
    Null,
    Bool(bool),
    Number(&'a Number),
    String(&'a str),
    Array,
    Element,
    ArrayEnd,
    Object,
    Name(&'a str),
    ObjectEnd,
}

/// A walk over an array or an object, from after its opening bracket to its end. It has a stack of its own. After an
/// error nothing is promised of the visits left.
#[derive(Drop)]
pub(crate) struct Walk<'a> {
    // The child to visit next, if its `Element` or `Name` was just returned.
    due: Option<&'a Value>,
    // The open containers.
    frames: Frames<'a>,
}

impl<'a> Walk<'a> {
    /// Returns a walk over the items of an array, with the array's end last. Fails if its stack
    /// fails to allocate.
    pub(crate) fn array(alloc: Global, array: &'a Array) -> result::Result<Walk<'a>, AllocError>
        ensures left { IfOk result (λ w. token.array ∷ left w ≡ tokens (array_content array.entry.now) []) }
        ensures ordered { IfOk result (λ w. NamesToComeRise w → IsOrdered (array_content array.entry.now)) }
    {
        let mut frames = Frames::new(alloc);
        frames.push_array(array.inner().iter())?;
        Ok(Walk { due: None, frames })
    }

    /// Returns a walk over the members of an object, with the object's end last. Fails if its stack
    /// fails to allocate.
    pub(crate) fn object(alloc: Global, object: &'a Object) -> result::Result<Walk<'a>, AllocError>
        ensures left { IfOk result (λ w. token.object ∷ left w ≡ tokens (object_content object.entry.now) []) }
        ensures ordered { IfOk result (λ w. NamesToComeRise w → IsOrdered (object_content object.entry.now)) }
    {
        let mut frames = Frames::new(alloc);
        frames.push_object(object.inner().iter())?;
        Ok(Walk { due: None, frames })
    }

    /// Returns the next visit, or `None` at the end of the walk. Fails if its stack fails to allocate.
    pub(crate) fn next(&mut self) -> result::Result<Option<Visit<'a>>, AllocError>
        ensures left { IfOk result (λ next. MatchOption next (left self.old ≡ [])
            (λ f. left self.old ≡ token_of f ∷ left self.new)) }
        ensures ordered { IfOk result (λ next. MatchOption next (NamesToComeRise self.old)
            (λ _. NamesToComeRise self.new → NamesToComeRise self.old)) }
    {
        match self.due {
            Some(value) => {
                self.due = None;
                Ok(Some(self.begin(value)?))
            }
            None => Ok(self.next_in_container()),
        }
    }

    // Returns the first visit of a value, and opens the value if it is a container. Fails if the stack fails to
    // allocate.
    fn begin(&mut self, value: &'a Value) -> result::Result<Visit<'a>, AllocError>
        requires { self.old.due ≡ None }
        ensures left { IfOk result (λ f. tokens (content_of value.entry.now) (left self.old) ≡ token_of f ∷ left self.new) }
        ensures ordered { OnOk result (NamesToComeRise self.new
            → IsOrdered (content_of value.entry.now) × NamesToComeRise self.old) }
    {
        match value {
            Value::Null => Ok(Visit::Null),
            Value::Bool(b) => Ok(Visit::Bool(*b)),
            Value::Number(number) => Ok(Visit::Number(number)),
            Value::String(text) => Ok(Visit::String(text.as_str())),
            Value::Array(array) => {
                self.frames.push_array(array.inner().iter())?;
                Ok(Visit::Array)
            }
            Value::Object(object) => {
                self.frames.push_object(object.inner().iter())?;
                Ok(Visit::Object)
            }
        }
    }

    // Returns the next visit of the innermost open container, or `None` if none is open. Notes the
    // child to visit next, if the visit starts an element or a member.
    // `ordered` goes back from the end, where nothing is left: who walks to the end learns it of the whole document.
    fn next_in_container(&mut self) -> Option<Visit<'a>>
        requires { self.old.due ≡ None }
        ensures left { MatchOption result (left self.old ≡ []) (λ f. left self.old ≡ token_of f ∷ left self.new) }
        ensures ordered { MatchOption result (NamesToComeRise self.old)
            (λ _. NamesToComeRise self.new → NamesToComeRise self.old) }
    {
        match self.frames.next()? {
            Part::Element(item) => {
                self.due = Some(item);
                Some(Visit::Element)
            }
            Part::ArrayEnd => Some(Visit::ArrayEnd),
            Part::Member(name, value) => {
                self.due = Some(value);
                Some(Visit::Name(name))
            }
            Part::ObjectEnd => Some(Visit::ObjectEnd),
        }
    }
}
