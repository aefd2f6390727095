//! The open containers of a walk, and what is left of each.
ghost use Rattle.std.specs.Prelude.{◌≡◌, [], OnOk, MatchOption};
ghost use Rattle.std.specs.Slice.Iter.{iter_rest};
ghost use Rattle.miniserde_value.specs.Walks.{items_left, members_left, ItemsNamesRise, ValuesNamesRise};
ghost use Rattle.miniserde_value.specs.Walks.{frames_left, part_left, NestedNamesRise, PartNamesRise};

use super::super::value::Value;
use std::alloc::{AllocError, Global};
use std::collections::btree_map;
use std::{result, slice};

/// An open container: an array with the items that it has left, or an object, whose iterator stands
/// in a list of its own (`Frames`).
#[derive(Drop)]
pub(crate) enum Frame<'a> {
    Array(slice::Iter<'a, Value>),
    Object,
}

/// The next part of the innermost open container: a child, an object's with its name, or the end.
#[derive(Clone, Copy, Drop)]
pub(crate) enum Part<'a> {
    Element(&'a Value),
    ArrayEnd,
    Member(&'a str, &'a Value),
    ObjectEnd,
}

/// The open containers, with the innermost last in each list. The iterators of objects are large, so they have a list
/// of their own. After an error the two lists may not fit together.
#[derive(Drop)]
pub(crate) struct Frames<'a> {
    open: Vec<Frame<'a>>,
    objects: Vec<btree_map::Iter<'a, String, Value>>,
}

impl<'a> Frames<'a> {
    /// Returns frames without open containers.
    pub(crate) fn new(alloc: Global) -> Frames<'a>
        ensures left { frames_left result ≡ [] }
    {
        Frames {
            open: Vec::new(alloc),
            objects: Vec::new(alloc),
        }
    }

    /// Opens an array that has these items left. Fails if a list cannot grow.
    pub(crate) fn push_array(
        &mut self,
        items: slice::Iter<'a, Value>,
    ) -> result::Result<(), AllocError>
        ensures left { OnOk result (frames_left self.new ≡ items_left items.entry (frames_left self.old)) }
        ensures ordered { OnOk result (NestedNamesRise self.new → ItemsNamesRise items.entry × NestedNamesRise self.old) }
    {
        self.open.push(Frame::Array(items))?;
        Ok(())
    }

    /// Opens an object that has these members left. Fails if a list cannot grow.
    pub(crate) fn push_object(
        &mut self,
        members: btree_map::Iter<'a, String, Value>,
    ) -> result::Result<(), AllocError>
        ensures left { OnOk result (frames_left self.new ≡ members_left members.entry (frames_left self.old)) }
        ensures ordered { OnOk result (NestedNamesRise self.new → ValuesNamesRise members.entry × NestedNamesRise self.old) }
    {
        self.objects.push(members)?;
        self.open.push(Frame::Object)?;
        Ok(())
    }

    /// Returns the next part of the innermost open container, and closes the container at its end. The child is not
    /// opened. Returns `None` if no container is open, or if an open object has no iterator, which never happens.
    #[inline(always)]
    pub(crate) fn next(&mut self) -> Option<Part<'a>>
        ensures left { MatchOption result (frames_left self.old ≡ [])
            (λ part. frames_left self.old ≡ part_left part (frames_left self.new)) }
        ensures ordered { MatchOption result (NestedNamesRise self.old)
            (λ part. PartNamesRise part → NestedNamesRise self.new → NestedNamesRise self.old) }
    {
        match self.open.last_mut()? {
            Frame::Array(items) => match items.next() {
                Some(item) => Some(Part::Element(item)),
                None => {
                    self.open.pop();
                    Some(Part::ArrayEnd)
                }
            },
            Frame::Object => match self.objects.last_mut()?.next() {
                Some((name, value)) => Some(Part::Member(name.as_str(), value)),
                None => {
                    self.objects.pop();
                    self.open.pop();
                    Some(Part::ObjectEnd)
                }
            },
        }
    }
}
