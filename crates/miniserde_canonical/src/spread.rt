//! Texts with splices: points at which the text of a group belongs.
ghost use Rattle.std.specs.Prelude.{◌≡◌, ◌≤◌, ◌++◌, [], length, take, map, IfOk, OnOk};
ghost use Rattle.miniserde_canonical.specs.private.SplicedTexts.{Within, bytes_in, splices_in, part_between, shifted_splice};

use std::alloc::{AllocError, Global};

/// A point in a text with splices: how many bytes and how many splices stand before it.
#[derive(Clone, Copy, Drop)]
pub(crate) struct Point {
    pub(crate) bytes: usize,
    pub(crate) splices: usize,
}

/// The part of a text between two points.
#[derive(Clone, Copy, Drop)]
pub(crate) struct Span {
    pub(crate) from: Point,
    pub(crate) to: Point,
}

/// A splice: the span `group` of the groups belongs before the byte at index `at`, or at the end of the text if there
/// is no such byte.
#[derive(Clone, Copy, Drop)]
pub(crate) struct Splice {
    pub(crate) at: usize,
    pub(crate) group: Span,
}

/// A text with splices, which are in the order of the text.
#[derive(Drop)]
pub(crate) struct SplicedText {
    pub(crate) bytes: Vec<u8>,
    pub(crate) splices: Vec<Splice>,
}

impl SplicedText {
    /// Returns an empty text without splices.
    pub(crate) fn new(alloc: Global) -> SplicedText
        ensures bytes { result.bytes.items ≡ [] }
        ensures splices { result.splices.items ≡ [] }
    {
        SplicedText {
            bytes: Vec::new(alloc),
            splices: Vec::new(alloc),
        }
    }

    /// Returns the point at the end of the text.
    pub(crate) fn end(&self) -> Point
        ensures bytes { result.bytes ≡ length self.now.bytes.items }
        ensures splices { result.splices ≡ length self.now.splices.items }
    {
        Point {
            bytes: self.bytes.len(),
            splices: self.splices.len(),
        }
    }

    /// Removes the bytes and the splices after a point.
    pub(crate) fn truncate(&mut self, point: Point)
        ensures bytes { self.new.bytes.items ≡ take point.bytes self.old.bytes.items }
        ensures splices { self.new.splices.items ≡ take point.splices self.old.splices.items }
    {
        self.bytes.truncate(point.bytes);
        self.splices.truncate(point.splices);
    }

    /// Appends a span of another text, with its splices. If the span is out of order or range in the bytes of that
    /// text, or in its splices, appends none of these. Fails if an allocation fails or an index overflows.
    #[inline(always)]
    pub(crate) fn append(&mut self, other: &SplicedText, span: Span) -> Result<(), AllocError>
        ensures bytes { OnOk result (Within span other.now.bytes.items other.now.splices.items
            → self.new.bytes.items ≡ self.old.bytes.items ++ bytes_in span other.now.bytes.items) }
        ensures splices { OnOk result (Within span other.now.bytes.items other.now.splices.items
            → self.new.splices.items ≡ self.old.splices.items
            ++ map (shifted_splice span.from.bytes (length self.old.bytes.items)) (splices_in span other.now.splices.items)) }
    {
        let at = self.bytes.len();
        let bytes = part(other.bytes.as_slice(), span.from.bytes, span.to.bytes);
        let splices = part(other.splices.as_slice(), span.from.splices, span.to.splices);
        self.bytes.extend_from_slice(bytes)?;
        for splice in splices {
            self.splices
                .push(shifted_splice(*splice, span.from.bytes, at)?)?;
        }
        Ok(())
    }
}

// Returns the splice as it is after the text from index `from` on moved to index `at`. A splice before `from` counts as
// one at `from`. Fails if the new index overflows.
fn shifted_splice(splice: Splice, from: usize, at: usize) -> Result<Splice, AllocError>
    ensures { IfOk result (λ h. h ≡ shifted_splice from at splice) }
{
    let behind = splice.at.saturating_sub(from);
    Ok(Splice {
        at: at.checked_add(behind).ok_or(AllocError)?,
        group: splice.group,
    })
}

/// Returns the elements from one index up to another, or none if the indices are out of order or range.
pub(crate) fn part<T>(xs: &[T], from: usize, to: usize) -> &[T]
    ensures { from ≤ to → to ≤ length xs.now → result.now ≡ part_between from to xs.now }
{
    if from <= to && to <= xs.len() {
        &xs[from..to]
    } else {
        &xs[..0]
    }
}
