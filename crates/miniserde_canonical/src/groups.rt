//! Fills the splices of a text with their groups.
ghost use Rattle.std.specs.Prelude.{◌≡◌, ◌++◌, ◌+◌, ◌<◌, ℕ, List, IfOk, OnOk};
ghost use Rattle.miniserde_canonical.specs.private.SplicedTexts.{FilledText, SplicesInOrder, Ordered};
ghost use Rattle.miniserde_canonical.specs.private.WaitingSpans.{SpanHolds, SpansHold, span_measure, spans_measure};

use crate::spread::{Point, Span, SplicedText, part};
use std::alloc::{AllocError, Global};

/// Returns the bytes of a text with each splice filled with its group. A text without splices is moved, and not copied.
/// Fails if an allocation fails.
pub(crate) fn fill_splices(
    alloc: Global,
    text: SplicedText,
    groups: &SplicedText,
) -> Result<Vec<u8>, AllocError>
    requires { SplicesInOrder groups.now.splices.items text.splices.items }
    ensures { IfOk result (λ r. (x : List ℕ) → FilledText groups.now text x → r.items ≡ x) }
{
    let splices = text.splices.as_slice();
    if splices.is_empty() {
        return Ok(text.bytes);
    }
    let mut out = Vec::new(alloc);
    let mut later = Vec::new(alloc);
    let mut at = 0;
    for splice in splices {
        out.extend_from_slice(part(text.bytes.as_slice(), at, splice.at))?;
        put_group(splice.group, groups, &mut out, &mut later)?;
        at = splice.at;
    }
    out.extend_from_slice(part(text.bytes.as_slice(), at, text.bytes.len()))?;
    Ok(out)
}

// Appends the text of a group to `out`, with its own splices filled. `later` is room for the spans that are to be
// appended, the last one first. Fails if an allocation fails.
fn put_group(
    group: Span,
    groups: &SplicedText,
    out: &mut Vec<u8>,
    later: &mut Vec<Span>,
) -> Result<(), AllocError>
    requires { Ordered 0 groups.now.splices.items }
    ensures { OnOk result ((x : List ℕ) → SpanHolds groups.now group x
        → out.new.items ≡ out.old.items ++ x) }
{
    later.clear();
    later.push(group)?;
    while let Some(span) = later.pop() {
        put_span(span, groups, out, later)?;
    }
    Ok(())
}

// Appends the text of a span to `out`, up to its first splice if it has one. In that case it pushes the rest of the
// span to `later`, and on top of it the group of that splice. A splice that the groups do not have counts as none.
// Fails if an allocation fails. By the clause `less`, the loop over `later` ends.
fn put_span(
    span: Span,
    groups: &SplicedText,
    out: &mut Vec<u8>,
    later: &mut Vec<Span>,
) -> Result<(), AllocError>
    ensures ok { OnOk result ((x y : List ℕ) → SpanHolds groups.now span x
        → SpansHold groups.now later.old.items y
        → (z : List ℕ) × SpansHold groups.now later.new.items z
        × (out.new.items ++ z ≡ out.old.items ++ (x ++ y))) }
    ensures less { OnOk result (Ordered 0 groups.now.splices.items
        → spans_measure later.new.items < spans_measure later.old.items + span_measure span) }
{
    let splices = groups.splices.as_slice();
    let next = span.from.splices;
    if next < span.to.splices && next < splices.len() {
        let splice = splices[next];
        let behind = Point {
            bytes: splice.at,
            splices: next + 1,
        };
        out.extend_from_slice(part(groups.bytes.as_slice(), span.from.bytes, splice.at))?;
        later.push(Span {
            from: behind,
            to: span.to,
        })?;
        later.push(splice.group)?;
    } else {
        out.extend_from_slice(part(groups.bytes.as_slice(), span.from.bytes, span.to.bytes))?;
    }
    Ok(())
}
