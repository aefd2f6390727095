//! Puts the members of a closed object in the order of their names.
ghost use Rattle.std.specs.Prelude.{◌≡◌, ◌<◌, length, IfOk, OnOk};
ghost use Rattle.miniserde_canonical.specs.private.SortMembers.{texts, SortsMembers, PutsMembers, PutsMember, PutsBack};

use crate::member::Member;
use crate::members::{fill, repeats, sort, span_of};
use crate::put::put_comma;
use crate::spread::{Point, Span, Splice, SplicedText};
use std::alloc::AllocError;

/// The most bytes of sorted members that are copied back to the text, unless their object is in no other one.
const SHORT: usize = 1024;

/// Sorts the members of an object, which are at the end of the text `out`, by name, and keeps the
/// last of equal names alone. The sorted text is made at the end of `groups`. If it has no splice
/// and at most `SHORT` bytes, it is moved to `out` and replaces the members. `outermost` says that
/// the object is in no other one: then the number of bytes does not count. In all other cases the
/// text stays in `groups`, and a splice for it replaces the members. `order` is room for indices.
/// Returns whether the names are distinct. Fails if an allocation fails.
pub(crate) fn sort_members(
    members: &[Member<'_>],
    outermost: bool,
    order: &mut Vec<usize>,
    out: &mut SplicedText,
    groups: &mut SplicedText,
) -> Result<bool, AllocError>
    requires { 0 < length members.now }
    ensures { IfOk result (λ b. SortsMembers members.now (texts out.old groups.old) (texts out.new groups.new) b) }
{
    fill(members, order)?;
    sort(members, order)?;
    let from = groups.end();
    let number = put_members(members, order.as_slice(), out, groups)?;
    let longest = if outermost { usize::MAX } else { SHORT };
    put_back(members[0].point, from, out, groups, longest)?;
    Ok(number == members.len())
}

// Appends to the groups the members of the text `out` in the order `order`, with commas between
// them, except each whose name the next in that order has too. Returns how many it appended. Fails
// if an allocation fails.
fn put_members(
    members: &[Member<'_>],
    order: &[usize],
    out: &SplicedText,
    groups: &mut SplicedText,
) -> Result<usize, AllocError>
    ensures { IfOk result (λ n. PutsMembers members.now order.now (texts out.now groups.old) groups.new n) }
{
    let mut number = 0usize;
    for k in 0..order.len() {
        if !repeats(members, order, k) {
            put_member(members, order[k], number == 0, out, groups)?;
            number += 1;
        }
    }
    Ok(number)
}

// Appends the member at index `i`, whose text is in `out`, to the groups, after a comma unless
// `first` is set. Fails if an allocation fails.
#[inline(always)]
fn put_member(
    members: &[Member<'_>],
    i: usize,
    first: bool,
    out: &SplicedText,
    groups: &mut SplicedText,
) -> Result<(), AllocError>
    ensures { OnOk result (PutsMember members.now i first (texts out.now groups.old) groups.new) }
{
    put_comma(first, &mut groups.bytes)?;
    groups.append(out, span_of(members, i, out.end()))?;
    Ok(())
}

// Truncates the text `out` at `point`, and appends what the groups have after `from`. If that has
// no splice and at most `longest` bytes, it is moved to the text, and else a splice for it is
// appended. Fails if an allocation fails.
fn put_back(
    point: Point,
    from: Point,
    out: &mut SplicedText,
    groups: &mut SplicedText,
    longest: usize,
) -> Result<(), AllocError>
    ensures { OnOk result (PutsBack point from (texts out.old groups.old) (texts out.new groups.new)) }
{
    let to = groups.end();
    out.truncate(point);
    if to.splices == from.splices && to.bytes.saturating_sub(from.bytes) <= longest {
        out.append(groups, Span { from, to })?;
        groups.truncate(from);
        return Ok(());
    }
    let group = Span { from, to };
    out.splices.push(Splice {
        at: point.bytes,
        group,
    })?;
    Ok(())
}
