//! The order of an object's members by their names, and the span of each member in the text. In a comparison, an index
//! out of range counts as that of a member with the empty name.
ghost use Rattle.std.specs.Prelude.{◌≡◌, ◌<◌, ◌+◌, ℕ, List, length, drop, true, false, OnOk, IsSortedByKey, slice_index_or};
ghost use Rattle.std.specs.List.{range_with_len};
ghost use Rattle.std.specs.declared.cmp.Ordering.TheVariants.{Less};
ghost use Rattle.miniserde_model.specs.Tree.{Tree};
ghost use Rattle.miniserde_model.specs.Normal.{text_cmp, last_of};
ghost use Rattle.miniserde_canonical.specs.private.MemberNames.{name_of};
ghost use Rattle.miniserde_canonical.specs.private.Members.{name_in, members_at, begins_with_name, begin_of, end_of, NamesRise};

use crate::member::Member;
use crate::spread::{Point, Span};
use std::alloc::AllocError;
use std::cmp::Ordering;

/// Returns whether the names strictly ascend in byte order. The clauses promise that they do if the result is `true`,
/// and that there is a member if it is `false`.
pub(crate) fn rises(members: &[Member<'_>]) -> bool
    ensures rises { result ≡ true → NamesRise members.now }
    ensures some { result ≡ false → 0 < length members.now }
{
    for i in 1..members.len() {
        match compare_names(&members[i - 1], &members[i]) {
            Ordering::Less => {}
            _ => return false,
        }
    }
    true
}

// Compares the names of two members in byte order. It compares their first eight bytes first, as numbers.
#[inline(always)]
fn compare_names(a: &Member<'_>, b: &Member<'_>) -> Ordering
    ensures { result ≡ text_cmp (name_of a.now.name) (name_of b.now.name) }
{
    if a.leading_bytes < b.leading_bytes {
        return Ordering::Less;
    }
    if b.leading_bytes < a.leading_bytes {
        return Ordering::Greater;
    }
    a.name.text().cmp(b.name.text())
}

/// Replaces the contents of `order` with the indices of the members, in ascending order. Fails if `order` cannot grow.
pub(crate) fn fill(members: &[Member<'_>], order: &mut Vec<usize>) -> Result<(), AllocError>
    ensures { OnOk result (order.new.items ≡ range_with_len 0 (length members.now)) }
{
    order.clear();
    for i in 0..members.len() {
        order.push(i)?;
    }
    Ok(())
}

/// Sorts the indices in `order` by the names of their members. The sort is stable. Even if it fails, the last index of
/// each name is still the last one of that name: whatever tree r gives each index, the tree of that last one is the
/// same before and after (`last`). Fails if the sort fails to allocate.
pub(crate) fn sort(members: &[Member<'_>], order: &mut Vec<usize>) -> Result<(), AllocError>
    ensures sorted { OnOk result (IsSortedByKey (name_in members.now) text_cmp order.new.items) }
    ensures last { (r : ℕ → Tree) (q : List ℕ) → last_of q (members_at members.now r order.new.items)
        ≡ last_of q (members_at members.now r order.old.items) }
{
    order.sort_by(|a, b| compare(members, *a, *b))?;
    Ok(())
}

// Compares the names of the members at two indices in byte order.
#[inline(always)]
fn compare(members: &[Member<'_>], a: usize, b: usize) -> Ordering
    ensures { result ≡ text_cmp (name_in members.now a) (name_in members.now b) }
{
    if a >= members.len() || b >= members.len() {
        return name_at(members, a).cmp(name_at(members, b));
    }
    compare_names(&members[a], &members[b])
}

// Returns the name of the member at an index, or the empty text if the index is out of range.
#[inline(always)]
fn name_at<'m>(members: &'m [Member<'_>], i: usize) -> &'m str
    ensures { result.now ≡ name_in members.now i }
{
    if i < members.len() {
        members[i].name.text()
    } else {
        ""
    }
}

/// Returns whether `order` has an entry after `order[k]`, and both members have the same name.
#[inline(always)]
pub(crate) fn repeats(members: &[Member<'_>], order: &[usize], k: usize) -> bool
    requires { k < length order.now }
    ensures { (r : ℕ → Tree) (d : ℕ) → result ≡ begins_with_name (name_in members.now (slice_index_or order.now k d))
        (members_at members.now r (drop (k + 1) order.now)) }
{
    k + 1 < order.len() && name_at(members, order[k]) == name_at(members, order[k + 1])
}

/// Returns the span of the member at index `i`, without the comma after it. The last member ends at `end`. If the index
/// is out of range, the span is empty and stands at `end`.
#[inline(always)]
pub(crate) fn span_of(members: &[Member<'_>], i: usize, end: Point) -> Span
    ensures from { result.from ≡ begin_of (drop i members.now) end }
    ensures to { result.to ≡ end_of (drop i members.now) end }
{
    if i >= members.len() {
        return Span { from: end, to: end };
    }
    let from = members[i].point;
    if i + 1 >= members.len() {
        return Span { from, to: end };
    }
    let next = &members[i + 1];
    // If the members are those of one object, `next` is not its first, and a comma stands before it.
    let comma = if next.first { 0 } else { 1 };
    let to = Point {
        bytes: next.point.bytes.saturating_sub(comma),
        splices: next.point.splices,
    };
    Span { from, to }
}
