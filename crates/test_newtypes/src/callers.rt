//! Callers: texts of newtypes, and what the calls promise of them.
ghost use Rattle.std.specs.Prelude.{◌≡◌, ◌↔◌, ◌≤◌, ◌/◌, pos, IfSome, IsSome, true, None, IfOk, Err, string_bytes};
ghost use Rattle.miniserde.specs.Tree.{Tree};
ghost use Rattle.miniserde.specs.Value.{IsJson};
ghost use Rattle.miniserde.specs.Normal.{norm};
ghost use Rattle.miniserde.specs.Integers.{ReadsUnsigned};
ghost use Rattle.test_newtypes.specs.Checks.{at_most_100, is_slug};
ghost use Rattle.test_newtypes.specs.Orders.{is_ordered};

use crate::accounts::{Slug, Tagged};
use crate::percents::Percent;
use crate::spans::Span;
use miniserde::json::from_str;
use miniserde::{Checked, Error, FromJson, Result, means_in_normal_form, read_itself};
use std::alloc::Global;
use std::collections::BTreeMap;

/// Reads a percent, and returns its number.
pub fn percent(alloc: Global, text: &str) -> Result<u8>
    // The text spells an integer, which is the answer and is at most 100.
    ensures ok { IfOk result (λ n. (t : Tree) × IsJson text.now t × ReadsUnsigned 8 t n × (n ≤ 100)) }

    // If the result is `Invalid`, the text spells no integer from 0 to 100 that is written without a minus.
    ensures invalid { result ≡ Err Error.Invalid → (t : Tree) → IsJson text.now t
        → (p : Percent) → ReadsUnsigned 8 t p.value → ⊥ }
{
    let percent: Percent = from_str(alloc, text)?;
    Ok(*percent.get())
}

/// Writes a slug and reads it again: the same text.
pub fn same_slug(alloc: Global, slug: &Slug) -> Result<Slug>
    ensures same { IfOk result (λ s. string_bytes s.value ≡ string_bytes slug.now.value) }
    ensures slug { IfOk result (λ s. is_slug (string_bytes s.value) ≡ true) }
    ensures memory { result ≡ Err Error.Invalid → ⊥ }
{
    read_itself(alloc, slug)
}

/// Does nothing. It promises that the normal form of a tree that means percents by slugs means the same.
pub fn by_slug_is_stable()
    ensures { (t : Tree) (m : _) → ⟦<BTreeMap<Slug, Percent> as FromJson>⟧.means.reads t m
        → ⟦<BTreeMap<Slug, Percent> as FromJson>⟧.means.reads (norm t) m }
{
    means_in_normal_form::<BTreeMap<Slug, Percent>>()
}

/// Reads a tagged value of any type.
pub fn tagged<T: FromJson>(alloc: Global, text: &str) -> Result<T>
    ensures ok { IfOk result (λ v. (t : Tree) × IsJson text.now t × T.means.reads t v) }
    ensures invalid { result ≡ Err Error.Invalid → (t : Tree) → IsJson text.now t → T.means.from_tree t ≡ None }
{
    let Tagged(value) = from_str(alloc, text)?;
    Ok(value)
}

/// Returns the percent of a number, if that is at most 100.
pub fn percent_of(n: u8) -> Option<Percent>
    ensures some { IfSome result (λ p. p.value ≡ n) }
    ensures accepted { IsSome result ↔ (n ≤ 100) }
{
    Percent::new(n)
}

/// Returns the value inside of any newtype with a check, which accepts it.
pub fn checked_value<N: Checked>(value: &N) -> &N::Inner
    ensures inner { result.now ≡ N.inner value.now }
    ensures accepted { N.accepts (N.means.content result.now) ≡ true }
{
    value.get()
}

/// Returns half of a percent, rounded down.
pub fn half(percent: &Percent) -> Percent
    ensures { result.value ≡ percent.now.value / 2 }
{
    Percent::new(*percent.get() / 2).unwrap()
}

/// Reads a span. Each one ends no earlier than it begins.
pub fn span_of(alloc: Global, text: &str) -> Result<Span>
    ensures ok { IfOk result (λ s. (t : Tree) × IsJson text.now t × ⟦<Span as FromJson>⟧.means.reads t s) }
    ensures ordered { IfOk result (λ s. is_ordered (pos s.value.from, (pos s.value.to, tt)) ≡ true) }
    ensures invalid { result ≡ Err Error.Invalid → (t : Tree) → IsJson text.now t
        → ⟦<Span as FromJson>⟧.means.from_tree t ≡ None }
{
    from_str(alloc, text)
}
