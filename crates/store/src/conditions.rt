//! The conditions of a request on its entry (RFC 9110, section 13).
ghost use Rattle.std.specs.Prelude.{◌≡◌, ◌<◌, ℕ, List, length, not, IfSome};
ghost use Rattle.store.specs.Conditions as spec;
ghost use Rattle.store.specs.Conditions.{values_of};

use http::{HeaderMap, HeaderName, header};

/// Whether the conditions of a request hold.
#[derive(Clone, Copy, PartialEq, Eq, Debug, Drop)]
pub enum Condition {
    /// Each holds or is absent.
    Met,
    /// `If-Match` does not hold.
    Failed,
    /// `If-None-Match` does not hold, since it is `*` or lists the tag of the entry.
    Cached,
}

// Whether a tag stands in a value at an index, and is no weak one if only strong ones are asked for.
fn stands_at(value: &[u8], tag: &[u8], weak: bool, i: usize) -> bool
    requires { i < length value.now }
    ensures { result ≡ spec.stands_at value.now tag.now weak i }
{
    if !value[i..].starts_with(tag) {
        return false;
    }
    weak || !value[..i].ends_with(b"W/")
}

// Whether a value lists a tag.
fn lists(value: &[u8], tag: &[u8], weak: bool) -> bool
    ensures { result ≡ spec.lists value.now tag.now weak }
{
    let mut found = false;
    for i in 0..value.len() {
        if stands_at(value, tag, weak, i) {
            found = true;
        }
    }
    found
}

// Whether a value is `*`, or lists a tag.
fn is_met(value: &[u8], tag: &[u8], weak: bool) -> bool
    ensures { result ≡ spec.is_met tag.now weak value.now }
{
    if value == b"*".as_slice() {
        return true;
    }
    lists(value, tag, weak)
}

// Whether a field has the value `*`.
fn has_any(headers: &HeaderMap, name: HeaderName) -> bool
    ensures { result ≡ spec.has_any (values_of headers.now name) }
{
    let mut found = false;
    for value in headers.get_all(name) {
        if value.as_bytes() == b"*".as_slice() {
            found = true;
        }
    }
    found
}

// Whether a field has a value that is `*`, or lists a tag.
fn is_any_met(headers: &HeaderMap, name: HeaderName, tag: &[u8], weak: bool) -> bool
    ensures { result ≡ spec.is_any_met tag.now weak (values_of headers.now name) }
{
    let mut found = false;
    for value in headers.get_all(name) {
        if is_met(value.as_bytes(), tag, weak) {
            found = true;
        }
    }
    found
}

// Whether a request has the field `If-Match`.
fn has_if_match(headers: &HeaderMap) -> bool
    ensures { result ≡ spec.has_if_match headers.now }
{
    headers.get(header::IF_MATCH).is_some()
}

/// Returns whether `If-None-Match` is `*`: the request asks for no entry that there is.
pub fn wants_none(headers: &HeaderMap) -> bool
    ensures { result ≡ spec.wants_none headers.now }
{
    has_any(headers, header::IF_NONE_MATCH)
}

// Whether `If-Match` holds for any entry: it is absent or `*`.
fn matches_any(headers: &HeaderMap) -> bool
    ensures { result ≡ spec.matches_any headers.now }
{
    !has_if_match(headers) || has_any(headers, header::IF_MATCH)
}

/// Returns what the conditions of a request say of an entry, or `None` if that depends on the entry's tag.
pub fn judge_any(headers: &HeaderMap) -> Option<Condition>
    ensures { IfSome result (λ known. (tag : List ℕ) → spec.condition headers.now tag ≡ known) }
{
    if !matches_any(headers) {
        return None;
    }
    if wants_none(headers) {
        return Some(Condition::Cached);
    }
    match headers.get(header::IF_NONE_MATCH) {
        Some(_) => None,
        None => Some(Condition::Met),
    }
}

/// Returns whether the conditions of a request hold for a key with no entry, for which `If-None-Match` always does.
pub fn allows_new(headers: &HeaderMap) -> bool
    ensures { result ≡ not (spec.has_if_match headers.now) }
{
    !has_if_match(headers)
}

/// Returns what the conditions of a request say of an entry of this tag.
pub fn judge(headers: &HeaderMap, tag: &[u8]) -> Condition
    ensures { result ≡ spec.condition headers.now tag.now }
{
    if has_if_match(headers) {
        if !is_any_met(headers, header::IF_MATCH, tag, false) {
            return Condition::Failed;
        }
    }
    if is_any_met(headers, header::IF_NONE_MATCH, tag, true) {
        return Condition::Cached;
    }
    Condition::Met
}
