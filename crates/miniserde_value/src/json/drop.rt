//! Drops documents without recursion and without allocation.
ghost use Rattle.std.specs.Prelude.{◌≡◌, ◌+◌, ◌*◌, ◌≤◌, ◌++◌, ◌∷◌, [], ◌↔◌, IsTrue, MatchOption};
ghost use Rattle.miniserde_value.specs.Values.{children, IsBare};
ghost use Rattle.miniserde_value.specs.Looks.{value_size, ReplacesFirst};

mod looks;

use super::value::Value;
pub use looks::Looks;
use looks::drop_bare;

/// Returns whether a value is a leaf or an empty container.
#[inline(always)]
fn is_bare(value: &Value) -> bool
    ensures { IsTrue result ↔ IsBare value.now }
{
    match value {
        Value::Array(array) => array.inner().is_empty(),
        Value::Object(object) => object.inner().is_empty(),
        _ => true,
    }
}

/// Removes the last child of a value and returns it, or returns `None` if the value has no child. Counts a look if it
/// returns a child.
#[inline(always)]
fn take_last(value: &mut Value, looks: &mut Looks) -> Option<Value>
    ensures taken { MatchOption result (IsBare value.old × IsBare value.new)
        (λ last. children value.old ≡ children value.new ++ last ∷ []) }
    ensures visited { MatchOption result (looks.new.visited ≡ looks.old.visited)
        (λ _. looks.new.visited ≡ looks.old.visited + 1) }
    ensures released { looks.new.released ≡ looks.old.released }
{
    let last = match value {
        Value::Array(array) => array.take_last(),
        Value::Object(object) => object.take_last(),
        _ => None,
    }?;
    looks.look();
    Some(last)
}

/// Replaces the first child of `value`, which has a child, with `parent`. Returns the old child. Counts a look.
#[inline(always)]
fn replace_first(value: &mut Value, parent: Value, looks: &mut Looks) -> Value
    requires { children value.old ≡ [] → ⊥ }
    ensures replaced { ReplacesFirst parent result (children value.old) (children value.new) }
    ensures visited { looks.new.visited ≡ looks.old.visited + 1 }
    ensures released { looks.new.released ≡ looks.old.released }
{
    looks.look();
    match value {
        Value::Array(array) => array.replace_first(parent),
        Value::Object(object) => object.replace_first(parent),
        _ => unreachable!(),
    }
}

/// Drops a value without recursion. Counts in `looks` one look for the value, one for each time a value is taken out of
/// a container, and each dropped value. Not counted are tests whether a value is bare, and a try to take a value out of
/// a container that has none left. Allocates nothing.
pub fn counted(value: Value, looks: &mut Looks)
    ensures released { looks.new.released ≡ looks.old.released + value_size value }
    ensures at_least { looks.old.visited + value_size value ≤ looks.new.visited }
    ensures at_most { looks.new.visited ≤ looks.old.visited + 2 * value_size value }
{
    looks.look();
    let mut current = value;
    let mut hand = match take_last(&mut current, looks) {
        None => return drop_bare(current, looks),
        Some(last) => last,
    };
    // `hand` was taken out of `current`. If both have children, `current` is put where the first child of `hand` was,
    // and that child is the next `hand`: a parent waits inside its child, so no stack is needed.
    loop {
        if is_bare(&hand) {
            drop_bare(hand, looks);
            match take_last(&mut current, looks) {
                None => return drop_bare(current, looks),
                Some(last) => hand = last,
            }
        } else if is_bare(&current) {
            drop_bare(current, looks);
            current = hand;
            match take_last(&mut current, looks) {
                None => unreachable!(),
                Some(last) => hand = last,
            }
        } else {
            let first = replace_first(&mut hand, current, looks);
            current = hand;
            hand = first;
        }
    }
}

/// Drops a value without recursion. Allocates nothing.
pub fn safely(value: Value) {
    let mut looks = Looks::new();
    counted(value, &mut looks);
}
