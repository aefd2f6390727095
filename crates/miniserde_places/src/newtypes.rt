//! How the place of a newtype with a check takes its one event.
ghost use Rattle.std.specs.Prelude.{◌≡◌, true, Some, None, Ok, Err, IfOk, IfErr};
ghost use Rattle.miniserde_model.specs.declared.error.Error.{Error};
ghost use Rattle.miniserde_read.specs.Events.{event_of, EventInRange, on_leaf};
ghost use Rattle.miniserde_read.specs.Newtypes.{checked_meaning, SameMeaning};

use miniserde_model::error::{Error, Result};
use miniserde_read::{Checked, Leaf, Step};
use std::alloc::Global;

/// A newtype with a check whose inner type's values are single tokens.
pub trait CheckedLeaf: Checked<Inner: Leaf> {
    // `means` is the meaning by which an event is taken, too.
    ghost same_leaf: { SameMeaning Self.Inner.Leaf.means Self.means };
}

/// Returns the newtype that the event means, or `Invalid` if it means no value of the inner type that the check
/// accepts. Returns `Memory` if an allocation fails.
pub fn checked_from_step<N: CheckedLeaf>(alloc: Global, event: Step<'_>) -> Result<N>
    requires { EventInRange (event_of event) }
    ensures ok { IfOk result (λ v. on_leaf (checked_meaning N.means N.accepts N.inner).from_tree (event_of event.entry)
        ≡ Some ((checked_meaning N.means N.accepts N.inner).content v)) }
    ensures invalid { result ≡ Err Error.Invalid
        → on_leaf (checked_meaning N.means N.accepts N.inner).from_tree (event_of event.entry) ≡ None }
    ensures infallible { N.Inner.Leaf.read_infallible ≡ true → IfErr result (λ e. e ≡ Error.Invalid) }
    ensures memory { result ≡ Err Error.Memory → N.Inner.Leaf.lacking (event_of event.entry) }
{
    match N::new(<N::Inner as Leaf>::from_step(alloc, event)?) {
        Some(value) => Ok(value),
        None => Err(Error::Invalid),
    }
}
