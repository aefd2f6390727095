//! The mark of fields that have a given value if they are missing.
ghost use Rattle.std.specs.Prelude.{◌≡◌, false, Some, Ok, Err, IfOk, IfErr, IsSome};
ghost use Rattle.miniserde_model.specs.Tree.{Tree};
ghost use Rattle.miniserde_model.specs.declared.error.Error.{Error};

use super::plain::{Mark, Repeats};
use miniserde_model::error::Result;
use miniserde_read::FromJson;
use std::alloc::Global;
use std::marker::PhantomData;

/// A value for a missing field, by the tree that its member would have.
pub trait Given<T: FromJson> {
    // The tree that the field's member would have.
    ghost given: { Tree };

    /// Returns a value that the tree `given` means, or `Memory` if it fails to allocate. Even
    /// if it fails, the tree means a value.
    fn make(alloc: Global) -> Result<T>
        ensures ok { IfOk result (λ v. T.means.from_tree given ≡ Some (T.means.content v)) }
        ensures memory { IfErr result (λ e. e ≡ Error.Memory) }
        ensures meant { IsSome (T.means.from_tree given) };
}

/// The mark of a field that has the value of `D` if it is missing.
pub struct WithDefault<D> {
    given: PhantomData<D>,
}

impl<D> Repeats for WithDefault<D> {
    ghost once = { false };

    fn is_once() -> bool {
        false
    }
}

impl<T: FromJson, D: Given<T>> Mark<T> for WithDefault<D> {
    ghost given = { Some D.given };

    fn missing(alloc: Global) -> Result<Option<T>> {
        Ok(Some(D::make(alloc)?))
    }
}
