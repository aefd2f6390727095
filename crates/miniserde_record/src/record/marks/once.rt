//! The mark of fields for which a duplicate of their name is an error.
ghost use Rattle.std.specs.Prelude.{true};

use super::plain::{Mark, Repeats};
use miniserde_model::error::Result;
use miniserde_read::FromJson;
use std::alloc::Global;
use std::marker::PhantomData;

/// The mark of a field for which a duplicate of its name is an error, and that has the mark `M`
/// too. In a text the duplicate fails with `Invalid` before its value is read. Of duplicates of other
/// names, and inside of values, it says nothing.
pub struct Once<M> {
    mark: PhantomData<M>,
}

impl<M> Repeats for Once<M> {
    ghost once = { true };

    fn is_once() -> bool {
        true
    }
}

impl<T: FromJson, M: Mark<T>> Mark<T> for Once<M> {
    ghost given = { M.given };

    ghost missing_infallible = { M.missing_infallible };

    fn missing(alloc: Global) -> Result<Option<T>> {
        M::missing(alloc)
    }
}
