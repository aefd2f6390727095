//! The names of the fields of a struct, as a type lists them.
ghost use Rattle.std.specs.Prelude.{◌≡◌, List, map};
ghost use Rattle.miniserde.specs.Objects.{Name};
ghost use Rattle.refused.specs.Wrong.{later_names};

use miniserde::record::Record;
use std::marker::PhantomData;

/// A list of names.
pub trait Names {
    // The names.
    ghost names: { List Name };

    /// Returns the names.
    fn names() -> &'static [&'static str]
        ensures { map (λ s. s.now) result.now ≡ names };
}

/// The names of the fields of the struct `S`.
pub struct NamesOf<S> {
    of: PhantomData<S>,
}

impl<S: Record> Names for NamesOf<S> {
    ghost names = { S.names };

    fn names() -> &'static [&'static str] {
        S::names()
    }
}

/// The names `N` without the first.
pub struct LaterNames<N> {
    of: PhantomData<N>,
}

impl<N: Names> Names for LaterNames<N> {
    ghost names = { later_names N.names };

    fn names() -> &'static [&'static str] {
        let names = N::names();
        if names.is_empty() {
            return names;
        }
        &names[1..]
    }
}
