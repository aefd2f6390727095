//! A number that only contracts see. It takes no memory, and its calls do nothing at run time.
ghost use Rattle.std.specs.Prelude.{◌≡◌, ℕ, ◌+◌};
ghost use Rattle.std.specs.Borrow.{ftrue};
ghost use Rattle.std.specs.Coded.{coded_ℕ};

use std::marker::Model;

/// A number of calls, which only contracts see.
#[derive(Drop)]
pub struct Count {
    pub ghost value: { ℕ } by { coded_ℕ },
}

impl Model for Count {
    ghost also_owns = { λ _. ftrue };
}

impl Count {
    /// Returns the count 0.
    pub(crate) fn new() -> Count
        ensures { result.value ≡ 0 }
    {
        Count {}
    }

    /// Returns the count plus one.
    pub(crate) fn next(&self) -> Count
        ensures { result.value ≡ self.now.value + 1 }
    {
        Count {}
    }
}
