//! The error that ends a test.

use miniserde::error::{Error, Result};
use std::alloc::{AllocError, AllocFailed};

/// The case that is wrong: a line of a table, or what a single case says.
#[derive(Debug, Drop)]
pub struct Wrong {
    pub case: &'static str,
}

// A call that a test expects to succeed ends it by `?`.
impl From<Error> for Wrong {
    fn from(error: Error) -> Wrong {
        let case = match error {
            Error::Invalid => "a call returned `Invalid`",
            Error::Memory => "a call returned `Memory`",
        };
        Wrong { case }
    }
}

impl From<AllocError> for Wrong {
    fn from(_: AllocError) -> Wrong {
        Wrong {
            case: "an allocation failed",
        }
    }
}

impl<T: Drop> From<AllocFailed<T>> for Wrong {
    fn from(_: AllocFailed<T>) -> Wrong {
        Wrong {
            case: "an allocation failed",
        }
    }
}

/// Fails with a case unless it holds.
pub fn expect(holds: bool, case: &'static str) -> std::result::Result<(), Wrong> {
    if holds { Ok(()) } else { Err(Wrong { case }) }
}

/// Fails with a case unless it holds, also if it fails to allocate.
pub fn expect_ok(holds: Result<bool>, case: &'static str) -> std::result::Result<(), Wrong> {
    expect(matches!(holds, Ok(true)), case)
}
