//! The error type of the calls that read and write, `Error`, and their result type.
ghost use Rattle.std.specs.Prelude.{◌≡◌, Some};
ghost use Rattle.miniserde_model.specs.Error.{message};
ghost use Rattle.miniserde_model.specs.declared.error.Error.TheVariants.{Memory};

use std::alloc::{AllocError, AllocFailed};
use std::{error, fmt};

/// Why a call failed.
#[derive(Clone, Copy, PartialEq, Eq, Debug)]
pub enum Error {
    /// The input is not what the call accepts. The error tells no position and no detail.
    Invalid,
    /// An allocation failed, or a length overflowed.
    Memory,
}

/// The result of a call that may fail.
pub type Result<T> = std::result::Result<T, Error>;

impl fmt::Display for Error {
    ghost output = { λ e. Some (message e) };

    // Formatting options, as in `{:>20}`, change nothing.
    ghost styled_output = { λ e _. Some (message e) };

    fn fmt<W: fmt::Write>(&self, f: &mut fmt::Formatter<W>) -> fmt::Result {
        match self {
            Error::Invalid => f.write_str("miniserde error"),
            Error::Memory => f.write_str("out of memory"),
        }
    }
}

impl error::Error for Error {}

impl From<AllocError> for Error {
    ghost from_gives = { λ _ e. e ≡ Memory };

    fn from(_: AllocError) -> Error {
        Error::Memory
    }
}

impl<T: Drop> From<AllocFailed<T>> for Error {
    ghost from_gives = { λ _ e. e ≡ Memory };

    fn from(_: AllocFailed<T>) -> Error {
        Error::Memory
    }
}
