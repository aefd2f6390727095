//! The error of a call on rows.
ghost use Rattle.std.specs.Prelude.{◌≡◌, ◌↔◌, IsTrue};
ghost use Rattle.rows.specs.Errors.{IsMemory};

use sqlite::ErrorCode;
use std::alloc::{AllocError, AllocFailed};
use std::fmt;

/// Why a row is not written or not read.
#[derive(Clone, Copy, PartialEq, Eq, Debug)]
pub enum Error {
    /// The database refused a statement or failed, or the connection is shut. If the database's own allocation failed, this
    /// is `SqliteFailure(OutOfMemory)`.
    Database(sqlite::Error),
    /// A key or a body does not match the type.
    Invalid,
    /// An allocation failed outside of the database.
    Memory,
}

impl Error {
    /// Returns whether an allocation failed, in the database or outside of it.
    pub fn is_memory(self) -> bool
        ensures { IsTrue result ↔ IsMemory self }
    {
        match self {
            Error::Database(sqlite::Error::SqliteFailure(ErrorCode::OutOfMemory)) => true,
            Error::Memory => true,
            _ => false,
        }
    }
}

impl From<sqlite::Error> for Error {
    ghost use Rattle.rows.specs.declared.error.Error.TheVariants.{Database};

    ghost from_gives = { λ error e. e ≡ Database error };

    fn from(error: sqlite::Error) -> Error {
        Error::Database(error)
    }
}

impl From<miniserde::Error> for Error {
    ghost use Rattle.rows.specs.Errors.{of_json};

    ghost from_gives = { λ error e. e ≡ of_json error };

    fn from(error: miniserde::Error) -> Error {
        match error {
            miniserde::Error::Invalid => Error::Invalid,
            miniserde::Error::Memory => Error::Memory,
        }
    }
}

impl From<AllocError> for Error {
    ghost use Rattle.rows.specs.declared.error.Error.TheVariants.{Memory};

    ghost from_gives = { λ _ e. e ≡ Memory };

    fn from(_error: AllocError) -> Error {
        Error::Memory
    }
}

impl<T: Drop> From<AllocFailed<T>> for Error {
    ghost use Rattle.rows.specs.declared.error.Error.TheVariants.{Memory};

    ghost from_gives = { λ _ e. e ≡ Memory };

    fn from(_failed: AllocFailed<T>) -> Error {
        Error::Memory
    }
}

impl fmt::Display for Error {
    ghost use Rattle.rows.specs.Errors.{error_text};

    ghost output = { error_text };

    fn fmt<W: fmt::Write>(&self, f: &mut fmt::Formatter<W>) -> fmt::Result {
        match self {
            Error::Database(error) => write!(f, "{error}"),
            Error::Invalid => write!(f, "{}", miniserde::Error::Invalid),
            Error::Memory => write!(f, "{}", miniserde::Error::Memory),
        }
    }
}
