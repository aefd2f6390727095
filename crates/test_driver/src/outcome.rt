//! What a job comes to.

use miniserde::{Error, Result};
use std::alloc::Global;

/// The result of a job, and the text that it leaves: the one that it made, or the one that a failed call was to append
/// to or to copy.
#[derive(Drop)]
pub struct Outcome {
    pub result: Result<()>,
    pub text: String,
}

impl Outcome {
    /// The outcome of a call that makes a text.
    pub fn of(alloc: Global, made: Result<String>) -> Outcome {
        match made {
            Ok(text) => Outcome {
                result: Ok(()),
                text,
            },
            Err(error) => Outcome {
                result: Err(error),
                text: String::new(alloc),
            },
        }
    }

    /// The result in one word.
    pub fn word(&self) -> &'static str {
        match self.result {
            Ok(()) => "ok",
            Err(Error::Memory) => "memory",
            Err(Error::Invalid) => "invalid",
        }
    }
}
