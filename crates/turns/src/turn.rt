//! What a connection waits for after its turn.
ghost use Rattle.std.specs.Prelude.{◌≡◌, IsTrue};
ghost use Rattle.turns.specs.Shared.{has_written, has_more};

use std::io;
use std::io::ErrorKind;

/// A turn makes at most this many reads, and at most this many writes, so that others have theirs.
pub(crate) const MAX_STEPS: u32 = 16;

/// What a connection waits for after its turn.
#[derive(Clone, Copy, PartialEq, Eq, Debug, Drop)]
pub enum Turn {
    /// The stream has no more to read, or no room to write.
    Waits {
        /// The turn wrote a part of a response.
        wrote: bool,
    },
    /// There may be more to do, in another turn.
    More {
        /// The turn wrote a part of a response.
        wrote: bool,
    },
    /// HTTP has nothing more to do, or the stream failed: close it.
    Done,
}

impl Turn {
    /// Returns whether the turn wrote a part of a response.
    pub fn wrote(self) -> bool
        ensures { result ≡ has_written self }
    {
        match self {
            Turn::Waits { wrote } | Turn::More { wrote } => wrote,
            Turn::Done => false,
        }
    }

    /// Returns whether there may be more to do, in another turn.
    pub fn goes_on(self) -> bool
        ensures { result ≡ has_more self }
    {
        match self {
            Turn::More { .. } => true,
            _ => false,
        }
    }
}

// Returns what a connection waits for after an error of its stream.
pub(crate) fn after(error: &io::Error, wrote: bool) -> Turn
    ensures { IsTrue (has_written result) → IsTrue wrote }
{
    match error.kind() {
        ErrorKind::WouldBlock => Turn::Waits { wrote },
        ErrorKind::Interrupted => Turn::More { wrote },
        _ => Turn::Done,
    }
}
