//! What the program answers to a text.

use crate::notation::Spelled;
use crate::row::Verdict;
use miniserde_program::canon::{Counted, program};
use std::alloc::Global;
use std::fmt;

/// How a run of the program ended.
#[derive(Drop)]
pub struct Answer {
    /// The exit status.
    status: u8,
    /// The line on standard error, which is empty for none.
    line: &'static str,
    /// What went to standard output.
    written: Vec<u8>,
}

impl Answer {
    /// Runs the program on a text, with no argument.
    pub fn of(alloc: Global, text: &[u8]) -> Answer {
        let none: [String; 0] = [];
        let mut reader = Counted::new(text);
        let mut writer = Counted::new(Vec::new(alloc));
        let (status, line) = program(alloc, &none, &mut reader, &mut writer);
        let written = writer.into_inner();
        Answer {
            status,
            line,
            written,
        }
    }

    /// Whether it is what the table says, in its status, its line and what was written.
    pub fn agrees_with(&self, verdict: &Verdict) -> bool {
        let (status, line, written) = match verdict {
            Verdict::Accepted(canonical) => (0, "", canonical.as_slice()),
            Verdict::Refused => (1, "canon: invalid text", [].as_slice()),
        };
        self.status == status && self.line == line && self.written.as_slice() == written
    }
}

impl fmt::Display for Answer {
    fn fmt<W: fmt::Write>(&self, f: &mut fmt::Formatter<W>) -> fmt::Result {
        let written = Spelled(self.written.as_slice());
        write!(
            f,
            "status {}, line \"{}\", text {written}",
            self.status, self.line
        )
    }
}
