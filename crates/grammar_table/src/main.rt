//! Runs a table of texts, which was written from the grammar of RFC 8259, through the program `canon`, and says how
//! many answers are other than the table says. `data/table.txt` says at its head how it is to be read.
#![tactic(auto)]

mod answer;
mod notation;
mod row;

use answer::Answer;
use row::{Row, Verdict};
use std::process::ExitCode;
use std::{fs, io};

/// The table, in the folder that the program is run in.
const TABLE: &str = "table.txt";

/// How many rows have each outcome.
#[derive(Clone, Copy, Default)]
struct Tally {
    /// Accepted, as the table says.
    accepted: u64,
    /// Refused, as the table says.
    refused: u64,
    /// Other than the table says, or no row of a table.
    other: u64,
}

impl Tally {
    /// Runs one row and counts it, and prints it where the answer is other than it says, or where it is no row.
    fn count(
        &mut self,
        rt: &(impl Print + AllocGlobal),
        number: u64,
        line: &str,
    ) -> io::Result<()> {
        let Some(row) = Row::parse(rt.alloc(), line)? else {
            self.other = self.other.saturating_add(1);
            println!(rt; "line {number}: no row of a table")?;
            return Ok(());
        };
        let answer = Answer::of(rt.alloc(), row.text.as_slice());
        if !answer.agrees_with(&row.verdict) {
            self.other = self.other.saturating_add(1);
            println!(rt; "line {number}, {}: came {answer}", row.rule)?;
            return Ok(());
        }
        let counter = match row.verdict {
            Verdict::Accepted(_) => &mut self.accepted,
            Verdict::Refused => &mut self.refused,
        };
        *counter = counter.saturating_add(1);
        Ok(())
    }
}

/// Prints the differences and then the counts; the status is 1 where there was a difference.
fn main(rt: HostRuntime) -> io::Result<ExitCode> {
    let table = fs::read_to_string(&rt, TABLE)?;
    let mut tally = Tally::default();
    let mut number = 0u64;
    for line in table.as_str().lines() {
        number = number.saturating_add(1);
        if !line.is_empty() && !line.starts_with('#') {
            tally.count(&rt, number, line)?;
        }
    }
    let Tally {
        accepted,
        refused,
        other,
    } = tally;
    println!(rt; "accepted: {accepted}, refused: {refused}, other than the table says: {other}")?;
    Ok(if other == 0 {
        ExitCode::SUCCESS
    } else {
        ExitCode::FAILURE
    })
}
