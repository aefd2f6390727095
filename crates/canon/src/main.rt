//! Reads a JSON text on standard input, and writes its canonical text on standard output.
#![tactic(auto)]

use miniserde_program::canon::{Counted, program};
use std::process::ExitCode;
use std::{env, io};

/// The words after the program's name.
fn words(rt: &(impl std::rt::Env + AllocGlobal)) -> io::Result<Vec<String>> {
    let mut words = Vec::new(rt.alloc());
    for word in env::args(rt)?.skip(1) {
        words.push(word)?;
    }
    Ok(words)
}

fn main(rt: HostRuntime) -> ExitCode {
    let (status, line) = match words(&rt) {
        Ok(words) => {
            let mut r = Counted::new(rt.stdin());
            let mut w = Counted::new(rt.stdout());
            program(rt.alloc(), words.as_slice(), &mut r, &mut w)
        }
        Err(_) => (3, "canon: out of memory"),
    };
    if !line.is_empty() {
        let _ = eprintln!(rt; "{line}");
    }
    ExitCode::from(status)
}
