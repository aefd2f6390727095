//! Sets the port in a file of settings, or says which field of it is wrong.
#![tactic(auto)]

mod file;
mod loading;
mod member;

use clap::{Arg, Command, value_parser};
use file::{open_regular, replace, sync_folder};
use loading::{Fault, set_port};
use std::io::ErrorKind;
use std::path::{Path, PathBuf};
use std::process::ExitCode;
use std::{fs, io};

// The status if the words of the command are wrong.
const BAD_WORDS: u8 = 2;

// The status if the file has the new text and a later step failed.
const CHANGED: u8 = 3;

/// Sets the port in the file of a path, and returns the path behind all symlinks. No clause of std says which bytes a file
/// gives: what is promised of its text, and of the text that replaces it, is what `set_port` promises.
fn change(rt: &HostRuntime, path: &str, port: u16) -> io::Result<Result<PathBuf, Fault>> {
    // If the path is a symlink, its target is replaced.
    let path = fs::canonicalize(rt, path)?;
    let file = open_regular(rt, path.as_path())?;
    let old = file.metadata()?;
    let text = io::read_to_string(rt.alloc(), file)?;
    match set_port(rt.alloc(), text.as_str(), port) {
        Ok(changed) => {
            replace(rt, path.as_path(), &old, changed.as_str())?;
            Ok(Ok(path))
        }
        Err(fault) => Ok(Err(fault)),
    }
}

/// Syncs the folder of a file that was changed, and prints its port.
fn confirm(rt: &HostRuntime, file: Path<'_>, path: &str, port: u16) -> ExitCode {
    if let Err(error) = sync_folder(rt, file) {
        let _ = eprintln!(rt;
            "{path}: the port is {port}, but its folder cannot be synced: {error}"
        );
        return ExitCode::from(CHANGED);
    }
    if let Err(error) = println!(rt; "{path}: the port is {port}") {
        let _ = eprintln!(rt; "{path}: the port is {port}, but that cannot be printed: {error}");
        return ExitCode::from(CHANGED);
    }
    ExitCode::SUCCESS
}

/// Sets the port in the file of a path and prints it, or prints why that failed to standard error. With status 1 the file
/// is what it was.
fn run(rt: &HostRuntime, path: &str, port: u16) -> ExitCode {
    match change(rt, path, port) {
        Ok(Ok(file)) => return confirm(rt, file.as_path(), path, port),
        Ok(Err(fault)) => {
            let _ = eprintln!(rt; "{path}: {fault}");
        }
        Err(error) => {
            let _ = eprintln!(rt; "{path}: {error}");
        }
    }
    ExitCode::FAILURE
}

fn main(rt: HostRuntime) -> anyhow::Result<ExitCode> {
    let alloc = rt.alloc();
    let words: Vec<String> = match std::env::args(&rt) {
        Ok(words) => words.collect(alloc)?,
        Err(error) if error.kind() == ErrorKind::InvalidData => {
            let _ = eprintln!(rt; "error: each word must be UTF-8");
            return Ok(ExitCode::from(BAD_WORDS));
        }
        Err(error) => return Err(error.into()),
    };
    let path = Arg::new(alloc, "file").required(true);
    let port = Arg::new(alloc, "port")
        .long("port")
        .value_parser(value_parser!(u16))
        .default_value("8080");
    let command = Command::new(alloc, "settings_app").arg(path)?.arg(port)?;
    let matches = match command.try_get_matches_from(words.as_slice()) {
        Ok(matches) => matches,
        Err(error) => {
            let printed = error.print(&rt);
            if !error.use_stderr() {
                printed?;
            }
            return Ok(ExitCode::from(error.exit_code() as u8));
        }
    };
    match (matches.get_str("file"), matches.get_one::<u16>("port")) {
        (Some(path), Some(port)) => Ok(run(&rt, path, port)),
        _ => Ok(ExitCode::FAILURE),
    }
}
