//! Callers of an enum whose variants may have data, and which trees mean it, in the words of a user.
ghost use Rattle.std.specs.Prelude.{◌≡◌, ◌↔◌, true, None, IfOk, Err, codes};
ghost use Rattle.miniserde.specs.Tree.{Tree, str};
ghost use Rattle.miniserde.specs.Value.{IsJson};
ghost use Rattle.examples.specs.Commands.{IsStep, IsCommand};

use crate::command::{Command, CommandMove};
use miniserde::json::from_str;
use miniserde::{Error, FromJson, Result};
use std::alloc::Global;

/// Parses a command, and returns whether it is `Ping`.
pub fn is_ping(alloc: Global, text: &str) -> Result<bool>
    // The text means a command, and the answer is yes exactly if it is the string `Ping`.
    ensures ok { IfOk result (λ yes. (t : Tree) × (c : Command) × IsJson text.now t
        × ⟦<Command as FromJson>⟧.means.reads t c × ((yes ≡ true) ↔ (t ≡ str (codes "Ping")))) }

    // The text means no command.
    ensures invalid { result ≡ Err Error.Invalid → (t : Tree) → IsJson text.now t
        → ⟦<Command as FromJson>⟧.means.from_tree t ≡ None }
{
    let command: Command = from_str(alloc, text)?;
    match command {
        Command::Ping => Ok(true),
        _ => Ok(false),
    }
}

// Does nothing. It promises which trees mean the data of a `Move`.
fn step_meant()
    ensures { (t : Tree) → (m : CommandMove) → ⟦<CommandMove as FromJson>⟧.means.reads t m ↔ IsStep t m.x m.y }
{}

/// Does nothing. It promises which trees mean a command.
pub fn command_meant()
    ensures { (t : Tree) → (c : Command) → ⟦<Command as FromJson>⟧.means.reads t c ↔ IsCommand t c }
{
    step_meant()
}
