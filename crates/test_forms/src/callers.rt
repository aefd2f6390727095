//! Callers of types of each form.
ghost use Rattle.std.specs.Prelude.{◌≡◌, ℕ, List, Option, None, Some, IfOk, Err, option_map, string_bytes, vec_len};
ghost use Rattle.miniserde.specs.Tree.{Tree};
ghost use Rattle.miniserde.specs.Value.{IsJson};
ghost use Rattle.test_forms.specs.declared.changes.Change.TheVariants.{Clear, Add, Mark, Deep};
ghost use Rattle.test_forms.specs.declared.commands.Command.TheVariants.{Ping, Text, Move};

use crate::changes::Change;
use crate::commands::Command;
use crate::hosts::Host;
use crate::pages::Page;
use miniserde::json::from_str;
use miniserde::{Error, FromJson, Result, read_itself};
use std::alloc::Global;

/// Parses a page of commands.
pub fn page(alloc: Global, text: &str) -> Result<Page<Command>>
    ensures ok { IfOk result (λ p. (t : Tree) × IsJson text.now t × ⟦<Page<Command> as FromJson>⟧.means.reads t p) }
    ensures invalid { result ≡ Err Error.Invalid → (t : Tree) → IsJson text.now t
        → (p : Page Command) → ⟦<Page<Command> as FromJson>⟧.means.reads t p → ⊥ }
{
    from_str(alloc, text)
}

/// Parses a page of commands, and returns how many there are.
pub fn count_of(alloc: Global, text: &str) -> Result<usize>
    ensures ok { IfOk result (λ n. (t : Tree) × (p : Page Command) × IsJson text.now t
        × ⟦<Page<Command> as FromJson>⟧.means.reads t p × (n ≡ vec_len p.items)) }
    ensures invalid { result ≡ Err Error.Invalid → (t : Tree) → IsJson text.now t
        → (p : Page Command) → ⟦<Page<Command> as FromJson>⟧.means.reads t p → ⊥ }
{
    let page = page(alloc, text)?;
    Ok(page.items.len())
}

/// Parses a command, and returns its text, if it has one.
pub fn text_of(alloc: Global, text: &str) -> Result<Option<String>>
    ensures ok { IfOk result (λ found. (t : Tree) × (c : Command) × IsJson text.now t
        × ⟦<Command as FromJson>⟧.means.reads t c × (option_map string_bytes found
        ≡ elim c as (λ c. Option (List ℕ)) [ Ping ↦ None | Text x ↦ Some (string_bytes x) | Move x y ↦ None ])) }
    ensures invalid { result ≡ Err Error.Invalid → (t : Tree) → IsJson text.now t
        → ⟦<Command as FromJson>⟧.means.from_tree t ≡ None }
{
    let command: Command = from_str(alloc, text)?;
    match command {
        Command::Text(text) => Ok(Some(text)),
        _ => Ok(None),
    }
}

/// Parses a change, and returns the name of the host that it adds, or its note, if it has one.
pub fn note_of(alloc: Global, text: &str) -> Result<Option<String>>
    ensures ok { IfOk result (λ note. (t : Tree) × (c : Change) × IsJson text.now t
        × ⟦<Change as FromJson>⟧.means.reads t c × (option_map string_bytes note
        ≡ elim c as (λ c. Option (List ℕ)) [
          | Clear ↦ None
          | Add x ↦ Some (string_bytes x.name)
          | Mark at note ↦ option_map string_bytes note
          | Deep x ↦ None
        ])) }
    ensures invalid { result ≡ Err Error.Invalid → (t : Tree) → IsJson text.now t
        → ⟦<Change as FromJson>⟧.means.from_tree t ≡ None }
{
    let change: Change = from_str(alloc, text)?;
    match change {
        Change::Clear => Ok(None),
        Change::Add(host) => Ok(Some(host.name)),
        Change::Mark { at: _, note } => Ok(note),
        Change::Deep(_) => Ok(None),
    }
}

/// Writes a change, reads it again, and returns the change that it was.
pub fn change_again(alloc: Global, change: &Change) -> Result<Change>
    ensures { IfOk result (λ c. ⟦<Change as FromJson>⟧.means.content c
        ≡ ⟦<Change as FromJson>⟧.means.content change.now) }
{
    read_itself(alloc, change)
}

/// Parses a host, by today's names or earlier ones, and returns its port.
pub fn port_of(alloc: Global, text: &str) -> Result<u16>
    ensures ok { IfOk result (λ port. (t : Tree) × (h : Host) × IsJson text.now t
        × ⟦<Host as FromJson>⟧.means.reads t h × (port ≡ h.port)) }
    ensures invalid { result ≡ Err Error.Invalid → (t : Tree) → IsJson text.now t
        → (h : Host) → ⟦<Host as FromJson>⟧.means.reads t h → ⊥ }
{
    let host: Host = from_str(alloc, text)?;
    Ok(host.port)
}
