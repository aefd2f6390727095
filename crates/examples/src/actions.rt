//! Callers of an internally tagged enum.
ghost use Rattle.std.specs.Prelude.{◌≡◌, ◌↔◌, true, None, IfOk, Err, codes, option_map, string_bytes};
ghost use Rattle.miniserde.specs.Tree.{Tree, str};
ghost use Rattle.miniserde.specs.Value.{IsJson};
ghost use Rattle.miniserde.specs.Fields.{LastMemberReads};
ghost use Rattle.miniserde.specs.Internal.{object_members};
ghost use Rattle.miniserde.specs.Words.{string_of};
ghost use Rattle.examples.specs.Actions.{said_in};

use crate::action::Action;
use miniserde::json::from_str;
use miniserde::{Error, FromJson, Result};
use std::alloc::Global;

/// Parses an action, and returns what is said, if anything.
pub fn said(alloc: Global, text: &str) -> Result<Option<String>>
    // The text means an action, and the answer is what it says.
    ensures ok { IfOk result (λ said. (t : Tree) × (a : Action) × IsJson text.now t
        × ⟦<Action as FromJson>⟧.means.reads t a × (option_map string_bytes said ≡ said_in a)) }

    // The text means no action.
    ensures invalid { result ≡ Err Error.Invalid → (t : Tree) → IsJson text.now t
        → ⟦<Action as FromJson>⟧.means.from_tree t ≡ None }
{
    let action: Action = from_str(alloc, text)?;
    match action {
        Action::Say(say) => Ok(Some(say.text)),
        _ => Ok(None),
    }
}

/// Parses an action. If it returns true, the last member `kind` of the text is `Ping`.
pub fn is_ping(alloc: Global, text: &str) -> Result<bool>
    // If the answer is yes, each member `kind` of the text is a string, and the last one is `Ping`.
    ensures { IfOk result (λ yes. (t : Tree) × IsJson text.now t × (yes ≡ true
        → LastMemberReads ⊥ (λ u. u ≡ str (codes "Ping")) string_of (codes "kind") (object_members t))) }
{
    let action: Action = from_str(alloc, text)?;
    match action {
        Action::Ping => Ok(true),
        _ => Ok(false),
    }
}
