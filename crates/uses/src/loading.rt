//! A loader of settings: read, changed and written, on the contracts of the crate `settings`.
ghost use Rattle.std.specs.Prelude.{◌≡◌, IfOk, Err, string_bytes};
ghost use Rattle.miniserde.specs.Tree.{Tree};
ghost use Rattle.miniserde.specs.Value.{IsJson};
ghost use Rattle.uses.specs.Changes.{at_port};

use miniserde::{Error, FromJson, Result, Serialize};
use settings::loader::{load, save};
use settings::types::Settings;
use std::alloc::Global;

/// The settings of a text at another port, as text again.
pub fn set_port(alloc: Global, text: &str, port: u16) -> Result<String>
    // The text means settings, and the answer spells these at that port.
    ensures ok { IfOk result (λ j. (t : Tree) × (s : Settings) × IsJson text.now t
        × ⟦<Settings as FromJson>⟧.means.reads t s
        × IsJson (string_bytes j) (⟦<Settings as Serialize>⟧.tree (at_port port s))) }

    // No tree of the text means settings.
    ensures invalid { result ≡ Err Error.Invalid
        → (t : Tree) → IsJson text.now t → (s : Settings) → ⟦<Settings as FromJson>⟧.means.reads t s → ⊥ }
{
    let mut settings = load(alloc, text)?;
    settings.port = port;
    let written = save(alloc, &settings)?;
    Ok(written)
}
