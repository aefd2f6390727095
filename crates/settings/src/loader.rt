//! Settings, from text and as text.
ghost use Rattle.std.specs.Prelude.{◌≡◌, ◌↔◌, IfOk, Err, string_bytes};
ghost use Rattle.miniserde.specs.Tree.{Tree};
ghost use Rattle.miniserde.specs.Value.{IsJson};
ghost use Rattle.settings.specs.Meaning.{AreSame, IsHost, IsTls, IsSettings};

use crate::parts::{Host, Tls};
use crate::types::Settings;
use miniserde::de::FromJson;
use miniserde::json::{from_str, to_string};
use miniserde::laws::text_has_one_tree;
use miniserde::{Error, Result, Serialize, means_itself};
use std::alloc::Global;

// Does nothing. It promises which trees mean hosts and certificates.
fn parts_meant()
    ensures host { (t : Tree) → (h : Host) → ⟦<Host as FromJson>⟧.means.reads t h ↔ IsHost t h }
    ensures tls { (t : Tree) → (s : Tls) → ⟦<Tls as FromJson>⟧.means.reads t s ↔ IsTls t s }
{}

/// Does nothing. It promises which trees mean settings.
pub fn settings_meant()
    ensures { let host = ⟦<Host as FromJson>⟧.means.from_tree in let tls = ⟦<Tls as FromJson>⟧.means.from_tree in
        (t : Tree) → (s : Settings) → ⟦<Settings as FromJson>⟧.means.reads t s ↔ IsSettings host tls t s }
{
    parts_meant()
}

/// Loads settings from a text. Returns `Invalid` if the text means none, and `Memory` if an allocation fails.
pub fn load(alloc: Global, j: &str) -> Result<Settings>
    // The text spells a tree that means the settings, as their types say, and as `IsSettings` does.
    ensures ok { IfOk result (λ s. (t : Tree) × IsJson j.now t × ⟦<Settings as FromJson>⟧.means.reads t s) }
    ensures meant { let host = ⟦<Host as FromJson>⟧.means.from_tree in let tls = ⟦<Tls as FromJson>⟧.means.from_tree in
        IfOk result (λ s. (t : Tree) × IsJson j.now t × IsSettings host tls t s) }

    // No tree of the text means any settings, by either word.
    ensures invalid { result ≡ Err Error.Invalid
        → (t : Tree) → IsJson j.now t → (s : Settings) → ⟦<Settings as FromJson>⟧.means.reads t s → ⊥ }
    ensures none { let host = ⟦<Host as FromJson>⟧.means.from_tree in let tls = ⟦<Tls as FromJson>⟧.means.from_tree in
        result ≡ Err Error.Invalid → (t : Tree) → IsJson j.now t → (s : Settings) → IsSettings host tls t s → ⊥ }
{
    settings_meant();
    from_str(alloc, j)
}

/// Writes settings as a text. Returns `Memory` if an allocation fails.
pub fn save(alloc: Global, s: &Settings) -> Result<String>
    // The text spells the tree of the settings. The tree means them, and only settings of the same content.
    ensures spells { IfOk result (λ j. IsJson (string_bytes j) (⟦<Settings as Serialize>⟧.tree s.now)) }
    ensures means { ⟦<Settings as FromJson>⟧.means.reads (⟦<Settings as Serialize>⟧.tree s.now) s.now }
    ensures only { (v : Settings) → ⟦<Settings as FromJson>⟧.means.reads (⟦<Settings as Serialize>⟧.tree s.now) v
        → ⟦<Settings as FromJson>⟧.means.content v ≡ ⟦<Settings as FromJson>⟧.means.content s.now }

    // It is refused only for memory.
    ensures memory { result ≡ Err Error.Invalid → ⊥ }
{
    means_itself(s);
    to_string(alloc, s)
}

/// Saves settings and loads them. Returns `Memory` if an allocation fails.
pub fn reloaded(alloc: Global, s: &Settings) -> Result<Settings>
    ensures same { IfOk result (λ v. AreSame v s.now) }
    ensures memory { result ≡ Err Error.Invalid → ⊥ }
{
    text_has_one_tree();
    settings_meant();
    let text = save(alloc, s)?;
    load(alloc, text.as_str())
}
