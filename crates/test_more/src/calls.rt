//! A caller that reads, changes and writes.
ghost use Rattle.std.specs.Prelude.{◌≡◌, [], ◌∷◌, codes, IfOk, string_bytes};
ghost use Rattle.miniserde.specs.Tree.{Tree};
ghost use Rattle.miniserde.specs.Value.{IsJson};
ghost use Rattle.miniserde.specs.Compact.{compact};
ghost use Rattle.miniserde.specs.Normal.{norm};
ghost use Rattle.miniserde_more.specs.Rest.{KeepsOthers};
ghost use Rattle.test_more.specs.Changes.{with_name, with_port};

use crate::peers::{Peer, PeerFields};
use crate::settings::{Settings, SettingsFields};
use miniserde::derived::{Ranged, Record};
use miniserde::json::{Document, from_str, to_string};
use miniserde::{FromJson, Result, Serialize};
use miniserde_more::rest::{NoNames, aliased_rest_is_kept, rest_is_kept};
use std::alloc::Global;

// Does nothing. It promises that settings that are read are written at another port with all other members.
fn others_stay()
    ensures { (t : Tree) (s : Settings) (port : _) → ⟦<Settings as FromJson>⟧.means.reads t s
        → ⟦<Settings as Ranged>⟧.valid s
        → KeepsOthers ⟦<Settings as Record>⟧.names t (⟦<Settings as Serialize>⟧.tree (with_port port s)) }
{
    rest_is_kept::<Settings, SettingsFields, Document, NoNames>()
}

// Does nothing. It promises that a peer that is read is written by another name with all members that are neither a field's
// nor an alias's.
fn labels_stay()
    ensures { (t : Tree) (p : Peer) (name : _) → ⟦<Peer as FromJson>⟧.means.reads t p → ⟦<Peer as Ranged>⟧.valid p
        → KeepsOthers (codes "host" ∷ codes "hostname" ∷ codes "p" ∷ codes "name" ∷ codes "port" ∷ []) t
        (⟦<Peer as Serialize>⟧.tree (with_name name p)) }
{
    aliased_rest_is_kept::<Peer, PeerFields, Document, NoNames>()
}

/// Returns the text of settings at another port. All other members are as they were in the text, in normal form. Returns
/// `Invalid` if the text means no settings, and `Memory` if an allocation fails.
pub fn at_port(alloc: Global, text: &str, port: u16) -> Result<String>
    // The text means settings, and the answer is the compact text of these settings at that port. At each name that is no
    // field's, its tree has the normal form of what the text's tree has there.
    ensures ok { IfOk result (λ j. (t : Tree) × (s : Settings) × IsJson text.now t
        × ⟦<Settings as FromJson>⟧.means.reads t s
        × (string_bytes j ≡ compact (⟦<Settings as Serialize>⟧.tree (with_port port s)))
        × KeepsOthers ⟦<Settings as Record>⟧.names t (⟦<Settings as Serialize>⟧.tree (with_port port s))) }
{
    others_stay();
    let mut settings: Settings = from_str(alloc, text)?;
    settings.ranged();
    settings.port = port;
    let written = to_string(alloc, &settings)?;
    Ok(written)
}
