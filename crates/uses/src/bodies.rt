//! The body of a request: a struct with an optional text, a map and a part of any shape.
ghost use Rattle.std.specs.Prelude.{◌≡◌, IfOk, Err, String, string_bytes};
ghost use Rattle.miniserde.specs.Tree.{Tree};
ghost use Rattle.miniserde.specs.Value.{IsJson};
ghost use Rattle.uses.specs.Changes.{with_note};

use crate::request::Request;
use miniserde::json::{from_str, to_string};
use miniserde::{Error, FromJson, Result, Serialize};
use std::alloc::Global;

/// The request of a body with a note, as text again.
pub fn add_note(alloc: Global, body: &str, note: &str) -> Result<String>
    // The body means a request, and the answer spells it with that note and its other fields
    // as they were. A member that is no field is not in the answer.
    ensures ok { IfOk result (λ j. (t : Tree) × (v : Request) × (n : String Global) × IsJson body.now t
        × ⟦<Request as FromJson>⟧.means.reads t v × (string_bytes n ≡ note.now)
        × IsJson (string_bytes j) (⟦<Request as Serialize>⟧.tree (with_note n v))) }

    // No tree of the body means a request.
    ensures invalid { result ≡ Err Error.Invalid
        → (t : Tree) → IsJson body.now t → (v : Request) → ⟦<Request as FromJson>⟧.means.reads t v → ⊥ }
{
    let mut request: Request = from_str(alloc, body)?;
    request.note = Some(String::from_str(alloc, note)?);
    let written = to_string(alloc, &request)?;
    Ok(written)
}
