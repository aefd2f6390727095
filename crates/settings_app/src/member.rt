//! The text of an object with another number as one member.
ghost use Rattle.std.specs.Prelude.{◌≡◌, IfOk, Err, string_bytes};
ghost use Rattle.miniserde.specs.Tree.{Members, members, nonneg};
ghost use Rattle.miniserde.specs.Value.{IsJson};
ghost use Rattle.miniserde.specs.Compact.{compact};
ghost use Rattle.miniserde.specs.Normal.{norm};
ghost use Rattle.settings_app.specs.Changes.{with_member_behind};

use miniserde::json::value::{IntoValue, read_is_normal};
use miniserde::json::{from_str, to_string};
use miniserde::laws::norm_of_members;
use miniserde::{Error, Result, json};
use std::alloc::Global;

/// Returns the canonical text of a text's object with a number as the member of a name. The member replaces all that have
/// the name. Returns `Invalid` if the text spells no object, and `Memory` if an allocation fails.
pub fn with_number(alloc: Global, text: &str, name: &str, number: u16) -> Result<String>
    // The text spells an object, and the answer is the canonical text of that object with the member behind all others.
    ensures ok { IfOk result (λ j. (ms : Members) × IsJson text.now (members ms)
        × IsJson (string_bytes j) (norm (members (with_member_behind name.now (nonneg number) ms)))
        × (string_bytes j ≡ compact (norm (members (with_member_behind name.now (nonneg number) ms))))) }

    // The text spells no object.
    ensures invalid { result ≡ Err Error.Invalid → (ms : Members) → IsJson text.now (members ms) → ⊥ }
{
    norm_of_members();
    read_is_normal();
    let document: json::Value = from_str(alloc, text)?;
    match document.into_object() {
        Some(mut object) => {
            let value = number.into_value(alloc)?;
            object.put(alloc, name, value)?;
            let written = to_string(alloc, &object)?;
            Ok(written)
        }
        None => Err(Error::Invalid),
    }
}
