//! Reads a value with its canonical text, and writes the canonical text of a value.
ghost use Rattle.std.specs.Prelude.{◌≡◌, ℕ, List, IfOk, OnErr, IsErrOf, Err, string_bytes};
ghost use Rattle.miniserde_model.specs.Compact.{compact};
ghost use Rattle.miniserde_model.specs.Normal.{norm};
ghost use Rattle.miniserde_model.specs.Tree.{Tree};
ghost use Rattle.miniserde_model.specs.Value.{IsJson};
ghost use Rattle.miniserde_model.specs.declared.error.Error.{Error};

use crate::stable::{Stable, means_in_normal_form};
use miniserde_canonical::canonical;
use miniserde_model::error::Result;
use miniserde_model::{canonical_texts_equal, json_in_range};
use miniserde_read::from_str;
use miniserde_ser::ser::{Serialize, to_string_and_normal};
use std::alloc::Global;

/// Reads one JSON value that spans the whole text, and returns it with the canonical text of that text. Returns
/// `Invalid` if the text means no value of the type, and `Memory` if an allocation fails.
pub fn read_canonical<T: Stable>(alloc: Global, j: &str) -> Result<(T, String)>
    // The text means the value, and has that canonical text.
    ensures ok { IfOk result (λ r. (t : Tree) × IsJson j.now t × T.means.reads t r.0
        × (string_bytes r.1 ≡ compact (norm t))) }

    // The canonical text means the value too.
    ensures canonical { IfOk result (λ r. (u : Tree) × IsJson (string_bytes r.1) u × T.means.reads u r.0) }

    // Each text with that canonical text means a value of the same content, or none.
    ensures one { IfOk result (λ r. (b : List ℕ) (u : Tree) (w : T) → IsJson b u → string_bytes r.1 ≡ compact (norm u)
        → T.means.reads u w → T.means.content w ≡ T.means.content r.0) }

    // If the result is `Invalid`, the text means no value.
    ensures invalid { result ≡ Err Error.Invalid → (t : Tree) → IsJson j.now t → (v : T) → T.means.reads t v → ⊥ }
{
    means_in_normal_form::<T>();
    json_in_range();
    let value: T = from_str(alloc, j)?;
    let text = canonical(alloc, j)?;
    Ok((value, text))
}

/// Returns the canonical text of a value: the compact text of the normal form of its tree. If the writer knows that the
/// tree is in normal form, the text is the one that the value writes. Returns `Memory` if an allocation fails.
pub fn canonical_of<T: Serialize>(alloc: Global, value: &T) -> Result<String>
    ensures ok { IfOk result (λ c. string_bytes c ≡ compact (norm (T.tree value.now))) }
    ensures spells { IfOk result (λ c. IsJson (string_bytes c) (norm (T.tree value.now))) }

    // A text with that canonical text spells a tree with the same normal form as the value's tree.
    ensures tells { IfOk result (λ c. (b : List ℕ) (u : Tree) → IsJson b u → string_bytes c ≡ compact (norm u)
        → norm u ≡ norm (T.tree value.now)) }
    ensures memory { OnErr result (IsErrOf result Error.Memory) }
{
    canonical_texts_equal();
    let (text, is_normal) = to_string_and_normal(alloc, value)?;
    if is_normal {
        return Ok(text);
    }
    canonical(alloc, text.as_str())
}
