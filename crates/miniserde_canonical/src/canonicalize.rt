//! The functions that return the canonical text of a JSON text.
ghost use Rattle.std.specs.Prelude.{◌≡◌, ◌≤◌, ◌↔◌, ◌⊎◌, true, ℕ, List, length, Err, IfOk, string_bytes};
ghost use Rattle.miniserde_model.specs.Tree.{Tree};
ghost use Rattle.miniserde_model.specs.InRange.{InRange};
ghost use Rattle.miniserde_model.specs.Compact.{compact};
ghost use Rattle.miniserde_model.specs.Distinct.{names_distinct};
ghost use Rattle.miniserde_model.specs.Normal.{norm};
ghost use Rattle.miniserde_model.specs.Size.{size};
ghost use Rattle.miniserde_model.specs.Value.{IsJson};
ghost use Rattle.miniserde_model.specs.declared.error.Error.{Error};

use crate::groups::fill_splices;
use crate::read::draft_of;
use miniserde_model::error::{Error, Result};
use std::alloc::Global;

/// Returns the canonical text of a JSON text. It does not depend on whitespace, on how strings are escaped, or on the
/// order of members with different names; of members with the same name the last stays. A number with a fraction or an
/// exponent, or beyond -2^63 to 2^64-1, keeps its text, and `-0` becomes `0`. Returns `Invalid` if the text is not JSON
/// (RFC 8259), and `Memory` if an allocation fails.
pub fn canonical(alloc: Global, j: &str) -> Result<String>
    // It is the compact text of the normal form of the text's tree.
    ensures ok { IfOk result (λ c. (t : Tree) × IsJson j.now t × (string_bytes c ≡ compact (norm t))) }
    ensures text { IfOk result (λ c. (t : Tree) → IsJson j.now t → string_bytes c ≡ compact (norm t)) }

    // It spells that normal form, whose normal form is itself.
    ensures spells { IfOk result (λ c. (t : Tree) → IsJson j.now t → IsJson (string_bytes c) (norm t)) }
    ensures normal { IfOk result (λ _. (t : Tree) → IsJson j.now t → norm (norm t) ≡ norm t) }

    // Another tree that a text can spell (`InRange`) has the same canonical text exactly if it has the same normal
    // form.
    ensures tells { IfOk result (λ c. (t : Tree) → IsJson j.now t → (u : Tree) → InRange u
        → (string_bytes c ≡ compact (norm u)) ↔ (norm u ≡ norm t)) }

    // No text of a tree with that normal form is shorter.
    ensures shortest { IfOk result (λ c. (t : Tree) → IsJson j.now t → (b : List ℕ) → (u : Tree)
        → IsJson b u → norm u ≡ norm t → length (string_bytes c) ≤ length b) }

    // If the result is `Invalid`, the text has no tree. No text has two trees.
    ensures invalid { result ≡ Err Error.Invalid → (t : Tree) → IsJson j.now t → ⊥ }
    ensures one { (t u : Tree) → IsJson j.now t → IsJson j.now u → t ≡ u }

    // The canonical text of a canonical text is itself, and the result for it is not `Invalid`.
    ensures idempotent { (b : List ℕ) (t : Tree) → IsJson b t → j.now ≡ compact (norm t)
        → IfOk result (λ c. string_bytes c ≡ j.now) × (result ≡ Err Error.Invalid → ⊥) }
{
    let (text, _) = canonicalize(alloc, j)?;
    Ok(text)
}

/// Returns the canonical text of a JSON text without duplicate names. Returns `Invalid` for every other text, and
/// `Memory` if an allocation fails.
pub fn canonical_unique(alloc: Global, j: &str) -> Result<String>
    // It is the compact text of the normal form of the text's tree.
    ensures ok { IfOk result (λ c. (t : Tree) × IsJson j.now t × (string_bytes c ≡ compact (norm t))) }
    ensures text { IfOk result (λ c. (t : Tree) → IsJson j.now t → string_bytes c ≡ compact (norm t)) }

    // It spells that normal form, whose normal form is itself.
    ensures spells { IfOk result (λ c. (t : Tree) → IsJson j.now t → IsJson (string_bytes c) (norm t)) }
    ensures normal { IfOk result (λ _. (t : Tree) → IsJson j.now t → norm (norm t) ≡ norm t) }

    // Another tree that a text can spell (`InRange`) has the same canonical text exactly if it has the same normal
    // form.
    ensures tells { IfOk result (λ c. (t : Tree) → IsJson j.now t → (u : Tree) → InRange u
        → (string_bytes c ≡ compact (norm u)) ↔ (norm u ≡ norm t)) }

    // No text of a tree with that normal form is shorter.
    ensures shortest { IfOk result (λ c. (t : Tree) → IsJson j.now t → (b : List ℕ) → (u : Tree)
        → IsJson b u → norm u ≡ norm t → length (string_bytes c) ≤ length b) }

    // The text's tree has no duplicate name, so its normal form has the same size.
    ensures distinct { IfOk result (λ _. (t : Tree) → IsJson j.now t → names_distinct t ≡ true) }
    ensures size { IfOk result (λ _. (t : Tree) → IsJson j.now t → size (norm t) ≡ size t) }

    // If the result is `Invalid`, the text has no tree without duplicate names. No text has two trees.
    ensures invalid { result ≡ Err Error.Invalid → (t : Tree) → IsJson j.now t → names_distinct t ≡ true → ⊥ }
    ensures one { (t u : Tree) → IsJson j.now t → IsJson j.now u → t ≡ u }

    // The canonical text of a canonical text is itself, and the result for it is not `Invalid`.
    ensures idempotent { (b : List ℕ) (t : Tree) → IsJson b t → j.now ≡ compact (norm t)
        → IfOk result (λ c. string_bytes c ≡ j.now) × (result ≡ Err Error.Invalid → ⊥) }
{
    let (text, is_distinct) = canonicalize(alloc, j)?;
    if is_distinct {
        Ok(text)
    } else {
        Err(Error::Invalid)
    }
}

/// Returns the canonical texts of two JSON texts. They are equal exactly if the trees of the texts have the same
/// normal form. Returns `Invalid` if one of the texts is not JSON, and `Memory` if an allocation fails.
pub fn canonical_both(alloc: Global, a: &str, b: &str) -> Result<(String, String)>
    ensures ok { IfOk result (λ c. (t : Tree) × (u : Tree) × IsJson a.now t × IsJson b.now u
        × (string_bytes c.0 ≡ compact (norm t)) × (string_bytes c.1 ≡ compact (norm u))) }
    ensures tells { IfOk result (λ c. (t u : Tree) → IsJson a.now t → IsJson b.now u
        → (string_bytes c.0 ≡ string_bytes c.1) ↔ (norm t ≡ norm u)) }
    ensures invalid { result ≡ Err Error.Invalid
        → ((t : Tree) → IsJson a.now t → ⊥) ⊎ ((u : Tree) → IsJson b.now u → ⊥) }
{
    Ok((canonical(alloc, a)?, canonical(alloc, b)?))
}

// Returns the canonical text, and whether the tree of the text has no duplicate name. Returns `Invalid` if the text
// is not JSON, and `Memory` if an allocation fails.
fn canonicalize(alloc: Global, j: &str) -> Result<(String, bool)>
    ensures ok { IfOk result (λ r. (t : Tree) × IsJson j.now t × (string_bytes r.0 ≡ compact (norm t))
        × (r.1 ≡ names_distinct t)) }
    ensures invalid { result ≡ Err Error.Invalid → (t : Tree) → IsJson j.now t → ⊥ }
{
    let draft = draft_of(alloc, j)?;
    // Members that were out of order stand sorted in the groups, and a splice in the text marks where they belong.
    let bytes = fill_splices(alloc, draft.out, &draft.groups)?;
    // The bytes are UTF-8: they are the compact text of a tree that a text can spell.
    let text = unsafe { String::from_utf8_unchecked(bytes) };
    Ok((text, draft.is_distinct))
}
