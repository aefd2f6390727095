//! A cache by what a document says: its canonical text is the key, so that each of its spellings finds the answer.
ghost use Rattle.std.specs.Prelude.{◌≡◌, ℕ, List, IfOk, OnOk, OnErr, Err, Some};
ghost use Rattle.std.specs.BTreeMap.{get_by_text, IsUnchanged};
ghost use Rattle.miniserde.specs.Tree.{Tree};
ghost use Rattle.miniserde.specs.Value.{IsJson};
ghost use Rattle.miniserde.specs.Compact.{compact};
ghost use Rattle.miniserde.specs.Normal.{norm};

use miniserde::json::canonical;
use miniserde::{Error, Result};
use std::alloc::Global;
use std::collections::BTreeMap;

/// Keeps the answer for a document.
pub fn insert(
    alloc: Global,
    answers: &mut BTreeMap<String, u64>,
    text: &str,
    answer: u64,
) -> Result<()>
    // It stands at the text of the document's normal form, and what stands elsewhere stays.
    ensures ok { OnOk result ((t : Tree) × IsJson text.now t × (get_by_text answers.new (compact (norm t)) ≡ Some answer)
        × ((other : List ℕ) → (other ≡ compact (norm t) → ⊥) → get_by_text answers.new other ≡ get_by_text answers.old other)) }

    // A refusal changes no answer, and one as invalid means that the text is no JSON.
    ensures err { OnErr result (IsUnchanged answers.old answers.new) }
    ensures invalid { result ≡ Err Error.Invalid → (t : Tree) → IsJson text.now t → ⊥ }
{
    answers.insert(canonical(alloc, text)?, answer)?;
    Ok(())
}

/// The answer that is kept for a document, in whatever spelling.
pub fn find(alloc: Global, answers: &BTreeMap<String, u64>, text: &str) -> Result<Option<u64>>
    // It is what stands at the text of the document's normal form, which all its spellings share.
    ensures ok { IfOk result (λ answer. (t : Tree) × IsJson text.now t × (answer ≡ get_by_text answers.now (compact (norm t)))) }

    // The text is no JSON.
    ensures invalid { result ≡ Err Error.Invalid → (t : Tree) → IsJson text.now t → ⊥ }
{
    let key = canonical(alloc, text)?;
    Ok(answers.get(key.as_str()).copied())
}
