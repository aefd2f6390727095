//! Bodies of requests, signed over their canonical text.
ghost use Rattle.std.specs.Prelude.{◌≡◌, ◌↔◌, ℕ, List, IfOk, IfSome, Ok, Err, None, true, string_bytes};
ghost use Rattle.miniserde.specs.Compact.{compact};
ghost use Rattle.miniserde.specs.Normal.{norm};
ghost use Rattle.miniserde.specs.Tree.{Tree};
ghost use Rattle.miniserde.specs.Value.{IsJson};

use miniserde::json::read_canonical;
use miniserde::laws::{norm_is_normal, text_has_one_tree};
use miniserde::{Error, Lossless, Result, Stable, canonical_text_determines_content};
use std::alloc::Global;

/// A signature, and how it is checked.
pub trait Signature {
    // The texts that it signs.
    ghost signed: { Self → List ℕ → Type 0 };

    /// Returns whether it signs a text.
    fn is_of(&self, text: &str) -> bool
        ensures { (result ≡ true) ↔ Self.signed self.now text.now };
}

/// Returns the value of a body, if the canonical text of the body is signed.
pub fn accepted<T: Stable + Lossless, S: Signature>(
    alloc: Global,
    signature: &S,
    body: &str,
) -> Result<Option<T>>
    // The body means the value, and its canonical text is signed.
    ensures value { IfOk result (λ answer. IfSome answer (λ read. (t : Tree) × IsJson body.now t × T.means.reads t read
        × S.signed signature.now (compact (norm t)))) }

    // A text that means the value is signed. If it is the canonical text of a value, the answer has its content.
    ensures some { IfOk result (λ answer. IfSome answer (λ read. (text : List ℕ) × S.signed signature.now text
        × ((u : Tree) × IsJson text u × T.means.reads u read)
        × ((v : T) → T.valid v → IsJson text (norm (T.tree v)) → T.means.content read ≡ T.means.content v))) }

    // The canonical text of the body is not signed.
    ensures none { result ≡ Ok None → (t : Tree) → IsJson body.now t → S.signed signature.now (compact (norm t)) → ⊥ }

    // The body means no value.
    ensures invalid { result ≡ Err Error.Invalid → (t : Tree) → IsJson body.now t → (v : T) → T.means.reads t v → ⊥ }
{
    canonical_text_determines_content::<T>();
    text_has_one_tree();
    norm_is_normal();
    let (value, canonical) = read_canonical::<T>(alloc, body)?;
    if signature.is_of(canonical.as_str()) {
        Ok(Some(value))
    } else {
        Ok(None)
    }
}

/// A signature for examples: the text that it signs.
#[derive(Drop)]
pub struct Known {
    pub text: String,
}

impl Signature for Known {
    ghost signed = { λ known text. string_bytes known.text ≡ text };

    fn is_of(&self, text: &str) -> bool {
        self.text.as_str() == text
    }
}
