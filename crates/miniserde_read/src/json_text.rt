//! Reads one value from a whole text.
ghost use Rattle.std.specs.Prelude.{◌≡◌, true, List, ℕ, None, Some, Ok, Err, IfOk, IsUtf8};
ghost use Rattle.miniserde_model.specs.Tree.{Tree};
ghost use Rattle.miniserde_model.specs.Value.{IsJson, HasNoTree};
ghost use Rattle.miniserde_model.specs.declared.error.Error.{Error};
ghost use Rattle.miniserde_read.specs.Escaped.{BeginsWithEscapedString};

use crate::children::read_due;
use crate::from_json::FromJson;
use crate::ignored::skip_due;
use crate::source::Source;
use miniserde_model::error::{Error, Result};
use std::alloc::Global;
use std::str;

/// Reads one JSON value that spans the whole text (RFC 8259, section 2). Returns `Invalid` if the text means no value
/// of the type, and `Memory` if an allocation fails.
pub fn from_str<T: FromJson>(alloc: Global, j: &str) -> Result<T>
    // The text means the value.
    ensures ok { IfOk result (λ v. (t : Tree) × IsJson j.now t × T.means.reads t v) }
    ensures content { IfOk result (λ v.
        (t : Tree) × IsJson j.now t × (T.means.from_tree t ≡ Some (T.means.content v))) }

    // If the result is `Invalid`, the text has no tree, or one that means no value.
    ensures invalid { result ≡ Err Error.Invalid
        → (t : Tree) → IsJson j.now t → (v : T) → T.means.reads t v → ⊥ }
    ensures none { result ≡ Err Error.Invalid → (t : Tree) → IsJson j.now t → T.means.from_tree t ≡ None }

    // If `read_infallible` is true, only a text that begins as a string with a backslash gives
    // `Memory`.
    ensures memory { T.read_infallible ≡ true → result ≡ Err Error.Memory → BeginsWithEscapedString j.now }

    // No text has two trees.
    ensures one { (t u : Tree) → IsJson j.now t → IsJson j.now u → t ≡ u }
{
    let mut source = Source::new(alloc, j);
    let value = read_due::<T>(&mut source)?;
    source.end()?;
    Ok(value)
}

/// Reads one JSON value that spans all the bytes. Returns `Invalid` if they are not UTF-8 (RFC 8259, section 8.1) or
/// mean no value of the type, and `Memory` if an allocation fails.
pub fn from_slice<T: FromJson>(alloc: Global, bytes: &[u8]) -> Result<T>
    // The bytes mean the value.
    ensures ok { IfOk result (λ v. (t : Tree) × IsJson bytes.now t × T.means.reads t v) }
    ensures content { IfOk result (λ v.
        (t : Tree) × IsJson bytes.now t × (T.means.from_tree t ≡ Some (T.means.content v))) }

    // If the result is `Invalid`, the bytes have no tree, or one that means no value.
    ensures invalid { result ≡ Err Error.Invalid
        → (t : Tree) → IsJson bytes.now t → (v : T) → T.means.reads t v → ⊥ }
    ensures none { result ≡ Err Error.Invalid → (t : Tree) → IsJson bytes.now t → T.means.from_tree t ≡ None }

    // Bytes that are not UTF-8 are `Invalid`, never `Memory`.
    ensures utf8 { (IsUtf8 bytes.now → ⊥) → result ≡ Err Error.Invalid }

    // If `read_infallible` is true, only bytes that begin as a string with a backslash give `Memory`.
    ensures memory { T.read_infallible ≡ true → result ≡ Err Error.Memory → BeginsWithEscapedString bytes.now }

    // No bytes have two trees.
    ensures one { (t u : Tree) → IsJson bytes.now t → IsJson bytes.now u → t ≡ u }
{
    match str::from_utf8(bytes) {
        Ok(text) => from_str(alloc, text),
        Err(_) => Err(Error::Invalid),
    }
}

/// Returns `Invalid` if the text is not JSON (RFC 8259, section 2), and `Memory` if an allocation fails. Allocates 32
/// bytes for up to 256 levels of depth, at most two bits a level beyond that (three while they grow), and nothing for
/// strings.
pub fn check_json(alloc: Global, j: &str) -> Result<()>
    ensures ok { IfOk result (λ _. (t : Tree) × IsJson j.now t) }
    ensures invalid { result ≡ Err Error.Invalid → HasNoTree j.now }
{
    let mut whole = Source::new(alloc, j);
    skip_due(&mut whole)?;
    whole.end()?;
    Ok(())
}
