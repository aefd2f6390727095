//! The ways to tell why a body means no value.
ghost use Rattle.std.specs.Prelude.{◌≡◌, Ok, true, false, IfOk};
ghost use Rattle.miniserde.specs.Tree.{Tree};
ghost use Rattle.miniserde.specs.Value.{IsJson};
ghost use Rattle.store.specs.Answered.{MeansNoValue};
ghost use Rattle.store.specs.Reasons.{IsReason};

use crate::reason::Reason;
use miniserde::de::Ignored;
use miniserde::json::from_slice;
use miniserde::{Error, FromJson, Result};
use refused::{FieldByField, wrong_field};
use std::alloc::Global;
use std::str;

/// A way to tell why a body means no value of the type `V`.
pub trait Explain<V: FromJson> {
    /// Returns the reason of a body that means no value. Returns `Memory` if an allocation fails.
    fn explain(alloc: Global, body: &[u8]) -> Result<Reason>
        requires { MeansNoValue V.means body.now }
        ensures { IfOk result (λ reason. IsReason V.means body.now reason) };
}

/// Tells, for any type, whether the body is JSON.
pub struct ByValue {}

/// Tells which field is wrong, of a struct that is marked `refused`.
pub struct ByField {}

// Returns whether the body is a JSON text. Returns `Memory` if an allocation fails.
fn is_json(alloc: Global, body: &[u8]) -> Result<bool>
    ensures yes { result ≡ Ok true → (t : Tree) × IsJson body.now t }
    ensures no { result ≡ Ok false → (t : Tree) → IsJson body.now t → ⊥ }
{
    match from_slice::<Ignored>(alloc, body) {
        Ok(_) => Ok(true),
        Err(Error::Invalid) => Ok(false),
        Err(error) => Err(error),
    }
}

impl<V: FromJson> Explain<V> for ByValue {
    fn explain(alloc: Global, body: &[u8]) -> Result<Reason> {
        if is_json(alloc, body)? {
            return Ok(Reason::NoValue);
        }
        Ok(Reason::NoJson)
    }
}

impl<V: FieldByField> Explain<V> for ByField {
    fn explain(alloc: Global, body: &[u8]) -> Result<Reason> {
        let Ok(text) = str::from_utf8(body) else {
            return Ok(Reason::NoJson);
        };
        match wrong_field::<V>(alloc, text)? {
            Some(path) => Ok(Reason::Field(path)),
            None => Ok(Reason::NoJson),
        }
    }
}
