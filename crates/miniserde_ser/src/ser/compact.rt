//! The functions that write one value as a whole text.
ghost use Rattle.std.specs.Prelude.{◌≡◌, true, IfOk, OnErr, IsErrOf, string_bytes};
ghost use Rattle.miniserde_model.specs.Compact.{compact};
ghost use Rattle.miniserde_model.specs.Normal.{norm};
ghost use Rattle.miniserde_model.specs.Value.{IsJson};
ghost use Rattle.miniserde_model.specs.declared.error.Error.TheVariants.{Memory};

use super::{Serialize, Writer};
use miniserde_model::error::Result;
use std::alloc::Global;

/// Returns the compact text of a value: no whitespace, and each string by the escape rule. Returns `Memory` if an
/// allocation fails.
pub fn to_string<T: Serialize>(alloc: Global, value: &T) -> Result<String>
    ensures ok { IfOk result (λ s. string_bytes s ≡ compact (T.tree value.now)) }
    ensures spells { IfOk result (λ s. IsJson (string_bytes s) (T.tree value.now)) }
    ensures memory { OnErr result (IsErrOf result Memory) }
{
    let mut w = Writer::new(alloc);
    value.begin(&mut w)?;
    w.into_string()
}

/// Returns the compact text of a value, and whether the value's tree is known to be in normal form, so that the text is
/// canonical. Returns `Memory` if an allocation fails.
pub fn to_string_and_normal<T: Serialize>(alloc: Global, value: &T) -> Result<(String, bool)>
    ensures ok { IfOk result (λ r. string_bytes r.0 ≡ compact (T.tree value.now)) }
    ensures spells { IfOk result (λ r. IsJson (string_bytes r.0) (T.tree value.now)) }
    ensures normal { IfOk result (λ r. r.1 ≡ true → norm (T.tree value.now) ≡ T.tree value.now) }
    ensures memory { OnErr result (IsErrOf result Memory) }
{
    let mut w = Writer::watching(alloc);
    value.begin(&mut w)?;
    let is_normal = w.is_normal();
    Ok((w.into_string()?, is_normal))
}
