//! Reads and writes integers as keys. A key is read from decimal digits, before which a `+` may
//! stand, or a `-` if the type is signed.
ghost use Rattle.std.specs.Prelude.{◌≡◌, Some, true, refl};
ghost use Rattle.std.proofs.Common.{ap};

use super::{InjectiveKey, MapKey, append};
use crate::integers::StdInteger;
use itoa::Buffer;
use miniserde_model::error::{Error, Result};
use std::alloc::Global;

impl<T: StdInteger> MapKey for T {
    ghost content = { T.key };

    ghost read = { T.read_key };

    ghost text = { T.text };

    ghost from_key_infallible = { true };

    ghost alike = { T.alike };

    ghost back = { λ k r. (k, r, T.back k r, refl) };

    ghost one_text = { λ a b e. ap T.text (T.same a b e) };

    fn from_key(_alloc: Global, k: &str) -> Result<T> {
        match T::from_str(k) {
            Ok(n) => Ok(n),
            Err(_error) => Err(Error::Invalid),
        }
    }

    fn to_key(&self, out: &mut String) -> Result<()> {
        Ok(append(out, Buffer::new().format(*self))?)
    }
}

impl<T: StdInteger> InjectiveKey for T {
    ghost injective = { λ a b e. e };
}
