//! Reads and writes `String`, `bool` and `char` as keys.
ghost use Rattle.std.specs.Prelude.{true, Some, refl, string_bytes};
ghost use Rattle.std.specs.Char.{encode_utf8};
ghost use Rattle.miniserde_keys.specs.Keys.{of_nat, of_bool, bool_text, read_bool, read_char};
ghost use Rattle.miniserde_keys.specs.laws.Keys.{bool-alike, bool-back, bool-text, char-back, nat-alike, nat-text};

use super::{MapKey, append};
use miniserde_model::error::{Error, Result};
use std::alloc::Global;

impl MapKey for String {
    ghost content = { string_bytes };

    ghost read = { λ k. Some k };

    ghost text = { string_bytes };

    ghost alike = { λ a b. refl };

    ghost back = { λ k r. (k, r, refl, refl) };

    ghost one_text = { λ a b e. e };

    fn from_key(alloc: Global, k: &str) -> Result<String> {
        Ok(String::from_str(alloc, k)?)
    }

    fn to_key(&self, out: &mut String) -> Result<()> {
        Ok(append(out, self)?)
    }

    #[inline(always)]
    fn precedes(&self, later: &String) -> bool {
        self < later
    }
}

impl MapKey for bool {
    ghost content = { of_bool };

    ghost read = { read_bool };

    ghost text = { bool_text };

    ghost from_key_infallible = { true };

    ghost alike = { bool-alike };

    ghost back = { bool-back };

    ghost one_text = { bool-text };

    fn from_key(_alloc: Global, k: &str) -> Result<bool> {
        match k {
            "true" => Ok(true),
            "false" => Ok(false),
            _ => Err(Error::Invalid),
        }
    }

    fn to_key(&self, out: &mut String) -> Result<()> {
        Ok(append(out, if *self { "true" } else { "false" })?)
    }
}

impl MapKey for char {
    ghost content = { of_nat };

    ghost read = { read_char };

    ghost text = { encode_utf8 };

    ghost from_key_infallible = { true };

    ghost alike = { nat-alike };

    ghost back = { char-back };

    ghost one_text = { nat-text encode_utf8 };

    #[tactic(auto, using(crate::specs::laws::Keys::char_reads))]
    fn from_key(_alloc: Global, k: &str) -> Result<char> {
        match k.parse::<char>() {
            Ok(c) => Ok(c),
            Err(_) => Err(Error::Invalid),
        }
    }

    fn to_key(&self, out: &mut String) -> Result<()> {
        Ok(out.push(*self)?)
    }
}
