//! A key that is written in lower case, and read in either.
ghost use Rattle.std.specs.Prelude.{◌≡◌, map, refl, string_bytes};
ghost use Rattle.std.specs.Char.{to_ascii_lowercase};
ghost use Rattle.test_types.specs.Letters.{are_letters, AreLower, read_letters};
ghost use Rattle.test_types.specs.laws.Letters.{lower-alike, lower-back};

use miniserde::de::{MapKey, Ranged};
use miniserde::{Error, Result};
use std::alloc::Global;

// One letter of ASCII or more.
fn are_letters(text: &str) -> bool
    ensures { result ≡ are_letters text.now }
{
    !text.is_empty() && text.as_bytes().iter().all(|b| b.is_ascii_alphabetic())
}

/// One letter of ASCII or more, in lower case.
#[derive(PartialEq, Eq, PartialOrd, Ord, Drop)]
pub struct Lower {
    letters: String,
    pub ghost lower: { AreLower (string_bytes letters) },
}

impl Ranged for Lower {
    ghost valid = { λ k. AreLower (string_bytes k.letters) };

    fn ranged(&self) {
        let _letters = self.letters.as_str();
    }
}

impl MapKey for Lower {
    ghost content = { λ k. string_bytes k.letters };

    // Keys are alike whatever their case, and so have one text.
    ghost code = { map to_ascii_lowercase };

    ghost read = { read_letters };

    ghost text = { λ k. map to_ascii_lowercase (string_bytes k.letters) };

    ghost one_text = { λ a b e. e };

    ghost alike = { λ a b. lower-alike (string_bytes a.letters) (string_bytes b.letters) a.lower b.lower };

    ghost back = { λ k r. (k, r, lower-back (string_bytes k.letters) r, refl) };

    fn from_key(alloc: Global, k: &str) -> Result<Lower> {
        if !are_letters(k) {
            return Err(Error::Invalid);
        }
        Ok(Lower {
            letters: k.to_ascii_lowercase(alloc)?,
        })
    }

    fn to_key(&self, out: &mut String) -> Result<()> {
        Ok(out.push_str(self.letters.as_str())?)
    }
}
