//! The trait `MapKey` of types whose values are the names of members, and its implementations for std's types.
ghost use Rattle.std.specs.Prelude.{◌≡◌, ◌<◌, ◌+◌, ◌++◌, ℕ, Bool, true, false, List, Option, Some, None, Ok, Err};
ghost use Rattle.std.specs.Prelude.{IfOk, IfErr, OnOk, OnErr, IsErrOf, option_map, length, string_bytes, string_len};
ghost use Rattle.std.specs.Prelude.{string_capacity};
ghost use Rattle.std.specs.Str.{bytes_eq};
ghost use Rattle.std.specs.declared.cmp.Ordering.TheVariants.{Less};
ghost use Rattle.miniserde_keys.specs.Keys.{Key};
ghost use Rattle.miniserde_model.specs.Normal.{text_cmp};
ghost use Rattle.miniserde_model.specs.declared.error.Error.{Error};
ghost use Rattle.miniserde_model.specs.declared.error.Error.TheVariants.{Memory};

mod injective;
mod integers;
mod words;

use crate::ranged::Ranged;
pub use injective::InjectiveKey;
use miniserde_model::error::Result;
use std::alloc::{AllocError, Global};
use std::result;

/// A type whose values are written as the names of an object's members.
pub trait MapKey: Ranged + Sized + Eq + Drop {
    // The content of a key: the part that contracts compare, as a list of numbers.
    ghost content: { Self → Key };

    // The part of the content that `Eq` compares; all of it by default.
    ghost code: { Key → Key } = { λ c. c };

    // The content of the key that a text is read as, if any.
    ghost read: { List ℕ → Option Key };

    // The text of a key.
    ghost text: { Self → List ℕ };

    // If true, `from_key` never returns `Memory`.
    ghost from_key_infallible: { Bool } = { false };

    /// Reads a key from the name of a member. Fails if the name is no key of the type, or if an allocation fails.
    /// Returns `Invalid` only if the name is no key.
    fn from_key(alloc: Global, k: &str) -> Result<Self>
        ensures value { IfOk result (λ v. read k.now ≡ Some (content v)) }
        ensures invalid { result ≡ Err Error.Invalid → read k.now ≡ None }
        ensures infallible { from_key_infallible ≡ true → IfErr result (λ e. e ≡ Error.Invalid) };

    /// Appends the text of the key to `out`. If `out` cannot grow, returns `Memory` and leaves its text unchanged.
    fn to_key(&self, out: &mut String) -> Result<()>
        ensures ok { OnOk result (string_bytes out.new ≡ string_bytes out.old ++ text self.now) }
        ensures memory { OnErr result (IsErrOf result Memory) }
        ensures err { OnErr result (string_bytes out.new ≡ string_bytes out.old) }
        ensures room { OnErr result (string_capacity out.old < string_len out.old + length (text self.now)) };

    /// Whether the key's name is known to come before the name of `later` in byte order. If the result is `false`,
    /// nothing is said of the two; so it is by default.
    fn precedes(&self, later: &Self) -> bool
        ensures { result ≡ true → text_cmp (text self.now) (text later.now) ≡ Less }
    {
        let _unknown = later;
        false
    }

    // Keys are equal exactly if their codes are.
    ghost alike: { (a b : Self) → Self.eq a b ≡ bytes_eq (code (content a)) (code (content b)) };

    // The text of a valid key is read as a valid key that is equal.
    ghost back: { (k : Self) → Self.valid k
        → (w : Self) × Self.valid w × (read (text k) ≡ Some (content w)) × (code (content w) ≡ code (content k)) };

    // Equal keys have the same text.
    ghost one_text: { (a b : Self) → code (content a) ≡ code (content b) → text a ≡ text b };
}

// Appends `text` to `out`. If `out` cannot grow, fails and leaves its text unchanged.
fn append(out: &mut String, text: &str) -> result::Result<(), AllocError>
    ensures ok { OnOk result (string_bytes out.new ≡ string_bytes out.old ++ text.now) }
    ensures err { OnErr result (string_bytes out.new ≡ string_bytes out.old) }
    ensures room { OnErr result (string_capacity out.old < string_len out.old + length text.now) }
{
    out.push_str(text)
}
