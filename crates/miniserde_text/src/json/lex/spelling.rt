//! What the scratch text gets for a string that has a backslash: its text, that text by the escape rule, or nothing.
ghost use Rattle.std.specs.Prelude.{◌≡◌, ◌++◌, ℕ, List, [], Bool, true, false, refl, OnOk, OnErr, string_bytes};
ghost use Rattle.std.specs.List.{AllByRecursion};
ghost use Rattle.std.specs.Char.{encode_utf8};
ghost use Rattle.miniserde_model.specs.Bytes.{is_special};

use crate::escape::push_escaped;
use std::alloc::AllocError;

/// What the scratch text gets for a string that has a backslash.
pub(super) trait Spelling {
    // The bytes that it gets for a text.
    ghost spelled: { List ℕ → List ℕ };

    // Those for two texts, one behind the other, are those for each.
    ghost joins: { (a b : List ℕ) → spelled (a ++ b) ≡ spelled a ++ spelled b };

    // If true, no call fails.
    ghost infallible: { Bool } = { false };

    /// Appends what it gets for a run of bytes that need no escape. Fails if the scratch text cannot grow.
    fn push_run(scratch: &mut String, run: &str) -> Result<(), AllocError>
        ensures ok { OnOk result (AllByRecursion (λ c. is_special c ≡ false) run.now
            → string_bytes scratch.new ≡ string_bytes scratch.old ++ spelled run.now) }
        ensures infallible { infallible ≡ true → OnErr result ⊥ };

    /// Appends what it gets for a character. Fails if the scratch text cannot grow.
    fn push(scratch: &mut String, c: char) -> Result<(), AllocError>
        ensures ok { OnOk result (string_bytes scratch.new ≡ string_bytes scratch.old ++ spelled (encode_utf8 c)) }
        ensures infallible { infallible ≡ true → OnErr result ⊥ };
}

/// The text of the string.
pub(super) struct Decoded;

impl Spelling for Decoded {
    ghost spelled = { λ text. text };

    ghost joins = { λ a b. refl };

    fn push_run(scratch: &mut String, run: &str) -> Result<(), AllocError> {
        // A run is often empty.
        if !run.is_empty() {
            scratch.push_str(run)?;
        }
        Ok(())
    }

    #[inline(always)]
    fn push(scratch: &mut String, c: char) -> Result<(), AllocError> {
        scratch.push(c)
    }
}

/// The text of the string by the escape rule, as it stands between quotes.
pub(super) struct Escaped;

impl Spelling for Escaped {
    ghost use Rattle.miniserde_text.specs.private.Escape.{escapes};
    ghost use Rattle.miniserde_text.specs.laws.Escapes.{escapes-append};

    ghost spelled = { escapes };

    ghost joins = { escapes-append };

    fn push_run(scratch: &mut String, run: &str) -> Result<(), AllocError> {
        Decoded::push_run(scratch, run)?;
        Ok(())
    }

    #[inline(always)]
    fn push(scratch: &mut String, c: char) -> Result<(), AllocError> {
        push_escaped(c, scratch)
    }
}

/// Nothing, so that the string is only checked.
pub(super) struct Checked;

impl Spelling for Checked {
    ghost spelled = { λ _. [] };

    ghost joins = { λ a b. refl };

    ghost infallible = { true };

    #[inline(always)]
    fn push_run(_scratch: &mut String, _run: &str) -> Result<(), AllocError> {
        Ok(())
    }

    #[inline(always)]
    fn push(_scratch: &mut String, _c: char) -> Result<(), AllocError> {
        Ok(())
    }
}
