//! Appends to the text what cannot be copied from the input as it is.
ghost use Rattle.std.specs.Prelude.{◌≡◌, ◌++◌, ◌∷◌, [], ℕ, List, length, true, OnOk};
ghost use Rattle.miniserde_model.specs.Compact.{string_text};
ghost use Rattle.miniserde_model.specs.Tokens.{comma_before};
ghost use Rattle.miniserde_text.specs.Lexer.{text_of};
ghost use Rattle.miniserde_canonical.specs.private.Plain.{TextPlain, NameSpelled, needs_no_escape};

use miniserde_text::escape::escape_str;
use miniserde_text::json::lex::Text;
use std::alloc::AllocError;

/// Appends a comma to `out`, unless `first` says that the child after it is the first of its container. Fails if `out`
/// cannot grow.
#[inline(always)]
pub(crate) fn put_comma(first: bool, out: &mut Vec<u8>) -> Result<(), AllocError>
    ensures { OnOk result (out.new.items ≡ out.old.items ++ comma_before first) }
{
    if !first {
        out.push(b',')?;
    }
    Ok(())
}

/// Appends a string, by the text that the lexer returned for it and the scratch text. `escape_room` is room for its
/// escaped text. Fails if an allocation fails.
pub(crate) fn put_string(
    text: Text<'_>,
    scratch: &str,
    escape_room: &mut String,
    out: &mut Vec<u8>,
) -> Result<(), AllocError>
    requires { TextPlain text }
    ensures { OnOk result (out.new.items ≡ out.old.items ++ string_text (text_of text.entry scratch.now)) }
{
    match text {
        Text::Input(s) => put_quoted(s, out),
        Text::Scratch => put_escaped(scratch, escape_room, out),
    }
}

/// Appends a text between quotes as it stands. Fails if `out` cannot grow.
#[inline(always)]
pub(crate) fn put_quoted(inside: &str, out: &mut Vec<u8>) -> Result<(), AllocError>
    ensures { OnOk result (out.new.items ≡ out.old.items ++ 34 ∷ (inside.now ++ 34 ∷ [])) }
{
    out.push(b'"')?;
    out.extend_from_slice(inside.as_bytes())?;
    out.push(b'"')?;
    Ok(())
}

/// Appends a decoded text as a string, by the escape rule. `escape_room` is room for its escaped text. Fails if an
/// allocation fails.
pub(crate) fn put_escaped(
    text: &str,
    escape_room: &mut String,
    out: &mut Vec<u8>,
) -> Result<(), AllocError>
    ensures { OnOk result (out.new.items ≡ out.old.items ++ string_text text.now) }
{
    escape_room.clear();
    escape_str(text, escape_room).map_err(|_| AllocError)?;
    out.extend_from_slice(escape_room.as_bytes())
}

/// Returns `true` for a name that the input has as it is to be written, with its colon: without a backslash, and
/// without whitespace before the colon. Returns `false` for every other name, even if its escapes are the ones to be
/// written. `len` is how many bytes name and colon have in the input.
#[inline(always)]
pub(crate) fn is_as_written(text: Text<'_>, len: usize) -> bool
    ensures { (scratch part : List ℕ) → result ≡ true → len ≡ length part → NameSpelled text.entry part
        → part ≡ string_text (text_of text.entry scratch) ++ 58 ∷ [] }
{
    match text {
        // Two quotes and the colon.
        Text::Input(s) => len == s.len() + 3,
        Text::Scratch => false,
    }
}
