//! The functions that C calls: canonical texts, their equality, and whether bytes are JSON (RFC 8259). Each returns a
//! status, which `miniserde.h` names.
#![tactic(auto)]

ghost use Rattle.std.specs.Prelude.{◌≡◌, ◌≤◌, ◌<◌, ◌⊎◌, ◌↔◌, ◌++◌, true, length, drop, IfOk, IfErr, string_bytes};
ghost use Rattle.miniserde_model.specs.Tree.{Tree};
ghost use Rattle.miniserde_model.specs.Compact.{compact};
ghost use Rattle.miniserde_model.specs.Distinct.{names_distinct};
ghost use Rattle.miniserde_model.specs.Normal.{norm};
ghost use Rattle.miniserde_model.specs.Value.{IsJson, HasNoTree};
ghost use Rattle.miniserde_model.specs.declared.error.Error.{Error};

use miniserde_canonical::{canonical, canonical_both, canonical_unique};
use miniserde_model::error::Error;
use miniserde_read::check_json;
use simdutf8::basic::from_utf8;
use std::alloc::Global;

// The statuses, as `miniserde.h` has them.
const OK: u32 = 0;

const INVALID: u32 = 1;

const MEMORY: u32 = 2;

const ROOM: u32 = 3;

const DIFFERENT: u32 = 4;

/// Writes the canonical text of a JSON text to the front of `out`, and its length to `written`. Returns `INVALID` if
/// the bytes are not JSON in UTF-8, `MEMORY` if an allocation fails, and `ROOM` if `out` is shorter than the canonical
/// text, whose length is in `written` then.
#[unsafe(no_mangle)]
pub extern "C" fn miniserde_canonical(
    alloc: Global,
    text: &[u8],
    out: &mut [u8],
    written: &mut usize,
) -> u32
    // The bytes that were written are the compact text of the normal form of the text's tree. The bytes behind them
    // are as they were.
    ensures ok { result ≡ OK → (t : Tree) × IsJson text.now t × (written.new ≡ length (compact (norm t)))
        × (out.new ≡ compact (norm t) ++ drop written.new out.old) }
    ensures invalid { result ≡ INVALID → HasNoTree text.now }

    // Room for the text is enough for its canonical text.
    ensures room { result ≡ ROOM → (t : Tree) × IsJson text.now t × (written.new ≡ length (compact (norm t)))
        × (length out.old < written.new) }
    ensures fits { length text.now ≤ length out.old → result ≡ ROOM → ⊥ }
    ensures unchanged { (result ≡ OK → ⊥) → out.new ≡ out.old }
    ensures nothing { (result ≡ INVALID) ⊎ (result ≡ MEMORY) → written.new ≡ 0 }
    ensures only { result ≤ ROOM }
{
    *written = 0;
    match canonical_of_bytes(alloc, text) {
        Ok(found) => hand_over(found.as_bytes(), out, written),
        Err(status) => status,
    }
}

/// Does what `miniserde_canonical` does for a text without duplicate names. Returns `INVALID` for every other text.
#[unsafe(no_mangle)]
pub extern "C" fn miniserde_canonical_unique(
    alloc: Global,
    text: &[u8],
    out: &mut [u8],
    written: &mut usize,
) -> u32
    // The bytes that were written are the compact text of the normal form of the text's tree, which has no duplicate
    // name. The bytes behind them are as they were.
    ensures ok { result ≡ OK → (t : Tree) × IsJson text.now t × (names_distinct t ≡ true)
        × (written.new ≡ length (compact (norm t))) × (out.new ≡ compact (norm t) ++ drop written.new out.old) }
    ensures invalid { result ≡ INVALID → (t : Tree) → IsJson text.now t → names_distinct t ≡ true → ⊥ }

    // Room for the text is enough for its canonical text.
    ensures room { result ≡ ROOM → (t : Tree) × IsJson text.now t × (names_distinct t ≡ true)
        × (written.new ≡ length (compact (norm t))) × (length out.old < written.new) }
    ensures fits { length text.now ≤ length out.old → result ≡ ROOM → ⊥ }
    ensures unchanged { (result ≡ OK → ⊥) → out.new ≡ out.old }
    ensures nothing { (result ≡ INVALID) ⊎ (result ≡ MEMORY) → written.new ≡ 0 }
    ensures only { result ≤ ROOM }
{
    *written = 0;
    match unique_of_bytes(alloc, text) {
        Ok(found) => hand_over(found.as_bytes(), out, written),
        Err(status) => status,
    }
}

/// Returns `OK` if two JSON texts have the same canonical text, and `DIFFERENT` if they have not. Returns `INVALID` if
/// one of them is not JSON in UTF-8, and `MEMORY` if an allocation fails.
#[unsafe(no_mangle)]
pub extern "C" fn miniserde_equal(alloc: Global, a: &[u8], b: &[u8]) -> u32
    ensures ok { result ≡ OK → (t : Tree) × (u : Tree) × IsJson a.now t × IsJson b.now u × (norm t ≡ norm u) }
    ensures different { result ≡ DIFFERENT
        → (t : Tree) × (u : Tree) × IsJson a.now t × IsJson b.now u × (norm t ≡ norm u → ⊥) }
    ensures invalid { result ≡ INVALID → HasNoTree a.now ⊎ HasNoTree b.now }
    ensures only { (result ≤ DIFFERENT) × (result ≡ ROOM → ⊥) }
{
    match both_of_bytes(alloc, a, b) {
        Ok((c, d)) => {
            if c.as_bytes() == d.as_bytes() {
                OK
            } else {
                DIFFERENT
            }
        }
        Err(status) => status,
    }
}

/// Returns `OK` if the bytes are JSON in UTF-8, `INVALID` if they are not, and `MEMORY` if an allocation fails.
/// Allocates 32 bytes for up to 256 levels of depth, and at most two bits a level beyond that (three while they grow).
#[unsafe(no_mangle)]
pub extern "C" fn miniserde_is_json(alloc: Global, text: &[u8]) -> u32
    ensures ok { result ≡ OK → (t : Tree) × IsJson text.now t }
    ensures invalid { result ≡ INVALID → HasNoTree text.now }
    ensures only { result ≤ MEMORY }
{
    match check(alloc, text) {
        Ok(()) => OK,
        Err(status) => status,
    }
}

// Returns the canonical text of a JSON text. Fails with `INVALID` if the bytes are not JSON in UTF-8.
fn canonical_of_bytes(alloc: Global, bytes: &[u8]) -> Result<String, u32>
    ensures ok { IfOk result (λ c. (t : Tree) × IsJson bytes.now t × (string_bytes c ≡ compact (norm t))
        × (length (compact (norm t)) ≤ length bytes.now)) }
    ensures invalid { IfErr result (λ s. s ≡ INVALID → HasNoTree bytes.now) }
    ensures only { IfErr result (λ s. (s ≡ INVALID) ⊎ (s ≡ MEMORY)) }
{
    let Ok(text) = from_utf8(bytes) else {
        return Err(INVALID);
    };
    match canonical(alloc, text) {
        Ok(found) => Ok(found),
        Err(error) => Err(status_of(error)),
    }
}

// Returns the canonical text of a JSON text without duplicate names. Fails with `INVALID` for every other text.
fn unique_of_bytes(alloc: Global, bytes: &[u8]) -> Result<String, u32>
    ensures ok { IfOk result (λ c. (t : Tree) × IsJson bytes.now t × (names_distinct t ≡ true)
        × (string_bytes c ≡ compact (norm t)) × (length (compact (norm t)) ≤ length bytes.now)) }
    ensures invalid { IfErr result (λ s. s ≡ INVALID
        → (t : Tree) → IsJson bytes.now t → names_distinct t ≡ true → ⊥) }
    ensures only { IfErr result (λ s. (s ≡ INVALID) ⊎ (s ≡ MEMORY)) }
{
    let Ok(text) = from_utf8(bytes) else {
        return Err(INVALID);
    };
    match canonical_unique(alloc, text) {
        Ok(found) => Ok(found),
        Err(error) => Err(status_of(error)),
    }
}

// Returns the canonical texts of two JSON texts. Fails with `INVALID` if one of them is not JSON in UTF-8.
fn both_of_bytes(alloc: Global, a: &[u8], b: &[u8]) -> Result<(String, String), u32>
    ensures ok { IfOk result (λ c. (t : Tree) × (u : Tree) × IsJson a.now t × IsJson b.now u
        × ((string_bytes c.0 ≡ string_bytes c.1) ↔ (norm t ≡ norm u))) }
    ensures invalid { IfErr result (λ s. s ≡ INVALID → HasNoTree a.now ⊎ HasNoTree b.now) }
    ensures only { IfErr result (λ s. (s ≡ INVALID) ⊎ (s ≡ MEMORY)) }
{
    let Ok(a) = from_utf8(a) else {
        return Err(INVALID);
    };
    let Ok(b) = from_utf8(b) else {
        return Err(INVALID);
    };
    match canonical_both(alloc, a, b) {
        Ok(found) => Ok(found),
        Err(error) => Err(status_of(error)),
    }
}

// Fails with `INVALID` if the bytes are not JSON in UTF-8.
fn check(alloc: Global, bytes: &[u8]) -> Result<(), u32>
    ensures ok { IfOk result (λ _. (t : Tree) × IsJson bytes.now t) }
    ensures invalid { IfErr result (λ s. s ≡ INVALID → HasNoTree bytes.now) }
    ensures only { IfErr result (λ s. (s ≡ INVALID) ⊎ (s ≡ MEMORY)) }
{
    let Ok(text) = from_utf8(bytes) else {
        return Err(INVALID);
    };
    match check_json(alloc, text) {
        Ok(()) => Ok(()),
        Err(error) => Err(status_of(error)),
    }
}

fn status_of(error: Error) -> u32
    ensures invalid { result ≡ INVALID → error ≡ Error.Invalid }
    ensures only { (result ≡ INVALID) ⊎ (result ≡ MEMORY) }
{
    match error {
        Error::Invalid => INVALID,
        Error::Memory => MEMORY,
    }
}

// Copies the bytes to the front of `out`, and writes their length to `written`. Returns `ROOM`, and copies nothing, if
// `out` is shorter.
fn hand_over(bytes: &[u8], out: &mut [u8], written: &mut usize) -> u32
    ensures ok { result ≡ OK → out.new ≡ bytes.now ++ drop (length bytes.now) out.old }
    ensures room { result ≡ ROOM → length out.old < length bytes.now }
    ensures written { written.new ≡ length bytes.now }
    ensures unchanged { result ≡ ROOM → out.new ≡ out.old }
    ensures only { (result ≡ OK) ⊎ (result ≡ ROOM) }
{
    *written = bytes.len();
    if bytes.len() > out.len() {
        return ROOM;
    }
    out[..bytes.len()].copy_from_slice(bytes);
    OK
}
