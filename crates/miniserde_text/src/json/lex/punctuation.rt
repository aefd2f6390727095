//! Takes the punctuation of a container: its closing bracket, or the comma before its next child.
ghost use Rattle.std.specs.Prelude.{◌≡◌, ◌<◌, ◌≤◌, drop, length, option_map, slice_index, IfSome};
ghost use Rattle.miniserde_model.specs.Lexing.{closing};
ghost use Rattle.miniserde_text.specs.Lexer.{is_close};
ghost use Rattle.miniserde_text.specs.private.Reading.{is_closing, begins_child, punctuation_at};

use super::bytes::index_after;
use super::{After, Kind};

// Returns whether a byte is a closing bracket, `]` or `}`.
fn is_closing(c: u8) -> bool
    ensures { result ≡ is_closing c }
{
    c == b']' || c == b'}'
}

// Returns the closing bracket of a container of the kind.
fn closing(kind: Kind) -> u8
    ensures value { result ≡ closing kind }
    ensures ascii { (0 < result) × (result < 128) }
{
    match kind {
        Kind::Seq => b']',
        Kind::Map => b'}',
    }
}

// Returns whether the text has a byte at `at` that is no closing bracket. `byte` is that byte, or 0 if there is none.
fn begins_child(bytes: &[u8], at: usize, byte: u8) -> bool
    requires { byte ≡ slice_index (drop at bytes.now) 0 }
    ensures { result ≡ begins_child (drop at bytes.now) }
{
    at < bytes.len() && !is_closing(byte)
}

/// Takes the closing bracket of a container of the kind, or the comma before its next child.
/// Returns `Close` or `Next` with the index after the bracket or the comma, or `None` if neither is
/// there. `first` says that nothing but whitespace is between the opening bracket and `at`. Then no
/// comma is due: the call returns `Next` with `at` itself if a byte is there that is no closing
/// bracket. `byte` is the byte at `at`, or 0 if there is none.
#[tactic(auto, unfolding(crate::specs::private::Reading::punctuation_at))]
pub(super) fn take_punctuation(
    kind: Kind,
    first: bool,
    bytes: &[u8],
    at: usize,
    byte: u8,
) -> Option<(After, usize)>
    requires within { at ≤ length bytes.now }
    requires byte { byte ≡ slice_index (drop at bytes.now) 0 }
    ensures value { option_map (λ x. (is_close x.0, drop x.1 bytes.now)) result
        ≡ punctuation_at kind first (drop at bytes.now) }
    ensures within { IfSome result (λ x. x.1 ≤ length bytes.now) }
{
    if byte == closing(kind) {
        Some((After::Close, index_after(bytes, at, 1)))
    } else if first {
        if begins_child(bytes, at, byte) {
            Some((After::Next, at))
        } else {
            None
        }
    } else if byte == b',' {
        Some((After::Next, index_after(bytes, at, 1)))
    } else {
        None
    }
}
