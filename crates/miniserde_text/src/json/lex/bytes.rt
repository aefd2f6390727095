//! Tests of single bytes, and steps over the bytes of a text, for the lexer.
ghost use Rattle.std.specs.Prelude.{◌≡◌, ◌-◌, ◌<◌, ◌≤◌, drop, length, slice_index};
ghost use Rattle.std.specs.Str.{IsCharBoundary};
ghost use Rattle.miniserde_model.specs.Bytes.{is_space};
ghost use Rattle.miniserde_text.specs.private.Reading.{is_digit, is_sign, is_exponent_letter, before, FollowsAscii};

// 1 for each byte of whitespace, and 0 for every other byte.
static SPACE: [u8; 256] = [
    0, 0, 0, 0, 0, 0, 0, 0, 0, 1, 1, 0, 0, 1, 0, 0, 0, 0, 0, 0, 0, 0, 0, 0, 0, 0, 0, 0, 0, 0, 0, 0,
    1, 0, 0, 0, 0, 0, 0, 0, 0, 0, 0, 0, 0, 0, 0, 0, 0, 0, 0, 0, 0, 0, 0, 0, 0, 0, 0, 0, 0, 0, 0, 0,
    0, 0, 0, 0, 0, 0, 0, 0, 0, 0, 0, 0, 0, 0, 0, 0, 0, 0, 0, 0, 0, 0, 0, 0, 0, 0, 0, 0, 0, 0, 0, 0,
    0, 0, 0, 0, 0, 0, 0, 0, 0, 0, 0, 0, 0, 0, 0, 0, 0, 0, 0, 0, 0, 0, 0, 0, 0, 0, 0, 0, 0, 0, 0, 0,
    0, 0, 0, 0, 0, 0, 0, 0, 0, 0, 0, 0, 0, 0, 0, 0, 0, 0, 0, 0, 0, 0, 0, 0, 0, 0, 0, 0, 0, 0, 0, 0,
    0, 0, 0, 0, 0, 0, 0, 0, 0, 0, 0, 0, 0, 0, 0, 0, 0, 0, 0, 0, 0, 0, 0, 0, 0, 0, 0, 0, 0, 0, 0, 0,
    0, 0, 0, 0, 0, 0, 0, 0, 0, 0, 0, 0, 0, 0, 0, 0, 0, 0, 0, 0, 0, 0, 0, 0, 0, 0, 0, 0, 0, 0, 0, 0,
    0, 0, 0, 0, 0, 0, 0, 0, 0, 0, 0, 0, 0, 0, 0, 0, 0, 0, 0, 0, 0, 0, 0, 0, 0, 0, 0, 0, 0, 0, 0, 0,
];

// Returns whether a byte is whitespace (RFC 8259, section 2).
#[inline(always)]
pub(super) fn is_space(c: u8) -> bool
    ensures { result ≡ is_space c }
{
    SPACE[c as usize] == 1
}

// Returns whether a byte is a decimal digit.
pub(super) fn is_digit(c: u8) -> bool
    ensures { result ≡ is_digit c }
{
    b'0' <= c && c <= b'9'
}

// Returns whether a byte is `+` or `-`.
pub(super) fn is_sign(c: u8) -> bool
    ensures { result ≡ is_sign c }
{
    c == b'+' || c == b'-'
}

// Returns whether a byte is `e` or `E`.
pub(super) fn is_exponent_letter(c: u8) -> bool
    ensures { result ≡ is_exponent_letter c }
{
    c == b'e' || c == b'E'
}

/// Returns the byte at `at`, or 0 if there is none.
pub(super) fn byte_at(bytes: &[u8], at: usize) -> u8
    ensures { result ≡ slice_index (drop at bytes.now) 0 }
{
    if at < bytes.len() { bytes[at] } else { 0 }
}

/// Returns the byte `n` bytes after `at`, or 0 if there is none.
pub(super) fn byte_after(bytes: &[u8], at: usize, n: usize) -> u8
    requires { at ≤ length bytes.now }
    ensures { result ≡ slice_index (drop at bytes.now) n }
{
    if n < bytes.len() - at {
        bytes[at + n]
    } else {
        0
    }
}

/// Returns the index `n` bytes after `at`. The last of these bytes is ASCII, so the index is a character boundary. It
/// is not 0, which a byte beyond the end counts as. Only the contract uses `bytes`.
pub(super) fn index_after(bytes: &[u8], at: usize, n: usize) -> usize
    requires some { 0 < n }
    requires there { 0 < slice_index (drop at bytes.now) (n - 1) }
    requires ascii { slice_index (drop at bytes.now) (n - 1) < 128 }
    ensures value { drop result bytes.now ≡ drop n (drop at bytes.now) }
    ensures follows { FollowsAscii bytes.now result }
{
    at + n
}

/// Returns the bytes between two indices.
pub(super) fn part(bytes: &[u8], from: usize, to: usize) -> &[u8]
    requires order { from ≤ to }
    requires within { to ≤ length bytes.now }
    ensures { result.now ≡ before (drop from bytes.now) (drop to bytes.now) }
{
    &bytes[from..to]
}

/// Returns the text between two indices, which are character boundaries.
pub(super) fn text_between<'a>(text: &'a str, from: usize, to: usize) -> &'a str
    requires order { from ≤ to }
    requires from { IsCharBoundary text.now from }
    requires to { IsCharBoundary text.now to }
    ensures { result.now ≡ before (drop from text.now) (drop to text.now) }
{
    &text[from..to]
}
