//! The members of open objects, with the first bytes of their names as numbers, which are fast to compare.
ghost use Rattle.std.specs.Prelude.{◌≡◌, IfOk, get_or};
ghost use Rattle.miniserde_text.specs.Lexer.{text_of};
ghost use Rattle.miniserde_canonical.specs.private.MemberNames.{name_of, IsLeadingBytes};

use crate::spread::Point;
use miniserde_text::json::lex::Text;
use std::alloc::{AllocError, Global};

/// A name: borrowed from the input, or decoded. A decoded one is boxed, which keeps a `Name` small.
#[derive(Drop)]
pub(crate) enum Name<'a> {
    Input(&'a str),
    Decoded(Box<String>),
}

impl<'a> Name<'a> {
    /// Returns the name for a text of the lexer: borrowed from the input, or copied from the scratch text. Fails if the
    /// copy fails to allocate.
    #[inline(always)]
    pub(crate) fn new(alloc: Global, text: Text<'a>, scratch: &str) -> Result<Name<'a>, AllocError>
        ensures { IfOk result (λ n. name_of n ≡ text_of text.entry scratch.now) }
    {
        match text {
            Text::Input(s) => Ok(Name::Input(s)),
            Text::Scratch => Ok(Name::Decoded(Box::new(alloc, String::from_str(alloc, scratch)?)?)),
        }
    }

    /// Returns the text of the name.
    #[inline(always)]
    pub(crate) fn text(&self) -> &str
        ensures { result.now ≡ name_of self.now }
    {
        match self {
            Name::Input(s) => s,
            Name::Decoded(s) => s.as_str(),
        }
    }
}

/// A member of an open object: its name, and the point of the draft's text at which it begins.
#[derive(Drop)]
pub(crate) struct Member<'a> {
    pub(crate) name: Name<'a>,
    /// The first eight bytes of the name as a number whose highest byte is the first. If the name is shorter, the bytes
    /// after it count as 0.
    pub(crate) leading_bytes: u64,
    /// The point of the text at which the member begins, after its comma.
    pub(crate) point: Point,
    /// Whether it is the first of its object, so that no comma stands before it.
    pub(crate) first: bool,
    // `leading_bytes` is that number for `name`.
    ghost leads: { IsLeadingBytes leading_bytes (name_of name) },
}

impl<'a> Member<'a> {
    /// Returns a member, with the first eight bytes of its name as a number.
    #[inline(always)]
    pub(crate) fn new(name: Name<'a>, point: Point, first: bool) -> Member<'a>
        ensures name { result.name ≡ name.entry }
        ensures point { result.point ≡ point }
        ensures first { result.first ≡ first }
    {
        let leading_bytes = leading_bytes(name.text());
        Member {
            name,
            leading_bytes,
            point,
            first,
        }
    }
}

// Returns the first eight bytes of a text as a number whose highest byte is the first. If the text is shorter, the
// bytes after it count as 0.
#[inline(always)]
fn leading_bytes(name: &str) -> u64
    ensures { IsLeadingBytes result name.now }
{
    let b = name.as_bytes();
    if b.len() >= 8 {
        return u64::from_be_bytes([b[0], b[1], b[2], b[3], b[4], b[5], b[6], b[7]]);
    }
    u64::from_be_bytes([
        byte(b, 0),
        byte(b, 1),
        byte(b, 2),
        byte(b, 3),
        byte(b, 4),
        byte(b, 5),
        byte(b, 6),
        byte(b, 7),
    ])
}

// Returns the byte at an index, or 0 if there is none.
#[inline(always)]
fn byte(b: &[u8], i: usize) -> u8
    ensures { result ≡ get_or b.now i 0 }
{
    if i < b.len() { b[i] } else { 0 }
}
