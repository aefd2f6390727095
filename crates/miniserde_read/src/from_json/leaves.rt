//! Reads std's types whose values are single tokens: `()`, `bool`, integers and `String`.

use super::FromJson;
use crate::leaf::{Leaf, read_leaf};
use crate::source::Source;
use miniserde_model::error::Result;
use miniserde_text::json::lex::Event;

/// A type of std whose values are single tokens. It reads itself by its `Leaf`. Such a type of another crate has its
/// own `impl FromJson`.
pub trait StdLeaf: Leaf {}

impl StdLeaf for () {}

impl StdLeaf for bool {}

impl StdLeaf for u8 {}

impl StdLeaf for u16 {}

impl StdLeaf for u32 {}

impl StdLeaf for u64 {}

impl StdLeaf for usize {}

impl StdLeaf for i8 {}

impl StdLeaf for i16 {}

impl StdLeaf for i32 {}

impl StdLeaf for i64 {}

impl StdLeaf for isize {}

impl StdLeaf for String {}

impl<T: StdLeaf> FromJson for T {
    ghost means = { T.means };

    ghost read_infallible = { T.read_infallible };

    ghost lacking = { λ event _ _. T.lacking event };

    fn missing() -> Option<T> {
        None
    }

    #[inline(always)]
    fn read<'a>(token: Event<'a>, source: &mut Source<'a>) -> Result<T> {
        read_leaf(token, source)
    }
}
