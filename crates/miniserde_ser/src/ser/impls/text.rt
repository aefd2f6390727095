//! Writes `String`, `&str` and `CowStr`, as JSON strings.
ghost use Rattle.std.specs.Prelude.{string_bytes};
ghost use Rattle.std.specs.Cow.{cow_str_bytes};
ghost use Rattle.miniserde_model.specs.Tree.{str};

use crate::ser::{Fragment, Serialize, Writer};
use miniserde_model::error::Result;
use std::borrow::CowStr;

impl Serialize for String {
    ghost tree = { λ s. str (string_bytes s) };

    #[inline(always)]
    fn begin(&self, w: &mut Writer) -> Result<()> {
        w.fragment(Fragment::Str(self.as_str()))
    }
}

impl Serialize for &str {
    ghost tree = { λ s. str s.now };

    #[inline(always)]
    fn begin(&self, w: &mut Writer) -> Result<()> {
        w.fragment(Fragment::Str(*self))
    }
}

impl Serialize for CowStr<'_> {
    ghost tree = { λ s. str (cow_str_bytes s) };

    #[inline(always)]
    fn begin(&self, w: &mut Writer) -> Result<()> {
        w.fragment(Fragment::Str(self.as_str()))
    }
}
