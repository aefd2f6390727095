//! Writes `()` as `null`, and `bool` as `true` or `false`.
ghost use Rattle.miniserde_model.specs.Tree.{null, truth};

use crate::ser::{Fragment, Serialize, Writer};
use miniserde_model::error::Result;

impl Serialize for () {
    ghost tree = { λ _. null };

    #[inline(always)]
    fn begin(&self, w: &mut Writer) -> Result<()> {
        w.fragment(Fragment::Null)
    }
}

impl Serialize for bool {
    ghost tree = { truth };

    #[inline(always)]
    fn begin(&self, w: &mut Writer) -> Result<()> {
        w.fragment(Fragment::Bool(*self))
    }
}
