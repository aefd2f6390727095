//! Writes `Option`: `None` as `null`, and `Some` as its value.
ghost use Rattle.miniserde_ser.specs.Trees.{option_tree};

use crate::ser::{Fragment, Serialize, Writer};
use miniserde_model::error::Result;

impl<T: Serialize> Serialize for Option<T> {
    ghost tree = { option_tree T.tree };

    #[inline(always)]
    fn begin(&self, w: &mut Writer) -> Result<()> {
        match self {
            Some(value) => value.begin(w),
            None => w.fragment(Fragment::Null),
        }
    }
}
