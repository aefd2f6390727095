//! Writes references and boxes, each as the value that it points to.

use crate::ser::{Serialize, Writer};
use miniserde_model::error::Result;

impl<T: Serialize> Serialize for &T {
    ghost tree = { λ r. T.tree r.now };

    fn begin(&self, w: &mut Writer) -> Result<()> {
        Serialize::begin(*self, w)
    }
}

impl<T: Serialize> Serialize for Box<T> {
    ghost tree = { λ b. T.tree b.value };

    fn begin(&self, w: &mut Writer) -> Result<()> {
        Serialize::begin(&**self, w)
    }
}
