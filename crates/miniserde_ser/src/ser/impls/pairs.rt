//! Writes pairs, as lists of two elements.
ghost use Rattle.miniserde_model.specs.Tree.{list, no_trees, tree};

use crate::ser::{Serialize, Writer};
use miniserde_model::error::Result;

impl<A: Serialize, B: Serialize> Serialize for (A, B) {
    ghost tree = { λ v. list (tree (A.tree v.0) (tree (B.tree v.1) no_trees)) };

    fn begin(&self, w: &mut Writer) -> Result<()> {
        let (first, second) = self;
        // No call of `seq` or `element`, since it is known which element is the first.
        w.punctuate('[', false)?;
        first.begin(w)?;
        w.append_mark(',')?;
        second.begin(w)?;
        w.append_mark(']')
    }
}
