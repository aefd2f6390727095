//! Writes tuples of three to six items, as lists.
ghost use Rattle.std.specs.Prelude.{◌≡◌, [], ◌∷◌, ◌++◌, false, true, OnOk, OnErr, IsErrOf};
ghost use Rattle.miniserde_model.specs.Tree.{list, no_trees, tree};
ghost use Rattle.miniserde_model.specs.Compact.{compact};
ghost use Rattle.miniserde_model.specs.InRange.{InRange};
ghost use Rattle.miniserde_model.specs.declared.error.Error.TheVariants.{Memory};
ghost use Rattle.miniserde_ser.specs.Writer.{KeepsNormal};

use crate::ser::{Serialize, Writer};
use miniserde_model::error::Result;

// Writes a comma and then an item of a list. Returns `Memory` if an allocation fails or an earlier call of the writer
// failed.
#[inline(always)]
fn write_later<T: Serialize>(item: &T, w: &mut Writer) -> Result<()>
    ensures ok { OnOk result (w.new.text ≡ w.old.text ++ (44 ∷ []) ++ compact (T.tree item.now)) }
    ensures in_range { OnOk result (InRange (T.tree item.now)) }
    ensures normal { OnOk result (KeepsNormal w.old (T.tree item.now) w.new) }
    ensures first { OnOk result (w.old.first ≡ false → w.new.first ≡ false) }
    ensures unrefused { OnOk result (w.new.refused ≡ false) }
    ensures was_running { OnOk result (w.old.refused ≡ false) }
    ensures memory { OnErr result (IsErrOf result Memory) }
    ensures err { OnErr result (w.new.refused ≡ true) }
{
    w.append_mark(',')?;
    item.begin(w)
}

impl<A: Serialize, B: Serialize, C: Serialize> Serialize for (A, B, C) {
    ghost tree = { λ v. list (tree (A.tree v.0) (tree (B.tree v.1) (tree (C.tree v.2) no_trees))) };

    fn begin(&self, w: &mut Writer) -> Result<()> {
        let (a, b, c) = self;
        w.punctuate('[', false)?;
        a.begin(w)?;
        write_later(b, w)?;
        write_later(c, w)?;
        w.append_mark(']')
    }
}

impl<A: Serialize, B: Serialize, C: Serialize, D: Serialize> Serialize for (A, B, C, D) {
    ghost tree = { λ v. list (tree (A.tree v.0) (tree (B.tree v.1) (tree (C.tree v.2) (tree (D.tree v.3) no_trees)))) };

    fn begin(&self, w: &mut Writer) -> Result<()> {
        let (a, b, c, d) = self;
        w.punctuate('[', false)?;
        a.begin(w)?;
        write_later(b, w)?;
        write_later(c, w)?;
        write_later(d, w)?;
        w.append_mark(']')
    }
}

impl<A: Serialize, B: Serialize, C: Serialize, D: Serialize, E: Serialize> Serialize
    for (A, B, C, D, E) {
    ghost tree = { λ v. list (tree (A.tree v.0) (tree (B.tree v.1) (tree (C.tree v.2)
        (tree (D.tree v.3) (tree (E.tree v.4) no_trees))))) };

    fn begin(&self, w: &mut Writer) -> Result<()> {
        let (a, b, c, d, e) = self;
        w.punctuate('[', false)?;
        a.begin(w)?;
        write_later(b, w)?;
        write_later(c, w)?;
        write_later(d, w)?;
        write_later(e, w)?;
        w.append_mark(']')
    }
}

impl<A: Serialize, B: Serialize, C: Serialize, D: Serialize, E: Serialize, F: Serialize> Serialize
    for (A, B, C, D, E, F) {
    ghost tree = { λ v. list (tree (A.tree v.0) (tree (B.tree v.1) (tree (C.tree v.2)
        (tree (D.tree v.3) (tree (E.tree v.4) (tree (F.tree v.5) no_trees)))))) };

    fn begin(&self, w: &mut Writer) -> Result<()> {
        let (a, b, c, d, e, f) = self;
        w.punctuate('[', false)?;
        a.begin(w)?;
        write_later(b, w)?;
        write_later(c, w)?;
        write_later(d, w)?;
        write_later(e, w)?;
        write_later(f, w)?;
        w.append_mark(']')
    }
}
