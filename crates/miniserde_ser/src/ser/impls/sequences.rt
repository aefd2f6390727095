//! Writes slices, arrays, `Vec` and `VecDeque`, as lists.
ghost use Rattle.std.specs.Prelude.{◌≡◌, ◌++◌, false, true, OnOk, OnErr, IsErrOf};
ghost use Rattle.miniserde_model.specs.Tree.{list};
ghost use Rattle.miniserde_model.specs.Compact.{compact_children};
ghost use Rattle.miniserde_model.specs.InRange.{AllInRange};
ghost use Rattle.miniserde_model.specs.declared.error.Error.TheVariants.{Memory};
ghost use Rattle.miniserde_ser.specs.Trees.{trees_of};
ghost use Rattle.miniserde_ser.specs.Writer.{KeepsNormal, WritesTree};

use crate::ser::{Serialize, Writer};
use miniserde_model::error::Result;
use std::collections::VecDeque;

// Writes the items with a comma between each two. Returns `Memory` if an allocation fails.
#[inline(always)]
fn write_each<T: Serialize>(items: &[T], w: &mut Writer) -> Result<()>
    requires { w.old.refused ≡ false }
    ensures ok { OnOk result (w.new.text ≡ w.old.text ++ compact_children (trees_of T.tree items.now)) }
    ensures in_range { OnOk result (AllInRange (trees_of T.tree items.now)) }
    ensures normal { OnOk result (KeepsNormal w.old (list (trees_of T.tree items.now)) w.new) }
    ensures first { OnOk result (w.old.first ≡ false → w.new.first ≡ false) }
    ensures unrefused { OnOk result (w.new.refused ≡ false) }
    ensures memory { OnErr result (IsErrOf result Memory) }
    ensures err { OnErr result (w.new.refused ≡ true) }
{
    let mut rest = items;
    while let Some((item, later)) = rest.split_first() {
        item.begin(w)?;
        if !later.is_empty() {
            w.append_mark(',')?;
        }
        rest = later;
    }
    Ok(())
}

// Writes a list of the items. Returns `Memory` if an allocation fails or an earlier call of the
// writer failed.
fn write_items<T: Serialize>(items: &[T], w: &mut Writer) -> Result<()>
    ensures { WritesTree w.old (list (trees_of T.tree items.now)) result w.new }
{
    // No call of `seq`, since no item asks whether it is the first.
    w.punctuate('[', false)?;
    write_each(items, w)?;
    w.append_mark(']')
}

impl<T: Serialize> Serialize for &[T] {
    ghost tree = { λ s. list (trees_of T.tree s.now) };

    fn begin(&self, w: &mut Writer) -> Result<()> {
        write_items(*self, w)
    }
}

impl<T: Serialize, const N: usize> Serialize for [T; N] {
    ghost tree = { λ xs. list (trees_of T.tree xs) };

    fn begin(&self, w: &mut Writer) -> Result<()> {
        write_items(self, w)
    }
}

impl<T: Serialize> Serialize for Vec<T> {
    ghost tree = { λ v. list (trees_of T.tree v.items) };

    fn begin(&self, w: &mut Writer) -> Result<()> {
        write_items(self.as_slice(), w)
    }
}

impl<T: Serialize> Serialize for VecDeque<T> {
    ghost tree = { λ q. list (trees_of T.tree q.items) };

    fn begin(&self, w: &mut Writer) -> Result<()> {
        let (front, back) = self.as_slices();
        w.punctuate('[', false)?;
        write_each(front, w)?;
        if back.is_empty() {
            return w.append_mark(']');
        }
        // An item stands before those of `back`.
        w.append_mark(',')?;
        write_each(back, w)?;
        w.append_mark(']')
    }
}
