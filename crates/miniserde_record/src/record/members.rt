//! Writes lent values as the members of an object.
ghost use Rattle.std.specs.Prelude.{◌≡◌, ◌++◌, ◌&&◌, true, false, List, [], ◌∷◌, Option, Some, OnOk, OnErr, IsErrOf, map};
ghost use Rattle.miniserde_model.specs.Tree.{Tree, members};
ghost use Rattle.miniserde_model.specs.InRange.{MembersInRange};
ghost use Rattle.miniserde_model.specs.declared.error.Error.TheVariants.{Memory};
ghost use Rattle.miniserde_ser.specs.Writer.{WritesTree};
ghost use Rattle.miniserde_record.specs.InOrder.{names_rise, KeepsTreesNormal};
ghost use Rattle.miniserde_record.specs.Marks.{has_no_members};
ghost use Rattle.miniserde_record.specs.Structs.{with_names, members_text};

use super::structs::Parts;
use miniserde_model::error::Result;
use miniserde_ser::ser::{Serialize, Writer};

/// A chain of lent values, which are written as members: `Parts` of a value and the rest of the chain, with `()` at the
/// end.
pub trait Members {
    // The tree of each value, in their order, or `None` for a value that is not written.
    ghost trees: { Self → List (Option Tree) };

    /// Appends a member for each value, with a comma before it unless it is the first of its object.
    /// Its name is the one at the value's index in `names`. Values beyond the last name have no
    /// member, and neither has an `Omitted` that is `None`. Returns `Memory` if the writer fails.
    fn write(&self, w: &mut Writer, names: &[&str]) -> Result<()>
        ensures ok { OnOk result (w.new.text ≡ w.old.text
            ++ members_text w.old.first (with_names (map (λ n. n.now) names.now) (trees self.now))) }
        ensures all_in_range { OnOk result (MembersInRange
            (with_names (map (λ n. n.now) names.now) (trees self.now))) }
        ensures normal { OnOk result (KeepsTreesNormal w.old
            (with_names (map (λ n. n.now) names.now) (trees self.now)) w.new) }
        ensures unrefused { OnOk result (w.new.refused ≡ w.old.refused) }
        ensures later { OnOk result (w.old.first ≡ false → w.new.first ≡ false) }
        ensures first { OnOk result (w.new.first
            ≡ (has_no_members (with_names (map (λ n. n.now) names.now) (trees self.now)) && w.old.first)) }
        ensures memory { OnErr result (IsErrOf result Memory) }
        ensures err { OnErr result (w.new.refused ≡ true) };
}

impl Members for () {
    ghost trees = { λ _. [] };

    #[inline(always)]
    fn write(&self, _w: &mut Writer, _names: &[&str]) -> Result<()> {
        Ok(())
    }
}

impl<'a, T: Serialize, M: Members> Members for Parts<&'a T, M> {
    ghost trees = { λ l. Some (T.tree l.0.now) ∷ M.trees l.1 };

    #[inline(always)]
    fn write(&self, w: &mut Writer, names: &[&str]) -> Result<()> {
        match names {
            [name, more @ ..] => {
                w.key_inline(name)?;
                self.0.begin(w)?;
                self.1.write(w, more)
            }
            [] => Ok(()),
        }
    }
}

/// A reference to a chain of lent values, which is written as the chain is.
#[derive(Drop)]
pub struct Lent<'m, M>(pub &'m M);

impl<'m, M: Members> Members for Lent<'m, M> {
    ghost trees = { λ l. M.trees l.0.now };

    #[inline(always)]
    fn write(&self, w: &mut Writer, names: &[&str]) -> Result<()> {
        self.0.write(w, names)
    }
}

/// Four lent values, and the values after them.
#[derive(Drop)]
pub struct FourLent<'a, A, B, C, D, M>(pub &'a A, pub &'a B, pub &'a C, pub &'a D, pub M);

impl<'a, A: Serialize, B: Serialize, C: Serialize, D: Serialize, M: Members> Members
    for FourLent<'a, A, B, C, D, M> {
    ghost trees = { λ l. Some (A.tree l.0.now) ∷ Some (B.tree l.1.now) ∷ Some (C.tree l.2.now) ∷ Some (D.tree l.3.now)
        ∷ M.trees l.4 };

    #[inline(always)]
    fn write(&self, w: &mut Writer, names: &[&str]) -> Result<()> {
        // A chain of `Parts` with the same values writes them. `Lent` puts the later ones into it without a move.
        Parts(
            self.0,
            Parts(self.1, Parts(self.2, Parts(self.3, Lent(&self.4)))),
        )
        .write(w, names)
    }
}

/// Writes an object that has a member for each of the values, whose name is the one at the value's
/// index in `names`. Values beyond the last name have no member, and neither has an `Omitted` that
/// is `None`. Returns `Memory` if the writer fails.
#[inline(always)]
pub fn write_members<M: Members>(w: &mut Writer, names: &[&str], values: &M) -> Result<()>
    ensures { WritesTree w.old (members (with_names (map (λ n. n.now) names.now) (M.trees values.now))) result w.new }
{
    w.map()?;
    values.write(w, names)?;
    w.map_finish()
}

/// Writes an object as `write_members` does. The names must rise in byte order, so a writer that finds out whether its
/// text is canonical goes on to do so. Returns `Memory` if the writer fails.
#[inline(always)]
pub fn write_members_in_order<M: Members>(w: &mut Writer, names: &[&str], values: &M) -> Result<()>
    requires in_order { names_rise (map (λ n. n.now) names.now) ≡ true }
    ensures { WritesTree w.old (members (with_names (map (λ n. n.now) names.now) (M.trees values.now))) result w.new }
{
    w.map_in_order()?;
    values.write(w, names)?;
    w.map_finish()
}
