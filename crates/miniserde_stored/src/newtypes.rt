//! The law of newtypes with a check.
ghost use Rattle.miniserde_read.specs.Newtypes.{checked_meaning};
ghost use Rattle.miniserde_stored.specs.Stable.{IsStable};

use crate::stable::Stable;
use miniserde_read::Checked;

/// Does nothing. It promises that if a tree means a newtype with a check, its normal form means a newtype of the same
/// content.
pub fn checked_stable<T: Stable, N: Checked<Inner = T>>()
    ensures { IsStable (checked_meaning N.means N.accepts N.inner).from_tree }
{
    T::stable()
}
