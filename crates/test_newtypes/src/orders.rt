//! The check of a span.
ghost use Rattle.std.specs.Prelude.{◌≡◌};
ghost use Rattle.test_newtypes.specs.Orders.{is_ordered};

use crate::ends::Ends;
use miniserde::FromJson;

/// Returns whether a span ends no earlier than it begins.
pub fn is_ordered(ends: &Ends<u32>) -> bool
    ensures { result ≡ is_ordered (⟦<Ends<u32> as FromJson>⟧.means.content ends.now) }
{
    ends.from <= ends.to
}
