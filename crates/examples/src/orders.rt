//! A caller that reads an order, changes it and writes it.
ghost use Rattle.std.specs.Prelude.{◌≡◌, IfOk, string_bytes};
ghost use Rattle.miniserde.specs.Tree.{Tree};
ghost use Rattle.miniserde.specs.Value.{IsJson};
ghost use Rattle.miniserde.specs.Compact.{compact};
ghost use Rattle.examples.specs.Orders.{settled_of};

use crate::order::Order;
use miniserde::json::{from_str, to_string};
use miniserde::{Error, FromJson, Result, Serialize};
use std::alloc::Global;

/// The order of a text, paid, as text again.
pub fn settled(alloc: Global, text: &str) -> Result<String>
    // The text spells a tree that means an order, and the answer is the compact text of that order paid, and spells it.
    ensures ok { let tree = ⟦<Order as Serialize>⟧.tree in IfOk result (λ s.
        (t : Tree) × (v : Order) × IsJson text.now t × ⟦<Order as FromJson>⟧.means.reads t v
        × IsJson (string_bytes s) (tree (settled_of v)) × (string_bytes s ≡ compact (tree (settled_of v)))) }

    // No tree that the text spells means an order.
    ensures invalid { result ≡ Err Error.Invalid
        → (t : Tree) → IsJson text.now t → (v : Order) → ⟦<Order as FromJson>⟧.means.reads t v → ⊥ }
{
    let mut order: Order = from_str(alloc, text)?;
    order.paid = true;
    let written = to_string(alloc, &order)?;
    Ok(written)
}
