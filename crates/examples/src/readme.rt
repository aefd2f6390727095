//! What the README shows first.
ghost use Rattle.std.specs.Prelude.{◌≡◌, IfOk, string_bytes};
ghost use Rattle.miniserde.specs.Tree.{Tree};
ghost use Rattle.miniserde.specs.Value.{IsJson};
ghost use Rattle.miniserde.specs.Compact.{compact};
ghost use Rattle.examples.specs.Orders.{one_more_of};

use crate::order::Order;
use miniserde::json::{from_str, to_string};
use miniserde::{FromJson, Result, Serialize};
use std::alloc::Global;

/// Reads an order, adds one to its quantity, unless that is the largest `u32`, and writes it.
pub fn one_more(alloc: Global, text: &str) -> Result<String>
    // The text means an order, and the answer is the compact text of the order with one more.
    ensures { IfOk result (λ s. (t : Tree) × (v : Order) × IsJson text.now t
        × ⟦<Order as FromJson>⟧.means.reads t v
        × (string_bytes s ≡ compact (⟦<Order as Serialize>⟧.tree (one_more_of v)))) }
{
    let mut order: Order = from_str(alloc, text)?;
    order.quantity = order.quantity.saturating_add(1);
    to_string(alloc, &order)
}
