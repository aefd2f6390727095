//! A list of orders, of which each is changed.
ghost use Rattle.std.specs.Prelude.{◌≡◌, Err, IfOk, Vec, map, string_bytes};
ghost use Rattle.miniserde.specs.Tree.{Tree};
ghost use Rattle.miniserde.specs.Value.{IsJson};
ghost use Rattle.miniserde.specs.Compact.{compact};
ghost use Rattle.examples.specs.Orders.{settled_of};

use crate::order::Order;
use miniserde::json::{from_str, to_string};
use miniserde::{Error, FromJson, Result, Serialize};
use std::alloc::Global;

/// Marks each order as paid.
pub fn mark_all_paid(orders: &mut Vec<Order>)
    ensures { orders.new.items ≡ map settled_of orders.old.items }
{
    for order in orders.iter_mut() {
        order.paid = true;
    }
}

/// Reads a list of orders, marks each as paid, and writes the list.
pub fn settled_all(alloc: Global, text: &str) -> Result<String>
    // The text spells a tree that means a list of orders, and the answer is the compact text of the list of these orders
    // paid, and spells it.
    ensures ok { let tree = ⟦<Vec<Order> as Serialize>⟧.tree in IfOk result (λ s.
        (t : Tree) × (orders : Vec Order Global) × (paid : Vec Order Global) × IsJson text.now t
        × ⟦<Vec<Order> as FromJson>⟧.means.reads t orders × (paid.items ≡ map settled_of orders.items)
        × IsJson (string_bytes s) (tree paid) × (string_bytes s ≡ compact (tree paid))) }

    // No tree that the text spells means a list of orders.
    ensures invalid { result ≡ Err Error.Invalid → (t : Tree) → IsJson text.now t
        → (orders : Vec Order Global) → ⟦<Vec<Order> as FromJson>⟧.means.reads t orders → ⊥ }
{
    let mut orders: Vec<Order> = from_str(alloc, text)?;
    mark_all_paid(&mut orders);
    let written = to_string(alloc, &orders)?;
    Ok(written)
}
