//! A caller that works something out of what it reads.
ghost use Rattle.std.specs.Prelude.{◌≡◌, ◌<◌, ◌^◌, IfOk, Err, Vec};
ghost use Rattle.std.specs.List.{sum_by};
ghost use Rattle.std.specs.Option.{SomeIff};
ghost use Rattle.miniserde.specs.Tree.{Tree};
ghost use Rattle.miniserde.specs.Value.{IsJson};
ghost use Rattle.examples.specs.Orders.{quantity_of};

use crate::order::Order;
use miniserde::json::from_str;
use miniserde::{Error, FromJson, Result};
use std::alloc::Global;

// The sum of the orders' quantities, where it is below 2^32.
fn sum(orders: &Vec<Order>) -> Option<u32>
    ensures { SomeIff result (sum_by quantity_of orders.now.items < 2 ^ 32) (sum_by quantity_of orders.now.items) }
{
    let mut total: u32 = 0;
    for order in orders {
        total = total.checked_add(order.quantity)?;
    }
    Some(total)
}

/// How many pieces the orders of a text are of, or `None` where that passes 2^32-1.
pub fn total(alloc: Global, text: &str) -> Result<Option<u32>>
    // The text means a list of orders, and the answer is the sum of their quantities where that is below 2^32.
    ensures ok { IfOk result (λ answer. (t : Tree) × (orders : Vec Order Global) × IsJson text.now t
        × ⟦<Vec<Order> as FromJson>⟧.means.reads t orders
        × SomeIff answer (sum_by quantity_of orders.items < 2 ^ 32) (sum_by quantity_of orders.items)) }

    // The text means no list of orders.
    ensures invalid { result ≡ Err Error.Invalid → (t : Tree) → IsJson text.now t
        → (orders : Vec Order Global) → ⟦<Vec<Order> as FromJson>⟧.means.reads t orders → ⊥ }
{
    let orders: Vec<Order> = from_str(alloc, text)?;
    Ok(sum(&orders))
}
