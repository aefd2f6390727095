//! Callers of a generic struct: at one type, and at any.
ghost use Rattle.std.specs.Prelude.{◌≡◌, None, IfOk, Err, vec_len, map, string_bytes};
ghost use Rattle.miniserde.specs.Compact.{compact};
ghost use Rattle.examples.specs.Orders.{paid_if_small};
ghost use Rattle.miniserde.specs.Tree.{Tree};
ghost use Rattle.miniserde.specs.Value.{IsJson};

use crate::order::Order;
use crate::page::Page;
use miniserde::json::{from_str, to_string};
use miniserde::{Error, FromJson, Result, Serialize};
use std::alloc::Global;

/// Reads a page of orders, and returns how many orders it has.
pub fn count_of(alloc: Global, text: &str) -> Result<usize>
    ensures ok { IfOk result (λ n. (t : Tree) × (p : Page Order) × IsJson text.now t
        × ⟦<Page<Order> as FromJson>⟧.means.reads t p × (n ≡ vec_len p.items)) }
    ensures invalid { result ≡ Err Error.Invalid → (t : Tree) → IsJson text.now t
        → ⟦<Page<Order> as FromJson>⟧.means.from_tree t ≡ None }
{
    let page: Page<Order> = from_str(alloc, text)?;
    Ok(page.items.len())
}

/// Reads a page of anything, and returns the name of the next page.
pub fn next_of<T: FromJson>(alloc: Global, text: &str) -> Result<Option<String>>
    ensures { IfOk result (λ next. (t : Tree) × (p : Page T) × IsJson text.now t
        × ⟦<Page<T> as FromJson>⟧.means.reads t p × (next ≡ p.next)) }
{
    let page: Page<T> = from_str(alloc, text)?;
    let Page { items: _, next } = page;
    Ok(next)
}

// Marks the order as paid if it is of fewer than ten pieces.
fn pay_if_small(order: &mut Order)
    ensures { order.new ≡ paid_if_small order.old }
{
    if order.quantity < 10 {
        order.paid = true;
    }
}

// Marks each order of fewer than ten pieces as paid.
fn pay_each_small(orders: &mut Vec<Order>)
    ensures { orders.new.items ≡ map paid_if_small orders.old.items }
{
    for order in orders.iter_mut() {
        pay_if_small(order);
    }
}

/// Reads a page of orders, marks those of fewer than ten pieces as paid, and writes the page.
pub fn pay_small(alloc: Global, text: &str) -> Result<String>
    // The text means a page, and the answer is the compact text of that page with its orders so changed.
    ensures { IfOk result (λ s. (t : Tree) × (p : Page Order) × (q : Page Order) × IsJson text.now t
        × ⟦<Page<Order> as FromJson>⟧.means.reads t p
        × (q.items.items ≡ map paid_if_small p.items.items) × (q.next ≡ p.next)
        × (string_bytes s ≡ compact (⟦<Page<Order> as Serialize>⟧.tree q))) }
{
    let mut page: Page<Order> = from_str(alloc, text)?;
    pay_each_small(&mut page.items);
    let written = to_string(alloc, &page)?;
    Ok(written)
}
