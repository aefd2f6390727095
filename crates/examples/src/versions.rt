//! What old texts mean for new types.
ghost use Rattle.std.specs.Prelude.{◌≡◌, ◌↔◌, ◌⊎◌, IfOk, Err, codes};
ghost use Rattle.miniserde.specs.Tree.{Tree};
ghost use Rattle.miniserde.specs.Value.{IsJson};
ghost use Rattle.examples.specs.Versions.{Lacks, state_of, IsUpgraded, IsSameOrder};

use crate::old_order::OldOrder;
use crate::order::Order;
use crate::tasks::{OldState, OldTask, State, Task};
use miniserde::json::from_str;
use miniserde::{Error, FromJson, Result};
use std::alloc::Global;

/// Does nothing. It promises that a tree of an old state means the state of the same name, and nothing else.
pub fn states_kept()
    ensures { (t : Tree) → (v : OldState) → (w : State) → ⟦<OldState as FromJson>⟧.means.reads t v
        → ⟦<State as FromJson>⟧.means.reads t w ↔ (w ≡ state_of v) }
{}

/// Does nothing. It promises what a tree of an old task means, if it has no member of a new field's name.
pub fn task_upgraded()
    ensures { (t : Tree) → (v : OldTask) → (w : Task) → ⟦<OldTask as FromJson>⟧.means.reads t v
        → Lacks (codes "retries") t → Lacks (codes "note") t
        → ⟦<Task as FromJson>⟧.means.reads t w ↔ IsUpgraded v w }
{
    states_kept()
}

/// Does nothing. It promises that a tree without the removed field means no old task.
pub fn colour_needed()
    ensures { (t : Tree) → Lacks (codes "colour") t
        → (v : OldTask) → ⟦<OldTask as FromJson>⟧.means.reads t v → ⊥ }
{}

/// Parses an order of either version.
pub fn load_order(alloc: Global, text: &str) -> Result<Order>
    // The text means the order, or it means none of version 2, and an old one with as many pieces.
    ensures ok { IfOk result (λ w. (t : Tree) × IsJson text.now t × (⟦<Order as FromJson>⟧.means.reads t w
        ⊎ (((u : Order) → ⟦<Order as FromJson>⟧.means.reads t u → ⊥)
        × (v : OldOrder) × ⟦<OldOrder as FromJson>⟧.means.reads t v × IsSameOrder v w))) }

    // The text means no order of either version.
    ensures invalid { result ≡ Err Error.Invalid → (t : Tree) → IsJson text.now t
        → ((w : Order) → ⟦<Order as FromJson>⟧.means.reads t w → ⊥)
        × ((v : OldOrder) → ⟦<OldOrder as FromJson>⟧.means.reads t v → ⊥) }
{
    match from_str::<Order>(alloc, text) {
        Err(Error::Invalid) => {
            let OldOrder { id, count, paid } = from_str(alloc, text)?;
            Ok(Order {
                id,
                quantity: count,
                paid,
                note: None,
            })
        }
        answer => answer,
    }
}
