//! A store of requests by number: each is a row of text, which reads as a request with the same tree.
ghost use Rattle.std.specs.Prelude.{◌≡◌, ℕ, IfOk, IfSome, OnOk, OnErr, IsErrOf, Ok, Err, Some, None, String, string_bytes};
ghost use Rattle.std.specs.BTreeMap.{get, IsUnchanged};
ghost use Rattle.std.specs.Ordering.{nat_cmp};
ghost use Rattle.miniserde.specs.Value.{IsJson};

use crate::request::Request;
use miniserde::de::Ranged;
use miniserde::json::to_string;
use miniserde::{Error, Result, Serialize, read_back};
use std::alloc::Global;
use std::collections::BTreeMap;

/// Puts a request under a number, in the place of the one that is there.
pub fn put(
    alloc: Global,
    rows: &mut BTreeMap<u64, String>,
    number: u64,
    request: &Request,
) -> Result<()>
    // The row of that number spells the request's tree, and the other rows stay.
    ensures ok { OnOk result ((row : String Global) × (get nat_cmp rows.new number ≡ Some row)
        × IsJson (string_bytes row) (⟦<Request as Serialize>⟧.tree request.now)) }
    ensures others { (other : ℕ) → (other ≡ number → ⊥) → get nat_cmp rows.new other ≡ get nat_cmp rows.old other }

    // An error changes no row, and is `Memory`.
    ensures err { OnErr result (IsUnchanged rows.old rows.new) }
    ensures memory { OnErr result (IsErrOf result Error.Memory) }
{
    let row = to_string(alloc, request)?;
    rows.insert(number, row)?;
    Ok(())
}

/// Returns the request of a number, if there is one.
pub fn find(alloc: Global, rows: &BTreeMap<u64, String>, number: u64) -> Result<Option<Request>>
    // If the row spells a request's tree, as `put` leaves it, the answer has that tree.
    ensures some { IfOk result (λ answer. IfSome answer (λ read. (row : String Global) (v : Request)
        → get nat_cmp rows.now number ≡ Some row → ⟦<Request as Ranged>⟧.valid v
        → IsJson (string_bytes row) (⟦<Request as Serialize>⟧.tree v)
        → ⟦<Request as Serialize>⟧.tree read ≡ ⟦<Request as Serialize>⟧.tree v)) }

    // There is no such row.
    ensures none { result ≡ Ok None → get nat_cmp rows.now number ≡ None }

    // There is one, and it spells no request's tree.
    ensures invalid { result ≡ Err Error.Invalid → (row : String Global) × (get nat_cmp rows.now number ≡ Some row)
        × ((v : Request) → ⟦<Request as Ranged>⟧.valid v → IsJson (string_bytes row) (⟦<Request as Serialize>⟧.tree v) → ⊥) }
{
    match rows.get(&number) {
        Some(row) => {
            let request: Request = read_back(alloc, row.as_str())?;
            Ok(Some(request))
        }
        None => Ok(None),
    }
}
