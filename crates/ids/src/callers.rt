//! Calls that read and write accounts.
ghost use Rattle.std.specs.Prelude.{◌≡◌, Ok, Err, IfOk};
ghost use Rattle.miniserde.specs.Normal.{norm};
ghost use Rattle.miniserde.specs.Tree.{Tree};
ghost use Rattle.miniserde.specs.Value.{IsJson};
ghost use Rattle.miniserde.specs.declared.Error.{Error};

use crate::ids::{Account, AccountId};
use miniserde::json::from_str;
use miniserde::{FromJson, Result, means_in_normal_form, read_itself};
use std::alloc::Global;

/// Reads an account, and returns its identifier. Returns `Invalid` if the text means no account, and `Memory` if an
/// allocation fails.
pub fn id_of(alloc: Global, text: &str) -> Result<AccountId>
    ensures ok { IfOk result (λ id. (t : Tree) × (a : Account) × IsJson text.now t
        × ⟦<Account as FromJson>⟧.means.reads t a × (id ≡ a.id)) }
    ensures invalid { result ≡ Err Error.Invalid → (t : Tree) → IsJson text.now t
        → (a : Account) → ⟦<Account as FromJson>⟧.means.reads t a → ⊥ }
{
    let account: Account = from_str(alloc, text)?;
    Ok(account.id)
}

/// Writes an account and reads it again: the same identifiers and the same name. Returns `Memory` if an allocation
/// fails.
pub fn same_account(alloc: Global, account: &Account) -> Result<Account>
    ensures same { IfOk result (λ a. ⟦<Account as FromJson>⟧.means.content a
        ≡ ⟦<Account as FromJson>⟧.means.content account.now) }
    ensures memory { result ≡ Err Error.Invalid → ⊥ }
{
    read_itself(alloc, account)
}

/// Does nothing. It promises that the normal form of a tree that means an account means the same account.
pub fn accounts_are_stable()
    ensures { (t : Tree) (a : Account) → ⟦<Account as FromJson>⟧.means.reads t a
        → ⟦<Account as FromJson>⟧.means.reads (norm t) a }
{
    means_in_normal_form::<Account>()
}
