//! An error of one's own around the errors of two libraries: `?` makes it of either, and a clause says which it is.
ghost use Rattle.std.specs.Prelude.{◌≡◌, Some, Ok, Err, IfOk};
ghost use Rattle.uuid.specs.Text.{parsed};
ghost use Rattle.miniserde.specs.Tree.{Tree};
ghost use Rattle.miniserde.specs.Value.{IsJson};
ghost use Rattle.miniserde.specs.declared.Error.{Error};
ghost use Rattle.ids.specs.declared.requests.RequestError.{RequestError};

use crate::ids::{Account, AccountId};
use miniserde::FromJson;
use miniserde::json::from_str;
use std::alloc::Global;
use uuid::Uuid;

/// Why a request is refused.
#[derive(Clone, Copy, PartialEq, Eq, Debug)]
pub enum RequestError {
    /// The path is no identifier.
    Path(uuid::Error),
    /// The body means no account, or an allocation failed.
    Body(miniserde::Error),
}

impl From<uuid::Error> for RequestError {
    ghost from_gives = { λ error e. e ≡ RequestError.Path error };

    fn from(error: uuid::Error) -> RequestError {
        RequestError::Path(error)
    }
}

impl From<miniserde::Error> for RequestError {
    ghost from_gives = { λ error e. e ≡ RequestError.Body error };

    fn from(error: miniserde::Error) -> RequestError {
        RequestError::Body(error)
    }
}

/// Returns the identifier that a path is, and the account that a body means. The error says which of the two is refused,
/// or that an allocation failed.
pub fn addressed(
    alloc: Global,
    path: &str,
    body: &str,
) -> Result<(AccountId, Account), RequestError>
    ensures path { IfOk result (λ r. parsed path.now ≡ Some r.0.0) }
    ensures body { IfOk result (λ r. (t : Tree) × IsJson body.now t × ⟦<Account as FromJson>⟧.means.reads t r.1) }
    ensures no_path { (e : _) → result ≡ Err (RequestError.Path e) → ((u : _) × (parsed path.now ≡ Some u)) → ⊥ }
    ensures no_body { result ≡ Err (RequestError.Body Error.Invalid)
        → (t : Tree) → IsJson body.now t → (a : Account) → ⟦<Account as FromJson>⟧.means.reads t a → ⊥ }
{
    let id = AccountId(Uuid::parse_str(path)?);
    let account = from_str(alloc, body)?;
    Ok((id, account))
}
