//! What the place of a struct with `once` answers to a name that it had.
ghost use Rattle.std.specs.Prelude.{◌≡◌, Err, IfOk};

use crate::strict::StrictDemoPlace;
use miniserde::derived::{Error, Global, Result, Visitor};

/// Hands the beginning `{"code":N,"code":` to a fresh place. Returns its answer to the second name, which is `Invalid`;
/// or the first error before it.
pub fn repeated_name(alloc: Global, code: u32) -> Result<Result<()>>
    ensures { IfOk result (λ answer. answer ≡ Err Error.Invalid) }
{
    let mut place = <StrictDemoPlace as Visitor>::begin(alloc)?;
    place.map()?;
    place.key("code")?;
    place.nonnegative(u64::from(code))?;
    Ok(place.key("code"))
}
