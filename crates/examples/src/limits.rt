//! A limit that is looked up by its name.
ghost use Rattle.std.specs.Prelude.{◌≡◌, ℕ, Err, IfOk, String};
ghost use Rattle.std.specs.BTreeMap.{get_by_text};
ghost use Rattle.miniserde.specs.Tree.{Tree};
ghost use Rattle.miniserde.specs.Value.{IsJson};
ghost use Rattle.miniserde.specs.Lookups.{last_in, IsValueOf};

use miniserde::json::from_str;
use miniserde::{Error, FromJson, Result, gets_last};
use std::alloc::Global;
use std::collections::BTreeMap;

/// Reads an object of limits, and returns the limit of a name, or `None` if no member has the name.
pub fn limit_of(alloc: Global, text: &str, name: &str) -> Result<Option<u64>>
    // The text means a map, and the answer is its entry at the name.
    ensures entry { IfOk result (λ limit. (t : Tree) × (limits : BTreeMap (String Global) ℕ Global) × IsJson text.now t
        × ⟦<BTreeMap<String, u64> as FromJson>⟧.means.reads t limits
        × (limit ≡ get_by_text limits name.now)) }

    // The answer is what the last member of the name means in the text.
    ensures last { IfOk result (λ limit. (t : Tree) × IsJson text.now t
        × IsValueOf ⟦<u64 as FromJson>⟧.means.reads (last_in name.now t) limit) }

    // The text means no such map.
    ensures invalid { result ≡ Err Error.Invalid → (t : Tree) → IsJson text.now t
        → (limits : BTreeMap (String Global) ℕ Global) → ⟦<BTreeMap<String, u64> as FromJson>⟧.means.reads t limits → ⊥ }
{
    let limits: BTreeMap<String, u64> = from_str(alloc, text)?;
    gets_last(&limits);
    Ok(limits.get(name).copied())
}
