//! Any type with a place, read from the events of a text.
ghost use Rattle.std.specs.Prelude.{◌≡◌, Err, IfOk};
ghost use Rattle.miniserde.specs.Tree.{Tree};
ghost use Rattle.miniserde.specs.Value.{IsJson};

use miniserde::json::feed;
use miniserde::laws::events_mean;
use miniserde::{Deserialize, Error, Result};
use std::alloc::Global;

/// Reads a text by the place of a type. The value is one that the text's tree means; an invalid text has no value.
pub fn read_by_events<T: Deserialize>(alloc: Global, text: &str) -> Result<T>
    ensures ok { IfOk result (λ v. (t : Tree) × IsJson text.now t × T.means.reads t v) }
    ensures invalid { result ≡ Err Error.Invalid → (t : Tree) → IsJson text.now t → (v : T) → T.means.reads t v → ⊥ }
{
    // Does nothing: it tells the proof that what the place takes is what the type means.
    events_mean::<T>();
    let mut place = T::begin(alloc)?;
    feed(alloc, text, &mut place)?;
    T::take(place)
}
