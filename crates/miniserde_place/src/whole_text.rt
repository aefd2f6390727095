//! Hands the events of a whole text to a place.
ghost use Rattle.std.specs.Prelude.{◌≡◌, ◌⊎◌, Some, None, Ok, Err, IfOk, IfErr};
ghost use Rattle.miniserde_model.specs.Tree.{Tree};
ghost use Rattle.miniserde_model.specs.Value.{IsJson};
ghost use Rattle.miniserde_model.specs.Step.{events};
ghost use Rattle.miniserde_model.specs.Position.{start};
ghost use Rattle.miniserde_model.specs.declared.error.Error.{Error};
ghost use Rattle.miniserde_place.specs.Place.{AdvancesBy, BeginsTree};

use crate::de::Visitor;
use crate::engine::feed_from;
use miniserde_model::error::{Error, Result};
use miniserde_read::Source;
use std::alloc::Global;

/// Hands a fresh place the events of the value that a whole text spells, in order, while it reads
/// the text. Returns the first error of the place, `Invalid` if the text is not JSON, or `Memory` if
/// an allocation fails. After an error, either the place keeps it, or the place has no error and has
/// taken a prefix of the events of some tree.
pub fn feed<V: Visitor>(alloc: Global, j: &str, place: &mut V) -> Result<()>
    requires unrefused { (V.meaning.view place.old).refused ≡ None }
    requires fresh { (V.meaning.view place.old).at ≡ start }
    ensures ok { IfOk result (λ _. (t : Tree) × IsJson j.now t ×
        AdvancesBy (V.meaning.view place.old) (events t) (V.meaning.view place.new)) }
    ensures unrefused { IfOk result (λ _. (V.meaning.view place.new).refused ≡ None) }
    ensures one { (t u : Tree) → IsJson j.now t → IsJson j.now u → t ≡ u }
    ensures invalid { result ≡ Err Error.Invalid
        → (t : Tree) → IsJson j.now t → (V.meaning.view place.old).outcome (events t) ≡ None }
    ensures sticky { IfErr result (λ e. ((V.meaning.view place.new).refused ≡ Some e)
        ⊎ (((V.meaning.view place.new).refused ≡ None)
        × BeginsTree (V.meaning.view place.old) (V.meaning.view place.new))) }
{
    let mut source = Source::new(alloc, j);
    let token = source.token()?;
    feed_from(token, &mut source, place)?;
    source.end()
}
