//! Structs whose fields can be looked for one by one, and the call that finds one that is wrong.
ghost use Rattle.std.specs.Prelude.{◌≡◌, ◌⊎◌, true, [], Ok, None, IfErr, IfOk, IfSome, List, map};
ghost use Rattle.miniserde.specs.Tree.{Tree};
ghost use Rattle.miniserde.specs.Value.{IsJson};
ghost use Rattle.miniserde.specs.Objects.{Name, object_of};
ghost use Rattle.miniserde.specs.declared.Error.{Error};
ghost use Rattle.refused.specs.Agree.{IsWrongAt};
ghost use Rattle.refused.specs.Ways.{IsWrongFrom};
ghost use Rattle.refused.specs.Wrong.{Gives, StructIsWrong, object_gives, are_apart, document_gives};

use crate::alone::AnyObject;
use crate::names::NamesOf;
use crate::path::FieldPath;
use crate::probes::Probes;
use crate::way::{Start, Way, is_meant};
use miniserde::de::Ignored;
use miniserde::record::Record;
use miniserde::{FromJson, Result};
use std::alloc::Global;

/// A struct whose fields can be looked for one by one. What `./derive` writes reads the whole text once for each field up
/// to the first that is wrong, and once more for each struct that it looks into.
pub trait FieldByField: FromJson {
    // The last argument but one is a path to a field that is wrong in the tree, by `./derive` the first one. The others are what the place
    // of the struct gives, and the path to that place.
    ghost wrong: { Gives → List Name → List Name → Tree → Type 0 };

    // Each field has a value in the tree, by itself, by what the place of the struct gives.
    ghost right: { Gives → Tree → Type 0 };

    /// Returns a path that is `wrong` in the text at the place `W`, or `None` if each field is `right`. Returns `Memory` if
    /// an allocation fails.
    fn probe<W: Way>(alloc: Global, text: &str) -> Result<Option<FieldPath>>
        ensures some { IfOk result (λ answer. IfSome answer (λ path. (t : Tree) → IsJson text.now t
            → wrong W.gives W.to (map (λ s. s.now) path.names.items) t)) }
        ensures none { result ≡ Ok None → (t : Tree) → IsJson text.now t → right W.gives t }
        ensures memory { IfErr result (λ e. e ≡ Error.Memory) };

    /// Does nothing. It promises that an object at the place `W` gives a struct if each field has a value by itself. If a
    /// path is wrong there, no document that agrees at the path gives a struct at the place.
    fn by_fields<W: Way>()
        ensures right { (t : Tree) → W.gives _ object_gives t → right W.gives t → W.gives _ Self.means.from_tree t }
        ensures wrong { (path : List Name) (t : Tree) → wrong W.gives W.to path t
            → IsWrongFrom W.gives W.to Self.means.from_tree path t };
}

/// Does nothing. It promises of a struct with the fields `P` what `by_fields` promises.
pub fn fields_give<S: Record, P: Probes, W: Way>()
    requires { are_apart [] S.names ≡ true }
    ensures right { (t : Tree) → W.gives _ object_gives t → P.right W.gives S.names t
        → W.gives _ (object_of (P.meaning.from_members S.names P.meaning.empty)) t }
    ensures wrong { (path : List Name) (t : Tree) → P.wrong W.gives W.to S.names path t
        → IsWrongFrom W.gives W.to (object_of (P.meaning.from_members S.names P.meaning.empty)) path t }
{
    P::tells::<W, NamesOf<S>>()
}

/// Returns the path to a field that keeps a text from meaning a struct, or `None` if the text means one or is no JSON.
/// The path is empty only if the text is JSON and no object. Reads the whole text up to three times before the first field,
/// then once for each field up to the wrong one, and once more for each struct that it looks into. Returns `Memory` if an
/// allocation fails.
pub fn wrong_field<S: FieldByField>(alloc: Global, text: &str) -> Result<Option<FieldPath>>
    // The text spells a tree that means no struct. It gives no value for the field at the path, by itself; or the path
    // is empty, and the tree is no object.
    ensures some { IfOk result (λ answer. IfSome answer (λ path. (t : Tree) × IsJson text.now t
        × ((v : S) → S.means.reads t v → ⊥)
        × StructIsWrong (S.wrong document_gives []) (map (λ s. s.now) path.names.items) t)) }

    // No text that agrees with this one at the path means a struct, whatever else it has. The path is empty only if the
    // text is no object.
    ensures alone { IfOk result (λ answer. IfSome answer (λ path. (t : Tree) → IsJson text.now t
        → (map (λ s. s.now) path.names.items ≡ [] → object_gives t ≡ None)
        × IsWrongAt S.means.reads (map (λ s. s.now) path.names.items) t)) }

    // The text means a struct, or is no JSON.
    ensures none { result ≡ Ok None
        → ((t : Tree) × IsJson text.now t × (v : S) × S.means.reads t v)
        ⊎ ((t : Tree) → IsJson text.now t → ⊥) }

    // It fails only if an allocation fails.
    ensures memory { IfErr result (λ e. e ≡ Error.Memory) }
{
    if is_meant::<S>(alloc, text)? {
        return Ok(None);
    }
    if !is_meant::<Ignored>(alloc, text)? {
        return Ok(None);
    }
    if !is_meant::<AnyObject>(alloc, text)? {
        return Ok(Some(FieldPath::new(alloc)));
    }
    S::by_fields::<Start>();
    S::probe::<Start>(alloc, text)
}
