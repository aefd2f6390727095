//! Places in a document, as a path of types leads to them.
ghost use Rattle.std.specs.Prelude.{◌≡◌, ◌∷◌, ◌++◌, true, false, [], Ok, None, IfErr, IfOk, IsSome, List, map};
ghost use Rattle.miniserde.specs.Tree.{Tree};
ghost use Rattle.miniserde.specs.Value.{IsJson};
ghost use Rattle.miniserde.specs.Objects.{Name};
ghost use Rattle.miniserde.specs.Fields.{field_rule};
ghost use Rattle.miniserde.specs.declared.Error.{Error};
ghost use Rattle.refused.specs.Ways.{IsWay};
ghost use Rattle.refused.specs.Wrong.{Gives, alone, document_gives, field_gives, first_alone, name_or_empty, optional_gives};
ghost use Rattle.refused.specs.laws.Ways.{document_way, field_way, option_way};

use crate::alone::Alone;
use crate::names::Names;
use crate::path::{FieldPath, enter};
use miniserde::json::from_str;
use miniserde::record::{Mark, Plain};
use miniserde::{Error, FromJson, Result};
use std::alloc::Global;
use std::marker::PhantomData;

/// A place in a document, where structs are read.
pub trait Way {
    // The path to the place.
    ghost to: { List Name };

    // Whether what stands at the place gives a content.
    ghost gives: { Gives };

    // What the place gives depends on what stands at the path alone.
    ghost is_way: { IsWay gives to };

    /// Returns the path to the place, or `Memory` if an allocation fails.
    fn path(alloc: Global) -> Result<FieldPath>
        ensures path { IfOk result (λ p. map (λ s. s.now) p.names.items ≡ to) }
        ensures memory { IfErr result (λ e. e ≡ Error.Memory) };

    /// Returns whether the text has, at the place, a value for a field of the type `T` with the mark `M` and the first of
    /// the names `N`. Returns `Memory` if an allocation fails. No clause says what it returns for a text that is no JSON.
    fn has<N: Names, T: FromJson, M: Mark<T>>(alloc: Global, text: &str) -> Result<bool>
        ensures yes { result ≡ Ok true → (t : Tree) → IsJson text.now t
            → gives _ (alone (field_rule M.once M.given T.means T.absent) (first_alone N.names)) t }
        ensures no { result ≡ Ok false → (t : Tree) → IsJson text.now t
            → gives _ (alone (field_rule M.once M.given T.means T.absent) (first_alone N.names)) t → ⊥ }
        ensures memory { IfErr result (λ e. e ≡ Error.Memory) };
}

/// Returns whether the text means a value of the type. Returns `Memory` if an allocation fails.
pub fn is_meant<T: FromJson>(alloc: Global, text: &str) -> Result<bool>
    ensures meant { result ≡ Ok true → (t : Tree) × IsJson text.now t × (v : T) × T.means.reads t v }
    ensures yes { result ≡ Ok true → (t : Tree) → IsJson text.now t → IsSome (T.means.from_tree t) }
    ensures no { result ≡ Ok false → (t : Tree) → IsJson text.now t → T.means.from_tree t ≡ None }
    ensures not_meant { result ≡ Ok false → (t : Tree) → IsJson text.now t → (v : T) → T.means.reads t v → ⊥ }
    ensures memory { IfErr result (λ e. e ≡ Error.Memory) }
{
    match from_str::<T>(alloc, text) {
        Ok(_) => Ok(true),
        Err(Error::Invalid) => Ok(false),
        Err(error) => Err(error),
    }
}

/// Returns the path from the place `W` to the field of the first of the names `N`, or `Memory` if an allocation fails.
pub fn path_to<W: Way, N: Names>(alloc: Global) -> Result<FieldPath>
    ensures path { IfOk result (λ p. map (λ s. s.now) p.names.items ≡ W.to ++ name_or_empty N.names ∷ []) }
    ensures memory { IfErr result (λ e. e ≡ Error.Memory) }
{
    enter::<N>(W::path(alloc)?)
}

/// The document itself.
pub struct Start {}

impl Way for Start {
    ghost to = { [] };

    ghost gives = { document_gives };

    ghost is_way = { document_way };

    fn path(alloc: Global) -> Result<FieldPath> {
        Ok(FieldPath::new(alloc))
    }

    fn has<N: Names, T: FromJson, M: Mark<T>>(alloc: Global, text: &str) -> Result<bool> {
        is_meant::<Alone<N, T, M>>(alloc, text)
    }
}

/// The field of the first of the names `N`, in the struct at the place `W`.
pub struct Through<W, N> {
    of: PhantomData<(W, N)>,
}

impl<W: Way, N: Names> Way for Through<W, N> {
    ghost to = { W.to ++ name_or_empty N.names ∷ [] };

    ghost gives = { field_gives W.gives N.names };

    ghost is_way = { field_way W.is_way N.names };

    fn path(alloc: Global) -> Result<FieldPath> {
        path_to::<W, N>(alloc)
    }

    fn has<L: Names, T: FromJson, M: Mark<T>>(alloc: Global, text: &str) -> Result<bool> {
        W::has::<N, Alone<L, T, M>, Plain>(alloc, text)
    }
}

/// The optional field of the first of the names `N`, in the struct at the place `W`.
pub struct ThroughOption<W, N> {
    of: PhantomData<(W, N)>,
}

impl<W: Way, N: Names> Way for ThroughOption<W, N> {
    ghost to = { W.to ++ name_or_empty N.names ∷ [] };

    ghost gives = { optional_gives W.gives N.names };

    ghost is_way = { option_way W.is_way N.names };

    fn path(alloc: Global) -> Result<FieldPath> {
        path_to::<W, N>(alloc)
    }

    fn has<L: Names, T: FromJson, M: Mark<T>>(alloc: Global, text: &str) -> Result<bool> {
        W::has::<N, Option<Alone<L, T, M>>, Plain>(alloc, text)
    }
}
