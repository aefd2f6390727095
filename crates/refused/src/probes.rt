//! The fields of a struct, which are looked for one by one.
ghost use Rattle.std.specs.Prelude.{◌≡◌, ◌++◌, ◌⊎◌, true, Ok, None, IfErr, IfOk, IfSome, List, map, ⊤};
ghost use Rattle.miniserde.specs.Tree.{Tree};
ghost use Rattle.miniserde.specs.Value.{IsJson};
ghost use Rattle.miniserde.specs.Objects.{Name};
ghost use Rattle.miniserde.specs.Fields.{field_rule};
ghost use Rattle.miniserde.specs.FieldsMeaning.{FieldsMeaning, field_and, no_fields};
ghost use Rattle.miniserde.specs.declared.Error.{Error};
ghost use Rattle.refused.specs.Ways.{IsWrongFrom};
ghost use Rattle.refused.specs.Wrong.{FieldIsWrong, Gives, alone, object_gives, are_apart, fields_of, first_alone, later_names};

use crate::names::{LaterNames, Names};
use crate::path::FieldPath;
use crate::way::{Way, path_to};
use miniserde::record::{Mark, Parts};
use miniserde::{FromJson, Result};
use std::alloc::Global;
use std::marker::PhantomData;

/// A chain of a struct's fields.
pub trait Probes {
    /// The fields' values, in their order.
    type Values;

    // Which members mean which values of the fields.
    ghost meaning: { FieldsMeaning Self.Values };

    // The last argument but one is a path to the first field that is wrong in the tree. The others are what the place
    // of the struct gives, the path to that place, and the fields' names.
    ghost wrong: { Gives → List Name → List Name → List Name → Tree → Type 0 };

    // Each field has a value in the tree, by itself.
    ghost right: { Gives → List Name → Tree → Type 0 };

    /// Returns a path that is `wrong` in the text at the place `W`, by the fields' names `N`, or `None` if each field is
    /// `right`. Returns `Memory` if an allocation fails.
    fn probe<W: Way, N: Names>(alloc: Global, text: &str) -> Result<Option<FieldPath>>
        ensures some { IfOk result (λ answer. IfSome answer (λ path. (t : Tree) → IsJson text.now t
            → wrong W.gives W.to N.names (map (λ s. s.now) path.names.items) t)) }
        ensures none { result ≡ Ok None → (t : Tree) → IsJson text.now t → right W.gives N.names t }
        ensures memory { IfErr result (λ e. e ≡ Error.Memory) };

    /// Does nothing. If the fields' names are distinct, it promises that an object at the place `W` gives the fields' values
    /// if each field has one by itself. If a path is wrong there, no document that agrees at the path gives them at the
    /// place.
    fn tells<W: Way, N: Names>()
        ensures right { (before : List Name) → are_apart before N.names ≡ true → (t : Tree)
            → W.gives _ object_gives t → right W.gives N.names t
            → W.gives _ (fields_of meaning.from_members meaning.empty before N.names) t }
        ensures wrong { (before : List Name) → are_apart before N.names ≡ true → (path : List Name) (t : Tree)
            → wrong W.gives W.to N.names path t
            → IsWrongFrom W.gives W.to (fields_of meaning.from_members meaning.empty before N.names) path t };
}

/// The end of a chain of fields.
pub struct NoProbe {}

impl Probes for NoProbe {
    type Values = ();

    ghost meaning = { no_fields };

    ghost wrong = { λ _ _ _ _ _. ⊥ };

    ghost right = { λ _ _ _. ⊤ };

    fn probe<W: Way, N: Names>(_alloc: Global, _text: &str) -> Result<Option<FieldPath>> {
        Ok(None)
    }

    fn tells<W: Way, N: Names>() {}
}

/// A field of the type `T` with the mark `M`, and the fields `R` after it.
pub struct Probe<T, M, R> {
    of: PhantomData<(T, M, R)>,
}

impl<T: FromJson, M: Mark<T>, R: Probes> Probes for Probe<T, M, R> {
    type Values = Parts<T, R::Values>;

    ghost meaning = { field_and M.once M.given T.means T.absent R.meaning };

    ghost wrong = { λ gives here names path t.
        FieldIsWrong (record { gives = gives; here = here; names = names; rule = field_rule M.once M.given T.means T.absent }) path t
        ⊎ (gives _ (alone (field_rule M.once M.given T.means T.absent) (first_alone names)) t
        × R.wrong gives here (later_names names) path t) };

    ghost right = { λ gives names t.
        gives _ (alone (field_rule M.once M.given T.means T.absent) (first_alone names)) t
        × R.right gives (later_names names) t };

    fn probe<W: Way, N: Names>(alloc: Global, text: &str) -> Result<Option<FieldPath>> {
        if W::has::<N, T, M>(alloc, text)? {
            return R::probe::<W, LaterNames<N>>(alloc, text);
        }
        Ok(Some(path_to::<W, N>(alloc)?))
    }

    fn tells<W: Way, N: Names>() {
        R::tells::<W, LaterNames<N>>()
    }
}
