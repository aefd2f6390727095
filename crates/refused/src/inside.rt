//! Fields that are structs, whose own fields are looked for too.
ghost use Rattle.std.specs.Prelude.{◌≡◌, ◌++◌, ◌⊎◌};
ghost use Rattle.miniserde.specs.Fields.{field_rule};
ghost use Rattle.miniserde.specs.FieldsMeaning.{field_and};
ghost use Rattle.refused.specs.Wrong.{IsWrongWithin, alone, field_gives, first_alone, later_names, optional_gives};

use crate::alone::AnyObject;
use crate::find::FieldByField;
use crate::names::{LaterNames, Names};
use crate::path::FieldPath;
use crate::probes::Probes;
use crate::way::{Through, ThroughOption, Way, path_to};
use miniserde::Result;
use miniserde::record::{Mark, Parts, Plain};
use std::alloc::Global;
use std::marker::PhantomData;

/// A field of the struct `T` with the mark `M`, whose own fields are looked for too, and the fields `R` after it.
pub struct ProbeInto<T, M, R> {
    of: PhantomData<(T, M, R)>,
}

impl<T: FieldByField, M: Mark<T>, R: Probes> Probes for ProbeInto<T, M, R> {
    type Values = Parts<T, R::Values>;

    ghost meaning = { field_and M.once M.given T.means T.absent R.meaning };

    ghost wrong = { λ gives here names path t.
        IsWrongWithin (record { gives = gives; here = here; names = names; rule = field_rule M.once M.given T.means T.absent })
        (record { gives = field_gives gives names; wrong = T.wrong; right = T.right }) path t
        ⊎ (gives _ (alone (field_rule M.once M.given T.means T.absent) (first_alone names)) t
        × R.wrong gives here (later_names names) path t) };

    ghost right = { λ gives names t.
        gives _ (alone (field_rule M.once M.given T.means T.absent) (first_alone names)) t
        × R.right gives (later_names names) t };

    fn probe<W: Way, N: Names>(alloc: Global, text: &str) -> Result<Option<FieldPath>> {
        if W::has::<N, T, M>(alloc, text)? {
            return R::probe::<W, LaterNames<N>>(alloc, text);
        }
        if !W::has::<N, AnyObject, Plain>(alloc, text)? {
            return Ok(Some(path_to::<W, N>(alloc)?));
        }
        match T::probe::<Through<W, N>>(alloc, text)? {
            Some(path) => Ok(Some(path)),
            None => Ok(Some(path_to::<W, N>(alloc)?)),
        }
    }

    fn tells<W: Way, N: Names>() {
        T::by_fields::<Through<W, N>>();
        R::tells::<W, LaterNames<N>>()
    }
}

/// A field of an `Option` of the struct `T` with the mark `M`, whose own fields are looked for too, and the fields `R`
/// after it.
pub struct ProbeIntoOption<T, M, R> {
    of: PhantomData<(T, M, R)>,
}

impl<T: FieldByField, M: Mark<Option<T>>, R: Probes> Probes for ProbeIntoOption<T, M, R> {
    ghost use Rattle.std.specs.Prelude.{Some, None};
    ghost use Rattle.miniserde.specs.Meanings.{option_meaning};

    type Values = Parts<Option<T>, R::Values>;

    ghost meaning = { field_and M.once M.given (option_meaning T.means) (Some None) R.meaning };

    ghost wrong = { λ gives here names path t.
        IsWrongWithin (record {
          gives = gives;
          here = here;
          names = names;
          rule = field_rule M.once M.given (option_meaning T.means) (Some None);
        })
        (record { gives = optional_gives gives names; wrong = T.wrong; right = T.right }) path t
        ⊎ (gives _ (alone (field_rule M.once M.given (option_meaning T.means) (Some None)) (first_alone names)) t
        × R.wrong gives here (later_names names) path t) };

    ghost right = { λ gives names t.
        gives _ (alone (field_rule M.once M.given (option_meaning T.means) (Some None)) (first_alone names)) t
        × R.right gives (later_names names) t };

    fn probe<W: Way, N: Names>(alloc: Global, text: &str) -> Result<Option<FieldPath>> {
        if W::has::<N, Option<T>, M>(alloc, text)? {
            return R::probe::<W, LaterNames<N>>(alloc, text);
        }
        if !W::has::<N, Option<AnyObject>, Plain>(alloc, text)? {
            return Ok(Some(path_to::<W, N>(alloc)?));
        }
        match T::probe::<ThroughOption<W, N>>(alloc, text)? {
            Some(path) => Ok(Some(path)),
            None => Ok(Some(path_to::<W, N>(alloc)?)),
        }
    }

    fn tells<W: Way, N: Names>() {
        T::by_fields::<ThroughOption<W, N>>();
        R::tells::<W, LaterNames<N>>()
    }
}
