//! A struct with one field, whose name and mark are types, and one that stands for any object.
ghost use Rattle.std.specs.Prelude.{[], refl};
ghost use Rattle.miniserde.specs.FieldsMeaning.{field_and, no_fields, struct_meaning};
ghost use Rattle.refused.specs.Wrong.{first_alone, first_apart};

use crate::names::Names;
use miniserde::derived::{Event, Source};
use miniserde::record::{Mark, MarkedSlot, NoSlot, Parts, Record, Slots, read_record};
use miniserde::{FromJson, Result};
use std::marker::PhantomData;

/// A struct with one field of the type `T` and the mark `M`, which has the first of the names `N`.
#[derive(Drop)]
pub struct Alone<N, T, M> {
    value: T,
    of: PhantomData<(N, M)>,
}

impl<N: Names, T: FromJson, M: Mark<T>> Record for Alone<N, T, M> {
    type Values = Parts<T, ()>;

    ghost names = { first_alone N.names };

    ghost values = { λ v. (v.value, tt) };

    ghost made = { λ x. record { value = x.0; of = record {} } };

    ghost bijective = { (λ v. refl, λ x. refl) };

    ghost distinct_names = { first_apart N.names };

    fn names() -> &'static [&'static str] {
        match N::names().split_first() {
            Some(_) => &N::names()[..1],
            None => &[],
        }
    }

    fn build(parts: Self::Values) -> Alone<N, T, M> {
        let Parts(value, ()) = parts;
        Alone {
            value,
            of: PhantomData,
        }
    }
}

impl<N: Names, T: FromJson, M: Mark<T>> FromJson for Alone<N, T, M> {
    ghost means = { struct_meaning (field_and M.once M.given T.means T.absent no_fields) (first_alone N.names) (λ v. (v.value, tt)) };

    fn missing() -> Option<Alone<N, T, M>> {
        None
    }

    fn read<'a>(token: Event<'a>, source: &mut Source<'a>) -> Result<Alone<N, T, M>> {
        read_record::<Alone<N, T, M>, MarkedSlot<T, M, NoSlot>>(token, source)
    }
}

/// Any object, of which nothing is kept.
#[derive(Drop)]
pub struct AnyObject {}

impl Record for AnyObject {
    type Values = ();

    ghost names = { [] };

    ghost values = { λ _. tt };

    ghost made = { λ _. record {} };

    ghost bijective = { (λ v. refl, λ x. refl) };

    ghost distinct_names = { refl };

    fn names() -> &'static [&'static str] {
        &[]
    }

    fn build(_parts: ()) -> AnyObject {
        AnyObject {}
    }
}

impl FromJson for AnyObject {
    ghost means = { struct_meaning no_fields [] (λ _. tt) };

    fn missing() -> Option<AnyObject> {
        None
    }

    fn read<'a>(token: Event<'a>, source: &mut Source<'a>) -> Result<AnyObject> {
        read_record::<AnyObject, NoSlot>(token, source)
    }
}
