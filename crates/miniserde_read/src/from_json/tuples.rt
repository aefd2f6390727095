//! Reads tuples of three to six items, from lists of exactly that many elements.
ghost use Rattle.std.specs.Prelude.{[], ◌∷◌};
ghost use Rattle.miniserde_read.specs.Items.{tuple_meaning, no_items, item_and};
ghost use Rattle.miniserde_read.specs.Lacking.{TupleLacks};

use super::FromJson;
use crate::items::{Item, NoItem, read_tuple};
use crate::source::Source;
use miniserde_model::error::Result;
use miniserde_text::json::lex::Event;

impl<A: FromJson, B: FromJson, C: FromJson> FromJson for (A, B, C) {
    ghost means = { tuple_meaning (item_and A.means (item_and B.means (item_and C.means no_items)))
        (λ v. (v.0, (v.1, (v.2, tt)))) };

    ghost lacking = { TupleLacks (A.read_infallible ∷ B.read_infallible ∷ C.read_infallible ∷ []) };

    fn missing() -> Option<(A, B, C)> {
        None
    }

    fn read<'a>(token: Event<'a>, source: &mut Source<'a>) -> Result<(A, B, C)> {
        let (a, (b, (c, ()))) = read_tuple::<Item<A, Item<B, Item<C, NoItem>>>>(token, source)?;
        Ok((a, b, c))
    }
}

impl<A: FromJson, B: FromJson, C: FromJson, D: FromJson> FromJson for (A, B, C, D) {
    ghost means = { tuple_meaning (item_and A.means (item_and B.means (item_and C.means (item_and D.means no_items))))
        (λ v. (v.0, (v.1, (v.2, (v.3, tt))))) };

    ghost lacking = { TupleLacks (A.read_infallible ∷ B.read_infallible ∷ C.read_infallible
        ∷ D.read_infallible ∷ []) };

    fn missing() -> Option<(A, B, C, D)> {
        None
    }

    fn read<'a>(token: Event<'a>, source: &mut Source<'a>) -> Result<(A, B, C, D)> {
        let (a, (b, (c, (d, ())))) = read_tuple::<Item<A, Item<B, Item<C, Item<D, NoItem>>>>>(
            token, source,
        )?;
        Ok((a, b, c, d))
    }
}

impl<A: FromJson, B: FromJson, C: FromJson, D: FromJson, E: FromJson> FromJson for (A, B, C, D, E) {
    ghost means = { tuple_meaning (item_and A.means (item_and B.means (item_and C.means
        (item_and D.means (item_and E.means no_items)))))
        (λ v. (v.0, (v.1, (v.2, (v.3, (v.4, tt)))))) };

    ghost lacking = { TupleLacks (A.read_infallible ∷ B.read_infallible ∷ C.read_infallible
        ∷ D.read_infallible ∷ E.read_infallible ∷ []) };

    fn missing() -> Option<(A, B, C, D, E)> {
        None
    }

    fn read<'a>(token: Event<'a>, source: &mut Source<'a>) -> Result<(A, B, C, D, E)> {
        let (a, (b, (c, (d, (e, ()))))) = read_tuple::<
            Item<A, Item<B, Item<C, Item<D, Item<E, NoItem>>>>>,
        >(token, source)?;
        Ok((a, b, c, d, e))
    }
}

impl<A: FromJson, B: FromJson, C: FromJson, D: FromJson, E: FromJson, F: FromJson> FromJson
    for (A, B, C, D, E, F) {
    ghost means = { tuple_meaning (item_and A.means (item_and B.means (item_and C.means
        (item_and D.means (item_and E.means (item_and F.means no_items))))))
        (λ v. (v.0, (v.1, (v.2, (v.3, (v.4, (v.5, tt))))))) };

    ghost lacking = { TupleLacks (A.read_infallible ∷ B.read_infallible ∷ C.read_infallible
        ∷ D.read_infallible ∷ E.read_infallible ∷ F.read_infallible ∷ []) };

    fn missing() -> Option<(A, B, C, D, E, F)> {
        None
    }

    fn read<'a>(token: Event<'a>, source: &mut Source<'a>) -> Result<(A, B, C, D, E, F)> {
        let (a, (b, (c, (d, (e, (f, ())))))) = read_tuple::<
            Item<A, Item<B, Item<C, Item<D, Item<E, Item<F, NoItem>>>>>>,
        >(token, source)?;
        Ok((a, b, c, d, e, f))
    }
}
