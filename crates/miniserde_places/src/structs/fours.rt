//! Four fields as one link of the chain, for structs of many fields.
ghost use Rattle.miniserde_places.specs.FieldPlaces.{wrapper_field_places};

use super::fields::{FieldOf, Fields};
use miniserde_model::error::Result;
use miniserde_place::de::{Step, Visitor};
use miniserde_read::FromJson;
use miniserde_record::record::{Parts, Repeats};
use std::alloc::Global;

/// Four fields of the types `A` to `D` with the places `P`, `Q`, `S` and `U`, and the fields `R`
/// after them. `O` is the mark of all four, and says whether each takes one member alone. The time
/// to check a proof doubles with each nested field, and a block of four counts as one.
#[derive(Drop)]
pub struct FourOf<P, A, Q, B, S, C, U, D, O, R> {
    fields: FieldOf<P, A, O, FieldOf<Q, B, O, FieldOf<S, C, O, FieldOf<U, D, O, R>>>>,
}

impl<P: Visitor, Q: Visitor, S: Visitor, U: Visitor, O: Repeats, R: Fields> Fields
    for FourOf<P, P::Out, Q, Q::Out, S, S::Out, U, U::Out, O, R>
where
    P::Out: FromJson,
    Q::Out: FromJson,
    S::Out: FromJson,
    U::Out: FromJson,
{
    type Values = Parts<P::Out, Parts<Q::Out, Parts<S::Out, Parts<U::Out, R::Values>>>>;

    ghost meaning = { wrapper_field_places (λ f. f.fields) ⟦<FieldOf<P, P::Out, O, FieldOf<Q, Q::Out, O, FieldOf<S, S::Out, O, FieldOf<U, U::Out, O, R>>>> as Fields>⟧.meaning };

    ghost join_infallible = { ⟦<FieldOf<P, P::Out, O, FieldOf<Q, Q::Out, O, FieldOf<S, S::Out, O, FieldOf<U, U::Out, O, R>>>> as Fields>⟧.join_infallible };

    fn new() -> FourOf<P, P::Out, Q, Q::Out, S, S::Out, U, U::Out, O, R> {
        FourOf {
            fields: <FieldOf<
                P,
                P::Out,
                O,
                FieldOf<Q, Q::Out, O, FieldOf<S, S::Out, O, FieldOf<U, U::Out, O, R>>>,
            > as Fields>::new(),
        }
    }

    fn begin_child(&mut self, alloc: Global, names: &[&str], name: &str) -> Result<()> {
        self.fields.begin_child(alloc, names, name)
    }

    fn step(&mut self, event: Step<'_>) -> Result<bool> {
        self.fields.step(event)
    }

    fn join(&mut self) -> Result<()> {
        self.fields.join()
    }

    fn can_end(&self) -> bool {
        self.fields.can_end()
    }

    fn end(self) -> Option<Self::Values> {
        let FourOf { fields } = self;
        fields.end()
    }
}
