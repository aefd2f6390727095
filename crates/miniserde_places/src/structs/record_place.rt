//! The place of a struct.
ghost use Rattle.miniserde_places.specs.FieldPlaces.{struct_collector};

use super::fields::Fields;
use miniserde_model::error::{Error, Result};
use miniserde_place::de::Step;
use miniserde_place::de::container::{Collect, ContainerPlace};
use miniserde_record::record::Record;
use std::alloc::Global;
use std::marker::PhantomData;

/// A struct with a place, which collects it from events.
pub trait PlacedRecord: Record {
    /// The chain of the struct's fields, which the place collects.
    type Fields: Fields<Values = Self::Values>;
}

/// The collector of a struct: its fields so far.
#[derive(Drop)]
pub struct RecordOf<S, F> {
    fields: F,
    record: PhantomData<S>,
}

/// The place of a struct. `./derive` writes a place type for a struct of a user, with this place
/// inside.
pub type RecordPlace<S> = ContainerPlace<RecordOf<S, <S as PlacedRecord>::Fields>>;

impl<S: PlacedRecord + 'static> Collect for RecordOf<S, S::Fields> {
    type Out = S;

    ghost collector_meaning = { struct_collector S.Fields.meaning S.names S.values (λ c. c.fields) };

    ghost join_infallible = { S.Fields.join_infallible };

    fn new(_alloc: Global) -> RecordOf<S, S::Fields> {
        RecordOf {
            fields: <S::Fields as Fields>::new(),
            record: PhantomData,
        }
    }

    fn opens(event: &Step<'_>) -> bool {
        matches!(event, Step::Map)
    }

    #[inline(always)]
    fn begin_child(&mut self, alloc: Global, event: Step<'_>) -> Result<()> {
        match event {
            Step::Key(name) => self.fields.begin_child(alloc, S::names(), name),
            _ => Err(Error::Invalid),
        }
    }

    fn step(&mut self, event: Step<'_>) -> Result<bool> {
        self.fields.step(event)
    }

    fn join(&mut self) -> Result<()> {
        self.fields.join()
    }

    fn can_end(&self) -> bool {
        self.fields.can_end()
    }

    fn end(self) -> Option<S> {
        let RecordOf { fields, record: _ } = self;
        Some(S::build(fields.end()?))
    }
}
