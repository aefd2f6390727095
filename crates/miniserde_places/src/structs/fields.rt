//! The fields of a struct that are collected from events, as a chain. The current value is that of the member that is
//! being read. A member whose name no field has is skipped: the end of the chain takes its value, and drops it.
ghost use Rattle.std.specs.Prelude.{◌≡◌, ◌&&◌, Bool, true, false, Option, None, Some, Ok, Err, [], IfOk, option_map, is_some, map};
ghost use Rattle.miniserde_model.specs.Position.{complete};
ghost use Rattle.miniserde_model.specs.declared.error.Error.{Error};
ghost use Rattle.miniserde_read.specs.Events.{event_of};
ghost use Rattle.miniserde_place.specs.Place.{IsFresh};
ghost use Rattle.miniserde_read.specs.Events.{EventInRange};
ghost use Rattle.miniserde_place.specs.Container.{HandsOn};
ghost use Rattle.miniserde_places.specs.FieldPlaces.{FieldPlacesMeaning, no_field_places, field_place_and};

use miniserde_model::error::{Error, Result};
use miniserde_place::de::container::hand_on;
use miniserde_place::de::{Ignore, Step, Visitor, ignore};
use miniserde_read::FromJson;
use miniserde_record::record::{Parts, Repeats};
use std::alloc::Global;
use std::marker::PhantomData;
use std::mem;

/// A chain of the fields of a struct: their values so far, and the place of the current value.
pub trait Fields: Drop {
    /// The fields' values, in their order.
    type Values;

    // Which members mean which values of the fields, and what a contract sees of the place of the
    // current value.
    ghost meaning: { FieldPlacesMeaning Self Self.Values };

    // Whether `join` returns `Memory` only if the place of the current value keeps that error.
    ghost join_infallible: { Bool } = { false };

    /// Returns the chain at the start: no field has a value yet.
    fn new() -> Self
        ensures { meaning.state result ≡ meaning.by_trees.empty };

    /// Begins a fresh place for the value of a member whose name is `name`. `names` has the names of the fields of this
    /// chain, in their order. A field for which it has no name takes no member. Returns `Invalid` if the field of that
    /// name takes one member alone and has a value already, and `Memory` if an allocation fails.
    fn begin_child(&mut self, alloc: Global, names: &[&str], name: &str) -> Result<()>
        ensures fresh { IfOk result (λ _. IsFresh
            (meaning.by_events (map (λ n. n.now) names.now) (meaning.state self.old) name.now)
            (meaning.child self.new)) }
        ensures invalid { result ≡ Err Error.Invalid
            → meaning.by_trees.refuses (map (λ n. n.now) names.now) (meaning.state self.old) name.now ≡ true }
        ensures repeats { meaning.by_trees.refuses (map (λ n. n.now) names.now) (meaning.state self.old) name.now ≡ true
            → result ≡ Err Error.Invalid };

    /// Hands an event to the place of the current value, unless the value is complete. Returns whether it did, or the
    /// error of that place.
    fn step(&mut self, event: Step<'_>) -> Result<bool>
        requires { EventInRange (event_of event) }
        ensures { HandsOn (meaning.child self.old) (event_of event.entry) result (meaning.child self.new) };

    /// Adds the current value, which is complete, to the values so far. It replaces an earlier value of the same field.
    /// A skipped value adds nothing. Returns the error that its place keeps, `Invalid` if the events mean no value, or
    /// `Memory` if an allocation fails.
    fn join(&mut self) -> Result<()>
        ensures joined { IfOk result (λ _. (meaning.child self.old).outcome [] ≡ Some (meaning.state self.new)) }
        ensures invalid { result ≡ Err Error.Invalid → (meaning.child self.old).refused ≡ None
            → (meaning.child self.old).at ≡ complete → (meaning.child self.old).outcome [] ≡ None }
        ensures infallible { join_infallible ≡ true → result ≡ Err Error.Memory
            → (meaning.child self.old).refused ≡ Some Error.Memory }
        ensures sticky { (r : Error) → (meaning.child self.old).refused ≡ Some r → result ≡ Err r };

    /// Returns whether each field has a value, from a member or by `missing`.
    fn can_end(&self) -> bool
        ensures { result ≡ is_some (meaning.by_trees.end (meaning.state self.now)) };

    /// Returns the values of the fields, from members or by `missing`, or `None` if a field has none.
    fn end(self) -> Option<Self::Values>
        ensures { option_map meaning.by_trees.content result ≡ meaning.by_trees.end (meaning.state self) };
}

/// The end of a chain of fields. It takes the values of members whose name no field has, and drops them. If no member
/// was begun, events go to its place too.
#[derive(Drop)]
pub struct NoField {
    skipped: Ignore,
}

impl Fields for NoField {
    type Values = ();

    ghost meaning = { no_field_places (λ f. ⟦<Ignore as Visitor>⟧.meaning.view f.skipped) };

    ghost join_infallible = { true };

    fn new() -> NoField {
        NoField { skipped: ignore() }
    }

    fn begin_child(&mut self, _alloc: Global, _names: &[&str], _name: &str) -> Result<()> {
        self.skipped = ignore();
        Ok(())
    }

    fn step(&mut self, event: Step<'_>) -> Result<bool> {
        hand_on(&mut self.skipped, event)
    }

    fn join(&mut self) -> Result<()> {
        mem::replace(&mut self.skipped, ignore()).take()
    }

    fn can_end(&self) -> bool {
        true
    }

    fn end(self) -> Option<()> {
        Some(())
    }
}

/// A field of the type `T`, and the fields `R` after it. It has its value so far, and its place `P` while a member of
/// its name is read. `O` is its mark, `Plain` or `Once<Plain>`, and says whether the field takes one member alone.
#[derive(Drop)]
pub struct FieldOf<P, T, O, R> {
    value: Option<T>,
    child: Option<P>,
    once: PhantomData<O>,
    rest: R,
}

impl<P: Visitor, O: Repeats, R: Fields> Fields for FieldOf<P, P::Out, O, R>
where
    P::Out: FromJson,
{
    type Values = Parts<P::Out, R::Values>;

    ghost meaning = { field_place_and O.once P.meaning P.Out.absent
        (record { value = λ f. f.value; child = λ f. f.child; rest = λ f. f.rest }) R.meaning };

    // `join` takes the value out of its place and allocates nothing besides, so it fails to allocate
    // only if `take` of that place does.
    ghost join_infallible = { P.take_infallible && R.join_infallible };

    fn new() -> FieldOf<P, P::Out, O, R> {
        FieldOf {
            value: None,
            child: None,
            once: PhantomData,
            rest: R::new(),
        }
    }

    #[inline(always)]
    fn begin_child(&mut self, alloc: Global, names: &[&str], name: &str) -> Result<()> {
        match names.split_first() {
            Some((first, more)) => {
                if name == *first {
                    if O::is_once() && self.value.is_some() {
                        return Err(Error::Invalid);
                    }
                    self.child = Some(P::begin(alloc)?);
                    Ok(())
                } else {
                    self.child = None;
                    self.rest.begin_child(alloc, more, name)
                }
            }
            // `names` has no name for this field.
            None => {
                self.child = None;
                self.rest.begin_child(alloc, names, name)
            }
        }
    }

    fn step(&mut self, event: Step<'_>) -> Result<bool> {
        match &mut self.child {
            Some(place) => hand_on(place, event),
            None => self.rest.step(event),
        }
    }

    #[inline(always)]
    fn join(&mut self) -> Result<()> {
        match self.child.take() {
            Some(place) => {
                self.value = Some(place.take()?);
                Ok(())
            }
            None => self.rest.join(),
        }
    }

    fn can_end(&self) -> bool {
        (self.value.is_some() || <P::Out as FromJson>::missing().is_some()) && self.rest.can_end()
    }

    fn end(self) -> Option<Parts<P::Out, R::Values>> {
        let FieldOf {
            value,
            child: _,
            once: _,
            rest,
        } = self;
        let value = match value {
            Some(value) => value,
            None => <P::Out as FromJson>::missing()?,
        };
        Some(Parts(value, rest.end()?))
    }
}
