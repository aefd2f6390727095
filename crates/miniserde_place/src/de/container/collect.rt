//! The trait `Collect`: what a type of containers says of itself, so that one place serves all of them.
ghost use Rattle.std.specs.Prelude.{◌≡◌, ◌↔◌, Bool, true, false, IsTrue, Option, Some, None, Ok, Err, List, []};
ghost use Rattle.std.specs.Prelude.{IfOk, IfErr, MatchOption, is_some};
ghost use Rattle.miniserde_model.specs.Step as step;
ghost use Rattle.miniserde_model.specs.Position.{complete};
ghost use Rattle.miniserde_read.specs.Events.{event_of};
ghost use Rattle.miniserde_place.specs.Place.{IsFresh};
ghost use Rattle.miniserde_read.specs.Events.{EventInRange};
ghost use Rattle.miniserde_place.specs.Container.{CollectorMeaning, BeginsChild, HandsOn, opening_event};
ghost use Rattle.miniserde_model.specs.declared.error.Error.{Error};

use super::super::Step;
use miniserde_model::error::{Error, Result};
use std::alloc::Global;

/// A collector: the children of a container so far, and the place of the current child. A `ContainerPlace` calls
/// `step` and `join` only if there is a current child. If there is none, a collector may show the view `no_child`, whose
/// first error is `Invalid`; then these two return `Invalid`.
pub trait Collect: Drop {
    /// The type of the containers.
    type Out;

    // Which trees mean which containers, and what a contract sees of the children and of the
    // current child's place.
    ghost collector_meaning: { CollectorMeaning Self Self.Out };

    // If true, `join` returns `Memory` only if the place of the current child keeps that error.
    ghost join_infallible: { Bool } = { false };

    /// Returns a collector without children. Allocates nothing.
    fn new(alloc: Global) -> Self
        ensures { collector_meaning.state result ≡ collector_meaning.empty };

    /// Returns whether the event opens a container of this type.
    fn opens(event: &Step<'_>) -> bool
        ensures { IsTrue result ↔ (event_of event.now ≡ opening_event collector_meaning.is_object) };

    /// Begins a fresh place for the child that the event begins. It replaces the place of the current
    /// child, if there is one. Returns `Invalid` only if the container can have no such child here, and
    /// always if `refuses` of `collector_meaning` says so; `Memory` if an allocation fails.
    fn begin_child(&mut self, alloc: Global, event: Step<'_>) -> Result<()>
        requires { BeginsChild (event_of event) }
        ensures fresh { IfOk result (λ _. IsFresh
            (collector_meaning.rules.child (collector_meaning.state self.old) (event_of event.entry))
            (collector_meaning.child self.new)) }
        ensures invalid { result ≡ Err Error.Invalid
            → (es : List step.Step) → collector_meaning.rules.child (collector_meaning.state self.old) (event_of event.entry) es ≡ None }
        ensures refuses { collector_meaning.refuses (collector_meaning.state self.old) (event_of event.entry) ≡ true
            → result ≡ Err Error.Invalid };

    /// Hands an event to the place of the current child, unless the child is complete. Returns whether it did, or the
    /// error of that place.
    fn step(&mut self, event: Step<'_>) -> Result<bool>
        requires { EventInRange (event_of event) }
        ensures { HandsOn (collector_meaning.child self.old) (event_of event.entry) result (collector_meaning.child self.new) };

    /// Adds the current child, which is complete, to the children so far. Returns the error that
    /// its place keeps, `Invalid` if the child's events mean no value, or `Memory` if an allocation
    /// fails.
    fn join(&mut self) -> Result<()>
        ensures joined { IfOk result (λ _. (collector_meaning.child self.old).outcome [] ≡ Some (collector_meaning.state self.new)) }
        ensures invalid { result ≡ Err Error.Invalid → (collector_meaning.child self.old).refused ≡ None
            → (collector_meaning.child self.old).at ≡ complete → (collector_meaning.child self.old).outcome [] ≡ None }
        ensures infallible { join_infallible ≡ true → result ≡ Err Error.Memory
            → (collector_meaning.child self.old).refused ≡ Some Error.Memory }
        ensures sticky { (r : Error) → (collector_meaning.child self.old).refused ≡ Some r → result ≡ Err r };

    /// Returns whether the container may end after the children so far.
    fn can_end(&self) -> bool
        ensures { result ≡ is_some (collector_meaning.rules.end (collector_meaning.state self.now)) };

    /// Returns the value of the container, or `None` if it may not end after the children so far. A
    /// current child that was not added is dropped.
    fn end(self) -> Option<Self::Out>
        ensures { MatchOption result (collector_meaning.rules.end (collector_meaning.state self) ≡ None)
            (λ v. collector_meaning.rules.end (collector_meaning.state self) ≡ Some (collector_meaning.by_trees.content v)) };
}
