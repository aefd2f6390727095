//! The one place that serves all types of containers. The trait `Collect` says how they differ.
ghost use Rattle.std.specs.Prelude.{◌≡◌, ◌≢◌, true, Some, None, Ok, Err, IfOk};
ghost use Rattle.miniserde_model.specs.Position.{complete};
ghost use Rattle.miniserde_read.specs.Events.{event_of};
ghost use Rattle.miniserde_place.specs.Place.{Advances, Rejects, IsFresh};
ghost use Rattle.miniserde_read.specs.Events.{EventInRange};
ghost use Rattle.miniserde_place.specs.Container.{HandsOn};
ghost use Rattle.miniserde_model.specs.declared.error.Error.{Error};

mod collect;

use super::{Step, Visitor};
pub use collect::Collect;
use miniserde_model::error::{Error, Result};
use std::alloc::Global;

/// How far the place of a container is in the events of the container.
#[derive(Clone, Copy, Drop)]
pub(crate) enum Stage {
    /// No event came yet.
    Fresh,
    /// The container is open, and has no current child.
    Between,
    /// The container is open, and has a current child, which may be complete.
    Child,
    /// The container has ended.
    Done,
    /// The place failed, with this first error.
    Refused(Error),
}

/// The place of a container. Its collector owns the place of the current child, and hands it the events of that
/// child. After the first error the collector gets no more events.
#[derive(Drop)]
pub struct ContainerPlace<C> {
    alloc: Global,
    stage: Stage,
    collector: C,
}

impl<C: Collect> ContainerPlace<C> {
    ghost use Rattle.miniserde_place.specs.Stage.{container_view, view_between, children, open_child};
    ghost use Rattle.miniserde_place.specs.Stage.{RefusesChild, RefusesOther, CannotFollow};
    ghost use Rattle.miniserde_place.specs.Container.{BeginsChild, opening_event, no_child};

    // Takes an event that is not one of an incomplete child: it opens the container, begins its next child or ends
    // it. A complete child is added to the container first. Returns the first error of the place if it keeps one,
    // `Invalid` if the event does none of these, if the container does not allow it or if the complete child's events
    // mean no value, and `Memory` if an allocation fails. The caller keeps the error.
    #[inline(never)]
    fn step_between_children(&mut self, event: Step<'_>) -> Result<()>
        requires tree { EventInRange (event_of event) }
        requires complete { self.old.stage ≡ Stage.Child → (C.collector_meaning.child self.old.collector).at ≡ complete }
        ensures advances { IfOk result (λ _.
            Advances (container_view C.collector_meaning self.old) (event_of event.entry) (container_view C.collector_meaning self.new)) }
        ensures unrefused { IfOk result (λ _. (container_view C.collector_meaning self.new).refused ≡ None) }
        ensures rejects { result ≡ Err Error.Invalid → (container_view C.collector_meaning self.old).refused ≡ None
            → Rejects (container_view C.collector_meaning self.old) (event_of event.entry) }
        ensures sticky { (r : Error) → (container_view C.collector_meaning self.old).refused ≡ Some r → result ≡ Err r }
        ensures opens { IfOk result (λ _. self.old.stage ≡ Stage.Fresh
            → children C.collector_meaning self.new ≡ Some C.collector_meaning.empty) }
        ensures begins { IfOk result (λ _. (s : C.collector_meaning.State) → children C.collector_meaning self.old ≡ Some s
            → BeginsChild (event_of event.entry) → (self.new.stage ≡ Stage.Child)
            × IsFresh (C.collector_meaning.rules.child s (event_of event.entry)) (C.collector_meaning.child self.new.collector)) }
        ensures refuses { RefusesChild C.collector_meaning C.join_infallible self.old (event_of event.entry) result self.new }
        ensures opens_childless { IfOk result (λ _. self.old.stage ≡ Stage.Fresh
            → open_child C.collector_meaning self.new ≡ no_child) }
        ensures opens_only { self.old.stage ≡ Stage.Fresh
            → event_of event.entry ≢ opening_event C.collector_meaning.is_object → result ≡ Err Error.Invalid }
        ensures refuses_other { RefusesOther C.collector_meaning C.join_infallible self.old (event_of event.entry) result }
        ensures ended { self.old.stage ≡ Stage.Done → result ≡ Err Error.Invalid }
    {
        match self.stage {
            Stage::Fresh => {
                if !C::opens(&event) {
                    return Err(Error::Invalid);
                }
                // No contract speaks of the collector before the first event, so a new one is made here.
                self.collector = C::new(self.alloc);
                self.stage = Stage::Between;
                Ok(())
            }
            Stage::Between => self.begin_child_or_end(event),
            Stage::Child => {
                self.collector.join()?;
                self.begin_child_or_end(event)
            }
            Stage::Done => Err(Error::Invalid),
            Stage::Refused(error) => Err(error),
        }
    }

    // Takes an event between two children: begins the next child, or ends the container. Returns `Invalid` if the
    // event does neither, or if the container does not allow it, and `Memory` if an allocation fails.
    fn begin_child_or_end(&mut self, event: Step<'_>) -> Result<()>
        ensures advances { IfOk result (λ _.
            Advances (view_between C.collector_meaning self.old.collector) (event_of event.entry) (container_view C.collector_meaning self.new)) }
        ensures unrefused { IfOk result (λ _. (container_view C.collector_meaning self.new).refused ≡ None) }
        ensures rejects { result ≡ Err Error.Invalid
            → Rejects (view_between C.collector_meaning self.old.collector) (event_of event.entry) }
        ensures begins { IfOk result (λ _. BeginsChild (event_of event.entry) → (self.new.stage ≡ Stage.Child)
            × IsFresh (C.collector_meaning.rules.child (C.collector_meaning.state self.old.collector) (event_of event.entry))
            (C.collector_meaning.child self.new.collector)) }
        ensures refuses { BeginsChild (event_of event.entry)
            → C.collector_meaning.refuses (C.collector_meaning.state self.old.collector) (event_of event.entry) ≡ true
            → result ≡ Err Error.Invalid }
        ensures refuses_other { CannotFollow C.collector_meaning (C.collector_meaning.state self.old.collector) (event_of event.entry)
            → result ≡ Err Error.Invalid }
    {
        match event {
            Step::Element | Step::Key(_) => {
                self.collector.begin_child(self.alloc, event)?;
                self.stage = Stage::Child;
                Ok(())
            }
            Step::Finish => {
                if !self.collector.can_end() {
                    return Err(Error::Invalid);
                }
                self.stage = Stage::Done;
                Ok(())
            }
            _ => Err(Error::Invalid),
        }
    }
}

impl<C: Collect> Visitor for ContainerPlace<C> {
    ghost use Rattle.miniserde_place.specs.Stage.{container_place_meaning, ContainerSteps};

    type Out = C::Out;

    ghost meaning = { container_place_meaning C.collector_meaning };

    ghost begin_infallible = { true };

    ghost take_infallible = { true };

    // What each event does to the children. If each child so far gave a value, an event fails that begins a child for
    // which the collector's `refuses` holds, or that cannot follow the children. A first event that does not open the
    // container, and every event after its end, is `Invalid`, unless the place keeps an error.
    ghost further = { ContainerSteps C.collector_meaning C.join_infallible };

    fn begin(alloc: Global) -> Result<ContainerPlace<C>> {
        Ok(ContainerPlace {
            alloc,
            stage: Stage::Fresh,
            collector: C::new(alloc),
        })
    }

    fn step(&mut self, event: Step<'_>) -> Result<()> {
        if let Stage::Child = self.stage {
            match self.collector.step(event) {
                Ok(true) => return Ok(()),
                Ok(false) => (),
                Err(error) => {
                    self.stage = Stage::Refused(error);
                    return Err(error);
                }
            }
        }
        match self.step_between_children(event) {
            Ok(()) => Ok(()),
            Err(error) => {
                self.stage = Stage::Refused(error);
                Err(error)
            }
        }
    }

    fn refuse(&mut self, error: Error) -> Error {
        match self.stage {
            Stage::Refused(first) => first,
            _ => {
                self.stage = Stage::Refused(error);
                error
            }
        }
    }

    fn is_complete(&self) -> bool {
        matches!(self.stage, Stage::Done)
    }

    fn take(self) -> Result<C::Out> {
        let ContainerPlace {
            alloc: _,
            stage,
            collector,
        } = self;
        match stage {
            Stage::Done => collector.end().ok_or(Error::Invalid),
            Stage::Refused(error) => Err(error),
            _ => Err(Error::Invalid),
        }
    }
}

/// Hands an event to a place, unless its value is complete. Returns whether it did, or the error of the place.
pub fn hand_on<V: Visitor>(place: &mut V, event: Step<'_>) -> Result<bool>
    requires { EventInRange (event_of event) }
    ensures { HandsOn (V.meaning.view place.old) (event_of event.entry) result (V.meaning.view place.new) }
{
    if place.is_complete() {
        return Ok(false);
    }
    place.step(event)?;
    Ok(true)
}
