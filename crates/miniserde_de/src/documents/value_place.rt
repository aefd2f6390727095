//! The place of `Value`, a document of any depth. It collects without recursion.
ghost use Rattle.std.specs.Prelude.{◌≡◌, true, [], Option, Some, None, Err, IfOk, OnOk};
ghost use Rattle.miniserde_model.specs.declared.error.Error.{Error};
ghost use Rattle.miniserde_read.specs.Events.{event_of};
ghost use Rattle.miniserde_read.specs.Events.{EventInRange};
ghost use Rattle.miniserde_value.specs.Hole.{outside, after_between, after_step};
ghost use Rattle.miniserde_value.specs.Hole.{repeats};
ghost use Rattle.miniserde_de.specs.DocumentMeanings.{is_start};

use crate::de::{Deserialize, Step, Visitor};
use miniserde_model::error::{Error, Result};
use miniserde_text::json::lex::Kind;
use miniserde_value::json::builder::Builder;
use miniserde_value::json::value::Value;
use std::alloc::Global;

/// The place of a `Value`.
#[derive(Drop)]
pub struct ValuePlace {
    alloc: Global,
    builder: Builder,
    // Whether a value is due, so that the next event is the first of a value.
    due: bool,
    // The first error.
    refused: Option<Error>,
}

impl ValuePlace {
    ghost use Rattle.miniserde_de.specs.Places.{hole_at, due_in, refusal_of};

    /// Returns a fresh place. Allocates nothing.
    pub(crate) fn new(alloc: Global) -> ValuePlace
        ensures hole { hole_at result ≡ outside [] }
        ensures due { due_in result ≡ true }
        ensures unrefused { refusal_of result ≡ None }
    {
        ValuePlace {
            alloc,
            builder: Builder::new(alloc),
            due: true,
            refused: None,
        }
    }

    // Takes an event between two values: the start of an element or a member, or the end of the innermost container.
    // Returns whether a value is due after the event. Returns `Invalid` if the event is none of these, if it does not
    // fit the container, or if no container is open, and `Memory` if an allocation fails.
    #[inline(always)]
    fn step_between_values(&mut self, event: Step<'_>) -> Result<bool>
        ensures ok { IfOk result (λ due.
            after_between (event_of event.entry) (hole_at self.old) ≡ Some (due, hole_at self.new)) }
        ensures invalid { result ≡ Err Error.Invalid → after_between (event_of event.entry) (hole_at self.old) ≡ None }
        ensures refuses { after_between (event_of event.entry) (hole_at self.old) ≡ None → result ≡ Err Error.Invalid }
        ensures refused { refusal_of self.new ≡ refusal_of self.old }
    {
        match (event, self.builder.innermost()) {
            (Step::Element, Some(Kind::Seq)) => Ok(true),
            (Step::Key(name), Some(Kind::Map)) => {
                self.builder.name(name)?;
                Ok(true)
            }
            (Step::Finish, Some(_)) => {
                self.builder.close()?;
                Ok(false)
            }
            _ => Err(Error::Invalid),
        }
    }

    // Takes an event. Returns `Invalid` if no value has the event here, and `Memory` if an allocation fails. The place
    // does not keep the error: `step` does that.
    #[inline(always)]
    fn accept(&mut self, event: Step<'_>) -> Result<()>
        requires { EventInRange (event_of event) }
        ensures ok { OnOk result (after_step (due_in self.old) (hole_at self.old) (event_of event.entry)
            ≡ Some (due_in self.new, hole_at self.new)) }
        ensures invalid { result ≡ Err Error.Invalid
            → after_step (due_in self.old) (hole_at self.old) (event_of event.entry) ≡ None }
        ensures refuses { after_step (due_in self.old) (hole_at self.old) (event_of event.entry) ≡ None
            → result ≡ Err Error.Invalid }
        ensures refused { refusal_of self.new ≡ refusal_of self.old }
    {
        if self.due {
            self.builder.begin(event)?;
            self.due = false;
        } else {
            self.due = self.step_between_values(event)?;
        }
        Ok(())
    }

    /// Returns whether the event is a name, and the innermost open container an object that already
    /// has a member of that name.
    pub(crate) fn repeats(&self, event: &Step<'_>) -> bool
        ensures { result ≡ repeats (event_of event.now) (hole_at self.now) }
    {
        match event {
            Step::Key(name) => self.builder.has_name(name),
            _ => false,
        }
    }

    /// Returns whether no event was taken yet.
    pub(crate) fn is_fresh(&self) -> bool
        ensures { result ≡ is_start (due_in self.now) (hole_at self.now) }
    {
        self.due && self.builder.innermost().is_none()
    }
}

impl Visitor for ValuePlace {
    type Out = Value;

    ghost use Rattle.miniserde_de.specs.Places.{value_place_meaning, ValueTakes};

    ghost meaning = { value_place_meaning };

    ghost begin_infallible = { true };

    ghost take_infallible = { true };

    // An accepted event changes the hole (what the builder has so far) as `after_step` says. An event that does not
    // fit the hole gives `Invalid`, or the earlier error of the place. A place without an error returns `Invalid` for
    // no other event.
    ghost further = { ValueTakes };

    fn begin(alloc: Global) -> Result<ValuePlace> {
        Ok(ValuePlace::new(alloc))
    }

    #[inline(always)]
    fn step(&mut self, event: Step<'_>) -> Result<()> {
        if let Some(error) = self.refused {
            return Err(error);
        }
        match self.accept(event) {
            Ok(()) => Ok(()),
            Err(error) => Err(self.refuse(error)),
        }
    }

    fn refuse(&mut self, error: Error) -> Error {
        match self.refused {
            Some(first) => first,
            None => {
                self.refused = Some(error);
                error
            }
        }
    }

    fn is_complete(&self) -> bool {
        !self.due && self.builder.innermost().is_none()
    }

    fn take(self) -> Result<Value> {
        if let Some(error) = self.refused {
            return Err(error);
        }
        if self.due {
            return Err(Error::Invalid);
        }
        self.builder.into_value().ok_or(Error::Invalid)
    }
}

impl Deserialize for Value {
    type Place = ValuePlace;

    fn tied() {}
}
