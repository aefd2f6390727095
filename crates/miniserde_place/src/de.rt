//! Places: each takes the events of one value, one by one, and collects the value.
//!
//! The events of the text `{"a":[1,-0],"b":null}` are `map`, `key("a")`, `seq`, `element`, `nonnegative(1)`,
//! `element`, `negative(0)`, `finish`, `key("b")`, `null`, `finish`.
ghost use Rattle.std.specs.Prelude.{◌≡◌, ◌≢◌, pos, ◌≤ℤ◌, Bool, true, false, IsOk, Option, Some, None, Result, Ok};
ghost use Rattle.std.specs.Prelude.{Err, [], IfOk, IfErr, ⊤};
ghost use Rattle.miniserde_model.specs.Tree.{num};
ghost use Rattle.miniserde_model.specs.Number.{IsNumber};
ghost use Rattle.miniserde_model.specs.Step as step;
ghost use Rattle.miniserde_model.specs.Position.{complete};
ghost use Rattle.miniserde_read.specs.Events.{event_of};
ghost use Rattle.miniserde_place.specs.Place.{PlaceMeaning, Takes, IsFresh, first_refusal};
ghost use Rattle.miniserde_read.specs.Events.{EventInRange};
ghost use Rattle.miniserde_place.specs.Container.{is_complete};
ghost use Rattle.miniserde_model.specs.declared.error.Error.{Error};

pub mod container;
pub mod leaf;

pub use crate::ignore::Ignore;
pub use crate::ignore::fresh::ignore;
use miniserde_model::error::{Error, Result};
pub use miniserde_read::Step;
use std::alloc::Global;

/// A place: it takes the events of one value, one by one, and collects the value. Events may come in any order; the
/// contracts say what the place does for the events of one value in their order.
pub trait Visitor: Drop {
    /// The type of the values that the place collects.
    type Out;

    // Which trees mean which values, and what a contract sees of the place.
    ghost meaning: { PlaceMeaning Self Self.Out };

    // If true, `begin` never fails to allocate.
    ghost begin_infallible: { Bool } = { false };

    // If true, `take` never fails to allocate: its error is `Memory` only if the place keeps that error already.
    ghost take_infallible: { Bool } = { false };

    // What each call that takes an event promises besides: a statement of the place before, the
    // event, the result and the place after. By default nothing.
    ghost further: { Self → step.Step → Result (Unit {0}) Error → Self → Type 0 } = { λ _ _ _ _. ⊤ };

    /// Returns a fresh place, or `Memory` if an allocation fails.
    fn begin(alloc: Global) -> Result<Self>
        ensures fresh { IfOk result (λ p. IsFresh meaning.from_events (meaning.view p)) }
        ensures memory { IfErr result (λ r. r ≡ Error.Memory) }
        ensures infallible { begin_infallible ≡ true → IsOk result };

    /// Takes one event. Returns `Invalid` only if no value of the type has the event here; a place may take such
    /// an event too, and fail at a later one or in `take`. Returns `Memory` if an allocation fails, and the first
    /// error of the place if there is one. The place keeps each error that it returns, as `refuse` does.
    fn step(&mut self, event: Step<'_>) -> Result<()>
        requires { EventInRange (event_of event) }
        ensures takes { Takes (meaning.view self.old) (event_of event.entry) result (meaning.view self.new) }
        ensures further { further self.old (event_of event.entry) result self.new };

    /// Keeps an error, unless the place has one already. Returns the first error of the place.
    fn refuse(&mut self, error: Error) -> Error
        ensures answer { result ≡ first_refusal (meaning.view self.old).refused error }
        ensures records { (meaning.view self.new).refused ≡ Some result };

    /// Returns whether the value is complete.
    fn is_complete(&self) -> bool
        ensures { result ≡ is_complete (meaning.view self.now).at };

    /// Returns the value if it is complete and the place keeps no error. Returns the error that the
    /// place keeps, `Invalid` if the value is incomplete or its events mean no value of the type,
    /// or `Memory` if an allocation fails.
    fn take(self) -> Result<Self::Out>
        ensures value { IfOk result (λ v. ((meaning.view self).at ≡ complete)
            × ((meaning.view self).outcome [] ≡ Some (meaning.content v))) }
        ensures invalid { result ≡ Err Error.Invalid → (meaning.view self).refused ≡ None
            → (meaning.view self).at ≡ complete → (meaning.view self).outcome [] ≡ None }
        ensures memory { result ≡ Err Error.Memory → (meaning.view self).refused ≡ None
            → ((meaning.view self).at ≡ complete) × ((meaning.view self).outcome [] ≢ None) }
        ensures sticky { (r : Error) → (meaning.view self).refused ≡ Some r → result ≡ Err r }
        ensures infallible { take_infallible ≡ true → result ≡ Err Error.Memory
            → (meaning.view self).refused ≡ Some Error.Memory };

    /// Takes `null`.
    final fn null(&mut self) -> Result<()>
        ensures takes { Takes (meaning.view self.old) step.null result (meaning.view self.new) }
        ensures further { further self.old step.null result self.new }
    {
        self.step(Step::Null)
    }

    /// Takes `true` or `false`.
    final fn boolean(&mut self, b: bool) -> Result<()>
        ensures takes { Takes (meaning.view self.old) (step.boolean b) result (meaning.view self.new) }
        ensures further { further self.old (step.boolean b) result self.new }
    {
        self.step(Step::Bool(b))
    }

    /// Takes a string.
    final fn string(&mut self, s: &str) -> Result<()>
        ensures takes { Takes (meaning.view self.old) (step.string s.now) result (meaning.view self.new) }
        ensures further { further self.old (step.string s.now) result self.new }
    {
        self.step(Step::Str(s))
    }

    /// Takes an integer that is written with `-`, which is at most 0.
    final fn negative(&mut self, n: i64) -> Result<()>
        requires { n ≤ℤ pos 0 }
        ensures takes { Takes (meaning.view self.old) (step.negative n) result (meaning.view self.new) }
        ensures further { further self.old (step.negative n) result self.new }
    {
        self.step(Step::Negative(n))
    }

    /// Takes an integer that is written without `-`.
    final fn nonnegative(&mut self, n: u64) -> Result<()>
        ensures takes { Takes (meaning.view self.old) (step.nonnegative n) result (meaning.view self.new) }
        ensures further { further self.old (step.nonnegative n) result self.new }
    {
        self.step(Step::Nonnegative(n))
    }

    /// Takes a number with a fraction or an exponent, or beyond 64 bits, by its text.
    final fn float(&mut self, t: &str) -> Result<()>
        requires { IsNumber t.now (num t.now) }
        ensures takes { Takes (meaning.view self.old) (step.float t.now) result (meaning.view self.new) }
        ensures further { further self.old (step.float t.now) result self.new }
    {
        self.step(Step::Float(t))
    }

    /// Takes the start of a list.
    final fn seq(&mut self) -> Result<()>
        ensures takes { Takes (meaning.view self.old) step.seq result (meaning.view self.new) }
        ensures further { further self.old step.seq result self.new }
    {
        self.step(Step::Seq)
    }

    /// Takes the start of an element of the innermost open list.
    final fn element(&mut self) -> Result<()>
        ensures takes { Takes (meaning.view self.old) step.element result (meaning.view self.new) }
        ensures further { further self.old step.element result self.new }
    {
        self.step(Step::Element)
    }

    /// Takes the start of an object.
    final fn map(&mut self) -> Result<()>
        ensures takes { Takes (meaning.view self.old) step.map result (meaning.view self.new) }
        ensures further { further self.old step.map result self.new }
    {
        self.step(Step::Map)
    }

    /// Takes the start of a member of the innermost open object, by its name.
    final fn key(&mut self, k: &str) -> Result<()>
        ensures takes { Takes (meaning.view self.old) (step.key k.now) result (meaning.view self.new) }
        ensures further { further self.old (step.key k.now) result self.new }
    {
        self.step(Step::Key(k))
    }

    /// Takes the end of the innermost open list or object.
    final fn finish(&mut self) -> Result<()>
        ensures takes { Takes (meaning.view self.old) step.finish result (meaning.view self.new) }
        ensures further { further self.old step.finish result self.new }
    {
        self.step(Step::Finish)
    }
}
