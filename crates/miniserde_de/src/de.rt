//! The trait of types that have a place, which collects a value of the type from events.
//!
//! The events of the text `{"a":[1,-0],"b":null}` are `map`, `key("a")`, `seq`, `element`, `nonnegative(1)`,
//! `element`, `negative(0)`, `finish`, `key("b")`, `null`, `finish`.
ghost use Rattle.std.specs.Prelude.{◌≡◌, ◌≢◌, true, IsOk, Option, Some, None, Ok, Err, [], IfOk, IfErr};
ghost use Rattle.miniserde_model.specs.Position.{complete};
ghost use Rattle.miniserde_model.specs.declared.error.Error.{Error};
ghost use Rattle.miniserde_place.specs.Place.{IsFresh};
ghost use Rattle.miniserde_places.specs.Tied.{Agree, type_meaning};

mod impls;

pub use impls::{
    ArrayPlace, BTreeMapPlace, BoxPlace, HashMapPlace, OptionPlace, PairPlace, VecPlace,
};
pub use miniserde_keys::{InjectiveKey, MapKey, Ranged};
use miniserde_model::error::{Error, Result};
pub use miniserde_place::de::leaf::{BoolPlace, IntegerPlace, StringPlace, UnitPlace};
pub use miniserde_place::de::{Ignore, Step, Visitor, container, ignore, leaf};
pub use miniserde_read::{FromJson, Ignored, Source, next_element};
use std::alloc::Global;

/// A type with a place, which collects a value from events. The same trees mean the same values for
/// the type and for the place.
pub trait Deserialize: FromJson {
    /// The place of the type.
    type Place: Visitor<Out = Self>;

    /// Does nothing. It promises that the place means what the type does: the same trees mean the same values, and the
    /// same trees give a content.
    fn tied()
        ensures { Agree (type_meaning Self.Place.meaning) Self.means };

    /// Returns the value of a missing field of this type, or `None` if the field must be there. It is
    /// `FromJson::missing`, under its name in miniserde 0.1.46, and not std's `Default`.
    final fn default() -> Option<Self>
        ensures { result ≡ Self.absent }
    {
        Self::missing()
    }

    /// Returns a fresh place. Its only error is `Memory`.
    final fn begin(alloc: Global) -> Result<Self::Place>
        ensures fresh { IfOk result (λ p. IsFresh Self.Place.meaning.from_events (Self.Place.meaning.view p)) }
        ensures memory { IfErr result (λ r. r ≡ Error.Memory) }
        ensures infallible { Self.Place.begin_infallible ≡ true → IsOk result }
    {
        <Self::Place as Visitor>::begin(alloc)
    }

    /// Returns the value if it is complete and the place keeps no error. Returns the error that the
    /// place keeps, `Invalid` if the value is incomplete or its events mean no value of the type,
    /// or `Memory` if an allocation fails.
    final fn take(place: Self::Place) -> Result<Self>
        ensures value { IfOk result (λ v. ((Self.Place.meaning.view place).at ≡ complete)
            × ((Self.Place.meaning.view place).outcome [] ≡ Some (Self.Place.meaning.content v))) }
        ensures invalid { result ≡ Err Error.Invalid → (Self.Place.meaning.view place).refused ≡ None
            → (Self.Place.meaning.view place).at ≡ complete → (Self.Place.meaning.view place).outcome [] ≡ None }
        ensures memory { result ≡ Err Error.Memory → (Self.Place.meaning.view place).refused ≡ None
            → ((Self.Place.meaning.view place).at ≡ complete) × ((Self.Place.meaning.view place).outcome [] ≢ None) }
        ensures sticky { (r : Error) → (Self.Place.meaning.view place).refused ≡ Some r → result ≡ Err r }
        ensures infallible { Self.Place.take_infallible ≡ true → result ≡ Err Error.Memory
            → (Self.Place.meaning.view place).refused ≡ Some Error.Memory }
    {
        place.take()
    }
}
