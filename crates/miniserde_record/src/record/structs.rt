//! The trait `Record` of structs, and the chain of their fields' values.
ghost use Rattle.std.specs.Prelude.{◌≡◌, true, List, map};
ghost use Rattle.miniserde_read.specs.types.Objects.{Name};
ghost use Rattle.miniserde_record.specs.Structs.{are_distinct};

use std::marker::Model;

/// A struct, whose fields are read by their names.
pub trait Record: Sized + Drop {
    /// The fields' values, in their order.
    type Values;

    // The fields' names, in their order.
    ghost names: { List Name };

    // The values of a struct's fields, in their order.
    ghost values: { Self → Self.Values };

    // The struct whose fields have these values.
    ghost made: { Self.Values → Self };

    /// Returns the fields' names, in their order.
    fn names() -> &'static [&'static str]
        ensures { map (λ s. s.now) result.now ≡ names };

    /// Returns the struct whose fields have these values.
    fn build(parts: Self::Values) -> Self
        ensures { values result ≡ parts };

    // `made` and `values` are inverse to each other: a struct has its fields' values and nothing
    // else.
    ghost bijective: { ((v : Self) → made (values v) ≡ v) × ((x : Self.Values) → values (made x) ≡ x) };

    // No two fields have the same name.
    ghost distinct_names: { are_distinct names ≡ true };
}

/// The value of a field, and the values of the fields after it. A contract sees a pair.
#[derive(Drop)]
pub struct Parts<T, R>(pub T, pub R);

impl<T, R> Model for Parts<T, R> {
    ghost Value = { T × R };

    ghost view = { λ p. (p.0, p.1) };
}
