//! The chains of fields that a struct's place collects, by the types of the fields.

use crate::de::Deserialize;
use miniserde_places::structs::{FieldOf, FourOf};
use miniserde_record::record::{Once, Plain};

/// A field of the type `T`, and the fields after it. If its name is a duplicate, the last member counts, and the values
/// of the others must be of the type too.
pub type Field<T, R> = FieldOf<<T as Deserialize>::Place, T, Plain, R>;

/// A field of the type `T` that takes one member alone, and the fields after it. If its name is a duplicate, and each
/// value before it was complete and gave one, the second `key` event with that name fails: with `Invalid` if `take` of
/// no field's place fails for memory (`take_infallible`) and the place keeps no error yet. Of duplicates of other
/// names, and inside of values, it says nothing.
pub type OnceField<T, R> = FieldOf<<T as Deserialize>::Place, T, Once<Plain>, R>;

/// Four fields of these types, and the fields after them.
pub type Four<A, B, C, D, R> = FourOf<
    <A as Deserialize>::Place,
    A,
    <B as Deserialize>::Place,
    B,
    <C as Deserialize>::Place,
    C,
    <D as Deserialize>::Place,
    D,
    Plain,
    R,
>;

/// Four fields of these types that each take one member alone, and the fields after them.
pub type OnceFour<A, B, C, D, R> = FourOf<
    <A as Deserialize>::Place,
    A,
    <B as Deserialize>::Place,
    B,
    <C as Deserialize>::Place,
    C,
    <D as Deserialize>::Place,
    D,
    Once<Plain>,
    R,
>;
