//! JSON texts: the calls that read and write values and canonical texts, the lexer, and documents with their places.

pub use miniserde_canonical::{canonical, canonical_both, canonical_unique};
pub use miniserde_place::feed;
pub use miniserde_read::{from_slice, from_str};
pub use miniserde_ser::ser::to_string;
pub use miniserde_stored::{canonical_of, read_canonical};
pub use miniserde_text::json::lex;
pub use miniserde_text::json::number::NumberText;
pub use miniserde_value::json::array::Array;
pub use miniserde_value::json::document::Document;
pub use miniserde_value::json::drop;
pub use miniserde_value::json::number::Number;
pub use miniserde_value::json::object::Object;
pub use miniserde_value::json::unique::Unique;
pub use miniserde_value::json::value::Value;

/// The type `Array`, and its place.
pub mod array {
    pub use miniserde_de::documents::ArrayPlace;
    pub use miniserde_value::json::array::Array;
}

/// The type `Document`, its place, and the promise that neither `Value` nor `Number` is stable.
pub mod document {
    pub use miniserde_de::documents::DocumentPlace;
    pub use miniserde_stored::negated_zero_is_not_stable;
    pub use miniserde_value::json::document::Document;
}

/// The types `Number` and `NumberText`, and the place of `Number`.
pub mod number {
    pub use miniserde_de::documents::NumberPlace;
    pub use miniserde_text::json::number::NumberText;
    pub use miniserde_value::json::number::Number;
}

/// The type `Object`, and its place.
pub mod object {
    pub use miniserde_de::documents::ObjectPlace;
    pub use miniserde_value::json::object::Object;
}

/// The type `Unique`, and its place.
pub mod unique {
    pub use miniserde_de::documents::UniquePlace;
    pub use miniserde_value::json::unique::Unique;
}

/// The type `Value`, its place, promises about it, and what `value!` calls.
pub mod value {
    pub use miniserde_de::documents::ValuePlace;
    pub use miniserde_value::json::into_value::{IntoValue, array_value, null_value, object_value};
    pub use miniserde_value::json::value::{
        Value, canonical_by_value, read_is_normal, size_is_tree_size,
    };
}
