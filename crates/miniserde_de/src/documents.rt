//! The places of documents: of `Value`, `Number`, `Array`, `Object`, `Unique` and `Document`.

mod document_types;
mod number_place;
mod unique_place;
mod value_place;

pub use document_types::{ArrayPlace, DocumentPlace, ObjectPlace};
pub use number_place::NumberPlace;
pub use unique_place::UniquePlace;
pub use value_place::ValuePlace;
