//! The places of structs and of unit enums.

mod fields;
mod fours;
mod name_place;
mod record_place;

pub use fields::{FieldOf, Fields, NoField};
pub use fours::FourOf;
pub use name_place::NamePlace;
pub use record_place::{PlacedRecord, RecordPlace};
