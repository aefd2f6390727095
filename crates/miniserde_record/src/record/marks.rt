//! The marks of a struct and of its fields: no duplicate of a field's name, a value for a missing
//! field, and no members of unknown names.

mod closed;
mod empty;
mod given;
mod once;
mod plain;

pub use closed::Closed;
pub use empty::Empty;
pub use given::{Given, WithDefault};
pub use once::Once;
pub use plain::{Mark, Plain, Repeats};
