//! The types of miniserde's documentation, as structs and unit enums of a user's own.
#![tactic(auto)]

mod duplicates;
mod example;
mod repeats;
mod strict;
mod structs;
mod tag;

pub use duplicates::duplicate_names;
pub use example::{Example, Nested, NestedPlace};
pub use repeats::repeated_name;
pub use strict::{StrictDemo, StrictDemoPlace};
pub use structs::{Demo, DemoPlace};
pub use tag::Tag;
