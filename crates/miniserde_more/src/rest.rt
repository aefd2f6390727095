//! Structs with a field that keeps the members that no other field takes, so that a value that is read, changed and
//! written loses nothing: how they are read and written, and what is promised of them.

mod laws;
mod open;
mod slots;
mod taken;
mod write;

pub use laws::{
    aliased_rest_is_kept, aliased_rest_round_trips, rest_is_kept, rest_lossless, rest_round_trips,
    rest_stable,
};
pub use open::OpenFields;
pub use slots::WithRest;
pub use taken::{AliasesOf, NoNames, TagOf, TakenNames};
pub use write::{
    rest_named, write_fields_and_rest, write_inside_and_rest, write_members_and_rest,
    write_tagged_fields_and_rest,
};
