//! Tests of `miniserde_core` with the crates of the laws: a struct, enums and a document. Nothing here is for users.
#![tactic(auto)]

pub mod calls;
pub mod parcel;
pub mod stop;
pub mod task;
