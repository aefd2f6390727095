//! More forms of a type in JSON, for the types that ask for them: a struct with a map of the members that no field takes
//! (`rest`), an enum whose variants are told apart by the kind of the JSON value (`untagged`), and one whose data stands in
//! one member beside the tag (`adjacent`). A crate with such types lists this crate; no other crate waits for it.
#![tactic(auto)]

pub mod adjacent;
pub mod rest;
pub mod untagged;
