//! The writer of compact JSON text, and std's types that write themselves with it. Structs, enums and documents write
//! themselves in other crates.
#![tactic(auto)]

pub mod ser;
