//! Documents of any shape and any depth: `Value`, `Array`, `Object`, `Number`, `Unique` and `Document`. It takes no
//! recursion to read, write, copy, show or drop them. Their places are in `miniserde_de`.
#![tactic(auto)]

pub mod json;
