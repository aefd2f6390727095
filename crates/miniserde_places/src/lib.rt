//! The places of std's types, structs, unit enums and newtypes with a check: what collects a value from events. Which
//! type has which place is said in `miniserde_de`, where the places of documents are too. `VecDeque` and tuples of more
//! than two items have none.
#![tactic(auto)]

mod arrays;
mod boxes;
mod maps;
mod newtypes;
mod options;
mod pairs;
mod sequences;
pub mod structs;

pub use arrays::ArrayOf;
pub use boxes::BoxPlace;
pub use maps::MapOf;
pub use newtypes::{CheckedLeaf, checked_from_step};
pub use options::OptionPlace;
pub use pairs::PairOf;
pub use sequences::ListOf;
