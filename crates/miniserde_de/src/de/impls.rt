//! Which places std's types have. `VecDeque` and tuples of more than two items have none.

mod containers;
mod leaves;

pub use containers::{ArrayPlace, BTreeMapPlace, HashMapPlace, PairPlace, VecPlace};
pub use miniserde_places::{BoxPlace, OptionPlace};
