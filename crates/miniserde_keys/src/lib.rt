//! The traits of keys and of valid values, for std's types. Maps are read in `miniserde_read` and written in
//! `miniserde_ser`.
#![tactic(auto)]

mod integers;
mod keys;
mod ranged;
mod text_value;

pub use integers::{StdInteger, WideInteger};
pub use keys::{InjectiveKey, MapKey};
pub use ranged::Ranged;
pub use text_value::TextValue;
