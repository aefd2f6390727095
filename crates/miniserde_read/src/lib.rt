//! Types that read themselves from a JSON text, each with its meaning: which trees mean which of its values. Structs,
//! enums and types that collect values from events are in other crates.
#![tactic(auto)]

mod children;
mod from_json;
mod ignored;
mod items;
mod json_text;
mod leaf;
mod lookups;
mod newtypes;
mod source;
mod step;

pub use children::{next_element, read_due};
pub use from_json::{FromJson, StdLeaf, Table};
pub use ignored::{Ignored, skip_due};
pub use items::{Item, Items, NoItem, read_tuple};
pub use json_text::{check_json, from_slice, from_str};
pub use leaf::{Leaf, read_leaf};
pub use lookups::{gets_last, gets_last_by_hashed_key, gets_last_by_key};
#[doc(hidden)]
pub use miniserde_text::stack::Stack;
pub use newtypes::{Checked, read_checked, text_value_from_step};
pub use source::Source;
pub use step::Step;
