//! JSON text into values of Rust, and values into text: the whole library, each item at its path for users.
//!
//! `json::from_str` reads a value of a type that implements `FromJson`; its calls nest as deep as the type, not the
//! data. `json::feed` hands the events of a text to a place, one by one. Documents are read without recursion, at any
//! depth.
#![tactic(auto)]

pub mod derived;
pub mod enums;
pub mod json;
pub mod laws;
mod macros;
pub mod newtypes;
pub mod record;
pub mod ser;

pub use laws::canonical_text_determines_content;
pub use miniserde_de::de;
pub use miniserde_de::de::Deserialize;
pub use miniserde_keys::TextValue;
pub use miniserde_laws::{
    Lossless, NeverNull, RoundTrip, means_itself, read_back, read_itself, write_and_read,
};
pub use miniserde_model::error;
pub use miniserde_model::error::{Error, Result};
pub use miniserde_place::engine::read_by_place;
pub use miniserde_program::canon;
pub use miniserde_read::{Checked, FromJson, gets_last, gets_last_by_hashed_key, gets_last_by_key};
pub use miniserde_ser::ser::Serialize;
pub use miniserde_stored::{
    ExactKey, Stable, means_in_normal_form, normal_form_means_more, two_names_of_a_key,
};
pub use miniserde_text::scan;
