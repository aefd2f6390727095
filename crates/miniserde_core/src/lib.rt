//! The part of `miniserde` that reads and writes structs, enums and documents, at the paths of `miniserde`. Whoever
//! lists this crate alone waits for fewer proofs at the first check. A type that has a law lists the law's crate beside
//! it: `miniserde_laws` for `RoundTrip`, `Lossless` and `NeverNull`, `miniserde_stored` for `Stable`. Places, canonical
//! texts, `value!`, `laws` and `scan` are in `miniserde`. The items are the same, so a type of this crate's is one of
//! that crate's too.
#![tactic(auto)]

pub mod de;
pub mod derived;
pub mod enums;
pub mod json;
pub mod newtypes;
pub mod record;
pub mod ser;

pub use miniserde_keys::TextValue;
pub use miniserde_model::error;
pub use miniserde_model::error::{Error, Result};
pub use miniserde_read::{Checked, FromJson, gets_last, gets_last_by_hashed_key, gets_last_by_key};
pub use miniserde_ser::ser::Serialize;
