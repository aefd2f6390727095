//! Newtypes: the traits that say how one is read and written, and the calls that read it and give the laws of its type.

pub use miniserde_keys::TextValue;
pub use miniserde_laws::{
    Transparent, checked_lossless, checked_round_trips, text_value_round_trips,
    transparent_round_trips,
};
pub use miniserde_places::{CheckedLeaf, checked_from_step};
pub use miniserde_read::{Checked, read_checked, text_value_from_step};
pub use miniserde_ser::ser::write_text_value;
pub use miniserde_stored::checked_stable;
