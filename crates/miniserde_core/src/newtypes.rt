//! Newtypes: the traits that say how one is read and written, and the calls that read and write it by them.

pub use miniserde_keys::TextValue;
pub use miniserde_read::{Checked, read_checked, text_value_from_step};
pub use miniserde_ser::ser::write_text_value;
