//! The writer of compact JSON text, and the trait of values that write themselves with it.

pub use miniserde_ser::ser::{Fragment, Serialize, Writer, escape_str};
