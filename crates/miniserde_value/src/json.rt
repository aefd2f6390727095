//! Documents: JSON values whose shape is known only after they are read.

pub mod array;
pub mod builder;
mod copy;
pub mod document;
pub mod drop;
pub mod into_value;
pub mod number;
pub mod object;
mod read;
mod reader;
mod show;
pub mod unique;
pub mod value;
mod walk;
mod write;
