//! Adjacently tagged enums, as `{"kind":"Text","data":"a"}`: internally tagged ones, each of whose variants with data is a
//! struct of one field, the content.

mod content;
mod laws;

pub use content::{Content, ContentFields, HasContent};
