//! JSON texts: the calls that read and write values, the lexer, and documents.

pub use miniserde_read::{from_slice, from_str};
pub use miniserde_ser::ser::to_string;
pub use miniserde_text::json::lex;
pub use miniserde_text::json::number::NumberText;
pub use miniserde_value::json::array::Array;
pub use miniserde_value::json::document::Document;
pub use miniserde_value::json::drop;
pub use miniserde_value::json::number::Number;
pub use miniserde_value::json::object::Object;
pub use miniserde_value::json::unique::Unique;
pub use miniserde_value::json::value::Value;
