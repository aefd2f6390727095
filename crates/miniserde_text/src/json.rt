//! The lexer of JSON text, and numbers that are kept as their texts.

pub mod lex;
pub mod number;
