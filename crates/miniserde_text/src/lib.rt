//! The texts of JSON: the lexer, numbers that are kept as texts, the escape rule and the search for bytes that must
//! be escaped. No type reads or writes itself here.
#![tactic(auto)]

#[doc(hidden)]
pub mod decimal;
pub mod escape;
pub mod json;
pub mod scan;
#[doc(hidden)]
pub mod stack;
