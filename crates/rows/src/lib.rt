//! Rows of SQLite whose keys and bodies are canonical JSON: a value of your own type is found again with its content.
#![tactic(auto)]

pub mod error;
pub mod files;
pub mod pages;
mod schemas;
mod sql;
pub mod texts;
pub mod values;
pub mod visits;
