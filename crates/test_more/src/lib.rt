//! Tests of `miniserde_more`: untagged and adjacently tagged enums, and a struct that keeps the members that none of its
//! fields takes. Nothing here is for users.
#![tactic(auto)]

pub mod answers;
pub mod calls;
pub mod kinds;
pub mod lists;
pub mod notes;
pub mod peers;
pub mod places;
pub mod reports;
pub mod settings;
#[cfg(test)]
mod tests;
