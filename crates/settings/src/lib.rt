//! A loader of settings, on the public contracts of `miniserde` alone.
#![tactic(auto)]

pub mod loader;
pub mod parts;
pub mod types;

pub use loader::{load, reloaded, save};
pub use parts::{Host, Tls};
pub use types::Settings;
