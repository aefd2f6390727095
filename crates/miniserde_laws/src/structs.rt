//! What is promised of structs and unit enums: that they are read back, and with their content.

mod blocks;
mod lossless;
mod omitted;
mod round_trips;
mod unit_enums;

pub use lossless::{LosslessFields, record_lossless};
pub use round_trips::{RoundTripFields, aliased_round_trips, record_round_trips};
pub use unit_enums::{variant_lossless, variant_round_trips};
