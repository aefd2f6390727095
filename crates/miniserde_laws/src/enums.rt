//! What is promised of enums whose variants may have data: that they are read back, and with their content.

mod lossless;
mod no_fields;
mod round_trips;

pub use lossless::{LosslessCases, enum_lossless, tagged_lossless};
pub use round_trips::{RoundTripCases, enum_round_trips, tagged_round_trips};
