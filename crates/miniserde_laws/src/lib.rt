//! The traits of types whose values are read back from their texts, with the same tree (`RoundTrip`) or with the same
//! content (`Lossless`), for std's types, structs, enums and documents. `NeverNull` is for the latter. Reading and
//! writing stand below and need none of them; `Stable` is in `miniserde_stored`.
#![tactic(auto)]

mod documents;
mod enums;
mod lossless;
mod newtypes;
mod round_trip;
mod scalars;
mod structs;
mod tuples;

pub use enums::{
    LosslessCases, RoundTripCases, enum_lossless, enum_round_trips, tagged_lossless,
    tagged_round_trips,
};
pub use lossless::{Lossless, NeverNull, means_itself, read_itself};
pub use newtypes::{
    Transparent, checked_lossless, checked_round_trips, text_value_round_trips,
    transparent_round_trips,
};
pub use round_trip::{RoundTrip, read_back, write_and_read};
pub use structs::{
    LosslessFields, RoundTripFields, aliased_round_trips, record_lossless, record_round_trips,
    variant_lossless, variant_round_trips,
};
