//! The promises of `RoundTrip`, `Lossless` and `NeverNull` for `NoFields`.

use crate::lossless::{Lossless, NeverNull};
use crate::round_trip::RoundTrip;
use miniserde_enum::NoFields;

impl RoundTrip for NoFields {
    fn round_trips() {}
}

impl Lossless for NoFields {
    fn lossless() {}
}

impl NeverNull for NoFields {
    fn never_null() {}
}
