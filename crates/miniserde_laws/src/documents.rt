//! Promises that the text of a document is read as a document with the same tree, and that documents of some types are
//! never written `null`.

use crate::lossless::{Lossless, NeverNull};
use crate::round_trip::RoundTrip;
use miniserde_value::json::array::Array;
use miniserde_value::json::document::Document;
use miniserde_value::json::number::Number;
use miniserde_value::json::object::Object;
use miniserde_value::json::unique::Unique;
use miniserde_value::json::value::Value;

// An `I64` of at least 0 is read back as the `U64` of that number: both have the same tree.
impl RoundTrip for Number {
    fn round_trips() {}
}

impl RoundTrip for Value {
    fn round_trips() {}
}

impl RoundTrip for Array {
    fn round_trips() {}
}

impl RoundTrip for Object {
    fn round_trips() {}
}

impl RoundTrip for Unique {
    fn round_trips() {}
}

impl RoundTrip for Document {
    fn round_trips() {}
}

impl Lossless for Document {
    fn lossless() {}
}

impl NeverNull for Number {
    fn never_null() {}
}

impl NeverNull for Array {
    fn never_null() {}
}

impl NeverNull for Object {
    fn never_null() {}
}
