//! What is promised of the data of an adjacently tagged enum's variant.
use crate::adjacent::content::{Content, ContentFields, HasContent};
use miniserde_laws::{Lossless, NeverNull, RoundTrip, record_lossless, record_round_trips};
use miniserde_stored::{Stable, record_stable};

impl<E: HasContent, T: RoundTrip> RoundTrip for Content<E, T> {
    fn round_trips() {
        record_round_trips::<Content<E, T>, ContentFields<T>>()
    }
}

impl<E: HasContent, T: Lossless> Lossless for Content<E, T> {
    fn lossless() {
        record_lossless::<Content<E, T>, ContentFields<T>>()
    }
}

impl<E: HasContent, T: RoundTrip> NeverNull for Content<E, T> {
    fn never_null() {}
}

impl<E: HasContent, T: Stable> Stable for Content<E, T> {
    fn stable() {
        record_stable::<Content<E, T>, ContentFields<T>>()
    }
}
