//! What is compared: each call that reads or writes, at one type.

use miniserde::error::Result;
use miniserde::json::{canonical_of, feed, from_slice, from_str, read_canonical, to_string};
use miniserde::{
    Deserialize, FromJson, Lossless, NeverNull, RoundTrip, Serialize, Stable, means_itself,
    read_back, read_itself, write_and_read,
};
use std::alloc::Global;

/// Returns whether a value is written as expected.
pub fn is_written<T: Serialize>(alloc: Global, value: &T, expected: &str) -> Result<bool> {
    Ok(to_string(alloc, value)?.as_str() == expected)
}

/// Returns whether `from_str` and `from_slice` read the value that is written as expected.
pub fn is_read<T: FromJson + Serialize>(alloc: Global, text: &str, expected: &str) -> Result<bool> {
    let of_text: T = from_str(alloc, text)?;
    let of_bytes: T = from_slice(alloc, text.as_bytes())?;
    Ok(is_written(alloc, &of_text, expected)? && is_written(alloc, &of_bytes, expected)?)
}

/// Returns whether a place gets the value that is written as expected.
pub fn is_fed<T: Deserialize + Serialize>(
    alloc: Global,
    text: &str,
    expected: &str,
) -> Result<bool> {
    let mut place = <T as Deserialize>::begin(alloc)?;
    feed(alloc, text, &mut place)?;
    is_written(alloc, &<T as Deserialize>::take(place)?, expected)
}

/// Returns whether a value that was written is read again.
pub fn is_round_trip<T: RoundTrip>(alloc: Global, text: &str) -> Result<bool> {
    let value: T = from_str(alloc, text)?;
    is_written(alloc, &write_and_read(alloc, &value)?, text)
}

/// Returns whether a value that was written is read again as itself, and `read_back` reads it from its text.
pub fn is_lossless<T: Lossless + NeverNull>(alloc: Global, text: &str) -> Result<bool> {
    let value: T = from_str(alloc, text)?;
    means_itself(&value);
    let itself = read_itself(alloc, &value)?;
    let back: Option<T> = read_back(alloc, text)?;
    Ok(is_written(alloc, &itself, text)? && is_written(alloc, &back, text)?)
}

/// Returns whether a text and the value that it is read as have the expected canonical text.
pub fn is_stable<T: Stable + Serialize>(alloc: Global, text: &str, expected: &str) -> Result<bool> {
    let (value, made) = read_canonical::<T>(alloc, text)?;
    Ok(made.as_str() == expected && canonical_of(alloc, &value)?.as_str() == expected)
}

/// Returns whether each call that needs no place reads and writes the value of a text, which is canonical.
pub fn is_taken<T: Lossless + NeverNull + Stable>(alloc: Global, text: &str) -> Result<bool> {
    Ok(
        is_read::<T>(alloc, text, text)?
            && is_round_trip::<T>(alloc, text)?
            && is_lossless::<T>(alloc, text)?
            && is_stable::<T>(alloc, text, text)?,
    )
}
