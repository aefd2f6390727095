//! Numbers that are kept as text, and messages of errors.

use crate::wrong::{Wrong, expect, expect_ok};
use miniserde_model::error::{Error, Result};
use miniserde_text::json::number::NumberText;
use std::alloc::Global;

/// Returns whether a text is kept as a number's text, also unchecked and in a clone.
fn is_number(alloc: Global, text: &str, kept: &str) -> Result<bool> {
    let number = NumberText::new(alloc, text)?;
    let copy = number.try_clone(alloc)?;
    let unchecked = NumberText::new_unchecked(alloc, text)?;
    let all_kept = (number.as_str() == kept)
        & (copy.as_str() == kept)
        & (unchecked.as_str() == kept);
    Ok(NumberText::is_text(text) & all_kept)
}

/// A line is a text, ` => ` and what is kept, or a text that is invalid.
const NUMBERS: &str = "1e400 => 1e400\n\
    -0.0 => -0.0\n\
    1.50 => 1.50\n\
    1E+2 => 1E+2\n\
    18446744073709551616 => 18446744073709551616\n\
    -9223372036854775809 => -9223372036854775809\n\
    0e0 => 0e0\n\
    -1e-1 => -1e-1\n\
    -0\n7\n18446744073709551615\n-9223372036854775808\n0\n-1\n9223372036854775808\n\
    \n1.\n01.5\n1e\n 1.5\n1.5 \n1.5]\n\"1.5\"\n-\n+1.5\n.5\n-.5\n1e+\n1.5e\nnull";

#[test]
fn a_number_text_is_a_number_that_is_no_integer_in_range(
    rt: HostRuntime,
) -> std::result::Result<(), Wrong> {
    let alloc = rt.alloc();
    for line in NUMBERS.lines() {
        let is_right = match line.split_once(" => ") {
            Some((text, kept)) => matches!(is_number(alloc, text, kept), Ok(true)),
            None => {
                !NumberText::is_text(line)
                    & matches!(NumberText::new(alloc, line), Err(Error::Invalid))
            }
        };
        expect(is_right, line)?;
    }
    Ok(())
}

/// Returns whether an error is displayed as a message.
fn has_message(alloc: Global, error: Error, message: &str) -> Result<bool> {
    Ok(error.to_string(alloc)?.as_str() == message)
}

#[test]
fn errors_have_messages(rt: HostRuntime) -> std::result::Result<(), Wrong> {
    let alloc = rt.alloc();
    expect_ok(
        has_message(alloc, Error::Invalid, "miniserde error"),
        "Invalid",
    )?;
    expect_ok(has_message(alloc, Error::Memory, "out of memory"), "Memory")
}
