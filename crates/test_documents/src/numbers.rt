//! Numbers: shown, read, refused and written.

use miniserde::error::Result;
use miniserde::json::{Number, from_str, to_string};
use std::alloc::Global;
use test_tables::{Wrong, expect_ok, expect_round_trip};

/// Returns whether a number is shown, and written, as expected.
fn is_shown(alloc: Global, number: &Number, expected: &str) -> Result<bool> {
    Ok(
        format!(in alloc; "{number}")?.as_str() == expected
            && to_string(alloc, number)?.as_str() == expected,
    )
}

/// Returns whether a number that is kept as its text is shown as it.
fn is_text_shown(alloc: Global, text: &str) -> Result<bool> {
    let number: Number = from_str(alloc, text)?;
    is_shown(alloc, &number, text)
}

#[test]
fn a_number_is_shown_as_it_is_written(rt: HostRuntime) -> std::result::Result<(), Wrong> {
    let alloc = rt.alloc();
    expect_ok(is_shown(alloc, &Number::I64(0), "0"), "a signed zero")?;
    expect_ok(is_shown(alloc, &Number::I64(-1), "-1"), "a negative number")?;
    expect_ok(is_shown(alloc, &Number::U64(0), "0"), "an unsigned zero")?;
    expect_ok(is_text_shown(alloc, "1.50"), "a text")
}

/// Returns whether a number is kept as its text.
fn is_kept_as_text(alloc: Global, text: &str) -> Result<bool> {
    match from_str(alloc, text)? {
        Number::Text(kept) => Ok(kept.as_str() == text),
        _ => Ok(false),
    }
}

/// Returns whether a number is kept as a signed one.
fn is_kept_as_signed(alloc: Global, text: &str, expected: i64) -> Result<bool> {
    match from_str(alloc, text)? {
        Number::I64(kept) => Ok(kept == expected),
        _ => Ok(false),
    }
}

/// Returns whether a number is kept as an unsigned one.
fn is_kept_as_unsigned(alloc: Global, text: &str, expected: u64) -> Result<bool> {
    match from_str(alloc, text)? {
        Number::U64(kept) => Ok(kept == expected),
        _ => Ok(false),
    }
}

#[test]
fn a_number_is_kept_by_its_size(rt: HostRuntime) -> std::result::Result<(), Wrong> {
    let alloc = rt.alloc();
    expect_ok(is_kept_as_text(alloc, "-9223372036854775809"), "one below")?;
    expect_ok(
        is_kept_as_signed(alloc, "-9223372036854775808", i64::MIN),
        "the least",
    )?;
    expect_ok(is_kept_as_signed(alloc, "-1", -1), "minus one")?;
    expect_ok(is_kept_as_signed(alloc, "-0", 0), "minus zero")?;
    expect_ok(is_kept_as_unsigned(alloc, "1", 1), "one")?;
    expect_ok(
        is_kept_as_unsigned(alloc, "18446744073709551615", u64::MAX),
        "the greatest",
    )?;
    expect_ok(is_kept_as_text(alloc, "18446744073709551616"), "one above")?;
    expect_ok(is_kept_as_text(alloc, "1.0"), "a point")?;
    expect_ok(is_kept_as_text(alloc, "1e2"), "an exponent")
}

const NUMBERS: &str = r#"0 => same
-0 => 0
18446744073709551615 => same
18446744073709551616 => same
-9223372036854775808 => same
-9223372036854775809 => same
1.50 => same
-0.0 => same
1E+2 => same
1e-2 => same
1e
1.
.5
-
+1
01
"1"
null
[1]
{}"#;

#[test]
fn a_number_round_trips(rt: HostRuntime) -> std::result::Result<(), Wrong> {
    expect_round_trip::<Number>(rt.alloc(), NUMBERS)
}
