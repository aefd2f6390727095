//! The error that ends a test.

use miniserde_model::error;

/// The case that is wrong: a line of a table, or what a single case says.
#[derive(Debug, Drop)]
pub struct Wrong {
    pub case: &'static str,
}

/// Fails with a case unless it holds.
pub fn expect(holds: bool, case: &'static str) -> Result<(), Wrong> {
    if holds { Ok(()) } else { Err(Wrong { case }) }
}

/// Fails with a case unless it holds, also if it fails to allocate.
pub fn expect_ok(holds: error::Result<bool>, case: &'static str) -> Result<(), Wrong> {
    expect(matches!(holds, Ok(true)), case)
}
