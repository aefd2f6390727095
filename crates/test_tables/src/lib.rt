//! What tests at many types share: tables of cases, and the error that ends a test.
//!
//! A table is one text, and each of its lines a case: a JSON text, ` => `, and the text that its value is written as,
//! where `same` stands for the JSON text itself. A line without ` => ` is a text that is invalid.
#![tactic(auto)]

mod stable;
mod table;
mod wrong;

pub use stable::{expect_canonical_of, expect_one_value, expect_refused, expect_two_values};
pub use table::{
    expect_prefixes_invalid, expect_read_itself, expect_round_trip, expect_table, is_right, text_of,
};
pub use wrong::{Wrong, expect, expect_ok};
