//! Names in a style: a unit enum in SCREAMING_SNAKE_CASE. `generics.rt` and `tags.rt` have a struct and an enum with data.

use crate::phases::Phase;
use test_tables::{Wrong, expect_round_trip};

const PHASES: &str = r#""NOT_BEGUN" => same
"IN_PROGRESS" => same
"done" => same
"NOT\u005fBEGUN" => "NOT_BEGUN"
"NotBegun"
"notBegun"
"not_begun"
"NOT-BEGUN"
"NOTBEGUN"
"NOT_BEGUN_"
"DONE"
"Done"
{"done":null}"#;

#[test]
fn a_unit_enum_has_its_variants_in_upper_case(rt: HostRuntime) -> Result<(), Wrong> {
    expect_round_trip::<Phase>(rt.alloc(), PHASES)
}
