//! Seven texts, of numbers and of a digit in quotes, at each type of numbers and at keys.

use miniserde::json::{Number, Value};
use std::collections::BTreeMap;
use test_tables::{Wrong, expect_read_itself, expect_round_trip};

const UNSIGNED: &str = r#"1 => same
-1
-0
1.0
1e2
18446744073709551616
"1""#;

const SIGNED: &str = r#"1 => same
-1 => same
-0 => 0
1.0
1e2
18446744073709551616
"1""#;

const NUMBERS: &str = r#"1 => same
-1 => same
-0 => 0
1.0 => same
1e2 => same
18446744073709551616 => same
"1""#;

const VALUES: &str = r#"1 => same
-1 => same
-0 => 0
1.0 => same
1e2 => same
18446744073709551616 => same
"1" => same"#;

const STRINGS: &str = r#"1
-1
-0
1.0
1e2
18446744073709551616
"1" => same"#;

const UNSIGNED_KEYS: &str = r#"{"1":true} => same
{"-1":true}
{"-0":true}
{"1.0":true}
{"1e2":true}
{"18446744073709551616":true}
{"\"1\"":true}
{1:true}"#;

const SIGNED_KEYS: &str = r#"{"1":true} => same
{"-1":true} => same
{"-0":true} => {"0":true}
{"1.0":true}
{"1e2":true}
{"18446744073709551616":true}
{"\"1\"":true}
{1:true}"#;

#[test]
fn a_number_is_read_by_its_type(rt: HostRuntime) -> Result<(), Wrong> {
    let alloc = rt.alloc();
    // A signed integer alone may have a minus.
    expect_read_itself::<u8>(alloc, UNSIGNED)?;
    expect_read_itself::<u16>(alloc, UNSIGNED)?;
    expect_read_itself::<u32>(alloc, UNSIGNED)?;
    expect_read_itself::<u64>(alloc, UNSIGNED)?;
    expect_read_itself::<usize>(alloc, UNSIGNED)?;
    expect_read_itself::<i8>(alloc, SIGNED)?;
    expect_read_itself::<i16>(alloc, SIGNED)?;
    expect_read_itself::<i32>(alloc, SIGNED)?;
    expect_read_itself::<i64>(alloc, SIGNED)?;
    expect_read_itself::<isize>(alloc, SIGNED)?;
    expect_round_trip::<Number>(alloc, NUMBERS)?;
    expect_round_trip::<Value>(alloc, VALUES)?;
    expect_read_itself::<String>(alloc, STRINGS)?;
    expect_read_itself::<BTreeMap<u64, bool>>(alloc, UNSIGNED_KEYS)?;
    expect_read_itself::<BTreeMap<i64, bool>>(alloc, SIGNED_KEYS)
}
