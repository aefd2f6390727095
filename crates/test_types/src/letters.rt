//! Maps whose keys have no case.

use crate::lower::Lower;
use std::collections::BTreeMap;
use test_tables::{Wrong, expect_table};

const KEYS: &str = r#"{"AB":1,"ab":2} => {"ab":2}
{"b":1,"A":2,"B":3} => {"a":2,"b":3}
{} => same
{"a1":1}
{"":1}
{"a b":1}
{"é":1}"#;

#[test]
fn keys_of_either_case_are_one(rt: HostRuntime) -> Result<(), Wrong> {
    expect_table::<BTreeMap<Lower, u8>>(rt.alloc(), KEYS)
}
