//! Nested lists, pairs, options and maps, as users write them: one wrong leaf at the innermost place is refused.

use crate::maps::Hashed;
use std::collections::BTreeMap;
use test_tables::{Wrong, expect_read_itself, expect_table};

const SIX: &str = "[] => same
[[[[[[1,2],[]]],[]]],[]] => same
[[[[[[18446744073709551615]]]]]] => same
[[[[[[1,-2],[]]],[]]],[]]
[[[[[1]]]]]
[[[[[[[1]]]]]]]";

type Two = ((u64, u64), (u64, u64));

const PAIRS: &str = "[[[1,2],[3,4]],[[5,6],[7,8]]] => same
[[[1,2],[3,4]],[[5,6],[7,true]]]
[[[1,2],[3,4]],[[5,6],[7]]]";

const ENTRIES: &str = r#"[] => same
[["a",[1,null]],["b",[4294967295,[2,3]]]] => same
[["a",[1,null]],["b",[2,[2,"3"]]]]
[["a",[1]]]"#;

const INDEX: &str = r#"{} => same
{"a":[],"b":[["x",1],["y",null]]} => same
{"a":[],"b":[["x",1],["y",false]]}
{"a":[["x"]]}"#;

const MIXED: &str = r#"null => same
[] => same
[{"7":{"a":[1,2],"b":[]}},{}] => same
[{"7":{"a":[1,null]}}]
[{"x":{}}]"#;

#[test]
fn a_nested_value_has_its_leaves(rt: HostRuntime) -> Result<(), Wrong> {
    let alloc = rt.alloc();
    expect_table::<Vec<Vec<Vec<Vec<Vec<Vec<u64>>>>>>>(alloc, SIX)?;
    expect_table::<(Two, Two)>(alloc, PAIRS)?;
    expect_table::<Vec<(String, (u32, Option<Vec<u64>>))>>(alloc, ENTRIES)?;
    expect_read_itself::<BTreeMap<String, Vec<(String, Option<u64>)>>>(alloc, INDEX)?;
    expect_table::<Option<Box<Vec<BTreeMap<u32, Hashed<String, Vec<u64>>>>>>>(alloc, MIXED)
}
