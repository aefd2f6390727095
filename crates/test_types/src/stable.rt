//! A text and its canonical text: one value of a stable type, two of another.

use demo::Tag;
use std::collections::{BTreeMap, HashMap};
use std::hash::{BuildHasherDefault, DefaultHasher};
use test_tables::{
    Wrong, expect_canonical_of, expect_one_value, expect_refused, expect_two_values,
};

const CHARS: &str = r#"{"é":"A","z":"enum"} => {"z":"enum","é":"A"}"#;

const CANONICAL: &str = r#"{"b":[1, -0],"a":[]} => {"a":[],"b":[1,0]}
{}  => {}"#;

type Hashed = HashMap<String, u8, BuildHasherDefault<DefaultHasher>>;

#[test]
fn scalars_and_containers_are_stable(rt: HostRuntime) -> std::result::Result<(), Wrong> {
    let alloc = rt.alloc();
    expect_one_value::<()>(alloc, " null => null")?;
    expect_one_value::<bool>(alloc, "true  => true")?;
    expect_one_value::<u8>(alloc, " 255 => 255")?;
    expect_one_value::<u64>(alloc, "18446744073709551615 => 18446744073709551615")?;
    expect_one_value::<i8>(alloc, "-0 => 0")?;
    expect_one_value::<i64>(alloc, " -9223372036854775808 => -9223372036854775808")?;
    expect_one_value::<String>(alloc, r#""\u0061\/" => "a/""#)?;
    expect_refused::<u8>(alloc, "-0")?;
    expect_one_value::<Vec<Option<u8>>>(alloc, "[1, null ] => [1,null]")?;
    expect_one_value::<[i8; 2]>(alloc, "[-0, -1] => [0,-1]")?;
    expect_one_value::<(String, Box<bool>)>(alloc, r#"["\u0061", true] => ["a",true]"#)?;
    expect_one_value::<BTreeMap<String, i8>>(
        alloc,
        r#"{"b":-0, "a":1, "b":2} => {"a":1,"b":2}
{"\u0062":1,"a":2,"b":-0} => {"a":2,"b":0}"#,
    )?;
    expect_one_value::<BTreeMap<char, Tag>>(alloc, CHARS)?;
    expect_one_value::<BTreeMap<bool, u8>>(
        alloc,
        r#"{"true":1,"false":2} => {"false":2,"true":1}"#,
    )?;
    expect_one_value::<Hashed>(alloc, r#"{"b":1,"a":2,"b":3} => {"a":2,"b":3}"#)?;
    expect_canonical_of::<BTreeMap<String, Vec<i8>>>(alloc, CANONICAL)?;
    expect_canonical_of::<Vec<BTreeMap<u8, u8>>>(
        alloc,
        r#"[{"2":0,"10":1},{"7":2}] => [{"10":1,"2":0},{"7":2}]"#,
    )?;
    expect_canonical_of::<(BTreeMap<u8, u8>, Option<String>)>(
        alloc,
        r#"[{"9":1,"80":2},"b"] => [{"80":2,"9":1},"b"]"#,
    )?;
    // A map with integer keys is not stable.
    expect_two_values::<BTreeMap<u8, u8>>(
        alloc,
        r#"{"1":1,"01":2} => {"01":2,"1":1} => {"1":2} => {"1":1}"#,
    )
}
