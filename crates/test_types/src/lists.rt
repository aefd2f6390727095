//! Lists, arrays of fixed length and pairs, alone and nested.

use miniserde::error::Result;
use miniserde::json::from_str;
use std::alloc::Global;
use test_tables::{Wrong, expect_ok, expect_prefixes_invalid, expect_read_itself, expect_table};

const NUMBERS: &str = r#" [ 7 , 0,18446744073709551615 ]  => [7,0,18446744073709551615]
[] => same
[ ] => []
[1,]
[,1]
[1 2]
[1;2]
[-1]
[1]]
[1}
(1)
{}
null
1"#;

/// Returns whether a text is an empty list of numbers.
fn is_empty(alloc: Global, text: &str) -> Result<bool> {
    let numbers: Vec<u64> = from_str(alloc, text)?;
    Ok(numbers.is_empty())
}

#[test]
fn a_list_has_items_between_commas(rt: HostRuntime) -> std::result::Result<(), Wrong> {
    let alloc = rt.alloc();
    expect_table::<Vec<u64>>(alloc, NUMBERS)?;
    expect_prefixes_invalid::<Vec<u64>>(alloc, "[7,0,18446744073709551615 ]")?;
    expect_ok(is_empty(alloc, "[\n]"), "a line feed in a list")?;
    expect_ok(
        is_empty(alloc, "\r\n\t [\r\n\t ]\r\n\t "),
        "each whitespace around brackets",
    )?;
    expect_read_itself::<Vec<Vec<u64>>>(
        alloc,
        "[[1],[],[2, 3]] => [[1],[],[2,3]]\n[1]\n[[1]\n[[1]]]\n[[1],]\n[{}]\n{\"a\":[]}\nnull\n[[-1]]",
    )?;
    expect_table::<Vec<String>>(
        alloc,
        "[\"\", \"\\t\"] => [\"\",\"\\t\"]\n[\"a\",1]\n[\"a\" \"b\"]\n[\"a,\"b\"]",
    )?;
    // A pair has two items.
    expect_table::<(u8, bool)>(
        alloc,
        "[1,true] => same\n[1]\n[1,true,null]\n[1,true,]\n[true,1]\n[]\n1\n{\"a\":1,\"b\":true}",
    )?;
    expect_table::<(Vec<u8>, (bool, String))>(
        alloc,
        "[[1,2],[false,\"a\"]] => same\n[[1,2],[false]]\n[[1,256],[false,\"a\"]]",
    )
}

#[test]
fn an_array_has_its_length(rt: HostRuntime) -> std::result::Result<(), Wrong> {
    let alloc = rt.alloc();
    expect_table::<[u64; 3]>(
        alloc,
        "[ 1 , 2 , 3 ] => [1,2,3]\n[1,2]\n[1,2,3,4]\n[1,2,3,]",
    )?;
    expect_table::<[String; 3]>(
        alloc,
        "[\"1\",\"2\",\"3\"] => same\n[\"1\",\"2\"]\n[\"1\",\"2\",\"3\",\"4\"]\n[]\n[\"1\",2,\"3\"]\n\"123\"",
    )?;
    expect_read_itself::<[u8; 0]>(alloc, "[ ] => []\n[1]\nnull\n{}")?;
    expect_read_itself::<[(u8, String); 2]>(
        alloc,
        "[[1,\"a\"],[2,\"b\"]] => same\n[[1,\"a\"],[2,2]]\n[[1,\"a\"]]",
    )?;
    expect_table::<[(u8, u8); 2]>(alloc, "[[1,2],[3,4]] => same\n[[1,\"a\"],[2,\"b\"]]")
}
