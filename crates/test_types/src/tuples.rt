//! Tuples of three to six: lists of exactly so many, alone and nested.
ghost use Rattle.std.specs.Prelude.{◌≡◌, Ok, IfOk, string_bytes};
ghost use Rattle.miniserde.specs.Tree.{list, no_trees, nonneg, str, tree, truth};
ghost use Rattle.miniserde.specs.Value.{IsJson};

use crate::checks::is_taken;
use miniserde::error::Result;
use miniserde::json::from_str;
use miniserde::{Lossless, read_itself};
use std::alloc::Global;
use test_tables::{
    Wrong, expect_ok, expect_one_value, expect_prefixes_invalid, expect_read_itself,
    expect_round_trip, expect_table,
};

/// Fails with the first line of a table that is wrong for a type, when its values are written at once or read again.
pub fn expect_each<T: Lossless>(
    alloc: Global,
    table: &'static str,
) -> std::result::Result<(), Wrong> {
    expect_table::<T>(alloc, table)?;
    expect_round_trip::<T>(alloc, table)?;
    expect_read_itself::<T>(alloc, table)
}

const THREE: &str = r#"[1,"a",true] => same
 [ 255 ,"\u0061" , false ]  => [255,"a",false]
[0,"",true] => same
[]
[1]
[1,"a"]
[1,"a",true,null]
[1,"a",true,2]
[1,"a",true,]
[,1,"a",true]
[1,,"a",true]
[1 "a",true]
[1,"a";true]
["1","a",true]
[256,"a",true]
[-1,"a",true]
[1,2,true]
[1,null,true]
[1,"a",1]
[1,"a",null]
["a",1,true]
[true,"a",1]
[[1,"a"],true]
[[1,"a",true]]
[1,["a",true]]
{"0":1,"1":"a","2":true}
(1,"a",true)
[1,"a",true
[1,"a",true}
[1,"a",true]]
1,"a",true
null
{}
"1""#;

const EQUAL: &str = "[1,2,3] => same
[3,2,1] => same
[ 1 , 2 , 3 ] => [1,2,3]
[1,2]
[1,2,3,4]
[256,2,3]
[1,256,3]
[1,2,256]
[-0,2,3]
[1,2,3.0]";

const FOUR: &str = "[1,-2,3,\"d\"] => same
[1,-2,3]
[1,-2,3,\"d\",5]
[\"a\",-2,3,\"d\"]
[1,\"b\",3,\"d\"]
[1,-2,\"c\",\"d\"]
[1,-2,3,4]
[]
null";

const FIVE: &str = "[1,2,3,4,5] => same
[5,4,3,2,1] => same
[1,2,3,4]
[1,2,3,4,5,6]
[256,2,3,4,5]
[1,256,3,4,5]
[1,2,256,4,5]
[1,2,3,256,5]
[1,2,3,4,256]
[]
null";

const SIX: &str = r#"[1,"b",true,null,[5],-6] => same
[ 1 , "b" , true , 4 , [ 5 , 6 ] , -6 ] => [1,"b",true,4,[5,6],-6]
[1,"b",true,null,[5]]
[1,"b",true,null,[5],-6,7]
["1","b",true,null,[5],-6]
[1,2,true,null,[5],-6]
[1,"b",3,null,[5],-6]
[1,"b",true,"4",[5],-6]
[1,"b",true,null,5,-6]
[1,"b",true,null,[5],"6"]
[]
null"#;

type Six = (u8, String, bool, Option<u8>, Vec<u8>, i8);

#[test]
fn a_tuple_of_three_to_six_has_so_many_items(rt: HostRuntime) -> std::result::Result<(), Wrong> {
    expect_each::<(u8, String, bool)>(rt.alloc(), THREE)?;
    expect_prefixes_invalid::<(u8, String, bool)>(rt.alloc(), r#"[1,"a",true]"#)?;
    expect_each::<(u8, u8, u8)>(rt.alloc(), EQUAL)?;
    expect_prefixes_invalid::<(u8, u8, u8)>(rt.alloc(), "[1,2,3]")?;
    expect_each::<(u8, i16, u32, String)>(rt.alloc(), FOUR)?;
    expect_prefixes_invalid::<(u8, i16, u32, String)>(rt.alloc(), "[1,-2,3,\"d\"]")?;
    expect_each::<(u8, u8, u8, u8, u8)>(rt.alloc(), FIVE)?;
    expect_prefixes_invalid::<(u8, u8, u8, u8, u8)>(rt.alloc(), "[1,2,3,4,5]")?;
    expect_each::<Six>(rt.alloc(), SIX)?;
    expect_prefixes_invalid::<Six>(rt.alloc(), r#"[1,"b",true,null,[5],-6]"#)
}

const NESTED: &str = r#"[[1,2,3],[[4,5],"b",[]],null] => same
[[1,2,3],[[4,5],"b",[6]],[7,8,9]] => same
[[1,2],[[4,5],"b",[]],null]
[[1,2,3,4],[[4,5],"b",[]],null]
[[1,2,3],[[4],"b",[]],null]
[[1,2,3],[4,5,"b",[]],null]
[1,2,3,[[4,5],"b",[]],null]
[[1,2,3],[[4,5],"b",[]]]
[[1,2,3],[[4,5],"b",[]],[7,8]]
[[1,2,3],[[4,5],"b",[]],[]]"#;

type Nested = (
    (u8, u8, u8),
    ((u8, u8), String, Vec<u8>),
    Option<(u8, u8, u8)>,
);

#[test]
fn tuples_stand_in_tuples(rt: HostRuntime) -> std::result::Result<(), Wrong> {
    let alloc = rt.alloc();
    expect_each::<Nested>(alloc, NESTED)?;
    expect_prefixes_invalid::<Nested>(alloc, r#"[[1,2,3],[[4,5],"b",[]],null]"#)?;
    expect_table::<Vec<(u8, u8, u8)>>(
        alloc,
        "[[1,2,3],[4,5,6]] => same\n[] => same\n[[1,2,3],[4,5]]\n[1,2,3]",
    )?;
    expect_one_value::<(i8, String, bool)>(alloc, r#"[-0, "\u0061", true] => [0,"a",true]"#)?;
    expect_one_value::<(u8, String, bool, Option<u8>, Vec<u8>, i8)>(
        alloc,
        r#"[1, "\u0062", true, null, [5], -0] => [1,"b",true,null,[5],0]"#,
    )
}

/// Reads a row of a table: the text is a list of a number, a name and an answer, and these are the items.
fn row(alloc: Global, text: &str) -> Result<(u8, String, bool)>
    ensures { IfOk result (λ v. IsJson text.now
        (list (tree (nonneg v.0) (tree (str (string_bytes v.1)) (tree (truth v.2) no_trees))))) }
{
    from_str(alloc, text)
}

/// Writes a row and reads it again as itself.
fn same_row(alloc: Global, row: &(u8, String, bool)) -> Result<(u8, String, bool)>
    ensures { IfOk result (λ v. (v.0 ≡ row.now.0) × (string_bytes v.1 ≡ string_bytes row.now.1) × (v.2 ≡ row.now.2)) }
{
    read_itself(alloc, row)
}

/// Returns whether a row is read, and read again, with its items in their places.
fn is_row(alloc: Global, text: &str) -> Result<bool> {
    let row = row(alloc, text)?;
    let (number, name, answer) = same_row(alloc, &row)?;
    Ok(number == 7 && name.as_str() == "x" && answer)
}

#[test]
fn each_call_takes_tuples_with_items_in_their_places(
    rt: HostRuntime,
) -> std::result::Result<(), Wrong> {
    let alloc = rt.alloc();
    let triple = is_taken::<(u8, String, bool)>(alloc, r#"[1,"a",true]"#);
    expect_ok(triple, "a triple")?;
    let six = is_taken::<Six>(alloc, r#"[1,"b",true,null,[5],-6]"#);
    expect_ok(six, "a tuple of six")?;
    expect_ok(is_row(alloc, r#"[7,"x",true]"#), "the items of a row")
}
