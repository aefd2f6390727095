//! Queues: lists, alone and nested, and written in order wherever their items stand in memory.

use crate::checks::is_taken;
use crate::tuples::expect_each;
use miniserde::error::Result;
use miniserde::json::{from_str, to_string};
use miniserde::write_and_read;
use std::alloc::Global;
use std::collections::{BTreeMap, VecDeque};
use test_tables::{Wrong, expect_ok, expect_one_value, expect_prefixes_invalid};

const NUMBERS: &str = r#"[] => same
[1] => same
[3,1,2,1] => same
[ 7 , 0,18446744073709551615 ]  => [7,0,18446744073709551615]
 [ ] => []
[1,]
[,1]
[,]
[1,,2]
[1 2]
[1;2]
[-1]
[-0]
[1.0]
[1e0]
[01]
[18446744073709551616]
[1,"2"]
[1,null]
[1,[2]]
[[1]]
[1]]
[1] 2
[1
[1}
(1)
{}
{"0":1}
"[1]"
""
null
true
1"#;

const NAMES: &str = r#"["b","a","b",""] => same
[ "\u0061" , "\t" ] => ["a","\t"]
["a",1]
["a" "b"]
["a,"b"]
["a","\ud800"]
"a""#;

const ROUNDS: &str = r#"[[[1,"a"],[2,"b"]],[],[[255,""]]] => same
[] => same
[[]] => same
[[1,"a"]]
[[[1,"a",2]]]
[[[1]]]
[[[256,"a"]]]
[[[1,"a"]],null]
[[[1,"a"]],{}]"#;

const WAITING: &str = r#"{"a":[-1,null],"b":[]} => same
{"b":[],"a":[1],"b":[2]} => {"a":[1],"b":[2]}
{} => same
{"a":null}
{"a":[128]}
{"a":1}
[[1]]"#;

#[test]
fn a_queue_is_a_list(rt: HostRuntime) -> std::result::Result<(), Wrong> {
    let alloc = rt.alloc();
    expect_each::<VecDeque<u64>>(alloc, NUMBERS)?;
    expect_prefixes_invalid::<VecDeque<u64>>(alloc, "[7,0,18446744073709551615 ]")?;
    expect_each::<VecDeque<String>>(alloc, NAMES)?;
    expect_each::<VecDeque<VecDeque<(u8, String)>>>(alloc, ROUNDS)?;
    expect_each::<BTreeMap<String, VecDeque<Option<i8>>>>(alloc, WAITING)?;
    expect_each::<(VecDeque<bool>, Option<Box<VecDeque<()>>>)>(
        alloc,
        "[[true],[null]] => same\n[[],null] => same\n[[]]\n[null,null]\n[[],[1]]\n[[null],[]]",
    )?;
    expect_one_value::<VecDeque<i8>>(alloc, "[ 1, -0 , -2 ] => [1,0,-2]")?;
    expect_one_value::<VecDeque<VecDeque<String>>>(
        alloc,
        r#"[[], ["\u0062", "a\/"]] => [[],["b","a/"]]"#,
    )?;
    let pairs = r#"[[2,"b"],[1,"a"]]"#;
    let taken = is_taken::<VecDeque<(u8, String)>>(alloc, pairs);
    expect_ok(taken, "a queue of pairs")
}

/// Returns whether the first item of a text's queue leaves first, and new ones are written first and last.
fn is_first_in_first_out(alloc: Global) -> Result<bool> {
    let mut queue: VecDeque<u8> = from_str(alloc, "[5,6,7]")?;
    let first = queue.pop_front();
    queue.push_back(8)?;
    let later = to_string(alloc, &queue)?;
    let mut queue: VecDeque<u8> = from_str(alloc, "[2,3]")?;
    queue.push_front(1)?;
    let (_, back) = queue.as_slices();
    let is_in_two = !back.is_empty();
    Ok(
        first == Some(5)
            && later.as_str() == "[6,7,8]"
            && is_in_two
            && to_string(alloc, &queue)?.as_str() == "[1,2,3]",
    )
}

/// Returns a queue of 3 to 6 whose last items stand before its first one in memory.
fn wrapped(alloc: Global) -> Result<VecDeque<u8>> {
    let mut queue = VecDeque::with_capacity(alloc, 4)?;
    for item in 1..5_u8 {
        queue.push_back(item)?;
    }
    let _first = queue.pop_front();
    let _second = queue.pop_front();
    queue.push_back(5)?;
    queue.push_back(6)?;
    Ok(queue)
}

/// Returns whether a queue in two slices is written, and read again, in order.
fn is_in_order(alloc: Global) -> Result<bool> {
    let queue = wrapped(alloc)?;
    let (front, back) = queue.as_slices();
    let is_wrapped = front.len() == 2 && back.len() == 2;
    let again = write_and_read(alloc, &queue)?;
    Ok(
        is_wrapped
            && to_string(alloc, &queue)?.as_str() == "[3,4,5,6]"
            && to_string(alloc, &again)?.as_str() == "[3,4,5,6]",
    )
}

#[test]
fn a_queue_is_written_in_order(rt: HostRuntime) -> std::result::Result<(), Wrong> {
    let alloc = rt.alloc();
    expect_ok(is_first_in_first_out(alloc), "the items of a queue")?;
    expect_ok(is_in_order(alloc), "a queue in two slices")
}
