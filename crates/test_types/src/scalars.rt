//! Integers and words: read at both ends of their range, refused one beyond, and written.

use test_tables::{Wrong, expect_read_itself};

const UNSIGNED: &str = r#"0 => same
255 => same
 7  => 7
256
-0
-1
1.0
1e0
"1"
01
+1
1 2
1,
null
true
[]
18446744073709551616"#;

#[test]
fn an_unsigned_integer_is_in_range(rt: HostRuntime) -> Result<(), Wrong> {
    let alloc = rt.alloc();
    expect_read_itself::<u8>(alloc, UNSIGNED)?;
    expect_read_itself::<u8>(alloc, "\u{feff}1\n\t7\t => 7\n\u{a0}1\n7\u{c}")?;
    expect_read_itself::<u16>(alloc, "0 => same\n65535 => same\n65536\n-1")?;
    expect_read_itself::<u32>(alloc, "0 => same\n4294967295 => same\n4294967296\n-1")?;
    expect_read_itself::<u64>(
        alloc,
        "0 => same\n18446744073709551615 => same\n18446744073709551616\n-0\n-1\n1e2\n99999999999999999999",
    )?;
    expect_read_itself::<usize>(
        alloc,
        "0 => same\n18446744073709551615 => same\n18446744073709551616\n-1",
    )
}

#[test]
fn a_signed_integer_is_in_range_and_a_word_is_as_spelled(rt: HostRuntime) -> Result<(), Wrong> {
    let alloc = rt.alloc();
    expect_read_itself::<i8>(alloc, "-128 => same\n127 => same\n-0 => 0\n-129\n128")?;
    expect_read_itself::<i16>(
        alloc,
        "-32768 => same\n32767 => same\n-0 => 0\n-32769\n32768",
    )?;
    expect_read_itself::<i32>(
        alloc,
        "-2147483648 => same\n2147483647 => same\n-0 => 0\n-2147483649\n2147483648",
    )?;
    expect_read_itself::<i64>(
        alloc,
        "-9223372036854775808 => same\n9223372036854775807 => same\n0 => same\n-0 => 0\n-9223372036854775809\n9223372036854775808\n-0.0\n-\n--1",
    )?;
    expect_read_itself::<isize>(
        alloc,
        "-9223372036854775808 => same\n9223372036854775807 => same\n-0 => 0\n-9223372036854775809\n9223372036854775808",
    )?;
    expect_read_itself::<()>(
        alloc,
        "null => same\n\n \nnul\nnulll\nNull\ntrue\n0\n[]\nnull null",
    )?;
    expect_read_itself::<bool>(
        alloc,
        "true => same\nfalse => same\n true  => true\nTrue\ntru\ntruee\nnull\n1\n\"true\"\n true && false ",
    )
}
