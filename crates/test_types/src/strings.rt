//! Strings: each escape, surrogates, and bytes that may not stand for themselves.

use test_tables::{Wrong, expect_prefixes_invalid, expect_read_itself};

const ESCAPES: &str = r#""" => same
"\"" => same
"\\" => same
"\/" => "/"
"\b" => same
"\f" => same
"\n" => same
"\r" => same
"\t" => same
"\u0041\/" => "A/"
"\u0001/" => same
"\u0008\u000C\u000a\u000D\u0009" => "\b\f\n\r\t"
"\u0020\u0022\u005c\u002F" => " \"\\/"
"\u001f\u001F\u000b" => "\u001f\u001f\u000b"
"a\u0000b" => same
"é" => same
"\u00E9" => "é"
"\ud83d\ude00" => "😀"
"\uD834\uDD1E" => "𝄞"
"\a"
"\'"
"\0"
"\x41"
"\U0041"
"\u12"
"\u004"
"\u00g0"
"\u{41}"
"\x"
"a
a
"a"b"
'a'
null
["a"]"#;

#[test]
fn an_escape_is_the_character_that_it_stands_for(rt: HostRuntime) -> Result<(), Wrong> {
    expect_read_itself::<String>(rt.alloc(), ESCAPES)?;
    // Surrogates come in pairs.
    expect_read_itself::<String>(
        rt.alloc(),
        "\"\\ud7ff\\uE000\\uffff\" => \"\u{d7ff}\u{e000}\u{ffff}\"\n\
        \"\\uDBFF\\uDFFF\" => \"\u{10ffff}\"\n\
        \"\\ud800\\udc00\" => \"\u{10000}\"\n\
        \"\\ud800\"\n\
        \"\\udfff\"\n\
        \"\\ude00\\ud83d\"\n\
        \"\\ud800x\"\n\
        \"\\ud800\\n\"\n\
        \"\\ud800\\ud800\"\n\
        \"\\ud800\\u0041\"\n\
        \"\\udc00\\udc00\"\n\
        \"\\ud83d\\ude0\"\n\
        \"\\ud83d\\\"",
    )
}

#[test]
fn a_control_character_is_escaped(rt: HostRuntime) -> Result<(), Wrong> {
    expect_read_itself::<String>(
        rt.alloc(),
        "\"\x7f\" => same\n\"\u{80}\" => same\n\"\u{2028}\" => same\n\"\x1f\"\n\"\x01\"\n\"\x00\"\n\"\t\"\n\"a\x0cb\"\n\"a\rb\"",
    )?;
    expect_prefixes_invalid::<String>(
        rt.alloc(),
        r#""a long string of more than two lanes, with \"escapes\", \ud83d\ude00, é and \\""#,
    )
}
