//! Keys of maps. A line of a table is a name, ` => `, and the text of the key that it is read as; a line without
//! ` => ` is a name that is invalid.
ghost use Rattle.std.specs.Prelude.{◌≡◌, Err, IfOk, true};
ghost use Rattle.miniserde_model.specs.declared.error.Error.TheVariants.{Invalid};

use crate::wrong::{Wrong, expect};
use miniserde_keys::MapKey;
use miniserde_model::error::{Error, Result};
use std::alloc::Global;
use std::fmt::Display;

/// Returns the key that is read from the name of a key.
fn write_and_read<K: MapKey>(alloc: Global, key: &K) -> Result<K>
    ensures equal { IfOk result (λ again. K.eq again key.now ≡ true) }
    ensures never { result ≡ Err Invalid → ⊥ }
{
    key.ranged();
    let mut name = String::new(alloc);
    key.to_key(&mut name)?;
    K::from_key(alloc, name.as_str())
}

/// Returns whether a name is read as the key that prints as a text, is appended so, and is read again as an equal key.
fn is_key<K: MapKey + Display>(alloc: Global, name: &str, text: &str) -> Result<bool> {
    let key = K::from_key(alloc, name)?;
    let is_same = write_and_read(alloc, &key)? == key;
    let mut out = String::from_str(alloc, "before ")?;
    key.to_key(&mut out)?;
    let is_appended =
        matches!(out.as_str().strip_prefix("before "), Some(written) if written == text);
    Ok(is_same & is_appended & (key.to_string(alloc)?.as_str() == text))
}

/// Fails with the first line of a table that is wrong for a type of keys, if any.
fn expect_keys<K: MapKey + Display>(
    alloc: Global,
    table: &'static str,
) -> std::result::Result<(), Wrong> {
    for line in table.lines() {
        let is_right = match line.split_once(" => ") {
            Some((name, text)) => matches!(is_key::<K>(alloc, name, text), Ok(true)),
            None => matches!(K::from_key(alloc, line), Err(Error::Invalid)),
        };
        expect(is_right, line)?;
    }
    Ok(())
}

const TEXTS: &str = " => \n\
    a => a\n \
    1 =>  1\n\
    \u{e9}\0\" => \u{e9}\0\"\n\
    true => true\n\
    +7 => +7\n\
    \\ud800 => \\ud800\n\
    \u{1f600} => \u{1f600}";

const BOOLS: &str = "true => true\n\
    false => false\n\
    True\n\
    TRUE\n\
    true \n\
    \n\
    1\n\
    tru\n\
    False\n\
    0\n\
    falsetto";

const CHARS: &str = "a => a\n\
    \0 => \0\n\
    \u{7f} => \u{7f}\n\
    \u{80} => \u{80}\n\
    \u{e9} => \u{e9}\n\
    \u{7ff} => \u{7ff}\n\
    \u{800} => \u{800}\n\
    \u{d7ff} => \u{d7ff}\n\
    \u{e000} => \u{e000}\n\
    \u{ffff} => \u{ffff}\n\
    \u{10000} => \u{10000}\n\
    \u{1f600} => \u{1f600}\n\
    \u{10ffff} => \u{10ffff}\n\
    \n\
    ab\n\
    \u{e9}\u{e9}\n\
    e\u{301}";

#[test]
fn a_key_is_a_text_or_a_word_or_one_code_point(rt: HostRuntime) -> std::result::Result<(), Wrong> {
    let alloc = rt.alloc();
    expect_keys::<String>(alloc, TEXTS)?;
    expect_keys::<bool>(alloc, BOOLS)?;
    expect_keys::<char>(alloc, CHARS)
}

const UNSIGNED: &str = "0 => 0\n\
    255 => 255\n\
    0000000255 => 255\n\
    -0\n\
    -1\n\
    256\n\
    +\n\
    -\n\
    \n \
    1\n\
    1 \n\
    ++1\n\
    1_0\n\
    a\n\
    1.0\n\
    0x1";

const SIGNED: &str = "-0 => 0\n\
    -128 => -128\n\
    127 => 127\n\
    128\n\
    -129\n\
    +\n\
    -\n\
    \n \
    1\n\
    +-1\n\
    --1\n\
    -1.0";

const LONG_UNSIGNED: &str = "0 => 0\n\
    +0 => 0\n\
    10 => 10\n\
    18446744073709551615 => 18446744073709551615\n\
    18446744073709551616\n\
    -1";

const LONG_SIGNED: &str = "-007 => -7\n\
    -1 => -1\n\
    -9223372036854775808 => -9223372036854775808\n\
    9223372036854775807 => 9223372036854775807\n\
    9223372036854775808\n\
    -9223372036854775809";

#[test]
fn keys_of_integers_are_in_range(rt: HostRuntime) -> std::result::Result<(), Wrong> {
    let alloc = rt.alloc();
    expect_keys::<u8>(alloc, UNSIGNED)?;
    expect_keys::<u16>(alloc, "0 => 0\n65535 => 65535\n65536\n-1")?;
    expect_keys::<u32>(
        alloc,
        "0 => 0\n7 => 7\n007 => 7\n+7 => 7\n4294967295 => 4294967295\n4294967296\n-1",
    )?;
    expect_keys::<u64>(alloc, LONG_UNSIGNED)?;
    expect_keys::<usize>(alloc, LONG_UNSIGNED)?;
    expect_keys::<i8>(alloc, SIGNED)?;
    expect_keys::<i16>(
        alloc,
        "-5 => -5\n+3 => 3\n-32768 => -32768\n32767 => 32767\n32768\n-32769",
    )?;
    expect_keys::<i32>(
        alloc,
        "5 => 5\n-2147483648 => -2147483648\n2147483647 => 2147483647\n-2147483649\n2147483648",
    )?;
    expect_keys::<i64>(alloc, LONG_SIGNED)?;
    expect_keys::<isize>(alloc, LONG_SIGNED)
}
