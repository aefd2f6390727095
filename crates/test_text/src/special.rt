//! The search for special bytes.
ghost use Rattle.std.specs.Prelude.{◌<◌, length};

use crate::wrong::{Wrong, expect};
use miniserde_text::scan::special;

#[test]
fn special_finds_quotes_backslashes_and_control_bytes() -> Result<(), Wrong> {
    let mut bytes = [b'a'; 64];
    bytes[31] = b'"';
    bytes[63] = b'\\';
    expect(special(&bytes, 0) == 31, "the quote from 0")?;
    expect(special(&bytes, 32) == 63, "the backslash from 32")?;
    expect(special(&bytes, 64) == 64, "nothing from the end")?;
    let high = [0x80u8; 40];
    expect(special(&high, 0) == 40, "no byte above 0x7f")?;
    let mut control = [0x7fu8; 34];
    control[33] = 0x1f;
    expect(special(&control, 1) == 33, "the control byte from 1")?;
    expect(special(&[], 0) == 0, "no bytes")
}

/// Returns where `special` is to stop.
fn first_special(bytes: &[u8], from: usize) -> usize {
    for (i, byte) in bytes.iter().enumerate() {
        if i >= from && (*byte < 0x20 || *byte == 0x22 || *byte == 0x5c) {
            return i;
        }
    }
    bytes.len()
}

/// Returns whether `special` stops where it is to, with each byte at `place`.
fn is_right_at(bytes: &mut [u8], place: usize) -> bool
    requires { place < length bytes.now }
{
    let plain = bytes[place];
    for byte in 0..=u8::MAX {
        bytes[place] = byte;
        if special(bytes, 0) != first_special(bytes, 0)
            || special(bytes, place) != first_special(bytes, place)
        {
            return false;
        }
    }
    bytes[place] = plain;
    true
}

#[test]
fn special_is_right_for_each_byte_at_each_place() -> Result<(), Wrong> {
    let plain = [0x20, 0x21, 0x23, 0x5b, 0x5d, 0x7f, 0x80, 0xff, b'a'];
    let mut bytes = [0u8; 70];
    for i in 0..70 {
        bytes[i] = plain[i % 9];
    }
    for len in 0..=70 {
        for place in 0..len {
            expect(is_right_at(&mut bytes[..len], place), "a length up to 70")?;
        }
    }
    Ok(())
}
