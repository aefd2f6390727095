//! Appends the digits of an integer by one copy of fixed size, which is faster than a copy of varying size.
ghost use Rattle.std.specs.Prelude.{◌≡◌, ◌+◌, ◌≤◌, ◌++◌, true, decimal, string_bytes, string_len, string_capacity};

use itoa::write_digits;
use std::str;

// The length in bytes of the longest text of an integer of 64 bits.
const LONGEST: usize = 20;

/// Returns true only if `out` has room for 20 more bytes, the longest text of an integer of 64 bits.
#[inline(always)]
pub fn has_room(out: &String) -> bool
    ensures { result ≡ true → string_len out.now + 20 ≤ string_capacity out.now }
{
    out.capacity() - out.len() >= LONGEST
}

/// Appends the decimal digits of a number. `out` has room for 20 bytes: the call copies that many, and then truncates
/// `out` after the digits.
#[inline(always)]
pub fn put_digits(n: u64, out: &mut String)
    requires { string_len out.old + 20 ≤ string_capacity out.old }
    ensures bytes { string_bytes out.new ≡ string_bytes out.old ++ decimal n }
    ensures capacity { string_capacity out.old ≤ string_capacity out.new }
{
    let mut digits = [b'0'; 40];
    let start = write_digits(n, &mut digits, LONGEST);
    let len = out.len() + (LONGEST - start);
    // The digits end at index 20. The copy takes them, and of the zeros after them as many as make 20 bytes.
    let copied = unsafe { str::from_utf8_unchecked(&digits[start..start + LONGEST]) };
    out.push_str(copied).unwrap();
    out.truncate(len);
}
