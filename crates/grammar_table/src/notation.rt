//! How the table spells bytes: each visible ASCII character but `%` as itself, and any other byte as `%` and two
//! hexadecimal digits.
ghost use Rattle.std.specs.Prelude.{◌<◌, length, IfSome};

use std::alloc::{AllocError, Global};
use std::fmt;

/// Whether a byte stands for itself.
fn is_plain(byte: u8) -> bool {
    byte.is_ascii_graphic() && byte != b'%'
}

/// The value of a hexadecimal digit, whose letters are in lower case.
fn hex_digit(byte: u8) -> Option<u8>
    ensures { IfSome result (λ digit. digit < 16) }
{
    match byte {
        b'0'..=b'9' => Some(byte - b'0'),
        b'a'..=b'f' => Some(byte - b'a' + 10),
        _ => None,
    }
}

/// The byte that stands first in a field, and what stands behind it.
fn first_byte(field: &[u8]) -> Option<(u8, &[u8])>
    ensures { IfSome result (λ split. length split.1.now < length field.now) }
{
    match field {
        [b'%', high, low, behind @ ..] => {
            Some((16 * hex_digit(*high)? + hex_digit(*low)?, behind))
        }
        [byte, behind @ ..] if is_plain(*byte) => Some((*byte, behind)),
        _ => None,
    }
}

/// The bytes that a field spells, if it spells any.
pub fn decoded(alloc: Global, field: &str) -> Result<Option<Vec<u8>>, AllocError> {
    let mut bytes = Vec::new(alloc);
    let mut rest = field.as_bytes();
    while let Some((byte, behind)) = first_byte(rest) {
        bytes.push(byte)?;
        rest = behind;
    }
    Ok(if rest.is_empty() { Some(bytes) } else { None })
}

/// Bytes, shown as a field of the table.
#[derive(Clone, Copy)]
pub struct Spelled<'a>(pub &'a [u8]);

impl fmt::Display for Spelled<'_> {
    fn fmt<W: fmt::Write>(&self, f: &mut fmt::Formatter<W>) -> fmt::Result {
        for byte in self.0 {
            if is_plain(*byte) {
                write!(f, "{}", char::from(*byte))?;
            } else {
                write!(f, "%{byte:02x}")?;
            }
        }
        Ok(())
    }
}
