//! A reader that fails, a writer that fails or takes nothing, and what went out.

use crate::devices::{Failing, SOUND, make_device};
use crate::wrong::{Wrong, expect};
use miniserde_program::canon::{Fault, run};
use std::alloc::Global;

/// A document of 51 bytes.
pub const DOCUMENT: &[u8; 51] = b"{\"b\": -0, \"a\": [1.50, 18446744073709551616, 1e400]}";

/// Its canonical text, of 45.
const CANONICAL: &[u8; 45] = b"{\"a\":[1.50,18446744073709551616,1e400],\"b\":0}";

/// Returns whether a run over slow devices that fail so gives this answer, and has written this.
fn is_answered(
    alloc: Global,
    input: &[u8],
    failing: Failing,
    answer: Result<(), Fault>,
    written: &[u8],
) -> bool {
    let mut r = make_device(alloc, input, failing);
    let mut w = make_device(alloc, b"", failing);
    run(alloc, &mut r, &mut w) == answer && w.into_inner().got.as_slice() == written
}

#[test]
fn a_read_that_fails_writes_nothing(rt: HostRuntime) -> Result<(), Wrong> {
    let alloc = rt.alloc();
    // A call for each byte, and one that finds the end.
    for read in 1..53u64 {
        let failing = Failing { read, ..SOUND };
        let refused = Err(Fault::Read);
        let is_right = is_answered(alloc, DOCUMENT, failing, refused, b"");
        expect(is_right, "a read that fails")?;
    }
    let after = Failing { read: 53, ..SOUND };
    let is_right = is_answered(alloc, DOCUMENT, after, Ok(()), CANONICAL);
    expect(is_right, "a read after the end")?;
    // The third call comes behind what is no text's front.
    for (read, fault) in [(3, Fault::Read), (4, Fault::Read), (5, Fault::Invalid)] {
        let failing = Failing { read, ..SOUND };
        let is_right = is_answered(alloc, b"[}]", failing, Err(fault), b"");
        expect(is_right, "a read of a bad text")?;
    }
    Ok(())
}

#[test]
fn a_write_that_fails_leaves_a_beginning(rt: HostRuntime) -> Result<(), Wrong> {
    let alloc = rt.alloc();
    for idle in [false, true] {
        for k in 1..46usize {
            let failing = Failing {
                write: k as u64,
                idle,
                ..SOUND
            };
            let beginning = &CANONICAL[..k - 1];
            let refused = Err(Fault::Write);
            let is_right = is_answered(alloc, DOCUMENT, failing, refused, beginning);
            expect(is_right, "a write that fails")?;
        }
    }
    let after = Failing { write: 46, ..SOUND };
    let is_right = is_answered(alloc, DOCUMENT, after, Ok(()), CANONICAL);
    expect(is_right, "a write after the end")
}

#[test]
fn a_flush_that_fails_is_a_failed_write(rt: HostRuntime) -> Result<(), Wrong> {
    let failing = Failing {
        flush: true,
        ..SOUND
    };
    let refused = Err(Fault::Write);
    let is_right = is_answered(rt.alloc(), DOCUMENT, failing, refused, CANONICAL);
    expect(is_right, "a flush that fails")
}

#[test]
fn a_reader_of_one_byte_a_call_gives_the_same(rt: HostRuntime) -> Result<(), Wrong> {
    let alloc = rt.alloc();
    let is_right = is_answered(alloc, b"[ 1 ,\t20 ]\n", SOUND, Ok(()), b"[1,20]");
    expect(is_right, "a text")?;
    for bytes in [b"\xff".as_slice(), b"\"\xc3\""] {
        let is_right = is_answered(alloc, bytes, SOUND, Err(Fault::Invalid), b"");
        expect(is_right, "no UTF-8")?;
    }
    Ok(())
}
