//! What `Counted` asks of its device.

use crate::devices::{Failing, SOUND, make_device};
use crate::wrong::{Wrong, expect};
use miniserde_program::canon::Counted;
use std::io::{Read, Write};
use std::mem::size_of;

#[test]
fn each_call_is_one_call_of_the_device(rt: HostRuntime) -> Result<(), Wrong> {
    let mut device = make_device(rt.alloc(), b"xy", SOUND);
    let mut buf = [0u8; 4];
    let is_read = matches!(device.read(&mut buf), Ok(1)) && buf == *b"x\0\0\0";
    expect(is_read, "a read")?;
    expect(matches!(device.write(b"abc"), Ok(1)), "a write")?;
    expect(device.flush().is_ok(), "a flush")?;
    let heard = device.into_inner();
    let calls = (heard.reads, heard.writes, heard.flushes);
    expect(calls == (1, 1, 1), "one call each")?;
    let is_written = heard.offered == 3 && heard.got.as_slice() == b"a".as_slice();
    expect(is_written, "what is offered and taken")?;
    let is_free = size_of::<Counted<Vec<u8>>>() == size_of::<Vec<u8>>();
    expect(is_free, "counts take no bytes")
}

#[test]
fn a_call_that_failed_is_not_made_again(rt: HostRuntime) -> Result<(), Wrong> {
    let failing = Failing {
        read: 1,
        write: 1,
        idle: false,
        flush: true,
    };
    let mut device = make_device(rt.alloc(), b"xy", failing);
    let mut buf = [0u8; 4];
    expect(device.read(&mut buf).is_err(), "a read")?;
    expect(device.write(b"abc").is_err(), "a write")?;
    expect(device.flush().is_err(), "a flush")?;
    let heard = device.into_inner();
    let calls = (heard.reads, heard.writes, heard.flushes, heard.offered);
    expect(calls == (1, 1, 1, 3), "one call each")
}
