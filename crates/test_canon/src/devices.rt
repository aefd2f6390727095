//! A reader and a writer in memory, slow and failing.
ghost use Rattle.std.specs.Prelude.{Some};

use miniserde_program::canon::Counted;
use std::alloc::Global;
use std::io;
use std::io::{ErrorKind, Read, Write};

/// How a device fails: at which call of `read` and of `write`, none by 0, whether it takes nothing there instead, and
/// whether its flush fails.
#[derive(Clone, Copy)]
pub struct Failing {
    pub read: u64,
    pub write: u64,
    pub idle: bool,
    pub flush: bool,
}

/// A device that never fails.
pub const SOUND: Failing = Failing {
    read: 0,
    write: 0,
    idle: false,
    flush: false,
};

/// Gives and takes one byte a call. Counts its calls, and keeps how many bytes the last `write` offered.
#[derive(Drop)]
pub struct Device<'a> {
    pub left: &'a [u8],
    pub got: Vec<u8>,
    pub reads: u64,
    pub writes: u64,
    pub flushes: u64,
    pub offered: usize,
    failing: Failing,
}

impl Read for Device<'_> {
    ghost remaining = { λ s. Some s.left.now };

    fn read(&mut self, buf: &mut [u8]) -> io::Result<usize> {
        self.reads = self.reads.wrapping_add(1);
        if self.reads == self.failing.read {
            return Err(io::Error::from(ErrorKind::Interrupted));
        }
        match (self.left.split_first(), buf.first_mut()) {
            (Some((first, rest)), Some(place)) => {
                *place = *first;
                self.left = rest;
                Ok(1)
            }
            _ => Ok(0),
        }
    }
}

impl Write for Device<'_> {
    ghost contents = { λ s. Some s.got.items };

    fn write(&mut self, buf: &[u8]) -> io::Result<usize> {
        self.writes = self.writes.wrapping_add(1);
        self.offered = buf.len();
        if self.writes == self.failing.write {
            if self.failing.idle {
                return Ok(0);
            }
            return Err(io::Error::from(ErrorKind::Interrupted));
        }
        match buf.first() {
            Some(first) => {
                self.got.push(*first)?;
                Ok(1)
            }
            None => Ok(0),
        }
    }

    fn flush(&mut self) -> io::Result<()> {
        self.flushes = self.flushes.wrapping_add(1);
        if self.failing.flush {
            return Err(io::Error::from(ErrorKind::Other));
        }
        Ok(())
    }
}

/// Returns a device that gives these bytes and fails so.
pub fn make_device(alloc: Global, left: &[u8], failing: Failing) -> Counted<Device<'_>> {
    Counted::new(Device {
        left,
        got: Vec::new(alloc),
        reads: 0,
        writes: 0,
        flushes: 0,
        offered: 0,
        failing,
    })
}
