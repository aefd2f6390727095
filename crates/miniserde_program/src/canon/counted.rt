//! A reader or a writer with two counts: of its calls that failed, and of its calls of `flush`.
ghost use Rattle.std.specs.Prelude.{◌≡◌, ◌+◌, ◌<◌, length, MatchResult, OnOk, OnErr, IfOk};
ghost use Rattle.std.specs.Io.{ReadsAtMost, WritesAtMost};
ghost use Rattle.std.specs.Io.KnownBytes.{ReadConsumes, WriteAppends, Keeps};

use crate::canon::count::Count;
use std::io;
use std::io::{Read, Write};

/// A reader or a writer that counts its failed calls and its flushes. A write that takes none of
/// its bytes counts as failed, unless it has none. Only contracts see the counts, which take no
/// memory.
#[derive(Drop)]
pub struct Counted<T> {
    inner: T,
    failed: Count,
    flushed: Count,
}

impl<T> Counted<T> {
    ghost use Rattle.miniserde_program.specs.Counts.{inner_of, failures, flushes};

    /// Returns a reader or a writer around `inner`, whose counts are 0.
    pub fn new(inner: T) -> Counted<T>
        ensures inner { inner_of result ≡ inner }
        ensures failures { failures result ≡ 0 }
        ensures flushes { flushes result ≡ 0 }
    {
        Counted {
            inner,
            failed: Count::new(),
            flushed: Count::new(),
        }
    }

    /// Returns the inner reader or writer.
    pub fn into_inner(self) -> T
        ensures { result ≡ inner_of self }
    {
        let Counted {
            inner,
            failed: _,
            flushed: _,
        } = self;
        inner
    }
}

impl<R: Read> Read for Counted<R> {
    ghost use Rattle.miniserde_program.specs.Counts.{inner_of, failures, flushes};

    ghost remaining = { λ c. R.remaining (inner_of c) };

    // Reads from the inner reader, and counts an error as a failed call.
    fn read(&mut self, buf: &mut [u8]) -> io::Result<usize>
        ensures bound { ReadsAtMost result buf.new }
        ensures bytes { ReadConsumes (R.remaining (inner_of self.old)) (R.remaining (inner_of self.new))
            result buf.new }
        ensures failures { MatchResult result (λ _. failures self.new ≡ failures self.old)
            (λ _. failures self.new ≡ failures self.old + 1) }
        ensures flushes { flushes self.new ≡ flushes self.old }
    {
        let result = self.inner.read(buf);
        if result.is_err() {
            self.failed = self.failed.next();
        }
        result
    }
}

impl<W: Write> Write for Counted<W> {
    ghost use Rattle.miniserde_program.specs.Counts.{inner_of, failures, flushes};

    ghost contents = { λ c. W.contents (inner_of c) };

    // Writes to the inner writer. Counts as a failed call an error, or an `Ok(0)` unless `buf` is
    // empty.
    fn write(&mut self, buf: &[u8]) -> io::Result<usize>
        ensures bound { WritesAtMost result buf.now }
        ensures bytes { WriteAppends (W.contents (inner_of self.old)) (W.contents (inner_of self.new)) result buf.now }
        ensures taken { IfOk result (λ n. 0 < n → failures self.new ≡ failures self.old) }
        ensures idle { IfOk result (λ n. length buf.now ≡ 0 → failures self.new ≡ failures self.old) }
        ensures none_taken { IfOk result (λ n. n ≡ 0 → 0 < length buf.now → failures self.new ≡ failures self.old + 1) }
        ensures failed { OnErr result (failures self.new ≡ failures self.old + 1) }
        ensures flushes { flushes self.new ≡ flushes self.old }
    {
        let result = self.inner.write(buf);
        let failed = match &result {
            Ok(n) => *n == 0 && !buf.is_empty(),
            Err(_) => true,
        };
        if failed {
            self.failed = self.failed.next();
        }
        result
    }

    // Flushes the inner writer and counts the flush. Counts an error as a failed call too.
    fn flush(&mut self) -> io::Result<()>
        ensures bytes { Keeps (W.contents (inner_of self.old)) (W.contents (inner_of self.new)) }
        ensures failures { MatchResult result (λ _. failures self.new ≡ failures self.old)
            (λ _. failures self.new ≡ failures self.old + 1) }
        ensures flushes { flushes self.new ≡ flushes self.old + 1 }
    {
        let result = self.inner.flush();
        self.flushed = self.flushed.next();
        if result.is_err() {
            self.failed = self.failed.next();
        }
        result
    }
}
