//! A reader or a writer whose failures are counted.
ghost use Rattle.std.specs.Prelude.{◌≡◌, is_ok};
ghost use Rattle.std.specs.Io.{ReadsAtMost, WritesAtMost};
ghost use Rattle.std.specs.Io.KnownBytes.{Keeps, ReadConsumes, WriteAppends};
ghost use Rattle.chip_session.specs.Tally.{failures_after_flush, failures_after_read, failures_after_write, write_failed};

use std::io::{Read, Result, Write};
use std::marker::Model;

/// A reader or a writer, and the number of its failed calls.
#[derive(Drop)]
pub struct Counted<T> {
    inner: T,
    failures: u64,
}

impl<T> Model for Counted<T> {
    ghost use Rattle.chip_session.specs.Tally.{Tally};

    ghost Value = { Tally T };

    ghost view = { λ c. record { inner = c.inner; failures = c.failures } };
}

impl<T> Counted<T> {
    /// Wraps a reader or writer, with a failure count of 0.
    pub fn new(inner: T) -> Self
        ensures inner { result.inner ≡ inner }
        ensures failures { result.failures ≡ 0 }
    {
        Counted { inner, failures: 0 }
    }

    /// The reader or writer inside.
    pub fn get(&self) -> &T
        ensures { result.now ≡ self.now.inner }
    {
        &self.inner
    }

    /// The number of failed calls. The count stops at the greatest `u64`.
    pub fn failures(&self) -> u64
        ensures { result ≡ self.now.failures }
    {
        self.failures
    }
}

impl<R: Read> Read for Counted<R> {
    ghost remaining = { λ c. R.remaining c.inner };

    /// Reads once from the inner reader. An error of any kind counts as a failure.
    fn read(&mut self, buf: &mut [u8]) -> Result<usize>
        ensures bound { ReadsAtMost result buf.new }
        ensures bytes { ReadConsumes (R.remaining self.old.inner)
            (R.remaining self.new.inner) result buf.new }
        ensures failures { self.new.failures ≡ failures_after_read self.old.failures result }
    {
        let result = self.inner.read(buf);
        if result.is_err() {
            self.failures = self.failures.saturating_add(1);
        }
        result
    }
}

impl<W: Write> Write for Counted<W> {
    ghost contents = { λ c. W.contents c.inner };

    /// Writes once to the inner writer. An error of any kind counts as a failure. A write that
    /// accepts none of one or more bytes also counts as one.
    fn write(&mut self, buf: &[u8]) -> Result<usize>
        ensures bound { WritesAtMost result buf.now }
        ensures bytes { WriteAppends (W.contents self.old.inner)
            (W.contents self.new.inner) result buf.now }
        ensures failures { self.new.failures
            ≡ failures_after_write self.old.failures result buf.now }
    {
        let result = self.inner.write(buf);
        if has_failed(&result, buf) {
            self.failures = self.failures.saturating_add(1);
        }
        result
    }

    /// Flushes the inner writer once. An error of any kind counts as a failure.
    fn flush(&mut self) -> Result<()>
        ensures bytes { Keeps (W.contents self.old.inner) (W.contents self.new.inner) }
        ensures failures { self.new.failures
            ≡ failures_after_flush (is_ok result) self.old.failures }
    {
        let result = self.inner.flush();
        if result.is_err() {
            self.failures = self.failures.saturating_add(1);
        }
        result
    }
}

fn has_failed(written: &Result<usize>, buf: &[u8]) -> bool
    ensures { result ≡ write_failed written.now buf.now }
{
    match written {
        Ok(count) => *count == 0 && !buf.is_empty(),
        Err(_) => true,
    }
}
