//! A writer that buffers bytes, and discards them if a write or a flush fails.
ghost use Rattle.std.specs.Prelude.{◌≡◌, ◌<◌, ◌≤◌, ◌↔◌, [], length, IsTrue, IfOk, IfErr, OnOk, OnErr};
ghost use Rattle.std.specs.IoError.{error_kind};
ghost use Rattle.std.specs.Io.{WritesAtMost};
ghost use Rattle.std.specs.Io.KnownBytes.{Keeps, WriteAppends};

use chip_session::Counted;
use std::alloc::Global;
use std::io::{Error, ErrorKind, Result, Write};
use std::marker::Model;

// A writer that is never called again after its first failure. An interrupted write is a failure,
// and so is a write that accepts none of one or more bytes.
#[derive(Drop)]
struct UntilFailure<W> {
    inner: Counted<W>,
}

impl<W> Model for UntilFailure<W> {
    ghost use Rattle.std.specs.Prelude.{◌≤◌};
    ghost use Rattle.chip_session.specs.Tally.{Tally};

    ghost Value = { Tally W };

    ghost view = { λ writer. writer.inner };

    ghost invariant = { λ writer. writer.inner.failures ≤ 1 };
}

impl<W> UntilFailure<W> {
    fn has_failed(&self) -> bool
        ensures failed { IsTrue result ↔ (self.now.failures ≡ 1) }
        ensures once { self.now.failures ≤ 1 }
    {
        self.inner.failures() > 0
    }
}

impl<W: Write> UntilFailure<W> {
    // Writes once to the inner writer, unless one of its calls has failed.
    fn write(&mut self, buf: &[u8]) -> Result<usize>
        ensures bound { WritesAtMost result buf.now }
        ensures bytes { WriteAppends (W.contents self.old.inner) (W.contents self.new.inner)
            result buf.now }
        ensures some { IfOk result (λ count. 0 < length buf.now → 0 < count) }
        ensures ok { OnOk result ((self.old.failures ≡ 0) × (self.new.failures ≡ 0)) }
        ensures err { OnErr result (self.new.failures ≡ 1) }
        ensures given_up { self.old.failures ≡ 1 → self.new ≡ self.old }
    {
        if self.has_failed() {
            return Err(given_up());
        }
        match self.inner.write(buf) {
            Ok(0) if !buf.is_empty() => Err(Error::from(ErrorKind::WriteZero)),
            written => written,
        }
    }

    // Flushes the inner writer once, unless one of its calls has failed.
    fn flush(&mut self) -> Result<()>
        ensures bytes { Keeps (W.contents self.old.inner) (W.contents self.new.inner) }
        ensures ok { OnOk result ((self.old.failures ≡ 0) × (self.new.failures ≡ 0)) }
        ensures err { OnErr result (self.new.failures ≡ 1) }
        ensures given_up { self.old.failures ≡ 1 → self.new ≡ self.old }
    {
        if self.has_failed() {
            return Err(given_up());
        }
        self.inner.flush()
    }
}

// Returns the error for each call after a failure.
fn given_up() -> Error {
    Error::new(ErrorKind::BrokenPipe, "an earlier write failed")
}

/// A writer that buffers bytes up to a limit, and writes them together.
///
/// Once a write or a flush of the inner writer fails or is interrupted, the inner writer isn't called
/// again. The buffered bytes are discarded, and each later write and flush fails. The bytes that reached
/// the inner writer are a prefix of the bytes that this writer accepted; after a successful flush, they
/// are all of them. Bytes that are still buffered when this value is dropped are never written.
#[derive(Drop)]
pub struct HeldWriter<W> {
    inner: UntilFailure<W>,
    held: Vec<u8>,
    most: usize,
}

impl<W> Model for HeldWriter<W> {
    ghost use Rattle.std.specs.Prelude.{◌≤◌, length, vec_capacity};
    ghost use Rattle.chip_bench.specs.Holding.{Holding};

    ghost Value = { Holding W };

    ghost view = { λ writer. record {
      inner = writer.inner.inner;
      failures = writer.inner.failures;
      held = writer.held.items;
      most = writer.most;
    } };

    // The buffer has the capacity for all bytes that may be held, so it never grows.
    ghost invariant = { λ writer. (length writer.held.items ≤ writer.most)
        × (writer.most ≤ vec_capacity writer.held) };
}

impl<W> HeldWriter<W> {
    /// Returns a writer that buffers at most `most` bytes. With 0, it buffers none.
    ///
    /// # Errors
    ///
    /// Out of memory.
    pub fn with_capacity(alloc: Global, most: usize, inner: W) -> Result<Self>
    where
        W: Drop,
        ensures inner { IfOk result (λ writer. writer.inner ≡ inner) }
        ensures failures { IfOk result (λ writer. writer.failures ≡ 0) }
        ensures held { IfOk result (λ writer. writer.held ≡ []) }
        ensures most { IfOk result (λ writer. writer.most ≡ most) }
        ensures err { IfErr result (λ error. error_kind error ≡ ErrorKind.OutOfMemory) }
    {
        let held = Vec::with_capacity(alloc, most)?;
        Ok(HeldWriter {
            inner: UntilFailure {
                inner: Counted::new(inner),
            },
            held,
            most,
        })
    }
}

impl<W: Write> HeldWriter<W> {
    ghost use Rattle.chip_bench.specs.Holding.{taken_bytes};

    // Writes all buffered bytes, unless a write fails.
    fn write_held(&mut self) -> Result<()>
        ensures bytes { Keeps (taken_bytes W.contents self.old)
            (taken_bytes W.contents self.new) }
        ensures ok { OnOk result (self.new.held ≡ []) }
        ensures failures { OnOk result (self.new.failures ≡ self.old.failures) }
        ensures err { OnErr result (self.new.failures ≡ 1) }
        ensures given_up { self.old.failures ≡ 1 → self.new ≡ self.old }
        ensures most { self.new.most ≡ self.old.most }
        ensures bounded { length self.new.held ≤ self.new.most }
    {
        while !self.held.is_empty() {
            let count = self.inner.write(&self.held)?;
            self.held.drain(..count);
        }
        Ok(())
    }
}

impl<W: Write> Write for HeldWriter<W> {
    ghost use Rattle.chip_bench.specs.Holding.{taken_bytes};

    ghost contents = { λ writer. taken_bytes W.contents writer };

    /// Buffers all the bytes, after writing those already buffered if there isn't enough room. If
    /// there are more bytes than the buffer can hold, passes them directly to the inner writer.
    fn write(&mut self, buf: &[u8]) -> Result<usize>
        ensures bound { WritesAtMost result buf.now }
        ensures bytes { WriteAppends (taken_bytes W.contents self.old)
            (taken_bytes W.contents self.new) result buf.now }
        // If this call succeeds, no call of the inner writer has failed. Otherwise exactly one call has failed.
        ensures ok { OnOk result ((self.old.failures ≡ 0) × (self.new.failures ≡ 0)) }
        ensures err { OnErr result (self.new.failures ≡ 1) }
        // After a failure, the inner writer isn't called again.
        ensures given_up { self.old.failures ≡ 1 → self.new ≡ self.old }
        ensures most { self.new.most ≡ self.old.most }
        ensures bounded { length self.new.held ≤ self.new.most }
    {
        if self.inner.has_failed() {
            return Err(given_up());
        }
        if buf.len() > self.most - self.held.len() {
            self.write_held()?;
            if buf.len() > self.most {
                return self.inner.write(buf);
            }
        }
        // The buffer has room for these bytes.
        let Ok(()) = self.held.extend_from_slice(buf) else {
            unreachable!()
        };
        Ok(buf.len())
    }

    /// Writes all buffered bytes, and flushes the inner writer.
    fn flush(&mut self) -> Result<()>
        ensures bytes { Keeps (taken_bytes W.contents self.old) (taken_bytes W.contents self.new) }
        ensures all { OnOk result (self.new.held ≡ []) }
        ensures ok { OnOk result ((self.old.failures ≡ 0) × (self.new.failures ≡ 0)) }
        ensures err { OnErr result (self.new.failures ≡ 1) }
        ensures given_up { self.old.failures ≡ 1 → self.new ≡ self.old }
        ensures most { self.new.most ≡ self.old.most }
    {
        self.write_held()?;
        self.inner.flush()
    }
}
