//! Readers and writers that end, fail or transfer few bytes at a time, and that count their own failures.

use anyhow::{Error, bail};
use chip_bench::{Counted, ServeError, Settings, serve};
use std::alloc::Global;
use std::io;
use std::io::{ErrorKind, Read, Write};

/// The behaviour of a reader and a writer. The command `streams` sets the parts of a plan in the
/// form `NAME=NUMBER`.
#[derive(Clone, Copy)]
pub(crate) struct Plan {
    /// `front`: the number of bytes of the script that the reader returns.
    front: usize,
    /// `read`: the maximum number of bytes that a read returns.
    read: usize,
    /// `reader-fails`: whether the reader fails when it would otherwise return no bytes and so end.
    reader_fails: bool,
    /// `written`: the maximum number of bytes that a write takes.
    written: usize,
    /// `room`: the number of bytes that the writer takes in total.
    room: usize,
    /// `writer-fails`: whether the writer fails when it would otherwise take no bytes.
    writer_fails: bool,
    /// `flush-fails`: whether a flush fails.
    flush_fails: bool,
    /// Why a read or a write fails: `Other` with `other-error`, and `Interrupted` without it.
    reason: ErrorKind,
}

impl Plan {
    /// The plan of a reader and a writer that return and take all bytes.
    pub(crate) const PLAIN: Plan = Plan {
        front: usize::MAX,
        read: usize::MAX,
        reader_fails: false,
        written: usize::MAX,
        room: usize::MAX,
        writer_fails: false,
        flush_fails: false,
        reason: ErrorKind::Interrupted,
    };

    /// Returns the plain plan, changed by the parts `NAME=NUMBER`; `NAME` alone means `NAME=1`. Fails if
    /// a part has an unknown name or a bad number.
    pub(crate) fn read(parts: &str) -> Result<Plan, Error> {
        let mut plan = Plan::PLAIN;
        for part in parts.split_whitespace() {
            let (name, value) = part.split_once("=").unwrap_or((part, "1"));
            plan.set(name, value.parse::<usize>()?)?;
        }
        Ok(plan)
    }

    /// Changes a part of the plan; `size` changes both `read` and `written`.
    fn set(&mut self, name: &str, value: usize) -> Result<(), Error> {
        match name {
            "front" => self.front = value,
            "read" => self.read = value,
            "written" => self.written = value,
            "size" => (self.read, self.written) = (value, value),
            "room" => self.room = value,
            "reader-fails" => self.reader_fails = value != 0,
            "writer-fails" => self.writer_fails = value != 0,
            "flush-fails" => self.flush_fails = value != 0,
            "other-error" => self.reason = ErrorKind::Other,
            _ => bail!("no such part: {name}"),
        }
        Ok(())
    }
}

/// A reader that follows a plan, and the bytes that it hasn't returned yet.
#[derive(Drop)]
pub(crate) struct Feed<'a> {
    left: &'a [u8],
    plan: Plan,
    pub(crate) calls: u64,
    failures: u64,
}

impl<'a> Feed<'a> {
    pub(crate) fn new(script: &'a [u8], plan: &Plan) -> Feed<'a> {
        Feed {
            left: &script[..script.len().min(plan.front)],
            plan: *plan,
            calls: 0,
            failures: 0,
        }
    }
}

impl Read for Feed<'_> {
    fn read(&mut self, buf: &mut [u8]) -> io::Result<usize> {
        self.calls = self.calls.saturating_add(1);
        let count = self.left.len().min(buf.len()).min(self.plan.read);
        if count == 0 && self.plan.reader_fails {
            self.failures = self.failures.saturating_add(1);
            return Err(io::Error::from(self.plan.reason));
        }
        let (given, left) = self.left.split_at(count);
        buf[..count].copy_from_slice(given);
        self.left = left;
        Ok(count)
    }
}

/// A writer that follows a plan, and the bytes that it took.
#[derive(Drop)]
pub(crate) struct Sink {
    pub(crate) taken: Vec<u8>,
    plan: Plan,
    pub(crate) calls: u64,
    pub(crate) flushes: u64,
    failures: u64,
}

impl Sink {
    pub(crate) fn new(alloc: Global, plan: &Plan) -> Sink {
        Sink {
            taken: Vec::new(alloc),
            plan: *plan,
            calls: 0,
            flushes: 0,
            failures: 0,
        }
    }
}

impl Write for Sink {
    fn write(&mut self, buf: &[u8]) -> io::Result<usize> {
        self.calls = self.calls.saturating_add(1);
        let room = self.plan.room.saturating_sub(self.taken.len());
        let count = buf.len().min(room).min(self.plan.written);
        if count == 0 && !buf.is_empty() {
            self.failures = self.failures.saturating_add(1);
            if self.plan.writer_fails {
                return Err(io::Error::from(self.plan.reason));
            }
        }
        self.taken.extend_from_slice(&buf[..count])?;
        Ok(count)
    }

    fn flush(&mut self) -> io::Result<()> {
        self.flushes = self.flushes.saturating_add(1);
        if self.plan.flush_fails {
            return Err(io::Error::from(ErrorKind::Other));
        }
        Ok(())
    }
}

/// Serves a session on a source, at the rate 10 and with a tape of one zero byte, and returns how it ended.
fn serve_by(
    alloc: Global,
    source: &[u8],
    reader: &mut Counted<Feed<'_>>,
    writer: &mut Counted<Sink>,
) -> Result<Result<(), ServeError>, Error> {
    let settings = Settings::new(alloc, 10, &[0])?;
    Ok(serve(alloc, source, settings, reader, writer))
}

/// Serves a session. Returns how the session ended, the numbers of counted and of actual failures of
/// the reader and of the writer, and the text that was written.
pub(crate) fn talk(
    alloc: Global,
    source: &[u8],
    script: &[u8],
    plan: &Plan,
) -> Result<String, Error> {
    let mut reader = Counted::new(Feed::new(script, plan));
    let mut writer = Counted::new(Sink::new(alloc, plan));
    let ended = serve_by(alloc, source, &mut reader, &mut writer)?;
    let (reads, unread) = (reader.failures(), reader.get().failures);
    let (writes, unwritten) = (writer.failures(), writer.get().failures);
    let text = String::from_utf8_lossy(alloc, &writer.get().taken)?;
    Ok(format!(in alloc;
        "{ended:?}, {reads} of {unread} reads and {writes} of {unwritten} writes failed: {text:?}"
    )?)
}

/// Serves a session for each number from FIRST to LAST of a part of the plan; `words` is
/// `NAME FIRST LAST`. Returns one line for each range of successive numbers whose sessions end alike.
pub(crate) fn each(
    alloc: Global,
    source: &[u8],
    script: &[u8],
    plan: &Plan,
    words: &str,
) -> Result<String, Error> {
    let (name, range) = words.split_once(" ").unwrap_or((words, ""));
    let (first, last) = range.split_once(" ").unwrap_or((range, range));
    let (mut first, last) = (first.parse::<usize>()?, last.parse::<usize>()?);
    let mut plan = *plan;
    let mut lines = String::new(alloc);
    let mut before = String::new(alloc);
    for number in first..=last {
        plan.set(name, number)?;
        let told = talk(alloc, source, script, &plan)?;
        if told != before && !before.is_empty() {
            lines.push_str(&format!(in alloc; "{first}: {before}\n")?)?;
            first = number;
        }
        before = told;
    }
    lines.push_str(&format!(in alloc; "{first} to {last}: {before}")?)?;
    Ok(lines)
}
