//! Carries out a script while it is being read.
ghost use Rattle.std.specs.Prelude.{◌≡◌, ◌≢◌, ℕ, List, take, ◌+◌, ◌≤◌, ◌<◌, Ok, Err, Some, None, [], ◌++◌, length, OnOk, OnErr, IfOk, IfErr};
ghost use Rattle.std.specs.Str.Lines.{strip_carriage_return};
ghost use Rattle.chip_asm.specs.Lines.{open_fault};
ghost use Rattle.chip_session.specs.Session.{Session, session_of};
ghost use Rattle.chip_session.specs.Transcript.{reply, after, refusal, refused, refused_code, IsBeforeOrAfter};
ghost use Rattle.chip_session.specs.Writing.{Breaks, Writes};
ghost use Rattle.chip_session.specs.Serving.{Served, Exchanges, Opens, UnlessOpened, reader_failures, writer_failures};
ghost use Rattle.chip_session.specs.inner.Progress.{fault_of, failures_after, Says, Reached, Carries, Ended};
ghost use Rattle.chip_session.specs.declared.server.Stop.TheVariants.{OutOfMemory};

use crate::bench::Bench;
use crate::command::{Command, read_command};
use crate::counted::Counted;
use crate::limits::{COMMAND_BYTES, SCRIPT_BYTES, SCRIPT_LINES};
use crate::observer::{Nobody, Observer};
use crate::refusal::{Refusal, Refused};
use crate::settings::Settings;
use chip_asm::OpenError;
use memchr::memchr;
use std::alloc::{AllocError, Global};
use std::io::{Read, Write};
use thiserror::Error;

const PIECE_LEN: usize = 16384;

// The number of bytes of a line that are kept: the maximum length of a line, one byte for a
// carriage return, and one byte that shows that the line is too long.
const KEPT_LEN: usize = COMMAND_BYTES + 2;

/// The reason why a script wasn't carried out to the end.
#[derive(Clone, Copy, Debug, PartialEq, Eq, Error)]
pub enum ServeError {
    /// The source doesn't open.
    #[error("{0}")]
    Source(OpenError),
    /// E1: a read failed.
    #[error("input fault")]
    ReaderFailed,
    /// E2: a write failed, or accepted none of one or more bytes.
    #[error("output fault")]
    WriterFailed,
    /// E3: memory ran out.
    #[error("out of memory")]
    OutOfMemory,
    /// E4: the script has more than `SCRIPT_BYTES` bytes or `SCRIPT_LINES` lines.
    #[error("too much input")]
    TooMuchInput,
}

/// The error returned when a write fails, or accepts none of one or more bytes.
#[derive(Clone, Copy)]
pub struct WriteFailed;

// The reason why the rest of a script is abandoned.
#[derive(Clone, Copy)]
pub(crate) enum Stop {
    WriterFailed,
    OutOfMemory,
    TooMuchInput,
}

impl From<AllocError> for Stop {
    ghost from_gives = { λ _ e. e ≡ OutOfMemory };

    fn from(_e: AllocError) -> Stop {
        Stop::OutOfMemory
    }
}

impl From<Stop> for ServeError {
    ghost from_gives = { λ stop e. e ≡ fault_of stop };

    fn from(stop: Stop) -> ServeError {
        match stop {
            Stop::WriterFailed => ServeError::WriterFailed,
            Stop::OutOfMemory => ServeError::OutOfMemory,
            Stop::TooMuchInput => ServeError::TooMuchInput,
        }
    }
}

/// Opens the source, and then carries out the script from the reader. The answer to each line is
/// written before the next line is carried out.
///
/// # Errors
///
/// The source doesn't open, and nothing was read or written. The reader or the writer failed, and
/// the call wasn't retried. Memory ran out. The script has more than `SCRIPT_BYTES` bytes or
/// `SCRIPT_LINES` lines.
pub fn serve<R: Read, W: Write>(
    alloc: Global,
    source: &[u8],
    settings: Settings,
    reader: &mut Counted<R>,
    writer: &mut Counted<W>,
) -> Result<(), ServeError>
    // If the result is `Ok`, the whole transcript was written. Otherwise `Served` states which part
    // was written.
    ensures transcript { Exchanges (R.remaining reader.old.inner) (R.remaining reader.new.inner)
        (W.contents writer.old.inner) (W.contents writer.new.inner)
        (Served result (session_of settings source.now)) }
    ensures source { Opens (open_fault source.now) result }
    // If the source doesn't open, neither the reader nor the writer was used.
    ensures untouched { UnlessOpened result ((reader.new ≡ reader.old)
        × (writer.new ≡ writer.old)) }
    ensures reader_failed { reader.new.failures ≡ reader_failures result reader.old.failures }
    ensures writer_failed { writer.new.failures ≡ writer_failures result writer.old.failures }
{
    serve_observed(alloc, source, settings, reader, writer, &mut Nobody)
}

/// Does the same as `serve`, and notifies the observer of the session's progress. The observer
/// never affects the bytes that are read or written, or the result.
///
/// # Errors
///
/// The same errors as for `serve`.
pub fn serve_observed<R: Read, W: Write, O: Observer>(
    alloc: Global,
    source: &[u8],
    settings: Settings,
    reader: &mut Counted<R>,
    writer: &mut Counted<W>,
    observer: &mut O,
) -> Result<(), ServeError>
    ensures transcript { Exchanges (R.remaining reader.old.inner) (R.remaining reader.new.inner)
        (W.contents writer.old.inner) (W.contents writer.new.inner)
        (Served result (session_of settings source.now)) }
    ensures source { Opens (open_fault source.now) result }
    ensures untouched { UnlessOpened result ((reader.new ≡ reader.old)
        × (writer.new ≡ writer.old)) }
    ensures reader_failed { reader.new.failures ≡ reader_failures result reader.old.failures }
    ensures writer_failed { writer.new.failures ≡ writer_failures result writer.old.failures }
{
    match Bench::open(alloc, source, settings) {
        Ok(bench) => {
            observer.opened(&bench);
            let mut conversation = Conversation::new(alloc, bench);
            converse(alloc, &mut conversation, reader, writer, observer)
        }
        Err(e) => Err(ServeError::Source(e)),
    }
}

// Carries out the script from the reader.
fn converse<R: Read, W: Write, O: Observer>(
    alloc: Global,
    conversation: &mut Conversation,
    reader: &mut Counted<R>,
    writer: &mut Counted<W>,
    observer: &mut O,
) -> Result<(), ServeError>
    requires line { conversation.old.line.items ≡ [] }
    requires complete { conversation.old.complete ≡ 0 }
    requires taken { conversation.old.taken ≡ 0 }
    ensures transcript { Exchanges (R.remaining reader.old.inner) (R.remaining reader.new.inner)
        (W.contents writer.old.inner) (W.contents writer.new.inner)
        (Served result conversation.old.bench.session) }
    ensures source { Opens None result }
    ensures opened { UnlessOpened result ((reader.new ≡ reader.old) × (writer.new ≡ writer.old)) }
    ensures reader_failed { reader.new.failures ≡ reader_failures result reader.old.failures }
    ensures writer_failed { writer.new.failures ≡ writer_failures result writer.old.failures }
{
    let mut piece = [0; PIECE_LEN];
    'pieces: loop {
        conversation.tell_wait(observer);
        match reader.read(&mut piece) {
            Err(_) => return Err(ServeError::ReaderFailed),
            Ok(0) => {
                conversation.end(alloc, writer, observer)?;
                observer.ended();
                return Ok(());
            }
            Ok(count) => conversation.take_piece(alloc, &piece[..count], writer, observer)?,
        }
    }
}

// A session, and the first bytes of the line of the script that isn't complete yet.
#[derive(Drop)]
struct Conversation {
    bench: Bench,
    // at most the first `KEPT_LEN` bytes of that line
    line: Vec<u8>,
    answer: Vec<u8>,
    complete: u32,
    taken: u32,
}

impl Conversation {
    fn new(alloc: Global, bench: Bench) -> Self
        ensures bench { result.bench ≡ bench }
        ensures line { result.line.items ≡ [] }
        ensures complete { result.complete ≡ 0 }
        ensures taken { result.taken ≡ 0 }
    {
        Conversation {
            bench,
            line: Vec::new(alloc),
            answer: Vec::new(alloc),
            complete: 0,
            taken: 0,
        }
    }

    // Reports that the session waits for the next line, if no byte of that line has been read.
    fn tell_wait<O: Observer>(&self, observer: &mut O) {
        if self.line.is_empty() {
            observer.awaits();
        }
    }

    // Takes the next bytes until `SCRIPT_BYTES` is reached; fails if more bytes follow.
    fn take_piece<W: Write, O: Observer>(
        &mut self,
        alloc: Global,
        piece: &[u8],
        writer: &mut Counted<W>,
        observer: &mut O,
    ) -> Result<(), Stop>
        requires { self.old.taken ≤ SCRIPT_BYTES }
        ensures carries { Carries self.old (W.contents writer.old.inner) piece.now result
            self.new (W.contents writer.new.inner) }
        ensures bound { OnOk result (self.new.taken ≤ SCRIPT_BYTES) }
        ensures taken { OnOk result (self.new.taken ≡ self.old.taken + length piece.now) }
        ensures failures { writer.new.failures ≡ failures_after result writer.old.failures }
    {
        let room = (SCRIPT_BYTES - self.taken) as usize;
        if piece.len() <= room {
            return self.take_lines(alloc, piece, writer, observer);
        }
        self.take_lines(alloc, &piece[..room], writer, observer)?;
        Err(Stop::TooMuchInput)
    }

    // Takes bytes that don't exceed `SCRIPT_BYTES`.
    fn take_lines<W: Write, O: Observer>(
        &mut self,
        alloc: Global,
        piece: &[u8],
        writer: &mut Counted<W>,
        observer: &mut O,
    ) -> Result<(), Stop>
        requires { self.old.taken + length piece.now ≤ SCRIPT_BYTES }
        ensures carries { Carries self.old (W.contents writer.old.inner) piece.now result
            self.new (W.contents writer.new.inner) }
        ensures taken { OnOk result (self.new.taken ≡ self.old.taken + length piece.now) }
        ensures failures { writer.new.failures ≡ failures_after result writer.old.failures }
    {
        let mut taken = 0;
        while taken < piece.len() {
            taken += self.take_line(alloc, &piece[taken..], writer, observer)?;
        }
        Ok(())
    }

    // Takes the bytes up to and including the first newline, or all bytes if there is no newline.
    // Returns how many bytes it took.
    fn take_line<W: Write, O: Observer>(
        &mut self,
        alloc: Global,
        bytes: &[u8],
        writer: &mut Counted<W>,
        observer: &mut O,
    ) -> Result<usize, Stop>
        requires some { 0 < length bytes.now }
        requires room { self.old.taken + length bytes.now ≤ SCRIPT_BYTES }
        ensures ok { IfOk result (λ count. Carries self.old (W.contents writer.old.inner)
            (take count bytes.now) (Ok tt) self.new (W.contents writer.new.inner)) }
        ensures count { IfOk result (λ count. (0 < count) × (count ≤ length bytes.now)) }
        ensures taken { IfOk result (λ count. self.new.taken ≡ self.old.taken + count) }
        ensures err { IfErr result (λ e. Carries self.old (W.contents writer.old.inner)
            bytes.now (Err e) self.new (W.contents writer.new.inner)) }
        ensures sound { OnOk result (writer.new.failures ≡ writer.old.failures) }
        ensures failed { IfErr result (λ e. writer.new.failures
            ≡ failures_after (Err e) writer.old.failures) }
    {
        if self.complete >= SCRIPT_LINES {
            return Err(Stop::TooMuchInput);
        }
        let Some(len) = memchr(b'\n', bytes) else {
            self.keep(bytes)?;
            return Ok(bytes.len());
        };
        self.complete_line(alloc, &bytes[..len], writer, observer)?;
        Ok(len + 1)
    }

    // Keeps the next bytes of a line, up to `KEPT_LEN` bytes in all.
    fn keep(&mut self, part: &[u8]) -> Result<(), AllocError>
        requires { self.old.taken + length part.now ≤ SCRIPT_BYTES }
        ensures line { OnOk result (length self.old.line.items ≤ KEPT_LEN
            → self.new.line.items ≡ take KEPT_LEN (self.old.line.items ++ part.now)) }
        ensures bench { self.new.bench ≡ self.old.bench }
        ensures complete { self.new.complete ≡ self.old.complete }
        ensures taken { OnOk result (self.new.taken ≡ self.old.taken + length part.now) }
    {
        let room = KEPT_LEN.saturating_sub(self.line.len());
        self.line.extend_from_slice(&part[..room.min(part.len())])?;
        self.taken += part.len() as u32;
        Ok(())
    }

    // Answers the line that a newline has just ended; `part` contains the line's last bytes. A line
    // that lies in one piece isn't copied.
    fn complete_line<W: Write, O: Observer>(
        &mut self,
        alloc: Global,
        part: &[u8],
        writer: &mut Counted<W>,
        observer: &mut O,
    ) -> Result<(), Stop>
        requires complete { self.old.complete < SCRIPT_LINES }
        requires taken { self.old.taken + length part.now < SCRIPT_BYTES }
        ensures said { length self.old.line.items ≤ KEPT_LEN
            → Says result (W.contents writer.old.inner) (W.contents writer.new.inner)
            (reply self.old.bench.session
            (strip_carriage_return (take KEPT_LEN (self.old.line.items ++ part.now)))) }
        ensures bench { length self.old.line.items ≤ KEPT_LEN → OnOk result (self.new.bench.session
            ≡ after self.old.bench.session
            (strip_carriage_return (take KEPT_LEN (self.old.line.items ++ part.now)))) }
        ensures line { OnOk result (self.new.line.items ≡ []) }
        ensures complete { OnOk result (self.new.complete ≡ self.old.complete + 1) }
        ensures taken { OnOk result (self.new.taken ≡ self.old.taken + length part.now + 1) }
        ensures failures { writer.new.failures ≡ failures_after result writer.old.failures }
    {
        if self.line.is_empty() {
            return self.answer_whole(alloc, part, writer, observer);
        }
        self.keep(part)?;
        self.answer_kept(alloc, writer, observer)
    }

    // Answers a line that lies in one piece, when no earlier bytes of it are kept.
    fn answer_whole<W: Write, O: Observer>(
        &mut self,
        alloc: Global,
        whole: &[u8],
        writer: &mut Counted<W>,
        observer: &mut O,
    ) -> Result<(), Stop>
        requires complete { self.old.complete < SCRIPT_LINES }
        requires taken { self.old.taken + length whole.now < SCRIPT_BYTES }
        requires line { self.old.line.items ≡ [] }
        ensures said { Says result (W.contents writer.old.inner) (W.contents writer.new.inner)
            (reply self.old.bench.session (strip_carriage_return (take KEPT_LEN whole.now))) }
        ensures bench { OnOk result (self.new.bench.session
            ≡ after self.old.bench.session (strip_carriage_return (take KEPT_LEN whole.now))) }
        ensures line { self.new.line.items ≡ [] }
        ensures complete { OnOk result (self.new.complete ≡ self.old.complete + 1) }
        ensures taken { OnOk result (self.new.taken ≡ self.old.taken + length whole.now + 1) }
        ensures failures { writer.new.failures ≡ failures_after result writer.old.failures }
    {
        let line = without_carriage_return(kept_part(whole));
        say(
            alloc,
            &mut self.bench,
            line,
            &mut self.answer,
            writer,
            observer,
        )?;
        self.complete += 1;
        self.taken += whole.len() as u32 + 1;
        Ok(())
    }

    // Answers the line whose bytes are all kept, and then clears the kept bytes.
    fn answer_kept<W: Write, O: Observer>(
        &mut self,
        alloc: Global,
        writer: &mut Counted<W>,
        observer: &mut O,
    ) -> Result<(), Stop>
        requires complete { self.old.complete < SCRIPT_LINES }
        requires taken { self.old.taken < SCRIPT_BYTES }
        ensures said { Says result (W.contents writer.old.inner) (W.contents writer.new.inner)
            (reply self.old.bench.session (strip_carriage_return self.old.line.items)) }
        ensures bench { OnOk result (self.new.bench.session
            ≡ after self.old.bench.session (strip_carriage_return self.old.line.items)) }
        ensures line { OnOk result (self.new.line.items ≡ []) }
        ensures complete { OnOk result (self.new.complete ≡ self.old.complete + 1) }
        ensures taken { OnOk result (self.new.taken ≡ self.old.taken + 1) }
        ensures failures { writer.new.failures ≡ failures_after result writer.old.failures }
    {
        let line = without_carriage_return(&self.line);
        say(
            alloc,
            &mut self.bench,
            line,
            &mut self.answer,
            writer,
            observer,
        )?;
        self.line.clear();
        self.complete += 1;
        self.taken += 1;
        Ok(())
    }

    fn end<W: Write, O: Observer>(
        &mut self,
        alloc: Global,
        writer: &mut Counted<W>,
        observer: &mut O,
    ) -> Result<(), Stop>
        ensures ended { (start : Session) (before given : List ℕ)
            → Reached start before given self.old (W.contents writer.old.inner)
            → Ended result start before given (W.contents writer.new.inner) }
        ensures failures { writer.new.failures ≡ failures_after result writer.old.failures }
    {
        if self.line.is_empty() {
            return Ok(());
        }
        say(
            alloc,
            &mut self.bench,
            &self.line,
            &mut self.answer,
            writer,
            observer,
        )
    }
}

// Carries out one line of a script, writes its answer, and reports a refusal to the observer.
fn say<W: Write, O: Observer>(
    alloc: Global,
    bench: &mut Bench,
    line: &[u8],
    answer: &mut Vec<u8>,
    writer: &mut Counted<W>,
    observer: &mut O,
) -> Result<(), Stop>
    ensures said { Says result (W.contents writer.old.inner) (W.contents writer.new.inner)
        (reply bench.old.session line.now) }
    ensures bench { OnOk result (bench.new.session ≡ after bench.old.session line.now) }
    ensures failures { writer.new.failures ≡ failures_after result writer.old.failures }
{
    let refused = respond(alloc, bench, line, answer)?;
    write_whole(writer, answer)?;
    if let Some(why) = refused {
        observer.refused(bench, line, why);
    }
    Ok(())
}

// Writes all the bytes. Stops at an error of any kind, or at a write that accepts no bytes.
fn write_whole<W: Write>(writer: &mut Counted<W>, bytes: &[u8]) -> Result<(), Stop>
    ensures said { Says result (W.contents writer.old.inner)
        (W.contents writer.new.inner) bytes.now }
    ensures memory { result ≢ Err Stop.OutOfMemory }
    ensures failures { writer.new.failures ≡ failures_after result writer.old.failures }
{
    let mut rest = bytes;
    while !rest.is_empty() {
        match writer.write(rest) {
            Ok(0) | Err(_) => return Err(Stop::WriterFailed),
            Ok(count) => rest = &rest[count..],
        }
    }
    Ok(())
}

/// Writes all the bytes. Stops at an error of any kind, or at a write that accepts no bytes.
///
/// # Errors
///
/// A write failed; a prefix of the bytes, possibly empty, was written.
pub fn write_all<W: Write>(writer: &mut Counted<W>, bytes: &[u8]) -> Result<(), WriteFailed>
    ensures ok { OnOk result (Writes W.contents writer.old writer.new bytes.now) }
    ensures err { OnErr result (Breaks W.contents writer.old writer.new bytes.now) }
{
    match write_whole(writer, bytes) {
        Ok(()) => Ok(()),
        Err(_) => Err(WriteFailed),
    }
}

/// Replaces the contents of `answer` by the answer to one line of a script. Returns the reason if
/// the line is refused, and `None` otherwise.
///
/// # Errors
///
/// Out of memory. The session is then either as before the line or as after it.
pub fn respond(
    alloc: Global,
    bench: &mut Bench,
    line: &[u8],
    answer: &mut Vec<u8>,
) -> Result<Option<Refused>, AllocError>
    ensures answer { OnOk result (answer.new.items ≡ reply bench.old.session line.now) }
    ensures bench { OnOk result (bench.new.session ≡ after bench.old.session line.now) }
    ensures memory { OnErr result (IsBeforeOrAfter bench.old.session line.now
        bench.new.session) }
    ensures refused { IfOk result (λ why. why ≡ refusal bench.old.session line.now) }
{
    answer.clear();
    let command = match read_command(line) {
        Ok(command) => command,
        Err(fault) => return refuse_for(answer, Refused::Line(fault)),
    };
    let refusal = match command {
        Command::Blank => return Ok(None),
        Command::Edit(edit) => match bench.apply(alloc, &edit) {
            Ok(()) => {
                answer.extend_from_slice(b"ok\n")?;
                return Ok(None);
            }
            Err(refusal) => refusal,
        },
        Command::Ask(question) => match bench.ask(alloc, &question, answer) {
            Ok(()) => return Ok(None),
            Err(refusal) => refusal,
        },
    };
    if refusal.is_for_memory() {
        return Err(AllocError);
    }
    refuse_for(answer, Refused::Command(refusal))
}

// Appends the answer to a refused line, and returns the reason of the refusal.
fn refuse_for(answer: &mut Vec<u8>, why: Refused) -> Result<Option<Refused>, AllocError>
    ensures answer { OnOk result (answer.new.items ≡ answer.old.items ++ refused (refused_code why)) }
    ensures why { IfOk result (λ given. given ≡ Some why) }
{
    refuse(answer, why.code())?;
    Ok(Some(why))
}

/// Appends the answer to a script's line that is refused with this code.
///
/// # Errors
///
/// Out of memory.
pub fn refuse(answer: &mut Vec<u8>, code: &[u8]) -> Result<(), AllocError>
    ensures { OnOk result (answer.new.items ≡ answer.old.items ++ refused code.now) }
{
    answer.extend_from_slice(b"no ")?;
    answer.extend_from_slice(code)?;
    answer.extend_from_slice(b"\n")
}

// The first `KEPT_LEN` bytes of a line, or the whole line if it is shorter.
fn kept_part(line: &[u8]) -> &[u8]
    ensures { result.now ≡ take KEPT_LEN line.now }
{
    &line[..line.len().min(KEPT_LEN)]
}

fn without_carriage_return(line: &[u8]) -> &[u8]
    ensures { result.now ≡ strip_carriage_return line.now }
{
    match line {
        [front @ .., b'\r'] => front,
        _ => line,
    }
}
