//! Calls of chip_bench, as text: each line of the standard input is a command, and the program prints
//! the answer to the command.
//!
//! - `source TEXT`, `script TEXT`: appends a line to the source or to the script. `repeat N TEXT`
//!   appends the text N times to the source, or N line ends if the text is `\n`.
//! - `settings RATE LENGTH EVERY`: `ok` if settings with this rate, a tape of LENGTH bytes and this
//!   spacing are valid; otherwise the error.
//! - `tape SEED`: the tape of a seed in hexadecimal.
//! - `open EVERY`: opens a session on the source, with this spacing. `do COMMAND` executes a command in
//!   the session. `parsed N`, `encoded N`, `ran N` and `reach N`: `yes` if N lines were parsed, at most N
//!   lines were encoded, the last command executed at most N steps, or the kept run is valid up to step N
//!   or further; otherwise `no` and the count. `encoded LEAST MOST` and `ran LEAST MOST` also require a
//!   count of at least LEAST.
//! - `streams NAME=NUMBER..`: sets how the reader and the writer behave from then on (`Plan`). `serve`
//!   answers the script with the function `serve`, and `each NAME FIRST LAST` does the same with each
//!   number from FIRST to LAST for that part of the plan.
//! - `program WORD..`: the status of the program with these arguments, and the texts that it prints.
//! - `refuse REASON`: the status and the texts of the program if its arguments can't be read.
//! - `held MOST WORD..`: passes the words, one after another, to a writer that holds back up to MOST
//!   bytes; `.` is a flush. The answer contains a line for each call: the number of bytes that the writer
//!   took, `ok` for a flush, or `failed`. After the writer is dropped, the last line states how many
//!   writes and flushes the inner writer received, and the bytes that it took.
//! - `counted`: reads, writes and flushes once, and answers which calls succeeded, how many calls the
//!   reader and the writer received, and how many failures were counted.
//! - `surface`: makes each call that other programs are written against, for one small game, and answers the
//!   results.
#![tactic(auto)]

mod session;
mod streams;
mod surface;

use crate::session::Session;
use crate::streams::{Feed, Plan, Sink, each, talk};
use crate::surface::surface;
use anyhow::{Error, bail};
use chip_bench::{Counted, HeldWriter, Host, Settings, System, program, refuse_arguments, tape_of};
use std::alloc::Global;
use std::io;
use std::io::{BufRead, BufReader, Read, Write};

/// The state after the commands so far.
#[derive(Drop)]
struct Calls {
    source: Vec<u8>,
    script: Vec<u8>,
    plan: Plan,
    session: Session,
}

impl Calls {
    fn new(alloc: Global) -> Result<Calls, Error> {
        Ok(Calls {
            source: Vec::new(alloc),
            script: Vec::new(alloc),
            plan: Plan::PLAIN,
            session: Session::open(alloc, b"", 1000)?,
        })
    }

    /// Returns the answer to a command: lines, or an empty text.
    fn answer(&mut self, rt: &HostRuntime, word: &str, rest: &str) -> Result<String, Error> {
        let alloc = rt.alloc();
        match word {
            "settings" => settings(alloc, rest),
            "tape" => tape(alloc, rest),
            "do" => self.session.carry_out(alloc, rest),
            "parsed" | "encoded" | "ran" | "reach" => self.session.judge(alloc, word, rest),
            "serve" => talk(alloc, &self.source, &self.script, &self.plan),
            "each" => each(alloc, &self.source, &self.script, &self.plan, rest),
            "program" => run(rt, rest, &self.script, &self.plan),
            "refuse" => refuse(alloc, rest),
            "held" => held(alloc, &self.plan, rest),
            "counted" => counted(alloc, &self.plan),
            "surface" => surface(alloc),
            _ => {
                self.prepare(alloc, word, rest)?;
                Ok(String::new(alloc))
            }
        }
    }

    /// Executes a command that has no answer.
    fn prepare(&mut self, alloc: Global, word: &str, rest: &str) -> Result<(), Error> {
        match word {
            "source" => add_line(&mut self.source, rest)?,
            "script" => add_line(&mut self.script, rest)?,
            "repeat" => {
                let (count, text) = rest.split_once(" ").unwrap_or((rest, ""));
                let text = if text == "\\n" { "\n" } else { text };
                self.source
                    .extend_from_slice(text.repeat(alloc, count.parse::<usize>()?)?.as_bytes())?;
            }
            "open" => {
                self.session = Session::open(alloc, &self.source, rest.parse::<u32>()?)?;
            }
            "streams" => self.plan = Plan::read(rest)?,
            _ => bail!("no such command"),
        }
        Ok(())
    }
}

/// Appends a line to a text.
fn add_line(text: &mut Vec<u8>, line: &str) -> Result<(), Error> {
    text.extend_from_slice(line.as_bytes())?;
    text.push(b'\n')?;
    Ok(())
}

/// Returns `ok` if settings with this rate, tape length and spacing of checkpoints are valid, and
/// otherwise the error.
fn settings(alloc: Global, rest: &str) -> Result<String, Error> {
    let mut words = rest.split(" ");
    let rate = words.next().unwrap_or("").parse::<u32>()?;
    let tape = vec![in alloc; 0u8; words.next().unwrap_or("").parse::<usize>()?]?;
    let spacing = words.next().unwrap_or("").parse::<u32>()?;
    let made = match Settings::new(alloc, rate, &tape) {
        Ok(settings) => settings.with_spacing(spacing),
        Err(error) => Err(error),
    };
    match made {
        Ok(_) => Ok(String::from_str(alloc, "ok")?),
        Err(error) => Ok(format!(in alloc; "{error:?}")?),
    }
}

/// Returns the tape of a seed in hexadecimal.
fn tape(alloc: Global, seed: &str) -> Result<String, Error> {
    Ok(hex::encode(alloc, &tape_of(alloc, seed.parse::<u64>()?)?)?)
}

/// Returns one text that contains a status, the output and the text of the errors.
fn told(alloc: Global, status: u8, output: &[u8], errors: &[u8]) -> Result<String, Error> {
    let output = String::from_utf8_lossy(alloc, output)?;
    let errors = String::from_utf8_lossy(alloc, errors)?;
    Ok(format!(in alloc; "status {status}\n{output}{errors}")?)
}

/// Runs the program with these words as its arguments and the script on its standard input. Returns its
/// status, its output and the text of its errors.
fn run(rt: &HostRuntime, words: &str, script: &[u8], plan: &Plan) -> Result<String, Error> {
    let mut list = Vec::new(rt.alloc());
    for word in words.split_whitespace() {
        list.push(word)?;
    }
    let mut input = Counted::new(Feed::new(script, plan));
    let mut output = Counted::new(Sink::new(rt.alloc(), plan));
    let mut errors = Vec::new(rt.alloc());
    let system = System {
        alloc: rt.alloc(),
        files: rt,
        host: Host {
            name_seed: 0,
            takes_color: false,
            has_reader: false,
            is_typed: false,
        },
    };
    let status = program(&system, &list, &mut input, &mut output, &mut errors);
    told(rt.alloc(), status, &output.get().taken, &errors)
}

/// Returns the status and the error text of the program if the system can't provide its arguments for
/// this reason.
fn refuse(alloc: Global, reason: &str) -> Result<String, Error> {
    let kind = match reason {
        "invalid-data" => io::ErrorKind::InvalidData,
        "out-of-memory" => io::ErrorKind::OutOfMemory,
        _ => bail!("no such reason"),
    };
    let mut errors = Vec::new(alloc);
    let status = refuse_arguments(alloc, &io::Error::from(kind), &mut errors);
    told(alloc, status, b"", &errors)
}

/// Reads, writes and flushes once. Returns which calls succeeded, and the numbers of calls and of
/// failures.
fn counted(alloc: Global, plan: &Plan) -> Result<String, Error> {
    let mut reader = Counted::new(Feed::new(b"x", plan));
    let mut writer = Counted::new(Sink::new(alloc, plan));
    let read = reader.read(&mut [0]).is_ok();
    let written = writer.write(b"x").is_ok();
    let flushed = writer.flush().is_ok();
    let (reads, unread) = (reader.get().calls, reader.failures());
    let (writes, flushes) = (writer.get().calls, writer.get().flushes);
    let unwritten = writer.failures();
    Ok(format!(in alloc;
        "went well: read {read}, write {written}, flush {flushed}\n{reads} reads, {unread} failures\n{writes} writes, {flushes} flushes, {unwritten} failures"
    )?)
}

/// Passes words to a writer that holds bytes back. Returns the result of each call, the number of
/// calls that the inner writer received, and the bytes that it took.
fn held(alloc: Global, plan: &Plan, rest: &str) -> Result<String, Error> {
    let (most, words) = rest.split_once(" ").unwrap_or((rest, ""));
    let mut sink = Sink::new(alloc, plan);
    let mut lines = String::new(alloc);
    let mut writer = HeldWriter::with_capacity(alloc, most.parse::<usize>()?, &mut sink)?;
    for word in words.split_whitespace() {
        lines.push_str(&hand_over(alloc, &mut writer, word)?)?;
    }
    drop(writer);
    let (writes, flushes) = (sink.calls, sink.flushes);
    let taken = String::from_utf8_lossy(alloc, &sink.taken)?;
    lines.push_str(&format!(in alloc; "{writes} writes, {flushes} flushes: {taken:?}")?)?;
    Ok(lines)
}

/// Writes a word, or flushes for `.`, and returns the result.
fn hand_over(alloc: Global, writer: &mut impl Write, word: &str) -> Result<String, Error> {
    if word == "." {
        let flushed = if writer.flush().is_ok() {
            "ok"
        } else {
            "failed"
        };
        return Ok(format!(in alloc; "{flushed}\n")?);
    }
    match writer.write(word.as_bytes()) {
        Ok(count) => Ok(format!(in alloc; "{count}\n")?),
        Err(_) => Ok(String::from_str(alloc, "failed\n")?),
    }
}

/// Prints the answer to each line of the input, or the line's error.
fn answer_all(rt: &HostRuntime, calls: &mut Calls) -> Result<(), Error> {
    for line in BufReader::new(rt.alloc(), rt.stdin())?.lines(rt.alloc()) {
        let line = line?;
        let (word, rest) = line.as_str().split_once(" ").unwrap_or((line.as_str(), ""));
        match calls.answer(rt, word, rest) {
            Ok(answer) if answer.is_empty() => (),
            Ok(answer) => println!(rt; "{}", answer.trim_end())?,
            Err(error) => println!(rt; "error: {error}")?,
        }
    }
    Ok(())
}

fn main(rt: HostRuntime) -> Result<(), Error> {
    let mut calls = Calls::new(rt.alloc())?;
    answer_all(&rt, &mut calls)
}
