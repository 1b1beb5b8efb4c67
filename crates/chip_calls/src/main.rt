//! Calls of chip_lang, chip_asm, chip_machine, chip_replay and chip_facts, as text: each line of the standard
//! input is a command, and the program prints its answer. The modules list the commands.
//!
//! - `text LINE`, `text-hex BYTES`: sets the built text to this line, or to these bytes in hexadecimal.
//!   `add COUNT LINE`, `add-hex COUNT BYTES`: appends the line or the bytes to the built text COUNT
//!   times. In a command that ends with a line, `@text` means the built text.
//! - `source`: sets the built text to the lines up to `end`, and opens it. `open`, `open-bytes`: opens the
//!   built text, from a copy of its bytes or from the bytes themselves. All three answer `ok` or the error.
#![tactic(auto)]

mod assembler;
mod edits;
mod facts;
mod language;
mod machine;
mod output;
mod replay;
mod runs;
mod state;
mod text;
mod toy;
mod words;

use crate::machine::Machines;
use crate::output::{Refused, Reply};
use crate::replay::Run;
use crate::text::{bytes_of_hex, number, split_word};
use chip_asm::Source;
use std::alloc::{AllocError, Global};
use std::io;
use std::io::{BufRead, BufReader};

/// The state after the commands so far.
#[derive(Drop)]
struct Calls {
    alloc: Global,
    built: Vec<u8>,
    /// Whether the next lines belong to a source, up to `end`.
    is_source: bool,
    source: Box<Source>,
    machines: Machines,
    run: Run,
}

impl Calls {
    fn new(alloc: Global) -> Result<Calls, AllocError> {
        let machines = Machines::new(alloc)?;
        let source = assembler::boxed(alloc, Source::new(alloc))?;
        Ok(Calls {
            alloc,
            built: Vec::new(alloc),
            is_source: false,
            source,
            machines,
            run: Run::new(alloc),
        })
    }

    /// Answers a line of the input.
    fn take(&mut self, out: &mut Reply, line: &str) -> Result<(), Refused> {
        if !self.is_source {
            let (word, rest) = split_word(line);
            return self.answer(out, word, rest);
        }
        if line == "end" {
            self.is_source = false;
            self.open(out, "open");
            return Ok(());
        }
        self.built.extend_from_slice(line.as_bytes())?;
        self.built.extend_from_slice(b"\n")?;
        Ok(())
    }

    /// Answers a command.
    fn answer(&mut self, out: &mut Reply, word: &str, rest: &str) -> Result<(), Refused> {
        match word {
            "source" | "text" | "text-hex" => {
                self.is_source = word == "source";
                self.built.clear();
                self.add(word, 1, rest)?;
            }
            "add" | "add-hex" => {
                let (count, line) = split_word(rest);
                self.add(word, number(count).unwrap_or(0), line)?;
            }
            "open" | "open-bytes" => self.open(out, word),
            "ins" | "rep" | "del" => {
                assembler::edit(self.alloc, out, &self.built, &mut *self.source, word, rest)?
            }
            "edits" => edits::answer(self.alloc, out, rest)?,
            "facts" | "executed" => facts::answer(self.alloc, out, word, rest)?,
            "runs" => runs::answer(self.alloc, out, rest)?,
            _ => return self.ask(out, word, rest),
        }
        Ok(())
    }

    /// Appends a line, or bytes in hexadecimal, to the built text `count` times.
    fn add(&mut self, word: &str, count: u32, line: &str) -> Result<(), Refused> {
        if !word.ends_with("-hex") {
            return Ok(add_bytes(&mut self.built, count, line.as_bytes())?);
        }
        let bytes = bytes_of_hex(self.alloc, line)?;
        Ok(add_bytes(&mut self.built, count, &bytes)?)
    }

    /// Opens the built text.
    fn open(&mut self, out: &mut Reply, word: &str) {
        match assembler::opened(self.alloc, word, &self.built) {
            Ok(source) => {
                self.source = source;
                out.text("ok");
            }
            Err(error) => out.debug(&error),
        }
    }

    /// Passes the command to each layer in turn, until a layer answers it.
    fn ask(&mut self, out: &mut Reply, word: &str, rest: &str) -> Result<(), Refused> {
        match language::answer(self.alloc, out, &self.built, word, rest) {
            Err(Refused::BadCommand) => (),
            answered => return answered,
        }
        match words::answer(self.alloc, out, word, rest) {
            Err(Refused::BadCommand) => (),
            answered => return answered,
        }
        match assembler::answer(self.alloc, out, &*self.source, word, rest) {
            Err(Refused::BadCommand) => (),
            answered => return answered,
        }
        match self.machines.answer(self.alloc, out, word, rest) {
            Err(Refused::BadCommand) => (),
            answered => return answered,
        }
        self.run.answer(self.alloc, out, word, rest)
    }
}

fn add_bytes(built: &mut Vec<u8>, count: u32, bytes: &[u8]) -> Result<(), AllocError> {
    for _ in 0..count {
        built.extend_from_slice(bytes)?;
    }
    Ok(())
}

/// Returns the answer to a line of the input. Fails if memory runs out.
fn answered(calls: &mut Calls, line: &str) -> Result<String, AllocError> {
    let mut out = Reply::new(calls.alloc);
    match calls.take(&mut out, line) {
        Err(Refused::BadCommand) => out.text("bad command"),
        Err(Refused::OutOfMemory) => out.is_whole = false,
        Ok(()) => (),
    }
    if out.is_whole {
        Ok(out.text)
    } else {
        Err(AllocError)
    }
}

/// Prints the answer to each line of the input, without the blanks at its end.
fn answer_all(rt: &(impl Input + Print + AllocGlobal), calls: &mut Calls) -> io::Result<()> {
    for line in BufReader::new(rt.alloc(), rt.reader())?.lines(rt.alloc()) {
        let answer = answered(calls, line?.as_str())?;
        if !answer.is_empty() {
            rt.println(answer.as_str().trim_end())?;
        }
    }
    Ok(())
}

fn main(rt: HostRuntime) -> io::Result<()> {
    let mut calls = Calls::new(rt.alloc())?;
    answer_all(&rt, &mut calls)
}
