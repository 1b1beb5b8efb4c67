//! Commands that chip_machine executes or answers. Numbers are hexadecimal, except for step
//! numbers, rows, places and counts.
//!
//! - `start MACHINE BYTES`: starts a machine with this image and the tape a5 5a. MACHINE is a profile, or
//!   a profile and choices of quirks, separated by commas. `start-zeros IMAGE TAPE`: starts a machine with
//!   IMAGE zeros as its image and TAPE zeros as its tape. Both answer `ok` or the error.
//! - `run COUNT [KEYS]`: executes COUNT steps with these keys down, and every tenth step ticks. `step`,
//!   `step-tick`: executes one step with no key down, without or with a tick. Then `touches` and
//!   `touch-count` query the addresses that the step touched. `steps FROM COUNT KEYS`: executes COUNT
//!   steps at once. The first step has the number FROM, and every tenth step ticks. Then
//!   `first-touch ADDRESS` queries which step touched the address first.
//! - `forgotten PARTS [KEYS]`: the parts that are forgotten after the next step with these keys down, if PARTS are
//!   forgotten before the step: `i` for I, `near` for I if it is known to point at digits, `screen`, the digit of
//!   a register, or `all`. If the step needs some of the parts, the answer is `needs` with these parts.
//! - `poke ADDRESS BYTE`, `exchange ADDRESS OLD NEW`: changes bytes of the memory.
//! - `keep`: keeps a copy of the machine. `swap`: swaps the machine and the kept machine. `take`:
//!   takes the state of the kept machine. `same-memory`: whether both machines have the same memory.
//! - `touch-add ADDRESS`, `touch-clear`, `touch-empty`: changes or queries only the list of touched
//!   addresses.

use crate::output::{Refused, Reply};
use crate::state;
use crate::text::{bytes_of_hex, hex_number, number, split_word};
use chip_lang::number::Reg;
use chip_machine::limits::MEMORY_BYTES;
use chip_machine::{Forgotten, Machine, Profile, Quirks, SameKeys, Touch};
use std::alloc::{AllocError, Global};
use std::mem;

/// A machine, a kept machine, and the addresses that their steps touched.
#[derive(Drop)]
pub(crate) struct Machines {
    machine: Option<Box<Machine>>,
    kept: Option<Box<Machine>>,
    /// The number of steps that `run` executed since the start.
    steps: u32,
    touch: Touch,
    first_touch: Vec<u32>,
}

impl Machines {
    pub(crate) fn new(alloc: Global) -> Result<Machines, AllocError> {
        Ok(Machines {
            machine: None,
            kept: None,
            steps: 0,
            touch: Touch::new(),
            first_touch: vec![in alloc; u32::MAX; MEMORY_BYTES]?,
        })
    }

    /// Answers a command.
    pub(crate) fn answer(
        &mut self,
        alloc: Global,
        out: &mut Reply,
        word: &str,
        rest: &str,
    ) -> Result<(), Refused> {
        match word {
            "start" => self.start(alloc, out, rest)?,
            "start-zeros" => self.start_zeros(alloc, out, rest)?,
            "keep" | "swap" | "take" => self.copy(alloc, word)?,
            "same-memory" => out.show(&self.is_same_memory()),
            "first-touch" => push_first_touch(out, &self.first_touch, hex_number(rest)?),
            "touches" => push_touches(out, &self.touch),
            "touch-count" => out.show(&self.touch.len()),
            "touch-empty" => out.show(&self.touch.is_empty()),
            "touch-add" => out.show(&self.touch.add(hex_number(rest)?)),
            "touch-clear" => self.touch.clear(),
            "profiles" | "profile" | "start-error" => state::push_profile(alloc, out, word, rest)?,
            _ => return self.answer_machine(alloc, out, word, rest),
        }
        Ok(())
    }

    /// Answers a command that the machine executes or answers.
    fn answer_machine(
        &mut self,
        alloc: Global,
        out: &mut Reply,
        word: &str,
        rest: &str,
    ) -> Result<(), Refused> {
        let Some(machine) = &mut self.machine else {
            return Err(Refused::BadCommand);
        };
        match word {
            "run" => run(&mut **machine, &mut self.touch, &mut self.steps, rest)?,
            "step" => machine.step(0, false, &mut self.touch),
            "step-tick" => machine.step(0, true, &mut self.touch),
            "steps" => make_steps(&mut **machine, &mut self.first_touch, rest)?,
            "forgotten" => push_forgotten(out, &mut **machine, rest)?,
            "poke" => poke(&mut **machine, rest)?,
            "exchange" => exchange(alloc, &mut **machine, rest)?,
            _ => return state::answer(out, &**machine, word, rest),
        }
        Ok(())
    }

    fn start(&mut self, alloc: Global, out: &mut Reply, rest: &str) -> Result<(), Refused> {
        let (machine, image) = split_word(rest);
        let Some(quirks) = quirks_named(machine) else {
            return Err(Refused::BadCommand);
        };
        let image = bytes_of_hex(alloc, image)?;
        self.start_with(alloc, out, &image, &[0xa5, 0x5a], quirks)?;
        Ok(())
    }

    fn start_zeros(&mut self, alloc: Global, out: &mut Reply, rest: &str) -> Result<(), Refused> {
        let (image, tape) = split_word(rest);
        let image = vec![in alloc; 0; number(image)? as usize]?;
        let tape = vec![in alloc; 0; number(tape)? as usize]?;
        self.start_with(alloc, out, &image, &tape, Profile::Schip.quirks())?;
        Ok(())
    }

    fn start_with(
        &mut self,
        alloc: Global,
        out: &mut Reply,
        image: &[u8],
        tape: &[u8],
        quirks: Quirks,
    ) -> Result<(), AllocError> {
        match Machine::start_with(alloc, image, tape, quirks) {
            Ok(machine) => {
                self.machine = Some(Box::new(alloc, machine)?);
                self.steps = 0;
                out.text("ok");
            }
            Err(error) => out.show(&format_args!("M{}", error.number())),
        }
        Ok(())
    }

    /// Keeps, takes or swaps machines.
    fn copy(&mut self, alloc: Global, word: &str) -> Result<(), AllocError> {
        match (word, &mut self.machine, &mut self.kept) {
            ("keep", Some(machine), kept) => *kept = Some(Box::new(alloc, machine.copy_of()?)?),
            ("take", Some(machine), Some(kept)) => machine.copy_from(&**kept)?,
            (_, machine, kept) => mem::swap(machine, kept),
        }
        Ok(())
    }

    fn is_same_memory(&self) -> bool {
        match (&self.machine, &self.kept) {
            (Some(machine), Some(kept)) => machine.memory() == kept.memory(),
            _ => false,
        }
    }
}

/// Returns the keys that are down: no keys if the command names none.
fn keys_down(keys: &str) -> Result<u16, Refused> {
    hex_number(if keys.is_empty() { "0" } else { keys })
}

/// Executes as many steps as the command states.
fn run(
    machine: &mut Machine,
    touch: &mut Touch,
    made: &mut u32,
    rest: &str,
) -> Result<(), Refused> {
    let (count, keys) = split_word(rest);
    let keys = keys_down(keys)?;
    for _ in 0..number(count)? {
        machine.step(keys, *made % 10 == 9, touch);
        *made = made.wrapping_add(1);
    }
    Ok(())
}

/// Executes several steps at once.
fn make_steps(machine: &mut Machine, first_touch: &mut [u32], rest: &str) -> Result<(), Refused> {
    let (from, rest) = split_word(rest);
    let (count, keys) = split_word(rest);
    let (from, count) = (number(from)?, number(count)?);
    let mut keys = SameKeys(hex_number(keys)?);
    if first_touch.len() != MEMORY_BYTES || from.max(count) > u32::from(u16::MAX) {
        return Err(Refused::BadCommand);
    }
    machine.steps(&mut keys, 10, from, count, first_touch);
    Ok(())
}

fn poke(machine: &mut Machine, rest: &str) -> Result<(), Refused> {
    let (at, byte) = split_word(rest);
    let (at, byte) = (hex_number(at)?, hex_number(byte)?);
    if usize::from(at) < MEMORY_BYTES {
        machine.poke(at, (byte % 256) as u8);
    }
    Ok(())
}

fn exchange(alloc: Global, machine: &mut Machine, rest: &str) -> Result<(), Refused> {
    let (at, rest) = split_word(rest);
    let (old, new) = split_word(rest);
    let at = hex_number(at)?;
    let (old, new) = (bytes_of_hex(alloc, old)?, bytes_of_hex(alloc, new)?);
    let end = new.len().saturating_add(usize::from(at));
    if end > MEMORY_BYTES || old.len() != new.len() {
        return Err(Refused::BadCommand);
    }
    machine.exchange(at, &old, &new);
    Ok(())
}

fn push_touches(out: &mut Reply, touch: &Touch) {
    for place in 0..=touch.len() {
        if let Some(address) = touch.get(place) {
            out.show(&format_args!("{address:03x} "));
        }
    }
}

fn push_first_touch(out: &mut Reply, first_touch: &[u32], address: u16) {
    match first_touch.get(usize::from(address)) {
        Some(step) if *step != u32::MAX => out.show(step),
        _ => out.text("none"),
    }
}

/// Returns the parts that words name, separated by commas.
fn parts_of(words: &str) -> Result<Forgotten, Refused> {
    let mut parts = Forgotten::nothing();
    for word in words.split(',') {
        let part = match word {
            "all" => Forgotten::all(),
            "i" => Forgotten::index(),
            "near" => Forgotten::index().alone(0),
            "screen" => Forgotten::screen(),
            _ => Forgotten::register(register_of(word)?),
        };
        parts = parts.with(part);
    }
    Ok(parts)
}

/// Returns the register of a hexadecimal digit.
fn register_of(word: &str) -> Result<Reg, Refused> {
    match Reg::new(hex_number(word)?.min(16) as u8) {
        Some(register) => Ok(register),
        None => Err(Refused::BadCommand),
    }
}

/// Appends the parts that are forgotten after the next step, or the parts that the step needs.
fn push_forgotten(out: &mut Reply, machine: &mut Machine, rest: &str) -> Result<(), Refused> {
    let (words, keys) = split_word(rest);
    match machine.forgotten_after(parts_of(words)?, keys_down(keys)?) {
        Ok(after) => push_parts(out, after),
        Err(read) => {
            out.text("needs ");
            push_parts(out, read);
        }
    }
    Ok(())
}

/// Appends the names of the given parts.
fn push_parts(out: &mut Reply, parts: Forgotten) {
    if parts.is_nothing() {
        out.text("nothing");
        return;
    }
    let mut blank = "";
    for number in 0..16u8 {
        if parts.has_register(number) {
            out.show(&format_args!("{blank}{number:x}"));
            blank = " ";
        }
    }
    for (has_part, name) in [
        (parts.has_index(), "i"),
        (parts.has_far(), "far"),
        (parts.has_screen(), "screen"),
        (parts.has_bytes(), "bytes"),
    ] {
        if has_part {
            out.show(&format_args!("{blank}{name}"));
            blank = " ";
        }
    }
}

/// Returns the quirks of a profile, changed by the choices that follow its name, or `None` if there is
/// no such profile or the choices are invalid.
pub(crate) fn quirks_named(machine: &str) -> Option<Quirks> {
    match machine.split_once(',') {
        Some((name, list)) => Profile::from_name(name)?
            .quirks()
            .with_choices(list.as_bytes()),
        None => Some(Profile::from_name(machine)?.quirks()),
    }
}
