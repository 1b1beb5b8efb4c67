//! Commands about the state of a machine. Numbers are hexadecimal, except for step numbers, rows,
//! places and counts.
//!
//! - `state`: V0 to V3, VF, pc, I and the number of the stop cause, or 0. `registers`: V0 to V3 and
//!   VF. `pc`, `stop`, `delay`: a single value. `timers`: the delay timer and the sound timer.
//!   `draws`: the number of random bytes used. `idle KEYS`, `idle any`: whether each step with these
//!   keys down, or with any keys, leaves the state unchanged.
//! - `bytes ADDRESS COUNT`: COUNT bytes from an address on, and `--` for each byte past the end of memory.
//! - `frames`, `frame PLACE`, `depth`: the return addresses of open calls, the return address at a place, and
//!   the number of open calls. `flags`, `flag PLACE`: the flag registers, and the flag register at a place.
//! - `high`: whether the screen has its high size. `row ROW`: the pixels of a row; the leftmost pixel
//!   is the highest bit. `screen`: each row with a lit pixel. `rows`: whether the borrowed rows
//!   contain the same pixels, and no pixel is lit past the last row.
//! - `profiles`, `profile NAME`: the names of all profiles, and the name of the profile that is found
//!   for NAME. `start-error NUMBER`: the text of a start error.

use crate::output::{Refused, Reply};
use crate::text::{hex_number, number, split_word};
use chip_lang::Reg;
use chip_machine::profile::PROFILES;
use chip_machine::{Machine, Profile, StartError};
use std::alloc::{AllocError, Global};

/// Answers a command.
pub(crate) fn answer(
    out: &mut Reply,
    machine: &Machine,
    word: &str,
    rest: &str,
) -> Result<(), Refused> {
    match word {
        "state" => push_state(out, machine),
        "registers" => push_registers(out, machine),
        "bytes" => push_memory(out, machine, rest)?,
        "frames" => push_frames(out, machine.frames()),
        "flags" => out.bytes(machine.flags()),
        "frame" => push_found(out, machine.frame(number(rest)? as usize)),
        "flag" => push_found(out, flag(machine, number(rest)?)),
        "screen" => push_screen(out, machine),
        "row" => out.bytes(&row_bits(machine, number(rest)? as usize).to_be_bytes()),
        "idle" => out.show(&machine.is_idle(keys_of(rest)?)),
        _ => return answer_part(out, machine, word),
    }
    Ok(())
}

/// Answers a command about one part of a machine.
fn answer_part(out: &mut Reply, machine: &Machine, word: &str) -> Result<(), Refused> {
    match word {
        "pc" => out.show(&format_args!("{:03x}", machine.pc())),
        "stop" => out.show(&stop_number(machine)),
        "draws" => out.show(&machine.draws()),
        "depth" => out.show(&machine.depth()),
        "delay" => out.show(&machine.delay()),
        "timers" => out.numbers(&[u64::from(machine.delay()), u64::from(machine.sound())]),
        "high" => out.show(&machine.high()),
        "rows" => out.show(&are_rows_lit(machine)),
        _ => return Err(Refused::BadCommand),
    }
    Ok(())
}

/// The registers that are shown.
const SHOWN: &[u8] = &[0, 1, 2, 3, 15];

fn push_registers(out: &mut Reply, machine: &Machine) {
    for number in SHOWN {
        if let Some(x) = Reg::new(*number) {
            out.show(&format_args!("{:02x} ", machine.reg(x)));
        }
    }
}

fn push_state(out: &mut Reply, machine: &Machine) {
    push_registers(out, machine);
    let (pc, index, stop) = (machine.pc(), machine.index(), stop_number(machine));
    out.show(&format_args!("{pc:03x} {index:03x} {stop}"));
}

/// Returns the number of the stop cause, or 0 if the machine hasn't stopped.
pub(crate) fn stop_number(machine: &Machine) -> u8 {
    match machine.stopped() {
        Some(why) => why.number(),
        None => 0,
    }
}

fn push_memory(out: &mut Reply, machine: &Machine, rest: &str) -> Result<(), Refused> {
    let (from, count) = split_word(rest);
    let (from, count) = (hex_number(from)?, number(count)?.min(4096));
    for place in 0..count as u16 {
        match machine.byte_at(from.saturating_add(place)) {
            Some(byte) => out.show(&format_args!("{byte:02x}")),
            None => out.text("--"),
        }
    }
    Ok(())
}

fn push_frames(out: &mut Reply, frames: &[u16]) {
    for address in frames {
        out.show(&format_args!("{address:03x} "));
    }
}

fn flag(machine: &Machine, number: u32) -> Option<u16> {
    machine.flag(number as usize).map(u16::from)
}

fn push_found(out: &mut Reply, found: Option<u16>) {
    match found {
        Some(value) => out.show(&format_args!("{value:02x}")),
        None => out.text("none"),
    }
}

/// Returns the pixels of a row; the leftmost pixel is the highest bit.
fn row_bits(machine: &Machine, row: usize) -> u128 {
    let mut bits = 0u128;
    for column in 0..128 {
        bits = bits << 1 | u128::from(machine.lit(column, row));
    }
    bits
}

/// Returns the keys that are down, or `None` if any keys may be down.
fn keys_of(text: &str) -> Result<Option<u16>, Refused> {
    if text == "any" {
        return Ok(None);
    }
    Ok(Some(hex_number(text)?))
}

/// Appends each row with a lit pixel, after the row's number, or `dark` if there is no such row.
fn push_screen(out: &mut Reply, machine: &Machine) {
    let mut is_dark = true;
    for row in 0..64usize {
        let bits = row_bits(machine, row);
        if bits != 0 {
            is_dark = false;
            out.show(&format_args!("{row} "));
            out.bytes(&bits.to_be_bytes());
            out.text("\n");
        }
    }
    if is_dark {
        out.text("dark");
    }
}

/// Whether each borrowed row contains the pixels of the screen, and the row past the last one
/// contains no lit pixel.
fn are_rows_lit(machine: &Machine) -> bool {
    for row in 0..64 {
        if machine.row(row) != row_bits(machine, row) {
            return false;
        }
    }
    machine.row(64) == 0
}

/// Appends the names of all profiles, the name of one profile, or the text of an error.
pub(crate) fn push_profile(
    alloc: Global,
    out: &mut Reply,
    word: &str,
    rest: &str,
) -> Result<(), AllocError> {
    match (word, rest) {
        ("profiles", _) => out.text(PROFILES.join(alloc, " ")?.as_str()),
        ("profile", _) => out.text(profile_name(rest)),
        (_, "1") => out.show(&StartError::ImageTooLong),
        (_, "2") => out.show(&StartError::BadTape),
        _ => out.show(&StartError::Alloc),
    }
    Ok(())
}

/// Returns the name of the profile that is found for `name`, or `none`.
fn profile_name(name: &str) -> &'static str {
    match Profile::from_name(name) {
        Some(profile) => profile.name(),
        None => "none",
    }
}
