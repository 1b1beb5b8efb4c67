//! Answers about the machine's state.

ghost use Rattle.std.specs.Prelude.{◌≡◌, ◌+◌, ◌*◌, ◌<◌, ◌≤◌, ◌++◌, ◌∷◌, [], false, codes, length, replicate, OnOk};
ghost use Rattle.chip_machine.specs.Step.{word_at};
ghost use Rattle.chip_session.specs.Answers.{asks_past_end, state_answer};
ghost use Rattle.chip_session.specs.Text.{hex_line};
ghost use Rattle.chip_session.specs.MachineAnswers.{size_name, state_name, register_line, place_part, timer_part, condition_part, state_line, flag_line, registers_of, memory_line, word_line, disassembly_of, has_lit, row_line, row_lines, two_digits, screen_of};

use crate::question::StateQuestion;
use crate::text::{push_hex, push_spaced_words, write_hex};
use chip_lang::push_shown;
use chip_machine::limits::{LAST_WORD, MEMORY_BYTES};
use chip_machine::{Machine, Stop};
use chip_trace::{byte_digits, push_decimal, push_spaced_bytes, row_bytes, word_digits};
use std::alloc::AllocError;

// Room for the registers of a machine whose call stack is short.
const REGISTERS_ROOM: usize = 256;

// The length of a row's line: two digits, a space, 32 digits and a newline.
const ROW_LEN: usize = 36;

// Room for the 64 rows of the screen, its size and the last line.
const SCREEN_ROOM: usize = 64 * ROW_LEN + 16;

/// Appends the answer to a question about a machine's state to a text.
pub(crate) fn push_state(
    answer: &mut Vec<u8>,
    machine: &Machine,
    asked: StateQuestion,
) -> Result<(), AllocError>
    requires { asks_past_end asked ≡ false }
    ensures { OnOk result (answer.new.items ≡ answer.old.items ++ state_answer asked machine.now) }
{
    match asked {
        StateQuestion::Registers => push_registers(answer, machine),
        StateQuestion::Memory { at, count } => {
            push_memory(answer, machine, at as u16, count as u16)
        }
        StateQuestion::Screen => push_screen(answer, machine),
        StateQuestion::Disassembly { at, count } => {
            push_disassembly(answer, machine, at as u16, count as u16)
        }
    }
}

/// Appends the registers, timers, flags and call stack of a machine, in three lines.
#[tactic(auto, unfolding(crate::specs::MachineAnswers::registers_of))]
pub(crate) fn push_registers(answer: &mut Vec<u8>, machine: &Machine) -> Result<(), AllocError>
    ensures { OnOk result (answer.new.items ≡ answer.old.items ++ registers_of machine.now) }
{
    answer.reserve(REGISTERS_ROOM)?;
    push_register_line(answer, machine)?;
    push_state_line(answer, machine)?;
    push_flag_line(answer, machine)
}

fn push_register_line(answer: &mut Vec<u8>, machine: &Machine) -> Result<(), AllocError>
    ensures { OnOk result (answer.new.items ≡ answer.old.items ++ register_line machine.now.core) }
{
    answer.extend_from_slice(b"v")?;
    push_spaced_bytes(answer, machine.registers())?;
    answer.push(b'\n')?;
    Ok(())
}

fn push_place(answer: &mut Vec<u8>, machine: &Machine) -> Result<(), AllocError>
    ensures { OnOk result (answer.new.items ≡ answer.old.items ++ place_part machine.now.core) }
{
    let [a, b, c, d] = word_digits(machine.pc());
    let [e, f, g, h] = word_digits(machine.index());
    answer.extend_from_slice(&[b'p', b'c', b' ', a, b, c, d, b' ', b'i', b' ', e, f, g, h])
}

fn push_timers(answer: &mut Vec<u8>, machine: &Machine) -> Result<(), AllocError>
    ensures { OnOk result (answer.new.items ≡ answer.old.items ++ timer_part machine.now.core) }
{
    let [a, b] = byte_digits(machine.delay());
    let [c, d] = byte_digits(machine.sound());
    answer.extend_from_slice(&[b' ', b'd', b't', b' ', a, b, b' ', b's', b't', b' ', c, d])
}

fn push_condition(answer: &mut Vec<u8>, machine: &Machine) -> Result<(), AllocError>
    ensures { OnOk result (answer.new.items
        ≡ answer.old.items ++ condition_part machine.now.core) }
{
    answer.extend_from_slice(b" draws ")?;
    push_decimal(answer, machine.draws())?;
    answer.extend_from_slice(size_word(machine.high()))?;
    push_state_name(answer, machine.stopped())?;
    answer.push(b'\n')?;
    Ok(())
}

fn push_state_line(answer: &mut Vec<u8>, machine: &Machine) -> Result<(), AllocError>
    ensures { OnOk result (answer.new.items ≡ answer.old.items ++ state_line machine.now.core) }
{
    push_place(answer, machine)?;
    push_timers(answer, machine)?;
    push_condition(answer, machine)
}

fn push_flag_line(answer: &mut Vec<u8>, machine: &Machine) -> Result<(), AllocError>
    ensures { OnOk result (answer.new.items ≡ answer.old.items ++ flag_line machine.now.core) }
{
    answer.extend_from_slice(b"flags")?;
    push_spaced_bytes(answer, machine.flags())?;
    answer.extend_from_slice(b" stack")?;
    push_spaced_words(answer, machine.frames())?;
    answer.push(b'\n')?;
    Ok(())
}

fn size_name(high: bool) -> &'static [u8]
    ensures { result.now ≡ size_name high }
{
    if high { b"high" } else { b"low" }
}

/// The name of the screen's size, between spaces.
fn size_word(high: bool) -> &'static [u8]
    ensures { result.now ≡ 32 ∷ size_name high ++ 32 ∷ [] }
{
    if high { b" high " } else { b" low " }
}

fn push_state_name(answer: &mut Vec<u8>, stopped: Option<Stop>) -> Result<(), AllocError>
    ensures { OnOk result (answer.new.items ≡ answer.old.items ++ state_name stopped) }
{
    match stopped {
        None => answer.extend_from_slice(b"run"),
        Some(stop) => {
            answer.push(b'S')?;
            push_decimal(answer, u64::from(stop.number()))
        }
    }
}

/// Appends `count` bytes from address `at`, in hexadecimal.
#[tactic(auto, unfolding(crate::specs::MachineAnswers::memory_line))]
pub(crate) fn push_memory(
    answer: &mut Vec<u8>,
    machine: &Machine,
    at: u16,
    count: u16,
) -> Result<(), AllocError>
    requires { at + count ≤ MEMORY_BYTES }
    ensures { OnOk result
        (answer.new.items ≡ answer.old.items ++ memory_line machine.now at count) }
{
    let start = usize::from(at);
    let end = start + usize::from(count);
    answer.reserve(2 * usize::from(count) + 1)?;
    push_hex(answer, &machine.memory()[start..end])?;
    answer.push(b'\n')?;
    Ok(())
}

/// Appends a line for each of `count` words from address `at`: its address, the word, and its
/// source text.
#[tactic(auto, unfolding(crate::specs::MachineAnswers::disassembly_of))]
pub(crate) fn push_disassembly(
    answer: &mut Vec<u8>,
    machine: &Machine,
    at: u16,
    count: u16,
) -> Result<(), AllocError>
    requires { at + 2 * count ≤ MEMORY_BYTES }
    ensures { OnOk result (answer.new.items
        ≡ answer.old.items ++ disassembly_of machine.now at count) }
{
    for place in 0..count {
        push_word_line(answer, machine, at + 2 * place)?;
    }
    answer.extend_from_slice(b".\n")
}

/// Appends the line for the word at an address.
fn push_word_line(answer: &mut Vec<u8>, machine: &Machine, at: u16) -> Result<(), AllocError>
    requires { at ≤ LAST_WORD }
    ensures { OnOk result (answer.new.items ≡ answer.old.items ++ word_line machine.now at) }
{
    let word = word_at(machine, at);
    let [a, b, c, d] = word_digits(at);
    let [e, f, g, h] = word_digits(word);
    answer.extend_from_slice(&[a, b, c, d, b' ', e, f, g, h, b' '])?;
    push_shown(answer, word)?;
    answer.push(b'\n')?;
    Ok(())
}

fn word_at(machine: &Machine, at: u16) -> u16
    requires { at ≤ LAST_WORD }
    ensures { result ≡ word_at machine.now.memory at }
{
    let memory = machine.memory();
    let start = usize::from(at);
    u16::from(memory[start]) * 256 + u16::from(memory[start + 1])
}

/// Appends the size of the screen, and a line for each row that has a lit pixel.
#[tactic(auto, unfolding(crate::specs::MachineAnswers::screen_of))]
pub(crate) fn push_screen(answer: &mut Vec<u8>, machine: &Machine) -> Result<(), AllocError>
    ensures { OnOk result (answer.new.items ≡ answer.old.items ++ screen_of machine.now) }
{
    answer.reserve(SCREEN_ROOM)?;
    answer.extend_from_slice(size_name(machine.high()))?;
    answer.push(b'\n')?;
    push_rows(answer, machine)?;
    answer.extend_from_slice(b".\n")
}

#[tactic(auto, unfolding(crate::specs::MachineAnswers::row_lines))]
fn push_rows(answer: &mut Vec<u8>, machine: &Machine) -> Result<(), AllocError>
    ensures { OnOk result (answer.new.items ≡ answer.old.items ++ row_lines machine.now.core.lit) }
{
    for row in 0..64usize {
        push_row_line(answer, machine, row)?;
    }
    Ok(())
}

#[tactic(auto, unfolding(crate::specs::MachineAnswers::row_line))]
fn push_row_line(answer: &mut Vec<u8>, machine: &Machine, row: usize) -> Result<(), AllocError>
    requires { row < 64 }
    ensures { OnOk result (answer.new.items
        ≡ answer.old.items ++ row_line machine.now.core.lit row) }
{
    if !has_lit(machine, row) {
        return Ok(());
    }
    let start = answer.len();
    answer.extend_from_slice(&[b' '; ROW_LEN])?;
    write_row(row as u8, &row_bytes(machine, row), &mut answer[start..]);
    Ok(())
}

/// Writes a row over spaces: its number in two digits, a space, and its pixels in hexadecimal. The
/// row is written in place because it is slow to write the bytes elsewhere and then copy them.
fn write_row(row: u8, points: &[u8], line: &mut [u8])
    requires row { row < 64 }
    requires points { length points.now ≡ 16 }
    requires spaces { line.old ≡ replicate ROW_LEN 32 }
    ensures { line.new ≡ two_digits row ++ codes " " ++ hex_line points.now }
{
    line[0] = b'0' + row / 10;
    line[1] = b'0' + row % 10;
    line[ROW_LEN - 1] = b'\n';
    write_hex(points, &mut line[3..ROW_LEN - 1]);
}

#[tactic(auto, using(crate::proofs::RowLemmas::dark_row))]
fn has_lit(machine: &Machine, row: usize) -> bool
    ensures { result ≡ has_lit machine.now.core.lit row }
{
    machine.row(row) != 0
}
