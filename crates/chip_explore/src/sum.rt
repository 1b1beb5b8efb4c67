//! Sums (hashes) of a machine's state, which are used to look up states like it. They are unverified.

ghost use Rattle.std.specs.Prelude.{◌≡◌, ◌+◌, ◌≤◌, length};

use crate::kept::ROWS;
use chip_machine::limits::{DIGITS_END, MEMORY_BYTES};
use chip_machine::{Forgotten, Machine};

/// A quarter of the memory's bytes.
const QUARTER: usize = MEMORY_BYTES / 4;

/// Adds a number to a sum.
fn add(sum: u64, number: u64) -> u64 {
    (sum.rotate_left(25) ^ number).wrapping_mul(0x9e37_79b9_7f4a_7c15)
}

/// Adds some bytes to a sum.
fn add_bytes(sum: u64, bytes: &[u8]) -> u64 {
    let mut total = sum;
    for byte in bytes {
        total = add(total, u64::from(*byte));
    }
    total
}

/// Returns eight bytes as one number.
pub(crate) fn word_at(bytes: &[u8], at: usize) -> u64
    requires { at + 8 ≤ length bytes.now }
{
    u64::from_le_bytes([
        bytes[at],
        bytes[at + 1],
        bytes[at + 2],
        bytes[at + 3],
        bytes[at + 4],
        bytes[at + 5],
        bytes[at + 6],
        bytes[at + 7],
    ])
}

/// Returns the sum of the bytes of a memory. Its four quarters are summed separately.
fn memory_sum(memory: &[u8]) -> u64
    requires { length memory.now ≡ MEMORY_BYTES }
{
    let mut first = 1;
    let mut second = 2;
    let mut third = 3;
    let mut fourth = 4;
    for word in 0..QUARTER / 8 {
        let at = 8 * word;
        first = add(first, word_at(memory, at));
        second = add(second, word_at(memory, at + QUARTER));
        third = add(third, word_at(memory, at + 2 * QUARTER));
        fourth = add(fourth, word_at(memory, at + 3 * QUARTER));
    }
    add(add(add(first, second), third), fourth)
}

/// Returns the sum of the rows of a screen.
fn screen_sum(machine: &Machine) -> u64 {
    let mut left = 3;
    let mut right = 4;
    for row in 0..ROWS {
        let points = machine.row(row);
        left = add(left, (points >> 64) as u64);
        right = add(right, (points % (1 << 64)) as u64);
    }
    add(left, right)
}

/// Returns the sum of the memory, the screen's size, the flag registers and the frames.
fn stored_sum(machine: &Machine) -> u64 {
    let mut sum = add(memory_sum(machine.memory()), u64::from(machine.high()));
    sum = add_bytes(sum, machine.flags());
    for frame in machine.frames() {
        sum = add(sum, u64::from(*frame));
    }
    sum
}

/// The sums of a state.
#[derive(Clone, Copy)]
pub(crate) struct Sums {
    /// The sum of the memory, the screen, the frames and the flag registers.
    pub(crate) backdrop: u64,
    /// The sum of everything that later steps depend on except the forgotten parts, of the numbers of
    /// these parts, and of the part of the step's number that decides when the timers tick.
    pub(crate) state: u64,
}

impl Sums {
    /// Returns the sums of a machine with some forgotten parts and bytes. The forgotten bytes must
    /// already be overwritten with those of a base.
    pub(crate) fn of(machine: &Machine, forgotten: Forgotten, phase: u64) -> Sums {
        let stored = stored_sum(machine);
        let screen = screen_sum(machine);
        let (parts, bytes) = forgotten.numbers();
        let mut state = add(add(add(stored, phase), parts), bytes);
        if !forgotten.has_screen() {
            state = add(state, screen);
        }
        let is_near = machine.index() < DIGITS_END;
        if !forgotten.has_index() || !forgotten.has_far() && !is_near {
            state = add(state, u64::from(machine.index()));
        }
        state = add(state, u64::from(machine.pc()));
        state = add(state, u64::from(machine.delay()));
        state = add(state, machine.tape_place() as u64);
        for (register, value) in machine.registers().iter().enumerate() {
            if !forgotten.has_register(register as u8) {
                state = add(state, u64::from(*value));
            }
        }
        Sums {
            backdrop: add(stored, screen),
            state,
        }
    }
}
