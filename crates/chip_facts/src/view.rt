//! The possible values of the parts of a state that lies in a row.

ghost use Rattle.std.specs.Prelude.{◌≡◌, ◌≤◌, ◌<◌, IsTrue, length, slice_index};
ghost use Rattle.chip_machine.specs.State.{State};
ghost use Rattle.chip_machine.specs.Step.{reg};
ghost use Rattle.chip_facts.specs.Rows.{IsInRow};
ghost use Rattle.chip_facts.specs.declared.facts.Facts.{Facts};
ghost use Rattle.chip_facts.specs.declared.table.Row.{Row};

use crate::bits::contains;
use crate::facts::Facts;
use crate::index_set::PAST;
use crate::table::Row;
use chip_lang::limits::MEMORY_BYTES;
use chip_lang::number::Reg;

impl Facts {
    /// Returns the rows of the table. Each reached state that hasn't stopped lies in one of these rows.
    pub fn rows(&self) -> &[Row]
        ensures { result.now ≡ self.now.rows.items }
    {
        &self.rows
    }

    /// Whether the byte at an address may have this value. Past the end of the memory, the byte is 0.
    pub fn may_have(&self, at: u16, byte: u8) -> bool
        ensures { (row : Row) (s : State) → IsInRow self.now row s
            → slice_index s.memory at ≡ byte → IsTrue result }
    {
        if at as usize >= MEMORY_BYTES {
            return byte == 0;
        }
        let number = 256 * at as usize + byte as usize;
        number / 64 < self.memory.len() && contains(&self.memory, number)
    }
}

impl Row {
    /// Returns the address of the machine.
    pub fn pc(&self) -> u16
        ensures { (facts : Facts) (s : State) → IsInRow facts self.now s → s.core.pc ≡ result }
    {
        self.pc
    }

    /// Returns the number of open calls.
    pub fn depth(&self) -> usize
        ensures { (facts : Facts) (s : State) → IsInRow facts self.now s
            → length s.core.frames ≡ result }
    {
        self.frames.len()
    }

    /// Whether a register may have this value.
    pub fn may_have(&self, x: Reg, byte: u8) -> bool
        ensures { (facts : Facts) (s : State) → IsInRow facts self.now s → reg s.core x ≡ byte
            → IsTrue result }
    {
        contains(
            &self.known.registers,
            256 * x.number() as usize + byte as usize,
        )
    }

    /// Whether I may have this value.
    pub fn may_point_at(&self, index: u16) -> bool
        ensures { (facts : Facts) (s : State) → IsInRow facts self.now s → s.core.index ≡ index
            → IsTrue result }
    {
        contains(&self.known.index, (index as usize).min(PAST))
    }

    /// Returns an upper bound of the delay timer.
    pub fn delay_bound(&self) -> u8
        ensures { (facts : Facts) (s : State) → IsInRow facts self.now s → s.core.delay ≤ result }
    {
        self.known.delay
    }

    /// Whether the screen may have its high size if `high` is true, or its low size if `high` is false.
    pub fn may_have_size(&self, high: bool) -> bool
        ensures { (facts : Facts) (s : State) → IsInRow facts self.now s → s.core.high ≡ high
            → IsTrue result }
    {
        if high {
            self.known.may_be_high
        } else {
            self.known.may_be_low
        }
    }
}
