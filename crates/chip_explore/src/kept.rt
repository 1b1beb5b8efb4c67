//! States, stored as their differences from a base.

ghost use Rattle.std.specs.Prelude.{◌≡◌, ◌<◌, ◌≤◌, ◌+◌, Some, IfOk, IsTrue};
ghost use Rattle.chip_machine.specs.Relevant.{Alike};
ghost use Rattle.chip_explore.specs.inner.Kept.{parts_of, parts_read, state_of};
ghost use Rattle.chip_explore.specs.inner.Delays.{delay_register, read_as};

use crate::backdrop::{Backdrop, Backdrops};
use chip_machine::limits::LAST_WORD;
use chip_machine::{Forgotten, Machine, Parts};
use std::alloc::{AllocError, Global};
use std::rc::Rc;

/// The number of rows of a screen.
pub(crate) const ROWS: usize = 64;

/// A machine and the rows of pixels of its screen.
pub(crate) struct Base {
    pub(crate) machine: Machine,
    pub(crate) rows: Vec<u128>,
}

// Dropping is one call. A derived `Drop` would be expanded in every function that drops a base.
impl Drop for Base {
    fn drop(self) {
        let Base {
            machine: _,
            rows: _,
        } = self;
    }
}

/// A state, stored as its differences from a base.
#[derive(Drop)]
pub(crate) struct Kept {
    pub(crate) registers: [u8; 16],
    pub(crate) index: u16,
    pub(crate) pc: u16,
    /// The place on the tape of random bytes.
    pub(crate) draws: u16,
    pub(crate) delay: u8,
    pub(crate) backdrop: Rc<Backdrop>,
}

impl Base {
    /// Returns a copy of a machine, with the rows of its screen, as a base.
    pub(crate) fn of(alloc: Global, machine: &Machine) -> Result<Base, AllocError>
        ensures { IfOk result (λ base. base.machine ≡ machine.now) }
    {
        let mut rows = Vec::new(alloc);
        for row in 0..ROWS {
            rows.push(machine.row(row))?;
        }
        let machine = machine.copy_of()?;
        Ok(Base { machine, rows })
    }
}

impl Kept {
    /// Returns the stored state of a machine; `sum` is the sum of its backdrop. The result is
    /// unverified, because callers load it again and compare.
    pub(crate) fn of(
        base: &Base,
        machine: &Machine,
        backdrops: &mut Backdrops,
        sum: u64,
    ) -> Result<Kept, AllocError> {
        let mut registers = [0; 16];
        registers.copy_from_slice(machine.registers());
        Ok(Kept {
            registers,
            index: machine.index(),
            pc: machine.pc(),
            draws: machine.tape_place() as u16,
            delay: machine.delay(),
            backdrop: backdrops.of(base, machine, sum)?,
        })
    }

    /// Returns the parts of the state other than its memory and its screen.
    fn parts(&self) -> Parts
        ensures { result ≡ parts_of self.now }
    {
        let backdrop: &Backdrop = &self.backdrop;
        Parts {
            registers: self.registers,
            index: self.index,
            pc: self.pc,
            frames: backdrop.frames,
            depth: backdrop.depth,
            delay: self.delay,
            flags: backdrop.flags,
            draws: self.draws,
            high: backdrop.high,
        }
    }

    /// Returns these parts after a step that sets a register to a value of the delay timer.
    fn parts_read(&self, register: u8, value: u8) -> Parts
        requires range { register < 16 }
        requires place { self.now.pc ≤ LAST_WORD }
        ensures { result ≡ parts_read register value (parts_of self.now) }
    {
        let mut parts = self.parts();
        parts.registers[register as usize] = value;
        parts.pc += 2;
        if value == 0 {
            parts.delay = 0;
        }
        parts
    }

    /// Loads this state into a machine. Returns whether that was possible. `rows` is scratch space
    /// for the rows of the screen.
    pub(crate) fn load(
        &self,
        base: &Base,
        machine: &mut Machine,
        rows: &mut Vec<u128>,
    ) -> Result<bool, AllocError>
        ensures { IfOk result (λ answer. IsTrue answer
            → machine.new ≡ state_of base.now self.now) }
    {
        self.backdrop.load(&self.parts(), base, machine, rows)
    }

    /// Loads into a machine the state after the next step, which sets a register to the delay timer, assuming that the
    /// timer has this value. Returns whether that was possible. `rows` is scratch space for the rows of the screen.
    pub(crate) fn load_read(
        &self,
        register: u8,
        value: u8,
        base: &Base,
        machine: &mut Machine,
        rows: &mut Vec<u128>,
    ) -> Result<bool, AllocError>
        requires range { register < 16 }
        requires reads { delay_register (state_of base.now self.now) ≡ Some register }
        ensures { IfOk result (λ answer. IsTrue answer
            → machine.new ≡ read_as value (state_of base.now self.now)) }
    {
        let parts = self.parts_read(register, value);
        self.backdrop.load(&parts, base, machine, rows)
    }

    /// Whether this is the state of a machine, except for parts that no later step depends on. If true, this is proved;
    /// if false, it may still be that state. `probe` is scratch space for the state.
    pub(crate) fn is_of(
        &self,
        base: &Base,
        machine: &Machine,
        probe: &mut Base,
    ) -> Result<bool, AllocError>
        ensures { IfOk result (λ answer. IsTrue answer
            → Alike 0 (state_of base.now self.now) machine.now) }
    {
        if !self.load(base, &mut probe.machine, &mut probe.rows)? {
            return Ok(false);
        }
        Ok(probe.machine.is_alike(machine, Forgotten::nothing()))
    }
}
