//! The parts of a state that change rarely. States whose parts are equal share them.

ghost use Rattle.std.specs.Prelude.{◌≡◌, ◌+◌, ◌*◌, ◌^◌, fold, IfOk, IsTrue, OnOk};
ghost use Rattle.chip_explore.specs.inner.Kept.{state_with, with_byte, with_row};

use crate::kept::{Base, ROWS};
use crate::sum::word_at;
use chip_machine::limits::{FLAGS, FRAMES, MEMORY_BYTES};
use chip_machine::{Machine, Parts};
use std::alloc::{AllocError, Global};
use std::collections::HashMap;
use std::rc::Rc;

/// The approximate size of a backdrop in bytes, excluding the bytes and rows in which its memory
/// and its screen differ from the base.
const BACKDROP_BYTES: u64 = 192;

/// A byte of the memory that differs from the byte of the base.
#[derive(Clone, Copy)]
pub(crate) struct BytePatch {
    pub(crate) at: u16,
    pub(crate) byte: u8,
}

/// A row of the screen that differs from the row of the base, in two halves.
#[derive(Clone, Copy)]
pub(crate) struct RowPatch {
    pub(crate) left: u64,
    pub(crate) right: u64,
    pub(crate) row: u8,
}

/// The frames, the flag registers, the size of the screen, and the bytes and rows in which the memory and
/// the screen differ from a base.
#[derive(Drop)]
pub(crate) struct Backdrop {
    pub(crate) frames: [u16; FRAMES],
    pub(crate) flags: [u8; FLAGS],
    pub(crate) depth: u8,
    pub(crate) high: bool,
    pub(crate) bytes: Vec<BytePatch>,
    pub(crate) rows: Vec<RowPatch>,
}

/// The backdrops of the kept states, by their sums. This lookup is unverified.
#[derive(Drop)]
pub(crate) struct Backdrops {
    alloc: Global,
    by_sum: HashMap<u64, Rc<Backdrop>>,
    /// The approximate number of bytes that all backdrops take.
    pub(crate) room: u64,
    /// Whether there is a new backdrop that hasn't been noted yet.
    pub(crate) is_new: bool,
}

impl RowPatch {
    /// The pixels of the row, with the leftmost pixel as the highest bit.
    fn points(self) -> u128
        ensures { result ≡ self.left * 2 ^ 64 + self.right }
    {
        u128::from(self.left) * (1 << 64) + u128::from(self.right)
    }
}

/// The bytes of the memory that differ from the base. Whole words that are equal are skipped.
fn bytes_of(alloc: Global, base: &Base, machine: &Machine) -> Result<Vec<BytePatch>, AllocError> {
    let old = base.machine.memory();
    let new = machine.memory();
    let mut bytes = Vec::new(alloc);
    for word in 0..MEMORY_BYTES / 8 {
        let start = 8 * word;
        if word_at(old, start) == word_at(new, start) {
            continue;
        }
        for at in start..start + 8 {
            if old[at] != new[at] {
                bytes.push(BytePatch {
                    at: at as u16,
                    byte: new[at],
                })?;
            }
        }
    }
    bytes.shrink_to_fit();
    Ok(bytes)
}

/// The rows of the screen that differ from the base.
fn rows_of(alloc: Global, base: &Base, machine: &Machine) -> Result<Vec<RowPatch>, AllocError> {
    let mut rows = Vec::new(alloc);
    for row in 0..ROWS {
        let points = machine.row(row);
        if row >= base.rows.len() || points != base.rows[row] {
            rows.push(RowPatch {
                left: (points >> 64) as u64,
                right: (points % (1 << 64)) as u64,
                row: row as u8,
            })?;
        }
    }
    rows.shrink_to_fit();
    Ok(rows)
}

impl Backdrop {
    /// The backdrop of a machine.
    fn of(alloc: Global, base: &Base, machine: &Machine) -> Result<Backdrop, AllocError> {
        let mut flags = [0; FLAGS];
        flags.copy_from_slice(machine.flags());
        let mut frames = [0; FRAMES];
        let depth = machine.frames().len();
        frames[..depth].copy_from_slice(machine.frames());
        Ok(Backdrop {
            frames,
            flags,
            depth: depth as u8,
            high: machine.high(),
            bytes: bytes_of(alloc, base, machine)?,
            rows: rows_of(alloc, base, machine)?,
        })
    }

    /// The approximate size of the backdrop in bytes.
    fn room(&self) -> u64 {
        let bytes = (self.bytes.len() as u64).saturating_mul(4);
        let rows = (self.rows.len() as u64).saturating_mul(24);
        bytes.saturating_add(rows).saturating_add(BACKDROP_BYTES)
    }

    /// Writes the bytes into the memory of a machine.
    fn put_bytes(&self, machine: &mut Machine)
        ensures { machine.new ≡ fold with_byte machine.old self.now.bytes.items }
    {
        for patch in &self.bytes {
            if (patch.at as usize) < MEMORY_BYTES {
                machine.poke(patch.at, patch.byte);
            }
        }
    }

    /// Fills `rows` with the rows of the base, and overwrites the rows that the backdrop contains.
    fn put_rows(&self, base: &Base, rows: &mut Vec<u128>) -> Result<(), AllocError>
        ensures { OnOk result (rows.new.items
            ≡ fold with_row base.now.rows.items self.now.rows.items) }
    {
        rows.clear();
        rows.extend_from_slice(&base.rows)?;
        for patch in &self.rows {
            let row = patch.row as usize;
            if row < rows.len() {
                rows[row] = patch.points();
            }
        }
        Ok(())
    }

    /// Loads into a machine the state that consists of a base, some parts and this backdrop.
    /// Returns whether that was possible. `rows` is scratch space for the rows of the screen.
    pub(crate) fn load(
        &self,
        parts: &Parts,
        base: &Base,
        machine: &mut Machine,
        rows: &mut Vec<u128>,
    ) -> Result<bool, AllocError>
        ensures { IfOk result (λ answer. IsTrue answer
            → machine.new ≡ state_with parts.now base.now self.now) }
    {
        self.put_rows(base, rows)?;
        if parts.depth as usize > FRAMES || rows.len() != ROWS {
            return Ok(false);
        }
        machine.copy_from(&base.machine)?;
        machine.restore(parts);
        self.put_bytes(machine);
        machine.set_screen(rows);
        Ok(true)
    }
}

impl Backdrops {
    /// Returns an empty collection.
    pub(crate) fn new(alloc: Global) -> Backdrops {
        Backdrops {
            alloc,
            by_sum: HashMap::new(alloc),
            room: 0,
            is_new: false,
        }
    }

    /// Returns the backdrop with this sum. If there is none yet, stores the machine's backdrop.
    pub(crate) fn of(
        &mut self,
        base: &Base,
        machine: &Machine,
        sum: u64,
    ) -> Result<Rc<Backdrop>, AllocError> {
        if let Some(backdrop) = self.by_sum.get(&sum) {
            return backdrop.clone();
        }
        let backdrop = Rc::new(self.alloc, Backdrop::of(self.alloc, base, machine)?)?;
        self.room = self.room.saturating_add(backdrop.room());
        self.by_sum.insert(sum, backdrop.clone()?)?;
        self.is_new = true;
        Ok(backdrop)
    }
}
