//! The worklist: the rows that the search still has to execute steps from. The row at the lowest address
//! goes first, so that inner loops reach a fixed point before the code that follows them.

use crate::bits::{insert, next, remove};
use chip_lang::limits::MEMORY_BYTES;
use std::alloc::{AllocError, Global};

/// The number of addresses that rows may be at: those of the memory, and those past it that a jump with
/// an offset may lead to.
pub(crate) const PLACES: usize = MEMORY_BYTES + 512;

/// The number that stands for no row.
const NO_ROW: u32 = u32::MAX;

/// The rows that the search still has to execute steps from.
#[derive(Drop)]
pub(crate) struct Waiting {
    /// The addresses at which a row is waiting.
    places: [u64; PLACES / 64],
    /// A row that is waiting at each address, or `NO_ROW`.
    first: Vec<u32>,
    rows: Vec<Wait>,
}

/// Whether a row is waiting, and the number of another row that is waiting at its address, or `NO_ROW`.
#[derive(Clone, Copy)]
struct Wait {
    waits: bool,
    other: u32,
}

impl Waiting {
    pub(crate) fn new(alloc: Global) -> Result<Waiting, AllocError> {
        Ok(Waiting {
            places: [0; PLACES / 64],
            first: vec![in alloc; NO_ROW; PLACES]?,
            rows: Vec::new(alloc),
        })
    }

    /// Adds a row, which isn't waiting.
    pub(crate) fn add(&mut self) -> Result<(), AllocError> {
        self.rows.push(Wait {
            waits: false,
            other: NO_ROW,
        })?;
        Ok(())
    }

    /// Marks a row at an address as waiting.
    pub(crate) fn put(&mut self, pc: u16, number: u32) {
        let Some(first) = self.first.get_mut(pc as usize) else {
            return;
        };
        let Some(row) = self.rows.get_mut(number as usize) else {
            return;
        };
        if row.waits || pc as usize >= PLACES {
            return;
        }
        row.waits = true;
        row.other = *first;
        *first = number;
        insert(&mut self.places, pc as usize);
    }

    /// Returns a row that is waiting at the lowest address, and removes it from the waiting rows.
    pub(crate) fn take(&mut self) -> Option<u32> {
        let pc = next(&self.places, 0);
        let first = self.first.get_mut(pc)?;
        let number = *first;
        let row = self.rows.get_mut(number as usize)?;
        row.waits = false;
        *first = row.other;
        if row.other == NO_ROW && pc < PLACES {
            remove(&mut self.places, pc);
        }
        Some(number)
    }
}
