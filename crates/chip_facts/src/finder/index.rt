//! The rows of a search, looked up by address, call stack and label.

use std::alloc::{AllocError, Global};

/// The maximum number of rows of a table.
pub(crate) const MOST_ROWS: usize = 20_000;

/// The number of slots, which is somewhat larger than the maximum number of rows.
const SLOTS: usize = 32_768;

/// The key of a row: its address, the number of its call stack, and a label that depends on VF and I.
#[derive(Clone, Copy)]
pub(crate) struct Place {
    pub(crate) pc: u16,
    pub(crate) stack: u32,
    pub(crate) label: u32,
}

impl Place {
    fn is(&self, other: &Place) -> bool {
        self.pc == other.pc && self.stack == other.stack && self.label == other.label
    }

    /// Returns the slot at which a look-up of this place starts.
    fn slot(&self) -> usize {
        let mixed = (self.pc as u64)
            .wrapping_mul(0x9e37_79b9_7f4a_7c15)
            .wrapping_add((self.stack as u64).wrapping_mul(0xc2b2_ae3d_27d4_eb4f))
            .wrapping_add((self.label as u64).wrapping_mul(0x1656_67b1_9e37_79f9));
        (mixed >> 49) as usize
    }
}

/// A hash table from places to row numbers. Each number is stored in the first slot that was free,
/// starting at its place's slot.
#[derive(Drop)]
pub(crate) struct Index {
    slots: Vec<Option<(Place, u32)>>,
}

impl Index {
    pub(crate) fn new(alloc: Global) -> Result<Index, AllocError> {
        Ok(Index {
            slots: vec![in alloc; None; SLOTS]?,
        })
    }

    /// Returns the number of the row at a place, or `None` if there is no row.
    pub(crate) fn get(&self, place: &Place) -> Option<u32> {
        let mut slot = place.slot();
        for _ in 0..SLOTS {
            let (other, number) = (*self.slots.get(slot)?)?;
            if other.is(place) {
                return Some(number);
            }
            slot = slot.wrapping_add(1) % SLOTS;
        }
        None
    }

    /// Records the number of a row at a place that has no row yet.
    pub(crate) fn insert(&mut self, place: Place, number: u32) {
        let mut slot = place.slot();
        for _ in 0..SLOTS {
            if let Some(entry) = self.slots.get_mut(slot)
                && entry.is_none()
            {
                *entry = Some((place, number));
                return;
            }
            slot = slot.wrapping_add(1) % SLOTS;
        }
    }
}
