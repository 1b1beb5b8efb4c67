//! FNV-1a sums of 64 bits. A sum is kept until its bytes change.

ghost use Rattle.std.specs.Prelude.{◌≡◌, fold, length, IsTrue, IfOk};
ghost use Rattle.chip_trace.specs.Sums.{fnv_step, fnv_of, row_bytes, screen_bytes};
ghost use Rattle.chip_trace.specs.inner.Rows.{bytes_of_rows};

use chip_machine::Machine;
use std::alloc::{AllocError, Global};
use std::marker::Model;

/// The sum of no bytes.
const BASIS: u64 = 0xcbf2_9ce4_8422_2325;

/// The prime of FNV for 64 bits.
const PRIME: u64 = 0x100_0000_01b3;

/// The number of rows of a screen.
const HEIGHT: usize = 64;

/// Bytes and their sum.
#[derive(Drop)]
pub(crate) struct Summed {
    bytes: Vec<u8>,
    sum: u64,
}

impl Model for Summed {
    ghost use Rattle.std.specs.Prelude.{◌≡◌, List, ℕ};
    ghost use Rattle.chip_trace.specs.Sums.{fnv_of};

    ghost Value = { List ℕ };

    ghost view = { λ s. s.bytes.items };

    ghost invariant = { λ s. s.sum ≡ fnv_of s.bytes.items };
}

impl Summed {
    /// An empty list of bytes, and its sum.
    pub(crate) fn new(alloc: Global) -> Self {
        Summed {
            bytes: Vec::new(alloc),
            sum: BASIS,
        }
    }

    /// The sum of these bytes. Keeps the bytes for the next call.
    ///
    /// # Errors
    ///
    /// Out of memory.
    pub(crate) fn sum_of(&mut self, bytes: &[u8]) -> Result<u64, AllocError>
        ensures { IfOk result (λ sum. sum ≡ fnv_of bytes.now) }
    {
        if self.bytes.as_slice() == bytes {
            return Ok(self.sum);
        }
        self.bytes.clear();
        self.sum = BASIS;
        self.bytes.extend_from_slice(bytes)?;
        self.sum = fnv_after(BASIS, bytes);
        Ok(self.sum)
    }
}

/// The sum after some bytes are appended to bytes with the sum `sum`.
fn fnv_after(sum: u64, bytes: &[u8]) -> u64
    ensures { result ≡ fold fnv_step sum bytes.now }
{
    let mut sum = sum;
    for byte in bytes {
        sum = fnv_step(sum, *byte);
    }
    sum
}

/// The sum after one more byte.
#[inline(always)]
#[tactic(auto, unfolding(crate::specs::Sums::fnv_step))]
fn fnv_step(sum: u64, byte: u8) -> u64
    ensures { result ≡ fnv_step sum byte }
{
    (sum ^ u64::from(byte)).wrapping_mul(PRIME)
}

/// The stored rows of a screen and the sum of their bytes.
#[derive(Drop)]
pub(crate) struct SummedRows {
    rows: [u128; HEIGHT],
    sum: u64,
}

impl Model for SummedRows {
    ghost use Rattle.std.specs.Prelude.{◌≡◌, List, ℕ};
    ghost use Rattle.chip_trace.specs.Sums.{fnv_of};
    ghost use Rattle.chip_trace.specs.inner.Rows.{bytes_of_rows};

    ghost Value = { List ℕ };

    ghost view = { λ s. s.rows };

    ghost invariant = { λ s. s.sum ≡ fnv_of (bytes_of_rows s.rows) };
}

impl SummedRows {
    /// Rows without a lit pixel.
    pub(crate) fn new() -> Self {
        let rows = [0; HEIGHT];
        let sum = sum_of_rows(&rows);
        SummedRows { rows, sum }
    }

    /// The sum of the pixels of a machine's screen. Keeps the rows for the next call.
    pub(crate) fn sum_of(&mut self, machine: &Machine) -> u64
        ensures { result ≡ fnv_of (screen_bytes machine.now.core.lit) }
    {
        let is_same = take_rows(&mut self.rows, machine);
        if !is_same {
            self.sum = sum_of_rows(&self.rows);
        }
        self.sum
    }
}

/// Replaces the rows with those of a machine's screen, and returns whether every row was already equal.
fn take_rows(rows: &mut [u128], machine: &Machine) -> bool
    requires { length rows.old ≡ HEIGHT }
    ensures shown { bytes_of_rows rows.new ≡ screen_bytes machine.now.core.lit }
    ensures same { IsTrue result → rows.new ≡ rows.old }
{
    let mut is_same = true;
    for row in 0..HEIGHT {
        let points = machine.row(row);
        if rows[row] != points {
            rows[row] = points;
            is_same = false;
        }
    }
    is_same
}

/// The pixels of a row of a machine's screen, from the left, with eight pixels per byte. The leftmost
/// pixel is the highest bit.
pub fn row_bytes(machine: &Machine, row: usize) -> [u8; 16]
    ensures { result ≡ row_bytes machine.now.core.lit row }
{
    machine.row(row).to_be_bytes()
}

/// The sum of the bytes of the rows, from the top, with the highest byte of each row first.
fn sum_of_rows(rows: &[u128]) -> u64
    ensures { result ≡ fnv_of (bytes_of_rows rows.now) }
{
    let mut sum = BASIS;
    for points in rows {
        sum = fnv_after(sum, &points.to_be_bytes());
    }
    sum
}
