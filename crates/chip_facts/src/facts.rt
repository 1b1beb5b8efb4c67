//! Facts about all states that a machine with an image can reach.

ghost use Rattle.std.specs.Prelude.{◌≡◌, ◌≤◌, ℕ, Any, Bool, IfOk, IfSome, IsTrue, List, length, true};
ghost use Rattle.chip_lang.specs.declared.limits.TheConstants.{IMAGE_BYTES};
ghost use Rattle.chip_facts.specs.Facts.{AreFacts, NeverAtAll, is_among};
ghost use Rattle.chip_facts.specs.Rows.{HoldFacts};

use crate::finder::find;
use crate::table::{Left, Row, Table};
use chip_lang::limits::{IMAGE_BYTES, MEMORY_BYTES};
use chip_machine::{Quirks, Stop};
use std::alloc::{AllocError, Global};

/// Facts about all states that a machine with an image can reach, with any keys down, any bytes on the
/// tape and any ticks of the timers.
#[derive(Drop)]
pub struct Facts {
    /// The stops that aren't excluded, each with the address at which it happens. Any of them may be impossible.
    pub left: Vec<Left>,
    /// For each address, whether a step may be executed there. No step is ever executed at the other addresses.
    pub executed: Vec<bool>,
    /// The rows of the table that all these facts follow from.
    pub(crate) rows: Vec<Row>,
    /// The bytes that each byte of the memory may have, followed by those that each flag register may have.
    pub(crate) memory: Vec<u64>,
}

impl Facts {
    /// Whether the facts exclude that the machine ever stops for this cause.
    pub fn excludes(&self, stop: Stop) -> bool
        ensures { IsTrue result → (image : List ℕ) (quirks : Quirks)
            → AreFacts image quirks self.now.left.items self.now.executed.items
            → NeverAtAll image quirks stop }
    {
        for left in &self.left {
            if left.stop == stop {
                return false;
            }
        }
        true
    }
}

/// Marks an address as present in a table of addresses.
fn mark(addresses: &mut Vec<bool>, at: usize)
    ensures there { is_among addresses.new.items at ≡ true }
    ensures others { (n : ℕ) → is_among addresses.old.items n ≡ true
        → is_among addresses.new.items n ≡ true }
{
    if at < addresses.len() {
        addresses[at] = true;
    }
}

/// Returns, for each address, whether a row is at that address.
fn executed_in(alloc: Global, rows: &[Row]) -> Result<Vec<bool>, AllocError>
    ensures { IfOk result (λ executed. (pc : ℕ) → Any (λ row. pc ≡ row.pc) rows.now
        → is_among executed.items pc ≡ true) }
{
    let mut executed = vec![in alloc; false; MEMORY_BYTES]?;
    for row in rows {
        mark(&mut executed, row.pc as usize);
    }
    Ok(executed)
}

/// Finds what is true of all states that a machine with an image can reach. Returns `None` if the search
/// finds no table within its maximum number of steps.
///
/// # Errors
///
/// Out of memory.
pub fn facts_of(
    alloc: Global,
    image: &[u8],
    quirks: Quirks,
    most_steps: usize,
) -> Result<Option<Facts>, AllocError>
    requires { length image.now ≤ IMAGE_BYTES }
    ensures { IfOk result (λ found. IfSome found (λ facts.
        HoldFacts image.now quirks facts)) }
{
    let Some(table) = find(alloc, image, quirks, most_steps)? else {
        return Ok(None);
    };
    if !table.is_proof(alloc, image, quirks)? {
        return Ok(None);
    }
    let executed = executed_in(alloc, &table.rows)?;
    let Table { rows, memory, left } = table;
    Ok(Some(Facts {
        left,
        executed,
        rows,
        memory,
    }))
}
