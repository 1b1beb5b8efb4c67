//! The screen as text.

ghost use Rattle.std.specs.Prelude.{◌≡◌, ◌<◌, ◌++◌, ◌+◌, ◌*◌, IfOk, OnOk};
ghost use Rattle.chip_views.specs.Picture.{is_seen, cell, cell_at, picture_line, picture_of};

use chip_machine::Machine;
use std::alloc::{AllocError, Global};

/// The kind of characters with which a picture shows two pixels, one above the other.
#[derive(Clone, Copy, PartialEq, Eq)]
pub enum Letters {
    /// The half blocks of Unicode, in UTF-8.
    Blocks,
    /// A quote for the upper pixel, a full stop for the lower pixel, and a colon for both.
    Plain,
}

/// Returns the screen of a machine as text. Each line shows two rows of pixels, and each character shows two
/// pixels, one above the other: 16 lines of 64 characters in the low size, and 32 lines of 128 in the high size.
///
/// # Errors
///
/// Out of memory.
#[tactic(auto, unfolding(crate::specs::Picture::picture_of))]
pub fn screen_text(
    alloc: Global,
    machine: &Machine,
    letters: Letters,
) -> Result<Vec<u8>, AllocError>
    ensures { IfOk result (λ text. text.items ≡ picture_of letters machine.now) }
{
    let count = if machine.high() { 32 } else { 16 };
    let mut text = Vec::new(alloc);
    for line in 0..count {
        push_line(&mut text, machine, letters, line)?;
    }
    Ok(text)
}

#[tactic(auto, unfolding(crate::specs::Picture::picture_line))]
fn push_line(
    text: &mut Vec<u8>,
    machine: &Machine,
    letters: Letters,
    line: usize,
) -> Result<(), AllocError>
    requires { line < 32 }
    ensures { OnOk result (text.new.items ≡ text.old.items
        ++ picture_line letters machine.now.core.high machine.now.core.lit line) }
{
    let count = if machine.high() { 128 } else { 64 };
    for column in 0..count {
        text.extend_from_slice(cell_at(machine, letters, line, column))?;
    }
    text.push(b'\n')?;
    Ok(())
}

// The character in a column of a line.
#[tactic(auto, unfolding(crate::specs::Picture::cell_at))]
fn cell_at(machine: &Machine, letters: Letters, line: usize, column: usize) -> &'static [u8]
    requires { (line < 32) × (column < 128) }
    ensures { result.now ≡ cell_at letters machine.now.core.high machine.now.core.lit line column }
{
    let above = is_seen(machine, column, 2 * line);
    let below = is_seen(machine, column, 2 * line + 1);
    cell(letters, above, below)
}

/// Whether a pixel is lit, in the machine's current size.
pub(crate) fn is_seen(machine: &Machine, column: usize, row: usize) -> bool
    requires { (column < 128) × (row < 64) }
    ensures { result ≡ is_seen machine.now.core.high machine.now.core.lit column row }
{
    if machine.high() {
        machine.lit(column, row)
    } else {
        machine.lit(2 * column, 2 * row)
    }
}

// The character for a pixel and the pixel below it.
#[tactic(auto, unfolding(crate::specs::Picture::cell))]
fn cell(letters: Letters, above: bool, below: bool) -> &'static [u8]
    ensures { result.now ≡ cell letters above below }
{
    match (letters, above, below) {
        (Letters::Blocks | Letters::Plain, false, false) => b" ",
        (Letters::Blocks, true, false) => b"\xe2\x96\x80",
        (Letters::Blocks, false, true) => b"\xe2\x96\x84",
        (Letters::Blocks, true, true) => b"\xe2\x96\x88",
        (Letters::Plain, true, false) => b"'",
        (Letters::Plain, false, true) => b".",
        (Letters::Plain, true, true) => b":",
    }
}
