//! The listing of a source with a mark before each executed line.

ghost use Rattle.std.specs.Prelude.{◌≡◌, ◌++◌, IfOk, OnOk};
ghost use Rattle.chip_cover.specs.Marks.{is_marked, marked_listing, marked_row};

use chip_asm::{LineView, Source};
use chip_explore::Executed;
use std::alloc::{AllocError, Global};

/// Returns the listing of a source. A line is marked with `+ ` if the line has bytes and a step is
/// executed at its address. Every other line begins with two spaces.
///
/// # Errors
///
/// Out of memory.
#[tactic(auto, unfolding(crate::specs::Marks::marked_listing))]
pub fn marked_listing(
    alloc: Global,
    source: &Source,
    executed: &Executed,
) -> Result<Vec<u8>, AllocError>
    ensures { IfOk result (λ text. text.items ≡ marked_listing executed.now source.now.lines) }
{
    let mut text = Vec::new(alloc);
    for place in 0..source.lines() {
        if let Some(line) = source.line(place + 1) {
            push_marked(&mut text, &line, executed)?;
        }
    }
    Ok(text)
}

/// Appends the mark of a line, and then the line's row of the listing.
fn push_marked(
    text: &mut Vec<u8>,
    line: &LineView<'_>,
    executed: &Executed,
) -> Result<(), AllocError>
    ensures { OnOk result (text.new.items ≡ text.old.items ++ marked_row executed.now line.now) }
{
    let is_marked = is_marked(line, executed);
    text.extend_from_slice(if is_marked { b"+ " } else { b"  " })?;
    line.push_decimal_row(text)
}

/// Whether a line has bytes, and a step is executed at its address.
fn is_marked(line: &LineView<'_>, executed: &Executed) -> bool
    ensures { result ≡ is_marked executed.now line.now }
{
    line.size() > 0 && executed.contains(line.address() as u16)
}
