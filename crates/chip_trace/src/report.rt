//! A difference between two traces, as text.

ghost use Rattle.std.specs.Prelude.{◌≡◌, IfOk};
ghost use Rattle.chip_trace.specs.Difference.{IsDifferenceText, ended_text};

use crate::column::Column;
use crate::columns::Columns;
use crate::difference::Difference;
use itoa::Buffer;
use std::alloc::{AllocError, Global};

/// The text of a difference between traces that start at the step `from`. First comes the step, with the
/// columns that differ or which trace has ended. Then come our lines before it, our line after `< `, and
/// their line after `> `. Ours is the trace of a run, and theirs is the trace in a file.
///
/// # Errors
///
/// Out of memory.
pub fn difference_text(
    alloc: Global,
    columns: &Columns,
    from: u32,
    found: &Difference,
) -> Result<Vec<u8>, AllocError>
    ensures { IfOk result (λ text. IsDifferenceText from found.now text.items) }
{
    let mut details = Vec::new(alloc);
    if let (Some(ours), Some(theirs)) = (&found.ours, &found.theirs) {
        push_changed_names(&mut details, columns.as_slice(), ours, theirs)?;
    }
    push_lines(&mut details, found)?;
    let step = u128::from(from) + found.index as u128;
    let mut digits = Buffer::new();
    let mut text = Vec::from_slice(alloc, b"differs at step ")?;
    text.extend_from_slice(digits.format(step).as_bytes())?;
    text.extend_from_slice(ended_text(found))?;
    text.extend_from_slice(&details)?;
    Ok(text)
}

/// The text after the step: a colon and, if one of the traces has ended, which one.
fn ended_text(found: &Difference) -> &'static [u8]
    ensures { result.now ≡ ended_text found.now.ours found.now.theirs }
{
    match (&found.ours, &found.theirs) {
        (None, _) => b": the run has ended, and the file goes on\n",
        (Some(_), None) => b": the file has ended, and the run goes on\n",
        (Some(_), Some(_)) => b":",
    }
}

/// Adds the names of the columns whose fields differ, and the end of the line. The last field extends
/// to the end of its line.
fn push_changed_names(
    text: &mut Vec<u8>,
    columns: &[Column],
    ours: &[u8],
    theirs: &[u8],
) -> Result<(), AllocError> {
    let mut our_fields = ours.splitn(columns.len(), |byte| *byte == b' ');
    let mut their_fields = theirs.splitn(columns.len(), |byte| *byte == b' ');
    for column in columns {
        if !is_same_field(our_fields.next(), their_fields.next()) {
            text.push(b' ')?;
            text.extend_from_slice(column.name())?;
        }
    }
    if matches!(columns.last(), Some(Column::Text)) {
        text.extend_from_slice(early_end(ours, theirs))?;
    }
    text.push(b'\n')?;
    Ok(())
}

/// A note on which of two traces ends at these lines while its machine still runs; empty if neither or
/// both do. The last line of a trace whose machine hasn't stopped ends with the text `run`.
fn early_end(ours: &[u8], theirs: &[u8]) -> &'static [u8] {
    match (ours.ends_with(b"run"), theirs.ends_with(b"run")) {
        (false, true) => b" (the file ends here)",
        (true, false) => b" (the run ends here)",
        (true, true) | (false, false) => b"",
    }
}

fn is_same_field(ours: Option<&[u8]>, theirs: Option<&[u8]>) -> bool {
    match (ours, theirs) {
        (Some(ours), Some(theirs)) => ours.eq_ignore_ascii_case(theirs),
        (None, None) => true,
        (Some(_), None) | (None, Some(_)) => false,
    }
}

/// Adds our lines before a difference, and then both lines at the difference.
fn push_lines(text: &mut Vec<u8>, found: &Difference) -> Result<(), AllocError> {
    for line in &found.before {
        push_marked(text, b"  ", line)?;
    }
    if let Some(line) = &found.ours {
        push_marked(text, b"< ", line)?;
    }
    if let Some(line) = &found.theirs {
        push_marked(text, b"> ", line)?;
    }
    Ok(())
}

/// Adds a line after a mark.
fn push_marked(text: &mut Vec<u8>, mark: &[u8], line: &[u8]) -> Result<(), AllocError> {
    text.extend_from_slice(mark)?;
    text.extend_from_slice(line)?;
    text.push(b'\n')?;
    Ok(())
}
