//! The first line at which a trace differs from another trace.

ghost use Rattle.std.specs.Prelude.{◌≡◌, ◌↔◌, ◌+◌, ◌<◌, ◌≤◌, ◌++◌, ◌∷◌, length, map, max, IsTrue, IfErr, IfOk, OnOk, Err, vec_len};
ghost use Rattle.std.specs.Str.{str_to_ascii_lowercase};
ghost use Rattle.std.specs.Str.Lines.{lines};
ghost use Rattle.chip_replay.specs.declared.limits.TheConstants.{LAST_STEP};
ghost use Rattle.chip_trace.specs.Lines.{states_of, remaining, SameRun};
ghost use Rattle.chip_trace.specs.Difference.{bytes_of, IsComparison};
ghost use Rattle.chip_trace.specs.inner.Comparing.{with_line};

use crate::limits::LINES_BEFORE;
use crate::trace::Trace;
use chip_files::first_line;
use chip_machine::Machine;
use chip_replay::{AtError, Replay};
use std::alloc::{AllocError, Global};

/// The first line at which two traces differ.
#[derive(Drop)]
pub struct Difference {
    /// The number of lines before the difference.
    pub index: usize,
    /// Our line at the difference, if there is one.
    pub ours: Option<Vec<u8>>,
    /// Their line at the difference, if there is one.
    pub theirs: Option<Vec<u8>>,
    /// Our last lines before the difference, at most five.
    pub before: Vec<Vec<u8>>,
}

/// The first difference between the remaining lines of a trace and the lines after the header of another
/// trace. Ignores the case of letters. A line ends with a newline, which may be missing at the end of the
/// last line. A carriage return before the newline is not part of the line.
///
/// # Errors
///
/// A step is above the last step that a replay can reach, or memory ran out.
pub fn first_difference(
    alloc: Global,
    replay: &mut Replay<Machine>,
    trace: &mut Trace<'_>,
    theirs: &[u8],
) -> Result<Option<Difference>, AtError>
    ensures found { IfOk result (λ found.
        IsComparison (remaining (states_of replay.old) trace.old) (lines theirs.now) found) }
    ensures step_too_large { result ≡ Err AtError.StepTooLarge
        → LAST_STEP < max trace.old.next trace.old.to }
    ensures run { SameRun replay.old replay.new }
{
    let mut left = theirs;
    let mut index = 0;
    let mut before = Vec::new(alloc);
    let mut ours = Vec::new(alloc);
    while !left.is_empty() {
        let (line, after) = first_line(left);
        ours.clear();
        let has_line = trace.next_line(replay, &mut ours)?;
        if !has_line {
            let theirs = Some(copied(alloc, line)?);
            return Ok(Some(Difference {
                index,
                ours: None,
                theirs,
                before,
            }));
        }
        let is_alike = are_alike(&ours, line);
        if !is_alike {
            let theirs = Some(copied(alloc, line)?);
            return Ok(Some(Difference {
                index,
                ours: Some(ours),
                theirs,
                before,
            }));
        }
        ours = keep(alloc, &mut before, ours)?;
        index += 1;
        left = after;
    }
    ours.clear();
    let is_longer = trace.next_line(replay, &mut ours)?;
    if !is_longer {
        return Ok(None);
    }
    Ok(Some(Difference {
        index,
        ours: Some(ours),
        theirs: None,
        before,
    }))
}

/// Whether two lines are equal, ignoring the case of letters. Most lines are equal byte for byte.
fn are_alike(ours: &[u8], theirs: &[u8]) -> bool
    ensures test { IsTrue result
        ↔ (str_to_ascii_lowercase ours.now ≡ str_to_ascii_lowercase theirs.now) }
{
    if ours == theirs {
        return true;
    }
    ours.eq_ignore_ascii_case(theirs)
}

/// A copy of a line.
fn copied(alloc: Global, line: &[u8]) -> Result<Vec<u8>, AtError>
    ensures copy { IfOk result (λ copy. copy.items ≡ line.now) }
    ensures err { IfErr result (λ e. e ≡ AtError.OutOfMemory) }
{
    Vec::from_slice(alloc, line).map_err(|_| AtError::OutOfMemory)
}

/// Appends a line to the kept lines, and returns an empty line. If `LINES_BEFORE` lines are already kept,
/// the oldest of them is removed, and the returned line reuses its allocation.
fn keep(alloc: Global, kept: &mut Vec<Vec<u8>>, line: Vec<u8>) -> Result<Vec<u8>, AtError>
    ensures kept { OnOk result (map bytes_of kept.new.items
        ≡ with_line (map bytes_of kept.old.items) line.items) }
    ensures err { IfErr result (λ e. e ≡ AtError.OutOfMemory) }
{
    let mut room = if kept.len() == LINES_BEFORE {
        kept.remove(0)
    } else {
        Vec::new(alloc)
    };
    room.clear();
    match kept.push(line) {
        Ok(()) => Ok(room),
        Err(_) => Err(AtError::OutOfMemory),
    }
}
