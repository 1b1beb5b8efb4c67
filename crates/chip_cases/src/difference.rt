//! The difference between an answer and the expected lines, as text.

ghost use Rattle.std.specs.Prelude.{◌≤◌, length};

use crate::matching::lines_that_count;
use std::alloc::{AllocError, Global};

// The number of common lines that are shown before a difference, and after it.
const LINES_AROUND: usize = 3;

/// Returns the expected lines and the lines of an answer in one list. `-` marks a line that is only
/// expected, `+` a line that is only in the answer, and a space a line that is in both. Lines far
/// from the difference are left out.
///
/// # Errors
///
/// Out of memory.
pub fn difference_text(
    alloc: Global,
    expected: &[&[u8]],
    answer: &[u8],
) -> Result<Vec<u8>, AllocError> {
    let answered = lines_that_count(alloc, answer)?;
    let front = common_front(expected, &answered);
    let (expected_rest, answered_rest) = (&expected[front..], &answered[front..]);
    let back = common_back(expected_rest, answered_rest);
    let mut text = Vec::new(alloc);
    push_marked(
        &mut text,
        b' ',
        &expected[front.saturating_sub(LINES_AROUND)..front],
    )?;
    let expected_end = expected_rest.len() - back;
    push_marked(&mut text, b'-', &expected_rest[..expected_end])?;
    let answered_end = answered_rest.len() - back;
    push_marked(&mut text, b'+', &answered_rest[..answered_end])?;
    let shown = back.min(LINES_AROUND);
    push_marked(
        &mut text,
        b' ',
        &expected_rest[expected_end..expected_end + shown],
    )?;
    Ok(text)
}

// The number of equal lines at the start of both lists.
fn common_front(expected: &[&[u8]], answered: &[&[u8]]) -> usize
    ensures one { result ≤ length expected.now }
    ensures other { result ≤ length answered.now }
{
    let most = expected.len().min(answered.len());
    for place in 0..most {
        if expected[place] != answered[place] {
            return place;
        }
    }
    most
}

// The number of equal lines at the end of both lists.
fn common_back(expected: &[&[u8]], answered: &[&[u8]]) -> usize
    ensures one { result ≤ length expected.now }
    ensures other { result ≤ length answered.now }
{
    let most = expected.len().min(answered.len());
    for count in 0..most {
        let ours = expected[expected.len() - 1 - count];
        if ours != answered[answered.len() - 1 - count] {
            return count;
        }
    }
    most
}

// Appends each line, with the mark before it and a newline after it.
fn push_marked(text: &mut Vec<u8>, mark: u8, lines: &[&[u8]]) -> Result<(), AllocError> {
    for line in lines {
        text.push(mark)?;
        text.extend_from_slice(line)?;
        text.push(b'\n')?;
    }
    Ok(())
}
