//! The comparison of an answer with the expected lines.

ghost use Rattle.std.specs.Prelude.{◌≡◌, ℕ, ◌+◌, ◌&&◌, List, [], ◌∷◌, ◌↔◌, IsTrue, IfOk, length, vec_len};
ghost use Rattle.std.specs.Str.{bytes_eq};
ghost use Rattle.chip_cases.specs.Matching.{IsAnswered, Matches, any_lines, lines_that_count, texts};
ghost use Rattle.chip_cases.specs.inner.Rows.{IsRow, stands_for};

use crate::place::Place;
use std::alloc::{AllocError, Global};

// The expected line that matches any lines.
const ANY_LINES: &[u8] = b"...";

/// Whether an answer matches the expected lines. An expected line `...` matches any number of
/// lines, and empty lines of the answer are ignored.
///
/// # Errors
///
/// Out of memory.
pub fn is_answered(alloc: Global, expected: &[&[u8]], answer: &[u8]) -> Result<bool, AllocError>
    ensures { IfOk result (λ is_answered.
        IsTrue is_answered ↔ IsAnswered (texts expected.now) answer.now) }
{
    let answered = lines_that_count(alloc, answer)?;
    is_match(alloc, expected, &answered)
}

/// Whether an answer is a refusal, `no CODE`. The only other answer that can begin with `no ` is the
/// answer to `syms`, which ends with the line `.`.
pub fn is_refusal(answer: &[u8]) -> bool {
    answer.starts_with(b"no ") && !answer.ends_with(b".\n")
}

/// Returns the lines of an answer, without empty lines.
pub(crate) fn lines_that_count<'a>(
    alloc: Global,
    answer: &'a [u8],
) -> Result<Vec<&'a [u8]>, AllocError>
    ensures { IfOk result (λ counted. texts counted.items ≡ lines_that_count answer.entry.now) }
{
    let mut counted = Vec::new(alloc);
    let mut place = Place::start(answer);
    while !place.rest.is_empty() {
        let (line, next) = place.next_line();
        if !line.is_empty() {
            counted.push(line)?;
        }
        place = next;
    }
    Ok(counted)
}

// Whether the answered lines match the expected ones. Bit N of `row` is whether the last N answered lines match
// the expected lines from some line on. The loop goes through the expected lines from the last to the first.
fn is_match(alloc: Global, expected: &[&[u8]], answered: &[&[u8]]) -> Result<bool, AllocError>
    ensures { IfOk result (λ is_match.
        IsTrue is_match ↔ Matches (texts expected.now) (texts answered.now)) }
{
    let mut row = last_row(alloc, answered)?;
    let mut left = expected.len();
    while left > 0 {
        left -= 1;
        row = row_before(alloc, expected[left], answered, &row)?;
    }
    let bits = row.as_slice();
    Ok(bits[answered.len()])
}

// Returns the row for the position after all expected lines, where only the empty suffix of the answer matches.
fn last_row(alloc: Global, answered: &[&[u8]]) -> Result<Vec<bool>, AllocError>
    ensures row { IfOk result (λ row. IsRow [] (texts answered.now) row.items) }
    ensures whole { IfOk result (λ row. vec_len row ≡ length answered.now + 1) }
{
    let mut row = Vec::new(alloc);
    row.push(true)?;
    for _ in answered {
        row.push(false)?;
    }
    Ok(row)
}

// Returns the row for the expected lines from `line` on. `behind` is the row for the expected lines after `line`.
fn row_before(
    alloc: Global,
    line: &[u8],
    answered: &[&[u8]],
    behind: &[bool],
) -> Result<Vec<bool>, AllocError>
    requires { length behind.now ≡ length answered.now + 1 }
    ensures row { IfOk result (λ row. (others : List (List ℕ))
        → IsRow others (texts answered.now) behind.now
        → IsRow (line.now ∷ others) (texts answered.now) row.items) }
    ensures whole { IfOk result (λ row. vec_len row ≡ length answered.now + 1) }
{
    let mut is_here = is_nothing_expected(line, behind[0]);
    let mut row = Vec::new(alloc);
    row.push(is_here)?;
    for count in 1..behind.len() {
        let first = answered[answered.len() - count];
        is_here = stands_for(line, first, is_here, behind[count], behind[count - 1]);
        row.push(is_here)?;
    }
    Ok(row)
}

// Whether the empty suffix of the answer matches the expected lines from `line` on. `is_behind` is
// whether that suffix matches the expected lines after `line`.
fn is_nothing_expected(line: &[u8], is_behind: bool) -> bool
    ensures { result ≡ (bytes_eq line.now any_lines && is_behind) }
{
    line == ANY_LINES && is_behind
}

// Whether a suffix of the answered lines that begins with `first` matches the expected lines from
// `line` on. `is_later` is whether the suffix without `first` does. `is_behind` and `is_next` are whether
// the suffix with `first` and the suffix without `first` match the expected lines after `line`.
fn stands_for(line: &[u8], first: &[u8], is_later: bool, is_behind: bool, is_next: bool) -> bool
    ensures { result ≡ stands_for line.now first.now is_later is_behind is_next }
{
    if line == ANY_LINES {
        is_later || is_behind
    } else {
        first == line && is_next
    }
}
