//! Replaces the expected answers in a file of cases.

use crate::line::{begins_part, is_command, is_skipped};
use crate::place::Place;
use std::alloc::{AllocError, Global};

/// The actual answer to a command.
#[derive(Drop)]
pub struct Given {
    /// The number of the command's line, counted from 1.
    pub line: usize,
    /// Whether the command was refused.
    pub is_refused: bool,
    pub answer: Vec<u8>,
}

/// Returns the text of a file of cases with these answers instead of the expected ones. The answers
/// are in the order of their commands. In the new text, each command has the mark that fits its
/// answer: `!` for a refusal, and `>` for any other answer. Comments and all other lines stay, in the
/// same order.
///
/// # Errors
///
/// Out of memory.
pub fn updated_text(alloc: Global, text: &[u8], given: &[Given]) -> Result<Vec<u8>, AllocError> {
    let mut updated = Vec::with_capacity(alloc, text.len())?;
    let mut left = given;
    let mut is_replaced = false;
    let mut place = Place::start(text);
    while !place.rest.is_empty() {
        let (line, next) = place.next_line();
        let whole = &place.rest[..place.rest.len() - next.rest.len()];
        place = next;
        if let [answered, others @ ..] = left
            && answered.line == next.number
        {
            push_answered(&mut updated, whole, answered)?;
            is_replaced = true;
            left = others;
            continue;
        }
        if begins_part(line) {
            is_replaced = false;
        }
        if is_command(line) {
            push_marked(&mut updated, whole, expects_refusal(next))?;
            continue;
        }
        if !is_replaced || is_skipped(line) {
            updated.extend_from_slice(whole)?;
        }
    }
    Ok(updated)
}

// Whether exactly one line is expected below a command, and that line is a refusal.
fn expects_refusal(below: Place<'_>) -> bool {
    let mut count = 0;
    let mut is_refusal = false;
    let mut place = below;
    while !place.rest.is_empty() {
        let (line, next) = place.next_line();
        if begins_part(line) {
            break;
        }
        if !is_skipped(line) {
            is_refusal = count == 0 && line.starts_with(b"no ");
            count = 1;
        }
        place = next;
    }
    is_refusal
}

// Appends the line of a command, with the mark `!` if its answer is a refusal and `>` otherwise.
fn push_marked(updated: &mut Vec<u8>, whole: &[u8], is_refused: bool) -> Result<(), AllocError> {
    updated.push(if is_refused { b'!' } else { b'>' })?;
    if let [_, rest @ ..] = whole {
        updated.extend_from_slice(rest)?;
    }
    Ok(())
}

// Appends the line of a command with the mark that fits its answer, and the answer without empty lines.
fn push_answered(updated: &mut Vec<u8>, whole: &[u8], given: &Given) -> Result<(), AllocError> {
    push_marked(updated, whole, given.is_refused)?;
    push_newline(updated)?;
    let mut place = Place::start(&given.answer);
    while !place.rest.is_empty() {
        let (line, next) = place.next_line();
        if !line.is_empty() {
            updated.extend_from_slice(line)?;
            updated.push(b'\n')?;
        }
        place = next;
    }
    Ok(())
}

// Appends a newline if the text doesn't end with one.
fn push_newline(updated: &mut Vec<u8>) -> Result<(), AllocError> {
    match updated.last() {
        Some(b'\n') => {}
        _ => updated.push(b'\n')?,
    }
    Ok(())
}
