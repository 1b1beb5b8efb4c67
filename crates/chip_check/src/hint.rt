//! A line of help below the report of a fault.

use std::alloc::{AllocError, Global};
use std::fmt::Display;

/// The kind of a line of help, which decides how the line begins.
#[derive(Clone, Copy)]
pub(crate) enum HintKind {
    /// States what to write; begins with `help:`.
    Help,
    /// States what else is known about the fault; begins with `note:`.
    Note,
}

/// A line of help.
#[derive(Drop)]
pub(crate) struct Hint {
    pub(crate) kind: HintKind,
    pub(crate) sentence: Vec<u8>,
}

/// Adds a line that states what to write. The sentence is given in parts.
pub(crate) fn push_help(
    alloc: Global,
    hints: &mut Vec<Hint>,
    parts: &[&[u8]],
) -> Result<(), AllocError> {
    push(alloc, hints, HintKind::Help, parts)
}

/// Adds a line that states what else is known. The sentence is given in parts.
pub(crate) fn push_note(
    alloc: Global,
    hints: &mut Vec<Hint>,
    parts: &[&[u8]],
) -> Result<(), AllocError> {
    push(alloc, hints, HintKind::Note, parts)
}

fn push(
    alloc: Global,
    hints: &mut Vec<Hint>,
    kind: HintKind,
    parts: &[&[u8]],
) -> Result<(), AllocError> {
    let sentence = parts.concat(alloc)?;
    hints.push(Hint { kind, sentence })?;
    Ok(())
}

/// Adds a line that states what to write, if there is a sentence.
pub(crate) fn push_sentence(
    alloc: Global,
    hints: &mut Vec<Hint>,
    sentence: Option<&str>,
) -> Result<(), AllocError> {
    match sentence {
        Some(sentence) => push_help(alloc, hints, &[sentence.as_bytes()]),
        None => Ok(()),
    }
}

/// Adds a line that states what to write. The sentence is a formatted value.
pub(crate) fn push_formatted<S: Display + Drop>(
    alloc: Global,
    hints: &mut Vec<Hint>,
    sentence: S,
) -> Result<(), AllocError> {
    let sentence = format!(in alloc; "{sentence}")?;
    push_help(alloc, hints, &[sentence.as_bytes()])
}
