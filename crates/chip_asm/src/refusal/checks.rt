//! The first reason to refuse an edit.
ghost use Rattle.std.specs.Prelude.{◌≡◌};
ghost use Rattle.chip_asm.specs.Edits.{has_line_break, insert_refusal, replace_refusal, delete_refusal};

use crate::limits::{LINE_BYTES, MOST_LINES};
use crate::refusal::Refusal;

fn has_line_break(text: &[u8]) -> bool
    ensures { result ≡ has_line_break text.now }
{
    text.iter().any(|byte| *byte == b'\n' || *byte == b'\r')
}

/// The reason why a text can't be inserted before the line with this number, if there are `count`
/// lines; none if the text can be inserted.
pub(crate) fn insert_refusal(count: usize, number: usize, text: &[u8]) -> Option<Refusal>
    ensures { result ≡ insert_refusal count number text.now }
{
    if number == 0 || number - 1 > count {
        return Some(Refusal::NoSuchLine);
    }
    if text.len() > LINE_BYTES {
        return Some(Refusal::TextTooLong);
    }
    if count >= MOST_LINES {
        return Some(Refusal::TooManyLines);
    }
    if has_line_break(text) {
        return Some(Refusal::LineBreak);
    }
    None
}

/// The reason why a text can't replace the line with this number, if there are `count` lines; none
/// if the text can replace it.
pub(crate) fn replace_refusal(count: usize, number: usize, text: &[u8]) -> Option<Refusal>
    ensures { result ≡ replace_refusal count number text.now }
{
    if number == 0 || number > count {
        return Some(Refusal::NoSuchLine);
    }
    if text.len() > LINE_BYTES {
        return Some(Refusal::TextTooLong);
    }
    if has_line_break(text) {
        return Some(Refusal::LineBreak);
    }
    None
}

/// The reason why the line with this number can't be removed, if there are `count` lines; none if
/// the line can be removed.
pub(crate) fn delete_refusal(count: usize, number: usize) -> Option<Refusal>
    ensures { result ≡ delete_refusal count number }
{
    if number == 0 || number > count {
        return Some(Refusal::NoSuchLine);
    }
    None
}
