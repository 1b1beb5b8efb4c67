//! Edits of the lines of a source, and their effect on lists that have an item for each line.
ghost use Rattle.std.specs.Prelude.{◌≡◌, ◌+◌, ◌<◌, ◌≤◌, slice_set, vec_len, vec_capacity};
ghost use Rattle.chip_asm.specs.inner.Records.{IsPlaceWithin, count_after, items_after, lines_after, first_changed};

use crate::kept_line::BoxedLine;
use crate::limits::MOST_LINES;

/// A change of one line, or the opening of a source. Places count from 0.
#[derive(Drop)]
pub(crate) enum LineEdit {
    /// Inserts the line before the line at the place.
    Insert(usize, BoxedLine),
    /// Replaces the line at the place by this line.
    Replace(usize, BoxedLine),
    /// Removes the line at the place.
    Delete(usize),
    /// Adds these lines to a source without lines.
    Open(Vec<BoxedLine>),
}

/// The number of lines after the edit.
pub(crate) fn count_after(count: usize, edit: &LineEdit) -> usize
    requires { count ≤ MOST_LINES }
    ensures { result ≡ count_after count edit.now }
{
    match edit {
        LineEdit::Insert(_, _) => count + 1,
        LineEdit::Delete(_) => count.saturating_sub(1),
        LineEdit::Replace(_, _) => count,
        LineEdit::Open(all) => all.len(),
    }
}

/// The place of the first line that the edit changes; the lines before it stay the same.
pub(crate) fn first_changed(edit: &LineEdit) -> usize
    ensures { result ≡ first_changed edit.now }
{
    match edit {
        LineEdit::Insert(at, _) | LineEdit::Replace(at, _) | LineEdit::Delete(at) => *at,
        LineEdit::Open(_) => 0,
    }
}

/// Makes the edit in a list that has one item for each line and room for the edit. `new` is the
/// item for each new line.
pub(crate) fn edit_items<T: Copy>(items: &mut Vec<T>, edit: &LineEdit, new: T)
    requires within { IsPlaceWithin (vec_len items.old) edit.now }
    requires room { vec_len items.old + count_after (vec_len items.old) edit.now
        ≤ vec_capacity items.old }
    ensures { items.new.items ≡ items_after items.old.items edit.now new }
{
    match edit {
        LineEdit::Insert(at, _) => {
            let _ = items.push(new);
            items[*at..].rotate_right(1);
        }
        LineEdit::Replace(at, _) => items[*at] = new,
        LineEdit::Delete(at) => {
            let _ = items.remove(*at);
        }
        LineEdit::Open(all) => {
            let _ = items.resize(all.len(), new);
        }
    }
}

/// Makes the edit in a list of lines, which has room for one more line.
pub(crate) fn make_edit(lines: &mut Vec<BoxedLine>, edit: LineEdit)
    requires within { IsPlaceWithin (vec_len lines.old) edit }
    requires room { vec_len lines.old < vec_capacity lines.old }
    ensures { lines.new.items ≡ lines_after lines.old.items edit }
{
    match edit {
        LineEdit::Insert(at, added) => {
            let _ = lines.push(added);
            lines[at..].rotate_right(1);
        }
        LineEdit::Replace(at, added) => replace_line(lines, at, added),
        LineEdit::Delete(at) => {
            let _ = lines.remove(at);
        }
        LineEdit::Open(all) => *lines = all,
    }
}

/// Replaces the line at an index by another one.
pub(crate) fn replace_line(lines: &mut Vec<BoxedLine>, at: usize, added: BoxedLine)
    requires { at < vec_len lines.old }
    ensures { lines.new.items ≡ slice_set lines.old.items at added }
{
    lines[at] = added;
}
