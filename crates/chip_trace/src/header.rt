//! Reading the line that names a trace's columns.

ghost use Rattle.std.specs.Prelude.{◌≡◌, ◌<◌, ◌≤◌, ◌∷◌, ◌⊎◌, ◌-◌, Some, None, IfOk, IfErr, length, take};
ghost use Rattle.std.specs.List.{find, list_any, position_or_len, slice_split};
ghost use Rattle.std.specs.Str.{str_to_ascii_lowercase};
ghost use Rattle.chip_trace.specs.Columns.{header_line, register_columns};
ghost use Rattle.chip_trace.specs.Header.{is_named, column_of, is_space, header_fault, is_text, other_columns};
ghost use Rattle.chip_trace.specs.inner.Naming.{names_left, bytes_left};

use crate::column::Column;
use chip_lang::Reg;
use std::alloc::Global;
use thiserror::Error;

/// The reason why a line doesn't name the columns of a trace.
#[derive(Clone, Copy, Debug, PartialEq, Eq, Error)]
pub enum HeaderError {
    /// The line is missing, or doesn't start with a `#` and a space.
    #[error("its first line has to name its columns, as `# step pc v0 text` does")]
    NotAHeader,
    /// The name at this position, counted from 1, isn't the name of a column.
    #[error("column {0} has an unknown name; expected step, pc, word, v0 to vf, i, dt, st, depth, draws, screen, memory or text")]
    UnknownColumn(usize),
    /// Another column follows `text`.
    #[error("the column `text` has to be the last one")]
    TextNotLast,
    /// Memory ran out.
    #[error("out of memory")]
    OutOfMemory,
}

/// The columns that aren't register columns.
const OTHERS: [Column; 11] = [
    Column::Step,
    Column::Pc,
    Column::Word,
    Column::Index,
    Column::Delay,
    Column::Sound,
    Column::Depth,
    Column::Draws,
    Column::Screen,
    Column::Memory,
    Column::Text,
];

/// The columns that a line names, in order.
pub(crate) fn read_header(alloc: Global, line: &[u8]) -> Result<Vec<Column>, HeaderError>
    ensures named { IfOk result (λ columns.
        header_line columns.items ≡ str_to_ascii_lowercase line.now) }
    ensures no_fault { IfOk result (λ _. header_fault line.now ≡ None) }
    ensures fault { IfErr result (λ why.
        (why ≡ HeaderError.OutOfMemory) ⊎ (header_fault line.now ≡ Some why)) }
{
    let is_header = line.starts_with(b"# ");
    if !is_header {
        return Err(HeaderError::NotAHeader);
    }
    let mut columns = Vec::new(alloc);
    let mut left = Some(&line[2..]);
    while let Some(names) = left {
        let (name, others) = first_name(names);
        let Some(column) = column_of(name) else {
            return Err(HeaderError::UnknownColumn(columns.len() + 1));
        };
        if columns.push(column).is_err() {
            return Err(HeaderError::OutOfMemory);
        }
        left = others;
    }
    if has_early_text(&columns) {
        return Err(HeaderError::TextNotLast);
    }
    Ok(columns)
}

/// Whether `Text` comes before the last column.
fn has_early_text(columns: &[Column]) -> bool
    ensures { result ≡ list_any (λ column. is_text (Some column))
        (take (length columns.now - 1) columns.now) }
{
    let early = columns.len().saturating_sub(1);
    columns[..early].iter().any(|column| is_text(*column))
}

fn is_text(column: Column) -> bool
    ensures { result ≡ is_text (Some column) }
{
    matches!(column, Column::Text)
}

/// The first of several names, and the names after the next space if there is a space.
fn first_name(names: &[u8]) -> (&[u8], Option<&[u8]>)
    ensures names { slice_split is_space names.now ≡ result.0.now ∷ names_left result.1 }
    ensures shorter { bytes_left result.1 ≤ length names.now }
{
    let end = name_length(names);
    if end < names.len() {
        (&names[..end], Some(&names[end + 1..]))
    } else {
        (names, None)
    }
}

/// The number of bytes before the first space, or the length if there is no space.
fn name_length(names: &[u8]) -> usize
    ensures value { result ≡ position_or_len is_space names.now }
    ensures within { result ≤ length names.now }
{
    for (place, byte) in names.iter().enumerate() {
        if *byte == b' ' {
            return place;
        }
    }
    names.len()
}

/// The column with a name, ignoring the case of letters.
fn column_of(name: &[u8]) -> Option<Column>
    ensures { result ≡ column_of name.now }
{
    match other_of(name) {
        Some(column) => Some(column),
        None => register_of(name),
    }
}

/// The column with a name, if it isn't a register column; ignores the case of letters.
fn other_of(name: &[u8]) -> Option<Column>
    ensures { result ≡ find (is_named name.now) other_columns }
{
    OTHERS.iter().copied().find(|column| column.is_named(name))
}

/// The register column with a name, ignoring the case of letters.
fn register_of(name: &[u8]) -> Option<Column>
    ensures { result ≡ find (is_named name.now) register_columns }
{
    for number in 0..16 {
        let column = Column::Register(Reg::new(number)?);
        if column.is_named(name) {
            return Some(column);
        }
    }
    None
}
