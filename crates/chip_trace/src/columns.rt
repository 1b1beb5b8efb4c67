//! The columns of a trace.

ghost use Rattle.std.specs.Prelude.{◌≡◌, ◌++◌, ◌⊎◌, Some, None, IfOk, IfErr, IfSome, IsTrue, OnOk};
ghost use Rattle.std.specs.Str.{str_to_ascii_lowercase};
ghost use Rattle.chip_trace.specs.Columns.{usual_columns, register_columns, header_line};
ghost use Rattle.chip_trace.specs.Form.{header_lines};
ghost use Rattle.chip_trace.specs.Header.{header_fault};
ghost use Rattle.chip_trace.specs.Lines.{newline_ended};
ghost use Rattle.chip_trace.specs.inner.Usual.{first_columns, BeginsAsUsual};

use crate::column::Column;
use crate::form::Form;
use crate::header::{HeaderError, read_header};
use crate::limits::FIRST_COLUMNS;
use crate::machine_line::push_machine;
use chip_lang::Reg;
use chip_machine::Quirks;
use std::alloc::{AllocError, Global};
use std::marker::Model;

/// The columns of a trace, in order.
#[derive(Drop)]
pub struct Columns {
    columns: Vec<Column>,
    begins_as_usual: bool,
}

impl Model for Columns {
    ghost use Rattle.std.specs.Prelude.{List, IsTrue};
    ghost use Rattle.chip_trace.specs.declared.column.Column.{Column};
    ghost use Rattle.chip_trace.specs.inner.Codes.{columns_code};
    ghost use Rattle.chip_trace.specs.inner.Usual.{BeginsAsUsual};

    ghost Value = { List Column };

    ghost coded = { columns_code };

    ghost view = { λ c. c.columns.items };

    ghost invariant = { λ c. IsTrue c.begins_as_usual → BeginsAsUsual c.columns.items };
}

impl Columns {
    /// The default columns of a trace: all columns except the two sums, which are included only if `sums` is true.
    ///
    /// # Errors
    ///
    /// Out of memory.
    pub fn usual(alloc: Global, sums: bool) -> Result<Columns, AllocError>
        ensures { IfOk result (λ columns. columns ≡ usual_columns sums) }
    {
        let mut columns = Vec::from_slice(alloc, &[Column::Step, Column::Pc, Column::Word])?;
        push_registers(&mut columns)?;
        columns.extend_from_slice(&[
            Column::Index,
            Column::Delay,
            Column::Sound,
            Column::Depth,
            Column::Draws,
        ])?;
        if sums {
            columns.extend_from_slice(&[Column::Screen, Column::Memory])?;
        }
        columns.push(Column::Text)?;
        Ok(Columns::of(columns))
    }

    /// Reads the columns that a line names: a `#`, and the names with a space before each name. Ignores the
    /// case of letters.
    ///
    /// # Errors
    ///
    /// The line doesn't start with `# `, a name isn't the name of a column, or `text` isn't the last
    /// column. If memory runs out, that error may replace another error.
    pub fn read_header(alloc: Global, line: &[u8]) -> Result<Columns, HeaderError>
        ensures named { IfOk result (λ columns.
            header_line columns ≡ str_to_ascii_lowercase line.now) }
        ensures no_fault { IfOk result (λ _. header_fault line.now ≡ None) }
        ensures fault { IfErr result (λ why.
            (why ≡ HeaderError.OutOfMemory) ⊎ (header_fault line.now ≡ Some why)) }
    {
        match read_header(alloc, line) {
            Ok(columns) => Ok(Columns::of(columns)),
            Err(why) => Err(why),
        }
    }

    /// A value that contains these columns, in order.
    fn of(columns: Vec<Column>) -> Columns
        ensures { result ≡ columns.items }
    {
        let begins_as_usual = begins_as_usual(&columns);
        Columns {
            columns,
            begins_as_usual,
        }
    }

    /// The columns after the first columns of a usual trace; `None` if the columns don't start with those.
    pub(crate) fn after_usual(&self) -> Option<&[Column]>
        ensures { IfSome result (λ others. self.now ≡ first_columns ++ others.now) }
    {
        if !self.begins_as_usual {
            return None;
        }
        self.columns.get(FIRST_COLUMNS..)
    }

    /// The columns, in order.
    pub fn as_slice(&self) -> &[Column]
        ensures { result.now ≡ self.now }
    {
        &self.columns
    }

    /// Adds the line that names the columns, without a newline.
    ///
    /// # Errors
    ///
    /// Out of memory; part of the line may have been added.
    pub fn push_header(&self, text: &mut Vec<u8>) -> Result<(), AllocError>
        ensures { OnOk result (text.new.items ≡ text.old.items ++ header_line self.now) }
    {
        text.extend_from_slice(b"# ")?;
        let Some((first, others)) = self.columns.split_first() else {
            return Ok(());
        };
        text.extend_from_slice(first.name())?;
        for column in others {
            text.push(b' ')?;
            text.extend_from_slice(column.name())?;
        }
        Ok(())
    }

    /// Adds the header lines of a trace of a machine in a form, each with a newline. The header lines come
    /// before the lines of the steps.
    ///
    /// # Errors
    ///
    /// Out of memory; some of the lines may have been added.
    pub fn push_header_lines(
        &self,
        form: Form,
        quirks: Quirks,
        text: &mut Vec<u8>,
    ) -> Result<(), AllocError>
        ensures { OnOk result (text.new.items
            ≡ text.old.items ++ newline_ended (header_lines form quirks self.now)) }
    {
        match form {
            Form::Fields => {
                push_machine(quirks, text)?;
                self.push_header(text)?;
                text.push(b'\n')?;
            }
            Form::Json => {}
        }
        Ok(())
    }
}

/// Whether the columns start with the first columns of a usual trace.
fn begins_as_usual(columns: &[Column]) -> bool
    ensures { IsTrue result → BeginsAsUsual columns.now }
{
    if columns.len() < FIRST_COLUMNS {
        return false;
    }
    for place in 0..FIRST_COLUMNS {
        if !columns[place].is_usual_at(place) {
            return false;
        }
    }
    true
}

/// Adds V0 to VF.
fn push_registers(columns: &mut Vec<Column>) -> Result<(), AllocError>
    ensures { OnOk result (columns.new.items ≡ columns.old.items ++ register_columns) }
{
    for number in 0..16 {
        if let Some(register) = Reg::new(number) {
            columns.push(Column::Register(register))?;
        }
    }
    Ok(())
}
