//! The line of a step, as fields.

ghost use Rattle.std.specs.Prelude.{◌≡◌, ◌++◌, ◌∷◌, Bool, OnOk, replicate};
ghost use Rattle.std.specs.List.{flat_map};
ghost use Rattle.chip_trace.specs.Line.{word_of, stop_name, text_of, field_of, line_of};
ghost use Rattle.chip_trace.specs.inner.Usual.{first_columns, fixed_fields};

use crate::column::Column;
use crate::columns::Columns;
use crate::digits::{
    push_byte, push_decimal, push_sum, push_word, word_digits, write_spaced_bytes,
};
use crate::sums::{Summed, SummedRows};
use chip_lang::push_shown;
use chip_machine::{Machine, Stop};
use std::alloc::{AllocError, Global};

/// A capacity that is enough for most lines.
const LINE_ROOM: usize = 160;

/// The length of the fields from pc to the sound timer, including the spaces around them. The length is
/// the same in every line.
const FIXED_LEN: usize = 70;

/// The screen and the memory that were summed last, with their sums, so that a sum is recomputed only
/// after a change. These contents don't affect the lines.
#[derive(Drop)]
pub(crate) struct Workspace {
    screen: SummedRows,
    memory: Summed,
}

impl Workspace {
    pub(crate) fn new(alloc: Global) -> Self {
        Workspace {
            screen: SummedRows::new(),
            memory: Summed::new(alloc),
        }
    }
}

/// Adds the line of a step as fields, without a newline. The line shows the state before the step.
///
/// # Errors
///
/// Out of memory.
#[tactic(auto, unfolding(crate::specs::Line::line_of))]
pub(crate) fn push_line(
    text: &mut Vec<u8>,
    workspace: &mut Workspace,
    columns: &Columns,
    machine: &Machine,
    step: u32,
    is_last: bool,
) -> Result<(), AllocError>
    ensures { OnOk result (text.new.items
        ≡ text.old.items ++ line_of columns.now step machine.now is_last) }
{
    text.reserve(LINE_ROOM)?;
    if let Some(others) = columns.after_usual() {
        push_first_fields(text, machine, step)?;
        return push_others(text, workspace, others, machine, step, is_last);
    }
    let Some((first, others)) = columns.as_slice().split_first() else {
        return Ok(());
    };
    push_field(text, workspace, *first, machine, step, is_last)?;
    push_others(text, workspace, others, machine, step, is_last)
}

/// Adds a space and a field for each of the given columns.
fn push_others(
    text: &mut Vec<u8>,
    workspace: &mut Workspace,
    columns: &[Column],
    machine: &Machine,
    step: u32,
    is_last: bool,
) -> Result<(), AllocError>
    ensures { OnOk result (text.new.items ≡ text.old.items
        ++ flat_map (λ column. 32 ∷ field_of column step machine.now is_last) columns.now) }
{
    for column in columns {
        text.push(b' ')?;
        push_field(text, workspace, *column, machine, step, is_last)?;
    }
    Ok(())
}

/// Adds the first fields of a usual trace.
fn push_first_fields(text: &mut Vec<u8>, machine: &Machine, step: u32) -> Result<(), AllocError>
    ensures { (is_last : Bool) → OnOk result (text.new.items
        ≡ text.old.items ++ line_of first_columns step machine.now is_last) }
{
    push_decimal(text, u64::from(step))?;
    push_fixed_fields(text, machine)?;
    push_decimal(text, machine.depth() as u64)?;
    text.push(b' ')?;
    push_decimal(text, machine.draws())?;
    Ok(())
}

/// Adds the fields from pc to the sound timer, with spaces around them. Writes the fields in place,
/// because copying bytes that were just written elsewhere is slow.
fn push_fixed_fields(text: &mut Vec<u8>, machine: &Machine) -> Result<(), AllocError>
    ensures { OnOk result (text.new.items ≡ text.old.items ++ fixed_fields machine.now) }
{
    let start = text.len();
    text.extend_from_slice(&[b' '; FIXED_LEN])?;
    write_fixed_fields(machine, &mut text[start..]);
    Ok(())
}

/// Overwrites spaces with the fields from pc to the sound timer, and leaves a space on each side of a field.
#[inline(always)]
fn write_fixed_fields(machine: &Machine, fields: &mut [u8])
    requires { fields.old ≡ replicate FIXED_LEN 32 }
    ensures { fields.new ≡ fixed_fields machine.now }
{
    fields[1..5].copy_from_slice(&word_digits(machine.pc()));
    fields[6..10].copy_from_slice(&word_digits(word_of(machine)));
    write_spaced_bytes(machine.registers(), &mut fields[10..58]);
    fields[59..63].copy_from_slice(&word_digits(machine.index()));
    write_spaced_bytes(&[machine.delay(), machine.sound()], &mut fields[63..69]);
}

/// Adds the field of a column.
pub(crate) fn push_field(
    text: &mut Vec<u8>,
    workspace: &mut Workspace,
    column: Column,
    machine: &Machine,
    step: u32,
    is_last: bool,
) -> Result<(), AllocError>
    ensures { OnOk result (text.new.items
        ≡ text.old.items ++ field_of column step machine.now is_last) }
{
    match column {
        Column::Step => push_decimal(text, u64::from(step)),
        Column::Pc => push_word(text, machine.pc()),
        Column::Word => push_word(text, word_of(machine)),
        Column::Register(register) => push_byte(text, machine.reg(register)),
        Column::Index => push_word(text, machine.index()),
        Column::Delay => push_byte(text, machine.delay()),
        Column::Sound => push_byte(text, machine.sound()),
        Column::Depth => push_decimal(text, machine.depth() as u64),
        Column::Draws => push_decimal(text, machine.draws()),
        Column::Screen => push_sum(text, workspace.screen.sum_of(machine)),
        Column::Memory => {
            let sum = workspace.memory.sum_of(machine.memory())?;
            push_sum(text, sum)
        }
        Column::Text => push_text(text, machine, is_last),
    }
}

/// The word at pc. Bytes past the end of the memory count as 0.
pub(crate) fn word_of(machine: &Machine) -> u16
    ensures { result ≡ word_of machine.now }
{
    let memory = machine.memory();
    let at = usize::from(machine.pc());
    let high = memory.get(at).copied().unwrap_or(0);
    let low = memory.get(at + 1).copied().unwrap_or(0);
    u16::from(high) * 256 + u16::from(low)
}

/// Adds the instruction or, in the last line, why the machine stopped.
fn push_text(text: &mut Vec<u8>, machine: &Machine, is_last: bool) -> Result<(), AllocError>
    ensures { OnOk result (text.new.items ≡ text.old.items ++ text_of machine.now is_last) }
{
    if is_last {
        return push_stop_name(text, machine.stopped());
    }
    push_shown(text, word_of(machine))
}

/// Adds why a machine stopped, as `S` and a number, or `run` if it hasn't stopped.
fn push_stop_name(text: &mut Vec<u8>, stopped: Option<Stop>) -> Result<(), AllocError>
    ensures { OnOk result (text.new.items ≡ text.old.items ++ stop_name stopped) }
{
    match stopped {
        None => text.extend_from_slice(b"run"),
        Some(stop) => {
            text.push(b'S')?;
            push_decimal(text, u64::from(stop.number()))
        }
    }
}
