//! The line of a step, as a JSON object.

ghost use Rattle.std.specs.Prelude.{◌≡◌, ◌++◌, ◌∷◌, [], Bool, OnOk, map, slice_index};
ghost use Rattle.std.specs.List.{flat_map, join_with_byte, range_with_len};
ghost use Rattle.chip_trace.specs.Json.{json_line_of, json_member, json_value};
ghost use Rattle.chip_trace.specs.inner.Usual.{first_columns, register_member};

use crate::column::Column;
use crate::columns::Columns;
use crate::digits::{hex_digit, push_decimal, push_small};
use crate::line::{Workspace, push_field, word_of};
use chip_machine::Machine;
use std::alloc::AllocError;

/// A capacity that is enough for most objects.
const OBJECT_ROOM: usize = 400;

/// Adds the line of a step as a JSON object, without a newline. The line shows the state before the step.
///
/// # Errors
///
/// Out of memory.
#[tactic(auto, unfolding(crate::specs::Json::json_line_of))]
pub(crate) fn push_object(
    text: &mut Vec<u8>,
    workspace: &mut Workspace,
    columns: &Columns,
    machine: &Machine,
    step: u32,
    is_last: bool,
) -> Result<(), AllocError>
    ensures { OnOk result (text.new.items
        ≡ text.old.items ++ json_line_of columns.now step machine.now is_last) }
{
    text.reserve(OBJECT_ROOM)?;
    if let Some(others) = columns.after_usual() {
        push_first_members(text, machine, step)?;
        return push_others(text, workspace, others, machine, step, is_last);
    }
    let Some((first, others)) = columns.as_slice().split_first() else {
        return text.extend_from_slice(b"{}");
    };
    push_member(text, b'{', workspace, first, machine, step, is_last)?;
    push_others(text, workspace, others, machine, step, is_last)
}

/// Adds a comma and a member for each of the given columns, and then the end of the object.
fn push_others(
    text: &mut Vec<u8>,
    workspace: &mut Workspace,
    columns: &[Column],
    machine: &Machine,
    step: u32,
    is_last: bool,
) -> Result<(), AllocError>
    ensures { OnOk result (text.new.items ≡ text.old.items
        ++ flat_map (λ column. 44 ∷ json_member column step machine.now is_last) columns.now
        ++ 125 ∷ []) }
{
    for column in columns {
        push_member(text, b',', workspace, column, machine, step, is_last)?;
    }
    text.push(b'}')?;
    Ok(())
}

/// Adds a byte and a member: a column's name in quotes, a colon, and the column's value.
fn push_member(
    text: &mut Vec<u8>,
    before: u8,
    workspace: &mut Workspace,
    column: &Column,
    machine: &Machine,
    step: u32,
    is_last: bool,
) -> Result<(), AllocError>
    ensures { OnOk result (text.new.items
        ≡ text.old.items ++ before ∷ json_member column.now step machine.now is_last) }
{
    text.extend_from_slice(&[before, b'"'])?;
    text.extend_from_slice(column.name())?;
    text.extend_from_slice(b"\":")?;
    push_value(text, workspace, *column, machine, step, is_last)
}

/// Adds the start of an object, with the first members of a usual trace.
fn push_first_members(text: &mut Vec<u8>, machine: &Machine, step: u32) -> Result<(), AllocError>
    ensures { (is_last : Bool) → OnOk result (text.new.items ≡ text.old.items ++ 123 ∷
        join_with_byte 44
        (map (λ column. json_member column step machine.now is_last) first_columns)) }
{
    text.extend_from_slice(b"{\"step\":")?;
    push_decimal(text, u64::from(step))?;
    text.extend_from_slice(b",\"pc\":")?;
    push_decimal(text, u64::from(machine.pc()))?;
    text.extend_from_slice(b",\"word\":")?;
    push_decimal(text, u64::from(word_of(machine)))?;
    push_register_members(text, machine)?;
    text.extend_from_slice(b",\"i\":")?;
    push_decimal(text, u64::from(machine.index()))?;
    text.extend_from_slice(b",\"dt\":")?;
    push_small(text, machine.delay())?;
    text.extend_from_slice(b",\"st\":")?;
    push_small(text, machine.sound())?;
    text.extend_from_slice(b",\"depth\":")?;
    push_decimal(text, machine.depth() as u64)?;
    text.extend_from_slice(b",\"draws\":")?;
    push_decimal(text, machine.draws())?;
    Ok(())
}

/// Adds the members of V0 to VF, with a comma before each member.
fn push_register_members(text: &mut Vec<u8>, machine: &Machine) -> Result<(), AllocError>
    ensures { OnOk result (text.new.items ≡ text.old.items
        ++ flat_map (λ x. register_member x (slice_index machine.now.core.registers x))
        (range_with_len 0 16)) }
{
    let registers = machine.registers();
    for place in 0..16 {
        let digit = hex_digit(place as u8);
        text.extend_from_slice(&[b',', b'"', b'v', digit, b'"', b':'])?;
        push_small(text, registers[place])?;
    }
    Ok(())
}

/// Adds the value of a column.
fn push_value(
    text: &mut Vec<u8>,
    workspace: &mut Workspace,
    column: Column,
    machine: &Machine,
    step: u32,
    is_last: bool,
) -> Result<(), AllocError>
    ensures { OnOk result (text.new.items
        ≡ text.old.items ++ json_value column step machine.now is_last) }
{
    match &column {
        Column::Step => push_decimal(text, u64::from(step)),
        Column::Pc => push_decimal(text, u64::from(machine.pc())),
        Column::Word => push_decimal(text, u64::from(word_of(machine))),
        Column::Register(register) => push_small(text, machine.reg(*register)),
        Column::Index => push_decimal(text, u64::from(machine.index())),
        Column::Delay => push_small(text, machine.delay()),
        Column::Sound => push_small(text, machine.sound()),
        Column::Depth => push_decimal(text, machine.depth() as u64),
        Column::Draws => push_decimal(text, machine.draws()),
        Column::Screen | Column::Memory | Column::Text => {
            text.push(b'"')?;
            push_field(text, workspace, column, machine, step, is_last)?;
            text.push(b'"')?;
            Ok(())
        }
    }
}
