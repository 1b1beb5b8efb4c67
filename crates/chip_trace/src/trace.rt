//! The lines of a trace, which are computed one at a time.

ghost use Rattle.std.specs.Prelude.{◌≡◌, ◌<◌, ◌≤◌, ◌++◌, ◌↔◌, ℕ, false, max, IfOk, OnErr, OnOk, Err};
ghost use Rattle.chip_machine.specs.State.{State};
ghost use Rattle.chip_trace.specs.Form.{row_of};
ghost use Rattle.chip_trace.specs.Lines.{states_of, remaining, trace_lines, SameRun, TakesLine, TakesLines, IsLineAt};

use crate::columns::Columns;
use crate::form::Form;
use crate::json::push_object;
use crate::line::{Workspace, push_line};
use chip_machine::Machine;
use chip_replay::{AtError, LAST_STEP, Replay};
use std::alloc::{AllocError, Global};
use std::marker::Model;

/// A trace whose next line is that of the step `next`.
#[derive(Drop)]
pub struct Trace<'a> {
    columns: &'a Columns,
    form: Form,
    next: u32,
    to: u32,
    is_done: bool,
    workspace: Workspace,
}

impl<'a> Model for Trace<'a> {
    ghost use Rattle.chip_trace.specs.Lines.{Progress};
    ghost use Rattle.chip_trace.specs.inner.Codes.{progress_code};

    ghost Value = { Progress };

    ghost coded = { progress_code };

    ghost view = { λ t. record {
      columns = t.columns.now;
      form = t.form;
      next = t.next;
      to = t.to;
      is_done = t.is_done;
    } };
}

impl<'a> Trace<'a> {
    /// The trace of a run from the step `from` to the step `to`, or to the step at which the machine has
    /// stopped, if that comes first. Each later call takes the replay of the run.
    pub fn new(alloc: Global, columns: &'a Columns, form: Form, from: u32, to: u32) -> Trace<'a>
        ensures value { result ≡ record {
          columns = columns.now;
          form = form;
          next = from;
          to = to;
          is_done = false;
        } }
        ensures lines { (state : ℕ → State)
            → remaining state result ≡ trace_lines form columns.now state from to }
    {
        Trace {
            columns,
            form,
            next: from,
            to,
            is_done: false,
            workspace: Workspace::new(alloc),
        }
    }

    /// Adds the next line, without a newline, and returns whether there was a next line.
    ///
    /// # Errors
    ///
    /// The next step is above the last step that a replay can reach, or memory ran out. If memory ran out,
    /// part of the line may have been added. The remaining lines don't change.
    pub fn next_line(
        &mut self,
        replay: &mut Replay<Machine>,
        text: &mut Vec<u8>,
    ) -> Result<bool, AtError>
        ensures line { IfOk result (λ answer. TakesLine (remaining (states_of replay.old) self.old)
            answer text.old.items text.new.items (remaining (states_of replay.old) self.new)) }
        ensures step_too_large { (result ≡ Err AtError.StepTooLarge)
            ↔ ((self.old.is_done ≡ false) × (LAST_STEP < self.old.next)) }
        ensures run { SameRun replay.old replay.new }
        ensures err { OnErr result (self.new ≡ self.old) }
        ensures to { self.new.to ≡ self.old.to }
        ensures next { self.new.next ≤ max self.old.next self.old.to }
    {
        if self.is_done {
            return Ok(false);
        }
        let machine = replay.at(self.next)?;
        let is_last = self.next >= self.to || machine.stopped().is_some();
        let (workspace, step) = (&mut self.workspace, self.next);
        match push_row(
            text,
            workspace,
            self.form,
            self.columns,
            machine,
            step,
            is_last,
        ) {
            Ok(()) => {}
            Err(_) => return Err(AtError::OutOfMemory),
        }
        self.is_done = is_last;
        if !is_last {
            self.next += 1;
        }
        Ok(true)
    }

    /// Adds up to `most` of the next lines, each with a newline, and returns whether more lines remain.
    ///
    /// # Errors
    ///
    /// The errors of `next_line`. The lines before the failed line may have been added.
    #[tactic(auto, using(crate::proofs::Comparing::same_runs))]
    pub fn push_lines(
        &mut self,
        replay: &mut Replay<Machine>,
        text: &mut Vec<u8>,
        most: usize,
    ) -> Result<bool, AtError>
        ensures lines { IfOk result (TakesLines (states_of replay.old) most self.old self.new
            text.old.items text.new.items) }
        ensures step_too_large { result ≡ Err AtError.StepTooLarge
            → LAST_STEP < max self.old.next self.old.to }
        ensures run { SameRun replay.old replay.new }
    {
        for _made in 0..most {
            let has_line = self.next_line(replay, text)?;
            if !has_line {
                return Ok(false);
            }
            if text.push(b'\n').is_err() {
                return Err(AtError::OutOfMemory);
            }
        }
        Ok(!self.is_done)
    }
}

/// Adds the line of a step in a form, without a newline. The line shows the state before the step.
#[tactic(auto, unfolding(crate::specs::Form::row_of))]
fn push_row(
    text: &mut Vec<u8>,
    workspace: &mut Workspace,
    form: Form,
    columns: &Columns,
    machine: &Machine,
    step: u32,
    is_last: bool,
) -> Result<(), AllocError>
    ensures { OnOk result (text.new.items
        ≡ text.old.items ++ row_of form columns.now step machine.now is_last) }
{
    match form {
        Form::Fields => push_line(text, workspace, columns, machine, step, is_last),
        Form::Json => push_object(text, workspace, columns, machine, step, is_last),
    }
}
