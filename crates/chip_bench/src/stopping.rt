//! The message about a stopped machine, which `run` and `picture` print for a user at a terminal.

use chip_analysis::line_text;
use chip_arguments::RunArguments;
use chip_host::{Shown, System};
use chip_session::Bench;
use chip_trace::{Columns, Form, Trace};
use std::alloc::Global;
use std::io::Write;
use std::str;

/// Reports the step and the line at which the machine of a run stopped, and the cause. Reports nothing
/// if no user reads standard error, the machine still runs, writing fails, or memory runs out.
pub(crate) fn tell_stop<F, E: Write>(
    system: &System<'_, F>,
    run: &RunArguments<'_>,
    bench: &mut Bench,
    errors: &mut E,
) {
    if !system.host.has_reader {
        return;
    }
    let Ok(columns) = Columns::read_header(system.alloc, b"# pc text") else {
        return;
    };
    let Some(last) = row_at(system.alloc, bench, &columns, run.steps) else {
        return;
    };
    let Some((pc, cause)) = stop_of(&last) else {
        return;
    };
    let Some(step) = stop_step(system.alloc, bench, &columns, run.steps) else {
        return;
    };
    let Ok(line) = line_text(system.alloc, bench.source(), pc) else {
        return;
    };
    let _ = writeln!(
        errors,
        "chipbench: {}: the machine stopped at step {step}{}; `chipbench explain {cause}` says why",
        Shown(run.source),
        str::from_utf8(&line).unwrap_or("")
    );
}

// Returns the first step at which the machine is stopped, given that it is stopped at step `last`.
// None if memory runs out.
fn stop_step(alloc: Global, bench: &mut Bench, columns: &Columns, last: u32) -> Option<u32> {
    let (mut least, mut most) = (0_u32, last);
    for _half in 0..u32::BITS {
        if least >= most {
            break;
        }
        let middle = least.saturating_add(most.saturating_sub(least) / 2);
        let row = row_at(alloc, bench, columns, middle)?;
        match stop_of(&row) {
            Some(_) => most = middle,
            None => least = middle.saturating_add(1),
        }
    }
    Some(most)
}

// Returns the row of this step, from a trace of this step only. None if there is no image or memory runs out.
fn row_at(alloc: Global, bench: &mut Bench, columns: &Columns, step: u32) -> Option<Vec<u8>> {
    if bench.source().image().is_none() {
        return None;
    }
    let mut trace = Trace::new(alloc, columns, Form::Fields, step, step);
    let mut row = Vec::new(alloc);
    match bench.push_trace(&mut trace, &mut row, 1) {
        Ok(_) => Some(row),
        Err(_) => None,
    }
}

// Returns the value of pc and the stop cause, if the row describes a stopped machine.
fn stop_of(row: &[u8]) -> Option<(u16, &str)> {
    let row = str::from_utf8(row).ok()?;
    let (pc, cause) = row.trim_ascii_end().split_once(' ')?;
    if !cause.starts_with('S') || cause.len() != 2 {
        return None;
    }
    Some((u16::from_str_radix(pc, 16).ok()?, cause))
}
