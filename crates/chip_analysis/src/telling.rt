//! Messages on standard error about the source of a command, for a user at a terminal.

use crate::note::write_note;
use crate::noting::note_on_end;
use chip_asm::{OpenError, Source};
use chip_check::{fault_text, unopened_report};
use chip_host::{Shown, System};
use std::io::Write;

/// Reports the first fault of a source, as `check` prints it, and the number of faults. Without faults, reports
/// whether END hides lines. Reports nothing if no user reads standard error, writing fails, or memory runs out.
pub fn tell_faults<F, E: Write>(
    system: &System<'_, F>,
    name: &str,
    source: &Source,
    errors: &mut E,
) {
    if !system.host.has_reader {
        return;
    }
    let (first, count) = faulty_lines(source);
    let Some(number) = first else {
        tell_end(name, source, errors);
        return;
    };
    let Ok(report) = fault_text(system.alloc, name.as_bytes(), source, number) else {
        return;
    };
    let _ = errors.write_all(&report);
    let _ = match count {
        1 => writeln!(
            errors,
            "the only fault; `chipbench check {}` shows faults and warnings",
            Shown(name)
        ),
        _ => writeln!(
            errors,
            "the first of {count} faults; `chipbench check {}` shows all faults",
            Shown(name)
        ),
    };
}

/// Reports whether END hides lines of a source. Reports nothing if standard error fails.
pub fn tell_end<E: Write>(name: &str, source: &Source, errors: &mut E) {
    if let Some((line, note)) = note_on_end(source) {
        let _ = write_note(errors, name, line, note);
    }
}

// Returns the number of the first faulty line, and the number of faulty lines.
fn faulty_lines(source: &Source) -> (Option<usize>, usize) {
    let mut first = None;
    let mut count = 0_usize;
    for number in 1..=source.lines() {
        if source.fault(number).is_some() {
            first = first.or(Some(number));
            count = count.saturating_add(1);
        }
    }
    (first, count)
}

/// Reports why a source doesn't open, as `check` prints it. Reports nothing if no user reads
/// standard error, writing fails, or memory runs out.
pub fn tell_unopened<F, E: Write>(
    system: &System<'_, F>,
    name: &str,
    error: OpenError,
    errors: &mut E,
) {
    if !system.host.has_reader {
        return;
    }
    if let Ok(report) = unopened_report(system.alloc, false, name.as_bytes(), error) {
        let _ = errors.write_all(&report);
    }
}
