//! `trace`: prints the lines of a run, or compares them with the lines of another trace.
ghost use Rattle.std.specs.Prelude.{◌≡◌, None, IfOk, option_copied, option_map};
ghost use Rattle.std.specs.Str.Lines.{lines};
ghost use Rattle.chip_bench.specs.Doing.{ShowsTrace, Traces, shown_by};
ghost use Rattle.chip_host.specs.Printing.{Streams, printed, printed_by};
ghost use Rattle.chip_bench.specs.Printing.{WithSession};
ghost use Rattle.chip_bench.specs.Tracing.{IsBeside, below_machine, header_of, lines_after, trace_of, trace_refusal};
ghost use Rattle.chip_host.specs.declared.ending.Ending.TheVariants.{Done};

use crate::opening::open_under;
use crate::output::unanswered;
use chip_analysis::{tell_faults, tell_unopened};
use chip_arguments::TraceArguments;
use chip_files::first_line;
use chip_host::limits::TRACE_FILE_BYTES;
use chip_host::{
    Answer, AskedRun, Ending, Failure, FileAccess, System, deliver, print, read_asked,
    refuse_source,
};
use chip_replay::LAST_STEP;
use chip_session::{Bench, Counted, Refusal};
use chip_trace::{Columns, Form, HeaderError, Trace, difference_text, names_machine};
use std::alloc::{AllocError, Global};
use std::io::{Read, Write};
use std::mem;

// The maximum number of lines that are written at once.
const BLOCK_LINES: usize = 256;

/// `trace`: prints the lines of a run, or where they first differ from the lines of another trace.
/// In a comparison, the header of the other trace determines the columns.
pub(crate) fn trace<'a, F: FileAccess, I: Read, O: Write, E: Write>(
    system: &System<'_, F>,
    arguments: &TraceArguments<'a>,
    input: &mut Counted<I>,
    output: &mut Counted<O>,
    errors: &mut E,
) -> Result<Ending, Failure<'a>>
    ensures { Traces I.remaining O.contents input.old input.new output.old output.new
        arguments.entry.now result }
{
    let asked = read_asked(system, &arguments.run, input, errors)?;
    let Some(name) = arguments.against else {
        let columns = Columns::usual(system.alloc, arguments.sums)?;
        let shown = shown_by(arguments, columns);
        return trace_source(system, asked, &shown, None, output, errors);
    };
    let trace = system.read_within(name, TRACE_FILE_BYTES)?;
    let (header, theirs) = split_header(&trace);
    match Columns::read_header(system.alloc, header) {
        Ok(columns) => {
            let shown = Shown {
                form: Form::Fields,
                ..shown_by(arguments, columns)
            };
            trace_source(system, asked, &shown, Some(theirs), output, errors)
        }
        Err(HeaderError::OutOfMemory) => Err(Failure::OutOfMemory),
        Err(fault) => Err(Failure::BadTrace(name, fault)),
    }
}

/// The part of a run that a trace shows: its columns, the form of its lines, its first step, and
/// its last step unless the machine stops earlier.
#[derive(Drop)]
pub(crate) struct Shown {
    pub(crate) columns: Columns,
    pub(crate) form: Form,
    pub(crate) from: u32,
    pub(crate) to: u32,
}

// Returns the part of the run that the arguments specify, with these columns. If they specify a
// first step after the last one, the trace begins at the last step.
fn shown_by(arguments: &TraceArguments<'_>, columns: Columns) -> Shown
    ensures { result ≡ shown_by arguments.now columns }
{
    let form = if arguments.is_json {
        Form::Json
    } else {
        Form::Fields
    };
    Shown {
        columns,
        form,
        from: arguments.from.min(arguments.run.steps),
        to: arguments.run.steps,
    }
}

// Returns the header of a trace, which names its columns, and the text after it. A line that names
// the machine may precede the header.
fn split_header(trace: &[u8]) -> (&[u8], &[u8])
    ensures header { result.0.now ≡ header_of (below_machine (lines trace.now)) }
    ensures rest { lines result.1.now ≡ lines_after (below_machine (lines trace.now)) }
{
    let (first, rest) = split_line(trace);
    if names_machine(first) {
        return split_line(rest);
    }
    (first, rest)
}

// Returns the first line of a text, and the text after it.
fn split_line(text: &[u8]) -> (&[u8], &[u8])
    ensures first { result.0.now ≡ header_of (lines text.now) }
    ensures rest { lines result.1.now ≡ lines_after (lines text.now) }
{
    if text.is_empty() {
        return (text, text);
    }
    first_line(text)
}

// Opens a session on a source, and shows the trace of its run.
fn trace_source<'a, F: FileAccess, O: Write, E: Write>(
    system: &System<'_, F>,
    asked: AskedRun<'a>,
    shown: &Shown,
    theirs: Option<&[u8]>,
    output: &mut Counted<O>,
    errors: &mut E,
) -> Result<Ending, Failure<'a>>
    ensures { WithSession O.contents output.old output.new asked.entry.settings
        asked.entry.source.items asked.entry.keys.bytes.items
        (ShowsTrace O.contents output.old output.new shown.now
        (option_map lines (option_copied theirs.entry))) result }
{
    let AskedRun {
        source,
        keys,
        settings,
        name,
    } = asked;
    let opened = open_under(system.alloc, &source, &keys, settings)?;
    match opened {
        Ok(mut bench) => {
            let ended = show(system.alloc, &mut bench, shown, theirs, output);
            tell_faults(system, name, bench.source(), errors);
            // The program ends here, and the system frees its memory all at once.
            mem::forget(bench);
            ended
        }
        Err(error) => {
            let ended = refuse_source(error, output);
            tell_unopened(system, name, error, errors);
            ended
        }
    }
}

// Prints the lines of the run of a source's image, or where they first differ from the lines of
// another trace. If there is no image, prints the faults instead.
fn show<'a, O: Write>(
    alloc: Global,
    bench: &mut Bench,
    shown: &Shown,
    theirs: Option<&[u8]>,
    output: &mut Counted<O>,
) -> Result<Ending, Failure<'a>>
    ensures { ShowsTrace O.contents output.old output.new shown.now
        (option_map lines (option_copied theirs.entry)) bench.old.session result }
{
    if let Some(why) = refusal_of(bench, shown) {
        return deliver(unanswered(alloc, bench, why), output);
    }
    match theirs {
        Some(theirs) => deliver(difference(alloc, bench, shown, theirs), output),
        None => stream(alloc, bench, shown, output),
    }
}

// Returns the reason why no trace can be shown, or None if it can.
fn refusal_of(bench: &Bench, shown: &Shown) -> Option<Refusal>
    ensures { result ≡ trace_refusal bench.now.session shown.now }
{
    if bench.source().image().is_none() {
        Some(Refusal::NoImage)
    } else if shown.from > LAST_STEP || shown.to > LAST_STEP {
        Some(Refusal::StepPastLast)
    } else {
        None
    }
}

// Writes the trace, `BLOCK_LINES` lines at a time.
fn stream<'a, O: Write>(
    alloc: Global,
    bench: &mut Bench,
    shown: &Shown,
    output: &mut Counted<O>,
) -> Result<Ending, Failure<'a>>
    requires { trace_refusal bench.old.session shown.now ≡ None }
    ensures { Streams O.contents output.old output.new
        (printed (trace_of bench.old.session shown.now) Done) result }
{
    let mut trace = Trace::new(alloc, &shown.columns, shown.form, shown.from, shown.to);
    let mut text = Vec::new(alloc);
    shown
        .columns
        .push_header_lines(shown.form, bench.quirks(), &mut text)?;
    loop {
        // No step of the trace is past `LAST_STEP`, so only a lack of memory can make this fail.
        let Ok(is_more) = bench.push_trace(&mut trace, &mut text, BLOCK_LINES) else {
            return Err(Failure::OutOfMemory);
        };
        print(&text, Ending::Done, output)?;
        if !is_more {
            return Ok(Ending::Done);
        }
        text.clear();
    }
}

// Returns where the lines of a run first differ from the lines of another trace, or an empty text if they agree.
fn difference(
    alloc: Global,
    bench: &mut Bench,
    shown: &Shown,
    theirs: &[u8],
) -> Result<Answer, AllocError>
    requires { trace_refusal bench.old.session shown.now ≡ None }
    ensures { IfOk result (λ answer. IsBeside bench.old.session shown.now (lines theirs.now)
        (printed_by answer)) }
{
    let mut trace = Trace::new(alloc, &shown.columns, shown.form, shown.from, shown.to);
    match bench.first_difference(alloc, &mut trace, theirs) {
        Ok(None) => Ok(Answer {
            text: Vec::new(alloc),
            ending: Ending::Done,
        }),
        Ok(Some(found)) => {
            let text = difference_text(alloc, &shown.columns, shown.from, &found)?;
            Ok(Answer {
                text,
                ending: Ending::Faulty,
            })
        }
        Err(_) => Err(AllocError),
    }
}
