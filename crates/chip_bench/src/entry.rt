//! The program behind `main`.
ghost use Rattle.std.specs.Prelude.{◌≡◌, [], ◌∷◌, ◌⊎◌, map, Ok};
ghost use Rattle.chip_asm.specs.Program.{image_of};
ghost use Rattle.chip_host.specs.Printing.{ending_with, printed_faults};
ghost use Rattle.chip_bench.specs.Printing.{printed_table};
ghost use Rattle.chip_session.specs.Settings.{default_settings};
ghost use Rattle.chip_bench.specs.Running.{AnswersScript, Ends, RunsSession, status_of, AreFaulty, IsWithoutArguments};
ghost use Rattle.chip_host.specs.Endings.{failure_status};
ghost use Rattle.chip_bench.specs.inner.Reads.{IsUsage};
ghost use Rattle.chip_bench.specs.inner.Written.{IsFoundWritten, IsImageWritten};
ghost use Rattle.chip_bench.specs.Doing.{Assembles, Debugs, Does, Performs, PrintsTable, Runs, ShowsHelp, ShowsVersion, WritesBy};
ghost use Rattle.chip_arguments.specs.CommandArguments.{argument_faults};
ghost use Rattle.std.specs.Io.KnownBytes.{Keeps};
ghost use Rattle.std.specs.IoError.{error_kind};

use crate::opening::open_under;
use crate::output::{Table, explain, run_at, tabulate, version};
use crate::picturing::picture;
use crate::stopping::tell_stop;
use crate::terminal::{Begun, answer_begun};
use crate::testing::test_files;
use crate::tracing::trace;
use crate::usage::tell_usage;
use chip_analysis::{check, explore, prove, tell_faults, tell_unopened};
use chip_arguments::{CommandLine, RunArguments, SettingArguments, not_text, parse_arguments};
use chip_asm::Source;
use chip_host::{
    AskedRun, Ending, Failure, FileAccess, MOST_SOURCE, System, TapeFault, as_source, deliver,
    faults, file_name, print, read_asked, read_given, read_source, refuse_source, settings_of,
    tell_text,
};
use chip_pages::licence_text;
use chip_session::Counted;
use clap::error::ErrorKind;
use std::alloc::Global;
use std::convert::AsStr;
use std::io::{Read, Write};
use std::rt::{Clock, Files};
use std::{io, mem};

/// Runs the program with the arguments after its name, and returns its status: 0 if it did what was
/// asked, 1 if the source has faults or doesn't open, 2 if the arguments are invalid, 3 if a file,
/// the input or the output failed or there was too much input, and 4 if memory ran out.
///
/// `asm` writes its file atomically. However, a target that is written in place, such as a pipe or
/// a file with several names, may contain some of the bytes after a failure.
///
/// Without arguments, the program carries out the script on `input` with the empty source, and writes the
/// answers to `output`. Failures are reported on `errors`; errors while writing these reports are ignored.
pub fn program<F: Files + Clock, S: AsStr, I: Read, O: Write, E: Write>(
    system: &System<'_, F>,
    arguments: &[S],
    input: &mut Counted<I>,
    output: &mut Counted<O>,
    errors: &mut E,
) -> u8
    ensures session { arguments.now ≡ [] → RunsSession I.remaining O.contents input.old input.new
        output.old output.new result }
    // Invalid arguments are refused, and nothing is read or written.
    ensures usage { AreFaulty (argument_faults (map S.text arguments.now)) → ((result ≡ 2) ⊎ (result ≡ 4))
        × (input.new ≡ input.old)
        × Keeps (O.contents output.old.inner) (O.contents output.new.inner) }
    // Valid arguments specify a command, and the program carries it out.
    ensures good { argument_faults (map S.text arguments.now) ≡ [] → Ends O.contents (λ written ended.
        Performs I.remaining O.contents input.old input.new output.old written
        system.now.host.takes_color (map S.text arguments.now) ended)
        output.new result }
    // A request for help prints help. No contract describes the text, which `clap` generates.
    ensures help { argument_faults (map S.text arguments.now) ≡ ErrorKind.DisplayHelp ∷ []
        → Ends O.contents (λ written ended.
        ShowsHelp I.remaining O.contents input.old input.new output.old written ended)
        output.new result }
    // A request for the version prints the version.
    ensures version { argument_faults (map S.text arguments.now) ≡ ErrorKind.DisplayVersion ∷ []
        → Ends O.contents (λ written ended.
        ShowsVersion I.remaining O.contents input.old input.new output.old written ended)
        output.new result }
{
    let ended = carry_out(system, arguments, input, output, errors);
    let flushed = output.flush();
    let advice = advice_on(&ended);
    tell_usage(system.alloc, &ended, first_of(arguments), errors);
    let status = finish(ended, flushed.is_ok(), errors);
    advise(advice, arguments, system.host.has_reader, errors);
    status
}

/// Reports that the system can't return the program's arguments as text, and returns the status.
pub fn refuse_arguments<E: Write>(alloc: Global, error: &io::Error, errors: &mut E) -> u8
    ensures { IsWithoutArguments (error_kind error.now) result }
{
    if error.kind() == io::ErrorKind::OutOfMemory {
        return report(Failure::OutOfMemory, errors);
    }
    match not_text(alloc) {
        Ok(error) => {
            let _ = write!(errors, "{error}");
            report(Failure::Usage(error), errors)
        }
        Err(_) => report(Failure::OutOfMemory, errors),
    }
}

// Returns the status after the output was flushed, and reports a failure.
fn finish<E: Write>(ended: Result<Ending, Failure<'_>>, is_flushed: bool, errors: &mut E) -> u8
    ensures { result ≡ status_of ended.entry is_flushed }
{
    match ended {
        Ok(Ending::Short) if is_flushed => report(Failure::OutOfMemory, errors),
        Ok(ending) if is_flushed => ending.status(),
        Ok(_) => report(Failure::Output, errors),
        Err(failure) => report(failure, errors),
    }
}

// The advice to print after the report of a failure.
#[derive(Clone, Copy)]
enum Advice {
    Nothing,
    /// The commands to type for a game. Printed if the first argument is not a command.
    Commands,
    /// The reason why the tape is bad. Printed only for a user at a terminal; for programs, the line above suffices.
    Tape(TapeFault),
    /// The folder of a file doesn't exist. Also printed only for a user at a terminal.
    Folder,
}

fn advice_on(ended: &Result<Ending, Failure<'_>>) -> Advice {
    match ended {
        Err(Failure::BadTape(fault)) => Advice::Tape(*fault),
        Err(Failure::Usage(error)) if error.kind() == ErrorKind::InvalidSubcommand => {
            Advice::Commands
        }
        Err(Failure::CannotWrite(_, error)) if error.kind() == io::ErrorKind::NotFound => {
            Advice::Folder
        }
        _ => Advice::Nothing,
    }
}

fn advise<S: AsStr, E: Write>(advice: Advice, arguments: &[S], has_reader: bool, errors: &mut E) {
    match advice {
        Advice::Commands => advise_commands(arguments, errors),
        Advice::Tape(fault) if has_reader => {
            let _ = write!(errors, "help: {fault}\n");
        }
        Advice::Folder if has_reader => {
            let _ = write!(
                errors,
                "help: make the folder of this file first, as by mkdir\n"
            );
        }
        Advice::Tape(_) | Advice::Folder | Advice::Nothing => {}
    }
}

// Prints the commands to type for a game. If the first argument looks like a file name, the commands contain it.
fn advise_commands<S: AsStr, E: Write>(arguments: &[S], errors: &mut E) {
    let Some(first) = arguments.first() else {
        return;
    };
    let word = first.as_str();
    let name = if is_file_name(word) { word } else { "game.asm" };
    let option = if name.ends_with(".ch8") {
        "--image "
    } else {
        ""
    };
    let _ = write!(
        errors,
        "\nTo work on a game:\n  \
         `chipbench debug {option}{name}` answers commands\n  \
         `chipbench run {option}{name} --steps 1000` runs it\n  \
         `chipbench-shell {option}{name}` is the shell for people\n  \
         `chipbench-page {option}{name}` opens the page\n"
    );
}

// Whether a word contains a dot, but no character that a shell or a terminal treats specially.
fn is_file_name(word: &str) -> bool {
    word.contains('.')
        && word.chars().all(|character| {
            character.is_ascii_alphanumeric()
                || "._-/+@,".contains(character)
                || character > '\u{a0}'
        })
}

// Returns the first argument, or an empty text if there are no arguments.
fn first_of<S: AsStr>(arguments: &[S]) -> &str {
    match arguments.first() {
        Some(first) => first.as_str(),
        None => "",
    }
}

// Reports a failure, and returns its status. Invalid arguments have already been reported. Errors
// of standard error are ignored.
fn report<E: Write>(failure: Failure<'_>, errors: &mut E) -> u8
    ensures { result ≡ failure_status failure.entry }
{
    if !matches!(&failure, Failure::Usage(_)) {
        let _ = write!(errors, "{failure}");
    }
    failure.status()
}

fn carry_out<'a, F: FileAccess + Clock, S: AsStr, I: Read, O: Write, E: Write>(
    system: &System<'_, F>,
    arguments: &'a [S],
    input: &mut Counted<I>,
    output: &mut Counted<O>,
    errors: &mut E,
) -> Result<Ending, Failure<'a>>
    ensures session { arguments.entry.now ≡ []
        → AnswersScript I.remaining O.contents default_settings []
        input.old input.new output.old output.new result }
    ensures usage { AreFaulty (argument_faults (map S.text arguments.entry.now)) → IsUsage result
        × (input.new ≡ input.old) × (output.new ≡ output.old) }
    ensures good { argument_faults (map S.text arguments.entry.now) ≡ [] → Performs I.remaining O.contents
        input.old input.new output.old output.new system.now.host.takes_color (map S.text arguments.entry.now)
        result }
    ensures help { argument_faults (map S.text arguments.entry.now) ≡ ErrorKind.DisplayHelp ∷ []
        → ShowsHelp I.remaining O.contents input.old input.new output.old output.new result }
    ensures version { argument_faults (map S.text arguments.entry.now) ≡ ErrorKind.DisplayVersion ∷ []
        → ShowsVersion I.remaining O.contents input.old input.new output.old output.new result }
{
    match parse_arguments(system.alloc, arguments) {
        Ok(line) => {
            let ended = perform(system, &line, input, output, errors);
            // The program ends here, and the system frees its memory all at once.
            mem::forget(line);
            ended
        }
        Err(help) if !help.use_stderr() => match help.kind() {
            ErrorKind::DisplayVersion => deliver(version(system.alloc), output),
            _ => {
                let text = format!(in system.alloc; "{help}")?;
                print(text.as_bytes(), Ending::Done, output)
            }
        },
        Err(fault) => Err(Failure::from(fault)),
    }
}

// Carries out a command. Its arguments are passed by reference; otherwise each arm would drop the
// values that it took from them.
fn perform<'a, F: FileAccess + Clock, I: Read, O: Write, E: Write>(
    system: &System<'_, F>,
    line: &CommandLine<'a>,
    input: &mut Counted<I>,
    output: &mut Counted<O>,
    errors: &mut E,
) -> Result<Ending, Failure<'a>>
    ensures { Does I.remaining O.contents input.old input.new output.old output.new
        system.now.host.takes_color line.entry.now result }
{
    match line {
        CommandLine::Debug {
            source,
            is_image,
            is_quiet,
            settings,
        } => {
            let given = DebugArguments {
                source: *source,
                is_image: *is_image,
                is_quiet: *is_quiet,
            };
            debug(system, given, settings, input, output, errors)
        }
        CommandLine::Asm { source, image } => asm(system, *source, *image, input, output, errors),
        CommandLine::List {
            source,
            is_image,
            is_hex,
        } => {
            let given = TableArguments {
                table: Table::Listing,
                source: *source,
                is_hex: *is_hex,
            };
            let bytes = read_given(system, *source, *is_image, input, errors)?;
            tell(system, given, bytes, output, errors)
        }
        CommandLine::Syms { source, is_hex } => {
            let given = TableArguments {
                table: Table::Symbols,
                source: *source,
                is_hex: *is_hex,
            };
            let bytes = read_source(system, *source, input)?;
            tell(system, given, bytes, output, errors)
        }
        CommandLine::Check(arguments) => check(system, arguments, input, output, errors),
        CommandLine::Dis { image } => {
            // `source` is the text that assembles to the image.
            let source = read_given(system, *image, true, input, errors)?;
            print(&source, Ending::Done, output)
        }
        CommandLine::Run(arguments) => run(system, arguments, input, output, errors),
        CommandLine::Trace(arguments) => trace(system, arguments, input, output, errors),
        CommandLine::Picture(arguments) => picture(system, arguments, input, output, errors),
        CommandLine::Test(arguments) => test_files(system, arguments, output),
        CommandLine::Explore(arguments) => explore(system, arguments, input, output, errors),
        CommandLine::Prove(arguments) => prove(system, arguments, input, output, errors),
        CommandLine::Explain { code } => {
            let answer = explain(system.alloc, *code)?;
            deliver(Ok(answer), output)
        }
        CommandLine::Licences => print(licence_text().as_bytes(), Ending::Done, output),
    }
}

// The arguments of `debug`: the name of a source or an image. Without a name, the source is empty.
#[derive(Clone, Copy)]
struct DebugArguments<'a> {
    source: Option<&'a str>,
    is_image: bool,
    /// Whether the messages for a user who types the script are switched off.
    is_quiet: bool,
}

// Carries out `debug`. The settings are checked before SOURCE is read.
fn debug<'a, F: FileAccess, I: Read, O: Write, E: Write>(
    system: &System<'_, F>,
    given: DebugArguments<'a>,
    arguments: &SettingArguments<'_>,
    input: &mut Counted<I>,
    output: &mut Counted<O>,
    errors: &mut E,
) -> Result<Ending, Failure<'a>>
    ensures { Debugs I.remaining O.contents input.old input.new output.old output.new
        given.entry.source given.entry.is_image arguments.now result }
{
    let settings = settings_of(system.alloc, arguments)?;
    let host = system.host;
    let seeded = settings.with_name_seed(host.name_seed);
    let empty = Begun {
        source: b"",
        name: given.source,
        is_typed: host.is_typed && host.has_reader && !given.is_quiet,
    };
    match given.source {
        Some(name) => {
            let bytes = system.read(name, MOST_SOURCE)?;
            if given.is_image {
                tell_text(system, name, &bytes, errors);
            }
            let source = as_source(system.alloc, name, given.is_image, bytes, errors)?;
            let begun = Begun {
                source: &source,
                ..empty
            };
            answer_begun(system.alloc, begun, seeded, input, output, errors)
        }
        None => answer_begun(system.alloc, empty, seeded, input, output, errors),
    }
}

fn asm<'a, F: FileAccess, I: Read, O: Write, E: Write>(
    system: &System<'_, F>,
    source: &'a str,
    image: &'a str,
    input: &mut Counted<I>,
    output: &mut Counted<O>,
    errors: &mut E,
) -> Result<Ending, Failure<'a>>
    ensures did { Assembles I.remaining O.contents input.old input.new output.old output.new
        source.entry image.entry result }
    ensures written { result ≡ Ok Ending.Done
        → IsImageWritten (F.wrote system.now.files.now image.entry.now) }
{
    let bytes = read_source(system, source, input)?;
    match Source::open_bytes(system.alloc, bytes) {
        Ok(opened) => {
            let ended = assemble(system, &opened, &[Some(file_name(source))], image, output);
            tell_faults(system, source, &opened, errors);
            // The program ends here, and the system frees its memory all at once.
            mem::forget(opened);
            ended
        }
        Err(error) => {
            let ended = refuse_source(error, output);
            tell_unopened(system, source, error, errors);
            ended
        }
    }
}

// Writes the image of a source to a file, or prints the faults if there is no image.
fn assemble<'a, F: FileAccess, O: Write>(
    system: &System<'_, F>,
    source: &Source,
    taken: &[Option<&str>],
    name: &'a str,
    output: &mut Counted<O>,
) -> Result<Ending, Failure<'a>>
    ensures did { WritesBy O.contents output.old output.new (ending_with (image_of source.now.lines))
        (printed_faults source.now.lines) name.entry result }
    ensures written { result ≡ Ok Ending.Done
        → IsFoundWritten (F.wrote system.now.files.now name.entry.now) (image_of source.now.lines) }
{
    match source.image() {
        Some(image) => system.write(taken, name, image),
        None => deliver(faults(system.alloc, source), output),
    }
}

// The requested table, and the name of its source.
#[derive(Clone, Copy)]
struct TableArguments<'a> {
    table: Table,
    source: &'a str,
    is_hex: bool,
}

// `list` and `syms`: prints a table for the source with these bytes.
fn tell<'a, F: FileAccess, O: Write, E: Write>(
    system: &System<'_, F>,
    given: TableArguments<'_>,
    bytes: Vec<u8>,
    output: &mut Counted<O>,
    errors: &mut E,
) -> Result<Ending, Failure<'a>>
    ensures { PrintsTable O.contents output.old output.new
        (printed_table given.entry.table given.entry.is_hex) bytes.items result }
{
    match Source::open_bytes(system.alloc, bytes) {
        Ok(opened) => {
            let answer = tabulate(system.alloc, given.table, &opened, given.is_hex);
            let ended = deliver(answer, output);
            tell_faults(system, given.source, &opened, errors);
            // The program ends here, and the system frees its memory all at once.
            mem::forget(opened);
            ended
        }
        Err(error) => {
            let ended = refuse_source(error, output);
            tell_unopened(system, given.source, error, errors);
            ended
        }
    }
}

fn run<'a, F: FileAccess, I: Read, O: Write, E: Write>(
    system: &System<'_, F>,
    arguments: &RunArguments<'a>,
    input: &mut Counted<I>,
    output: &mut Counted<O>,
    errors: &mut E,
) -> Result<Ending, Failure<'a>>
    ensures { Runs I.remaining O.contents input.old input.new output.old output.new
        arguments.entry.now result }
{
    let AskedRun {
        source,
        keys,
        settings,
        ..
    } = read_asked(system, arguments, input, errors)?;
    let opened = open_under(system.alloc, &source, &keys, settings)?;
    match opened {
        Ok(mut bench) => {
            let answer = run_at(system.alloc, &mut bench, arguments.steps);
            let ended = deliver(answer, output);
            tell_faults(system, arguments.source, bench.source(), errors);
            tell_stop(system, arguments, &mut bench, errors);
            // The program ends here, and the system frees its memory all at once.
            mem::forget(bench);
            ended
        }
        Err(error) => {
            let ended = refuse_source(error, output);
            tell_unopened(system, arguments.source, error, errors);
            ended
        }
    }
}
