//! The answers of the commands, computed from the bytes of a source.
ghost use Rattle.std.specs.Prelude.{◌≡◌, Err, IfErr, IfOk, IsErr};
ghost use Rattle.chip_host.specs.Printing.{printed, printed_faults, printed_by};
ghost use Rattle.chip_bench.specs.Printing.{printed_run, printed_picture, printed_table, unanswered};
ghost use Rattle.chip_bench.specs.Running.{AnswersScript};
ghost use Rattle.chip_bench.specs.Doing.{IsExplanation, IsUnexplained};
ghost use Rattle.chip_arguments.specs.Version.{version_text};

use chip_arguments::VERSION;
use chip_asm::Source;
use chip_host::{Answer, Ending, Failure, faults, refuse_source};
use chip_pages::{contents, page_text};
use chip_session::{
    Bench, Counted, Observer, PictureForm, Question, Refusal, ServeError, Settings, listing_answer,
    refuse, serve_observed, symbols_answer,
};
use chip_views::{hex_listing, hex_symbols};
use std::alloc::{AllocError, Global};
use std::io::{Read, Write};

/// `debug`: runs a session on standard input and output.
pub(crate) fn answer_script<'a, I: Read, O: Write, T: Observer>(
    alloc: Global,
    source: &[u8],
    settings: Settings,
    input: &mut Counted<I>,
    output: &mut Counted<O>,
    observer: &mut T,
) -> Result<Ending, Failure<'a>>
    ensures { AnswersScript I.remaining O.contents settings source.now input.old input.new
        output.old output.new result }
{
    match serve_observed(alloc, source, settings, input, output, observer) {
        Ok(()) => Ok(Ending::Done),
        Err(ServeError::Source(error)) => refuse_source(error, output),
        Err(ServeError::ReaderFailed) => Err(Failure::Input),
        Err(ServeError::WriterFailed) => Err(Failure::Output),
        Err(ServeError::OutOfMemory) => Err(Failure::OutOfMemory),
        Err(ServeError::TooMuchInput) => Err(Failure::TooMuchInput),
    }
}

/// A table for a source.
#[derive(Clone, Copy)]
pub(crate) enum Table {
    /// The lines, with their addresses and bytes.
    Listing,
    /// The symbols: names with their values and line numbers.
    Symbols,
}

/// `list` and `syms`: returns a table for a source, with values in decimal or in hexadecimal. If
/// the source has no image, `syms` prints the faults instead of the symbols.
pub(crate) fn tabulate(
    alloc: Global,
    table: Table,
    source: &Source,
    is_hex: bool,
) -> Result<Answer, AllocError>
    ensures { IfOk result (λ answer. printed_by answer ≡ printed_table table is_hex source.now.lines) }
{
    match (table, is_hex, source.image()) {
        (Table::Symbols, _, None) => faults(alloc, source),
        (Table::Symbols, false, Some(_)) => Ok(Answer::on(source, symbols_answer(alloc, source)?)),
        (Table::Symbols, true, Some(_)) => {
            let mut table = hex_symbols(alloc, source)?;
            table.extend_from_slice(b".\n")?;
            Ok(Answer::on(source, table))
        }
        (Table::Listing, false, _) => Ok(Answer::on(source, listing_answer(alloc, source)?)),
        (Table::Listing, true, _) => {
            let mut table = hex_listing(alloc, source)?;
            table.extend_from_slice(b".\n")?;
            Ok(Answer::on(source, table))
        }
    }
}

/// `explain`: returns the page about a code, or the list of all codes if no code is given.
pub(crate) fn explain<'a>(alloc: Global, code: Option<&'a str>) -> Result<Answer, Failure<'a>>
    ensures ok { IfOk result (λ answer. IsExplanation code.entry (printed_by answer)) }
    ensures err { IfErr result (IsUnexplained code.entry) }
{
    let Some(code) = code else {
        let text = contents(alloc)?;
        return Ok(Answer {
            text,
            ending: Ending::Done,
        });
    };
    let page = page_text(alloc, code)?;
    match page {
        Some(text) => Ok(Answer {
            text,
            ending: Ending::Done,
        }),
        None => Err(Failure::NoPage(code)),
    }
}

/// `--version`: returns the program's name and version.
pub(crate) fn version(alloc: Global) -> Result<Answer, AllocError>
    ensures { IfOk result (λ answer. printed_by answer ≡ printed version_text Ending.Done) }
{
    let mut text = Vec::new(alloc);
    text.extend_from_slice(b"chipbench ")?;
    text.extend_from_slice(VERSION.as_bytes())?;
    text.extend_from_slice(b"\n")?;
    Ok(Answer {
        text,
        ending: Ending::Done,
    })
}

/// `run`: returns the registers and the screen at a step, or the faults if there is no image.
pub(crate) fn run_at(alloc: Global, bench: &mut Bench, step: u32) -> Result<Answer, AllocError>
    ensures { IfOk result (λ answer. printed_by answer ≡ printed_run bench.old.session step) }
{
    let mut text = Vec::new(alloc);
    if let Err(why) = bench.ask(alloc, &Question::Registers { step }, &mut text) {
        return unanswered(alloc, bench, why);
    }
    match bench.ask(alloc, &Question::Screen { step }, &mut text) {
        Ok(()) => Ok(Answer {
            text,
            ending: Ending::Done,
        }),
        Err(why) => unanswered(alloc, bench, why),
    }
}

/// `picture`: returns the picture of the screen at a step, or the faults if there is no image.
pub(crate) fn picture_at(
    alloc: Global,
    bench: &mut Bench,
    step: u32,
    form: PictureForm,
) -> Result<Answer, AllocError>
    ensures answer { IfOk result (λ answer.
        printed_by answer ≡ printed_picture bench.old.session step form) }
    ensures session { bench.new.session ≡ bench.old.session }
{
    match bench.picture(alloc, form, step) {
        Ok(text) => Ok(Answer {
            text,
            ending: Ending::Done,
        }),
        Err(why) => unanswered(alloc, bench, why),
    }
}

/// Returns the answer to a refused question: the faults if there is no image, and otherwise the
/// code of the refusal. Fails if memory ran out.
pub(crate) fn unanswered(alloc: Global, bench: &Bench, why: Refusal) -> Result<Answer, AllocError>
    ensures answer { IfOk result (λ answer.
        printed_by answer ≡ unanswered why (printed_faults bench.now.session.lines)) }
    ensures memory { why ≡ Refusal.AnswerMemory → IsErr result }
{
    match why {
        Refusal::NoImage => faults(alloc, bench.source()),
        Refusal::AnswerMemory => Err(AllocError),
        _ => {
            let mut text = Vec::new(alloc);
            refuse(&mut text, why.code())?;
            Ok(Answer {
                text,
                ending: Ending::Faulty,
            })
        }
    }
}
