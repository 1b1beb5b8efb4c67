//! `check`: the faults of sources with their places, and their warnings.
ghost use Rattle.std.specs.Prelude.{◌≡◌, IfOk, IfSome, IsErr, MatchOption, false, true};
ghost use Rattle.chip_asm.specs.Lines.{lines_of, open_fault};
ghost use Rattle.chip_asm.specs.Program.{image_of};
ghost use Rattle.chip_analysis.specs.Commands.{Checks, ChecksEach, faults_alone};
ghost use Rattle.chip_analysis.specs.Checking.{gives_tape, paints, worse, AreWarned, IsCheckText, IsPrintedCheckOf, unopened_check};
ghost use Rattle.chip_analysis.specs.inner.Covering.{IsCovered, checking_by};
ghost use Rattle.chip_facts.specs.Rows.{HoldFacts};
ghost use Rattle.chip_host.specs.Printing.{printed_by, printed};

use crate::covering::{Covered, coverage_in};
use crate::excluding::{CHECK_FACT_STEPS, executed_in, facts_within};
use crate::noting::tell_notes;
use crate::progress::{Progress, Teller};
use crate::sets::warnings_of;
use chip_arguments::{CheckArguments, ColorChoice, SettingArguments};
use chip_asm::{OpenError, Source};
use chip_check::{check_json, check_text, unopened_json, unopened_report};
use chip_explore::Watcher;
use chip_facts::Facts;
use chip_host::{Answer, Ending, Failure, FileAccess, System, deliver, read_source, settings_of};
use chip_session::{Counted, Settings};
use chip_warnings::{Asked, Warning, warnings};
use std::alloc::{AllocError, Global};
use std::io::{Read, Write};
use std::time::Clock;

/// The way in which sources are checked and the findings are printed.
#[derive(Clone, Copy)]
pub(crate) struct Checker<'p> {
    /// The warnings that are not printed, Wk at bit k and Pk at bit 9 + k.
    allowed: u16,
    settings: &'p Settings,
    /// Whether the arguments give the tape of the settings.
    has_tape: bool,
    /// Whether JSON objects are printed instead of text.
    is_json: bool,
    /// Whether the text has colours.
    is_painted: bool,
    /// Whether each source is searched for instructions that no key script executes.
    is_covering: bool,
}

/// `check`: prints the findings for each of the sources, one after another. The settings and then the allowed
/// warnings are judged before the first source is read. A source that can't be read ends the check.
pub fn check<'a, F: FileAccess + Clock, I: Read, O: Write, E: Write>(
    system: &System<'_, F>,
    arguments: &CheckArguments<'a>,
    input: &mut Counted<I>,
    output: &mut Counted<O>,
    errors: &mut E,
) -> Result<Ending, Failure<'a>>
    ensures { Checks I.remaining O.contents input.old input.new output.old output.new
        system.now.host.takes_color arguments.now result }
{
    let settings = settings_of(system.alloc, &arguments.settings)?;
    let allowed = warnings_of(arguments.allowed)?;
    let names: &[&'a str] = &arguments.sources;
    let checker = Checker {
        allowed,
        settings: &settings,
        has_tape: gives_tape(&arguments.settings),
        is_json: arguments.is_json,
        is_painted: paints(arguments.color, system.host.takes_color),
        is_covering: arguments.is_covering,
    };
    let is_shown = system.host.has_reader;
    let mut progress = Progress::new(errors, is_shown, system.files, arguments.seconds);
    checker.check_each(system, names, input, output, &mut progress)
}

// Whether the arguments give a tape, or a seed that makes one.
fn gives_tape(arguments: &SettingArguments<'_>) -> bool
    ensures { result ≡ gives_tape arguments.now }
{
    arguments.tape.is_some() || arguments.seed.is_some()
}

// Whether the output has colours.
fn paints(choice: ColorChoice, takes_color: bool) -> bool
    ensures { result ≡ paints choice takes_color }
{
    match choice {
        ColorChoice::Auto => takes_color,
        ColorChoice::Always => true,
        ColorChoice::Never => false,
    }
}

// Returns the worse of two endings: the first one, unless that is `Done`.
fn worse(ending: Ending, later: Ending) -> Ending
    ensures { result ≡ worse ending later }
{
    match ending {
        Ending::Done => later,
        Ending::Faulty | Ending::Short => ending,
    }
}

impl<'p> Checker<'p> {
    /// Returns a checker that prints only faults.
    pub(crate) fn for_faults(settings: &'p Settings, is_json: bool) -> Checker<'p>
        ensures { checking_by result ≡ faults_alone is_json settings.now }
    {
        Checker {
            allowed: 0,
            settings,
            has_tape: false,
            is_json,
            is_painted: false,
            is_covering: false,
        }
    }

    fn check_each<'a, F: FileAccess, I: Read, O: Write, T: Teller>(
        &self,
        system: &System<'_, F>,
        names: &[&'a str],
        input: &mut Counted<I>,
        output: &mut Counted<O>,
        teller: &mut T,
    ) -> Result<Ending, Failure<'a>>
        ensures { ChecksEach I.remaining O.contents (checking_by self.now) names.now input.old
            input.new output.old output.new result }
    {
        let mut ending = Ending::Done;
        for name in names {
            let bytes = read_source(system, name, input)?;
            let answer = self.answer_on(system.alloc, name.as_bytes(), &bytes, teller);
            let one = deliver(answer, output)?;
            ending = worse(ending, one);
        }
        Ok(ending)
    }

    // Returns the findings for a source, or the reason why it doesn't open.
    fn answer_on<T: Teller>(
        &self,
        alloc: Global,
        name: &[u8],
        bytes: &[u8],
        teller: &mut T,
    ) -> Result<Answer, AllocError>
        ensures { IfOk result (λ answer. IsPrintedCheckOf (checking_by self.now) name.now
            (open_fault bytes.now) (lines_of bytes.now) (printed_by answer)) }
    {
        let source = match Source::open(alloc, bytes) {
            Ok(source) => source,
            Err(error) => return self.unopened(alloc, name, error),
        };
        tell_notes(alloc, name, &source, teller);
        let warnings = self.warnings_on(alloc, &source, teller)?;
        let text = self.text_of(alloc, name, &source, &warnings)?;
        Ok(Answer::on(&source, text))
    }

    // Returns the warnings of a source that aren't switched off.
    fn warnings_on<W: Watcher>(
        &self,
        alloc: Global,
        source: &Source,
        watcher: &mut W,
    ) -> Result<Vec<Warning>, AllocError>
        ensures { IfOk result (λ warnings. AreWarned (checking_by self.now) source.now.lines
            warnings.items) }
    {
        let covered = self.covered(alloc, source, watcher)?;
        let facts = self.facts_about(alloc, source);
        let asked = Asked {
            allowed: self.allowed,
            quirks: self.settings.quirks(),
            has_tape: self.has_tape,
            coverage: coverage_in(&covered),
            reachable: executed_in(&facts),
        };
        warnings(alloc, source, asked)
    }

    // Returns what key scripts execute of a source's image, if that is asked for and there is an image.
    fn covered<W: Watcher>(
        &self,
        alloc: Global,
        source: &Source,
        watcher: &mut W,
    ) -> Result<Option<Covered>, AllocError>
        ensures { IfOk result (IsCovered self.now.is_covering self.now.settings.now
            (image_of source.now.lines)) }
    {
        if !self.is_covering {
            return Ok(None);
        }
        let Some(image) = source.image() else {
            return Ok(None);
        };
        Ok(Some(Covered::of(alloc, image, self.settings, watcher)?))
    }

    // Returns the facts about a source's image, if there are any.
    fn facts_about(&self, alloc: Global, source: &Source) -> Option<Facts>
        ensures { IfSome result (λ facts. MatchOption (image_of source.now.lines) ⊥
            (λ image. HoldFacts image self.now.settings.now.quirks facts)) }
    {
        let image = source.image()?;
        facts_within(alloc, CHECK_FACT_STEPS, image, self.settings.quirks())
    }

    // Returns the text that is printed for a source and its warnings.
    pub(crate) fn text_of(
        &self,
        alloc: Global,
        name: &[u8],
        source: &Source,
        warnings: &[Warning],
    ) -> Result<Vec<u8>, AllocError>
        ensures { IfOk result (λ text. IsCheckText self.now.is_json self.now.is_painted name.now
            source.now.lines warnings.now text.items) }
    {
        if self.is_json {
            check_json(alloc, name, source, warnings)
        } else {
            check_text(alloc, self.is_painted, name, source, warnings)
        }
    }

    // Returns the answer for a source that doesn't open. Fails if memory ran out.
    pub(crate) fn unopened(
        &self,
        alloc: Global,
        name: &[u8],
        error: OpenError,
    ) -> Result<Answer, AllocError>
        ensures answer { IfOk result (λ answer. printed_by answer ≡ printed
            (unopened_check self.now.is_json self.now.is_painted name.now error) Ending.Faulty) }
        ensures memory { error ≡ OpenError.OutOfMemory → IsErr result }
    {
        if error == OpenError::OutOfMemory {
            return Err(AllocError);
        }
        let text = self.unopened_text(alloc, name, error)?;
        Ok(Answer {
            text,
            ending: Ending::Faulty,
        })
    }

    // Returns the text that is printed for a source that doesn't open.
    fn unopened_text(
        &self,
        alloc: Global,
        name: &[u8],
        error: OpenError,
    ) -> Result<Vec<u8>, AllocError>
        ensures { IfOk result (λ text. text.items
            ≡ unopened_check self.now.is_json self.now.is_painted name.now error) }
    {
        if self.is_json {
            unopened_json(alloc, name, error)
        } else {
            unopened_report(alloc, self.is_painted, name, error)
        }
    }
}
