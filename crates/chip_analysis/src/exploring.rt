//! `explore`: searches all key scripts of a source's image.
ghost use Rattle.std.specs.Prelude.{◌≡◌, ◌<◌, ◌∷◌, [], ◌++◌, ◌-◌, ℕ, List, Ok, IfOk, IfErr, OnOk, option_copied};
ghost use Rattle.chip_asm.specs.Program.{symbols_of};
ghost use Rattle.chip_machine.specs.Start.{start_of};
ghost use Rattle.chip_analysis.specs.Commands.{Explores, IsBadProperty, IsScriptUnwritten, Searches, SearchesFrom};
ghost use Rattle.chip_analysis.specs.inner.Written.{IsNamedWritten, IsScriptWritten};
ghost use Rattle.chip_analysis.specs.Exploring.{AsksProperty, StatesOne, address_of, answer_lines, cause_word, covering_text, in_memory, last_asked, met_line, met_word, number_line, search_ending, target_asked};

use crate::excluding::{Searched, excluded_text, fact_steps, facts_within, left_of};
use crate::noting::tell_target;
use crate::progress::{Bound, News, Progress, Teller};
use crate::sets::{Sets, sets_of};
use crate::stop_place::{place_text, word_text};
use crate::telling::{tell_faults, tell_unopened};
use chip_arguments::{ExploreArguments, SearchArguments};
use chip_asm::Source;
use chip_check::push_property_fault;
use chip_cover::marked_listing;
use chip_explore::{
    Bounds, Causes, END, Explored, KeyEvent, Met, Outcome, Property, Question, STOPS, Target, Ticks,
};
use chip_facts::Left;
use chip_host::{
    Ending, Failure, FileAccess, Report, System, deliver, faults, file_name, print, read_given,
    refuse_source, settings_of,
};
use chip_machine::limits::MEMORY_BYTES;
use chip_machine::{Machine, Quirks, Stop};
use chip_properties::{Kind, property_of_text};
use chip_session::{Counted, Settings, number_of};
use chip_trace::push_decimal;
use chip_verdicts::excludes;
use std::alloc::{AllocError, Global};
use std::io::{Read, Write};
use std::mem;
use std::time::Clock;

/// `explore`: searches all key scripts of a source's image and prints the answer. If there is no
/// image, prints the faults instead. The settings and sets are checked before the source is read.
pub fn explore<'a, F: FileAccess + Clock, I: Read, O: Write, E: Write>(
    system: &System<'_, F>,
    arguments: &ExploreArguments<'a>,
    input: &mut Counted<I>,
    output: &mut Counted<O>,
    errors: &mut E,
) -> Result<Ending, Failure<'a>>
    ensures { Explores I.remaining O.contents input.old input.new output.old output.new
        arguments.entry.now result }
{
    let settings = settings_of(system.alloc, &arguments.search.settings)?;
    let sets = sets_of(arguments)?;
    let name = arguments.search.source;
    let source = read_given(system, name, arguments.is_image, input, errors)?;
    let is_shown = system.host.has_reader || arguments.search.is_progress_shown;
    let seconds = arguments.search.seconds;
    let mut progress = Progress::new(errors, is_shown, system.files, seconds);
    let wanted = AskedSearch {
        arguments,
        settings: &settings,
        sets,
    };
    match Source::open_bytes(system.alloc, source) {
        Ok(opened) => {
            let ended = search_opened(system, &wanted, &opened, output, &mut progress);
            tell_faults(system, name, &opened, errors);
            // The program ends here, and the system frees its memory all at once.
            mem::forget(opened);
            ended
        }
        Err(error) => {
            let ended = refuse_source(error, output);
            tell_unopened(system, name, error, errors);
            ended
        }
    }
}

/// The arguments, the settings and the sets of a search.
#[derive(Clone, Copy)]
struct AskedSearch<'p, 'a> {
    arguments: &'p ExploreArguments<'a>,
    settings: &'p Settings,
    sets: Sets,
}

fn search_opened<'p, 'a, F: FileAccess, O: Write, T: Teller>(
    system: &System<'_, F>,
    wanted: &AskedSearch<'p, 'a>,
    source: &'p Source,
    output: &mut Counted<O>,
    teller: &mut T,
) -> Result<Ending, Failure<'a>>
    ensures { Searches O.contents output.old output.new wanted.now.arguments.now
        wanted.now.settings.now wanted.now.sets.causes wanted.now.sets.keys source.now.lines result }
{
    let AskedSearch {
        arguments,
        settings,
        sets,
    } = *wanted;
    let Some(image) = source.image() else {
        return deliver(faults(system.alloc, source), output);
    };
    let properties = properties_asked(system.alloc, arguments, source)?;
    let Some(target) = target_of(arguments, sets.causes, source, &properties) else {
        return Err(Failure::BadPlace(arguments.place.unwrap_or("")));
    };
    tell_target(arguments, source, &target, teller);
    let most_steps = fact_steps(asks_facts(arguments));
    let facts = facts_within(system.alloc, most_steps, image, settings.quirks());
    if let Some(found) = &facts
        && excludes(found, &target)
    {
        let text = excluded_text(
            system.alloc,
            arguments.search.is_any_speed,
            found.rows().len(),
        )?;
        return print(&text, Ending::Done, output);
    }
    let start = machine_of(system.alloc, image, settings.tape(), settings.quirks())?;
    let question = Question {
        rate: settings.rate(),
        allowed: sets.keys,
        target,
    };
    let left = left_of(&facts);
    let search = Search {
        arguments,
        source,
        start: &start,
        question: &question,
        left,
    };
    search.carry_out(system, output, teller)
}

/// Whether facts are searched for first. A marked listing needs none, because its marks show the
/// addresses that the search itself executes.
fn asks_facts(arguments: &ExploreArguments<'_>) -> bool {
    !arguments.search.is_without_facts && !arguments.is_covering
}

/// A search, and the source whose image it searches.
#[derive(Clone, Copy)]
struct Search<'p, 'a> {
    arguments: &'p ExploreArguments<'a>,
    source: &'p Source,
    start: &'p Machine,
    question: &'p Question<'p>,
    /// The stops that the facts don't exclude. None without facts.
    left: Option<&'p [Left]>,
}

// Returns the machine of a source's image before its first step. The image fits, and the tape is
// required to, so only a lack of memory can make this fail.
pub(crate) fn machine_of(
    alloc: Global,
    image: &[u8],
    tape: &[u8],
    quirks: Quirks,
) -> Result<Machine, AllocError>
    ensures { IfOk result (λ start. start ≡ start_of image.now tape.now quirks) }
{
    match Machine::start_with(alloc, image, tape, quirks) {
        Ok(start) => Ok(start),
        Err(_) => Err(AllocError),
    }
}

// Returns the property in the arguments, if there is one.
fn properties_asked<'a>(
    alloc: Global,
    arguments: &ExploreArguments<'a>,
    source: &Source,
) -> Result<Vec<Property>, Failure<'a>>
    ensures ok { IfOk result (λ properties. AsksProperty arguments.entry.now source.now.lines
        properties.items) }
    ensures err { IfErr result IsBadProperty }
{
    match (arguments.never, arguments.always) {
        (Some(text), _) => one_property(alloc, b"--never", text, Kind::Never, source),
        (None, Some(text)) => one_property(alloc, b"--always", text, Kind::Always, source),
        (None, None) => Ok(Vec::new(alloc)),
    }
}

// Returns the property of this kind that an option's text states. If the text is not a property, fails with a report.
fn one_property<'a>(
    alloc: Global,
    option: &[u8],
    text: &str,
    kind: Kind,
    source: &Source,
) -> Result<Vec<Property>, Failure<'a>>
    ensures ok { IfOk result (λ properties. StatesOne kind text.now source.now.lines
        properties.items) }
    ensures err { IfErr result IsBadProperty }
{
    match property_of_text(alloc, text.as_bytes(), kind, source)? {
        Ok(stated) => Ok(alone(alloc, stated.property)?),
        Err(fault) => {
            let mut report = Vec::new(alloc);
            push_property_fault(alloc, &mut report, false, option, text.as_bytes(), &fault)?;
            Err(Failure::BadProperty(Report(report)))
        }
    }
}

fn alone(alloc: Global, property: Property) -> Result<Vec<Property>, AllocError>
    ensures { IfOk result (λ properties. properties.items ≡ property ∷ []) }
{
    let mut properties = Vec::new(alloc);
    properties.push(property)?;
    Ok(properties)
}

// Returns the target of a search. None if the place is not in the source.
fn target_of<'p>(
    arguments: &ExploreArguments<'_>,
    causes: Causes,
    source: &Source,
    properties: &'p [Property],
) -> Option<Target<'p>>
    ensures { result ≡ target_asked causes (option_copied arguments.now.place) properties.entry
        (symbols_of source.now.lines) }
{
    let address = match arguments.place {
        Some(place) => Some(address_of(place.as_bytes(), source)?),
        None => None,
    };
    Some(Target {
        causes,
        address,
        properties,
    })
}

// Returns the address of a place: its number, or otherwise the value of its name. None if the
// result is not an address.
fn address_of(place: &[u8], source: &Source) -> Option<u16>
    ensures { result ≡ address_of (symbols_of source.now.lines) place.now }
{
    match number_of(place) {
        Some(number) => in_memory(i64::from(number)),
        None => in_memory(i64::from(source.symbol(place)?.value)),
    }
}

// Returns a number as an address, if it is between 0 and 4095.
fn in_memory(number: i64) -> Option<u16>
    ensures { result ≡ in_memory number }
{
    if 0 <= number && number < MEMORY_BYTES as i64 {
        Some(number as u16)
    } else {
        None
    }
}

impl<'p, 'a> Search<'p, 'a> {
    // Runs the search and prints the answer. If a script was found and a file is named for it,
    // writes the script's key events to that file.
    fn carry_out<F: FileAccess, O: Write, T: Teller>(
        &self,
        system: &System<'_, F>,
        output: &mut Counted<O>,
        teller: &mut T,
    ) -> Result<Ending, Failure<'a>>
        requires rate { 0 < self.now.question.now.rate }
        requires fresh { self.now.start.now.core.draws ≡ 0 }
        ensures searched { SearchesFrom O.contents output.old output.new self.now.arguments.now
            self.now.source.now.lines self.now.question.now.rate self.now.question.now.allowed
            self.now.question.now.target (option_copied self.now.left) self.now.start.now result }
        // If a script was found, it is written, and the program ends as faulty.
        ensures written { result ≡ Ok Ending.Faulty
            → IsNamedWritten (F.wrote system.now.files.now) self.now.arguments.now.search.keys_to }
    {
        let Search {
            arguments,
            source,
            start,
            question,
            left,
        } = *self;
        let ticks = if arguments.is_covering {
            // The marks of the listing show what is executed at the settings' rate.
            Ticks::AtRate
        } else if arguments.search.is_any_speed {
            Ticks::FreeWithAll
        } else {
            Ticks::Free
        };
        let bounds = bounds_of(&arguments.search, ticks);
        let explored = chip_explore::explore(system.alloc, start, question, &bounds, teller);
        let place = if arguments.is_image {
            word_text(system.alloc, start, question.rate, &explored.outcome)?
        } else {
            place_text(
                system.alloc,
                source,
                start,
                question.rate,
                &explored.outcome,
            )?
        };
        let searched = Searched {
            source,
            start,
            is_image: arguments.is_image,
        };
        let stops = match left {
            Some(left) => searched.left_text(system.alloc, question.target.causes, left)?,
            None => Vec::new(system.alloc),
        };
        let text = search_text(system.alloc, arguments, source, &explored, &place, &stops)?;
        write_script(system, arguments, &explored.outcome, teller)?;
        if let Some(bound) = Bound::of(&explored, &arguments.search) {
            teller.tell(bound.news(&arguments.search));
        }
        print(&text, search_ending(&explored), output)
    }
}

/// Returns the search bounds that the arguments set.
pub(crate) fn bounds_of(arguments: &SearchArguments<'_>, ticks: Ticks) -> Bounds
    ensures steps { result.steps - 1 ≡ last_asked arguments.now.steps }
    ensures states { result.states ≡ arguments.now.states }
    ensures deep { result.is_deep ≡ arguments.now.is_deep }
{
    Bounds {
        steps: match arguments.steps {
            Some(steps) => u64::from(steps) + 1,
            None => END,
        },
        states: arguments.states as usize,
        memory: bytes_of(arguments.memory),
        is_deep: arguments.is_deep,
        ticks,
    }
}

/// Returns the number of bytes in this many megabytes, each 1,000,000 bytes.
pub(crate) fn bytes_of(megabytes: u32) -> u64 {
    u64::from(megabytes) * 1_000_000
}

// Writes the key events of the script that was found, if a file is named for them.
fn write_script<'a, F: FileAccess, T: Teller>(
    system: &System<'_, F>,
    arguments: &ExploreArguments<'a>,
    outcome: &Outcome,
    teller: &mut T,
) -> Result<Ending, Failure<'a>>
    ensures ok { OnOk result (IsScriptWritten (F.wrote system.now.files.now) outcome.now
        arguments.entry.now.search.keys_to) }
    ensures err { IfErr result (IsScriptUnwritten arguments.entry.now.search.keys_to) }
{
    let (Outcome::Found { events, .. } | Outcome::Later { events, .. }) = outcome else {
        return Ok(Ending::Done);
    };
    let Some(name) = arguments.search.keys_to else {
        return Ok(Ending::Done);
    };
    let text = script_text(system.alloc, events)?;
    let taken = [Some(file_name(arguments.search.source))];
    let ending = system.write(&taken, name, &text)?;
    teller.tell(News::of_keys(name, events));
    Ok(ending)
}

/// Returns key events as the lines of a key file.
pub(crate) fn script_text(alloc: Global, events: &[KeyEvent]) -> Result<Vec<u8>, AllocError> {
    let mut text = Vec::new(alloc);
    for event in events {
        push_decimal(&mut text, u64::from(event.step))?;
        text.push(b' ')?;
        push_decimal(&mut text, u64::from(event.key))?;
        text.extend_from_slice(if event.down { b" down\n" } else { b" up\n" })?;
    }
    Ok(text)
}

// Returns the text printed for a search, with a line for each stop in `stops` and, if asked for, a marked listing.
fn search_text(
    alloc: Global,
    arguments: &ExploreArguments<'_>,
    source: &Source,
    explored: &Explored,
    place: &[u8],
    stops: &[u8],
) -> Result<Vec<u8>, AllocError>
    ensures { IfOk result (λ text. (others : List ℕ) × (text.items
        ≡ answer_lines arguments.now.search.is_any_speed place.now explored.now ++ others ++ stops.now
        ++ covering_text arguments.now.is_covering explored.now.executed source.now.lines)) }
{
    let mut text = Vec::new(alloc);
    push_first_lines(&mut text, arguments.search.is_any_speed, explored, place)?;
    text.extend_from_slice(&lines_below(alloc, explored)?)?;
    text.extend_from_slice(stops)?;
    if arguments.is_covering {
        text.extend_from_slice(&marked_listing(alloc, source, &explored.executed)?)?;
    }
    Ok(text)
}

// Returns how the program ends after a search.
fn search_ending(explored: &Explored) -> Ending
    ensures { result ≡ search_ending explored.now.outcome explored.now.is_short }
{
    match explored.outcome {
        Outcome::Found { .. } | Outcome::Later { .. } => Ending::Faulty,
        Outcome::Within(_) | Outcome::Never if explored.is_short => Ending::Short,
        Outcome::Within(_) | Outcome::Never => Ending::Done,
    }
}

// Appends the first lines of an answer. `is_any_speed` is whether the arguments ask for an answer at any speed.
fn push_first_lines(
    text: &mut Vec<u8>,
    is_any_speed: bool,
    explored: &Explored,
    place: &[u8],
) -> Result<(), AllocError>
    ensures { OnOk result (text.new.items
        ≡ text.old.items ++ answer_lines is_any_speed place.now explored.now) }
{
    if is_any_speed && explored.is_at_any_speed {
        return text.extend_from_slice(b"never at any speed\n");
    }
    match &explored.outcome {
        Outcome::Found { events, step, met } => {
            push_met(text, *met, *step, place)?;
            push_line(text, b"keys ", events.len() as u64)
        }
        Outcome::Later {
            events,
            step,
            met,
            covered,
        } => {
            push_met(text, *met, *step, place)?;
            push_line(text, b"keys ", events.len() as u64)?;
            push_line(text, b"within ", *covered)
        }
        Outcome::Within(step) => push_line(text, b"within ", *step),
        Outcome::Never => text.extend_from_slice(b"never\n"),
    }
}

// Appends what was met, the step, and the place in the source.
fn push_met(text: &mut Vec<u8>, met: Met, step: u32, place: &[u8]) -> Result<(), AllocError>
    ensures { OnOk result (text.new.items
        ≡ text.old.items ++ met_line (met_word met) step place.now) }
{
    match met {
        Met::Cause(cause) => text.extend_from_slice(&cause_word(cause))?,
        Met::Address => text.extend_from_slice(b"reached ")?,
        Met::Property(_) => text.extend_from_slice(b"broken ")?,
    }
    push_decimal(text, u64::from(step))?;
    text.extend_from_slice(place)?;
    text.extend_from_slice(b"\n")
}

// Returns a line for each other cause that the search met, and a line with the number of states it kept.
fn lines_below(alloc: Global, explored: &Explored) -> Result<Vec<u8>, AllocError> {
    let mut text = Vec::new(alloc);
    for cause in STOPS {
        if let Some(step) = explored.seen.first_step(*cause) {
            push_line(&mut text, &cause_word(*cause), step)?;
        }
    }
    push_line(&mut text, b"states ", explored.states as u64)?;
    Ok(text)
}

/// Returns the code of a stop cause and a space, to print before a number.
pub(crate) fn cause_word(cause: Stop) -> [u8; 3]
    ensures { result ≡ cause_word cause }
{
    [b'S', b'0' + cause.number() as u8, b' ']
}

/// Appends a word, a number and a newline.
pub(crate) fn push_line(text: &mut Vec<u8>, word: &[u8], number: u64) -> Result<(), AllocError>
    ensures { OnOk result (text.new.items ≡ text.old.items ++ number_line word.now number) }
{
    text.extend_from_slice(word)?;
    push_decimal(text, number)?;
    text.push(b'\n')?;
    Ok(())
}
