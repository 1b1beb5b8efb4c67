//! `prove`: answers the properties that a source states, by facts and by searches over all key scripts.
ghost use Rattle.std.specs.Prelude.{◌≡◌, ◌⊎◌, ◌<◌, ◌&&◌, ◌||◌, ◌++◌, [], ℕ, List, Ok, Some, None, true, IfOk, IfErr, IfSome, OnOk, filter, length, slice_get, false, position, ◌==◌, ◌+◌};
ghost use Rattle.std.specs.List.{flat_map, list_any, remove};
ghost use Rattle.chip_explore.specs.Answers.{Answers};
ghost use Rattle.chip_explore.specs.OneOf.{told_of};
ghost use Rattle.chip_explore.specs.Speeds.{NeverAtAnySpeed};
ghost use Rattle.chip_explore.specs.declared.property.Property.{Property};
ghost use Rattle.chip_properties.specs.Properties.{AreProperties};
ghost use Rattle.chip_properties.specs.declared.properties.Properties.{Properties};
ghost use Rattle.chip_properties.specs.declared.fault.PropertyFault.{PropertyFault};
ghost use Rattle.chip_properties.specs.declared.stated.Stated.{Stated};
ghost use Rattle.chip_host.specs.Printing.{Fails};
ghost use Rattle.chip_analysis.specs.Commands.{IsScriptUnwritten, Proves, ProvesBy, ProvesFrom, ProvesWith};
ghost use Rattle.chip_host.specs.Endings.{IsShort};
ghost use Rattle.chip_host.specs.Reading.{image_in};
ghost use Rattle.chip_analysis.specs.Proving.{IsCounts, IsForeseen, IsReport, has_faults, is_asked, looks_for, proof_ending, text_at};
ghost use Rattle.chip_check.specs.Answer.{is_bad};
ghost use Rattle.chip_check.specs.Check.{AreTexts};
ghost use Rattle.chip_check.specs.declared.answer.Scope.TheVariants.{Anything};
ghost use Rattle.chip_explore.specs.declared.question.Outcome.TheVariants.{Never};
ghost use Rattle.chip_analysis.specs.inner.Proofs.{AreFactsFrom, IsAnswering, IsExcluded, IsLeft, IsNext, IsUnmet, is_can, WritesAll, met_property, missing_line, printed_head, searched_scope};

use crate::checking::Checker;
use crate::counts::Counts;
use crate::excluding::{bytes_are_small, excludes_property, fact_steps, facts_within};
use crate::exploring::{bounds_of, machine_of, script_text};
use crate::noting::{tell_lines, tell_properties};
use crate::progress::{Bound, News, Progress, Teller};
use crate::sets::keys_of;
use chip_arguments::{ProveArguments, SearchArguments};
use chip_asm::Source;
use chip_check::{PropertyAnswer, PropertyPlace, Scope, is_bad, push_property_fault};
use chip_explore::laws::one_of_several;
use chip_explore::{
    Causes, Explored, Met, Outcome, Property, Pursuit, Question, Target, Ticks, explore, foresee,
};
use chip_facts::Facts;
use chip_host::{
    Ending, Failure, FileAccess, System, deliver, file_name, print, read_source, settings_of,
};
use chip_machine::Machine;
use chip_properties::{Kind, Properties, PropertyFault, Stated, properties_of, property_text};
use chip_session::{Counted, Settings};
use chip_verdicts::never_met_is_never;
use std::alloc::{AllocError, Global};
use std::io::{Read, Write};
use std::time::Clock;
use std::{io, slice};

/// `prove`: answers each property that a source states, or prints the faults if there is no image. Settings
/// and keys are judged before the source is read.
pub fn prove<'a, F: FileAccess + Clock, I: Read, O: Write, E: Write>(
    system: &System<'_, F>,
    arguments: &ProveArguments<'a>,
    input: &mut Counted<I>,
    output: &mut Counted<O>,
    errors: &mut E,
) -> Result<Ending, Failure<'a>>
    ensures { Proves I.remaining O.contents input.old input.new output.old output.new
        arguments.entry.now result }
{
    let is_shown = system.host.has_reader || arguments.search.is_progress_shown;
    let mut progress = Progress::new(errors, is_shown, system.files, arguments.search.seconds);
    let settings = settings_of(system.alloc, &arguments.search.settings)?;
    let keys = keys_of(arguments.search.allowed_keys)?;
    let bytes = read_source(system, arguments.search.source, input)?;
    let asked = AskedProof {
        arguments,
        settings: &settings,
        keys,
    };
    prove_source(system, &asked, &bytes, output, &mut progress)
}

/// The arguments, the settings and the keys of a proof.
#[derive(Clone, Copy)]
struct AskedProof<'p, 'a> {
    arguments: &'p ProveArguments<'a>,
    settings: &'p Settings,
    /// The keys that a player has, key k at bit k.
    keys: u16,
}

fn prove_source<'a, F: FileAccess, O: Write, T: Teller>(
    system: &System<'_, F>,
    asked: &AskedProof<'_, 'a>,
    bytes: &[u8],
    output: &mut Counted<O>,
    teller: &mut T,
) -> Result<Ending, Failure<'a>>
    ensures { ProvesBy O.contents output.old output.new asked.now.arguments.now
        asked.now.settings.now asked.now.keys (image_in bytes.now) bytes.now result }
{
    let arguments = asked.arguments;
    let name = arguments.search.source.as_bytes();
    let checker = Checker::for_faults(asked.settings, arguments.is_json);
    match Source::open(system.alloc, bytes) {
        Ok(source) => {
            let Some(image) = source.image() else {
                let text = checker.text_of(system.alloc, name, &source, &[])?;
                return print(&text, Ending::Faulty, output);
            };
            let settings = asked.settings;
            let most_steps = fact_steps(!arguments.search.is_without_facts);
            let facts = facts_within(system.alloc, most_steps, image, settings.quirks());
            bytes_are_small(settings.tape());
            let start = machine_of(system.alloc, image, settings.tape(), settings.quirks())?;
            let prover = Prover {
                system,
                arguments,
                source: &source,
                facts: &facts,
                start: &start,
                rate: settings.rate(),
                keys: asked.keys,
            };
            prover.prove(output, teller)
        }
        Err(error) => deliver(checker.unopened(system.alloc, name, error), output),
    }
}

/// The data from which properties are answered, and the way in which the answers are printed.
#[derive(Drop)]
struct Prover<'p, 'a, F> {
    system: &'p System<'p, F>,
    arguments: &'p ProveArguments<'a>,
    source: &'p Source,
    /// The facts about the image of the source, if there are any.
    facts: &'p Option<Facts>,
    start: &'p Machine,
    rate: u32,
    keys: u16,
}

/// The line and the kind of a property that isn't answered yet.
#[derive(Clone, Copy)]
pub(crate) struct Head {
    line: usize,
    kind: Kind,
}

/// The properties that aren't answered yet. Each property is at the place of its head.
#[derive(Drop)]
pub(crate) struct Left {
    heads: Vec<Head>,
    properties: Vec<Property>,
}

/// The answer of facts or of a search to some properties.
#[derive(Drop)]
pub(crate) struct Verdict {
    outcome: Outcome,
    scope: Scope,
    /// The number of states kept.
    states: usize,
    /// Whether memory ran out.
    is_short: bool,
    /// The bound at which a search ended early, if it did.
    bound: Option<Bound>,
}

/// The next answer: to the property at the place or, without a place, to all that are left.
#[derive(Drop)]
pub(crate) struct Next {
    place: Option<usize>,
    verdict: Verdict,
    /// The number of properties, from the first one that is then left, that facts are known not to exclude.
    tried: usize,
}

/// The summary of the answers so far.
#[derive(Clone, Copy)]
pub(crate) struct Told {
    /// The most states that a search kept.
    states: usize,
    /// Whether a property is broken, an `ever` isn't reached, or a `can` has a dead end.
    is_bad: bool,
    /// Whether memory ran out in a search.
    is_short: bool,
    /// The bound of the first search that ended early, if one did.
    bound: Option<Bound>,
    /// The number of properties, from the first one that is left, that facts are known not to exclude.
    tried: usize,
    /// Which script was written.
    written: Written,
}

/// The script that a file has.
#[derive(Clone, Copy)]
pub(crate) enum Written {
    Nothing,
    /// The script of an `ever`.
    Reached,
    /// The script of a property that is broken.
    Broken,
    /// A script of a folder couldn't be written, and a message said so.
    Failed,
}

impl Left {
    /// Returns those of the stated properties that the arguments ask for.
    fn of(alloc: Global, only: Option<u32>, stated: Vec<Stated>) -> Result<Left, AllocError>
        ensures { IfOk result (λ left. IsLeft (filter (λ one. is_asked only one.line) stated.items)
            left) }
    {
        let mut heads = Vec::new(alloc);
        let mut properties = Vec::new(alloc);
        for one in stated {
            if is_asked(only, one.line) {
                heads.push(Head {
                    line: one.line,
                    kind: one.kind,
                })?;
                properties.push(one.property)?;
            }
        }
        Ok(Left { heads, properties })
    }

    /// Returns how many searches are left: one for each property that asks whether it can be met from
    /// everywhere, and one for all others.
    fn searches(&self) -> usize {
        let alone = self.heads.iter().filter(|head| is_can(head.kind)).count();
        alone.saturating_add(usize::from(alone < self.heads.len()))
    }

    /// Returns the place of the first property that asks whether it can be met from everywhere, if there is
    /// one.
    fn first_can(&self) -> Option<usize>
        ensures { result ≡ position (λ head. is_can head.kind) self.now.heads.items }
    {
        self.heads.iter().position(|head| is_can(head.kind))
    }

    /// Returns the place of the first property, from a place on, that facts exclude. A property that asks
    /// whether it can be met from everywhere is left to the search.
    fn first_excluded(&self, facts: &Facts, from: usize) -> Option<usize>
        requires { length self.now.heads.items ≡ length self.now.properties.items }
        ensures { IfSome result (λ place. IsExcluded facts.now self.now place) }
    {
        for place in from..self.heads.len() {
            if !is_can(self.heads[place].kind)
                && excludes_property(facts, &self.properties[place])
            {
                return Some(place);
            }
        }
        None
    }

    /// Removes the property at a place, and returns its head.
    fn take(&mut self, place: usize) -> Head
        requires in_heads { place < length self.old.heads.items }
        requires in_properties { place < length self.old.properties.items }
        ensures head { slice_get self.old.heads.items place ≡ Some result }
        ensures heads { self.new.heads.items ≡ remove self.old.heads.items place }
        ensures properties { self.new.properties.items ≡ remove self.old.properties.items place }
    {
        let _ = self.properties.remove(place);
        self.heads.remove(place)
    }
}

/// Whether a property asks whether it can be met from everywhere.
fn is_can(kind: Kind) -> bool
    ensures { result ≡ is_can kind }
{
    match kind {
        Kind::Can => true,
        Kind::Always | Kind::Never | Kind::Ever => false,
    }
}

/// Whether a path names a folder, which then gets a file for each script.
fn is_folder(path: &str) -> bool {
    path.as_bytes().ends_with(b"/")
}

/// Whether the property of a line is asked for.
fn is_asked(only: Option<u32>, line: usize) -> bool
    ensures { result ≡ is_asked only line }
{
    match only {
        Some(only) => only as usize == line,
        None => true,
    }
}

/// Whether one of the properties that can't be read is asked for.
fn has_faults(only: Option<u32>, faults: &[PropertyFault]) -> bool
    ensures { result ≡ has_faults only faults.now }
{
    faults.iter().any(|fault| is_asked(only, fault.line))
}

/// Returns the line that the arguments name, if it states no property.
fn missing_line(only: Option<u32>, is_empty: bool, is_faulty: bool) -> Option<u32>
    ensures { result ≡ missing_line only is_empty is_faulty }
{
    if is_empty && !is_faulty { only } else { None }
}

/// Returns the place of the property that a search met, if it met one of that many.
fn met_property(outcome: &Outcome, count: usize) -> Option<usize>
    ensures { result ≡ met_property outcome.now count }
{
    match outcome {
        Outcome::Found {
            met: Met::Property(place),
            ..
        }
        | Outcome::Later {
            met: Met::Property(place),
            ..
        } if *place < count => Some(*place),
        _ => None,
    }
}

impl<'p, 'a, F: FileAccess> Prover<'p, 'a, F> {
    /// Answers the properties of the source that are asked for. Fails if the arguments name a line without a
    /// property.
    fn prove<O: Write, T: Teller>(
        &self,
        output: &mut Counted<O>,
        teller: &mut T,
    ) -> Result<Ending, Failure<'a>>
        requires rate { 0 < self.now.rate }
        requires fresh { self.now.start.now.core.draws ≡ 0 }
        requires facts { IfSome self.now.facts.now (AreFactsFrom self.now.start.now) }
        ensures { ((properties : Properties) × AreProperties self.now.source.now.lines properties
            × ProvesWith O.contents output.old output.new self.now.arguments.now
            self.now.source.now.lines self.now.rate self.now.keys self.now.start.now properties result)
            ⊎ Fails O.contents output.old output.new IsShort result }
    {
        let Properties { stated, faults } = properties_of(self.system.alloc, self.source)?;
        let arguments = self.arguments;
        let name = arguments.search.source;
        tell_properties(self.system.alloc, name, self.source, &stated, teller);
        tell_lines(self.system.alloc, name, self.source, teller);
        let only = arguments.only;
        let left = Left::of(self.system.alloc, only, stated)?;
        let is_faulty = has_faults(only, &faults);
        let is_empty = left.heads.is_empty();
        if let Some(line) = missing_line(only, is_empty, is_faulty) {
            return Err(Failure::NoProperty(line));
        }
        if is_empty && !is_faulty {
            teller.tell(News::NothingStated(name));
        }
        let reports = self.reports(&faults)?;
        self.prove_left(left, &reports, is_faulty, output, teller)
    }

    /// Prints these reports, answers the properties that are left, and prints how many facts and states that
    /// took.
    fn prove_left<O: Write, T: Teller>(
        &self,
        left: Left,
        reports: &[u8],
        is_faulty: bool,
        output: &mut Counted<O>,
        teller: &mut T,
    ) -> Result<Ending, Failure<'a>>
        requires rate { 0 < self.now.rate }
        requires fresh { self.now.start.now.core.draws ≡ 0 }
        requires facts { IfSome self.now.facts.now (AreFactsFrom self.now.start.now) }
        requires even { length left.heads.items ≡ length left.properties.items }
        ensures { (asked : List Stated) → IsLeft asked left → (faults : List PropertyFault)
            → is_faulty ≡ has_faults self.now.arguments.now.only faults
            → AreTexts (IsReport self.now.arguments.now self.now.source.now.lines) faults reports.now
            → ProvesFrom O.contents output.old output.new self.now.arguments.now
            self.now.source.now.lines self.now.rate self.now.keys self.now.start.now asked faults
            result }
    {
        self.find_folder()?;
        print(reports, Ending::Done, output)?;
        let is_empty = left.heads.is_empty();
        let told = self.answer(left, Told::NOTHING, output, teller)?;
        if let Some(bound) = told.bound {
            teller.tell(bound.news(&self.arguments.search));
        }
        let text = self.end_text(&told, is_empty)?;
        let ending = print(&text, told.ending(is_faulty), output)?;
        self.end(ending, told.written)
    }

    /// Fails if the arguments name a folder for scripts and there is no such folder.
    fn find_folder(&self) -> Result<(), Failure<'a>>
        ensures { IfErr result (IsScriptUnwritten self.now.arguments.now.search.keys_to) }
    {
        if let Some(path) = self.arguments.search.keys_to
            && is_folder(path)
            && let Err(error) = self.system.files.find_folder(path)
        {
            return Err(Failure::CannotWrite(path, error));
        }
        Ok(())
    }

    /// Returns how the program ends after all answers. Fails if a script of a folder couldn't be written.
    fn end(&self, ending: Ending, written: Written) -> Result<Ending, Failure<'a>>
        ensures ok { IfOk result (λ ended. ended ≡ ending) }
        ensures err { IfErr result (IsScriptUnwritten self.now.arguments.now.search.keys_to) }
    {
        match (self.arguments.search.keys_to, written) {
            (Some(path), Written::Failed) => {
                let why = "a file of this folder couldn't be written, as said above";
                let error = io::Error::new(io::ErrorKind::Other, why);
                Err(Failure::CannotWrite(path, error))
            }
            _ => Ok(ending),
        }
    }

    /// Returns the reports on those properties that can't be read and are asked for.
    fn reports(&self, faults: &[PropertyFault]) -> Result<Vec<u8>, AllocError>
        ensures { IfOk result (λ text. AreTexts
            (IsReport self.now.arguments.now self.now.source.now.lines) faults.now text.items) }
    {
        let mut text = Vec::new(self.system.alloc);
        for fault in faults {
            self.push_report(&mut text, fault)?;
        }
        Ok(text)
    }

    /// Appends the report on a property that can't be read, if it is asked for.
    fn push_report(&self, text: &mut Vec<u8>, fault: &PropertyFault) -> Result<(), AllocError>
        ensures { OnOk result ((added : List ℕ)
            × IsReport self.now.arguments.now self.now.source.now.lines fault.now added
            × (text.new.items ≡ text.old.items ++ added)) }
    {
        let arguments = self.arguments;
        if !is_asked(arguments.only, fault.line) {
            return Ok(());
        }
        let Some(line) = self.source.line(fault.line) else {
            return Ok(());
        };
        let name = arguments.search.source.as_bytes();
        let is_json = arguments.is_json;
        push_property_fault(self.system.alloc, text, is_json, name, line.text(), fault)
    }

    /// Answers properties: first those that facts exclude, then the others, search by search. A property that
    /// a search met is answered at once, and left out of the next search. The last search answers all that
    /// are left.
    fn answer<O: Write, T: Teller>(
        &self,
        mut left: Left,
        told: Told,
        output: &mut Counted<O>,
        teller: &mut T,
    ) -> Result<Told, Failure<'a>>
        requires rate { 0 < self.now.rate }
        requires fresh { self.now.start.now.core.draws ≡ 0 }
        requires facts { IfSome self.now.facts.now (AreFactsFrom self.now.start.now) }
        requires even { length left.heads.items ≡ length left.properties.items }
        ensures { (asked : List Stated) → IsLeft asked left → IsAnswering O.contents output.old
            output.new self.now.arguments.now self.now.source.now.lines self.now.rate self.now.keys
            self.now.start.now asked told.is_bad told.is_short result }
    {
        if left.heads.is_empty() {
            return Ok(told);
        }
        let next = self.next(&left, told.tried, teller);
        let told = Told {
            states: told.states.max(next.verdict.states),
            is_short: told.is_short || next.verdict.is_short,
            bound: told.bound.or(next.verdict.bound),
            tried: next.tried,
            ..told
        };
        match next.place {
            Some(place) => {
                let head = left.take(place);
                let is_bad = self.tell(&[head], &next.verdict, output)?;
                let outcome = &next.verdict.outcome;
                let written = self.write_keys(head, outcome, told.written, teller)?;
                let told = Told {
                    is_bad: told.is_bad || is_bad,
                    written,
                    ..told
                };
                self.answer(left, told, output, teller)
            }
            None => {
                let is_bad = self.tell(&left.heads, &next.verdict, output)?;
                Ok(Told {
                    is_bad: told.is_bad || is_bad,
                    ..told
                })
            }
        }
    }

    /// Finds the next answer. First comes each property that facts exclude, where the first `tried` are known
    /// not to be excluded; then each property that asks whether it can be met from everywhere, by a search of
    /// its own; then one search answers all others.
    fn next<T: Teller>(&self, left: &Left, tried: usize, teller: &mut T) -> Next
        requires rate { 0 < self.now.rate }
        requires fresh { self.now.start.now.core.draws ≡ 0 }
        requires facts { IfSome self.now.facts.now (AreFactsFrom self.now.start.now) }
        requires even { length left.now.heads.items ≡ length left.now.properties.items }
        ensures within { IfSome result.place (λ place. place < length left.now.heads.items) }
        ensures right { (asked : List Stated) → IsLeft asked left.now → IsNext
            self.now.rate self.now.keys self.now.start.now asked result.place result.verdict }
    {
        if let Some(facts) = self.facts
            && let Some(place) = left.first_excluded(facts, tried)
        {
            never_met_is_never();
            return Next {
                place: Some(place),
                verdict: Verdict::excluded(),
                tried: place,
            };
        }
        teller.begin(left.searches());
        if let Some(place) = left.first_can() {
            let explored = self.foresee(&left.properties[place], teller);
            return Next {
                place: Some(place),
                verdict: Verdict::of(explored, &self.arguments.search, false),
                tried: usize::MAX,
            };
        }
        let explored = self.search(&left.properties, teller);
        let place = met_property(&explored.outcome, left.heads.len());
        Next {
            place,
            verdict: Verdict::of(
                explored,
                &self.arguments.search,
                self.arguments.search.is_any_speed,
            ),
            tried: usize::MAX,
        }
    }

    /// Finds out whether a property can be met from everywhere, within the bounds of the search.
    fn foresee<T: Teller>(&self, property: &Property, teller: &mut T) -> Explored
        requires rate { 0 < self.now.rate }
        requires fresh { self.now.start.now.core.draws ≡ 0 }
        ensures foreseen { IsForeseen self.now.rate self.now.keys property.now self.now.start.now
            result.outcome }
        ensures speed { result.is_at_any_speed ≡ false }
    {
        let pursuit = Pursuit {
            rate: self.rate,
            allowed: self.keys,
            goals: slice::from_ref(property),
        };
        let bounds = bounds_of(&self.arguments.search, Ticks::Free);
        foresee(self.system.alloc, self.start, &pursuit, &bounds, teller).explored()
    }

    /// Searches for these properties.
    fn search<T: Teller>(&self, properties: &[Property], teller: &mut T) -> Explored
        requires rate { 0 < self.now.rate }
        requires fresh { self.now.start.now.core.draws ≡ 0 }
        ensures answers { (k : ℕ) (property : Property) → slice_get properties.now k ≡ Some property
            → IfSome (told_of k result.outcome)
            (Answers self.now.rate self.now.keys (looks_for property) self.now.start.now) }
        ensures any_speed { (k : ℕ) (property : Property)
            → slice_get properties.now k ≡ Some property → result.is_at_any_speed ≡ true
            → NeverAtAnySpeed self.now.keys (looks_for property) self.now.start.now }
        ensures met { met_property result.outcome (length properties.now) ≡ None
            → IsUnmet result.outcome }
    {
        let arguments = self.arguments;
        let search = &arguments.search;
        let question = Question {
            rate: self.rate,
            allowed: self.keys,
            target: Target {
                causes: Causes::none(),
                address: None,
                properties,
            },
        };
        let ticks = if search.is_any_speed {
            Ticks::FreeWithAll
        } else {
            Ticks::Free
        };
        let bounds = bounds_of(search, ticks);
        one_of_several();
        explore(self.system.alloc, self.start, &question, &bounds, teller)
    }

    /// Prints a verdict for each of these properties, and returns whether it is bad for one of them.
    fn tell<O: Write>(
        &self,
        heads: &[Head],
        verdict: &Verdict,
        output: &mut Counted<O>,
    ) -> Result<bool, Failure<'a>>
        ensures written { WritesAll O.contents output.old output.new
            (flat_map (printed_head self.now.arguments.now self.now.source.now.lines verdict.now)
            heads.now) result }
        ensures bad { IfOk result (λ found.
            found ≡ list_any (λ head. is_bad head.kind verdict.now.outcome) heads.now) }
    {
        let text = self.answers_text(heads, verdict)?;
        print(&text, Ending::Done, output)?;
        Ok(heads.iter().any(|head| is_bad(head.kind, &verdict.outcome)))
    }

    /// Returns the text that is printed for these properties.
    fn answers_text(&self, heads: &[Head], verdict: &Verdict) -> Result<Vec<u8>, AllocError>
        ensures { IfOk result (λ text. text.items ≡ flat_map
            (printed_head self.now.arguments.now self.now.source.now.lines verdict.now) heads.now) }
    {
        let arguments = self.arguments;
        let mut text = Vec::new(self.system.alloc);
        for head in heads {
            let answer = PropertyAnswer {
                kind: head.kind,
                outcome: &verdict.outcome,
                scope: verdict.scope,
            };
            let place = PropertyPlace {
                name: arguments.search.source.as_bytes(),
                line: head.line,
                text: self.text_at(head.line),
            };
            answer.push(self.system.alloc, &mut text, arguments.is_json, &place)?;
        }
        Ok(text)
    }

    /// Returns the text of the property in a line. The text is empty if the line has none.
    fn text_at(&self, line: usize) -> &'p [u8]
        ensures { result.now ≡ text_at self.now.source.now.lines line }
    {
        match self.source.line(line) {
            Some(line) => property_text(line.text()).unwrap_or(b""),
            None => b"",
        }
    }

    /// Writes the key events of a script that was found, if they are asked for. If a folder is named, the
    /// script goes to a file of that folder, named by the line. Otherwise the file has the script of the
    /// first property that is broken or, if none is, of the first that is reached. Returns which script the
    /// file then has.
    fn write_keys<T: Teller>(
        &self,
        head: Head,
        outcome: &Outcome,
        written: Written,
        teller: &mut T,
    ) -> Result<Written, Failure<'a>>
        ensures { IfErr result (IsScriptUnwritten self.now.arguments.now.search.keys_to) }
    {
        let (Outcome::Found { events, .. } | Outcome::Later { events, .. }) = outcome else {
            return Ok(written);
        };
        let arguments = self.arguments;
        let Some(path) = arguments.search.keys_to else {
            return Ok(written);
        };
        let text = script_text(self.system.alloc, events)?;
        if is_folder(path) {
            let line = head.line;
            let name = format!(in self.system.alloc; "{path}{line}.keys")?;
            let news = News::of_keys(name.as_str(), events);
            return Ok(self.write_in_folder(name.as_str(), &text, news, written, teller)?);
        }
        let written = match (head.kind, written) {
            (Kind::Ever, Written::Nothing) => Written::Reached,
            (Kind::Always | Kind::Never | Kind::Can, Written::Nothing | Written::Reached) => {
                Written::Broken
            }
            _ => return Ok(written),
        };
        self.system.write(&self.taken(), path, &text)?;
        teller.tell(News::of_keys(path, events));
        Ok(written)
    }

    /// Writes a file of a folder atomically. If that fails, a message says so, and the other answers still
    /// follow. Returns which script is then written.
    fn write_in_folder<T: Teller>(
        &self,
        name: &str,
        bytes: &[u8],
        news: News<'_>,
        written: Written,
        teller: &mut T,
    ) -> Result<Written, AllocError> {
        let system = self.system;
        match system.files.write(system.alloc, &self.taken(), name, bytes) {
            Ok(()) => {
                teller.tell(news);
                Ok(written)
            }
            Err(error) if error.kind() == io::ErrorKind::OutOfMemory => Err(AllocError),
            Err(error) => {
                teller.tell(News::Unwritten(name, &error));
                Ok(Written::Failed)
            }
        }
    }

    /// Returns the names of files to which no script is written.
    fn taken(&self) -> [Option<&'a str>; 1] {
        let arguments = self.arguments;
        [Some(file_name(arguments.search.source))]
    }

    /// Returns the text that is printed last: how many facts were found, unless no property was asked for,
    /// and the most states that a search kept.
    fn end_text(&self, told: &Told, is_empty: bool) -> Result<Vec<u8>, AllocError>
        ensures { IfOk result (λ text. IsCounts self.now.arguments.now.is_json
            self.now.arguments.now.search.source.now told.now.is_short text.items) }
    {
        let facts = match self.facts {
            Some(facts) if !is_empty => Some(facts.rows().len() as u64),
            _ => None,
        };
        let counts = Counts {
            facts,
            states: told.states as u64,
            is_short: told.is_short,
            bound: told.bound,
        };
        let arguments = self.arguments;
        let name = arguments.search.source.as_bytes();
        counts.lines(self.system.alloc, arguments.is_json, name)
    }
}

impl Verdict {
    /// Returns the verdict of facts that exclude a property.
    fn excluded() -> Verdict
        ensures outcome { result.outcome ≡ Never }
        ensures scope { result.scope ≡ Anything }
    {
        Verdict {
            outcome: Outcome::Never,
            scope: Scope::Anything,
            states: 0,
            is_short: false,
            bound: None,
        }
    }

    /// Returns the verdict of a search with these arguments. `is_any_speed` is whether an answer at any speed
    /// is asked for.
    fn of(explored: Explored, arguments: &SearchArguments<'_>, is_any_speed: bool) -> Verdict
        ensures outcome { result.outcome ≡ explored.outcome }
        ensures scope { result.scope ≡ searched_scope (is_any_speed && explored.is_at_any_speed) }
    {
        let bound = Bound::of(&explored, arguments);
        let scope = if is_any_speed && explored.is_at_any_speed {
            Scope::AtAnySpeed
        } else {
            Scope::AtRate
        };
        Verdict {
            scope,
            states: explored.states,
            is_short: explored.is_short,
            bound,
            outcome: explored.outcome,
        }
    }
}

impl Told {
    /// The summary before the first answer.
    const NOTHING: Told = Told {
        states: 0,
        is_bad: false,
        is_short: false,
        bound: None,
        tried: 0,
        written: Written::Nothing,
    };

    /// Returns how the program ends after the answers. `is_faulty` is whether a property can't be read.
    fn ending(&self, is_faulty: bool) -> Ending
        ensures { result ≡ proof_ending self.now.is_short (is_faulty || self.now.is_bad) }
    {
        if self.is_short {
            Ending::Short
        } else if is_faulty || self.is_bad {
            Ending::Faulty
        } else {
            Ending::Done
        }
    }
}
