//! Parses the arguments after the program's name.
ghost use Rattle.std.specs.Prelude.{◌≡◌, [], Ok, None, Some, false, IfOk, map, option_copied, unwrap_or, codes};
ghost use Rattle.std.specs.Char.{is_ascii_digit};
ghost use Rattle.std.specs.List.{list_all};
ghost use Rattle.clap.specs.Words.{FailsBy, all_of, first_of, kind_of, one_of};
ghost use Rattle.chip_arguments.specs.SettingArguments.{default_arguments};
ghost use Rattle.chip_arguments.specs.CommandArguments.{Asks, AsksFlag, AsksFor, AsksQuirks, AsksSettings, ReadsNumber, ReadsOr, AsksCheck, color_asked, AsksExplore, AsksPicture, AsksProve, AsksRun, AsksSearch, AsksTest, AsksTrace, both_fault, clash_fault, clash_faults, color_fault, first_value_fault, new_file_fault, number_fault, numbers, value_faults, argument_faults, needed, quirks_fault, scale_fault};
ghost use Rattle.chip_arguments.specs.inner.Built.{IsOneOf, command_names, rows_in};

use crate::commands::{chipbench, chipbench_for};
use crate::limits::{USUAL_MEMORY, USUAL_STATES};
use chip_machine::profile::PROFILES;
use chip_machine::quirks::QUIRKS;
use chip_machine::{Profile, Quirks};
use chip_replay::LEAST_SPACING;
use clap::error::ErrorKind;
use clap::{ArgMatches, Error};
use std::alloc::{AllocError, Global};
use std::convert::AsStr;

const DEFAULT_RATE: u32 = 10;

// The arguments that are numbers, each with the form in which `clap` shows it in a fault.
const NUMBERS: [(&str, &str); 10] = [
    ("steps", "--steps <N>"),
    ("states", "--states <M>"),
    ("memory", "--memory <MB>"),
    ("from", "--from <M>"),
    ("rate", "--rate <N>"),
    ("seed", "--seed <N>"),
    ("every", "--every <P>"),
    ("only", "--only <LINE>"),
    ("seconds", "--seconds <N>"),
    ("scale", "--scale <K>"),
];

// The arguments that name a file to write, each with the form in which a fault shows it.
const NEW_FILES: [(&str, &str); 4] = [
    ("output", "IMAGE"),
    ("pbm", "--pbm"),
    ("png", "--png"),
    ("keys-to", "--keys-to"),
];

/// A command of the program, with its arguments.
#[derive(Drop)]
pub enum CommandLine<'a> {
    /// Answers a script.
    Debug {
        source: Option<&'a str>,
        /// Whether the source is given as an image.
        is_image: bool,
        /// Whether messages at a terminal, except for the answers, are switched off.
        is_quiet: bool,
        settings: SettingArguments<'a>,
    },
    /// Writes the image of a source to a file.
    Asm {
        source: &'a str,
        image: &'a str,
    },
    /// Prints the listing of a source.
    List {
        source: &'a str,
        /// Whether the source is given as an image.
        is_image: bool,
        /// Whether values are printed in hexadecimal.
        is_hex: bool,
    },
    /// Prints the names of a source with their values and lines.
    Syms {
        source: &'a str,
        /// Whether values are printed in hexadecimal.
        is_hex: bool,
    },
    /// Prints the faults of sources with their places.
    Check(CheckArguments<'a>),
    /// Prints a source for an image.
    Dis {
        image: &'a str,
    },
    /// Runs a source's image.
    Run(RunArguments<'a>),
    /// Prints a line for each step of a run, or compares the lines with the lines of a file.
    Trace(TraceArguments<'a>),
    /// Prints the screen of a source's image, or writes the screen as a picture.
    Picture(PictureArguments<'a>),
    /// Compares the answers of sessions with the expected answers in files.
    Test(TestArguments<'a>),
    /// Searches all key scripts for one that makes a source's image stop or reach a place.
    Explore(ExploreArguments<'a>),
    /// Answers the properties that a source states.
    Prove(ProveArguments<'a>),
    /// Prints the page on a code, or the list of codes.
    Explain {
        code: Option<&'a str>,
    },
    /// Prints the licences of the program and of everything that is linked into it.
    Licences,
}

/// The arguments of a check.
#[derive(Drop)]
pub struct CheckArguments<'a> {
    /// The sources, in the order of the arguments.
    pub sources: Vec<&'a str>,
    /// Whether JSON objects are printed instead of text.
    pub is_json: bool,
    /// The warnings to leave out, separated by commas.
    pub allowed: Option<&'a str>,
    /// When to colour the text.
    pub color: ColorChoice,
    /// The machine for which the sources are written, and its tape.
    pub settings: SettingArguments<'a>,
    /// Whether each source is searched for instructions that no key script executes.
    pub is_covering: bool,
    /// The number of seconds after which these searches end, 1 to 1000000.
    pub seconds: Option<u32>,
}

/// When to colour a text.
#[derive(Clone, Copy)]
pub enum ColorChoice {
    /// If the output supports colours.
    Auto,
    Always,
    Never,
}

/// The arguments of a run.
#[derive(Clone, Copy)]
pub struct RunArguments<'a> {
    pub source: &'a str,
    /// Whether the source is given as an image.
    pub is_image: bool,
    pub steps: u32,
    /// The file of key events.
    pub keys: Option<&'a str>,
    pub settings: SettingArguments<'a>,
}

/// The arguments of a trace.
#[derive(Clone, Copy)]
pub struct TraceArguments<'a> {
    /// The run that is traced.
    pub run: RunArguments<'a>,
    /// The first step that is printed, 0 to 1000000.
    pub from: u32,
    /// Whether sums of the screen and of the memory are printed too.
    pub sums: bool,
    /// Whether JSON objects are printed instead of fields.
    pub is_json: bool,
    /// The file that contains the trace to compare the run with.
    pub against: Option<&'a str>,
}

/// The arguments of a picture.
#[derive(Clone, Copy)]
pub struct PictureArguments<'a> {
    /// The run whose last step the picture shows.
    pub run: RunArguments<'a>,
    /// Whether the picture is printed in ASCII instead of half blocks.
    pub ascii: bool,
    /// The file for a portable bitmap.
    pub bitmap: Option<&'a str>,
    /// The file for a PNG picture.
    pub png: Option<&'a str>,
    /// The scale of pictures in files: the side of the square, in pixels, that shows a pixel of the screen.
    pub scale: u32,
}

/// The arguments of a test.
#[derive(Drop)]
pub struct TestArguments<'a> {
    /// The files of cases, in the order of the arguments.
    pub files: Vec<&'a str>,
    /// Whether the actual answers are written into the files.
    pub is_update: bool,
    /// Whether the report is in the format of the Test Anything Protocol.
    pub is_tap: bool,
}

/// The arguments of a search over all key scripts.
#[derive(Clone, Copy)]
pub struct SearchArguments<'a> {
    pub source: &'a str,
    /// The step up to which the search goes, 0 to 1000000.
    pub steps: Option<u32>,
    /// The maximum number of states that the search stores.
    pub states: u32,
    /// The maximum memory of the search, in megabytes (of 1,000,000 bytes).
    pub memory: u32,
    /// The number of seconds after which the search ends, 1 to 1000000.
    pub seconds: Option<u32>,
    /// Whether a second search, deepest states first, follows if the first search stores the maximum of states.
    pub is_deep: bool,
    /// Whether to report an answer of `never` at any speed, for which the search may use all states.
    pub is_any_speed: bool,
    /// The keys that a player can use, separated by commas.
    pub allowed_keys: Option<&'a str>,
    /// The file for the key events of the script that the search finds.
    pub keys_to: Option<&'a str>,
    /// Whether standard error shows the progress of the search.
    pub is_progress_shown: bool,
    /// Whether the search begins at once, without asking for facts first.
    pub is_without_facts: bool,
    pub settings: SettingArguments<'a>,
}

/// The arguments of `explore`.
#[derive(Clone, Copy)]
pub struct ExploreArguments<'a> {
    pub search: SearchArguments<'a>,
    /// Whether the source is given as an image.
    pub is_image: bool,
    /// The stop causes to look for, separated by commas.
    pub causes: Option<&'a str>,
    /// The place to look for: a name of the source, or an address after `#`.
    pub place: Option<&'a str>,
    /// The condition that must never hold, with its place.
    pub never: Option<&'a str>,
    /// The condition that must always hold, with its place.
    pub always: Option<&'a str>,
    /// Whether the listing is printed, with marks before the executed lines.
    pub is_covering: bool,
}

/// The arguments of `prove`.
#[derive(Clone, Copy)]
pub struct ProveArguments<'a> {
    pub search: SearchArguments<'a>,
    /// The line of the only property to answer, 1 to 1000000.
    pub only: Option<u32>,
    /// Whether JSON objects are printed instead of text.
    pub is_json: bool,
}

/// The settings in the arguments.
#[derive(Clone, Copy)]
pub struct SettingArguments<'a> {
    /// The number of steps per tick, 1 to 1000.
    pub rate: u32,
    /// The tape in hexadecimal.
    pub tape: Option<&'a str>,
    /// The seed of the tape.
    pub seed: Option<u64>,
    /// The quirks of the machine.
    pub quirks: Quirks,
    /// The number of steps between two checkpoints of a session's run.
    pub spacing: u32,
}

impl<'a> SettingArguments<'a> {
    /// The settings if no argument sets them.
    pub const DEFAULT: SettingArguments<'static> = SettingArguments {
        rate: DEFAULT_RATE,
        tape: None,
        seed: None,
        quirks: Quirks::SCHIP,
        spacing: LEAST_SPACING,
    };
}

// The command that runs if the arguments name none: a session on the empty source.
const EMPTY_SESSION: CommandLine<'static> = CommandLine::Debug {
    source: None,
    is_image: false,
    is_quiet: false,
    settings: SettingArguments::DEFAULT,
};

/// Reads the arguments after the program's name.
///
/// # Errors
///
/// A fault of the arguments, a request for help, or out of memory.
pub fn parse_arguments<'a, S: AsStr>(
    alloc: Global,
    arguments: &'a [S],
) -> Result<CommandLine<'a>, Error>
    ensures fault { FailsBy (argument_faults (map S.text arguments.entry.now)) result }
    ensures asked { IfOk result (AsksFor (map S.text arguments.entry.now)) }
    ensures none { arguments.entry.now ≡ [] → result ≡ Ok (CommandLine.Debug None false false default_arguments) }
{
    let Some(first) = arguments.first() else {
        return Ok(EMPTY_SESSION);
    };
    let matches = chipbench_for(alloc, first.as_str())?.try_get_matches_from(arguments)?;
    match matches.subcommand() {
        Some((name, found)) => command_asked(alloc, name, found),
        None => Ok(EMPTY_SESSION),
    }
}

// Returns the command with this name and these values. The last arm is for `debug`.
fn command_asked<'a>(
    alloc: Global,
    name: &str,
    found: &ArgMatches<'a>,
) -> Result<CommandLine<'a>, Error>
    requires { IsOneOf name.now command_names }
    ensures asked { IfOk result (Asks name.now (rows_in found.now)) }
    ensures fault { FailsBy (value_faults (rows_in found.now)) result }
{
    let quirks = judged(alloc, found)?;
    match name {
        "asm" => Ok(CommandLine::Asm {
            source: required_text(found, "source"),
            image: required_text(found, "output"),
        }),
        "list" => Ok(CommandLine::List {
            source: required_text(found, "source"),
            is_image: is_set(found, "image"),
            is_hex: is_set(found, "hex"),
        }),
        "syms" => Ok(CommandLine::Syms {
            source: required_text(found, "source"),
            is_hex: is_set(found, "hex"),
        }),
        "check" => Ok(CommandLine::Check(check_arguments(alloc, found, quirks)?)),
        "dis" => Ok(CommandLine::Dis {
            image: required_text(found, "image"),
        }),
        "run" => Ok(CommandLine::Run(run_arguments(found, quirks))),
        "trace" => Ok(CommandLine::Trace(trace_arguments(found, quirks))),
        "picture" => Ok(CommandLine::Picture(picture_arguments(found, quirks))),
        "test" => Ok(CommandLine::Test(test_arguments(alloc, found)?)),
        "explore" => Ok(CommandLine::Explore(explore_arguments(found, quirks))),
        "prove" => Ok(CommandLine::Prove(prove_arguments(found, quirks))),
        "explain" => Ok(CommandLine::Explain {
            code: value(found, "code"),
        }),
        "licences" => Ok(CommandLine::Licences),
        _ => Ok(CommandLine::Debug {
            source: value(found, "source"),
            is_image: is_set(found, "image"),
            is_quiet: is_set(found, "quiet"),
            settings: setting_arguments(found, quirks),
        }),
    }
}

// Checks for values that `clap` accepts and the program doesn't, and returns the quirks that the values name.
fn judged(alloc: Global, found: &ArgMatches<'_>) -> Result<Quirks, Error>
    ensures quirks { IfOk result (AsksQuirks (rows_in found.now)) }
    ensures fault { FailsBy (value_faults (rows_in found.now)) result }
{
    check_numbers(alloc, found, &NUMBERS)?;
    check_new_files(alloc, found, &NEW_FILES)?;
    check_clashes(alloc, found)?;
    check_color(alloc, found)?;
    quirks_asked(alloc, found)
}

// Rejects numbers that contain anything except decimal digits, because `clap` accepts a sign before the digits.
fn check_numbers(
    alloc: Global,
    found: &ArgMatches<'_>,
    arguments: &[(&str, &str)],
) -> Result<(), Error>
    ensures { FailsBy (first_value_fault number_fault (map (λ argument. argument.0.now) arguments.now)
        (rows_in found.now)) result }
{
    for (id, shown) in arguments {
        check_number(alloc, found, id, shown)?;
    }
    Ok(())
}

// Rejects `-` as the name of a file to write.
fn check_new_files(
    alloc: Global,
    found: &ArgMatches<'_>,
    arguments: &[(&str, &str)],
) -> Result<(), Error>
    ensures { FailsBy (first_value_fault new_file_fault (map (λ argument. argument.0.now) arguments.now)
        (rows_in found.now)) result }
{
    for (id, shown) in arguments {
        check_new_file(alloc, found, id, shown)?;
    }
    Ok(())
}

// Rejects arguments that can't be used together, and an argument without the ones that it needs.
fn check_clashes(alloc: Global, found: &ArgMatches<'_>) -> Result<(), Error>
    ensures { FailsBy (clash_faults (rows_in found.now)) result }
{
    let message = "the argument '--json' cannot be used with '--against <FILE>'";
    check_clash(alloc, found, "json", "against", message)?;
    let message = "the argument '--ascii' cannot be used with '--pbm <FILE>'";
    check_clash(alloc, found, "ascii", "pbm", message)?;
    let message = "the argument '--ascii' cannot be used with '--png <FILE>'";
    check_clash(alloc, found, "ascii", "png", message)?;
    check_both(alloc, found)?;
    check_scale(alloc, found)
}

// Rejects a flag together with an argument that can't be combined with it.
fn check_clash(
    alloc: Global,
    found: &ArgMatches<'_>,
    flag: &str,
    other: &str,
    message: &str,
) -> Result<(), Error>
    ensures { FailsBy (clash_fault (first_of flag.now (rows_in found.now))
        (first_of other.now (rows_in found.now))) result }
{
    match (value(found, flag), value(found, other)) {
        (Some("true"), Some(_)) => {
            Err(usage_error(alloc, ErrorKind::ArgumentConflict, message)?)
        }
        _ => Ok(()),
    }
}

// Rejects two properties, because a search takes only one.
fn check_both(alloc: Global, found: &ArgMatches<'_>) -> Result<(), Error>
    ensures { FailsBy (both_fault (first_of (codes "never") (rows_in found.now))
        (first_of (codes "always") (rows_in found.now))) result }
{
    match (value(found, "never"), value(found, "always")) {
        (Some(_), Some(_)) => {
            let message = "the argument '--never <TEXT>' cannot be used with '--always <TEXT>'";
            Err(usage_error(alloc, ErrorKind::ArgumentConflict, message)?)
        }
        _ => Ok(()),
    }
}

// Rejects a scale without a file for the picture, because only pictures in files are scaled.
fn check_scale(alloc: Global, found: &ArgMatches<'_>) -> Result<(), Error>
    ensures { FailsBy (scale_fault (first_of (codes "scale") (rows_in found.now))
        (first_of (codes "pbm") (rows_in found.now)) (first_of (codes "png") (rows_in found.now)))
        result }
{
    match (
        value(found, "scale"),
        value(found, "pbm"),
        value(found, "png"),
    ) {
        (Some(_), None, None) => {
            let message = "the argument '--scale <K>' needs '--pbm <FILE>' or '--png <FILE>'";
            Err(usage_error(alloc, ErrorKind::MissingRequiredArgument, message)?)
        }
        _ => Ok(()),
    }
}

fn check_number(alloc: Global, found: &ArgMatches<'_>, id: &str, shown: &str) -> Result<(), Error>
    ensures { FailsBy (number_fault (first_of id.now (rows_in found.now))) result }
{
    match value(found, id) {
        Some(text) if !is_decimal(text) => {
            let message = format!(in alloc;
                "invalid value '{text}' for '{shown}': invalid digit found in string"
            )?;
            Err(usage_error(alloc, ErrorKind::ValueValidation, message.as_str())?)
        }
        _ => Ok(()),
    }
}

fn check_new_file(alloc: Global, found: &ArgMatches<'_>, id: &str, shown: &str) -> Result<(), Error>
    ensures { FailsBy (new_file_fault (first_of id.now (rows_in found.now))) result }
{
    match value(found, id) {
        Some("-") => {
            let message = format!(in alloc; "{shown} can't be standard output")?;
            Err(usage_error(alloc, ErrorKind::InvalidValue, message.as_str())?)
        }
        _ => Ok(()),
    }
}

fn check_color(alloc: Global, found: &ArgMatches<'_>) -> Result<(), Error>
    ensures { FailsBy (color_fault (first_of (codes "color") (rows_in found.now))) result }
{
    match value(found, "color") {
        None | Some("auto" | "always" | "never") => Ok(()),
        Some(word) => {
            let message = format!(in alloc;
                "invalid value '{word}' for '--color <WHEN>'\n  [possible values: auto, always, never]"
            )?;
            Err(usage_error(alloc, ErrorKind::InvalidValue, message.as_str())?)
        }
    }
}

// Whether a text contains only decimal digits.
fn is_decimal(text: &str) -> bool
    ensures { result ≡ list_all is_ascii_digit text.now }
{
    text.as_bytes().iter().all(|byte| byte.is_ascii_digit())
}

/// Returns the fault of arguments that aren't text.
pub fn not_text(alloc: Global) -> Result<Error, AllocError>
    ensures { IfOk result (λ error. kind_of error ≡ ErrorKind.InvalidValue) }
{
    usage_error(
        alloc,
        ErrorKind::InvalidValue,
        "invalid UTF-8 was detected in one or more arguments",
    )
}

// Returns a fault of the arguments that `clap` doesn't detect.
fn usage_error(alloc: Global, kind: ErrorKind, message: &str) -> Result<Error, AllocError>
    ensures { IfOk result (λ error. kind_of error ≡ kind) }
{
    chipbench(alloc)?.error(kind, message)
}

// Returns the quirks of the named profile, or of SUPER-CHIP if none is named, changed by the choices in a list.
fn quirks_asked(alloc: Global, found: &ArgMatches<'_>) -> Result<Quirks, Error>
    ensures asked { IfOk result (AsksQuirks (rows_in found.now)) }
    ensures fault { FailsBy (quirks_fault (first_of (codes "profile") (rows_in found.now))
        (first_of (codes "quirks") (rows_in found.now))) result }
{
    let (name, list) = (value(found, "profile"), value(found, "quirks"));
    let Some(profile) = Profile::asked(name) else {
        let name = name.unwrap_or("");
        let names = PROFILES.join(alloc, ", ")?;
        let message = format!(in alloc;
            "invalid value '{name}' for '--profile <NAME>'\n  [possible values: {names}]"
        )?;
        return Err(usage_error(alloc, ErrorKind::InvalidValue, message.as_str())?);
    };
    let Some(quirks) = profile.quirks().asked(list) else {
        let list = list.unwrap_or("");
        let choices = QUIRKS.join(alloc, ", ")?;
        let message = format!(in alloc;
            "invalid value '{list}' for '--quirks <LIST>'\n  [each quirk once at most: {choices}]"
        )?;
        return Err(usage_error(alloc, ErrorKind::InvalidValue, message.as_str())?);
    };
    Ok(quirks)
}

// Returns the first value of an argument, if it has one.
#[tactic(auto, using(crate::proofs::WordLemmas::first_is))]
fn value<'a>(found: &ArgMatches<'a>, id: &str) -> Option<&'a str>
    ensures { option_copied result ≡ first_of id.now (rows_in found.now) }
{
    found.get_str(id)
}

// Returns the text of an argument that `clap` requires.
fn required_text<'a>(found: &ArgMatches<'a>, id: &str) -> &'a str
    ensures { result.now ≡ needed id.now (rows_in found.now) }
{
    value(found, id).unwrap_or("")
}

// Returns all values of an argument.
fn texts<'a>(alloc: Global, found: &ArgMatches<'a>, id: &str) -> Result<Vec<&'a str>, AllocError>
    ensures { IfOk result (λ texts. map (λ text. text.now) texts.items
        ≡ unwrap_or (all_of id.now (rows_in found.now)) []) }
{
    Vec::from_slice(alloc, found.get_strs(id).unwrap_or(&[]))
}

#[tactic(auto, using(crate::proofs::WordLemmas::flag_is))]
fn is_set(found: &ArgMatches<'_>, id: &str) -> bool
    ensures { AsksFlag (one_of id.now (rows_in found.now)) result }
{
    found.get_flag(id)
}

fn number_of(found: &ArgMatches<'_>, id: &str) -> Option<u32>
    ensures { ReadsNumber 32 (first_of id.now (rows_in found.now)) result }
{
    number(value(found, id))
}

fn number_or(found: &ArgMatches<'_>, id: &str, default: u32) -> u32
    ensures { ReadsOr 32 (first_of id.now (rows_in found.now)) default result }
{
    number_of(found, id).unwrap_or(default)
}

/// Returns the number that a text of decimal digits represents, if the number fits in 32 bits. Returns
/// `None` for any other text.
pub fn number(text: Option<&str>) -> Option<u32>
    ensures { ReadsNumber 32 (option_copied text.entry) result }
{
    let text = text?;
    if is_decimal(text) {
        text.parse().ok()
    } else {
        None
    }
}

/// Returns the seed that a text of decimal digits represents, if it fits in 64 bits, and otherwise `None`.
pub fn seed(text: Option<&str>) -> Option<u64>
    ensures { ReadsNumber 64 (option_copied text.entry) result }
{
    let text = text?;
    if is_decimal(text) {
        text.parse().ok()
    } else {
        None
    }
}

fn run_arguments<'a>(found: &ArgMatches<'a>, quirks: Quirks) -> RunArguments<'a>
    ensures { AsksQuirks (rows_in found.now) quirks → AsksRun (rows_in found.now) result }
{
    RunArguments {
        source: required_text(found, "source"),
        is_image: is_set(found, "image"),
        steps: number_or(found, "steps", 0),
        keys: value(found, "keys"),
        settings: setting_arguments(found, quirks),
    }
}

fn check_arguments<'a>(
    alloc: Global,
    found: &ArgMatches<'a>,
    quirks: Quirks,
) -> Result<CheckArguments<'a>, AllocError>
    ensures { AsksQuirks (rows_in found.now) quirks → IfOk result (AsksCheck (rows_in found.now)) }
{
    Ok(CheckArguments {
        sources: texts(alloc, found, "sources")?,
        is_json: is_set(found, "json"),
        allowed: value(found, "allow"),
        color: color_asked(value(found, "color")),
        settings: setting_arguments(found, quirks),
        is_covering: is_set(found, "cover"),
        seconds: number_of(found, "seconds"),
    })
}

// Returns the choice of colours that a word names.
fn color_asked(word: Option<&str>) -> ColorChoice
    ensures { result ≡ color_asked (option_copied word.entry) }
{
    match word {
        Some("always") => ColorChoice::Always,
        Some("never") => ColorChoice::Never,
        _ => ColorChoice::Auto,
    }
}

fn trace_arguments<'a>(found: &ArgMatches<'a>, quirks: Quirks) -> TraceArguments<'a>
    ensures { AsksQuirks (rows_in found.now) quirks → AsksTrace (rows_in found.now) result }
{
    TraceArguments {
        run: run_arguments(found, quirks),
        from: number_or(found, "from", 0),
        sums: is_set(found, "hash"),
        is_json: is_set(found, "json"),
        against: value(found, "against"),
    }
}

fn picture_arguments<'a>(found: &ArgMatches<'a>, quirks: Quirks) -> PictureArguments<'a>
    ensures { AsksQuirks (rows_in found.now) quirks → AsksPicture (rows_in found.now) result }
{
    PictureArguments {
        run: run_arguments(found, quirks),
        ascii: is_set(found, "ascii"),
        bitmap: value(found, "pbm"),
        png: value(found, "png"),
        scale: number_or(found, "scale", 1),
    }
}

fn test_arguments<'a>(
    alloc: Global,
    found: &ArgMatches<'a>,
) -> Result<TestArguments<'a>, AllocError>
    ensures { IfOk result (AsksTest (rows_in found.now)) }
{
    Ok(TestArguments {
        files: texts(alloc, found, "files")?,
        is_update: is_set(found, "update"),
        is_tap: is_set(found, "tap"),
    })
}

fn search_arguments<'a>(found: &ArgMatches<'a>, quirks: Quirks) -> SearchArguments<'a>
    ensures { AsksQuirks (rows_in found.now) quirks → AsksSearch (rows_in found.now) result }
{
    SearchArguments {
        source: required_text(found, "source"),
        steps: number_of(found, "steps"),
        states: number_or(found, "states", USUAL_STATES),
        memory: number_or(found, "memory", USUAL_MEMORY),
        seconds: number_of(found, "seconds"),
        is_deep: is_set(found, "deep"),
        is_any_speed: is_set(found, "any-speed"),
        allowed_keys: value(found, "keys-allowed"),
        keys_to: value(found, "keys-to"),
        is_progress_shown: is_set(found, "progress"),
        is_without_facts: is_set(found, "no-facts"),
        settings: setting_arguments(found, quirks),
    }
}

fn explore_arguments<'a>(found: &ArgMatches<'a>, quirks: Quirks) -> ExploreArguments<'a>
    ensures { AsksQuirks (rows_in found.now) quirks → AsksExplore (rows_in found.now) result }
{
    ExploreArguments {
        search: search_arguments(found, quirks),
        is_image: is_set(found, "image"),
        causes: value(found, "want"),
        place: value(found, "reach"),
        never: value(found, "never"),
        always: value(found, "always"),
        is_covering: is_set(found, "cover"),
    }
}

fn prove_arguments<'a>(found: &ArgMatches<'a>, quirks: Quirks) -> ProveArguments<'a>
    ensures { AsksQuirks (rows_in found.now) quirks → AsksProve (rows_in found.now) result }
{
    ProveArguments {
        search: search_arguments(found, quirks),
        only: number_of(found, "only"),
        is_json: is_set(found, "json"),
    }
}

fn setting_arguments<'a>(found: &ArgMatches<'a>, quirks: Quirks) -> SettingArguments<'a>
    ensures { AsksQuirks (rows_in found.now) quirks → AsksSettings (rows_in found.now) result }
{
    SettingArguments {
        rate: number_or(found, "rate", DEFAULT_RATE),
        tape: value(found, "tape"),
        seed: seed(value(found, "seed")),
        quirks,
        spacing: number_or(found, "every", LEAST_SPACING),
    }
}
