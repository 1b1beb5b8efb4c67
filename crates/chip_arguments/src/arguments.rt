//! The arguments of the commands, as `clap` builds them.
ghost use Rattle.std.specs.Prelude.{◌≡◌, false};
ghost use Rattle.clap.specs.Words.{rule_of};
ghost use Rattle.chip_arguments.specs.CommandLine as line;
ghost use Rattle.chip_arguments.specs.inner.Built.{rule_by};

use crate::limits::{MOST_LINE, MOST_MEMORY, MOST_SCALE, MOST_SECONDS, MOST_STATES};
use chip_replay::{LAST_STEP, LEAST_SPACING, MOST_RATE, MOST_SPACING};
use clap::builder::ValueParser;
use clap::{Arg, ArgAction, value_parser};
use std::alloc::Global;

/// An argument of a command.
#[derive(Clone, Copy)]
pub(crate) enum Argument {
    Source,
    NeededSource,
    Output,
    Image,
    Steps,
    Keys,
    From,
    Hash,
    Against,
    Ascii,
    Pbm,
    Png,
    Scale,
    Code,
    Files,
    Update,
    Tap,
    Rate,
    Tape,
    Seed,
    Profile,
    Quirks,
    Every,
    AsImage,
    SearchSteps,
    States,
    Memory,
    Deep,
    AnySpeed,
    Want,
    Never,
    Always,
    AllowedKeys,
    KeysTo,
    KeysToPath,
    Only,
    Seconds,
    Sources,
    Color,
    Json,
    Allow,
    Reach,
    Cover,
    CheckCover,
    NoFacts,
    Progress,
    Hex,
    Quiet,
}

impl Argument {
    /// Returns the argument in the form that `clap` takes.
    #[tactic(auto, unfolding(crate::proofs::ArgumentRules::argument_rules))]
    pub(crate) fn build<'a>(self, alloc: Global) -> Arg<'a>
        ensures rule { rule_of result ≡ rule_by self }
        ensures local { result.global ≡ false }
    {
        let help = self.help();
        match self {
            Argument::Source => place(alloc, "source", "SOURCE", help),
            Argument::NeededSource => place(alloc, "source", "SOURCE", help).required(true),
            Argument::Output => place(alloc, "output", "IMAGE", help).required(true),
            Argument::Image => place(alloc, "image", "IMAGE", help).required(true),
            Argument::Steps => number(alloc, "steps", "N", help, 0, LAST_STEP).required(true),
            Argument::Keys => option(alloc, "keys", "FILE", help),
            Argument::From => number(alloc, "from", "M", help, 0, LAST_STEP).default_value("0"),
            Argument::Hash => flag(alloc, "hash", help),
            Argument::Against => option(alloc, "against", "FILE", help),
            Argument::Ascii => flag(alloc, "ascii", help),
            Argument::Pbm => option(alloc, "pbm", "FILE", help),
            Argument::Png => option(alloc, "png", "FILE", help),
            Argument::Scale => number(alloc, "scale", "K", help, 1, MOST_SCALE),
            Argument::Code => place(alloc, "code", "CODE", help),
            Argument::Files => place(alloc, "files", "FILE", help)
                .action(ArgAction::Append)
                .required(true),
            Argument::Update => flag(alloc, "update", help),
            Argument::Tap => flag(alloc, "tap", help),
            Argument::Rate => number(alloc, "rate", "N", help, 1, MOST_RATE).default_value("10"),
            Argument::Tape => option(alloc, "tape", "HEX", help),
            Argument::Seed => option(alloc, "seed", "N", help).value_parser(value_parser!(u64)),
            Argument::Profile => option(alloc, "profile", "NAME", help),
            Argument::Quirks => option(alloc, "quirks", "LIST", help),
            Argument::Every => number(alloc, "every", "P", help, LEAST_SPACING, MOST_SPACING),
            Argument::AsImage => flag(alloc, "image", help),
            Argument::SearchSteps => number(alloc, "steps", "N", help, 0, LAST_STEP),
            Argument::States => number(alloc, "states", "M", help, 1, MOST_STATES).default_value(
                "1000000",
            ),
            Argument::Memory => {
                number(alloc, "memory", "MB", help, 1, MOST_MEMORY).default_value("1000")
            }
            Argument::Deep => flag(alloc, "deep", help),
            Argument::AnySpeed => flag(alloc, "any-speed", help),
            Argument::Want => option(alloc, "want", "CAUSES", help),
            Argument::Never => option(alloc, "never", "TEXT", help),
            Argument::Always => option(alloc, "always", "TEXT", help),
            Argument::AllowedKeys => option(alloc, "keys-allowed", "KEYS", help),
            Argument::KeysTo => option(alloc, "keys-to", "FILE", help),
            Argument::KeysToPath => option(alloc, "keys-to", "PATH", help),
            Argument::Only => number(alloc, "only", "LINE", help, 1, MOST_LINE),
            Argument::Seconds => number(alloc, "seconds", "N", help, 1, MOST_SECONDS),
            Argument::Sources => place(alloc, "sources", "SOURCE", help)
                .action(ArgAction::Append)
                .required(true),
            Argument::Color => option(alloc, "color", "WHEN", help),
            Argument::Json => flag(alloc, "json", help),
            Argument::Allow => option(alloc, "allow", "CODES", help),
            Argument::Reach => option(alloc, "reach", "PLACE", help),
            Argument::Cover => flag(alloc, "cover", help),
            Argument::CheckCover => flag(alloc, "cover", help),
            Argument::NoFacts => flag(alloc, "no-facts", help),
            Argument::Progress => flag(alloc, "progress", help),
            Argument::Hex => flag(alloc, "hex", help),
            Argument::Quiet => flag(alloc, "quiet", help),
        }
    }

    // Returns the help text of the argument.
    fn help<'a>(self) -> &'a str {
        match self {
            Argument::Source => "The source to begin with [default: the empty source]",
            Argument::NeededSource => "The source, a file of text",
            Argument::Output => "The file to write, atomically",
            Argument::Image => "The image, a file of at most 3584 bytes",
            Argument::Steps => "How many steps to run, 0 to 1000000",
            Argument::Keys =>
                "A file of key events, with lines such as `10 4 down` and `12 4 up` [default: none]",
            Argument::From => "The first step to print",
            Argument::Hash => "Also prints sums of the screen and of the memory",
            Argument::Against =>
                "Compares with the trace in this file and prints the first difference",
            Argument::Ascii => "Prints ASCII instead of half blocks",
            Argument::Pbm => "Writes a portable bitmap to a file and prints nothing",
            Argument::Png => "Writes a PNG picture to a file and prints nothing",
            Argument::Scale =>
                "Draws each pixel as a square of K by K in the files of --pbm and --png, 1 to 16 \
                 [default: 1]",
            Argument::Code =>
                "F1 to F17, W1 to W9, P1 to P6, N1 to N10, Q1 to Q4, C1, C2, E1 to E4, O1 to O3, \
                 S1 to S7, or a command of `debug` such as regs [default: all, a line each]",
            Argument::Files => "The files of cases, one or more",
            Argument::Update => "Also writes the actual answers into the files, atomically",
            Argument::Tap => "Prints the outcome of each case in the Test Anything Protocol",
            Argument::Rate =>
                "How many steps there are between two ticks of the timers, 1 to 1000. A tick is 1/60 of a \
                 second, so 10 means 600 steps per second. The machine sounds while ST is above 0",
            Argument::Tape =>
                "The random bytes, 1 to 4096 in hexadecimal, used over and over [default: 00]",
            Argument::Seed =>
                "Makes 256 random bytes from a number, 0 to 18446744073709551615, instead of --tape",
            Argument::Profile =>
                "The machine: `schip` is SUPER-CHIP 1.1. `vip` is the COSMAC VIP, which lacks the \
                 instructions that SUPER-CHIP added and has other results for shifts, FX55 and FX65, \
                 BNNN, OR, AND and XOR, and the height 0. `chip48`, `schip10`, `schip-modern` and \
                 `octo` are machines between and after them [default: schip]",
            Argument::Quirks =>
                "Differences from the profile: choices separated by commas, at most one for each quirk: \
                 shift=vx|vy, memory=keep|x|x+1, jump=vx|v0, logic=keep|clear, \
                 edges=clip|wrap, dxy0=none|8x16|16x16, scroll=stored|whole, size=keep|clear, \
                 fx1e=keep|flag, instructions=super|base",
            Argument::Every =>
                "How many steps there are between two checkpoints of the run, 1000 to 100000. More steps \
                 take less memory, and fewer steps make edits and questions faster. No answer depends on \
                 it [default: 1000]",
            Argument::AsImage => "SOURCE is an image. The source is what `dis` prints for it",
            Argument::SearchSteps =>
                "Searches up to this step, 0 to 1000000 [default: until no state is new]",
            Argument::States => "How many states the search keeps at most, 1 to 100000000",
            Argument::Memory =>
                "How much memory the search takes at most, in megabytes, 1 to 1000000",
            Argument::Deep =>
                "If a bound of states or memory ends the search, searches once more, the deepest states \
                 first. The script that it finds may not be a shortest one",
            Argument::AnySpeed =>
                "First tries to answer for every speed, whenever the timers tick, and then for the rate alone",
            Argument::Want => "The stop causes to look for, S1 to S7 separated by commas [default: \
                 S2,S3,S4,S5,S6,S7, or none with --reach, --never or --always]",
            Argument::Never =>
                "Also looks for a step before which this holds, such as 'V3 > 63 at LOOP'",
            Argument::Always =>
                "Also looks for a step before which this does not hold, such as '[LIVES] <= 3'",
            Argument::AllowedKeys =>
                "The keys that a player has, 0 to 15 or A to F, separated by commas [default: all]",
            Argument::KeysTo =>
                "Writes the key events of the script that it finds to a file for `run --keys`",
            Argument::KeysToPath =>
                "Writes the key events of the first script that it finds to a file for `run --keys`. If \
                 PATH ends with `/`, writes the events of each script to a file in that folder, such as \
                 4.keys for line 4",
            Argument::Only => "Answers only the property in this line",
            Argument::Seconds =>
                "Ends the search after this many seconds, 1 to 1000000, and prints what it has covered",
            Argument::Sources => "The sources, files of text, one or more",
            Argument::Color =>
                "When to print colours: `auto`, `always` or `never`. `auto` prints them if standard \
                 output is a terminal and NO_COLOR is unset or empty [default: auto]",
            Argument::Json => "Prints one JSON object per line",
            Argument::Allow =>
                "The warnings to leave out, W1 to W9 and P1 to P6 separated by commas \
                 [default: none]",
            Argument::Reach =>
                "Also looks for a step at this label, or at an address such as '#2A0'",
            Argument::Cover =>
                "Also prints the listing, with a mark at each line that some key script executes",
            Argument::CheckCover =>
                "Also searches all key scripts, and warns about each instruction that none of them executes",
            Argument::NoFacts =>
                "Searches at once, without first trying to prove an answer for any keys, random bytes and speed",
            Argument::Progress =>
                "Reports the progress of the search on standard error, even if that is no terminal",
            Argument::Hex => "Prints the values of names in hexadecimal, as a source writes them",
            Argument::Quiet =>
                "At a terminal, prints only the answers: no prompt, and no explanation of a refusal",
        }
    }
}

// Returns an argument `--NAME VALUE`.
fn option<'a>(alloc: Global, name: &'a str, value: &'a str, help: &'a str) -> Arg<'a>
    ensures rule { rule_of result ≡ line.option name.entry.now }
    ensures local { result.global ≡ false }
{
    Arg::new(alloc, name)
        .long(name)
        .value_name(value)
        .help(help)
}

// Returns an argument `--NAME VALUE` whose value is a number in a range.
fn number<'a>(
    alloc: Global,
    name: &'a str,
    value: &'a str,
    help: &'a str,
    least: u32,
    most: u32,
) -> Arg<'a>
    ensures rule { rule_of result ≡ line.number name.entry.now least most }
    ensures local { result.global ≡ false }
{
    option(alloc, name, value, help).value_parser(ValueParser::signed(
        i64::from(least),
        i64::from(most),
    ))
}

// Returns an argument `--NAME` without a value.
fn flag<'a>(alloc: Global, name: &'a str, help: &'a str) -> Arg<'a>
    ensures rule { rule_of result ≡ line.flag name.entry.now }
    ensures local { result.global ≡ false }
{
    Arg::new(alloc, name)
        .long(name)
        .help(help)
        .action(ArgAction::SetTrue)
}

// Returns a positional argument.
fn place<'a>(alloc: Global, name: &'a str, value: &'a str, help: &'a str) -> Arg<'a>
    ensures rule { rule_of result ≡ line.place name.entry.now }
    ensures local { result.global ≡ false }
{
    Arg::new(alloc, name)
        .value_name(value)
        .help(help)
        .action(ArgAction::Set)
}
