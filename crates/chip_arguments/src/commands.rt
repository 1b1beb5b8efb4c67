//! The commands of the program, as `clap` builds them.
ghost use Rattle.std.specs.Prelude.{◌≡◌, ℕ, List, ◌∷◌, IfOk, IfSome, codes, map};
ghost use Rattle.clap.specs.Words.{app_of, new_app};
ghost use Rattle.chip_arguments.specs.CommandLine as line;
ghost use Rattle.chip_arguments.specs.inner.Built.{IsRowOf, JudgesAsAll, Makes, app_of_row};

use crate::arguments::Argument;
use clap::Command;
use std::alloc::{AllocError, Global};

/// The version of the workbench, and the logic of its proofs as the end of `rt version` names it.
pub const VERSION: &str = "1.0 (logic dac8208d650f15bf)";

const PROGRAM_NOTES: &str = "\
Without a command, the program runs `debug` with an empty source.

Example: chipbench run game.asm --steps 1000";

const DEBUG_NOTES: &str = "\
Commands and examples; N is the number of a line, S a step, K a key, A an address:
  ins N TEXT    inserts a line before line N       ins 3 LD V0, 5
  rep N TEXT    replaces line N                    rep 3 LD V0, 6
  del N         deletes line N                     del 3
  kins S K down|up  adds a key event               kins 20 5 down
  krep S K down|up  changes a key event            krep 20 5 up
  kdel S K      deletes a key event                kdel 20 5
  image         the image in hexadecimal           image
  syms          the names and their values         syms
  list          the listing                        list
  faults        the faults, `LINE CODE`            faults
  regs S        the registers at step S            regs 100
  mem S A N     N bytes of memory from A           mem 100 #200 16
  screen S      the lit rows of the screen         screen 100
  dis S A N     N words of memory from A           dis 100 #200 8
Numbers are decimal, or hexadecimal after `#`: key A is 10 or #A. An answer is `ok`, `no CODE`, or lines.
`chipbench explain CODE` explains a code, and `chipbench explain regs` a command.
At a terminal, standard error says why a command is refused. All commands: docs/FORMATS.md;
the language of sources: docs/LANGUAGE.md; the machine: docs/MACHINE.md; a guide: docs/GUIDE.md.

Example: chipbench debug game.asm --rate 15 --seed 7";

const CHECK_NOTES: &str = "\
With --cover, W8 marks each instruction that no key script executes, for that tape and the rate 10. The search may
take some seconds, and keeps up to 1000000 states and 1000 MB. If it ends there, or by --seconds, W8 names the step
that it has covered.
Without --tape and --seed, W9 marks the first RND, because each random byte is then 0.

Example: chipbench check game.asm --allow W2";

const TEST_NOTES: &str = "\
A file of cases, line by line:
  case NAME            begins a case; a file without it is one case
  source .. end        the lines of the source, between these two
  source NAME          the source is a file, named from the test's folder
  image NAME           the source is what `dis` prints for that file
  keys NAME            the key events, a file of lines `S K down` and `S K up`
  profile, quirks, rate, tape, seed, every  the settings, as `run` and `debug` take them
  > COMMAND            a command of `debug`; the lines below it are its answer
  ! COMMAND            a command that is refused; the line below it is `no CODE`
  ...                  in an answer: any number of lines
  # ..                 a comment
Status: 0 if all cases pass, 1 if one fails, 3 if a file can't be read.

Example: chipbench test game.test";

const EXPLORE_NOTES: &str = "\
First, `explore` tries to prove that nothing it looks for ever happens, for any keys, random bytes and speed. If it
can, it prints `never`, `for any keys, random bytes and speed`, and `facts N`, the number of facts in the proof.
Otherwise it searches all key scripts, and prints one of these:
  Sk T                 some key script makes the machine stop for Sk at step T, and none does earlier;
                       the next line, `keys N`, counts the key events of that script
  reached T            the same for the place that --reach names
                       a third line `within M`, only with --deep: some script may do it earlier, but none
                       up to step M
  within N             no key script makes it stop for a wanted cause, or reach the place, up to step N
  never                no key script does at any step below 2^64 - 1
  broken T             some script breaks the property of --never or --always at step T
  never at any speed   only with --any-speed: nor at any rate, nor whenever else the timers tick
Then it prints a line `Sj T` for each other cause that it met, with the least such step, and `states N`.
  left Sk ADDRESS      a stop that it could not exclude: the machine may stop at this address for Sk. For any
                       keys, random bytes and speed, each stop for a wanted cause has such a line
With --cover, the listing follows, with `+ ` before each line at whose address some script makes a step.
A line of code without it is executed under no key script, up to the step that is printed, or ever.
A key script is any choice of the allowed keys at each step. Tape, profile and rate are fixed, except that
`never at any speed` covers every rate.
Status: 0 for `within` and `never`, 1 if a script is found or the source has faults, 4 if memory runs out; what was
covered until then is printed.

Example: chipbench explore game.asm --keys-to crash.keys";

const PROVE_NOTES: &str = "\
A property is a line that begins with `;!`, which other assemblers read as a comment:
  ;! V0 + V4 <= 8 here         holds whenever pc is at the address of the next statement
  ;! always [LIVES] <= 3       holds before each step
  ;! never VF = 1 at ADDED     never holds at this label
  ;! ever at WIN               some player gets there
First, `prove` tries to prove each property, except `can`, for any keys, random bytes and speed. Then it searches
all key scripts for the others. Each answer follows the place of the line, and precedes its text:
  proved for any keys, random bytes and speed
  broken at step T             some key script breaks it at step T, and none does earlier
  broken at step T, unbroken up to step M    only with --deep: some may do so earlier, but none up to M
  unbroken up to step N        no key script breaks it up to step N
  proved                       no key script breaks it at any step below 2^64 - 1, with this tape and rate
  proved at any speed          only with --any-speed: nor whenever else the timers tick
  reached at step T, not reached up to step N, never reached    the same for `ever`
Then it prints `facts N`, the number of facts in the proofs of the first kind, and `states N`. A key script is any
choice of the allowed keys at each step. A search has one tape, one profile and, except for answers at any speed, one
rate. The language of properties: docs/LANGUAGE.md.
Status: 0 if nothing is broken and each `ever` is reached, 1 otherwise, or if a property can't be read or the source
has faults, 4 if memory runs out; what was covered until then is printed.

Example: chipbench prove game.asm --keys-to break.keys";

/// A command of the program.
pub(crate) struct CommandRow {
    name: &'static str,
    /// A sentence that describes what the command does.
    about: &'static str,
    /// The text below the help of the command: an example.
    notes: &'static str,
    arguments: &'static [Argument],
}

// The commands, in the order of the help.
const COMMANDS: [CommandRow; 14] = [
    CommandRow {
        name: "debug",
        about: "Answers the edits and questions on standard input, one per line",
        notes: DEBUG_NOTES,
        arguments: &[
            Argument::Source,
            Argument::Rate,
            Argument::Tape,
            Argument::Seed,
            Argument::Profile,
            Argument::Quirks,
            Argument::Every,
            Argument::AsImage,
            Argument::Quiet,
        ],
    },
    CommandRow {
        name: "asm",
        about: "Writes the image of a source to a file, or prints the source's faults",
        notes: "Example: chipbench asm game.asm game.ch8",
        arguments: &[Argument::NeededSource, Argument::Output],
    },
    CommandRow {
        name: "list",
        about: "Prints the listing of a source",
        notes: "Example: chipbench list game.asm",
        arguments: &[Argument::NeededSource, Argument::Hex, Argument::AsImage],
    },
    CommandRow {
        name: "syms",
        about: "Prints the names in a source, each with its value and its line",
        notes: "Example: chipbench syms game.asm --hex",
        arguments: &[Argument::NeededSource, Argument::Hex],
    },
    CommandRow {
        name: "dis",
        about: "Prints a source that assembles to an image",
        notes: "Example: chipbench dis game.ch8",
        arguments: &[Argument::Image],
    },
    CommandRow {
        name: "run",
        about: "Prints the registers and the screen after a number of steps",
        notes: "Example: chipbench run game.asm --steps 1000 --tape 0fa3",
        arguments: &[
            Argument::NeededSource,
            Argument::Steps,
            Argument::Rate,
            Argument::Tape,
            Argument::Seed,
            Argument::Profile,
            Argument::Quirks,
            Argument::Keys,
            Argument::AsImage,
        ],
    },
    CommandRow {
        name: "trace",
        about: "Prints a line for each step: registers, timers and the instruction",
        notes: "Example: chipbench trace game.asm --steps 1000 --from 900",
        arguments: &[
            Argument::NeededSource,
            Argument::Steps,
            Argument::Rate,
            Argument::Tape,
            Argument::Seed,
            Argument::Profile,
            Argument::Quirks,
            Argument::Keys,
            Argument::AsImage,
            Argument::From,
            Argument::Hash,
            Argument::Json,
            Argument::Against,
        ],
    },
    CommandRow {
        name: "picture",
        about: "Prints the screen after a number of steps, two pixels per character",
        notes: "Example: chipbench picture game.asm --steps 1000 --keys game.keys",
        arguments: &[
            Argument::NeededSource,
            Argument::Steps,
            Argument::Rate,
            Argument::Tape,
            Argument::Seed,
            Argument::Profile,
            Argument::Quirks,
            Argument::Keys,
            Argument::AsImage,
            Argument::Ascii,
            Argument::Pbm,
            Argument::Png,
            Argument::Scale,
        ],
    },
    CommandRow {
        name: "check",
        about: "Prints each fault of a source with its place and an explanation, and warnings",
        notes: CHECK_NOTES,
        arguments: &[
            Argument::Sources,
            Argument::Json,
            Argument::Allow,
            Argument::CheckCover,
            Argument::Seconds,
            Argument::Color,
            Argument::Tape,
            Argument::Seed,
            Argument::Profile,
            Argument::Quirks,
        ],
    },
    CommandRow {
        name: "test",
        about: "Compares the answers of sessions with the answers that files expect",
        notes: TEST_NOTES,
        arguments: &[Argument::Files, Argument::Update, Argument::Tap],
    },
    CommandRow {
        name: "explore",
        about: "Searches all key scripts for one that stops the machine",
        notes: EXPLORE_NOTES,
        arguments: &[
            Argument::NeededSource,
            Argument::SearchSteps,
            Argument::States,
            Argument::Memory,
            Argument::Seconds,
            Argument::Deep,
            Argument::AnySpeed,
            Argument::AllowedKeys,
            Argument::KeysTo,
            Argument::Progress,
            Argument::NoFacts,
            Argument::Rate,
            Argument::Tape,
            Argument::Seed,
            Argument::Profile,
            Argument::Quirks,
            Argument::AsImage,
            Argument::Want,
            Argument::Reach,
            Argument::Never,
            Argument::Always,
            Argument::Cover,
        ],
    },
    CommandRow {
        name: "prove",
        about: "Proves or refutes each property that a source states, as in `;! always V3 <= 9`",
        notes: PROVE_NOTES,
        arguments: &[
            Argument::NeededSource,
            Argument::SearchSteps,
            Argument::States,
            Argument::Memory,
            Argument::Seconds,
            Argument::Deep,
            Argument::AnySpeed,
            Argument::AllowedKeys,
            Argument::KeysToPath,
            Argument::Progress,
            Argument::NoFacts,
            Argument::Rate,
            Argument::Tape,
            Argument::Seed,
            Argument::Profile,
            Argument::Quirks,
            Argument::Only,
            Argument::Json,
        ],
    },
    CommandRow {
        name: "explain",
        about: "Explains a code or a command of `debug`, with an example",
        notes: "Example: chipbench explain F9",
        arguments: &[Argument::Code],
    },
    CommandRow {
        name: "licences",
        about: "Prints the licences of the program and of the libraries in it",
        notes: "Example: chipbench licences",
        arguments: &[],
    },
];

/// Returns the program with its commands.
pub(crate) fn chipbench<'a>(alloc: Global) -> Result<Command<'a>, AllocError>
    ensures { IfOk result (λ command. app_of command ≡ line.chipbench) }
{
    with_commands(alloc, program(alloc)?, &COMMANDS)
}

/// Returns the program for arguments that begin with `word`. The program contains only the command of that
/// name or, if there is none, all commands. A single command shortens the start of a process by an eighth.
/// The result is the same as with all commands, because `clap` stops at the first word and continues with
/// the command that the word names.
pub(crate) fn chipbench_for<'a>(alloc: Global, word: &str) -> Result<Command<'a>, AllocError>
    ensures { IfOk result (λ command. (rest : List (List ℕ))
        → JudgesAsAll (word.now ∷ rest) (app_of command)) }
{
    match row_named(&COMMANDS, word) {
        Some(row) => program(alloc)?.subcommand(row.command(alloc)?),
        None => chipbench(alloc),
    }
}

// Returns the row of the command with this name, if there is one.
fn row_named<'a>(rows: &'a [CommandRow], name: &str) -> Option<&'a CommandRow>
    ensures { IfSome result (λ row. IsRowOf rows.now name.now row.now) }
{
    rows.iter().find(|row| row.name == name)
}

/// Returns the names of the commands that take an argument `--NAME`, in the order of the help.
///
/// # Errors
///
/// Out of memory.
pub fn commands_with(alloc: Global, name: &str) -> Result<Vec<&'static str>, AllocError> {
    let mut names = Vec::new(alloc);
    for row in &COMMANDS {
        if row.takes(alloc, name) {
            names.push(row.name)?;
        }
    }
    Ok(names)
}

// Returns the program without its commands.
fn program<'a>(alloc: Global) -> Result<Command<'a>, AllocError>
    ensures { IfOk result (λ command. app_of command
        ≡ line.without_name (line.with_version (new_app (codes "chipbench")))) }
{
    new_command(
        alloc,
        "chipbench",
        "An assembler for SUPER-CHIP 1.1, and a debugger that replays the image to any step",
        PROGRAM_NOTES,
    )
    .version(VERSION)
    .no_binary_name(true)
    .bin_name("chipbench")
}

// Adds commands in order.
fn with_commands<'a>(
    alloc: Global,
    mut command: Command<'a>,
    rows: &[CommandRow],
) -> Result<Command<'a>, AllocError>
    ensures { IfOk result (λ with. app_of with
        ≡ line.with_commands (app_of command.entry) (map app_of_row rows.now)) }
{
    for row in rows {
        command = command.subcommand(row.command(alloc)?)?;
    }
    Ok(command)
}

impl CommandRow {
    // Whether the command takes an argument `--NAME`.
    fn takes(&self, alloc: Global, name: &str) -> bool {
        for argument in self.arguments {
            if argument.build(alloc).get_long() == Some(name) {
                return true;
            }
        }
        false
    }

    fn command<'a>(&self, alloc: Global) -> Result<Command<'a>, AllocError>
        ensures { IfOk result (Makes (app_of_row self.now)) }
    {
        let mut command = new_command(alloc, self.name, self.about, self.notes);
        for argument in self.arguments {
            command = command.arg(argument.build(alloc))?;
        }
        Ok(command)
    }
}

// Returns a command without arguments.
fn new_command<'a>(alloc: Global, name: &'a str, about: &'a str, notes: &'a str) -> Command<'a>
    ensures { Makes (new_app name.entry.now) result }
{
    Command::new(alloc, name).about(about).after_help(notes)
}
