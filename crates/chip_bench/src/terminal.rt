//! The messages that `debug` prints, in addition to its answers, for a user at a terminal.
ghost use Rattle.std.specs.Prelude.{◌≡◌, false};
ghost use Rattle.chip_bench.specs.Running.{AnswersScript};

use crate::output::answer_script;
use chip_analysis::tell_end;
use chip_asm::Source;
use chip_check::unopened_report;
use chip_host::{Ending, Failure, Shown};
use chip_pages::{Page, page_on, word_pages};
use chip_session::{Bench, CommandFault, Counted, Nobody, Observer, Refusal, Refused, Settings};
use std::alloc::Global;
use std::io::{Read, Write};
use std::str;

/// A session that begins with the bytes of a source.
#[derive(Clone, Copy)]
pub(crate) struct Begun<'a> {
    pub(crate) source: &'a [u8],
    /// The name of the source's file, if there is one.
    pub(crate) name: Option<&'a str>,
    /// Whether a user types the script and reads standard error.
    pub(crate) is_typed: bool,
}

/// Answers a script. If a user types it, messages on standard error describe the source, show when
/// the session waits for the next command, and explain why a command was refused.
pub(crate) fn answer_begun<'a, I: Read, O: Write, E: Write>(
    alloc: Global,
    begun: Begun<'_>,
    settings: Settings,
    input: &mut Counted<I>,
    output: &mut Counted<O>,
    errors: &mut E,
) -> Result<Ending, Failure<'a>>
    ensures answers { AnswersScript I.remaining O.contents settings begun.entry.source.now
        input.old input.new output.old output.new result }
    // If no user types the script, there are no messages.
    ensures silent { begun.entry.is_typed ≡ false → errors.new ≡ errors.old }
{
    if begun.is_typed {
        let mut terminal = Terminal {
            errors,
            name: begun.name,
        };
        let ended = answer_script(alloc, begun.source, settings, input, output, &mut terminal);
        terminal.say_unopened(alloc, begun.source, &ended);
        ended
    } else {
        answer_script(alloc, begun.source, settings, input, output, &mut Nobody)
    }
}

/// Returns the page about the first word of a command, if that word begins a known command.
pub(crate) fn word_page(command: &[u8]) -> Option<&'static Page> {
    word_pages().iter().find(|page| {
        matches!(
            command.strip_prefix(page.code.as_bytes()),
            Some([] | [b' ', ..])
        )
    })
}

// The user who types. Failures of standard error are ignored.
#[derive(Drop)]
struct Terminal<'e, E> {
    errors: &'e mut E,
    name: Option<&'e str>,
}

impl<'e, E: Write> Observer for Terminal<'e, E> {
    fn opened(&mut self, bench: &Bench) {
        if self.name.is_none() {
            self.say(
                "chipbench, a workbench for CHIP-8 games: `chipbench --help` lists its commands, \
                 `chipbench-shell` is the shell for people, `chipbench-page` opens the page\n",
            );
        }
        let name = Shown(self.name.unwrap_or("an empty source"));
        let _ = write!(self.errors, "{name}: ");
        self.say_lines(bench.source());
        self.say(", ");
        self.say_fault(bench.source());
        self.say("\n");
        tell_end(self.name.unwrap_or(""), bench.source(), self.errors);
        self.say("commands: ");
        self.say_words();
        self.say("\n`chipbench explain regs` explains one; Ctrl+D ends\n");
    }

    fn awaits(&mut self) {
        self.say("> ");
        let _ = self.errors.flush();
    }

    fn refused(&mut self, bench: &Bench, line: &[u8], why: Refused) {
        let Ok(code) = str::from_utf8(why.code()) else {
            return;
        };
        let Some(page) = page_on(code) else {
            return;
        };
        let title = match why {
            Refused::Line(CommandFault::Unknown) if word_page(line).is_some() => {
                "the words don't fit the command"
            }
            _ => page.title,
        };
        let _ = write!(self.errors, "{code}: {title}: ");
        match why {
            Refused::Line(CommandFault::Unknown) if matches!(line, b"help" | b"quit" | b"exit") => {
                self.say("`chipbench debug --help` lists the commands; Ctrl+D ends");
            }
            // The message shows a valid command: the form of the command that the first word names
            // or, if there is none, the first words of all commands.
            Refused::Line(CommandFault::Unknown) => {
                match word_page(line) {
                    Some(page) => {
                        self.say(page.title);
                        if matches!(page.code, "kins" | "krep" | "kdel") {
                            self.say("; K is a number, 0 to 15, such as 10 for the key A");
                        }
                    }
                    None => {
                        self.say("the commands are ");
                        self.say_words();
                    }
                }
            }
            Refused::Command(Refusal::Source(chip_asm::Refusal::NoSuchLine)) => {
                self.say("the source has ");
                self.say_lines(bench.source());
            }
            Refused::Command(Refusal::NoImage) => self.say_fault(bench.source()),
            _ => self.say(page.fix),
        }
        self.say("\n");
    }

    fn ended(&mut self) {
        self.say("\n");
    }
}

impl<'e, E: Write> Terminal<'e, E> {
    fn say(&mut self, text: &str) {
        let _ = self.errors.write_all(text.as_bytes());
    }

    // Prints why the source doesn't open, as `check` prints it. Only a session whose source doesn't
    // open ends as faulty.
    fn say_unopened(&mut self, alloc: Global, source: &[u8], ended: &Result<Ending, Failure<'_>>) {
        if !matches!(ended, Ok(Ending::Faulty)) {
            return;
        }
        let name = self.name.unwrap_or("");
        if let Err(error) = Source::open(alloc, source)
            && let Ok(report) = unopened_report(alloc, false, name.as_bytes(), error)
        {
            let _ = self.errors.write_all(&report);
        }
    }

    // Prints the number of lines in a source.
    fn say_lines(&mut self, source: &Source) {
        match source.lines() {
            1 => self.say("1 line"),
            count => {
                let _ = write!(self.errors, "{count} lines");
            }
        }
    }

    // Prints which line has the first fault, or that there are no faults.
    fn say_fault(&mut self, source: &Source) {
        for number in 1..=source.lines() {
            if let Some(fault) = source.fault(number) {
                let code = fault.number();
                let _ = write!(self.errors, "line {number} has a fault, F{code}: {fault}");
                return;
            }
        }
        self.say("no faults");
    }

    // Prints the first words of all commands.
    fn say_words(&mut self) {
        let mut between = "";
        for page in word_pages() {
            self.say(between);
            self.say(page.code);
            between = ", ";
        }
    }
}
