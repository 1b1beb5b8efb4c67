//! The messages about invalid arguments.

use chip_arguments::commands_with;
use chip_check::push_as_shown;
use chip_host::{Ending, Failure};
use clap::Error;
use clap::error::ErrorKind;
use std::alloc::{AllocError, Global};
use std::io::Write;

/// What to type instead of the commands of other programs.
const OTHER_COMMANDS: &[(&str, &[&str])] = &[
    (
        "`chipbench asm` makes an image of a source",
        &["assemble", "build", "compile", "make"],
    ),
    (
        "`chipbench dis` makes a source of an image",
        &["disasm", "disassemble", "decompile", "disassembly"],
    ),
    (
        "`chipbench run` makes a number of steps, and `chipbench-page` opens the page, where you can play",
        &["play", "start", "exec", "execute", "emulate"],
    ),
    (
        "`chipbench check` prints the faults and the warnings of a source",
        &["lint", "validate"],
    ),
    (
        "`chipbench prove` answers the properties of a source",
        &["verify", "proof"],
    ),
    (
        "`chipbench-shell` is the debugger for people, and `chipbench debug` the one for programs",
        &["shell", "gdb", "repl", "step"],
    ),
    ("`chipbench-page` opens the page", &["page", "gui", "web"]),
    (
        "`chipbench picture` prints the screen at a step, or writes it",
        &["screen", "screenshot", "png"],
    ),
];

/// The advice on an argument that a command doesn't have. An empty command name stands for every command.
const OTHER_ARGUMENTS: &[(&str, &str, &str)] = &[
    (
        "-o",
        "asm",
        "the image comes after the source: chipbench asm game.asm game.ch8",
    ),
    (
        "--output",
        "asm",
        "the image comes after the source: chipbench asm game.asm game.ch8",
    ),
    (
        "--keys",
        "explore",
        "explore tries all keys; `run`, `trace` and `picture` take --keys",
    ),
    (
        "--keys",
        "prove",
        "prove tries all keys; `run`, `trace` and `picture` take --keys",
    ),
    (
        "--speed",
        "",
        "--rate N makes N steps per tick of the timers, 10 by default",
    ),
    ("-n", "", "--steps N makes N steps"),
    (
        "--until",
        "explore",
        "--steps N searches up to step N, and --reach LABEL looks for a step at a label",
    ),
    ("--until", "prove", "--steps N searches up to step N"),
    (
        "--until",
        "",
        "`run`, `trace` and `picture` take --steps N; `explore --reach LABEL` finds the first step at a label",
    ),
    (
        "--label",
        "explore",
        "--reach LABEL looks for a step at a label",
    ),
    (
        "--label",
        "",
        "`explore --reach LABEL` finds the first step at a label; a property names a place as in `at LABEL`",
    ),
    (
        "--property",
        "explore",
        "--never TEXT and --always TEXT state a property, as --never 'V0 = 3 at LOOP'",
    ),
    (
        "--property",
        "prove",
        "properties are lines of the source that begin with `;!`; --only LINE answers one of them",
    ),
    (
        "--property",
        "",
        "`prove` answers the properties that a source states; `explore` takes one as --never TEXT or --always TEXT",
    ),
    (
        "--frames",
        "",
        "--steps N counts steps; a frame of 1/60 second has as many steps as --rate sets, 10 by default",
    ),
    (
        "--depth",
        "explore",
        "--steps N searches up to step N, and --states M keeps at most M states",
    ),
    (
        "--depth",
        "prove",
        "--steps N searches up to step N, and --states M keeps at most M states",
    ),
    (
        "--time",
        "prove",
        "--seconds N ends the search after N seconds",
    ),
    (
        "--time",
        "explore",
        "--seconds N ends the search after N seconds",
    ),
    (
        "--time",
        "",
        "`run`, `trace` and `picture` take --steps N and --rate R; R steps are 1/60 of a second",
    ),
    (
        "--line",
        "prove",
        "--only LINE answers the property of one line",
    ),
    (
        "--line",
        "",
        "`prove --only LINE` answers the property of one line",
    ),
    (
        "--to",
        "asm",
        "the image comes after the source: chipbench asm game.asm game.ch8",
    ),
    (
        "--to",
        "trace",
        "--from M is the first step to print, and --steps N the last",
    ),
    (
        "--to",
        "explore",
        "--steps N searches up to step N, --reach LABEL looks for a step at a label, and --keys-to FILE writes the keys",
    ),
    (
        "--to",
        "prove",
        "--steps N searches up to step N, and --keys-to FILE writes the keys",
    ),
    ("--to", "", "`run`, `trace` and `picture` take --steps N"),
    (
        "-W",
        "check",
        "check prints all warnings; --allow W1,W4 leaves some out",
    ),
    (
        "-o",
        "picture",
        "--png FILE writes a picture, and --pbm FILE a bitmap",
    ),
    (
        "--strict",
        "check",
        "check prints all warnings; --allow W1,W4 leaves some out",
    ),
];

/// If the program ended because of invalid arguments, prints clap's message. If the program has a
/// tip of its own, this tip replaces clap's. `first` is the first argument.
pub(crate) fn tell_usage<E: Write>(
    alloc: Global,
    ended: &Result<Ending, Failure<'_>>,
    first: &str,
    errors: &mut E,
) {
    if let Err(Failure::Usage(error)) = ended {
        let _ = match shown_usage(alloc, error, first) {
            Ok(text) => errors.write_all(&text),
            Err(_) => write!(errors, "{error}"),
        };
    }
}

// Returns the message about invalid arguments. Bytes that a terminal may misread are escaped, as in
// `check`, because the message quotes an argument.
fn shown_usage(alloc: Global, error: &Error, first: &str) -> Result<Vec<u8>, AllocError> {
    let text = usage_text(alloc, error, first)?;
    let mut shown = Vec::with_capacity(alloc, text.len())?;
    let mut is_first = true;
    for line in text.split(|byte| *byte == b'\n') {
        if !is_first {
            shown.push(b'\n')?;
        }
        is_first = false;
        push_as_shown(alloc, &mut shown, line)?;
    }
    Ok(shown)
}

// Returns the message about invalid arguments, with the program's own tip in place of clap's.
fn usage_text(alloc: Global, error: &Error, first: &str) -> Result<Vec<u8>, AllocError> {
    let text = format!(in alloc; "{error}")?;
    let Some(tip) = tip_on(alloc, error.kind(), text.as_str(), first)? else {
        return Ok(text.into_bytes());
    };
    let (front, below) = text
        .as_str()
        .split_once("\n\n")
        .unwrap_or((text.as_str(), ""));
    // If clap suggests a similar option, its usage line shows that option, so the suggestion and the line are omitted.
    let rest = match below.split_once("Usage: ") {
        Some((tips, usage)) if !tips.contains("similar argument") => usage,
        _ => "",
    };
    let (usage, _) = rest.split_once("\n").unwrap_or((rest, ""));
    let (before, after) = match usage {
        "" => ("", ""),
        _ => ("Usage: ", "\n\n"),
    };
    let parts: &[&[u8]] = &[
        front.as_bytes(),
        b"\n\n  tip: ",
        &tip,
        b"\n\n",
        before.as_bytes(),
        usage.as_bytes(),
        after.as_bytes(),
        b"For more information, try '--help'.\n",
    ];
    parts.concat(alloc)
}

// Returns the program's own tip for an error of this kind, if there is one.
fn tip_on(
    alloc: Global,
    kind: ErrorKind,
    text: &str,
    first: &str,
) -> Result<Option<Vec<u8>>, AllocError> {
    let Some(word) = quoted_in(text) else {
        return Ok(None);
    };
    match kind {
        ErrorKind::UnknownArgument => tip_on_argument(alloc, word, first),
        ErrorKind::InvalidSubcommand => match sentence_on_command(word) {
            Some(sentence) => Ok(Some(Vec::from_slice(alloc, sentence.as_bytes())?)),
            None => Ok(None),
        },
        ErrorKind::ValueValidation if text.contains("invalid digit found in string") => {
            let sentence = b"a number has decimal digits alone, as in 16";
            Ok(Some(Vec::from_slice(alloc, sentence)?))
        }
        _ => Ok(None),
    }
}

// Returns the text between the first two quotes, if there are two.
fn quoted_in(text: &str) -> Option<&str> {
    let (_, rest) = text.split_once("'")?;
    let (word, _) = rest.split_once("'")?;
    Some(word)
}

// Returns what to type instead of an argument that the command named by the first argument doesn't
// accept, if that is known.
fn tip_on_argument(alloc: Global, word: &str, first: &str) -> Result<Option<Vec<u8>>, AllocError> {
    for (argument, command, sentence) in OTHER_ARGUMENTS {
        let is_word = word.as_bytes() == argument.as_bytes();
        let is_command = command.is_empty() || first.as_bytes() == command.as_bytes();
        if is_word && is_command {
            let sentence = sentence.as_bytes();
            return Ok(Some(Vec::from_slice(alloc, sentence)?));
        }
    }
    if let [b'-', b'0'..=b'9', ..] = word.as_bytes() {
        let sentence = b"a number has decimal digits alone, and no sign";
        return Ok(Some(Vec::from_slice(alloc, sentence)?));
    }
    let Some(name) = word.strip_prefix("--") else {
        return Ok(None);
    };
    let commands = commands_with(alloc, name)?;
    if commands.is_empty() {
        return Ok(None);
    }
    let names = commands.join(alloc, ", ")?;
    let more = match word {
        "--image" => "; `chipbench dis` makes a source of an image",
        _ => "",
    };
    let tip = format!(in alloc; "the commands that take '{word}' are: {names}{more}")?;
    Ok(Some(tip.into_bytes()))
}

// Returns what to type instead of a command that other programs have, if that is known.
fn sentence_on_command(word: &str) -> Option<&'static str> {
    for (sentence, others) in OTHER_COMMANDS {
        if others.iter().any(|other| word == *other) {
            return Some(*sentence);
        }
    }
    None
}
