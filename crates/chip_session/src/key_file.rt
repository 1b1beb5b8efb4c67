//! The key events of a file.
ghost use Rattle.std.specs.Prelude.{◌≡◌, None, Some, IfOk, IfErr, OnOk};
ghost use Rattle.std.specs.Option.{option_copied};
ghost use Rattle.chip_files.specs.KeyLines.{key_command};
ghost use Rattle.chip_session.specs.KeyFile.{IsKeyFault, refusal_to, key_fault, session_under};
ghost use Rattle.chip_session.specs.Transcript.{after};
ghost use Rattle.chip_session.specs.declared.key_file.KeyFileError.TheVariants.{OutOfMemory};

use crate::bench::Bench;
use crate::command::{Command, read_command};
use crate::refusal::Refusal;
use chip_files::{first_line, key_command};
use std::alloc::{AllocError, Global};

/// The reason why the key events of a file can't be added.
#[derive(Clone, Copy)]
pub enum KeyFileError {
    /// The line with this number, counted from 1, is refused with this code.
    Line(usize, &'static [u8]),
    OutOfMemory,
}

impl From<AllocError> for KeyFileError {
    ghost from_gives = { λ _ e. e ≡ OutOfMemory };

    fn from(_error: AllocError) -> KeyFileError {
        KeyFileError::OutOfMemory
    }
}

/// Adds the key events of a file in order. A line `S K down` or `S K up` has the effect of the
/// script's command `kins S K down` or `kins S K up`, but K may also be a letter A to F. A
/// semicolon begins a comment, and a line may be blank.
///
/// # Errors
///
/// The first refused line, or out of memory. The events of the lines before the refused line are added.
pub fn insert_keys(alloc: Global, bench: &mut Bench, file: &[u8]) -> Result<(), KeyFileError>
    ensures none { OnOk result (key_fault bench.old.session file.now ≡ None) }
    ensures session { OnOk result (bench.new.session ≡ session_under bench.old.session file.now) }
    ensures fault { IfErr result (IsKeyFault (key_fault bench.old.session file.now)) }
{
    let mut rest = file;
    let mut number = 0;
    while !rest.is_empty() {
        let (line, next) = first_line(rest);
        number += 1;
        if let Some(code) = insert_key(alloc, bench, line)? {
            return Err(KeyFileError::Line(number, code));
        }
        rest = next;
    }
    Ok(())
}

// Adds the event of a line, or returns the code of the line's refusal.
fn insert_key(
    alloc: Global,
    bench: &mut Bench,
    line: &[u8],
) -> Result<Option<&'static [u8]>, AllocError>
    ensures code { IfOk result (λ code. option_copied code
        ≡ refusal_to bench.old.session (key_command line.now)) }
    ensures session { OnOk result (bench.new.session
        ≡ after bench.old.session (key_command line.now)) }
{
    let command = key_command(alloc, line)?;
    make_edit(alloc, bench, &command)
}

// Carries out a line of a script and ignores questions. Returns the code of the refusal if the line is refused.
#[tactic(auto, unfolding(crate::specs::KeyFile::refusal_to, crate::specs::Transcript::after))]
fn make_edit(
    alloc: Global,
    bench: &mut Bench,
    line: &[u8],
) -> Result<Option<&'static [u8]>, AllocError>
    ensures code { IfOk result (λ code. option_copied code
        ≡ refusal_to bench.old.session line.now) }
    ensures session { OnOk result (bench.new.session ≡ after bench.old.session line.now) }
{
    let edit = match read_command(line) {
        Ok(Command::Edit(edit)) => edit,
        Ok(Command::Blank | Command::Ask(_)) => return Ok(None),
        Err(fault) => return Ok(Some(fault.code())),
    };
    match bench.apply(alloc, &edit) {
        Ok(()) => Ok(None),
        Err(refusal) if refusal.is_for_memory() => Err(AllocError),
        Err(refusal) => Ok(Some(refusal.code())),
    }
}
