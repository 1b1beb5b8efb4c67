//! The line of a trace that names the machine.

ghost use Rattle.std.specs.Prelude.{◌≡◌, ◌++◌, OnOk, map};
ghost use Rattle.std.specs.List.{join_with_byte};
ghost use Rattle.chip_trace.specs.Lines.{newline_ended};
ghost use Rattle.chip_trace.specs.Machine.{has_line, machine_lines, names_in, names_machine, profile_lines};

use chip_machine::quirks::CHOICES;
use chip_machine::{Choice, Profile, Quirks};
use std::alloc::AllocError;

const PROFILE: &[u8] = b"# profile ";

const QUIRKS: &[u8] = b"# quirks ";

/// Whether a line names a machine, and so doesn't name columns.
pub fn names_machine(line: &[u8]) -> bool
    ensures { result ≡ names_machine line.now }
{
    line.starts_with(PROFILE) || line.starts_with(QUIRKS)
}

/// Adds the line that names a machine, with a newline. The line contains the machine's profile, or all
/// its choices if it has no profile. Adds nothing for `schip` and `vip`.
///
/// # Errors
///
/// Out of memory; part of the line may have been added.
pub(crate) fn push_machine(quirks: Quirks, text: &mut Vec<u8>) -> Result<(), AllocError>
    ensures { OnOk result (text.new.items
        ≡ text.old.items ++ newline_ended (machine_lines quirks)) }
{
    match Profile::with_quirks(quirks) {
        Some(profile) => push_profile(profile, text),
        None => {
            text.extend_from_slice(QUIRKS)?;
            push_choices(&CHOICES, quirks, text)?;
            text.push(b'\n')?;
            Ok(())
        }
    }
}

/// Adds the line that names a profile, with a newline. Adds nothing for `schip` and `vip`.
fn push_profile(profile: Profile, text: &mut Vec<u8>) -> Result<(), AllocError>
    ensures { OnOk result (text.new.items
        ≡ text.old.items ++ newline_ended (profile_lines profile)) }
{
    if !has_line(profile) {
        return Ok(());
    }
    text.extend_from_slice(PROFILE)?;
    text.extend_from_slice(profile.name().as_bytes())?;
    text.push(b'\n')?;
    Ok(())
}

/// Whether a trace has a line that names the profile: true except for `schip` and `vip`, which were the
/// only profiles when the first traces were written.
fn has_line(profile: Profile) -> bool
    ensures { result ≡ has_line profile }
{
    match profile {
        Profile::Schip | Profile::Vip => false,
        _ => true,
    }
}

/// Adds the names of the choices in a list that a machine has, separated by commas.
fn push_choices(
    choices: &[(&str, Choice)],
    quirks: Quirks,
    text: &mut Vec<u8>,
) -> Result<(), AllocError>
    ensures { OnOk result (text.new.items ≡ text.old.items
        ++ join_with_byte 44 (names_in (map (λ c. (c.0.now, c.1)) choices.now) quirks)) }
{
    let mut is_first = true;
    for place in 0..choices.len() {
        let choice = &choices[place];
        if quirks.has(choice.1) {
            if !is_first {
                text.push(b',')?;
            }
            text.extend_from_slice(choice.0.as_bytes())?;
            is_first = false;
        }
    }
    Ok(())
}
