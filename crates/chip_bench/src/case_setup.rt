//! The settings, the source and the key events that the lines of a case specify.
ghost use Rattle.std.specs.Prelude.{◌≡◌, ◌≤◌, IfOk, IfErr, Some, length, option_copied};
ghost use Rattle.chip_arguments.specs.CommandArguments.{ReadsNumber, ReadsOr};
ghost use Rattle.chip_host.specs.SettingArguments.{settings_asked};
ghost use Rattle.chip_bench.specs.Testing.{IsCaseKeys, IsCaseSource, IsHindrance, SetBy, text_of};

use chip_arguments::{SettingArguments, number, seed};
use chip_cases::{CaseSource, Placed, Setup};
use chip_host::limits::KEY_FILE_BYTES;
use chip_host::{Failure, FileAccess, MOST_SOURCE, System, TestFault, settings_of};
use chip_machine::Profile;
use chip_machine::limits::IMAGE_BYTES;
use chip_replay::{LEAST_SPACING, MOST_RATE, MOST_SPACING};
use chip_session::Settings;
use chip_views::source_of_image;
use std::alloc::Global;
use std::path::Path;
use std::{io, str};

// The reason why a line of a case is refused, and the number of that line.
#[derive(Clone, Copy)]
struct BadLine {
    line: usize,
    why: TestFault,
}

/// Returns the settings that the lines of a case specify.
pub(crate) fn case_settings<'a>(
    alloc: Global,
    name: &'a str,
    setup: &Setup<'_>,
) -> Result<Settings, Failure<'a>>
    ensures ok { IfOk result (λ settings. (arguments : SettingArguments) × SetBy setup.now arguments
        × (settings_asked arguments ≡ Some settings)) }
    ensures err { IfErr result IsHindrance }
{
    let arguments = match setting_arguments(setup) {
        Ok(arguments) => arguments,
        Err(bad) => return Err(Failure::BadTest(name, bad.line, bad.why)),
    };
    match settings_of(alloc, &arguments) {
        Ok(settings) => Ok(settings),
        Err(Failure::OutOfMemory) => Err(Failure::OutOfMemory),
        Err(_) => {
            let line = setup.tape.map_or(1, |tape| tape.line);
            Err(Failure::BadTest(name, line, TestFault::Tape))
        }
    }
}

fn setting_arguments<'t>(setup: &Setup<'t>) -> Result<SettingArguments<'t>, BadLine>
    ensures { IfOk result (SetBy setup.now) }
{
    let rate = number_of(setup.rate, SettingArguments::DEFAULT.rate, 1, MOST_RATE)?;
    let tape = text_of(setup.tape)?;
    let seed = seed_of(setup.seed)?;
    let name = text_of(setup.profile)?;
    let list = text_of(setup.quirks)?;
    let Some(profile) = Profile::asked(name) else {
        return Err(BadLine {
            line: setup.profile.map_or(1, |placed| placed.line),
            why: TestFault::Profile,
        });
    };
    let Some(quirks) = profile.quirks().asked(list) else {
        return Err(BadLine {
            line: setup.quirks.map_or(1, |placed| placed.line),
            why: TestFault::Quirks,
        });
    };
    Ok(SettingArguments {
        rate,
        tape,
        seed,
        quirks,
        spacing: number_of(setup.every, LEAST_SPACING, LEAST_SPACING, MOST_SPACING)?,
    })
}

fn text_of(placed: Option<Placed<'_>>) -> Result<Option<&str>, BadLine>
    ensures { IfOk result (λ text. option_copied text ≡ text_of placed.entry) }
{
    let Some(Placed { line, text }) = placed else {
        return Ok(None);
    };
    match str::from_utf8(text) {
        Ok(text) => Ok(Some(text)),
        Err(_) => Err(BadLine {
            line,
            why: TestFault::NotText,
        }),
    }
}

// Returns the number in a text, from `least` to `most`, or the default if there is no text.
fn number_of(
    placed: Option<Placed<'_>>,
    default: u32,
    least: u32,
    most: u32,
) -> Result<u32, BadLine>
    ensures { IfOk result (ReadsOr 32 (text_of placed.entry) default) }
{
    let read = number(text_of(placed)?);
    match (read, placed) {
        (Some(number), Some(placed)) if number < least || number > most => Err(BadLine {
            line: placed.line,
            why: TestFault::Number,
        }),
        (Some(number), _) => Ok(number),
        (None, Some(placed)) => Err(BadLine {
            line: placed.line,
            why: TestFault::Number,
        }),
        (None, None) => Ok(default),
    }
}

fn seed_of(placed: Option<Placed<'_>>) -> Result<Option<u64>, BadLine>
    ensures { IfOk result (ReadsNumber 64 (text_of placed.entry)) }
{
    let read = seed(text_of(placed)?);
    match (read, placed) {
        (None, Some(placed)) => Err(BadLine {
            line: placed.line,
            why: TestFault::Number,
        }),
        _ => Ok(read),
    }
}

/// Returns the source of a case.
pub(crate) fn case_source<'a, F: FileAccess>(
    system: &System<'_, F>,
    name: &'a str,
    source: CaseSource<'_>,
) -> Result<Vec<u8>, Failure<'a>>
    ensures ok { IfOk result (λ bytes. IsCaseSource source.entry bytes.items) }
    ensures err { IfErr result IsHindrance }
{
    match source {
        CaseSource::Empty => Ok(Vec::new(system.alloc)),
        CaseSource::Lines(lines) => Ok(Vec::from_slice(system.alloc, lines)?),
        CaseSource::File(placed) => read_named(system, name, placed, MOST_SOURCE),
        // The source is the text that `dis` prints for the image.
        CaseSource::Image(placed) => {
            let most = IMAGE_BYTES as u32;
            let image = read_within(system, name, placed, most, "it has over 3584 bytes")?;
            Ok(source_of_image(system.alloc, &image)?)
        }
    }
}

/// Returns the bytes of a case's key file, or no bytes if it has none.
pub(crate) fn case_keys<'a, F: FileAccess>(
    system: &System<'_, F>,
    name: &'a str,
    keys: Option<Placed<'_>>,
) -> Result<Vec<u8>, Failure<'a>>
    ensures ok { IfOk result (λ bytes. IsCaseKeys keys.entry bytes.items) }
    ensures err { IfErr result IsHindrance }
{
    match keys {
        None => Ok(Vec::new(system.alloc)),
        Some(placed) => read_within(
            system,
            name,
            placed,
            KEY_FILE_BYTES,
            "it has over 10000000 bytes",
        ),
    }
}

// Returns the bytes of a file whose name is relative to the folder of the file with the cases.
// Fails if the file has more than `most` bytes.
fn read_within<'a, F: FileAccess>(
    system: &System<'_, F>,
    name: &'a str,
    placed: Placed<'_>,
    most: u32,
    over: &'static str,
) -> Result<Vec<u8>, Failure<'a>>
    ensures ok { IfOk result (λ bytes. length bytes.items ≤ most) }
    ensures err { IfErr result IsHindrance }
{
    let bytes = read_named(system, name, placed, most.saturating_add(1))?;
    if bytes.len() > most as usize {
        let error = io::Error::new(io::ErrorKind::InvalidData, over);
        return Err(Failure::UnreadInTest(name, placed.line, error));
    }
    Ok(bytes)
}

// Returns the first bytes of such a file, but at most `most` bytes.
fn read_named<'a, F: FileAccess>(
    system: &System<'_, F>,
    name: &'a str,
    placed: Placed<'_>,
    most: u32,
) -> Result<Vec<u8>, Failure<'a>>
    ensures { IfErr result IsHindrance }
{
    let Ok(own_name) = str::from_utf8(placed.text) else {
        return Err(Failure::BadTest(name, placed.line, TestFault::NotText));
    };
    let path = Path::new(name).with_file_name(system.alloc, own_name)?;
    match system.files.read(system.alloc, path.as_str(), most) {
        Ok(bytes) => Ok(bytes),
        Err(error) if error.kind() == io::ErrorKind::OutOfMemory => Err(Failure::OutOfMemory),
        Err(error) => Err(Failure::UnreadInTest(name, placed.line, error)),
    }
}
