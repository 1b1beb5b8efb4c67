//! The input of the commands: settings, sources, images and files of key events.
ghost use Rattle.std.specs.Prelude.{◌≡◌, ◌<◌, ◌≤◌, ◌⊎◌, [], true, Ok, None, Some, length, IfOk, IfErr};
ghost use Rattle.chip_host.specs.Endings.{is_bad_tape};
ghost use Rattle.chip_lang.specs.declared.limits.TheConstants.{IMAGE_BYTES};
ghost use Rattle.chip_views.specs.Dis.{source_of_image};
ghost use Rattle.chip_host.specs.SettingArguments.{settings_asked, tape_asked};
ghost use Rattle.chip_host.specs.Reading.{IsAsked, IsGiven, IsKeysUnread, IsNotGiven, IsNotTaken, IsTaken, IsUnasked, GivesSource, IsSourceUnread};

use crate::ending::{Failure, Shown, TapeFault};
use crate::file_access::FileAccess;
use crate::limits::KEY_FILE_BYTES;
use crate::system::System;
use chip_arguments::{RunArguments, SettingArguments};
use chip_asm::limits::SOURCE_BYTES;
use chip_files::{STANDARD_INPUT, read_most};
use chip_machine::limits::IMAGE_BYTES;
use chip_session::{Counted, Settings, tape_of};
use chip_views::source_of_image;
use hex::FromHexError;
use std::alloc::Global;
use std::io::{Read, Write};

// The source name that means standard input.
const INPUT: &str = "-";

// The number of bytes at the start of a file that show whether the file is an image or a text.
const FIRST_BYTES: usize = 64;

// The minimum number of bytes in a file that is taken for a text.
const LEAST_TEXT: usize = 8;

/// A source of this length or more doesn't open.
pub const MOST_SOURCE: u32 = SOURCE_BYTES as u32 + 1;

/// Returns the name of the file that contains a source, or the name of the standard input.
pub fn file_name(source: &str) -> &str {
    if source == INPUT {
        STANDARD_INPUT
    } else {
        source
    }
}

/// Returns the settings that the arguments ask for. Fails if the tape is bad or memory runs out.
pub fn settings_of<'a>(
    alloc: Global,
    arguments: &SettingArguments<'_>,
) -> Result<Settings, Failure<'a>>
    ensures ok { IfOk result (λ settings. settings_asked arguments.now ≡ Some settings) }
    ensures err { IfErr result (λ failure. (failure ≡ Failure.OutOfMemory)
        ⊎ ((is_bad_tape failure ≡ true) × (settings_asked arguments.now ≡ None))) }
{
    let tape = tape_bytes(alloc, arguments)?;
    let settings = Settings::new(alloc, arguments.rate, &tape)?.with_quirks(arguments.quirks);
    Ok(settings.with_spacing(arguments.spacing)?)
}

// Returns the tape that the arguments ask for. A tape and a seed can't be used together.
fn tape_bytes<'a>(alloc: Global, arguments: &SettingArguments<'_>) -> Result<Vec<u8>, Failure<'a>>
    ensures ok { IfOk result (λ tape. tape_asked arguments.now ≡ Some tape.items) }
    ensures err { IfErr result (λ failure. (failure ≡ Failure.OutOfMemory)
        ⊎ ((is_bad_tape failure ≡ true) × (tape_asked arguments.now ≡ None))) }
{
    match (arguments.tape, arguments.seed) {
        (Some(_), Some(_)) => Err(Failure::BadTape(TapeFault::WithSeed)),
        (Some(digits), None) => match hex::decode(alloc, digits) {
            Ok(tape) => Ok(tape),
            Err(FromHexError::OutOfMemory) => Err(Failure::OutOfMemory),
            Err(FromHexError::OddLength) => Err(Failure::BadTape(TapeFault::OddDigits)),
            Err(_) => Err(Failure::BadTape(TapeFault::NotHexadecimal)),
        },
        (None, Some(seed)) => Ok(tape_of(alloc, seed)?),
        (None, None) => Ok(Vec::from_slice(alloc, &[0])?),
    }
}

/// A file of key events: its name, and its bytes. If there is no file, there are no bytes.
#[derive(Drop)]
pub struct KeyFile<'a> {
    pub name: &'a str,
    pub bytes: Vec<u8>,
}

/// The inputs of a run: a source, a file of key events and settings.
#[derive(Drop)]
pub struct AskedRun<'a> {
    pub source: Vec<u8>,
    pub keys: KeyFile<'a>,
    pub settings: Settings,
    /// The name of the source.
    pub name: &'a str,
}

/// Reads the inputs of a run. The settings are checked before a file is read, and the key events are
/// read before the source.
pub fn read_asked<'a, F: FileAccess, I: Read, E: Write>(
    system: &System<'_, F>,
    arguments: &RunArguments<'a>,
    input: &mut Counted<I>,
    errors: &mut E,
) -> Result<AskedRun<'a>, Failure<'a>>
    ensures ok { IfOk result (λ asked. IsAsked I.remaining input.old input.new arguments.entry.now
        asked) }
    ensures err { IfErr result (λ why. IsUnasked I.remaining input.old input.new arguments.entry.now
        why) }
{
    let settings = settings_of(system.alloc, &arguments.settings)?;
    let keys = read_keys(system, arguments.keys)?;
    let source = read_given(system, arguments.source, arguments.is_image, input, errors)?;
    Ok(AskedRun {
        source,
        keys,
        settings,
        name: arguments.source,
    })
}

// Reads the file of key events with this name. If there is no name, there are no events.
fn read_keys<'a, F: FileAccess>(
    system: &System<'_, F>,
    name: Option<&'a str>,
) -> Result<KeyFile<'a>, Failure<'a>>
    ensures ok { IfOk result (λ keys. name.entry ≡ None → keys.bytes.items ≡ []) }
    ensures bound { IfOk result (λ keys. length keys.bytes.items ≤ KEY_FILE_BYTES) }
    ensures err { IfErr result (IsKeysUnread name.entry) }
{
    match name {
        Some(name) => Ok(KeyFile {
            name,
            bytes: system.read_within(name, KEY_FILE_BYTES)?,
        }),
        None => Ok(KeyFile {
            name: "",
            bytes: Vec::new(system.alloc),
        }),
    }
}

/// Returns the source with this name. For the name of an image, returns the source that `dis` prints for it.
pub fn read_given<'a, F: FileAccess, I: Read, E: Write>(
    system: &System<'_, F>,
    name: &'a str,
    is_image: bool,
    input: &mut Counted<I>,
    errors: &mut E,
) -> Result<Vec<u8>, Failure<'a>>
    ensures ok { IfOk result (λ source. IsGiven I.remaining input.old input.new is_image name.entry
        source.items) }
    ensures err { IfErr result (IsNotGiven I.remaining input.old input.new is_image name.entry) }
{
    let bytes = read_source(system, name, input)?;
    if is_image {
        tell_text(system, name, &bytes, errors);
    }
    as_source(system.alloc, name, is_image, bytes, errors)
}

/// Reports on standard error, if somebody reads it, that a file given as an image looks like a source.
pub fn tell_text<F, E: Write>(system: &System<'_, F>, name: &str, bytes: &[u8], errors: &mut E) {
    if system.host.has_reader && is_text(bytes) {
        let _ = write!(
            errors,
            "chipbench: {} looks like a source, and is taken as an image; `asm` makes an image of \
             a source, and other commands take one without --image\n",
            Shown(name)
        );
    }
}

// Whether a file looks like lines of text, given its length, its first bytes and whether it contains a line feed.
fn is_text(bytes: &[u8]) -> bool {
    bytes.len() >= LEAST_TEXT
        && bytes.contains(&b'\n')
        && bytes.iter().take(FIRST_BYTES).all(|byte| matches!(
            *byte,
            b' '..=b'~' | b'\t' | b'\n' | b'\r'
        ))
}

/// Returns the bytes themselves or, for an image, the source that `dis` prints for the image. If an image was
/// given as a source, standard error gets a hint.
pub fn as_source<'a, E: Write>(
    alloc: Global,
    name: &'a str,
    is_image: bool,
    bytes: Vec<u8>,
    errors: &mut E,
) -> Result<Vec<u8>, Failure<'a>>
    ensures ok { IfOk result (λ source. IsTaken is_image name.entry bytes.items source.items) }
    ensures err { IfErr result (IsNotTaken is_image name.entry bytes.items) }
{
    if is_image {
        if bytes.len() > IMAGE_BYTES {
            return Err(Failure::TooLong(name, IMAGE_BYTES as u32));
        }
        return Ok(source_of_image(alloc, &bytes)?);
    }
    // A control byte among the first bytes marks an image. The exceptions are bytes that texts contain,
    // and byte 26, which the language treats as a blank.
    if bytes.iter().take(FIRST_BYTES).any(|byte| *byte < b' '
        && !matches!(*byte, b'\t' | b'\n' | b'\r' | 0x0c | 0x1a | 0x1b))
    {
        let _ = write!(
            errors,
            "chipbench: {} looks like an image; --image runs it as it is\n",
            Shown(name)
        );
    }
    Ok(bytes)
}

/// Returns the bytes of a file, or of standard input if the name is `-`: at most `MOST_SOURCE` bytes.
pub fn read_source<'a, F: FileAccess, I: Read>(
    system: &System<'_, F>,
    name: &'a str,
    input: &mut Counted<I>,
) -> Result<Vec<u8>, Failure<'a>>
    ensures ok { IfOk result (λ bytes. GivesSource I.remaining input.old input.new
        name.entry.now bytes.items) }
    ensures err { IfErr result (IsSourceUnread input.old input.new name.entry) }
{
    if name != INPUT {
        return system.read(name, MOST_SOURCE);
    }
    let failures = input.failures();
    let mut bytes = Vec::new(system.alloc);
    match read_most(&mut *input, &mut bytes, MOST_SOURCE) {
        Ok(()) => Ok(bytes),
        // If no read failed, memory ran out for the bytes.
        Err(_) if input.failures() == failures => Err(Failure::OutOfMemory),
        Err(_) => Err(Failure::Input),
    }
}
