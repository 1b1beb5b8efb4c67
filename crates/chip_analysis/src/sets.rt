//! Sets in the arguments: stop causes, keys and warnings.
ghost use Rattle.std.specs.Prelude.{◌≡◌, ◌<◌, Some, None, IfOk, IfErr, IfSome, option_copied};
ghost use Rattle.chip_analysis.specs.Commands.{IsBadSet};
ghost use Rattle.chip_analysis.specs.Exploring.{AsksCauses, AsksKeys, AsksSet, IsFirstPart, IsSet, key_named, usual_keys, warning_named, with_number};
ghost use Rattle.chip_analysis.specs.inner.Sets.{IsBadSets, number_by};

use chip_arguments::ExploreArguments;
use chip_explore::Causes;
use chip_host::Failure;
use memchr::memchr;

/// All sixteen keys.
pub(crate) const ALL_KEYS: u16 = 0xffff;

// The kind of thing that each part of a list names.
#[derive(Clone, Copy)]
enum Item {
    Cause,
    Key,
    Warning,
}

impl Item {
    // Returns the number of a stop cause (k for Sk), of a key, or of a warning (k for Wk, and 9 + k for Pk).
    fn number(self, part: &[u8]) -> Option<u32>
        ensures { result ≡ number_by self part.now }
    {
        match (self, part) {
            (Item::Cause, [b'S', digit @ b'1'..=b'7']) => Some(u32::from(*digit - b'0')),
            (Item::Warning, [b'W', digit @ b'1'..=b'9']) => Some(u32::from(*digit - b'0')),
            (Item::Warning, [b'P', digit @ b'1'..=b'6']) => Some(9 + u32::from(*digit - b'0')),
            (Item::Key, [letter @ b'A'..=b'F']) => Some(10 + u32::from(*letter - b'A')),
            (Item::Key, [letter @ b'a'..=b'f']) => Some(10 + u32::from(*letter - b'a')),
            (Item::Key, [digit @ b'0'..=b'9']) => Some(u32::from(*digit - b'0')),
            (Item::Key, [b'1', digit @ b'0'..=b'5']) => Some(10 + u32::from(*digit - b'0')),
            _ => None,
        }
    }
}

// Returns the part before the first comma, and the text after the comma if there is one.
fn first_part(text: &[u8]) -> (&[u8], Option<&[u8]>)
    ensures { IsFirstPart text.now result.0.now (option_copied result.1) }
{
    match memchr(b',', text) {
        Some(place) => (&text[..place], Some(&text[place + 1..])),
        None => (text, None),
    }
}

// Returns a set with a number added. None if the set or the number is missing.
fn with_number(set: Option<u16>, number: Option<u32>) -> Option<u16>
    requires { IfSome number (λ k. k < 16) }
    ensures { result ≡ with_number set number }
{
    match (set, number) {
        (Some(set), Some(number)) => Some(set | 1 << number),
        _ => None,
    }
}

// Returns the set of the numbers that the parts of a text name, each k at bit k. None if a part names no number.
fn set_of(item: Item, text: &[u8]) -> Option<u16>
    ensures { IsSet (number_by item) text.now result }
{
    let mut set = Some(0);
    let mut rest = text;
    loop {
        let (part, more) = first_part(rest);
        set = with_number(set, item.number(part));
        match more {
            Some(next) => rest = next,
            None => return set,
        }
    }
}

/// The sets in the arguments of `explore`.
#[derive(Clone, Copy)]
pub(crate) struct Sets {
    /// The stop causes that the search looks for.
    pub(crate) causes: Causes,
    /// The keys that the player has, key k at bit k.
    pub(crate) keys: u16,
}

/// Returns the sets in the arguments. If the arguments name a place or a property but no stop
/// causes, the search looks for no stops.
pub(crate) fn sets_of<'a>(arguments: &ExploreArguments<'a>) -> Result<Sets, Failure<'a>>
    ensures ok { IfOk result (λ sets. AsksCauses arguments.entry.now (Some sets.causes)
        × AsksKeys arguments.entry.now (Some sets.keys)) }
    ensures err { IfErr result (IsBadSets arguments.entry.now) }
{
    let usual = match (arguments.place, arguments.never, arguments.always) {
        (None, None, None) => Causes::faults(),
        _ => Causes::none(),
    };
    let causes = match arguments.causes {
        Some(text) => set_of(Item::Cause, text.as_bytes()).map(Causes::of_mask),
        None => Some(usual),
    };
    let keys = match arguments.search.allowed_keys {
        Some(text) => set_of(Item::Key, text.as_bytes()),
        None => Some(ALL_KEYS),
    };
    match (causes, keys) {
        (Some(causes), Some(keys)) => Ok(Sets { causes, keys }),
        (None, _) => Err(Failure::BadCauses(arguments.causes.unwrap_or(""))),
        (Some(_), None) => Err(Failure::BadPlayerKeys(arguments.search.allowed_keys.unwrap_or(""))),
    }
}

/// Returns the keys that the player has, key k at bit k. Without an argument, these are all sixteen keys.
pub(crate) fn keys_of<'a>(text: Option<&'a str>) -> Result<u16, Failure<'a>>
    ensures ok { IfOk result (λ set. AsksSet key_named usual_keys (option_copied text.entry)
        (Some set)) }
    ensures err { IfErr result (λ why. IsBadSet why
        × AsksSet key_named usual_keys (option_copied text.entry) None) }
{
    let Some(text) = text else {
        return Ok(ALL_KEYS);
    };
    match set_of(Item::Key, text.as_bytes()) {
        Some(set) => Ok(set),
        None => Err(Failure::BadPlayerKeys(text)),
    }
}

/// Returns the warnings that an argument names, Wk at bit k and Pk at bit 9 + k. Without an argument, there are none.
pub(crate) fn warnings_of<'a>(text: Option<&'a str>) -> Result<u16, Failure<'a>>
    ensures ok { IfOk result (λ set. AsksSet warning_named 0 (option_copied text.entry)
        (Some set)) }
    ensures err { IfErr result (λ why. IsBadSet why
        × AsksSet warning_named 0 (option_copied text.entry) None) }
{
    let Some(text) = text else {
        return Ok(0);
    };
    match set_of(Item::Warning, text.as_bytes()) {
        Some(set) => Ok(set),
        None => Err(Failure::BadWarnings(text)),
    }
}
