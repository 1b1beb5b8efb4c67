//! Facts that are found before `explore` and `prove` search: what they exclude, and which stops they leave.

ghost use Rattle.std.specs.Prelude.{◌≡◌, ◌≤◌, ◌<◌, ◌++◌, ℕ, IfOk, IfSome, IsTrue, List, OnOk, length, option_copied, option_map, slice_index};
ghost use Rattle.chip_lang.specs.declared.limits.TheConstants.{IMAGE_BYTES};
ghost use Rattle.chip_analysis.specs.Exploring.{AreLeftLines, excluded_lines, left_line};
ghost use Rattle.chip_analysis.specs.Proving.{looks_for};
ghost use Rattle.chip_facts.specs.Rows.{HoldFacts};
ghost use Rattle.chip_machine.specs.declared.quirks.Quirks.{Quirks};
ghost use Rattle.chip_verdicts.specs.Verdict.{NeverMet};

use crate::exploring::{cause_word, push_line};
use crate::stop_place::{first_word_text, line_text};
use chip_asm::Source;
use chip_explore::{Causes, Property, Target};
use chip_facts::{Facts, Left, facts_of};
use chip_machine::{Machine, Quirks};
use chip_trace::word_digits;
use chip_verdicts::excludes;
use std::alloc::{AllocError, Global};
use std::slice;

/// The maximum number of steps in the search for facts before `explore` or `prove` searches.
const FACT_STEPS: usize = 200_000;

/// The maximum number of steps in the search for facts in `check`, which an editor runs at each pause.
pub(crate) const CHECK_FACT_STEPS: usize = 40_000;

/// Returns the maximum number of steps in the search for facts: 0 if the arguments switch facts off.
pub(crate) fn fact_steps(are_asked: bool) -> usize {
    if are_asked { FACT_STEPS } else { 0 }
}

/// Returns the facts about an image, if this many steps suffice to find any. Returns None if memory
/// runs out, because a search may still find an answer.
pub(crate) fn facts_within(
    alloc: Global,
    most_steps: usize,
    image: &[u8],
    quirks: Quirks,
) -> Option<Facts>
    requires { length image.now ≤ IMAGE_BYTES }
    ensures { IfSome result (λ facts. HoldFacts image.now quirks facts) }
{
    match facts_of(alloc, image, quirks, most_steps) {
        Ok(found) => found,
        Err(_) => None,
    }
}

/// Whether facts exclude a property, so that no state meets it with any keys, random bytes and speed.
pub(crate) fn excludes_property(facts: &Facts, property: &Property) -> bool
    ensures { IsTrue result → (image : List ℕ) (quirks : Quirks)
        → HoldFacts image quirks facts.now → NeverMet image quirks (looks_for property.now) }
{
    let target = Target {
        causes: Causes::none(),
        address: None,
        properties: slice::from_ref(property),
    };
    excludes(facts, &target)
}

/// States that the elements of a slice of bytes are below 256.
pub(crate) fn bytes_are_small(bytes: &[u8])
    ensures { (i : ℕ) → slice_index bytes.now i < 256 }
{}

/// Returns for each address whether the machine may execute a step there. None without facts.
pub(crate) fn executed_in(facts: &Option<Facts>) -> Option<&[bool]>
    ensures { option_copied result ≡ option_map (λ found. found.executed.items) facts.now }
{
    match facts {
        Some(found) => Some(&found.executed),
        None => None,
    }
}

/// Returns the stops that the facts don't exclude. None without facts.
pub(crate) fn left_of(facts: &Option<Facts>) -> Option<&[Left]>
    ensures { option_copied result ≡ option_map (λ found. found.left.items) facts.now }
{
    match facts {
        Some(found) => Some(&found.left),
        None => None,
    }
}

/// Returns the answer for a target that facts exclude. `rows` is the number of rows in the table of facts.
pub(crate) fn excluded_text(
    alloc: Global,
    is_any_speed: bool,
    rows: usize,
) -> Result<Vec<u8>, AllocError>
    ensures { IfOk result (λ text. text.items ≡ excluded_lines is_any_speed rows) }
{
    let mut text = Vec::new(alloc);
    if is_any_speed {
        text.extend_from_slice(b"never at any speed\n")?;
    } else {
        text.extend_from_slice(b"never\n")?;
    }
    text.extend_from_slice(b"for any keys, random bytes and speed\n")?;
    push_line(&mut text, b"facts ", rows as u64)?;
    Ok(text)
}

/// A machine before its first step, and the source of its image.
#[derive(Clone, Copy)]
pub(crate) struct Searched<'p> {
    pub(crate) source: &'p Source,
    pub(crate) start: &'p Machine,
    /// Whether the source was given as an image, so that the answer shows words instead of lines.
    pub(crate) is_image: bool,
}

impl Searched<'_> {
    /// Returns a line for each stop that the facts don't exclude, in order. Stops of other causes are left out.
    pub(crate) fn left_text(
        &self,
        alloc: Global,
        causes: Causes,
        left: &[Left],
    ) -> Result<Vec<u8>, AllocError>
        ensures { IfOk result (λ text. AreLeftLines causes left.now text.items) }
    {
        let mut text = Vec::new(alloc);
        for one in left {
            if causes.contains(one.stop) {
                let place = self.place_of(alloc, one.pc)?;
                push_left(&mut text, one, &place)?;
            }
        }
        Ok(text)
    }

    /// Returns the source line at an address. For an image, or if no line begins there, returns the
    /// word that is at the address before the first step.
    fn place_of(&self, alloc: Global, address: u16) -> Result<Vec<u8>, AllocError> {
        if !self.is_image {
            let line = line_text(alloc, self.source, address)?;
            if !line.is_empty() {
                return Ok(line);
            }
        }
        first_word_text(alloc, self.start, address)
    }
}

/// Appends the line for a stop that the facts don't exclude.
fn push_left(text: &mut Vec<u8>, one: &Left, place: &[u8]) -> Result<(), AllocError>
    ensures { OnOk result (text.new.items ≡ text.old.items ++ left_line place.now one.now) }
{
    text.extend_from_slice(b"left ")?;
    text.extend_from_slice(&cause_word(one.stop))?;
    text.extend_from_slice(&word_digits(one.pc))?;
    text.extend_from_slice(place)?;
    text.extend_from_slice(b"\n")
}
