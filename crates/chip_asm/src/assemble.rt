//! The two passes over the lines after an edit.
ghost use Rattle.std.specs.Prelude.{◌≡◌, ℕ, ◌+◌, ◌<◌, ◌≤◌, ◌&&◌, ◌||◌, not, true, false, length, map, Ok, slice_get};
ghost use Rattle.chip_lang.specs.Uses.{agree_on};
ghost use Rattle.chip_asm.specs.Layout.{body_of, value_at};
ghost use Rattle.chip_symbols.specs.Names.{values_of};
ghost use Rattle.chip_lang.specs.declared.limits.TheConstants.{IMAGE_BYTES};
ghost use Rattle.chip_asm.specs.inner.KeptLine.{IsKnownUnder};
ghost use Rattle.chip_asm.specs.inner.Infos.{AreInfos, IsInfo, AreSteady, has_code};
ghost use Rattle.chip_asm.specs.inner.Placements.{placements_of, found, is_accepted, is_pending};
ghost use Rattle.chip_asm.specs.inner.Passes.{AreCoded, AreSettled, Change, IsEncodedUnder, IsTally, IsUnderWay, again_up_to};
ghost use Rattle.chip_asm.specs.inner.Records.{reading_in, readings_in};
ghost use Rattle.chip_symbols.specs.Tables.{AreDifferences, Tables};

use crate::codes::{copy_code, write_line};
use crate::kept_line::BoxedLine;
use crate::layout::Tally;
use crate::line_info::Uses;
use crate::pass::Pass;
use crate::placement::{Placement, Status};
use chip_lang::Meter;
use chip_lang::laws::{kept_value, same_code};
use chip_symbols::Table;
use std::ops::Range;

/// The number of steady lines before `place`, up to the first line that isn't steady. The caller
/// knows that the first `known` lines are steady.
pub(crate) fn steady_lines(lines: &[BoxedLine], known: usize, place: usize) -> usize
    requires place { place ≤ length lines.now }
    requires within { known ≤ place }
    requires known { AreSteady lines.now known }
    ensures after { known ≤ result }
    ensures within { result ≤ place }
    ensures steady { AreSteady lines.now result }
{
    for index in known..place {
        if !lines[index].info().is_steady {
            return index;
        }
    }
    place
}

/// Whether each name that a line uses has the same value as before the edit, or had no value and
/// still has none.
#[inline(always)]
fn keeps_values(names: &Table, kept: &BoxedLine) -> bool
    requires { IsInfo names.now.keys kept.now.info kept.now.several (reading_in kept.now) }
    ensures { result
        ≡ agree_on names.now.before (values_of names.now.symbols)
        (reading_in kept.now) }
{
    match kept.info().uses {
        Uses::Nothing => true,
        Uses::One(id) => names.keeps_value(id),
        Uses::Several => names.keep_values(kept.numbers()),
    }
}

/// The value of the expression of a line; none unless it is known because the line was accepted
/// before and its names keep their values.
#[inline(never)]
fn known_value(names: &Table, kept: &BoxedLine, was: &Placement) -> Option<i32>
    requires info { IsInfo names.now.keys kept.now.info kept.now.several (reading_in kept.now) }
    requires was { is_accepted was.now.status ≡ true
        → agree_on names.now.before (values_of names.now.symbols) (reading_in kept.now)
        ≡ true
        → value_at names.now.symbols (body_of (reading_in kept.now)) ≡ Ok was.now.value }
    ensures { IsKnownUnder names.now.symbols result (reading_in kept.now) }
{
    if was.status.is_accepted() && keeps_values(names, kept) {
        Some(was.value)
    } else {
        None
    }
}

/// Runs the first pass over the line at a place. If the line was accepted and still is, its code is
/// copied from the image before the edit. If it is accepted now but wasn't before, it waits for its
/// code.
fn pass_line(
    pass: &mut Pass,
    lines: &[BoxedLine],
    placements: &mut [Placement],
    tally: &mut Tally,
    from: &[u8],
    image: &mut [u8],
    place: usize,
)
    requires under_way { (e : Change) × IsUnderWay e lines.now pass.old placements.old tally.old
        from.now image.old place }
    requires inside { place < length lines.now }
    ensures { (e : Change)
        → IsUnderWay e lines.now pass.old placements.old tally.old from.now image.old place
        → IsUnderWay e lines.now pass.new placements.new tally.new from.now image.new (place + 1) }
{
    kept_value();
    same_code();
    let kept = &lines[place];
    let was = placements[place];
    let known = known_value(&pass.names, kept, &was);
    let (line, defines, numbers) = (kept.line(), kept.info().defines, kept.numbers());
    let mut now = pass.step(place, known, line, defines, numbers);
    if now.status.is_accepted() {
        if was.status.is_accepted() {
            copy_code(&was, &now, from, image);
            now.status = was.status;
        } else {
            now.status = Status::bare(true, kept.info().is_coded);
        }
    }
    tally.put(placements, place, now);
}

/// Runs the first pass over the lines from a place to the end.
pub(crate) fn walk(
    pass: &mut Pass,
    lines: &[BoxedLine],
    placements: &mut [Placement],
    tally: &mut Tally,
    from: &[u8],
    image: &mut [u8],
    first: usize,
)
    requires { (e : Change) × IsUnderWay e lines.now pass.old placements.old tally.old from.now
        image.old first }
    ensures { (e : Change)
        → IsUnderWay e lines.now pass.old placements.old tally.old from.now image.old first
        → IsUnderWay e lines.now pass.new placements.new tally.new from.now image.new
        (length lines.now) }
{
    let mut place = pass.run(lines, placements, tally, from, image, first);
    while place < lines.len() {
        pass_line(pass, lines, placements, tally, from, image, place);
        place = pass.run(lines, placements, tally, from, image, place + 1);
    }
}

/// Whether a line clearly needs no encoding: it doesn't wait for its code, and its name, if it uses
/// one, has the same value as before the edit. False for each line that uses several names.
#[inline(always)]
fn is_settled(changed: &[bool], kept: &BoxedLine, status: Status) -> bool
    requires { (names : Tables)
        × (IsInfo names.keys kept.now.info kept.now.several (reading_in kept.now)
        × AreDifferences names changed.now) }
    ensures done { result ≡ true → is_pending status ≡ false }
    ensures same { (names : Tables)
        → IsInfo names.keys kept.now.info kept.now.several (reading_in kept.now)
        → AreDifferences names changed.now → result ≡ true
        → agree_on names.before (values_of names.symbols) (reading_in kept.now) ≡ true }
{
    if status.is_pending() {
        return false;
    }
    match kept.info().uses {
        Uses::Nothing => true,
        Uses::One(id) => !changed[id.number as usize],
        Uses::Several => false,
    }
}

/// Whether a line has to be encoded.
#[inline(always)]
fn is_again(names: &Table, kept: &BoxedLine, status: Status) -> bool
    requires { IsInfo names.now.keys kept.now.info kept.now.several (reading_in kept.now) }
    ensures { result
        ≡ (is_pending status
        || (not (agree_on names.now.before (values_of names.now.symbols) (reading_in kept.now))
        && (is_accepted status && has_code (body_of (reading_in kept.now))))) }
{
    if status.is_pending() {
        return true;
    }
    kept.info().is_coded && status.is_accepted() && !keeps_values(names, kept)
}

/// The first place from `start` on whose line isn't settled; `end` if there is no such line.
#[inline(never)]
fn next_unsettled(
    changed: &[bool],
    lines: &[BoxedLine],
    placements: &[Placement],
    start: usize,
    end: usize,
) -> usize
    requires ordered { start ≤ end }
    requires lines { end ≤ length lines.now }
    requires placements { end ≤ length placements.now }
    requires notes { (names : Tables) × (AreInfos names.keys lines.now
        × AreDifferences names changed.now) }
    ensures after { start ≤ result }
    ensures within { result ≤ end }
    ensures settled { (names : Tables) → AreInfos names.keys lines.now
        → AreDifferences names changed.now
        → AreSettled names lines.now placements.now start result }
{
    let mut place = start;
    while place < end && is_settled(changed, &lines[place], placements[place].status) {
        place += 1;
    }
    place
}

/// Runs the second pass over the lines at some places. A line is encoded if it waits for its code
/// or if one of its names has a different value than before the edit.
#[inline(never)]
pub(crate) fn encode_lines(
    meter: &mut Meter,
    names: &Table,
    lines: &[BoxedLine],
    placements: &mut [Placement],
    tally: &mut Tally,
    image: &mut [u8],
    places: Range<usize>,
)
    requires ordered { places.start ≤ places.end }
    requires within { places.end ≤ length lines.now }
    requires infos { AreInfos names.now.keys lines.now }
    requires laid { map found placements.old ≡ placements_of (readings_in lines.now) }
    requires long { length image.old ≡ IMAGE_BYTES }
    requires tally { IsTally placements.old tally.old }
    ensures tally { IsTally placements.new tally.new }
    ensures laid { map found placements.new ≡ map found placements.old }
    ensures behind { (place : ℕ) → places.end ≤ place
        → slice_get placements.new place ≡ slice_get placements.old place }
    ensures coded { (e : Change) → IsEncodedUnder e names.now lines.now
        → AreCoded e placements.old image.old places.start
        → AreCoded e placements.new image.new places.end }
    ensures encoded { (e : Change) → IsEncodedUnder e names.now lines.now
        → AreCoded e placements.old image.old places.start
        → meter.new.encoded + again_up_to e places.start
        ≤ meter.old.encoded + again_up_to e places.end }
    ensures not_lowered { meter.old.encoded ≤ meter.new.encoded }
    ensures parsed { meter.new.parsed ≡ meter.old.parsed }
{
    same_code();
    let changed = names.differences();
    let mut place = places.start;
    while place < places.end {
        let kept = &lines[place];
        let status = placements[place].status;
        if is_settled(changed, kept, status) {
            place = next_unsettled(changed, lines, placements, place + 1, places.end);
            continue;
        }
        if is_again(names, kept, status) {
            let fault = write_line(meter, names, kept, &placements[place], image);
            tally.put_code(placements, place, fault);
        }
        place += 1;
    }
}
