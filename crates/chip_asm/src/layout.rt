//! The results of the passes for all lines.
ghost use Rattle.std.specs.Prelude.{◌≡◌, ◌<◌, ◌≤◌, [], List, Some, length, slice_index_or, slice_set, take, true};
ghost use Rattle.std.specs.List.{list_all};
ghost use Rattle.chip_lang.specs.Line.{Reading};
ghost use Rattle.chip_asm.specs.computed.Walk.{address, placed};
ghost use Rattle.chip_asm.specs.inner.Placements.{IsLayoutOf, nothing, status_coded};
ghost use Rattle.chip_asm.specs.inner.Blocks.{AreMarked, is_among};
ghost use Rattle.chip_asm.specs.inner.Passes.{IsTally};

use crate::block::Block;
use crate::placement::{Placement, Status};
use chip_lang::Fault;
use chip_lang::limits::IMAGE_START;
use std::alloc::Global;
use std::ops::Range;

/// The results of the passes: the placement of each line, and the address after the last line.
#[derive(Drop)]
pub(crate) struct Layout {
    pub(crate) placements: Vec<Placement>,
    pub(crate) end: usize,
    /// The number of lines with a fault.
    pub(crate) faults: usize,
}

impl Layout {
    /// The layout of no lines.
    #[tactic(auto, unfolding(crate::specs::computed::Walk::placed, crate::specs::computed::Walk::address, crate::specs::inner::Placements::placements_of))]
    pub(crate) fn new(alloc: Global) -> Self
        ensures { IsLayoutOf result [] }
    {
        Layout {
            placements: Vec::new(alloc),
            end: IMAGE_START,
            faults: 0,
        }
    }

    /// The address of the line at a place; past the last line, the address after the last line.
    pub(crate) fn address_at(&self, place: usize) -> usize
        ensures { (lines : List Reading) → IsLayoutOf self.now lines → place ≤ length lines
            → result ≡ address (placed (take place lines)) }
    {
        match self.placements.get(place) {
            Some(placement) => placement.address(),
            None => self.end,
        }
    }
}

/// The number of lines with a fault, and a range of places that contains all lines that wait for
/// their codes.
#[derive(Clone, Copy)]
pub(crate) struct Tally {
    pub(crate) faults: usize,
    pub(crate) start: usize,
    pub(crate) end: usize,
}

impl Tally {
    /// The tally of lines if `faults` of them have a fault and none waits for its code.
    pub(crate) fn new(faults: usize) -> Tally
        ensures faults { result.faults ≡ faults }
        ensures end { result.end ≡ 0 }
    {
        Tally {
            faults,
            start: usize::MAX,
            end: 0,
        }
    }

    /// Replaces the placement of a line, which may wait for its code, by a new one.
    #[inline(always)]
    pub(crate) fn put(&mut self, placements: &mut [Placement], at: usize, new: Placement)
        requires there { at < length placements.old }
        requires tally { IsTally placements.old self.old }
        ensures placements { placements.new ≡ slice_set placements.old at new }
        ensures tally { IsTally placements.new self.new }
    {
        if new.status.is_pending() {
            self.start = self.start.min(at);
            self.end = self.end.max(at + 1);
        }
        let others = self.faults - placements[at].count();
        placements[at] = new;
        self.faults = others + new.count();
    }

    /// Records the fault of an accepted line's code, or that the code has no fault.
    #[inline(always)]
    pub(crate) fn put_code(&mut self, placements: &mut [Placement], at: usize, fault: Option<Fault>)
        requires there { at < length placements.old }
        requires tally { IsTally placements.old self.old }
        ensures placements { placements.new
            ≡ slice_set placements.old at (record (slice_index_or placements.old at nothing)
            { status = status_coded fault }) }
        ensures tally { IsTally placements.new self.new }
    {
        let was = placements[at];
        if let (Status::Done, None) = (was.status, fault) {
            return;
        }
        let status = Status::coded(fault);
        self.put(placements, at, Placement { status, ..was });
    }

    /// A range of places that contains all waiting lines.
    pub(crate) fn range(&self) -> Range<usize>
        ensures ordered { result.start ≤ result.end }
        ensures within { result.end ≤ self.now.end }
        ensures low { self.now.start < self.now.end → result.start ≡ self.now.start }
        ensures high { self.now.start < self.now.end → result.end ≡ self.now.end }
    {
        if self.start < self.end {
            self.start..self.end
        } else {
            0..0
        }
    }
}

/// Marks each active IF that lacks an ENDIF, unless an active END was reached. Lines count from 1,
/// placements from 0.
pub(crate) fn mark_unclosed(
    placements: &mut [Placement],
    tally: &mut Tally,
    ended: bool,
    blocks: &[Block],
)
    requires among { list_all (is_among (length placements.old)) blocks.now ≡ true }
    requires tally { IsTally placements.old tally.old }
    ensures marked { AreMarked ended blocks.now placements.old placements.new }
    ensures tally { IsTally placements.new tally.new }
{
    if ended {
        return;
    }
    for index in 0..blocks.len() {
        if blocks[index].active {
            let place = blocks[index].number - 1;
            let mut placement = placements[place];
            placement.status = Status::Refused(Fault::UnclosedIf);
            tally.put(placements, place, placement);
        }
    }
}
