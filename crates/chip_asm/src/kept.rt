//! Everything stored about a source, and the function through which every edit changes it.
ghost use Rattle.std.specs.Prelude.{◌≡◌, List, ◌+◌, ◌<◌, ◌≤◌, [], slice_index_or, slice_set, OnOk, OnErr, IfOk, IfSome, length, vec_len};
ghost use Rattle.chip_lang.specs.Line.{reading_of};
ghost use Rattle.chip_asm.specs.Edits.{before_replace};
ghost use Rattle.chip_asm.specs.Program.{AgreesOutside, image_of};
ghost use Rattle.chip_asm.specs.Work.{needs_count};
ghost use Rattle.chip_lang.specs.declared.limits.TheConstants.{IMAGE_BYTES};
ghost use Rattle.chip_symbols.specs.Names.{Name};
ghost use Rattle.chip_asm.specs.inner.Infos.{AreAlike, AreInfos, AreInfosOf, IsInfo};
ghost use Rattle.chip_asm.specs.inner.Placements.{IsCounted, nothing};
ghost use Rattle.chip_asm.specs.inner.Kept.{HasRoomFor, IsAssembled, IsExchanged, IsKept, MayEdit, lines_kept, needed_by, texts_kept};
ghost use Rattle.chip_asm.specs.inner.Passes.{Change, IsUnderWay, count_again};
ghost use Rattle.chip_asm.specs.inner.Records.{IsPlaceWithin, count_after, items_after, lines_after, reading_in, readings_in, texts_after, texts_in};

use crate::assemble::{encode_lines, steady_lines, walk};
use crate::block::Block;
use crate::codes::{copy_front, places_of, write_line};
use crate::edit::{LineEdit, count_after, edit_items, first_changed, make_edit, replace_line};
use crate::kept_line::BoxedLine;
use crate::layout::{Layout, Tally, mark_unclosed};
use crate::line_info::{LineInfo, Numbered};
use crate::pass::Pass;
use crate::placement::{Placement, Status};
use chip_lang::Meter;
use chip_lang::limits::{IMAGE_BYTES, IMAGE_START};
use chip_symbols::Table;
use std::alloc::{AllocError, Global};
use std::mem;
use std::ops::Range;

/// Names are renumbered if the table contains more than this many names for each line, counting
/// `SPARE_LINES` extra lines.
const NAMES_A_LINE: usize = 4;

const SPARE_LINES: usize = 16;

/// Replaces the facts about each line by those under another numbering of the names.
fn set_infos(lines: &mut [BoxedLine], infos: &mut [Numbered])
    requires { length infos.old ≡ length lines.old }
    ensures texts { texts_in lines.new ≡ texts_in lines.old }
    ensures readings { readings_in lines.new ≡ readings_in lines.old }
    ensures infos { (keys : List Name) → AreInfosOf keys infos.old (readings_in lines.old)
        → AreInfos keys lines.new }
{
    for place in 0..lines.len() {
        lines[place].renumber(&mut infos[place]);
    }
}

/// The lines of a source, and everything known about them.
#[derive(Drop)]
pub(crate) struct Kept {
    pub(crate) lines: Vec<BoxedLine>,
    pub(crate) names: Table,
    pub(crate) layout: Layout,
    /// The byte at each address from `IMAGE_START` on, even if a line has a fault. Empty until the
    /// source has a line.
    pub(crate) image: Vec<u8>,
    /// Space for the image after an edit. `blocks` is space for the open blocks of a pass.
    spare_image: Vec<u8>,
    blocks: Vec<Block>,
    /// The number of leading lines that are known to be steady.
    settled: usize,
}

impl Kept {
    /// A source without lines. The table contains no symbols.
    pub(crate) fn new(alloc: Global, names: Table) -> Self
        requires { names.symbols ≡ [] }
        ensures names { result.names ≡ names }
        ensures kept { IsKept result }
        ensures none { result.lines.items ≡ [] }
    {
        Kept {
            lines: Vec::new(alloc),
            names,
            layout: Layout::new(alloc),
            image: Vec::new(alloc),
            spare_image: Vec::new(alloc),
            blocks: Vec::new(alloc),
            settled: 0,
        }
    }

    /// Makes an edit, and then renumbers the names if the table contains too many. Returns the
    /// range of image indexes that it wrote, if that range is known. Fails only if memory runs out,
    /// and then changes no line.
    pub(crate) fn edit(
        &mut self,
        alloc: Global,
        meter: &mut Meter,
        edit: LineEdit,
    ) -> Result<Option<Range<usize>>, AllocError>
        requires { MayEdit self.old edit }
        ensures ok { OnOk result (texts_kept self.new ≡ texts_after (texts_kept self.old) edit) }
        ensures err { OnErr result (texts_kept self.new ≡ texts_kept self.old) }
        ensures kept { IsKept self.new }
        ensures encoded { meter.new.encoded ≤ meter.old.encoded + needed_by self.old edit }
        ensures not_lowered { meter.old.encoded ≤ meter.new.encoded }
        ensures parsed { meter.new.parsed ≡ meter.old.parsed }
        ensures written { IfOk result (λ written. IfSome written (λ places.
            AgreesOutside places.start places.end (image_of (texts_kept self.old))
            (image_of (texts_kept self.new)))) }
    {
        let written = match edit {
            LineEdit::Replace(at, added) => {
                if self.lines[at].info().is_alike(added.info()) {
                    self.rewrite(meter, at, added)
                } else {
                    self.remake(alloc, meter, LineEdit::Replace(at, added))?;
                    None
                }
            }
            edit => {
                self.remake(alloc, meter, edit)?;
                None
            }
        };
        self.renumber(alloc);
        Ok(written)
    }

    /// Renumbers the names if the table contains more names than `NAMES_A_LINE` allows. If memory
    /// runs out, the numbers stay the same.
    fn renumber(&mut self, alloc: Global)
        requires { IsKept self.old }
        ensures kept { IsKept self.new }
        ensures texts { texts_kept self.new ≡ texts_kept self.old }
    {
        if self.names.count() / NAMES_A_LINE <= self.lines.len() + SPARE_LINES {
            return;
        }
        if let Ok((names, mut infos)) = self.numbered_anew(alloc) {
            self.names = names;
            self.settled = 0;
            set_infos(&mut self.lines, &mut infos);
        }
    }

    /// A table of only the names that occur in lines, and the facts about these lines under that
    /// table. Fails only if memory runs out.
    fn numbered_anew(&self, alloc: Global) -> Result<(Table, Vec<Numbered>), AllocError>
        ensures symbols { IfOk result (λ made. made.0.symbols ≡ self.now.names.symbols) }
        ensures infos { IfOk result (λ made. AreInfosOf made.0.keys made.1.items
            (readings_in self.now.lines.items)) }
    {
        let mut names = self.names.with_symbols_alone(alloc)?;
        let mut infos = Vec::with_capacity(alloc, self.lines.len())?;
        for kept in &self.lines {
            let made = LineInfo::of(alloc, &mut names, kept.line())?;
            infos.push(made)?;
        }
        Ok((names, infos))
    }

    /// Replaces a line by one that is alike, so that only the line's bytes and its fault can
    /// change. Returns the range of image indexes of the line's bytes, if there was an image.
    fn rewrite(&mut self, meter: &mut Meter, at: usize, added: BoxedLine) -> Option<Range<usize>>
        requires kept { IsKept self.old }
        requires inside { at < vec_len self.old.lines }
        requires is_read { reading_in added ≡ reading_of added.text }
        requires info { IsInfo self.old.names.keys added.info added.several (reading_in added) }
        requires alike { AreAlike (slice_index_or (lines_kept self.old) at (reading_in added))
            (reading_in added) }
        ensures texts { texts_kept self.new ≡ slice_set (texts_kept self.old) at added.text }
        ensures kept { IsKept self.new }
        ensures encoded { meter.new.encoded ≤ meter.old.encoded
            + needs_count (lines_kept self.old)
            (slice_set (lines_kept self.old) at (reading_in added)) (before_replace at) }
        ensures not_lowered { meter.old.encoded ≤ meter.new.encoded }
        ensures parsed { meter.new.parsed ≡ meter.old.parsed }
        ensures written { IfSome result (λ places. AgreesOutside places.start places.end
            (image_of (texts_kept self.old)) (image_of (texts_kept self.new))) }
    {
        let mut placement = self.layout.placements[at];
        let had_image = self.layout.faults == 0;
        let fault = write_line(meter, &self.names, &added, &placement, &mut self.image);
        if placement.status.is_accepted() {
            placement.status = Status::coded(fault);
            let mut tally = Tally::new(self.layout.faults);
            tally.put(&mut self.layout.placements, at, placement);
            self.layout.faults = tally.faults;
        }
        self.settled = self.settled.min(at);
        replace_line(&mut self.lines, at, added);
        if had_image {
            Some(places_of(&placement))
        } else {
            None
        }
    }

    /// Reserves room for an edit that leaves `count` lines. Fails only if memory runs out.
    fn reserve(&mut self, count: usize) -> Result<(), AllocError>
        requires { IsKept self.old }
        ensures kept { IsKept self.new }
        ensures texts { texts_kept self.new ≡ texts_kept self.old }
        ensures room { OnOk result (HasRoomFor self.old self.new count) }
    {
        self.lines.reserve(1)?;
        self.layout.placements.reserve(count)?;
        self.image.resize(IMAGE_BYTES, 0)?;
        self.spare_image.resize(IMAGE_BYTES, 0)?;
        self.blocks.clear();
        self.blocks.reserve(count)
    }

    /// Makes an edit with both passes. Each allocation comes before the first change, so a failed
    /// edit changes no line.
    pub(crate) fn remake(
        &mut self,
        alloc: Global,
        meter: &mut Meter,
        edit: LineEdit,
    ) -> Result<(), AllocError>
        requires { MayEdit self.old edit }
        ensures ok { OnOk result (texts_kept self.new ≡ texts_after (texts_kept self.old) edit) }
        ensures err { OnErr result (texts_kept self.new ≡ texts_kept self.old) }
        ensures kept { IsKept self.new }
        ensures encoded { meter.new.encoded ≤ meter.old.encoded + needed_by self.old edit }
        ensures not_lowered { meter.old.encoded ≤ meter.new.encoded }
        ensures parsed { meter.new.parsed ≡ meter.old.parsed }
    {
        let place = first_changed(&edit);
        let first = steady_lines(&self.lines, self.settled.min(place), place);
        let count = count_after(self.lines.len(), &edit);
        self.reserve(count)?;
        self.names.begin(first, count)?;
        let here = self.layout.address_at(first);
        self.exchange(edit);
        self.settled = first;
        self.assemble(alloc, meter, first, here);
        Ok(())
    }

    /// Makes an edit in the lines and in the placements. The caller has reserved room for it.
    fn exchange(&mut self, edit: LineEdit)
        requires within { IsPlaceWithin (vec_len self.old.lines) edit }
        requires placed_many { vec_len self.old.layout.placements ≡ vec_len self.old.lines }
        requires counted { IsCounted self.old.layout }
        requires room { HasRoomFor self.old self.old (count_after (vec_len self.old.lines) edit) }
        ensures lines { self.new.lines.items ≡ lines_after self.old.lines.items edit }
        ensures placements { self.new.layout.placements.items
            ≡ items_after self.old.layout.placements.items edit nothing }
        ensures counted { IsCounted self.new.layout }
        ensures image { self.new.image ≡ self.old.image }
        ensures spare { self.new.spare_image ≡ self.old.spare_image }
        ensures names { self.new.names ≡ self.old.names }
        ensures blocks { self.new.blocks ≡ self.old.blocks }
        ensures settled { self.new.settled ≡ self.old.settled }
    {
        if let LineEdit::Replace(at, _) | LineEdit::Delete(at) = &edit {
            self.layout.faults -= self.layout.placements[*at].count();
        }
        edit_items(&mut self.layout.placements, &edit, Placement::NOTHING);
        make_edit(&mut self.lines, edit);
    }

    /// Runs the first pass from line `first` on, whose address is `here`; the lines before that
    /// line stay the same. The image then contains the bytes from before the edit for the lines
    /// that keep their codes.
    fn first_pass(&mut self, alloc: Global, first: usize, here: usize) -> (Pass, Tally)
        requires { (e : Change) × IsExchanged e self.old first here }
        ensures lines { self.new.lines ≡ self.old.lines }
        ensures settled { self.new.settled ≡ self.old.settled }
        ensures passed { (e : Change) → IsExchanged e self.old first here
            → IsUnderWay e self.new.lines.items result.0 self.new.layout.placements.items result.1
            self.new.spare_image.items self.new.image.items (length self.new.lines.items) }
    {
        mem::swap(&mut self.image, &mut self.spare_image);
        copy_front(&mut self.image, &self.spare_image, here - IMAGE_START);
        let hasher = self.names.hasher();
        let names = mem::replace(&mut self.names, Table::new(alloc, hasher));
        let blocks = mem::replace(&mut self.blocks, Vec::new(alloc));
        let mut pass = Pass::resume(here, names, blocks);
        let mut tally = Tally::new(self.layout.faults);
        walk(
            &mut pass,
            &self.lines,
            &mut self.layout.placements,
            &mut tally,
            &self.spare_image,
            &mut self.image,
            first,
        );
        (pass, tally)
    }

    /// Updates the layout and the codes with both passes from line `first` on, whose address is
    /// `here`; the lines before that line stay the same.
    fn assemble(&mut self, alloc: Global, meter: &mut Meter, first: usize, here: usize)
        requires { (e : Change) × IsExchanged e self.old first here }
        ensures lines { self.new.lines ≡ self.old.lines }
        ensures settled { self.new.settled ≡ self.old.settled }
        ensures assembled { (e : Change) → IsExchanged e self.old first here
            → IsAssembled e self.new }
        ensures encoded { (e : Change) → IsExchanged e self.old first here
            → meter.new.encoded ≤ meter.old.encoded + count_again e.was e.now e.origin }
        ensures not_lowered { meter.old.encoded ≤ meter.new.encoded }
        ensures parsed { meter.new.parsed ≡ meter.old.parsed }
    {
        let (pass, mut tally) = self.first_pass(alloc, first, here);
        let placements = self.layout.placements.as_mut_slice();
        mark_unclosed(placements, &mut tally, pass.ended, &pass.blocks);
        let places = if pass.names.has_differences() {
            0..self.lines.len()
        } else {
            tally.range()
        };
        let image = self.image.as_mut_slice();
        encode_lines(
            meter,
            &pass.names,
            &self.lines,
            placements,
            &mut tally,
            image,
            places,
        );
        self.layout.faults = tally.faults;
        self.layout.end = pass.here;
        let Pass { names, blocks, .. } = pass;
        self.names = names;
        self.blocks = blocks;
    }
}
