//! A source that can be edited, with its layout, codes and image.
ghost use Rattle.std.specs.Prelude.{◌≡◌, ◌+◌, ◌-◌, ◌<◌, ◌≤◌, ◌⊎◌, OnOk, OnErr, IfOk, IfErr, IsSome, IfSome, [], length, insert, remove, slice_set, Option, Some, None, map, option_map, slice_get};
ghost use Rattle.std.specs.Option.{option_copied};
ghost use Rattle.chip_lang.specs.Line.{upper};
ghost use Rattle.chip_lang.specs.Meter.{one_more};
ghost use Rattle.chip_asm.specs.Edits.{insert_refusal, replace_refusal, delete_refusal, before_insert, before_replace, before_delete};
ghost use Rattle.chip_asm.specs.Work.{lines_to_encode, accepted_of};
ghost use Rattle.chip_symbols.specs.Names.{lookup_name, values_of};
ghost use Rattle.chip_asm.specs.LineViews.{line_at, line_facts};
ghost use Rattle.chip_asm.specs.Listing.{listing_of};
ghost use Rattle.chip_asm.specs.Program.{AgreesOutside, symbols_of, fault_at, faults_of, image_of};

use crate::codes::bytes_at;
use crate::cut::read_lines;
use crate::edit::LineEdit;
use crate::kept::Kept;
use crate::kept_line::read_kept;
use crate::line_view::LineView;
use crate::listing::listing_bytes;
use crate::refusal::{OpenError, Refusal, delete_refusal, insert_refusal, replace_refusal};
use chip_lang::limits::{IMAGE_BYTES, IMAGE_START};
use chip_lang::{Bytes, Fault, Meter, Names};
use chip_symbols::{NameHasher, Scope, Symbol, Table};
use std::alloc::{AllocError, Global};
use std::marker::Model;
use std::ops::Range;

/// The lines of a source, and everything known about them, updated after each edit.
pub struct Source {
    kept: Kept,
    meter: Meter,
}

// Dropping is one call. A derived `Drop` would be expanded, and proved, in every function that
// drops a value.
impl Drop for Source {
    fn drop(self) {
        let Source { kept: _, meter: _ } = self;
    }
}

impl Model for Source {
    ghost use Rattle.chip_asm.specs.Sources.{SourceValue};

    ghost Value = { SourceValue };

    ghost use Rattle.chip_asm.specs.inner.Records.{texts_in};
    ghost use Rattle.chip_asm.specs.inner.Kept.{IsKept};

    ghost view = { λ s. record {
      lines = texts_in s.kept.lines.items;
      work = s.meter;
    } };

    ghost invariant = { λ s. IsKept s.kept };
}

impl Source {
    ghost use Rattle.chip_asm.specs.declared.refusal.Refusal.{Refusal};
    ghost use Rattle.chip_asm.specs.declared.refusal.OpenError.{OpenError};
    ghost use Rattle.chip_asm.specs.Lines.{lines_of, open_fault};

    /// A source without lines.
    pub fn new(alloc: Global) -> Self
        ensures lines { result.lines ≡ [] }
        ensures parsed { result.work.parsed ≡ 0 }
        ensures encoded { result.work.encoded ≡ 0 }
    {
        let names = Table::new(alloc, NameHasher::new(0));
        Source {
            kept: Kept::new(alloc, names),
            meter: Meter::new(),
        }
    }

    /// Opens a source from a copy of its bytes, as `open_bytes` does.
    pub fn open(alloc: Global, source: &[u8]) -> Result<Source, OpenError>
        ensures ok { IfOk result (λ s. (open_fault source.now ≡ None)
            × (s.lines ≡ lines_of source.now)) }
        ensures err { IfErr result (λ e. (e ≡ OpenError.OutOfMemory)
            ⊎ (open_fault source.now ≡ Some e)) }
        ensures parsed { IfOk result (λ s. s.work.parsed ≡ length s.lines) }
        ensures encoded { IfOk result (λ s. s.work.encoded ≤ accepted_of s.lines) }
    {
        Source::open_bytes(alloc, Vec::from_slice(alloc, source)?)
    }

    /// Opens a source from its bytes, as `open_hashed` does with the hasher of the seed 0.
    pub fn open_bytes(alloc: Global, source: Vec<u8>) -> Result<Source, OpenError>
        ensures ok { IfOk result (λ s. (open_fault source.items ≡ None)
            × (s.lines ≡ lines_of source.items)) }
        ensures err { IfErr result (λ e. (e ≡ OpenError.OutOfMemory)
            ⊎ (open_fault source.items ≡ Some e)) }
        ensures parsed { IfOk result (λ s. s.work.parsed ≡ length s.lines) }
        ensures encoded { IfOk result (λ s. s.work.encoded ≤ accepted_of s.lines) }
    {
        Source::open_hashed(alloc, NameHasher::new(0), source)
    }

    /// Opens a source from its bytes and hashes names with this hasher. A line ends at a newline, and a carriage return
    /// directly before that newline is dropped. Fails at the first line that has more than `LINE_BYTES` bytes or
    /// exceeds the limit of `MOST_LINES` lines, or if memory runs out.
    pub fn open_hashed(
        alloc: Global,
        hasher: NameHasher,
        source: Vec<u8>,
    ) -> Result<Source, OpenError>
        ensures ok { IfOk result (λ s. (open_fault source.items ≡ None)
            × (s.lines ≡ lines_of source.items)) }
        ensures err { IfErr result (λ e. (e ≡ OpenError.OutOfMemory)
            ⊎ (open_fault source.items ≡ Some e)) }
        ensures parsed { IfOk result (λ s. s.work.parsed ≡ length s.lines) }
        ensures encoded { IfOk result (λ s. s.work.encoded ≤ accepted_of s.lines) }
    {
        let mut meter = Meter::new();
        let mut names = Table::new(alloc, hasher);
        let lines = read_lines(alloc, &mut meter, &mut names, source)?;
        let mut kept = Kept::new(alloc, names);
        kept.remake(alloc, &mut meter, LineEdit::Open(lines))?;
        Ok(Source { kept, meter })
    }

    /// The number of lines. The source reports facts about each of them.
    pub fn lines(&self) -> usize
        ensures value { result ≡ length self.now.lines }
        ensures told { length (line_facts self.now.lines) ≡ result }
    {
        self.kept.lines.len()
    }

    /// The counts of lines read and encoded so far, both by opening the source and by edits.
    pub fn work(&self) -> Meter
        ensures { result ≡ self.now.work }
    {
        self.meter
    }

    /// The bytes from `IMAGE_START` on; none if a line has a fault.
    pub fn image(&self) -> Option<&[u8]>
        ensures value { option_copied result ≡ image_of self.now.lines }
        ensures fits { IfSome result (λ image. length image.now ≤ IMAGE_BYTES) }
    {
        let layout = &self.kept.layout;
        if layout.faults == 0 {
            Some(&self.kept.image[..layout.end - IMAGE_START])
        } else {
            None
        }
    }

    /// The value of a name, which may be in either case, and the number of the line that defines
    /// it; none if no line defines it.
    pub fn symbol(&self, name: &[u8]) -> Option<Symbol>
        ensures { result ≡ lookup_name (symbols_of self.now.lines) (map upper name.now) }
    {
        self.kept.names.symbol_in_any_case(name)
    }

    /// The line with this number, counted from 1, and all facts about it; none if there is no such
    /// line.
    pub fn line(&self, number: usize) -> Option<LineView<'_>>
        ensures value { result ≡ line_at self.now.lines number }
        ensures number { IfSome result (λ line. line.number ≡ number) }
        ensures text { IfSome result
            (λ line. slice_get self.now.lines (number - 1) ≡ Some line.text) }
    {
        if number == 0 {
            return None;
        }
        let kept = self.kept.lines.get(number - 1)?;
        let placement = &self.kept.layout.placements[number - 1];
        let bytes = bytes_at(&self.kept.image, placement);
        Some(LineView::of(number, kept, placement, bytes))
    }

    /// The fault of the line with this number, counted from 1; none if the line has no fault or
    /// there is no such line.
    pub fn fault(&self, number: usize) -> Option<Fault>
        ensures { result ≡ fault_at self.now.lines number }
    {
        if number == 0 {
            return None;
        }
        match self.kept.layout.placements.get(number - 1) {
            Some(placement) => placement.status.fault(),
            None => None,
        }
    }

    /// The names that the source defines, in line order, each with its value and the number of its
    /// line. Fails only if memory runs out.
    pub fn symbols(&self, alloc: Global) -> Result<Vec<(Bytes, Symbol)>, AllocError>
        ensures { IfOk result (λ symbols. symbols.items ≡ symbols_of self.now.lines) }
    {
        self.kept.names.symbols(alloc)
    }

    /// The number of names that the source defines.
    pub fn symbol_count(&self) -> usize
        ensures { result ≡ length (symbols_of self.now.lines) }
    {
        self.kept.names.symbol_count()
    }

    /// The name at an index, counted from 0, among the names that the source defines, in line
    /// order, with its value and the number of its line. None past the last name.
    pub fn symbol_at(&self, place: usize) -> Option<(&[u8], Symbol)>
        ensures { option_map (λ found. (found.0.now, found.1)) result
            ≡ slice_get (symbols_of self.now.lines) place }
    {
        self.kept.names.symbol_at(place)
    }

    /// All faults in line order, each with the number of its line. Fails only if memory runs out.
    pub fn faults(&self, alloc: Global) -> Result<Vec<(usize, Fault)>, AllocError>
        ensures { IfOk result (λ faults. faults.items ≡ faults_of self.now.lines) }
    {
        let placements = &self.kept.layout.placements;
        let mut faults = Vec::new(alloc);
        for place in 0..placements.len() {
            if let Some(fault) = placements[place].status.fault() {
                faults.push((place + 1, fault))?;
            }
        }
        Ok(faults)
    }

    /// The listing: a row for each line, with its number, its address, its bytes, value or fault,
    /// and its text. Fails only if memory runs out.
    pub fn listing(&self, alloc: Global) -> Result<Vec<u8>, AllocError>
        ensures { IfOk result (λ listing. listing.items ≡ listing_of self.now.lines) }
    {
        let mut listing = Vec::with_capacity(alloc, listing_bytes(&self.kept.lines))?;
        for place in 0..self.lines() {
            if let Some(line) = self.line(place + 1) {
                line.push_decimal_row(&mut listing)?;
            }
        }
        Ok(listing)
    }

    /// Inserts a line before line `number`, counted from 1, or after the last line. A refused edit
    /// changes no line. It changes the work counts only if memory ran out.
    pub fn insert(&mut self, alloc: Global, number: usize, text: &[u8]) -> Result<(), Refusal>
        ensures ok { OnOk result ((insert_refusal (length self.old.lines) number text.now ≡ None)
            × (self.new.lines ≡ insert self.old.lines (number - 1) text.now)) }
        ensures err { IfErr result
            (λ e. (insert_refusal (length self.old.lines) number text.now ≡ Some e)
            ⊎ ((e ≡ Refusal.OutOfMemory)
            × (insert_refusal (length self.old.lines) number text.now ≡ None))) }
        ensures same { OnErr result (self.new.lines ≡ self.old.lines) }
        ensures refused { IsSome (insert_refusal (length self.old.lines) number text.now)
            → self.new.work ≡ self.old.work }
        ensures parsed { insert_refusal (length self.old.lines) number text.now ≡ None
            → self.new.work.parsed ≡ one_more self.old.work.parsed }
        ensures encoded { self.new.work.encoded
            ≤ self.old.work.encoded
            + lines_to_encode self.old.lines (insert self.old.lines (number - 1) text.now)
            (before_insert (number - 1)) }
        ensures not_lowered { self.old.work.encoded ≤ self.new.work.encoded }
    {
        if let Some(refusal) = insert_refusal(self.kept.lines.len(), number, text) {
            return Err(refusal);
        }
        let added = read_kept(alloc, &mut self.meter, &mut self.kept.names, text)?;
        self.kept.edit(alloc, &mut self.meter, LineEdit::Insert(number - 1, added))?;
        Ok(())
    }

    /// Replaces the text of line `number`, counted from 1, and returns the range of image indexes
    /// that it wrote, if that range is known. A refused edit changes no line. It changes the work
    /// counts only if memory ran out.
    pub fn replace(
        &mut self,
        alloc: Global,
        number: usize,
        text: &[u8],
    ) -> Result<Option<Range<usize>>, Refusal>
        ensures ok { OnOk result ((replace_refusal (length self.old.lines) number text.now ≡ None)
            × (self.new.lines ≡ slice_set self.old.lines (number - 1) text.now)) }
        ensures err { IfErr result
            (λ e. (replace_refusal (length self.old.lines) number text.now ≡ Some e)
            ⊎ ((e ≡ Refusal.OutOfMemory)
            × (replace_refusal (length self.old.lines) number text.now ≡ None))) }
        ensures same { OnErr result (self.new.lines ≡ self.old.lines) }
        ensures refused { IsSome (replace_refusal (length self.old.lines) number text.now)
            → self.new.work ≡ self.old.work }
        ensures parsed { replace_refusal (length self.old.lines) number text.now ≡ None
            → self.new.work.parsed ≡ one_more self.old.work.parsed }
        ensures encoded { self.new.work.encoded
            ≤ self.old.work.encoded
            + lines_to_encode self.old.lines (slice_set self.old.lines (number - 1) text.now)
            (before_replace (number - 1)) }
        ensures not_lowered { self.old.work.encoded ≤ self.new.work.encoded }
        ensures written { IfOk result (λ written. IfSome written (λ places. AgreesOutside
            places.start places.end (image_of self.old.lines) (image_of self.new.lines))) }
    {
        if let Some(refusal) = replace_refusal(self.kept.lines.len(), number, text) {
            return Err(refusal);
        }
        let added = read_kept(alloc, &mut self.meter, &mut self.kept.names, text)?;
        Ok(self.kept.edit(alloc, &mut self.meter, LineEdit::Replace(number - 1, added))?)
    }

    /// Removes line `number`, counted from 1. A refused edit changes no line. It changes the work
    /// counts only if memory ran out.
    pub fn delete(&mut self, alloc: Global, number: usize) -> Result<(), Refusal>
        ensures ok { OnOk result ((delete_refusal (length self.old.lines) number ≡ None)
            × (self.new.lines ≡ remove self.old.lines (number - 1))) }
        ensures err { IfErr result (λ e. (delete_refusal (length self.old.lines) number ≡ Some e)
            ⊎ ((e ≡ Refusal.OutOfMemory)
            × (delete_refusal (length self.old.lines) number ≡ None))) }
        ensures same { OnErr result (self.new.lines ≡ self.old.lines) }
        ensures refused { IsSome (delete_refusal (length self.old.lines) number)
            → self.new.work ≡ self.old.work }
        ensures parsed { self.new.work.parsed ≡ self.old.work.parsed }
        ensures encoded { self.new.work.encoded
            ≤ self.old.work.encoded
            + lines_to_encode self.old.lines (remove self.old.lines (number - 1))
            (before_delete (number - 1)) }
        ensures not_lowered { self.old.work.encoded ≤ self.new.work.encoded }
    {
        if let Some(refusal) = delete_refusal(self.kept.lines.len(), number) {
            return Err(refusal);
        }
        self.kept
            .edit(alloc, &mut self.meter, LineEdit::Delete(number - 1))?;
        Ok(())
    }
}

/// The names that the source defines, with their values.
impl Names for Source {
    ghost symbols = { λ s. values_of (symbols_of s.lines) };

    fn value(&self, name: &[u8]) -> Option<i32> {
        Scope::new(&self.kept.names, &[]).value(name)
    }
}
