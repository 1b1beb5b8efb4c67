//! Everything stored about a line.
ghost use Rattle.std.specs.Prelude.{◌≡◌, ◌+◌, ◌≤◌, List, Ok, IfOk, length};
ghost use Rattle.chip_lang.specs.Line.{reading_of};
ghost use Rattle.chip_lang.specs.SeenLine.{seen_line};
ghost use Rattle.chip_lang.specs.Meter.{one_more};
ghost use Rattle.chip_symbols.specs.Names.{Name};
ghost use Rattle.chip_asm.specs.declared.line_info.Uses.TheVariants.{Several};
ghost use Rattle.chip_asm.specs.inner.HeldText.{SaysNothing, part_from};
ghost use Rattle.chip_asm.specs.inner.Infos.{IsInfo, numbers_in};
ghost use Rattle.chip_asm.specs.inner.Records.{reading_in};
ghost use Rattle.chip_symbols.specs.Tables.{Extends};

use crate::line_info::{LineInfo, Numbered, Uses};
use crate::line_text::{LineText, SharedSource};
use chip_lang::{Body, Line, Meter, read_line, read_nothing};
use chip_symbols::{NameId, Table};
use std::alloc::{AllocError, Global};
use std::marker::Model;
use std::rc::Rc;
use std::{mem, slice};

/// A line of the source: its text and its reading.
#[derive(Drop)]
pub(crate) struct ReadLine {
    pub(crate) text: LineText,
    pub(crate) line: Line,
    /// The numbers of the names that the line uses, if it uses several, or of the name that its
    /// IFDEF or IFUND tests.
    pub(crate) several: Vec<NameId>,
}

/// The way in which a line is stored.
#[derive(Drop)]
pub(crate) enum HeldLine {
    /// A line that is blank or only a comment: the number of its bytes, and the index where they
    /// begin in the shared source.
    Nothing(u16, u32, Rc<SharedSource>),
    /// Any line.
    Boxed(Box<ReadLine>),
}

/// A line of the source. The line is stored behind a pointer, so an edit that moves lines moves few
/// bytes. Many lines are blank or only a comment. Such a line takes no space of its own if it was
/// read together with other lines.
#[derive(Drop)]
pub(crate) struct BoxedLine {
    held: HeldLine,
    pub(crate) info: LineInfo,
}

impl Model for BoxedLine {
    ghost use Rattle.chip_asm.specs.inner.KeptLine.{KeptLine};
    ghost use Rattle.chip_asm.specs.inner.KeptLine.{kept_held, IsLineHeld};
    ghost use Rattle.chip_lang.specs.contracts.expr.Expr as e;
    ghost use Rattle.std.specs.Coded.{codes};

    ghost Value = { KeptLine };

    ghost coded = { Prim.hlevel (codes, e.the_row.coded) };

    ghost view = { λ b. kept_held b.held b.info };

    ghost invariant = { λ b. IsLineHeld b.held };
}

impl BoxedLine {
    /// A line with this text and this reading, whose names are given numbers. Fails only if memory
    /// runs out.
    #[inline(always)]
    fn new(alloc: Global, table: &mut Table, text: LineText, line: Line) -> Result<Self, AllocError>
        ensures text { IfOk result (λ kept. kept.text ≡ text) }
        ensures line { IfOk result (λ kept. kept.line ≡ line) }
        ensures info { IfOk result (λ kept. IsInfo table.new.keys kept.info kept.several
            (reading_in kept)) }
        ensures keys { Extends table.old.keys table.new.keys }
        ensures symbols { table.new.symbols ≡ table.old.symbols }
    {
        let Numbered { info, several } = LineInfo::of(alloc, table, &line)?;
        let read = ReadLine {
            text,
            line,
            several,
        };
        Ok(BoxedLine {
            held: HeldLine::Boxed(Box::new(alloc, read)?),
            info,
        })
    }

    /// The text of the line.
    pub(crate) fn text(&self) -> &[u8]
        ensures { result.now ≡ self.now.text }
    {
        match &self.held {
            HeldLine::Nothing(count, start, source) => source.part(*start, *count),
            HeldLine::Boxed(kept) => kept.text.get(),
        }
    }

    /// The reading of the line.
    pub(crate) fn line(&self) -> &Line
        ensures { result.now ≡ self.now.line }
    {
        match &self.held {
            HeldLine::Nothing(_, _, source) => &source.nothing,
            HeldLine::Boxed(kept) => &kept.line,
        }
    }

    /// The facts about the line that steps over all lines need.
    #[inline]
    pub(crate) fn info(&self) -> LineInfo
        ensures { result ≡ self.now.info }
    {
        self.info
    }

    /// The numbers of the names that the line uses, or else of the name that its IFDEF or IFUND
    /// tests.
    #[inline]
    pub(crate) fn numbers(&self) -> &[NameId]
        ensures { self.now.info.uses ≡ Several → result.now ≡ numbers_in self.now }
    {
        if let Uses::One(id) = &self.info.uses {
            return slice::from_ref(id);
        }
        match &self.held {
            HeldLine::Boxed(kept) => &kept.several,
            HeldLine::Nothing(_, _, _) => &[],
        }
    }

    /// Replaces the numbers of the line's names.
    pub(crate) fn renumber(&mut self, made: &mut Numbered)
        ensures text { self.new.text ≡ self.old.text }
        ensures line { self.new.line ≡ self.old.line }
        ensures info { (keys : List Name)
            → IsInfo keys made.old.info made.old.several.items (reading_in self.old)
            → IsInfo keys self.new.info self.new.several (reading_in self.new) }
    {
        self.info = made.info;
        if let HeldLine::Boxed(kept) = &mut self.held {
            mem::swap(&mut kept.several, &mut made.several);
        }
    }
}

/// Reads a text, stores a copy of it, and numbers its names. Fails only if memory runs out.
pub(crate) fn read_kept(
    alloc: Global,
    meter: &mut Meter,
    table: &mut Table,
    text: &[u8],
) -> Result<BoxedLine, AllocError>
    ensures text { IfOk result (λ kept. kept.text ≡ text.now) }
    ensures reading { IfOk result (λ kept. seen_line kept.line ≡ reading_of text.now) }
    ensures info { IfOk result (λ kept. IsInfo table.new.keys kept.info kept.several
        (reading_in kept)) }
    ensures counted { meter.new ≡ record meter.old { parsed = one_more meter.old.parsed } }
    ensures keys { Extends table.old.keys table.new.keys }
    ensures symbols { table.new.symbols ≡ table.old.symbols }
{
    let line = read_line(alloc, meter, text)?;
    let text = LineText::own(alloc, text)?;
    BoxedLine::new(alloc, table, text, line)
}

/// Reads a text that begins at index `start` of a shared source, and numbers its names. Fails only
/// if memory runs out.
#[inline]
pub(crate) fn read_part(
    alloc: Global,
    meter: &mut Meter,
    table: &mut Table,
    source: &Rc<SharedSource>,
    start: usize,
    text: &[u8],
) -> Result<BoxedLine, AllocError>
    requires nothing { SaysNothing source.now.value.nothing }
    requires within { start + length text.now ≤ length source.now.value.bytes }
    requires part { text.now ≡ part_from source.now.value.bytes start (length text.now) }
    ensures text { IfOk result (λ kept. kept.text ≡ text.now) }
    ensures reading { IfOk result (λ kept. seen_line kept.line ≡ reading_of text.now) }
    ensures info { IfOk result (λ kept. IsInfo table.new.keys kept.info kept.several
        (reading_in kept)) }
    ensures counted { meter.new ≡ record meter.old { parsed = one_more meter.old.parsed } }
    ensures keys { Extends table.old.keys table.new.keys }
    ensures symbols { table.new.symbols ≡ table.old.symbols }
{
    let (Ok(start), Ok(count)) = (u32::try_from(start), u16::try_from(text.len())) else {
        return read_kept(alloc, meter, table, text);
    };
    if read_nothing(meter, text) {
        let source = Rc::clone(source)?;
        return Ok(BoxedLine {
            held: HeldLine::Nothing(count, start, source),
            info: LineInfo::NOTHING,
        });
    }
    let line = read_line(alloc, meter, text)?;
    let text = LineText::part(Rc::clone(source)?, start, count);
    BoxedLine::new(alloc, table, text, line)
}
