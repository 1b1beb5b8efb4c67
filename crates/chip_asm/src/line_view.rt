//! The facts that a source reports about a line.
ghost use Rattle.std.specs.Prelude.{◌≡◌, ◌<◌, ◌≤◌, IfOk, length};
ghost use Rattle.chip_lang.specs.FaultPlace.{mnemonic_of, span_of_fault};
ghost use Rattle.chip_lang.specs.Line.{reading_of};
ghost use Rattle.chip_lang.specs.Scan.{AreTokens};
ghost use Rattle.chip_lang.specs.SeenLine.{seen_line};
ghost use Rattle.chip_lang.specs.computed.Tokens.{tokens_of};
ghost use Rattle.chip_lang.specs.declared.limits.TheConstants.{MEMORY_BYTES};
ghost use Rattle.chip_asm.specs.LineViews.{definition_of};
ghost use Rattle.chip_asm.specs.inner.Facts.{facts_in};
ghost use Rattle.chip_asm.specs.inner.Records.{reading_in};

use crate::kept_line::BoxedLine;
use crate::placement::Placement;
use chip_lang::{Body, Bytes, Fault, Line, Span, Token, fault_span, mnemonic_of, tokens};
use std::alloc::{AllocError, Global};
use std::marker::Model;

/// A line of a source and the facts about it, borrowed from the source.
#[derive(Drop)]
pub struct LineView<'a> {
    pub(crate) number: usize,
    pub(crate) text: &'a [u8],
    pub(crate) reading: &'a Line,
    pub(crate) placement: Placement,
    pub(crate) bytes: &'a [u8],
}

impl<'a> Model for LineView<'a> {
    ghost use Rattle.chip_asm.specs.LineViews.{LineFacts};
    ghost use Rattle.chip_asm.specs.inner.Facts.{IsView, facts_in};

    ghost Value = { LineFacts };

    ghost view = { λ v. facts_in v.number v.text.now v.placement v.bytes.now };

    ghost invariant = { λ v. IsView v.number v.text.now v.reading.now v.placement };
}

impl<'a> LineView<'a> {
    /// The view of the stored line with this number and placement, given its bytes in the image.
    pub(crate) fn of(
        number: usize,
        kept: &'a BoxedLine,
        placement: &Placement,
        bytes: &'a [u8],
    ) -> LineView<'a>
        requires number { number < 10000 }
        requires is_read { reading_in kept.now ≡ reading_of kept.now.text }
        requires high { placement.now.here ≤ MEMORY_BYTES }
        ensures { result ≡ facts_in number kept.now.text placement.now bytes.now }
    {
        LineView {
            number,
            text: kept.text(),
            reading: kept.line(),
            placement: *placement,
            bytes,
        }
    }

    /// The number of the line, counted from 1.
    pub fn number(&self) -> usize
        ensures value { result ≡ self.now.number }
        ensures bound { result < 10000 }
    {
        self.number
    }

    /// The text of the line, without its line end.
    pub fn text(&self) -> &'a [u8]
        ensures { result.now ≡ self.now.text }
    {
        self.text
    }

    /// The reading of the text.
    pub fn reading(&self) -> &'a Line
        ensures { seen_line result.now ≡ reading_of self.now.text }
    {
        self.reading
    }

    /// The tokens of the text from left to right, each with its place. A text has exactly one such
    /// list. Fails only if memory runs out.
    pub fn tokens(&self, alloc: Global) -> Result<Vec<Token>, AllocError>
        ensures list { IfOk result (λ tokens. tokens.items ≡ tokens_of self.now.text) }
        ensures placed { IfOk result (λ tokens. AreTokens self.now.text 0 tokens.items) }
    {
        tokens(alloc, self.text)
    }

    /// The mnemonic that the statement begins with, in upper case; none if it begins with no
    /// mnemonic. Fails only if memory runs out.
    pub fn mnemonic(&self, alloc: Global) -> Result<Option<Bytes>, AllocError>
        ensures { IfOk result (λ mnemonic. mnemonic ≡ mnemonic_of self.now.text) }
    {
        mnemonic_of(alloc, self.text)
    }

    /// The part of the text at which one of its faults lies, as the table `place_of_fault` states.
    /// Fails only if memory runs out.
    pub fn span_of(&self, alloc: Global, fault: Fault) -> Result<Span, AllocError>
        ensures span { IfOk result (λ span. span ≡ span_of_fault fault self.now.text) }
        ensures rises { IfOk result (λ span. span.start ≤ span.end) }
        ensures inside { IfOk result (λ span. span.end ≤ length self.now.text) }
    {
        fault_span(alloc, self.text, fault)
    }

    /// Whether the line is active: no IF block excludes it, and no END comes before it.
    pub fn is_active(&self) -> bool
        ensures { result ≡ self.now.active }
    {
        self.placement.is_active()
    }

    /// The address of the line, or the address that it would have if it were active.
    pub fn address(&self) -> usize
        ensures value { result ≡ self.now.address }
        ensures bound { result ≤ MEMORY_BYTES }
    {
        self.placement.address()
    }

    /// The value of the expression of an EQU, ORG or DS line; 0 if the expression has no value, and
    /// for any other line.
    pub fn value(&self) -> i32
        ensures { result ≡ self.now.value }
    {
        self.placement.value
    }

    /// The fault of the line, if it has one.
    pub fn fault(&self) -> Option<Fault>
        ensures { result ≡ self.now.fault }
    {
        self.placement.status.fault()
    }

    /// The bytes of the line in the image: its own bytes, and zeros up to its size. An inactive
    /// line and a line with a fault of the first pass have no bytes.
    pub fn bytes(&self) -> &'a [u8]
        ensures { result.now ≡ self.now.bytes }
    {
        self.bytes
    }

    /// The number of bytes that the line takes.
    pub fn size(&self) -> usize
        ensures { result ≡ length self.now.bytes }
    {
        self.bytes.len()
    }

    /// The value that an active line without a fault assigns to a name by EQU or DEFINE; none for
    /// any other line.
    pub fn definition(&self) -> Option<i32>
        ensures { result ≡ definition_of self.now }
    {
        if !self.placement.is_active() || self.placement.status.fault().is_some() {
            return None;
        }
        match self.reading {
            Line::Read {
                body: Body::Equ(_),
                ..
            } => Some(self.placement.value),
            Line::Read {
                body: Body::Define,
                ..
            } => Some(0),
            _ => None,
        }
    }
}
