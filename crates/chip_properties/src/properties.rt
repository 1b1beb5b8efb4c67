//! The properties of a source.

ghost use Rattle.std.specs.Prelude.{◌≡◌, ◌≤◌, ◌+◌, ◌-◌, IfErr, IfOk, IfSome, None, OnOk, Some, drop, false, length, nat_lt};
ghost use Rattle.chip_asm.specs.LineViews.{line_at};
ghost use Rattle.chip_symbols.specs.Names.{values_of};
ghost use Rattle.chip_asm.specs.Program.{symbols_of};
ghost use Rattle.chip_properties.specs.Language.{IsProperty};
ghost use Rattle.chip_properties.specs.declared.limits.TheConstants.{MOST_PROPERTIES};
ghost use Rattle.chip_properties.specs.Lines.{StandsAt, count_in, property_start};
ghost use Rattle.chip_properties.specs.Properties.{AreProperties};
ghost use Rattle.chip_properties.specs.SeenProperty.{SeenProperty, seen_property};
ghost use Rattle.chip_properties.specs.Tokens.{property_tokens};
ghost use Rattle.chip_properties.specs.computed.Reading.{stated_in};
ghost use Rattle.chip_properties.specs.inner.Reads.{symbols_read};
ghost use Rattle.chip_properties.specs.inner.Told.{IsAnswer, IsRead};

use crate::advice::fault_found;
use crate::fault::{Failure, FaultCode, Found, PropertyFault};
use crate::limits::MOST_PROPERTIES;
use crate::line::mark_end;
use crate::reader::Reader;
use crate::stated::{Kind, Stated};
use crate::tokens::property_tokens;
use chip_asm::{LineView, Source};
use chip_explore::Property;
use std::alloc::{AllocError, Global};

/// The properties that a source states, and the faults of the properties that can't be read, each
/// in line order.
#[derive(Drop)]
pub struct Properties {
    pub stated: Vec<Stated>,
    pub faults: Vec<PropertyFault>,
}

/// Reads the properties of a source: its active lines that begin with `;!`. Reads at most
/// `MOST_PROPERTIES` of these lines.
///
/// # Errors
///
/// Out of memory.
pub fn properties_of(alloc: Global, source: &Source) -> Result<Properties, AllocError>
    ensures { IfOk result (AreProperties source.now.lines) }
{
    let mut found = Properties {
        stated: Vec::new(alloc),
        faults: Vec::new(alloc),
    };
    for index in 0..source.lines() {
        found.read_line(alloc, source, index + 1)?;
    }
    Ok(found)
}

impl Properties {
    /// Whether one more line may be read as a property.
    fn has_room(&self) -> bool
        ensures { result ≡ nat_lt (length self.now.stated.items + length self.now.faults.items)
            MOST_PROPERTIES }
    {
        self.stated.len().saturating_add(self.faults.len()) < MOST_PROPERTIES
    }

    /// Adds the property or the fault of the line with a number, if the line states a property.
    fn read_line(&mut self, alloc: Global, source: &Source, number: usize) -> Result<(), AllocError>
        requires { length self.old.stated.items + length self.old.faults.items
            ≡ count_in source.now.lines (number - 1) }
        ensures { OnOk result (IsRead source.now.lines number self.old self.new) }
    {
        let Some(line) = source.line(number) else {
            return Ok(());
        };
        let Some(start) = property_start(&line) else {
            return Ok(());
        };
        let has_room = self.has_room();
        match property_on(alloc, source, number, &line, start, has_room)? {
            Ok(stated) => {
                self.stated.reserve(1)?;
                self.stated.push_reserved(stated);
            }
            Err(fault) => {
                self.faults.reserve(1)?;
                self.faults.push_reserved(fault);
            }
        }
        Ok(())
    }
}

/// Returns the property that a line states. The text of the property begins at `start` in the line.
/// If there is no room for one more property, returns a fault without reading the text.
fn property_on(
    alloc: Global,
    source: &Source,
    number: usize,
    line: &LineView<'_>,
    start: usize,
    has_room: bool,
) -> Result<Result<Stated, PropertyFault>, AllocError>
    requires there { line_at source.now.lines number ≡ Some line.now }
    requires begins { property_start line.now ≡ Some start }
    requires within { start ≤ length line.now.text }
    requires room { has_room ≡ false → MOST_PROPERTIES ≤ count_in source.now.lines (number - 1) }
    ensures { IfOk result (IsAnswer source.now.lines number) }
{
    let reader = Reader {
        alloc,
        source,
        here: Some(line.address()),
    };
    if has_room {
        return reader.read(None, number, line.text(), start);
    }
    let found = Found::at(FaultCode::TooMany, 0);
    let fault = fault_found(&reader, number, line.text(), start, found)?;
    Ok(Err(fault))
}

/// Returns the place in the text of an active line at which its property begins.
fn property_start(line: &LineView<'_>) -> Option<usize>
    ensures value { result ≡ property_start line.now }
    ensures within { IfSome result (λ start. start ≤ length line.now.text) }
{
    if line.is_active() {
        mark_end(line.text())
    } else {
        None
    }
}

/// Returns the property that a separate text states about a source. The text is a property without
/// `;!` and without the word for its kind; `here` can't be used in it.
///
/// # Errors
///
/// Out of memory.
pub fn property_of_text(
    alloc: Global,
    text: &[u8],
    kind: Kind,
    source: &Source,
) -> Result<Result<Stated, PropertyFault>, AllocError>
    ensures line { IfOk result (λ read. IfOk read (λ s. s.line ≡ 0)) }
    ensures kind { IfOk result (λ read. IfOk read (λ s. s.kind ≡ kind)) }
    ensures stated { IfOk result (λ read. IfOk read (λ s.
        IsProperty (values_of (symbols_of source.now.lines)) None kind (property_tokens text.now)
        (seen_property s.property))) }
    ensures refused { IfOk result (λ read. IfErr read (λ _. (p : SeenProperty)
        → IsProperty (values_of (symbols_of source.now.lines)) None kind (property_tokens text.now) p
        → ⊥)) }
    ensures stands { IfOk result
        (λ read. IfErr read (λ fault. StandsAt 0 text.now fault)) }
{
    let reader = Reader {
        alloc,
        source,
        here: None,
    };
    reader.read(Some(kind), 0, text, 0)
}

impl<'a> Reader<'a> {
    /// Returns the property that the line with a number states. The text of the property begins at
    /// `start` in the line. If no kind is given, the property may begin with the word for one.
    fn read(
        &self,
        kind: Option<Kind>,
        number: usize,
        line: &[u8],
        start: usize,
    ) -> Result<Result<Stated, PropertyFault>, AllocError>
        requires { start ≤ length line.now }
        ensures stated { IfOk result (λ read. IfOk read (λ s. (s.line ≡ number)
            × (stated_in (symbols_read self.now) self.now.here kind
            (property_tokens (drop start line.now)) ≡ Some (s.kind, seen_property s.property)))) }
        ensures refused { IfOk result (λ read. IfErr read (λ _.
            stated_in (symbols_read self.now) self.now.here kind
            (property_tokens (drop start line.now)) ≡ None)) }
        ensures stands { IfOk result
            (λ read. IfErr read (λ fault. StandsAt number line.now fault)) }
    {
        let tokens = property_tokens(self.alloc, &line[start..])?;
        match self.stated(kind, &tokens) {
            Ok((kind, property)) => Ok(Ok(Stated {
                line: number,
                kind,
                property,
            })),
            Err(Failure::OutOfMemory) => Err(AllocError),
            Err(Failure::Fault(found)) => {
                let fault = fault_found(self, number, line, start, found)?;
                Ok(Err(fault))
            }
        }
    }
}
