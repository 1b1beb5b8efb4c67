//! The text of a line: its own bytes, or a part of bytes that several lines share.
ghost use Rattle.std.specs.Prelude.{◌≡◌, ◌+◌, ◌≤◌, IfOk, length};
ghost use Rattle.chip_asm.specs.inner.HeldText.{SaysNothing, part_from};

use chip_lang::{Body, Bytes, Line};
use std::alloc::{AllocError, Global};
use std::marker::Model;
use std::rc::Rc;

/// The data shared by lines that were read together: the bytes that contain their texts, and the
/// reading of a blank line.
#[derive(Drop)]
pub(crate) struct SharedSource {
    pub(crate) bytes: Bytes,
    pub(crate) nothing: Line,
}

impl SharedSource {
    /// A shared source of these bytes. Fails only if memory runs out.
    pub(crate) fn new(alloc: Global, bytes: Vec<u8>) -> Result<Rc<SharedSource>, AllocError>
        ensures bytes { IfOk result (λ source. source.value.bytes ≡ bytes.items) }
        ensures nothing { IfOk result (λ source. SaysNothing source.value.nothing) }
    {
        let source = SharedSource {
            bytes: Bytes::new(bytes),
            nothing: Line::Read {
                label: None,
                body: Body::Empty,
            },
        };
        Ok(Rc::new(alloc, source)?)
    }

    /// The `count` bytes from index `start` on.
    pub(crate) fn part(&self, start: u32, count: u16) -> &[u8]
        requires { start + count ≤ length self.now.bytes }
        ensures { result.now ≡ part_from self.now.bytes start count }
    {
        let start = start as usize;
        &self.bytes.get()[start..start + count as usize]
    }
}

/// The way in which a text is stored.
#[derive(Drop)]
pub(crate) enum HeldText {
    /// Bytes that no other line shares.
    Own(Bytes),
    /// A part of the bytes of a shared source: the index where the part begins, and its number of
    /// bytes.
    Part(Rc<SharedSource>, u32, u16),
}

/// The text of a line, which contracts see as a list.
#[derive(Drop)]
pub(crate) struct LineText {
    held: HeldText,
}

impl Model for LineText {
    ghost use Rattle.std.specs.Prelude.{List, ℕ};
    ghost use Rattle.chip_asm.specs.inner.HeldText.{text_held, IsTextHeld};

    ghost Value = { List ℕ };

    ghost view = { λ t. text_held t.held };

    ghost invariant = { λ t. IsTextHeld t.held };
}

impl LineText {
    /// A copy of these bytes. Fails only if memory runs out.
    pub(crate) fn own(alloc: Global, text: &[u8]) -> Result<LineText, AllocError>
        ensures { IfOk result (λ copy. copy ≡ text.now) }
    {
        let bytes = Bytes::from_slice(alloc, text)?;
        Ok(LineText {
            held: HeldText::Own(bytes),
        })
    }

    /// The text that consists of `count` bytes from index `start` on in a shared source.
    pub(crate) fn part(source: Rc<SharedSource>, start: u32, count: u16) -> LineText
        requires { start + count ≤ length source.value.bytes }
        ensures { result ≡ part_from source.value.bytes start count }
    {
        LineText {
            held: HeldText::Part(source, start, count),
        }
    }

    /// The bytes.
    pub(crate) fn get(&self) -> &[u8]
        ensures { result.now ≡ self.now }
    {
        match &self.held {
            HeldText::Own(bytes) => bytes.get(),
            HeldText::Part(source, start, count) => source.part(*start, *count),
        }
    }
}
