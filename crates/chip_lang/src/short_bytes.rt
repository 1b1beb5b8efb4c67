//! Short lists of bytes, such as a word while its line is read, or the code of a line.

ghost use Rattle.std.specs.Borrow.{Array, Lends, sem, u8 as byte};
ghost use Rattle.std.specs.Prelude.{◌≡◌, [], IfOk, length, map, replicate};
ghost use Rattle.std.specs.List.{refill};
ghost use Rattle.chip_lang.specs.contracts.short_bytes.ShortBytes.{the_row};
ghost use Rattle.chip_lang.specs.Line.{upper};

use smallvec::SmallVec;
use std::alloc::{AllocError, Global};
use std::marker::Model;

/// A byte, in upper case if it is a letter.
pub fn upper(byte: u8) -> u8
    ensures { result ≡ upper byte }
{
    match byte {
        b'a'..=b'z' => byte - 32,
        _ => byte,
    }
}

// The number of bytes that are stored in the value itself.
const INLINE_BYTES: usize = 16;

/// Bytes, which contracts see as a list. Up to 16 bytes, enough for most words and codes, are
/// stored in the value itself.
#[derive(Drop)]
pub struct ShortBytes {
    bytes: SmallVec<u8, INLINE_BYTES>,
}

impl Model for ShortBytes {
    ghost use Rattle.std.specs.Prelude.{List, ℕ};

    ghost Value = { List ℕ };

    ghost view = { λ b. b.bytes.items };
}

impl ShortBytes {
    /// An empty list of bytes.
    pub fn empty(alloc: Global) -> ShortBytes
        ensures { result ≡ [] }
    {
        ShortBytes {
            bytes: SmallVec::new(alloc),
        }
    }

    /// A copy of these bytes. Fails only if memory runs out.
    pub fn from_slice(alloc: Global, slice: &[u8]) -> Result<ShortBytes, AllocError>
        ensures { IfOk result (λ bytes. bytes ≡ slice.now) }
    {
        let bytes = SmallVec::from_slice(alloc, slice)?;
        Ok(ShortBytes { bytes })
    }

    /// A copy of a word, in upper case. Fails only if memory runs out.
    #[inline(always)]
    pub fn in_upper_case(alloc: Global, word: &[u8]) -> Result<ShortBytes, AllocError>
        ensures { IfOk result (λ bytes. bytes ≡ map upper word.now) }
    {
        if word.len() > INLINE_BYTES {
            return ShortBytes::long_in_upper_case(alloc, word);
        }
        let mut bytes = SmallVec::new(alloc);
        for byte in word {
            bytes.push_reserved(upper(*byte));
        }
        Ok(ShortBytes { bytes })
    }

    /// A copy of a word of any length, in upper case.
    #[inline(never)]
    fn long_in_upper_case(alloc: Global, word: &[u8]) -> Result<ShortBytes, AllocError>
        ensures { IfOk result (λ bytes. bytes ≡ map upper word.now) }
    {
        let mut bytes = SmallVec::new(alloc);
        for byte in word {
            bytes.push(upper(*byte))?;
        }
        Ok(ShortBytes { bytes })
    }

    /// A list of `count` zeros. Fails only if memory runs out.
    pub fn zeros(alloc: Global, count: usize) -> Result<ShortBytes, AllocError>
        ensures { IfOk result (λ bytes. bytes ≡ replicate count 0) }
    {
        let bytes = SmallVec::from_elem(alloc, 0, count)?;
        Ok(ShortBytes { bytes })
    }

    /// The bytes.
    pub fn get(&self) -> &[u8]
        ensures { result.now ≡ self.now }
    {
        self.bytes.as_slice()
    }

    /// The bytes, for writing.
    pub fn get_mut(&mut self) -> &mut [u8]
        ensures* writes_back { sem 𝓛 (Lends the_row (Array byte 0) self.entry result
            (λ bytes. refill (length self.old) self.old bytes)) }
        ensures value { result.now ≡ self.old }
    {
        self.bytes.as_mut_slice()
    }
}
