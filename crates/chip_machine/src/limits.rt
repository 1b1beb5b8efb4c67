//! The limits of a machine, each with a name. chip_lang defines the limits that the language shares.

pub use chip_lang::limits::{IMAGE_BYTES, IMAGE_START, MEMORY_BYTES};

/// The last address at which a whole word fits.
pub const LAST_WORD: usize = MEMORY_BYTES - 2;

/// The maximum number of bytes of a tape.
pub const TAPE_BYTES: usize = 4096;

/// The maximum number of open calls.
pub const FRAMES: usize = 16;

/// The number of flag registers.
pub const FLAGS: usize = 8;

/// The number of bytes of the largest sprite, which has 16 by 16 pixels.
pub const SPRITE_BYTES: usize = 32;

/// All digits that LD F and LD HF point to start below this address.
pub const DIGITS_END: u16 = 256;

/// The maximum number of addresses that a step touches: those of its word and those of a sprite.
pub const TOUCHES: usize = 2 + SPRITE_BYTES;
