//! The limits of the language and of the machine's memory.

/// The greatest number of bytes in a name that a line defines.
pub const NAME_BYTES: usize = 64;

/// The greatest number of parentheses that can be open at once.
pub const OPEN_PARENTHESES: usize = 16;

/// The number of bytes in the machine's memory.
pub const MEMORY_BYTES: usize = 4096;

/// The address where the image and the first instruction begin.
pub const IMAGE_START: usize = 512;

/// The greatest number of bytes in an image, which can't extend past the end of the memory.
pub const IMAGE_BYTES: usize = MEMORY_BYTES - IMAGE_START;
