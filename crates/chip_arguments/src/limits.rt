//! The limits of arguments that aren't defined in a crate that this crate depends on.

/// The default for the number of states that a search may store.
pub const USUAL_STATES: u32 = 1_000_000;

/// The maximum number of states that a search may be asked to store.
pub const MOST_STATES: u32 = 100_000_000;

/// The default for the number of megabytes (of 1,000,000 bytes) that a search may use.
pub const USUAL_MEMORY: u32 = 1_000;

/// The maximum number of megabytes that a search may be asked to use.
pub const MOST_MEMORY: u32 = 1_000_000;

/// The greatest line number that the arguments may contain. No source has so many lines.
pub const MOST_LINE: u32 = 1_000_000;

/// The greatest scale of a picture: the side of the square, in pixels, that shows a pixel of the screen.
pub const MOST_SCALE: u32 = 16;

/// The maximum number of seconds that a search may be given.
pub const MOST_SECONDS: u32 = 1_000_000;
