//! The limits of properties.

/// The largest number of comparisons in a condition.
pub const MOST_COMPARISONS: usize = 16;

/// The largest number of addends (numbers and terms) in a sum.
pub const MOST_TERMS: usize = 16;

/// The largest number of lines of a source that are read as properties.
pub const MOST_PROPERTIES: usize = 64;

/// The numbers of columns and rows that a pixel may be in.
pub const SCREEN_WIDTH: u32 = 128;

pub const SCREEN_HEIGHT: u32 = 64;
