//! The limits of a source, each under one name. The limits of its image are in chip_lang.

/// The greatest number of lines in a source.
pub const MOST_LINES: usize = 4000;

/// The greatest number of bytes in a line.
pub const LINE_BYTES: usize = 200;

/// The greatest number of bytes in a source in which each line ends with a carriage return and a
/// newline.
pub const SOURCE_BYTES: usize = MOST_LINES * (LINE_BYTES + 2);
