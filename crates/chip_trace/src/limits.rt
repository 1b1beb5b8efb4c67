//! The limits of a comparison, and the number of first columns of a usual trace.

/// The maximum number of lines before a difference that are kept.
pub(crate) const LINES_BEFORE: usize = 5;

/// The number of columns that a usual trace has before the sums, or before the text if it has no sums.
pub(crate) const FIRST_COLUMNS: usize = 24;
