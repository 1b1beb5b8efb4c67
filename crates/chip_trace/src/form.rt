//! The forms of the lines of a trace.

/// How a line of a trace shows its columns.
#[derive(Clone, Copy, PartialEq, Eq)]
pub enum Form {
    /// Fields separated by spaces, below a line that names the columns.
    Fields,
    /// One JSON object per line, with a member for each column, under the column's name.
    Json,
}
