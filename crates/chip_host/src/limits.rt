//! The limits of a script and of the files that the program reads, each under one name.

pub use chip_session::limits::{COMMAND_BYTES, SCRIPT_BYTES, SCRIPT_LINES};

/// The maximum length of a line of a file of key events before its comment, if the key is a number: a command
/// begins with `kins `. With a letter, the maximum is one byte less, because a `#` is put before the letter.
pub(crate) const EVENT_BYTES: usize = COMMAND_BYTES - 5;

/// The maximum number of bytes in a file of key events.
pub const KEY_FILE_BYTES: u32 = 10_000_000;

/// The maximum number of bytes in a file with a trace.
pub const TRACE_FILE_BYTES: u32 = 250_000_000;

/// The maximum number of bytes in a file of cases.
pub const TEST_FILE_BYTES: u32 = 10_000_000;
