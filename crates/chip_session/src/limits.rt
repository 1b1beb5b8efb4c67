//! The limits of a script, each defined once. The limits of settings are defined in settings.rt.

/// The maximum number of bytes in a line of a script.
pub const COMMAND_BYTES: usize = 400;

/// The maximum number of bytes in a script.
pub const SCRIPT_BYTES: u32 = 50_000_000;

/// The maximum number of lines in a script.
pub const SCRIPT_LINES: u32 = 100_000;
