//! The limits of a replay, each with a name. chip_machine defines the limits of the memory.

pub(crate) use chip_machine::limits::{IMAGE_BYTES, IMAGE_START, MEMORY_BYTES};

/// The last step that a query or an event may have.
pub const LAST_STEP: u32 = 1_000_000;

/// The maximum number of events.
pub const MOST_EVENTS: usize = 10_000;

/// The maximum number of steps between two ticks of the timers.
pub const MOST_RATE: u32 = 1_000;

/// The minimum number of steps between two checkpoints.
pub const LEAST_SPACING: u32 = 1_000;

/// The maximum number of steps between two checkpoints.
pub const MOST_SPACING: u32 = 100_000;

/// The number of keys.
pub const KEYS: u32 = 16;

/// The number of keys, as the size of a table.
pub(crate) const KEY_COUNT: usize = 16;

const _: () = prove!(KEY_COUNT == KEYS as usize);

/// The number, which is not a step, that stands for an address that the kept run doesn't touch.
pub(crate) const NEVER: u32 = u32::MAX;
