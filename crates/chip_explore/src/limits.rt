//! The limits of a search, each defined once.

use chip_replay::{KEYS, MOST_EVENTS};

/// Answers are about steps below this step. The count of random bytes used is exact up to this step.
pub const END: u64 = u64::MAX;

/// `Always` is about states at steps below this step. The way from each such state to the goals
/// ends below `END`.
pub const FAR: u64 = 1 << 63;

/// The number of consecutive steps, none of which tells keys apart, after which the state is kept.
pub(crate) const MOST_QUIET_STEPS: u32 = 1_000;

/// While the ticks are free, a search keeps at most 1/FREE_SHARE of the allowed number of states.
pub(crate) const FREE_SHARE: usize = 12;

/// While the ticks are free, a search continues from a state in at most this many ways on average.
pub(crate) const MOST_WAYS: u64 = 4;

/// The number of steps of the trial run that shows, before a search, which bytes are stored.
pub(crate) const STEPS_TRIED: u32 = 4_000;

/// The number of steps that all trials together may take, which show what later steps need.
pub(crate) const STEPS_OF_TRIALS: u32 = 64_000;

/// A trial takes 1/TRIAL_SHARE of the steps that are left.
pub(crate) const TRIAL_SHARE: u32 = 64;

/// The number of states that all searches together may keep if they restart because of forgotten
/// bytes. After that, no byte is forgotten.
pub(crate) const MOST_STATES_FOR_BYTES: usize = 2_000;

/// Restarting a search takes about as long as keeping this many states.
pub(crate) const STATES_FOR_A_SEARCH: usize = 200;

/// How often a search may restart because a step refuted one of its guesses.
pub(crate) const MOST_ATTEMPTS: u32 = 10_000;

/// How many key presses a script may contain. Each press needs two events.
pub(crate) const MOST_PRESSES: u16 = (MOST_EVENTS / 2) as u16;

/// The number of keys, as the size of a table.
pub(crate) const KEY_COUNT: usize = 16;

const _: () = prove!(KEY_COUNT == KEYS as usize);

/// The approximate size of a state in bytes, without its backdrop but with the finder's notes about it.
pub(crate) const STATE_BYTES: u64 = 136;

/// The approximate size of a state's rank in bytes.
pub(crate) const RANK_BYTES: u64 = 16;

/// The approximate size in bytes of a way from one state to another.
pub(crate) const WAY_BYTES: u64 = 16;

/// The search reports its progress to the watcher each time this many more states were kept or taken up.
pub(crate) const STATES_TOLD: u64 = 250_000;

/// The search asks the watcher whether to continue before each turn whose number is a multiple of this.
pub(crate) const TURNS_ASKED: u64 = 4_096;
