//! A replay of a machine from its start state, with checkpoints.
#![tactic(auto)]

mod by_step;
mod kept;
mod keys;
mod law;
mod limits;
mod machine;
mod replay;
mod traced;

pub use keys::{KeyFault, Keys, Moment};
pub use law::patched_checkpoint;
pub use limits::{KEYS, LAST_STEP, LEAST_SPACING, MOST_EVENTS, MOST_RATE, MOST_SPACING};
pub use replay::{AtError, Replay};
pub use traced::Traced;
