//! The commands that report what holds in every run of a source: `check`, `explore` and `prove`.
#![tactic(auto)]

mod checking;
mod counts;
mod covering;
mod excluding;
mod exploring;
mod note;
mod noting;
mod progress;
mod proving;
mod ranges;
mod sets;
mod stop_place;
mod telling;

pub use checking::check;
pub use exploring::explore;
pub use proving::prove;
pub use stop_place::line_text;
pub use telling::{tell_end, tell_faults, tell_unopened};
