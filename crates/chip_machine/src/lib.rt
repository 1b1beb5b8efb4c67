//! A CHIP-8 machine with any combination of quirks: its state, one step of it, and the addresses that
//! a step touches.
#![tactic(auto)]

mod decoded;
mod digits;
mod doubled;
mod execute;
pub mod forgotten;
pub mod keys;
pub mod laws;
pub mod limits;
pub mod machine;
mod memory;
pub mod parts;
mod processor;
pub mod profile;
pub mod quirks;
mod rows;
mod screen;
mod sprite;
pub mod stop;
pub mod touch;

pub use forgotten::Forgotten;
pub use keys::{HeldKeys, SameKeys};
pub use machine::{Machine, StartError};
pub use parts::Parts;
pub use profile::Profile;
pub use quirks::{Choice, Chosen, IndexMove, LowSixteen, Quirks};
pub use stop::Stop;
pub use touch::Touch;
