//! The parts of a machine except its memory, its screen's pixels, its tape and its quirks.

use crate::limits::{FLAGS, FRAMES};

/// The registers, call stack, delay timer, number of random bytes used and screen size of a machine
/// that hasn't stopped.
#[derive(Clone, Copy)]
pub struct Parts {
    pub registers: [u8; 16],
    pub index: u16,
    pub pc: u16,
    /// The return addresses; the first `depth` of them are those of open calls.
    pub frames: [u16; FRAMES],
    pub depth: u8,
    pub delay: u8,
    pub flags: [u8; FLAGS],
    /// The number of random bytes used.
    pub draws: u16,
    pub high: bool,
}
