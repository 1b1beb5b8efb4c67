//! The observer of a session, which is notified while the transcript is written.

use crate::bench::Bench;
use crate::refusal::Refused;

/// An observer of a session, such as the terminal on which a user types the script. An observer
/// never affects the data that the session reads, writes or keeps.
pub trait Observer {
    /// The source has opened.
    fn opened(&mut self, bench: &Bench);

    /// The session waits for the next line of the script, and has read no byte of that line yet.
    fn awaits(&mut self);

    /// The command of a line was refused, and its answer has been written.
    fn refused(&mut self, bench: &Bench, line: &[u8], why: Refused);

    /// The script has no more lines.
    fn ended(&mut self);
}

/// An observer that does nothing.
#[derive(Clone, Copy)]
pub struct Nobody;

impl Observer for Nobody {
    fn opened(&mut self, _bench: &Bench) {}

    fn awaits(&mut self) {}

    fn refused(&mut self, _bench: &Bench, _line: &[u8], _why: Refused) {}

    fn ended(&mut self) {}
}
