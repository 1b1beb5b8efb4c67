//! An open session.
ghost use Rattle.std.specs.Prelude.{◌≡◌, ◌⊎◌, [], None, Some, Ok, IfOk, IfErr, OnOk, OnErr};
ghost use Rattle.chip_asm.specs.Lines.{open_fault};
ghost use Rattle.chip_session.specs.Session.{session_of};
ghost use Rattle.chip_session.specs.Transcript.{reply, after, IsBeforeOrAfter};

use chip_session::{Bench, OpenError, Settings, respond};
use std::alloc::{AllocError, Global};

/// A session, and the answer to its last line.
#[derive(Drop)]
pub struct Opened {
    pub bench: Bench,
    pub answer: Vec<u8>,
}

impl Opened {
    /// Opens a session on a source. The session has no answer yet.
    ///
    /// # Errors
    ///
    /// The first line that is too long or exceeds the maximum number of lines, or out of memory.
    pub fn open(alloc: Global, source: &[u8], settings: Settings) -> Result<Opened, OpenError>
        ensures ok { IfOk result (λ opened. (open_fault source.now ≡ None)
            × (opened.bench.session ≡ session_of settings source.now)) }
        ensures unanswered { IfOk result (λ opened. opened.answer.items ≡ []) }
        ensures err { IfErr result (λ e. (e ≡ OpenError.OutOfMemory)
            ⊎ (open_fault source.now ≡ Some e)) }
    {
        Ok(Opened {
            bench: Bench::open(alloc, source, settings)?,
            answer: Vec::new(alloc),
        })
    }

    /// Executes one line of a script, and stores the answer to the line.
    ///
    /// # Errors
    ///
    /// Out of memory. The session is then either in the state before the line or in the state after the line.
    pub fn carry_out(&mut self, alloc: Global, line: &[u8]) -> Result<(), AllocError>
        ensures answer { OnOk result (self.new.answer.items
            ≡ reply self.old.bench.session line.now) }
        ensures session { OnOk result (self.new.bench.session
            ≡ after self.old.bench.session line.now) }
        ensures memory { OnErr result (IsBeforeOrAfter self.old.bench.session line.now
            self.new.bench.session) }
    {
        respond(alloc, &mut self.bench, line, &mut self.answer)?;
        Ok(())
    }
}
