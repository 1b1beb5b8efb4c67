//! The results of the passes for one line.
ghost use Rattle.std.specs.Prelude.{◌≡◌};

use chip_lang::Fault;

/// The status of a line: whether it is active and accepted, and the state of its code.
#[derive(Clone, Copy)]
pub(crate) enum Status {
    /// The line is not active.
    Skipped,
    /// The line is active and has this fault in the first pass.
    Refused(Fault),
    /// The line is accepted and still has to be encoded.
    Pending,
    /// The line is accepted. Its bytes, if it has any, are in the image.
    Done,
    /// The line is accepted, and its code has this fault.
    Uncoded(Fault),
}

impl Status {
    ghost use Rattle.chip_asm.specs.inner.Placements.{bare_status, fault_noted, first_status, is_accepted, is_pending, status_coded};

    /// The status after the first pass, given whether the line is active and which fault it has, if any.
    pub(crate) fn first(active: bool, fault: Option<Fault>) -> Status
        ensures { result ≡ first_status active fault }
    {
        match fault {
            _ if !active => Status::Skipped,
            Some(fault) => Status::Refused(fault),
            None => Status::Pending,
        }
    }

    /// The status of a line that wasn't accepted before and has no fault in the first pass.
    /// `is_coded` is true if the line has code.
    pub(crate) fn bare(active: bool, is_coded: bool) -> Status
        ensures { result ≡ bare_status active is_coded }
    {
        match (active, is_coded) {
            (false, _) => Status::Skipped,
            (true, true) => Status::Pending,
            (true, false) => Status::Done,
        }
    }

    /// The status of an accepted line, given the fault of its code, if any.
    pub(crate) fn coded(fault: Option<Fault>) -> Status
        ensures { result ≡ status_coded fault }
    {
        match fault {
            Some(fault) => Status::Uncoded(fault),
            None => Status::Done,
        }
    }

    /// Whether the line is active and has no fault in the first pass.
    pub(crate) fn is_accepted(self) -> bool
        ensures { result ≡ is_accepted self }
    {
        matches!(self, Status::Pending | Status::Done | Status::Uncoded(_))
    }

    pub(crate) fn is_pending(self) -> bool
        ensures { result ≡ is_pending self }
    {
        matches!(self, Status::Pending)
    }

    /// The fault of the line, if it has one.
    pub(crate) fn fault(self) -> Option<Fault>
        ensures { result ≡ fault_noted self }
    {
        match self {
            Status::Refused(fault) | Status::Uncoded(fault) => Some(fault),
            _ => None,
        }
    }
}

/// The results of the passes for a line. The type is small (12 bytes), because each line has one.
#[derive(Clone, Copy)]
pub(crate) struct Placement {
    pub(crate) value: i32,
    pub(crate) here: u16,
    pub(crate) size: u16,
    pub(crate) status: Status,
}

impl Placement {
    ghost use Rattle.chip_asm.specs.inner.Placements.{count_of, is_active_status};

    /// The placement of a line about which nothing is known yet.
    pub(crate) const NOTHING: Placement = Placement {
        value: 0,
        here: 0,
        size: 0,
        status: Status::Skipped,
    };

    /// The address of the line.
    pub(crate) fn address(&self) -> usize
        ensures { result ≡ self.now.here }
    {
        self.here as usize
    }

    /// Whether the line is active.
    pub(crate) fn is_active(&self) -> bool
        ensures { result ≡ is_active_status self.now.status }
    {
        !matches!(self.status, Status::Skipped)
    }

    /// 1 if the line has a fault, or else 0.
    pub(crate) fn count(&self) -> usize
        ensures { result ≡ count_of self.now }
    {
        match self.status.fault() {
            Some(_) => 1,
            None => 0,
        }
    }
}
