//! The stop causes that a search met, other than the wanted ones.

ghost use Rattle.std.specs.Prelude.{◌≡◌, None, slice_index_or};
ghost use Rattle.chip_machine.specs.Numbers.{stop_number};

use chip_machine::Stop;

/// The stop causes, in the order S1 to S7.
pub const STOPS: &[Stop] = &[
    Stop::Exit,
    Stop::NoInstruction,
    Stop::PcOutOfRange,
    Stop::FramesFull,
    Stop::NoFrame,
    Stop::AddressOutOfRange,
    Stop::NoFlag,
];

/// The causes, other than the wanted ones, for which the machine stopped in a search, each with the
/// least step at which the search met it. These facts are unverified, because other key scripts may
/// lead to other causes, or to these causes at earlier steps.
#[derive(Clone, Copy)]
pub struct Seen {
    /// The step for Sk is at index k.
    first_steps: [Option<u64>; 8],
}

impl Seen {
    /// Returns no causes.
    pub(crate) fn none() -> Seen {
        Seen {
            first_steps: [None; 8],
        }
    }

    /// Notes that the machine had stopped for a cause at a step.
    pub(crate) fn note(&mut self, cause: Stop, step: u64) {
        let first = &mut self.first_steps[cause.number() as usize];
        match *first {
            Some(earlier) if earlier <= step => {}
            _ => *first = Some(step),
        }
    }

    /// Whether any cause was met.
    pub(crate) fn is_any(&self) -> bool {
        self.first_steps.iter().any(|step| step.is_some())
    }

    /// Whether this search has met each cause that another search met, if from now on it meets no
    /// cause at a step below `step`.
    pub(crate) fn has_all(&self, awaited: &Seen, step: u64) -> bool {
        for cause in 0..8 {
            match (awaited.first_steps[cause], self.first_steps[cause]) {
                (Some(_), Some(met)) if met <= step => {}
                (Some(_), _) => return false,
                (None, _) => {}
            }
        }
        true
    }

    /// Returns the least step at which the search met a cause, or `None` if it didn't.
    pub fn first_step(&self, cause: Stop) -> Option<u64>
        ensures { result ≡ slice_index_or self.now.first_steps (stop_number cause) None }
    {
        self.first_steps[cause.number() as usize]
    }
}
