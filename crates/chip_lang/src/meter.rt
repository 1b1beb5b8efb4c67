//! Counts of the work done.

ghost use Rattle.std.specs.Prelude.{◌≡◌};

/// The numbers of lines read and of lines encoded. A count that has reached its greatest value
/// stays there.
#[derive(Clone, Copy, PartialEq, Eq)]
pub struct Meter {
    /// The number of lines that were read.
    pub parsed: u64,
    /// The number of lines that were encoded.
    pub encoded: u64,
}

impl Meter {
    /// Both counts at 0.
    pub fn new() -> Meter
        ensures { result ≡ record { parsed = 0; encoded = 0 } }
    {
        Meter {
            parsed: 0,
            encoded: 0,
        }
    }
}
