//! Why a machine stops.

ghost use Rattle.std.specs.Prelude.{◌≡◌};
ghost use Rattle.chip_machine.specs.Numbers.{stop_number};

/// The reason why a machine stopped. A step that stops the machine changes nothing else.
#[derive(Clone, Copy, PartialEq, Eq)]
pub enum Stop {
    /// S1: the program ended.
    Exit,
    /// S2: the word at pc is not an instruction.
    NoInstruction,
    /// S3: no word fits at pc, because pc is above `LAST_WORD`.
    PcOutOfRange,
    /// S4: a call, while the call stack already contains `FRAMES` return addresses.
    FramesFull,
    /// S5: a return, while the call stack is empty.
    NoFrame,
    /// S6: an instruction would access a byte past the end of the memory.
    AddressOutOfRange,
    /// S7: the instruction names a flag register above 7.
    NoFlag,
}

impl Stop {
    /// The number k of the cause, 1 to 7. Messages print the cause as `Sk`.
    pub fn number(self) -> u8
        ensures { result ≡ stop_number self }
    {
        match self {
            Stop::Exit => 1,
            Stop::NoInstruction => 2,
            Stop::PcOutOfRange => 3,
            Stop::FramesFull => 4,
            Stop::NoFrame => 5,
            Stop::AddressOutOfRange => 6,
            Stop::NoFlag => 7,
        }
    }
}
