//! The questions of a session.

/// A question about the source, or about the machine at a step.
#[derive(Clone, Copy)]
pub enum Question {
    /// The image, in lowercase hexadecimal.
    Image,
    /// The symbols: names with their values and line numbers.
    Symbols,
    /// The listing.
    Listing,
    /// The faults, in line order.
    Faults,
    /// The registers, timers, flags and call stack at a step.
    Registers { step: u32 },
    /// `count` bytes of the memory at a step, from address `at`.
    Memory { step: u32, at: u32, count: u32 },
    /// The rows of the screen at a step that have a lit pixel.
    Screen { step: u32 },
    /// `count` words of the memory at a step, from address `at`, with their source texts.
    Disassembly { step: u32, at: u32, count: u32 },
}

/// A question about a machine's state.
#[derive(Clone, Copy)]
pub enum StateQuestion {
    /// The registers, timers, flags and call stack.
    Registers,
    /// `count` bytes of the memory, from address `at`.
    Memory { at: u32, count: u32 },
    /// The rows of the screen that have a lit pixel.
    Screen,
    /// `count` words of the memory, from address `at`, with their source texts.
    Disassembly { at: u32, count: u32 },
}
