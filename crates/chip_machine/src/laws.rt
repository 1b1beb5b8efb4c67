//! Laws of the machine.

ghost use Rattle.chip_machine.specs.Frame.{FrameLaw, StepKeepsQuirks, StepKeepsProper};
ghost use Rattle.chip_machine.specs.ImageLaw.{ImageAndZeros, SameBelowTheImage};
ghost use Rattle.chip_machine.specs.Keyless.{KeylessStep};
ghost use Rattle.chip_machine.specs.Relevant.{AlikeSteps, DrawsGrow, QuietTick};

/// A step neither depends on the bytes that it doesn't touch nor changes them.
pub fn frame_law()
    ensures { FrameLaw }
{}

/// A step preserves that a state is proper.
pub fn step_keeps_proper()
    ensures { StepKeepsProper }
{}

/// A step doesn't change the quirks.
pub fn step_keeps_quirks()
    ensures { StepKeepsQuirks }
{}

/// A step that doesn't read the keys has the same result whichever keys are down.
pub fn keyless_step()
    ensures { KeylessStep }
{}

/// Later steps don't depend on the sound timer, the number of times that the tape was used up, forgotten
/// parts that they don't read, or ticks while the delay timer stays at 0.
pub fn alike_steps()
    ensures alike { AlikeSteps }
    ensures draws { DrawsGrow }
    ensures quiet { QuietTick }
{}

/// At the start, the memory contains the image at its address and zeros after it. Nothing below that
/// address depends on the image.
pub fn image_at_the_start()
    ensures from_512 { ImageAndZeros }
    ensures below { SameBelowTheImage }
{}
