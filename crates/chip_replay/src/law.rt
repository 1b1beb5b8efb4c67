//! The consequences of the frame law for whole runs.

ghost use Rattle.std.specs.Prelude.{◌≡◌, ℕ, ◌<◌, ◌≤◌, ◌+◌, Bool, true, false, List, length, drop};
ghost use Rattle.chip_replay.specs.Limits.{image_start, image_room};
ghost use Rattle.chip_replay.specs.Run.{run};
ghost use Rattle.chip_machine.specs.Touched.{touched};
ghost use Rattle.chip_replay.specs.Image.{padded, with_image, patched};
ghost use Rattle.chip_machine.specs.State.{differs};

use crate::traced::Traced;

/// Takes a state of a run up to which no step touched a byte at which two images differ, and patches
/// that state at these bytes. The result is the state of the run from the patched start, in which the
/// new image, followed by zeros, replaces the old image.
pub fn patched_checkpoint<M: Traced>()
    ensures start { (start : M) (old new : List ℕ)
        → length old ≤ image_room
        → length new ≤ image_room
        → drop image_start (M.memory start) ≡ padded old
        → patched M.memory M.with_memory old new start
        ≡ with_image M.memory M.with_memory new start }
    ensures state { (start : M) (old new : List ℕ) (rate t : ℕ) (held : ℕ → ℕ)
        → M.is_proper start
        → ((s i : ℕ) → s < t → i < image_room → differs old new i ≡ true
        → touched M.touches (run M.step_of rate held start s) (image_start + i) ≡ false)
        → run M.step_of rate held (patched M.memory M.with_memory old new start) t
        ≡ patched M.memory M.with_memory old new (run M.step_of rate held start t) }
{}
