//! The tape of a seed.
ghost use Rattle.std.specs.Prelude.{◌≡◌, IfOk};
ghost use Rattle.chip_session.specs.Tape.{tape_of};

use rand_core::SeedableRng;
use rand_core::utils::NextWord;
use rand_pcg::Lcg64Xsh32;
use std::alloc::{AllocError, Global};

const TAPE_LEN: usize = 256;

/// Returns the tape of a seed: the lowest byte of each of the first 256 words from the generator
/// `Lcg64Xsh32` with that seed.
///
/// # Errors
///
/// Out of memory.
pub fn tape_of(alloc: Global, seed: u64) -> Result<Vec<u8>, AllocError>
    ensures { IfOk result (λ tape. tape.items ≡ tape_of seed) }
{
    let mut generator = Lcg64Xsh32::seed_from_u64(seed);
    let mut tape = Vec::with_capacity(alloc, TAPE_LEN)?;
    for _ in 0..TAPE_LEN {
        let lowest = generator.next_word() % 256;
        tape.push(lowest as u8)?;
    }
    Ok(tape)
}
