//! The hasher of names.

use std::hash::{BuildHasher, FoldHasher, Hasher};

/// Hashes names with a seed. If the program draws the seed when it starts, nobody can choose
/// colliding names for a source. No answer depends on the seed.
#[derive(Clone, Copy)]
pub struct NameHasher {
    seeded: FoldHasher,
}

impl NameHasher {
    /// The hasher with this seed.
    pub fn new(seed: u64) -> NameHasher {
        let mut seeded = FoldHasher::default();
        seeded.write(&seed.to_le_bytes());
        NameHasher { seeded }
    }
}

impl BuildHasher for NameHasher {
    type Hasher = FoldHasher;

    ghost build_hasher = { λ h. h.seeded };

    fn build_hasher(&self) -> FoldHasher {
        self.seeded
    }
}
