//! An observer that follows the progress of a search and can end it.

/// An observer to which a search reports its progress from time to time, and which decides whether
/// the search continues. No proof depends on it.
pub trait Watcher {
    /// Reports that a state reached at `step` is being taken up, that `states` states are kept, and
    /// that they take about `bytes` bytes.
    fn note(&mut self, step: u64, states: usize, bytes: u64);

    /// Whether the search continues. If not, its answer reports how far it came.
    fn goes_on(&mut self) -> bool {
        true
    }
}
