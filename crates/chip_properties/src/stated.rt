//! The statement of a property.

use chip_explore::Property;

/// The kind of a property.
#[derive(Clone, Copy, PartialEq, Eq)]
pub enum Kind {
    /// The condition of the property holds at each step at its place.
    Always,
    /// The condition of the property holds at no step at its place.
    Never,
    /// Under some key script, the condition of the property holds at a step at its place.
    Ever,
    /// Under each key script, from each step on, the keys can be pressed so that the condition
    /// holds then or later: at a step at its place, or on a machine that has stopped there.
    Can,
}

/// A property that an author states.
#[derive(Drop)]
pub struct Stated {
    /// The number of the line, counted from 1, or 0 for a text outside a source.
    pub line: usize,
    pub kind: Kind,
    /// The property that a search looks for. For `Always`, this property is met if the condition fails.
    pub property: Property,
}
