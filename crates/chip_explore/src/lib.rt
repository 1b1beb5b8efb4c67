//! A search over all key scripts. It finds key events that make a machine stop for a wanted cause,
//! reach an address or meet a property, or reports that no key script can.
#![tactic(auto)]

mod backdrop;
mod causes;
mod climb;
mod confirm;
mod executed;
mod finder;
mod guesses;
mod kept;
mod keys;
mod known;
pub mod laws;
mod leg;
mod limits;
mod members;
mod property;
mod prospect;
mod question;
mod ranks;
mod script;
mod search;
mod searching;
mod seen;
mod setting;
mod sources;
mod sum;
mod target;
mod trial;
mod watcher;
mod ways;
mod ways_back;
mod window;

pub use causes::Causes;
pub use executed::Executed;
pub use limits::{END, FAR};
pub use property::{Comparison, Condition, Item, Property, Relation, Sum, Term};
pub use prospect::{Foreseen, Prospect, Pursuit, foresee};
pub use question::{Bounds, Explored, Outcome, Question, Ticks, explore};
pub use script::KeyEvent;
pub use seen::{STOPS, Seen};
pub use target::{Met, Target};
pub use watcher::Watcher;
