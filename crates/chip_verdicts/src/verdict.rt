//! Whether facts exclude a target.

ghost use Rattle.std.specs.Prelude.{◌≡◌, ℕ, Any, Contains, IsTrue, List, None, false, position, true};
ghost use Rattle.chip_explore.specs.Causes.{is_wanted};
ghost use Rattle.chip_explore.specs.Property.{is_met};
ghost use Rattle.chip_explore.specs.Target.{is_address};
ghost use Rattle.chip_facts.specs.Facts.{is_among};
ghost use Rattle.chip_facts.specs.Rows.{HoldFacts, IsInRow};
ghost use Rattle.chip_machine.specs.State.{State};
ghost use Rattle.chip_machine.specs.declared.quirks.Quirks.{Quirks};
ghost use Rattle.chip_machine.specs.declared.stop.Stop.{Stop};
ghost use Rattle.chip_verdicts.specs.Verdict.{NeverMet};

use crate::view::view_of;
use chip_explore::{Causes, Property, Target};
use chip_facts::{Facts, Left, Row};

/// Whether facts exclude a target: with any keys, any random bytes and any ticks, no state of the machine
/// meets the target. If the result is `false`, the target may still never be met.
pub fn excludes(facts: &Facts, target: &Target<'_>) -> bool
    ensures { IsTrue result → (image : List ℕ) (quirks : Quirks)
        → HoldFacts image quirks facts.now → NeverMet image quirks target.now }
{
    are_unmet(facts, target.properties)
        && is_never_at(&facts.executed, target.address)
        && !has_wanted(&facts.left, target.causes)
}

/// Whether the cause of one of these stops is a wanted cause.
fn has_wanted(left: &[Left], causes: Causes) -> bool
    ensures { result ≡ false → (pc : ℕ) (why : Stop)
        → Contains left.now (record { pc = pc; stop = why }) → is_wanted causes why ≡ false }
{
    for one in left {
        if causes.contains(one.stop) {
            return true;
        }
    }
    false
}

/// Whether no step is ever executed at the address, or there is no address.
fn is_never_at(executed: &[bool], address: Option<u16>) -> bool
    ensures { IsTrue result → (pc : ℕ) → is_among executed.now pc ≡ true → is_address address pc ≡ false }
{
    match address {
        Some(address) => executed.get(address as usize) == Some(&false),
        None => true,
    }
}

/// Whether no state in any row meets any of these properties.
fn are_unmet(facts: &Facts, properties: &[Property]) -> bool
    ensures { IsTrue result → (s : State) → Any (λ row. IsInRow facts.now row s) facts.now.rows.items
        → position (is_met s) properties.now ≡ None }
{
    for property in properties {
        if may_meet(facts, property) {
            return false;
        }
    }
    true
}

/// Whether a state in some row may meet a property.
fn may_meet(facts: &Facts, property: &Property) -> bool
    ensures { result ≡ false → (s : State) → Any (λ row. IsInRow facts.now row s) facts.now.rows.items
        → is_met s property.now ≡ false }
{
    for row in facts.rows() {
        if may_meet_in(facts, row, property) {
            return true;
        }
    }
    false
}

/// Whether a state in a row may meet a property.
fn may_meet_in(facts: &Facts, row: &Row, property: &Property) -> bool
    ensures { result ≡ false → (s : State) → IsInRow facts.now row.now s → is_met s property.now ≡ false }
{
    match view_of(facts, row) {
        Some(view) => view.may_meet(property),
        None => true,
    }
}
