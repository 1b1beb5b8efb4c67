//! The key events.

ghost use Rattle.std.specs.Prelude.{◌≡◌, ℕ, ◌<◌, ◌≤◌, false, length, MatchOption, IsOkUnless, OnOk, OnErr, slice_index_or, slice_set};
ghost use Rattle.chip_replay.specs.inner.Changes.{after_events};
ghost use Rattle.chip_replay.specs.Mask.{mask};

use crate::by_step::{Event, Place, Steps};
use crate::limits::{KEY_COUNT, KEYS, LAST_STEP, MOST_EVENTS, NEVER};
use chip_machine::keys::HeldKeys;
use std::alloc::{AllocError, Global};
use std::collections::BTreeMap;
use std::marker::Model;
use thiserror::Error;

/// A key and a step. Moments are ordered by key and then by step.
#[derive(Clone, Copy, PartialEq, Eq, PartialOrd, Ord)]
pub struct Moment {
    /// The number of the key, 0 to 15.
    pub key: u32,
    /// The number of the step, 0 to `LAST_STEP`.
    pub step: u32,
}

/// The reason why an edit of the key events was refused.
#[derive(Clone, Copy, Debug, PartialEq, Eq, Error)]
pub enum KeyFault {
    /// N5: the step is above `LAST_STEP`.
    #[error("the step is above {LAST_STEP}")]
    StepTooLarge,
    /// N6: the key is above 15.
    #[error("the key is above 15")]
    NoSuchKey,
    /// N7: the key already has an event at this step.
    #[error("the key has an event at this step")]
    EventThere,
    /// N8: the key has no event at this step.
    #[error("the key has no event at this step")]
    NoEvent,
    /// N9: the number of events has reached its maximum.
    #[error("there are {MOST_EVENTS} events")]
    TooManyEvents,
    /// N10: memory ran out.
    #[error("out of memory")]
    OutOfMemory,
}

/// Keys that are down for some steps.
#[derive(Clone, Copy)]
pub(crate) struct Holding {
    /// The mask of the keys that are down, key k at bit k.
    pub(crate) keys: u16,
    /// Whether each key is down.
    pub(crate) down: [bool; KEY_COUNT],
    /// The first step whose events are not covered.
    pub(crate) until: u32,
    /// The position of that step's events in the order of events, unless an event was added or removed
    /// since.
    pub(crate) place: Place,
}

impl Holding {
    /// Every key is up, and nothing is known about any step.
    pub(crate) const NONE: Holding = Holding {
        keys: 0,
        down: [false; KEY_COUNT],
        until: 0,
        place: Place::FIRST,
    };
}

/// The keys in the steps of a run, as the key events determine them.
#[derive(Drop)]
pub(crate) struct Cursor<'a> {
    pub(crate) keys: &'a Keys,
    pub(crate) holding: Holding,
}

impl HeldKeys for Cursor<'_> {
    ghost use Rattle.chip_replay.specs.Keys.{held};
    ghost use Rattle.chip_replay.specs.inner.Changes.{KnowsKeys};
    ghost use Rattle.chip_replay.specs.inner.Cursor.{knows_later};

    ghost held = { λ c. held c.keys.now };

    ghost is_ready = { λ c step. KnowsKeys c.keys.now step c.holding };

    ghost ready_later = { λ c s t known later. knows_later c.keys.now s t c.holding known later };

    #[inline(always)]
    fn at(&mut self, step: u32) -> u16 {
        self.keys.hold(&mut self.holding, step);
        self.holding.keys
    }
}

/// The key events. At each event, a key goes down or up, and it stays so until its next event.
#[derive(Drop)]
pub struct Keys {
    /// The events ordered by key, used to find the last event of a key up to a step.
    events: BTreeMap<Moment, bool>,
    /// The events ordered by step, used to find the next events of any key.
    steps: Steps,
}

impl Model for Keys {
    ghost use Rattle.std.specs.Prelude.{◌≡◌, length};
    ghost use Rattle.std.specs.FinMap as map;
    ghost use Rattle.chip_replay.specs.Keys.{Events, coded_events, moment_cmp};
    ghost use Rattle.chip_replay.specs.inner.Changes.{SaysTheSame, IsInOrder, all_events};

    ghost Value = { Events };

    ghost coded = { coded_events };

    ghost view = { λ k. map.from_entries k.events.entries };

    ghost invariant = { λ k. (map.len (map.from_entries {R = moment_cmp} k.events.entries)
        ≡ length k.events.entries)
        × SaysTheSame (map.from_entries k.events.entries) (all_events k.steps.pages.items)
        × IsInOrder (all_events k.steps.pages.items) };
}

impl Keys {
    ghost use Rattle.std.specs.FinMap as map;
    ghost use Rattle.chip_replay.specs.Keys.{event_at, is_down, held, insert_fault, edit_fault};
    ghost use Rattle.chip_replay.specs.inner.Changes.{KnowsKeys, HoldsKeys};

    /// Returns an empty list of events, so that every key is up.
    pub fn new(alloc: Global) -> Self
        ensures { result ≡ map.empty }
    {
        Keys {
            events: BTreeMap::new(alloc),
            steps: Steps::new(alloc),
        }
    }

    /// The mask of the keys that are down in a step, key k at bit k. The last event of a key up to that
    /// step decides; a key without such an event is up.
    pub fn held(&self, step: u32) -> u16
        ensures { result ≡ held self.now step }
    {
        mask_of(&self.down_in(step))
    }

    /// For each key, whether it is down in a step.
    fn down_in(&self, step: u32) -> [bool; KEY_COUNT]
        ensures size { length result ≡ KEY_COUNT }
        ensures each { (k : ℕ) → k < KEY_COUNT
            → slice_index_or result k false ≡ is_down self.now k step }
    {
        let mut down = [false; KEY_COUNT];
        for key in 0..KEYS {
            down[key as usize] = self.is_down(key, step);
        }
        down
    }

    /// Whether a key is down in a step, according to its last event up to that step.
    fn is_down(&self, key: u32, step: u32) -> bool
        ensures { result ≡ is_down self.now key step }
    {
        let first = Moment { key, step: 0 };
        let last = Moment { key, step };
        match self.events.range(first..=last).next_back() {
            Some((_, down)) => *down,
            None => false,
        }
    }

    /// The keys that are down before the events of a step.
    #[cold]
    #[inline(never)]
    #[tactic(auto, unfolding(crate::specs::Mask::mask))]
    pub(crate) fn before(&self, step: u32) -> Holding
        ensures { KnowsKeys self.now step result }
    {
        if step == 0 {
            return Holding::NONE;
        }
        let down = self.down_in(step - 1);
        Holding {
            keys: mask_of(&down),
            down,
            until: step,
            place: Place::FIRST,
        }
    }

    /// Updates the keys known at the start of a step to the keys that are down in that step.
    #[inline(always)]
    pub(crate) fn hold(&self, known: &mut Holding, step: u32)
        requires in_range { step < NEVER }
        requires known { KnowsKeys self.now step known.old }
        ensures { HoldsKeys self.now step known.new }
    {
        if step >= known.until {
            self.pass_events(known, step);
        }
    }

    /// Updates the known keys to those that are down in a step and until the next event. Before, they must be
    /// those that were down before the events of that step or of an earlier step.
    #[inline(never)]
    fn pass_events(&self, known: &mut Holding, step: u32)
        requires in_range { step < NEVER }
        requires passed { known.old.until ≤ step }
        requires known { KnowsKeys self.now step known.old }
        ensures { HoldsKeys self.now step known.new }
    {
        let steps = &self.steps;
        let mut place = steps.first_from(known.until, known.place);
        let mut until = steps.step_at(place);
        while until <= step {
            let events = steps.rest_of_page(place);
            let passed = pass(events, step, &mut known.keys, &mut known.down);
            place = steps.later(place, passed);
            until = steps.step_at(place);
        }
        known.until = until;
        known.place = place;
    }

    /// Adds an event: the key goes down, or up, at the step. Returns the first error that applies:
    /// the step is above `LAST_STEP`, the key is above 15, there is already such an event, there are
    /// `MOST_EVENTS` events, or memory ran out. An error changes nothing.
    pub fn insert(&mut self, step: u32, key: u32, down: bool) -> Result<(), KeyFault>
        ensures fault { MatchOption (insert_fault self.old step key)
            (IsOkUnless result KeyFault.OutOfMemory) (λ fault. result ≡ Err fault) }
        ensures ok { OnOk result (self.new
            ≡ map.insert self.old (record { key = key; step = step }) down) }
        ensures err { OnErr result (self.new ≡ self.old) }
    {
        if let Some(fault) = self.insert_fault(step, key) {
            return Err(fault);
        }
        let moment = Moment { key, step };
        match self.events.insert(moment, down) {
            Ok(_) => {}
            Err(_) => return Err(KeyFault::OutOfMemory),
        }
        let event = Event {
            step,
            key: key as u8,
            down,
        };
        match self.steps.insert(event) {
            Ok(()) => Ok(()),
            Err(_) => {
                self.events.remove(&moment);
                Err(KeyFault::OutOfMemory)
            }
        }
    }

    /// Changes an event to down or up. Returns the first error that applies: the step is above
    /// `LAST_STEP`, the key is above 15, or there is no such event. An error changes nothing. The change
    /// allocates no memory.
    pub fn replace(&mut self, step: u32, key: u32, down: bool) -> Result<(), KeyFault>
        ensures fault { MatchOption (edit_fault self.old step key) (result ≡ Ok tt)
            (λ fault. result ≡ Err fault) }
        ensures ok { OnOk result (self.new
            ≡ map.insert self.old (record { key = key; step = step }) down) }
        ensures err { OnErr result (self.new ≡ self.old) }
    {
        if let Some(fault) = self.edit_fault(step, key) {
            return Err(fault);
        }
        // The event exists and is overwritten in place, so no memory is needed.
        match self.events.insert(Moment { key, step }, down) {
            Ok(_) => {}
            Err(_) => return Err(KeyFault::OutOfMemory),
        }
        self.steps.replace(Event {
            step,
            key: key as u8,
            down,
        });
        Ok(())
    }

    /// Deletes an event. Allocates no memory. The errors are those of `replace`.
    pub fn delete(&mut self, step: u32, key: u32) -> Result<(), KeyFault>
        ensures fault { MatchOption (edit_fault self.old step key) (result ≡ Ok tt)
            (λ fault. result ≡ Err fault) }
        ensures ok { OnOk result (self.new
            ≡ map.remove self.old (record { key = key; step = step })) }
        ensures err { OnErr result (self.new ≡ self.old) }
    {
        if let Some(fault) = self.edit_fault(step, key) {
            return Err(fault);
        }
        self.events.remove(&Moment { key, step });
        self.steps.remove(step, key as u8);
        Ok(())
    }

    /// Returns the reason why an event can't be added, if there is one.
    fn insert_fault(&self, step: u32, key: u32) -> Option<KeyFault>
        ensures { result ≡ insert_fault self.now step key }
    {
        if step > LAST_STEP {
            return Some(KeyFault::StepTooLarge);
        }
        if key >= KEYS {
            return Some(KeyFault::NoSuchKey);
        }
        if self.events.contains_key(&Moment { key, step }) {
            return Some(KeyFault::EventThere);
        }
        if self.events.len() >= MOST_EVENTS {
            return Some(KeyFault::TooManyEvents);
        }
        None
    }

    /// Returns the reason why an event can't be changed or deleted, if there is one.
    fn edit_fault(&self, step: u32, key: u32) -> Option<KeyFault>
        ensures { result ≡ edit_fault self.now step key }
    {
        if step > LAST_STEP {
            return Some(KeyFault::StepTooLarge);
        }
        if key >= KEYS {
            return Some(KeyFault::NoSuchKey);
        }
        if self.events.contains_key(&Moment { key, step }) {
            None
        } else {
            Some(KeyFault::NoEvent)
        }
    }
}

/// Applies the events of a list up to a step, which come first in that list, to the keys. Returns the
/// number of applied events.
#[inline(always)]
fn pass(events: &[Event], step: u32, keys: &mut u16, down: &mut [bool; KEY_COUNT]) -> usize
    requires keys { (i : ℕ) (d : Event) → i < length events.now
        → (slice_index_or events.now i d).key < KEY_COUNT }
    requires mask { keys.old ≡ mask (λ k. slice_index_or down.old k false) 16 }
    ensures at_most { result ≤ length events.now }
    ensures early { (i : ℕ) (d : Event) → i < result → (slice_index_or events.now i d).step ≤ step }
    ensures next { (d : Event) → result < length events.now
        → step < (slice_index_or events.now result d).step }
    ensures down { down.new ≡ after_events down.old events.now result }
    ensures mask { keys.new ≡ mask (λ k. slice_index_or down.new k false) 16 }
{
    let mut mask = *keys;
    let mut passed = 0;
    while passed < events.len() && events[passed].step <= step {
        let event = events[passed];
        let key = event.key as usize;
        mask = with_key(mask, down, key, event.down);
        down[key] = event.down;
        passed += 1;
    }
    *keys = mask;
    passed
}

/// The mask of the keys after one key went down or up.
#[inline(always)]
fn with_key(keys: u16, down: &[bool; KEY_COUNT], key: usize, is_down: bool) -> u16
    requires key { key < KEY_COUNT }
    requires mask { keys ≡ mask (λ k. slice_index_or down.now k false) 16 }
    ensures { result ≡ mask (λ k. slice_index_or (slice_set down.now key is_down) k false) 16 }
{
    keys - (u16::from(down[key]) << key) + (u16::from(is_down) << key)
}

/// The mask of a table of keys, key k at bit k.
#[tactic(auto, unfolding(crate::specs::Mask::mask))]
fn mask_of(down: &[bool; KEY_COUNT]) -> u16
    ensures { result ≡ mask (λ k. slice_index_or down.now k false) 16 }
{
    let mut mask = 0;
    for key in 0..KEY_COUNT {
        if down[key] {
            mask += 1 << key;
        }
    }
    mask
}
