//! Runs a key script again after a search found it.

ghost use Rattle.std.specs.Prelude.{◌≡◌, ◌<◌, ◌+◌, length, slice_index_or, slice_set, IfOk, IfSome, IsNone, IsTrue, true, false};
ghost use Rattle.chip_machine.specs.Block.{ticks};
ghost use Rattle.chip_machine.specs.Choices.{IsWithin};
ghost use Rattle.chip_replay.specs.Mask.{mask};
ghost use Rattle.chip_explore.specs.Scripts.{are_in_order, keys_of, IsRefused};
ghost use Rattle.chip_explore.specs.inner.Cover.{IsUnder};
ghost use Rattle.chip_explore.specs.inner.Played.{IsPlayed};

use crate::limits::KEY_COUNT;
use crate::script::KeyEvent;
use crate::setting::Setting;
use chip_machine::{Machine, Touch};
use chip_replay::KEYS;
use std::alloc::{AllocError, Global};

/// The events of a script that were applied, and the keys that are down after them.
#[derive(Drop)]
struct Played {
    /// The number of events that were applied.
    passed: usize,
    /// The keys that are down, key k at bit k.
    keys: u16,
    /// Whether each key is down.
    down: [bool; KEY_COUNT],
}

impl Played {
    /// Returns the state before the first event.
    fn nothing(events: &[KeyEvent]) -> Played
        requires { are_in_order 0 events.now ≡ true }
        ensures { IsPlayed events.now 0 0 result }
    {
        Played {
            passed: 0,
            keys: 0,
            down: [false; KEY_COUNT],
        }
    }

    /// Applies the events of a step. The events of earlier steps have been applied already.
    fn pass(&mut self, events: &[KeyEvent], step: u32)
        requires { IsPlayed events.now step step self.old }
        ensures { IsPlayed events.now (step + 1) (step + 1) self.new }
    {
        while self.passed < events.len() && events[self.passed].step <= step {
            let event = events[self.passed];
            let key = event.key as usize;
            self.keys = with_key(self.keys, &self.down, key, event.down);
            self.down[key] = event.down;
            self.passed += 1;
        }
    }
}

/// Returns the mask of the keys that are down after one key went down or up.
fn with_key(keys: u16, down: &[bool; KEY_COUNT], key: usize, is_down: bool) -> u16
    requires key { key < KEY_COUNT }
    requires mask { keys ≡ mask (λ k. slice_index_or down.now k false) 16 }
    ensures { result ≡ mask (λ k. slice_index_or (slice_set down.now key is_down) k false) 16 }
{
    keys - (u16::from(down[key]) << key) + (u16::from(is_down) << key)
}

/// Whether the steps of the events never decrease, and each event is for one of the 16 keys.
fn are_in_order(events: &[KeyEvent]) -> bool
    ensures { result ≡ are_in_order 0 events.now }
{
    let mut least = 0;
    for event in events {
        if event.step < least || event.key >= KEYS {
            return false;
        }
        least = event.step;
    }
    true
}

/// Whether a mask of keys includes a key that isn't allowed.
fn presses_other(keys: u16, allowed: u16) -> bool
    ensures other { IsTrue result → IsWithin allowed keys → ⊥ }
    ensures within { result ≡ false → IsWithin allowed keys }
{
    keys & allowed != keys
}

/// Whether the timers tick in a step.
fn ticks(rate: u32, step: u32) -> bool
    requires { 0 < rate }
    ensures { result ≡ ticks rate step }
{
    (u64::from(step) + 1) % u64::from(rate) == 0
}

/// Returns the machine at a step under some events, if only allowed keys are down before that step.
/// Returns `None` if the events aren't in order, or if other keys are down.
pub(crate) fn machine_under(
    alloc: Global,
    start: &Machine,
    setting: &Setting<'_>,
    events: &[KeyEvent],
    step: u32,
) -> Result<Option<Machine>, AllocError>
    requires { 0 < setting.now.rate }
    ensures under { IfOk result (λ answer. IfSome answer
        (λ machine. IsUnder setting.now start.now (keys_of events.now) step machine)) }
    ensures refused { IfOk result (λ answer. IsNone answer
        → IsRefused setting.now.allowed events.now step) }
{
    if !are_in_order(events) {
        return Ok(None);
    }
    let mut machine = start.copy_of()?;
    let mut touch = Touch::new();
    let mut played = Played::nothing(events);
    for made in 0..step {
        played.pass(events, made);
        if presses_other(played.keys, setting.allowed) {
            return Ok(None);
        }
        machine.step(played.keys, ticks(setting.rate, made), &mut touch);
    }
    Ok(Some(machine))
}
