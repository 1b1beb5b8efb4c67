//! The run of a machine under its key events.

ghost use Rattle.std.specs.Prelude.{◌≡◌, ◌+◌, ◌/◌, ◌<◌, ◌≤◌, ◌↔◌, length, min, drop, IfOk, OnOk, OnErr, IsOkUnless, MatchOption};

use crate::kept::{Kept, least_touch, patch};
use crate::keys::{KeyFault, Keys};
use crate::limits::{IMAGE_BYTES, LAST_STEP, LEAST_SPACING, MOST_SPACING};
use crate::traced::Traced;
use std::alloc::{AllocError, Global};
use std::marker::Model;
use std::ops::Range;
use thiserror::Error;

/// The reason why a query failed.
#[derive(Clone, Copy, Debug, PartialEq, Eq, Error)]
pub enum AtError {
    /// Q2: the step is above `LAST_STEP`.
    #[error("the step is above {LAST_STEP}")]
    StepTooLarge,
    /// Q4: memory ran out.
    #[error("out of memory")]
    OutOfMemory,
}

/// A machine's start state and key events, and what is kept of its run.
pub struct Replay<M: Traced> {
    start: M,
    rate: u32,
    keys: Keys,
    kept: Kept<M>,
}

// Dropping is one call. A derived `Drop` would be expanded, and proved, in every function that
// drops a replay.
impl<M: Traced> Drop for Replay<M> {
    fn drop(self) {
        let Replay {
            start: _,
            rate: _,
            keys: _,
            kept: _,
        } = self;
    }
}

impl<M: Traced> Model for Replay<M> {
    ghost use Rattle.std.specs.Prelude.{◌+◌, ◌<◌, length};
    ghost use Rattle.chip_replay.specs.Limits.{IsSpacing};
    ghost use Rattle.chip_replay.specs.History.{History, history_code};
    ghost use Rattle.chip_replay.specs.inner.Kept.{IsRight};

    ghost Value = { History M };

    ghost coded = { history_code M.code };

    ghost view = { λ a. record {
      start = a.start;
      rate = a.rate;
      spacing = a.kept.spacing;
      keys = a.keys;
      kept = length a.kept.checkpoints.items + 1;
      reach = a.kept.reach;
      ran = a.kept.ran;
    } };

    ghost invariant = { λ a. (0 < a.rate)
        × IsSpacing a.kept.spacing
        × IsRight M.is_proper M.touches M.step_of a.rate a.start a.keys a.kept };
}

impl<M: Traced> Replay<M> {
    ghost use Rattle.std.specs.Borrow.{sem};
    ghost use Rattle.std.specs.Io.BufRead.{Rests};
    ghost use Rattle.std.specs.FinMap as finmap;
    ghost use Rattle.chip_replay.specs.Limits.{image_start, image_room};
    ghost use Rattle.chip_replay.specs.History.{state_at, Answered};
    ghost use Rattle.chip_replay.specs.Image.{padded, with_image, affected, AgreeOutside};
    ghost use Rattle.chip_replay.specs.Keys.{held, insert_fault, edit_fault};
    ghost use Rattle.chip_replay.specs.contracts.replay.Replay.{the_row};

    /// Returns the run from a start state, without key events. The timers tick at each step whose number
    /// plus 1 is a multiple of `rate`, which is at least 1. The replay keeps a checkpoint after every
    /// `spacing` steps. Fails only if memory runs out.
    pub fn new(alloc: Global, start: M, rate: u32, spacing: u32) -> Result<Replay<M>, AllocError>
        requires rate { 0 < rate }
        requires spacing { (LEAST_SPACING ≤ spacing) × (spacing ≤ MOST_SPACING) }
        ensures { IfOk result (λ new. new ≡ record {
          start = start;
          rate = rate;
          spacing = spacing;
          keys = finmap.empty;
          kept = 1;
          reach = 0;
          ran = 0;
        }) }
    {
        let kept = Kept::new(alloc, start.copy_of()?, spacing)?;
        Ok(Replay {
            start,
            rate,
            keys: Keys::new(alloc),
            kept,
        })
    }

    /// The number of checkpoints kept, including that of step 0.
    pub fn kept(&self) -> usize
        ensures value { result ≡ self.now.kept }
        ensures few { result ≤ LAST_STEP / self.now.spacing + 1 }
    {
        self.kept.checkpoints.len() + 1
    }

    /// The step up to which the kept run is valid, 0 to `LAST_STEP`.
    pub fn reach(&self) -> u32
        ensures value { result ≡ self.now.reach }
        ensures in_range { result ≤ LAST_STEP }
    {
        self.kept.reach
    }

    /// The number of steps executed so far. The count stays at `u64::MAX` once it reaches that.
    pub fn ran(&self) -> u64
        ensures { result ≡ self.now.ran }
    {
        self.kept.ran
    }

    /// The key events.
    pub fn keys(&self) -> &Keys
        ensures { result.now ≡ self.now.keys }
    {
        &self.keys
    }

    /// The state at a step, which is the state after steps 0 to `step - 1` under the current key events.
    /// The replay computes it from the nearest checkpoint, or from the current state if that is nearer.
    /// Returns the first error that applies: the step is above `LAST_STEP`, or memory ran out. After an
    /// error, later answers are as if the failed query had not been made.
    pub fn at(&mut self, step: u32) -> Result<&M, AtError>
        ensures past_the_last { (result ≡ Err AtError.StepTooLarge) ↔ (LAST_STEP < step) }
        ensures state { IfOk result (λ state. state.now ≡ state_at M.step_of self.old step) }
        ensures* answered { sem 𝓛
            (Rests (the_row M.row M.Traced) self.entry (λ new. Answered self.old new step result)) }
    {
        if step > LAST_STEP {
            return Err(AtError::StepTooLarge);
        }
        match self.kept.go_to(&self.start, &self.keys, self.rate, step) {
            Ok(()) => Ok(&self.kept.current),
            Err(_) => Err(AtError::OutOfMemory),
        }
    }

    /// Adds a key event, like `Keys::insert`. The kept part of the run up to the event's step stays. An
    /// error changes nothing.
    pub fn insert_key(&mut self, step: u32, key: u32, down: bool) -> Result<(), KeyFault>
        ensures fault { MatchOption (insert_fault self.old.keys step key)
            (IsOkUnless result KeyFault.OutOfMemory) (λ fault. result ≡ Err fault) }
        ensures keys { OnOk result (self.new.keys
            ≡ finmap.insert self.old.keys (record { key = key; step = step }) down) }
        ensures reach { OnOk result (min self.old.reach step ≤ self.new.reach) }
        ensures others { OnOk result ((self.new.start ≡ self.old.start)
            × (self.new.rate ≡ self.old.rate)
            × (self.new.spacing ≡ self.old.spacing) × (self.new.ran ≡ self.old.ran)) }
        ensures err { OnErr result (self.new ≡ self.old) }
    {
        self.keys.insert(step, key, down)?;
        self.kept.forget(step);
        Ok(())
    }

    /// Changes a key event to down or up, like `Keys::replace`. The kept part of the run up to the event's
    /// step stays. An error changes nothing.
    pub fn replace_key(&mut self, step: u32, key: u32, down: bool) -> Result<(), KeyFault>
        ensures fault { MatchOption (edit_fault self.old.keys step key)
            (result ≡ Ok tt) (λ fault. result ≡ Err fault) }
        ensures keys { OnOk result (self.new.keys
            ≡ finmap.insert self.old.keys (record { key = key; step = step }) down) }
        ensures reach { OnOk result (min self.old.reach step ≤ self.new.reach) }
        ensures others { OnOk result ((self.new.start ≡ self.old.start)
            × (self.new.rate ≡ self.old.rate)
            × (self.new.spacing ≡ self.old.spacing) × (self.new.ran ≡ self.old.ran)) }
        ensures err { OnErr result (self.new ≡ self.old) }
    {
        self.keys.replace(step, key, down)?;
        self.kept.forget(step);
        Ok(())
    }

    /// Deletes a key event, like `Keys::delete`. The kept part of the run up to the event's step stays. An
    /// error changes nothing.
    pub fn delete_key(&mut self, step: u32, key: u32) -> Result<(), KeyFault>
        ensures fault { MatchOption (edit_fault self.old.keys step key)
            (result ≡ Ok tt) (λ fault. result ≡ Err fault) }
        ensures keys { OnOk result (self.new.keys
            ≡ finmap.remove self.old.keys (record { key = key; step = step })) }
        ensures reach { OnOk result (min self.old.reach step ≤ self.new.reach) }
        ensures others { OnOk result ((self.new.start ≡ self.old.start)
            × (self.new.rate ≡ self.old.rate)
            × (self.new.spacing ≡ self.old.spacing) × (self.new.ran ≡ self.old.ran)) }
        ensures err { OnErr result (self.new ≡ self.old) }
    {
        self.keys.delete(step, key)?;
        self.kept.forget(step);
        Ok(())
    }

    /// Makes the machine start with another image in its memory: the bytes of `new`, followed by zeros,
    /// replace those of `old`. The kept part of the run stays up to the first step that touches a byte at
    /// which the images differ. Allocates no memory.
    pub fn image_changed(&mut self, old: &[u8], new: &[u8])
        requires old_fits { length old.now ≤ image_room }
        requires new_fits { length new.now ≤ image_room }
        requires old_is_there { drop image_start (M.memory self.old.start) ≡ padded old.now }
        ensures start { self.new.start ≡ with_image M.memory M.with_memory new.now self.old.start }
        ensures rate { self.new.rate ≡ self.old.rate }
        ensures spacing { self.new.spacing ≡ self.old.spacing }
        ensures keys { self.new.keys ≡ self.old.keys }
        ensures ran { self.new.ran ≡ self.old.ran }
        ensures reach { affected M.touches M.step_of self.old.rate
            (held self.old.keys) old.now new.now self.old.start self.old.reach ≤ self.new.reach }
    {
        self.image_changed_within(0..IMAGE_BYTES, old, new);
    }

    /// Changes the image like `image_changed`, given the range of indexes outside which the images agree.
    /// Reads only the bytes in that range.
    pub fn image_changed_within(&mut self, changed: Range<usize>, old: &[u8], new: &[u8])
        requires old_fits { length old.now ≤ image_room }
        requires new_fits { length new.now ≤ image_room }
        requires old_is_there { drop image_start (M.memory self.old.start) ≡ padded old.now }
        requires alike { AgreeOutside changed.start changed.end old.now new.now }
        ensures start { self.new.start ≡ with_image M.memory M.with_memory new.now self.old.start }
        ensures rate { self.new.rate ≡ self.old.rate }
        ensures spacing { self.new.spacing ≡ self.old.spacing }
        ensures keys { self.new.keys ≡ self.old.keys }
        ensures ran { self.new.ran ≡ self.old.ran }
        ensures reach { affected M.touches M.step_of self.old.rate
            (held self.old.keys) old.now new.now self.old.start self.old.reach ≤ self.new.reach }
    {
        let (first, end) = (changed.start, changed.end);
        let first_touch = &self.kept.first_touch;
        let affected = least_touch(first_touch, self.kept.reach, first, end, old, new);
        self.kept.forget(affected);
        patch(&mut self.start, first, end, old, new);
        self.kept.patch(first, end, old, new);
    }
}
