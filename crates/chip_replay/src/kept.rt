//! The data kept about a machine's run.

ghost use Rattle.std.specs.Prelude.{◌≡◌, ℕ, Bool, ◌+◌, ◌-◌, ◌*◌, ◌/◌, ◌<◌, ◌≤◌, ◌==◌, List, [], ◌∷◌, ◌++◌, length, min, max, IfOk, IfSome, IsSome, None, OnOk, OnErr, if◌then◌else◌, slice_index, slice_index_or, slice_set, take, map, nat_lt, true, ◌⊎◌};
ghost use Rattle.chip_replay.specs.Limits.{image_start, image_room};
ghost use Rattle.chip_machine.specs.Touched.{is_among, touched};
ghost use Rattle.chip_replay.specs.Run.{run, IsStill};
ghost use Rattle.chip_replay.specs.Keys.{Events, held, is_down};
ghost use Rattle.chip_replay.specs.inner.Changes.{KnowsKeys};
ghost use Rattle.chip_replay.specs.Image.{AgreeOutside, patched};
ghost use Rattle.chip_machine.specs.State.{differs};
ghost use Rattle.chip_replay.specs.inner.Kept.{IsTouched, IsNoted, IsAt, IsAhead, IsRight, is_due};

use crate::keys::{Cursor, Holding, Keys};
use crate::limits::{IMAGE_START, LAST_STEP, MEMORY_BYTES, NEVER};
use crate::traced::Traced;
use std::alloc::{AllocError, Global};

/// The number of entries of the table of first touches that are skipped together if none is a touch.
const PART: usize = 256;

/// The part of a machine's run that a replay keeps.
#[derive(Drop)]
pub(crate) struct Kept<M: Traced> {
    /// The number of steps between two checkpoints.
    pub(crate) spacing: u32,
    /// The states after each multiple of `spacing` steps, up to `reach`.
    pub(crate) checkpoints: Vec<M>,
    /// States whose allocations later checkpoints reuse. Their contents have no meaning.
    pub(crate) spare: Vec<M>,
    /// For each address, the first step below `reach` that touched it, or `NEVER`.
    pub(crate) first_touch: Vec<u32>,
    /// The number of steps of the run that are known.
    pub(crate) reach: u32,
    /// The current state, which the last query reached.
    pub(crate) current: M,
    /// The step of the current state, or `None` if that state is void.
    pub(crate) current_step: Option<u32>,
    /// The keys that are held from the step of the current state onwards.
    pub(crate) holding: Holding,
    /// The number of steps executed.
    pub(crate) ran: u64,
}

impl<M: Traced> Kept<M> {
    /// Returns a kept run that knows only the start state; `start` is a copy of that state. Fails only if
    /// memory runs out.
    pub(crate) fn new(alloc: Global, start: M, spacing: u32) -> Result<Kept<M>, AllocError>
        ensures current { IfOk result (λ kept. (kept.current ≡ start) × (kept.current_step ≡ Some 0)) }
        ensures checkpoints { IfOk result (λ kept. kept.checkpoints.items ≡ []) }
        ensures table { IfOk result (λ kept. length kept.first_touch.items ≡ MEMORY_BYTES) }
        ensures never { IfOk result (λ kept. (at : ℕ) → at < MEMORY_BYTES
            → slice_index kept.first_touch.items at ≡ NEVER) }
        ensures holding { IfOk result (λ kept. (events : Events)
            → KnowsKeys events 0 kept.holding) }
        ensures counts { IfOk result (λ kept. (kept.spacing ≡ spacing) × (kept.reach ≡ 0)
            × (kept.ran ≡ 0)) }
    {
        let first_touch = vec![in alloc; NEVER; MEMORY_BYTES]?;
        Ok(Kept {
            spacing,
            checkpoints: Vec::new(alloc),
            spare: Vec::new(alloc),
            first_touch,
            reach: 0,
            current: start,
            current_step: Some(0),
            holding: Holding::NONE,
            ran: 0,
        })
    }

    /// Moves the current state to a step, starting from the nearest kept state, and keeps each checkpoint
    /// that becomes due. Fails if memory runs out; the current state may then be void.
    pub(crate) fn go_to(
        &mut self,
        start: &M,
        keys: &Keys,
        rate: u32,
        step: u32,
    ) -> Result<(), AllocError>
        requires rate { 0 < rate }
        requires spaced { 0 < self.old.spacing }
        requires in_range { step ≤ LAST_STEP }
        requires right { IsRight M.is_proper M.touches M.step_of rate start.now keys.now self.old }
        ensures spacing { self.new.spacing ≡ self.old.spacing }
        ensures right { IsRight M.is_proper M.touches M.step_of rate start.now keys.now self.new }
        ensures state { OnOk result (self.new.current
            ≡ run M.step_of rate (held keys.now) start.now step) }
        ensures reached { OnOk result (step ≤ self.new.reach) }
        ensures reach_kept { self.old.reach ≤ self.new.reach }
        ensures ran_kept { self.old.ran ≤ self.new.ran }
        ensures steps { OnOk result (self.new.ran ≤ self.old.ran
            + (step - self.old.spacing * (min self.old.reach step / self.old.spacing))) }
    {
        let mut at = self.set_out(start, keys, step)?;
        while at < step {
            if self.current.stays(None, &self.first_touch, at) {
                return self.extend(at, step);
            }
            let to_checkpoint = self.spacing - at % self.spacing;
            let count = to_checkpoint.min(step - at);
            self.go_on(keys, rate, at, count)?;
            at += count;
        }
        Ok(())
    }

    /// Executes `count` steps starting at step `at`, whose state is the current state. The steps don't
    /// pass the next checkpoint. After an error, the run is known as far as before, and the current state
    /// is void.
    fn go_on(&mut self, keys: &Keys, rate: u32, at: u32, count: u32) -> Result<(), AllocError>
        requires rate { 0 < rate }
        requires spaced { 0 < self.old.spacing }
        requires in_range { at + count ≤ LAST_STEP }
        requires next { at + count ≤ (at / self.old.spacing + 1) * self.old.spacing }
        requires table { length self.old.first_touch.items ≡ MEMORY_BYTES }
        requires few { length self.old.checkpoints.items ≤ LAST_STEP }
        requires holding { KnowsKeys keys.now at self.old.holding }
        ensures right { (start : M)
            → IsRight M.is_proper M.touches M.step_of rate start keys.now self.old
            → IsAt M.step_of rate start keys.now self.old.current self.old.holding self.old.reach at
            → IsRight M.is_proper M.touches M.step_of rate start keys.now self.new }
        ensures is_at { OnOk result ((start : M)
            → IsRight M.is_proper M.touches M.step_of rate start keys.now self.old
            → IsAt M.step_of rate start keys.now self.old.current self.old.holding self.old.reach at
            → IsAt M.step_of rate start keys.now self.new.current self.new.holding self.new.reach
            (at + count)) }
        ensures reach_kept { self.old.reach ≤ self.new.reach }
        ensures spacing { self.new.spacing ≡ self.old.spacing }
        ensures ran_kept { self.old.ran ≤ self.new.ran }
        ensures made { self.new.ran ≤ self.old.ran + count }
    {
        let made = self.make_steps(keys, rate, at, count);
        self.ran = self.ran.saturating_add(u64::from(made));
        let last = at + count;
        self.current_step = Some(last);
        self.extend(last, last)
    }

    /// Executes `count` steps starting at step `at`, whose state is the current state. Returns the number
    /// of steps executed, which is 0 if the steps would change nothing.
    fn make_steps(&mut self, keys: &Keys, rate: u32, at: u32, count: u32) -> u32
        requires rate { 0 < rate }
        requires in_range { at + count ≤ LAST_STEP }
        requires table { length self.old.first_touch.items ≡ MEMORY_BYTES }
        requires holding { KnowsKeys keys.now at self.old.holding }
        ensures noted { (start : M) (reach : ℕ)
            → IsNoted M.touches M.step_of rate start keys.now reach at
            self.old.current self.old.first_touch.items
            → IsNoted M.touches M.step_of rate start keys.now reach (at + count)
            self.new.current self.new.first_touch.items }
        ensures holding { KnowsKeys keys.now (at + count) self.new.holding }
        ensures made { result ≤ count }
        ensures others { self.new
            ≡ record self.old {
              current = self.new.current;
              holding = self.new.holding;
              first_touch = self.new.first_touch;
            } }
    {
        if let Some(holding) = self.idle_until(keys, at, count) {
            self.holding = holding;
            return 0;
        }
        let mut cursor = Cursor {
            keys,
            holding: self.holding,
        };
        let table = &mut self.first_touch;
        self.current.steps(&mut cursor, rate, at, count, table);
        self.holding = cursor.holding;
        count
    }

    /// Returns the keys known after `count` steps starting at step `at`, whose state is the current state.
    /// Returns `None` if these steps might change something or touch an address for the first time.
    fn idle_until(&self, keys: &Keys, at: u32, count: u32) -> Option<Holding>
        requires in_range { at + count ≤ LAST_STEP }
        requires holding { KnowsKeys keys.now at self.now.holding }
        ensures noted { IsSome result → (rate : ℕ) (start : M) (reach : ℕ)
            → IsNoted M.touches M.step_of rate start keys.now reach at
            self.now.current self.now.first_touch.items
            → IsNoted M.touches M.step_of rate start keys.now reach (at + count)
            self.now.current self.now.first_touch.items }
        ensures holding { IfSome result (KnowsKeys keys.now (at + count)) }
    {
        // Executing a single step is as fast as this test.
        if count < 2 {
            return None;
        }
        let mut holding = self.holding;
        keys.hold(&mut holding, at);
        if at + count > holding.until {
            return None;
        }
        if !self
            .current
            .stays(Some(holding.keys), &self.first_touch, at)
        {
            return None;
        }
        Some(holding)
    }

    /// Extends the known run to step `last`. The current state must be the state of each step from `at` to
    /// `last`, and the first touches must be recorded. Keeps a checkpoint if the next one is due within
    /// these steps. After an error, the run is known as far as before, and the current state is void.
    #[inline(always)]
    fn extend(&mut self, at: u32, last: u32) -> Result<(), AllocError>
        requires spaced { 0 < self.old.spacing }
        requires in_range { last ≤ LAST_STEP }
        requires few { length self.old.checkpoints.items ≤ LAST_STEP }
        ensures right { (rate : ℕ) (start : M) (events : Events)
            → IsAhead M.is_proper M.touches M.step_of rate start events self.old at last
            → IsRight M.is_proper M.touches M.step_of rate start events self.new }
        ensures reached { OnOk result (last ≤ self.new.reach) }
        ensures reach_kept { self.old.reach ≤ self.new.reach }
        ensures others { self.new ≡ record self.old {
          checkpoints = self.new.checkpoints;
          spare = self.new.spare;
          first_touch = self.new.first_touch;
          reach = self.new.reach;
          current_step = self.new.current_step;
        } }
    {
        if last <= self.reach {
            return Ok(());
        }
        if self.is_due(at, last)
            && let Err(error) = self.keep()
        {
            cut(&mut self.first_touch, self.reach);
            self.current_step = None;
            return Err(error);
        }
        self.reach = last;
        Ok(())
    }

    /// Whether to keep a checkpoint of a state that is the state of each step from `at` to `last`. True if
    /// the next checkpoint is due within these steps and the one before it belongs to a step before `at`.
    fn is_due(&self, at: u32, last: u32) -> bool
        requires few { length self.now.checkpoints.items ≤ LAST_STEP }
        ensures { result ≡ is_due self.now.spacing (length self.now.checkpoints.items) at last }
    {
        let spacing = u64::from(self.spacing);
        let next = (self.checkpoints.len() as u64 + 1) * spacing;
        u64::from(at) <= next && next <= u64::from(last) && next < u64::from(at) + spacing
    }

    /// Keeps the current state as a checkpoint.
    #[cold]
    #[inline(never)]
    fn keep(&mut self) -> Result<(), AllocError>
        ensures kept { OnOk result (self.new.checkpoints.items
            ≡ self.old.checkpoints.items ++ self.old.current ∷ []) }
        ensures err { OnErr result (self.new.checkpoints.items ≡ self.old.checkpoints.items) }
        ensures others { self.new
            ≡ record self.old { checkpoints = self.new.checkpoints; spare = self.new.spare } }
    {
        let state = match self.spare.pop() {
            Some(mut state) => {
                state.copy_from(&self.current)?;
                state
            }
            None => {
                self.spare.reserve(self.checkpoints.len() + 1)?;
                self.current.copy_of()?
            }
        };
        self.checkpoints.push(state)?;
        Ok(())
    }

    /// Makes the current state one from which the run can continue to a step, and returns a step that the
    /// current state belongs to. The current state stays if no checkpoint up to that step is nearer, or if
    /// it is the state of every later step. An error changes nothing.
    fn set_out(&mut self, start: &M, keys: &Keys, step: u32) -> Result<u32, AllocError>
        requires spaced { 0 < self.old.spacing }
        ensures within { IfOk result (λ from. from ≤ step) }
        ensures near { IfOk result (λ from.
            self.old.spacing * (min self.old.reach step / self.old.spacing) ≤ from) }
        ensures known { (rate : ℕ)
            → IsRight M.is_proper M.touches M.step_of rate start.now keys.now self.old
            → IfOk result (IsAt M.step_of rate start.now keys.now self.new.current self.new.holding
            self.new.reach) }
        ensures right { (rate : ℕ)
            → IsRight M.is_proper M.touches M.step_of rate start.now keys.now self.old
            → IsRight M.is_proper M.touches M.step_of rate start.now keys.now self.new }
        ensures others { self.new
            ≡ record self.old {
              current = self.new.current;
              current_step = self.new.current_step;
              holding = self.new.holding;
            } }
        ensures err { OnErr result (self.new ≡ self.old) }
    {
        let known = self.reach.min(step);
        match self.current_step {
            // The run is known no further than the current state, and a division would take longer than a
            // step.
            Some(current_step) if known <= current_step && current_step <= step => return Ok(
                current_step,
            ),
            Some(current_step)
                if current_step <= step
                    && self.current.stays(None, &self.first_touch, current_step) => {
                return Ok(known);
            }
            _ => {}
        }
        let place = known / self.spacing;
        let from = place * self.spacing;
        match self.current_step {
            Some(current_step) if from <= current_step && current_step <= step => Ok(current_step),
            _ => {
                let from_state = nearest(start, &self.checkpoints, place as usize);
                self.current.copy_from(from_state)?;
                self.current_step = Some(from);
                self.holding = keys.before(from);
                Ok(from)
            }
        }
    }

    /// Discards everything that is kept of the steps from `from` onwards.
    pub(crate) fn forget(&mut self, from: u32)
        requires { 0 < self.old.spacing }
        ensures right { (rate : ℕ) (start : M) (events later : Events)
            → IsRight M.is_proper M.touches M.step_of rate start events self.old
            → ((s : ℕ) → s < from → (k : ℕ) → is_down later k s ≡ is_down events k s)
            → IsRight M.is_proper M.touches M.step_of rate start later self.new }
        ensures reach { self.new.reach ≡ min self.old.reach from }
        ensures others { self.new ≡ record self.old {
          checkpoints = self.new.checkpoints;
          spare = self.new.spare;
          first_touch = self.new.first_touch;
          reach = self.new.reach;
          current_step = self.new.current_step;
          holding = self.new.holding;
        } }
    {
        if from < self.reach {
            self.cut_off(from);
        }
        self.holding.until = self.holding.until.min(from);
    }

    /// Discards everything that is kept of the steps from `reach` onwards. The run must be known up to `reach`.
    fn cut_off(&mut self, reach: u32)
        requires { 0 < self.old.spacing }
        ensures right { (rate : ℕ) (start : M) (events : Events)
            → IsRight M.is_proper M.touches M.step_of rate start events self.old
            → reach ≤ self.old.reach
            → IsRight M.is_proper M.touches M.step_of rate start events self.new }
        ensures others { self.new ≡ record self.old {
          checkpoints = self.new.checkpoints;
          spare = self.new.spare;
          first_touch = self.new.first_touch;
          reach = reach;
          current_step = self.new.current_step;
        } }
    {
        let count = (reach / self.spacing) as usize;
        set_apart(&mut self.checkpoints, &mut self.spare, count);
        self.current_step = if_within(self.current_step, reach);
        self.cut_touches(reach);
        self.reach = reach;
    }

    /// Removes the first touches of the steps from `reach` onwards. There are none if the current state,
    /// whose step is at most `reach`, never changes and touches nothing.
    fn cut_touches(&mut self, reach: u32)
        requires within { IfSome self.old.current_step (λ t. t ≤ reach) }
        ensures table { (rate : ℕ) (start : M) (events : Events) (known : ℕ)
            → IsTouched (touched M.touches) (run M.step_of rate (held events) start) known
            self.old.first_touch.items
            → IfSome self.old.current_step
            (IsAt M.step_of rate start events self.old.current self.old.holding known)
            → reach ≤ known
            → IsTouched (touched M.touches) (run M.step_of rate (held events) start) reach
            self.new.first_touch.items }
        ensures others { self.new ≡ record self.old { first_touch = self.new.first_touch } }
    {
        if self.current_step.is_some() && self.current.is_still() {
            return;
        }
        cut(&mut self.first_touch, reach);
    }

    /// Replaces the bytes of the old image with those of the new image in each kept state. The images
    /// agree outside the indexes from `first` to before `end`.
    pub(crate) fn patch(&mut self, first: usize, end: usize, old: &[u8], new: &[u8])
        requires old_fits { length old.now ≤ image_room }
        requires new_fits { length new.now ≤ image_room }
        requires alike { AgreeOutside first end old.now new.now }
        ensures checkpoints { self.new.checkpoints.items
            ≡ map (patched M.memory M.with_memory old.now new.now) self.old.checkpoints.items }
        ensures current { self.new.current
            ≡ patched M.memory M.with_memory old.now new.now self.old.current }
        ensures others { self.new
            ≡ record self.old { checkpoints = self.new.checkpoints; current = self.new.current } }
    {
        patch_all(&mut self.checkpoints, first, end, old, new);
        patch(&mut self.current, first, end, old, new);
    }
}

/// The byte of an image at an index, or 0 past its end.
fn byte_at(image: &[u8], place: usize) -> u8
    ensures { result ≡ slice_index image.now place }
{
    if place < image.len() { image[place] } else { 0 }
}

/// The first step below `reach` that touches a byte at which the images differ, or `reach` if there is
/// none. The images agree outside the indexes from `first` to before `end`.
pub(crate) fn least_touch(
    first_touch: &[u32],
    reach: u32,
    first: usize,
    end: usize,
    old: &[u8],
    new: &[u8],
) -> u32
    requires table { length first_touch.now ≡ MEMORY_BYTES }
    requires old_fits { length old.now ≤ image_room }
    requires new_fits { length new.now ≤ image_room }
    requires alike { AgreeOutside first end old.now new.now }
    ensures within { result ≤ reach }
    ensures least { (i : ℕ) → i < image_room → differs old.now new.now i ≡ true
        → result ≤ slice_index first_touch.now (image_start + i) }
    ensures attained { (result ≡ reach)
        ⊎ ((i : ℕ) × (i < image_room) × (differs old.now new.now i ≡ true)
        × (result ≡ slice_index first_touch.now (image_start + i))) }
{
    if reach == 0 {
        return 0;
    }
    let shorter = old.len().min(new.len());
    let to = end.min(shorter);
    let from = first.min(to);
    let touches = &first_touch[IMAGE_START + from..IMAGE_START + to];
    let mut least = least_at_changes(touches, reach, &old[from..to], &new[from..to]);
    for i in first.max(shorter)..end.min(old.len().max(new.len())) {
        if byte_at(old, i) != byte_at(new, i) {
            least = least.min(first_touch[IMAGE_START + i]);
        }
    }
    least
}

/// The minimum of `most` and the steps at the indexes where the bytes differ.
fn least_at_changes(steps: &[u32], most: u32, old: &[u8], new: &[u8]) -> u32
    requires old_alike { length old.now ≡ length steps.now }
    requires new_alike { length new.now ≡ length steps.now }
    ensures within { result ≤ most }
    ensures least { (i : ℕ) → differs old.now new.now i ≡ true → result ≤ slice_index steps.now i }
    ensures attained { (result ≡ most) ⊎ ((i : ℕ) × (i < length steps.now)
        × (differs old.now new.now i ≡ true) × (result ≡ slice_index steps.now i)) }
{
    let count = steps.len();
    let (old, new) = (&old[..count], &new[..count]);
    let mut least = most;
    for i in 0..count {
        let floor = if old[i] != new[i] { 0 } else { most };
        least = least.min(steps[i].max(floor));
    }
    least
}

/// Replaces the bytes of the old image with those of the new image. The images agree outside the
/// indexes from `first` to before `end`.
pub(crate) fn patch<M: Traced>(state: &mut M, first: usize, end: usize, old: &[u8], new: &[u8])
    requires old_fits { length old.now ≤ image_room }
    requires new_fits { length new.now ≤ image_room }
    requires alike { AgreeOutside first end old.now new.now }
    ensures { state.new ≡ patched M.memory M.with_memory old.now new.now state.old }
{
    let shorter = old.len().min(new.len());
    let to = end.min(shorter);
    let from = first.min(to);
    state.exchange((IMAGE_START + from) as u16, &old[from..to], &new[from..to]);
    for i in first.max(shorter)..end.min(old.len().max(new.len())) {
        let byte = byte_at(new, i);
        if byte_at(old, i) != byte {
            state.poke((IMAGE_START + i) as u16, byte);
        }
    }
}

/// Replaces the bytes of the old image with those of the new image in each state.
fn patch_all<M: Traced>(states: &mut [M], first: usize, end: usize, old: &[u8], new: &[u8])
    requires old_fits { length old.now ≤ image_room }
    requires new_fits { length new.now ≤ image_room }
    requires alike { AgreeOutside first end old.now new.now }
    ensures { states.new ≡ map (patched M.memory M.with_memory old.now new.now) states.old }
{
    for state in states.iter_mut() {
        patch(state, first, end, old, new);
    }
}

/// Removes the first touches of the steps from `reach` onwards. A part of the table that no step touched
/// is only read.
fn cut(first_touch: &mut [u32], reach: u32)
    ensures { first_touch.new
        ≡ map (λ first. if nat_lt first reach then first else NEVER) first_touch.old }
{
    let parts = first_touch.len() / PART;
    for place in 0..parts {
        let start = place * PART;
        cut_part(&mut first_touch[start..start + PART], reach);
    }
    cut_each(&mut first_touch[parts * PART..], reach);
}

/// Removes the touches of the steps from `reach` onwards from a part of the table.
fn cut_part(part: &mut [u32], reach: u32)
    ensures { part.new ≡ map (λ first. if nat_lt first reach then first else NEVER) part.old }
{
    if least_of(part) != NEVER {
        cut_each(part, reach);
    }
}

/// The minimum of the steps, or `NEVER` if there are no steps.
fn least_of(steps: &[u32]) -> u32
    ensures { (i : ℕ) → i < length steps.now → result ≤ slice_index steps.now i }
{
    let mut least = NEVER;
    for step in steps {
        least = least.min(*step);
    }
    least
}

/// Removes the touches of the steps from `reach` onwards, address by address.
fn cut_each(first_touch: &mut [u32], reach: u32)
    ensures { first_touch.new
        ≡ map (λ first. if nat_lt first reach then first else NEVER) first_touch.old }
{
    for first in first_touch.iter_mut() {
        *first = if_before(*first, reach);
    }
}

/// The step if there is one and it isn't later than `reach`; otherwise `None`.
fn if_within(step: Option<u32>, reach: u32) -> Option<u32>
    ensures { IfSome result (λ t. (t ≤ reach) × (step ≡ Some t)) }
{
    match step {
        Some(step) if step <= reach => Some(step),
        _ => None,
    }
}

/// The step if it is before `reach`; otherwise `NEVER`.
fn if_before(step: u32, reach: u32) -> u32
    ensures { result ≡ (if nat_lt step reach then step else NEVER) }
{
    if step < reach { step } else { NEVER }
}

/// Removes the states from an index onwards. Keeps them in `spare` for reuse as far as they fit.
fn set_apart<M: Traced>(states: &mut Vec<M>, spare: &mut Vec<M>, place: usize)
    ensures { states.new.items ≡ take place states.old.items }
{
    while states.len() > place {
        let last = states.pop();
        if let Some(state) = last
            && spare.len() < spare.capacity()
        {
            let _kept = spare.push(state);
        }
    }
}

/// The start state for 0, otherwise the checkpoint with the number `place`, counted from 1. For a
/// number past the last checkpoint, the last checkpoint.
fn nearest<'a, M: Traced>(start: &'a M, checkpoints: &'a [M], place: usize) -> &'a M
    ensures start { min place (length checkpoints.now) ≡ 0 → result.now ≡ start.now }
    ensures checkpoint { (i : ℕ) → min place (length checkpoints.now) ≡ i + 1
        → result.now ≡ slice_index_or checkpoints.now i result.now }
{
    let place = place.min(checkpoints.len());
    if place == 0 {
        start
    } else {
        &checkpoints[place - 1]
    }
}
