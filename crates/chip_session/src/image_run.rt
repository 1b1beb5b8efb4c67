//! The run of the last image that the source had: its settings, its replay, and the image.
ghost use Rattle.std.specs.Prelude.{◌≡◌, ◌≤◌, ◌<◌, ℕ, max, min, slice_index, length, vec_capacity, IfSome, IfOk, OnOk, OnErr, MatchOption, IsOkUnless, Err, Ok, None, [], false, IsTrue, ◌+◌};
ghost use Rattle.std.specs.FinMap as finmap;
ghost use Rattle.std.specs.Option.{option_copied};
ghost use Rattle.chip_replay.specs.Image.{AgreeOutside};
ghost use Rattle.chip_replay.specs.Keys.{insert_fault, edit_fault};
ghost use Rattle.chip_session.specs.Session.{moment};
ghost use Rattle.chip_session.specs.Answers.{asks_past_end, state_answer};
ghost use Rattle.chip_session.specs.Kept.{empty_run, machine_after, FollowsImage, ReachesStep, RunsOn};
ghost use Rattle.chip_session.specs.Pictures.{picture_by};
ghost use Rattle.chip_session.specs.inner.InStep.{TakesEvents, RunsOnly};
ghost use Rattle.chip_trace.specs.Difference.{IsComparison};
ghost use Rattle.chip_trace.specs.Lines.{TakesLines, remaining};
ghost use Rattle.std.specs.Str.Lines.{lines};

use crate::machine_answer::push_state;
use crate::picture::{PictureForm, picture};
use crate::question::StateQuestion;
use crate::settings::Settings;
use chip_machine::laws::image_at_the_start;
use chip_machine::limits::IMAGE_BYTES;
use chip_machine::{Machine, Quirks};
use chip_replay::{AtError, KeyFault, LAST_STEP, Replay};
use chip_trace::{Difference, Trace, first_difference};
use std::alloc::{AllocError, Global};
use std::marker::Model;
use std::ops::Range;

/// The run of the last image that the source had, or of the empty image, under the session's
/// settings and current key events.
pub(crate) struct ImageRun {
    settings: Settings,
    replay: Replay<Machine>,
    /// The last image, in a buffer that is large enough for any image.
    last_image: Vec<u8>,
}

// Dropping is one call. A derived `Drop` would be expanded, and proved, in every function that
// drops a run.
impl Drop for ImageRun {
    fn drop(self) {
        let ImageRun {
            settings: _,
            replay: _,
            last_image: _,
        } = self;
    }
}

impl Model for ImageRun {
    ghost use Rattle.std.specs.Prelude.{vec_capacity};
    ghost use Rattle.chip_session.specs.Kept.{KeptRun};
    ghost use Rattle.chip_session.specs.inner.Codes.{kept_run_code};
    ghost use Rattle.chip_session.specs.inner.InStep.{kept_run, IsInStep};

    ghost Value = { KeptRun };

    ghost coded = { kept_run_code };

    ghost view = { λ r. kept_run r.settings r.replay r.last_image.items };

    ghost invariant = { λ r. IsInStep r.settings r.replay r.last_image.items
        (vec_capacity r.last_image) };
}

/// The number of bytes that are compared at once.
const BLOCK: usize = 256;

/// Whether two images agree in the block that begins at `start`.
fn is_same_block(old: &[u8], new: &[u8], start: usize) -> bool
    requires old_is_there { start + BLOCK ≤ length old.now }
    requires new_is_there { start + BLOCK ≤ length new.now }
    ensures { IsTrue result → (i : ℕ) → start ≤ i → i < start + BLOCK
        → slice_index old.now i ≡ slice_index new.now i }
{
    let mut same = true;
    for place in start..start + BLOCK {
        same &= old[place] == new[place];
    }
    same
}

/// Returns a range outside which two images agree, or `None` if the images are the same. If the
/// written range is known and both images have the same length, only that range is compared.
fn changed_places(written: Option<Range<usize>>, old: &[u8], new: &[u8]) -> Option<Range<usize>>
    requires { IfSome written (λ places. AgreeOutside places.start places.end old.now new.now) }
    ensures places { MatchOption result (old.now ≡ new.now)
        (λ places. AgreeOutside places.start places.end old.now new.now) }
    ensures start { IfSome result (λ places. places.start ≤ min (length old.now) (length new.now)) }
{
    match written {
        Some(places) if old.len() == new.len() => changed_part(places, old, new),
        _ => changed_blocks(old, new),
    }
}

/// Returns a range outside which two images agree, or `None` if the images are the same. The images
/// have the same length and agree outside the given range.
fn changed_part(places: Range<usize>, old: &[u8], new: &[u8]) -> Option<Range<usize>>
    requires lengths { length old.now ≡ length new.now }
    requires alike { AgreeOutside places.start places.end old.now new.now }
    ensures places { MatchOption result (old.now ≡ new.now)
        (λ places. AgreeOutside places.start places.end old.now new.now) }
    ensures start { IfSome result (λ places. places.start ≤ min (length old.now) (length new.now)) }
{
    let end = places.end.min(old.len());
    let first = places.start.min(end);
    if old[first..end] == new[first..end] {
        None
    } else {
        Some(first..end)
    }
}

/// Returns a range outside which two images agree, or `None` if the images are the same. The images
/// may differ anywhere.
fn changed_blocks(old: &[u8], new: &[u8]) -> Option<Range<usize>>
    ensures places { MatchOption result (old.now ≡ new.now)
        (λ places. AgreeOutside places.start places.end old.now new.now) }
    ensures start { IfSome result (λ places. places.start ≤ min (length old.now) (length new.now)) }
{
    let blocks = old.len().min(new.len()) / BLOCK;
    let rest = BLOCK * blocks;
    let (mut first, mut end) = (rest, 0);
    for block in 0..blocks {
        let start = BLOCK * block;
        if !is_same_block(old, new, start) {
            first = first.min(start);
            end = start + BLOCK;
        }
    }
    if old[rest..] != new[rest..] {
        return Some(first..old.len().max(new.len()));
    }
    if end == 0 { None } else { Some(first..end) }
}

/// Replaces an old image by a new one that has the same bytes before index `first`.
#[tactic(auto, using(crate::proofs::SameParts::renewed))]
fn copy_from(first: usize, old: &mut Vec<u8>, new: &[u8])
    requires start { first ≤ min (length old.old.items) (length new.now) }
    requires alike { (i : ℕ) → i < first → slice_index old.old.items i ≡ slice_index new.now i }
    requires room { length new.now ≤ vec_capacity old.old }
    ensures image { old.new.items ≡ new.now }
    ensures room { vec_capacity old.old ≤ vec_capacity old.new }
{
    old.truncate(first);
    // The buffer of the old image is large enough for any image, so this call can't fail.
    let _ = old.extend_from_slice(&new[first..]);
}

impl ImageRun {
    /// Returns the run of the empty image, without key events. Fails only if memory runs out.
    pub(crate) fn new(alloc: Global, settings: Settings) -> Result<Self, AllocError>
        ensures { IfOk result (λ run. run ≡ empty_run settings) }
    {
        let last_image = Vec::with_capacity(alloc, IMAGE_BYTES)?;
        let machine = match Machine::start_with(
            alloc,
            &last_image,
            settings.tape(),
            settings.quirks(),
        ) {
            Ok(machine) => machine,
            Err(_) => return Err(AllocError),
        };
        let replay = Replay::new(alloc, machine, settings.rate(), settings.spacing())?;
        Ok(ImageRun {
            settings,
            replay,
            last_image,
        })
    }

    /// Replaces the last image by the given image; `None` changes nothing. If `written` is given,
    /// the new image agrees with the last one outside that range.
    pub(crate) fn follow(&mut self, written: Option<Range<usize>>, image: Option<&[u8]>)
        requires fits { IfSome image (λ bytes. length bytes.now ≤ IMAGE_BYTES) }
        requires alike { IfSome written (λ places. IfSome (option_copied image)
            (AgreeOutside places.start places.end self.old.last_image)) }
        ensures follows { FollowsImage (option_copied image.entry) self.old self.new }
        ensures settings { self.new.settings ≡ self.old.settings }
        ensures keys { self.new.keys ≡ self.old.keys }
        ensures ran { self.new.ran ≡ self.old.ran }
    {
        let Some(image) = image else { return };
        let Some(places) = changed_places(written, &self.last_image, image) else {
            return;
        };
        image_at_the_start();
        let first = places.start;
        self.replay
            .image_changed_within(places, &self.last_image, image);
        copy_from(first, &mut self.last_image, image);
    }

    /// Adds a key event, like `Replay::insert_key`.
    pub(crate) fn insert_key(&mut self, step: u32, key: u32, down: bool) -> Result<(), KeyFault>
        ensures fault { MatchOption (insert_fault self.old.keys step key)
            (IsOkUnless result KeyFault.OutOfMemory) (λ fault. result ≡ Err fault) }
        ensures ok { OnOk result (TakesEvents (finmap.insert self.old.keys (moment step key) down)
            step self.old self.new) }
        ensures err { OnErr result (self.new ≡ self.old) }
    {
        self.replay.insert_key(step, key, down)
    }

    /// Changes the state of a key event to down or up, like `Replay::replace_key`.
    pub(crate) fn replace_key(&mut self, step: u32, key: u32, down: bool) -> Result<(), KeyFault>
        ensures fault { MatchOption (edit_fault self.old.keys step key)
            (result ≡ Ok tt) (λ fault. result ≡ Err fault) }
        ensures ok { OnOk result (TakesEvents (finmap.insert self.old.keys (moment step key) down)
            step self.old self.new) }
        ensures err { OnErr result (self.new ≡ self.old) }
    {
        self.replay.replace_key(step, key, down)
    }

    /// Deletes a key event, like `Replay::delete_key`.
    pub(crate) fn delete_key(&mut self, step: u32, key: u32) -> Result<(), KeyFault>
        ensures fault { MatchOption (edit_fault self.old.keys step key)
            (result ≡ Ok tt) (λ fault. result ≡ Err fault) }
        ensures ok { OnOk result (TakesEvents (finmap.remove self.old.keys (moment step key))
            step self.old self.new) }
        ensures err { OnErr result (self.new ≡ self.old) }
    {
        self.replay.delete_key(step, key)
    }

    /// Writes the answer to a question about the machine at a step into an empty text.
    ///
    /// # Errors
    ///
    /// Out of memory.
    pub(crate) fn answer(
        &mut self,
        asked: StateQuestion,
        step: u32,
        out: &mut Vec<u8>,
    ) -> Result<(), AllocError>
        requires step { step ≤ LAST_STEP }
        requires inside { asks_past_end asked ≡ false }
        requires empty { out.old.items ≡ [] }
        ensures answer { OnOk result (out.new.items
            ≡ state_answer asked (machine_after self.old step)) }
        ensures runs { RunsOnly self.old self.new }
        ensures reaches { ReachesStep step result self.old self.new }
    {
        match self.replay.at(step) {
            Ok(machine) => push_state(out, machine, asked),
            Err(_) => Err(AllocError),
        }
    }

    /// Returns the picture of the screen at a step.
    ///
    /// # Errors
    ///
    /// Out of memory.
    pub(crate) fn picture(
        &mut self,
        alloc: Global,
        form: PictureForm,
        step: u32,
    ) -> Result<Vec<u8>, AllocError>
        requires { step ≤ LAST_STEP }
        ensures picture { IfOk result (λ picture.
            picture.items ≡ picture_by form (machine_after self.old step)) }
        ensures runs { RunsOnly self.old self.new }
        ensures reaches { ReachesStep step result self.old self.new }
    {
        match self.replay.at(step) {
            Ok(machine) => picture(alloc, machine, form),
            Err(_) => Err(AllocError),
        }
    }

    /// Appends lines of a trace of the run to a text, like `Trace::push_lines`.
    ///
    /// # Errors
    ///
    /// Out of memory, or a step past the last one.
    pub(crate) fn push_trace(
        &mut self,
        trace: &mut Trace<'_>,
        text: &mut Vec<u8>,
        most: usize,
    ) -> Result<bool, AtError>
        ensures lines { IfOk result (TakesLines (machine_after self.old) most trace.old trace.new
            text.old.items text.new.items) }
        ensures step_too_large { result ≡ Err AtError.StepTooLarge
            → LAST_STEP < max trace.old.next trace.old.to }
        ensures runs { RunsOnly self.old self.new }
        ensures on { RunsOn self.old self.new }
    {
        trace.push_lines(&mut self.replay, text, most)
    }

    /// Returns the first difference between the lines of the run and the lines of another trace.
    ///
    /// # Errors
    ///
    /// Out of memory, or a step past the last one.
    pub(crate) fn first_difference(
        &mut self,
        alloc: Global,
        trace: &mut Trace<'_>,
        theirs: &[u8],
    ) -> Result<Option<Difference>, AtError>
        ensures found { IfOk result (IsComparison (remaining (machine_after self.old) trace.old)
            (lines theirs.now)) }
        ensures step_too_large { result ≡ Err AtError.StepTooLarge
            → LAST_STEP < max trace.old.next trace.old.to }
        ensures runs { RunsOnly self.old self.new }
        ensures on { RunsOn self.old self.new }
    {
        first_difference(alloc, &mut self.replay, trace, theirs)
    }

    /// The quirks of the machine.
    pub(crate) fn quirks(&self) -> Quirks
        ensures { result ≡ self.now.settings.quirks }
    {
        self.settings.quirks()
    }

    /// The step up to which the run is still valid.
    pub(crate) fn reach(&self) -> u32
        ensures { result ≡ self.now.reach }
    {
        self.replay.reach()
    }

    /// The number of steps executed so far. The count stops at the greatest `u64`.
    pub(crate) fn ran(&self) -> u64
        ensures { result ≡ self.now.ran }
    {
        self.replay.ran()
    }
}
