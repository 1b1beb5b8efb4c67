//! A session: edits of the source and of the key events, and questions about them.
ghost use Rattle.std.specs.Prelude.{◌≡◌, ◌<◌, ◌≤◌, ◌⊎◌, [], false, is_none, max, Err, None, Some, Ok, OnOk, OnErr, IfOk, IfErr, length, unwrap_or};
ghost use Rattle.std.specs.Str.Lines.{lines};
ghost use Rattle.chip_replay.specs.declared.limits.TheConstants.{LAST_STEP};
ghost use Rattle.chip_session.specs.Answers.{answer_to, machine_of, step_asked};
ghost use Rattle.chip_trace.specs.Difference.{IsComparison};
ghost use Rattle.chip_trace.specs.Lines.{TakesLines, remaining};
ghost use Rattle.chip_session.specs.IsAnswer.{IsTold, IsUnanswered};
ghost use Rattle.chip_session.specs.Pictures.{picture_asked};
ghost use Rattle.chip_asm.specs.Lines.{open_fault};
ghost use Rattle.chip_asm.specs.Program.{image_of};
ghost use Rattle.chip_asm.specs.Work.{accepted_of};
ghost use Rattle.chip_session.specs.Session.{session_of, edited, IsRefused};
ghost use Rattle.chip_session.specs.Edits.{edit_of};
ghost use Rattle.chip_session.specs.Costs.{Costs};
ghost use Rattle.chip_session.specs.Workbench.{run_of, Follows};
ghost use Rattle.chip_session.specs.Kept.{ReachesStep, Reuses, RunsOn, StaysIfRefused};

use crate::ask::answer;
use crate::edit::Edit;
use crate::image_run::ImageRun;
use crate::picture::{PictureForm, picture_at};
use crate::question::Question;
use crate::refusal::Refusal;
use crate::settings::Settings;
use chip_asm::{OpenError, Source};
use chip_lang::Meter;
use chip_machine::Quirks;
use chip_replay::AtError;
use chip_trace::{Difference, Trace};
use std::alloc::Global;
use std::marker::Model;
use std::mem::swap;

/// A bench: the current source, and the run of the last image that the source had.
pub struct Bench {
    source: Source,
    run: ImageRun,
    /// Scratch space for the next answer. Its contents have no meaning between calls.
    room: Vec<u8>,
}

// Dropping is one call. A derived `Drop` would be expanded, and proved, in every function that
// drops a bench.
impl Drop for Bench {
    fn drop(self) {
        let Bench {
            source: _,
            run: _,
            room: _,
        } = self;
    }
}

impl Model for Bench {
    ghost use Rattle.chip_asm.specs.Program.{image_of};
    ghost use Rattle.chip_session.specs.Kept.{IsLastImage};
    ghost use Rattle.chip_session.specs.Workbench.{Workbench, workbench};
    ghost use Rattle.chip_session.specs.inner.Codes.{workbench_code};

    ghost Value = { Workbench };

    ghost coded = { workbench_code };

    ghost view = { λ b. workbench b.source b.run };

    ghost invariant = { λ b. IsLastImage (image_of b.source.lines) b.run.last_image };
}

impl Bench {
    /// Opens a session on a source. A source opens unless it has too many lines or a line that is
    /// too long.
    ///
    /// # Errors
    ///
    /// The fault of the first line that is too long or one too many, or out of memory.
    pub fn open(alloc: Global, source: &[u8], settings: Settings) -> Result<Self, OpenError>
        ensures ok { IfOk result (λ bench. (open_fault source.now ≡ None)
            × (bench.session ≡ session_of settings source.now)) }
        ensures parsed { IfOk result (λ bench. bench.work.parsed ≡ length bench.session.lines) }
        ensures encoded { IfOk result (λ bench.
            bench.work.encoded ≤ accepted_of bench.session.lines) }
        ensures last_image { IfOk result (λ bench.
            bench.last_image ≡ unwrap_or (image_of bench.session.lines) []) }
        ensures ran { IfOk result (λ bench. bench.ran ≡ 0) }
        ensures err { IfErr result (λ e. (e ≡ OpenError.OutOfMemory)
            ⊎ (open_fault source.now ≡ Some e)) }
    {
        let bytes = Vec::from_slice(alloc, source)?;
        let source = Source::open_hashed(alloc, settings.names(), bytes)?;
        let mut run = ImageRun::new(alloc, settings)?;
        run.follow(None, source.image());
        Ok(Bench {
            source,
            run,
            room: Vec::new(alloc),
        })
    }

    /// Edits one line or one key event.
    ///
    /// # Errors
    ///
    /// The first refusal that applies, or out of memory. The session is then unchanged.
    pub fn apply(&mut self, alloc: Global, edit: &Edit<'_>) -> Result<(), Refusal>
        ensures ok { OnOk result (edited self.old.session (edit_of edit.now)
            ≡ Ok self.new.session) }
        ensures err { IfErr result (IsRefused self.old.session (edit_of edit.now)) }
        ensures same { OnErr result (self.new.session ≡ self.old.session) }
        ensures follows { OnOk result (Follows (edit_of edit.now) self.old self.new) }
        ensures last_image { OnErr result (self.new.last_image ≡ self.old.last_image) }
        ensures reach { OnErr result (self.new.reach ≡ self.old.reach) }
        ensures costs { Costs (edit_of edit.now) self.old.session.lines
            self.old.work self.new.work }
        ensures ran { self.new.ran ≡ self.old.ran }
    {
        let written = match *edit {
            Edit::Insert { line, text } => {
                self.source.insert(alloc, line as usize, text)?;
                None
            }
            Edit::Replace { line, text } => self.source.replace(alloc, line as usize, text)?,
            Edit::Delete { line } => {
                self.source.delete(alloc, line as usize)?;
                None
            }
            Edit::InsertKey { step, key, down } => {
                return Ok(self.run.insert_key(step, key, down)?);
            }
            Edit::ReplaceKey { step, key, down } => {
                return Ok(self.run.replace_key(step, key, down)?);
            }
            Edit::DeleteKey { step, key } => return Ok(self.run.delete_key(step, key)?),
        };
        self.run.follow(written, self.source.image());
        Ok(())
    }

    /// Appends the answer to a question.
    ///
    /// # Errors
    ///
    /// The first refusal that applies, or out of memory. `out` is then unchanged.
    pub fn ask(
        &mut self,
        alloc: Global,
        question: &Question,
        out: &mut Vec<u8>,
    ) -> Result<(), Refusal>
        ensures answer { IsTold (answer_to self.old.session question.now) result
            out.old.items out.new.items }
        ensures session { self.new.session ≡ self.old.session }
        ensures work { self.new.work ≡ self.old.work }
        ensures last_image { self.new.last_image ≡ self.old.last_image }
        ensures reuses { Reuses (step_asked question.now) result (run_of self.old)
            (run_of self.new) }
        ensures refused { StaysIfRefused result (run_of self.old) (run_of self.new) }
    {
        self.room.clear();
        answer(alloc, &self.source, &mut self.run, question, &mut self.room)?;
        if out.is_empty() {
            swap(out, &mut self.room);
            return Ok(());
        }
        match out.extend_from_slice(&self.room) {
            Ok(()) => Ok(()),
            Err(_) => Err(Refusal::AnswerMemory),
        }
    }

    /// Returns the picture of the screen at a step.
    ///
    /// # Errors
    ///
    /// The first refusal that applies, or out of memory.
    pub fn picture(
        &mut self,
        alloc: Global,
        form: PictureForm,
        step: u32,
    ) -> Result<Vec<u8>, Refusal>
        ensures picture { IfOk result (λ picture.
            picture_asked self.old.session form step ≡ Ok picture.items) }
        ensures err { IfErr result (IsUnanswered (picture_asked self.old.session form step)) }
        ensures session { self.new.session ≡ self.old.session }
        ensures work { self.new.work ≡ self.old.work }
        ensures last_image { self.new.last_image ≡ self.old.last_image }
        ensures reuses { ReachesStep step result (run_of self.old) (run_of self.new) }
        ensures refused { StaysIfRefused result (run_of self.old) (run_of self.new) }
    {
        picture_at(alloc, &self.source, &mut self.run, form, step)
    }

    /// Appends lines of a trace of the image's run to a text, like `Trace::push_lines`.
    ///
    /// # Errors
    ///
    /// Out of memory, or a step past the last one.
    pub fn push_trace(
        &mut self,
        trace: &mut Trace<'_>,
        text: &mut Vec<u8>,
        most: usize,
    ) -> Result<bool, AtError>
        requires { is_none (image_of self.old.session.lines) ≡ false }
        ensures lines { IfOk result (TakesLines (machine_of self.old.session) most trace.old
            trace.new text.old.items text.new.items) }
        ensures step_too_large { result ≡ Err AtError.StepTooLarge
            → LAST_STEP < max trace.old.next trace.old.to }
        ensures session { self.new.session ≡ self.old.session }
        ensures work { self.new.work ≡ self.old.work }
        ensures runs { RunsOn (run_of self.old) (run_of self.new) }
    {
        self.run.push_trace(trace, text, most)
    }

    /// Returns the first difference between the lines of the image's run and the lines of another
    /// trace.
    ///
    /// # Errors
    ///
    /// Out of memory, or a step past the last one.
    pub fn first_difference(
        &mut self,
        alloc: Global,
        trace: &mut Trace<'_>,
        theirs: &[u8],
    ) -> Result<Option<Difference>, AtError>
        requires { is_none (image_of self.old.session.lines) ≡ false }
        ensures found { IfOk result (IsComparison (remaining (machine_of self.old.session)
            trace.old) (lines theirs.now)) }
        ensures step_too_large { result ≡ Err AtError.StepTooLarge
            → LAST_STEP < max trace.old.next trace.old.to }
        ensures session { self.new.session ≡ self.old.session }
        ensures work { self.new.work ≡ self.old.work }
        ensures runs { RunsOn (run_of self.old) (run_of self.new) }
    {
        self.run.first_difference(alloc, trace, theirs)
    }

    /// The current source.
    pub fn source(&self) -> &Source
        ensures { result.now.lines ≡ self.now.session.lines }
    {
        &self.source
    }

    /// The quirks of the machine.
    pub fn quirks(&self) -> Quirks
        ensures { result ≡ self.now.session.settings.quirks }
    {
        self.run.quirks()
    }

    /// The number of lines read and encoded to open the source and to apply all edits since.
    pub fn work(&self) -> Meter
        ensures { result ≡ self.now.work }
    {
        self.source.work()
    }

    /// The step up to which the kept run is still valid.
    pub fn reach(&self) -> u32
        ensures { result ≡ self.now.reach }
    {
        self.run.reach()
    }

    /// The number of steps executed so far. The count stops at the greatest `u64`.
    pub fn ran(&self) -> u64
        ensures { result ≡ self.now.ran }
    {
        self.run.ran()
    }
}
