//! The picture of the screen at a step.

ghost use Rattle.std.specs.Prelude.{◌≡◌, IfErr, IfOk, Ok, Some};
ghost use Rattle.chip_asm.specs.Program.{image_of};
ghost use Rattle.chip_session.specs.IsAnswer.{IsUnanswered};
ghost use Rattle.chip_session.specs.Kept.{IsLastImage, session_on};
ghost use Rattle.chip_session.specs.Pictures.{picture_asked, picture_by};
ghost use Rattle.chip_session.specs.inner.InStep.{GoesOn};

use crate::image_run::ImageRun;
use crate::refusal::Refusal;
use chip_asm::Source;
use chip_machine::Machine;
use chip_replay::LAST_STEP;
use chip_views::{
    Letters, screen_pbm, screen_pbm_scaled, screen_png, screen_png_scaled, screen_text,
};
use std::alloc::{AllocError, Global};

/// The format of a picture of the screen.
#[derive(Clone, Copy, PartialEq, Eq)]
pub enum PictureForm {
    /// Text, with two pixels per character.
    Text(Letters),
    /// A portable bitmap.
    Bitmap,
    /// A PNG file.
    Png,
    /// A portable bitmap in which each pixel of the screen is this many pixels wide and high.
    ScaledBitmap(u32),
    /// A PNG file in which each pixel of the screen is this many pixels wide and high.
    ScaledPng(u32),
}

/// Returns the picture of a machine's screen.
pub(crate) fn picture(
    alloc: Global,
    machine: &Machine,
    form: PictureForm,
) -> Result<Vec<u8>, AllocError>
    ensures { IfOk result (λ picture. picture.items ≡ picture_by form machine.now) }
{
    match form {
        PictureForm::Text(letters) => screen_text(alloc, machine, letters),
        PictureForm::Bitmap => screen_pbm(alloc, machine),
        PictureForm::Png => screen_png(alloc, machine),
        PictureForm::ScaledBitmap(scale) => screen_pbm_scaled(alloc, machine, scale),
        PictureForm::ScaledPng(scale) => screen_png_scaled(alloc, machine, scale),
    }
}

/// Returns the picture of the screen at a step of the image's run.
pub(crate) fn picture_at(
    alloc: Global,
    source: &Source,
    run: &mut ImageRun,
    form: PictureForm,
    step: u32,
) -> Result<Vec<u8>, Refusal>
    requires { IsLastImage (image_of source.now.lines) run.old.last_image }
    ensures picture { IfOk result (λ picture.
        picture_asked (session_on source.now.lines run.old) form step ≡ Ok picture.items) }
    ensures refused { IfErr result
        (IsUnanswered (picture_asked (session_on source.now.lines run.old) form step)) }
    ensures run { GoesOn (Some step) result run.old run.new }
{
    if source.image().is_none() {
        return Err(Refusal::NoImage);
    }
    if step > LAST_STEP {
        return Err(Refusal::StepPastLast);
    }
    match run.picture(alloc, form, step) {
        Ok(picture) => Ok(picture),
        Err(_) => Err(Refusal::AnswerMemory),
    }
}
