//! The warnings of a source.

ghost use Rattle.std.specs.Prelude.{◌≡◌, ◌++◌, ◌&&◌, IfOk, IsSome, OnOk, None, [], All, false, map, not, true};
ghost use Rattle.chip_asm.specs.Program.{image_of};
ghost use Rattle.chip_warnings.specs.Warned.{has_warning, kinds_on, kinds_told, warned};
ghost use Rattle.chip_warnings.specs.inner.Noted.{marked_in};
ghost use Rattle.chip_warnings.specs.Warnings.{StandsAt, StandsIn, Adds, is_switched_off};

use crate::asked::Asked;
use crate::flow::Flow;
use crate::marks::Marks;
use crate::seen::Seen;
use crate::survey::Survey;
use crate::text::{fault_there, help, sentence};
use crate::warning::{CODES, Warning, WarningCode};
use chip_asm::{LineView, Source};
use chip_lang::Span;
use chip_properties::{PropertyFault, properties_of};
use std::alloc::{AllocError, Global};

/// Returns the warnings of a source in the order of its lines, or no warnings if a line has a fault. The
/// warnings include P1 to P6, which are about properties that can't be read. The caller must pass
/// `asked.coverage` and `asked.reachable` for the source's image.
///
/// # Errors
///
/// Out of memory.
pub fn warnings(
    alloc: Global,
    source: &Source,
    asked: Asked<'_>,
) -> Result<Vec<Warning>, AllocError>
    ensures places { IfOk result
        (λ warnings. All (StandsIn asked.entry.allowed source.now.lines) warnings.items) }
    ensures faulty { IfOk result
        (λ warnings. image_of source.now.lines ≡ None → warnings.items ≡ []) }
    ensures told { IfOk result (λ warnings. IsSome (image_of source.now.lines)
        → kinds_told warnings.items ≡ warned asked.entry source.now.lines) }
{
    let mut warnings = Vec::new(alloc);
    if source.image().is_none() {
        return Ok(warnings);
    }
    let survey = Survey::of(alloc, source)?;
    let properties = properties_of(alloc, source)?;
    let mut flow = Flow::start();
    let mut faults = properties.faults.as_slice();
    for place in 0..source.lines() {
        if let Some(line) = source.line(place + 1) {
            let seen = survey.line(place);
            let judge = Judge {
                marks: &survey.marks,
                flow: &flow,
                asked,
            };
            judge.push_warnings(alloc, &mut warnings, &line, &seen)?;
            faults = judge.push_fault_at(alloc, &mut warnings, faults, &line)?;
            flow = flow.after(&survey.marks, &seen);
        }
    }
    Ok(warnings)
}

/// Everything that the warnings of a line depend on, except the line itself.
#[derive(Clone, Copy)]
pub(crate) struct Judge<'a> {
    pub(crate) marks: &'a Marks,
    pub(crate) flow: &'a Flow,
    pub(crate) asked: Asked<'a>,
}

impl<'a> Judge<'a> {
    /// Adds the warnings of a line.
    fn push_warnings(
        &self,
        alloc: Global,
        warnings: &mut Vec<Warning>,
        line: &LineView<'_>,
        seen: &Seen,
    ) -> Result<(), AllocError>
        ensures adds { OnOk result
            (Adds (StandsAt self.now.asked.allowed line.now.number line.now.text)
            warnings.old.items warnings.new.items) }
        ensures told { OnOk result (kinds_told warnings.new.items
            ≡ kinds_told warnings.old.items ++ map (λ kind. (line.now.number, kind))
            (kinds_on self.now.asked (marked_in self.now.marks.now) self.now.flow.now seen.now)) }
    {
        for code in CODES {
            if self.has(*code, seen) {
                let warning = self.warning(alloc, *code, line, seen)?;
                warnings.push(warning)?;
            }
        }
        Ok(())
    }

    /// Whether a line has a warning of a kind that isn't switched off.
    fn has(&self, code: WarningCode, seen: &Seen) -> bool
        ensures told { result ≡ true → is_switched_off self.now.asked.allowed code ≡ false }
        ensures value { result ≡ (not (is_switched_off self.now.asked.allowed code)
            && has_warning self.now.asked (marked_in self.now.marks.now) self.now.flow.now
            seen.now code) }
    {
        !code.is_switched_off(self.asked.allowed)
            && self.flow.has(code, &self.asked, self.marks, seen)
    }

    /// Returns the warning of the kind `code` for a line.
    fn warning(
        &self,
        alloc: Global,
        code: WarningCode,
        line: &LineView<'_>,
        seen: &Seen,
    ) -> Result<Warning, AllocError>
        requires { is_switched_off self.now.asked.allowed code ≡ false }
        ensures stands { IfOk result
            (StandsAt self.now.asked.allowed line.now.number line.now.text) }
        ensures kind { IfOk result (λ warning. warning.code ≡ code) }
    {
        let span = line.span_of(alloc, fault_there(code))?;
        let sentence = sentence(alloc, code, line.text(), span, seen, self)?;
        let help = Vec::from_slice(alloc, help(code))?;
        Ok(Warning {
            line: line.number(),
            span,
            code,
            sentence,
            help,
        })
    }

    /// Adds the first of the property faults `faults` if that fault is on the line. Returns the
    /// remaining faults, which are on later lines.
    #[tactic(auto, using(crate::proofs::Placed::adds_none))]
    fn push_fault_at<'b>(
        &self,
        alloc: Global,
        warnings: &mut Vec<Warning>,
        faults: &'b [PropertyFault],
        line: &LineView<'_>,
    ) -> Result<&'b [PropertyFault], AllocError>
        ensures adds { OnOk result
            (Adds (StandsAt self.now.asked.allowed line.now.number line.now.text)
            warnings.old.items warnings.new.items) }
        ensures told { OnOk result
            (kinds_told warnings.new.items ≡ kinds_told warnings.old.items) }
    {
        let Some((fault, later)) = faults.split_first() else {
            return Ok(faults);
        };
        if fault.line != line.number() {
            return Ok(faults);
        }
        self.push_fault(alloc, warnings, fault, line)?;
        Ok(later)
    }

    /// Adds the fault of a property on the line, unless warnings with the fault's code are switched off.
    #[tactic(auto, using(crate::proofs::Placed::adds_none))]
    fn push_fault(
        &self,
        alloc: Global,
        warnings: &mut Vec<Warning>,
        fault: &PropertyFault,
        line: &LineView<'_>,
    ) -> Result<(), AllocError>
        ensures adds { OnOk result
            (Adds (StandsAt self.now.asked.allowed line.now.number line.now.text)
            warnings.old.items warnings.new.items) }
        ensures told { OnOk result
            (kinds_told warnings.new.items ≡ kinds_told warnings.old.items) }
    {
        let code = WarningCode::Property(fault.code);
        if code.is_switched_off(self.asked.allowed) {
            return Ok(());
        }
        let end = fault.span.end.min(line.text().len());
        let warning = Warning {
            line: line.number(),
            span: Span {
                start: fault.span.start.min(end),
                end,
            },
            code,
            sentence: Vec::from_slice(alloc, fault.code.sentence())?,
            help: Vec::from_slice(alloc, &fault.help)?,
        };
        warnings.push(warning)?;
        Ok(())
    }
}
