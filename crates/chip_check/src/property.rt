//! Prints the fault of a property that can't be read.

ghost use Rattle.std.specs.Prelude.{◌≡◌, ◌≤◌, ◌++◌, ◌∷◌, ℕ, IfOk, List, OnOk, length};
ghost use Rattle.std.specs.Fmt.{decimal};
ghost use Rattle.chip_properties.specs.Faults.{number_of_property_fault, sentence_of_property_fault};
ghost use Rattle.chip_check.specs.PropertyFaults.{IsPropertyFault, inside_line, printed_as};

use crate::finding::Finding;
use crate::hint::push_help;
use crate::printing::{Form, Style, push_finding};
use chip_lang::Span;
use chip_properties::PropertyFault;
use std::alloc::{AllocError, Global};

/// Adds the fault of a property that can't be read, as `check` prints it: as text, or as a JSON
/// object. The property lies in this line of the file with this name. A property outside a file has
/// the line number 1. A place beyond the end of the line is moved to that end.
///
/// # Errors
///
/// Out of memory.
pub fn push_property_fault(
    alloc: Global,
    text: &mut Vec<u8>,
    is_json: bool,
    name: &[u8],
    line: &[u8],
    fault: &PropertyFault,
) -> Result<(), AllocError>
    ensures { OnOk result ((added : List ℕ) × IsPropertyFault (printed_as is_json name.now) line.now
        fault.now added × (text.new.items ≡ text.old.items ++ added)) }
{
    let form = if is_json {
        Form::Json
    } else {
        Form::Text { is_painted: false }
    };
    let finding = Finding::of_property(alloc, line, fault)?;
    let number = fault.line.max(1);
    push_finding(alloc, text, Style { form, name }, number, line, &finding)
}

impl Finding {
    /// The finding for a property that can't be read, with its place and help.
    fn of_property(alloc: Global, line: &[u8], fault: &PropertyFault) -> Result<Finding, AllocError>
        ensures span { IfOk result (λ finding. finding.span ≡ inside_line fault.now.span line.now) }
        ensures rises { IfOk result (λ finding. finding.span.start ≤ finding.span.end) }
        ensures inside { IfOk result (λ finding. finding.span.end ≤ length line.now) }
        ensures code { IfOk result (λ finding.
            finding.code.items ≡ 80 ∷ decimal (number_of_property_fault fault.now.code)) }
        ensures sentence { IfOk result (λ finding.
            finding.sentence.items ≡ sentence_of_property_fault fault.now.code) }
    {
        let end = fault.span.end.min(line.len());
        let start = fault.span.start.min(end);
        let mut hints = Vec::new(alloc);
        if !fault.help.is_empty() {
            push_help(alloc, &mut hints, &[&fault.help])?;
        }
        let number = fault.code.number();
        Ok(Finding {
            span: Span { start, end },
            code: format!(in alloc; "P{number}")?.into_bytes(),
            sentence: Vec::from_slice(alloc, fault.code.sentence())?,
            hints,
        })
    }
}
