//! The two formats in which findings in a source are printed.

ghost use Rattle.std.specs.Prelude.{◌≡◌, ◌≤◌, ◌++◌, OnOk, length};
ghost use Rattle.chip_check.specs.inner.Printing.{print_in};

use crate::finding::Finding;
use crate::json::push_object;
use crate::report::push_report;
use std::alloc::{AllocError, Global};

/// A format for findings.
#[derive(Clone, Copy)]
pub(crate) enum Form {
    /// Text, with the line and marks below each finding; coloured if `is_painted` is true.
    Text { is_painted: bool },
    /// A JSON object on a separate line.
    Json,
}

/// A format for findings, and the name of the file in which they were found.
#[derive(Clone, Copy)]
pub(crate) struct Style<'a> {
    pub(crate) form: Form,
    pub(crate) name: &'a [u8],
}

/// Adds a finding in a format. The finding lies in the line with this text and number.
pub(crate) fn push_finding(
    alloc: Global,
    text: &mut Vec<u8>,
    style: Style,
    number: usize,
    line: &[u8],
    finding: &Finding,
) -> Result<(), AllocError>
    requires rises { finding.now.span.start ≤ finding.now.span.end }
    requires inside { finding.now.span.end ≤ length line.now }
    ensures { OnOk result (text.new.items ≡ text.old.items
        ++ print_in style.entry.form style.entry.name.now number line.now finding.now.span
        finding.now.code.items finding.now.sentence.items finding.now.hints.items) }
{
    match style.form {
        Form::Text { is_painted } => {
            push_report(alloc, text, is_painted, style.name, number, line, finding)
        }
        Form::Json => push_object(alloc, text, style.name, number, finding),
    }
}
