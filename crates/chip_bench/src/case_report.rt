//! The report on cases: which cases failed, and how many passed.

use crate::case_run::Verdict;
use crate::terminal::word_page;
use chip_cases::{Case, Given, Step, difference_text};
use chip_check::push_as_shown;
use chip_pages::page_on;
use itoa::Buffer;
use std::alloc::{AllocError, Global};
use std::fmt::Write;

/// The outcomes of cases, as text.
#[derive(Drop)]
pub(crate) struct Report {
    /// The text that is still to be printed.
    pub(crate) text: Vec<u8>,
    is_tap: bool,
    passed: u64,
    failed: u64,
}

impl Report {
    /// Returns a report without cases. If `is_tap` is true, the report uses the Test Anything Protocol.
    pub(crate) fn new(alloc: Global, is_tap: bool) -> Self {
        Report {
            text: Vec::new(alloc),
            is_tap,
            passed: 0,
            failed: 0,
        }
    }

    /// Appends the outcome of a case in a file. `fault` is the report of the source's first fault
    /// if an answer is that there is no image; otherwise it is empty.
    pub(crate) fn push_case(
        &mut self,
        alloc: Global,
        file: &str,
        case: &Case<'_>,
        verdict: &Verdict,
        fault: &[u8],
    ) -> Result<(), AllocError> {
        let has_passed = verdict.has_passed();
        if has_passed {
            self.passed = self.passed.saturating_add(1);
        } else {
            self.failed = self.failed.saturating_add(1);
        }
        if self.is_tap {
            self.push_tap_line(alloc, file, case, has_passed)?;
        }
        if !has_passed {
            let mut details = Vec::new(alloc);
            push_failure(alloc, &mut details, file, case, verdict)?;
            details.extend_from_slice(fault)?;
            // In the Test Anything Protocol, these lines are comments. Every line ends with a line feed.
            let mut start = 0;
            for (end, byte) in details.iter().enumerate() {
                if *byte == b'\n' {
                    if self.is_tap {
                        self.text.extend_from_slice(b"# ")?;
                    }
                    let line = details.get(start..end).unwrap_or(&[]);
                    push_as_shown(alloc, &mut self.text, line)?;
                    self.text.push(b'\n')?;
                    start = end + 1;
                }
            }
        }
        Ok(())
    }

    /// Appends how many cases passed and how many failed. In the Test Anything Protocol, appends
    /// the number of cases.
    pub(crate) fn push_counts(&mut self) -> Result<(), AllocError> {
        let mut passed = Buffer::new();
        let mut other = Buffer::new();
        if self.is_tap {
            let all = other.format(self.passed.saturating_add(self.failed));
            push_parts(&mut self.text, &[b"1..", all.as_bytes(), b"\n"])
        } else {
            let passed = passed.format(self.passed).as_bytes();
            let failed = other.format(self.failed).as_bytes();
            push_parts(
                &mut self.text,
                &[passed, b" passed, ", failed, b" failed\n"],
            )
        }
    }

    fn push_tap_line(
        &mut self,
        alloc: Global,
        file: &str,
        case: &Case<'_>,
        has_passed: bool,
    ) -> Result<(), AllocError> {
        let mut digits = Buffer::new();
        let number = digits.format(self.passed.saturating_add(self.failed));
        if !has_passed {
            self.text.extend_from_slice(b"not ")?;
        }
        self.text.extend_from_slice(b"ok ")?;
        self.text.extend_from_slice(number.as_bytes())?;
        self.text.extend_from_slice(b" - ")?;
        push_tap_text(alloc, &mut self.text, file.as_bytes())?;
        if !case.name.is_empty() {
            self.text.extend_from_slice(b": ")?;
            push_tap_text(alloc, &mut self.text, case.name)?;
        }
        self.text.push(b'\n')?;
        Ok(())
    }
}

// Appends a name to a line of the Test Anything Protocol, in which a number sign begins a directive
// unless a backslash precedes it.
fn push_tap_text(alloc: Global, text: &mut Vec<u8>, name: &[u8]) -> Result<(), AllocError> {
    let mut marked = Vec::new(alloc);
    for byte in name {
        if matches!(*byte, b'#' | b'\\') {
            marked.push(b'\\')?;
        }
        marked.push(*byte)?;
    }
    push_as_shown(alloc, text, &marked)
}

// Appends the reason why a case failed.
fn push_failure(
    alloc: Global,
    text: &mut Vec<u8>,
    file: &str,
    case: &Case<'_>,
    verdict: &Verdict,
) -> Result<(), AllocError> {
    match verdict {
        Verdict::Unopened(why) => {
            push_place(text, file, case.line, case.name)?;
            let why = format!(in alloc; "the source does not open: {why}\n")?;
            text.extend_from_slice(why.as_bytes())
        }
        Verdict::BadKeys(number, code) => {
            push_place(text, file, case.line, case.name)?;
            let why = format!(in alloc; "line {number} of the key events: {code}\n")?;
            text.extend_from_slice(why.as_bytes())
        }
        Verdict::Answered(others) => {
            for step in &case.steps {
                if let Some(given) = others.iter().find(|given| given.line == step.line) {
                    push_place(text, file, step.line, case.name)?;
                    push_other_answer(alloc, text, step, given)?;
                }
            }
            Ok(())
        }
    }
}

// Appends the place of a failure: the file, the line and the case.
fn push_place(text: &mut Vec<u8>, file: &str, line: usize, name: &[u8]) -> Result<(), AllocError> {
    let mut digits = Buffer::new();
    let number = digits.format(line as u64).as_bytes();
    push_parts(text, &[file.as_bytes(), b":", number, b": "])?;
    if !name.is_empty() {
        push_parts(text, &[b"case ", name, b": "])?;
    }
    Ok(())
}

// Appends a command, the reason if it was unexpectedly refused, and how its answer differs from the
// expected one.
fn push_other_answer(
    alloc: Global,
    text: &mut Vec<u8>,
    step: &Step<'_>,
    given: &Given,
) -> Result<(), AllocError> {
    text.extend_from_slice(step.command)?;
    if let [b'n', b'o', b' ', code @ .., b'\n'] = given.answer.as_slice()
        && given.is_refused
    {
        push_title(text, code, step.command)?;
    }
    text.push(b'\n')?;
    let difference = difference_text(alloc, &step.expected, &given.answer)?;
    text.extend_from_slice(&difference)
}

// Appends the meaning of a code, if it has a page. For C1, appends the form of the command that the first word names.
fn push_title(text: &mut Vec<u8>, code: &[u8], command: &[u8]) -> Result<(), AllocError> {
    let Ok(code) = str::from_utf8(code) else {
        return Ok(());
    };
    if let Some(page) = page_on(code) {
        text.extend_from_slice(b": refused, ")?;
        text.extend_from_slice(page.title.as_bytes())?;
    }
    if code == "C1"
        && let Some(page) = word_page(command)
    {
        push_parts(text, &[b": ", page.title.as_bytes()])?;
    }
    Ok(())
}

// Appends texts in order.
fn push_parts(text: &mut Vec<u8>, parts: &[&[u8]]) -> Result<(), AllocError> {
    for part in parts {
        text.extend_from_slice(part)?;
    }
    Ok(())
}
