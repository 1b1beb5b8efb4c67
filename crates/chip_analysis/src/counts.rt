//! The last lines of `prove`: how many facts were found, and how many states the searches kept.

ghost use Rattle.std.specs.Prelude.{◌≡◌, ◌++◌, [], IfOk, OnOk, false, option_map, true};
ghost use Rattle.chip_analysis.specs.Proving.{IsCounts, bound_member, facts_line, facts_member, short_member};
ghost use Rattle.chip_analysis.specs.inner.Counts.{counts_of, word_of};

use crate::exploring::push_line;
use crate::progress::Bound;
use chip_check::push_quoted;
use chip_trace::push_decimal;
use std::alloc::{AllocError, Global};

/// The numbers in the last lines of `prove`.
#[derive(Clone, Copy)]
pub(crate) struct Counts {
    /// The number of rows in the table of facts. None without facts, or if no property is asked for.
    pub(crate) facts: Option<u64>,
    /// The most states that a search kept.
    pub(crate) states: u64,
    /// Whether memory ran out in a search.
    pub(crate) is_short: bool,
    /// The bound of the first search that ended early, if one did.
    pub(crate) bound: Option<Bound>,
}

impl Counts {
    /// Returns the last lines as text, or as a JSON object for the source with this name.
    pub(crate) fn lines(
        self,
        alloc: Global,
        is_json: bool,
        name: &[u8],
    ) -> Result<Vec<u8>, AllocError>
        ensures { IfOk result (λ text. IsCounts is_json name.now self.is_short text.items) }
    {
        if is_json {
            self.object(alloc, name)
        } else {
            self.text(alloc)
        }
    }

    fn text(self, alloc: Global) -> Result<Vec<u8>, AllocError>
        ensures { IfOk result (λ text. text.items ≡ counts_of false [] self) }
    {
        let mut text = Vec::new(alloc);
        push_facts_line(&mut text, self.facts)?;
        push_line(&mut text, b"states ", self.states)?;
        Ok(text)
    }

    fn object(self, alloc: Global, name: &[u8]) -> Result<Vec<u8>, AllocError>
        ensures { IfOk result (λ text. text.items ≡ counts_of true name.now self) }
    {
        let mut text = Vec::new(alloc);
        text.extend_from_slice(b"{\"states\":")?;
        push_decimal(&mut text, self.states)?;
        push_facts(&mut text, self.facts)?;
        push_short(&mut text, self.is_short)?;
        push_bound(&mut text, self.bound)?;
        text.extend_from_slice(b",\"file\":")?;
        push_quoted(alloc, &mut text, name)?;
        text.extend_from_slice(b"}\n")?;
        Ok(text)
    }
}

fn push_facts_line(text: &mut Vec<u8>, facts: Option<u64>) -> Result<(), AllocError>
    ensures { OnOk result (text.new.items ≡ text.old.items ++ facts_line facts) }
{
    if let Some(rows) = facts {
        push_line(text, b"facts ", rows)?;
    }
    Ok(())
}

fn push_facts(text: &mut Vec<u8>, facts: Option<u64>) -> Result<(), AllocError>
    ensures { OnOk result (text.new.items ≡ text.old.items ++ facts_member facts) }
{
    if let Some(rows) = facts {
        text.extend_from_slice(b",\"facts\":")?;
        push_decimal(text, rows)?;
    }
    Ok(())
}

fn push_short(text: &mut Vec<u8>, is_short: bool) -> Result<(), AllocError>
    ensures { OnOk result (text.new.items ≡ text.old.items ++ short_member is_short) }
{
    if is_short {
        text.extend_from_slice(b",\"out_of_memory\":true")?;
    }
    Ok(())
}

fn push_bound(text: &mut Vec<u8>, bound: Option<Bound>) -> Result<(), AllocError>
    ensures { OnOk result (text.new.items
        ≡ text.old.items ++ bound_member (option_map word_of bound)) }
{
    if let Some(bound) = bound {
        text.extend_from_slice(b",\"ended_by\":\"")?;
        text.extend_from_slice(bound.word())?;
        text.extend_from_slice(b"\"")?;
    }
    Ok(())
}
