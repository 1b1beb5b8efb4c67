//! Commands about all states that a machine may reach, which chip_facts answers.
//!
//! - `facts MACHINE BYTES`: the facts about all states that a machine with this image may reach: the
//!   address and the cause of each stop that isn't excluded, and the number of addresses at which steps may
//!   be executed. MACHINE is as in `start`. The answer is `unknown` if no facts are found.
//! - `executed MACHINE BYTES`: the addresses at which steps may be executed, or `unknown`.

use crate::machine::quirks_named;
use crate::output::{Refused, Reply};
use crate::text::{bytes_of_hex, split_word};
use chip_facts::{Facts, facts_of};
use chip_lang::limits::IMAGE_BYTES;
use std::alloc::Global;

/// The maximum number of steps that the search makes.
const MOST_STEPS: usize = 400_000;

/// Answers a command.
pub(crate) fn answer(
    alloc: Global,
    out: &mut Reply,
    word: &str,
    rest: &str,
) -> Result<(), Refused> {
    if word != "facts" && word != "executed" {
        return Err(Refused::BadCommand);
    }
    let (machine, image) = split_word(rest);
    let Some(quirks) = quirks_named(machine) else {
        return Err(Refused::BadCommand);
    };
    let image = bytes_of_hex(alloc, image)?;
    if image.len() > IMAGE_BYTES {
        return Err(Refused::BadCommand);
    }
    match facts_of(alloc, &image, quirks, MOST_STEPS)? {
        Some(facts) if word == "facts" => push_facts(out, &facts),
        Some(facts) => push_executed(out, &facts),
        None => out.text("unknown"),
    }
    Ok(())
}

fn push_facts(out: &mut Reply, facts: &Facts) {
    for left in &facts.left {
        out.show(&format_args!("{:03x} S{} ", left.pc, left.stop.number()));
    }
    let mut executed: u32 = 0;
    for is_executed in &facts.executed {
        if *is_executed {
            executed = executed.saturating_add(1);
        }
    }
    out.show(&format_args!("executed {executed}"));
}

fn push_executed(out: &mut Reply, facts: &Facts) {
    for (at, is_executed) in facts.executed.iter().enumerate() {
        if *is_executed {
            out.show(&format_args!("{at:03x} "));
        }
    }
}
