//! Commands about key events and about the replay of a small machine, which chip_replay answers.
//!
//! - `keys`: starts again without key events. `toy SPACING`: builds the replay of a small machine whose
//!   memory contains only zeros, at the rate 10. `toy-image WAY`: builds such a replay with the spacing
//!   1000, queries its step 5000 and then changes its image. `whole` and `within` set the first byte to
//!   5, and `within` also states that only this byte changed. `same` changes no byte.
//! - `insert STEP KEY down|up`, `replace STEP KEY down|up`, `delete STEP KEY`: edits of the key
//!   events. The answer is `ok` or the refusal. `fill STEP KEY down|up` inserts an event at each
//!   step from 1 to STEP. `held STEP`: the keys that are down, as a number.
//! - `at STEP`: the sum of the small machine at a step. `at-each STEP` queries each step up to STEP.
//!   `counts`: the number of steps that the replay executed, the last known step, and the number of kept
//!   checkpoints. `made`: the number of steps that the machine and its copies executed. `is-counted`:
//!   whether the replay counts the same number.

ghost use Rattle.std.specs.Prelude.{◌≡◌, ◌≤◌, [], drop, IfOk};
ghost use Rattle.chip_replay.specs.Image.{padded};
ghost use Rattle.chip_replay.specs.Limits.{image_start};

use crate::output::{Refused, Reply};
use crate::text::{number, split_word};
use crate::toy::Toy;
use chip_replay::{KeyFault, Keys, LEAST_SPACING, MOST_SPACING, Replay, Traced};
use std::alloc::{AllocError, Global};
use std::cell::Cell;
use std::rc::Rc;

/// The replay of a small machine, and the number of steps that the machine and its copies executed.
#[derive(Drop)]
struct ToyRun {
    replay: Replay<Toy>,
    made: Rc<Cell<u64>>,
}

/// Key events, and the replay of a small machine. If there is a replay, commands apply to its key events.
#[derive(Drop)]
pub(crate) struct Run {
    keys: Keys,
    toy: Option<Box<ToyRun>>,
}

impl Run {
    pub(crate) fn new(alloc: Global) -> Run {
        Run {
            keys: Keys::new(alloc),
            toy: None,
        }
    }

    /// Answers a command.
    pub(crate) fn answer(
        &mut self,
        alloc: Global,
        out: &mut Reply,
        word: &str,
        rest: &str,
    ) -> Result<(), Refused> {
        match word {
            "keys" => *self = Run::new(alloc),
            "toy" => self.toy = Some(toy_run(alloc, number(rest).unwrap_or(0))?),
            "toy-image" => self.toy = Some(toy_with_image(alloc, rest)?),
            "insert" | "replace" | "delete" | "fill" => self.edit(out, word, rest)?,
            "held" => self.push_held(out, number(rest)?),
            _ => return self.answer_toy(out, word, rest),
        }
        Ok(())
    }

    /// Makes an edit, and appends `ok` or the refusal to the answer.
    fn edit(&mut self, out: &mut Reply, word: &str, rest: &str) -> Result<(), Refused> {
        let (step, rest) = split_word(rest);
        let (key, state) = split_word(rest);
        let (step, key) = (number(step)?, number(key)?);
        let made = match &mut self.toy {
            None => edit_keys(&mut self.keys, word, step, key, state == "down"),
            Some(toy) => edit_replay(&mut toy.replay, word, step, key, state == "down"),
        };
        match made {
            Ok(()) => out.text("ok"),
            Err(fault) => out.debug(&fault),
        }
        Ok(())
    }

    /// Appends the keys that are down at a step, as a number.
    fn push_held(&self, out: &mut Reply, step: u32) {
        let keys = match &self.toy {
            None => &self.keys,
            Some(toy) => toy.replay.keys(),
        };
        out.show(&keys.held(step));
    }

    /// Answers a command about the small machine.
    fn answer_toy(&mut self, out: &mut Reply, word: &str, rest: &str) -> Result<(), Refused> {
        let Some(toy) = &mut self.toy else {
            return Err(Refused::BadCommand);
        };
        let made = toy.made.get();
        let replay = &mut toy.replay;
        match word {
            "at" => {
                let step = number(rest)?;
                push_sum(out, replay, step, step);
            }
            "at-each" => push_sum(out, replay, 0, number(rest)?),
            "made" => out.show(&made),
            "is-counted" => out.show(&(replay.ran() == made)),
            "counts" => {
                let (ran, reach, kept) = (replay.ran(), replay.reach(), replay.kept());
                out.numbers(&[ran, u64::from(reach), kept as u64]);
            }
            _ => return Err(Refused::BadCommand),
        }
        Ok(())
    }
}

/// Makes an edit of key events.
fn edit_keys(keys: &mut Keys, word: &str, step: u32, key: u32, down: bool) -> Result<(), KeyFault> {
    match word {
        "insert" => keys.insert(step, key, down),
        "replace" => keys.replace(step, key, down),
        "delete" => keys.delete(step, key),
        _ => {
            for number in 1..=step {
                keys.insert(number, key, down)?;
            }
            Ok(())
        }
    }
}

/// Makes an edit of the key events of a replay.
pub(crate) fn edit_replay<M: Traced>(
    replay: &mut Replay<M>,
    word: &str,
    step: u32,
    key: u32,
    down: bool,
) -> Result<(), KeyFault> {
    match word {
        "insert" => replay.insert_key(step, key, down),
        "replace" => replay.replace_key(step, key, down),
        _ => replay.delete_key(step, key),
    }
}

/// Appends the sum at the last of these steps, or the first error at one of the steps.
fn push_sum(out: &mut Reply, replay: &mut Replay<Toy>, first: u32, last: u32) {
    let mut sum = 0;
    for step in first..=last {
        match replay.at(step) {
            Ok(state) => sum = state.sum(),
            Err(error) => return out.debug(&error),
        }
    }
    out.show(&sum);
}

/// Returns the replay of a small machine with this spacing of checkpoints, or with the nearest valid
/// spacing.
fn toy_run(alloc: Global, spacing: u32) -> Result<Box<ToyRun>, AllocError> {
    let made = Rc::new(alloc, Cell::new(0))?;
    let toy = Toy::new(alloc, made.clone()?)?;
    let spacing = spacing.max(LEAST_SPACING).min(MOST_SPACING);
    let replay = Replay::new(alloc, toy, 10, spacing)?;
    Ok(Box::new(alloc, ToyRun { replay, made })?)
}

/// Returns a replay that was queried at step 5000, and fails if the sum there is not 0.
fn asked(alloc: Global, made: Rc<Cell<u64>>) -> Result<Replay<Toy>, AllocError>
    ensures { IfOk result (λ replay. drop image_start replay.start.bytes ≡ padded []) }
{
    let toy = Toy::new(alloc, made)?;
    let mut replay = Replay::new(alloc, toy, 10, LEAST_SPACING)?;
    match replay.at(5000) {
        Ok(state) if state.sum() == 0 => Ok(replay),
        _ => Err(AllocError),
    }
}

/// Changes the empty image of a replay in one of the three ways of `toy-image`.
fn change_image(replay: &mut Replay<Toy>, way: &str)
    requires { drop image_start replay.old.start.bytes ≡ padded [] }
{
    match way {
        "whole" => replay.image_changed(&[], &[5]),
        "within" => replay.image_changed_within(0..1, &[], &[5]),
        _ => replay.image_changed_within(0..0, &[], &[]),
    }
}

/// Returns a replay that was queried at a step and whose image was then changed.
fn toy_with_image(alloc: Global, way: &str) -> Result<Box<ToyRun>, AllocError> {
    let made = Rc::new(alloc, Cell::new(0))?;
    let mut replay = asked(alloc, made.clone()?)?;
    change_image(&mut replay, way);
    Ok(Box::new(alloc, ToyRun { replay, made })?)
}
