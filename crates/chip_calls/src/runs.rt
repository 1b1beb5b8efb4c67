//! `runs SEED COUNT` builds replays of COUNT generated programs, whose seeds are SEED and the numbers
//! after SEED. The command queries each replay at steps in any order, with edits of key events
//! between the queries. Each answer must be the state of a machine that executes every step from the
//! start. The command answers `ok` with the count, or the first difference.

use crate::edits::next;
use crate::output::{Refused, Reply};
use crate::replay::edit_replay;
use crate::state::stop_number;
use crate::text::{number, split_word};
use chip_machine::{Machine, Profile, Touch};
use chip_replay::{LEAST_SPACING, Replay};
use std::alloc::{AllocError, Global};

/// The number of times that each program gets some edits and then a query.
const COMMANDS: u32 = 12;

/// The first step of a query is below this number, which is past a checkpoint.
const STEPS: u32 = 2000;

/// The number of successive steps in a query.
const NEAR: u32 = 4;

/// The number of keys that have events. The steps of events are multiples of `APART`.
const KEYS: u32 = 4;

const APART: u32 = 16;

/// A replay, and the parts that it was built from, with the edits so far.
#[derive(Drop)]
struct Run {
    start: Box<Machine>,
    rate: u32,
    /// The event of each key at each step that can have events: whether the key is down from then on.
    events: Vec<Option<bool>>,
    replay: Replay<Machine>,
}

/// The words of each kind: the first word, the distance from one word to the next, the number of words,
/// and the distance from the words of one register to those of the next. There are 16 registers. Most
/// words are instructions that stay in the program, write into it or read the keys.
const WORDS: &[(u32, u32, u32, u32)] = &[
    (0x6000, 1, 0x1000, 0),
    (0x6000, 1, 0x1000, 0),
    (0x7000, 1, 0x1000, 0),
    (0x7000, 1, 0x1000, 0),
    (0x8000, 1, 0x1000, 0),
    (0x3000, 1, 0x1000, 0),
    (0xa200, 1, 0x30, 0),
    (0xa200, 1, 0x30, 0),
    (0xc000, 1, 0x1000, 0),
    (0xd000, 1, 0x1000, 0),
    (0x1200, 2, 0x18, 0),
    (0x1200, 2, 0x18, 0),
    (0x2200, 2, 0x18, 0),
    (0xf055, 0x100, 3, 0),
    (0xf065, 0x100, 3, 0),
    (0xf033, 0x100, 16, 0),
    (0xe09e, 3, 2, 0x100),
    (0xe09e, 3, 2, 0x100),
    (0xf00a, 0x100, 16, 0),
    (0xf007, 0x100, 16, 0),
];

/// Returns a word of a kind, chosen by these digits.
fn word_of(kind: u32, digits: u32) -> u16 {
    let (first, apart, count, register) = match WORDS.get((kind % 20) as usize) {
        Some(words) => *words,
        None => (0, 0, 1, 0),
    };
    let place = apart.wrapping_mul(digits % count.max(1));
    let of_register = register.wrapping_mul(digits / 2 % 16);
    (first.wrapping_add(place).wrapping_add(of_register) % 65_536) as u16
}

/// Returns a machine with a generated program.
fn some_machine(alloc: Global, state: &mut u32) -> Result<Box<Machine>, AllocError> {
    let mut image = Vec::new(alloc);
    for _ in 0..24u32 {
        let kind = next(state);
        image.extend_from_slice(&word_of(kind, next(state)).to_be_bytes())?;
    }
    match Machine::start(alloc, &image, &[0xa5, 0x5a], Profile::Schip) {
        Ok(machine) => Ok(Box::new(alloc, machine)?),
        Err(_) => Err(AllocError),
    }
}

/// Returns a run of a generated program.
fn opened(alloc: Global, state: &mut u32) -> Result<Box<Run>, AllocError> {
    let events = vec![in alloc; None; (STEPS / APART * KEYS) as usize]?;
    let start = some_machine(alloc, state)?;
    let rate = 1 + next(state) % 12;
    let replay = Replay::new(alloc, start.copy_of()?, rate, LEAST_SPACING)?;
    let run = Run {
        start,
        rate,
        events,
        replay,
    };
    Ok(Box::new(alloc, run)?)
}

/// Returns the keys that are down in a step, given the keys that were down in the step before it.
fn keys_in_step(events: &[Option<bool>], step: u32, before: u16) -> u16 {
    let mut keys = before;
    if step % APART == 0 {
        for key in 0..KEYS {
            match events.get((step / APART) as usize * KEYS as usize + key as usize) {
                Some(Some(true)) => keys |= 1 << key,
                Some(Some(false)) => keys &= !(1 << key),
                _ => {}
            }
        }
    }
    keys
}

/// Whether two machines are in the same state.
fn are_alike(one: &Machine, other: &Machine) -> bool {
    for row in 0..64 {
        if one.row(row) != other.row(row) {
            return false;
        }
    }
    counts(one) == counts(other) && have_same_lists(one, other)
}

fn have_same_lists(one: &Machine, other: &Machine) -> bool {
    (one.registers() == other.registers())
        & (one.frames() == other.frames())
        & (one.flags() == other.flags())
        & (one.memory() == other.memory())
}

/// Returns the counters and the timers of a machine, whether its screen has the high size, and the
/// number of its stop cause.
fn counts(machine: &Machine) -> [u64; 7] {
    [
        u64::from(machine.pc()),
        u64::from(machine.index()),
        machine.draws(),
        u64::from(machine.delay()),
        u64::from(machine.sound()),
        u64::from(machine.high()),
        u64::from(stop_number(machine)),
    ]
}

/// Whether, for `NEAR` steps from `first` on, the replay returns the states of a machine that executes
/// each step.
fn answers_from(run: &mut Run, first: u32) -> Result<bool, AllocError> {
    let mut machine = run.start.copy_of()?;
    let mut touch = Touch::new();
    let mut keys = 0;
    for step in 0..first.saturating_add(NEAR) {
        if step >= first && !is_at(&mut run.replay, step, &machine) {
            return Ok(false);
        }
        keys = keys_in_step(&run.events, step, keys);
        machine.step(keys, (step + 1) % run.rate.max(1) == 0, &mut touch);
    }
    Ok(true)
}

/// Whether the replay returns the state of this machine at a step.
fn is_at(replay: &mut Replay<Machine>, step: u32, machine: &Machine) -> bool {
    match replay.at(step) {
        Ok(state) => are_alike(state, machine),
        Err(_) => false,
    }
}

/// Makes a generated edit of a key event, and returns whether it was accepted. If there already is
/// an event, the edit replaces or deletes the event.
fn edit(run: &mut Run, state: &mut u32) -> bool {
    let step = next(state) % STEPS / APART * APART;
    let key = next(state) % KEYS;
    let down = next(state) % 3 != 0;
    let place = (step / APART * KEYS + key) as usize;
    let Some(event) = run.events.get_mut(place) else {
        return false;
    };
    let word = if event.is_none() {
        *event = Some(down);
        "insert"
    } else if next(state) % 2 == 0 {
        *event = None;
        "delete"
    } else {
        *event = Some(down);
        "replace"
    };
    edit_replay(&mut run.replay, word, step, key, down).is_ok()
}

/// Makes some edits, and returns whether all edits were accepted and the replay then answers correctly.
fn goes_on(run: &mut Run, state: &mut u32) -> Result<bool, AllocError> {
    for _ in 0..next(state) % 4 {
        if !edit(run, state) {
            return Ok(false);
        }
    }
    answers_from(run, next(state) % STEPS)
}

/// Makes the run of a seed, and returns the number, counted from 0, of the first command after which
/// an answer differs.
fn first_difference(alloc: Global, seed: u32) -> Result<Option<u32>, AllocError> {
    let mut state = seed;
    let mut run = opened(alloc, &mut state)?;
    for command in 0..COMMANDS {
        if !goes_on(&mut *run, &mut state)? {
            return Ok(Some(command));
        }
    }
    Ok(None)
}

/// Answers `runs`.
pub(crate) fn answer(alloc: Global, out: &mut Reply, rest: &str) -> Result<(), Refused> {
    let (first, count) = split_word(rest);
    let (first, count) = (number(first)?, number(count)?);
    for place in 0..count {
        let seed = first.wrapping_add(place);
        if let Some(command) = first_difference(alloc, seed)? {
            out.show(&format_args!("differs at command {command} of seed {seed}"));
            return Ok(());
        }
    }
    out.show(&format_args!("ok {count}"));
    Ok(())
}
