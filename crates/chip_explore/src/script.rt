//! A key script, written as events.

use crate::finder::{Finder, Origin};
use chip_replay::KEYS;
use std::alloc::{AllocError, Global};

/// A key that goes down or up at a step.
#[derive(Clone, Copy)]
pub struct KeyEvent {
    pub step: u32,
    /// The key, 0 to 15.
    pub key: u32,
    pub down: bool,
}

/// Returns the steps with some keys down on the way to a state of this origin, the last step first.
fn presses(alloc: Global, finder: &Finder, last: Origin) -> Result<Vec<Origin>, AllocError> {
    let mut presses = Vec::new(alloc);
    let mut origin = last;
    for _state in 0..=finder.origins.len() {
        let Some(parent) = origin.parent() else {
            return Ok(presses);
        };
        if origin.keys != 0 {
            presses.push(origin)?;
        }
        let Some(before) = finder.origins.get(parent) else {
            return Ok(presses);
        };
        origin = *before;
    }
    Ok(presses)
}

/// Adds the events of a press: its keys go down, and up one step later. If an earlier event
/// releases a key at the step of the press, that event is removed instead, and the key stays down.
fn push_press(events: &mut Vec<KeyEvent>, press: Origin) -> Result<(), AllocError> {
    let step = press.step;
    for key in 0..KEYS {
        if press.keys >> key & 1 == 1 {
            let last = events.last();
            let holds_on = last.is_some_and(|event| event.step == step && event.key == key);
            if holds_on {
                let _up = events.pop();
            } else {
                events.push(KeyEvent {
                    step,
                    key,
                    down: true,
                })?;
            }
            events.push(KeyEvent {
                step: step.wrapping_add(1),
                key,
                down: false,
            })?;
        }
    }
    Ok(())
}

/// Returns the key events on the way to a state of this origin.
pub(crate) fn script_to(
    alloc: Global,
    finder: &Finder,
    last: Origin,
) -> Result<Vec<KeyEvent>, AllocError> {
    let presses = presses(alloc, finder, last)?;
    let mut events = Vec::new(alloc);
    for press in presses.iter().rev() {
        push_press(&mut events, *press)?;
    }
    Ok(events)
}
