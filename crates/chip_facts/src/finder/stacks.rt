//! The call stacks of the rows of a search. Each one has a number, so that comparing two is fast.

use crate::outcome::Way;
use std::alloc::{AllocError, Global};

/// The number that stands for no call stack.
const NO_STACK: u32 = u32::MAX;

/// The maximum number of call stacks of a search.
const MOST_STACKS: usize = 2_000;

/// A call stack.
#[derive(Clone, Copy)]
struct Stack {
    /// The number of the call stack without the newest return address. The empty call stack is its own caller.
    caller: u32,
    back: u16,
    /// The number of one call stack with one more return address, and the number of another call stack with
    /// the same caller.
    callee: u32,
    other: u32,
}

/// The call stacks of a search. The empty call stack has number 0.
#[derive(Drop)]
pub(crate) struct Stacks {
    list: Vec<Stack>,
}

impl Stacks {
    pub(crate) fn new(alloc: Global) -> Result<Stacks, AllocError> {
        let empty = Stack {
            caller: 0,
            back: 0,
            callee: NO_STACK,
            other: NO_STACK,
        };
        let mut list = Vec::new(alloc);
        list.push(empty)?;
        Ok(Stacks { list })
    }

    fn get(&self, number: u32) -> Option<Stack> {
        self.list.get(number as usize).copied()
    }

    /// Returns the number of the call stack after a step, or `None` if there are too many call stacks.
    pub(crate) fn after(&mut self, number: u32, way: Way) -> Result<Option<u32>, AllocError> {
        match way {
            Way::Same => Ok(Some(number)),
            Way::Return => Ok(self.get(number).map(|stack| stack.caller)),
            Way::Call(back) => self.called(number, back),
        }
    }

    /// Returns the number of the call stack with one more return address, or `None` if there are too many call
    /// stacks.
    fn called(&mut self, caller: u32, back: u16) -> Result<Option<u32>, AllocError> {
        let Some(first) = self.get(caller) else {
            return Ok(None);
        };
        let mut number = first.callee;
        for _ in 0..self.list.len() {
            let Some(stack) = self.get(number) else {
                break;
            };
            if stack.back == back {
                return Ok(Some(number));
            }
            number = stack.other;
        }
        let new = self.list.len();
        if new >= MOST_STACKS {
            return Ok(None);
        }
        self.list.push(Stack {
            caller,
            back,
            callee: NO_STACK,
            other: first.callee,
        })?;
        if let Some(stack) = self.list.get_mut(caller as usize) {
            stack.callee = new as u32;
        }
        Ok(Some(new as u32))
    }
}
