//! What results that were taken leave, to be let go while nothing is held.

use crate::parts::Solved;
use operators::Operator;
use std::alloc::Global;

/// So much is kept at most. What is left beyond that is let go at once.
const MOST: usize = 64;

/// What results that were taken leave: records that were worked, states that were expected, and
/// states that tasks had before, which may own memory. Whoever holds it lets them go when he likes.
#[derive(Drop)]
pub struct Leavings<O: Operator> {
    solved: Vec<Solved<O, O::Key, O::State, O::Record>>,
}

impl<O: Operator> Leavings<O> {
    /// Nothing. It takes no memory.
    pub fn new(alloc: Global) -> Self {
        Leavings {
            solved: Vec::new(alloc),
        }
    }

    /// Keeps what is left of a result, with the states that a task had, if there is room for it.
    pub(crate) fn keep(&mut self, solved: Solved<O, O::Key, O::State, O::Record>) {
        if self.solved.len() < MOST {
            let _ = self.solved.push(solved);
        }
    }

    /// Lets all of it go, and keeps the room.
    pub fn let_go(&mut self) {
        self.solved.clear();
    }
}
