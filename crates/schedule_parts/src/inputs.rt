//! The inputs of a task that may have something.

use std::alloc::{AllocError, Global};
use std::collections::VecDeque;

/// An input of a task.
#[derive(Clone, Copy, PartialEq, Eq, Debug)]
pub struct Place {
    /// The task.
    pub task: u32,
    /// Its input, from 0.
    pub input: u32,
}

/// An input that was marked so often since it was last found without a record is full.
const FULL: u32 = 4;

/// A task's inputs that may have something, and those that wait for the barriers of others.
#[derive(Drop)]
pub struct Inputs {
    /// In turn, each at most once.
    ready: VecDeque<u32>,
    /// Each at most once.
    blocked: VecDeque<u32>,
    /// Of each input, whether it is in one of the two.
    listed: Vec<bool>,
    /// Of each input, how often its sender has marked it since it was last found without a record.
    batches: Vec<u32>,
    /// How many are full.
    full: u32,
}

impl Inputs {
    /// So many inputs, of which none has anything.
    pub fn new(alloc: Global, count: usize) -> Result<Inputs, AllocError> {
        let mut listed = Vec::new(alloc);
        listed.resize(count, false)?;
        let mut batches = Vec::new(alloc);
        batches.resize(count, 0)?;
        Ok(Inputs {
            ready: VecDeque::with_capacity(alloc, count)?,
            blocked: VecDeque::with_capacity(alloc, count)?,
            listed,
            batches,
            full: 0,
        })
    }

    /// The input whose turn it is.
    pub fn first(&self) -> Option<u32> {
        self.ready.front().copied()
    }

    /// Whether none may have something.
    pub fn is_empty(&self) -> bool {
        self.ready.is_empty()
    }

    /// Whether this input alone may have something.
    pub fn is_only(&self, input: u32) -> bool {
        self.ready.len() == 1 && self.first() == Some(input)
    }

    /// The input may have something.
    pub fn mark(&mut self, input: u32) {
        let Some(listed) = self.listed.get_mut(input as usize) else {
            return;
        };
        if !*listed {
            *listed = self.ready.push_back(input).is_ok();
        }
    }

    /// The input's sender may have sent a batch.
    pub fn fill(&mut self, input: u32) {
        self.mark(input);
        let Some(batches) = self.batches.get_mut(input as usize) else {
            return;
        };
        *batches = batches.saturating_add(1);
        if *batches == FULL {
            self.full = self.full.saturating_add(1);
        }
    }

    /// Whether an input is full.
    pub fn is_full(&self) -> bool {
        self.full > 0
    }

    /// The input has no record.
    fn empty(&mut self, input: u32) {
        let Some(batches) = self.batches.get_mut(input as usize) else {
            return;
        };
        if *batches >= FULL {
            self.full = self.full.saturating_sub(1);
        }
        *batches = 0;
    }

    /// No input has anything, as far as is known, none waits, and none is full.
    pub fn clear(&mut self) {
        self.ready.clear();
        self.blocked.clear();
        self.listed.fill(false);
        self.batches.fill(0);
        self.full = 0;
    }

    /// The first input comes last.
    pub fn turn(&mut self) {
        if self.ready.len() < 2 {
            return;
        }
        if let Some(input) = self.take_first() {
            self.mark(input);
        }
    }

    /// The first input has nothing.
    pub fn drop_first(&mut self) {
        if let Some(input) = self.take_first() {
            self.empty(input);
        }
    }

    /// The first input waits for the barriers of others.
    pub fn block_first(&mut self) {
        let Some(input) = self.take_first() else {
            return;
        };
        if let Some(listed) = self.listed.get_mut(input as usize) {
            *listed = self.blocked.push_back(input).is_ok();
        }
    }

    /// The barriers that inputs have waited for have come. Those that were marked for no more than
    /// their own barriers have nothing behind these.
    pub fn unblock(&mut self) {
        for _ in 0..self.blocked.len() {
            let Some(input) = self.blocked.pop_front() else {
                return;
            };
            self.unlist(input);
            if self.was_marked_twice(input) {
                self.mark(input);
            } else {
                self.empty(input);
            }
        }
    }

    /// Whether the input's sender has marked it twice since it was last found without a record.
    fn was_marked_twice(&self, input: u32) -> bool {
        let batches = self.batches.get(input as usize);
        batches.is_some_and(|batches| *batches > 1)
    }

    fn take_first(&mut self) -> Option<u32> {
        let input = self.ready.pop_front()?;
        self.unlist(input);
        Some(input)
    }

    fn unlist(&mut self, input: u32) {
        if let Some(listed) = self.listed.get_mut(input as usize) {
            *listed = false;
        }
    }
}
