//! The rows of each subtask, as a copy that readers take, and the rule of it.
ghost use Rattle.std.specs.Prelude.{◌≡◌, [], map, length, replicate, IfOk, MatchResult};
ghost use Rattle.published_lists.specs.Rows.{rows_of, with_row};

use crate::edition::Edition;
use atomic_table::{Join, Split};
use crossbeam_utils::rule::{Outcome, Protocol};
use left_right::Absorb;
use std::alloc::{AllocError, Global};
use std::marker::Model;

/// The rows by subtask, with the edition that names them once they are sealed.
#[derive(Drop)]
pub struct Lists {
    lists: Vec<Vec<Vec<u8>>>,
    edition: Edition,
}

impl Model for Lists {
    ghost use Rattle.std.specs.Prelude.{map};
    ghost use Rattle.published_lists.specs.Holding.{Held};

    ghost Value = { Held };

    ghost view = { λ l. record {
      lists = map (λ rows. map (λ row. row.items) rows.items) l.lists.items;
      edition = l.edition;
    } };
}

/// What is done to both copies.
#[derive(Drop)]
pub enum Operation {
    /// Puts a row last in a subtask's list.
    Append { subtask: usize, row: Vec<u8> },
    /// Names the lists as they are then.
    Seal { edition: Edition },
}

impl Lists {
    /// Empty lists of so many subtasks.
    pub fn new(alloc: Global, subtasks: usize, edition: Edition) -> Result<Lists, AllocError>
        ensures lists { IfOk result (λ l. l.lists ≡ replicate subtasks []) }
        ensures edition { IfOk result (λ l. l.edition ≡ edition) }
    {
        let mut lists = Vec::new(alloc);
        for _ in 0..subtasks {
            lists.push(Vec::new(alloc))?;
        }
        Ok(Lists { lists, edition })
    }

    /// Which lists they are, once they are sealed.
    pub fn edition(&self) -> Edition
        ensures { result ≡ self.now.edition }
    {
        self.edition.again()
    }

    /// The rows of a subtask: none where there is no such subtask.
    pub fn rows(&self, subtask: usize) -> &[Vec<u8>]
        ensures { map (λ row. row.items) result.now ≡ rows_of self.now.lists subtask }
    {
        match self.lists.get(subtask) {
            Some(rows) => rows.as_slice(),
            None => &[],
        }
    }

    // The row comes back where there is no memory.
    fn put(&mut self, subtask: usize, row: Vec<u8>) -> Result<(), Vec<u8>>
        ensures lists { MatchResult result
            (λ _. self.new.lists ≡ with_row self.old.lists subtask row.items)
            (λ back. (back ≡ row) × (self.new.lists ≡ self.old.lists)) }
        ensures edition { self.new.edition ≡ self.old.edition }
    {
        if subtask >= self.lists.len() {
            return Ok(());
        }
        let Err(failed) = self.lists[subtask].push(row) else {
            return Ok(());
        };
        Err(failed.value)
    }

    // The edition names the lists as they are.
    fn seal(&mut self, edition: Edition)
        ensures { (self.new.lists ≡ self.old.lists) × (self.new.edition ≡ edition) }
    {
        self.edition = edition;
    }
}

impl Absorb<Operation> for Lists {
    type State = Lists;

    ghost use Rattle.published_lists.specs.Operations.{after};

    ghost state = { λ l. l };

    ghost applied = { after };

    fn absorb_first(&mut self, operation: &Operation, _other: &Lists) -> Result<(), AllocError> {
        match operation {
            Operation::Append { subtask, row } => match self.put(*subtask, row.clone()?) {
                Ok(()) => Ok(()),
                Err(_) => Err(AllocError),
            },
            Operation::Seal { edition } => {
                self.seal(edition.again());
                Ok(())
            }
        }
    }

    fn absorb_second(&mut self, operation: Operation, _other: &Lists) -> Result<(), Operation> {
        match operation {
            Operation::Append { subtask, row } => match self.put(subtask, row) {
                Ok(()) => Ok(()),
                Err(row) => Err(Operation::Append { subtask, row }),
            },
            Operation::Seal { edition } => {
                self.seal(edition);
                Ok(())
            }
        }
    }
}

/// What is published only grows. A seat knows nothing, or a edition that what is published follows.
pub struct OnlyGrows;

impl Protocol<Lists, Option<Edition>> for OnlyGrows {
    ghost use Rattle.std.specs.Prelude.{None};
    ghost use Rattle.published_lists.specs.Rule.{Grows};

    ghost holds = { Grows };

    ghost first = { None };
}

/// The seat sees the lists that are then published.
pub struct Sees;

impl Outcome<Lists, Option<Edition>> for Sees {
    ghost use Rattle.published_lists.specs.Rule.{Looks};

    ghost then = { Looks };
}

/// The writer keeps its view, and a note has it too.
pub struct Notes;

impl Split<Option<Edition>> for Notes {
    ghost left = { λ v. v };

    ghost right = { λ v. v };
}

/// A new reader knows what the note says.
pub struct Learns;

impl Join<Option<Edition>> for Learns {
    ghost use Rattle.std.specs.Prelude.{None};

    ghost both = { λ v w. w };

    ghost spent = { None };
}
