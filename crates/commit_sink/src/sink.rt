//! The transactions of a running sink subtask.

ghost use Rattle.std.specs.Prelude.{◌≡◌, ◌∷◌, [], ◌++◌, drop, map, slice_get, IfOk};
ghost use Rattle.std.specs.Option.{option_copied};

use abs_codec::{Items, NoMemory};
use std::alloc::Global;
use std::collections::VecDeque;
use std::marker::Model;

/// A transaction that is pre-committed with a checkpoint.
#[derive(Clone, Copy, Debug, PartialEq, Eq)]
pub struct Pending {
    pub transaction: u64,
    pub checkpoint: u64,
}

/// The open transaction of a sink subtask, and those that are pre-committed and not committed yet,
/// the oldest first (Flink's `TwoPhaseCommitSinkFunction` keeps the same two).
#[derive(Drop)]
pub struct Sink {
    alloc: Global,
    open_one: u64,
    pending: VecDeque<Pending>,
}

impl Model for Sink {
    ghost use Rattle.commit_sink.specs.Sink.{Sinking};

    ghost Value = { Sinking };

    ghost view = { λ s. record { open_one = s.open_one; pending = s.pending.items } };
}

impl Sink {
    ghost use Rattle.commit_sink.specs.Sink.{Sinking, pre_committed_last, names_with_open};

    /// A sink with an open transaction, and nothing pre-committed. It takes no memory.
    pub fn new(alloc: Global, transaction: u64) -> Sink
        ensures { result ≡ record { open_one = transaction; pending = [] } }
    {
        Sink {
            alloc,
            open_one: transaction,
            pending: VecDeque::new(alloc),
        }
    }

    /// The open transaction.
    pub fn open(&self) -> u64
        ensures { result ≡ self.now.open_one }
    {
        self.open_one
    }

    /// The oldest transaction that is pre-committed.
    pub fn oldest(&self) -> Option<Pending>
        ensures { result ≡ slice_get self.now.pending 0 }
    {
        self.pending.front().copied()
    }

    /// The pre-committed transactions and, last, the open one.
    pub fn names(&self) -> Result<Items<u64>, NoMemory>
        ensures { IfOk result (λ names. names ≡ names_with_open self.now) }
    {
        let mut names = Vec::new(self.alloc);
        for pending in &self.pending {
            names.push(pending.transaction)?;
        }
        names.push(self.open_one)?;
        Ok(Items::from_vec(names))
    }

    /// The same sink with its open transaction pre-committed too, for a checkpoint.
    pub fn pre_committed(&self, checkpoint: u64) -> Result<Sink, NoMemory>
        ensures { IfOk result (λ sink. sink ≡ pre_committed_last self.now checkpoint) }
    {
        let mut pending = self.pending.clone()?;
        pending.push_back(Pending {
            transaction: self.open_one,
            checkpoint,
        })?;
        Ok(Sink {
            alloc: self.alloc,
            open_one: self.open_one,
            pending,
        })
    }

    /// Another transaction is the open one.
    pub fn set_open(&mut self, transaction: u64)
        ensures { self.new ≡ record self.old { open_one = transaction } }
    {
        self.open_one = transaction;
    }

    /// The oldest pre-committed transaction is committed, and forgotten here.
    pub fn forget_oldest(&mut self)
        ensures { self.new ≡ record self.old { pending = drop 1 self.old.pending } }
    {
        let _ = self.pending.pop_front();
    }
}
