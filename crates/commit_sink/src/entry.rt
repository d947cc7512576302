//! One transaction in memory.

ghost use Rattle.std.specs.Prelude.{◌≡◌, [], ◌∷◌, ◌++◌, OnOk, OnErr, IfOk, IfErr};
ghost use Rattle.commit_sink.specs.Ledger.{Transaction};

use crate::pages::Pages;
use crate::transactions::{Progress, TransactionFault};
use abs_codec::{Bytes, Items, NoMemory};
use std::alloc::Global;
use std::marker::Model;

/// A transaction.
#[derive(Drop)]
pub struct Entry {
    subtask: u32,
    progress: Progress,
    records: Pages<Bytes>,
}

impl Model for Entry {
    ghost use Rattle.commit_sink.specs.Ledger.{Transaction};

    ghost Value = { Transaction };

    ghost view = { λ e. record {
      subtask = e.subtask;
      progress = e.progress;
      records = e.records;
    } };
}

impl Entry {
    /// A subtask's transaction with no records, and with room for so many if there is memory.
    pub(crate) fn with_room(alloc: Global, subtask: u32, room: usize) -> Entry
        ensures { result ≡ record { subtask = subtask; progress = Progress.Open; records = [] } }
    {
        Entry {
            subtask,
            progress: Progress::Open,
            records: Pages::with_room(alloc, room),
        }
    }

    /// The transaction of a subtask that has come so far, with its records, which are not copied.
    pub fn of(subtask: u32, progress: Progress, records: Items<Bytes>) -> Entry
        ensures { result ≡ record { subtask = subtask; progress = progress; records = records } }
    {
        Entry {
            subtask,
            progress,
            records: Pages::from_vec(records.into_vec()),
        }
    }

    /// Its subtask, how far it has come, and its records, which are not copied where they stand
    /// together.
    pub(crate) fn into_parts(self) -> Result<(u32, Progress, Vec<Bytes>), NoMemory>
        ensures { IfOk result (λ parts. self ≡ record {
          subtask = parts.0;
          progress = parts.1;
          records = parts.2.items;
        }) }
    {
        let Entry {
            subtask,
            progress,
            records,
        } = self;
        Ok((subtask, progress, records.into_vec()?))
    }

    pub(crate) fn subtask(&self) -> u32
        ensures { result ≡ self.now.subtask }
    {
        self.subtask
    }

    pub(crate) fn progress(&self) -> Progress
        ensures { result ≡ self.now.progress }
    {
        self.progress
    }

    /// Its records keep no more room than they need, since no more come.
    pub(crate) fn set_progress(&mut self, progress: Progress)
        ensures { self.new ≡ record self.old { progress = progress } }
    {
        self.progress = progress;
        self.records.shrink();
    }

    pub(crate) fn records(&self) -> &Pages<Bytes>
        ensures { result.now ≡ self.now.records }
    {
        &self.records
    }

    pub(crate) fn append(&mut self, row: Bytes) -> Result<(), TransactionFault>
        ensures ok { OnOk result (self.new ≡ record self.old {
          records = self.old.records
              ++ row ∷ [];
        }) }
        ensures err { OnErr result (self.new ≡ self.old) }
        ensures memory { IfErr result (λ f. f ≡ TransactionFault.Memory) }
    {
        match self.records.push(row) {
            Ok(()) => Ok(()),
            Err(_) => Err(TransactionFault::Memory),
        }
    }

    /// Drops the records, and their memory.
    pub(crate) fn abort(&mut self)
        ensures { self.new ≡ record self.old { progress = Progress.Aborted; records = [] } }
    {
        self.progress = Progress::Aborted;
        self.records.clear();
    }
}
