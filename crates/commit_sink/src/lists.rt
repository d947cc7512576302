//! What transactions in memory hold, as lists, and the transactions that such lists make.

ghost use Rattle.std.specs.Prelude.{◌≡◌, ◌<◌, ◌+◌, [], ◌∷◌, ◌++◌, length, Ok, OnOk, IfOk};
ghost use Rattle.commit_sink.specs.declared.transactions.Progress.TheVariants.{Open, Aborted};
ghost use Rattle.commit_sink.specs.Ledger.{IsOrdered, Transaction};
ghost use Rattle.commit_sink.specs.Lists.{AreSettled, to_commit};
ghost use Rattle.commit_sink.specs.Shares.{ledger_of};

use crate::entry::Entry;
use crate::memory_transactions::MemoryTransactions;
use crate::transactions::{Progress, TransactionFault, Transactions};
use abs_codec::{Bytes, Items, NoMemory};
use std::alloc::Global;

/// Transactions in memory refuse nothing that is in order but for want of memory.
fn memory<T: Drop>(answer: Result<T, TransactionFault>) -> Result<T, NoMemory>
    ensures { IfOk result (λ value. answer ≡ Ok value) }
{
    match answer {
        Ok(value) => Ok(value),
        Err(_) => Err(NoMemory),
    }
}

impl MemoryTransactions {
    ghost use Rattle.std.specs.Prelude.{◌≡◌, ◌<◌, ◌+◌, List, [], ◌∷◌, ◌++◌, length, slice_get, OnOk, IfOk};
    ghost use Rattle.std.specs.Option.{option_map};
    ghost use Rattle.commit_sink.specs.declared.transactions.Progress.TheVariants.{Open, Aborted};
    ghost use Rattle.commit_sink.specs.Ledger.{IsOrdered, Transaction};
    ghost use Rattle.commit_sink.specs.Lists.{AreSettled, records_at, to_commit};
    ghost use Rattle.commit_sink.specs.Runs.{IsRunFrom};
    ghost use Rattle.commit_sink.specs.Shares.{ledger_of};

    /// The transaction at a place in the order of numbers, from 0: its subtask, how far it has
    /// come, and how many records it has.
    pub fn transaction_at(&self, index: u64) -> Option<(u32, Progress, u64)>
        ensures { result ≡ option_map (λ t. (t.subtask, t.progress, length t.records)) (slice_get
            (⟦<MemoryTransactions as Transactions>⟧.state self.now).transactions index) }
    {
        let entry = self.transactions.get(index as usize)?;
        let count = entry.records().len() as u64;
        Some((entry.subtask(), entry.progress(), count))
    }

    /// The records from a place on of the transaction at an index in the order of numbers, as many
    /// as stand together: one at least, where there is one. Both count from 0.
    pub fn records_from(&self, index: u64, place: u64) -> &[Bytes]
        ensures { IsRunFrom (records_at (⟦<MemoryTransactions as Transactions>⟧.state
            self.now).transactions index) place result.now }
    {
        let Some(entry) = self.transactions.get(index as usize) else {
            return &[];
        };
        let records = entry.records();
        if records.len() as u64 <= place {
            return &[];
        }
        records.run_from(place as usize)
    }

    /// The number at a place in the order of commit, from 0.
    pub fn committed_at(&self, index: u64) -> Option<u64>
        ensures { result ≡ slice_get (⟦<MemoryTransactions as Transactions>⟧.state
            self.now).committed index }
    {
        self.committed.as_slice().get(index as usize).copied()
    }

    /// Begins a transaction that has these records.
    fn begin_with(&mut self, subtask: u32, records: Vec<Bytes>) -> Result<u64, NoMemory>
        requires { subtask < (⟦<MemoryTransactions as Transactions>⟧.state self.old).subtasks }
        ensures number { IfOk result (λ n. n ≡ length
            (⟦<MemoryTransactions as Transactions>⟧.state self.old).transactions + 1) }
        ensures state { OnOk result (⟦<MemoryTransactions as Transactions>⟧.state self.new
            ≡ record (⟦<MemoryTransactions as Transactions>⟧.state self.old) {
              transactions = (⟦<MemoryTransactions as Transactions>⟧.state self.old).transactions
                  ++ record { subtask = subtask; progress = Open; records = records.items } ∷ [];
            }) }
    {
        let transaction = memory(self.begin(subtask))?;
        for row in records {
            memory(self.append_bytes(transaction, row))?;
        }
        Ok(transaction)
    }

    /// Begins a transaction and takes it as far as it has come before a commit.
    fn restore(&mut self, entry: Entry) -> Result<(), NoMemory>
        requires subtask { entry.subtask < (⟦<MemoryTransactions as Transactions>⟧.state
            self.old).subtasks }
        requires emptied { entry.progress ≡ Aborted → entry.records ≡ [] }
        ensures { OnOk result (⟦<MemoryTransactions as Transactions>⟧.state self.new
            ≡ record (⟦<MemoryTransactions as Transactions>⟧.state self.old) {
              transactions = (⟦<MemoryTransactions as Transactions>⟧.state self.old).transactions
                  ++ to_commit entry ∷ [];
            }) }
    {
        let (subtask, progress, records) = entry.into_parts()?;
        let transaction = self.begin_with(subtask, records)?;
        match progress {
            Progress::Open => Ok(()),
            Progress::PreCommitted(checkpoint) => memory(self.pre_commit(transaction, checkpoint)),
            Progress::Committed => memory(self.pre_commit(transaction, 0)),
            Progress::Aborted => memory(self.abort(transaction)),
        }
    }

    /// Commits these transactions, in this order.
    fn commit_all(&mut self, numbers: &[u64]) -> Result<(), NoMemory>
        ensures { OnOk result ((transactions : List Transaction)
            → IsOrdered (ledger_of (⟦<MemoryTransactions as Transactions>⟧.state self.old).subtasks
            transactions numbers.now)
            → AreSettled transactions [] (⟦<MemoryTransactions as Transactions>⟧.state
            self.old).transactions → (⟦<MemoryTransactions as Transactions>⟧.state
            self.old).committed ≡ []
            → ⟦<MemoryTransactions as Transactions>⟧.state self.new
            ≡ ledger_of (⟦<MemoryTransactions as Transactions>⟧.state self.old).subtasks
            transactions numbers.now) }
    {
        for number in numbers {
            memory(self.commit(*number))?;
        }
        Ok(())
    }

    /// The transactions of so many subtasks that are these, by their numbers from 1, and were
    /// committed in this order. The records are not copied.
    pub fn from_lists(
        alloc: Global,
        subtasks: u32,
        transactions: Vec<Entry>,
        committed: Items<u64>,
    ) -> Result<MemoryTransactions, NoMemory>
        requires { IsOrdered (ledger_of subtasks transactions.items committed) }
        ensures { IfOk result (λ made. ⟦<MemoryTransactions as Transactions>⟧.state made
            ≡ ledger_of subtasks transactions.items committed) }
    {
        let mut made = MemoryTransactions::new(alloc, subtasks);
        for entry in transactions {
            made.restore(entry)?;
        }
        made.commit_all(committed.as_slice())?;
        Ok(made)
    }
}
