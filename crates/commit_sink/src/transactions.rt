//! What transactions offer.

ghost use Rattle.std.specs.Prelude.{◌≡◌, ◌≢◌, ◌↔◌, ◌<◌, ◌+◌, ◌^◌, ℕ, None, Some, Err, [], length, slice_get, IfOk, IfErr, IsTrue};
ghost use Rattle.std.specs.Option.{option_map};
ghost use Rattle.commit_sink.specs.declared.transactions.TransactionFault.TheVariants.{Memory};
ghost use Rattle.commit_sink.specs.Ledger.{Ledger, Ends, IsOrdered, aborted, abort_refusal, appended, begun, committed_rows, after_commit, commit_refusal, open_refusal, pre_committed, unsettled_of};
ghost use Rattle.commit_sink.specs.Runs.{IsRunFrom};

use abs_codec::{Bytes, NoMemory};
use std::alloc::{AllocError, AllocFailed};
use thiserror::Error;

/// How far a transaction has come.
#[derive(Clone, Copy, Debug, PartialEq, Eq)]
pub enum Progress {
    /// Records may be appended.
    Open,
    /// To be committed once the checkpoint of this number is complete.
    PreCommitted(u64),
    /// Its records may be read by anyone.
    Committed,
    /// Its records are gone.
    Aborted,
}

/// Why a call on a transaction was refused.
#[derive(Clone, Copy, Debug, PartialEq, Eq, Error)]
pub enum TransactionFault {
    /// The device failed, before its work or after it.
    #[error("X1 Fault")]
    Fault,
    /// It is open or aborted, and cannot be committed.
    #[error("X2 NotPreCommitted")]
    NotPreCommitted,
    /// It is not open.
    #[error("X3 NotOpen")]
    NotOpen,
    /// It is committed, and cannot be aborted.
    #[error("X4 AlreadyCommitted")]
    AlreadyCommitted,
    /// There is no transaction of that number.
    #[error("X5 NoSuchTransaction")]
    NoSuchTransaction,
    /// Memory was refused, or the subtask has 2^64 - 1 records.
    #[error("X6 Memory")]
    Memory,
}

impl From<NoMemory> for TransactionFault {
    ghost from_gives = { λ _ e. e ≡ Memory };

    fn from(_e: NoMemory) -> TransactionFault {
        TransactionFault::Memory
    }
}

impl<T: Drop> From<AllocFailed<T>> for TransactionFault {
    ghost from_gives = { λ _ e. e ≡ Memory };

    fn from(_e: AllocFailed<T>) -> TransactionFault {
        TransactionFault::Memory
    }
}

impl From<AllocError> for TransactionFault {
    ghost from_gives = { λ _ e. e ≡ Memory };

    fn from(_e: AllocError) -> TransactionFault {
        TransactionFault::Memory
    }
}

/// Transactions of the subtasks of a job's sinks. Subtasks are numbered from 0, transactions over
/// all subtasks from 1.
pub trait Transactions {
    /// What they hold.
    ghost state: { Self → Ledger };

    /// How often a call has failed.
    ghost fault_count: { Self → ℕ };

    /// No transaction was begun.
    fn is_new(&self) -> bool
        ensures { IsTrue result ↔ ((state self.now).transactions ≡ []) };

    /// How many subtasks there are.
    fn subtasks(&self) -> u32
        ensures { result ≡ (state self.now).subtasks };

    /// Opens a transaction, and takes the room that its commit needs.
    fn begin(&mut self, subtask: u32) -> Result<u64, TransactionFault>
        requires { subtask < (state self.old).subtasks }
        ensures ends { Ends (state self.old, fault_count self.old)
            (state self.new, fault_count self.new)
            None (begun (state self.old) subtask) result }
        ensures told { result ≢ Err TransactionFault.Fault
            → fault_count self.new ≡ fault_count self.old }
        ensures number { IfOk result (λ n. n ≡ length (state self.old).transactions + 1) };

    /// Puts a record last in an open transaction, which may keep the vector.
    fn append(&mut self, transaction: u64, bytes: Vec<u8>) -> Result<(), TransactionFault>
        ensures ends { Ends (state self.old, fault_count self.old)
            (state self.new, fault_count self.new)
            (open_refusal (state self.old) transaction)
            (appended (state self.old) transaction bytes.items) result }
        ensures told { result ≢ Err TransactionFault.Fault
            → fault_count self.new ≡ fault_count self.old };

    /// Closes an open transaction, to be committed once the checkpoint is complete.
    fn pre_commit(&mut self, transaction: u64, checkpoint: u64) -> Result<(), TransactionFault>
        ensures ends { Ends (state self.old, fault_count self.old)
            (state self.new, fault_count self.new)
            (open_refusal (state self.old) transaction)
            (pre_committed (state self.old) transaction checkpoint) result }
        ensures told { result ≢ Err TransactionFault.Fault
            → fault_count self.new ≡ fault_count self.old }
        ensures takes_no_memory { result ≢ Err TransactionFault.Memory };

    /// Commits a transaction that is pre-committed. One that is committed stays as it is.
    fn commit(&mut self, transaction: u64) -> Result<(), TransactionFault>
        ensures ends { Ends (state self.old, fault_count self.old)
            (state self.new, fault_count self.new)
            (commit_refusal (state self.old) transaction)
            (after_commit (state self.old) transaction) result }
        ensures told { result ≢ Err TransactionFault.Fault
            → fault_count self.new ≡ fault_count self.old }
        ensures takes_no_memory { result ≢ Err TransactionFault.Memory };

    /// Drops the records of a transaction that is open or pre-committed. One that is aborted stays
    /// as it is.
    fn abort(&mut self, transaction: u64) -> Result<(), TransactionFault>
        ensures ends { Ends (state self.old, fault_count self.old)
            (state self.new, fault_count self.new)
            (abort_refusal (state self.old) transaction)
            (aborted (state self.old) transaction) result }
        ensures told { result ≢ Err TransactionFault.Fault
            → fault_count self.new ≡ fault_count self.old }
        ensures takes_no_memory { result ≢ Err TransactionFault.Memory };

    /// The open and the pre-committed transactions of a subtask in rising number, a pre-committed
    /// one with its checkpoint.
    fn unsettled(&mut self, subtask: u32) -> Result<Vec<(u64, Option<u64>)>, TransactionFault>
        ensures ends { Ends (state self.old, fault_count self.old)
            (state self.new, fault_count self.new)
            None (state self.old) result }
        ensures told { result ≢ Err TransactionFault.Fault
            → fault_count self.new ≡ fault_count self.old }
        ensures numbers { IfOk result (λ numbers. numbers.items
            ≡ unsettled_of (state self.old) subtask) };

    /// How many records of a subtask are committed.
    fn committed_len(&self, subtask: u32) -> u64
        ensures { result ≡ length (committed_rows (state self.now) subtask) };

    /// A copy of a committed record of a subtask, or `None` past the last. Records are numbered
    /// from 0, in the order of commit.
    fn committed(&self, subtask: u32, index: u64) -> Result<Option<Vec<u8>>, TransactionFault>
        ensures row { IfOk result (λ row. option_map (λ bytes. bytes.items) row
            ≡ slice_get (committed_rows (state self.now) subtask) index) }
        ensures memory { IfErr result (λ f. f ≡ TransactionFault.Memory) };

    /// The committed records of a subtask from this one on, as many as stand together: one at
    /// least, where there is one. It takes no memory.
    fn committed_from(&self, subtask: u32, index: u64) -> &[Bytes]
        ensures { IsRunFrom (committed_rows (state self.now) subtask) index result.now };

    /// How often a call has failed. At 2^64 - 1, no call fails any more.
    fn faults(&self) -> u64
        ensures { result ≡ fault_count self.now };

    /// The order of commit has each committed transaction once, and nothing else.
    ghost ordered: { (transactions : Self) → IsOrdered (state transactions) };
}
