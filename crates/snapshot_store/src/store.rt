//! What a snapshot store offers.

ghost use Rattle.std.specs.Prelude.{◌≡◌, ◌≢◌, ◌↔◌, ℕ, None, Some, Err, IfOk, IsTrue};
ghost use Rattle.snapshot_store.specs.declared.store.StoreFault.TheVariants.{Memory};
ghost use Rattle.snapshot_store.specs.Store.{Stored, Ends, IsLatest, IsNumbered, blank, completed, complete_refusal, discarded_below, get_refusal, part_of, put_refusal, reserved, reserve_refusal, with_part};

use bytes::Bytes;
use std::alloc::AllocError;
use thiserror::Error;

/// Why a call on a store was refused.
#[derive(Clone, Copy, Debug, PartialEq, Eq, Error)]
pub enum StoreFault {
    /// The device failed, before its work or after it.
    #[error("P1 Fault")]
    Fault,
    /// The number was not given out, or is complete where it may not be, or not complete where it
    /// has to be. Or there is no such task.
    #[error("P2 NoSuchNumber")]
    NoSuchNumber,
    /// The part is there already.
    #[error("P3 AlreadyPut")]
    AlreadyPut,
    /// A part is missing.
    #[error("P4 MissingPart")]
    MissingPart,
    /// The next number has reached 2^63.
    #[error("P5 NumberFull")]
    NumberFull,
    /// Memory was refused.
    #[error("P6 Memory")]
    Memory,
}

impl From<AllocError> for StoreFault {
    ghost from_gives = { λ _ e. e ≡ Memory };

    fn from(_e: AllocError) -> StoreFault {
        StoreFault::Memory
    }
}

/// Parts of checkpoints by number and task, and the numbers that are complete.
pub trait SnapshotStore {
    /// What it holds.
    ghost state: { Self → Stored };

    /// How often a call has failed.
    ghost fault_count: { Self → ℕ };

    /// It has given out no number.
    fn is_new(&self) -> bool
        ensures { IsTrue result ↔ (state self.now ≡ blank (state self.now).tasks) };

    /// How many tasks put a part, numbered from 0.
    fn tasks(&self) -> u32
        ensures { result ≡ (state self.now).tasks };

    /// Gives out the next number.
    fn reserve(&mut self) -> Result<u64, StoreFault>
        ensures ends { Ends (state self.old, fault_count self.old)
            (state self.new, fault_count self.new)
            (reserve_refusal (state self.old)) (reserved (state self.old)) result }
        ensures told { result ≢ Err StoreFault.Fault → fault_count self.new ≡ fault_count self.old }
        ensures number { IfOk result (λ n. n ≡ (state self.old).next) }
        ensures takes_no_memory { result ≢ Err StoreFault.Memory };

    /// Keeps the part of a task.
    fn put(&mut self, number: u64, task: u32, bytes: &[u8]) -> Result<(), StoreFault>
        ensures ends { Ends (state self.old, fault_count self.old)
            (state self.new, fault_count self.new)
            (put_refusal (state self.old) number task)
            (with_part (state self.old) number task bytes.now) result }
        ensures told { result ≢ Err StoreFault.Fault
            → fault_count self.new ≡ fault_count self.old };

    /// Keeps the part of a task, whose bytes are not copied.
    fn put_shared(&mut self, number: u64, task: u32, bytes: Bytes) -> Result<(), StoreFault>
        ensures ends { Ends (state self.old, fault_count self.old)
            (state self.new, fault_count self.new)
            (put_refusal (state self.old) number task)
            (with_part (state self.old) number task bytes) result }
        ensures told { result ≢ Err StoreFault.Fault
            → fault_count self.new ≡ fault_count self.old };

    /// Makes a number complete. A second time changes nothing.
    fn complete(&mut self, number: u64) -> Result<(), StoreFault>
        ensures ends { Ends (state self.old, fault_count self.old)
            (state self.new, fault_count self.new)
            (complete_refusal (state self.old) number) (completed (state self.old) number) result }
        ensures told { result ≢ Err StoreFault.Fault → fault_count self.new ≡ fault_count self.old }
        ensures takes_no_memory { result ≢ Err StoreFault.Memory };

    /// The greatest complete number.
    fn latest(&mut self) -> Result<Option<u64>, StoreFault>
        ensures ends { Ends (state self.old, fault_count self.old)
            (state self.new, fault_count self.new)
            None (state self.old) result }
        ensures told { result ≢ Err StoreFault.Fault → fault_count self.new ≡ fault_count self.old }
        ensures number { IfOk result (IsLatest (state self.old)) }
        ensures takes_no_memory { result ≢ Err StoreFault.Memory };

    /// A copy of a part of a complete number.
    fn get(&mut self, number: u64, task: u32) -> Result<Vec<u8>, StoreFault>
        ensures ends { Ends (state self.old, fault_count self.old)
            (state self.new, fault_count self.new)
            (get_refusal (state self.old) number task) (state self.old) result }
        ensures told { result ≢ Err StoreFault.Fault → fault_count self.new ≡ fault_count self.old }
        ensures bytes { IfOk result (λ bytes. part_of (state self.old) number task
            ≡ Some bytes.items) };

    /// Drops the parts of all numbers below, complete or not. The numbers stay complete.
    fn discard_below(&mut self, number: u64) -> Result<(), StoreFault>
        ensures ends { Ends (state self.old, fault_count self.old)
            (state self.new, fault_count self.new)
            None (discarded_below (state self.old) number) result }
        ensures told { result ≢ Err StoreFault.Fault → fault_count self.new ≡ fault_count self.old }
        ensures takes_no_memory { result ≢ Err StoreFault.Memory };

    /// How often a call has failed. At 2^64 - 1, no call fails any more.
    fn faults(&self) -> u64
        ensures { result ≡ fault_count self.now };

    /// Numbers and parts are in range.
    ghost numbered: { (store : Self) → IsNumbered (state store) };
}
