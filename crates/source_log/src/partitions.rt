//! What partitions offer.

ghost use Rattle.std.specs.Prelude.{◌≡◌, ◌≢◌, ◌<◌, ◌≤◌, ◌^◌, ℕ, List, length, None, Some, Ok, Err, IfOk, IfSome, slice_get, MatchResult};
ghost use Rattle.abs_codec.specs.Spelling.{Fits};
ghost use Rattle.source_log.specs.declared.partitions.SourceFault.TheVariants.{Memory};
ghost use Rattle.source_log.specs.Partitions.{AllFit, Ends, records_at, partition_refusal, append_refusal, appended};

use abs_codec::Codec;
use std::alloc::AllocFailed;
use thiserror::Error;

/// Why a call on a partition was refused.
#[derive(Clone, Copy, Debug, PartialEq, Eq, Error)]
pub enum SourceFault {
    /// There is no partition of that number.
    #[error("S1 NoSuchPartition")]
    NoSuchPartition,
    /// The device failed, before its work or after it.
    #[error("S2 Fault")]
    Fault,
    /// The partition has 2^32 - 1 records.
    #[error("S3 Full")]
    Full,
    /// Memory was refused.
    #[error("S4 Memory")]
    Memory,
}

impl<T: Drop> From<AllocFailed<T>> for SourceFault {
    ghost from_gives = { λ _ e. e ≡ Memory };

    fn from(_e: AllocFailed<T>) -> SourceFault {
        SourceFault::Memory
    }
}

/// Partitions of records, numbered from 0. The records of a partition have offsets from 0, and only
/// grow.
pub trait Partitions {
    /// What is appended and read.
    type Record: Codec;

    /// The records of each partition, the oldest first.
    ghost records: { Self → List (List Self.Record) };

    /// How often a call has failed.
    ghost fault_count: { Self → ℕ };

    /// How many partitions there are. All records in them fit.
    fn count(&self) -> u32
        ensures count { result ≡ length (records self.now) }
        ensures fit { AllFit (Fits Self.Record.HasSpelling Self.Record.spelling)
            (records self.now) };

    /// How many records a partition has.
    fn len(&self, partition: u32) -> Result<u64, SourceFault>
        ensures { MatchResult result
            (λ n. (partition_refusal (records self.now) partition ≡ None)
            × (n ≡ length (records_at (records self.now) partition)))
            (λ f. partition_refusal (records self.now) partition ≡ Some f) };

    /// A copy of the record at an offset, or `None` past the end.
    fn read(&mut self, partition: u32, offset: u64) -> Result<Option<Self::Record>, SourceFault>
        ensures ends { Ends (records self.old, fault_count self.old)
            (records self.new, fault_count self.new)
            (partition_refusal (records self.old) partition) (records self.old) result }
        ensures told { result ≢ Err SourceFault.Fault
            → fault_count self.new ≡ fault_count self.old }
        ensures same { records self.new ≡ records self.old }
        ensures row { IfOk result (λ row. row
            ≡ slice_get (records_at (records self.old) partition) offset) }
        ensures fits { IfOk result (λ row. IfSome row
            (Fits Self.Record.HasSpelling Self.Record.spelling)) }
        ensures never_full { result ≢ Err SourceFault.Full };

    /// Puts a record last.
    fn append(&mut self, partition: u32, row: Self::Record) -> Result<(), SourceFault>
        requires { Fits Self.Record.HasSpelling Self.Record.spelling row }
        ensures ends { Ends (records self.old, fault_count self.old)
            (records self.new, fault_count self.new)
            (append_refusal (records self.old) partition)
            (appended (records self.old) partition row) result }
        ensures told { result ≢ Err SourceFault.Fault
            → fault_count self.new ≡ fault_count self.old };

    /// How often a call has failed. At 2^64 - 1, no call fails any more.
    fn faults(&self) -> u64
        ensures { result ≡ fault_count self.now };

    /// A partition has at most 2^32 - 1 records.
    ghost short: { (log : Self) (partition : ℕ)
        → length (records_at (records log) partition) < 2 ^ 32 };
}
