//! Partitions in memory.

ghost use Rattle.std.specs.Prelude.{refl};
ghost use Rattle.std.proofs.Props.{props};
ghost use Rattle.source_log.specs.MemoryLog.{AreShort};

use crate::flaky_log::FaultlessLog;
use crate::partitions::{Partitions, SourceFault};
use crate::rows::Rows;
use abs_codec::{Codec, NoMemory};
use std::alloc::Global;

/// A partition has no more records.
const MOST_RECORDS: usize = u32::MAX as usize;

/// A log has no more partitions.
const MOST_PARTITIONS: usize = u32::MAX as usize;

/// Partitions of records, in memory.
#[derive(Drop)]
pub struct MemoryLog<R: Codec> {
    rows: Rows<R>,
    ghost short: { AreShort rows } by { Prim.hlevel props },
}

impl<R: Codec> MemoryLog<R> {
    ghost use Rattle.std.specs.Prelude.{◌≡◌, ◌⊎◌, ◌++◌, [], None, Some, length, replicate, All, IfOk, IfErr, OnOk, OnErr};
    ghost use Rattle.abs_codec.specs.Spelling.{Fits};
    ghost use Rattle.source_log.specs.Partitions.{append_all_refusal, appended_all, join_refusal};

    /// Partitions with no records.
    pub fn new(alloc: Global, count: u32) -> Result<MemoryLog<R>, NoMemory>
        ensures { IfOk result (λ log. ⟦<MemoryLog<R> as Partitions>⟧.records log
            ≡ replicate count []) }
    {
        let rows = Rows::new(alloc, count)?;
        Ok(MemoryLog { rows })
    }

    /// Puts these records last in a partition, all of them or none.
    pub fn append_all(&mut self, partition: u32, rows: Vec<R>) -> Result<(), SourceFault>
        requires { All (Fits R.HasSpelling R.spelling) rows.items }
        ensures ok { OnOk result (⟦<MemoryLog<R> as Partitions>⟧.records self.new
            ≡ appended_all (⟦<MemoryLog<R> as Partitions>⟧.records self.old) partition
            rows.items) }
        ensures err { OnErr result (⟦<MemoryLog<R> as Partitions>⟧.records self.new
            ≡ ⟦<MemoryLog<R> as Partitions>⟧.records self.old) }
        ensures taken { IfOk result (λ _. append_all_refusal
            (⟦<MemoryLog<R> as Partitions>⟧.records self.old) partition (length rows.items)
            ≡ None) }
        // Where they might be taken, memory is refused.
        ensures refused { IfErr result (λ f. (append_all_refusal
            (⟦<MemoryLog<R> as Partitions>⟧.records self.old) partition (length rows.items)
            ≡ Some f) ⊎ ((append_all_refusal
            (⟦<MemoryLog<R> as Partitions>⟧.records self.old) partition (length rows.items)
            ≡ None) × (f ≡ SourceFault.Memory))) }
    {
        let Some(len) = self.rows.len(partition as usize) else {
            return Err(SourceFault::NoSuchPartition);
        };
        if rows.len() > MOST_RECORDS - len {
            return Err(SourceFault::Full);
        }
        self.rows.push_all(partition as usize, rows)
    }

    /// Puts the partitions of another log behind those of this one, all of them or none: `S3` where
    /// there would be 2^32 or more. No record
    /// is copied or moved.
    pub fn append_partitions(&mut self, other: MemoryLog<R>) -> Result<(), SourceFault>
        ensures ok { OnOk result (⟦<MemoryLog<R> as Partitions>⟧.records self.new
            ≡ ⟦<MemoryLog<R> as Partitions>⟧.records self.old
            ++ ⟦<MemoryLog<R> as Partitions>⟧.records other) }
        ensures err { OnErr result (⟦<MemoryLog<R> as Partitions>⟧.records self.new
            ≡ ⟦<MemoryLog<R> as Partitions>⟧.records self.old) }
        ensures taken { IfOk result (λ _. join_refusal
            (⟦<MemoryLog<R> as Partitions>⟧.records self.old)
            (⟦<MemoryLog<R> as Partitions>⟧.records other) ≡ None) }
        // Where they might be taken, memory is refused.
        ensures refused { IfErr result (λ f. (join_refusal
            (⟦<MemoryLog<R> as Partitions>⟧.records self.old)
            (⟦<MemoryLog<R> as Partitions>⟧.records other) ≡ Some f) ⊎ ((join_refusal
            (⟦<MemoryLog<R> as Partitions>⟧.records self.old)
            (⟦<MemoryLog<R> as Partitions>⟧.records other) ≡ None)
            × (f ≡ SourceFault.Memory))) }
    {
        if other.rows.count() > MOST_PARTITIONS - self.rows.count() {
            return Err(SourceFault::Full);
        }
        self.rows.append(other.rows)
    }
}

impl<R: Codec> Partitions for MemoryLog<R> {
    type Record = R;

    ghost records = { λ m. m.rows };

    ghost fault_count = { λ m. 0 };

    ghost short = { λ m. m.short.rows };

    fn count(&self) -> u32 {
        self.rows.count() as u32
    }

    fn len(&self, partition: u32) -> Result<u64, SourceFault> {
        match self.rows.len(partition as usize) {
            Some(len) => Ok(len as u64),
            None => Err(SourceFault::NoSuchPartition),
        }
    }

    fn read(&mut self, partition: u32, offset: u64) -> Result<Option<R>, SourceFault> {
        let Some(len) = self.rows.len(partition as usize) else {
            return Err(SourceFault::NoSuchPartition);
        };
        if offset >= len as u64 {
            return Ok(None);
        }
        Ok(Some(self.rows.copy(partition as usize, offset as usize)?))
    }

    fn append(&mut self, partition: u32, row: R) -> Result<(), SourceFault> {
        let Some(len) = self.rows.len(partition as usize) else {
            return Err(SourceFault::NoSuchPartition);
        };
        if len >= MOST_RECORDS {
            return Err(SourceFault::Full);
        }
        self.rows.push(partition as usize, row)
    }

    fn faults(&self) -> u64 {
        0
    }
}

impl<R: Codec> FaultlessLog for MemoryLog<R> {
    ghost faultless = { λ m. refl };
}
