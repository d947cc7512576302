//! A snapshot store in memory.

ghost use Rattle.std.specs.Prelude.{◌≡◌, ◌||◌, is_some, refl};
ghost use Rattle.std.specs.FinMap as fin;
ghost use Rattle.std.specs.FinSet as set;
ghost use Rattle.std.proofs.Props.{props};
ghost use Rattle.snapshot_store.specs.Store.{all_below};
ghost use Rattle.snapshot_store.specs.Memory.{IsKept, complete_of, memory_state};
ghost use Rattle.snapshot_store.specs.MemoryLaws.{memory_numbered};

use crate::flaky_store::FaultlessStore;
use crate::numbers::Numbers;
use crate::parts::Parts;
use crate::store::{SnapshotStore, StoreFault};
use bytes::Bytes;
use std::alloc::{AllocError, Global};

/// No number is given out from here on.
const NUMBERS_END: u64 = 1 << 63;

/// A longer part counts as want of memory.
const LONGEST_PART: usize = u32::MAX as usize;

/// A snapshot store in memory.
#[derive(Drop)]
pub struct MemoryStore {
    pub(crate) alloc: Global,
    pub(crate) tasks: u32,
    pub(crate) next: u64,
    pub(crate) parts: Parts,
    pub(crate) numbers: Numbers,
    ghost kept: { IsKept tasks next parts numbers } by { Prim.hlevel props },
}

/// Whether every task has put its part.
fn has_all_parts(parts: &Parts, number: u64, tasks: u32) -> bool
    ensures { result ≡ all_below (λ t. is_some (fin.get parts.now (number, t))) tasks }
{
    for task in 0..tasks {
        if !parts.has(number, task) {
            return false;
        }
    }
    true
}

/// Whether a number is complete, or has all its parts.
fn can_complete(numbers: &Numbers, parts: &Parts, number: u64, tasks: u32) -> bool
    ensures { result ≡ (set.contains (complete_of numbers.now) number || all_below
        (λ t. is_some (fin.get parts.now (number, t))) tasks) }
{
    numbers.is_complete(number) || has_all_parts(parts, number, tasks)
}

impl MemoryStore {
    ghost use Rattle.std.specs.Prelude.{◌≡◌, ◌<◌, ◌≤◌, Err, IsOk, None, OnOk, OnErr};
    ghost use Rattle.snapshot_store.specs.Store.{Ends, blank, put_refusal, with_part};
    ghost use Rattle.snapshot_store.specs.declared.store.StoreFault.TheVariants as StoreFault;

    /// A store for at least one task that has given out no number.
    pub fn new(alloc: Global, tasks: u32) -> Self
        requires { 1 ≤ tasks }
        ensures { ⟦<MemoryStore as SnapshotStore>⟧.state result ≡ blank tasks }
    {
        MemoryStore {
            alloc,
            tasks,
            next: 1,
            parts: Parts::new(alloc),
            numbers: Numbers::new(alloc),
        }
    }

    /// Why a part of so many bytes may not be put, if it may not.
    fn check_part(&self, number: u64, task: u32, len: usize) -> Result<(), StoreFault>
        ensures ends { Ends (⟦<MemoryStore as SnapshotStore>⟧.state self.now, 0)
            (⟦<MemoryStore as SnapshotStore>⟧.state self.now, 0)
            (put_refusal (⟦<MemoryStore as SnapshotStore>⟧.state self.now) number task)
            (⟦<MemoryStore as SnapshotStore>⟧.state self.now) result }
        ensures fits { IsOk result → len ≤ LONGEST_PART }
        ensures too_long { result ≡ Err StoreFault.Memory → LONGEST_PART < len }
    {
        if number == 0
            || number >= self.next
            || self.numbers.is_complete(number)
            || task >= self.tasks
        {
            return Err(StoreFault::NoSuchNumber);
        }
        if self.parts.has(number, task) {
            return Err(StoreFault::AlreadyPut);
        }
        if len > LONGEST_PART {
            return Err(StoreFault::Memory);
        }
        Ok(())
    }

    /// Keeps a part that may be put. Its bytes are not copied.
    fn keep_part(&mut self, number: u64, task: u32, part: Bytes) -> Result<(), AllocError>
        requires { put_refusal (⟦<MemoryStore as SnapshotStore>⟧.state self.old) number task
            ≡ None }
        ensures ok { OnOk result (⟦<MemoryStore as SnapshotStore>⟧.state self.new
            ≡ with_part (⟦<MemoryStore as SnapshotStore>⟧.state self.old) number task part) }
        ensures err { OnErr result (⟦<MemoryStore as SnapshotStore>⟧.state self.new
            ≡ ⟦<MemoryStore as SnapshotStore>⟧.state self.old) }
    {
        self.numbers.note(number)?;
        self.parts.put(number, task, part)
    }
}

impl SnapshotStore for MemoryStore {
    ghost state = { λ m. memory_state m.tasks m.next m.parts m.numbers };

    ghost fault_count = { λ m. 0 };

    ghost numbered = { λ m. memory_numbered m.tasks m.next m.parts m.numbers m.kept };

    fn is_new(&self) -> bool {
        self.next == 1
    }

    fn tasks(&self) -> u32 {
        self.tasks
    }

    fn faults(&self) -> u64 {
        0
    }

    fn reserve(&mut self) -> Result<u64, StoreFault> {
        if self.next >= NUMBERS_END {
            return Err(StoreFault::NumberFull);
        }
        let number = self.next;
        self.next += 1;
        Ok(number)
    }

    fn put(&mut self, number: u64, task: u32, bytes: &[u8]) -> Result<(), StoreFault> {
        self.check_part(number, task, bytes.len())?;
        let part = Bytes::copy_from_slice(self.alloc, bytes)?;
        self.keep_part(number, task, part)?;
        Ok(())
    }

    fn put_shared(&mut self, number: u64, task: u32, bytes: Bytes) -> Result<(), StoreFault> {
        self.check_part(number, task, bytes.len())?;
        self.keep_part(number, task, bytes)?;
        Ok(())
    }

    fn complete(&mut self, number: u64) -> Result<(), StoreFault> {
        if number == 0 || number >= self.next {
            return Err(StoreFault::NoSuchNumber);
        }
        if !can_complete(&self.numbers, &self.parts, number, self.tasks) {
            return Err(StoreFault::MissingPart);
        }
        self.numbers.complete(number);
        Ok(())
    }

    fn latest(&mut self) -> Result<Option<u64>, StoreFault> {
        Ok(self.numbers.latest())
    }

    fn get(&mut self, number: u64, task: u32) -> Result<Vec<u8>, StoreFault> {
        if !self.numbers.is_complete(number) {
            return Err(StoreFault::NoSuchNumber);
        }
        let Some(part) = self.parts.get(number, task) else {
            return Err(StoreFault::MissingPart);
        };
        Ok(part.to_vec(self.alloc)?)
    }

    fn discard_below(&mut self, number: u64) -> Result<(), StoreFault> {
        self.parts.drop_below(number);
        self.numbers.forget_below(number);
        Ok(())
    }
}

impl FaultlessStore for MemoryStore {
    ghost faultless = { λ m. refl };
}
