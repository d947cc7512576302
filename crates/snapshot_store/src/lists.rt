//! What a store in memory holds, as lists, and the store that such lists make.

ghost use Rattle.std.specs.Prelude.{◌≡◌, ℕ, IsSome, OnOk};
ghost use Rattle.std.specs.FinMap as fin;
ghost use Rattle.snapshot_store.specs.Memory.{IsNoted, parts_of};

use crate::memory_store::MemoryStore;
use crate::numbers::Numbers;
use crate::parts::Parts;
use crate::store::SnapshotStore;
use abs_codec::{Bytes, Items, Map, NoMemory};
use std::alloc::Global;
use std::collections::BTreeMap;

/// Makes a place for the number of each part.
fn note_numbers(numbers: &mut Numbers, parts: &BTreeMap<(u64, u32), Bytes>) -> Result<(), NoMemory>
    ensures same { numbers.new.complete ≡ numbers.old.complete }
    ensures noted { OnOk result ((n t : ℕ) → IsSome (fin.get (parts_of parts.now.entries) (n, t))
        → IsNoted numbers.new n) }
{
    for (key, _) in parts {
        numbers.note(key.0)?;
    }
    Ok(())
}

impl MemoryStore {
    ghost use Rattle.std.specs.Prelude.{◌≡◌, ◌≤◌, ◌^◌, IfOk, slice_get};
    ghost use Rattle.std.specs.List.{All};
    ghost use Rattle.std.specs.List.Sorted.{IsStrictlySortedBy};
    ghost use Rattle.std.specs.Option.{option_map};
    ghost use Rattle.std.specs.Ordering.{nat_cmp};
    ghost use Rattle.snapshot_store.specs.Lists.{MayBePut, WasGiven, complete_list, part_list};

    /// The number that is given out next.
    pub fn next_number(&self) -> u64
        ensures { result ≡ (⟦<MemoryStore as SnapshotStore>⟧.state self.now).next }
    {
        self.next
    }

    /// The complete number at a place in rising order, from 0.
    pub fn complete_at(&self, index: u64) -> Option<u64>
        ensures { result ≡ slice_get (complete_list
            (⟦<MemoryStore as SnapshotStore>⟧.state self.now)) index }
    {
        self.numbers.complete_at(index)
    }

    /// The part at a place in rising order by number and then by task, from 0: its number, its task
    /// and its bytes.
    pub fn part_at(&self, index: u64) -> Option<(u64, u32, &[u8])>
        ensures { option_map (λ part. ((part.0, part.1), part.2.now)) result
            ≡ slice_get (part_list (⟦<MemoryStore as SnapshotStore>⟧.state self.now)) index }
    {
        self.parts.part_at(index)
    }

    /// The store that holds these complete numbers and parts, which are not copied.
    pub fn from_lists(
        alloc: Global,
        tasks: u32,
        next: u64,
        completes: Items<u64>,
        parts: Map<(u64, u32), Bytes>,
    ) -> Result<MemoryStore, NoMemory>
        requires tasks { 1 ≤ tasks }
        requires next { (1 ≤ next) × (next ≤ 2 ^ 63) }
        requires rising { IsStrictlySortedBy nat_cmp completes }
        requires completes { All (WasGiven next) completes }
        requires parts { All (MayBePut tasks next) parts }
        ensures tasks { IfOk result (λ store.
            (⟦<MemoryStore as SnapshotStore>⟧.state store).tasks ≡ tasks) }
        ensures next { IfOk result (λ store. (⟦<MemoryStore as SnapshotStore>⟧.state store).next
            ≡ next) }
        ensures completes { IfOk result (λ store. complete_list
            (⟦<MemoryStore as SnapshotStore>⟧.state store) ≡ completes) }
        ensures parts { IfOk result (λ store. part_list
            (⟦<MemoryStore as SnapshotStore>⟧.state store) ≡ parts) }
    {
        let parts = parts.into_btree_map();
        let mut numbers = Numbers::from_complete(alloc, completes.into_vec());
        note_numbers(&mut numbers, &parts)?;
        Ok(MemoryStore {
            alloc,
            tasks,
            next,
            parts: Parts::from_map(alloc, parts)?,
            numbers,
        })
    }
}
