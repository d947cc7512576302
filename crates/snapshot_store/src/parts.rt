//! The parts of a store in memory.

ghost use Rattle.std.specs.Prelude.{◌≡◌, IfOk, IfErr, OnOk, OnErr, None, Some, is_some, length, nat_lt, not, slice_get};
ghost use Rattle.std.specs.FinMap as fin;
ghost use Rattle.std.specs.List.Sorted.{IsSearchInRange, IsStrictlySortedBy};
ghost use Rattle.std.specs.Map.{keys_of};
ghost use Rattle.std.specs.Option.{option_map};
ghost use Rattle.snapshot_store.specs.Store.{key_cmp};
ghost use Rattle.snapshot_store.specs.Placed.{Fits};
ghost use Rattle.snapshot_store.specs.Memory.{parts_of};

use abs_codec::NoMemory;
use bytes::Bytes;
use std::alloc::{AllocError, Global};
use std::collections::BTreeMap;
use std::marker::Model;

type Entry = ((u64, u32), Bytes);

/// Parts by number and task.
#[derive(Drop)]
pub(crate) struct Parts {
    /// By rising keys. To put a part takes time linear in those above it, which are of the same
    /// number where numbers rise.
    entries: Vec<Entry>,
}

impl Model for Parts {
    ghost use Rattle.std.specs.List.Sorted.{IsStrictlySortedBy};
    ghost use Rattle.std.specs.Map.{keys_of};
    ghost use Rattle.snapshot_store.specs.Store.{key_cmp};
    ghost use Rattle.snapshot_store.specs.Memory as memory;

    ghost Value = { memory.Parts };

    ghost coded = { memory.parts_code };

    ghost view = { λ p. memory.parts_of p.entries.items };

    ghost invariant = { λ p. IsStrictlySortedBy key_cmp (keys_of p.entries.items) };
}

/// Where a part stands, or else its place.
fn place_of(entries: &[Entry], number: u64, task: u32) -> Result<usize, usize>
    requires { IsStrictlySortedBy key_cmp (keys_of entries.now) }
    ensures within { IsSearchInRange result (length entries.now) }
    ensures found { IfOk result (λ place. slice_get (keys_of entries.now) place
        ≡ Some (number, task)) }
    ensures absent { IfErr result (λ place. Fits key_cmp (λ e. e.0) (number, task)
        entries.now place) }
{
    entries.binary_search_by_key(&(number, task), |entry| entry.0)
}

/// The bytes of a part, to be shared. They are not copied.
fn shared(part: abs_codec::Bytes) -> Result<Bytes, NoMemory>
    ensures { IfOk result (λ bytes. bytes ≡ part) }
{
    Ok(Bytes::from_vec(part.into_vec())?)
}

impl Parts {
    /// No parts. It takes no memory.
    pub(crate) fn new(alloc: Global) -> Parts
        ensures { result ≡ fin.empty }
    {
        Parts {
            entries: Vec::new(alloc),
        }
    }

    /// These parts, whose bytes are not copied.
    pub(crate) fn from_map(
        alloc: Global,
        map: BTreeMap<(u64, u32), abs_codec::Bytes>,
    ) -> Result<Parts, NoMemory>
        ensures parts { IfOk result (λ parts. parts ≡ parts_of map.entries) }
        ensures rising { OnOk result (IsStrictlySortedBy key_cmp (keys_of map.entries)) }
    {
        let mut entries = Vec::with_capacity(alloc, map.len())?;
        for (key, part) in map {
            entries.push((key, shared(part)?))?;
        }
        Ok(Parts { entries })
    }

    pub(crate) fn has(&self, number: u64, task: u32) -> bool
        ensures { result ≡ is_some (fin.get self.now (number, task)) }
    {
        place_of(&self.entries, number, task).is_ok()
    }

    pub(crate) fn get(&self, number: u64, task: u32) -> Option<&[u8]>
        ensures { option_map (λ bytes. bytes.now) result ≡ fin.get self.now (number, task) }
    {
        match place_of(&self.entries, number, task) {
            Ok(place) => Some(self.entries[place].1.as_slice()),
            Err(_) => None,
        }
    }

    /// The part at a place in rising order by number and then by task, from 0.
    pub(crate) fn part_at(&self, index: u64) -> Option<(u64, u32, &[u8])>
        ensures { option_map (λ part. ((part.0, part.1), part.2.now)) result
            ≡ slice_get (fin.entries self.now) index }
    {
        let entry = self.entries.get(index as usize)?;
        Some((entry.0.0, entry.0.1, entry.1.as_slice()))
    }

    /// Keeps a part that is not there yet.
    pub(crate) fn put(&mut self, number: u64, task: u32, part: Bytes) -> Result<(), AllocError>
        requires { fin.get self.old (number, task) ≡ None }
        ensures ok { OnOk result (self.new ≡ fin.insert self.old (number, task) part) }
        ensures err { OnErr result (self.new ≡ self.old) }
    {
        if let Err(place) = place_of(&self.entries, number, task) {
            self.entries.insert(place, ((number, task), part))?;
        }
        Ok(())
    }

    /// Drops the parts of the numbers below.
    pub(crate) fn drop_below(&mut self, number: u64)
        ensures { self.new ≡ fin.retain_keys self.old (λ k. not (nat_lt k.0 number)) }
    {
        self.entries.retain(|entry| entry.0.0 >= number);
    }
}
