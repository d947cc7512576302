//! The numbers of a store in memory.

ghost use Rattle.std.specs.Prelude.{◌≡◌, ℕ, IfOk, IfErr, OnOk, Some, [], filter, length, nat_lt, not, slice_get};
ghost use Rattle.std.specs.FinSet as set;
ghost use Rattle.std.specs.List.Sorted.{IsSearchInRange, IsStrictlySortedBy};
ghost use Rattle.std.specs.Ordering.{nat_cmp};
ghost use Rattle.snapshot_store.specs.Store.{IsGreatest};
ghost use Rattle.snapshot_store.specs.Placed.{Fits};
ghost use Rattle.snapshot_store.specs.Memory.{IsNoted, complete_of};

use std::alloc::{AllocError, Global};
use std::collections::BTreeSet;
use std::marker::Model;

/// The complete numbers, and a place among them for each number that has had a part and is not
/// complete.
#[derive(Drop)]
pub(crate) struct Numbers {
    /// Rising. To make a number complete takes time linear in those above it.
    complete: Vec<u64>,
    pending: BTreeSet<u64>,
}

impl Model for Numbers {
    ghost use Rattle.std.specs.Prelude.{◌≤◌, ◌+◌, length, vec_capacity};
    ghost use Rattle.std.specs.List.Sorted.{IsStrictlySortedBy};
    ghost use Rattle.std.specs.Ordering.{nat_cmp};
    ghost use Rattle.snapshot_store.specs.Memory.{Noted};

    ghost Value = { Noted };

    ghost view = { λ n. record { complete = n.complete.items; pending = n.pending.keys } };

    ghost invariant = { λ n. IsStrictlySortedBy nat_cmp n.complete.items
        × (length n.complete.items + length n.pending.keys ≤ vec_capacity n.complete) };
}

/// Where a number stands, or else its place.
fn place_of(numbers: &[u64], number: u64) -> Result<usize, usize>
    requires { IsStrictlySortedBy nat_cmp numbers.now }
    ensures within { IsSearchInRange result (length numbers.now) }
    ensures found { IfOk result (λ place. slice_get numbers.now place ≡ Some number) }
    ensures absent { IfErr result (λ place. Fits nat_cmp (λ n. n) number numbers.now place) }
{
    numbers.binary_search(&number)
}

impl Numbers {
    /// No numbers. It takes no memory.
    pub(crate) fn new(alloc: Global) -> Numbers
        ensures { result ≡ record { complete = []; pending = [] } }
    {
        Numbers::from_complete(alloc, Vec::new(alloc))
    }

    /// These numbers are complete, and no others are noted.
    pub(crate) fn from_complete(alloc: Global, complete: Vec<u64>) -> Numbers
        requires { IsStrictlySortedBy nat_cmp complete.items }
        ensures { result ≡ record { complete = complete.items; pending = [] } }
    {
        Numbers {
            complete,
            pending: BTreeSet::new(alloc),
        }
    }

    pub(crate) fn is_complete(&self, number: u64) -> bool
        ensures { result ≡ set.contains (complete_of self.now) number }
    {
        place_of(&self.complete, number).is_ok()
    }

    /// The complete number at a place in rising order, from 0.
    pub(crate) fn complete_at(&self, index: u64) -> Option<u64>
        ensures found { result ≡ slice_get self.now.complete index }
        ensures rising { IsStrictlySortedBy nat_cmp self.now.complete }
    {
        self.complete.get(index as usize).copied()
    }

    /// The greatest complete number.
    pub(crate) fn latest(&self) -> Option<u64>
        ensures { IsGreatest (complete_of self.now) result }
    {
        self.complete.last().copied()
    }

    /// Makes a place for a number.
    pub(crate) fn note(&mut self, number: u64) -> Result<(), AllocError>
        ensures there { OnOk result (IsNoted self.new number) }
        ensures same { self.new.complete ≡ self.old.complete }
        ensures keeps { (n : ℕ) → IsNoted self.old n → IsNoted self.new n }
    {
        if self.is_complete(number) {
            return Ok(());
        }
        self.complete.reserve(self.pending.len() + 1)?;
        self.pending.insert(number)?;
        Ok(())
    }

    /// Makes a number complete, at the place that it has. It takes no memory.
    pub(crate) fn complete(&mut self, number: u64)
        requires { IsNoted self.old number }
        ensures marked { complete_of self.new ≡ set.insert (complete_of self.old) number }
        ensures keeps { (n : ℕ) → IsNoted self.old n → IsNoted self.new n }
    {
        let Err(place) = place_of(&self.complete, number) else {
            return;
        };
        self.pending.remove(&number);
        let _ = self.complete.insert(place, number);
    }

    /// Forgets the numbers below that are not complete.
    pub(crate) fn forget_below(&mut self, number: u64)
        ensures { self.new ≡ record self.old {
          pending = filter (λ n. not (nat_lt n number))
              self.old.pending;
        } }
    {
        self.pending.retain(|n| *n >= number);
    }
}
