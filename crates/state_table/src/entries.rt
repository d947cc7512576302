//! Entries of a table, one after another.

ghost use Rattle.std.specs.Prelude.{◌≡◌, ◌∷◌, [], MatchOption};

use crate::table::{Slot, state_at};
use std::collections::btree_map::Range;
use std::marker::Model;

/// Entries of a table, by rising keys. Contracts see those that are left.
#[derive(Drop)]
pub struct Entries<'a, K: Ord, S> {
    pub(crate) places: Range<'a, K, u32>,
    pub(crate) slots: &'a [Slot<K, S>],
}

impl<'a, K: Ord, S> Model for Entries<'a, K, S> {
    ghost use Rattle.std.specs.Prelude.{List};
    ghost use Rattle.std.specs.List.{AllByRecursion};
    ghost use Rattle.state_table.specs.Slots.{HasSlot, entries_in};

    ghost Value = { List (K × S) };

    ghost view = { λ e. entries_in e.slots.now e.places };

    ghost invariant = { λ e. AllByRecursion (HasSlot e.slots.now) e.places };
}

impl<'a, K: Ord, S> Entries<'a, K, S> {
    /// The next entry, if there is one.
    pub fn next(&mut self) -> Option<(&'a K, &'a S)>
        ensures steps { MatchOption result (self.old ≡ [])
            (λ entry. self.old ≡ (entry.0.now, entry.1.now) ∷ self.new) }
    {
        let (key, place) = self.places.next()?;
        Some((key, state_at(self.slots, *place)?))
    }
}
