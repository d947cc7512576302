//! Maps from key to state, whichever way they are kept.

ghost use Rattle.std.specs.Prelude.{◌≡◌, List, IsTrue, None, OnOk, OnErr, Some, false};
ghost use Rattle.std.specs.BTreeMap.{insert_entry, is_at};
ghost use Rattle.std.specs.List.Sorted.{IsStrictlySortedBy};
ghost use Rattle.std.specs.Map.{keys_of, remove_entry, set_value};
ghost use Rattle.abs_codec.specs.Entries.{value_at};

use abs_codec::{Codec, NoMemory};
use state_table::Table;
use std::collections::BTreeMap;
use std::mem::swap;

/// A map that is written by key.
pub(crate) trait StateMap<K: Ord, S> {
    /// The entries, by rising keys.
    ghost entries: { Self → List (K × S) };

    /// Swaps the state at a key with this one, and says whether there was one.
    fn swap_state(&mut self, key: &K, state: &mut S) -> bool
        ensures there { IsTrue result
            → (value_at K.cmp (entries self.old) key.now ≡ Some state.new)
            × (entries self.new ≡ set_value (is_at (K.cmp key.now)) (entries self.old) state.old) }
        ensures none { result ≡ false → (value_at K.cmp (entries self.old) key.now ≡ None)
            × (entries self.new ≡ entries self.old) × (state.new ≡ state.old) }
        // The keys rise.
        ensures ordered { IsStrictlySortedBy K.cmp (keys_of (entries self.old)) };

    /// Gives a key this state.
    fn put_state(&mut self, key: K, state: S) -> Result<(), NoMemory>
        ensures ok { OnOk result
            (entries self.new ≡ insert_entry K.cmp (entries self.old) key state) }
        ensures err { OnErr result (entries self.new ≡ entries self.old) };

    /// Takes a key away, with its state.
    fn take_away(&mut self, key: &K)
        ensures { entries self.new ≡ remove_entry (is_at (K.cmp key.now)) (entries self.old) };
}

impl<K: Codec + Ord, S: Drop> StateMap<K, S> for Table<K, S> {
    ghost entries = { λ table. table };

    fn swap_state(&mut self, key: &K, state: &mut S) -> bool {
        self.swap_near(key, u32::MAX, state)
    }

    fn put_state(&mut self, key: K, state: S) -> Result<(), NoMemory> {
        self.insert(key, state)
    }

    fn take_away(&mut self, key: &K) {
        self.remove(key);
    }
}

impl<K: Codec + Ord, S: Drop> StateMap<K, S> for BTreeMap<K, S> {
    ghost entries = { λ map. map.entries };

    fn swap_state(&mut self, key: &K, state: &mut S) -> bool {
        match self.get_mut(key) {
            Some(seen) => {
                swap(seen, state);
                true
            }
            None => false,
        }
    }

    fn put_state(&mut self, key: K, state: S) -> Result<(), NoMemory> {
        self.insert(key, state)?;
        Ok(())
    }

    fn take_away(&mut self, key: &K) {
        self.remove(key);
    }
}
