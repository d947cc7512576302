//! A finite map, and the map as it was at `freeze`.

ghost use Rattle.std.specs.Prelude.{◌≡◌, ◌≢◌, ◌≤◌, ◌+◌, ◌-◌, ◌↔◌, ℕ, [], ◌++◌, length, count_by, not, is_some, Some, None, Err, IsTrue, IsOk, OnOk, OnErr, IfOk, IfErr, IfSome, IfNone, if◌then◌else◌};
ghost use Rattle.std.specs.Option.{option_copied, option_or};
ghost use Rattle.std.specs.List.Sorted.{IsStrictlySortedBy};
ghost use Rattle.std.specs.Map.{keys_of};
ghost use Rattle.std.specs.BTreeMap.{insert_entry, is_at};
ghost use Rattle.abs_codec.specs.Entries.{value_at};
ghost use Rattle.abs_codec.specs.Same.{EqualIsSame};
ghost use Rattle.keyed_state.specs.Comparing.{HaveStates};
ghost use Rattle.keyed_state.specs.KeyedMap.{entries_above, frozen_entries};
ghost use Rattle.keyed_state.specs.Overlay.{put_over};
ghost use Rattle.keyed_state.specs.Putting.{has_key};
ghost use Rattle.keyed_state.specs.declared.comparing.SetFault.TheVariants as SetFault;

use crate::comparing::{SetFault, count_none, exchange_all_in, is_expected};
use crate::lending::{Lendable, Lent};
use crate::putting::{insert_in, make_ready, put_all, put_all_in, put_in_both};
use crate::seen::Seen;
use abs_codec::{Codec, CodecFault, Map, NoMemory};
use state_table::{Entries, Table};
use std::alloc::Global;
use std::collections::BTreeMap;
use std::marker::Model;
use std::mem::replace;

/// A map from key to state, and the map as it was when it was frozen.
#[derive(Drop)]
pub struct KeyedState<K: Ord, S> {
    /// The map as it was at `freeze`, or as it is but for what is in the overlay.
    base: Lendable<Table<K, S>>,
    /// What was written since `freeze`, and is not merged yet.
    overlay: BTreeMap<K, S>,
    /// How many keys the map has that is seen.
    len: usize,
    is_frozen: bool,
    alloc: Global,
}

impl<K: Ord, S> Model for KeyedState<K, S> {
    ghost use Rattle.std.specs.Prelude.{Some, None, length, if◌then◌else◌};
    ghost use Rattle.keyed_state.specs.KeyedMap.{KeyedMap};
    ghost use Rattle.keyed_state.specs.Overlay.{put_over, IsLaidOver};

    ghost Value = { KeyedMap K S };

    ghost view = { λ k. record {
      entries = put_over K.cmp k.base k.overlay.entries;
      frozen = if k.is_frozen then Some k.base else None;
      unmerged = length k.overlay.entries;
    } };

    ghost invariant = { λ k. IsLaidOver K.cmp k.base k.overlay.entries k.len };
}

/// The states as they were when they were lent.
#[derive(Drop)]
pub struct LentStates<K: Ord, S> {
    base: Lent<Table<K, S>>,
}

impl<K: Ord, S> Model for LentStates<K, S> {
    ghost use Rattle.std.specs.Prelude.{List};

    ghost Value = { List (K × S) };

    ghost view = { λ l. l.base };
}

impl<K: Ord, S> LentStates<K, S> {
    /// The state at a key.
    pub fn get(&self, key: &K) -> Option<&S>
        ensures { option_copied result ≡ value_at K.cmp self.now key.now }
    {
        self.base.value().get(key)
    }
}

impl<K: Ord, S> KeyedState<K, S> {
    /// An empty map. It takes no memory.
    pub fn new(alloc: Global) -> Self
        ensures { result ≡ record { entries = []; frozen = None; unmerged = 0 } }
    {
        KeyedState::from_table(alloc, Table::new(alloc))
    }

    /// This table, with nothing frozen.
    fn from_table(alloc: Global, table: Table<K, S>) -> Self
        ensures { result ≡ record { entries = table; frozen = None; unmerged = 0 } }
    {
        let len = table.len();
        KeyedState {
            base: Lendable::new(table),
            overlay: BTreeMap::new(alloc),
            len,
            is_frozen: false,
            alloc,
        }
    }

    /// A map with these states, which were lent, and with nothing frozen. Those who read them with
    /// it go on. It takes no memory.
    pub fn from_lent(alloc: Global, lent: LentStates<K, S>) -> Self
        ensures { result ≡ record { entries = lent; frozen = None; unmerged = 0 } }
    {
        let len = lent.base.value().len();
        KeyedState {
            base: Lendable::of_lent(lent.base),
            overlay: BTreeMap::new(alloc),
            len,
            is_frozen: false,
            alloc,
        }
    }

    /// How many keys the map has.
    pub fn len(&self) -> usize
        ensures len { result ≡ length self.now.entries }
        // The keys rise.
        ensures ordered { IsStrictlySortedBy K.cmp (keys_of self.now.entries) }
    {
        self.len
    }

    /// Whether the map has no keys.
    pub fn is_empty(&self) -> bool
        ensures { IsTrue result ↔ (self.now.entries ≡ []) }
    {
        self.len == 0
    }

    /// The state at a key, in the map that is seen.
    pub fn get(&self, key: &K) -> Option<&S>
        ensures { option_copied result ≡ value_at K.cmp self.now.entries key.now }
    {
        match self.overlay.get(key) {
            Some(state) => Some(state),
            None => self.base.value().get(key),
        }
    }

    /// How many keys there are once this one has a state.
    fn len_with(&self, key: &K) -> usize
        ensures { result ≡ length self.now.entries
            + (if is_some (value_at K.cmp self.now.entries key.now) then 0 else 1) }
    {
        if self.get(key).is_some() {
            return self.len;
        }
        prove!(self.len <= self.base.value().len() + self.overlay.len());
        self.len + 1
    }

    /// Whether there is a frozen map.
    pub fn is_frozen(&self) -> bool
        ensures { result ≡ is_some self.now.frozen }
    {
        self.is_frozen
    }

    /// How many keys have a later write that is still to be merged.
    pub fn unmerged(&self) -> usize
        ensures { result ≡ self.now.unmerged }
    {
        self.overlay.len()
    }

    /// The frozen map.
    pub fn frozen(&self) -> Option<&Table<K, S>>
        ensures { option_copied result ≡ self.now.frozen }
    {
        if self.is_frozen {
            Some(self.base.value())
        } else {
            None
        }
    }

    /// The entries of the frozen map whose keys are above this one, or all of them, by rising keys;
    /// `None` where no map is frozen.
    pub fn frozen_above(&self, after: Option<&K>) -> Option<Entries<'_, K, S>>
        ensures above { IfSome result (λ entries. entries
            ≡ entries_above K.cmp (option_copied after.entry) (frozen_entries self.now)) }
        ensures none { IfNone result (self.now.frozen ≡ None) }
        // The keys rise.
        ensures ordered { IfSome result (λ _. IsStrictlySortedBy K.cmp
            (keys_of (frozen_entries self.now))) }
    {
        let frozen = self.frozen()?;
        match after {
            Some(key) => Some(frozen.above(key)),
            None => Some(frozen.entries()),
        }
    }

    /// The states for a reader, who may keep them however they are written here. `None` where the
    /// map is not ready for that. It takes no memory.
    pub fn lend(&self) -> Option<LentStates<K, S>>
        ensures { IfSome result (λ lent. lent ≡ self.now.entries) }
    {
        if self.is_frozen || !self.overlay.is_empty() {
            return None;
        }
        Some(LentStates {
            base: self.base.lend()?,
        })
    }

    /// Ends the frozen map. It takes no memory, and what was written since stays to be merged.
    pub fn thaw(&mut self)
        ensures { self.new ≡ record self.old { frozen = None } }
    {
        self.is_frozen = false;
    }
}

impl<K: Codec + Ord, S: Codec> LentStates<K, S> {
    /// A copy of the state at a key, if there is one, and where it stands. (Whether the key is looked
    /// up alone decides what is in a cache afterwards, and nothing else.)
    pub fn seen(&self, key: &K, is_alone: bool) -> Result<Seen<S>, NoMemory>
        ensures { IfOk result (λ seen. seen ≡ value_at K.Ord.cmp self.now key.now) }
    {
        let found = if is_alone {
            self.base.value().find_alone(key)
        } else {
            self.base.value().find(key)
        };
        match found {
            Some((place, state)) => Ok(Seen::at(state.copied()?, place)),
            None => Ok(Seen::somewhere(None)),
        }
    }
}

impl<K: Codec + Ord, S: Codec> KeyedState<K, S> {
    /// This map, as `Map::decode` reads one, with nothing frozen.
    pub fn from_map(alloc: Global, map: Map<K, S>) -> Result<Self, NoMemory>
        ensures { IfOk result (λ made. made
            ≡ record { entries = map; frozen = None; unmerged = 0 }) }
    {
        let table = Table::from_map(alloc, map)?;
        Ok(KeyedState::from_table(alloc, table))
    }

    /// Gives the key this state. The frozen map stays.
    pub fn set(&mut self, key: K, state: S) -> Result<(), NoMemory>
        ensures entries { OnOk result
            (self.new.entries ≡ insert_entry K.Ord.cmp self.old.entries key state) }
        ensures states { OnOk result ((q : K) → value_at K.Ord.cmp self.new.entries q
            ≡ (if is_at (K.Ord.cmp key) q then Some state
            else value_at K.Ord.cmp self.old.entries q)) }
        ensures frozen { self.new.frozen ≡ self.old.frozen }
        // Only a frozen map has more to merge after it.
        ensures unmerged { self.new.unmerged
            ≤ self.old.unmerged + (if is_some self.old.frozen then 1 else 0) }
        ensures none_merged { self.old.unmerged ≤ self.new.unmerged }
        ensures ordered { IsStrictlySortedBy K.Ord.cmp (keys_of self.new.entries) }
        ensures err { OnErr result (self.new ≡ self.old) }
    {
        if !self.is_frozen && self.overlay.is_empty() {
            return self.set_alone(key, state);
        }
        let len = self.len_with(&key);
        if self.is_frozen || self.overlay.contains_key(&key) {
            self.overlay.insert(key, state)?;
            self.len = len;
            return Ok(());
        }
        insert_in(self.alloc, &mut self.base, key, state)?;
        self.len = len;
        Ok(())
    }

    /// Gives the key this state, where no other map is kept beside the one that is seen: the key is
    /// looked up once.
    fn set_alone(&mut self, key: K, state: S) -> Result<(), NoMemory>
        requires none_frozen { self.old.frozen ≡ None }
        requires none_left { self.old.unmerged ≡ 0 }
        ensures entries { OnOk result
            (self.new.entries ≡ insert_entry K.Ord.cmp self.old.entries key state) }
        ensures states { OnOk result ((q : K) → value_at K.Ord.cmp self.new.entries q
            ≡ (if is_at (K.Ord.cmp key) q then Some state
            else value_at K.Ord.cmp self.old.entries q)) }
        ensures stays { self.new ≡ record self.old { entries = self.new.entries } }
        ensures ordered { IsStrictlySortedBy K.Ord.cmp (keys_of self.new.entries) }
        ensures err { OnErr result (self.new ≡ self.old) }
    {
        insert_in(self.alloc, &mut self.base, key, state)?;
        self.len = self.base.value().len();
        Ok(())
    }

    /// How many keys there are once these, each there once, have a state.
    fn len_with_all(&self, entries: &[(K, S)]) -> Result<usize, NoMemory>
        ensures len { IfOk result (λ len. len ≡ length self.now.entries
            + count_by (λ e. not (has_key K.Ord.cmp self.now.entries e)) entries.now) }
        // The keys rise.
        ensures ordered { IsStrictlySortedBy K.Ord.cmp (keys_of self.now.entries) }
    {
        let mut len = self.len();
        for entry in entries {
            if self.get(&entry.0).is_none() {
                len = len.checked_add(1).ok_or(NoMemory)?;
            }
        }
        Ok(len)
    }

    /// Gives each of these keys, which rise, its state, or none of them where memory is refused.
    /// The frozen map stays.
    pub fn set_all(&mut self, entries: Vec<(K, S)>) -> Result<(), NoMemory>
        requires { IsStrictlySortedBy K.Ord.cmp (keys_of entries.items) }
        ensures entries { OnOk result
            (self.new.entries ≡ put_over K.Ord.cmp self.old.entries entries.items) }
        ensures states { OnOk result ((q : K) → value_at K.Ord.cmp self.new.entries q
            ≡ option_or (value_at K.Ord.cmp entries.items q)
            (value_at K.Ord.cmp self.old.entries q)) }
        ensures frozen { self.new.frozen ≡ self.old.frozen }
        // Only a frozen map has more to merge after it.
        ensures unmerged { self.new.unmerged ≤ self.old.unmerged
            + (if is_some self.old.frozen then length entries.items else 0) }
        ensures none_merged { self.old.unmerged ≤ self.new.unmerged }
        ensures ordered { IsStrictlySortedBy K.Ord.cmp (keys_of self.new.entries) }
        ensures err { OnErr result (self.new ≡ self.old) }
    {
        if !self.is_frozen && self.overlay.is_empty() {
            return self.set_all_alone(entries);
        }
        let len = self.len_with_all(&entries)?;
        self.set_all_beside(entries, len)
    }

    /// Gives each of these keys its state, or none of them where memory is refused, where another
    /// map may be kept beside the one that is seen. So many keys are seen then.
    fn set_all_beside(&mut self, entries: Vec<(K, S)>, len: usize) -> Result<(), NoMemory>
        requires rising { IsStrictlySortedBy K.Ord.cmp (keys_of entries.items) }
        requires len { len ≡ length self.old.entries
            + count_by (λ e. not (has_key K.Ord.cmp self.old.entries e)) entries.items }
        ensures entries { OnOk result
            (self.new.entries ≡ put_over K.Ord.cmp self.old.entries entries.items) }
        ensures states { OnOk result ((q : K) → value_at K.Ord.cmp self.new.entries q
            ≡ option_or (value_at K.Ord.cmp entries.items q)
            (value_at K.Ord.cmp self.old.entries q)) }
        ensures frozen { self.new.frozen ≡ self.old.frozen }
        ensures unmerged { self.new.unmerged ≤ self.old.unmerged
            + (if is_some self.old.frozen then length entries.items else 0) }
        ensures none_merged { self.old.unmerged ≤ self.new.unmerged }
        ensures ordered { IsStrictlySortedBy K.Ord.cmp (keys_of self.new.entries) }
        ensures err { OnErr result (self.new ≡ self.old) }
    {
        if self.is_frozen {
            put_all(self.alloc, &mut self.overlay, entries)?;
            self.len = len;
            return Ok(());
        }
        put_in_both(self.alloc, &mut self.base, &mut self.overlay, entries)?;
        self.len = len;
        Ok(())
    }

    /// Gives each of these keys its state, or none of them where memory is refused, where no other
    /// map is kept beside the one that is seen: no key is looked up to be counted.
    fn set_all_alone(&mut self, entries: Vec<(K, S)>) -> Result<(), NoMemory>
        requires rising { IsStrictlySortedBy K.Ord.cmp (keys_of entries.items) }
        requires none_frozen { self.old.frozen ≡ None }
        requires none_left { self.old.unmerged ≡ 0 }
        ensures entries { OnOk result
            (self.new.entries ≡ put_over K.Ord.cmp self.old.entries entries.items) }
        ensures stays { self.new ≡ record self.old { entries = self.new.entries } }
        ensures ordered { IsStrictlySortedBy K.Ord.cmp (keys_of self.new.entries) }
        ensures err { OnErr result (self.new ≡ self.old) }
    {
        put_all_in(self.alloc, &mut self.base, entries)?;
        self.len = self.base.value().len();
        Ok(())
    }

    /// Whether each of these keys has the state that is expected of it, `None` where it has none.
    fn has_states(&self, entries: &[(K, S)], expected: &[Seen<S>]) -> bool
    where
        S: Eq,
        requires { EqualIsSame S.Eq.eq }
        ensures { IsTrue result
            ↔ HaveStates K.Ord.cmp self.now.entries (keys_of entries.now) expected.now }
    {
        let mut left = expected;
        for entry in entries {
            let Some((first, others)) = left.split_first() else {
                return false;
            };
            if !is_expected(self.get(&entry.0), first.state()) {
                return false;
            }
            left = others;
        }
        left.is_empty()
    }

    /// Gives each of these keys, which rise, its state, where each has the one that is expected of
    /// it, `None` where it has none. Else, and where memory is refused, none is given. The frozen
    /// map stays. What is left in the list is to be let go.
    pub fn compare_and_set_all(
        &mut self,
        entries: &mut Vec<(K, S)>,
        expected: &[Seen<S>],
    ) -> Result<(), SetFault>
    where
        S: Eq,
        // States that compare equal are one.
        requires exact { EqualIsSame S.Eq.eq }
        requires rising { IsStrictlySortedBy K.Ord.cmp (keys_of entries.old.items) }
        ensures entries { OnOk result
            (self.new.entries ≡ put_over K.Ord.cmp self.old.entries entries.old.items) }
        ensures states { OnOk result ((q : K) → value_at K.Ord.cmp self.new.entries q
            ≡ option_or (value_at K.Ord.cmp entries.old.items q)
            (value_at K.Ord.cmp self.old.entries q)) }
        ensures expected { OnOk result (HaveStates K.Ord.cmp self.old.entries
            (keys_of entries.old.items) expected.now) }
        // What is told of the states is so.
        ensures changed { result ≡ Err SetFault.Changed → ¬ HaveStates K.Ord.cmp
            self.old.entries (keys_of entries.old.items) expected.now }
        ensures frozen { self.new.frozen ≡ self.old.frozen }
        // Only a frozen map has more to merge after it.
        ensures unmerged { self.new.unmerged ≤ self.old.unmerged
            + (if is_some self.old.frozen then length entries.old.items else 0) }
        ensures none_merged { self.old.unmerged ≤ self.new.unmerged }
        ensures ordered { IsStrictlySortedBy K.Ord.cmp (keys_of self.new.entries) }
        ensures err { OnErr result (self.new ≡ self.old) }
    {
        if !self.is_frozen && self.overlay.is_empty() {
            return self.exchange_all_alone(entries, expected);
        }
        if !self.has_states(entries, expected) {
            return Err(SetFault::Changed);
        }
        // A key is new where none is expected.
        let Some(len) = self.len().checked_add(count_none(expected)) else {
            return Err(SetFault::Memory);
        };
        let entries = replace(entries, Vec::new(self.alloc));
        self.set_all_beside(entries, len)?;
        Ok(())
    }

    /// Gives each of these keys its state, where each has the one that is expected of it, and where
    /// no other map is kept beside the one that is seen: each key is looked up once.
    fn exchange_all_alone(
        &mut self,
        entries: &mut Vec<(K, S)>,
        expected: &[Seen<S>],
    ) -> Result<(), SetFault>
    where
        S: Eq,
        requires none_frozen { self.old.frozen ≡ None }
        requires none_left { self.old.unmerged ≡ 0 }
        requires exact { EqualIsSame S.Eq.eq }
        requires rising { IsStrictlySortedBy K.Ord.cmp (keys_of entries.old.items) }
        ensures entries { OnOk result
            (self.new.entries ≡ put_over K.Ord.cmp self.old.entries entries.old.items) }
        ensures expected { OnOk result (HaveStates K.Ord.cmp self.old.entries
            (keys_of entries.old.items) expected.now) }
        ensures changed { result ≡ Err SetFault.Changed → ¬ HaveStates K.Ord.cmp
            self.old.entries (keys_of entries.old.items) expected.now }
        ensures stays { self.new ≡ record self.old { entries = self.new.entries } }
        ensures ordered { IsStrictlySortedBy K.Ord.cmp (keys_of self.new.entries) }
        ensures err { OnErr result (self.new ≡ self.old) }
    {
        exchange_all_in(self.alloc, &mut self.base, entries, expected)?;
        self.len = self.base.value().len();
        Ok(())
    }

    /// The frozen map for a reader, who may keep it however the map is written here. `None` where
    /// no map is frozen, or there is no memory to share it.
    pub fn lend_frozen(&mut self) -> Option<LentStates<K, S>>
        ensures lent { IfSome result (λ lent. self.old.frozen ≡ Some lent) }
        ensures same { self.new ≡ self.old }
    {
        if !self.is_frozen() {
            return None;
        }
        make_ready(self.alloc, &mut self.base);
        Some(LentStates {
            base: self.base.lend()?,
        })
    }

    /// Keeps the map as it is now beside it, in place of what was frozen before. It takes no
    /// memory where nothing is left to merge. An `Err` leaves both maps as they were.
    pub fn freeze(&mut self) -> Result<(), NoMemory>
        ensures ok { OnOk result
            (self.new ≡ record self.old { frozen = Some self.old.entries; unmerged = 0 }) }
        // It is never refused where nothing is left to merge.
        ensures merged { self.old.unmerged ≡ 0 → IsOk result }
        ensures entries_stay { self.new.entries ≡ self.old.entries }
        ensures frozen_stays { OnErr result (self.new.frozen ≡ self.old.frozen) }
        ensures unmerged { self.new.unmerged ≤ self.old.unmerged }
    {
        if self.is_frozen {
            return self.renew();
        }
        let all = self.overlay.len();
        self.merge(all)?;
        self.is_frozen = true;
        Ok(())
    }

    /// Merges at most so many of the later writes, and says how many are left. While the map is
    /// frozen, none is merged. The map that is seen stays, also where memory is refused.
    pub fn merge(&mut self, most: usize) -> Result<usize, NoMemory>
        ensures ok { IfOk result (λ left. left
            ≡ (if is_some self.old.frozen then self.old.unmerged else self.old.unmerged - most)) }
        ensures left { IfOk result (λ left. left ≡ self.new.unmerged) }
        // It is never refused where nothing is left to merge.
        ensures merged { self.old.unmerged ≡ 0 → IsOk result }
        ensures stays { self.new ≡ record self.old { unmerged = self.new.unmerged } }
        ensures unmerged { self.new.unmerged ≤ self.old.unmerged }
    {
        if !self.is_frozen {
            for _ in 0..most.min(self.overlay.len()) {
                self.merge_last()?;
            }
        }
        Ok(self.overlay.len())
    }

    /// Merges the last of the later writes, if there is one: its leaf moves no other. It is copied,
    /// so that a refusal loses nothing.
    fn merge_last(&mut self) -> Result<(), NoMemory>
        requires { self.old.frozen ≡ None }
        ensures ok { OnOk result
            (self.new ≡ record self.old { unmerged = self.old.unmerged - 1 }) }
        ensures err { OnErr result (self.new ≡ self.old) }
    {
        if let Some((key, later)) = self.overlay.last_key_value() {
            let (key, later) = (key.copied()?, later.copied()?);
            insert_in(self.alloc, &mut self.base, key, later)?;
            let _merged = self.overlay.pop_last();
        }
        Ok(())
    }

    /// Makes the map that is seen the frozen one, by way of a copy where it was written since.
    fn renew(&mut self) -> Result<(), NoMemory>
        requires { IsTrue (is_some self.old.frozen) }
        ensures ok { OnOk result
            (self.new ≡ record self.old { frozen = Some self.old.entries; unmerged = 0 }) }
        ensures merged { self.old.unmerged ≡ 0 → IsOk result }
        ensures err { OnErr result (self.new ≡ self.old) }
    {
        if !self.overlay.is_empty() {
            self.base = Lendable::new(self.whole()?);
            self.overlay.clear();
        }
        Ok(())
    }

    /// A copy of the map that is seen.
    fn whole(&self) -> Result<Table<K, S>, NoMemory>
        ensures { IfOk result (λ table. table ≡ self.now.entries) }
    {
        let mut whole = self.base.value().copied()?;
        for (key, state) in &self.overlay {
            whole.insert(key.copied()?, state.copied()?)?;
        }
        Ok(whole)
    }

    /// Appends the spelling of the map that is seen. An `Err` leaves the vector as it was.
    pub fn encode(&self, out: &mut Vec<u8>) -> Result<(), CodecFault>
        ensures appended { OnOk result (⟦<Map<K, S> as Codec>⟧.HasSpelling self.now.entries
            × (out.new.items
            ≡ out.old.items ++ ⟦<Map<K, S> as Codec>⟧.spelling self.now.entries)) }
        ensures unchanged { OnErr result (out.new.items ≡ out.old.items) }
        ensures too_long { IfErr result (λ f. f ≢ CodecFault.Memory
            → (f ≡ CodecFault.TooLong) × ¬ ⟦<Map<K, S> as Codec>⟧.HasSpelling self.now.entries) }
    {
        let table = self.whole()?;
        let map = table.whole()?;
        map.encode(out)
    }
}
