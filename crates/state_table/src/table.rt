//! A map from key to state, whose states stand at places.

ghost use Rattle.std.specs.Prelude.{◌≡◌, ◌≢◌, ◌<◌, ◌^◌, ℕ, [], IsTrue, IfOk, OnOk, OnErr, None, Some, false, length, filter, slice_get};
ghost use Rattle.std.specs.Option.{option_copied, option_map};
ghost use Rattle.std.specs.Ordering.{is_lt};
ghost use Rattle.std.specs.List.Sorted.{IsStrictlySortedBy};
ghost use Rattle.std.specs.Map.{keys_of, remove_entry, set_value};
ghost use Rattle.std.specs.BTreeMap.{insert_entry, is_at};
ghost use Rattle.abs_codec.specs.Entries.{value_at};
ghost use Rattle.state_table.specs.Slots.{ArePlaces, StandsAt, state_in};

use crate::entries::Entries;
use abs_codec::{Codec, Map, NoMemory};
use std::alloc::Global;
use std::cmp::Ordering;
use std::marker::Model;
use std::mem::swap;
use std::ops::Bound;

/// A key, and its state, or none where the key was taken away.
#[derive(Drop)]
pub(crate) struct Slot<K, S> {
    pub(crate) key: K,
    pub(crate) state: Option<S>,
}

/// A map from key to state. Contracts see its entries, by rising keys.
#[derive(Drop)]
pub struct Table<K: Ord, S> {
    alloc: Global,
    /// The place of each key.
    pub(crate) places: Map<K, u32>,
    pub(crate) slots: Vec<Slot<K, S>>,
}

impl<K: Ord, S> Model for Table<K, S> {
    ghost use Rattle.std.specs.Prelude.{List};
    ghost use Rattle.std.specs.List.Sorted.{IsStrictlySortedBy};
    ghost use Rattle.std.specs.Map.{keys_of};
    ghost use Rattle.state_table.specs.Slots.{ArePlaces, entries_in};

    ghost Value = { List (K × S) };

    ghost view = { λ t. entries_in t.slots.items t.places };

    ghost invariant = { λ t. ArePlaces K.cmp t.slots.items t.places
        × IsStrictlySortedBy K.cmp (keys_of t.places) };
}

/// The state at a place.
pub(crate) fn state_at<K, S>(slots: &[Slot<K, S>], place: u32) -> Option<&S>
    ensures { option_copied result ≡ state_in slots.now place }
{
    match slots.get(place as usize) {
        Some(slot) => slot.state.as_ref(),
        None => None,
    }
}

/// A key's state at a place, which is borne out by the key that stands there: whoever hands the
/// place to `swap_near` afterwards finds that key in a cache.
fn state_of<'a, K: Ord, S>(slots: &'a [Slot<K, S>], place: u32, key: &K) -> Option<&'a S>
    ensures { (own : K) (state : S) → slice_get slots.now place
        ≡ Some (record { key = own; state = Some state }) → IsTrue (is_at (K.cmp key.now) own)
        → option_copied result ≡ Some state }
{
    let slot = slots.get(place as usize)?;
    if key.cmp(&slot.key) == Ordering::Equal {
        slot.state.as_ref()
    } else {
        None
    }
}

/// A state with its place.
fn placed<S>(place: u32, state: Option<&S>) -> Option<(u32, &S)>
    ensures { option_map (λ found. found.1.now) result ≡ option_copied state.entry }
{
    match state {
        Some(state) => Some((place, state)),
        None => None,
    }
}

/// Whether a place has a state, and is this key's.
fn is_place_of<K: Ord, S>(slots: &[Slot<K, S>], place: u32, key: &K) -> bool
    ensures { IsTrue result → StandsAt K.cmp slots.now place key.now }
{
    match slots.get(place as usize) {
        Some(slot) => slot.state.is_some() && key.cmp(&slot.key) == Ordering::Equal,
        None => false,
    }
}

/// The place of a key: the one that is near, where it is that key's, or else by the tree.
fn place_near<K: Ord, S>(
    places: &Map<K, u32>,
    slots: &[Slot<K, S>],
    key: &K,
    near: u32,
) -> Option<u32>
    requires { ArePlaces K.cmp slots.now places.now }
    ensures { result ≡ value_at K.cmp places.now key.now }
{
    if is_place_of(slots, near, key) {
        return Some(near);
    }
    places.get(key).copied()
}

/// Swaps the state at a place, if there is one, with this one.
fn swap_in<K, S>(slots: &mut Vec<Slot<K, S>>, place: u32, state: &mut S)
    ensures there { (key : K) (former : S) → slice_get slots.old.items place
        ≡ Some (record { key = key; state = Some former }) → (state.new ≡ former)
        × (slice_get slots.new.items place ≡ Some (record { key = key; state = Some state.old })) }
    ensures others { (other : ℕ) → other ≢ place
        → slice_get slots.new.items other ≡ slice_get slots.old.items other }
{
    if let Some(slot) = slots.get_mut(place as usize) {
        if let Some(seen) = &mut slot.state {
            swap(seen, state);
        }
    }
}

/// Takes the state at a place away, and the place too where it is the last.
fn clear_in<K: Drop, S: Drop>(slots: &mut Vec<Slot<K, S>>, place: u32)
    ensures none { state_in slots.new.items place ≡ None }
    ensures others { (other : ℕ) → other ≢ place
        → slice_get slots.new.items other ≡ slice_get slots.old.items other }
{
    let index = place as usize;
    if index + 1 == slots.len() {
        let _last = slots.pop();
        return;
    }
    if let Some(slot) = slots.get_mut(index) {
        slot.state = None;
    }
}

impl<K: Ord, S> Table<K, S> {
    /// An empty map. It takes no memory.
    pub fn new(alloc: Global) -> Self
        ensures { result ≡ [] }
    {
        Table {
            alloc,
            places: Map::new(alloc),
            slots: Vec::new(alloc),
        }
    }

    /// An empty map, with room for the states of so many keys.
    fn with_room(alloc: Global, count: usize) -> Result<Self, NoMemory>
        ensures { IfOk result (λ table. table ≡ []) }
    {
        let slots = Vec::with_capacity(alloc, count)?;
        Ok(Table {
            alloc,
            places: Map::new(alloc),
            slots,
        })
    }

    /// How many keys there are.
    pub fn len(&self) -> usize
        ensures len { result ≡ length self.now }
        ensures small { result < 2 ^ 63 }
        // The keys rise.
        ensures ordered { IsStrictlySortedBy K.cmp (keys_of self.now) }
    {
        self.places.as_btree_map().len()
    }

    /// The state at a key.
    pub fn get(&self, key: &K) -> Option<&S>
        ensures { option_copied result ≡ value_at K.cmp self.now key.now }
    {
        match self.places.get(key) {
            Some(place) => state_at(&self.slots, *place),
            None => None,
        }
    }

    /// The state at a key, with its place, which may be handed to `swap_near`.
    pub fn find(&self, key: &K) -> Option<(u32, &S)>
        ensures { option_map (λ found. found.1.now) result ≡ value_at K.cmp self.now key.now }
    {
        match self.places.get(key) {
            Some(place) => placed(*place, state_at(&self.slots, *place)),
            None => None,
        }
    }

    /// The same. The key that stands at the place is looked at too, as `swap_near` will: of a key
    /// alone it is in a cache then, while of several keys that waits longer than it spares.
    pub fn find_alone(&self, key: &K) -> Option<(u32, &S)>
        ensures { option_map (λ found. found.1.now) result ≡ value_at K.cmp self.now key.now }
    {
        match self.places.get(key) {
            Some(place) => placed(*place, state_of(&self.slots, *place, key)),
            None => None,
        }
    }
}

impl<K: Ord + Drop, S: Drop> Table<K, S> {
    /// Swaps the state at a key, which may stand at the place that is near, with this one, and says
    /// whether there was one.
    pub fn swap_near(&mut self, key: &K, near: u32, state: &mut S) -> bool
        ensures there { IsTrue result → (value_at K.cmp self.old key.now ≡ Some state.new)
            × (self.new ≡ set_value (is_at (K.cmp key.now)) self.old state.old) }
        ensures none { result ≡ false → (value_at K.cmp self.old key.now ≡ None)
            × (self.new ≡ self.old) × (state.new ≡ state.old) }
        // The keys rise.
        ensures ordered { IsStrictlySortedBy K.cmp (keys_of self.old) }
    {
        let Some(place) = place_near(&self.places, &self.slots, key, near) else {
            return false;
        };
        swap_in(&mut self.slots, place, state);
        true
    }

    /// Takes a key away, with its state.
    pub fn remove(&mut self, key: &K)
        ensures { self.new ≡ remove_entry (is_at (K.cmp key.now)) self.old }
    {
        if let Some(place) = self.places.remove(key) {
            clear_in(&mut self.slots, place);
        }
    }
}

impl<K: Codec + Ord, S: Drop> Table<K, S> {
    /// Gives a key that has no state yet this one. At an `Err` nothing changes.
    fn add(&mut self, key: K, state: S) -> Result<(), NoMemory>
        requires { value_at K.Ord.cmp self.old key ≡ None }
        ensures ok { OnOk result (self.new ≡ insert_entry K.Ord.cmp self.old key state) }
        ensures err { OnErr result (self.new ≡ self.old) }
    {
        let Ok(place) = u32::try_from(self.slots.len()) else {
            return Err(NoMemory);
        };
        let own = key.copied()?;
        self.slots.reserve(1)?;
        self.places.insert(own, place)?;
        self.slots.push_reserved(Slot {
            key,
            state: Some(state),
        });
        Ok(())
    }

    /// Gives a key this state where it has none yet, and says whether it had none: it is searched
    /// for once. At an `Err` nothing changes.
    pub fn add_new(&mut self, key: K, state: S) -> Result<bool, NoMemory>
        ensures added { IfOk result (λ new. IsTrue new
            → (value_at K.Ord.cmp self.old key ≡ None)
            × (self.new ≡ insert_entry K.Ord.cmp self.old key state)) }
        ensures there { IfOk result (λ new. new ≡ false
            → ¬ (value_at K.Ord.cmp self.old key ≡ None) × (self.new ≡ self.old)) }
        ensures err { OnErr result (self.new ≡ self.old) }
        // The keys rise.
        ensures ordered { IsStrictlySortedBy K.Ord.cmp (keys_of self.old) }
    {
        let Ok(place) = u32::try_from(self.slots.len()) else {
            return Err(NoMemory);
        };
        let own = key.copied()?;
        self.slots.reserve(1)?;
        if let Some(former) = self.places.insert(own, place)? {
            self.places.insert(key, former)?;
            return Ok(false);
        }
        self.slots.push_reserved(Slot {
            key,
            state: Some(state),
        });
        Ok(true)
    }

    /// Gives the key this state. At an `Err` nothing changes.
    pub fn insert(&mut self, key: K, mut state: S) -> Result<(), NoMemory>
        ensures ok { OnOk result (self.new ≡ insert_entry K.Ord.cmp self.old key state) }
        ensures err { OnErr result (self.new ≡ self.old) }
        // The keys rise.
        ensures ordered { IsStrictlySortedBy K.Ord.cmp (keys_of self.old) }
    {
        if self.swap_near(&key, u32::MAX, &mut state) {
            return Ok(());
        }
        self.add(key, state)
    }
}

impl<K: Ord, S> Table<K, S> {
    /// All entries.
    pub fn entries(&self) -> Entries<'_, K, S>
        ensures entries { result ≡ self.now }
        // The keys rise.
        ensures ordered { IsStrictlySortedBy K.cmp (keys_of self.now) }
    {
        Entries {
            places: self.places.as_btree_map().range(..),
            slots: &self.slots,
        }
    }

    /// The entries whose keys are above this one.
    pub fn above(&self, key: &K) -> Entries<'_, K, S>
        ensures entries { result ≡ filter (λ entry. is_lt (K.cmp key.now entry.0)) self.now }
        ensures ordered { IsStrictlySortedBy K.cmp (keys_of self.now) }
    {
        Entries {
            places: self
                .places
                .as_btree_map()
                .range((Bound::Excluded(key), Bound::Unbounded)),
            slots: &self.slots,
        }
    }
}

impl<K: Codec + Ord, S: Codec> Table<K, S> {
    /// This map. Its entries are not copied, but the keys are.
    pub fn from_map(alloc: Global, map: Map<K, S>) -> Result<Self, NoMemory>
        ensures { IfOk result (λ table. table ≡ map) }
    {
        let mut table = Table::with_room(alloc, map.len())?;
        for (key, state) in map.into_btree_map() {
            table.insert(key, state)?;
        }
        Ok(table)
    }

    /// A copy.
    pub fn copied(&self) -> Result<Self, NoMemory>
        ensures { IfOk result (λ copy. copy ≡ self.now) }
    {
        let mut copy = Table::with_room(self.alloc, self.len())?;
        let mut entries = self.entries();
        while let Some((key, state)) = entries.next() {
            copy.insert(key.copied()?, state.copied()?)?;
        }
        Ok(copy)
    }

    /// A copy, as a map that is spelled.
    pub fn whole(&self) -> Result<Map<K, S>, NoMemory>
        ensures { IfOk result (λ map. map ≡ self.now) }
    {
        let mut whole = Map::new(self.alloc);
        let mut entries = self.entries();
        while let Some((key, state)) = entries.next() {
            whole.insert(key.copied()?, state.copied()?)?;
        }
        Ok(whole)
    }
}
