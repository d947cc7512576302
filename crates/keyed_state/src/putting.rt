//! Several entries that are put into a map at once, or none of them.

ghost use Rattle.std.specs.Prelude.{◌≡◌, ◌+◌, ◌<◌, [], ◌∷◌, ◌++◌, length, vec_len, vec_capacity, Some, OnOk, OnErr, IfOk, if◌then◌else◌};
ghost use Rattle.std.specs.List.Sorted.{IsStrictlySortedBy};
ghost use Rattle.std.specs.Map.{keys_of};
ghost use Rattle.std.specs.BTreeMap.{insert_entry, is_at};
ghost use Rattle.abs_codec.specs.Entries.{value_at};
ghost use Rattle.keyed_state.specs.Overlay.{put_over};
ghost use Rattle.keyed_state.specs.Putting.{with_former, undone};

use crate::lending::Lendable;
use crate::state_map::StateMap;
use abs_codec::{Codec, NoMemory};
use state_table::Table;
use std::alloc::Global;
use std::collections::BTreeMap;
use std::mem::replace;

/// Gives a key its state, and notes what was there before. The key is looked up once where it is
/// there.
fn put_one<K: Codec + Ord, S: Drop, M: StateMap<K, S>>(
    map: &mut M,
    notes: &mut Vec<(K, Option<S>)>,
    key: K,
    mut state: S,
) -> Result<(), NoMemory>
    requires { vec_len notes.old < vec_capacity notes.old }
    ensures entries { OnOk result
        (M.entries map.new ≡ insert_entry K.Ord.cmp (M.entries map.old) key state) }
    ensures noted { OnOk result (notes.new.items
        ≡ notes.old.items ++ (key, value_at K.Ord.cmp (M.entries map.old) key) ∷ []) }
    ensures undone { undone K.Ord.cmp notes.new.items (M.entries map.new)
        ≡ undone K.Ord.cmp notes.old.items (M.entries map.old) }
    ensures len { OnOk result (vec_len notes.new ≡ vec_len notes.old + 1) }
    ensures room { vec_capacity notes.new ≡ vec_capacity notes.old }
    // The keys rise.
    ensures ordered { IsStrictlySortedBy K.Ord.cmp (keys_of (M.entries map.new)) }
{
    if map.swap_state(&key, &mut state) {
        notes.push_reserved((key, Some(state)));
        return Ok(());
    }
    let note = key.copied()?;
    map.put_state(key, state)?;
    notes.push_reserved((note, None));
    Ok(())
}

/// Gives each of these keys its state, and notes what was there before. At an `Err` that is noted
/// of those that were given theirs.
fn put_noting<K: Codec + Ord, S: Drop, M: StateMap<K, S>>(
    map: &mut M,
    notes: &mut Vec<(K, Option<S>)>,
    entries: Vec<(K, S)>,
) -> Result<(), NoMemory>
    ensures ok { OnOk result (M.entries map.new
        ≡ put_over K.Ord.cmp (M.entries map.old) entries.items) }
    ensures undone { undone K.Ord.cmp notes.new.items (M.entries map.new)
        ≡ undone K.Ord.cmp notes.old.items (M.entries map.old) }
{
    notes.reserve(entries.len())?;
    for (key, state) in entries {
        put_one(map, notes, key, state)?;
    }
    Ok(())
}

/// Puts back what was there before at a key. It takes no memory.
pub(crate) fn put_back<K: Ord + Drop, S: Drop, M: StateMap<K, S>>(
    map: &mut M,
    key: &K,
    former: Option<S>,
)
    ensures { M.entries map.new ≡ with_former K.cmp (M.entries map.old) key.now former }
{
    match former {
        Some(mut state) => {
            map.swap_state(key, &mut state);
        }
        None => map.take_away(key),
    }
}

/// Puts back what was there before at each of these keys, the last first. It takes no memory.
fn undo<K: Ord + Drop, S: Drop, M: StateMap<K, S>>(map: &mut M, mut notes: Vec<(K, Option<S>)>)
    ensures { M.entries map.new ≡ undone K.cmp notes.items (M.entries map.old) }
{
    while let Some((key, former)) = notes.pop() {
        put_back(map, &key, former);
    }
}

/// Gives this key its state, if there is one, or not where memory is refused.
fn put_only<K: Codec + Ord, S: Drop, M: StateMap<K, S>>(
    map: &mut M,
    mut entries: Vec<(K, S)>,
) -> Result<(), NoMemory>
    requires { length entries.items < 2 }
    ensures ok { OnOk result (M.entries map.new
        ≡ put_over K.Ord.cmp (M.entries map.old) entries.items) }
    ensures err { OnErr result (M.entries map.new ≡ M.entries map.old) }
{
    if let Some((key, state)) = entries.pop() {
        map.put_state(key, state)?;
    }
    Ok(())
}

/// Gives each of these keys its state, or none of them where memory is refused.
pub(crate) fn put_all<K: Codec + Ord, S: Drop, M: StateMap<K, S>>(
    alloc: Global,
    map: &mut M,
    entries: Vec<(K, S)>,
) -> Result<(), NoMemory>
    ensures ok { OnOk result (M.entries map.new
        ≡ put_over K.Ord.cmp (M.entries map.old) entries.items) }
    ensures err { OnErr result (M.entries map.new ≡ M.entries map.old) }
{
    if entries.len() < 2 {
        return put_only(map, entries);
    }
    let mut notes = Vec::new(alloc);
    let done = put_noting(map, &mut notes, entries);
    if done.is_err() {
        undo(map, notes);
    }
    done
}

/// The same map, made ready to be lent where there is memory for that.
pub(crate) fn make_ready<K: Ord + Drop, S: Drop>(alloc: Global, map: &mut Lendable<Table<K, S>>)
    ensures { map.new ≡ map.old }
{
    if !map.is_ready() {
        let own = replace(map, Lendable::new(Table::new(alloc)));
        *map = own.ready(alloc);
    }
}

/// The map, to be written and put back, or a copy of it where others read it. At an `Err` it stays
/// in its place.
pub(crate) fn taken<K: Codec + Ord, S: Codec>(
    alloc: Global,
    map: &mut Lendable<Table<K, S>>,
) -> Result<Table<K, S>, NoMemory>
    ensures ok { IfOk result (λ own. own ≡ map.old) }
    ensures err { OnErr result (map.new ≡ map.old) }
{
    match map.swap(Table::new(alloc)) {
        Ok(own) => Ok(own),
        Err(_) => map.value().copied(),
    }
}

/// Gives the key this state.
pub(crate) fn insert_in<K: Codec + Ord, S: Codec>(
    alloc: Global,
    map: &mut Lendable<Table<K, S>>,
    key: K,
    state: S,
) -> Result<(), NoMemory>
    ensures entries { OnOk result (map.new ≡ insert_entry K.Ord.cmp map.old key state) }
    ensures states { OnOk result ((q : K) → value_at K.Ord.cmp map.new q
        ≡ (if is_at (K.Ord.cmp key) q then Some state else value_at K.Ord.cmp map.old q)) }
    ensures ordered { OnOk result (IsStrictlySortedBy K.Ord.cmp (keys_of map.new)) }
    ensures err { OnErr result (map.new ≡ map.old) }
{
    let mut own = taken(alloc, map)?;
    let done = own.insert(key, state);
    map.put(own);
    done?;
    Ok(())
}

/// Gives each of these keys its state, or none of them where memory is refused. The map itself is
/// not copied where nobody reads it, and is left ready to be lent.
pub(crate) fn put_all_in<K: Codec + Ord, S: Codec>(
    alloc: Global,
    map: &mut Lendable<Table<K, S>>,
    entries: Vec<(K, S)>,
) -> Result<(), NoMemory>
    ensures ok { OnOk result (map.new ≡ put_over K.Ord.cmp map.old entries.items) }
    ensures err { OnErr result (map.new ≡ map.old) }
{
    let mut own = taken(alloc, map)?;
    let done = put_all(alloc, &mut own, entries);
    map.put(own);
    make_ready(alloc, map);
    done
}

/// Gives each of these keys its state, in the overlay where that has the key, else in the base, and
/// notes in two lists what was there before. At an `Err` that is noted of those that were given
/// theirs.
fn put_both_noting<K: Codec + Ord, S: Drop>(
    base: &mut Table<K, S>,
    overlay: &mut BTreeMap<K, S>,
    below: &mut Vec<(K, Option<S>)>,
    above: &mut Vec<(K, Option<S>)>,
    entries: Vec<(K, S)>,
) -> Result<(), NoMemory>
    requires base_rises { IsStrictlySortedBy K.Ord.cmp (keys_of base.old) }
    requires overlay_rises { IsStrictlySortedBy K.Ord.cmp (keys_of overlay.old.entries) }
    ensures ok { OnOk result (put_over K.Ord.cmp base.new overlay.new.entries ≡ put_over
        K.Ord.cmp (put_over K.Ord.cmp base.old overlay.old.entries) entries.items) }
    ensures base_rises { OnOk result (IsStrictlySortedBy K.Ord.cmp (keys_of base.new)) }
    ensures overlay_rises { OnOk result
        (IsStrictlySortedBy K.Ord.cmp (keys_of overlay.new.entries)) }
    ensures overlay_grows_not { OnOk result
        (length overlay.new.entries ≡ length overlay.old.entries) }
    ensures base_undone { undone K.Ord.cmp below.new.items base.new
        ≡ undone K.Ord.cmp below.old.items base.old }
    ensures overlay_undone { undone K.Ord.cmp above.new.items overlay.new.entries
        ≡ undone K.Ord.cmp above.old.items overlay.old.entries }
{
    below.reserve(entries.len())?;
    above.reserve(entries.len())?;
    for (key, state) in entries {
        if overlay.contains_key(&key) {
            put_one(overlay, above, key, state)?;
        } else {
            put_one(base, below, key, state)?;
        }
    }
    Ok(())
}

/// Gives each of these keys its state, or none of them where memory is refused: in the overlay
/// where it has the key, else in the base.
pub(crate) fn put_in_both<K: Codec + Ord, S: Codec>(
    alloc: Global,
    base: &mut Lendable<Table<K, S>>,
    overlay: &mut BTreeMap<K, S>,
    entries: Vec<(K, S)>,
) -> Result<(), NoMemory>
    requires base_rises { IsStrictlySortedBy K.Ord.cmp (keys_of base.old) }
    requires overlay_rises { IsStrictlySortedBy K.Ord.cmp (keys_of overlay.old.entries) }
    ensures ok { OnOk result (put_over K.Ord.cmp base.new overlay.new.entries
        ≡ put_over K.Ord.cmp (put_over K.Ord.cmp base.old overlay.old.entries) entries.items) }
    ensures base_rises { IsStrictlySortedBy K.Ord.cmp (keys_of base.new) }
    ensures overlay_rises { IsStrictlySortedBy K.Ord.cmp (keys_of overlay.new.entries) }
    ensures overlay_grows_not { length overlay.new.entries ≡ length overlay.old.entries }
    ensures base_stays { OnErr result (base.new ≡ base.old) }
    ensures overlay_stays { OnErr result (overlay.new.entries ≡ overlay.old.entries) }
{
    let mut below = Vec::new(alloc);
    let mut above = Vec::new(alloc);
    let mut own = taken(alloc, base)?;
    let done = put_both_noting(&mut own, overlay, &mut below, &mut above, entries);
    if done.is_err() {
        undo(&mut own, below);
        undo(overlay, above);
    }
    base.put(own);
    done
}
