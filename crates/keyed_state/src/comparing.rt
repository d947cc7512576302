//! Several entries that are put into a map at once where each key has the state that is expected of
//! it, or none of them.

ghost use Rattle.std.specs.Prelude.{◌≡◌, ◌↔◌, ◌∷◌, [], length, Err, None, Some, false, IsTrue, IfErr, IfSome, IfNone, count_by, is_none, option_map, slice_get, take, OnOk, OnErr};
ghost use Rattle.std.specs.List.Sorted.{IsStrictlySortedBy};
ghost use Rattle.std.specs.Map.{keys_of};
ghost use Rattle.std.specs.BTreeMap.{insert_entry};
ghost use Rattle.std.specs.Option.{option_copied};
ghost use Rattle.std.specs.Arc.{arc_value};
ghost use Rattle.abs_codec.specs.Entries.{value_at};
ghost use Rattle.abs_codec.specs.Same.{EqualIsSame};
ghost use Rattle.keyed_state.specs.Comparing.{HaveStates};
ghost use Rattle.keyed_state.specs.Overlay.{put_over};
ghost use Rattle.keyed_state.specs.Putting.{note_of, notes_of, undone};
ghost use Rattle.keyed_state.specs.declared.comparing.SetFault.TheVariants as SetFault;

use crate::lending::{Kept, Lendable};
use crate::putting::{make_ready, put_back, taken};
use crate::seen::Seen;
use abs_codec::{Codec, NoMemory};
use state_table::Table;
use std::alloc::{AllocError, Global};
use std::sync::Arc;

/// Why states are not set.
#[derive(Clone, Copy, Debug, PartialEq, Eq)]
pub enum SetFault {
    /// Memory was refused.
    Memory,
    /// A key has another state than the expected one.
    Changed,
}

impl From<NoMemory> for SetFault {
    ghost from_gives = { λ _ e. e ≡ SetFault.Memory };

    fn from(_e: NoMemory) -> SetFault {
        SetFault::Memory
    }
}

impl From<AllocError> for SetFault {
    ghost from_gives = { λ _ e. e ≡ SetFault.Memory };

    fn from(_e: AllocError) -> SetFault {
        SetFault::Memory
    }
}

/// Whether a state is the expected one, `None` where none is there.
pub(crate) fn is_expected<S: Eq>(state: Option<&S>, expected: Option<&S>) -> bool
    requires { EqualIsSame S.eq }
    ensures { IsTrue result ↔ (option_copied state.entry ≡ option_copied expected.entry) }
{
    match state {
        Some(state) => match expected {
            Some(expected) => state == expected,
            None => false,
        },
        None => expected.is_none(),
    }
}

/// How many of these states are none.
pub(crate) fn count_none<S>(states: &[Seen<S>]) -> usize
    ensures { result ≡ count_by is_none states.now }
{
    let mut count = 0;
    for state in states {
        if state.state().is_none() {
            count += 1;
        }
    }
    count
}

/// Gives a key this state, where it has none: it is searched for once.
#[inline(never)]
fn put_first<K: Codec + Ord, S: Codec>(
    table: &mut Table<K, S>,
    key: K,
    state: S,
) -> Result<(), SetFault>
    ensures ok { OnOk result (table.new ≡ insert_entry K.Ord.cmp table.old key state) }
    ensures none { OnOk result (value_at K.Ord.cmp table.old key ≡ None) }
    ensures changed { result ≡ Err SetFault.Changed
        → ¬ (value_at K.Ord.cmp table.old key ≡ None) }
    ensures err { OnErr result (table.new ≡ table.old) }
    // The keys rise.
    ensures ordered { OnOk result (IsStrictlySortedBy K.Ord.cmp (keys_of table.old)) }
{
    if table.add_new(key, state)? {
        Ok(())
    } else {
        Err(SetFault::Changed)
    }
}

/// Swaps a key's state with this one, where it is the expected one, of which there is some. Whether
/// it was is told; else nothing changes. The key is searched for once where it is.
fn swap_expected<K: Ord + Drop, S: Eq + Drop>(
    table: &mut Table<K, S>,
    key: &K,
    state: &mut S,
    expected: &Seen<S>,
) -> bool
    requires exact { EqualIsSame S.Eq.eq }
    requires some { ¬ (expected.now ≡ None) }
    ensures same { IsTrue result ↔ (value_at K.Ord.cmp table.old key.now ≡ expected.now) }
    ensures put { IsTrue result
        → table.new ≡ insert_entry K.Ord.cmp table.old key.now state.old }
    ensures taken { IsTrue result → Some state.new ≡ expected.now }
    ensures stays { result ≡ false → (table.new ≡ table.old) × (state.new ≡ state.old) }
    // The keys rise.
    ensures ordered { IsStrictlySortedBy K.Ord.cmp (keys_of table.old) }
{
    if !table.swap_near(key, expected.place(), state) {
        return false;
    }
    if is_expected(Some(state), expected.state()) {
        return true;
    }
    table.swap_near(key, expected.place(), state);
    false
}

/// Gives an entry's key its state where it has the expected one, which the entry takes for its own.
/// A key that has none, as is expected of it, is given a copy.
fn exchange_one<K: Codec + Ord, S: Codec + Eq>(
    table: &mut Table<K, S>,
    entry: &mut (K, S),
    expected: &Seen<S>,
) -> Result<(), SetFault>
    requires exact { EqualIsSame S.Eq.eq }
    ensures put { OnOk result (table.new
        ≡ insert_entry K.Ord.cmp table.old entry.old.0 entry.old.1) }
    ensures expected { OnOk result (value_at K.Ord.cmp table.old entry.old.0 ≡ expected.now) }
    ensures changed { result ≡ Err SetFault.Changed
        → ¬ (value_at K.Ord.cmp table.old entry.old.0 ≡ expected.now) }
    ensures noted { OnOk result (note_of entry.new expected.now
        ≡ (entry.old.0, expected.now)) }
    ensures err { OnErr result (table.new ≡ table.old) }
    // The keys rise.
    ensures ordered { OnOk result (IsStrictlySortedBy K.Ord.cmp (keys_of table.old)) }
{
    let (key, state) = entry;
    if expected.state().is_none() {
        return put_first(table, key.copied()?, state.copied()?);
    }
    if swap_expected(table, key, state, expected) {
        Ok(())
    } else {
        Err(SetFault::Changed)
    }
}

/// What is expected of the entry at a place, if something is said of it.
fn expected_at<S>(expected: &[Seen<S>], index: usize) -> Option<&Seen<S>>
    ensures { option_copied result ≡ slice_get expected.now index }
{
    expected.get(index)
}

/// Exchanges each of these entries, whose keys rise, as [`exchange_one`] does. At an `Err`, how
/// many were exchanged, and why no more.
fn exchange_each<K: Codec + Ord, S: Codec + Eq>(
    table: &mut Table<K, S>,
    entries: &mut [(K, S)],
    expected: &[Seen<S>],
) -> Result<(), (usize, SetFault)>
    requires exact { EqualIsSame S.Eq.eq }
    requires rising { IsStrictlySortedBy K.Ord.cmp (keys_of entries.old) }
    ensures ok { OnOk result (table.new
        ≡ put_over K.Ord.cmp table.old entries.old) }
    ensures expected { OnOk result (HaveStates K.Ord.cmp table.old
        (keys_of entries.old) expected.now) }
    ensures changed { IfErr result (λ e. e.1 ≡ SetFault.Changed
        → ¬ HaveStates K.Ord.cmp table.old (keys_of entries.old) expected.now) }
    ensures undone { IfErr result (λ e. undone K.Ord.cmp (notes_of (take e.0 entries.new)
        expected.now) table.new ≡ table.old) }
{
    for index in 0..entries.len() {
        let Some(first) = expected_at(expected, index) else {
            return Err((index, SetFault::Changed));
        };
        if let Err(fault) = exchange_one(table, &mut entries[index], first) {
            return Err((index, fault));
        }
    }
    if entries.len() < expected.len() {
        return Err((entries.len(), SetFault::Changed));
    }
    Ok(())
}

/// The state that was there before, where one was expected.
fn former_of<S: Drop>(state: S, expected: &Seen<S>) -> Option<S>
    ensures { result ≡ option_map (λ _. state) expected.now }
{
    match expected.state() {
        Some(_) => Some(state),
        None => None,
    }
}

/// Puts back what these entries, which were exchanged, took for their own, the last first. It takes
/// no memory.
fn exchange_back<K: Codec + Ord, S: Drop>(
    table: &mut Table<K, S>,
    entries: &mut Vec<(K, S)>,
    expected: &[Seen<S>],
)
    ensures { table.new
        ≡ undone K.Ord.cmp (notes_of entries.old.items expected.now) table.old }
{
    while let Some((key, state)) = entries.pop() {
        if let Some(first) = expected_at(expected, entries.len()) {
            put_back(table, &key, former_of(state, first));
        }
    }
}

/// Whether there is one entry, of whose key no state is expected.
fn is_first<K, S>(entries: &[(K, S)], expected: &[Seen<S>]) -> bool
    ensures { IsTrue result
        → (length entries.now ≡ 1) × (expected.now ≡ None ∷ []) }
{
    match expected {
        [only] => entries.len() == 1 && only.state().is_none(),
        _ => false,
    }
}

/// Gives the only key its state, where it has none: neither is copied.
fn put_only<K: Codec + Ord, S: Codec>(
    table: &mut Table<K, S>,
    entries: &mut Vec<(K, S)>,
) -> Result<(), SetFault>
    requires { length entries.old.items ≡ 1 }
    ensures ok { OnOk result (table.new ≡ put_over K.Ord.cmp table.old entries.old.items) }
    ensures none { OnOk result (HaveStates K.Ord.cmp table.old (keys_of entries.old.items)
        (None ∷ [])) }
    ensures changed { result ≡ Err SetFault.Changed
        → ¬ HaveStates K.Ord.cmp table.old (keys_of entries.old.items) (None ∷ []) }
    ensures err { OnErr result (table.new ≡ table.old) }
{
    match entries.pop() {
        Some((key, state)) => put_first(table, key, state),
        None => Err(SetFault::Memory),
    }
}

/// Gives each of these keys, which rise, its state, or none of them where memory is refused or a
/// state is not the expected one. What is left in the list is to be let go.
#[inline(never)]
fn exchange_all<K: Codec + Ord, S: Codec + Eq>(
    table: &mut Table<K, S>,
    entries: &mut Vec<(K, S)>,
    expected: &[Seen<S>],
) -> Result<(), SetFault>
    requires exact { EqualIsSame S.Eq.eq }
    requires rising { IsStrictlySortedBy K.Ord.cmp (keys_of entries.old.items) }
    ensures ok { OnOk result (table.new
        ≡ put_over K.Ord.cmp table.old entries.old.items) }
    ensures expected { OnOk result (HaveStates K.Ord.cmp table.old
        (keys_of entries.old.items) expected.now) }
    ensures changed { result ≡ Err SetFault.Changed
        → ¬ HaveStates K.Ord.cmp table.old (keys_of entries.old.items) expected.now }
    ensures err { OnErr result (table.new ≡ table.old) }
{
    if is_first(entries, expected) {
        return put_only(table, entries);
    }
    if let Err((count, fault)) = exchange_each(table, entries, expected) {
        entries.truncate(count);
        exchange_back(table, entries, expected);
        return Err(fault);
    }
    Ok(())
}

/// The same, in a map that is ready to be lent, where nobody reads it. Else nothing changes.
fn exchange_unread<K: Codec + Ord, S: Codec + Eq>(
    map: &mut Arc<Table<K, S>, Global>,
    entries: &mut Vec<(K, S)>,
    expected: &[Seen<S>],
) -> Option<Result<(), SetFault>>
    requires exact { EqualIsSame S.Eq.eq }
    requires rising { IsStrictlySortedBy K.Ord.cmp (keys_of entries.old.items) }
    ensures ok { IfSome result (λ done. OnOk done (arc_value map.new
        ≡ put_over K.Ord.cmp (arc_value map.old) entries.old.items)) }
    ensures expected { IfSome result (λ done. OnOk done (HaveStates K.Ord.cmp
        (arc_value map.old) (keys_of entries.old.items) expected.now)) }
    ensures changed { IfSome result (λ done. done ≡ Err SetFault.Changed
        → ¬ HaveStates K.Ord.cmp (arc_value map.old) (keys_of entries.old.items)
        expected.now) }
    ensures err { IfSome result (λ done. OnErr done (arc_value map.new ≡ arc_value map.old)) }
    ensures none { IfNone result ((arc_value map.new ≡ arc_value map.old)
        × (entries.new.items ≡ entries.old.items)) }
{
    match Arc::get_mut(map) {
        Some(seen) => Some(exchange_all(seen, entries, expected)),
        None => None,
    }
}

/// The same, in a map that others may read: that is copied then. It is left ready to be lent.
#[inline(never)]
fn exchange_apart<K: Codec + Ord, S: Codec + Eq>(
    alloc: Global,
    map: &mut Lendable<Table<K, S>>,
    entries: &mut Vec<(K, S)>,
    expected: &[Seen<S>],
) -> Result<(), SetFault>
    requires exact { EqualIsSame S.Eq.eq }
    requires rising { IsStrictlySortedBy K.Ord.cmp (keys_of entries.old.items) }
    ensures ok { OnOk result (map.new ≡ put_over K.Ord.cmp map.old entries.old.items) }
    ensures expected { OnOk result (HaveStates K.Ord.cmp map.old (keys_of entries.old.items)
        expected.now) }
    ensures changed { result ≡ Err SetFault.Changed
        → ¬ HaveStates K.Ord.cmp map.old (keys_of entries.old.items) expected.now }
    ensures err { OnErr result (map.new ≡ map.old) }
{
    let Ok(mut own) = taken(alloc, map) else {
        return Err(SetFault::Memory);
    };
    let done = exchange_all(&mut own, entries, expected);
    map.put(own);
    make_ready(alloc, map);
    done
}

/// Gives each of these keys, which rise, its state, or none of them where memory is refused or a
/// state is not the expected one. What is left in the list is to be let go. The map itself is not
/// copied where nobody reads it, and is left ready to be lent.
pub(crate) fn exchange_all_in<K: Codec + Ord, S: Codec + Eq>(
    alloc: Global,
    map: &mut Lendable<Table<K, S>>,
    entries: &mut Vec<(K, S)>,
    expected: &[Seen<S>],
) -> Result<(), SetFault>
    requires exact { EqualIsSame S.Eq.eq }
    requires rising { IsStrictlySortedBy K.Ord.cmp (keys_of entries.old.items) }
    ensures ok { OnOk result (map.new ≡ put_over K.Ord.cmp map.old entries.old.items) }
    ensures expected { OnOk result (HaveStates K.Ord.cmp map.old (keys_of entries.old.items)
        expected.now) }
    ensures changed { result ≡ Err SetFault.Changed
        → ¬ HaveStates K.Ord.cmp map.old (keys_of entries.old.items) expected.now }
    ensures err { OnErr result (map.new ≡ map.old) }
{
    if let Kept::Shared(shared) = &mut map.kept {
        if let Some(done) = exchange_unread(shared, entries, expected) {
            return done;
        }
    }
    exchange_apart(alloc, map, entries, expected)
}
