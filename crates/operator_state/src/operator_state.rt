//! States by key, and the copy for the pending checkpoint as far as it is spelled.

ghost use Rattle.std.specs.Prelude.{◌≡◌, ◌≤◌, ◌<◌, ◌+◌, ◌-◌, ◌++◌, ℕ, List, [], take, drop, length, is_some, false, Some, None, Err, IsTrue, IsOk, OnOk, OnErr, IfOk, IfSome, if◌then◌else◌};
ghost use Rattle.std.specs.Option.{option_copied, option_or};
ghost use Rattle.std.specs.List.Sorted.{IsStrictlySortedBy};
ghost use Rattle.std.specs.List.{All, flat_map};
ghost use Rattle.std.specs.Map.{keys_of};
ghost use Rattle.std.specs.BTreeMap.{is_at};
ghost use Rattle.abs_codec.specs.Entries.{value_at};
ghost use Rattle.abs_codec.specs.Spelling.{pair_spelling, IsWrittenAt, PairIsSpelled};
ghost use Rattle.abs_codec.specs.Same.{EqualIsSame};
ghost use Rattle.keyed_state.specs.Comparing.{HaveStates};
ghost use Rattle.keyed_state.specs.KeyedMap.{entries_above, frozen_entries};
ghost use Rattle.keyed_state.specs.declared.comparing.SetFault.TheVariants as SetFault;
ghost use Rattle.operator_state.specs.Spelled.{Begins, ComesNext, GoesOn};
ghost use Rattle.task_part.specs.declared.part.Part.TheVariants as Part;
ghost use Rattle.task_part.specs.Spelling.{logs_now, logs_spelling, part_spelling, LogsAreSpelled, PartIsSpelled};

use crate::handed::{CopyWork, Piece, Sheet, Side};
use crate::part_bytes::PartBytes;
use abs_codec::{Codec, Map, NoMemory};
use bytes::Bytes;
use keyed_state::{KeyedState, LentStates, Seen, SetFault};
use std::alloc::Global;
use std::marker::Model;
use task_part::{write_count, write_logs};

/// So many bytes are taken past an entry at once, for those that come next.
const ROOM: usize = 1_024;

/// Fewer entries are not handed out: to spell them takes less than to hand them over.
const FEW: usize = 16;

/// The states of an operator by key, and its copy for the pending checkpoint.
#[derive(Drop)]
pub struct OperatorState<K: Codec + Ord, S: Codec> {
    alloc: Global,
    /// Frozen while entries of the copy are left to be spelled.
    states: KeyedState<K, S>,
    has_copied: bool,
    /// The key of the last entry that is spelled.
    last: Option<K>,
    /// How many entries of the copy are left to be spelled.
    left: usize,
    /// The part up to the entry that was spelled last, and what was written behind it.
    bytes: PartBytes,
    /// How many bytes the part has up to that entry.
    end: usize,
    /// The task's side of the line to who spells the frozen map, if that was handed out.
    handed: Option<Side<K, S>>,
}

impl<K: Codec + Ord, S: Codec> Model for OperatorState<K, S> {
    ghost use Rattle.std.specs.Prelude.{◌≡◌, ◌≤◌, Some, None, take, length, IfSome, if◌then◌else◌};
    ghost use Rattle.operator_state.specs.Operating.{Operating};
    ghost use Rattle.operator_state.specs.Spelled.{copied, IsHeld};

    ghost Value = { Operating K S };

    ghost view = { λ o. record {
      entries = o.states.entries;
      copy = if o.has_copied then Some (copied K.Ord.cmp K.reading S.reading o.states.frozen
          (take o.end o.bytes)) else None;
      unspelled = o.left;
      unmerged = o.states.unmerged;
      part = o.bytes;
    } };

    ghost invariant = { λ o. ((o.end ≤ length o.bytes)
        × IfSome o.handed (λ side. o.states.frozen ≡ Some side))
        × IsHeld K.Ord.cmp K.HasSpelling K.spelling S.HasSpelling S.spelling o.states.frozen
        (copied K.Ord.cmp K.reading S.reading o.states.frozen (take o.end o.bytes))
        o.has_copied o.last o.left (take o.end o.bytes) };
}

/// Writes the head of the part where nothing is spelled yet: the tag, and how many entries there
/// are.
fn begin<K>(last: &Option<K>, left: usize, out: &mut Vec<u8>) -> Result<(), NoMemory>
    ensures begun { OnOk result (Begins last.now left out.old.items out.new.items) }
    ensures keeps { (more : List ℕ) × (out.new.items ≡ out.old.items ++ more) }
{
    if last.is_some() {
        return Ok(());
    }
    out.push(1)?;
    write_count(left, out).map_err(|_| NoMemory)
}

/// How many bytes so many entries more are likely to take, where so many stand in so many bytes: as
/// many each, and an eighth more, since later ones are often longer.
fn likely_bytes(written: usize, bytes: usize, more: usize) -> usize {
    let each = bytes.checked_div(written).unwrap_or(0);
    let room = each.saturating_mul(more);
    room.saturating_add(room / 8)
}

/// Takes the room that so many entries more are likely to need, since a full vector is copied to
/// grow. Where memory is refused, it is asked for again as they are written.
fn take_room(written: usize, more: usize, out: &mut Vec<u8>)
    ensures { out.new.items ≡ out.old.items }
{
    let _ = out.reserve(likely_bytes(written, out.len(), more));
}

/// Puts zeros where so many entries more are likely to stand, for these to be written over them.
fn fill_room(written: usize, more: usize, out: &mut Vec<u8>)
    ensures { take (length out.old.items) out.new.items ≡ out.old.items }
{
    let likely = likely_bytes(written, out.len(), more);
    let _ = out.resize(out.len().saturating_add(likely), 0);
}

/// Writes a key and its state.
fn write_entry<K: Codec, S: Codec>(key: &K, state: &S, out: &mut Vec<u8>) -> Result<(), NoMemory>
    ensures appended { OnOk result (PairIsSpelled K.HasSpelling S.HasSpelling (key.now, state.now)
        × (out.new.items ≡ out.old.items
        ++ pair_spelling K.spelling S.spelling (key.now, state.now))) }
    ensures keeps { (more : List ℕ) × (out.new.items ≡ out.old.items ++ more) }
{
    key.write(out).map_err(|_| NoMemory)?;
    state.write(out).map_err(|_| NoMemory)
}

/// Writes a key and its state over the bytes from `at` on, and says where they end, or nothing:
/// always where the bytes are too few.
fn write_entry_over<K: Codec, S: Codec>(
    key: &K,
    state: &S,
    bytes: &mut [u8],
    at: usize,
) -> Option<usize>
    ensures written { IfSome result (λ end. PairIsSpelled K.HasSpelling S.HasSpelling
        (key.now, state.now) × IsWrittenAt bytes.old bytes.new at
        (pair_spelling K.spelling S.spelling (key.now, state.now)) end) }
    ensures keeps { take at bytes.new ≡ take at bytes.old }
    ensures len { length bytes.new ≡ length bytes.old }
{
    let middle = key.write_over(bytes, at)?;
    state.write_over(bytes, middle)
}

/// Writes a key and its state at an end, and says where they end: over what stands past it, where
/// that is enough, and else in its place, with room for those that come next.
fn write_entry_at<K: Codec, S: Codec>(
    key: &K,
    state: &S,
    out: &mut Vec<u8>,
    end: usize,
) -> Result<usize, NoMemory>
    requires { end ≤ length out.old.items }
    ensures written { IfOk result (λ next. PairIsSpelled K.HasSpelling S.HasSpelling
        (key.now, state.now) × IsWrittenAt out.old.items out.new.items end
        (pair_spelling K.spelling S.spelling (key.now, state.now)) next) }
    ensures keeps { take end out.new.items ≡ take end out.old.items }
{
    if let Some(next) = write_entry_over(key, state, out, end) {
        return Ok(next);
    }
    out.truncate(end);
    write_entry(key, state, out)?;
    let next = out.len();
    let _ = out.resize(next.saturating_add(ROOM), 0);
    Ok(next)
}

/// Writes the next entries of the frozen map from `at` on, and copies the key of the last of them.
fn write_next<K: Codec + Ord, S: Codec>(
    states: &KeyedState<K, S>,
    last: Option<&K>,
    count: usize,
    out: &mut Vec<u8>,
    at: usize,
) -> Result<Option<K>, NoMemory>
    requires count { count ≤ length (entries_above K.Ord.cmp (option_copied last)
        (frozen_entries states.now)) }
    requires within { at ≤ length out.old.items }
    ensures appended { OnOk result (out.new.items ≡ take at out.old.items
        ++ flat_map (pair_spelling K.spelling S.spelling) (take count
        (entries_above K.Ord.cmp (option_copied last.entry) (frozen_entries states.now)))) }
    ensures spelled { OnOk result (All (PairIsSpelled K.HasSpelling S.HasSpelling)
        (take count (entries_above K.Ord.cmp (option_copied last.entry)
        (frozen_entries states.now)))) }
    ensures others { IfOk result (λ next. entries_above K.Ord.cmp next (frozen_entries states.now)
        ≡ drop count (entries_above K.Ord.cmp (option_copied last.entry)
        (frozen_entries states.now))) }
    ensures keeps { (more : List ℕ) × (out.new.items ≡ take at out.old.items ++ more) }
{
    let mut next = last;
    let mut end = at;
    let Some(mut entries) = states.frozen_above(last) else {
        out.truncate(at);
        return Ok(None);
    };
    for _ in 0..count {
        if let Some((key, state)) = entries.next() {
            end = write_entry_at(key, state, out, end)?;
            next = Some(key);
        }
    }
    out.truncate(end);
    match next {
        Some(key) => Ok(Some(key.copied()?)),
        None => Ok(None),
    }
}

/// Writes the next entries of the frozen map, of which so many are left, behind those up to the
/// last one, and copies the key of the last of them. The head comes first where nothing is written.
fn spell_next<K: Codec + Ord, S: Codec>(
    states: &KeyedState<K, S>,
    last: &Option<K>,
    left: usize,
    count: usize,
    out: &mut Vec<u8>,
) -> Result<Option<K>, NoMemory>
    requires { count ≤ length (entries_above K.Ord.cmp last.now
        (frozen_entries states.now)) }
    ensures appended { OnOk result ((begun : List ℕ) × Begins last.now left out.old.items begun
        × (out.new.items ≡ begun ++ flat_map (pair_spelling K.spelling S.spelling) (take count
        (entries_above K.Ord.cmp last.now (frozen_entries states.now))))) }
    ensures spelled { OnOk result (All (PairIsSpelled K.HasSpelling S.HasSpelling)
        (take count (entries_above K.Ord.cmp last.now (frozen_entries states.now)))) }
    ensures others { IfOk result (λ next. entries_above K.Ord.cmp next (frozen_entries states.now)
        ≡ drop count (entries_above K.Ord.cmp last.now (frozen_entries states.now))) }
    ensures keeps { (more : List ℕ) × (out.new.items ≡ out.old.items ++ more) }
{
    let written = states.len().saturating_sub(left);
    take_room(written, left, out);
    begin(last, left, out)?;
    let at = out.len();
    fill_room(written, count, out);
    write_next(states, last.as_ref(), count, out, at)
}

/// A copy of the key of the last entry that is spelled, if one is.
fn copied_last<K: Codec>(last: &Option<K>) -> Result<Option<K>, NoMemory>
    ensures { IfOk result (λ copy. copy ≡ last.now) }
{
    match last {
        Some(key) => Ok(Some(key.copied()?)),
        None => Ok(None),
    }
}

/// Spells so many of the next entries of these, of which so many are left behind the last one that
/// is spelled.
pub(crate) fn spell_piece<K: Codec + Ord, S: Codec>(
    alloc: Global,
    lent: LentStates<K, S>,
    last: &Option<K>,
    left: usize,
    count: usize,
) -> Result<Piece<K>, NoMemory>
    requires { ComesNext K.Ord.cmp K.HasSpelling K.spelling S.HasSpelling S.spelling
        last.now left count lent }
    ensures { IfOk result (λ piece. GoesOn K.Ord.cmp K.HasSpelling K.spelling S.HasSpelling
        S.spelling lent piece.begun piece.before piece.last piece.left piece.bytes.items) }
{
    let mut states = KeyedState::from_lent(alloc, lent);
    states.freeze()?;
    let mut bytes = Vec::new(alloc);
    let next = spell_next(&states, last, left, count, &mut bytes)?;
    let more = left - count;
    if last.is_none() {
        take_room(count, more, &mut bytes);
    }
    Ok(Piece {
        begun: last.is_some(),
        before: left,
        last: next,
        left: more,
        bytes,
    })
}

/// Writes these logs behind the entries. The head comes first where there are none.
fn spell_behind<K, R: Codec>(
    last: &Option<K>,
    logs: &[(u32, &[R])],
    out: &mut Vec<u8>,
) -> Result<(), NoMemory>
    ensures spelled { OnOk result (LogsAreSpelled R.HasSpelling (logs_now logs.now)) }
    ensures appended { OnOk result ((begun : List ℕ) × Begins last.now 0 out.old.items begun
        × (out.new.items ≡ begun ++ logs_spelling R.spelling (logs_now logs.now))) }
    ensures keeps { (more : List ℕ) × (out.new.items ≡ out.old.items ++ more) }
{
    begin(last, 0, out)?;
    write_logs(logs, out).map_err(|_| NoMemory)
}

impl<K: Codec + Ord, S: Codec> OperatorState<K, S> {
    /// These states, and no copy.
    pub fn from_map(alloc: Global, map: Map<K, S>) -> Result<Self, NoMemory>
        ensures { IfOk result (λ made. made ≡ record {
          entries = map;
          copy = None;
          unspelled = 0;
          unmerged = 0;
          part = [];
        }) }
    {
        let states = KeyedState::from_map(alloc, map)?;
        Ok(OperatorState::uncopied(alloc, states))
    }

    /// These states, and no copy. It takes no memory.
    fn uncopied(alloc: Global, states: KeyedState<K, S>) -> Self
        requires none_frozen { states.frozen ≡ None }
        requires none_left { states.unmerged ≡ 0 }
        ensures { result ≡ record {
          entries = states.entries;
          copy = None;
          unspelled = 0;
          unmerged = 0;
          part = [];
        } }
    {
        OperatorState {
            alloc,
            states,
            has_copied: false,
            last: None,
            left: 0,
            bytes: PartBytes::new(alloc),
            end: 0,
            handed: None,
        }
    }

    /// The state at a key, among those that are seen.
    pub fn get(&self, key: &K) -> Option<&S>
        ensures { option_copied result ≡ value_at K.Ord.cmp self.now.entries key.now }
    {
        self.states.get(key)
    }

    /// The states that are seen, for a reader, who may keep them however they are written here.
    /// `None` where they are not ready for that. It takes no memory.
    pub fn lend(&self) -> Option<LentStates<K, S>>
        ensures { IfSome result (λ lent. lent ≡ self.now.entries) }
    {
        self.states.lend()
    }

    /// Gives the key this state. The copy stays.
    pub fn set(&mut self, key: K, state: S) -> Result<(), NoMemory>
        ensures states { OnOk result ((q : K) → value_at K.Ord.cmp self.new.entries q
            ≡ (if is_at (K.Ord.cmp key) q then Some state
            else value_at K.Ord.cmp self.old.entries q)) }
        ensures copy { self.new.copy ≡ self.old.copy }
        ensures unspelled { self.new.unspelled ≡ self.old.unspelled }
        ensures unmerged { self.new.unmerged ≤ self.old.unmerged + 1 }
        // Only a copy that is not spelled yet has more to merge after it.
        ensures all_spelled { self.old.unspelled ≡ 0 → self.new.unmerged ≡ self.old.unmerged }
        ensures none_merged { self.old.unmerged ≤ self.new.unmerged }
        ensures err { OnErr result (self.new ≡ self.old) }
    {
        self.states.set(key, state)
    }

    /// Gives each of these keys, which rise, its state, or none of them where memory is refused.
    /// The copy stays.
    pub fn set_all(&mut self, states: Vec<(K, S)>) -> Result<(), NoMemory>
        requires { IsStrictlySortedBy K.Ord.cmp (keys_of states.items) }
        ensures states { OnOk result ((q : K) → value_at K.Ord.cmp self.new.entries q
            ≡ option_or (value_at K.Ord.cmp states.items q)
            (value_at K.Ord.cmp self.old.entries q)) }
        ensures copy { self.new.copy ≡ self.old.copy }
        ensures unspelled { self.new.unspelled ≡ self.old.unspelled }
        ensures unmerged { self.new.unmerged ≤ self.old.unmerged + length states.items }
        // Only a copy that is not spelled yet has more to merge after it.
        ensures all_spelled { self.old.unspelled ≡ 0 → self.new.unmerged ≡ self.old.unmerged }
        ensures none_merged { self.old.unmerged ≤ self.new.unmerged }
        ensures err { OnErr result (self.new ≡ self.old) }
    {
        self.states.set_all(states)
    }

    /// Gives each of these keys, which rise, its state, where each has the one that is expected of
    /// it, `None` where it has none. Else, and where memory is refused, none is given. The copy
    /// stays. What is left in the list is to be let go.
    pub fn compare_and_set_all(
        &mut self,
        states: &mut Vec<(K, S)>,
        expected: &[Seen<S>],
    ) -> Result<(), SetFault>
    where
        S: Eq,
        // States that compare equal are one.
        requires exact { EqualIsSame S.Eq.eq }
        requires rising { IsStrictlySortedBy K.Ord.cmp (keys_of states.old.items) }
        ensures states { OnOk result ((q : K) → value_at K.Ord.cmp self.new.entries q
            ≡ option_or (value_at K.Ord.cmp states.old.items q)
            (value_at K.Ord.cmp self.old.entries q)) }
        ensures expected { OnOk result (HaveStates K.Ord.cmp self.old.entries
            (keys_of states.old.items) expected.now) }
        // What is told of the states is so.
        ensures changed { result ≡ Err SetFault.Changed → ¬ HaveStates K.Ord.cmp
            self.old.entries (keys_of states.old.items) expected.now }
        ensures copy { self.new.copy ≡ self.old.copy }
        ensures unspelled { self.new.unspelled ≡ self.old.unspelled }
        ensures unmerged { self.new.unmerged ≤ self.old.unmerged + length states.old.items }
        // Only a copy that is not spelled yet has more to merge after it.
        ensures all_spelled { self.old.unspelled ≡ 0 → self.new.unmerged ≡ self.old.unmerged }
        ensures none_merged { self.old.unmerged ≤ self.new.unmerged }
        ensures err { OnErr result (self.new ≡ self.old) }
    {
        self.states.compare_and_set_all(states, expected)
    }

    /// Copies the states as they are now, in place of the copy that was there. It takes no memory
    /// where nothing is left to merge.
    pub fn copy(&mut self) -> Result<(), NoMemory>
        ensures ok { OnOk result (self.new ≡ record self.old {
          copy = Some self.old.entries;
          unspelled = length self.old.entries;
          unmerged = 0;
        }) }
        // It is never refused where nothing is left to merge.
        ensures merged { self.old.unmerged ≡ 0 → IsOk result }
        ensures entries { self.new.entries ≡ self.old.entries }
        ensures err { OnErr result (self.new ≡ record self.old { unmerged = self.new.unmerged }) }
        ensures unmerged { self.new.unmerged ≤ self.old.unmerged }
    {
        self.states.freeze()?;
        self.handed = None;
        self.has_copied = true;
        self.last = None;
        self.left = self.states.len();
        self.end = 0;
        if self.left == 0 {
            self.states.thaw();
        }
        Ok(())
    }

    /// Whether there is a copy.
    pub fn has_copied(&self) -> bool
        ensures { result ≡ is_some self.now.copy }
    {
        self.has_copied
    }

    /// Forgets the copy, if there is one. It takes no memory.
    pub fn forget(&mut self)
        ensures { self.new ≡ record self.old {
          copy = None;
          unspelled = 0;
          part = [];
        } }
    {
        self.states.thaw();
        self.handed = None;
        self.has_copied = false;
        self.last = None;
        self.left = 0;
        self.bytes = PartBytes::new(self.alloc);
        self.end = 0;
    }

    /// How many entries of the copy are still to be spelled.
    pub fn unspelled(&self) -> usize
        ensures { result ≡ self.now.unspelled }
    {
        self.left
    }

    /// How many later writes are still to be merged.
    pub fn unmerged(&self) -> usize
        ensures { result ≡ self.now.unmerged }
    {
        self.states.unmerged()
    }

    /// Spells at most so many of the next entries of the copy, if there is one. What has no
    /// spelling counts as want of memory. At an `Err` as many are left as before.
    pub fn spell_some(&mut self, most: usize) -> Result<(), NoMemory>
        ensures ok { OnOk result
            (self.new ≡ record self.old {
              unspelled = self.old.unspelled - most;
              part = self.new.part;
            }) }
        ensures err { OnErr result (self.new ≡ record self.old { part = self.new.part }) }
    {
        let count = most.min(self.left);
        if count == 0 {
            return Ok(());
        }
        let mut bytes = self.bytes.take_front(self.alloc, self.end)?;
        let spelled = spell_next(&self.states, &self.last, self.left, count, &mut bytes);
        let end = bytes.len();
        self.bytes = PartBytes::from_vec(bytes);
        self.last = spelled?;
        self.left -= count;
        self.end = end;
        if self.left == 0 {
            self.handed = None;
            self.states.thaw();
        }
        Ok(())
    }

    /// Hands out the work on at most so many of the next entries of the copy, to be done by someone
    /// else, where that is enough, and none is handed out. Whoever does it leaves what he has
    /// spelled to `take_spelled`. It takes the memory of a line between the two, and of a key.
    pub fn hand_out(&mut self, most: usize) -> Option<CopyWork<K, S>>
        ensures { self.new ≡ self.old }
    {
        let count = most.min(self.left);
        if count < FEW || self.handed.is_some() {
            return None;
        }
        let lent = self.states.lend_frozen()?;
        let Ok(last) = copied_last(&self.last) else {
            return None;
        };
        let Ok((side, work)) = CopyWork::on(self.alloc, lent, last, self.left, count) else {
            return None;
        };
        self.handed = Some(side);
        Some(work)
    }

    /// Takes what was spelled of the copy by someone else, if it is there and comes next, and says
    /// whether it was.
    pub fn take_spelled(&mut self) -> bool
        ensures taken { IsTrue result → self.new.unspelled < self.old.unspelled }
        ensures none { result ≡ false → self.new.unspelled ≡ self.old.unspelled }
        ensures stays { self.new ≡ record self.old {
          unspelled = self.new.unspelled;
          part = self.new.part;
        } }
    {
        let Some(side) = &mut self.handed else {
            return false;
        };
        let Some(Sheet::Written(piece)) = side.take() else {
            return false;
        };
        self.handed = None;
        if piece.begun != self.last.is_some() || piece.before != self.left {
            return false;
        }
        let Some(end) = self.bytes.put_behind(self.alloc, self.end, piece.bytes) else {
            return false;
        };
        self.end = end;
        self.last = piece.last;
        self.left = piece.left;
        if self.left == 0 {
            self.states.thaw();
        }
        true
    }
    /// Merges at most so many of the later writes, and none while entries of the copy are still to
    /// be spelled. The states that are seen stay, also where memory is refused.
    pub fn merge_some(&mut self, most: usize) -> Result<(), NoMemory>
        ensures ok { OnOk result (self.old.unspelled ≡ 0
            → self.new.unmerged ≡ self.old.unmerged - most) }
        // It is never refused where nothing is left to merge.
        ensures merged { self.old.unmerged ≡ 0 → IsOk result }
        ensures stays { self.new ≡ record self.old { unmerged = self.new.unmerged } }
        ensures unmerged { self.new.unmerged ≤ self.old.unmerged }
    {
        self.states.merge(most)?;
        Ok(())
    }

    /// Spells these logs behind the copy, each the records of a channel, in place of those that
    /// were spelled before. What has no spelling counts as want of memory.
    pub fn spell_logs<R: Codec>(&mut self, logs: &[(u32, &[R])]) -> Result<(), NoMemory>
        requires spelled { self.old.unspelled ≡ 0 }
        ensures ok { OnOk result ((copy : List (K × S)) → self.old.copy ≡ Some copy
            → PartIsSpelled R.HasSpelling K.Ord.cmp K.HasSpelling S.HasSpelling
            (Part.Operator copy (logs_now logs.now))
            × (self.new.part ≡ part_spelling R.spelling K.spelling S.spelling
            (Part.Operator copy (logs_now logs.now)))) }
        ensures stays { self.new ≡ record self.old { part = self.new.part } }
    {
        let mut bytes = self.bytes.take_front(self.alloc, self.end)?;
        let spelled = spell_behind(&self.last, logs, &mut bytes);
        self.bytes = PartBytes::from_vec(bytes);
        spelled
    }

    /// The part, as far as it is spelled.
    pub fn part(&self) -> &[u8]
        ensures { result.now ≡ self.now.part }
    {
        self.bytes.as_slice()
    }

    /// The part, as far as it is spelled, which others may hold from now on.
    pub fn share_part(&mut self) -> Result<Bytes, NoMemory>
        ensures part { IfOk result (λ bytes. bytes ≡ self.old.part) }
        ensures same { self.new ≡ self.old }
    {
        self.bytes.share(self.alloc)
    }
}
