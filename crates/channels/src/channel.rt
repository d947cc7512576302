//! A list of items, pushed at the end and popped at the front.

ghost use Rattle.std.specs.Prelude.{◌≡◌, ◌<◌, ◌≤◌, ◌+◌, ◌-◌, ◌↔◌, ◌⊎◌, [], ◌∷◌, ◌++◌, length, map, take, drop, slice_get, option_map, IsTrue, OnOk, OnErr, vec_len};
ghost use Rattle.std.specs.Option.{option_copied};
ghost use Rattle.std.specs.VecDeque.{deque_len, deque_capacity};
ghost use Rattle.abs_codec.specs.Same.{EqualIsSame};
ghost use Rattle.channels.specs.Items.{item_copied, leading_records};
ghost use Rattle.channels.specs.declared.item.Item.TheVariants.{Record};

use crate::item::Item;
use crate::spaced_barrier::SpacedBarrier;
use abs_codec::NoMemory;
use core::mem::replace_with;
use std::alloc::Global;
use std::collections::VecDeque;
use std::marker::Model;

/// Memory is taken for so many items more than are asked for: few are sent one by one.
const ROOM_AT_ONCE: usize = 7;

/// What was sent to a task and not yet taken, in the order of sending.
#[derive(Drop)]
pub struct Channel<R: Drop> {
    records: VecDeque<R>,
    /// How many records stand behind the last barrier.
    behind: usize,
    /// How many items more each queue takes without memory.
    spare: usize,
    /// For how many items of these room was taken.
    room: usize,
    /// (Last, since a record that is sent doesn't ask for it.)
    barriers: VecDeque<SpacedBarrier>,
}

impl<R: Drop> Model for Channel<R> {
    ghost use Rattle.std.specs.Prelude.{◌≡◌, ◌≤◌, ◌<◌, ◌+◌, ◌^◌};
    ghost use Rattle.std.specs.VecDeque.{deque_len, deque_capacity};
    ghost use Rattle.channels.specs.Channel.{Contents};
    ghost use Rattle.channels.specs.Queues.{gaps, interleaved};

    ghost Value = { Contents R };

    ghost view = { λ c. record {
      items = interleaved c.barriers.items c.records.items;
      room = c.room;
    } };

    ghost invariant = { λ c. (gaps c.barriers.items + c.behind ≡ deque_len c.records)
        × (deque_len c.records + c.spare ≤ deque_capacity c.records)
        × (deque_len c.barriers + c.spare ≤ deque_capacity c.barriers)
        × (deque_len c.records + deque_len c.barriers + c.spare < 2 ^ 64)
        × (c.room ≤ c.spare) };
}

impl<R: Drop> Channel<R> {
    /// An empty channel. It takes no memory.
    pub fn new(alloc: Global) -> Self
        ensures { result.items ≡ [] }
    {
        Channel {
            records: VecDeque::new(alloc),
            behind: 0,
            spare: 0,
            room: 0,
            barriers: VecDeque::new(alloc),
        }
    }

    pub fn len(&self) -> usize
        ensures { result ≡ length self.now.items }
    {
        self.records.len() + self.barriers.len()
    }

    pub fn is_empty(&self) -> bool
        ensures { IsTrue result ↔ (self.now.items ≡ []) }
    {
        self.len() == 0
    }

    /// Takes room for so many items more.
    pub fn reserve(&mut self, count: usize) -> Result<(), NoMemory>
        ensures ok { OnOk result (self.new ≡ record self.old { room = self.old.room + count }) }
        ensures err { OnErr result (self.new ≡ self.old) }
    {
        let room = self.room.checked_add(count).ok_or(NoMemory)?;
        if self.spare < room {
            let spare = room.saturating_add(ROOM_AT_ONCE);
            if self.len().checked_add(spare).is_none() {
                return Err(NoMemory);
            }
            self.records.reserve(spare)?;
            self.barriers.reserve(spare)?;
            self.spare = spare;
        }
        self.room = room;
        Ok(())
    }

    /// Leaves the room that was taken.
    pub fn release(&mut self)
        ensures { self.new ≡ record self.old { room = 0 } }
    {
        self.room = 0;
    }

    /// Sends an item. It takes no memory.
    #[inline(always)]
    pub fn push_reserved(&mut self, item: Item<R>)
        requires { 0 < self.old.room }
        ensures { self.new ≡ record self.old {
          items = self.old.items ++ item ∷ [];
          room = self.old.room - 1;
        } }
    {
        match item {
            Item::Record(record) => {
                self.records.push_back_reserved(record);
                self.behind += 1;
            }
            Item::Barrier(checkpoint) => {
                let gap = self.behind;
                self.barriers
                    .push_back_reserved(SpacedBarrier { gap, checkpoint });
                self.behind = 0;
            }
        }
        self.spare -= 1;
        self.room -= 1;
    }

    /// Sends records. It takes no memory: where nothing stands in the channel, the vector that they
    /// lie in is the channel's.
    pub fn append(&mut self, records: Vec<R>)
        requires { (self.old.items ≡ []) ⊎ (length records.items ≤ self.old.room) }
        ensures { self.new.items ≡ self.old.items ++ map Record records.items }
    {
        let count = records.len();
        if self.is_empty() {
            self.records = VecDeque::from_vec(records);
            self.spare = 0;
            self.room = 0;
        } else {
            push_each(&mut self.records, records);
            self.spare -= count;
            self.room -= count;
        }
        self.behind += count;
    }

    /// How many records stand before the first barrier, or the end.
    pub fn before_barrier(&self) -> usize
        ensures { result ≡ length (leading_records self.now.items) }
    {
        match self.barriers.front() {
            Some(barrier) => barrier.gap,
            None => self.records.len(),
        }
    }

    /// The record at this place, if it stands before the first barrier.
    pub fn record(&self, index: usize) -> Option<&R>
        ensures { option_copied result ≡ slice_get (leading_records self.now.items) index }
    {
        if index < self.before_barrier() {
            self.records.get(index)
        } else {
            None
        }
    }

    /// So many of the records that stand before the first barrier, from this place on: those that
    /// lie at the end of the queue's room, and those that lie at its beginning.
    #[inline(always)]
    pub fn records_from(&self, from: usize, count: usize) -> (&[R], &[R])
        requires { from + count ≤ length (leading_records self.now.items) }
        ensures { result.0.now ++ result.1.now
            ≡ take count (drop from (leading_records self.now.items)) }
    {
        let (first, second) = self.records.as_slices();
        let end = from + count;
        let held = first.len();
        (
            part(first, from, end),
            part(second, from.saturating_sub(held), end.saturating_sub(held)),
        )
    }

    /// Whether these records stand first, with no barrier before one of them.
    #[inline(always)]
    pub fn starts_with(&self, records: &[R]) -> bool
    where
        R: Eq,
        ensures { EqualIsSame R.Eq.eq → IsTrue result
            ↔ (take (length records.now) self.now.items ≡ map Record records.now) }
    {
        if self.before_barrier() < records.len() {
            return false;
        }
        for (own, record) in self.records.iter().zip(records) {
            if own != record {
                return false;
            }
        }
        true
    }

    /// The item that was sent first.
    pub fn head(&self) -> Option<Item<&R>>
        ensures { option_map item_copied result ≡ slice_get self.now.items 0 }
    {
        match self.record(0) {
            Some(record) => Some(Item::Record(record)),
            None => Some(Item::Barrier(self.barriers.front()?.checkpoint)),
        }
    }

    /// Takes the item that was sent first.
    pub fn pop(&mut self) -> Option<Item<R>>
        ensures taken { result ≡ slice_get self.old.items 0 }
        ensures rest { self.new ≡ record self.old { items = drop 1 self.old.items } }
    {
        if self.before_barrier() == 0 {
            let barrier = self.barriers.pop_front()?;
            return Some(Item::Barrier(barrier.checkpoint));
        }
        let record = self.records.pop_front()?;
        match self.barriers.front_mut() {
            Some(barrier) => barrier.gap -= 1,
            None => self.behind -= 1,
        }
        Some(Item::Record(record))
    }

    /// Takes away so many of the records that stand before the first barrier.
    #[inline(always)]
    pub fn skip(&mut self, count: usize)
        requires { count ≤ length (leading_records self.old.items) }
        ensures { self.new ≡ record self.old { items = drop count self.old.items } }
    {
        take_away(&mut self.records, count);
        match self.barriers.front_mut() {
            Some(barrier) => barrier.gap -= count,
            None => self.behind -= count,
        }
    }
}

/// Puts records last in a queue. It takes no memory.
fn push_each<R: Drop>(queue: &mut VecDeque<R>, records: Vec<R>)
    requires { deque_len queue.old + vec_len records ≤ deque_capacity queue.old }
    ensures items { queue.new.items ≡ queue.old.items ++ records.items }
    ensures len { deque_len queue.new ≡ deque_len queue.old + vec_len records }
    ensures capacity { deque_capacity queue.new ≡ deque_capacity queue.old }
{
    for record in records {
        queue.push_back_reserved(record);
    }
}

/// Those of these records that stand from one place on, and before another, as far as they go.
#[inline(always)]
fn part<R>(records: &[R], from: usize, end: usize) -> &[R]
    ensures { result.now ≡ drop from (take end records.now) }
{
    let end = end.min(records.len());
    &records[from.min(end)..end]
}

/// Takes away so many records of a queue, from its front. Where none is left, the next records lie
/// from the first slot of its room on: few slots are used again and again, which a cache holds.
#[inline(always)]
fn take_away<R: Drop>(records: &mut VecDeque<R>, count: usize)
    requires { count ≤ deque_len records.old }
    ensures items { records.new.items ≡ drop count records.old.items }
    ensures len { deque_len records.new + count ≡ deque_len records.old }
    ensures capacity { deque_capacity records.new ≡ deque_capacity records.old }
{
    drop_first(records, count);
    if records.is_empty() {
        start_anew(records);
    }
}

/// The next records of an empty queue lie from the first slot of its room on. It is seldom called,
/// and would else stand in every place where a record is taken.
#[inline(never)]
fn start_anew<R: Drop>(records: &mut VecDeque<R>)
    ensures items { records.new.items ≡ records.old.items }
    ensures len { deque_len records.new ≡ deque_len records.old }
    ensures capacity { deque_capacity records.new ≡ deque_capacity records.old }
{
    replace_with(records, (), from_first_slot);
}

/// Drops so many records of a queue, from its front.
fn drop_first<R: Drop>(records: &mut VecDeque<R>, count: usize)
    requires { count ≤ deque_len records.old }
    ensures items { records.new.items ≡ drop count records.old.items }
    ensures len { deque_len records.new + count ≡ deque_len records.old }
    ensures capacity { deque_capacity records.new ≡ deque_capacity records.old }
{
    for _ in 0..count {
        let _ = records.pop_front();
    }
}

/// The same queue, whose records lie from the first slot of its room on.
fn from_first_slot<R: Drop>(records: VecDeque<R>, _nothing: ()) -> (VecDeque<R>, ())
    ensures items { result.0.items ≡ records.items }
    ensures len { deque_len result.0 ≡ deque_len records }
    ensures capacity { deque_capacity result.0 ≡ deque_capacity records }
{
    (VecDeque::from_vec(records.into_vec()), ())
}
