//! What is put into channels, and taken from them.

ghost use Rattle.std.specs.Prelude.{◌≡◌, ◌++◌, ◌∷◌, [], ◌+◌, ◌<◌, ◌≤◌, ◌↔◌, ℕ, All, map, length, take, drop, slice_get, option_map, IsTrue, OnOk, OnErr, IfOk, IfSome};
ghost use Rattle.std.specs.Option.{option_copied};
ghost use Rattle.abs_codec.specs.Same.{EqualIsSame};
ghost use Rattle.channels.specs.Items.{item_copied, leading_records};
ghost use Rattle.deliveries.specs.Deliveries.{deliveries_of, barriers_of};
ghost use Rattle.job_state.specs.AtOnce.{without_first};
ghost use Rattle.job_state.specs.Sending.{contents_items, items_at, put_into, room_at, HasRoom, AreChannels, Puts, barrier_into, without_head, GoesInto};
ghost use Rattle.channels.specs.declared.item.Item.TheVariants.{Record};
ghost use Rattle.dataflow_model.specs.Machine.{received};

use abs_codec::NoMemory;
use channels::{Channel, Item};
use deliveries::{barriers, deliver, deliver_row, sole_target};
use job_graph::Graph;
use operators::Operator;
use std::alloc::Global;

/// Leaves the room that was taken in any channel.
#[inline(never)]
pub(crate) fn release_all<R: Drop>(channels: &mut [Channel<R>])
    ensures room { (number : ℕ) → room_at channels.new number ≡ 0 }
    ensures same { contents_items channels.new ≡ contents_items channels.old }
{
    for number in 0..channels.len() {
        channels[number].release();
    }
}

/// Takes the room for all of these.
pub(crate) fn reserve_all<R: Drop>(
    channels: &mut [Channel<R>],
    puts: &[(u32, Item<R>)],
) -> Result<(), NoMemory>
    requires { AreChannels (length channels.old) puts.now }
    ensures room { OnOk result (HasRoom channels.new puts.now) }
    ensures same { contents_items channels.new ≡ contents_items channels.old }
{
    for put in puts {
        let Ok(()) = channels[put.0 as usize].reserve(1) else {
            release_all(channels);
            return Err(NoMemory);
        };
    }
    Ok(())
}

/// Puts each last in its channel. It takes no memory.
pub(crate) fn push_all<R: Drop>(channels: &mut [Channel<R>], puts: Vec<(u32, Item<R>)>)
    requires { HasRoom channels.old puts.items }
    ensures { (number : ℕ) → items_at (contents_items channels.new) number
        ≡ items_at (contents_items channels.old) number ++ put_into number puts.items }
{
    for (number, item) in puts {
        channels[number as usize].push_reserved(item);
    }
}

/// Takes the room for an item, and puts it last in its channel.
fn send_item<R: Drop>(
    channels: &mut [Channel<R>],
    number: u32,
    item: Item<R>,
) -> Result<(), NoMemory>
    requires { number < length channels.old }
    ensures ok { OnOk result (Puts (λ k. put_into k ((number, item) ∷ []))
        (contents_items channels.old) (contents_items channels.new)) }
    ensures err { OnErr result (contents_items channels.new ≡ contents_items channels.old) }
{
    let channel = &mut channels[number as usize];
    channel.reserve(1)?;
    channel.push_reserved(item);
    Ok(())
}

/// Which channel each record goes into that a task sends, with the room for them.
pub(crate) fn reserve_deliveries<O: Operator>(
    alloc: Global,
    channels: &mut [Channel<O::Record>],
    graph: &Graph,
    task: u32,
    sent: Vec<(u32, O::Record)>,
) -> Result<Vec<(u32, Item<O::Record>)>, NoMemory>
    requires { length channels.old ≡ length graph.now.channels }
    ensures puts { IfOk result (λ puts. puts.items
        ≡ deliveries_of O.meaning graph.now task sent.items) }
    ensures room { IfOk result (λ puts. HasRoom channels.new puts.items) }
    ensures same { contents_items channels.new ≡ contents_items channels.old }
{
    let puts = deliver::<O>(alloc, graph, task, sent)?;
    reserve_all(channels, &puts)?;
    Ok(puts)
}

/// Which channel a record goes into that a task sends on its first port, with the room for it.
fn reserve_row<O: Operator>(
    alloc: Global,
    channels: &mut [Channel<O::Record>],
    graph: &Graph,
    task: u32,
    row: O::Record,
) -> Result<Vec<(u32, Item<O::Record>)>, NoMemory>
    requires { length channels.old ≡ length graph.now.channels }
    ensures puts { IfOk result (λ puts. puts.items
        ≡ deliveries_of O.meaning graph.now task ((0, row) ∷ [])) }
    ensures room { IfOk result (λ puts. HasRoom channels.new puts.items) }
    ensures same { contents_items channels.new ≡ contents_items channels.old }
{
    let puts = deliver_row::<O>(alloc, graph, task, row)?;
    reserve_all(channels, &puts)?;
    Ok(puts)
}

/// The barrier for each output of a task, with the room for it.
pub(crate) fn reserve_barriers<R: Drop>(
    alloc: Global,
    channels: &mut [Channel<R>],
    graph: &Graph,
    task: u32,
    checkpoint: u64,
) -> Result<Vec<(u32, Item<R>)>, NoMemory>
    requires { length channels.old ≡ length graph.now.channels }
    ensures puts { IfOk result (λ puts. puts.items ≡ barriers_of graph.now task checkpoint) }
    ensures room { IfOk result (λ puts. HasRoom channels.new puts.items) }
    ensures same { contents_items channels.new ≡ contents_items channels.old }
{
    let puts = barriers(alloc, graph, task, checkpoint)?;
    reserve_all(channels, &puts)?;
    Ok(puts)
}

/// The item that stands first in a channel.
pub(crate) fn first<R: Drop>(channels: &[Channel<R>], channel: u32) -> Option<Item<&R>>
    ensures { option_map item_copied result
        ≡ slice_get (items_at (contents_items channels.now) channel) 0 }
{
    channels.get(channel as usize)?.head()
}

/// How many records stand in a channel before the first barrier, or the end.
pub(crate) fn before_barrier<R: Drop>(channels: &[Channel<R>], channel: u32) -> usize
    ensures { result ≡ length (leading_records (items_at (contents_items channels.now) channel)) }
{
    match channels.get(channel as usize) {
        Some(channel) => channel.before_barrier(),
        None => 0,
    }
}

/// The record at a place of a channel, if it stands before the first barrier.
pub(crate) fn record_at<R: Drop>(channels: &[Channel<R>], channel: u32, index: usize) -> Option<&R>
    ensures { option_copied result
        ≡ slice_get (leading_records (items_at (contents_items channels.now) channel)) index }
{
    channels.get(channel as usize)?.record(index)
}

/// So many of the records of a channel that stand before the first barrier, from this place on, in
/// two pieces.
#[inline(always)]
pub(crate) fn records_from<R: Drop>(
    channels: &[Channel<R>],
    channel: u32,
    from: usize,
    count: usize,
) -> (&[R], &[R])
    requires { from + count
        ≤ length (leading_records (items_at (contents_items channels.now) channel)) }
    ensures { result.0.now ++ result.1.now ≡ take count (drop from
        (leading_records (items_at (contents_items channels.now) channel))) }
{
    match channels.get(channel as usize) {
        Some(channel) => channel.records_from(from, count),
        None => (&[], &[]),
    }
}

/// Whether these records stand first in a channel, with no barrier before one of them. A channel
/// that does not exist has none.
#[inline(always)]
pub(crate) fn starts_with<R: Drop + Eq>(
    channels: &[Channel<R>],
    channel: u32,
    records: &[R],
) -> bool
    ensures { EqualIsSame R.Eq.eq → IsTrue result ↔ (take (length records.now)
        (items_at (contents_items channels.now) channel) ≡ map Record records.now) }
{
    match channels.get(channel as usize) {
        Some(channel) => channel.starts_with(records),
        None => records.is_empty(),
    }
}

/// Takes the first item of a channel, if there is one.
#[inline(always)]
pub(crate) fn take_head<R: Drop>(channels: &mut [Channel<R>], channel: u32) -> Option<Item<R>>
    ensures taken { result ≡ slice_get (items_at (contents_items channels.old) channel) 0 }
    ensures rest { contents_items channels.new
        ≡ without_head channel (contents_items channels.old) }
    ensures room { (number : ℕ) → room_at channels.old number ≤ room_at channels.new number }
{
    let place = channel as usize;
    if place < channels.len() {
        channels[place].pop()
    } else {
        None
    }
}

/// Takes away so many of the records that stand first in a channel, before a barrier.
#[inline(always)]
pub(crate) fn skip<R: Drop>(channels: &mut [Channel<R>], channel: u32, count: usize)
    requires { count ≤ length (leading_records (items_at (contents_items channels.old) channel)) }
    ensures rest { contents_items channels.new
        ≡ without_first count channel (contents_items channels.old) }
    ensures room { (number : ℕ) → room_at channels.old number ≤ room_at channels.new number }
{
    let place = channel as usize;
    if place < channels.len() {
        channels[place].skip(count);
    }
}

/// Takes the first item of a channel, and puts each of these last in its channel. It takes no
/// memory.
pub(crate) fn pass_on<R: Drop>(
    channels: &mut [Channel<R>],
    channel: u32,
    puts: Vec<(u32, Item<R>)>,
) -> Option<Item<R>>
    requires { HasRoom channels.old puts.items }
    ensures taken { result ≡ slice_get (items_at (contents_items channels.old) channel) 0 }
    ensures puts { Puts (λ number. put_into number puts.items)
        (without_head channel (contents_items channels.old)) (contents_items channels.new) }
{
    let taken = take_head(channels, channel);
    push_all(channels, puts);
    taken
}

/// The one channel that a record goes into when a task sends it on its first port, which may be
/// known; `None` where there is no such one, or where the channels of the port are more than one
/// run.
fn target_of<O: Operator>(
    graph: &Graph,
    task: u32,
    row: &O::Record,
    known: Option<u32>,
) -> Option<u32>
    requires { IfSome known (λ number. GoesInto O.meaning graph.now task number
        row.now) }
    ensures { IfSome result (λ number. GoesInto O.meaning graph.now task number
        row.now) }
{
    match known {
        Some(number) => Some(number),
        None => sole_target::<O>(graph, task, 0, row),
    }
}

/// Sends a record on a task's first port. The channel that it goes into may be known.
pub(crate) fn send_record<O: Operator>(
    alloc: Global,
    channels: &mut [Channel<O::Record>],
    graph: &Graph,
    task: u32,
    row: O::Record,
    known: Option<u32>,
) -> Result<(), NoMemory>
    requires channels { length channels.old ≡ length graph.now.channels }
    requires known { IfSome known (λ number. GoesInto O.meaning graph.now task number
        row) }
    ensures ok { OnOk result (Puts (λ number. map Record
        (received O.meaning task ((0, row) ∷ []) (slice_get graph.now.channels number)))
        (contents_items channels.old) (contents_items channels.new)) }
    ensures err { OnErr result (contents_items channels.new ≡ contents_items channels.old) }
{
    if let Some(number) = target_of::<O>(graph, task, &row, known) {
        return send_item(channels, number, Item::Record(row));
    }
    let puts = reserve_row::<O>(alloc, channels, graph, task, row)?;
    push_all(channels, puts);
    Ok(())
}

/// Sends the barrier of a task that has no inputs.
pub(crate) fn send_barriers<R: Drop>(
    alloc: Global,
    channels: &mut [Channel<R>],
    graph: &Graph,
    task: u32,
    checkpoint: u64,
) -> Result<(), NoMemory>
    requires { length channels.old ≡ length graph.now.channels }
    ensures ok { OnOk result (Puts (λ number. barrier_into checkpoint task
        (slice_get graph.now.channels number)) (contents_items channels.old)
        (contents_items channels.new)) }
    ensures err { OnErr result (contents_items channels.new ≡ contents_items channels.old) }
{
    let puts = reserve_barriers(alloc, channels, graph, task, checkpoint)?;
    push_all(channels, puts);
    Ok(())
}
