//! What a task sends, once there is room for it.

ghost use Rattle.std.specs.Prelude.{◌≡◌, ◌<◌, ◌≤◌, ◌+◌, ◌^◌, ◌++◌, ℕ, List, length, slice_get, IsTrue, OnOk, IfOk, IfSome};
ghost use Rattle.deliveries.specs.Deliveries.{deliveries_of, on_first, sent_in, AreFanned, IsRunOf};
ghost use Rattle.job_state.specs.Sending.{contents_items, items_at, put_into, as_puts, into_one, room_at, AreLanes, HasPlace, HasRoom, IsOneInto, TakesAll, puts_of, waiting_at, known_at};

use crate::fans::{open_ports, reserve_fans, reserve_known};
use crate::sending::{push_all, release_all, reserve_deliveries};
use abs_codec::NoMemory;
use channels::{Channel, Item};
use deliveries::{Fanned, Sent, fixed_target, run_of, run_target, with_first_port};
use job_graph::Graph;
use operators::Operator;
use std::alloc::Global;
use std::mem::replace;

/// What a task sends, for which there is room.
#[derive(Drop)]
pub(crate) enum Ready<R> {
    /// One record, with the one channel that it goes into.
    One(u32, R),
    /// Records that all go into one channel.
    Together(u32, Vec<R>),
    /// Records, each with the one channel that it goes into.
    Rows(Vec<(u32, R)>),
    /// Items, each with its channel.
    Each(Vec<(u32, Item<R>)>),
}

/// Takes room for an item in a channel.
fn reserve_one<R: Drop>(channels: &mut [Channel<R>], number: u32) -> Result<(), NoMemory>
    requires { number < length channels.old }
    ensures room { OnOk result (1 ≤ room_at channels.new number) }
    ensures same { contents_items channels.new ≡ contents_items channels.old }
{
    channels[number as usize].reserve(1)?;
    Ok(())
}

/// The lane that stands at a place, if one does.
#[inline(always)]
fn lane_at(lanes: &[u64], place: usize) -> Option<u64>
    ensures { result ≡ slice_get lanes.now place }
{
    lanes.get(place).copied()
}

/// Takes room for so many items more in a channel. Where memory is refused, none is left in any.
pub(crate) fn reserve_run<R: Drop>(
    channels: &mut [Channel<R>],
    number: u32,
    count: usize,
) -> Result<(), NoMemory>
    requires { 0 < count → number < length channels.old }
    ensures room { OnOk result ((k : ℕ)
        → room_at channels.old k + waiting_at number count k ≤ room_at channels.new k) }
    ensures same { contents_items channels.new ≡ contents_items channels.old }
{
    if count == 0 {
        return Ok(());
    }
    let Ok(()) = channels[number as usize].reserve(count) else {
        release_all(channels);
        return Err(NoMemory);
    };
    Ok(())
}

/// One record more waits for room, in this channel. Where so many wait for it in another one, they
/// get theirs first.
fn wait_for<R: Drop>(
    channels: &mut [Channel<R>],
    number: &mut u32,
    waiting: &mut usize,
    target: u32,
) -> Result<(), NoMemory>
    requires inside { 0 < waiting.old → number.old < length channels.old }
    requires fits { waiting.old + 1 < 2 ^ 64 }
    ensures target { OnOk result (number.new ≡ target) }
    ensures more { OnOk result (waiting.new ≤ waiting.old + 1) }
    ensures room { OnOk result ((k : ℕ) → room_at channels.old k
        + waiting_at number.old waiting.old k + waiting_at target 1 k
        ≤ room_at channels.new k + waiting_at target waiting.new k) }
    ensures same { contents_items channels.new ≡ contents_items channels.old }
{
    if target != *number {
        reserve_run(channels, *number, *waiting)?;
        *number = target;
        *waiting = 0;
    }
    *waiting += 1;
    Ok(())
}

/// The channels that are known of a port, of these two.
#[inline(always)]
fn run_at<'a>(first: Option<&'a [u32]>, second: Option<&'a [u32]>, port: u32) -> Option<&'a [u32]>
    ensures { result ≡ known_at first.entry second.entry port }
{
    match port {
        0 => first,
        1 => second,
        _ => None,
    }
}

/// Whether each of these records is sent on a port whose channels are known.
fn are_known<R>(first: Option<&[u32]>, second: Option<&[u32]>, sent: &[(u32, R)]) -> bool {
    sent.iter()
        .all(|each| run_at(first, second, each.0).is_some())
}

/// Tells each record that a task sends the channel that it goes into, in place of its port, and
/// takes the room for it there: once for records that follow one another into one channel. All are
/// sent on ports whose channels are known, one run each. Their lanes may be known.
fn reserve_rows<O: Operator>(
    channels: &mut [Channel<O::Record>],
    graph: &Graph,
    task: u32,
    first: Option<&[u32]>,
    second: Option<&[u32]>,
    rows: &mut Vec<(u32, O::Record)>,
    lanes: &[u64],
) -> Result<(), NoMemory>
    requires channels { length channels.old ≡ length graph.now.channels }
    requires known { (port : ℕ) → IfSome (known_at first second port)
        (λ numbers. IsRunOf graph.now task port numbers.now) }
    requires lanes { AreLanes O.meaning rows.old.items lanes.now }
    ensures puts { OnOk result (as_puts rows.new.items
        ≡ deliveries_of O.meaning graph.now task rows.old.items) }
    ensures room { OnOk result (HasRoom channels.new (as_puts rows.new.items)) }
    ensures same { contents_items channels.new ≡ contents_items channels.old }
{
    // (those before a place that go into this channel, and have no room yet)
    let mut number = 0;
    let mut waiting: usize = 0;
    for place in 0..rows.len() {
        let (port, row) = &rows[place];
        let Some(numbers) = run_at(first, second, *port) else {
            return Err(NoMemory);
        };
        let known = lane_at(lanes, place);
        let target = run_target::<O>(graph, task, *port, numbers, row, known);
        wait_for(channels, &mut number, &mut waiting, target)?;
        rows[place].0 = target;
    }
    reserve_run(channels, number, waiting)
}

/// The one channel that what a task sends goes into, where that is one record, sent on a port whose
/// channels are one run; `None` where it is otherwise. Its lane may be known.
fn target_of_one<O: Operator>(
    graph: &Graph,
    task: u32,
    sent: &[(u32, O::Record)],
    lanes: &[u64],
) -> Option<u32>
    requires lanes { AreLanes O.meaning sent.now lanes.now }
    ensures { IfSome result (λ number. IsOneInto O.meaning graph.now task number sent.now) }
{
    if sent.len() != 1 {
        return None;
    }
    let (port, row) = &sent[0];
    let numbers = run_of(graph, task, *port)?;
    let known = lane_at(lanes, 0);
    Some(run_target::<O>(graph, task, *port, numbers, row, known))
}

/// Takes the room for records that a task sends, which the answer then holds in place of the list.
/// Where memory is refused, the list may have lost them. The lanes of the records may be known, and
/// they may be put with their channels already.
fn make_each_ready<O: Operator>(
    alloc: Global,
    channels: &mut [Channel<O::Record>],
    graph: &Graph,
    task: u32,
    sent: &mut Vec<(u32, O::Record)>,
    lanes: &[u64],
    fanned: &mut Option<Fanned<O::Record>>,
) -> Result<Ready<O::Record>, NoMemory>
    requires channels { length channels.old ≡ length graph.now.channels }
    requires lanes { AreLanes O.meaning sent.old.items lanes.now }
    requires fanned { AreFanned sent.old.items fanned.old }
    ensures puts { IfOk result (λ ready. puts_of ready
        ≡ deliveries_of O.meaning graph.now task sent.old.items) }
    ensures place { IfOk result (λ ready. HasPlace channels.new ready) }
    ensures same { contents_items channels.new ≡ contents_items channels.old }
{
    if let Some(number) = target_of_one::<O>(graph, task, sent, lanes) {
        reserve_one(channels, number)?;
        if let Some((_, row)) = sent.pop() {
            return Ok(Ready::One(number, row));
        }
    }
    if let Some(known) = fanned.take() {
        if let Some(rows) = reserve_known::<O>(channels, graph, task, sent, known)? {
            return Ok(Ready::Rows(rows));
        }
    }
    let sent = replace(sent, Vec::new(alloc));
    make_all_ready::<O>(alloc, channels, graph, task, sent, lanes)
}

/// Takes the room for all that a task sends.
fn make_all_ready<O: Operator>(
    alloc: Global,
    channels: &mut [Channel<O::Record>],
    graph: &Graph,
    task: u32,
    mut sent: Vec<(u32, O::Record)>,
    lanes: &[u64],
) -> Result<Ready<O::Record>, NoMemory>
    requires channels { length channels.old ≡ length graph.now.channels }
    requires lanes { AreLanes O.meaning sent.items lanes.now }
    ensures puts { IfOk result (λ ready. puts_of ready
        ≡ deliveries_of O.meaning graph.now task sent.items) }
    ensures place { IfOk result (λ ready. HasPlace channels.new ready) }
    ensures same { contents_items channels.new ≡ contents_items channels.old }
{
    let first = run_of(graph, task, 0);
    let second = run_of(graph, task, 1);
    if are_known(first, second, &sent) {
        reserve_rows::<O>(channels, graph, task, first, second, &mut sent, lanes)?;
        return Ok(Ready::Rows(sent));
    }
    if let Some(ports) = open_ports::<O>(graph, task, &sent) {
        let rows = reserve_fans::<O>(alloc, channels, graph, task, ports, sent)?;
        return Ok(Ready::Rows(rows));
    }
    let puts = reserve_deliveries::<O>(alloc, channels, graph, task, sent)?;
    Ok(Ready::Each(puts))
}

/// Whether each of these records goes into this channel when a task sends it on its first port,
/// whose channels are these. Their lanes may be known.
fn all_go_into<O: Operator>(
    graph: &Graph,
    task: u32,
    numbers: &[u32],
    number: u32,
    rows: &[O::Record],
    lanes: &[u64],
) -> bool
    requires run { IsRunOf graph.now task 0 numbers.now }
    requires lanes { AreLanes O.meaning (on_first rows.now) lanes.now }
    ensures { IsTrue result → deliveries_of O.meaning graph.now task (on_first rows.now)
        ≡ into_one number rows.now }
{
    for place in 0..rows.len() {
        let lane = lane_at(lanes, place);
        if run_target::<O>(graph, task, 0, numbers, &rows[place], lane) != number {
            return false;
        }
    }
    true
}

/// The channel that all of these records go into when a task sends them on its first port; `None`
/// where there is no such one, or no record. Their lanes may be known.
fn target_of_all<O: Operator>(
    graph: &Graph,
    task: u32,
    rows: &[O::Record],
    lanes: &[u64],
) -> Option<u32>
    requires lanes { AreLanes O.meaning (on_first rows.now) lanes.now }
    ensures all { IfSome result (λ number. deliveries_of O.meaning graph.now task
        (on_first rows.now) ≡ into_one number rows.now) }
    ensures some { IfSome result (λ _. 0 < length rows.now) }
{
    if rows.is_empty() {
        return None;
    }
    if let Some(number) = fixed_target::<O>(graph, task, 0) {
        return Some(number);
    }
    let numbers = run_of(graph, task, 0)?;
    let number = run_target::<O>(graph, task, 0, numbers, &rows[0], lane_at(lanes, 0));
    if all_go_into::<O>(graph, task, numbers, number, rows, lanes) {
        Some(number)
    } else {
        None
    }
}

/// Takes room for so many records in a channel where something stands: else none is needed.
fn reserve_unless_empty<R: Drop>(
    channels: &mut [Channel<R>],
    number: u32,
    count: usize,
) -> Result<(), NoMemory>
    requires { number < length channels.old }
    ensures takes { OnOk result (TakesAll channels.new number count) }
    ensures same { contents_items channels.new ≡ contents_items channels.old }
{
    if channels[number as usize].is_empty() {
        return Ok(());
    }
    reserve_run(channels, number, count)
}

/// Takes the room for records that a task sends on its first port. Their lanes may be known.
fn make_together_ready<O: Operator>(
    alloc: Global,
    channels: &mut [Channel<O::Record>],
    graph: &Graph,
    task: u32,
    rows: Vec<O::Record>,
    lanes: &[u64],
) -> Result<Ready<O::Record>, NoMemory>
    requires channels { length channels.old ≡ length graph.now.channels }
    requires lanes { AreLanes O.meaning (on_first rows.items) lanes.now }
    ensures puts { IfOk result (λ ready. puts_of ready
        ≡ deliveries_of O.meaning graph.now task (on_first rows.items)) }
    ensures place { IfOk result (λ ready. HasPlace channels.new ready) }
    ensures same { contents_items channels.new ≡ contents_items channels.old }
{
    if let Some(number) = target_of_all::<O>(graph, task, &rows, lanes) {
        reserve_unless_empty(channels, number, rows.len())?;
        return Ok(Ready::Together(number, rows));
    }
    let sent = with_first_port(alloc, rows)?;
    make_all_ready::<O>(alloc, channels, graph, task, sent, lanes)
}

/// Takes the room for what a task sends, which the answer then holds in its place. Where memory is
/// refused, it may be lost. The lanes of the records may be known, and they may be put with their
/// channels already.
pub(crate) fn make_ready<O: Operator>(
    alloc: Global,
    channels: &mut [Channel<O::Record>],
    graph: &Graph,
    task: u32,
    sent: &mut Sent<O::Record>,
    lanes: &[u64],
    fanned: &mut Option<Fanned<O::Record>>,
) -> Result<Ready<O::Record>, NoMemory>
    requires channels { length channels.old ≡ length graph.now.channels }
    requires lanes { AreLanes O.meaning (sent_in sent.old) lanes.now }
    requires fanned { AreFanned (sent_in sent.old) fanned.old }
    ensures puts { IfOk result (λ ready. puts_of ready
        ≡ deliveries_of O.meaning graph.now task (sent_in sent.old)) }
    ensures place { IfOk result (λ ready. HasPlace channels.new ready) }
    ensures same { contents_items channels.new ≡ contents_items channels.old }
{
    match sent {
        Sent::Each(each) => {
            make_each_ready::<O>(alloc, channels, graph, task, each, lanes, fanned)
        }
        Sent::Together(rows) => {
            let rows = replace(rows, Vec::new(alloc));
            make_together_ready::<O>(alloc, channels, graph, task, rows, lanes)
        }
    }
}

/// Puts each record last in its channel. It takes no memory.
fn push_rows<R: Drop>(channels: &mut [Channel<R>], rows: Vec<(u32, R)>)
    requires { HasRoom channels.old (as_puts rows.items) }
    ensures { (number : ℕ) → items_at (contents_items channels.new) number
        ≡ items_at (contents_items channels.old) number ++ put_into number (as_puts rows.items) }
{
    for (number, row) in rows {
        channels[number as usize].push_reserved(Item::Record(row));
    }
}

/// Puts what a task sends last in its channels. It takes no memory.
pub(crate) fn push_ready<R: Drop>(channels: &mut [Channel<R>], ready: Ready<R>)
    requires { HasPlace channels.old ready }
    ensures { (number : ℕ) → items_at (contents_items channels.new) number
        ≡ items_at (contents_items channels.old) number ++ put_into number (puts_of ready) }
{
    match ready {
        Ready::One(number, row) => channels[number as usize].push_reserved(Item::Record(row)),
        Ready::Together(number, rows) => channels[number as usize].append(rows),
        Ready::Rows(rows) => push_rows(channels, rows),
        Ready::Each(puts) => push_all(channels, puts),
    }
}
