//! What a task sends on ports each of whose channels takes whatever is sent there.

ghost use Rattle.std.specs.Prelude.{◌≡◌, ◌<◌, ◌≤◌, ◌+◌, ◌==◌, ◌++◌, ℕ, List, All, IsTrue, map, filter, length, OnOk, IfOk, IfSome};
ghost use Rattle.channels.specs.declared.item.Item.TheVariants.{Record};
ghost use Rattle.deliveries.specs.Deliveries.{deliveries_of, fanned_by, numbers_at};
ghost use Rattle.job_graph.specs.Expanded.{outlets_of};
ghost use Rattle.job_state.specs.Sending.{as_puts, contents_items, room_at, waiting_in, GoToAll, HasRoom};

use crate::ready::reserve_run;
use crate::sending::release_all;
use abs_codec::{Codec, NoMemory};
use channels::Channel;
use deliveries::{Fanned, open_port};
use job_graph::Graph;
use operators::Operator;
use std::alloc::Global;

/// The channels of a task's first two ports, of which it has no more.
#[derive(Clone, Copy)]
pub(crate) struct Ports<'a> {
    first: &'a [u32],
    second: &'a [u32],
}

impl Ports<'_> {
    /// The channels of a port.
    fn numbers(&self, port: u32) -> &[u32]
        ensures { result.now ≡ numbers_at self.now.first.now self.now.second.now port }
    {
        match port {
            0 => self.first,
            1 => self.second,
            _ => &[],
        }
    }
}

/// Whether each of these records is sent on the first port or the second.
fn are_on_two<R>(sent: &[(u32, R)]) -> bool
    ensures { IsTrue result → All (λ s. s.0 < 2) sent.now }
{
    sent.iter().all(|each| each.0 < 2)
}

/// The channels of a task's first two ports, where each of them takes whatever is sent there, and
/// each of these records is sent on one of the two.
pub(crate) fn open_ports<'a, O: Operator>(
    graph: &'a Graph,
    task: u32,
    sent: &[(u32, O::Record)],
) -> Option<Ports<'a>>
    ensures first { IfSome result (λ ports. ports.first.now ≡ outlets_of graph.now task 0) }
    ensures second { IfSome result (λ ports. ports.second.now ≡ outlets_of graph.now task 1) }
    ensures all { IfSome result (λ ports. GoToAll O.meaning graph.now task ports.first.now
        ports.second.now) }
    ensures two { IfSome result (λ _. All (λ s. s.0 < 2) sent.now) }
{
    let first = open_port::<O>(graph, task, 0)?;
    let second = open_port::<O>(graph, task, 1)?;
    if are_on_two(sent) {
        Some(Ports { first, second })
    } else {
        None
    }
}

/// How many of these records are sent on a port.
fn count_on<R>(sent: &[(u32, R)], port: u32) -> usize
    ensures { result ≡ length (filter (λ s. s.0 == port) sent.now) }
{
    let mut count = 0;
    for each in sent {
        if each.0 == port {
            count += 1;
        }
    }
    count
}

/// A record is put last with each of these channels: itself with the last of them, copies with the
/// others.
fn put_each<R: Codec>(numbers: &[u32], row: R, rows: &mut Vec<(u32, R)>) -> Result<(), NoMemory>
    ensures { OnOk result (as_puts rows.new.items
        ≡ as_puts rows.old.items ++ map (λ n. (n, Record row)) numbers.now) }
{
    rows.reserve(numbers.len())?;
    for place in 1..numbers.len() {
        rows.push_reserved((numbers[place - 1], row.copied()?));
    }
    if let Some(last) = numbers.last() {
        rows.push_reserved((*last, row));
    }
    Ok(())
}

/// Each record that a task sends, once for each channel that it goes into, with that channel in
/// place of its port. Room is taken for so many at first.
fn fan_out<O: Operator>(
    alloc: Global,
    graph: &Graph,
    task: u32,
    ports: Ports<'_>,
    sent: Vec<(u32, O::Record)>,
    room: usize,
) -> Result<Vec<(u32, O::Record)>, NoMemory>
    requires two { All (λ s. s.0 < 2) sent.items }
    requires all { GoToAll O.meaning graph.now task ports.first.now ports.second.now }
    ensures { IfOk result (λ rows. as_puts rows.items
        ≡ deliveries_of O.meaning graph.now task sent.items) }
{
    // (the clauses alone name them)
    let _ = graph;
    let _ = task;
    let mut rows = Vec::with_capacity(alloc, room)?;
    for (port, row) in sent {
        put_each(ports.numbers(port), row, &mut rows)?;
    }
    Ok(rows)
}

/// Takes room for so many items more in each of these channels. Where memory is refused, none is
/// left in any.
fn reserve_each<R: Drop>(
    channels: &mut [Channel<R>],
    numbers: &[u32],
    count: usize,
) -> Result<(), NoMemory>
    requires { All (λ n. n < length channels.old) numbers.now }
    ensures room { OnOk result ((k : ℕ) → room_at channels.old k + waiting_in numbers.now count k
        ≤ room_at channels.new k) }
    ensures same { contents_items channels.new ≡ contents_items channels.old }
{
    for number in numbers {
        reserve_run(channels, *number, count)?;
    }
    Ok(())
}

/// Takes room for what a task sends, in each of its channels: for so many records in all. All go
/// out on the first port and the second, whose channels are these, each of which takes whatever is
/// sent there.
fn reserve_ports<O: Operator>(
    channels: &mut [Channel<O::Record>],
    graph: &Graph,
    task: u32,
    ports: Ports<'_>,
    sent: &[(u32, O::Record)],
) -> Result<usize, NoMemory>
    requires channels { length channels.old ≡ length graph.now.channels }
    requires first { ports.first.now ≡ outlets_of graph.now task 0 }
    requires second { ports.second.now ≡ outlets_of graph.now task 1 }
    requires all { GoToAll O.meaning graph.now task ports.first.now ports.second.now }
    requires two { All (λ s. s.0 < 2) sent.now }
    ensures room { OnOk result (HasRoom channels.new
        (deliveries_of O.meaning graph.now task sent.now)) }
    ensures same { contents_items channels.new ≡ contents_items channels.old }
{
    // (the clauses alone name them)
    let _ = graph;
    let _ = task;
    let on_first = count_on(sent, 0);
    let on_second = count_on(sent, 1);
    reserve_each(channels, ports.first, on_first)?;
    reserve_each(channels, ports.second, on_second)?;
    let into_first = on_first.saturating_mul(ports.first.len());
    Ok(into_first.saturating_add(on_second.saturating_mul(ports.second.len())))
}

/// Each record that a task sends, once for each channel that it goes into, with that channel in
/// place of its port, and room taken for it there. All go out on the first port and the second,
/// whose channels are these, each of which takes whatever is sent there.
pub(crate) fn reserve_fans<O: Operator>(
    alloc: Global,
    channels: &mut [Channel<O::Record>],
    graph: &Graph,
    task: u32,
    ports: Ports<'_>,
    sent: Vec<(u32, O::Record)>,
) -> Result<Vec<(u32, O::Record)>, NoMemory>
    requires channels { length channels.old ≡ length graph.now.channels }
    requires first { ports.first.now ≡ outlets_of graph.now task 0 }
    requires second { ports.second.now ≡ outlets_of graph.now task 1 }
    requires all { GoToAll O.meaning graph.now task ports.first.now ports.second.now }
    requires two { All (λ s. s.0 < 2) sent.items }
    ensures puts { IfOk result (λ rows. as_puts rows.items
        ≡ deliveries_of O.meaning graph.now task sent.items) }
    ensures room { IfOk result (λ rows. HasRoom channels.new (as_puts rows.items)) }
    ensures same { contents_items channels.new ≡ contents_items channels.old }
{
    let room = reserve_ports::<O>(channels, graph, task, ports, &sent)?;
    let Ok(rows) = fan_out::<O>(alloc, graph, task, ports, sent, room) else {
        release_all(channels);
        return Err(NoMemory);
    };
    Ok(rows)
}

/// What a task sends, which was put with channels beforehand, and room taken for it there; `None`
/// where these are not the channels that it goes into.
pub(crate) fn reserve_known<O: Operator>(
    channels: &mut [Channel<O::Record>],
    graph: &Graph,
    task: u32,
    sent: &[(u32, O::Record)],
    known: Fanned<O::Record>,
) -> Result<Option<Vec<(u32, O::Record)>>, NoMemory>
    requires channels { length channels.old ≡ length graph.now.channels }
    requires known { known.rows.items
        ≡ fanned_by known.fans.first.items known.fans.second.items sent.now }
    ensures puts { IfOk result (λ found. IfSome found (λ rows. as_puts rows.items
        ≡ deliveries_of O.meaning graph.now task sent.now)) }
    ensures room { IfOk result (λ found. IfSome found
        (λ rows. HasRoom channels.new (as_puts rows.items))) }
    ensures same { contents_items channels.new ≡ contents_items channels.old }
{
    let Some(ports) = open_ports::<O>(graph, task, sent) else {
        return Ok(None);
    };
    if !known.fans.are(ports.first, ports.second) {
        return Ok(None);
    }
    reserve_ports::<O>(channels, graph, task, ports, sent)?;
    Ok(Some(known.rows))
}
