//! What a task sends, by the channels that it goes into.

ghost use Rattle.std.specs.Prelude.{◌≡◌, ◌++◌, ◌∷◌, ℕ, [], All, IsTrue, length, map, filter, take, drop, OnOk, IfOk, IfSome};
ghost use Rattle.std.specs.Option.{option_to_list};
ghost use Rattle.channels.specs.declared.item.Item.TheVariants.{Record};
ghost use Rattle.dataflow_model.specs.Graph.{takes_lane};
ghost use Rattle.job_channels.specs.Channel.{route_view};
ghost use Rattle.job_graph.specs.Expanded.{meets, takes, outlets_of};
ghost use Rattle.job_graph.specs.Runs.{IsRun};
ghost use Rattle.deliveries.specs.Deliveries.{deliveries_of_one, deliveries_of, barriers_of};

use crate::turns::turn;
use abs_codec::{Codec, NoMemory};
use channels::Item;
use job_graph::{Graph, Route};
use operators::Operator;
use std::alloc::Global;

/// Room for what goes into channels is taken at once for so many of these at most: of a hash edge
/// few take a record.
const ROOM_AT_ONCE: usize = 8;

/// Whether a route takes each record, whatever its lane is: there is no choice, or one lane.
fn takes_any(route: Route) -> bool
    ensures { IsTrue result → (lane : ℕ) → IsTrue (takes_lane (route_view route) lane) }
{
    match route {
        Route::Every => true,
        Route::Lanes {
            parallelism,
            subtask,
        } => parallelism == 1 && subtask == 0,
    }
}

/// Whether a channel takes each record, whatever its lane is.
pub(crate) fn takes_all(graph: &Graph, number: u32) -> bool
    ensures { IsTrue result → (lane : ℕ) → IsTrue (meets (takes lane) graph.now.channels number) }
{
    match graph.channel(number) {
        Some(channel) => takes_any(channel.route),
        None => false,
    }
}

/// Of a run of the task's channels, the one that takes this record, if one does. Its lane is
/// reckoned only where it matters.
#[inline(always)]
fn target<O: Operator>(
    graph: &Graph,
    numbers: &[u32],
    place: usize,
    run: usize,
    row: &O::Record,
) -> Option<u32>
    requires { IsRun graph.now.channels numbers.now place run }
    ensures { filter (meets (takes (O.meaning.lane row.now)) graph.now.channels)
        (take run (drop place numbers.now)) ≡ option_to_list result }
{
    if run > 1 {
        return Some(numbers[place + turn(O::lane(row), run)]);
    }
    let number = numbers[place];
    if takes_all(graph, number) || graph.takes(number, O::lane(row)) {
        Some(number)
    } else {
        None
    }
}

/// The channels that a task sends on from a port, where they are one run: each record goes into
/// one of them at most.
pub(crate) fn sole_run(graph: &Graph, task: u32, port: u32) -> Option<&[u32]>
    ensures are { IfSome result (λ numbers. numbers.now ≡ outlets_of graph.now task port) }
    ensures run { IfSome result (λ numbers. IsRun graph.now.channels numbers.now 0
        (length numbers.now)) }
{
    let numbers = graph.outlets(task, port);
    if numbers.is_empty() {
        return None;
    }
    let run = graph.runs(task, port)[0] as usize;
    if run < numbers.len() {
        return None;
    }
    Some(numbers)
}

/// The one channel that a record goes into when a task sends it on a port; `None` where none
/// takes it, or where the channels of the port are more than one run.
#[inline(always)]
pub fn sole_target<O: Operator>(graph: &Graph, task: u32, port: u32, row: &O::Record) -> Option<u32>
    ensures { IfSome result (λ number. deliveries_of O.meaning graph.now task
        ((port, row.now) ∷ []) ≡ (number, Record row.now) ∷ []) }
{
    let numbers = sole_run(graph, task, port)?;
    target::<O>(graph, numbers, 0, numbers.len(), row)
}

/// The one channel that each record goes into when a task sends it on a port, whatever the record
/// is; `None` where that is told by its lane, or where it may be none or several.
pub fn fixed_target<O: Operator>(graph: &Graph, task: u32, port: u32) -> Option<u32>
    ensures { IfSome result (λ number. (row : O.Record) → deliveries_of O.meaning graph.now task
        ((port, row) ∷ []) ≡ (number, Record row) ∷ []) }
{
    let numbers = sole_run(graph, task, port)?;
    if numbers.len() == 1 && takes_all(graph, numbers[0]) {
        Some(numbers[0])
    } else {
        None
    }
}

/// Whether each of these channels takes each record, whatever its lane is.
fn take_all(graph: &Graph, numbers: &[u32]) -> bool
    ensures { IsTrue result → (lane : ℕ)
        → All (λ n. IsTrue (meets (takes lane) graph.now.channels n)) numbers.now }
{
    numbers.iter().all(|number| takes_all(graph, *number))
}

/// The channels of a port, where each of them takes whatever a task sends there.
pub fn open_port<O: Operator>(graph: &Graph, task: u32, port: u32) -> Option<&[u32]>
    ensures are { IfSome result (λ numbers. numbers.now ≡ outlets_of graph.now task port) }
    ensures all { IfSome result (λ numbers. (row : O.Record) → deliveries_of_one O.meaning graph.now
        task (port, row) ≡ map (λ n. (n, Record row)) numbers.now) }
{
    let numbers = graph.outlets(task, port);
    if take_all(graph, numbers) {
        Some(numbers)
    } else {
        None
    }
}

/// Adds that a record goes into each channel that takes it from the task's port: the record itself
/// into the last of them, copies into the others. Of a run of channels one is looked at.
fn deliver_one<O: Operator>(
    graph: &Graph,
    task: u32,
    port: u32,
    row: O::Record,
    puts: &mut Vec<(u32, Item<O::Record>)>,
) -> Result<(), NoMemory>
    ensures { OnOk result (puts.new.items ≡ puts.old.items
        ++ deliveries_of_one O.meaning graph.now task (port, row)) }
{
    let (numbers, runs) = (graph.outlets(task, port), graph.runs(task, port));
    let mut last = None;
    let mut place = 0;
    while place < numbers.len() {
        let run = runs[place] as usize;
        if let Some(number) = target::<O>(graph, numbers, place, run, &row) {
            if let Some(previous) = last {
                puts.push((previous, Item::Record(row.copied()?)))?;
            }
            last = Some(number);
        }
        place += run;
    }
    if let Some(number) = last {
        puts.push((number, Item::Record(row)))?;
    }
    Ok(())
}

/// Which channel each record goes into that a task sends, each record with its port.
pub fn deliver<O: Operator>(
    alloc: Global,
    graph: &Graph,
    task: u32,
    sent: Vec<(u32, O::Record)>,
) -> Result<Vec<(u32, Item<O::Record>)>, NoMemory>
    ensures { IfOk result (λ puts. puts.items ≡ deliveries_of O.meaning graph.now task sent.items) }
{
    let mut puts = Vec::with_capacity(alloc, sent.len())?;
    for (port, row) in sent {
        deliver_one::<O>(graph, task, port, row, &mut puts)?;
    }
    Ok(puts)
}

/// Which channel a record goes into that a task sends on its first port.
pub fn deliver_row<O: Operator>(
    alloc: Global,
    graph: &Graph,
    task: u32,
    row: O::Record,
) -> Result<Vec<(u32, Item<O::Record>)>, NoMemory>
    ensures { IfOk result (λ puts. puts.items
        ≡ deliveries_of O.meaning graph.now task ((0, row) ∷ [])) }
{
    let room = graph.outlets(task, 0).len().min(ROOM_AT_ONCE);
    let mut puts = Vec::with_capacity(alloc, room)?;
    deliver_one::<O>(graph, task, 0, row, &mut puts)?;
    Ok(puts)
}

/// A barrier for each output of the task.
pub fn barriers<R: Drop>(
    alloc: Global,
    graph: &Graph,
    task: u32,
    checkpoint: u64,
) -> Result<Vec<(u32, Item<R>)>, NoMemory>
    ensures { IfOk result (λ puts. puts.items ≡ barriers_of graph.now task checkpoint) }
{
    let mut puts = Vec::new(alloc);
    for number in graph.outputs(task) {
        puts.push((*number, Item::Barrier(checkpoint)))?;
    }
    Ok(puts)
}
