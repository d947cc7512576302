//! The channels of a task.

ghost use Rattle.std.specs.Prelude.{◌≡◌, ◌<◌, ◌^◌, IfOk, IsTrue, length, map, filter};
ghost use Rattle.job_channels.specs.Channel.{channel_view};
ghost use Rattle.job_graph.specs.Expanded.{meets, numbers_of, is_input, is_output, is_on};
ghost use Rattle.job_graph.specs.Runs.{TakesSubtask, IsRun, AreRuns};
ghost use Rattle.job_graph.specs.Tables.{AreLinks, IsTable};

use job_channels::{Channel, Route};
use std::alloc::{AllocError, Global};

/// The channels of a task, by their numbers: those that lead into it, those that it sends on, and
/// of these the ones of its first and second port, with the runs that take the lanes in turn.
#[derive(Drop)]
pub(crate) struct Links {
    pub(crate) inputs: Vec<u32>,
    pub(crate) outputs: Vec<u32>,
    pub(crate) first: Vec<u32>,
    pub(crate) second: Vec<u32>,
    pub(crate) first_runs: Vec<u32>,
    pub(crate) second_runs: Vec<u32>,
}

fn leads_into(channels: &[Channel], number: u32, task: u32) -> bool
    ensures { result ≡ meets (is_input task) (map channel_view channels.now) number }
{
    channels
        .get(number as usize)
        .is_some_and(|c| c.receiver == task)
}

fn leads_from(channels: &[Channel], number: u32, task: u32) -> bool
    ensures { result ≡ meets (is_output task) (map channel_view channels.now) number }
{
    channels
        .get(number as usize)
        .is_some_and(|c| c.sender == task)
}

fn is_on_port(channels: &[Channel], number: u32, port: u32) -> bool
    ensures { result ≡ meets (is_on port) (map channel_view channels.now) number }
{
    channels
        .get(number as usize)
        .is_some_and(|c| c.port == port)
}

/// How many channels there are.
fn count_of(channels: &[Channel]) -> u32
    requires { length channels.now < 2 ^ 32 }
    ensures { result ≡ length (map channel_view channels.now) }
{
    channels.len() as u32
}

fn inputs(alloc: Global, channels: &[Channel], task: u32) -> Result<Vec<u32>, AllocError>
    requires { length channels.now < 2 ^ 32 }
    ensures { IfOk result (λ v. v.items ≡ numbers_of (is_input task)
        (map channel_view channels.now)) }
{
    (0..count_of(channels))
        .filter(|c| leads_into(channels, *c, task))
        .collect(alloc)
}

fn outputs(alloc: Global, channels: &[Channel], task: u32) -> Result<Vec<u32>, AllocError>
    requires { length channels.now < 2 ^ 32 }
    ensures { IfOk result (λ v. v.items ≡ numbers_of (is_output task)
        (map channel_view channels.now)) }
{
    (0..count_of(channels))
        .filter(|c| leads_from(channels, *c, task))
        .collect(alloc)
}

/// Of these channels, those of a port.
fn of_port(
    alloc: Global,
    channels: &[Channel],
    numbers: &[u32],
    port: u32,
) -> Result<Vec<u32>, AllocError>
    ensures { IfOk result (λ v. v.items
        ≡ filter (meets (is_on port) (map channel_view channels.now)) numbers.now) }
{
    numbers
        .iter()
        .copied()
        .filter(|number| is_on_port(channels, *number, port))
        .collect(alloc)
}

/// Whether the channel at a place takes the lanes that fall to this subtask of so many.
fn takes_subtask(
    channels: &[Channel],
    numbers: &[u32],
    place: usize,
    parallelism: u32,
    subtask: u32,
) -> bool
    ensures { IsTrue result → TakesSubtask (map channel_view channels.now) numbers.now place
        parallelism subtask }
{
    let route = Route::Lanes {
        parallelism,
        subtask,
    };
    numbers
        .get(place)
        .and_then(|number| channels.get(*number as usize))
        .is_some_and(|channel| channel.route == route)
}

/// Among how many channels the one at a place shares the lanes: 1 where it takes all.
fn parallelism_at(channels: &[Channel], numbers: &[u32], place: usize) -> u32 {
    let channel = numbers
        .get(place)
        .and_then(|number| channels.get(*number as usize));
    match channel.map(|channel| channel.route) {
        Some(Route::Lanes { parallelism, .. }) => parallelism,
        _ => 1,
    }
}

/// How many channels from a place on take the lanes in turn.
fn run_at(channels: &[Channel], numbers: &[u32], place: usize) -> u32
    requires { place < length numbers.now }
    ensures { IsRun (map channel_view channels.now) numbers.now place result }
{
    let parallelism = parallelism_at(channels, numbers, place);
    for subtask in 0..parallelism {
        if !takes_subtask(
            channels,
            numbers,
            place + subtask as usize,
            parallelism,
            subtask,
        ) {
            return 1;
        }
    }
    parallelism.max(1)
}

/// The run that begins at each place.
fn runs_of(alloc: Global, channels: &[Channel], numbers: &[u32]) -> Result<Vec<u32>, AllocError>
    ensures { IfOk result (λ runs. AreRuns (map channel_view channels.now) numbers.now
        runs.items) }
{
    let mut runs = Vec::new(alloc);
    for place in 0..numbers.len() {
        runs.push(run_at(channels, numbers, place))?;
    }
    Ok(runs)
}

fn links_of(alloc: Global, channels: &[Channel], task: u32) -> Result<Links, AllocError>
    requires { length channels.now < 2 ^ 32 }
    ensures { IfOk result (AreLinks (map channel_view channels.now) task) }
{
    let outputs = outputs(alloc, channels, task)?;
    let first = of_port(alloc, channels, &outputs, 0)?;
    let second = of_port(alloc, channels, &outputs, 1)?;
    Ok(Links {
        inputs: inputs(alloc, channels, task)?,
        outputs,
        first_runs: runs_of(alloc, channels, &first)?,
        second_runs: runs_of(alloc, channels, &second)?,
        first,
        second,
    })
}

/// The links of each of so many tasks.
pub(crate) fn table(
    alloc: Global,
    channels: &[Channel],
    tasks: u32,
) -> Result<Vec<Links>, AllocError>
    requires { length channels.now < 2 ^ 32 }
    ensures len { IfOk result (λ v. length v.items ≡ tasks) }
    ensures links { IfOk result (λ v. IsTable (map channel_view channels.now) v.items) }
{
    let mut table = Vec::new(alloc);
    for task in 0..tasks {
        table.push(links_of(alloc, channels, task)?)?;
    }
    Ok(table)
}
