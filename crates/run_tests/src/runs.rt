//! Runs over devices in memory, which may fail.

use commit_sink::{FlakyTransactions, MemoryTransactions, Transactions};
use dataflow_core::Core;
use job_graph::Graph;
use job_input::{Input, JobInput, judge};
use job_runner::{Options, Pause, Report, RunRefusal, run_core};
use operators::Operator;
use snapshot_store::{FlakyStore, MemoryStore, SnapshotStore};
use source_log::{FlakyLog, Partitions};
use std::alloc::Global;
use std::marker::Brand;
use std::sync::Wait;
use std::sync::ledger::Blank;
use std::test::Fail;
use std::thread::Threads;
use std::time::Clock;
use thread_runner::Schedule;

/// How a run is made.
#[derive(Clone, Copy)]
pub(crate) struct How {
    pub(crate) options: Options,
    pub(crate) restarts: u64,
    /// Each device fails at each of its calls of a number that this divides, up to that one.
    pub(crate) faults: Option<(u64, u64)>,
}

/// Runs a job over these devices, where they are the graph's, and prints what is committed.
fn run_over<
    O: Operator + Send + Sync,
    S: SnapshotStore + Drop + Send + Sync,
    X: Transactions + Drop + Send + Sync,
    P: Partitions<Record = O::Record> + Drop + Send + Sync,
    H: Pause + Sync,
    R: Threads + Wait + Clock + Sync,
>(
    rt: &R,
    alloc: Global,
    graph: Graph,
    operators: Vec<O>,
    (log, store, sinks): (P, S, X),
    how: How,
    pause: &H,
    out: &mut Vec<u8>,
) -> Result<Result<Report, RunRefusal<'static>>, Fail>
where
    O::Record: Send + Sync,
    O::Key: Send + Sync,
    O::State: Send + Sync,
{
    if operators.len() != graph.operators() as usize || log.count() != graph.sources() {
        return Err(Fail::new("other operators or partitions than the job's"));
    }
    if store.tasks() != graph.tasks() || sinks.subtasks() != graph.sinks() {
        return Err(Fail::new("other devices than the job's"));
    }
    let schedule = Schedule::new(alloc, &graph)?;
    let core = Core::open(alloc, graph, operators, log, store, sinks);
    Ok(run_core::<O, S, X, P, Brand, H, R, Vec<u8>>(
        rt,
        alloc,
        core,
        schedule,
        Blank::new(65),
        how.options,
        how.restarts,
        pause,
        out,
    ))
}

/// The job and its rows, read as the program reads them.
fn read<R: Threads + Sync>(
    rt: &R,
    alloc: Global,
    job: &str,
    rows: &[&str],
    workers: u64,
) -> Result<JobInput, Fail> {
    let job = Input {
        name: "job",
        file: Ok(job.as_bytes()),
    };
    let mut inputs = Vec::new(alloc);
    for rows in rows {
        inputs.push(Input {
            name: "rows",
            file: Ok(rows.as_bytes()),
        })?;
    }
    match judge(rt, alloc, job, inputs, workers) {
        Ok(input) => Ok(input),
        Err(_) => Err(Fail::new("a bad job or row")),
    }
}

/// Runs a job over these rows, one text for each source task. What it prints is put last.
pub(crate) fn run_job<H: Pause + Sync, R: Threads + Wait + Clock + Sync>(
    rt: &R,
    alloc: Global,
    job: &str,
    rows: &[&str],
    how: How,
    pause: &H,
    out: &mut Vec<u8>,
) -> Result<Result<Report, RunRefusal<'static>>, Fail> {
    let JobInput { job, graph, log } = read(rt, alloc, job, rows, how.options.workers)?;
    let operators = job.operators(alloc)?;
    if graph.tasks() == 0 {
        return Err(Fail::new("the job has no task"));
    }
    let store = MemoryStore::new(alloc, graph.tasks());
    let sinks = MemoryTransactions::new(alloc, graph.sinks());
    let mut devices = (
        FlakyLog::new(log),
        FlakyStore::new(store),
        FlakyTransactions::new(sinks),
    );
    if let Some((k, last)) = how.faults {
        devices.0.every(k, last);
        devices.1.every(k, last);
        devices.2.every(k, last);
    }
    run_over(rt, alloc, graph, operators, devices, how, pause, out)
}
