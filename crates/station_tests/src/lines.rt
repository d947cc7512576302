//! A line over devices in memory: a source, an operator that adds 10, and a sink.

use crate::playing::{How, Played, play};
use crate::watchers::Meeting;
use commit_sink::{MemoryTransactions, Transactions};
use dataflow_core::Core;
use job_graph::Graph;
use job_input::{Input, JobInput, judge};
use operators::Operator;
use snapshot_store::{MemoryStore, SnapshotStore};
use source_log::Partitions;
use std::alloc::Global;
use std::marker::Brand;
use std::sync::ledger::Blank;
use std::sync::{Arc, Wait};
use std::test::Fail;
use std::thread::Threads;
use std::time::Clock;
use thread_runner::Schedule;

const LINE: &str =
    r#"{"vertices":[{"name":"s","kind":"source"},{"name":"plus","kind":"add","n":10},{"name":"out","kind":"sink"}],"edges":[{"from":"s","to":"plus"},{"from":"plus","to":"out"}]}"#;

/// The line and its rows, read as the program reads them.
fn read<R: Threads + Sync>(rt: &R, alloc: Global, rows: &str) -> Result<JobInput, Fail> {
    let job = Input {
        name: "job",
        file: Ok(LINE.as_bytes()),
    };
    let mut inputs = Vec::new(alloc);
    inputs.push(Input {
        name: "rows",
        file: Ok(rows.as_bytes()),
    })?;
    match judge(rt, alloc, job, inputs, 1) {
        Ok(input) => Ok(input),
        Err(_) => Err(Fail::new("a bad job or row")),
    }
}

/// Runs a job over these devices, where they are the graph's, with four readers beside it.
fn watched_over<
    O: Operator + Send,
    S: SnapshotStore + Drop + Send,
    X: Transactions + Drop + Send,
    P: Partitions<Record = O::Record> + Drop + Send,
    R: Threads + Wait + Clock + Sync,
>(
    rt: &R,
    alloc: Global,
    graph: Graph,
    operators: Vec<O>,
    (log, store, sinks): (P, S, X),
    how: How,
    meeting: &Arc<Meeting, Global>,
) -> Result<Option<Played>, Fail>
where
    O::Record: Send,
    O::Key: Send + Sync,
    O::State: Send + Sync,
{
    if operators.len() != graph.operators() as usize || log.count() != graph.sources() {
        return Err(Fail::new("other operators or partitions than the job's"));
    }
    if store.tasks() != graph.tasks() || sinks.subtasks() != graph.sinks() {
        return Err(Fail::new("other devices than the job's"));
    }
    let schedule = Schedule::new(alloc, &graph)?;
    let core = Core::open(alloc, graph, operators, log, store, sinks);
    let blank = Blank::new(65);
    Ok(play::<O, S, X, P, Brand, R>(rt, alloc, core, schedule, blank, how, meeting))
}

/// Runs the line over these rows, with four readers beside it.
pub(crate) fn watched<R: Threads + Wait + Clock + Sync>(
    rt: &R,
    alloc: Global,
    rows: &str,
    how: How,
    meeting: Meeting,
) -> Result<Option<Played>, Fail> {
    let meeting = Arc::new(alloc, meeting)?;
    let JobInput { job, graph, log } = read(rt, alloc, rows)?;
    let operators = job.operators(alloc)?;
    let store = MemoryStore::new(alloc, graph.tasks().max(1));
    let sinks = MemoryTransactions::new(alloc, graph.sinks());
    watched_over(
        rt,
        alloc,
        graph,
        operators,
        (log, store, sinks),
        how,
        &meeting,
    )
}
