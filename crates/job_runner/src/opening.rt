//! The core that a run is made on.

ghost use Rattle.std.specs.Prelude.{◌≡◌, ◌≤◌, count_by, length};
ghost use Rattle.job_graph.specs.Expanded.{is_source};
ghost use Rattle.job_graph.specs.PlainGraph.{HaveOperators};
ghost use Rattle.job_spec.specs.Job.{operators_of};

use absflow_run::Refusal;
use commit_sink::MemoryTransactions;
use dataflow_core::Core;
use job_graph::Graph;
use job_spec::JobSpec;
use operators::{Row, RowOp};
use snapshot_store::MemoryStore;
use source_log::{MemoryLog, Partitions};
use std::alloc::Global;
use thread_runner::Schedule;

/// A core over rows, with its devices in memory.
pub type JobCore = Core<RowOp, MemoryStore, MemoryTransactions, MemoryLog<Row>>;

/// A core of this job over new devices and this log, and the schedule of its graph. It is down.
pub(crate) fn open(
    alloc: Global,
    job: &JobSpec,
    graph: Graph,
    log: MemoryLog<Row>,
) -> Result<(JobCore, Schedule), Refusal>
    requires tasks { 1 ≤ length graph.tasks }
    requires operators { HaveOperators graph (operators_of job.now) }
    requires partitions { length (⟦<MemoryLog<Row> as Partitions>⟧.records log)
        ≡ count_by is_source graph.tasks }
{
    let tasks = graph.tasks();
    let sinks = graph.sinks();
    let operators = job.operators(alloc)?;
    let schedule = Schedule::new(alloc, &graph)?;
    let store = MemoryStore::new(alloc, tasks);
    let transactions = MemoryTransactions::new(alloc, sinks);
    let core = Core::open(alloc, graph, operators, log, store, transactions);
    Ok((core, schedule))
}
