//! The core that a script's steps are made on.

ghost use Rattle.std.specs.Prelude.{◌≡◌, ◌≤◌, count_by, length};
ghost use Rattle.job_graph.specs.Expanded.{is_source};
ghost use Rattle.job_graph.specs.PlainGraph.{HaveOperators};
ghost use Rattle.job_spec.specs.Job.{operators_of};

use crate::refusal::Refusal;
use commit_sink::{FlakyTransactions, MemoryTransactions};
use dataflow_core::Core;
use job_graph::Graph;
use job_spec::JobSpec;
use operators::{Row, RowOp};
use snapshot_store::{FlakyStore, MemoryStore};
use source_log::{FlakyLog, MemoryLog, Partitions};
use std::alloc::Global;

/// A core over rows, with its devices in memory, which fail where a script lets them.
pub type RowCore = Core<
    RowOp,
    FlakyStore<MemoryStore>,
    FlakyTransactions<MemoryTransactions>,
    FlakyLog<MemoryLog<Row>>,
>;

/// A core of this job over new devices and this log. It is down.
pub(crate) fn open(
    alloc: Global,
    job: &JobSpec,
    graph: Graph,
    log: MemoryLog<Row>,
) -> Result<RowCore, Refusal>
    requires tasks { 1 ≤ length graph.tasks }
    requires operators { HaveOperators graph (operators_of job.now) }
    requires partitions { length (⟦<MemoryLog<Row> as Partitions>⟧.records log)
        ≡ count_by is_source graph.tasks }
{
    let tasks = graph.tasks();
    let sinks = graph.sinks();
    let operators = job.operators(alloc)?;
    let log = FlakyLog::new(log);
    let store = FlakyStore::new(MemoryStore::new(alloc, tasks));
    let transactions = FlakyTransactions::new(MemoryTransactions::new(alloc, sinks));
    Ok(Core::open(alloc, graph, operators, log, store, transactions))
}
