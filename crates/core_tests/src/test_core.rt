//! Cores over devices in memory, as tests hold them.

ghost use Rattle.std.specs.List.{AllByRecursion};
ghost use Rattle.engine_steps.specs.Fitting.{StepFits};

use crate::devices::{Devices, Durable, boxed};
use crate::jobs::expanded;
use absflow_run::{Answer, CommittedRows, make_step};
use commit_sink::{FlakyTransactions, MemoryTransactions, Transactions};
use dataflow_core::{Core, CoreFault, Desk, Reply, Rules, Step};
use job_graph::Graph;
use operators::{Operator, Row, RowOp};
use script_file::ScriptStep;
use snapshot_store::{FlakyStore, MemoryStore, SnapshotStore};
use source_log::{FlakyLog, MemoryLog, Partitions};
use std::alloc::Global;
use std::marker::Model;
use std::test::Fail;

/// A core and the desk of its jobs.
#[derive(Drop)]
struct Held<O: Operator, S: SnapshotStore, X: Transactions, P: Partitions<Record = O::Record>> {
    core: Core<O, S, X, P>,
    desk: Desk<O>,
}

/// A core and the desk of its jobs, in a box. Contracts see nothing of them, and to let them go is
/// one call: so a test that owns them has nothing of them to prove.
#[derive(Drop)]
pub(crate) struct TestCore {
    held: Box<
        Held<
            RowOp,
            FlakyStore<MemoryStore>,
            FlakyTransactions<MemoryTransactions>,
            FlakyLog<MemoryLog<Row>>,
        >,
    >,
}

impl Model for TestCore {
    ghost Value = { Unit {0} };

    ghost view = { λ _. tt };
}

/// A core over these devices, where they are the graph's.
fn open_over<
    O: Operator,
    S: SnapshotStore + Drop,
    X: Transactions + Drop,
    P: Partitions<Record = O::Record> + Drop,
>(
    alloc: Global,
    graph: Graph,
    operators: Vec<O>,
    devices: Durable<P, S, X>,
) -> Result<Box<Held<O, S, X, P>>, Fail> {
    let Durable { log, store, sinks } = devices;
    if operators.len() != graph.operators() as usize || log.count() != graph.sources() {
        return Err(Fail::new("another log than the job's"));
    }
    if store.tasks() != graph.tasks() || sinks.subtasks() != graph.sinks() {
        return Err(Fail::new("other devices than the job's"));
    }
    let core = Core::open(alloc, graph, operators, log, store, sinks);
    let desk = Desk::new(alloc);
    boxed(alloc, Held { core, desk })
}

/// Makes the calls.
fn make_calls<O: Operator, S: SnapshotStore, X: Transactions, P: Partitions<Record = O::Record>>(
    core: &mut Core<O, S, X, P>,
    desk: &mut Desk<O>,
    calls: &[Step<O::Record>],
) -> Result<Vec<Reply>, CoreFault>
    requires { AllByRecursion (StepFits ⟦<O as Rules>⟧.RecordFits) calls.now }
{
    core.run_steps(desk, calls)
}

/// What a core hands out.
fn durable<O: Operator, S: SnapshotStore, X: Transactions, P: Partitions<Record = O::Record>>(
    core: Core<O, S, X, P>,
) -> Durable<P, S, X> {
    let (log, store, sinks) = core.into_durable();
    Durable { log, store, sinks }
}

/// The devices that a core hands out, in a box.
fn boxed_durable<
    O: Operator,
    S: SnapshotStore + Drop,
    X: Transactions + Drop,
    P: Partitions<Record = O::Record> + Drop,
>(alloc: Global, held: Box<Held<O, S, X, P>>) -> Result<Box<Durable<P, S, X>>, Fail> {
    let Held { core, .. } = Box::into_inner(held);
    boxed(alloc, durable(core))
}

/// Whether a core was opened over new devices.
fn freshness<O: Operator, S: SnapshotStore, X: Transactions, P: Partitions<Record = O::Record>>(
    core: &Core<O, S, X, P>,
) -> bool {
    core.is_fresh()
}

/// How many rows a sink subtask has committed.
fn len_of(core: &impl CommittedRows, sink: u32) -> Result<u64, CoreFault> {
    core.committed_len(sink)
}

impl TestCore {
    /// The job over these devices, down.
    pub(crate) fn open(alloc: Global, job: &str, devices: Devices) -> Result<Self, Fail> {
        let (graph, operators) = expanded(alloc, job)?;
        let devices = Box::into_inner(devices.into_box());
        let held = open_over(alloc, graph, operators, devices)?;
        Ok(TestCore { held })
    }

    /// Makes a script's step.
    pub(crate) fn make(&mut self, step: &ScriptStep) -> Answer {
        let Held { core, desk } = &mut *self.held;
        make_step(core, desk, step)
    }

    /// Makes the calls.
    pub(crate) fn make_calls(&mut self, calls: &[Step<Row>]) -> Result<Vec<Reply>, CoreFault>
        requires { AllByRecursion (StepFits ⟦<RowOp as Rules>⟧.RecordFits) calls.now }
    {
        let Held { core, desk } = &mut *self.held;
        make_calls(core, desk, calls)
    }

    pub(crate) fn is_fresh(&self) -> bool {
        freshness(&self.held.core)
    }

    pub(crate) fn committed_len(&self, sink: u32) -> Result<u64, CoreFault> {
        len_of(&self.held.core, sink)
    }

    /// The devices, as they stand.
    pub(crate) fn into_devices(self, alloc: Global) -> Result<Devices, Fail> {
        Ok(Devices::from_box(boxed_durable(alloc, self.held)?))
    }
}
