//! Devices in memory, as tests hold them.

use crate::jobs::expanded;
use commit_sink::{FlakyTransactions, MemoryTransactions, TransactionFault, Transactions};
use job_graph::Graph;
use operators::Row;
use snapshot_store::{FlakyStore, MemoryStore, SnapshotStore, StoreFault};
use source_log::{FlakyLog, MemoryLog};
use std::alloc::Global;
use std::marker::Model;
use std::test::Fail;

/// A log, a store and transactions.
#[derive(Drop)]
pub(crate) struct Durable<P, S, X> {
    pub(crate) log: P,
    pub(crate) store: S,
    pub(crate) sinks: X,
}

/// Devices in memory.
pub(crate) type InMemory = Durable<
    FlakyLog<MemoryLog<Row>>,
    FlakyStore<MemoryStore>,
    FlakyTransactions<MemoryTransactions>,
>;

/// Devices, in a box. Contracts see nothing of them, and to let them go is one call: so a test that
/// owns them has nothing of them to prove.
#[derive(Drop)]
pub(crate) struct Devices {
    held: Box<InMemory>,
}

impl Model for Devices {
    ghost Value = { Unit {0} };

    ghost view = { λ _. tt };
}

/// A value in a box.
pub(crate) fn boxed<T: Drop>(alloc: Global, value: T) -> Result<Box<T>, Fail> {
    Ok(Box::new(alloc, value)?)
}

/// Gives out a number, puts the other store's parts of checkpoint 1, but for that of one task, and
/// completes the number.
fn fill(
    copy: &mut impl SnapshotStore,
    store: &mut impl SnapshotStore,
    other: u32,
    part: &[u8],
) -> Result<(), StoreFault> {
    copy.reserve()?;
    for task in 0..3 {
        if task == other {
            copy.put(1, task, part)?;
        } else {
            copy.put(1, task, &store.get(1, task)?)?;
        }
    }
    copy.complete(1)
}

impl Devices {
    /// These ones.
    pub(crate) fn from_box(held: Box<InMemory>) -> Self {
        Devices { held }
    }

    /// What stands in the box.
    pub(crate) fn into_box(self) -> Box<InMemory> {
        self.held
    }

    /// Blank ones.
    fn blank(alloc: Global, graph: &Graph) -> Result<Self, Fail> {
        let tasks = graph.tasks();
        if tasks == 0 {
            return Err(Fail::new("the job has no task"));
        }
        let log = FlakyLog::new(MemoryLog::new(alloc, graph.sources())?);
        let store = FlakyStore::new(MemoryStore::new(alloc, tasks));
        let sinks = FlakyTransactions::new(MemoryTransactions::new(alloc, graph.sinks()));
        let held = boxed(alloc, Durable { log, store, sinks })?;
        Ok(Devices { held })
    }

    /// New ones for a job.
    pub(crate) fn new(alloc: Global, job: &str) -> Result<Self, Fail> {
        let (graph, _) = expanded(alloc, job)?;
        Devices::blank(alloc, &graph)
    }

    /// The part of a task in the checkpoint.
    pub(crate) fn part(&mut self, number: u64, task: u32) -> Result<Vec<u8>, StoreFault> {
        self.held.store.get(number, task)
    }

    /// The store is another one.
    pub(crate) fn set_store(&mut self, store: MemoryStore) {
        self.held.store = FlakyStore::new(store);
    }

    /// The store is one with the same parts of checkpoint 1, but for that of one task.
    pub(crate) fn set_part(
        &mut self,
        alloc: Global,
        other: u32,
        part: &[u8],
    ) -> Result<(), StoreFault> {
        let mut copy = FlakyStore::new(MemoryStore::new(alloc, 3));
        fill(&mut copy, &mut self.held.store, other, part)?;
        self.held.store = copy;
        Ok(())
    }

    /// The transactions of the one sink that are open or pre-committed.
    pub(crate) fn unsettled(&mut self) -> Result<Vec<(u64, Option<u64>)>, TransactionFault> {
        self.held.sinks.unsettled(0)
    }

    /// A transaction is aborted.
    pub(crate) fn abort(&mut self, transaction: u64) -> Result<(), TransactionFault> {
        self.held.sinks.abort(transaction)
    }

    /// How many rows the first sink subtask has committed.
    pub(crate) fn committed_len(&self) -> u64 {
        self.held.sinks.committed_len(0)
    }
}
