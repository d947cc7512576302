//! What is committed once a run is over.

ghost use Rattle.std.specs.Prelude.{◌≡◌, ℕ, count_by};
ghost use Rattle.commit_sink.specs.Ledger.{committed_rows};
ghost use Rattle.job_graph.specs.Expanded.{is_sink};

use abs_codec::Bytes;
use absflow_run::CommittedRows;
use commit_sink::Transactions;
use dataflow_core::{Core, CoreFault};
use operators::Operator;
use snapshot_store::SnapshotStore;
use source_log::Partitions;

/// What so many sink subtasks have committed. Several threads may read it at once.
#[derive(Drop)]
pub(crate) struct Committed<X: Transactions> {
    sinks: u32,
    transactions: X,
}

impl<X: Transactions> CommittedRows for Committed<X> {
    ghost use Rattle.commit_sink.specs.Ledger.{committed_rows};

    ghost records = { λ c sink. committed_rows (X.state c.transactions) sink };

    fn sinks(&self) -> u32 {
        self.sinks
    }

    fn committed_len(&self, sink: u32) -> Result<u64, CoreFault> {
        Ok(self.transactions.committed_len(sink))
    }

    fn committed_from(&self, sink: u32, number: u64) -> Result<&[Bytes], CoreFault> {
        Ok(self.transactions.committed_from(sink, number))
    }
}

/// The partitions and the snapshot store of a core, and what its sinks have committed. The rest of
/// it is dropped.
pub(crate) fn durable_of<
    O: Operator,
    S: SnapshotStore,
    X: Transactions,
    P: Partitions<Record = O::Record>,
>(core: Core<O, S, X, P>) -> (P, S, Committed<X>)
    ensures records { (sink : ℕ) → ⟦<Committed<X> as CommittedRows>⟧.records result.2 sink
        ≡ committed_rows core.engine.ledger sink }
    ensures sinks { result.2.sinks ≡ count_by is_sink core.engine.graph.tasks }
{
    let sinks = core.sinks();
    let (log, store, transactions) = core.into_durable();
    let committed = Committed {
        sinks,
        transactions,
    };
    (log, store, committed)
}
