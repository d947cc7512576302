//! A station without readers.

ghost use Rattle.std.specs.Prelude.{◌≡◌, Some, None};
ghost use Rattle.run_schedule.specs.declared.fault.RunFault.TheVariants as RunFault;

use commit_sink::Transactions;
use operators::Operator;
use snapshot_store::SnapshotStore;
use source_log::Partitions;
use std::sync::Wait;
use std::sync::ledger::Ledger;
use thread_runner::{RunFault, Station};

/// It hands out no reader, and publishes nothing.
pub(crate) fn refusals<
    O: Operator,
    S: SnapshotStore,
    X: Transactions,
    P: Partitions<Record = O::Record>,
    L: Ledger,
    W: Wait + Drop,
>(station: &mut Station<O, S, X, P, L, W>) -> (Option<RunFault>, Option<RunFault>)
    requires { station.old.output ≡ None }
    ensures reader { result.0 ≡ Some RunFault.ReadersFull }
    ensures told { result.1 ≡ Some RunFault.Closed }
{
    let reader = station.reader().err();
    let told = station.publish().err();
    (reader, told)
}
