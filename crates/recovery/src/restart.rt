//! A job restarts.

ghost use Rattle.std.specs.Prelude.{◌≡◌, ◌≢◌, ◌<◌, ◌≤◌, ◌+◌, ℕ, Err, Some, slice_get};
ghost use Rattle.job_graph.specs.declared.role.Role.TheVariants as Role;
ghost use Rattle.engine_model.specs.declared.fault.CoreFault.TheVariants as CoreFault;
ghost use Rattle.engine_model.specs.Restart.{EndsRestart};

use crate::parts::restore;
use crate::settle::settle_transactions;
use commit_sink::Transactions;
use engine_model::{CoreFault, Rules};
use job_graph::Graph;
use job_state::Attempt;
use operators::Operator;
use snapshot_store::SnapshotStore;
use source_log::Partitions;
use std::alloc::Global;

/// An attempt that starts from the last complete checkpoint, or anew where there is none, and that
/// checkpoint's number. The transactions are settled. Where it is refused, they may be settled in
/// part; the next restart does the rest.
pub fn restarted<O: Operator, S: SnapshotStore, X: Transactions, P: Partitions<Record = O::Record>>(
    alloc: Global,
    graph: &Graph,
    operators: &[O],
    log: &P,
    store: &mut S,
    transactions: &mut X,
) -> Result<(Option<u64>, Attempt<O>), CoreFault>
    requires sinks { (task subtask : ℕ) → slice_get graph.now.tasks task ≡ Some (Role.Sink subtask)
        → subtask < (X.state transactions.old).subtasks }
    ensures ends { EndsRestart ⟦<O as Rules>⟧.all graph.now operators.now (P.records log.now)
        (S.state store.old) (X.state transactions.old) (X.state transactions.new) result }
    ensures same { S.state store.new ≡ S.state store.old }
    ensures counted { result ≡ Err CoreFault.Device
        → S.fault_count store.old + X.fault_count transactions.old
        < S.fault_count store.new + X.fault_count transactions.new }
    ensures told { result ≢ Err CoreFault.Device
        → (S.fault_count store.new ≡ S.fault_count store.old)
        × (X.fault_count transactions.new ≡ X.fault_count transactions.old) }
    ensures grows { (S.fault_count store.old ≤ S.fault_count store.new)
        × (X.fault_count transactions.old ≤ X.fault_count transactions.new) }
{
    // (brings into the proof what every graph keeps)
    let _ = graph.tasks();
    let restored = restore::<O, S, P>(alloc, graph, operators, store, log)?;
    let number = restored.number();
    let (tasks, openings) = settle_transactions(alloc, restored, transactions)?;
    let attempt = Attempt::new(alloc, graph, tasks, openings, number)?;
    Ok((number, attempt))
}
