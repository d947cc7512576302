//! A sink's oldest transaction is committed (Flink's `TwoPhaseCommitSinkFunction`).

ghost use Rattle.std.specs.Prelude.{◌≡◌, None, IfSome, IfNone};
ghost use Rattle.commit_sink.specs.Ledger.{commit_refusal};
ghost use Rattle.commit_sink.specs.declared.sink.Pending.{Pending};
ghost use Rattle.checkpoint_devices.specs.Ends.{IsDue, EndsOldest};

use commit_sink::{Pending, Sink, TransactionFault, Transactions};

/// A sink's oldest pending transaction, if its checkpoint is complete: if it is not the one that is
/// pending.
fn next_of(sink: &Sink, pending: Option<u64>) -> Option<Pending>
    ensures some { IfSome result (IsDue sink.now pending) }
    ensures none { IfNone result ((p : Pending) → ¬ IsDue sink.now pending p) }
{
    let next = sink.oldest()?;
    if pending == Some(next.checkpoint) {
        return None;
    }
    Some(next)
}

/// Commits a sink's oldest pending transaction, if its checkpoint is complete, and answers whether
/// there was one.
pub fn commit_oldest<X: Transactions>(
    transactions: &mut X,
    sink: &Sink,
    pending: Option<u64>,
) -> Result<bool, TransactionFault>
    requires { (p : Pending) → IsDue sink.now pending p
        → commit_refusal (X.state transactions.old) p.transaction ≡ None }
    ensures { EndsOldest sink.now pending (X.state transactions.old, X.fault_count transactions.old)
        (X.state transactions.new, X.fault_count transactions.new) result }
{
    let Some(next) = next_of(sink, pending) else {
        return Ok(false);
    };
    match transactions.commit(next.transaction) {
        Ok(()) => Ok(true),
        Err(fault) => Err(fault),
    }
}
