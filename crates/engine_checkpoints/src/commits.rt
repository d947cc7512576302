//! The transactions of complete checkpoints are committed (Flink's `TwoPhaseCommitSinkFunction`).

ghost use Rattle.std.specs.Prelude.{◌≡◌, ◌≢◌, ◌<◌, ℕ, Err, Some, None, slice_get};
ghost use Rattle.commit_sink.specs.Ledger.{commit_refusal};
ghost use Rattle.commit_sink.specs.Sink.{Sinking};
ghost use Rattle.commit_sink.specs.declared.sink.Pending.{Pending};
ghost use Rattle.job_state.specs.declared.holding.Holding.TheVariants as Holding;
ghost use Rattle.job_graph.specs.declared.role.Role.TheVariants as Role;
ghost use Rattle.job_graph.specs.Expanded.{IsExpanded};
ghost use Rattle.engine_model.specs.declared.fault.CoreFault.TheVariants as CoreFault;
ghost use Rattle.engine_model.specs.Commits.{IsNext, EndsCommit};
ghost use Rattle.engine_model.specs.Keeps.{SinkIn};
ghost use Rattle.engine_checkpoints.specs.Rounds.{EndsRound};

use commit_sink::Transactions;
use engine_model::CoreFault;
use job_graph::Graph;
use job_state::Attempt;
use operators::Operator;

/// Commits a sink's oldest pending transaction, if its checkpoint is complete, and answers whether
/// there was one.
fn commit_oldest<O: Operator, X: Transactions>(
    attempt: &mut Attempt<O>,
    transactions: &mut X,
    task: u32,
) -> Result<bool, CoreFault>
    requires { (sink : Sinking) (p : Pending) → IsNext task attempt.old sink p
        → commit_refusal (X.state transactions.old) p.transaction ≡ None }
    ensures ends { EndsRound task attempt.old attempt.new (X.state transactions.old)
        (X.state transactions.new) result }
    ensures counted { result ≡ Err CoreFault.CommitFault
        → X.fault_count transactions.old < X.fault_count transactions.new }
    ensures told { result ≢ Err CoreFault.CommitFault
        → X.fault_count transactions.new ≡ X.fault_count transactions.old }
{
    let Some(sink) = attempt.sink(task) else {
        return Ok(false);
    };
    match checkpoint_devices::commit_oldest(transactions, sink, attempt.pending()) {
        Ok(true) => {
            attempt.forget_oldest(task);
            Ok(true)
        }
        Ok(false) => Ok(false),
        Err(_) => Err(CoreFault::CommitFault),
    }
}

/// Commits the pending transactions of a sink subtask up to the last complete checkpoint, the
/// oldest first.
pub fn commit<O: Operator, X: Transactions>(
    attempt: &mut Attempt<O>,
    graph: &Graph,
    transactions: &mut X,
    subtask: u32,
) -> Result<(), CoreFault>
    requires expanded { IsExpanded graph.now }
    requires sinks { (task : ℕ) (sink : Sinking)
        → slice_get graph.now.tasks task ≡ Some (Role.Sink subtask)
        → slice_get attempt.old.tasks task ≡ Some (Holding.Sink sink)
        → SinkIn (X.state transactions.old) subtask sink }
    ensures ends { EndsCommit graph.now subtask attempt.old attempt.new (X.state transactions.old)
        (X.state transactions.new) result }
    ensures counted { result ≡ Err CoreFault.CommitFault
        → X.fault_count transactions.old < X.fault_count transactions.new }
    ensures told { result ≢ Err CoreFault.CommitFault
        → X.fault_count transactions.new ≡ X.fault_count transactions.old }
{
    let Some(task) = graph.sink_task(subtask) else {
        return Err(CoreFault::NoSuchTask);
    };
    'rounds: loop {
        match commit_oldest(attempt, transactions, task) {
            Ok(true) => {}
            Ok(false) => return Ok(()),
            Err(fault) => return Err(fault),
        }
    }
}
