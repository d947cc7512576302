//! A task takes a barrier as what it is: an operator or a sink.

ghost use Rattle.std.specs.Prelude.{◌≡◌, ◌≢◌, ◌<◌, Err, Some};
ghost use Rattle.engine_model.specs.declared.fault.CoreFault.TheVariants as CoreFault;
ghost use Rattle.claims.specs.Tasks.{Serves, EndsBarrier};

use alignment::Effect;
use claims::input_of;
use commit_sink::Transactions;
use engine_model::{CoreFault, Rules};
use engine_moves::{operator_barrier, sink_barrier};
use job_graph::{Graph, Role};
use job_state::Attempt;
use operators::Operator;

/// A task takes the barrier at the head of its input, and copies what it holds at the last of its
/// unmarked inputs.
pub(crate) fn take_barrier<O: Operator, X: Transactions>(
    attempt: &mut Attempt<O>,
    graph: &Graph,
    operators: &[O],
    transactions: &mut X,
    task: u32,
    input: u32,
) -> Result<Effect, CoreFault>
    requires serves { Serves ⟦<O as Rules>⟧.all graph.now
        operators.now (X.state transactions.old) attempt.old }
    ensures ends { EndsBarrier graph.now task input attempt.old attempt.new
        (X.state transactions.old) (X.state transactions.new) result }
    ensures counted { result ≡ Err CoreFault.Device
        → X.fault_count transactions.old < X.fault_count transactions.new }
    ensures told { result ≢ Err CoreFault.Device
        → X.fault_count transactions.new ≡ X.fault_count transactions.old }
{
    match graph.role(task) {
        Some(Role::Operator(_)) => {
            let Some(channel) = input_of(graph, task, input) else {
                return Err(CoreFault::NoSuchTask);
            };
            operator_barrier(attempt, graph, task, input, channel)
        }
        Some(Role::Sink(subtask)) => {
            let Some(channel) = input_of(graph, task, input) else {
                return Err(CoreFault::NoSuchTask);
            };
            sink_barrier(attempt, graph, transactions, subtask, task, input, channel)
        }
        Some(Role::Source(_)) => Err(CoreFault::NoSuchTask),
        None => Err(CoreFault::NoSuchTask),
    }
}
