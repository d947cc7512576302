//! What a task has at its inputs.

ghost use Rattle.std.specs.Prelude.{◌≡◌, ◌<◌, length, IfOk, IfErr};
ghost use Rattle.channels.specs.Items.{leading_records};
ghost use Rattle.job_state.specs.Held.{gate_at};
ghost use Rattle.job_state.specs.Sending.{items_at};
ghost use Rattle.engine_model.specs.Calls.{input_at, IsRecordDue};
ghost use Rattle.claims.specs.Tasks.{RefusesRecord};

use channels::Item;
use engine_model::CoreFault;
use job_graph::Graph;
use job_state::Attempt;
use operators::Operator;

/// The channel that a task's input is.
pub fn input_of(graph: &Graph, task: u32, input: u32) -> Option<u32>
    ensures { result ≡ input_at graph.now task input }
{
    graph.inputs(task).get(input as usize).copied()
}

/// The record at the head of an input, which is this channel, where it may be taken.
pub(crate) fn first_record<O: Operator>(
    attempt: &Attempt<O>,
    task: u32,
    input: u32,
    channel: u32,
) -> Result<&O::Record, CoreFault>
    requires { input < length (gate_at attempt.now task).inputs }
    ensures ok { IfOk result (λ row. IsRecordDue task input attempt.now channel row.now) }
    ensures err { IfErr result (RefusesRecord task input channel attempt.now) }
{
    if attempt.is_blocked(task, input) {
        return Err(CoreFault::ChannelBlocked);
    }
    match attempt.head(channel) {
        Some(Item::Record(row)) => Ok(row),
        Some(Item::Barrier(_)) => Err(CoreFault::NotReady),
        None => Err(CoreFault::NotReady),
    }
}

/// How many records may be taken from an input, which is this channel: all that stand before the
/// first barrier, at least one.
pub(crate) fn free_records<O: Operator>(
    attempt: &Attempt<O>,
    task: u32,
    input: u32,
    channel: u32,
) -> Result<usize, CoreFault>
    requires { input < length (gate_at attempt.now task).inputs }
    ensures due { IfOk result (λ count. (row : O.Record)
        × IsRecordDue task input attempt.now channel row) }
    ensures all { IfOk result (λ count. count
        ≡ length (leading_records (items_at attempt.now.channels channel))) }
    ensures err { IfErr result (RefusesRecord task input channel attempt.now) }
{
    first_record(attempt, task, input, channel)?;
    Ok(attempt.before_barrier(channel))
}
