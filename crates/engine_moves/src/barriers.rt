//! Barriers are taken, and tasks copy what they hold (Carbone et al. 2015).

ghost use Rattle.std.specs.Prelude.{◌≡◌, ◌≢◌, ◌<◌, List, true, Err, Some, None, length, slice_get, IfOk, IfErr};
ghost use Rattle.alignment.specs.Table.{effect_of};
ghost use Rattle.commit_sink.specs.Ledger.{open_refusal};
ghost use Rattle.commit_sink.specs.Sink.{Sinking};
ghost use Rattle.job_graph.specs.declared.role.Role.TheVariants as Role;
ghost use Rattle.job_state.specs.declared.holding.Holding.TheVariants as Holding;
ghost use Rattle.engine_model.specs.declared.fault.CoreFault.TheVariants as CoreFault;
ghost use Rattle.engine_model.specs.Calls.{input_at, is_copy, EndsInject, EndsOperatorBarrier, EndsSinkBarrier, IsBarrierDue};
ghost use Rattle.engine_model.specs.Keeps.{AreHeld, GateFits};
ghost use Rattle.job_state.specs.Held.{gate_at};
ghost use Rattle.engine_moves.specs.Taking.{RefusesBarrier, GateAwaits, EndsBegin, EndsSinkCopy};

use alignment::Effect;
use channels::Item;
use commit_sink::{TransactionFault, Transactions};
use engine_model::CoreFault;
use job_graph::{Graph, Role};
use job_state::Attempt;
use operators::Operator;

/// The pending checkpoint, whose barrier stands at the head of an input, which is this channel, and
/// is to be taken.
fn barrier_at<O: Operator>(
    attempt: &Attempt<O>,
    task: u32,
    input: u32,
    channel: u32,
) -> Result<u64, CoreFault>
    requires { input < length (gate_at attempt.now task).inputs }
    ensures ok { IfOk result (λ checkpoint. IsBarrierDue task input attempt.now
        channel checkpoint) }
    ensures err { IfErr result (RefusesBarrier task input channel attempt.now) }
{
    if attempt.is_blocked(task, input) {
        return Err(CoreFault::ChannelBlocked);
    }
    let Some(Item::Barrier(number)) = attempt.head(channel) else {
        return Err(CoreFault::NotReady);
    };
    if attempt.pending() != Some(number) || attempt.came(channel) {
        return Err(CoreFault::NotReady);
    }
    Ok(number)
}

/// Whether a task copies at such a barrier.
fn is_copy(effect: Effect) -> bool
    ensures { result ≡ is_copy effect }
{
    match effect {
        Effect::Copy | Effect::CopyAndDone => true,
        Effect::Blocked | Effect::Closed | Effect::Done => false,
    }
}

/// An operator takes the barrier at the head of an input, which is this channel. Where it copies,
/// it copies its map and sends the barrier.
pub fn operator_barrier<O: Operator>(
    attempt: &mut Attempt<O>,
    graph: &Graph,
    task: u32,
    input: u32,
    channel: u32,
) -> Result<Effect, CoreFault>
    requires gate { GateFits graph.now attempt.old task }
    requires leads { input_at graph.now task input ≡ Some channel }
    requires holds { (entries : List (O.Key × O.State))
        × (slice_get attempt.old.tasks task ≡ Some (Holding.Operator entries)) }
    requires copies { task < length attempt.old.copies }
    requires came { length attempt.old.came ≡ length graph.now.channels }
    requires channels { length attempt.old.channels ≡ length graph.now.channels }
    ensures { EndsOperatorBarrier graph.now task attempt.old attempt.new input channel result }
{
    let checkpoint = barrier_at(attempt, task, input, channel)?;
    let effect = attempt.effect(task, input);
    if is_copy(effect) {
        attempt.copy_operator(graph, task, input, channel, checkpoint)?;
    } else {
        attempt.take_barrier(task, input, channel, checkpoint);
    }
    Ok(effect)
}

/// Begins a subtask's next transaction and pre-commits the last one: the next one's number.
fn begin_next<X: Transactions>(
    transactions: &mut X,
    subtask: u32,
    last: u64,
    checkpoint: u64,
) -> Result<u64, CoreFault>
    requires subtask { subtask < (X.state transactions.old).subtasks }
    requires last { open_refusal (X.state transactions.old) last ≡ None }
    ensures ends { EndsBegin subtask last checkpoint (X.state transactions.old)
        (X.state transactions.new) result }
    ensures counted { result ≡ Err CoreFault.Device
        → X.fault_count transactions.old < X.fault_count transactions.new }
    ensures told { result ≢ Err CoreFault.Device
        → X.fault_count transactions.new ≡ X.fault_count transactions.old }
{
    let begun = match transactions.begin(subtask) {
        Ok(begun) => begun,
        Err(TransactionFault::Memory) => return Err(CoreFault::Memory),
        Err(_) => return Err(CoreFault::Device),
    };
    if transactions.pre_commit(last, checkpoint).is_err() {
        return Err(CoreFault::Device);
    }
    Ok(begun)
}

/// A sink that copies begins a transaction, pre-commits the one that was open, and copies the names
/// of those that are pre-committed.
fn copy_sink<O: Operator, X: Transactions>(
    attempt: &mut Attempt<O>,
    transactions: &mut X,
    subtask: u32,
    task: u32,
    input: u32,
    channel: u32,
    checkpoint: u64,
) -> Result<(), CoreFault>
    requires gate { GateAwaits task input channel checkpoint attempt.old }
    requires barrier { IsBarrierDue task input attempt.old channel checkpoint }
    requires effect { is_copy (effect_of (gate_at attempt.old task) input) ≡ true }
    requires holds { (sink : Sinking) × (slice_get attempt.old.tasks task
        ≡ Some (Holding.Sink sink)) × (open_refusal (X.state transactions.old)
        sink.open_one ≡ None) }
    requires copies { task < length attempt.old.copies }
    requires subtask { subtask < (X.state transactions.old).subtasks }
    ensures ends { EndsSinkCopy task input attempt.old attempt.new channel subtask
        (X.state transactions.old) (X.state transactions.new) result }
    ensures counted { result ≡ Err CoreFault.Device
        → X.fault_count transactions.old < X.fault_count transactions.new }
    ensures told { result ≢ Err CoreFault.Device
        → X.fault_count transactions.new ≡ X.fault_count transactions.old }
{
    let Some(sink) = attempt.sink(task) else {
        return Err(CoreFault::NotReady);
    };
    let open = sink.open();
    let names = sink.names()?;
    let mut next = sink.pre_committed(checkpoint)?;
    let begun = begin_next(transactions, subtask, open, checkpoint)?;
    next.set_open(begun);
    attempt.copy_sink(task, input, channel, checkpoint, names, next);
    Ok(())
}

/// A sink takes the barrier at the head of an input, which is this channel. Where it copies, it
/// begins a transaction, pre-commits the one that was open, and copies the names of those that are
/// pre-committed.
pub fn sink_barrier<O: Operator, X: Transactions>(
    attempt: &mut Attempt<O>,
    graph: &Graph,
    transactions: &mut X,
    subtask: u32,
    task: u32,
    input: u32,
    channel: u32,
) -> Result<Effect, CoreFault>
    requires gate { GateFits graph.now attempt.old task }
    requires leads { input_at graph.now task input ≡ Some channel }
    requires holds { (sink : Sinking) × (slice_get attempt.old.tasks task
        ≡ Some (Holding.Sink sink)) × (open_refusal (X.state transactions.old)
        sink.open_one ≡ None) }
    requires copies { task < length attempt.old.copies }
    requires came { length attempt.old.came ≡ length graph.now.channels }
    requires subtask { subtask < (X.state transactions.old).subtasks }
    ensures ends { EndsSinkBarrier task input attempt.old attempt.new channel subtask
        (X.state transactions.old) (X.state transactions.new) result }
    ensures counted { result ≡ Err CoreFault.Device
        → X.fault_count transactions.old < X.fault_count transactions.new }
    ensures told { result ≢ Err CoreFault.Device
        → X.fault_count transactions.new ≡ X.fault_count transactions.old }
{
    let checkpoint = barrier_at(attempt, task, input, channel)?;
    let effect = attempt.effect(task, input);
    if is_copy(effect) {
        copy_sink(
            attempt,
            transactions,
            subtask,
            task,
            input,
            channel,
            checkpoint,
        )?;
    } else {
        attempt.take_barrier(task, input, channel, checkpoint);
    }
    Ok(effect)
}

/// Source `task` copies its offset for the pending checkpoint, and sends the barrier.
pub fn inject<O: Operator>(
    attempt: &mut Attempt<O>,
    graph: &Graph,
    task: u32,
) -> Result<(), CoreFault>
    requires held { AreHeld graph.now attempt.old }
    requires copies { length attempt.old.copies ≡ length graph.now.tasks }
    requires channels { length attempt.old.channels ≡ length graph.now.channels }
    ensures { EndsInject graph.now task attempt.old attempt.new result }
{
    let Some(Role::Source(_)) = graph.role(task) else {
        return Err(CoreFault::NoSuchTask);
    };
    let Some(checkpoint) = attempt.pending() else {
        return Err(CoreFault::NoCheckpoint);
    };
    if attempt.has_copied(task) {
        return Err(CoreFault::NotReady);
    }
    let Some(offset) = attempt.offset(task) else {
        return Err(CoreFault::NoSuchTask);
    };
    attempt.copy_source(graph, task, offset, checkpoint)?;
    Ok(())
}
