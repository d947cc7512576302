//! A result is taken.

ghost use Rattle.std.specs.Prelude.{◌≡◌, ◌≢◌, ◌<◌, ◌↔◌, List, Err, None, Some, IsTrue, IfNone, length, slice_get, OnOk, OnErr};
ghost use Rattle.commit_sink.specs.Ledger.{Ledger, open_refusal};
ghost use Rattle.commit_sink.specs.Sink.{Sinking};
ghost use Rattle.keyed_state.specs.declared.comparing.SetFault.TheVariants as SetFault;
ghost use Rattle.job_state.specs.Batch.{Turn, OperatesEach};
ghost use Rattle.job_state.specs.Held.{gate_at};
ghost use Rattle.job_state.specs.declared.holding.Holding.TheVariants as Holding;
ghost use Rattle.engine_model.specs.declared.fault.CoreFault.TheVariants as CoreFault;
ghost use Rattle.engine_model.specs.Calls.{IsRecordDue, EndsPutOut};
ghost use Rattle.engine_model.specs.Keeps.{Shape};
ghost use Rattle.claims.specs.Carried.{AreStatesOf, IsOperand, IsOutcome, turns_given};
ghost use Rattle.claims.specs.Due.{IsDueOn, EndsTaking, EndsAccept};
ghost use Rattle.claims.specs.Tasks.{Serves};
ghost use Rattle.claims.specs.declared.parts.Given.TheVariants as Given;

use crate::carried::Worked;
use crate::due::{has_states, is_due, records_channel, row_channel};
use crate::leavings::Leavings;
use crate::parts::{Given, Made, Operand, Outcomes};
use crate::states::States;
use commit_sink::{TransactionFault, Transactions};
use engine_model::{CoreFault, Rules};
use job_graph::Graph;
use job_state::Attempt;
use keyed_state::{Seen, SetFault};
use operators::Operator;

/// Whether a task has these states, where they are not compared as others are kept.
fn has_uncompared<O: Operator>(
    attempt: &Attempt<O>,
    task: u32,
    states: &States<O::Key, O::State>,
    expected: Option<&[Seen<O::State>]>,
) -> bool
    ensures { (entries : List (O.Key × O.State))
        → slice_get attempt.now.tasks task ≡ Some (Holding.Operator entries) → IsTrue result
        ↔ IfNone expected.entry (AreStatesOf O.Key.cmp entries states.now) }
{
    match expected {
        Some(_) => true,
        None => has_states(attempt, task, states),
    }
}

/// An operator's records are taken, which are due where the task has the states that the work was
/// given, with what it made of them. The states that the task had are left in their place.
fn operate<O: Operator>(
    attempt: &mut Attempt<O>,
    graph: &Graph,
    task: u32,
    input: u32,
    channel: u32,
    operand: &Operand<O, O::Key, O::State, O::Record>,
    outcomes: &mut Outcomes<O::Key, O::State, O::Record>,
) -> Result<(), SetFault>
    ghost turns: { List (Turn O.Record O.Key O.State) }
    requires shape { (operators : List O) × (entries : List (O.Key × O.State))
        × Shape ⟦<O as Rules>⟧.all graph.now operators attempt.old
        × IsDueOn graph.now operators task input attempt.old channel entries operand.now }
    requires operand { IsOperand ⟦<O as Rules>⟧.all operand.now }
    requires outcomes { IsOutcome O.meaning O.Key.cmp operand.now outcomes.old }
    requires turns { turns ≡ turns_given O.meaning O.Key.cmp operand.now }
    ensures ok { OnOk result (OperatesEach O.meaning O.Key.cmp graph.now task input channel turns
        attempt.old attempt.new) }
    ensures same { (entries : List (O.Key × O.State))
        → slice_get attempt.old.tasks task ≡ Some (Holding.Operator entries)
        → OnOk result (AreStatesOf O.Key.cmp entries operand.now.states) }
    ensures changed { (entries : List (O.Key × O.State))
        → slice_get attempt.old.tasks task ≡ Some (Holding.Operator entries)
        → result ≡ Err SetFault.Changed → ¬ AreStatesOf O.Key.cmp entries operand.now.states }
    ensures err { OnErr result (attempt.new ≡ attempt.old) }
{
    let expected = operand.states.under_entries(&outcomes.states);
    if !has_uncompared(attempt, task, &operand.states, expected) {
        return Err(SetFault::Changed);
    }
    let count = operand.rows.len();
    attempt.operate_some(
        graph,
        task,
        input,
        channel,
        count,
        &mut outcomes.states,
        expected,
        &mut outcomes.sent,
        outcomes.lanes.as_slice(),
        &mut outcomes.fanned,
    )
}

/// An operator's outcomes are taken. Its states are compared as they are kept, or where memory is
/// refused.
#[inline(never)]
fn accept_outcomes<O: Operator>(
    attempt: &mut Attempt<O>,
    graph: &Graph,
    operators: &[O],
    task: u32,
    input: u32,
    operand: &Operand<O, O::Key, O::State, O::Record>,
    outcomes: &mut Outcomes<O::Key, O::State, O::Record>,
) -> Result<(), CoreFault>
    requires serves { (ledger : Ledger) × Serves ⟦<O as Rules>⟧.all
        graph.now operators.now ledger attempt.old }
    requires operand { IsOperand ⟦<O as Rules>⟧.all operand.now }
    requires outcomes { IsOutcome O.meaning O.Key.cmp operand.now outcomes.old }
    ensures told { result ≢ Err CoreFault.Device }
    ensures ends { (ledger : Ledger) → EndsTaking ⟦<O as Rules>⟧.lang graph.now operators.now task
        input attempt.old attempt.new ledger ledger (Given.Operator operand.now) result }
{
    let Some(channel) = records_channel(attempt, graph, operators, task, input, operand) else {
        return Err(CoreFault::WrongResult);
    };
    match operate(attempt, graph, task, input, channel, operand, outcomes) {
        Ok(()) => Ok(()),
        Err(SetFault::Changed) => Err(CoreFault::WrongResult),
        Err(SetFault::Memory) => {
            if has_states(attempt, task, &operand.states) {
                Err(CoreFault::Memory)
            } else {
                Err(CoreFault::WrongResult)
            }
        }
    }
}

/// A sink puts bytes, which spell the record at the head of its input, last in its open
/// transaction, which is this one.
#[inline(always)]
pub(crate) fn put_in<O: Operator, X: Transactions>(
    attempt: &mut Attempt<O>,
    transactions: &mut X,
    task: u32,
    input: u32,
    channel: u32,
    transaction: u64,
    bytes: Vec<u8>,
) -> Result<(), CoreFault>
    requires within { input < length (gate_at attempt.old task).inputs }
    requires logs { channel < length attempt.old.logs }
    requires first { (row : O.Record) × IsRecordDue task input attempt.old channel row
        × (bytes.items ≡ O.Record.spelling row) }
    requires holds { (sink : Sinking) × (slice_get attempt.old.tasks task
        ≡ Some (Holding.Sink sink)) × (sink.open_one ≡ transaction) }
    requires is_open { open_refusal (X.state transactions.old) transaction ≡ None }
    ensures ends { EndsPutOut task input attempt.old attempt.new channel (X.state transactions.old)
        (X.state transactions.new) O.Record.spelling result }
    ensures counted { result ≡ Err CoreFault.Device
        → X.fault_count transactions.old < X.fault_count transactions.new }
    ensures told { result ≢ Err CoreFault.Device
        → X.fault_count transactions.new ≡ X.fault_count transactions.old }
{
    attempt.log_head(task, input, channel)?;
    match transactions.append(transaction, bytes) {
        Ok(()) => {
            attempt.take(channel);
            Ok(())
        }
        Err(TransactionFault::Memory) => {
            attempt.unlog(task, input, channel);
            Err(CoreFault::Memory)
        }
        Err(_) => Err(CoreFault::Device),
    }
}

/// The same, where the sink is still to be asked for its open transaction.
fn put_bytes<O: Operator, X: Transactions>(
    attempt: &mut Attempt<O>,
    transactions: &mut X,
    task: u32,
    input: u32,
    channel: u32,
    bytes: Vec<u8>,
) -> Result<(), CoreFault>
    requires within { input < length (gate_at attempt.old task).inputs }
    requires logs { channel < length attempt.old.logs }
    requires first { (row : O.Record) × IsRecordDue task input attempt.old channel row
        × (bytes.items ≡ O.Record.spelling row) }
    requires holds { (sink : Sinking) × (slice_get attempt.old.tasks task
        ≡ Some (Holding.Sink sink)) × (open_refusal (X.state transactions.old)
        sink.open_one ≡ None) }
    ensures ends { EndsPutOut task input attempt.old attempt.new channel (X.state transactions.old)
        (X.state transactions.new) O.Record.spelling result }
    ensures counted { result ≡ Err CoreFault.Device
        → X.fault_count transactions.old < X.fault_count transactions.new }
    ensures told { result ≢ Err CoreFault.Device
        → X.fault_count transactions.new ≡ X.fault_count transactions.old }
{
    let Some(sink) = attempt.sink(task) else {
        return Err(CoreFault::NotReady);
    };
    let transaction = sink.open();
    put_in(
        attempt,
        transactions,
        task,
        input,
        channel,
        transaction,
        bytes,
    )
}

/// The bytes that a sink puts out are taken.
fn accept_row<O: Operator, X: Transactions>(
    attempt: &mut Attempt<O>,
    graph: &Graph,
    transactions: &mut X,
    task: u32,
    input: u32,
    row: &O::Record,
    bytes: Vec<u8>,
) -> Result<(), CoreFault>
    requires serves { (operators : List O) × Serves ⟦<O as Rules>⟧.all
        graph.now operators (X.state transactions.old) attempt.old }
    requires spelled { bytes.items ≡ O.Record.spelling row.now }
    ensures ends { (operators : List O)
        → EndsTaking ⟦<O as Rules>⟧.lang graph.now operators task input attempt.old attempt.new
        (X.state transactions.old) (X.state transactions.new) (Given.Sink row.now) result }
    ensures counted { result ≡ Err CoreFault.Device
        → X.fault_count transactions.old < X.fault_count transactions.new }
    ensures told { result ≢ Err CoreFault.Device
        → X.fault_count transactions.new ≡ X.fault_count transactions.old }
{
    let Some(channel) = row_channel(attempt, graph, task, input, row) else {
        return Err(CoreFault::WrongResult);
    };
    put_bytes(attempt, transactions, task, input, channel, bytes)
}

/// Takes what was made of a task's work. `K7` is told exactly where that work is not due: the
/// operator, a state or a record is another one, or nothing may be taken from the input. An
/// operator's records are all taken, in so many steps, or none is. Nothing is copied but a key that
/// is new, with its state. What is left of an operator's work is kept, to be let go later.
pub fn accept<O: Operator, X: Transactions>(
    attempt: &mut Attempt<O>,
    graph: &Graph,
    operators: &[O],
    transactions: &mut X,
    task: u32,
    input: u32,
    worked: Worked<O>,
    leavings: &mut Leavings<O>,
) -> Result<(), CoreFault>
    requires serves { Serves ⟦<O as Rules>⟧.all graph.now
        operators.now (X.state transactions.old) attempt.old }
    ensures ends { EndsAccept ⟦<O as Rules>⟧.lang graph.now operators.now task input attempt.old
        attempt.new (X.state transactions.old) (X.state transactions.new) worked result }
    ensures counted { result ≡ Err CoreFault.Device
        → X.fault_count transactions.old < X.fault_count transactions.new }
    ensures told { result ≢ Err CoreFault.Device
        → X.fault_count transactions.new ≡ X.fault_count transactions.old }
{
    match worked.made {
        Made::Operator(mut solved) => {
            let sheet = &mut *solved.sheet;
            let end = accept_outcomes(
                attempt,
                graph,
                operators,
                task,
                input,
                &sheet.operand,
                &mut sheet.outcomes,
            );
            leavings.keep(solved);
            end
        }
        Made::Sink(row, bytes) => accept_row(
            attempt,
            graph,
            transactions,
            task,
            input,
            &row,
            bytes,
        ),
        Made::Refused(given) => {
            if is_due(attempt, graph, operators, task, input, &given) {
                Err(CoreFault::Memory)
            } else {
                Err(CoreFault::WrongResult)
            }
        }
    }
}
