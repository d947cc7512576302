//! Which work is a task's to do now.

ghost use Rattle.std.specs.Prelude.{◌≡◌, ◌<◌, ◌↔◌, ℕ, List, Some, length, slice_get, IsTrue, IfSome, IfNone};
ghost use Rattle.std.specs.Option.{option_copied};
ghost use Rattle.abs_codec.specs.Entries.{value_at};
ghost use Rattle.channels.specs.Items.{leading_records};
ghost use Rattle.job_state.specs.Batch.{StandFirst};
ghost use Rattle.job_state.specs.Held.{gate_at};
ghost use Rattle.job_state.specs.Sending.{items_at};
ghost use Rattle.job_state.specs.declared.holding.Holding.TheVariants as Holding;
ghost use Rattle.engine_model.specs.Calls.{IsRecordDue};
ghost use Rattle.engine_model.specs.Keeps.{GateFits, Shape};
ghost use Rattle.claims.specs.Carried.{AreStatesOf};
ghost use Rattle.claims.specs.Keys.{states_under};
ghost use Rattle.claims.specs.Due.{WorksFrom, IsDueOn, IsOperandDue, IsRowDue, IsDue};

use crate::inputs::{first_record, input_of};
use crate::parts::{Given, Operand};
use crate::states::{Copies, Kept, States};
use engine_model::Rules;
use job_graph::{Graph, Role};
use job_state::Attempt;
use keyed_state::LentStates;
use operators::Operator;

/// The operator of a number.
pub fn operator_of<O: Operator>(operators: &[O], number: u32) -> Option<&O>
    ensures { option_copied result ≡ slice_get operators.now number }
{
    operators.get(number as usize)
}

/// The channel that an input of an operator or of a sink is.
pub fn channel_of(graph: &Graph, task: u32, input: u32) -> Option<u32>
    ensures some { IfSome result (WorksFrom graph.now task input) }
    ensures none { IfNone result ((channel : ℕ) → ¬ WorksFrom graph.now task input channel) }
{
    match graph.role(task) {
        Some(Role::Operator(_)) => input_of(graph, task, input),
        Some(Role::Sink(_)) => input_of(graph, task, input),
        Some(Role::Source(_)) => None,
        None => None,
    }
}

/// Whether this is the operator of a number.
#[inline(always)]
fn is_operator<O: Operator>(operators: &[O], number: u32, operator: &O) -> bool
    ensures { IsTrue result ↔ (slice_get operators.now number ≡ Some operator.now) }
{
    match operator_of(operators, number) {
        Some(found) => found.eq(operator),
        None => false,
    }
}

/// Whether a record is the one to take from an input, which is this channel.
fn is_first<O: Operator>(
    attempt: &Attempt<O>,
    task: u32,
    input: u32,
    channel: u32,
    row: &O::Record,
) -> bool
    requires { input < length (gate_at attempt.now task).inputs }
    ensures { IsTrue result ↔ IsRecordDue task input attempt.now channel row.now }
{
    match first_record(attempt, task, input, channel) {
        Ok(first) => first == row,
        Err(_) => false,
    }
}

/// Whether this record stands at a place of a channel, with no barrier before it.
#[inline(always)]
pub(crate) fn is_record<O: Operator>(
    attempt: &Attempt<O>,
    channel: u32,
    index: usize,
    row: &O::Record,
) -> bool
    ensures { IsTrue result
        ↔ (slice_get (leading_records (items_at attempt.now.channels channel)) index
        ≡ Some row.now) }
{
    match attempt.record(channel, index) {
        Some(found) => found == row,
        None => false,
    }
}

/// Whether these records stand first in a channel, with no barrier before one of them.
#[inline(always)]
fn has_records<O: Operator>(attempt: &Attempt<O>, channel: u32, rows: &[O::Record]) -> bool
    ensures { IsTrue result ↔ StandFirst channel rows.now attempt.now }
{
    attempt.has_first(channel, rows)
}

/// Whether a task has this state under a key, or has none where none is given.
fn has_state<O: Operator>(
    attempt: &Attempt<O>,
    task: u32,
    key: &O::Key,
    state: Option<&O::State>,
) -> bool
    ensures { (entries : List (O.Key × O.State))
        → slice_get attempt.now.tasks task ≡ Some (Holding.Operator entries) → IsTrue result
        ↔ (value_at O.Key.cmp entries key.now ≡ option_copied state.entry) }
{
    match attempt.state(task, key) {
        Some(found) => match state {
            Some(state) => found == state,
            None => false,
        },
        None => state.is_none(),
    }
}

/// Whether a task has these states, which were copied.
fn has_copied<O: Operator>(
    attempt: &Attempt<O>,
    task: u32,
    copies: &Copies<O::Key, O::State>,
) -> bool
    ensures { (entries : List (O.Key × O.State))
        → slice_get attempt.now.tasks task ≡ Some (Holding.Operator entries) → IsTrue result
        ↔ AreStatesOf O.Key.cmp entries copies.now }
{
    let (keys, states) = copies.columns();
    for (key, state) in keys.iter().zip(states) {
        if !has_state(attempt, task, key, state.state()) {
            return false;
        }
    }
    true
}

/// Whether a task has the states that these keys have among the entries that were lent.
fn has_lent<O: Operator>(
    attempt: &Attempt<O>,
    task: u32,
    keys: &[O::Key],
    lent: &LentStates<O::Key, O::State>,
) -> bool
    ensures { (entries : List (O.Key × O.State))
        → slice_get attempt.now.tasks task ≡ Some (Holding.Operator entries) → IsTrue result
        ↔ AreStatesOf O.Key.cmp entries (states_under O.Key.cmp lent.now keys.now) }
{
    for index in 0..keys.len() {
        let key = &keys[index];
        if !has_state(attempt, task, key, lent.get(key)) {
            return false;
        }
    }
    true
}

/// Whether a task has these states.
pub(crate) fn has_states<O: Operator>(
    attempt: &Attempt<O>,
    task: u32,
    states: &States<O::Key, O::State>,
) -> bool
    ensures { (entries : List (O.Key × O.State))
        → slice_get attempt.now.tasks task ≡ Some (Holding.Operator entries) → IsTrue result
        ↔ AreStatesOf O.Key.cmp entries states.now }
{
    match &states.kept {
        Kept::Copied(copies) => has_copied(attempt, task, copies),
        Kept::Lent(keys, lent) => has_lent(attempt, task, keys, lent),
    }
}

/// The channel from which a task is to take an operator's records, where that work is due if the
/// task has the states that it was given.
#[inline(always)]
pub(crate) fn records_channel<O: Operator>(
    attempt: &Attempt<O>,
    graph: &Graph,
    operators: &[O],
    task: u32,
    input: u32,
    operand: &Operand<O, O::Key, O::State, O::Record>,
) -> Option<u32>
    requires shape { Shape ⟦<O as Rules>⟧.all graph.now operators.now attempt.now }
    ensures some { IfSome result (λ channel. (entries : List (O.Key × O.State)) × IsDueOn
        graph.now operators.now task input attempt.now channel entries operand.now) }
    ensures none { IfNone result ((channel : ℕ) → ¬ IsOperandDue ⟦<O as Rules>⟧.lang graph.now
        operators.now task input attempt.now channel operand.now) }
{
    let Some(Role::Operator(number)) = graph.role(task) else {
        return None;
    };
    let Some(channel) = input_of(graph, task, input) else {
        return None;
    };
    if is_operator(operators, number, &operand.operator)
        && !attempt.is_blocked(task, input)
        && has_records(attempt, channel, &operand.rows)
    {
        Some(channel)
    } else {
        None
    }
}

/// The channel from which a task is to take an operator's records, where that work is due.
pub(crate) fn operand_channel<O: Operator>(
    attempt: &Attempt<O>,
    graph: &Graph,
    operators: &[O],
    task: u32,
    input: u32,
    operand: &Operand<O, O::Key, O::State, O::Record>,
) -> Option<u32>
    requires shape { Shape ⟦<O as Rules>⟧.all graph.now operators.now attempt.now }
    ensures some { IfSome result (λ channel. IsOperandDue ⟦<O as Rules>⟧.lang graph.now
        operators.now task input attempt.now channel operand.now) }
    ensures none { IfNone result ((channel : ℕ) → ¬ IsOperandDue ⟦<O as Rules>⟧.lang graph.now
        operators.now task input attempt.now channel operand.now) }
{
    let Some(channel) = records_channel(attempt, graph, operators, task, input, operand) else {
        return None;
    };
    if has_states(attempt, task, &operand.states) {
        Some(channel)
    } else {
        None
    }
}

/// The channel from which a sink is to take a record, where that work is due.
#[inline(always)]
pub(crate) fn row_channel<O: Operator>(
    attempt: &Attempt<O>,
    graph: &Graph,
    task: u32,
    input: u32,
    row: &O::Record,
) -> Option<u32>
    requires gates { (t : ℕ) → t < length graph.now.tasks → GateFits graph.now attempt.now t }
    ensures some { IfSome result (λ channel. IsRowDue graph.now task input attempt.now
        channel row.now) }
    ensures none { IfNone result ((channel : ℕ)
        → ¬ IsRowDue graph.now task input attempt.now channel row.now) }
{
    let Some(Role::Sink(_)) = graph.role(task) else {
        return None;
    };
    let channel = input_of(graph, task, input)?;
    if is_first(attempt, task, input, channel, row) {
        Some(channel)
    } else {
        None
    }
}

/// Whether work is due.
pub(crate) fn is_due<O: Operator>(
    attempt: &Attempt<O>,
    graph: &Graph,
    operators: &[O],
    task: u32,
    input: u32,
    given: &Given<O, O::Key, O::State, O::Record>,
) -> bool
    requires shape { Shape ⟦<O as Rules>⟧.all graph.now operators.now attempt.now }
    ensures { IsTrue result
        ↔ IsDue ⟦<O as Rules>⟧.lang graph.now operators.now task input attempt.now given.now }
{
    match given {
        Given::Operator(operand) => {
            operand_channel(attempt, graph, operators, task, input, operand.get()).is_some()
        }
        Given::Sink(row) => row_channel(attempt, graph, task, input, row).is_some(),
    }
}
