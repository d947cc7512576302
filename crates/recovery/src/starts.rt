//! What a task starts from, by its part of a checkpoint.

ghost use Rattle.std.specs.Prelude.{◌≡◌, ◌<◌, ◌≤◌, ◌↔◌, ℕ, length, Some, List, IfSome, IfNone, IsTrue};
ghost use Rattle.abs_codec.specs.Entries.{value_at};
ghost use Rattle.source_log.specs.Partitions.{records_at};
ghost use Rattle.engine_model.specs.Restart as restart;
ghost use Rattle.engine_model.specs.Restart.{Suits, part_for};
ghost use Rattle.engine_model.specs.declared.start.Start.{Start};
ghost use Rattle.engine_model.specs.declared.start.Start.TheVariants as Start;
ghost use Rattle.task_part.specs.declared.part.Part.TheVariants as Part;

use crate::logs::logs_suit;
use abs_codec::{Codec, Items, Map};
use engine_model::{Rules, Start};
use job_graph::{Graph, Role};
use operators::Operator;
use source_log::Partitions;
use std::alloc::Global;
use task_part::Part;

/// What a task starts from where no checkpoint is complete. It takes no memory.
pub(crate) fn first_start<R, K: Ord, S>(alloc: Global, role: Role) -> Start<R, K, S>
    ensures { result ≡ restart.first_start role }
{
    match role {
        Role::Source(_) => Start::Source(0),
        Role::Operator(_) => Start::Operator(Map::new(alloc), Items::new(alloc)),
        Role::Sink(subtask) => Start::Sink(subtask, Items::new(alloc), Items::new(alloc)),
    }
}

/// Whether the partition is there, and the offset within it or at its end.
fn is_within<P: Partitions>(log: &P, partition: u32, offset: u64) -> bool
    ensures { IsTrue result ↔ ((partition < length (P.records log.now))
        × (offset ≤ length (records_at (P.records log.now) partition))) }
{
    match log.len(partition) {
        Ok(len) => offset <= len,
        Err(_) => false,
    }
}

/// Whether the key fits, and the operator can go on from the state.
fn is_good<O: Operator>(operator: &O, key: &O::Key, state: &O::State) -> bool
    ensures { IsTrue result
        ↔ (⟦<O as Rules>⟧.KeyFits key.now × ⟦<O as Rules>⟧.IsGood operator.now state.now) }
{
    key.fits() && state.fits() && operator.suits(state)
}

/// Whether the keys fit, and the operator can go on from the states.
fn are_good<O: Operator>(operator: &O, states: &Map<O::Key, O::State>) -> bool
    ensures { IsTrue result ↔ ((key : O.Key) (state : O.State) → value_at O.Key.cmp states.now key
        ≡ Some state → ⟦<O as Rules>⟧.KeyFits key × ⟦<O as Rules>⟧.IsGood operator.now state) }
{
    for (key, state) in states.iter() {
        if !is_good(operator, key, state) {
            return false;
        }
    }
    true
}

/// What a source starts from, if its part has this offset.
fn source_start<O: Operator, P: Partitions<Record = O::Record>>(
    graph: &Graph,
    task: u32,
    role: Role,
    offset: u64,
    log: &P,
) -> Option<Start<O::Record, O::Key, O::State>>
    ensures some { IfSome result (λ st. (st ≡ Start.Source offset) × ((operators : List O)
        → Suits ⟦<O as Rules>⟧.all graph.now operators (P.records log.now) task role st)) }
    ensures none { IfNone result ((operators : List O) → Suits ⟦<O as Rules>⟧.all graph.now
        operators (P.records log.now) task role (Start.Source offset) → ⊥) }
{
    match role {
        Role::Source(partition) => {
            if is_within(log, partition, offset) {
                Some(Start::Source(offset))
            } else {
                None
            }
        }
        Role::Operator(_) => None,
        Role::Sink(_) => None,
    }
}

/// What an operator starts from, if its part has these states and logs.
fn operator_start<O: Operator>(
    graph: &Graph,
    task: u32,
    role: Role,
    states: Map<O::Key, O::State>,
    logs: Items<(u32, Items<O::Record>)>,
    operators: &[O],
) -> Option<Start<O::Record, O::Key, O::State>>
    ensures some { IfSome result (λ st. (st ≡ Start.Operator states logs)
        × ((partitions : List (List O.Record))
        → Suits ⟦<O as Rules>⟧.all graph.now operators.now partitions task role st)) }
    ensures none { IfNone result ((partitions : List (List O.Record)) → Suits ⟦<O as Rules>⟧.all
        graph.now operators.now partitions task role (Start.Operator states logs) → ⊥) }
{
    match role {
        Role::Operator(number) => {
            let operator = operators.get(number as usize)?;
            if are_good(operator, &states) && logs_suit(graph, task, logs.as_slice()) {
                Some(Start::Operator(states, logs))
            } else {
                None
            }
        }
        Role::Source(_) => None,
        Role::Sink(_) => None,
    }
}

/// What a sink starts from, if its part has these transactions and logs.
fn sink_start<O: Operator>(
    graph: &Graph,
    task: u32,
    role: Role,
    names: Items<u64>,
    logs: Items<(u32, Items<O::Record>)>,
) -> Option<Start<O::Record, O::Key, O::State>>
    ensures some { IfSome result (λ st. (part_for st ≡ Part.Sink names logs)
        × ((operators : List O) (partitions : List (List O.Record))
        → Suits ⟦<O as Rules>⟧.all graph.now operators partitions task role st)) }
    ensures none { IfNone result ((subtask : ℕ) (operators : List O)
        (partitions : List (List O.Record)) → Suits ⟦<O as Rules>⟧.all graph.now operators
        partitions task role
        (Start.Sink subtask names logs) → ⊥) }
{
    match role {
        Role::Sink(subtask) => {
            if logs_suit(graph, task, logs.as_slice()) {
                Some(Start::Sink(subtask, names, logs))
            } else {
                None
            }
        }
        Role::Source(_) => None,
        Role::Operator(_) => None,
    }
}

/// What a task starts from, by a part that suits it.
pub(crate) fn start_by<O: Operator, P: Partitions<Record = O::Record>>(
    graph: &Graph,
    task: u32,
    role: Role,
    part: Part<O::Record, O::Key, O::State>,
    operators: &[O],
    log: &P,
) -> Option<Start<O::Record, O::Key, O::State>>
    ensures some { IfSome result (λ st. (part ≡ part_for st)
        × Suits ⟦<O as Rules>⟧.all graph.now operators.now (P.records log.now) task role st) }
    ensures none { IfNone result ((st : Start O.Record O.Key O.State) → part ≡ part_for st
        → Suits ⟦<O as Rules>⟧.all graph.now operators.now (P.records log.now) task role st → ⊥) }
{
    match part {
        Part::Source(offset) => source_start::<O, P>(graph, task, role, offset, log),
        Part::Operator(states, logs) => operator_start(graph, task, role, states, logs, operators),
        Part::Sink(names, logs) => sink_start::<O>(graph, task, role, names, logs),
    }
}
