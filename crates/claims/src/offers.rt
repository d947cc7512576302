//! Work is offered.

ghost use Rattle.std.specs.Prelude.{◌≡◌, ◌<◌, ◌≤◌, ◌+◌, ◌++◌, ◌∷◌, [], List, Some, length, map, take, slice_get, OnOk, OnErr, IfOk, vec_len, vec_capacity};
ghost use Rattle.std.specs.List.{All, IsAmong};
ghost use Rattle.channels.specs.Items.{leading_records};
ghost use Rattle.job_graph.specs.Expanded.{IsExpanded};
ghost use Rattle.job_graph.specs.PlainGraph.{HaveOperators};
ghost use Rattle.job_state.specs.Sending.{items_at};
ghost use Rattle.job_state.specs.declared.holding.Holding.TheVariants as Holding;
ghost use Rattle.engine_model.specs.Keeps.{Shape};
ghost use Rattle.claims.specs.declared.parts.Given.TheVariants as Given;
ghost use Rattle.claims.specs.Carried.{IsCarried};
ghost use Rattle.claims.specs.Due.{EndsOffer, EndsOfferBehind, rows_behind};
ghost use Rattle.claims.specs.Keys.{HasItsKey};

use crate::carried::Work;
use crate::due::operator_of;
use crate::inputs::{first_record, free_records, input_of};
use crate::parts::{Exits, Given, Load, Operand};
use crate::rooms::Room;
use crate::states::states_of;
use abs_codec::{Codec, NoMemory};
use deliveries::Fans;
use engine_model::{CoreFault, Rules};
use job_graph::{Graph, Role};
use job_state::Attempt;
use operators::Operator;
use std::alloc::Global;

/// The first records of a channel, and the keys of those that have one.
#[derive(Drop)]
struct Gathered<R, K> {
    rows: Vec<R>,
    keys: Vec<K>,
}

/// Room for so many keys, where none is there yet: then each is put there with no growing.
fn make_room<K: Drop>(keys: &mut Vec<K>, room: usize) -> Result<(), NoMemory>
    ensures { keys.new.items ≡ keys.old.items }
{
    if keys.is_empty() {
        keys.reserve_exact(room)?;
    }
    Ok(())
}

/// A key is put last, if there is one. The first makes room for so many.
fn push_key<K: Drop>(keys: &mut Vec<K>, key: Option<K>, room: usize) -> Result<(), NoMemory>
    ensures stay { OnOk result ((q : K) → IsAmong keys.old.items q → IsAmong keys.new.items q) }
    ensures there { OnOk result ((q : K) → key ≡ Some q → IsAmong keys.new.items q) }
{
    if let Some(key) = key {
        make_room(keys, room)?;
        keys.push(key)?;
    }
    Ok(())
}

/// A record is carried too, and its key, if it has one.
fn gather_record<O: Operator>(
    alloc: Global,
    operator: &O,
    row: &O::Record,
    gathered: &mut Gathered<O::Record, O::Key>,
) -> Result<(), NoMemory>
    requires keyed { All (HasItsKey O.meaning operator.now gathered.old.keys.items)
        gathered.old.rows.items }
    requires room { vec_len gathered.old.rows < vec_capacity gathered.old.rows }
    ensures room { vec_capacity gathered.new.rows ≡ vec_capacity gathered.old.rows }
    ensures rows { OnOk result (gathered.new.rows.items
        ≡ gathered.old.rows.items ++ row.now ∷ []) }
    ensures keys { OnOk result (All (HasItsKey O.meaning operator.now gathered.new.keys.items)
        gathered.new.rows.items) }
{
    let room = gathered.rows.capacity();
    push_key(&mut gathered.keys, operator.key(alloc, row)?, room)?;
    gathered.rows.push_reserved(row.copied()?);
    Ok(())
}

/// Records are carried too, and the keys of those that have one.
fn gather_each<O: Operator>(
    alloc: Global,
    operator: &O,
    rows: &[O::Record],
    gathered: &mut Gathered<O::Record, O::Key>,
) -> Result<(), NoMemory>
    requires keyed { All (HasItsKey O.meaning operator.now gathered.old.keys.items)
        gathered.old.rows.items }
    requires room { vec_len gathered.old.rows + length rows.now
        ≤ vec_capacity gathered.old.rows }
    ensures room { vec_capacity gathered.new.rows ≡ vec_capacity gathered.old.rows }
    ensures rows { OnOk result (gathered.new.rows.items ≡ gathered.old.rows.items ++ rows.now) }
    ensures keys { OnOk result (All (HasItsKey O.meaning operator.now gathered.new.keys.items)
        gathered.new.rows.items) }
{
    for row in rows {
        gather_record(alloc, operator, row, gathered)?;
    }
    Ok(())
}

/// Copies of the first records of a channel, and their keys.
fn gather<O: Operator>(
    alloc: Global,
    attempt: &Attempt<O>,
    operator: &O,
    channel: u32,
    count: usize,
    room: &mut Room<O>,
) -> Result<Gathered<O::Record, O::Key>, NoMemory>
    requires within { count
        ≤ length (leading_records (items_at attempt.now.channels channel)) }
    ensures rows { IfOk result (λ gathered. gathered.rows.items
        ≡ take count (leading_records (items_at attempt.now.channels channel))) }
    ensures keys { IfOk result (λ gathered.
        All (HasItsKey O.meaning operator.now gathered.keys.items) gathered.rows.items) }
{
    let mut gathered = Gathered {
        rows: room.take_rows(alloc, count)?,
        keys: room.take_keys(alloc, count),
    };
    let (first, second) = attempt.records(channel, 0, count);
    gather_each(alloc, operator, first, &mut gathered)?;
    gather_each(alloc, operator, second, &mut gathered)?;
    Ok(gathered)
}

/// An operator's work on the first records of a channel: copies of the operator and of the records,
/// with their keys, and the task's states, lent or copied for each of these keys.
fn operand_of<O: Operator>(
    alloc: Global,
    attempt: &Attempt<O>,
    operator: &O,
    task: u32,
    channel: u32,
    count: usize,
    room: &mut Room<O>,
) -> Result<Operand<O, O::Key, O::State, O::Record>, NoMemory>
    requires within { count
        ≤ length (leading_records (items_at attempt.now.channels channel)) }
    ensures operator { IfOk result (λ operand. operand.operator ≡ operator.now) }
    ensures rows { IfOk result (λ operand. operand.rows.items
        ≡ take count (leading_records (items_at attempt.now.channels channel))) }
    ensures carried { IfOk result (λ operand. (entries : List (O.Key × O.State))
        → slice_get attempt.now.tasks task ≡ Some (Holding.Operator entries)
        → IsCarried O.meaning O.Key.cmp entries operand) }
{
    let Gathered { rows, keys } = gather(alloc, attempt, operator, channel, count, room)?;
    Ok(Operand {
        operator: operator.copy()?,
        states: states_of(alloc, attempt, task, keys, room)?,
        rows,
    })
}

/// How many channels a port of a task has, if they take lanes in turn; 0 where it is otherwise.
fn in_turn(graph: &Graph, task: u32, port: u32) -> usize {
    let outlets = graph.outlets(task, port).len();
    match graph.runs(task, port).first() {
        Some(run) if *run as usize == outlets => outlets,
        Some(_) => 0,
        None => 0,
    }
}

/// Where a task's records go. Their lanes are worth to be reckoned beforehand where they tell it,
/// on one of its first two ports.
fn exits_of(graph: &Graph, task: u32) -> Exits {
    let first = in_turn(graph, task, 0);
    let second = in_turn(graph, task, 1);
    Exits {
        by_lane: first > 1 || second > 1,
        in_turn: first,
    }
}

/// The same, behind an owner.
fn load_of<O: Operator>(
    alloc: Global,
    attempt: &Attempt<O>,
    graph: &Graph,
    operator: &O,
    task: u32,
    channel: u32,
    count: usize,
    room: &mut Room<O>,
) -> Result<Load<O, O::Key, O::State, O::Record>, NoMemory>
    requires within { count
        ≤ length (leading_records (items_at attempt.now.channels channel)) }
    ensures operator { IfOk result (λ load. load.operator ≡ operator.now) }
    ensures rows { IfOk result (λ load. load.rows.items
        ≡ take count (leading_records (items_at attempt.now.channels channel))) }
    ensures carried { IfOk result (λ load. (entries : List (O.Key × O.State))
        → slice_get attempt.now.tasks task ≡ Some (Holding.Operator entries)
        → IsCarried O.meaning O.Key.cmp entries load) }
{
    let operand = operand_of(alloc, attempt, operator, task, channel, count, room)?;
    let exits = exits_of(graph, task);
    let fans = if count > 1 {
        Fans::of::<O>(alloc, graph, task)?
    } else {
        None
    };
    let load = Load::new(alloc, operand, exits, fans)?;
    Ok(load)
}

/// Offers the work that a task is to do at an input now: an operator's on the records before the
/// first barrier, at most so many, and a sink's on one. It copies the operator, the records and
/// their keys, and the state under each key, once, where the task's states are not lent. What room
/// there is for the records and the keys is used up. `K2` comes before `K4`, that before `K3`, and
/// `K11` last.
pub fn offer<O: Operator>(
    alloc: Global,
    attempt: &Attempt<O>,
    graph: &Graph,
    operators: &[O],
    task: u32,
    input: u32,
    most: usize,
    room: &mut Room<O>,
) -> Result<Work<O>, CoreFault>
    requires some { 0 < most }
    requires expanded { IsExpanded graph.now }
    requires given { HaveOperators graph.now operators.now }
    requires shape { Shape ⟦<O as Rules>⟧.all graph.now operators.now attempt.now }
    ensures { EndsOffer ⟦<O as Rules>⟧.lang graph.now operators.now task input attempt.now most
        result }
{
    match graph.role(task) {
        Some(Role::Operator(number)) => {
            let Some(channel) = input_of(graph, task, input) else {
                return Err(CoreFault::NoSuchTask);
            };
            let Some(operator) = operator_of(operators, number) else {
                return Err(CoreFault::NoSuchTask);
            };
            let count = free_records(attempt, task, input, channel)?.min(most);
            let operand = load_of(alloc, attempt, graph, operator, task, channel, count, room)?;
            Ok(Work {
                given: Given::Operator(operand),
            })
        }
        Some(Role::Sink(_)) => {
            let Some(channel) = input_of(graph, task, input) else {
                return Err(CoreFault::NoSuchTask);
            };
            let row = first_record(attempt, task, input, channel)?;
            let row = row.copied()?;
            Ok(Work {
                given: Given::Sink(row),
            })
        }
        Some(Role::Source(_)) => Err(CoreFault::NoSuchTask),
        None => Err(CoreFault::NoSuchTask),
    }
}

/// A sink's work on each of these records, in their order.
fn offer_each<O: Operator>(rows: &[O::Record], works: &mut Vec<Work<O>>) -> Result<(), NoMemory>
    requires room { vec_len works.old + length rows.now ≤ vec_capacity works.old }
    ensures room { vec_capacity works.new ≡ vec_capacity works.old }
    ensures rows { OnOk result (works.new.items ≡ works.old.items ++ map Given.Sink rows.now) }
{
    for row in rows {
        let row = row.copied()?;
        works.push_reserved(Work {
            given: Given::Sink(row),
        });
    }
    Ok(())
}

/// The work on the records behind the first of a channel, before the first barrier, in their order
/// and on so many at most. Room for them is taken once, and none where there are none.
fn works_behind<O: Operator>(
    alloc: Global,
    attempt: &Attempt<O>,
    channel: u32,
    most: usize,
) -> Result<Vec<Work<O>>, NoMemory>
    ensures rows { IfOk result (λ works. works.items
        ≡ map Given.Sink (rows_behind attempt.now channel most)) }
    ensures some { OnErr result (0 < length (rows_behind attempt.now channel most)) }
{
    let count = attempt.before_barrier(channel).saturating_sub(1).min(most);
    if count == 0 {
        return Ok(Vec::new(alloc));
    }
    let mut works = Vec::with_capacity(alloc, count)?;
    let (first, second) = attempt.records(channel, 1, count);
    offer_each(first, &mut works)?;
    offer_each(second, &mut works)?;
    Ok(works)
}

/// Offers the work on the records behind the first of a sink's input, in their order, on so many at
/// most and with no barrier before one of them: each is due once those before it are taken. `K2`
/// comes before `K11`.
pub fn offer_behind<O: Operator>(
    alloc: Global,
    attempt: &Attempt<O>,
    graph: &Graph,
    task: u32,
    input: u32,
    most: usize,
) -> Result<Vec<Work<O>>, CoreFault>
    ensures { EndsOfferBehind graph.now task input most attempt.now result }
{
    let Some(Role::Sink(_)) = graph.role(task) else {
        return Err(CoreFault::NoSuchTask);
    };
    let Some(channel) = input_of(graph, task, input) else {
        return Err(CoreFault::NoSuchTask);
    };
    let works = works_behind(alloc, attempt, channel, most)?;
    Ok(works)
}
