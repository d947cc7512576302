//! What a task sends on channels that are one run: each record goes into one of them.

ghost use Rattle.std.specs.Prelude.{◌≡◌, ◌∷◌, [], IfSome, IsTrue, length};
ghost use Rattle.channels.specs.declared.item.Item.TheVariants.{Record};
ghost use Rattle.deliveries.specs.Deliveries.{deliveries_of_one, IsRunOf, TakesEach};
ghost use Rattle.job_graph.specs.Runs.{IsRun};

use crate::puts::{sole_run, takes_all};
use crate::turns::turn;
use job_graph::Graph;
use operators::Operator;

/// Whether each record goes into one of these channels, which are one run.
fn takes_each(graph: &Graph, numbers: &[u32]) -> bool
    requires { IsRun graph.now.channels numbers.now 0 (length numbers.now) }
    ensures { IsTrue result → TakesEach graph.now.channels numbers.now }
{
    numbers.len() > 1 || takes_all(graph, numbers[0])
}

/// The channels of a port, where they are one run, and each record goes into one of them; `None`
/// where it is otherwise. `run_target` tells which of them a record goes into.
pub fn run_of(graph: &Graph, task: u32, port: u32) -> Option<&[u32]>
    ensures { IfSome result (λ numbers. IsRunOf graph.now task port numbers.now) }
{
    let numbers = sole_run(graph, task, port)?;
    if takes_each(graph, numbers) {
        Some(numbers)
    } else {
        None
    }
}

/// A record's lane, which may be known.
#[inline(always)]
fn lane_of<O: Operator>(row: &O::Record, known: Option<u64>) -> u64
    requires { IfSome known (λ lane. lane ≡ O.meaning.lane row.now) }
    ensures { result ≡ O.meaning.lane row.now }
{
    match known {
        Some(lane) => lane,
        None => O::lane(row),
    }
}

/// The channel that a record goes into when a task sends it on a port whose channels are these, one
/// run, one of which takes it. Its lane may be known.
pub fn run_target<O: Operator>(
    graph: &Graph,
    task: u32,
    port: u32,
    numbers: &[u32],
    row: &O::Record,
    known: Option<u64>,
) -> u32
    requires run { IsRunOf graph.now task port numbers.now }
    requires known { IfSome known (λ lane. lane ≡ O.meaning.lane row.now) }
    ensures { deliveries_of_one O.meaning graph.now task (port, row.now)
        ≡ (result, Record row.now) ∷ [] }
{
    if numbers.len() == 1 {
        return numbers[0];
    }
    numbers[turn(lane_of::<O>(row, known), numbers.len())]
}
