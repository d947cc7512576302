//! The gates of the tasks.

ghost use Rattle.std.specs.Prelude.{◌≡◌, ◌<◌, length, map, slice_set, false, IfOk};
ghost use Rattle.std.specs.List.{range_with_len};
ghost use Rattle.alignment.specs.Inputs.{input_at, with_barrier};
ghost use Rattle.alignment.specs.Table.{IsFor, effect_of, after, is_logged};
ghost use Rattle.job_graph.specs.Expanded.{meets, is_marked, inputs_of};
ghost use Rattle.job_state.specs.Held.{fresh_gate};
ghost use Rattle.job_state.specs.Inside.{gate_in};

use abs_codec::NoMemory;
use alignment::Gate;
use job_graph::Graph;
use std::alloc::Global;

/// Of each input of a task, whether it is a back-edge.
fn marks(alloc: Global, graph: &Graph, task: u32) -> Result<Vec<bool>, NoMemory>
    ensures { IfOk result (λ marks. marks.items
        ≡ map (meets is_marked graph.now.channels) (inputs_of graph.now task)) }
{
    let mut marks = Vec::new(alloc);
    for number in graph.inputs(task) {
        marks.push(graph.is_marked(*number))?;
    }
    Ok(marks)
}

/// A task's gate, at rest.
fn fresh_gate(alloc: Global, graph: &Graph, task: u32) -> Result<Gate, NoMemory>
    ensures { IfOk result (λ gate. gate ≡ fresh_gate graph.now task) }
{
    let marks = marks(alloc, graph, task)?;
    Gate::new(alloc, &marks)
}

/// The gates of so many tasks, at rest.
pub(crate) fn fresh_gates(alloc: Global, graph: &Graph, count: u32) -> Result<Vec<Gate>, NoMemory>
    ensures { IfOk result (λ gates. gates.items
        ≡ map (fresh_gate graph.now) (range_with_len 0 count)) }
{
    let mut gates = Vec::new(alloc);
    for task in 0..count {
        gates.push(fresh_gate(alloc, graph, task)?)?;
    }
    Ok(gates)
}

/// Whether a record that a task takes from an input is to be logged.
pub(crate) fn is_logged(gates: &[Gate], task: u32, input: u32) -> bool
    requires { input < length (gate_in gates.now task).inputs }
    ensures { result ≡ is_logged (gate_in gates.now task) input }
{
    match gates.get(task as usize) {
        Some(gate) => gate.logging(input),
        None => false,
    }
}

/// A task's gate notes the barrier of an input.
pub(crate) fn note_barrier(gates: &mut [Gate], task: u32, input: u32, checkpoint: u64)
    requires there { task < length gates.old }
    requires within { input < length (gate_in gates.old task).inputs }
    requires awaited { (input_at (gate_in gates.old task).inputs input).came ≡ false }
    requires number { IsFor (gate_in gates.old task).phase checkpoint }
    ensures { let gate = gate_in gates.old task in
        gates.new ≡ slice_set gates.old task (after (effect_of gate input) checkpoint
        (with_barrier gate.inputs input)) }
{
    gates[task as usize].barrier(input, checkpoint);
}
