//! A task takes its turn.

ghost use Rattle.std.specs.Prelude.{◌≡◌, ◌≢◌, ◌↔◌, ℕ, None, false, IsTrue, OnOk, MatchOption, slice_get};
ghost use Rattle.claims.specs.Due.{IsWorker, WorksFrom};
ghost use Rattle.engine_model.specs.Calls.{IsSource};
ghost use Rattle.engine.specs.Readers.{pending_in};
ghost use Rattle.engine.specs.Running.{IsCounted};
ghost use Rattle.engine_rounds.specs.Idle.{HasInput, HasStepIn, IsIdleIn};
ghost use Rattle.engine_rounds.specs.Turns.{turned_as, EndsTurn, EndsWorkAt};

use commit_sink::Transactions;
use engine::{CoreFault, Engine};
use engine_model::Rules;
use job_graph::Role;
use operators::Operator;
use snapshot_store::SnapshotStore;
use source_log::Partitions;
use std::alloc::Global;

/// Whether a step was made: none is where the task had none to make.
fn turned(outcome: Result<(), CoreFault>) -> Result<bool, CoreFault>
    ensures { result ≡ turned_as outcome }
{
    match outcome {
        Ok(()) => Ok(true),
        Err(CoreFault::ChannelBlocked) => Ok(false),
        Err(CoreFault::NotReady) => Ok(false),
        Err(fault) => Err(fault),
    }
}

/// A source sends its next record, if it has one left.
fn read_turn<O: Operator, S: SnapshotStore, X: Transactions, P: Partitions<Record = O::Record>>(
    engine: &mut Engine<O, S, X, P>,
    task: u32,
) -> Result<bool, CoreFault>
    requires source { IsSource engine.old.graph task }
    requires running { engine.old.held ≢ None }
    ensures ends { EndsTurn ⟦<O as Rules>⟧.all engine.old engine.new task result }
    ensures counted { IsCounted engine.old.faults engine.new.faults result }
    ensures pending { OnOk result (pending_in engine.new.held ≡ pending_in engine.old.held) }
{
    turned(engine.read(task))
}

/// An operator or a sink works the record at the head of an input, if there is one.
pub(crate) fn work_at<
    O: Operator,
    S: SnapshotStore,
    X: Transactions,
    P: Partitions<Record = O::Record>,
>(engine: &mut Engine<O, S, X, P>, alloc: Global, task: u32, input: u32) -> Result<bool, CoreFault>
    requires input { (channel : ℕ) × WorksFrom engine.old.graph task input channel }
    requires running { engine.old.held ≢ None }
    ensures ends { EndsWorkAt ⟦<O as Rules>⟧.all engine.old engine.new task input result }
    ensures counted { IsCounted engine.old.faults engine.new.faults result }
    ensures pending { OnOk result (pending_in engine.new.held ≡ pending_in engine.old.held) }
{
    match engine.offer(task, input, 1) {
        Ok(work) => turned(engine.accept(task, input, work.run(alloc))),
        Err(fault) => turned(Err(fault)),
    }
}

/// An operator or a sink works one record of its lowest input that has one.
fn work_turn<O: Operator, S: SnapshotStore, X: Transactions, P: Partitions<Record = O::Record>>(
    engine: &mut Engine<O, S, X, P>,
    alloc: Global,
    task: u32,
) -> Result<bool, CoreFault>
    requires worker { IsWorker (slice_get engine.old.graph.tasks task) }
    requires running { engine.old.held ≢ None }
    ensures ends { EndsTurn ⟦<O as Rules>⟧.all engine.old engine.new task result }
    ensures counted { IsCounted engine.old.faults engine.new.faults result }
    ensures pending { OnOk result (pending_in engine.new.held ≡ pending_in engine.old.held) }
{
    // (brings into the proof what every graph keeps)
    let _ = engine.graph().tasks();
    let inputs = engine.graph().inputs(task).len() as u32;
    for input in 0..inputs {
        match work_at(engine, alloc, task, input) {
            Ok(true) => return Ok(true),
            Ok(false) => {}
            Err(fault) => return Err(fault),
        }
    }
    Ok(false)
}

/// A task makes one step, if it has one to make: a source reads, and another task works.
pub(crate) fn turn<
    O: Operator,
    S: SnapshotStore,
    X: Transactions,
    P: Partitions<Record = O::Record>,
>(engine: &mut Engine<O, S, X, P>, alloc: Global, task: u32) -> Result<bool, CoreFault>
    requires running { engine.old.held ≢ None }
    ensures ends { EndsTurn ⟦<O as Rules>⟧.all engine.old engine.new task result }
    ensures counted { IsCounted engine.old.faults engine.new.faults result }
    ensures pending { OnOk result (pending_in engine.new.held ≡ pending_in engine.old.held) }
{
    match engine.graph().role(task) {
        Some(Role::Source(_)) => read_turn(engine, task),
        Some(Role::Operator(_)) => work_turn(engine, alloc, task),
        Some(Role::Sink(_)) => work_turn(engine, alloc, task),
        None => Ok(false),
    }
}

/// Whether an input of an operator or of a sink has a record.
fn has_input<O: Operator, S: SnapshotStore, X: Transactions, P: Partitions<Record = O::Record>>(
    engine: &Engine<O, S, X, P>,
    task: u32,
) -> bool
    requires worker { IsWorker (slice_get engine.now.graph.tasks task) }
    requires running { engine.now.held ≢ None }
    ensures some { IsTrue result ↔ MatchOption engine.now.held ⊥
        (λ h. HasInput engine.now.graph h task) }
    ensures none { result ≡ false → IsIdleIn engine.now task }
{
    for channel in engine.graph().inputs(task) {
        if engine.has_head(*channel) {
            return true;
        }
    }
    false
}

/// Whether a task has a step to make. It makes none.
pub(crate) fn has_step<
    O: Operator,
    S: SnapshotStore,
    X: Transactions,
    P: Partitions<Record = O::Record>,
>(engine: &Engine<O, S, X, P>, task: u32) -> bool
    requires running { engine.now.held ≢ None }
    ensures some { IsTrue result → HasStepIn engine.now task }
    ensures none { result ≡ false → IsIdleIn engine.now task }
{
    match engine.graph().role(task) {
        Some(Role::Source(_)) => engine.has_next(task),
        Some(Role::Operator(_)) => has_input(engine, task),
        Some(Role::Sink(_)) => has_input(engine, task),
        None => false,
    }
}
