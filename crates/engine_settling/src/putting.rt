//! The parts are put, the checkpoint is completed, and the sinks commit.

ghost use Rattle.std.specs.Prelude.{◌≡◌, ◌≢◌, ◌<◌, None, true, length};
ghost use Rattle.coordinator.specs.Coordinator.{has_acked};
ghost use Rattle.engine.specs.Running.{IsCounted};
ghost use Rattle.engine_settling.specs.Advancing.{HaveEnded, HaveAcked};
ghost use Rattle.engine_settling.specs.Bringing.{Holds, EndsPart};
ghost use Rattle.engine_settling.specs.Settled.{EndsCompletion, EndsCommitAt, EndsCommits};

use crate::outcomes::done;
use commit_sink::Transactions;
use engine::{CoreFault, Engine};
use engine_model::Rules;
use job_graph::Role;
use operators::Operator;
use snapshot_store::SnapshotStore;
use source_log::Partitions;

/// The part of a task is put and acknowledged, if it was not.
fn persist_task<O: Operator, S: SnapshotStore, X: Transactions, P: Partitions<Record = O::Record>>(
    engine: &mut Engine<O, S, X, P>,
    task: u32,
) -> Result<(), CoreFault>
    requires ended { Holds engine.old HaveEnded }
    requires within { task < length engine.old.graph.tasks }
    ensures ends { EndsPart ⟦<O as Rules>⟧.all engine.old engine.new
        (λ _ h. has_acked h.coordination task ≡ true) result }
    ensures counted { IsCounted engine.old.faults engine.new.faults result }
{
    // (brings into the proof what every engine keeps)
    engine.is_fresh();
    done(engine.persist(task))
}

/// The part of each task is put and acknowledged, if it was not.
pub(crate) fn persist_tasks<
    O: Operator,
    S: SnapshotStore,
    X: Transactions,
    P: Partitions<Record = O::Record>,
>(engine: &mut Engine<O, S, X, P>) -> Result<(), CoreFault>
    requires ended { Holds engine.old HaveEnded }
    ensures ends { EndsPart ⟦<O as Rules>⟧.all engine.old engine.new HaveAcked result }
    ensures counted { IsCounted engine.old.faults engine.new.faults result }
{
    for task in 0..engine.graph().tasks() {
        match persist_task(engine, task) {
            Ok(()) => {}
            Err(fault) => return Err(fault),
        }
    }
    Ok(())
}

/// The pending checkpoint, of which every part was put, is completed.
pub(crate) fn complete<
    O: Operator,
    S: SnapshotStore,
    X: Transactions,
    P: Partitions<Record = O::Record>,
>(engine: &mut Engine<O, S, X, P>) -> Result<(), CoreFault>
    requires acked { Holds engine.old (λ g h. HaveEnded g h × HaveAcked g h) }
    ensures ends { EndsCompletion ⟦<O as Rules>⟧.all engine.old engine.new result }
    ensures counted { IsCounted engine.old.faults engine.new.faults result }
{
    // (brings into the proof what every engine keeps)
    engine.is_fresh();
    match engine.complete() {
        Ok(_) => Ok(()),
        Err(fault) => Err(fault),
    }
}

/// The sink that a task is, if it is one, commits.
fn commit_task<O: Operator, S: SnapshotStore, X: Transactions, P: Partitions<Record = O::Record>>(
    engine: &mut Engine<O, S, X, P>,
    task: u32,
) -> Result<(), CoreFault>
    requires running { engine.old.held ≢ None }
    ensures ends { EndsCommitAt ⟦<O as Rules>⟧.all engine.old engine.new task result }
    ensures counted { IsCounted engine.old.faults engine.new.faults result }
{
    // (brings into the proof what every engine keeps)
    engine.is_fresh();
    match engine.graph().role(task) {
        Some(Role::Sink(subtask)) => engine.commit(subtask),
        Some(Role::Operator(_)) => Ok(()),
        Some(Role::Source(_)) => Ok(()),
        None => Ok(()),
    }
}

/// Every sink commits.
pub(crate) fn commit_sinks<
    O: Operator,
    S: SnapshotStore,
    X: Transactions,
    P: Partitions<Record = O::Record>,
>(engine: &mut Engine<O, S, X, P>) -> Result<(), CoreFault>
    requires running { engine.old.held ≢ None }
    ensures ends { EndsCommits ⟦<O as Rules>⟧.all engine.old engine.new result }
    ensures counted { IsCounted engine.old.faults engine.new.faults result }
{
    for task in 0..engine.graph().tasks() {
        match commit_task(engine, task) {
            Ok(()) => {}
            Err(fault) => return Err(fault),
        }
    }
    Ok(())
}
