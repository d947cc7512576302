//! A job is drained.

ghost use Rattle.std.specs.Prelude.{◌≡◌, ◌≢◌, None};
ghost use Rattle.engine.specs.Readers.{pending_in};
ghost use Rattle.engine.specs.Running.{IsCounted};
ghost use Rattle.engine_rounds.specs.Idle.{AreIdle};
ghost use Rattle.engine_settling.specs.Settled.{EndsStart, EndsAtRest, EndsDrain};

use crate::putting::commit_sinks;
use crate::settling::settle;
use commit_sink::Transactions;
use engine::{CoreFault, Engine};
use engine_model::Rules;
use engine_rounds::{Drained, rounds};
use operators::Operator;
use snapshot_store::SnapshotStore;
use source_log::Partitions;
use std::alloc::Global;

/// A pending checkpoint is settled, and every sink commits.
fn settle_pending<
    O: Operator,
    S: SnapshotStore,
    X: Transactions,
    P: Partitions<Record = O::Record>,
>(engine: &mut Engine<O, S, X, P>, alloc: Global) -> Result<(), CoreFault>
    requires running { engine.old.held ≢ None }
    ensures ends { EndsStart ⟦<O as Rules>⟧.all engine.old engine.new result }
    ensures counted { IsCounted engine.old.faults engine.new.faults result }
{
    if engine.pending().is_none() {
        return commit_sinks(engine);
    }
    settle(engine, alloc)
}

/// A checkpoint of a job that is at rest begins and is settled.
fn end_at_rest<O: Operator, S: SnapshotStore, X: Transactions, P: Partitions<Record = O::Record>>(
    engine: &mut Engine<O, S, X, P>,
    alloc: Global,
) -> Result<(), CoreFault>
    requires running { engine.old.held ≢ None }
    requires none_pending { pending_in engine.old.held ≡ None }
    requires idle { AreIdle engine.old }
    ensures ends { EndsAtRest ⟦<O as Rules>⟧.all engine.old engine.new result }
    ensures counted { IsCounted engine.old.faults engine.new.faults result }
{
    // (brings into the proof what every engine keeps)
    engine.is_fresh();
    match engine.trigger() {
        Ok(_) => settle(engine, alloc),
        Err(fault) => Err(fault),
    }
}

/// Settles what is pending, has every sink commit, and then goes in rounds over the tasks, with a
/// turn for each step that is made. Where no task has a step left, a last checkpoint is taken and
/// committed, and the answer is `AtRest`: the sinks of a sound engine have then committed the whole
/// output of a plain run that has ended. Where the turns are spent and a further step is possible,
/// it is `TurnsSpent`. Refused as `settle` is where one is pending, and by `K14` where no number is
/// left for the last checkpoint; what was done stays. The job has to run.
pub fn drain<O: Operator, S: SnapshotStore, X: Transactions, P: Partitions<Record = O::Record>>(
    engine: &mut Engine<O, S, X, P>,
    alloc: Global,
    turns: u64,
) -> Result<Drained, CoreFault>
    requires running { engine.old.held ≢ None }
    ensures ends { EndsDrain ⟦<O as Rules>⟧.all engine.old engine.new turns result }
    ensures counted { IsCounted engine.old.faults engine.new.faults result }
{
    match settle_pending(engine, alloc) {
        Ok(()) => {}
        Err(fault) => return Err(fault),
    }
    match rounds(engine, alloc, turns) {
        Ok(Drained::AtRest) => {}
        Ok(Drained::TurnsSpent) => return Ok(Drained::TurnsSpent),
        Err(fault) => return Err(fault),
    }
    match end_at_rest(engine, alloc) {
        Ok(()) => {
            // (brings into the proof what every engine keeps)
            engine.is_fresh();
            Ok(Drained::AtRest)
        }
        Err(fault) => Err(fault),
    }
}
