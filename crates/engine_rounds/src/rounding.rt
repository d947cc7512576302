//! Rounds of turns, until no task has a step left to make.

ghost use Rattle.std.specs.Prelude.{◌≡◌, ◌≢◌, ◌<◌, None, false, IsTrue, OnOk};
ghost use Rattle.engine_model.specs.Sound.{IsSound};
ghost use Rattle.engine.specs.Readers.{pending_in};
ghost use Rattle.engine.specs.Running.{IsCounted};
ghost use Rattle.engine_rounds.specs.Idle.{AreIdle};
ghost use Rattle.engine_rounds.specs.Turns.{EndsCounted, EndsRound, EndsRounds};
ghost use Rattle.engine_rounds.specs.Works.{CanMove, IsResting};

use crate::ending::Drained;
use crate::turns::{has_step, turn};
use commit_sink::Transactions;
use engine::{CoreFault, Engine};
use engine_model::Rules;
use operators::Operator;
use snapshot_store::SnapshotStore;
use source_log::Partitions;
use std::alloc::Global;

/// A task's turn, which is counted where it makes a step.
fn take_turn<O: Operator, S: SnapshotStore, X: Transactions, P: Partitions<Record = O::Record>>(
    engine: &mut Engine<O, S, X, P>,
    alloc: Global,
    task: u32,
    left: &mut u64,
) -> Result<(), CoreFault>
    requires running { engine.old.held ≢ None }
    requires some { 0 < left.old }
    ensures ends { EndsCounted ⟦<O as Rules>⟧.all engine.old engine.new
        task left.old left.new result }
    ensures counted { IsCounted engine.old.faults engine.new.faults result }
    ensures pending { OnOk result (pending_in engine.new.held ≡ pending_in engine.old.held) }
{
    match turn(engine, alloc, task) {
        Ok(true) => {
            *left -= 1;
            Ok(())
        }
        Ok(false) => Ok(()),
        Err(fault) => Err(fault),
    }
}

/// Each task has its turn, in the order of their numbers, while turns are left. Whether one made a
/// step.
fn round<O: Operator, S: SnapshotStore, X: Transactions, P: Partitions<Record = O::Record>>(
    engine: &mut Engine<O, S, X, P>,
    alloc: Global,
    left: &mut u64,
) -> Result<bool, CoreFault>
    requires running { engine.old.held ≢ None }
    requires some { 0 < left.old }
    ensures ends { EndsRound ⟦<O as Rules>⟧.all engine.old engine.new left.old left.new result }
    ensures counted { IsCounted engine.old.faults engine.new.faults result }
    ensures pending { OnOk result (pending_in engine.new.held ≡ pending_in engine.old.held) }
{
    let before = *left;
    let tasks = engine.graph().tasks();
    for task in 0..tasks {
        if *left == 0 {
            return Ok(true);
        }
        match take_turn(engine, alloc, task, left) {
            Ok(()) => {}
            Err(fault) => return Err(fault),
        }
    }
    if *left < before {
        return Ok(true);
    }
    Ok(false)
}

/// Whether some task has a step to make. It makes none.
fn can_move<O: Operator, S: SnapshotStore, X: Transactions, P: Partitions<Record = O::Record>>(
    engine: &Engine<O, S, X, P>,
) -> bool
    requires running { engine.now.held ≢ None }
    ensures some { IsTrue result → CanMove ⟦<O as Rules>⟧.lang engine.now }
    ensures none { result ≡ false → AreIdle engine.now }
{
    for task in 0..engine.graph().tasks() {
        if has_step(engine, task) {
            return true;
        }
    }
    false
}

/// A law, with nothing to do: where no task of a sound engine has a step to make and no checkpoint
/// is pending, the plain machine can make no step.
pub fn idle_engines_rest<
    O: Operator,
    S: SnapshotStore,
    X: Transactions,
    P: Partitions<Record = O::Record>,
>(engine: &Engine<O, S, X, P>)
    ensures { IsSound ⟦<O as Rules>⟧.all engine.now → pending_in engine.now.held ≡ None
        → AreIdle engine.now → IsResting ⟦<O as Rules>⟧.lang engine.now }
{
    // (brings into the proof what every engine keeps)
    engine.is_fresh();
}

/// Goes in rounds over the tasks, with a turn for each step that is made, until no task has a step
/// to make, or as many steps were made as there are turns. No checkpoint begins or ends.
pub fn rounds<O: Operator, S: SnapshotStore, X: Transactions, P: Partitions<Record = O::Record>>(
    engine: &mut Engine<O, S, X, P>,
    alloc: Global,
    turns: u64,
) -> Result<Drained, CoreFault>
    requires running { engine.old.held ≢ None }
    ensures ends { EndsRounds ⟦<O as Rules>⟧.all engine.old engine.new turns result }
    ensures counted { IsCounted engine.old.faults engine.new.faults result }
    ensures pending { OnOk result (pending_in engine.new.held ≡ pending_in engine.old.held) }
{
    let mut left = turns;
    'spending: while left > 0 {
        match round(engine, alloc, &mut left) {
            Ok(true) => {}
            Ok(false) => return Ok(Drained::AtRest),
            Err(fault) => return Err(fault),
        }
    }
    if can_move(engine) {
        return Ok(Drained::TurnsSpent);
    }
    Ok(Drained::AtRest)
}
