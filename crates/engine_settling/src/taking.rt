//! A task works an input up to the pending checkpoint's barrier, and takes it.

ghost use Rattle.std.specs.Prelude.{◌≡◌, ◌<◌, true, IfOk};
ghost use Rattle.job_state.specs.Held.{came_at};
ghost use Rattle.engine.specs.Readers.{HasHead};
ghost use Rattle.engine.specs.Running.{IsCounted};
ghost use Rattle.engine_settling.specs.Advancing.{IsPending, HaveSendersCopied, HaveCome};
ghost use Rattle.engine_settling.specs.Awaiting.{IsAwaited, HasCome, leading_in};
ghost use Rattle.engine_settling.specs.Bringing.{Holds, EndsPart};

use claims::channel_of;
use commit_sink::Transactions;
use engine::{CoreFault, Engine};
use engine_model::Rules;
use operators::Operator;
use snapshot_store::SnapshotStore;
use source_log::Partitions;
use std::alloc::Global;

/// Works the record that stands first in an input whose barrier is awaited.
fn work_first<O: Operator, S: SnapshotStore, X: Transactions, P: Partitions<Record = O::Record>>(
    engine: &mut Engine<O, S, X, P>,
    alloc: Global,
    task: u32,
    input: u32,
    channel: u32,
) -> Result<(), CoreFault>
    requires awaited { Holds engine.old (λ g h. IsAwaited g h task input channel) }
    requires head { Holds engine.old (λ _ h. HasHead h channel) }
    ensures ends { EndsPart ⟦<O as Rules>⟧.all engine.old engine.new
        (λ g h. IsAwaited g h task input channel) result }
    ensures falls { IfOk result (λ _. leading_in engine.new.held channel
        < leading_in engine.old.held channel) }
    ensures counted { IsCounted engine.old.faults engine.new.faults result }
{
    // (brings into the proof what every engine keeps)
    engine.is_fresh();
    // (the clauses alone name it)
    let _ = channel;
    match engine.offer(task, input, 1) {
        Ok(work) => engine.accept(task, input, work.run(alloc)),
        Err(fault) => Err(fault),
    }
}

/// Works what stands before the barrier in an input, and takes the barrier.
fn up_to_barrier<O: Operator, S: SnapshotStore, X: Transactions, P: Partitions<Record = O::Record>>(
    engine: &mut Engine<O, S, X, P>,
    alloc: Global,
    task: u32,
    input: u32,
    channel: u32,
) -> Result<(), CoreFault>
    requires awaited { Holds engine.old (λ g h. IsAwaited g h task input channel) }
    ensures ends { EndsPart ⟦<O as Rules>⟧.all engine.old engine.new
        (λ _ h. came_at h channel ≡ true) result }
    ensures counted { IsCounted engine.old.faults engine.new.faults result }
{
    'working: while engine.has_head(channel) {
        match work_first(engine, alloc, task, input, channel) {
            Ok(()) => {}
            Err(fault) => return Err(fault),
        }
    }
    // (brings into the proof what every engine keeps)
    engine.is_fresh();
    match engine.take_barrier(task, input) {
        Ok(_) => Ok(()),
        Err(fault) => Err(fault),
    }
}

/// One input of a task, if it is marked so: it is worked up to its barrier, if that has not come.
fn take_input<O: Operator, S: SnapshotStore, X: Transactions, P: Partitions<Record = O::Record>>(
    engine: &mut Engine<O, S, X, P>,
    alloc: Global,
    task: u32,
    input: u32,
    marked: bool,
) -> Result<(), CoreFault>
    requires sent { Holds engine.old (λ g h. IsPending h × HaveSendersCopied g h marked task) }
    ensures ends { EndsPart ⟦<O as Rules>⟧.all engine.old engine.new
        (λ g h. HasCome g h task input marked) result }
    ensures counted { IsCounted engine.old.faults engine.new.faults result }
{
    // (brings into the proof what every engine keeps)
    engine.is_fresh();
    let Some(channel) = channel_of(engine.graph(), task, input) else {
        return Ok(());
    };
    if engine.graph().is_marked(channel) != marked {
        return Ok(());
    }
    if engine.came(channel) {
        return Ok(());
    }
    up_to_barrier(engine, alloc, task, input, channel)
}

/// Each input of a task that is marked so is worked up to its barrier, if that has not come.
pub(crate) fn take_inputs<
    O: Operator,
    S: SnapshotStore,
    X: Transactions,
    P: Partitions<Record = O::Record>,
>(engine: &mut Engine<O, S, X, P>, alloc: Global, task: u32, marked: bool) -> Result<(), CoreFault>
    requires sent { Holds engine.old (λ g h. IsPending h × HaveSendersCopied g h marked task) }
    ensures ends { EndsPart ⟦<O as Rules>⟧.all engine.old engine.new
        (λ g h. HaveCome g h marked task) result }
    ensures counted { IsCounted engine.old.faults engine.new.faults result }
{
    // (brings into the proof what every engine keeps)
    engine.is_fresh();
    let inputs = engine.graph().inputs(task).len() as u32;
    for input in 0..inputs {
        match take_input(engine, alloc, task, input, marked) {
            Ok(()) => {}
            Err(fault) => return Err(fault),
        }
    }
    Ok(())
}
