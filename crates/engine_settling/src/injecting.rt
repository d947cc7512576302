//! Sources copy, and send the barrier.

ghost use Rattle.std.specs.Prelude.{◌≢◌, ◌↔◌, None, IsTrue};
ghost use Rattle.engine_model.specs.Calls.{IsSource};
ghost use Rattle.engine.specs.Running.{IsCounted};
ghost use Rattle.job_state.specs.Held.{copy_at};
ghost use Rattle.engine_settling.specs.Advancing.{IsPending, HaveSourcesCopied};
ghost use Rattle.engine_settling.specs.Bringing.{Holds, EndsPart};

use crate::outcomes::done;
use commit_sink::Transactions;
use engine::{CoreFault, Engine};
use engine_model::Rules;
use job_graph::Graph;
use operators::Operator;
use snapshot_store::SnapshotStore;
use source_log::Partitions;

/// Whether a task is a source.
fn is_source(graph: &Graph, task: u32) -> bool
    ensures { IsTrue result ↔ IsSource graph.now task }
{
    match graph.role(task) {
        Some(role) => role.is_source(),
        None => false,
    }
}

/// A source copies its offset and sends the barrier, if it has not.
fn inject_source<O: Operator, S: SnapshotStore, X: Transactions, P: Partitions<Record = O::Record>>(
    engine: &mut Engine<O, S, X, P>,
    task: u32,
) -> Result<(), CoreFault>
    requires source { IsSource engine.old.graph task }
    requires pending { Holds engine.old (λ _ h. IsPending h) }
    ensures ends { EndsPart ⟦<O as Rules>⟧.all engine.old engine.new
        (λ _ h. copy_at h task ≢ None) result }
    ensures counted { IsCounted engine.old.faults engine.new.faults result }
{
    // (brings into the proof what every engine keeps)
    engine.is_fresh();
    done(engine.inject(task))
}

/// Each source copies its offset and sends the barrier, if it has not.
pub(crate) fn inject_sources<
    O: Operator,
    S: SnapshotStore,
    X: Transactions,
    P: Partitions<Record = O::Record>,
>(engine: &mut Engine<O, S, X, P>) -> Result<(), CoreFault>
    requires pending { Holds engine.old (λ _ h. IsPending h) }
    ensures ends { EndsPart ⟦<O as Rules>⟧.all engine.old engine.new HaveSourcesCopied result }
    ensures counted { IsCounted engine.old.faults engine.new.faults result }
{
    for task in 0..engine.graph().tasks() {
        if is_source(engine.graph(), task) {
            match inject_source(engine, task) {
                Ok(()) => {}
                Err(fault) => return Err(fault),
            }
        }
    }
    Ok(())
}
