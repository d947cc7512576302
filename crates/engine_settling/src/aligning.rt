//! The two passes over the tasks: first the unmarked inputs, then the marked ones.

ghost use Rattle.std.specs.Prelude.{◌≡◌, ◌<◌, Some, length, slice_get};
ghost use Rattle.engine.specs.Running.{IsCounted};
ghost use Rattle.engine_settling.specs.Advancing.{IsPending, HaveSourcesCopied, HaveCopied, HaveAllCome};
ghost use Rattle.engine_settling.specs.Bringing.{Holds, EndsPart};

use crate::taking::take_inputs;
use commit_sink::Transactions;
use engine::{CoreFault, Engine};
use engine_model::Rules;
use job_graph::Graph;
use operators::Operator;
use snapshot_store::SnapshotStore;
use source_log::Partitions;
use std::alloc::Global;

/// The task that stands at a place of the order.
fn task_at(graph: &Graph, place: u32) -> u32
    requires { place < length graph.now.order }
    ensures { slice_get graph.now.order place ≡ Some result }
{
    graph.order()[place as usize]
}

/// The tasks take the barriers of their unmarked inputs, each behind the senders of these; so each
/// copies.
pub(crate) fn copy_tasks<
    O: Operator,
    S: SnapshotStore,
    X: Transactions,
    P: Partitions<Record = O::Record>,
>(engine: &mut Engine<O, S, X, P>, alloc: Global) -> Result<(), CoreFault>
    requires sources { Holds engine.old (λ g h. IsPending h × HaveSourcesCopied g h) }
    ensures ends { EndsPart ⟦<O as Rules>⟧.all engine.old engine.new HaveCopied result }
    ensures counted { IsCounted engine.old.faults engine.new.faults result }
{
    for place in 0..engine.graph().tasks() {
        let task = task_at(engine.graph(), place);
        match take_inputs(engine, alloc, task, false) {
            Ok(()) => {}
            Err(fault) => return Err(fault),
        }
        // (brings into the proof what every engine keeps)
        engine.is_fresh();
    }
    Ok(())
}

/// The tasks take the barriers of their marked inputs, which closes their logs.
pub(crate) fn close_logs<
    O: Operator,
    S: SnapshotStore,
    X: Transactions,
    P: Partitions<Record = O::Record>,
>(engine: &mut Engine<O, S, X, P>, alloc: Global) -> Result<(), CoreFault>
    requires copied { Holds engine.old (λ g h. IsPending h × HaveCopied g h) }
    ensures ends { EndsPart ⟦<O as Rules>⟧.all engine.old engine.new HaveAllCome result }
    ensures counted { IsCounted engine.old.faults engine.new.faults result }
{
    for place in 0..engine.graph().tasks() {
        let task = task_at(engine.graph(), place);
        match take_inputs(engine, alloc, task, true) {
            Ok(()) => {}
            Err(fault) => return Err(fault),
        }
    }
    // (brings into the proof what every engine keeps)
    engine.is_fresh();
    Ok(())
}
