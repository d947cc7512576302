//! The pending checkpoint is settled.

ghost use Rattle.std.specs.Prelude.{◌≡◌, ◌≢◌, None, OnOk};
ghost use Rattle.engine.specs.Readers.{pending_in};
ghost use Rattle.engine.specs.Running.{IsCounted};
ghost use Rattle.engine_settling.specs.Advancing.{IsPending, HaveEnded, HaveAcked};
ghost use Rattle.engine_settling.specs.Bringing.{Holds, EndsPart};
ghost use Rattle.engine_settling.specs.Resting.{IsStillIn};
ghost use Rattle.engine_settling.specs.Settled.{EndsSettle, RestsIfStill};

use crate::aligning::{close_logs, copy_tasks};
use crate::injecting::inject_sources;
use crate::putting::{commit_sinks, complete, persist_tasks};
use commit_sink::Transactions;
use engine::{CoreFault, Engine};
use engine_model::Rules;
use operators::Operator;
use snapshot_store::SnapshotStore;
use source_log::Partitions;
use std::alloc::Global;

/// Every task copies, and every barrier is taken.
fn bring_to_end<O: Operator, S: SnapshotStore, X: Transactions, P: Partitions<Record = O::Record>>(
    engine: &mut Engine<O, S, X, P>,
    alloc: Global,
) -> Result<(), CoreFault>
    requires pending { Holds engine.old (λ _ h. IsPending h) }
    ensures ends { EndsPart ⟦<O as Rules>⟧.all engine.old engine.new HaveEnded result }
    ensures counted { IsCounted engine.old.faults engine.new.faults result }
{
    match inject_sources(engine) {
        Ok(()) => {}
        Err(fault) => return Err(fault),
    }
    match copy_tasks(engine, alloc) {
        Ok(()) => {}
        Err(fault) => return Err(fault),
    }
    close_logs(engine, alloc)
}

/// Every part of the pending checkpoint is put.
fn put_parts<O: Operator, S: SnapshotStore, X: Transactions, P: Partitions<Record = O::Record>>(
    engine: &mut Engine<O, S, X, P>,
    alloc: Global,
) -> Result<(), CoreFault>
    requires pending { Holds engine.old (λ _ h. IsPending h) }
    ensures ends { EndsPart ⟦<O as Rules>⟧.all engine.old engine.new
        (λ g h. HaveEnded g h × HaveAcked g h) result }
    ensures counted { IsCounted engine.old.faults engine.new.faults result }
{
    match bring_to_end(engine, alloc) {
        Ok(()) => {}
        Err(fault) => return Err(fault),
    }
    persist_tasks(engine)
}

/// Completes the pending checkpoint, and has every sink commit it. Sources that have not copied do;
/// then each task works its unmarked inputs up to their barriers, in an order in which it comes
/// behind the senders of these, and then its marked ones; the parts are put, the checkpoint is
/// completed, and the sinks commit. Refused by `K9` where none is pending, and else only where
/// memory is refused (`K11`) or a device fails (`K12`, `K13`); what was done stays. The job has to
/// run.
pub fn settle<O: Operator, S: SnapshotStore, X: Transactions, P: Partitions<Record = O::Record>>(
    engine: &mut Engine<O, S, X, P>,
    alloc: Global,
) -> Result<(), CoreFault>
    requires running { engine.old.held ≢ None }
    ensures ends { EndsSettle ⟦<O as Rules>⟧.all engine.old engine.new result }
    ensures rests { RestsIfStill ⟦<O as Rules>⟧.all engine.old engine.new result }
    ensures counted { IsCounted engine.old.faults engine.new.faults result }
{
    if engine.pending().is_none() {
        return Err(CoreFault::NoCheckpoint);
    }
    match put_parts(engine, alloc) {
        Ok(()) => {}
        Err(fault) => return Err(fault),
    }
    match complete(engine) {
        Ok(()) => {}
        Err(fault) => return Err(fault),
    }
    // (brings into the proof what every engine keeps)
    engine.is_fresh();
    commit_sinks(engine)
}
