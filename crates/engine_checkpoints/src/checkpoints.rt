//! A checkpoint begins, its parts are put, it is complete, and its transactions are committed.

ghost use Rattle.std.specs.Prelude.{◌≡◌, ◌≢◌, ◌<◌, ℕ, Ok, Err, Some, None, length, false, IsSome};
ghost use Rattle.alignment.specs.declared.input.Phase.TheVariants.{AtRest};
ghost use Rattle.coordinator.specs.Coordinator.{IsReady, has_acked, ack_refusal};
ghost use Rattle.coordinator.specs.Coordinator as coordination;
ghost use Rattle.snapshot_store.specs.Store.{put_refusal, complete_refusal};
ghost use Rattle.abs_codec.specs.Reading.{whole_of};
ghost use Rattle.job_state.specs.Held.{copy_at, gate_at, logs_of, with_logs};
ghost use Rattle.task_part.specs.declared.part.Part.{Part};
ghost use Rattle.task_part.specs.Spelling.{part_spelling, part_at};
ghost use Rattle.engine_model.specs.declared.fault.CoreFault.TheVariants as CoreFault;
ghost use Rattle.engine_model.specs.Calls.{IsTask, EndsTrigger, EndsPersist, EndsPersistSome, EndsComplete, WhereReached, WherePut};

use checkpoint_devices::{PutFault, discard_older};
use engine_model::{CoreFault, Persisted};
use job_graph::Graph;
use job_state::Attempt;
use operators::Operator;
use snapshot_store::{SnapshotStore, StoreFault};

/// A checkpoint begins under a number of its own. The parts below the last complete number are
/// discarded first.
#[tactic(auto, using(crate::proofs::Older::older_are_tidied))]
pub fn trigger<O: Operator, S: SnapshotStore>(
    attempt: &mut Attempt<O>,
    store: &mut S,
) -> Result<u64, CoreFault>
    ensures ends { EndsTrigger attempt.old attempt.new (S.state store.old)
        (S.state store.new) result }
    ensures counted { result ≡ Err CoreFault.Device
        → S.fault_count store.old < S.fault_count store.new }
    ensures told { result ≢ Err CoreFault.Device
        → S.fault_count store.new ≡ S.fault_count store.old }
{
    if attempt.pending().is_some() {
        return Err(CoreFault::CheckpointPending);
    }
    if discard_older(store, attempt.last_complete()).is_err() {
        return Err(CoreFault::Device);
    }
    match store.reserve() {
        Ok(number) => {
            attempt.start(number);
            Ok(number)
        }
        Err(StoreFault::NumberFull) => Err(CoreFault::NumbersSpent),
        Err(_) => Err(CoreFault::Device),
    }
}

/// Puts the part of a task that has copied, and whose logs are closed, and acknowledges it.
fn put_part<O: Operator, S: SnapshotStore>(
    attempt: &mut Attempt<O>,
    graph: &Graph,
    store: &mut S,
    checkpoint: u64,
    task: u32,
) -> Result<(), CoreFault>
    requires acked { length attempt.old.coordination.acked ≡ length graph.now.tasks }
    requires may { put_refusal (S.state store.old) checkpoint task ≡ None }
    requires is_task { IsTask graph.now task }
    requires pending { attempt.old.coordination.pending ≡ Some checkpoint }
    requires copied { IsSome (copy_at attempt.old task) }
    requires closed { (gate_at attempt.old task).phase ≡ AtRest }
    requires unacknowledged { has_acked attempt.old.coordination task ≡ false }
    ensures ends { EndsPersist graph.now task attempt.old attempt.new (S.state store.old)
        (S.state store.new) (part_spelling O.Record.spelling O.Key.spelling O.State.spelling)
        result }
    ensures counted { result ≡ Err CoreFault.Device
        → S.fault_count store.old < S.fault_count store.new }
    ensures told { result ≢ Err CoreFault.Device
        → S.fault_count store.new ≡ S.fault_count store.old }
    ensures readable { WhereReached result ((p : Part O.Record O.Key O.State)
        → copy_at attempt.old task ≡ Some p → whole_of
        (part_at O.Record.reading O.Key.cmp O.Key.reading O.State.reading)
        (part_spelling O.Record.spelling O.Key.spelling O.State.spelling
        (with_logs (logs_of graph.now attempt.old task) p))
        ≡ Ok (with_logs (logs_of graph.now attempt.old task) p)) }
{
    let bytes = attempt.part(graph, task)?;
    match checkpoint_devices::put_part(store, checkpoint, task, bytes) {
        Ok(()) => {
            attempt.acknowledge(checkpoint, task);
            Ok(())
        }
        Err(PutFault::Memory) => Err(CoreFault::Memory),
        Err(PutFault::Device) => Err(CoreFault::Device),
    }
}

/// Puts the part of a task that has copied, and whose logs are closed. What is left of the copy is
/// spelled first, and what was written since is merged.
pub fn persist<O: Operator, S: SnapshotStore>(
    attempt: &mut Attempt<O>,
    graph: &Graph,
    store: &mut S,
    task: u32,
) -> Result<(), CoreFault>
    requires acked { length attempt.old.coordination.acked ≡ length graph.now.tasks }
    requires may { (n : ℕ) → attempt.old.coordination.pending ≡ Some n
        → has_acked attempt.old.coordination task ≡ false → task < length graph.now.tasks
        → put_refusal (S.state store.old) n task ≡ None }
    ensures ends { EndsPersist graph.now task attempt.old attempt.new (S.state store.old)
        (S.state store.new) (part_spelling O.Record.spelling O.Key.spelling O.State.spelling)
        result }
    ensures counted { result ≡ Err CoreFault.Device
        → S.fault_count store.old < S.fault_count store.new }
    ensures told { result ≢ Err CoreFault.Device
        → S.fault_count store.new ≡ S.fault_count store.old }
    ensures readable { WhereReached result ((p : Part O.Record O.Key O.State)
        → copy_at attempt.old task ≡ Some p → whole_of
        (part_at O.Record.reading O.Key.cmp O.Key.reading O.State.reading)
        (part_spelling O.Record.spelling O.Key.spelling O.State.spelling
        (with_logs (logs_of graph.now attempt.old task) p))
        ≡ Ok (with_logs (logs_of graph.now attempt.old task) p)) }
{
    if graph.role(task).is_none() {
        return Err(CoreFault::NoSuchTask);
    }
    let Some(checkpoint) = attempt.pending() else {
        return Err(CoreFault::NoCheckpoint);
    };
    if !attempt.has_copied(task) {
        return Err(CoreFault::NotReady);
    }
    if !attempt.is_closed(task) || attempt.has_acked(task) {
        return Err(CoreFault::NotReady);
    }
    attempt.spell_all(task)?;
    put_part(attempt, graph, store, checkpoint, task)
}

/// Goes on with the part of a task that has copied, by at most `most` entries: those of the copy
/// are spelled, and then what was written since is merged. Where none are left, the part is put, if
/// its logs are closed.
pub fn persist_some<O: Operator, S: SnapshotStore>(
    attempt: &mut Attempt<O>,
    graph: &Graph,
    store: &mut S,
    task: u32,
    most: u32,
) -> Result<Persisted, CoreFault>
    requires acked { length attempt.old.coordination.acked ≡ length graph.now.tasks }
    requires may { (n : ℕ) → attempt.old.coordination.pending ≡ Some n
        → has_acked attempt.old.coordination task ≡ false → task < length graph.now.tasks
        → put_refusal (S.state store.old) n task ≡ None }
    ensures ends { EndsPersistSome graph.now task attempt.old attempt.new (S.state store.old)
        (S.state store.new) (part_spelling O.Record.spelling O.Key.spelling O.State.spelling)
        result }
    ensures counted { result ≡ Err CoreFault.Device
        → S.fault_count store.old < S.fault_count store.new }
    ensures told { result ≢ Err CoreFault.Device
        → S.fault_count store.new ≡ S.fault_count store.old }
    ensures readable { WherePut result ((p : Part O.Record O.Key O.State)
        → copy_at attempt.old task ≡ Some p → whole_of
        (part_at O.Record.reading O.Key.cmp O.Key.reading O.State.reading)
        (part_spelling O.Record.spelling O.Key.spelling O.State.spelling
        (with_logs (logs_of graph.now attempt.old task) p))
        ≡ Ok (with_logs (logs_of graph.now attempt.old task) p)) }
{
    if graph.role(task).is_none() {
        return Err(CoreFault::NoSuchTask);
    }
    let Some(checkpoint) = attempt.pending() else {
        return Err(CoreFault::NoCheckpoint);
    };
    if !attempt.has_copied(task) || attempt.has_acked(task) {
        return Err(CoreFault::NotReady);
    }
    if attempt.spell_some(task, most as usize)? {
        return Ok(Persisted::More);
    }
    if !attempt.is_closed(task) {
        return Err(CoreFault::NotReady);
    }
    match put_part(attempt, graph, store, checkpoint, task) {
        Ok(()) => Ok(Persisted::Done),
        Err(fault) => Err(fault),
    }
}

/// The pending checkpoint, of which every part is there, is complete.
pub fn complete<O: Operator, S: SnapshotStore>(
    attempt: &mut Attempt<O>,
    store: &mut S,
) -> Result<u64, CoreFault>
    requires may { (n : ℕ) → attempt.old.coordination.pending ≡ Some n
        → IsReady attempt.old.coordination → complete_refusal (S.state store.old) n ≡ None }
    requires ready { (n : ℕ) → attempt.old.coordination.pending ≡ Some n
        → IsReady attempt.old.coordination → coordination.complete_refusal
        attempt.old.coordination n ≡ None }
    ensures ends { EndsComplete attempt.old attempt.new (S.state store.old)
        (S.state store.new) result }
    ensures counted { result ≡ Err CoreFault.Device
        → S.fault_count store.old < S.fault_count store.new }
    ensures told { result ≢ Err CoreFault.Device
        → S.fault_count store.new ≡ S.fault_count store.old }
{
    let Some(checkpoint) = attempt.pending() else {
        return Err(CoreFault::NoCheckpoint);
    };
    if !attempt.ready() {
        return Err(CoreFault::NotAllAcked);
    }
    match store.complete(checkpoint) {
        Ok(()) => {
            attempt.complete(checkpoint);
            Ok(checkpoint)
        }
        Err(_) => Err(CoreFault::Device),
    }
}
