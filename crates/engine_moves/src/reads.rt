//! Sources read records.

ghost use Rattle.std.specs.Prelude.{◌≡◌, ◌≢◌, ◌<◌, ◌+◌, ◌^◌, ℕ, Err, Some, length, slice_get, IfSome, OnOk, OnErr};
ghost use Rattle.job_state.specs.declared.holding.Holding.TheVariants as Holding;
ghost use Rattle.job_state.specs.Sending.{GoesInto};
ghost use Rattle.job_graph.specs.declared.role.Role.TheVariants as Role;
ghost use Rattle.engine_model.specs.declared.fault.CoreFault.TheVariants as CoreFault;
ghost use Rattle.engine_model.specs.Calls.{EndsRead};
ghost use Rattle.engine_model.specs.Keeps.{AreHeld};
ghost use Rattle.source_log.specs.Partitions.{records_at};
ghost use Rattle.engine_moves.specs.Reading.{ReadsInTurn};

use engine_model::{CoreFault, Rules};
use job_graph::{Graph, Role};
use job_state::Attempt;
use operators::Operator;
use source_log::{Partitions, SourceFault};

/// Source `task` sends its next record.
pub fn read_next<O: Operator, P: Partitions<Record = O::Record>>(
    attempt: &mut Attempt<O>,
    graph: &Graph,
    log: &mut P,
    task: u32,
) -> Result<(), CoreFault>
    requires held { AreHeld graph.now attempt.old }
    requires channels { length attempt.old.channels ≡ length graph.now.channels }
    requires partitions { (t p : ℕ) → slice_get graph.now.tasks t ≡ Some (Role.Source p)
        → p < length (P.records log.old) }
    ensures ends { EndsRead graph.now task attempt.old attempt.new ⟦<O as Rules>⟧.lang
        (P.records log.old) result }
    ensures same { P.records log.new ≡ P.records log.old }
    ensures kept { OnErr result (attempt.new ≡ attempt.old) }
    ensures counted { result ≡ Err CoreFault.Device
        → P.fault_count log.old < P.fault_count log.new }
    ensures told { result ≢ Err CoreFault.Device → P.fault_count log.new ≡ P.fault_count log.old }
    ensures fits { OnOk result ((p o : ℕ) (row : O.Record)
        → slice_get graph.now.tasks task ≡ Some (Role.Source p)
        → slice_get attempt.old.tasks task ≡ Some (Holding.Source o)
        → slice_get (records_at (P.records log.old) p) o ≡ Some row
        → ⟦<O as Rules>⟧.RecordFits row) }
{
    let Some(Role::Source(partition)) = graph.role(task) else {
        return Err(CoreFault::NoSuchTask);
    };
    let Some(offset) = attempt.offset(task) else {
        return Err(CoreFault::NoSuchTask);
    };
    read_at(attempt, graph, log, task, partition, offset, None)
}

/// Source `task`, which reads this partition and holds this offset, sends its next record. The
/// channel that each of its records goes into may be known.
fn read_at<O: Operator, P: Partitions<Record = O::Record>>(
    attempt: &mut Attempt<O>,
    graph: &Graph,
    log: &mut P,
    task: u32,
    partition: u32,
    offset: u64,
    known: Option<u32>,
) -> Result<(), CoreFault>
    requires source { slice_get graph.now.tasks task ≡ Some (Role.Source partition) }
    requires holds { slice_get attempt.old.tasks task ≡ Some (Holding.Source offset) }
    requires channels { length attempt.old.channels ≡ length graph.now.channels }
    requires within { partition < length (P.records log.old) }
    requires known { IfSome known (λ number. (row : O.Record)
        → GoesInto O.meaning graph.now task number row) }
    ensures ends { EndsRead graph.now task attempt.old attempt.new ⟦<O as Rules>⟧.lang
        (P.records log.old) result }
    ensures same { P.records log.new ≡ P.records log.old }
    ensures kept { OnErr result (attempt.new ≡ attempt.old) }
    ensures counted { result ≡ Err CoreFault.Device
        → P.fault_count log.old < P.fault_count log.new }
    ensures told { result ≢ Err CoreFault.Device → P.fault_count log.new ≡ P.fault_count log.old }
    ensures fits { OnOk result ((row : O.Record)
        → slice_get (records_at (P.records log.old) partition) offset ≡ Some row
        → ⟦<O as Rules>⟧.RecordFits row) }
    ensures moved { OnOk result (slice_get attempt.new.tasks task
        ≡ Some (Holding.Source (offset + 1))) }
    ensures channels { length attempt.new.channels ≡ length graph.now.channels }
    ensures in_range { OnOk result (offset + 1 < 2 ^ 64) }
{
    if log.len(partition).is_ok_and(|len| len <= offset) {
        return Err(CoreFault::NotReady);
    }
    let row = match log.read(partition, offset) {
        Ok(Some(row)) => row,
        Ok(None) => return Err(CoreFault::NotReady),
        Err(SourceFault::Memory) => return Err(CoreFault::Memory),
        Err(_) => return Err(CoreFault::Device),
    };
    attempt.read(graph, task, offset, row, known)?;
    Ok(())
}

/// Source `task` sends its next records, one after another and so many at most, until one is not to
/// be had: how many it has sent, and why no more.
pub fn read_some<O: Operator, P: Partitions<Record = O::Record>>(
    attempt: &mut Attempt<O>,
    graph: &Graph,
    log: &mut P,
    task: u32,
    most: u32,
) -> (u32, Result<(), CoreFault>)
    requires some { 0 < most }
    requires held { AreHeld graph.now attempt.old }
    requires channels { length attempt.old.channels ≡ length graph.now.channels }
    requires partitions { (t p : ℕ) → slice_get graph.now.tasks t ≡ Some (Role.Source p)
        → p < length (P.records log.old) }
    ensures ends { ReadsInTurn ⟦<O as Rules>⟧.all graph.now task (P.records log.old) most
        attempt.old attempt.new result.0 result.1 }
    ensures same { P.records log.new ≡ P.records log.old }
    ensures counted { result.1 ≡ Err CoreFault.Device
        → P.fault_count log.old < P.fault_count log.new }
    ensures told { result.1 ≢ Err CoreFault.Device
        → P.fault_count log.new ≡ P.fault_count log.old }
{
    let Some(Role::Source(partition)) = graph.role(task) else {
        return (0, Err(CoreFault::NoSuchTask));
    };
    let Some(first) = attempt.offset(task) else {
        return (0, Err(CoreFault::NoSuchTask));
    };
    let known = Attempt::<O>::fixed_target(graph, task);
    let mut offset = first;
    for count in 0..most {
        if let Err(fault) = read_at(attempt, graph, log, task, partition, offset, known) {
            return (count, Err(fault));
        }
        offset += 1;
    }
    (most, Ok(()))
}
