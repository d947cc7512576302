//! The parts of the last complete checkpoint, read and judged.

ghost use Rattle.std.specs.Prelude.{◌≡◌, ◌≢◌, ◌<◌, ◌≤◌, ℕ, true, Some, Ok, Err, IfOk, IfErr, MatchResult, slice_get};
ghost use Rattle.abs_codec.specs.declared.fault.CodecFault.TheVariants.{Memory};
ghost use Rattle.abs_codec.specs.Reading.{whole_of};
ghost use Rattle.job_graph.specs.declared.role.Role.{Role};
ghost use Rattle.snapshot_store.specs.Store.{IsLatest, is_complete};
ghost use Rattle.engine_model.specs.Restart.{AreStarts};
ghost use Rattle.recovery.specs.declared.fault.RecoveryFault.TheVariants as RecoveryFault;
ghost use Rattle.recovery.specs.Ends.{EndsReading, EndsTask, CannotRestore, EndsRestore};

use crate::fault::RecoveryFault;
use crate::starts::{first_start, start_by};
use abs_codec::{Codec, CodecFault, decode_all};
use engine_model::{Rules, Start};
use job_graph::Graph;
use operators::Operator;
use snapshot_store::{SnapshotStore, StoreFault};
use source_log::Partitions;
use std::alloc::Global;
use std::marker::Model;
use task_part::Part;

/// What a job starts from: the last complete number, if there is one, and what each task starts
/// from.
#[derive(Drop)]
pub struct Restored<O: Operator> {
    number: Option<u64>,
    pub(crate) starts: Vec<Start<O::Record, O::Key, O::State>>,
}

impl<O: Operator> Model for Restored<O> {
    ghost use Rattle.std.specs.Prelude.{ℕ, List, Option};
    ghost use Rattle.engine_model.specs.declared.start.Start.{Start};

    ghost Value = { Option ℕ × List (Start O.Record O.Key O.State) };

    ghost view = { λ r. (r.number, r.starts.items) };
}

impl<O: Operator> Restored<O> {
    /// The last complete number.
    pub fn number(&self) -> Option<u64>
        ensures { result ≡ self.now.0 }
    {
        self.number
    }

    /// What each task starts from.
    pub fn starts(&self) -> &[Start<O::Record, O::Key, O::State>]
        ensures { result.now ≡ self.now.1 }
    {
        &self.starts
    }
}

/// The value that the bytes spell.
fn decoded<T: Codec>(alloc: Global, bytes: &[u8]) -> Result<T, CodecFault>
    ensures ok { IfOk result (λ v. whole_of T.reading bytes.now ≡ Ok v) }
    ensures err { IfErr result (λ f. f ≢ Memory → whole_of T.reading bytes.now ≡ Err f) }
{
    decode_all(alloc, bytes)
}

/// A task's part of a complete checkpoint.
fn read_part<O: Operator, S: SnapshotStore>(
    alloc: Global,
    number: u64,
    task: u32,
    store: &mut S,
) -> Result<Part<O::Record, O::Key, O::State>, RecoveryFault>
    requires { is_complete (S.state store.old) number ≡ true }
    ensures ends { EndsReading ⟦<O as Rules>⟧.lang (S.state store.old) number task result }
    ensures same { S.state store.new ≡ S.state store.old }
    ensures counted { result ≡ Err RecoveryFault.Fault
        → S.fault_count store.old < S.fault_count store.new }
    ensures told { result ≢ Err RecoveryFault.Fault
        → S.fault_count store.new ≡ S.fault_count store.old }
{
    let bytes = match store.get(number, task) {
        Ok(bytes) => bytes,
        Err(StoreFault::MissingPart) => return Err(RecoveryFault::MissingPart),
        Err(StoreFault::Memory) => return Err(RecoveryFault::Memory),
        Err(_) => return Err(RecoveryFault::Fault),
    };
    match decoded(alloc, &bytes) {
        Ok(part) => Ok(part),
        Err(CodecFault::Memory) => Err(RecoveryFault::Memory),
        Err(fault) => Err(RecoveryFault::Damaged(task, fault)),
    }
}

/// What a task starts from, by the last complete number.
fn start_at<O: Operator, S: SnapshotStore, P: Partitions<Record = O::Record>>(
    alloc: Global,
    last: Option<u64>,
    graph: &Graph,
    task: u32,
    operators: &[O],
    store: &mut S,
    log: &P,
) -> Result<Start<O::Record, O::Key, O::State>, RecoveryFault>
    requires { IsLatest (S.state store.old) last }
    ensures ends { (role : Role) → slice_get graph.now.tasks task ≡ Some role → EndsTask
        ⟦<O as Rules>⟧.all graph.now operators.now (P.records log.now) (S.state store.old) last task
        role result }
    ensures same { S.state store.new ≡ S.state store.old }
    ensures counted { result ≡ Err RecoveryFault.Fault
        → S.fault_count store.old < S.fault_count store.new }
    ensures told { result ≢ Err RecoveryFault.Fault
        → S.fault_count store.new ≡ S.fault_count store.old }
{
    let Some(role) = graph.role(task) else {
        return Err(RecoveryFault::MissingPart);
    };
    let Some(number) = last else {
        return Ok(first_start(alloc, role));
    };
    let part = read_part::<O, S>(alloc, number, task, store)?;
    match start_by(graph, task, role, part, operators, log) {
        Some(start) => Ok(start),
        None => Err(RecoveryFault::Damaged(task, CodecFault::BadTag)),
    }
}

/// What each task starts from, by the last complete number.
fn starts_at<O: Operator, S: SnapshotStore, P: Partitions<Record = O::Record>>(
    alloc: Global,
    last: Option<u64>,
    graph: &Graph,
    operators: &[O],
    store: &mut S,
    log: &P,
) -> Result<Vec<Start<O::Record, O::Key, O::State>>, RecoveryFault>
    requires { IsLatest (S.state store.old) last }
    ensures ends { MatchResult result (λ starts. AreStarts ⟦<O as Rules>⟧.all graph.now
        operators.now (P.records log.now) (S.state store.old) last starts.items)
        (CannotRestore ⟦<O as Rules>⟧.all graph.now operators.now (P.records log.now)
        (S.state store.old)) }
    ensures same { S.state store.new ≡ S.state store.old }
    ensures counted { result ≡ Err RecoveryFault.Fault
        → S.fault_count store.old < S.fault_count store.new }
    ensures told { result ≢ Err RecoveryFault.Fault
        → S.fault_count store.new ≡ S.fault_count store.old }
{
    let mut starts = Vec::new(alloc);
    for task in 0..graph.tasks() {
        let start = start_at(alloc, last, graph, task, operators, store, log)?;
        starts.push(start)?;
    }
    Ok(starts)
}

/// Reads and judges all parts of the last complete checkpoint.
pub fn restore<O: Operator, S: SnapshotStore, P: Partitions<Record = O::Record>>(
    alloc: Global,
    graph: &Graph,
    operators: &[O],
    store: &mut S,
    log: &P,
) -> Result<Restored<O>, RecoveryFault>
    ensures ends { EndsRestore ⟦<O as Rules>⟧.all graph.now operators.now (P.records log.now)
        (S.state store.old) result }
    ensures same { S.state store.new ≡ S.state store.old }
    ensures counted { result ≡ Err RecoveryFault.Fault
        → S.fault_count store.old < S.fault_count store.new }
    ensures told { result ≢ Err RecoveryFault.Fault
        → S.fault_count store.new ≡ S.fault_count store.old }
{
    let number = match store.latest() {
        Ok(number) => number,
        Err(_) => return Err(RecoveryFault::Fault),
    };
    let starts = starts_at(alloc, number, graph, operators, store, log)?;
    Ok(Restored { number, starts })
}
