//! Committed rows, handed to an output writer and shown to its readers.

ghost use Rattle.std.specs.Prelude.{◌≡◌, ◌<◌, ◌≢◌, ℕ, IfOk, IfErr, count_by, Some, slice_get};
ghost use Rattle.commit_sink.specs.Ledger.{committed_rows};
ghost use Rattle.job_graph.specs.Expanded.{is_sink};
ghost use Rattle.job_graph.specs.declared.role.Role.TheVariants as role;
ghost use Rattle.published_lists.specs.Rows.{rows_of};
ghost use Rattle.row_publishing.specs.Showing.{BeginCommitted, AreCommitted};

use commit_sink::Transactions;
use dataflow_core::{Core, Rules};
use operators::Operator;
use output_readers::{OutputFault, OutputWriter, Told};
use snapshot_store::SnapshotStore;
use source_log::Partitions;
use std::sync::Wait;

/// Shows readers all that is committed, and tells which lists these are. At `Err` memory was
/// refused, and readers see what they saw. It costs what was committed since the last time.
pub fn show_committed<
    O: Operator,
    S: SnapshotStore,
    X: Transactions,
    P: Partitions<Record = O::Record>,
    R: Wait + Drop,
>(core: &Core<O, S, X, P>, writer: &mut OutputWriter<R>) -> Result<Told, OutputFault>
    requires { BeginCommitted writer.old.appended core.now.engine }
    ensures begin { BeginCommitted writer.new.appended core.now.engine }
    ensures all { IfOk result (λ told. AreCommitted writer.new.published core.now.engine
        × (told.history ≡ writer.new.history) × (told.lists ≡ writer.new.published)) }
    ensures err { IfErr result (λ fault. (fault ≡ OutputFault.Memory)
        × (writer.new.published ≡ writer.old.published)) }
    ensures history { writer.new.history ≡ writer.old.history }
    ensures readers { writer.new.readers ≡ writer.old.readers }
{
    hand_in(core, writer)?;
    writer.publish()
}

/// Hands in what the sinks have committed since the last time. At `Err` memory was refused, and a
/// beginning of it was handed in.
fn hand_in<
    O: Operator,
    S: SnapshotStore,
    X: Transactions,
    P: Partitions<Record = O::Record>,
    R: Wait + Drop,
>(core: &Core<O, S, X, P>, writer: &mut OutputWriter<R>) -> Result<(), OutputFault>
    requires { BeginCommitted writer.old.appended core.now.engine }
    ensures all { IfOk result (λ _. AreCommitted writer.new.appended core.now.engine) }
    ensures begin { BeginCommitted writer.new.appended core.now.engine }
    ensures published { writer.new.published ≡ writer.old.published }
    ensures same { (writer.new.history ≡ writer.old.history)
        × (writer.new.readers ≡ writer.old.readers) }
    ensures memory { IfErr result (λ f. f ≡ OutputFault.Memory) }
{
    core.is_fresh();
    for sink in 0..core.sinks() {
        hand_in_of(core, writer, sink)?;
    }
    Ok(())
}

/// Hands in what this sink subtask has committed since the last time.
fn hand_in_of<
    O: Operator,
    S: SnapshotStore,
    X: Transactions,
    P: Partitions<Record = O::Record>,
    R: Wait + Drop,
>(core: &Core<O, S, X, P>, writer: &mut OutputWriter<R>, sink: u32) -> Result<(), OutputFault>
    requires sink { sink < count_by is_sink core.now.engine.graph.tasks }
    requires begin { BeginCommitted writer.old.appended core.now.engine }
    ensures all { IfOk result (λ _. (task : ℕ) → slice_get core.now.engine.graph.tasks task
        ≡ Some (role.Sink sink)
        → rows_of writer.new.appended sink ≡ committed_rows core.now.engine.ledger sink) }
    ensures others { (s : ℕ) → s ≢ sink
        → rows_of writer.new.appended s ≡ rows_of writer.old.appended s }
    ensures begin { BeginCommitted writer.new.appended core.now.engine }
    ensures published { writer.new.published ≡ writer.old.published }
    ensures same { (writer.new.history ≡ writer.old.history)
        × (writer.new.readers ≡ writer.old.readers) }
    ensures memory { IfErr result (λ f. f ≡ OutputFault.Memory) }
{
    let Ok(committed) = core.committed_len(sink) else {
        return Err(OutputFault::Memory);
    };
    let subtask = sink as usize;
    for number in writer.appended(subtask) as u64..committed {
        let Ok(Some(row)) = core.committed(sink, number) else {
            return Err(OutputFault::Memory);
        };
        writer.append(subtask, row)?;
    }
    Ok(())
}
