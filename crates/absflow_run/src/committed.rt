//! The committed rows, as the program prints them.

ghost use Rattle.std.specs.Prelude.{◌≡◌, ℕ, List, IfOk, OnOk, length};
ghost use Rattle.commit_sink.specs.Ledger.{committed_rows};
ghost use Rattle.commit_sink.specs.Runs.{IsRunFrom};
ghost use Rattle.text_parts.specs.Lines.{WritesLines};
ghost use Rattle.absflow_run.specs.Printed.{IsRecordLine};

use crate::refusal::Refusal;
use crate::sink_lines::SinkLines;
use abs_codec::Bytes;
use commit_sink::Transactions;
use dataflow_core::{Core, CoreFault};
use operators::Operator;
use snapshot_store::SnapshotStore;
use source_log::Partitions;
use std::alloc::Global;
use std::io::Write;
use text_parts::Lines;

/// So many lines at most are spelled before they are written.
const LINES: u64 = 1_024;

/// What a core tells of the rows that are committed.
pub trait CommittedRows {
    /// The records that a sink subtask has committed, in order.
    ghost records: { Self → ℕ → List (List ℕ) };

    /// How many sink subtasks there are.
    fn sinks(&self) -> u32;

    /// How many records a sink subtask has committed.
    fn committed_len(&self, sink: u32) -> Result<u64, CoreFault>
        ensures { IfOk result (λ len. len ≡ length (records self.now sink)) };

    /// The records from this one on, as many as stand together: one at least, where there is one.
    fn committed_from(&self, sink: u32, number: u64) -> Result<&[Bytes], CoreFault>
        ensures { IfOk result (λ run. IsRunFrom (records self.now sink) number run.now) };
}

impl<
    O: Operator,
    S: SnapshotStore,
    X: Transactions,
    P: Partitions<Record = O::Record>,
> CommittedRows for Core<O, S, X, P> {
    ghost records = { λ core sink. committed_rows core.engine.ledger sink };

    fn sinks(&self) -> u32 {
        self.sinks()
    }

    fn committed_len(&self, sink: u32) -> Result<u64, CoreFault> {
        self.committed_len(sink)
    }

    fn committed_from(&self, sink: u32, number: u64) -> Result<&[Bytes], CoreFault> {
        self.committed_from(sink, number)
    }
}

/// Writes the line `sink S rows N`.
pub fn print_head<W: Write>(sink: u32, rows: u64, out: &mut W) -> Result<(), Refusal> {
    writeln!(out, "sink {sink} rows {rows}").map_err(|_| Refusal::Output)
}

/// Writes the first so many lines, one after the other.
fn print_lines<C: CommittedRows, W: Write>(
    alloc: Global,
    lines: &SinkLines<'_, C>,
    rows: u64,
    out: &mut W,
) -> Result<(), Refusal>
    ensures { OnOk result (WritesLines (IsRecordLine
        (C.records lines.now.core.now lines.now.sink)) 0 rows
        (W.contents out.old) (W.contents out.new)) }
{
    let mut text = Vec::new(alloc);
    let mut done = 0;
    while done < rows {
        text.clear();
        let put = lines.put_lines(done, LINES.min(rows - done), &mut text);
        out.write_all(&text).map_err(|_| Refusal::Output)?;
        done += put?;
    }
    Ok(())
}

fn print_sink<C: CommittedRows, W: Write>(
    alloc: Global,
    core: &C,
    sink: u32,
    out: &mut W,
) -> Result<(), Refusal> {
    let rows = core.committed_len(sink)?;
    print_head(sink, rows, out)?;
    print_lines(alloc, &SinkLines::new(alloc, core, sink), rows, out)
}

/// For each sink subtask in order the line `sink S rows N`, then the rows.
pub fn print_committed<C: CommittedRows, W: Write>(
    alloc: Global,
    core: &C,
    out: &mut W,
) -> Result<(), Refusal> {
    for sink in 0..core.sinks() {
        print_sink(alloc, core, sink, out)?;
    }
    Ok(())
}
