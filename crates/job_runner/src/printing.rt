//! The committed rows are printed by the threads of the run.

ghost use Rattle.std.specs.Prelude.{OnOk};
ghost use Rattle.absflow_run.specs.Printed.{IsRecordLine};
ghost use Rattle.text_parts.specs.Lines.{WritesLines};

use absflow_run::{CommittedRows, Refusal, SinkLines, print_committed, print_head};
use std::alloc::Global;
use std::io::Write;
use std::thread::Threads;
use text_parts::write_lines;

/// Writes the first so many rows of a sink subtask, spelled by so many threads.
fn print_rows<C: CommittedRows + Sync, R: Threads + Sync, W: Write>(
    rt: &R,
    alloc: Global,
    core: &C,
    sink: u32,
    rows: u64,
    workers: u64,
    out: &mut W,
) -> Result<(), Refusal>
    ensures { OnOk result (WritesLines (IsRecordLine (C.records core.now sink)) 0 rows
        (W.contents out.old) (W.contents out.new)) }
{
    let lines = SinkLines::new(alloc, core, sink);
    write_lines(rt, alloc, &lines, rows, workers, out)?;
    Ok(())
}

/// The line `sink S rows N` of a sink subtask, then its rows.
fn print_sink<C: CommittedRows + Sync, R: Threads + Sync, W: Write>(
    rt: &R,
    alloc: Global,
    core: &C,
    sink: u32,
    workers: u64,
    out: &mut W,
) -> Result<(), Refusal> {
    let rows = core.committed_len(sink)?;
    print_head(sink, rows, out)?;
    print_rows(rt, alloc, core, sink, rows, workers, out)
}

/// Prints what [`print_committed`] prints. The rows are spelled by so many threads, this one
/// included, and written by this one.
pub(crate) fn print_by<C: CommittedRows + Sync, R: Threads + Sync, W: Write>(
    rt: &R,
    alloc: Global,
    core: &C,
    workers: u64,
    out: &mut W,
) -> Result<(), Refusal> {
    if workers < 2 {
        return print_committed(alloc, core, out);
    }
    for sink in 0..core.sinks() {
        print_sink(rt, alloc, core, sink, workers, out)?;
    }
    Ok(())
}
