//! The partitions of a script as a log.

ghost use Rattle.std.specs.Prelude.{◌≡◌, length, map, OnOk, IfOk};
ghost use Rattle.source_log.specs.Partitions.{appended_all};

use crate::refusal::Refusal;
use operators::Row;
use script_file::FittingRow;
use source_log::{MemoryLog, Partitions, SourceFault};
use std::alloc::Global;

/// Puts the rows last in the partition.
#[tactic(auto, using(crate::proofs::Rows::with_row, crate::proofs::Rows::with_no_rows))]
fn append_rows(
    log: &mut MemoryLog<Row>,
    partition: u32,
    rows: Vec<FittingRow>,
) -> Result<(), SourceFault>
    ensures { OnOk result (⟦<MemoryLog<Row> as Partitions>⟧.records log.new
        ≡ appended_all (⟦<MemoryLog<Row> as Partitions>⟧.records log.old) partition rows.items) }
{
    for row in rows {
        log.append(partition, row.into_row())?;
    }
    Ok(())
}

/// A log with these rows in its partitions, of which there are so many.
pub(crate) fn rows_log(
    alloc: Global,
    count: u32,
    partitions: Vec<Vec<FittingRow>>,
) -> Result<MemoryLog<Row>, Refusal>
    requires { length partitions.items ≡ count }
    ensures count { IfOk result (λ log. length
        (⟦<MemoryLog<Row> as Partitions>⟧.records log) ≡ count) }
    ensures rows { IfOk result (λ log. ⟦<MemoryLog<Row> as Partitions>⟧.records log
        ≡ map (λ rows. rows.items) partitions.items) }
{
    let mut log = MemoryLog::new(alloc, count)?;
    for (partition, rows) in (0..count).zip(partitions) {
        append_rows(&mut log, partition, rows)?;
    }
    Ok(log)
}
