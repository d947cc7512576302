//! The rows of an input.

ghost use Rattle.std.specs.Prelude.{◌≡◌, [], false, length, Ok, OnOk, OnErr, IfOk, IfSome};
ghost use Rattle.abs_codec.specs.Spelling.{Fits};
ghost use Rattle.operators.specs.RowSpelling.{RowIsSpelled, row_spelling};
ghost use Rattle.script_file.specs.Faults.{FindsItem};
ghost use Rattle.script_file.specs.Rows.{row_with};
ghost use Rattle.job_input.specs.Lines.{is_blank, row_of_line, PutsLine, PutsRows, PutsText};
ghost use Rattle.std.specs.Io.BufRead.{take_through, DropsThrough};

use crate::fault::LineFault;
use crate::line::next_line;
use crate::plain::plain_row;
use abs_codec::Text;
use json_members::json_of;
use operators::{Row, RowKey};
use script_file::{FittingRow, ItemFault, read_row};
use source_log::{MemoryLog, Partitions};
use std::alloc::Global;
use std::io::BufRead;

/// Whether a line is skipped: nothing but spaces, tabs and ends of lines.
pub(crate) fn is_blank(line: &[u8]) -> bool
    ensures { result ≡ is_blank line.now }
{
    line.iter()
        .all(|byte| matches!(*byte, b' ' | b'\t' | b'\r' | b'\n'))
}

/// The row of a key that is short enough.
#[inline(always)]
fn row_with(alloc: Global, key: &str, v: i64) -> Result<Row, ItemFault>
    ensures row { FindsItem (λ r. r) result (row_with key.now v) }
    ensures fits { IfOk result (Fits RowIsSpelled row_spelling) }
{
    let key = RowKey::new(Text::from_str(alloc, key)?).ok_or(ItemFault::Bad)?;
    Ok(Row { k: key.text, v })
}

/// The row of the JSON value of a line.
#[tactic(auto, unfolding(crate::specs::Lines::row_of_line))]
fn row_of_json(alloc: Global, line: &[u8]) -> Result<FittingRow, ItemFault>
    ensures { FindsItem (λ r. r) result (row_of_line line.now) }
{
    let value = json_of(alloc, line)?.ok_or(ItemFault::Bad)?;
    read_row(alloc, &value)
}

/// The row that the JSON text of a line is. A line in the form that rows are printed in is read
/// with no JSON value between.
#[inline(always)]
pub fn row_of_line(alloc: Global, line: &[u8]) -> Result<Row, ItemFault>
    ensures row { FindsItem (λ r. r) result (row_of_line line.now) }
    ensures fits { IfOk result (Fits RowIsSpelled row_spelling) }
{
    if let Some((key, v)) = plain_row(line) {
        return row_with(alloc, key, v);
    }
    Ok(row_of_json(alloc, line)?.into_row())
}

/// Puts the row of a line last in the partition. A blank line has none.
pub fn put_line(
    alloc: Global,
    log: &mut MemoryLog<Row>,
    partition: u32,
    line: &[u8],
) -> Result<(), LineFault>
    ensures ok { OnOk result (PutsLine partition line.now
        (⟦<MemoryLog<Row> as Partitions>⟧.records log.old)
        (⟦<MemoryLog<Row> as Partitions>⟧.records log.new)) }
    ensures err { OnErr result (⟦<MemoryLog<Row> as Partitions>⟧.records log.new
        ≡ ⟦<MemoryLog<Row> as Partitions>⟧.records log.old) }
{
    if is_blank(line) {
        return Ok(());
    }
    let row = row_of_line(alloc, line)?;
    log.append(partition, row)?;
    Ok(())
}

/// Puts the row of the file's next line last in the partition. False: the file has no more.
#[tactic(auto, using(crate::proofs::Putting::puts_none, crate::proofs::Putting::puts_line))]
fn take_line<R: BufRead>(
    alloc: Global,
    log: &mut MemoryLog<Row>,
    partition: u32,
    file: &mut R,
    line: &mut Vec<u8>,
) -> Result<bool, LineFault>
    ensures puts { PutsRows partition (⟦<MemoryLog<Row> as Partitions>⟧.records log.old)
        (⟦<MemoryLog<Row> as Partitions>⟧.records log.new) }
    ensures line { OnOk result (IfSome (R.remaining file.old)
        (λ bytes. PutsLine partition (take_through 10 bytes)
        (⟦<MemoryLog<Row> as Partitions>⟧.records log.old)
        (⟦<MemoryLog<Row> as Partitions>⟧.records log.new))) }
    ensures rest { OnOk result (DropsThrough (R.remaining file.old) (R.remaining file.new) 10) }
    ensures end { result ≡ Ok false → IfSome (R.remaining file.old) (λ bytes. bytes ≡ []) }
{
    let more = next_line(file, line)?;
    put_line(alloc, log, partition, line)?;
    Ok(more)
}

/// Puts the rows of the file last in the partition, or answers the number of the line that is not
/// taken, from 1, and why.
#[tactic(auto, using(crate::proofs::Putting::puts_none, crate::proofs::Putting::puts_more))]
pub fn read_rows<R: BufRead>(
    alloc: Global,
    log: &mut MemoryLog<Row>,
    partition: u32,
    file: &mut R,
    line: &mut Vec<u8>,
) -> Result<(), (u64, LineFault)>
    ensures puts { PutsRows partition (⟦<MemoryLog<Row> as Partitions>⟧.records log.old)
        (⟦<MemoryLog<Row> as Partitions>⟧.records log.new) }
    // Where the reader's bytes are known, these are the rows of their lines, each in its turn.
    ensures text { OnOk result (IfSome (R.remaining file.old)
        (λ bytes. PutsText partition bytes (⟦<MemoryLog<Row> as Partitions>⟧.records log.old)
        (⟦<MemoryLog<Row> as Partitions>⟧.records log.new))) }
{
    for number in 1..u64::MAX {
        match take_line(alloc, log, partition, file, line) {
            Ok(true) => {}
            Ok(false) => return Ok(()),
            Err(fault) => return Err((number, fault)),
        }
    }
    Err((u64::MAX, LineFault::Unreadable))
}
