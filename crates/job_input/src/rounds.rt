//! The rows of an input, read by several threads.

ghost use Rattle.std.specs.Prelude.{◌≡◌, ◌≤◌, ◌++◌, ℕ, List, [], false, is_none, length, take, drop, All, Ok, OnOk, OnSome, IfOk, IfSome};
ghost use Rattle.std.specs.Io.{IsEmptyOrEndsWith};
ghost use Rattle.std.specs.Io.KnownBytes.{IsAtEnd, Keeps, prepend_known};
ghost use Rattle.std.specs.Thread.{IsSync};
ghost use Rattle.abs_codec.specs.Spelling.{Fits};
ghost use Rattle.operators.specs.RowSpelling.{RowIsSpelled, row_spelling};
ghost use Rattle.line_parts.specs.Lines.{in_runs, ReadsLines};
ghost use Rattle.job_input.specs.Lines.{HasRow, PutsFront, PutsRows, PutsText};
ghost use Rattle.source_log.specs.Partitions.{appended_all};

use crate::fault::LineFault;
use crate::input::line_fault;
use crate::line::is_too_long;
use crate::rows::{is_blank, read_rows, row_of_line};
use line_parts::{LineBuffer, LineReader, Part, fill, read_lines};
use operators::Row;
use source_log::{MemoryLog, Partitions};
use std::alloc::Global;
use std::io::BufRead;
use std::mem::replace;
use std::thread::{Threads, join_mut};

/// So many bytes of a file are read before their lines are, and no more than a line and a buffer
/// beside them. While their lines are read, the next round is, and the rows of the round before are
/// put.
const ROUND: usize = 1_048_576;

/// Rows that are still to be put, and the number of the line behind theirs.
#[derive(Drop)]
struct Pending {
    runs: Vec<Vec<Row>>,
    next: u64,
}

/// What reads the row of a line.
#[derive(Clone, Copy)]
struct RowReader {
    alloc: Global,
}

impl LineReader for RowReader {
    type Item = Row;

    type Fault = LineFault;

    ghost HasItem = { λ _. HasRow };

    fn read(&self, line: &[u8]) -> Result<Option<Row>, LineFault> {
        if is_too_long(line) {
            return Err(LineFault::BadRow);
        }
        if is_blank(line) {
            return Ok(None);
        }
        Ok(Some(row_of_line(self.alloc, line)?))
    }
}

/// Reads a round of the file behind the text. False: the file has no more.
fn next_round<F: BufRead>(file: &mut F, text: &mut Vec<u8>) -> Result<bool, LineFault>
    ensures bytes { OnOk result (Keeps (prepend_known text.old.items (F.remaining file.old))
        (prepend_known text.new.items (F.remaining file.new))) }
    ensures end { result ≡ Ok false
        → OnSome (F.remaining file.old) (IsAtEnd (F.remaining file.new)) }
{
    match fill(file, text, ROUND) {
        Ok(more) => Ok(more),
        Err(error) => Err(line_fault(&error)),
    }
}

/// Puts the rows of these runs last in the partition, one run behind another.
fn append_runs(
    log: &mut MemoryLog<Row>,
    partition: u32,
    runs: Vec<Vec<Row>>,
) -> Result<(), LineFault>
    requires { All (Fits RowIsSpelled row_spelling) (in_runs runs.items) }
    ensures puts { PutsRows partition (⟦<MemoryLog<Row> as Partitions>⟧.records log.old)
        (⟦<MemoryLog<Row> as Partitions>⟧.records log.new) }
    ensures rows { OnOk result (⟦<MemoryLog<Row> as Partitions>⟧.records log.new
        ≡ appended_all (⟦<MemoryLog<Row> as Partitions>⟧.records log.old) partition
        (in_runs runs.items)) }
{
    for run in runs {
        log.append_all(partition, run)?;
    }
    Ok(())
}

/// Puts the rows that are still to be put last in the partition, or answers their line's number,
/// and why. None are left to be put.
fn put_pending(
    alloc: Global,
    log: &mut MemoryLog<Row>,
    partition: u32,
    pending: &mut Pending,
) -> Result<(), (u64, LineFault)>
    requires { All (Fits RowIsSpelled row_spelling) (in_runs pending.old.runs.items) }
    ensures puts { PutsRows partition (⟦<MemoryLog<Row> as Partitions>⟧.records log.old)
        (⟦<MemoryLog<Row> as Partitions>⟧.records log.new) }
    ensures rows { OnOk result (⟦<MemoryLog<Row> as Partitions>⟧.records log.new
        ≡ appended_all (⟦<MemoryLog<Row> as Partitions>⟧.records log.old) partition
        (in_runs pending.old.runs.items)) }
    ensures none { pending.new.runs.items ≡ [] }
{
    let runs = replace(&mut pending.runs, Vec::new(alloc));
    if let Err(fault) = append_runs(log, partition, runs) {
        return Err((pending.next, fault));
    }
    Ok(())
}

/// The rows of a text's lines, read by so many threads at most, this one included.
fn rows_of_lines<R: Threads + Sync>(
    rt: &R,
    alloc: Global,
    text: &[u8],
    threads: usize,
) -> Part<Row, LineFault>
    ensures { ReadsLines HasRow text.now result.lines (in_runs result.runs.items)
        (is_none result.fault) }
{
    read_lines(rt, alloc, &RowReader { alloc }, text, threads)
}

/// Reads the rows of a text's lines by so many threads, this one included, while another puts the
/// rows of these runs last in the partition.
fn read_beside<R: Threads + Sync>(
    rt: &R,
    alloc: Global,
    log: &mut MemoryLog<Row>,
    partition: u32,
    mut runs: Vec<Vec<Row>>,
    text: &[u8],
    threads: usize,
) -> (Result<(), LineFault>, Part<Row, LineFault>)
    requires { All (Fits RowIsSpelled row_spelling) (in_runs runs.items) }
    ensures puts { PutsRows partition (⟦<MemoryLog<Row> as Partitions>⟧.records log.old)
        (⟦<MemoryLog<Row> as Partitions>⟧.records log.new) }
    ensures rows { OnOk result.0 (⟦<MemoryLog<Row> as Partitions>⟧.records log.new
        ≡ appended_all (⟦<MemoryLog<Row> as Partitions>⟧.records log.old) partition
        (in_runs runs.items)) }
    ensures reads { ReadsLines HasRow text.now result.1.lines (in_runs result.1.runs.items)
        (is_none result.1.fault) }
{
    if runs.is_empty() {
        return (Ok(()), rows_of_lines(rt, alloc, text, threads));
    }
    let mut put = || -> Result<(), LineFault>
        requires { All (Fits RowIsSpelled row_spelling) (in_runs runs.items) }
        ensures puts { PutsRows partition log.entry.now.rows log.exit.now.rows }
        ensures rows { OnOk result (log.exit.now.rows
            ≡ appended_all log.entry.now.rows partition (in_runs runs.entry.items)) }
    { append_runs(log, partition, replace(&mut runs, Vec::new(alloc))) };
    let mut read = move || -> Part<Row, LineFault>
        requires { IsSync R.row }
        ensures { ReadsLines HasRow text.entry.now result.lines (in_runs result.runs.items)
            (is_none result.fault) }
    { rows_of_lines(rt, alloc, text, threads) };
    join_mut(rt, &mut put, &mut read)
}

/// Reads the rows of the lines that were taken, which are still to be put then, as the answer has
/// them. Those that were still to be put are put last in the partition meanwhile. Or answers the
/// number of the line that is not taken, from 1, and why.
fn put_taken<R: Threads + Sync>(
    rt: &R,
    alloc: Global,
    log: &mut MemoryLog<Row>,
    partition: u32,
    pending: Pending,
    taken: &[u8],
    threads: usize,
) -> (Pending, Result<(), (u64, LineFault)>)
    requires { All (Fits RowIsSpelled row_spelling) (in_runs pending.runs.items) }
    ensures puts { PutsRows partition (⟦<MemoryLog<Row> as Partitions>⟧.records log.old)
        (⟦<MemoryLog<Row> as Partitions>⟧.records log.new) }
    ensures fits { All (Fits RowIsSpelled row_spelling) (in_runs result.0.runs.items) }
    ensures text { OnOk result.1 (PutsText partition taken.now
        (appended_all log.old.rows partition (in_runs pending.runs.items))
        (appended_all log.new.rows partition (in_runs result.0.runs.items))) }
{
    let Pending { runs, next } = pending;
    let (put, part) = read_beside(rt, alloc, log, partition, runs, taken, threads);
    let Part { runs, lines, fault } = part;
    if let Err(fault) = put {
        return (Pending { runs, next }, Err((next, fault)));
    }
    let next = next.saturating_add(lines);
    let read = match fault {
        Some(fault) => Err((next, LineFault::from(fault))),
        None => Ok(()),
    };
    (Pending { runs, next }, read)
}

/// What is still to be put, of which none is left then.
fn take_pending(alloc: Global, pending: &mut Pending) -> Pending
    ensures { result.runs.items ≡ pending.old.runs.items }
{
    Pending {
        runs: replace(&mut pending.runs, Vec::new(alloc)),
        next: pending.next,
    }
}

/// Takes so many bytes from the front of the buffer, which begins with the line of this number.
fn take_front(buffer: &mut LineBuffer, count: usize, next: u64) -> Result<(), (u64, LineFault)>
    requires { count ≤ length buffer.old.text.items }
    ensures taken { OnOk result (buffer.new.taken.items ≡ take count buffer.old.text.items) }
    ensures text { OnOk result (buffer.new.text.items ≡ drop count buffer.old.text.items) }
{
    match buffer.take_front(count) {
        Ok(()) => Ok(()),
        Err(_) => Err((next, LineFault::Memory)),
    }
}

/// Takes so many bytes from the front of the buffer, and reads the rows of their lines as
/// [`put_taken`] does.
fn put_lines<R: Threads + Sync>(
    rt: &R,
    alloc: Global,
    log: &mut MemoryLog<Row>,
    partition: u32,
    pending: &mut Pending,
    buffer: &mut LineBuffer,
    count: usize,
    threads: usize,
) -> Result<(), (u64, LineFault)>
    requires count { count ≤ length buffer.old.text.items }
    requires fits { All (Fits RowIsSpelled row_spelling) (in_runs pending.old.runs.items) }
    ensures puts { PutsRows partition (⟦<MemoryLog<Row> as Partitions>⟧.records log.old)
        (⟦<MemoryLog<Row> as Partitions>⟧.records log.new) }
    ensures fits { All (Fits RowIsSpelled row_spelling) (in_runs pending.new.runs.items) }
    ensures text { OnOk result (PutsText partition (take count buffer.old.text.items)
        (appended_all log.old.rows partition (in_runs pending.old.runs.items))
        (appended_all log.new.rows partition (in_runs pending.new.runs.items))) }
    ensures rest { OnOk result (buffer.new.text.items ≡ drop count buffer.old.text.items) }
{
    take_front(buffer, count, pending.next)?;
    let before = take_pending(alloc, pending);
    let (after, put) = put_taken(rt, alloc, log, partition, before, &buffer.taken, threads);
    *pending = after;
    put
}

/// Takes the lines that are in the buffer with their ends, as [`put_lines`] does.
fn put_whole_lines<R: Threads + Sync>(
    rt: &R,
    alloc: Global,
    log: &mut MemoryLog<Row>,
    partition: u32,
    pending: &mut Pending,
    buffer: &mut LineBuffer,
    threads: usize,
) -> Result<(), (u64, LineFault)>
    requires { All (Fits RowIsSpelled row_spelling) (in_runs pending.old.runs.items) }
    ensures puts { PutsRows partition (⟦<MemoryLog<Row> as Partitions>⟧.records log.old)
        (⟦<MemoryLog<Row> as Partitions>⟧.records log.new) }
    ensures fits { All (Fits RowIsSpelled row_spelling) (in_runs pending.new.runs.items) }
    ensures text { OnOk result ((text : List ℕ)
        × (buffer.old.text.items ≡ text ++ buffer.new.text.items) × IsEmptyOrEndsWith text 10
        × PutsText partition text
        (appended_all log.old.rows partition (in_runs pending.old.runs.items))
        (appended_all log.new.rows partition (in_runs pending.new.runs.items))) }
{
    let count = buffer.whole_len();
    put_lines(rt, alloc, log, partition, pending, buffer, count, threads)?;
    if is_too_long(&buffer.text) {
        return Err((pending.next, LineFault::BadRow));
    }
    Ok(())
}

/// Reads the rows of the lines that were taken as [`put_taken`] does, while another thread reads
/// the next round of the file behind the text. Answers what came of both. No thread is begun where
/// nothing was taken.
fn put_and_fill<F: BufRead + Send, R: Threads + Sync>(
    rt: &R,
    alloc: Global,
    log: &mut MemoryLog<Row>,
    partition: u32,
    pending: Pending,
    taken: &[u8],
    file: &mut F,
    text: &mut Vec<u8>,
    threads: usize,
) -> (
    Result<bool, LineFault>,
    (Pending, Result<(), (u64, LineFault)>),
)
    requires { All (Fits RowIsSpelled row_spelling) (in_runs pending.runs.items) }
    ensures puts { PutsRows partition (⟦<MemoryLog<Row> as Partitions>⟧.records log.old)
        (⟦<MemoryLog<Row> as Partitions>⟧.records log.new) }
    ensures fits { All (Fits RowIsSpelled row_spelling) (in_runs result.1.0.runs.items) }
    ensures lines { OnOk result.1.1 (PutsText partition taken.now
        (appended_all log.old.rows partition (in_runs pending.runs.items))
        (appended_all log.new.rows partition (in_runs result.1.0.runs.items))) }
    ensures bytes { OnOk result.0 (Keeps (prepend_known text.old.items (F.remaining file.old))
        (prepend_known text.new.items (F.remaining file.new))) }
    ensures end { result.0 ≡ Ok false
        → OnSome (F.remaining file.old) (IsAtEnd (F.remaining file.new)) }
{
    if taken.is_empty() {
        let filled = next_round(file, text);
        let put = put_taken(rt, alloc, log, partition, pending, taken, threads);
        return (filled, put);
    }
    let Pending { mut runs, next } = pending;
    let mut read_on = || -> Result<bool, LineFault>
        ensures bytes { OnOk result
            (Keeps (prepend_known text.entry.now.items (F.remaining file.entry.now))
            (prepend_known text.exit.now.items (F.remaining file.exit.now))) }
        ensures end { result ≡ Ok false → OnSome (F.remaining file.entry.now)
            (IsAtEnd (F.remaining file.exit.now)) }
    { next_round(file, text) };
    let mut put = || -> (Pending, Result<(), (u64, LineFault)>)
        requires sync { IsSync R.row }
        requires fits { All (Fits RowIsSpelled row_spelling) (in_runs runs.items) }
        ensures puts { PutsRows partition log.entry.now.rows log.exit.now.rows }
        ensures fits { All (Fits RowIsSpelled row_spelling) (in_runs result.0.runs.items) }
        ensures lines { OnOk result.1 (PutsText partition taken.entry.now
            (appended_all log.entry.now.rows partition (in_runs runs.entry.items))
            (appended_all log.exit.now.rows partition (in_runs result.0.runs.items))) }
    {
        let before = Pending {
            runs: replace(&mut runs, Vec::new(alloc)),
            next,
        };
        put_taken(rt, alloc, log, partition, before, taken, threads)
    };
    join_mut(rt, &mut read_on, &mut put)
}

/// Takes the lines that are in the buffer with their ends, as [`put_lines`] does, while the next
/// round of the file is read. Answers what came of that.
fn put_ahead<F: BufRead + Send, R: Threads + Sync>(
    rt: &R,
    alloc: Global,
    log: &mut MemoryLog<Row>,
    partition: u32,
    file: &mut F,
    pending: &mut Pending,
    buffer: &mut LineBuffer,
    threads: usize,
) -> Result<Result<bool, LineFault>, (u64, LineFault)>
    requires { All (Fits RowIsSpelled row_spelling) (in_runs pending.old.runs.items) }
    ensures puts { PutsRows partition (⟦<MemoryLog<Row> as Partitions>⟧.records log.old)
        (⟦<MemoryLog<Row> as Partitions>⟧.records log.new) }
    ensures fits { All (Fits RowIsSpelled row_spelling) (in_runs pending.new.runs.items) }
    ensures front { IfOk result (λ filled. OnOk filled (PutsFront partition
        (prepend_known buffer.old.text.items (F.remaining file.old))
        (prepend_known buffer.new.text.items (F.remaining file.new))
        (appended_all log.old.rows partition (in_runs pending.old.runs.items))
        (appended_all log.new.rows partition (in_runs pending.new.runs.items)))) }
    ensures end { result ≡ Ok (Ok false)
        → OnSome (F.remaining file.old) (IsAtEnd (F.remaining file.new)) }
{
    take_front(buffer, buffer.whole_len(), pending.next)?;
    let has_long = is_too_long(&buffer.text);
    let before = take_pending(alloc, pending);
    let LineBuffer { text, taken } = buffer;
    let (filled, (after, put)) = put_and_fill(
        rt, alloc, log, partition, before, taken, file, text, threads,
    );
    *pending = after;
    put?;
    if has_long {
        return Err((pending.next, LineFault::BadRow));
    }
    Ok(filled)
}

/// Takes lines as [`put_ahead`] does, and those behind them where nothing more can be read. False:
/// the file has no more.
fn put_round<F: BufRead + Send, R: Threads + Sync>(
    rt: &R,
    alloc: Global,
    log: &mut MemoryLog<Row>,
    partition: u32,
    file: &mut F,
    pending: &mut Pending,
    buffer: &mut LineBuffer,
    threads: usize,
) -> Result<bool, (u64, LineFault)>
    requires { All (Fits RowIsSpelled row_spelling) (in_runs pending.old.runs.items) }
    ensures puts { PutsRows partition (⟦<MemoryLog<Row> as Partitions>⟧.records log.old)
        (⟦<MemoryLog<Row> as Partitions>⟧.records log.new) }
    ensures fits { All (Fits RowIsSpelled row_spelling) (in_runs pending.new.runs.items) }
    ensures front { OnOk result (PutsFront partition
        (prepend_known buffer.old.text.items (F.remaining file.old))
        (prepend_known buffer.new.text.items (F.remaining file.new))
        (appended_all log.old.rows partition (in_runs pending.old.runs.items))
        (appended_all log.new.rows partition (in_runs pending.new.runs.items))) }
    ensures end { result ≡ Ok false
        → OnSome (prepend_known buffer.old.text.items (F.remaining file.old))
        (IsAtEnd (prepend_known buffer.new.text.items (F.remaining file.new))) }
{
    match put_ahead(rt, alloc, log, partition, file, pending, buffer, threads)? {
        Ok(true) => Ok(true),
        Ok(false) => {
            let count = buffer.text.len();
            put_lines(rt, alloc, log, partition, pending, buffer, count, threads)?;
            Ok(false)
        }
        Err(fault) => {
            put_whole_lines(rt, alloc, log, partition, pending, buffer, threads)?;
            Err((pending.next, fault))
        }
    }
}

/// Takes the lines of the file in rounds, as [`put_lines`] does. What is still to be put at the end
/// stands before the line whose number is answered.
fn put_rounds<F: BufRead + Send, R: Threads + Sync>(
    rt: &R,
    alloc: Global,
    log: &mut MemoryLog<Row>,
    partition: u32,
    file: &mut F,
    pending: &mut Pending,
    threads: usize,
) -> Result<(), (u64, LineFault)>
    requires { All (Fits RowIsSpelled row_spelling) (in_runs pending.old.runs.items) }
    ensures puts { PutsRows partition (⟦<MemoryLog<Row> as Partitions>⟧.records log.old)
        (⟦<MemoryLog<Row> as Partitions>⟧.records log.new) }
    ensures fits { All (Fits RowIsSpelled row_spelling) (in_runs pending.new.runs.items) }
    ensures text { OnOk result (IfSome (F.remaining file.old)
        (λ bytes. PutsText partition bytes
        (appended_all log.old.rows partition (in_runs pending.old.runs.items))
        (appended_all log.new.rows partition (in_runs pending.new.runs.items)))) }
{
    let mut buffer = LineBuffer::new(alloc);
    for _ in 0..u64::MAX {
        match put_round(
            rt,
            alloc,
            log,
            partition,
            file,
            pending,
            &mut buffer,
            threads,
        ) {
            Ok(true) => {}
            Ok(false) => return Ok(()),
            Err(fault) => return Err(fault),
        }
    }
    Err((u64::MAX, LineFault::Unreadable))
}

/// Puts the rows of the file last in the partition as [`read_rows`] does, by so many threads, this
/// one included, or by four where they are two or three. One reads the file on, one puts the rows
/// of the lines before, and the others read lines.
pub fn read_rows_by<F: BufRead + Send, R: Threads + Sync>(
    rt: &R,
    alloc: Global,
    log: &mut MemoryLog<Row>,
    partition: u32,
    file: &mut F,
    threads: usize,
) -> Result<(), (u64, LineFault)>
    ensures puts { PutsRows partition (⟦<MemoryLog<Row> as Partitions>⟧.records log.old)
        (⟦<MemoryLog<Row> as Partitions>⟧.records log.new) }
    // Where the reader's bytes are known, these are the rows of their lines, each in its turn.
    ensures text { OnOk result (IfSome (F.remaining file.old)
        (λ bytes. PutsText partition bytes (⟦<MemoryLog<Row> as Partitions>⟧.records log.old)
        (⟦<MemoryLog<Row> as Partitions>⟧.records log.new))) }
{
    if threads < 2 {
        return read_rows(alloc, log, partition, file, &mut Vec::new(alloc));
    }
    let mut pending = Pending {
        runs: Vec::new(alloc),
        next: 1,
    };
    let readers = threads.saturating_sub(2).max(2);
    let read = put_rounds(rt, alloc, log, partition, file, &mut pending, readers);
    put_pending(alloc, log, partition, &mut pending)?;
    read
}
