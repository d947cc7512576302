//! What publishing costs. The words are how many writers there are, and how often each publishes
//! 100 rows; the writers work one after the other, and all are kept. Standard output says how many
//! rows are read afterwards, and is the same each time; the microseconds go to standard error.
//! `tests/bench_readers.sh` compares 10 writers that publish 100 times with one that publishes
//! 1,000 times: as many rows and as much memory.
#![tactic(auto)]

use output_readers::{OutputFault, OutputWriter};
use std::alloc::{AllocError, Global};
use std::sync::Wait;
use std::time::{Clock, Instant};
use std::{env, io};

/// How many rows are handed in for each publish.
const ROWS: u64 = 100;

/// Hands in the rows of one publish.
fn hand_in<R: Wait + Drop>(alloc: Global, writer: &mut OutputWriter<R>) -> Result<(), OutputFault> {
    for _ in 0..ROWS {
        if writer.subtasks() == 0 {
            return Err(OutputFault::Closed);
        }
        let row = Vec::from_slice(alloc, b"{\"k\":\"a\",\"v\":11}".as_slice())?;
        writer.append(0, row)?;
    }
    Ok(())
}

/// Publishes so often.
fn publish_all<R: Wait + Drop>(
    alloc: Global,
    writer: &mut OutputWriter<R>,
    publishes: u64,
) -> Result<(), OutputFault> {
    for _ in 0..publishes {
        hand_in(alloc, writer)?;
        drop(writer.publish()?);
    }
    Ok(())
}

/// The microseconds of so many publishes.
fn timed<R: Wait + Clock, W: Wait + Drop>(
    rt: &R,
    alloc: Global,
    writer: &mut OutputWriter<W>,
    publishes: u64,
) -> Option<u64> {
    let start = Instant::now(rt).ok()?;
    publish_all(alloc, writer, publishes).ok()?;
    let taken = start.elapsed(rt).ok()?;
    u64::try_from(taken.as_micros()).ok()
}

/// How many rows a reader reads.
fn rows_read<W: Wait + Drop>(writer: &mut OutputWriter<W>) -> Option<usize> {
    let rows = writer.reader().ok()?.read(0).ok()?;
    Some(rows.len())
}

/// The microseconds of so many publishes by each of so many new writers, in all, and how many rows
/// are read afterwards.
fn measure<R: Wait + Clock>(
    rt: &R,
    alloc: Global,
    writers: u64,
    publishes: u64,
) -> Option<(u64, usize)> {
    let mut all = Vec::new(alloc);
    let mut taken: u64 = 0;
    let mut rows: usize = 0;
    for _ in 0..writers {
        let mut writer = OutputWriter::new(rt, alloc, 1).ok()?;
        taken = taken.saturating_add(timed(rt, alloc, &mut writer, publishes)?);
        rows = rows.saturating_add(rows_read(&mut writer)?);
        all.push(writer).ok()?;
    }
    Some((taken, rows))
}

/// The number that a word is, or 1.
fn number(word: Option<String>) -> u64 {
    word.and_then(|word| word.as_str().parse().ok())
        .unwrap_or(1)
}

fn main(rt: HostRuntime) -> io::Result<()> {
    let mut words = env::args(&rt)?;
    words.next();
    let (writers, publishes) = (number(words.next()), number(words.next()));
    let (taken, rows) = measure(&rt, rt.alloc(), writers, publishes).ok_or(AllocError)?;
    println!(rt; "{writers} writers, {publishes} publishes each: {rows} rows are read")?;
    eprintln!(rt; "{taken}")?;
    Ok(())
}
