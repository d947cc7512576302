ghost use Rattle.std.specs.Prelude.{◌≡◌};

use output_readers::{OutputFault, OutputReader, OutputWriter, Told};
use std::alloc::{AllocError, Global};
use std::sync::Wait;
use std::test::*;
use std::thread;
use std::thread::{Threads, join};

// Hands in a row of this byte, and publishes it. It is `None` where a call is refused.
fn show<R: Wait + Drop>(alloc: Global, writer: &mut OutputWriter<R>, byte: u8) -> Option<Told> {
    if writer.subtasks() < 2 {
        return None;
    }
    let row = Vec::from_slice(alloc, &[byte]).ok()?;
    writer.append(1, row).ok()?;
    writer.publish().ok()
}

// How many rows there are in the second subtask, and the last of them.
fn look(reader: &mut OutputReader) -> Result<(usize, Option<u8>), OutputFault> {
    let rows = reader.read(1)?;
    let last = rows.last().and_then(|row| row.first());
    Ok((rows.len(), last.copied()))
}

// The same by another thread.
fn look_there<R: Threads + Wait + Sync>(
    rt: &R,
    mut reader: OutputReader,
) -> Result<(usize, Option<u8>), OutputFault> {
    join(rt, move || look(&mut reader), || ()).0
}

// A reader takes in what is published.
fn told_by<R: Wait + Drop>(
    alloc: Global,
    writer: &mut OutputWriter<R>,
    reader: &mut OutputReader,
) -> Option<()>
    requires { reader.old.history ≡ writer.old.history }
{
    if writer.subtasks() == 2 {
        writer.append(1, Vec::from_slice(alloc, &[2]).ok()?).ok()?;
    }
    reader.learn(writer.publish().ok()?);
    Some(())
}

// What a reader that is told nothing sees: before anything is published, and once two rows are.
fn seen<R: Wait + Drop>(
    alloc: Global,
    writer: &mut OutputWriter<R>,
) -> Option<(usize, usize, Option<u8>)> {
    let mut reader = writer.reader().ok()?;
    let before = look(&mut reader).ok()?.0;
    drop(show(alloc, writer, 3)?);
    drop(show(alloc, writer, 4)?);
    let (after, last) = look(&mut reader).ok()?;
    Some((before, after, last))
}

// Keeps so many tolds, and counts how often there was one.
fn kept<R: Wait + Drop>(
    alloc: Global,
    writer: &mut OutputWriter<R>,
    tolds: usize,
) -> Option<usize> {
    let mut all = Vec::new(alloc);
    for _ in 0..tolds {
        if let Ok(told) = writer.publish() {
            all.push(told).ok()?;
        }
    }
    Some(all.len())
}

// How many readers were handed out in so many calls.
fn handed_out<R: Wait + Drop>(writer: &mut OutputWriter<R>, calls: usize) -> usize {
    let mut count = 0usize;
    for _ in 0..calls {
        if writer.reader().is_ok() {
            count = count.saturating_add(1);
        }
    }
    count
}

// Looks until so many rows are there, at most so often, and says whether no list was shorter than
// the one before.
fn counts_up(mut reader: OutputReader, rows: usize, looks: u64) -> bool {
    let mut last = 0;
    for _ in 0..looks {
        let now = look(&mut reader).unwrap_or((0, None)).0;
        if now < last {
            return false;
        }
        last = now;
        if last == rows {
            return true;
        }
        thread::yield_now();
    }
    false
}

// Shows so many rows, one by one.
fn show_all<R: Wait + Drop>(alloc: Global, writer: &mut OutputWriter<R>, rows: usize) -> bool {
    for _ in 0..rows {
        if show(alloc, writer, 1).is_none() {
            return false;
        }
    }
    true
}

// What two readers found on another thread: one of a row that it was told, and one beside the
// writer.
fn seen_there<R: Threads + Wait + Sync, W: Wait + Drop + Send>(
    rt: &R,
    alloc: Global,
    writer: &mut OutputWriter<W>,
) -> Option<((usize, Option<u8>), (bool, bool))> {
    let mut first = writer.reader().ok()?;
    told_by(alloc, writer, &mut first)?;
    let told = look_there(rt, first).ok()?;
    let second = writer.reader().ok()?;
    let ends = join(
        rt,
        move || counts_up(second, 301, 10_000_000),
        || show_all(alloc, writer, 300),
    );
    Some((told, ends))
}

// How many tolds were kept, what a reader saw then, and how many readers there were left.
fn served<R: Wait + Drop>(
    alloc: Global,
    writer: &mut OutputWriter<R>,
) -> (Option<usize>, Option<(usize, usize, Option<u8>)>, usize) {
    let kept = kept(alloc, writer, 50);
    let seen = seen(alloc, writer);
    (kept, seen, handed_out(writer, 17))
}

// There are 48 places for what is told, beside 16 readers; each is free again once its owner has
// gone.
#[test]
fn places_and_readers_run_out_and_no_read_follows_the_end(rt: HostRuntime) -> Result<(), Fail> {
    let mut writer = OutputWriter::new(&rt, rt.alloc(), 2).map_err(|_| AllocError)?;
    let reader = writer.reader();
    let served = served(rt.alloc(), &mut writer);
    let refused = writer.reader().err();
    drop(writer);
    let read = reader.and_then(|mut reader| look(&mut reader));
    assert_eq!(rt; served, (Some(48), Some((0, 2, Some(4))), 14));
    assert_eq!(rt; refused, Some(OutputFault::ReadersFull));
    assert_eq!(rt; read, Err(OutputFault::Closed));
    Ok(())
}

#[test]
fn readers_read_on_another_thread(rt: HostRuntime) -> Result<(), Fail> {
    let mut writer = OutputWriter::new(&rt, rt.alloc(), 2).map_err(|_| AllocError)?;
    let seen = seen_there(&rt, rt.alloc(), &mut writer);
    drop(writer);
    assert_eq!(rt; seen, Some(((1, Some(2)), (true, true))));
    Ok(())
}
