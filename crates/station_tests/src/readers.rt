//! What readers read of a line that adds 10.

use crate::lines::watched;
use crate::playing::{How, Played};
use crate::rows::{input_of, ten_more, text_of};
use crate::watchers::{Meeting, Watcher};
use std::alloc::Global;
use std::process::Abort;
use std::sync::Wait;
use std::test::Fail;
use std::thread::Threads;
use std::time::Clock;
use thread_runner::{OutputFault, Report, RunFault};

/// These rows were read.
fn expect_rows(
    rt: &impl Abort,
    alloc: Global,
    rows: Option<&Vec<Vec<u8>>>,
    wanted: &str,
) -> Result<(), Fail> {
    let Some(rows) = rows else {
        return Err(Fail::new("a read was refused"));
    };
    let text = text_of(alloc, rows)?;
    assert_eq!(rt; text.as_str(), wanted);
    Ok(())
}

/// Each has read all rows at the end, and no list that did not begin with the one before.
fn expect_all(
    rt: &impl Abort,
    alloc: Global,
    watchers: &[Watcher],
    wanted: &str,
) -> Result<(), Fail> {
    assert_eq!(rt; watchers.len(), 4);
    for watcher in watchers {
        assert!(rt; watcher.is_served);
        expect_rows(rt, alloc, Some(&watcher.last), wanted)?;
    }
    Ok(())
}

/// All of three rows were read, by whom ever, and nothing once the core was handed out. Of sixteen
/// readers ten were left after six.
fn expect_three(rt: &impl Abort, alloc: Global, played: &Option<Played>) -> Result<(), Fail> {
    let wanted = "a 11\nb 12\nc 13\n";
    let Some(played) = played else {
        return Err(Fail::new("no memory"));
    };
    assert_eq!(rt; played.report, Ok(Report { finished: 6 }));
    expect_all(rt, alloc, &played.watchers, wanted)?;
    expect_rows(rt, alloc, played.after.told.as_ref(), wanted)?;
    assert!(rt; played.after.was_restarted);
    expect_rows(rt, alloc, played.after.again.as_ref(), wanted)?;
    expect_rows(rt, alloc, played.after.untold.as_ref(), wanted)?;
    assert_eq!(rt; played.after.left, (10, Some(RunFault::ReadersFull)));
    assert_eq!(rt; played.closed, Some(OutputFault::Closed));
    Ok(())
}

/// A reader that was told of three rows reads them in another thread, and again once the job has
/// failed and was restarted, as one does that was told nothing. The station has sixteen readers,
/// and no read follows its end.
#[test]
fn readers_read_what_was_committed_across_a_failure(rt: HostRuntime) -> Result<(), Fail> {
    let rows = "{\"k\":\"a\",\"v\":1}\n{\"k\":\"b\",\"v\":2}\n{\"k\":\"c\",\"v\":3}\n";
    let how = How {
        workers: 1,
        every: 0,
    };
    let played = watched(&rt, rt.alloc(), rows, how, Meeting::new(3, u64::MAX))?;
    expect_three(&rt, rt.alloc(), &played)
}

/// How many rows there are where many are read.
const MANY: u64 = 10_000;

/// So many of their jobs are not held back. A task takes no more than 256 records in one, so most
/// rows are worked later.
const FREE_JOBS: u64 = 30;

/// All rows were read, and each reader beside the run has read some before all were there.
fn expect_many(rt: &impl Abort, alloc: Global, played: &Option<Played>) -> Result<(), Fail> {
    let wanted = ten_more(alloc, MANY)?;
    let Some(played) = played else {
        return Err(Fail::new("no memory"));
    };
    assert_eq!(rt; played.report, Ok(Report { finished: 20_000 }));
    assert!(rt; played.watchers.iter().all(|watcher| watcher.was_between));
    expect_all(rt, alloc, &played.watchers, &wanted)?;
    expect_rows(rt, alloc, played.after.told.as_ref(), &wanted)
}

/// Runs the line over many rows, by four workers, with a checkpoint every ten records. Later jobs
/// are held back until each reader has read some rows.
fn watched_many<R: Threads + Wait + Clock + Sync>(
    rt: &R,
    alloc: Global,
) -> Result<Option<Played>, Fail> {
    let rows = input_of(alloc, MANY)?;
    let how = How {
        workers: 4,
        every: 10,
    };
    watched(
        rt,
        alloc,
        &rows,
        how,
        Meeting::new(MANY as usize, FREE_JOBS),
    )
}

#[test]
fn each_list_begins_with_the_one_before(rt: HostRuntime) -> Result<(), Fail> {
    let played = watched_many(&rt, rt.alloc())?;
    expect_many(&rt, rt.alloc(), &played)
}
