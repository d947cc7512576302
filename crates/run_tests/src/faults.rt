//! Devices that fail leave no trace in what is committed.

use crate::jobs::{COUNT, LINE, LOOP, counts_of_ten_keys, rows, rows_of_ten_keys};
use crate::runs::{How, run_job};
use job_runner::{NoPause, Options};
use std::alloc::Global;
use std::process::Abort;
use std::sync::Wait;
use std::test::Fail;
use std::thread::Threads;
use std::time::Clock;

/// Four workers, a checkpoint every three records, and three devices each of which fails at every
/// 50th of its calls up to the 500th.
const SINGLY: How = How {
    options: Options {
        workers: 4,
        every: 3,
        turns: 100_000_000,
        batch: 1,
    },
    restarts: 100,
    faults: Some((50, 500)),
};

/// The same with claims of seven records, and so a checkpoint after each.
const BY_SEVENS: How = How {
    options: Options {
        workers: 4,
        every: 3,
        turns: 100_000_000,
        batch: 7,
    },
    restarts: 100,
    faults: Some((50, 500)),
};

/// How often a line stands in a text.
fn count_of(text: &str, wanted: &str) -> usize {
    let mut count: usize = 0;
    for line in text.lines() {
        if line == wanted {
            count = count.saturating_add(1);
        }
    }
    count
}

/// How many lines a text has.
fn lines_of(text: &str) -> usize {
    let mut count: usize = 0;
    for _ in text.lines() {
        count = count.saturating_add(1);
    }
    count
}

/// Each of these lines is printed once, and no other but one for each sink subtask. No line here
/// stands twice.
fn expect_lines(rt: &impl Abort, printed: &str, wanted: &str, sinks: usize) {
    for line in wanted.lines() {
        assert_eq!(rt; count_of(printed, line), 1, "{line}");
    }
    assert_eq!(rt; lines_of(printed), lines_of(wanted).saturating_add(sinks));
}

/// Runs the job over flaky devices.
fn printed<R: Threads + Wait + Clock + Sync>(
    rt: &R,
    alloc: Global,
    job: &str,
    rows: &str,
    how: How,
) -> Result<Vec<u8>, Fail> {
    let mut out = Vec::new(alloc);
    let report = run_job(rt, alloc, job, &[rows], how, &NoPause, &mut out)?;
    if report.is_err() {
        return Err(Fail::new("the run was refused"));
    }
    Ok(out)
}

/// In order, since one task works after the other.
fn expect_line<R: Threads + Wait + Clock + Sync + Abort>(
    rt: &R,
    alloc: Global,
    how: How,
) -> Result<(), Fail> {
    let out = printed(rt, alloc, LINE, &rows(alloc, 1, 1)?, how)?;
    let mut wanted = String::from_str(alloc, "sink 0 rows 100\n")?;
    wanted.push_str(&rows(alloc, 11, 1)?)?;
    assert_eq!(rt; str::from_utf8(&out), Ok(wanted.as_str()));
    Ok(())
}

#[test]
fn a_line_commits_its_rows_over_devices_that_fail(rt: HostRuntime) -> Result<(), Fail> {
    expect_line(&rt, rt.alloc(), SINGLY)?;
    expect_line(&rt, rt.alloc(), BY_SEVENS)
}

/// Each row goes round until its value is 0.
fn expect_loop<R: Threads + Wait + Clock + Sync + Abort>(
    rt: &R,
    alloc: Global,
    how: How,
) -> Result<(), Fail> {
    let out = printed(rt, alloc, LOOP, &rows(alloc, 4, 0)?, how)?;
    let text = str::from_utf8(&out).map_err(|_| Fail::new("no text"))?;
    expect_lines(rt, text, &rows(alloc, 0, 0)?, 1);
    Ok(())
}

#[test]
fn a_loop_commits_its_rows_over_devices_that_fail(rt: HostRuntime) -> Result<(), Fail> {
    expect_loop(&rt, rt.alloc(), SINGLY)?;
    expect_loop(&rt, rt.alloc(), BY_SEVENS)
}

/// Each key is counted by one task, whichever worker it is that works.
fn expect_count<R: Threads + Wait + Clock + Sync + Abort>(
    rt: &R,
    alloc: Global,
    how: How,
) -> Result<(), Fail> {
    let out = printed(rt, alloc, COUNT, &rows_of_ten_keys(alloc)?, how)?;
    let text = str::from_utf8(&out).map_err(|_| Fail::new("no text"))?;
    expect_lines(rt, text, &counts_of_ten_keys(alloc)?, 4);
    Ok(())
}

#[test]
fn a_count_commits_its_rows_over_devices_that_fail(rt: HostRuntime) -> Result<(), Fail> {
    expect_count(&rt, rt.alloc(), SINGLY)?;
    expect_count(&rt, rt.alloc(), BY_SEVENS)
}
