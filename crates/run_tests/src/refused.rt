//! Runs that are refused.

use crate::jobs::LINE;
use crate::runs::{How, run_job};
use job_runner::{NoPause, Options, RunFault, RunRefusal};
use std::alloc::Global;
use std::process::Abort;
use std::sync::Wait;
use std::test::Fail;
use std::thread::Threads;
use std::time::Clock;

/// Runs the line over one row. It is refused for this, with no row committed.
fn expect_refusal<R: Threads + Wait + Clock + Sync + Abort>(
    rt: &R,
    alloc: Global,
    how: How,
    wanted: RunFault,
) -> Result<(), Fail> {
    let mut out = Vec::new(alloc);
    let rows = "{\"k\":\"a\",\"v\":1}\n";
    match run_job(rt, alloc, LINE, &[rows], how, &NoPause, &mut out)? {
        Err(RunRefusal::Run(fault)) => assert_eq!(rt; fault, wanted),
        _ => return Err(Fail::new("another end")),
    }
    assert_eq!(rt; str::from_utf8(&out), Ok("sink 0 rows 0\n"));
    Ok(())
}

#[test]
fn no_more_than_64_workers_are_taken(rt: HostRuntime) -> Result<(), Fail> {
    let how = How {
        options: Options {
            workers: 65,
            every: 0,
            turns: 1_000_000,
            batch: 1,
        },
        restarts: 8,
        faults: None,
    };
    expect_refusal(&rt, rt.alloc(), how, RunFault::BadWorkers)
}

/// Every call of a device fails, up to its ninth.
#[test]
fn a_job_that_fails_is_not_restarted_where_no_restart_is_left(rt: HostRuntime) -> Result<(), Fail> {
    let how = How {
        options: Options {
            workers: 1,
            every: 0,
            turns: 1_000_000,
            batch: 1,
        },
        restarts: 0,
        faults: Some((1, 9)),
    };
    expect_refusal(&rt, rt.alloc(), how, RunFault::RestartsSpent)
}
