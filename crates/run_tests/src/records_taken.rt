//! How many records a job is on, where claims are of one record at first.

use crate::jobs::{LINE, rows};
use crate::runs::{How, run_job};
use job_runner::{Options, Pause};
use std::alloc::Global;
use std::sync::Wait;
use std::sync::atomic::{AtomicU64, Ordering};
use std::test::Fail;
use std::thread::Threads;
use std::time::Clock;

const HOW: How = How {
    options: Options {
        workers: 1,
        every: 0,
        turns: 100_000_000,
        batch: 1,
    },
    restarts: 0,
    faults: None,
};

/// Counts the jobs that are run.
#[derive(Drop)]
struct Counting {
    jobs: AtomicU64,
}

impl Pause for Counting {
    fn before_run(&self, _attempt: u64, _serial: u64) -> bool {
        let _ = self.jobs.fetch_add(1, Ordering::SeqCst);
        true
    }

    fn after_run(&self, _attempt: u64, _serial: u64) {}
}

/// How many jobs a run over these rows makes.
fn jobs_of<R: Threads + Wait + Clock + Sync>(
    rt: &R,
    alloc: Global,
    job: &str,
    rows: &str,
) -> Result<u64, Fail> {
    let counting = Counting {
        jobs: AtomicU64::new(0),
    };
    let mut out = Vec::new(alloc);
    let report = run_job(rt, alloc, job, &[rows], HOW, &counting, &mut out)?;
    match report {
        Ok(report) if report.finished == 200 => Ok(counting.jobs.load(Ordering::SeqCst)),
        _ => Err(Fail::new("not all records were worked")),
    }
}

/// Of a hundred records that are there at once an operator takes 1, 2, 4, 8, 16, 32 and 37, and the
/// sink takes what they leave.
#[test]
fn claims_begin_with_one_record_and_grow(rt: HostRuntime) -> Result<(), Fail> {
    let rows = rows(rt.alloc(), 1, 1)?;
    let jobs = jobs_of(&rt, rt.alloc(), LINE, &rows)?;
    assert!(rt; jobs > 7);
    assert!(rt; jobs < 20);
    Ok(())
}
