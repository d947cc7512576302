//! Two jobs are out at once.

use crate::jobs::TWO_LINES;
use crate::runs::{How, run_job};
use job_runner::{NoPause, Options, Pause};
use std::sync::atomic::{AtomicU64, Ordering};
use std::test::Fail;

/// A look takes about a nanosecond.
const LOOKS: u64 = 20_000_000_000;

/// The first claim that is asked about waits until another one is. Claims are told by their
/// serials.
#[derive(Drop)]
struct Meeting {
    /// One more than the serial of the first, once there is one.
    first: AtomicU64,
    /// Whether another one was asked about.
    is_met: AtomicU64,
    /// Whether the first has waited in vain.
    is_lost: AtomicU64,
}

impl Meeting {
    fn new() -> Meeting {
        Meeting {
            first: AtomicU64::new(0),
            is_met: AtomicU64::new(0),
            is_lost: AtomicU64::new(0),
        }
    }

    /// Looks for another claim, so often at most: on a busy machine the other worker may get no
    /// processor for seconds.
    fn waits(&self) -> bool {
        for _ in 0..LOOKS {
            if self.is_met.load(Ordering::SeqCst) == 1 {
                return true;
            }
        }
        self.is_lost.store(1, Ordering::SeqCst);
        false
    }
}

impl Pause for Meeting {
    fn before_run(&self, _attempt: u64, serial: u64) -> bool {
        let ticket = serial.saturating_add(1);
        match self
            .first
            .compare_exchange(0, ticket, Ordering::SeqCst, Ordering::SeqCst)
        {
            Ok(_) => self.waits(),
            Err(first) if first == ticket => self.is_lost.load(Ordering::SeqCst) == 0,
            Err(_) => {
                self.is_met.store(1, Ordering::SeqCst);
                true
            }
        }
    }

    fn after_run(&self, _attempt: u64, _serial: u64) {}
}

const HOW: How = How {
    options: Options {
        workers: 2,
        every: 0,
        turns: 100_000_000,
        batch: 1,
    },
    restarts: 0,
    faults: None,
};

const ROWS: [&str; 2] = ["{\"k\":\"a\",\"v\":1}\n", "{\"k\":\"b\",\"v\":2}\n"];

/// What two lines of one row each commit.
const WANTED: &str = "sink 0 rows 1\n{\"k\":\"a\",\"v\":2}\nsink 1 rows 1\n{\"k\":\"b\",\"v\":3}\n";

/// A first job that waits for a second one comes to its end: the run finishes all four.
#[test]
fn two_jobs_are_out_at_once(rt: HostRuntime) -> Result<(), Fail> {
    let mut out = Vec::new(rt.alloc());
    let report = run_job(
        &rt,
        rt.alloc(),
        TWO_LINES,
        &ROWS,
        HOW,
        &Meeting::new(),
        &mut out,
    )?;
    let finished = report.map_or(0, |report| report.finished);
    assert_eq!(rt; finished, 4);
    assert_eq!(rt; str::from_utf8(&out), Ok(WANTED));
    Ok(())
}

/// A run ends at rest: all is committed, and four jobs were finished.
#[test]
fn a_run_ends_at_rest(rt: HostRuntime) -> Result<(), Fail> {
    let mut out = Vec::new(rt.alloc());
    let report = run_job(&rt, rt.alloc(), TWO_LINES, &ROWS, HOW, &NoPause, &mut out)?;
    let finished = report.map_or(0, |report| report.finished);
    assert_eq!(rt; finished, 4);
    assert_eq!(rt; str::from_utf8(&out), Ok(WANTED));
    Ok(())
}
