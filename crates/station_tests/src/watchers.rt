//! Readers that look on while a job runs.

use std::alloc::{AllocError, Global};
use std::sync::Arc;
use std::sync::atomic::{AtomicU64, Ordering};
use std::thread;
use std::thread::{JoinHandle, Threads};
use thread_runner::{OutputReader, Pause};

/// How many readers look on.
pub(crate) const WATCHERS: usize = 4;

/// What the run and the readers beside it tell each other.
#[derive(Drop)]
pub(crate) struct Meeting {
    /// The first claim that waits until each reader has read some rows and not all, told by its
    /// serial.
    middle: u64,
    /// How many rows there are in all.
    rows: usize,
    /// How many readers have read some rows and not all.
    seen: AtomicU64,
    /// 1 once the run is over.
    is_over: AtomicU64,
}

impl Meeting {
    pub(crate) fn new(rows: usize, middle: u64) -> Meeting {
        Meeting {
            middle,
            rows,
            seen: AtomicU64::new(0),
            is_over: AtomicU64::new(0),
        }
    }

    /// The run is over.
    pub(crate) fn ends(&self) {
        self.is_over.store(1, Ordering::SeqCst);
    }
}

impl Pause for Meeting {
    fn before_run(&self, _attempt: u64, serial: u64) -> bool {
        serial < self.middle || self.seen.load(Ordering::SeqCst) >= WATCHERS as u64
    }

    fn after_run(&self, _attempt: u64, _serial: u64) {}
}

/// A reader that looks on, and what it has found.
#[derive(Drop)]
pub(crate) struct Watcher {
    reader: OutputReader,
    /// The list that it has read last.
    pub(crate) last: Vec<Vec<u8>>,
    /// Whether its opening list was empty, no read was refused, and each list has begun with the
    /// one before.
    pub(crate) is_served: bool,
    /// Whether it has read some rows and not all.
    pub(crate) was_between: bool,
}

/// Whether a list begins with another.
fn begins(last: &[Vec<u8>], now: &[Vec<u8>]) -> bool {
    last.len() <= now.len() && last.iter().zip(now).all(|(a, b)| a == b)
}

impl Watcher {
    /// A reader of a station that has published nothing.
    pub(crate) fn new(alloc: Global, mut reader: OutputReader) -> Watcher {
        let is_served = reader.read(0).is_ok_and(|rows| rows.is_empty());
        Watcher {
            reader,
            last: Vec::new(alloc),
            is_served,
            was_between: false,
        }
    }

    /// Reads once.
    fn look(&mut self, meeting: &Meeting) {
        let Ok(rows) = self.reader.read(0) else {
            self.is_served = false;
            return;
        };
        if !begins(&self.last, &rows) {
            self.is_served = false;
        }
        if !self.was_between && !rows.is_empty() && rows.len() < meeting.rows {
            self.was_between = true;
            meeting.seen.fetch_add(1, Ordering::SeqCst);
        }
        self.last = rows;
    }

    /// Reads until the run is over, and once more.
    fn watch(&mut self, meeting: &Meeting) {
        for _ in 0..u64::MAX {
            let is_over = meeting.is_over.load(Ordering::SeqCst) == 1;
            self.look(meeting);
            if is_over {
                return;
            }
            thread::yield_now();
        }
    }
}

/// A reader looks on in a thread of its own.
pub(crate) fn start_one<R: Threads>(
    rt: &R,
    alloc: Global,
    reader: OutputReader,
    meeting: &Arc<Meeting, Global>,
    watchers: &mut Vec<JoinHandle<Watcher>>,
) -> Result<(), AllocError> {
    let meeting = Arc::try_clone(meeting)?;
    let mut watcher = Watcher::new(alloc, reader);
    let there = move || {
        watcher.watch(&meeting);
        watcher
    };
    watchers.push(thread::spawn(rt, there)?)?;
    Ok(())
}

/// The readers, once all have looked on to the end.
pub(crate) fn join_all<R: Threads>(
    rt: &R,
    alloc: Global,
    handles: Vec<JoinHandle<Watcher>>,
) -> Vec<Watcher> {
    let mut watchers = Vec::new(alloc);
    for handle in handles {
        let _ = watchers.push(handle.join(rt));
    }
    watchers
}
