//! When a worker waits: where it has nothing to do, and where others do without it what it does.

use std::thread;
use std::time::{Clock, Duration, Instant};

/// How often a worker lets others go first before it sleeps.
const YIELDS: u32 = 16;

/// No wait is longer than 1 microsecond, doubled so often: about a millisecond.
const LONGEST: u32 = 10;

/// The first rest is a millisecond, doubled so often.
const FIRST: u32 = 4;

/// No rest is longer than a millisecond, doubled so often: about a quarter of a second.
const RESTS: u32 = 8;

/// A worker that rests looks whether the run is over about every four milliseconds.
const LOOKS: u32 = 2;

/// So long a worker is watched before it is judged, in microseconds,
const WATCHED: u64 = 1000;

/// and for so many holds of the lock: one long wait says nothing of many long jobs.
const HOLDS: u32 = 16;

/// Of what a worker does, less than one part of so many with no lock held is not worth a worker.
const PARTS: u32 = 4;

/// Nor is one that waits so many times as long as it works, with the lock and without.
const WAITS: u32 = 3;

/// How a worker has fared.
#[derive(Clone, Copy)]
pub(crate) struct Patience {
    /// How many turns of the run were left at its last one.
    seen: u64,
    /// Whether no other worker has taken a turn since the one before.
    is_alone: bool,
    /// How often it has had nothing to do, halved at each step.
    waits: u32,
    /// How often it has rested, halved each time that it was of use.
    rests: u32,
    /// Until when it was watched; `None` while it is alone.
    until: Option<Instant>,
    /// Since it was judged last: how long it waited, for the lock or for something to do,
    waited: Duration,
    /// how long it held the lock,
    held: Duration,
    /// how often,
    holds: u32,
    /// and how long it ran jobs, with no lock held.
    worked: Duration,
}

impl Patience {
    pub(crate) fn new() -> Patience {
        Patience {
            seen: 0,
            is_alone: false,
            waits: 0,
            rests: FIRST,
            until: None,
            waited: Duration::ZERO,
            held: Duration::ZERO,
            holds: 0,
            worked: Duration::ZERO,
        }
    }

    /// The worker has taken turns, before which so many were left, and after which so many are.
    pub(crate) fn took_turns(&mut self, before: u64, left: u64) {
        self.is_alone = self.seen == before;
        self.seen = left;
    }

    /// How long it is since the worker was watched last. A worker that is alone need not ask.
    fn passed<R: Clock>(&mut self, rt: &R) -> Duration {
        let now = if self.is_alone {
            None
        } else {
            Instant::now(rt).ok()
        };
        let passed = match (self.until, now) {
            (Some(from), Some(to)) => to.saturating_duration_since(from),
            _ => Duration::ZERO,
        };
        self.until = now;
        passed
    }

    /// The lock is had, which was asked for. A worker that is alone did not wait for it.
    pub(crate) fn has_lock<R: Clock>(&mut self, rt: &R) {
        if self.is_alone {
            self.until = None;
            return;
        }
        let waited = self.passed(rt);
        self.waited = self.waited.saturating_add(waited);
    }

    /// The lock was given back.
    pub(crate) fn gave_lock<R: Clock>(&mut self, rt: &R) {
        let held = self.passed(rt);
        self.held = self.held.saturating_add(held);
        self.holds = self.holds.saturating_add(1);
    }

    /// A step was made.
    pub(crate) fn made_step(&mut self) {
        self.waits /= 2;
    }

    /// A job was run, with no lock held.
    pub(crate) fn ran_job<R: Clock>(&mut self, rt: &R) {
        let worked = self.passed(rt);
        self.worked = self.worked.saturating_add(worked);
        self.made_step();
    }

    /// Lets others go first; a worker that has waited often sleeps, longer each time up to a bound.
    pub(crate) fn wait<R: Clock>(&mut self, rt: &R) {
        if self.waits < YIELDS {
            thread::yield_now();
        } else {
            let doubled = (self.waits - YIELDS).min(LONGEST);
            thread::sleep(rt, Duration::from_micros(1 << doubled));
        }
        self.waits = self.waits.saturating_add(1).min(YIELDS + LONGEST);
        let waited = self.passed(rt);
        self.waited = self.waited.saturating_add(waited);
    }

    /// Whether the worker wants to rest: where it was watched long enough, and waited for too much
    /// of that time, or ran jobs for too little.
    pub(crate) fn is_tired(&mut self) -> bool {
        let Patience {
            waited,
            held,
            worked,
            ..
        } = *self;
        let all = waited.saturating_add(held).saturating_add(worked);
        if all < Duration::from_micros(WATCHED) || self.holds < HOLDS {
            return false;
        }
        self.waited = Duration::ZERO;
        self.held = Duration::ZERO;
        self.holds = 0;
        self.worked = Duration::ZERO;
        if self.is_alone {
            return false;
        }
        let has_waited_little = waited < held.saturating_add(worked).saturating_mul(WAITS);
        if has_waited_little && held < worked.saturating_mul(PARTS) {
            self.rests /= 2;
            return false;
        }
        true
    }

    /// The worker rests, longer each time up to a bound: in how many parts. What it rests is not
    /// counted.
    pub(crate) fn rests(&mut self) -> u32 {
        let doubled = self.rests.min(RESTS);
        self.until = None;
        self.rests = self.rests.saturating_add(1);
        1 << doubled.saturating_sub(LOOKS)
    }

    /// One part of a rest.
    pub(crate) fn rest<R: Clock>(&self, rt: &R) {
        let doubled = LONGEST + self.rests.saturating_sub(1).min(LOOKS);
        thread::sleep(rt, Duration::from_micros(1 << doubled));
    }
}
