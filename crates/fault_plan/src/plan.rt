//! A plan of faults.

ghost use Rattle.std.specs.Prelude.{◌≡◌, ◌<◌, ◌≤◌, ◌+◌, ◌^◌, None, Some, replicate, length, slice_set};
ghost use Rattle.fault_plan.specs.Plan.{Planned, after_call, due_at, is_turn, planned_at};

use std::marker::Model;

/// Whether a call fails before its work or after it.
#[derive(Clone, Copy, Debug, PartialEq, Eq)]
pub enum When {
    /// Nothing of the work is done.
    Before,
    /// All of the work is done.
    After,
}

/// Before each k-th call, up to the last-th.
#[derive(Clone, Copy)]
struct Every {
    k: u64,
    last: u64,
}

/// Whether and when the next call of each kind fails.
#[derive(Drop)]
struct NextCalls<const CALLS: usize> {
    planned: [Option<When>; CALLS],
}

impl<const CALLS: usize> Model for NextCalls<CALLS> {
    ghost use Rattle.std.specs.Prelude.{◌≡◌, List, Option, length};
    ghost use Rattle.fault_plan.specs.declared.plan.When.{When};

    ghost Value = { List (Option When) };

    ghost view = { λ n. n.planned };

    ghost invariant = { λ n. length n.planned ≡ CALLS };
}

impl<const CALLS: usize> NextCalls<CALLS> {
    fn new() -> NextCalls<CALLS>
        ensures { result ≡ replicate CALLS None }
    {
        NextCalls {
            planned: [None; CALLS],
        }
    }

    fn set(&mut self, call: usize, when: Option<When>)
        requires { call < CALLS }
        ensures { self.new ≡ slice_set self.old call when }
    {
        self.planned[call] = when;
    }

    fn get(&self, call: usize) -> Option<When>
        requires { call < CALLS }
        ensures { result ≡ planned_at self.now call }
    {
        self.planned[call]
    }
}

/// Which calls fail, of as many kinds as there are `CALLS`, numbered from 0.
#[derive(Drop)]
pub struct Plan<const CALLS: usize> {
    next: NextCalls<CALLS>,
    every: Option<Every>,
    calls: u64,
    faults: u64,
}

impl<const CALLS: usize> Model for Plan<CALLS> {
    ghost use Rattle.std.specs.Prelude.{◌<◌, ◌^◌};
    ghost use Rattle.fault_plan.specs.Plan.{Planned, every_of};

    ghost Value = { Planned };

    ghost view = { λ p. record {
      next = p.next;
      every = every_of p.every;
      calls = p.calls;
      faults = p.faults;
    } };

    ghost invariant = { λ p. (p.calls < 2 ^ 64) × (p.faults < 2 ^ 64) };
}

impl<const CALLS: usize> Plan<CALLS> {
    /// No call is to fail.
    pub fn new() -> Plan<CALLS>
        ensures { result ≡ record {
          next = replicate CALLS None;
          every = None;
          calls = 0;
          faults = 0;
        } }
    {
        Plan {
            next: NextCalls::new(),
            every: None,
            calls: 0,
            faults: 0,
        }
    }

    /// How many calls have failed.
    pub fn faults(&self) -> u64
        ensures { result ≡ self.now.faults }
    {
        self.faults
    }

    /// The next call of the kind fails.
    pub fn arm(&mut self, call: usize, when: When)
        requires { call < CALLS }
        ensures { self.new ≡ record self.old { next = slice_set self.old.next call (Some when) } }
    {
        self.next.set(call, Some(when));
    }

    /// Each k-th call from the device's first on fails before its work, up to the last-th. None
    /// does for a k of 0.
    pub fn every(&mut self, k: u64, last: u64)
        ensures { self.new ≡ record self.old { every = Some (k, last) } }
    {
        self.every = Some(Every { k, last });
    }

    /// Whether this call fails, and when. It is counted.
    pub fn due(&mut self, call: usize) -> Option<When>
        requires { call < CALLS }
        ensures due { result ≡ due_at self.old call }
        ensures counted { self.new ≡ after_call self.old call }
    {
        self.calls = self.calls.saturating_add(1);
        let planned = match self.next.get(call) {
            Some(when) => Some(when),
            None if self.is_turn() => Some(When::Before),
            None => None,
        };
        self.next.set(call, None);
        if self.faults == u64::MAX {
            return None;
        }
        if planned.is_some() {
            self.faults += 1;
        }
        planned
    }

    /// The present call is one of each k-th.
    fn is_turn(&self) -> bool
        ensures { result ≡ is_turn self.now }
    {
        match self.every {
            Some(every) => every.k > 0 && self.calls % every.k == 0 && self.calls <= every.last,
            None => false,
        }
    }
}
