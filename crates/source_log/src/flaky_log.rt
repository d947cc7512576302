//! Partitions that fail by plan.

ghost use Rattle.std.specs.Prelude.{◌≡◌, ◌+◌, None, Some, replicate, slice_set};
ghost use Rattle.source_log.specs.Calls.{call_number};

use crate::partitions::{Partitions, SourceFault};
use fault_plan::{Plan, When};

/// How many kinds of call may fail.
const CALLS: usize = 2;

/// The calls of partitions that may fail.
#[derive(Clone, Copy, Debug, PartialEq, Eq)]
pub enum LogCall {
    Read,
    Append,
}

impl LogCall {
    fn number(self) -> usize
        ensures { result ≡ call_number self }
    {
        match self {
            LogCall::Read => 0,
            LogCall::Append => 1,
        }
    }
}

/// Partitions that never fail by themselves.
pub trait FaultlessLog: Partitions {
    ghost faultless: { (log : Self) → Self.fault_count log ≡ 0 };
}

/// Partitions whose calls fail by plan, before their work or after it.
#[derive(Drop)]
pub struct FlakyLog<P: FaultlessLog> {
    log: P,
    plan: Plan<CALLS>,
}

impl<P: FaultlessLog> FlakyLog<P> {
    ghost use Rattle.source_log.specs.FlakyLog.{log_of, plan_of};

    /// No call is to fail.
    pub fn new(log: P) -> FlakyLog<P>
        ensures log { log_of result ≡ log }
        ensures plan { plan_of result ≡ record {
          next = replicate CALLS None;
          every = None;
          calls = 0;
          faults = 0;
        } }
    {
        FlakyLog {
            log,
            plan: Plan::new(),
        }
    }

    /// The next call of the kind fails.
    pub fn arm(&mut self, call: LogCall, when: When)
        ensures log { log_of self.new ≡ log_of self.old }
        ensures plan { plan_of self.new ≡ record (plan_of self.old) {
          next = slice_set
              (plan_of self.old).next (call_number call) (Some when);
        } }
    {
        self.plan.arm(call.number(), when);
    }

    /// Each k-th call that may fail does so before its work, up to the last-th. Calls are counted
    /// from the first on. None fails for a k of 0.
    pub fn every(&mut self, k: u64, last: u64)
        ensures log { log_of self.new ≡ log_of self.old }
        ensures plan { plan_of self.new ≡ record (plan_of self.old) { every = Some (k, last) } }
    {
        self.plan.every(k, last);
    }

    /// The partitions, which fail no more.
    pub fn into_inner(self) -> P
        ensures { result ≡ log_of self }
    {
        let FlakyLog { log, plan: _ } = self;
        log
    }
}

impl<P: FaultlessLog> Partitions for FlakyLog<P> {
    type Record = P::Record;

    ghost records = { λ f. P.records f.log };

    ghost fault_count = { λ f. f.plan.faults + P.fault_count f.log };

    ghost short = { λ f. P.short f.log };

    fn count(&self) -> u32 {
        self.log.count()
    }

    fn len(&self, partition: u32) -> Result<u64, SourceFault> {
        self.log.len(partition)
    }

    fn read(&mut self, partition: u32, offset: u64) -> Result<Option<P::Record>, SourceFault> {
        match self.plan.due(LogCall::Read.number()) {
            Some(When::Before) => Err(SourceFault::Fault),
            Some(When::After) => {
                let _ = self.log.read(partition, offset);
                Err(SourceFault::Fault)
            }
            None => self.log.read(partition, offset),
        }
    }

    fn append(&mut self, partition: u32, row: P::Record) -> Result<(), SourceFault> {
        match self.plan.due(LogCall::Append.number()) {
            Some(When::Before) => Err(SourceFault::Fault),
            Some(When::After) => {
                let _ = self.log.append(partition, row);
                Err(SourceFault::Fault)
            }
            None => self.log.append(partition, row),
        }
    }

    fn faults(&self) -> u64 {
        self.plan.faults()
    }
}
