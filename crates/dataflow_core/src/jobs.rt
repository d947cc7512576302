//! Jobs, and what is done of them.

ghost use Rattle.std.specs.Prelude.{◌≡◌};
ghost use Rattle.claims.specs.Carried.{given_of, records_of};

use claims::{Work, Worked};
use operators::Operator;
use std::alloc::Global;
use std::marker::Model;

/// A claim's work, to be done anywhere.
#[derive(Drop)]
pub struct Job<O: Operator> {
    pub(crate) attempt: u64,
    pub(crate) serial: u64,
    pub(crate) alloc: Global,
    pub(crate) work: Work<O>,
}

impl<O: Operator> Model for Job<O> {
    ghost use Rattle.dataflow_core.specs.Desks.{ClaimedJob};

    ghost Value = { ClaimedJob O O.Key O.State O.Record };

    ghost view = { λ j. record { attempt = j.attempt; serial = j.serial; work = j.work } };
}

/// A claim's work that was done, or for which memory was refused.
#[derive(Drop)]
pub struct Done<O: Operator> {
    pub(crate) attempt: u64,
    pub(crate) serial: u64,
    /// How many records the claim is on.
    records: u64,
    pub(crate) worked: Worked<O>,
    ghost counted: { records ≡ records_of (given_of worked) },
}

impl<O: Operator> Job<O> {
    /// The attempt in which the claim was made.
    pub fn attempt(&self) -> u64
        ensures { result ≡ self.now.attempt }
    {
        self.attempt
    }

    /// The claim's serial.
    pub fn serial(&self) -> u64
        ensures { result ≡ self.now.serial }
    {
        self.serial
    }

    /// How many records the claim is on.
    pub fn records(&self) -> u64
        ensures { result ≡ records_of self.now.work }
    {
        self.work.records() as u64
    }

    /// Does the work. It waits for nobody, and touches nothing shared. What is done is of the same
    /// attempt and serial, and carries the work.
    pub fn run(self) -> Done<O>
        ensures attempt { result.attempt ≡ self.attempt }
        ensures serial { result.serial ≡ self.serial }
        ensures carries { given_of result.worked ≡ self.work }
    {
        let Job {
            attempt,
            serial,
            alloc,
            work,
        } = self;
        let records = work.records() as u64;
        Done {
            attempt,
            serial,
            records,
            worked: work.run(alloc),
        }
    }
}

impl<O: Operator> Done<O> {
    /// The attempt in which the claim was made.
    pub fn attempt(&self) -> u64
        ensures { result ≡ self.now.attempt }
    {
        self.attempt
    }

    /// The claim's serial.
    pub fn serial(&self) -> u64
        ensures { result ≡ self.now.serial }
    {
        self.serial
    }

    /// How many records the claim is on.
    pub fn records(&self) -> u64
        ensures { result ≡ records_of (given_of self.now.worked) }
    {
        self.records
    }
}
