//! A subtask's committed transactions with the number of their records, and its unsettled ones.

ghost use Rattle.std.specs.Prelude.{◌≡◌, ◌<◌, ◌≤◌, length};
ghost use Rattle.std.specs.List.{AllWithin};
ghost use Rattle.std.specs.List.Sorted.{IsNonDecreasingBy};
ghost use Rattle.commit_sink.specs.Ends.{rows_of};

use crate::roomy::Roomy;
use abs_codec::NoMemory;
use std::alloc::Global;
use std::collections::BTreeSet;

/// A committed transaction, and how many committed records the subtask has up to its last.
#[derive(Clone, Copy)]
pub(crate) struct End {
    pub(crate) transaction: u64,
    pub(crate) rows: u64,
}

/// How many records there are up to the last of these.
fn rows_of(ends: &[End]) -> u64
    ensures { result ≡ rows_of ends.now }
{
    match ends.last() {
        Some(end) => end.rows,
        None => 0,
    }
}

/// The first that has more records than the index up to its last.
fn place_of(ends: &[End], index: u64) -> usize
    requires { IsNonDecreasingBy (λ e. e.rows) ends.now }
    ensures within { result ≤ length ends.now }
    ensures below { AllWithin (λ e. e.rows ≤ index) ends.now 0 result }
    ensures above { AllWithin (λ e. index < e.rows) ends.now result (length ends.now) }
{
    ends.partition_point(|end| end.rows <= index)
}

/// What is kept of a subtask.
#[derive(Drop)]
pub(crate) struct Share {
    /// The committed transactions in the order of commit, and a place for each that is neither
    /// committed nor aborted.
    pub(crate) ends: Roomy<End>,
    /// How many records there are in those that are neither committed nor aborted.
    pub(crate) pending: u64,
    /// The numbers of those that are neither committed nor aborted.
    pub(crate) unsettled: BTreeSet<u64>,
}

impl Share {
    ghost use Rattle.std.specs.Prelude.{◌≡◌, ◌<◌, ◌≤◌, ◌+◌, ◌^◌, ℕ, IfSome, IfNone, OnOk, OnErr};
    ghost use Rattle.std.specs.List.Sorted.{IsNonDecreasingBy};
    ghost use Rattle.commit_sink.specs.Shares.{empty_share, with_end, with_place, with_row, without};
    ghost use Rattle.commit_sink.specs.Ends.{Stands, rows_of};

    pub(crate) fn new(alloc: Global) -> Share
        ensures { result ≡ empty_share }
    {
        Share {
            ends: Roomy::new(alloc),
            pending: 0,
            unsettled: BTreeSet::new(alloc),
        }
    }

    /// Promises a place for one more transaction, and notes its number.
    pub(crate) fn promise(&mut self, transaction: u64) -> Result<(), NoMemory>
        ensures ok { OnOk result (self.new ≡ with_place self.old transaction) }
        ensures err { OnErr result (self.new ≡ self.old) }
    {
        self.ends.promise()?;
        if self.unsettled.insert(transaction).is_err() {
            self.ends.release();
            return Err(NoMemory);
        }
        Ok(())
    }

    /// One more record is pending.
    pub(crate) fn add_row(&mut self)
        requires { self.old.pending + 1 < 2 ^ 64 }
        ensures { self.new ≡ with_row self.old }
    {
        self.pending += 1;
    }

    /// A transaction of so many records is aborted.
    pub(crate) fn drop_rows(&mut self, transaction: u64, rows: u64)
        requires promised { 1 ≤ self.old.ends.promised }
        requires pending { rows ≤ self.old.pending }
        ensures { self.new ≡ without self.old transaction rows }
    {
        self.pending -= rows;
        self.ends.release();
        self.unsettled.remove(&transaction);
    }

    /// A transaction of so many records is committed.
    pub(crate) fn commit(&mut self, transaction: u64, rows: u64)
        requires promised { 1 ≤ self.old.ends.promised }
        requires pending { rows ≤ self.old.pending }
        requires total { rows_of self.old.ends.items + self.old.pending < 2 ^ 64 }
        ensures { self.new ≡ with_end self.old transaction rows }
    {
        let end = End {
            transaction,
            rows: rows_of(self.ends.as_slice()) + rows,
        };
        self.pending -= rows;
        self.ends.push(end);
        self.unsettled.remove(&transaction);
    }

    /// How many records of the subtask are committed.
    pub(crate) fn committed_len(&self) -> u64
        ensures { result ≡ rows_of self.now.ends.items }
    {
        rows_of(self.ends.as_slice())
    }

    /// Which transaction has the committed record, and at which place.
    pub(crate) fn find(&self, index: u64) -> Option<(u64, u64)>
        requires { IsNonDecreasingBy (λ e. e.rows) self.now.ends.items }
        ensures none { IfNone result (rows_of self.now.ends.items ≤ index) }
        ensures some { IfSome result (λ f. (k : ℕ) × Stands self.now.ends.items k index f) }
    {
        let ends = self.ends.as_slice();
        let place = place_of(ends, index);
        if place == ends.len() {
            return None;
        }
        Some((ends[place].transaction, index - rows_of(&ends[..place])))
    }
}
