//! Transactions in memory.

ghost use Rattle.std.specs.Prelude.{◌≡◌, ◌≢◌, ◌<◌, ◌≤◌, ◌+◌, ◌-◌, ◌^◌, ◌↔◌, ℕ, IsTrue, [], ◌∷◌, ◌++◌, true, length, refl, None, Some, slice_get, slice_set, OnOk, OnErr, IfOk, IfErr, IfSome, IfNone, MatchResult, MatchOption};
ghost use Rattle.std.specs.List.{filter_map};
ghost use Rattle.std.proofs.Props.{props};
ghost use Rattle.commit_sink.specs.declared.transactions.Progress.{Progress};
ghost use Rattle.commit_sink.specs.declared.transactions.Progress.TheVariants.{Open, PreCommitted, Committed, Aborted};
ghost use Rattle.commit_sink.specs.Ledger.{Transaction, refusal, transaction_in, if_open, if_pre_committed, if_not_committed};
ghost use Rattle.commit_sink.specs.Ends.{rows_of};
ghost use Rattle.commit_sink.specs.Runs.{IsRunFrom};
ghost use Rattle.commit_sink.specs.Shares.{Found, HasRow, IsKept, empty_share, has_unsettled, ledger_of, share_at, unsettled_in, with_end, with_place, with_row, without};

use crate::entry::Entry;
use crate::flaky_transactions::FaultlessTransactions;
use crate::roomy::Roomy;
use crate::share::Share;
use crate::transactions::{Progress, TransactionFault, Transactions};
use abs_codec::Bytes;
use std::alloc::{AllocError, Global};
use std::collections::BTreeSet;

/// Transactions of subtasks, in memory.
#[derive(Drop)]
pub struct MemoryTransactions {
    alloc: Global,
    pub(crate) subtasks: u32,
    /// By their numbers, from 1.
    pub(crate) transactions: Vec<Entry>,
    /// The committed ones in the order of commit, with a place for each that is neither committed
    /// nor aborted.
    pub(crate) committed: Roomy<u64>,
    /// By subtask, up to the last that has begun a transaction.
    shares: Vec<Share>,
    ghost kept: { IsKept subtasks transactions.items committed shares.items } by { Prim.hlevel props },
}

/// The place of a transaction, and how far it has come.
fn find(transactions: &Vec<Entry>, transaction: u64) -> Option<(usize, Progress)>
    ensures some { IfSome result (λ f. Found transactions.now.items transaction f.0 f.1) }
    ensures none { IfNone result (transaction_in transactions.now.items transaction ≡ None) }
{
    let place = transaction.checked_sub(1)? as usize;
    let entry = transactions.get(place)?;
    Some((place, entry.progress()))
}

/// The place of a transaction that is open.
fn open_place(transactions: &Vec<Entry>, transaction: u64) -> Result<usize, TransactionFault>
    ensures { MatchResult result
        (λ place. Found transactions.now.items transaction place Open)
        (λ f. refusal if_open (transaction_in transactions.now.items transaction) ≡ Some f) }
{
    let Some((place, progress)) = find(transactions, transaction) else {
        return Err(TransactionFault::NoSuchTransaction);
    };
    match progress {
        Progress::Open => Ok(place),
        _ => Err(TransactionFault::NotOpen),
    }
}

/// The place of a transaction that is pre-committed, or `None` for one that is committed.
fn place_to_commit(
    transactions: &Vec<Entry>,
    transaction: u64,
) -> Result<Option<usize>, TransactionFault>
    ensures ok { IfOk result (λ found. MatchOption found
        ((place : ℕ) × Found transactions.now.items transaction place Committed)
        (λ place. (checkpoint : ℕ) × Found transactions.now.items transaction place
        (PreCommitted checkpoint))) }
    ensures err { IfErr result (λ f. refusal if_pre_committed
        (transaction_in transactions.now.items transaction) ≡ Some f) }
{
    let Some((place, progress)) = find(transactions, transaction) else {
        return Err(TransactionFault::NoSuchTransaction);
    };
    match progress {
        Progress::PreCommitted(_) => Ok(Some(place)),
        Progress::Committed => Ok(None),
        _ => Err(TransactionFault::NotPreCommitted),
    }
}

/// The place of a transaction that is open or pre-committed, or `None` for one that is aborted.
fn place_to_abort(
    transactions: &Vec<Entry>,
    transaction: u64,
) -> Result<Option<usize>, TransactionFault>
    ensures ok { IfOk result (λ found. MatchOption found
        ((place : ℕ) × Found transactions.now.items transaction place Aborted)
        (λ place. (progress : Progress) × (has_unsettled progress ≡ true)
        × Found transactions.now.items transaction place progress)) }
    ensures err { IfErr result (λ f. refusal if_not_committed
        (transaction_in transactions.now.items transaction) ≡ Some f) }
{
    let Some((place, progress)) = find(transactions, transaction) else {
        return Err(TransactionFault::NoSuchTransaction);
    };
    match progress {
        Progress::Committed => Err(TransactionFault::AlreadyCommitted),
        Progress::Aborted => Ok(None),
        _ => Ok(Some(place)),
    }
}

fn subtask_of(transactions: &Vec<Entry>, place: usize) -> usize
    requires { place < length transactions.now.items }
    ensures { (t : Transaction) → slice_get transactions.now.items place ≡ Some t
        → result ≡ t.subtask }
{
    transactions[place].subtask() as usize
}

/// How many records the subtask's last transaction has that is neither committed nor aborted.
fn last_row_count(transactions: &Vec<Entry>, shares: &Vec<Share>, subtask: usize) -> Option<usize> {
    let transaction = shares.get(subtask)?.unsettled.last()?;
    let place = transaction.checked_sub(1)? as usize;
    Some(transactions.get(place)?.records().len())
}

fn row_count(transactions: &Vec<Entry>, place: usize) -> u64
    requires { place < length transactions.now.items }
    ensures { (t : Transaction) → slice_get transactions.now.items place ≡ Some t
        → result ≡ length t.records }
{
    transactions[place].records().len() as u64
}

fn append_row(
    transactions: &mut Vec<Entry>,
    place: usize,
    row: Bytes,
) -> Result<(), TransactionFault>
    requires { place < length transactions.old.items }
    ensures ok { OnOk result ((t : Transaction) → slice_get transactions.old.items place ≡ Some t
        → transactions.new.items ≡ slice_set transactions.old.items place
        (record t { records = t.records ++ row ∷ [] })) }
    ensures err { OnErr result (transactions.new.items ≡ transactions.old.items) }
    ensures memory { IfErr result (λ f. f ≡ TransactionFault.Memory) }
{
    transactions[place].append(row)
}

fn abort_entry(transactions: &mut Vec<Entry>, place: usize)
    requires { place < length transactions.old.items }
    ensures { (t : Transaction) → slice_get transactions.old.items place ≡ Some t
        → transactions.new.items ≡ slice_set transactions.old.items place
        (record t { progress = Aborted; records = [] }) }
{
    transactions[place].abort();
}

fn set_progress(transactions: &mut Vec<Entry>, place: usize, progress: Progress)
    requires { place < length transactions.old.items }
    ensures { (t : Transaction) → slice_get transactions.old.items place ≡ Some t
        → transactions.new.items ≡ slice_set transactions.old.items place
        (record t { progress = progress }) }
{
    transactions[place].set_progress(progress);
}

/// Makes shares up to a subtask.
fn make_shares(alloc: Global, shares: &mut Vec<Share>, subtask: usize) -> Result<(), AllocError>
    ensures there { OnOk result (subtask < length shares.new.items) }
    ensures same { (s : ℕ) → share_at shares.new.items s ≡ share_at shares.old.items s }
{
    while shares.len() <= subtask {
        shares.push(Share::new(alloc))?;
    }
    Ok(())
}

/// Promises a transaction a place in the order of commit and in its subtask's share, which notes
/// its number.
fn promise_places(
    alloc: Global,
    committed: &mut Roomy<u64>,
    shares: &mut Vec<Share>,
    subtask: usize,
    transaction: u64,
) -> Result<(), TransactionFault>
    ensures committed { OnOk result (committed.new
        ≡ record committed.old { promised = committed.old.promised + 1 }) }
    ensures share { OnOk result (share_at shares.new.items subtask
        ≡ with_place (share_at shares.old.items subtask) transaction) }
    ensures others { (s : ℕ) → s ≢ subtask → share_at shares.new.items s
        ≡ share_at shares.old.items s }
    ensures err { OnErr result ((committed.new ≡ committed.old)
        × (share_at shares.new.items subtask ≡ share_at shares.old.items subtask)) }
    ensures memory { IfErr result (λ f. f ≡ TransactionFault.Memory) }
{
    make_shares(alloc, shares, subtask)?;
    committed.promise()?;
    if shares[subtask].promise(transaction).is_err() {
        committed.release();
        return Err(TransactionFault::Memory);
    }
    Ok(())
}

/// The subtask has as many records as are counted.
fn is_full(shares: &Vec<Share>, subtask: usize) -> bool
    requires there { subtask < length shares.now.items }
    requires total { rows_of (share_at shares.now.items subtask).ends.items
        + (share_at shares.now.items subtask).pending < 2 ^ 64 }
    ensures { IsTrue result ↔ (rows_of (share_at shares.now.items subtask).ends.items
        + (share_at shares.now.items subtask).pending ≡ 2 ^ 64 - 1) }
{
    shares[subtask].committed_len() + shares[subtask].pending == u64::MAX
}

fn add_row(shares: &mut Vec<Share>, subtask: usize)
    requires there { subtask < length shares.old.items }
    requires few { (share_at shares.old.items subtask).pending + 1 < 2 ^ 64 }
    ensures share { share_at shares.new.items subtask
        ≡ with_row (share_at shares.old.items subtask) }
    ensures others { (s : ℕ) → s ≢ subtask → share_at shares.new.items s
        ≡ share_at shares.old.items s }
{
    shares[subtask].add_row();
}

fn drop_rows(shares: &mut Vec<Share>, subtask: usize, transaction: u64, rows: u64)
    requires there { subtask < length shares.old.items }
    requires promised { 1 ≤ (share_at shares.old.items subtask).ends.promised }
    requires pending { rows ≤ (share_at shares.old.items subtask).pending }
    ensures share { share_at shares.new.items subtask
        ≡ without (share_at shares.old.items subtask) transaction rows }
    ensures others { (s : ℕ) → s ≢ subtask → share_at shares.new.items s
        ≡ share_at shares.old.items s }
{
    shares[subtask].drop_rows(transaction, rows);
}

fn commit_rows(shares: &mut Vec<Share>, subtask: usize, transaction: u64, rows: u64)
    requires there { subtask < length shares.old.items }
    requires promised { 1 ≤ (share_at shares.old.items subtask).ends.promised }
    requires pending { rows ≤ (share_at shares.old.items subtask).pending }
    requires total { rows_of (share_at shares.old.items subtask).ends.items
        + (share_at shares.old.items subtask).pending < 2 ^ 64 }
    ensures share { share_at shares.new.items subtask
        ≡ with_end (share_at shares.old.items subtask) transaction rows }
    ensures others { (s : ℕ) → s ≢ subtask → share_at shares.new.items s
        ≡ share_at shares.old.items s }
{
    shares[subtask].commit(transaction, rows);
}

/// The share of a subtask, if it has begun a transaction.
fn share_of(shares: &Vec<Share>, subtask: u32) -> Option<&Share>
    ensures some { IfSome result (λ share. share.now ≡ share_at shares.now.items subtask) }
    ensures none { IfNone result (share_at shares.now.items subtask ≡ empty_share) }
{
    shares.get(subtask as usize)
}

/// A record of a transaction.
fn row_at(transactions: &Vec<Entry>, transaction: u64, place: u64) -> &[u8]
    requires { HasRow transactions.now.items transaction place }
    ensures { (t : Transaction) → transaction_in transactions.now.items transaction ≡ Some t
        → slice_get t.records place ≡ Some result.now }
{
    rows_from(transactions, transaction, place)[0].as_slice()
}

/// The records of a transaction from a place on, as many as stand together.
fn rows_from(transactions: &Vec<Entry>, transaction: u64, place: u64) -> &[Bytes]
    requires { HasRow transactions.now.items transaction place }
    ensures { (t : Transaction) → transaction_in transactions.now.items transaction ≡ Some t
        → IsRunFrom t.records place result.now }
{
    let records = transactions[(transaction - 1) as usize].records();
    records.run_from(place as usize)
}

/// A transaction that is neither committed nor aborted: its number, with its checkpoint if it is
/// pre-committed.
fn unsettled_number(transactions: &Vec<Entry>, number: u64) -> Option<(u64, Option<u64>)>
    ensures { result ≡ unsettled_in transactions.now.items number }
{
    let (_, progress) = find(transactions, number)?;
    match progress {
        Progress::Open => Some((number, None)),
        Progress::PreCommitted(checkpoint) => Some((number, Some(checkpoint))),
        _ => None,
    }
}

/// Those of these numbers that are neither committed nor aborted.
fn unsettled_of(
    alloc: Global,
    transactions: &Vec<Entry>,
    numbers: &BTreeSet<u64>,
) -> Result<Vec<(u64, Option<u64>)>, TransactionFault>
    ensures ok { IfOk result (λ unsettled. unsettled.items
        ≡ filter_map (unsettled_in transactions.now.items) numbers.now.keys) }
    ensures memory { IfErr result (λ f. f ≡ TransactionFault.Memory) }
{
    let mut unsettled = Vec::new(alloc);
    for number in numbers {
        if let Some(one) = unsettled_number(transactions, *number) {
            unsettled.push(one)?;
        }
    }
    Ok(unsettled)
}

impl MemoryTransactions {
    ghost use Rattle.std.specs.Prelude.{◌≡◌, ◌≤◌, Some, length, slice_get, IfSome, IfNone};
    ghost use Rattle.commit_sink.specs.Ledger.{Ends, appended, blank, open_refusal};

    /// Transactions of so many subtasks, none of them begun. It takes no memory.
    pub fn new(alloc: Global, subtasks: u32) -> MemoryTransactions
        ensures { ⟦<MemoryTransactions as Transactions>⟧.state result ≡ blank subtasks }
    {
        MemoryTransactions {
            alloc,
            subtasks,
            transactions: Vec::new(alloc),
            committed: Roomy::new(alloc),
            shares: Vec::new(alloc),
        }
    }

    /// Puts a record last in an open transaction. It is not copied.
    #[inline(always)]
    pub(crate) fn append_bytes(
        &mut self,
        transaction: u64,
        row: Bytes,
    ) -> Result<(), TransactionFault>
        ensures { Ends (⟦<MemoryTransactions as Transactions>⟧.state self.old, 0)
            (⟦<MemoryTransactions as Transactions>⟧.state self.new, 0)
            (open_refusal (⟦<MemoryTransactions as Transactions>⟧.state self.old) transaction)
            (appended (⟦<MemoryTransactions as Transactions>⟧.state self.old) transaction row)
            result }
    {
        let place = open_place(&self.transactions, transaction)?;
        let subtask = subtask_of(&self.transactions, place);
        if is_full(&self.shares, subtask) {
            return Err(TransactionFault::Memory);
        }
        append_row(&mut self.transactions, place, row)?;
        add_row(&mut self.shares, subtask);
        Ok(())
    }
}

impl Transactions for MemoryTransactions {
    ghost state = { λ m. ledger_of m.subtasks m.transactions.items m.committed.items };

    ghost fault_count = { λ m. 0 };

    ghost ordered = { λ m. m.kept.ordered };

    fn is_new(&self) -> bool {
        self.transactions.is_empty()
    }

    fn subtasks(&self) -> u32 {
        self.subtasks
    }

    fn begin(&mut self, subtask: u32) -> Result<u64, TransactionFault> {
        self.transactions.reserve(1)?;
        let transaction = self.transactions.len() as u64 + 1;
        // The next checkpoint comes after about as many records as the last one.
        let room = last_row_count(&self.transactions, &self.shares, subtask as usize);
        promise_places(
            self.alloc,
            &mut self.committed,
            &mut self.shares,
            subtask as usize,
            transaction,
        )?;
        let entry = Entry::with_room(self.alloc, subtask, room.unwrap_or(0));
        self.transactions.push_reserved(entry);
        Ok(transaction)
    }

    fn append(&mut self, transaction: u64, bytes: Vec<u8>) -> Result<(), TransactionFault> {
        self.append_bytes(transaction, Bytes::from_vec(bytes))
    }

    fn pre_commit(&mut self, transaction: u64, checkpoint: u64) -> Result<(), TransactionFault> {
        let place = open_place(&self.transactions, transaction)?;
        set_progress(
            &mut self.transactions,
            place,
            Progress::PreCommitted(checkpoint),
        );
        Ok(())
    }

    fn commit(&mut self, transaction: u64) -> Result<(), TransactionFault> {
        let Some(place) = place_to_commit(&self.transactions, transaction)? else {
            return Ok(());
        };
        let subtask = subtask_of(&self.transactions, place);
        let rows = row_count(&self.transactions, place);
        set_progress(&mut self.transactions, place, Progress::Committed);
        self.committed.push(transaction);
        commit_rows(&mut self.shares, subtask, transaction, rows);
        Ok(())
    }

    fn abort(&mut self, transaction: u64) -> Result<(), TransactionFault> {
        let Some(place) = place_to_abort(&self.transactions, transaction)? else {
            return Ok(());
        };
        let subtask = subtask_of(&self.transactions, place);
        let rows = row_count(&self.transactions, place);
        abort_entry(&mut self.transactions, place);
        self.committed.release();
        drop_rows(&mut self.shares, subtask, transaction, rows);
        Ok(())
    }

    fn unsettled(&mut self, subtask: u32) -> Result<Vec<(u64, Option<u64>)>, TransactionFault> {
        match share_of(&self.shares, subtask) {
            Some(share) => unsettled_of(self.alloc, &self.transactions, &share.unsettled),
            None => Ok(Vec::new(self.alloc)),
        }
    }

    fn committed_len(&self, subtask: u32) -> u64 {
        match share_of(&self.shares, subtask) {
            Some(share) => share.committed_len(),
            None => 0,
        }
    }

    fn committed(&self, subtask: u32, index: u64) -> Result<Option<Vec<u8>>, TransactionFault> {
        let Some(share) = share_of(&self.shares, subtask) else {
            return Ok(None);
        };
        let Some((transaction, place)) = share.find(index) else {
            return Ok(None);
        };
        let row = row_at(&self.transactions, transaction, place);
        Ok(Some(Vec::from_slice(self.alloc, row)?))
    }

    fn committed_from(&self, subtask: u32, index: u64) -> &[Bytes] {
        let Some(share) = share_of(&self.shares, subtask) else {
            return &[];
        };
        let Some((transaction, place)) = share.find(index) else {
            return &[];
        };
        rows_from(&self.transactions, transaction, place)
    }

    fn faults(&self) -> u64 {
        0
    }
}

impl FaultlessTransactions for MemoryTransactions {
    ghost faultless = { λ m. refl };
}
