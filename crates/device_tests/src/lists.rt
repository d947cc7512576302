//! Transactions that lists make. Stores that lists make stand under the cores of core_tests.

ghost use Rattle.std.specs.Prelude.{◌≡◌, [], ◌∷◌, IfOk};

use abs_codec::{Bytes, Items};
use commit_sink::{Entry, MemoryTransactions, Progress, Transactions};
use std::alloc::Global;
use std::process::Abort;
use std::test::Fail;

/// A list of one item.
fn only<T: Drop>(alloc: Global, item: T) -> Result<Items<T>, Fail>
    ensures { IfOk result (λ items. items ≡ item ∷ []) }
{
    let mut items = Items::new(alloc);
    items.push(item)?;
    Ok(items)
}

/// Transactions of one subtask: the first is committed, with one record.
fn transactions_of_lists(alloc: Global) -> Result<MemoryTransactions, Fail> {
    let records = only(alloc, Bytes::from_slice(alloc, &[5])?)?;
    let entry = Entry::of(0, Progress::Committed, records);
    let entries = only(alloc, entry)?.into_vec();
    Ok(MemoryTransactions::from_lists(alloc, 1, entries, only(alloc, 1)?)?)
}

/// What the lists are.
fn expect_entries(rt: &impl Abort, sinks: &MemoryTransactions) {
    let transaction = sinks.transaction_at(0);
    assert!(rt; transaction == Some((0, Progress::Committed, 1)));
    assert_eq!(rt; sinks.records_from(0, 0).len(), 1);
    assert_eq!(rt; sinks.records_from(0, 1).len(), 0);
    assert_eq!(rt; sinks.records_from(1, 0).len(), 0);
    assert_eq!(rt; sinks.committed_at(0), Some(1));
    assert_eq!(rt; sinks.committed_at(1), None);
}

#[test]
fn lists_make_transactions(rt: HostRuntime) -> Result<(), Fail> {
    let sinks = transactions_of_lists(rt.alloc())?;
    expect_entries(&rt, &sinks);
    Ok(())
}

/// Transactions of one subtask: the first is open, with so many records.
fn transaction_of(alloc: Global, count: u64) -> Result<MemoryTransactions, Fail> {
    let mut sinks = MemoryTransactions::new(alloc, 1);
    let transaction = sinks.begin(0)?;
    for _ in 0..count {
        sinks.append(transaction, Vec::new(alloc))?;
    }
    Ok(sinks)
}

#[test]
fn records_stand_in_pages(rt: HostRuntime) -> Result<(), Fail> {
    let sinks = transaction_of(rt.alloc(), 3_000)?;
    assert_eq!(rt; sinks.records_from(0, 0).len(), 64);
    assert_eq!(rt; sinks.records_from(0, 1_500).len(), 36);
    assert_eq!(rt; sinks.records_from(0, 2_999).len(), 1);
    Ok(())
}
