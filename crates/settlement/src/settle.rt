//! A sink's transactions are settled.

ghost use Rattle.std.specs.Prelude.{◌≡◌, ◌≢◌, ◌<◌, Err};
ghost use Rattle.commit_sink.specs.Ledger.{unsettled_of};
ghost use Rattle.settlement.specs.declared.fault.SettlementFault.TheVariants as SettlementFault;
ghost use Rattle.settlement.specs.Ends as faults;
ghost use Rattle.settlement.specs.Ends.{EndsCommits, EndsAborts, EndsSettle};

use crate::fault::SettlementFault;
use commit_sink::{TransactionFault, Transactions};

/// Why they are not settled where one that is named was not committed.
fn commit_fault(fault: TransactionFault) -> SettlementFault
    ensures { result ≡ faults.commit_fault fault }
{
    match fault {
        TransactionFault::Fault => SettlementFault::Fault,
        _ => SettlementFault::NamesOther,
    }
}

/// Why they are not where another call was refused.
fn call_fault(fault: TransactionFault) -> SettlementFault
    ensures { result ≡ faults.call_fault fault }
{
    match fault {
        TransactionFault::Memory => SettlementFault::Memory,
        _ => SettlementFault::Fault,
    }
}

/// Commits the transactions that a sink names, the oldest first.
fn commit_named<X: Transactions>(names: &[u64], transactions: &mut X) -> Result<(), SettlementFault>
    ensures ends { EndsCommits (X.state transactions.old) (X.state transactions.new)
        names.now result }
    ensures same { (X.state transactions.new).subtasks ≡ (X.state transactions.old).subtasks }
    ensures counted { result ≡ Err SettlementFault.Fault
        → X.fault_count transactions.old < X.fault_count transactions.new }
    ensures told { result ≢ Err SettlementFault.Fault
        → X.fault_count transactions.new ≡ X.fault_count transactions.old }
{
    for name in names {
        if let Err(fault) = transactions.commit(*name) {
            return Err(commit_fault(fault));
        }
    }
    Ok(())
}

/// Aborts a sink's transactions that are neither committed nor aborted.
fn abort_all<X: Transactions>(
    subtask: u32,
    unsettled: &[(u64, Option<u64>)],
    transactions: &mut X,
) -> Result<(), SettlementFault>
    requires { unsettled.now ≡ unsettled_of (X.state transactions.old) subtask }
    ensures ends { EndsAborts (X.state transactions.old) (X.state transactions.new)
        unsettled.now result }
    ensures same { (X.state transactions.new).subtasks ≡ (X.state transactions.old).subtasks }
    ensures counted { result ≡ Err SettlementFault.Fault
        → X.fault_count transactions.old < X.fault_count transactions.new }
    ensures told { result ≢ Err SettlementFault.Fault
        → X.fault_count transactions.new ≡ X.fault_count transactions.old }
{
    for transaction in unsettled {
        if let Err(fault) = transactions.abort(transaction.0) {
            return Err(call_fault(fault));
        }
    }
    Ok(())
}

/// Settles a sink's transactions, of which these are named by its part of the checkpoint that the
/// job restarts from, and answers the one that is open then.
pub fn settle_sink<X: Transactions>(
    subtask: u32,
    names: &[u64],
    transactions: &mut X,
) -> Result<u64, SettlementFault>
    requires { subtask < (X.state transactions.old).subtasks }
    ensures ends { EndsSettle (X.state transactions.old) (X.state transactions.new)
        names.now subtask result }
    ensures same { (X.state transactions.new).subtasks ≡ (X.state transactions.old).subtasks }
    ensures counted { result ≡ Err SettlementFault.Fault
        → X.fault_count transactions.old < X.fault_count transactions.new }
    ensures told { result ≢ Err SettlementFault.Fault
        → X.fault_count transactions.new ≡ X.fault_count transactions.old }
{
    commit_named(names, transactions)?;
    let unsettled = match transactions.unsettled(subtask) {
        Ok(unsettled) => unsettled,
        Err(fault) => return Err(call_fault(fault)),
    };
    abort_all(subtask, &unsettled, transactions)?;
    match transactions.begin(subtask) {
        Ok(opened) => Ok(opened),
        Err(fault) => Err(call_fault(fault)),
    }
}
