//! Transactions of a job's sinks, committed in two phases as in Flink's
//! `TwoPhaseCommitSinkFunction`: pre-committed at a checkpoint's barrier, and committed once the
//! checkpoint is complete. Proved: each call's refusals, in order, and what it leaves, in memory
//! and over a plan of faults; a fault leaves the state before the call or the one that Ok leaves,
//! and is told exactly where it is counted. Transactions in memory are listed in order, and made
//! from such lists.
//!
//! What anyone may read are the records of the committed transactions of a subtask, joined in the
//! order of commit. A call that fails has done nothing or all of its work.
#![tactic(auto)]

mod entry;
mod flaky_transactions;
mod lists;
mod memory_transactions;
mod pages;
mod roomy;
mod share;
mod sink;
mod transactions;

pub use entry::Entry;
pub use flaky_transactions::{FaultlessTransactions, FlakyTransactions, TransactionCall};
pub use memory_transactions::MemoryTransactions;
pub use sink::{Pending, Sink};
pub use transactions::{Progress, TransactionFault, Transactions};
