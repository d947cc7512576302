//! A job restarts: the parts of its last complete checkpoint say what its tasks start from, and the
//! transactions are settled. Proved: all parts are read and judged before a transaction is touched;
//! a damaged part is told with its task and why; the transactions that a sink's part names are
//! committed, the oldest first, every other that is neither committed nor aborted is aborted, and a
//! new one is open; the logs stand in the back-edges.
//!
//! All parts are read and judged before any transaction is touched. Then each sink's transactions
//! are settled: those that its part names are committed, the oldest first; every other that is
//! neither committed nor aborted is aborted; and a new one is opened. The attempt begins with the
//! parts' logs in the back-edges.
#![tactic(auto)]

mod fault;
mod logs;
mod parts;
mod restart;
mod settle;
mod starts;

pub use fault::RecoveryFault;
pub use parts::{Restored, restore};
pub use restart::restarted;
pub use settle::settle_transactions;
