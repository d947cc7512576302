//! A store of snapshots: for each checkpoint number the part of each task, and which numbers are
//! complete. Proved: each call's refusals, in order, and what it leaves, in memory and over a plan
//! of faults; a fault leaves the state before the call or the one that Ok leaves, and is told
//! exactly where it is counted. A store in memory is listed in order, and made from such lists.
//!
//! Numbers come from the store, start at 1 and are never given out again. A number counts once it
//! is complete, which asks for the part of every task. A call that fails has done nothing or all of
//! its work. In memory a part is held as shared bytes: those that are put as such are not copied.
#![tactic(auto)]

mod flaky_store;
mod lists;
mod memory_store;
mod numbers;
mod parts;
mod store;

pub use flaky_store::{FaultlessStore, FlakyStore, StoreCall};
pub use memory_store::MemoryStore;
pub use store::{SnapshotStore, StoreFault};
