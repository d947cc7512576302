//! Replayable partitions: lists of records that only grow, each record read by its offset. Proved:
//! each call's refusals, in order, and what it leaves, in memory and over a plan of faults; all
//! records fit; a fault leaves the state before the call or the one that Ok leaves, and is told
//! exactly where it is counted.
//!
//! A record at an offset stays there, `append` puts one last, and a call that fails has done
//! nothing or all of its work.
#![tactic(auto)]

mod flaky_log;
mod memory_log;
mod partitions;
mod rows;

pub use flaky_log::{FaultlessLog, FlakyLog, LogCall};
pub use memory_log::MemoryLog;
pub use partitions::{Partitions, SourceFault};
