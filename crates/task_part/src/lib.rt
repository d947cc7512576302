//! A task's part of a checkpoint, and its spelling: what the snapshot store keeps for the task.
//! Proved: a part has one spelling, by the law of `abs_codec`; a copy and logs that stand apart are
//! spelled as the part that they make, and neither is copied for it.
//!
//! A source's part is its offset, an operator's its map from key to state, a sink's the numbers of
//! the transactions that were pending when it copied. Operators and sinks add a log for each logged
//! input (Carbone et al. 2015, graphs with back-edges).
#![tactic(auto)]

mod part;
mod spell;

pub use part::Part;
pub use spell::{write_count, write_logs, write_sink, write_source, write_with_logs};
