//! A finish that is counted: what the core's own `finish` does, or its `accept` or `accept_rows`,
//! and the number of the records that are taken in a worker's share and in a book of totals.
//! Proved, beside what the core proves of the call: of each claim that has ended fewer than 2^64
//! were counted, so no share reaches 2^128.
#![tactic(auto)]

mod counting;

pub use counting::{accept_counted, accept_rows_counted, finish_counted};
