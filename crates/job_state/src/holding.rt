//! What a task holds.

use abs_codec::Map;
use commit_sink::Sink;

/// A source its offset, an operator its states by key, a sink its transactions.
#[derive(Drop)]
pub enum Holding<K: Ord, S> {
    Source(u64),
    Operator(Map<K, S>),
    Sink(Sink),
}
