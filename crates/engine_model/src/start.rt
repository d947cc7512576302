//! What a task starts from.

use abs_codec::{Items, Map};

/// A source its offset, an operator its states by key, a sink subtask the transactions that are to
/// be committed, the oldest first; operators and sinks also the records that their back-edges hold,
/// by channel.
#[derive(Drop)]
pub enum Start<R, K: Ord, S> {
    Source(u64),
    Operator(Map<K, S>, Items<(u32, Items<R>)>),
    Sink(u32, Items<u64>, Items<(u32, Items<R>)>),
}
