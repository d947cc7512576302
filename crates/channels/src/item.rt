//! What travels in a channel.

/// A record, or the barrier of a checkpoint (Carbone et al. 2015): what stands before the barrier
/// was sent before the sender's copy, and what stands behind it afterwards.
#[derive(Debug, Drop, PartialEq, Eq)]
pub enum Item<R> {
    Record(R),
    /// The barrier of the checkpoint of this number.
    Barrier(u64),
}
