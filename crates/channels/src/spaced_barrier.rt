//! Where a barrier stands among records.

/// A barrier, by the records before it.
#[derive(Clone, Copy)]
pub(crate) struct SpacedBarrier {
    /// How many records stand between it and the barrier before it, or the front.
    pub(crate) gap: usize,
    /// The number of its checkpoint.
    pub(crate) checkpoint: u64,
}
