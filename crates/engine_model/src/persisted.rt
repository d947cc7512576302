//! How far a task's part is.

/// Whether a call that goes on with a task's part has left more to do.
#[derive(Clone, Copy, Debug, PartialEq, Eq)]
pub enum Persisted {
    /// The part is not in the store yet.
    More,
    /// The part is in the store, and acknowledged.
    Done,
}
