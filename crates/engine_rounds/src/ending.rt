//! How draining ends.

/// Whether a job that was drained came to rest.
#[derive(Clone, Copy, Debug, PartialEq, Eq)]
pub enum Drained {
    /// No task has a step left to make.
    AtRest,
    /// As many steps were made as were allowed, and a further one is possible.
    TurnsSpent,
}
