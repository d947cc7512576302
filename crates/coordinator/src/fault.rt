//! Why a call on the coordinator is refused.

use thiserror::Error;

#[derive(Clone, Copy, Debug, PartialEq, Eq, Error)]
pub enum CoordinatorFault {
    /// A checkpoint is pending already.
    #[error("O1 AlreadyPending")]
    AlreadyPending,
    /// That number isn't pending.
    #[error("O2 NotPending")]
    NotPending,
    /// A task hasn't acknowledged the pending number.
    #[error("O3 NotAllAcked")]
    NotAllAcked,
    /// The task has acknowledged the pending number already.
    #[error("O4 AlreadyAcked")]
    AlreadyAcked,
}
