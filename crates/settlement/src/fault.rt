//! Why a sink's transactions are not settled.

use thiserror::Error;

/// Why a sink's transactions are not settled.
#[derive(Clone, Copy, Debug, PartialEq, Eq, Error)]
pub enum SettlementFault {
    /// A device failed.
    #[error("a device failed")]
    Fault,
    /// A transaction that is named may not be committed.
    #[error("a transaction that is named may not be committed")]
    NamesOther,
    /// Memory was refused.
    #[error("no memory")]
    Memory,
}
