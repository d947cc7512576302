//! Why a run is refused.

use engine_model::CoreFault;
use thiserror::Error;

/// Why a run is refused.
#[derive(Clone, Copy, Debug, PartialEq, Eq, Error)]
pub enum RunFault {
    /// There are no workers, or more than 64.
    #[error("N1 BadWorkers")]
    BadWorkers,
    /// The turns were taken before the job was at rest.
    #[error("N2 TurnsSpent")]
    TurnsSpent,
    /// The job went down once more than it may be restarted.
    #[error("N3 RestartsSpent")]
    RestartsSpent,
    /// Memory was refused.
    #[error("N4 Memory")]
    Memory,
    /// All readers of the station were handed out, or it has none.
    #[error("N5 ReadersFull")]
    ReadersFull,
    /// The core refused a step for good.
    #[error("N6 Core: {0}")]
    Core(CoreFault),
    /// The output writer has ended.
    #[error("N7 Closed")]
    Closed,
}
