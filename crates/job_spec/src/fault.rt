//! Why a job file was refused.

ghost use Rattle.std.specs.Prelude.{◌≡◌};
ghost use Rattle.job_spec.specs.declared.fault.JobFault.TheVariants.{Memory};

use std::alloc::{AllocError, AllocFailed};
use thiserror::Error;

/// The first fault of a job file.
#[derive(Debug, Drop, Error)]
pub enum JobFault {
    #[error("G1 BadJson")]
    BadJson,
    #[error("G2 BadField")]
    BadField,
    #[error("G3 DuplicateName")]
    DuplicateName,
    #[error("G4 UnknownName")]
    UnknownName,
    #[error("G5 EdgeIntoSource")]
    EdgeIntoSource,
    #[error("G6 EdgeFromSink")]
    EdgeFromSink,
    #[error("G7 ForwardNeedsEqual")]
    ForwardNeedsEqual,
    #[error("G8 KeyedNeedsHash")]
    KeyedNeedsHash,
    /// The names of the vertices on the cycles or behind them.
    #[error("G9 UnmarkedCycle")]
    UnmarkedCycle(Vec<String>),
    #[error("G10 NoPlainInput")]
    NoPlainInput,
    #[error("G11 TooMany")]
    TooMany,
    #[error("G12 BadPort")]
    BadPort,
    #[error("G13 Memory")]
    Memory,
}

impl From<AllocError> for JobFault {
    ghost from_gives = { λ _ e. e ≡ Memory };

    fn from(_e: AllocError) -> JobFault {
        JobFault::Memory
    }
}

impl<T: Drop> From<AllocFailed<T>> for JobFault {
    ghost from_gives = { λ _ e. e ≡ Memory };

    fn from(_e: AllocFailed<T>) -> JobFault {
        JobFault::Memory
    }
}
