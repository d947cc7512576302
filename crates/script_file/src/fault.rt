//! Why a script was refused.

ghost use Rattle.std.specs.Prelude.{◌≡◌};
ghost use Rattle.script_file.specs.declared.fault.ScriptFault.TheVariants as whole;
ghost use Rattle.script_file.specs.declared.fault.ItemFault.TheVariants as one;

use job_spec::JobFault;
use std::alloc::{AllocError, AllocFailed};
use thiserror::Error;

/// Why one row or one step could not be read.
#[derive(Clone, Copy, Debug, PartialEq, Eq, Error)]
pub enum ItemFault {
    /// It does not have the form of one.
    #[error("bad")]
    Bad,
    #[error("no memory")]
    Memory,
}

/// The first fault of a script. Partitions, rows and steps are counted from 0.
#[derive(Debug, Drop, Error)]
pub enum ScriptFault {
    /// More than 16,777,216 bytes.
    #[error("script: too long")]
    TooLong,
    #[error("script: not JSON")]
    NotJson,
    /// No object of exactly a job, a list of lists and a list of texts.
    #[error("script: bad field")]
    BadField,
    /// The job is at fault.
    #[error("{0}")]
    Job(JobFault),
    /// The source tasks that want a partition each, and the partitions.
    #[error("inputs: want {want}, got {got}")]
    Inputs { want: u32, got: usize },
    #[error("partition {partition} row {row}: bad row")]
    BadRow { partition: usize, row: usize },
    #[error("step {0}: bad step")]
    BadStep(usize),
    #[error("no memory")]
    Memory,
}

impl From<AllocError> for ItemFault {
    ghost from_gives = { λ _ e. e ≡ one.Memory };

    fn from(_e: AllocError) -> ItemFault {
        ItemFault::Memory
    }
}

impl From<AllocError> for ScriptFault {
    ghost from_gives = { λ _ e. e ≡ whole.Memory };

    fn from(_e: AllocError) -> ScriptFault {
        ScriptFault::Memory
    }
}

impl From<JobFault> for ScriptFault {
    ghost use Rattle.std.specs.Prelude.{◌≡◌};
    ghost use Rattle.script_file.specs.JobFaults.{fault_of};

    ghost from_gives = { λ f e. e ≡ fault_of f };

    fn from(fault: JobFault) -> ScriptFault {
        match fault {
            JobFault::Memory => ScriptFault::Memory,
            other => ScriptFault::Job(other),
        }
    }
}

impl<T: Drop> From<AllocFailed<T>> for ScriptFault {
    ghost from_gives = { λ _ e. e ≡ whole.Memory };

    fn from(_e: AllocFailed<T>) -> ScriptFault {
        ScriptFault::Memory
    }
}
